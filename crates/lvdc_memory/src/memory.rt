//! The memory of the voted machine.

ghost use Rattle.std.specs.Prelude.{◌≡◌, ℕ, ◌/◌, ◌<◌, ◌^◌, true, All, Option, None, Some, IfOk, IfSome, OnErr};
ghost use Rattle.lvdc_map.specs.Address.{Spot, IsAddress, number_of};
ghost use Rattle.lvdc_map.specs.Banks.{is_there};
ghost use Rattle.lvdc_map.specs.Memory.{Memory, word_at, stored, memory_of, AllThere};
ghost use Rattle.lvdc_fault.specs.Recoverable.{is_recovered};
ghost use Rattle.lvdc_model.specs.Known.{shows_since};
ghost use Rattle.lvdc_model.specs.Trial.{Trial};
ghost use Rattle.lvdc_model.specs.Twins as model;
ghost use Rattle.lvdc_model.specs.Twins.{read_answer, after_read, after_store, twins_at_start};
ghost use Rattle.lvdc_memory.specs.Holds.{IsMemoryOf, IsZeroAt};

use lvdc_fault::Ledger;
use lvdc_map::{Address, Banks, Placed};
use lvdc_twin::{BothBad, ReadOut, Twins, changes_are_local};
use lvdc_word::{NoMemory, Word};
use std::alloc::Global;
use std::marker::Model;

/// The memory of the voted machine. What a fault script sticks and kills in a step is put in force as the step begins, by
/// `MemoryEvents`.
pub struct VotedMemory {
    pub(crate) twins: Twins,
    pub(crate) ledger: Ledger,
}

impl Model for VotedMemory {
    ghost use Rattle.std.specs.Prelude.{◌≡◌};
    ghost use Rattle.lvdc_memory.specs.Holds.{MemoryState};

    ghost Value = { MemoryState };

    ghost view = { λ m. record { twins = m.twins; ledger = m.ledger } };

    ghost invariant = { λ m. m.ledger.banks ≡ m.twins.banks };
}

/// Its parts go in one call, which whoever lets a memory go doesn't look into.
impl Drop for VotedMemory {
    fn drop(self) {
        let VotedMemory {
            twins: _,
            ledger: _,
        } = self;
    }
}

impl VotedMemory {
    /// The memory that an image makes, with 0 where it has no word. Nothing is damaged, stuck or dead.
    pub fn new(alloc: Global, image: &[Placed], banks: Banks) -> Result<VotedMemory, NoMemory>
        requires { AllThere banks image.now }
        ensures holds { IfOk result (λ m. (o : Trial) → o.opening.image ≡ image.now
            → o.opening.banks ≡ banks
            → IsMemoryOf o None m (twins_at_start o) (memory_of o.opening.image)) }
        ensures banks { IfOk result (λ m. m.twins.banks ≡ banks) }
        // What an image places are words, by their type.
        ensures placed { IfOk result (λ m. All (λ placed. placed.word < 2 ^ 26) image.now) }
    {
        Ok(VotedMemory {
            twins: Twins::new(alloc, image, banks)?,
            ledger: Ledger::new(alloc, image, banks)?,
        })
    }

    /// Can the intended word of an address be recovered from what the twins show there?
    pub fn recoverable(&self, at: Address) -> bool
        requires { is_there self.now.twins.banks at ≡ true }
        ensures { (o : Trial) (in_force : Option ℕ) (t : model.Twins) (i : Memory)
            → IsMemoryOf o in_force self.now t i
            → result ≡ is_recovered o.opening.banks at (word_at i at)
            (λ twin. shows_since in_force o t twin at) }
    {
        let place = at.home();
        self.ledger
            .recoverable(at, self.twins.view(0, place), self.twins.view(1, place))
    }

    /// Is 0 intended at an address, by its number, and does each twin show its cell there? So it can be recovered. False says nothing.
    #[inline(always)]
    pub fn is_zero(&self, number: usize) -> bool
        requires { number < 32768 }
        ensures { result ≡ true → (o : Trial) (in_force : Option ℕ) (t : model.Twins) (i : Memory)
            → IsMemoryOf o in_force self.now t i → (at : Spot) → IsAddress at → number_of at ≡ number → IsZeroAt o in_force t i at }
    {
        self.ledger.is_zero(number) && self.twins.is_zero(number % 16384)
    }

    /// Is 0 intended at each address of a sector, of the 128 in the order of addresses, and does each twin show its cell there? So it can
    /// be recovered. False says nothing: it tells in which sectors nothing was loaded, stored, damaged, stuck or dead.
    pub fn is_blank(&self, sector: usize) -> bool
        requires { sector < 128 }
        ensures { result ≡ true → (o : Trial) (in_force : Option ℕ) (t : model.Twins) (i : Memory)
            → IsMemoryOf o in_force self.now t i → (at : Spot) → IsAddress at → number_of at / 256 ≡ sector → IsZeroAt o in_force t i at }
    {
        self.ledger.is_blank(sector) && self.twins.is_blank(sector % 64)
    }

    /// The word at an address, read by the rules of the two twins. `BothBad` means that no twin that holds the address shows
    /// a good cell there.
    pub fn read(&mut self, at: Address) -> Result<ReadOut, BothBad>
        requires { is_there self.old.twins.banks at ≡ true }
        ensures answer { (o : Trial) (step : ℕ) (t : model.Twins) (i : Memory)
            → IsMemoryOf o (Some step) self.old t i → result ≡ read_answer o step t at }
        ensures after { IfOk result (λ r. (o : Trial) (step : ℕ) (t : model.Twins) (i : Memory)
            → IsMemoryOf o (Some step) self.old t i
            → IsMemoryOf o (Some step) self.new (after_read o step t at r) i) }
        ensures repaired { IfOk result (λ r. IfSome r.repaired (λ twin. twin < 2)) }
        ensures unchanged { OnErr result (self.new ≡ self.old) }
        ensures banks { self.new.twins.banks ≡ self.old.twins.banks }
    {
        changes_are_local();
        self.twins.read(at)
    }

    /// Stores a word in each twin that holds the address and isn't dead. It is what is intended there from now on.
    pub fn store(&mut self, at: Address, word: Word)
        requires { is_there self.old.twins.banks at ≡ true }
        ensures after { (o : Trial) (step : ℕ) (t : model.Twins) (i : Memory)
            → IsMemoryOf o (Some step) self.old t i
            → IsMemoryOf o (Some step) self.new (after_store o step at word t) (stored i at word) }
        ensures banks { self.new.twins.banks ≡ self.old.twins.banks }
    {
        changes_are_local();
        self.twins.write(at, word);
        self.ledger.wrote(at, word);
    }

    /// The word that is intended at an address: the last one stored there, else the image's, else 0.
    pub fn intended(&self, at: Address) -> Word
        requires { is_there self.now.twins.banks at ≡ true }
        ensures { (o : Trial) (in_force : Option ℕ) (t : model.Twins) (i : Memory)
            → IsMemoryOf o in_force self.now t i → result ≡ word_at i at }
    {
        self.ledger.intended(at)
    }
}
