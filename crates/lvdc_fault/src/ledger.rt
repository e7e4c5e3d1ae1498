ghost use Rattle.std.specs.Prelude.{◌≡◌, ◌+◌, ◌*◌, ◌/◌, ◌<◌, ◌^◌, true, All, IfOk, OnOk, slice_set};
ghost use Rattle.lvdc_word.specs.Cell.{code_of, word_in};
ghost use Rattle.lvdc_map.specs.Address.{Spot, IsAddress, number_of};
ghost use Rattle.lvdc_map.specs.Banks.{is_there};
ghost use Rattle.lvdc_map.specs.Memory.{Memory, AllThere, IsMemory, word_at, stored, memory_of};
ghost use Rattle.lvdc_fault.specs.Ledger.{intended_at, ArePlaced, GathersWords};
ghost use Rattle.lvdc_fault.specs.Recoverable.{recovers_by, is_recovered, shown_by};
ghost use Rattle.lvdc_twin.specs.Store.{survives};

use crate::codes::Codes;
use lvdc_map::{Address, Banks, Placed};
use lvdc_word::{Cell, NoMemory, Word};
use std::alloc::Global;
use std::marker::Model;

/// The intended words: the last word that was written at each address, else the image's, else 0. Each is kept as its good
/// cell, since that is what the twins are compared with. It knows nothing of faults.
pub struct Ledger {
    banks: Banks,
    words: Codes,
}

/// Its parts go in one call, which whoever lets it go doesn't look into.
impl Drop for Ledger {
    fn drop(self) {
        let Ledger { banks: _, words: _ } = self;
    }
}

impl Model for Ledger {
    ghost use Rattle.lvdc_fault.specs.Ledger.{Intended};

    ghost Value = { Intended };

    ghost view = { λ l. record { banks = l.banks; words = l.words } };

    ghost use Rattle.lvdc_fault.specs.Ledger.{NoneElsewhere};

    ghost invariant = { λ l. NoneElsewhere l.banks l.words };
}

impl Ledger {
    /// The words of an image.
    pub fn new(alloc: Global, image: &[Placed], banks: Banks) -> Result<Ledger, NoMemory>
        requires { AllThere banks image.now }
        ensures banks { IfOk result (λ l. l.banks ≡ banks) }
        ensures words { IfOk result (λ l. IsMemory l.words (memory_of image.now)) }
        // What an image places are words, by their type.
        ensures placed { IfOk result (λ l. All (λ placed. placed.word < 2 ^ 26) image.now) }
    {
        let words = Codes::of_image(alloc, image)?;
        Ok(Ledger { banks, words })
    }

    /// From now on this word is intended at the address.
    pub fn wrote(&mut self, at: Address, word: Word)
        requires { is_there self.old.banks at ≡ true }
        ensures value { self.new
            ≡ record self.old { words = slice_set self.old.words (number_of at) word } }
        ensures words { (m : Memory) → IsMemory self.old.words m
            → IsMemory self.new.words (stored m at word) }
        ensures banks { self.new.banks ≡ self.old.banks }
    {
        self.words.store(at, word);
    }

    /// The word intended at an address.
    pub fn intended(&self, at: Address) -> Word
        requires { is_there self.now.banks at ≡ true }
        ensures value { result ≡ intended_at self.now at }
        ensures words { (m : Memory) → IsMemory self.now.words m → result ≡ word_at m at }
    {
        self.words.word(at)
    }

    /// The good cell of the word intended at an address.
    pub fn code(&self, at: Address) -> Cell
        requires { is_there self.now.banks at ≡ true }
        ensures value { result ≡ code_of (intended_at self.now at) }
        ensures word { word_in result ≡ intended_at self.now at }
        ensures words { (m : Memory) → IsMemory self.now.words m → result ≡ code_of (word_at m at) }
    {
        self.words.code(at)
    }

    /// The intended words other than 0, rising by address.
    pub fn placed(&self, alloc: Global) -> Result<Vec<Placed>, NoMemory>
        ensures { IfOk result (λ placed. ArePlaced self.now placed.items) }
    {
        let mut placed = Vec::new(alloc);
        for sector in 0..Address::SECTORS {
            if !self.words.is_blank(sector) {
                self.gather(sector, &mut placed)?;
            }
        }
        Ok(placed)
    }

    /// Adds the intended words of a sector, of the 128 in the order of addresses, but for 0.
    fn gather(&self, sector: usize, placed: &mut Vec<Placed>) -> Result<(), NoMemory>
        requires { sector < 128 }
        ensures { OnOk result (GathersWords self.now.banks self.now.words (256 * sector) placed.old.items
            → GathersWords self.now.banks self.now.words (256 * sector + 256) placed.new.items) }
    {
        for number in 256 * sector..256 * sector + 256 {
            let at = Address::numbered(number);
            let word = self.words.word(at);
            if word != Word::ZERO {
                placed.push(Placed { at, word })?;
            }
        }
        Ok(())
    }

    /// Is 0 intended at the address at this place in the order of all addresses? False says nothing.
    #[inline(always)]
    pub fn is_zero(&self, number: usize) -> bool
        requires { number < 32768 }
        ensures { result ≡ true → (at : Spot) → IsAddress at → number_of at ≡ number → intended_at self.now at ≡ 0 }
    {
        self.words.is_zero(number)
    }

    /// Is 0 intended at each address of a sector, of the 128 in the order of addresses? False says nothing.
    pub fn is_blank(&self, sector: usize) -> bool
        requires { sector < 128 }
        ensures { result ≡ true → (at : Spot) → IsAddress at → number_of at / 256 ≡ sector → intended_at self.now at ≡ 0 }
    {
        self.words.is_blank(sector)
    }

    /// Can the intended word be recovered from what twin 0 and twin 1 show? In a duplex pair a twin shows its cell, and each
    /// twin that shows another cell shows a bad one; in a simplex pair the twin with the bank shows its cell, and the other
    /// isn't looked at.
    pub fn recoverable(&self, at: Address, zeroth: Cell, first: Cell) -> bool
        requires { is_there self.now.banks at ≡ true }
        ensures value { result
            ≡ is_recovered self.now.banks at (intended_at self.now at) (shown_by zeroth first) }
        ensures words { (m : Memory) → IsMemory self.now.words m
            → result ≡ is_recovered self.now.banks at (word_at m at) (shown_by zeroth first) }
    {
        let code = self.code(at);
        recovers(
            self.banks.simplex(at.pair % 4),
            at.pair,
            code,
            zeroth,
            first,
        )
    }
}

/// Can this cell of a bank be recovered, in a simplex or a duplex pair?
fn recovers(simplex: bool, bank: u8, cell: Cell, zeroth: Cell, first: Cell) -> bool
    requires { bank < 8 }
    ensures { result ≡ recovers_by simplex bank cell (shown_by zeroth first) }
{
    if simplex {
        let shown = if bank < 4 { zeroth } else { first };
        shown == cell
    } else {
        survives(cell, zeroth, first)
    }
}

/// Does a twin show the cell, and each twin that shows another one a bad one?
fn survives(cell: Cell, zeroth: Cell, first: Cell) -> bool
    ensures { result ≡ survives cell zeroth first }
{
    let good = |shown: Cell| shown.decode().is_some();
    (zeroth == cell || first == cell)
        && (zeroth == cell || !good(zeroth))
        && (first == cell || !good(first))
}
