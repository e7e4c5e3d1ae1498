//! Reads: a bad cell is mended from the other twin.

ghost use Rattle.std.specs.Prelude.{◌≡◌, ℕ, ◌-◌, ◌/◌, ◌%◌, ◌^◌, ◌<◌, true, false, Ok, IfOk, IfSome, IsErr, OnErr, ◌↔◌};
ghost use Rattle.lvdc_word.specs.Cell.{code_of};
ghost use Rattle.lvdc_map.specs.Address.{Spot};
ghost use Rattle.lvdc_map.specs.Banks.{is_there, is_simplex, home, IsPlace};
ghost use Rattle.lvdc_twin.specs.Store.{IsStore, Store, selected_in, shown_in, survives, with_selected};
ghost use Rattle.lvdc_twin.specs.Calls.{all_show, answer_by_one, answer_by_two, answer_of, after_answer, shows_word, Finds, Mends, NoneGood};

use crate::{BothBad, ReadOut, Twins};
use lvdc_map::Address;
use lvdc_word::Cell;

impl Twins {
    /// The word at an address. In a duplex pair the selected twin is used where it shows a good cell, else the other, which
    /// becomes selected; and a twin that showed a bad cell is rewritten, unless it is dead. In a simplex pair the twin with
    /// the bank is read, and nothing changes. `BothBad` means that no twin that holds the address shows a good cell.
    pub fn read(&mut self, at: Address) -> Result<ReadOut, BothBad>
        requires { is_there self.old.banks at ≡ true }
        ensures answer { result ≡ answer_of self.old at }
        ensures after { self.new ≡ after_answer result self.old (home at) }
        ensures both_bad { IsErr result ↔ NoneGood self.old at }
        ensures unchanged { OnErr result (self.new ≡ self.old) }
        ensures repaired { IfOk result (λ r. IfSome r.repaired (λ twin. twin < 2)) }
        ensures mends { (w : ℕ) → w < 2 ^ 26 → is_simplex self.old.banks (at.pair % 4) ≡ false
            → shows_word self.old (home at) w ≡ true → Mends self.old self.new (home at) w result }
        ensures banks { self.new.banks ≡ self.old.banks }
        ensures whole { IsStore self.old }
        ensures place { IsPlace (home at) }
        ensures bank { at.pair < 8 }
    {
        let place = at.home();
        if self.banks.simplex(place.pair) {
            answer_by_one(self.view(at.pair / 4, place))
        } else {
            self.read_two(place)
        }
    }

    /// Does each twin that holds an address show this cell there?
    #[inline(always)]
    pub fn all_show(&self, at: Address, cell: Cell) -> bool
        requires { is_there self.now.banks at ≡ true }
        ensures value { result ≡ all_show self.now at cell }
        ensures whole { IsStore self.now }
        ensures place { IsPlace (home at) }
        ensures bank { at.pair < 8 }
    {
        let place = at.home();
        if self.banks.simplex(place.pair) {
            self.view(at.pair / 4, place) == cell
        } else {
            self.view(0, place) == cell && self.view(1, place) == cell
        }
    }

    /// A read of a duplex pair.
    fn read_two(&mut self, place: Address) -> Result<ReadOut, BothBad>
        requires { place.pair < 4 }
        ensures repaired { IfOk result (λ r. IfSome r.repaired (λ twin. twin < 2)) }
        ensures answer { let selected = selected_in self.old place.pair in
            result ≡ answer_by_two selected (shown_in self.old selected place)
            (shown_in self.old (1 - selected) place) }
        ensures after { self.new ≡ after_answer result self.old place }
    {
        let selected = self.selected(place.pair);
        let read = answer_by_two(
            selected,
            self.view(selected, place),
            self.view(1 - selected, place),
        )?;
        self.repair(place, &read);
        Ok(read)
    }

    /// What a read of a duplex pair leaves.
    fn repair(&mut self, place: Address, read: &ReadOut)
        requires pair { place.pair < 4 }
        requires repaired { IfSome read.now.repaired (λ twin. twin < 2) }
        ensures { self.new ≡ after_answer (Ok read.now) self.old place }
    {
        if let Some(twin) = read.repaired {
            self.store(twin, place, read.word);
        }
        if read.switched {
            self.switch(place.pair);
        }
    }

    /// Selects the other twin of a pair.
    fn switch(&mut self, pair: u8)
        requires { pair < 4 }
        ensures { self.new ≡ with_selected self.old pair (1 - selected_in self.old pair) }
    {
        let pair = usize::from(pair);
        self.selected[pair] = 1 - self.selected[pair];
    }
}

/// What a read of a simplex pair answers, by the cell that the twin with the bank shows.
fn answer_by_one(shown: Cell) -> Result<ReadOut, BothBad>
    ensures { result ≡ answer_by_one shown }
{
    let word = shown.decode().ok_or(BothBad)?;
    Ok(ReadOut {
        word,
        repaired: None,
        switched: false,
    })
}

/// What a read of a duplex pair answers, by the cells that the selected twin and the other one show.
fn answer_by_two(selected: u8, mine: Cell, others: Cell) -> Result<ReadOut, BothBad>
    requires { selected < 2 }
    ensures value { result ≡ answer_by_two selected mine others }
    ensures repaired { IfOk result (λ r. IfSome r.repaired (λ twin. twin < 2)) }
{
    match (mine.decode(), others.decode()) {
        (Some(word), Some(_)) => Ok(ReadOut {
            word,
            repaired: None,
            switched: false,
        }),
        (Some(word), None) => Ok(ReadOut {
            word,
            repaired: Some(1 - selected),
            switched: false,
        }),
        (None, Some(word)) => Ok(ReadOut {
            word,
            repaired: Some(selected),
            switched: true,
        }),
        (None, None) => Err(BothBad),
    }
}

/// A read finds a word of which the code survives in what is shown, whichever twin it uses first.
pub fn survivor_is_read()
    ensures one { (w : ℕ) → w < 2 ^ 26 → answer_by_one (code_of w)
        ≡ Ok (record { word = w; repaired = None; switched = false }) }
    ensures two { (w selected : ℕ) (shown : ℕ → ℕ) → selected < 2 → w < 2 ^ 26
        → survives (code_of w) (shown 0) (shown 1) ≡ true
        → Finds w shown (answer_by_two selected (shown selected) (shown (1 - selected))) }
{}

/// A read finds a word of which each twin that holds the address shows the code, and has nothing to mend.
pub fn shown_word_is_read()
    ensures { (t : Store) (at : Spot) (w : ℕ) → IsStore t → w < 2 ^ 26 → all_show t at (code_of w) ≡ true
        → answer_of t at ≡ Ok (record { word = w; repaired = None; switched = false }) }
{}
