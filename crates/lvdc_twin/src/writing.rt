//! Writes: each twin that holds the address stores the word.

ghost use Rattle.std.specs.Prelude.{◌≡◌, ℕ, ◌<◌, true};
ghost use Rattle.lvdc_word.specs.Cell.{code_of};
ghost use Rattle.lvdc_map.specs.Banks.{is_there, home, IsPlace};
ghost use Rattle.lvdc_twin.specs.Store.{IsStore, with_word};
ghost use Rattle.lvdc_twin.specs.Calls.{with_held, after_write};

use crate::Twins;
use crate::twins::slot;
use lvdc_map::Address;
use lvdc_word::{Cell, Word};

impl Twins {
    /// Stores a word in each twin that holds the address and isn't dead.
    #[inline(always)]
    pub fn write(&mut self, at: Address, word: Word)
        requires { is_there self.old.banks at ≡ true }
        ensures after { self.new ≡ after_write self.old at word }
        ensures banks { self.new.banks ≡ self.old.banks }
        ensures whole { IsStore self.old }
        ensures place { IsPlace (home at) }
    {
        let cell = Cell::encode(word);
        self.write_held(0, at, cell);
        self.write_held(1, at, cell);
    }

    /// Stores a cell at an address, where this twin holds it.
    #[inline(always)]
    fn write_held(&mut self, twin: u8, at: Address, cell: Cell)
        requires { twin < 2 }
        ensures whole { IsStore self.old }
        ensures place { IsPlace (home at) }
        ensures after { (w : ℕ) → cell ≡ code_of w → self.new ≡ with_held self.old twin at w }
    {
        let place = at.home();
        if self.banks.holds(twin, at) {
            self.put(twin, place, cell);
        }
    }

    /// Stores a word at a physical place of a twin that isn't dead.
    pub(crate) fn store(&mut self, twin: u8, place: Address, word: Word)
        requires twin { twin < 2 }
        requires pair { place.pair < 4 }
        ensures { self.new ≡ with_word self.old twin place word }
    {
        self.put(twin, place, Cell::encode(word));
    }

    /// Stores a cell at a physical place of a twin that isn't dead.
    #[inline(always)]
    fn put(&mut self, twin: u8, place: Address, cell: Cell)
        requires twin { twin < 2 }
        requires pair { place.pair < 4 }
        ensures { (w : ℕ) → cell ≡ code_of w → self.new ≡ with_word self.old twin place w }
    {
        if !self.is_dead(twin, place.pair) {
            self.cells.put(slot(twin, place), cell);
        }
    }
}
