//! Physical places: what a twin shows there, and what is damaged, stuck or dead.

ghost use Rattle.std.specs.Prelude.{◌≡◌, ℕ, ◌-◌, ◌/◌, ◌<◌, true, bit_xor};
ghost use Rattle.lvdc_word.specs.Cell.{code_of};
ghost use Rattle.lvdc_map.specs.Address.{Spot, number_of};
ghost use Rattle.lvdc_map.specs.Banks.{IsPlace};
ghost use Rattle.lvdc_twin.specs.Store.{IsStore, stored_in, stuck_in, is_dead, selected_in, shown_in, with_cell, with_stuck_bits, with_dead};
ghost use Rattle.lvdc_twin.specs.Calls.{ChangesAreLocal};

use crate::twins::{PLACES, slot};
use crate::{Stuck, Twins};
use lvdc_map::Address;
use lvdc_word::{Cell, Word};

impl Twins {
    /// What a twin shows at a physical place.
    #[inline(always)]
    pub fn view(&self, twin: u8, at: Address) -> Cell
        requires twin { twin < 2 }
        requires pair { at.pair < 4 }
        ensures value { result ≡ shown_in self.now twin at }
        ensures whole { IsStore self.now }
        ensures place { IsPlace at }
    {
        if self.bare {
            self.stored(twin, at)
        } else {
            self.shown_under_faults(twin, at)
        }
    }

    /// The same where the twin may be dead, or bits of the cell stuck.
    #[inline(never)]
    fn shown_under_faults(&self, twin: u8, at: Address) -> Cell
        requires twin { twin < 2 }
        requires pair { at.pair < 4 }
        ensures { result ≡ shown_in self.now twin at }
    {
        if self.is_dead(twin, at.pair) {
            Cell::within(0)
        } else {
            let stuck = self.stuck_at(twin, at);
            self.cells.at(slot(twin, at)).stuck(stuck.mask, stuck.value)
        }
    }

    /// Does each twin show the cell of the word 0 at a place, of the 16,384 in their order? False says nothing where anything is stuck or dead.
    #[inline(always)]
    pub fn is_zero(&self, number: usize) -> bool
        requires { number < 16384 }
        ensures { result ≡ true → (twin : ℕ) → twin < 2 → (place : Spot) → IsPlace place → number_of place ≡ number
            → shown_in self.now twin place ≡ code_of 0 }
    {
        if !self.bare {
            return false;
        }
        self.stores_zero(0, number) && self.stores_zero(1, number)
    }

    /// Does a twin store the cell of the word 0 at a place, of the 16,384 in their order?
    #[inline(always)]
    fn stores_zero(&self, twin: u8, number: usize) -> bool
        requires twin { twin < 2 }
        requires number { number < 16384 }
        ensures { result ≡ true → (place : Spot) → IsPlace place → number_of place ≡ number → stored_in self.now twin place ≡ code_of 0 }
    {
        self.cells.at(usize::from(twin) * PLACES + number) == Cell::encode(Word::ZERO)
    }

    /// Does each twin show the cell of the word 0 at each place of a sector, of the 64 in the order of places? False says nothing: it tells
    /// in which sectors nothing was stored, damaged, stuck or dead.
    pub fn is_blank(&self, sector: usize) -> bool
        requires { sector < 64 }
        ensures { result ≡ true → (twin : ℕ) → twin < 2 → (place : Spot) → IsPlace place → number_of place / 256 ≡ sector
            → shown_in self.now twin place ≡ code_of 0 }
    {
        self.shows_zeros(0, sector) && self.shows_zeros(1, sector)
    }

    /// The same of one twin.
    fn shows_zeros(&self, twin: u8, sector: usize) -> bool
        requires twin { twin < 2 }
        requires sector { sector < 64 }
        ensures { result ≡ true → (place : Spot) → IsPlace place → number_of place / 256 ≡ sector → shown_in self.now twin place ≡ code_of 0 }
    {
        let number = 64 * usize::from(twin) + sector;
        if !self.cells.is_blank(number) {
            return false;
        }
        if self.bare {
            return true;
        }
        self.stuck.is_blank(number) && !self.is_dead(twin, (sector / 16) as u8)
    }

    /// Turns over the bits under the mask in the cell that a twin stores at a physical place, also while the twin is dead.
    pub fn damage(&mut self, twin: u8, at: Address, mask: Cell)
        requires twin { twin < 2 }
        requires pair { at.pair < 4 }
        ensures after { self.new
            ≡ with_cell self.old twin at (bit_xor (stored_in self.old twin at) mask) }
        ensures whole { IsStore self.old }
        ensures place { IsPlace at }
    {
        let slot = slot(twin, at);
        self.cells.put(slot, self.cells.at(slot).flip(mask));
    }

    /// From now on the bits under the mask are the value's in what a twin shows at a physical place. It replaces what was
    /// stuck there.
    pub fn stick(&mut self, twin: u8, at: Address, mask: Cell, value: Cell)
        requires twin { twin < 2 }
        requires pair { at.pair < 4 }
        ensures after { self.new
            ≡ with_stuck_bits self.old twin at (record { mask = mask; value = value }) }
        ensures whole { IsStore self.old }
        ensures place { IsPlace at }
    {
        self.bare = false;
        self.stuck.put(slot(twin, at), Stuck { mask, value });
    }

    /// What is stuck at a physical place of a twin.
    pub fn stuck_at(&self, twin: u8, at: Address) -> Stuck
        requires twin { twin < 2 }
        requires pair { at.pair < 4 }
        ensures value { result ≡ stuck_in self.now twin at }
        ensures whole { IsStore self.now }
        ensures place { IsPlace at }
    {
        self.stuck.at(slot(twin, at))
    }

    /// Marks a twin as dead in a pair, or as alive. A dead twin shows 0 and stores no word.
    pub fn dead(&mut self, twin: u8, pair: u8, on: bool)
        requires twin { twin < 2 }
        requires pair { pair < 4 }
        ensures after { self.new ≡ with_dead self.old twin pair on }
        ensures whole { IsStore self.old }
    {
        self.bare = false;
        self.dead[usize::from(twin) * 4 + usize::from(pair)] = on;
    }

    /// Is a twin dead in a pair?
    #[inline(always)]
    pub(crate) fn is_dead(&self, twin: u8, pair: u8) -> bool
        requires twin { twin < 2 }
        requires pair { pair < 4 }
        ensures { result ≡ is_dead self.now twin pair }
    {
        self.dead[usize::from(twin) * 4 + usize::from(pair)]
    }

    /// The twin that is used first in a pair.
    #[inline(always)]
    pub fn selected(&self, pair: u8) -> u8
        requires { pair < 4 }
        ensures value { result ≡ selected_in self.now pair }
        ensures small { result < 2 }
        ensures whole { IsStore self.now }
    {
        self.selected[usize::from(pair)]
    }
}

/// A change at one place, or of one mark, is seen there and nowhere else.
pub fn changes_are_local()
    ensures { ChangesAreLocal }
{}
