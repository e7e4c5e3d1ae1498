//! The latches of the copies, one by one.

ghost use Rattle.std.specs.Prelude.{◌≡◌, ℕ, ◌≤◌, ◌<◌};
ghost use Rattle.lvdc_vote.specs.Numbers.{latches_of};
ghost use Rattle.lvdc_logic.specs.Latching.{alike, copies_in};
ghost use Rattle.lvdc_logic.specs.Logic.{latch_of, vote_at, is_outvoted};

use crate::triples::Triples;
use lvdc_modules::Bus;
use lvdc_vote::Vote;
use lvdc_word::Word;

impl Triples {
    /// The word of a latch of a copy. Modules are 1 to 7, copies 1 to 3, and latches are counted from 0.
    pub fn word(&self, number: u8, copy: u8, index: u8) -> Word
        requires first_number { 1 ≤ number }
        requires last_number { number ≤ 7 }
        requires first_copy { 1 ≤ copy }
        requires last_copy { copy ≤ 3 }
        requires index { index < latches_of number }
        ensures { result ≡ latch_of (copies_in self.now) number copy index }
    {
        let copy = copy - 1;
        match number {
            1 => self.timer.word(copy, index),
            2 => self.locator.word(copy, index),
            3 => self.decoder.word(copy, index),
            4 => self.selector.word(copy, index),
            5 => self.accumulator.word(copy, index),
            6 => self.multiplier.word(copy, index),
            _ => self.exchange.word(copy, index),
        }
    }

    /// The vote over a latch of a module.
    pub fn voted_word(&self, number: u8, index: u8) -> Word
        requires first_number { 1 ≤ number }
        requires last_number { number ≤ 7 }
        requires index { index < latches_of number }
        ensures { result ≡ vote_at (copies_in self.now) number index }
    {
        match number {
            1 => self.timer.voted().latch(index),
            2 => self.locator.voted().latch(index),
            3 => self.decoder.voted().latch(index),
            4 => self.selector.voted().latch(index),
            5 => self.accumulator.voted().latch(index),
            6 => self.multiplier.voted().latch(index),
            _ => self.exchange.voted().latch(index),
        }
    }

    /// Does a copy differ from the vote of its module?
    pub fn is_outvoted(&self, number: u8, copy: u8) -> bool
        requires first_number { 1 ≤ number }
        requires last_number { number ≤ 7 }
        requires first_copy { 1 ≤ copy }
        requires last_copy { copy ≤ 3 }
        ensures { result ≡ is_outvoted (copies_in self.now) number copy }
    {
        match number {
            1 => self.timer.differs(copy - 1),
            2 => self.locator.differs(copy - 1),
            3 => self.decoder.differs(copy - 1),
            4 => self.selector.differs(copy - 1),
            5 => self.accumulator.differs(copy - 1),
            6 => self.multiplier.differs(copy - 1),
            _ => self.exchange.differs(copy - 1),
        }
    }
}

/// The word of a latch that a module has on a bus: that of each copy, where all are alike.
pub fn latch_on(bus: &Bus, number: u8, index: u8) -> Word
    requires first { 1 ≤ number }
    requires last { number ≤ 7 }
    requires index { index < latches_of number }
    ensures { (copy : ℕ) → result ≡ latch_of (copies_in (alike bus.now)) number copy index }
{
    match number {
        1 => bus.timer.latch(index),
        2 => bus.locator.latch(index),
        3 => bus.decoder.latch(index),
        4 => bus.selector.latch(index),
        5 => bus.accumulator.latch(index),
        6 => bus.multiplier.latch(index),
        _ => bus.exchange.latch(index),
    }
}
