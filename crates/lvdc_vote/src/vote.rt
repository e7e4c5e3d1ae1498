ghost use Rattle.std.specs.Prelude.{◌≡◌, ℕ, ◌<◌, ◌↔◌, List, length, slice_get, slice_set, IsTrue};
ghost use Rattle.lvdc_vote.specs.Bits.{TwoAre};
ghost use Rattle.lvdc_vote.specs.Latches.{majority_of, IsMajority, flipped_at, forced_at};

use crate::{flipped, forced};
use lvdc_word::Word;

/// The state of a module: latches that can be voted over and hurt.
pub trait Vote: Drop + Sized {
    /// How many latches a state has.
    ghost LATCHES: { ℕ };

    /// The words of the latches, by index.
    ghost latches: { Self → List ℕ };

    /// How many latches a state has.
    const LATCHES: u8;

    /// The word of one latch.
    fn latch(&self, index: u8) -> Word
        requires { index < LATCHES }
        ensures { slice_get (latches self.now) index ≡ Some result };

    /// The state each of whose bits is the value that at least two of the three have there.
    fn vote(a: &Self, b: &Self, c: &Self) -> Self
        ensures words { latches result ≡ majority_of (latches a.now) (latches b.now) (latches c.now) }
        ensures bits { IsMajority (latches a.now) (latches b.now) (latches c.now) (latches result) };

    /// The state with this word in one latch.
    fn with(&self, index: u8, word: Word) -> Self
        requires { index < LATCHES }
        ensures { latches result ≡ slice_set (latches self.now) index word };

    /// The state with the bits under the mask turned over in one latch.
    fn with_flip(&self, index: u8, mask: Word) -> Self
        requires { index < LATCHES }
        ensures { latches result ≡ flipped_at (latches self.now) index mask }
    {
        self.with(index, flipped(self.latch(index), mask))
    }

    /// The state in one latch of which the bits under the mask are those of `value`.
    fn with_force(&self, index: u8, mask: Word, value: Word) -> Self
        requires { index < LATCHES }
        ensures { latches result ≡ forced_at (latches self.now) index mask value }
    {
        self.with(index, forced(self.latch(index), mask, value))
    }

    /// Have both states the same words?
    fn same(&self, other: &Self) -> bool
        ensures { IsTrue result ↔ (latches self.now ≡ latches other.now) };

    /// Another state with the same words.
    fn copied(&self) -> Self
        ensures { latches result ≡ latches self.now };

    /// Each state has all its latches.
    ghost counted: { (state : Self) → length (latches state) ≡ LATCHES };

    /// States with the same words are equal.
    ghost exact: { (a b : Self) → latches a ≡ latches b → a ≡ b };
}

/// Where at least two of three states of one length are the same, their vote is that state.
pub fn two_are_the_vote()
    ensures { (one two three state : List ℕ) → length one ≡ length state → length two ≡ length state → length three ≡ length state → TwoAre one two three state → majority_of one two three ≡ state }
{}
