ghost use Rattle.std.specs.Prelude.{◌≡◌, ℕ, ◌<◌, ◌^◌, ◌==◌, true, SomeIff, Some, IfSome, bit_xor, if◌then◌else◌};
ghost use Rattle.std.specs.Int.{bit_at};
ghost use Rattle.lvdc_word.specs.Cell.{is_good_half, is_good, half_of, code_of, word_in, with_stuck};

use crate::{Syllable, Word};
use std::marker::Model;

#[derive(Debug)]
/// A number below 2^28: what memory stores of a word. Bits 26 to 14 are syllable 1 and bit 27 is its parity, bits 12 to 0
/// are syllable 0 and bit 13 is its parity (this project's profile).
#[derive(Clone, Copy, PartialEq, Eq, PartialOrd, Ord, Hash)]
pub struct Cell {
    bits: u32,
}

impl Model for Cell {
    ghost use Rattle.std.specs.Prelude.{ℕ, ◌<◌, ◌^◌};

    ghost Value = { ℕ };

    ghost view = { λ c. c.bits };

    ghost invariant = { λ c. c.bits < 2 ^ 28 };

    ghost inverse = { λ n. record { bits = n } };
}

impl Cell {
    /// The first number that is no cell.
    pub const LIMIT: u32 = 1 << 28;

    /// The cell with these bits, where there is one.
    pub fn new(bits: u32) -> Option<Cell>
        ensures { SomeIff result (bits < 2 ^ 28) bits }
    {
        if bits < Self::LIMIT {
            Some(Cell { bits })
        } else {
            None
        }
    }

    /// The cell with bits that are known to make one.
    pub fn within(bits: u32) -> Cell
        requires { bits < 2 ^ 28 }
        ensures { result ≡ bits }
    {
        Cell { bits }
    }

    /// The number that the cell is.
    pub fn bits(self) -> u32
        ensures value { result ≡ self }
        ensures small { result < 2 ^ 28 }
    {
        self.bits
    }

    /// The good cell with the syllables of this word.
    pub fn encode(word: Word) -> Cell
        ensures { result ≡ code_of word }
    {
        let (one, zero) = word.split();
        Cell {
            bits: half(one) * (1 << 14) + half(zero),
        }
    }

    /// The word of a good cell, whose halves both have an odd count of ones. None for a bad one.
    pub fn decode(self) -> Option<Word>
        ensures good { SomeIff result (is_good self ≡ true) (word_in self) }
        ensures code { IfSome result (λ w. code_of w ≡ self) }
        ensures decoded { (w : ℕ) → w < 2 ^ 26 → self ≡ code_of w → result ≡ Some w }
    {
        if self.is_good() {
            Some(self.word())
        } else {
            None
        }
    }

    /// Is the count of ones odd in each half?
    fn is_good(self) -> bool
        ensures value { result ≡ is_good self }
        ensures small { self < 2 ^ 28 }
    {
        has_odd_ones(self.bits >> 14) && has_odd_ones(self.bits & 0x3fff)
    }

    /// The word of the syllables, whatever the parity bits are.
    pub fn word(self) -> Word
        ensures { result ≡ word_in self }
    {
        Word::within(((self.bits >> 14) & 0x1fff) * (1 << 13) + (self.bits & 0x1fff))
    }

    /// The cell with the bits under the mask turned over.
    pub fn flip(self, mask: Cell) -> Cell
        ensures { result ≡ bit_xor self mask }
    {
        Cell {
            bits: self.bits ^ mask.bits,
        }
    }

    /// The cell whose bits under the mask are those of `value`.
    pub fn stuck(self, mask: Cell, value: Cell) -> Cell
        ensures value { result ≡ with_stuck self mask value }
        ensures bits { (i : ℕ) → bit_at result i
            ≡ (if bit_at mask i == 1 then bit_at value i else bit_at self i) }
    {
        Cell {
            bits: self.bits ^ ((self.bits ^ value.bits) & mask.bits),
        }
    }
}

/// Is the count of ones odd?
fn has_odd_ones(half: u32) -> bool
    requires { half < 2 ^ 14 }
    ensures { result ≡ is_good_half half }
{
    half.count_ones() % 2 == 1
}

/// A syllable below its parity bit.
fn half(syllable: Syllable) -> u32
    ensures value { result ≡ half_of syllable }
    ensures small { result < 2 ^ 14 }
{
    let bits = u32::from(syllable.value());
    if has_odd_ones(bits) {
        bits
    } else {
        (1 << 13) + bits
    }
}
