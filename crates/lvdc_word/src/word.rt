ghost use Rattle.std.specs.Prelude.{◌≡◌, ◌<◌, ◌/◌, ◌%◌, ◌^◌, ◌==◌, SomeIff, bit_and, bit_xor};
ghost use Rattle.std.specs.Int.{is_negative};
ghost use Rattle.lvdc_word.specs.Word.{signed, word_of, sum, difference, shifted_left, shifted_right, upper, lower, joined};

use crate::Syllable;
use std::marker::Model;

#[derive(Debug)]
/// A number below 2^26: a data word in two's complement. Its length is published: this project's commission says so of IBM, and no
/// copy was at hand.
#[derive(Clone, Copy, PartialEq, Eq, PartialOrd, Ord, Hash)]
pub struct Word {
    bits: u32,
}

impl Model for Word {
    ghost use Rattle.std.specs.Prelude.{ℕ, ◌<◌, ◌^◌};

    ghost Value = { ℕ };

    ghost view = { λ w. w.bits };

    ghost invariant = { λ w. w.bits < 2 ^ 26 };

    ghost inverse = { λ n. record { bits = n } };
}

impl Word {
    /// The first number that is no word.
    pub const LIMIT: u32 = 1 << 26;

    /// The word of 26 zeros.
    pub const ZERO: Word = Word { bits: 0 };

    /// The word with this value, where there is one.
    pub fn new(value: u32) -> Option<Word>
        ensures { SomeIff result (value < 2 ^ 26) value }
    {
        if value < Self::LIMIT {
            Some(Word { bits: value })
        } else {
            None
        }
    }

    /// The word with a value that is known to be one.
    pub fn within(value: u32) -> Word
        requires { value < 2 ^ 26 }
        ensures { result ≡ value }
    {
        Word { bits: value }
    }

    /// The number that the word is, without a sign.
    pub fn value(self) -> u32
        ensures value { result ≡ self }
        ensures small { result < 2 ^ 26 }
    {
        self.bits
    }

    /// The number that the word is in two's complement: -33,554,432 to 33,554,431.
    pub fn signed(self) -> i32
        ensures { result ≡ signed self }
    {
        if self.bits < 1 << 25 {
            self.bits as i32
        } else {
            self.bits as i32 - (1 << 26)
        }
    }

    /// Is the signed number below 0?
    pub fn is_negative(self) -> bool
        ensures value { result ≡ is_negative (signed self) }
        ensures bit { result ≡ (self / 2 ^ 25 % 2 == 1) }
    {
        self.has_sign()
    }

    /// Is bit 25 a 1?
    fn has_sign(self) -> bool
        ensures bit { result ≡ (self / 2 ^ 25 % 2 == 1) }
        ensures small { self < 2 ^ 26 }
    {
        (self.bits >> 25) & 1 == 1
    }

    /// What a number leaves modulo 2^26.
    pub fn modulo(number: i64) -> Word
        ensures { result ≡ word_of number }
    {
        let rest = number.rem_euclid(i64::from(Self::LIMIT));
        Word { bits: rest as u32 }
    }

    /// The sum modulo 2^26.
    pub fn plus(self, other: Word) -> Word
        ensures { result ≡ sum self other }
    {
        Word {
            bits: (self.bits + other.bits) & (Self::LIMIT - 1),
        }
    }

    /// The difference modulo 2^26.
    pub fn minus(self, other: Word) -> Word
        ensures { result ≡ difference self other }
    {
        Word {
            bits: (self.bits + (Self::LIMIT - other.bits)) & (Self::LIMIT - 1),
        }
    }

    /// The bits that both words have.
    pub fn both(self, other: Word) -> Word
        ensures { result ≡ bit_and self other }
    {
        Word {
            bits: self.bits & other.bits,
        }
    }

    /// The bits that exactly one of the words has.
    pub fn differ(self, other: Word) -> Word
        ensures { result ≡ bit_xor self other }
    {
        Word {
            bits: self.bits ^ other.bits,
        }
    }

    /// Shifted left by so many places; what leaves the word is lost.
    pub fn left(self, places: u8) -> Word
        requires { places < 26 }
        ensures { result ≡ shifted_left self places }
    {
        Word {
            bits: ((u64::from(self.bits) << places) & u64::from(Self::LIMIT - 1)) as u32,
        }
    }

    /// Shifted right by so many places, keeping the sign.
    pub fn right(self, places: u8) -> Word
        requires { places < 26 }
        ensures { result ≡ shifted_right self places }
    {
        if self.bits < 1 << 25 {
            Word {
                bits: self.bits >> places,
            }
        } else {
            Word {
                bits: Self::LIMIT - 1 - ((Self::LIMIT - 1 - self.bits) >> places),
            }
        }
    }

    /// Syllable 1, the upper half, and syllable 0, the lower half.
    pub fn split(self) -> (Syllable, Syllable)
        ensures upper { result.0 ≡ upper self }
        ensures lower { result.1 ≡ lower self }
    {
        let one = Syllable::within((self.bits >> 13) as u16);
        let zero = Syllable::within((self.bits & 0x1fff) as u16);
        (one, zero)
    }

    /// The word of syllable 1 and syllable 0.
    pub fn join(one: Syllable, zero: Syllable) -> Word
        ensures { result ≡ joined one zero }
    {
        Word {
            bits: u32::from(one.value()) * (1 << 13) + u32::from(zero.value()),
        }
    }
}

const _: () = prove!(Word::ZERO.bits == 0);
