ghost use Rattle.std.specs.Prelude.{◌≡◌, ◌<◌, ◌^◌, SomeIff};

use std::marker::Model;

/// A number below 2^13: half a word, and the room of one instruction. Its length is published: this project's commission says so of
/// IBM, and no copy was at hand.
#[derive(Clone, Copy, PartialEq, Eq, PartialOrd, Ord, Hash)]
pub struct Syllable {
    bits: u16,
}

impl Model for Syllable {
    ghost use Rattle.std.specs.Prelude.{ℕ, ◌<◌, ◌^◌};

    ghost Value = { ℕ };

    ghost view = { λ s. s.bits };

    ghost invariant = { λ s. s.bits < 2 ^ 13 };

    ghost inverse = { λ n. record { bits = n } };
}

impl Syllable {
    /// The first number that is no syllable.
    pub const LIMIT: u16 = 1 << 13;

    /// The syllable with this value, where there is one.
    pub fn new(value: u16) -> Option<Syllable>
        ensures { SomeIff result (value < 2 ^ 13) value }
    {
        if value < Self::LIMIT {
            Some(Syllable { bits: value })
        } else {
            None
        }
    }

    /// The syllable with a value that is known to be one.
    pub fn within(value: u16) -> Syllable
        requires { value < 2 ^ 13 }
        ensures { result ≡ value }
    {
        Syllable { bits: value }
    }

    /// The number that the syllable is.
    pub fn value(self) -> u16
        ensures value { result ≡ self }
        ensures small { result < 2 ^ 13 }
    {
        self.bits
    }
}
