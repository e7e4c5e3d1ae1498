ghost use Rattle.std.specs.Prelude.{◌≡◌, IfOk, replicate};
ghost use Rattle.lvdc_asm.specs.Locations.{no_syllables, both_syllables, with_syllable, word_in};

use lvdc_word::{NoMemory, Syllable, Word};
use std::alloc::Global;

/// What a source puts into one location: syllable 1 and syllable 0, each where it is there.
#[derive(Clone, Copy)]
pub(crate) struct Location {
    pub(crate) one: Option<Syllable>,
    pub(crate) zero: Option<Syllable>,
}

impl Location {
    /// So many locations where nothing stands.
    pub(crate) fn none(alloc: Global, count: usize) -> Result<Vec<Location>, NoMemory>
        ensures { IfOk result (λ locations. locations.items ≡ replicate count no_syllables) }
    {
        let syllable = None;
        let empty = Location {
            one: syllable,
            zero: syllable,
        };
        Ok(Vec::from_elem(alloc, empty, count)?)
    }

    /// A word, which fills both slots.
    pub(crate) fn of_word(word: Word) -> Location
        ensures { result ≡ both_syllables word }
    {
        let (one, zero) = word.split();
        Location {
            one: Some(one),
            zero: Some(zero),
        }
    }

    /// With this syllable in the slot of that number.
    pub(crate) fn with(self, syl: u8, syllable: Syllable) -> Location
        ensures { result ≡ with_syllable self syl syllable }
    {
        if syl == 1 {
            Location {
                one: Some(syllable),
                ..self
            }
        } else {
            Location {
                zero: Some(syllable),
                ..self
            }
        }
    }

    /// The word of the location, where something stands there.
    pub(crate) fn word(self) -> Option<Word>
        ensures { result ≡ word_in self }
    {
        if self.one.is_none() && self.zero.is_none() {
            return None;
        }
        let one = self.one.unwrap_or(Syllable::within(0));
        let zero = self.zero.unwrap_or(Syllable::within(0));
        Some(Word::join(one, zero))
    }
}
