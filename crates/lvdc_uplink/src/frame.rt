ghost use Rattle.std.specs.Prelude.{◌≡◌, ◌<◌, ◌≤◌, [], ◌∷◌, ◌++◌, length, true, OnOk};
ghost use Rattle.lvdc_map.specs.Memory.{are_rising};
ghost use Rattle.lvdc_uplink.specs.Frames.{is_same_frame, stays, frame_check};
ghost use Rattle.lvdc_uplink.specs.Patching.{placed_from, with_words};

use crate::patch::put_word;
use lvdc_map::{Address, Placed};
use lvdc_word::{NoMemory, Word};
use std::marker::Model;

/// The most words of a frame.
pub(crate) const MOST_WORDS: usize = 8;

/// How many locations a sector has.
const LOCATIONS: usize = 256;

/// Words for a place and those after it.
#[derive(Drop)]
pub(crate) struct Frame {
    at: Address,
    words: [Word; MOST_WORDS],
    count: usize,
}

impl Model for Frame {
    ghost use Rattle.std.specs.Prelude.{◌<◌, ◌≤◌, take};
    ghost use Rattle.lvdc_uplink.specs.Frames.{Frame as Content};

    ghost Value = { Content };

    ghost view = { λ f. record { at = f.at; words = take f.count f.words } };

    ghost invariant = { λ f. (f.at.pair < 4) × (f.count ≤ 8) };
}

impl Frame {
    /// A frame without words, for this place in one of the pairs.
    pub(crate) fn new(at: Address) -> Frame
        requires { at.pair < 4 }
        ensures { result ≡ record { at = at; words = [] } }
    {
        Frame {
            at,
            words: [Word::ZERO; MOST_WORDS],
            count: 0,
        }
    }

    /// One more word, for the place after the last.
    pub(crate) fn push(&mut self, word: Word)
        requires { length self.old.words < 8 }
        ensures { self.new ≡ record { at = self.old.at; words = self.old.words ++ word ∷ [] } }
    {
        self.words[self.count] = word;
        self.count += 1;
    }

    /// Its words, in their order.
    fn words(&self) -> &[Word]
        ensures words { result.now ≡ self.now.words }
        ensures few { length result.now ≤ 8 }
    {
        &self.words[..self.count]
    }

    /// Do the words stay in their sector?
    pub(crate) fn stays(&self) -> bool
        ensures value { result ≡ stays self.now }
        ensures pair { self.now.at.pair < 4 }
        ensures sector { self.now.at.sector < 16 }
    {
        usize::from(self.at.loc) + self.words().len() <= LOCATIONS
    }

    /// Has the other frame the same words for the same places?
    pub(crate) fn is_same(&self, other: &Frame) -> bool
        ensures { result ≡ is_same_frame self.now other.now }
    {
        self.at.pair == other.at.pair
            && self.at.sector == other.at.sector
            && self.at.loc == other.at.loc
            && self.words() == other.words()
    }

    /// Its check word, as the frame of this number in the load of this id.
    pub(crate) fn check(&self, id: u32, number: u8) -> Word
        ensures { result ≡ frame_check id number self.now }
    {
        let header = u64::from(id) + u64::from(number) + self.at.number() as u64;
        let words = self.words();
        let mut check = Word::within((header % u64::from(Word::LIMIT)) as u32);
        for word in words {
            check = check.plus(*word);
        }
        check
    }

    /// Puts its words into those of an image.
    pub(crate) fn put(&self, image: &mut Vec<Placed>) -> Result<(), NoMemory>
        requires stays { stays self.now ≡ true }
        requires rising { are_rising image.old.items ≡ true }
        ensures words { OnOk result (image.new.items ≡ with_words image.old.items (placed_from self.now.at self.now.words)) }
        ensures rising { OnOk result (are_rising image.new.items ≡ true) }
    {
        let words = self.words();
        for (offset, word) in words.iter().enumerate() {
            let at = Address {
                loc: self.at.loc + offset as u8,
                ..self.at
            };
            put_word(image, Placed { at, word: *word })?;
        }
        Ok(())
    }
}
