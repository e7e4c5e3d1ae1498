ghost use Rattle.std.specs.Prelude.{◌≡◌, ◌<◌, ◌≤◌, length, position, is_none, true, IfSome, IfOk, OnOk, All};
ghost use Rattle.lvdc_map.specs.Memory.{are_rising};
ghost use Rattle.lvdc_uplink.specs.Frames.{bare_load, staged, missing_in, load_check, stays, FitsIfStaged};
ghost use Rattle.lvdc_uplink.specs.Patching.{placed_in, with_words, patched};

use crate::Answer;
use crate::frame::Frame;
use lvdc_image::Image;
use lvdc_map::Placed;
use lvdc_word::{NoMemory, Word};
use std::alloc::Global;
use std::marker::Model;

/// The most frames of a load. Each has at most eight words, so a load has at most 512.
const MOST_FRAMES: usize = 64;

/// A load: its id, and each of its frames where that one is staged.
#[derive(Drop)]
pub(crate) struct Load {
    id: u32,
    frames: Vec<Option<Frame>>,
}

impl Model for Load {
    ghost use Rattle.std.specs.Prelude.{◌≤◌, length, All};
    ghost use Rattle.lvdc_uplink.specs.Frames.{Load as Content, FitsIfStaged};

    ghost Value = { Content };

    ghost view = { λ l. record { id = l.id; frames = l.frames.items } };

    ghost invariant = { λ l. (length l.frames.items ≤ 64) × All FitsIfStaged l.frames.items };
}

/// The index of the first frame that isn't staged.
fn first_missing(frames: &[Option<Frame>]) -> Option<usize>
    ensures index { result ≡ position is_none frames.now }
    ensures within { IfSome result (λ index. index < length frames.now) }
{
    frames.iter().position(|frame| frame.is_none())
}

impl Load {
    ghost use Rattle.lvdc_uplink.specs.Link.{stages, files, refusal_of};

    /// A load of so many frames, none of them staged. It takes the room for 64 frames of eight words.
    pub(crate) fn new(alloc: Global, id: u32, count: u8) -> Result<Load, NoMemory>
        requires { count ≤ 64 }
        ensures { IfOk result (λ load. load ≡ bare_load id count) }
    {
        let mut frames = Vec::with_capacity(alloc, MOST_FRAMES)?;
        for _number in 0..count {
            frames.push(None)?;
        }
        Ok(Load { id, frames })
    }

    /// Its id.
    pub(crate) fn id(&self) -> u32
        ensures { result ≡ self.now.id }
    {
        self.id
    }

    /// How many frames it has, staged or not.
    pub(crate) fn count(&self) -> usize
        ensures { result ≡ length self.now.frames }
    {
        self.frames.len()
    }

    /// Stages a frame that fits, unless one is staged under its number.
    fn stage(&mut self, number: u8, frame: Frame) -> Answer
        requires some { 1 ≤ number }
        requires range { number ≤ length self.old.frames }
        requires stays { stays frame ≡ true }
        ensures { stages number frame self.old (staged self.old number) ≡ record { answer = result; load = self.new } }
    {
        let index = usize::from(number) - 1;
        if let Some(other) = &self.frames[index] {
            return if other.is_same(&frame) {
                Answer::Framed {
                    id: self.id,
                    i: number,
                }
            } else {
                Answer::Differs(number)
            };
        }
        self.frames[index] = Some(frame);
        Answer::Framed {
            id: self.id,
            i: number,
        }
    }

    /// Takes a frame that was sent with this check word.
    pub(crate) fn file(&mut self, number: u8, frame: Frame, check: Word) -> Answer
        requires { 1 ≤ number }
        ensures { files number frame check self.old ≡ record { answer = result; load = self.new } }
    {
        if usize::from(number) > self.frames.len() || !frame.stays() {
            return Answer::Range;
        }
        let right = frame.check(self.id, number);
        if check == right {
            self.stage(number, frame)
        } else {
            Answer::Check(right)
        }
    }

    /// The least number of a frame that isn't staged.
    fn missing(&self) -> Option<u8>
        ensures { result ≡ missing_in self.now }
    {
        let index = first_missing(&self.frames)?;
        Some(index as u8 + 1)
    }

    /// Its check word.
    fn check(&self) -> Word
        ensures { result ≡ load_check self.now }
    {
        let frames = self.frames.as_slice();
        let mut check = Word::ZERO;
        for (index, frame) in frames.iter().enumerate() {
            if let Some(frame) = frame {
                check = check.plus(frame.check(self.id, index as u8 + 1));
            }
        }
        check
    }

    /// What stands against committing it with this check word.
    pub(crate) fn refusal(&self, check: Word) -> Option<Answer>
        ensures { result ≡ refusal_of check self.now }
    {
        if let Some(number) = self.missing() {
            return Some(Answer::Missing(number));
        }
        let right = self.check();
        if check == right {
            None
        } else {
            Some(Answer::Check(right))
        }
    }

    /// Puts the words of its frames into those of an image, in the order of the frames.
    fn put(&self, words: &mut Vec<Placed>) -> Result<(), NoMemory>
        requires { are_rising words.old.items ≡ true }
        ensures words { OnOk result (words.new.items ≡ with_words words.old.items (placed_in self.now.frames)) }
        ensures rising { OnOk result (are_rising words.new.items ≡ true) }
        ensures fitting { All FitsIfStaged self.now.frames }
    {
        let frames = self.frames.as_slice();
        for frame in frames {
            if let Some(frame) = frame {
                frame.put(words)?;
            }
        }
        Ok(())
    }

    /// The image with its words, in the image's version. The image itself stays.
    pub(crate) fn patch(&self, alloc: Global, image: &Image) -> Result<Image, NoMemory>
        ensures { IfOk result (λ new. new ≡ patched image.now self.now) }
    {
        let mut words = Vec::from_slice(alloc, image.words())?;
        self.put(&mut words)?;
        Ok(match image.start() {
            Some(start) => Image::with(words, start, image.banks()),
            None => Image::from_words(words),
        })
    }
}
