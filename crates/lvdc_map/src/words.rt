//! The words of memory.

ghost use Rattle.std.specs.Prelude.{◌≡◌, ℕ, ◌/◌, ◌<◌, ◌^◌, true, All, [], IfOk, slice_index, slice_set};
ghost use Rattle.lvdc_map.specs.Address.{number_of};
ghost use Rattle.lvdc_map.specs.Memory.{Memory, word_at, stored, memory_of, IsMemory};

use crate::{Address, Placed, Sectors};
use lvdc_word::{NoMemory, Word};
use std::alloc::Global;
use std::marker::Model;

/// The words of all addresses, in the order of their numbers.
#[derive(Drop)]
pub struct Words {
    words: Sectors<Word>,
}

impl Model for Words {
    ghost use Rattle.std.specs.Prelude.{◌≡◌, ℕ, List, length};

    ghost Value = { List ℕ };

    ghost view = { λ w. w.words.items };

    ghost invariant = { λ w. (w.words.blank ≡ 0) × (length w.words.items ≡ 32768) };
}

impl Words {
    /// The words of an image at their places, and 0 elsewhere.
    pub fn of_image(alloc: Global, image: &[Placed]) -> Result<Words, NoMemory>
        ensures memory { IfOk result (λ words. IsMemory words (memory_of image.now)) }
        // What an image places are words, by their type.
        ensures words { IfOk result (λ words. All (λ placed. placed.word < 2 ^ 26) image.now) }
    {
        let mut words = Words::zero(alloc)?;
        for placed in image {
            words.store(placed.at, placed.word);
        }
        Ok(words)
    }

    /// 0 at every address.
    fn zero(alloc: Global) -> Result<Words, NoMemory>
        ensures { IfOk result (λ words. IsMemory words (memory_of [])) }
    {
        let words = Sectors::filled(alloc, Word::ZERO)?;
        Ok(Words { words })
    }

    /// The word at an address.
    pub fn word(&self, at: Address) -> Word
        ensures value { result ≡ slice_index self.now (number_of at) }
        ensures memory { (m : Memory) → IsMemory self.now m → result ≡ word_at m at }
    {
        self.words.at(at.number())
    }

    /// Puts a word at an address.
    pub fn store(&mut self, at: Address, word: Word)
        ensures value { self.new ≡ slice_set self.old (number_of at) word }
        ensures memory { (m : Memory) → IsMemory self.old m → IsMemory self.new (stored m at word) }
        ensures word { word < 2 ^ 26 }
    {
        self.words.put(at.number(), word);
    }
    /// Is there no word but 0 in a sector, of the 128 in the order of addresses? False says nothing: it tells in which sectors
    /// nothing was put.
    pub fn is_blank(&self, sector: usize) -> bool
        requires { sector < 128 }
        ensures { result ≡ true → (number : ℕ) → number < 32768 → number / 256 ≡ sector → slice_index self.now number ≡ 0 }
    {
        self.words.is_blank(sector)
    }
}
