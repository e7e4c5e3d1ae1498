ghost use Rattle.std.specs.Prelude.{◌≡◌, ℕ, ◌/◌, ◌<◌, ◌^◌, true, All, [], IfOk, slice_index, slice_set};
ghost use Rattle.lvdc_word.specs.Cell.{code_of, word_in};
ghost use Rattle.lvdc_map.specs.Address.{number_of};
ghost use Rattle.lvdc_map.specs.Memory.{Memory, word_at, stored, memory_of, IsMemory};

use lvdc_map::{Address, Placed, Sectors};
use lvdc_word::{Cell, NoMemory, Word};
use std::alloc::Global;
use std::marker::Model;

/// The words of all addresses, in the order of their numbers, each kept as its good cell. Contracts see the words.
#[derive(Drop)]
pub(crate) struct Codes {
    cells: Sectors<Cell>,
}

impl Model for Codes {
    ghost use Rattle.std.specs.Prelude.{◌≡◌, ℕ, List, map};
    ghost use Rattle.lvdc_word.specs.Cell.{code_of, word_in};
    ghost use Rattle.lvdc_fault.specs.Codes.{AreCodes};

    ghost Value = { List ℕ };

    ghost view = { λ c. map word_in c.cells.items };

    ghost invariant = { λ c. AreCodes c.cells.items × (c.cells.blank ≡ code_of 0) };
}

impl Codes {
    /// The words of an image at their places, and 0 elsewhere.
    pub(crate) fn of_image(alloc: Global, image: &[Placed]) -> Result<Codes, NoMemory>
        ensures memory { IfOk result (λ words. IsMemory words (memory_of image.now)) }
        // What an image places are words, by their type.
        ensures words { IfOk result (λ words. All (λ placed. placed.word < 2 ^ 26) image.now) }
    {
        let mut codes = Codes::zero(alloc)?;
        for placed in image {
            codes.store(placed.at, placed.word);
        }
        Ok(codes)
    }

    /// 0 at every address.
    fn zero(alloc: Global) -> Result<Codes, NoMemory>
        ensures { IfOk result (λ words. IsMemory words (memory_of [])) }
    {
        let cells = Sectors::filled(alloc, Cell::encode(Word::ZERO))?;
        Ok(Codes { cells })
    }

    /// The word at an address.
    pub(crate) fn word(&self, at: Address) -> Word
        ensures value { result ≡ slice_index self.now (number_of at) }
        ensures memory { (m : Memory) → IsMemory self.now m → result ≡ word_at m at }
    {
        self.cells.at(at.number()).word()
    }

    /// The good cell of the word at an address.
    pub(crate) fn code(&self, at: Address) -> Cell
        ensures value { result ≡ code_of (slice_index self.now (number_of at)) }
        ensures word { word_in result ≡ slice_index self.now (number_of at) }
        ensures memory { (m : Memory) → IsMemory self.now m → result ≡ code_of (word_at m at) }
    {
        self.cells.at(at.number())
    }

    /// Puts a word at an address.
    pub(crate) fn store(&mut self, at: Address, word: Word)
        ensures value { self.new ≡ slice_set self.old (number_of at) word }
        ensures memory { (m : Memory) → IsMemory self.old m → IsMemory self.new (stored m at word) }
        ensures word { word < 2 ^ 26 }
    {
        self.cells.put(at.number(), Cell::encode(word));
    }

    /// Is 0 the word at this place in the order of addresses?
    #[inline(always)]
    pub(crate) fn is_zero(&self, number: usize) -> bool
        requires { number < 32768 }
        ensures { result ≡ true → slice_index self.now number ≡ 0 }
    {
        self.cells.at(number) == Cell::encode(Word::ZERO)
    }

    /// Is 0 the word at each address of a sector, of the 128 in the order of addresses? False says nothing.
    pub(crate) fn is_blank(&self, sector: usize) -> bool
        requires { sector < 128 }
        ensures { result ≡ true → (number : ℕ) → number < 32768 → number / 256 ≡ sector → slice_index self.now number ≡ 0 }
    {
        self.cells.is_blank(sector)
    }
}
