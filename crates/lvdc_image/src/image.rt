ghost use Rattle.std.specs.Prelude.{◌≡◌, true, None, Some};
ghost use Rattle.lvdc_map.specs.Memory.{are_rising, AllThere};

use lvdc_map::{Banks, Hop, Placed};
use std::marker::Model;

/// The words that a memory is filled with, their addresses strictly rising; every other address holds 0. Version 2 also
/// has a start constant, and names the simplex pairs (the text is this project's profile).
pub struct Image {
    words: Vec<Placed>,
    start: Option<Hop>,
    banks: Banks,
}

/// Its parts go in one call, which whoever lets it go doesn't look into.
impl Drop for Image {
    fn drop(self) {
        let Image {
            words: _,
            start: _,
            banks: _,
        } = self;
    }
}

impl Model for Image {
    ghost use Rattle.lvdc_image.specs.Image.{Contents, IsImage};

    ghost Value = { Contents };

    ghost view = { λ i. record { words = i.words.items; start = i.start; banks = i.banks } };

    ghost invariant = { λ i. IsImage (record { words = i.words.items; start = i.start; banks = i.banks }) };
}

impl Image {
    /// An image of version 1, as the assembler makes it: no start constant, and each pair duplex.
    pub fn from_words(words: Vec<Placed>) -> Image
        requires rising { are_rising words.items ≡ true }
        requires there { AllThere 0 words.items }
        ensures { result ≡ record { words = words.items; start = None; banks = 0 } }
    {
        Image {
            words,
            start: None,
            banks: Banks::DUPLEX,
        }
    }

    /// An image of version 2.
    pub fn with(words: Vec<Placed>, start: Hop, banks: Banks) -> Image
        requires rising { are_rising words.items ≡ true }
        requires there { AllThere banks words.items }
        ensures { result ≡ record { words = words.items; start = Some start; banks = banks } }
    {
        Image {
            words,
            start: Some(start),
            banks,
        }
    }

    /// The words, by rising address.
    pub fn words(&self) -> &[Placed]
        ensures words { result.now ≡ self.now.words }
        ensures rising { are_rising result.now ≡ true }
        ensures there { AllThere self.now.banks result.now }
    {
        &self.words
    }

    /// The start constant; none in an image of version 1.
    pub fn start(&self) -> Option<Hop>
        ensures start { result ≡ self.now.start }
        ensures duplex { result ≡ None → self.now.banks ≡ 0 }
    {
        self.start
    }

    /// Which pairs are simplex; none in an image of version 1.
    pub fn banks(&self) -> Banks
        ensures { result ≡ self.now.banks }
    {
        self.banks
    }
}
