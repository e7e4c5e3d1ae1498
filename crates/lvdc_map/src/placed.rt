ghost use Rattle.std.specs.Prelude.{◌<◌, ◌^◌, All};

use crate::Address;
use lvdc_word::Word;

/// A word of an image, and where it stands.
#[derive(Clone, Copy, PartialEq, Eq)]
pub struct Placed {
    pub at: Address,
    pub word: Word,
}

/// What is placed is a word, by its type.
fn places_word(placed: &Placed)
    ensures { placed.now.word < 2 ^ 26 }
{
    placed.word.value();
}

/// What an image places are words, by their type. The loop has no effect.
pub fn places_words(image: &[Placed])
    ensures { All (λ placed. placed.word < 2 ^ 26) image.now }
{
    for placed in image {
        places_word(placed);
    }
}
