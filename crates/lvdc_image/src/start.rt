ghost use Rattle.std.specs.Prelude.{◌≡◌};
ghost use Rattle.lvdc_image.specs.Reading.{start_number, start_of};

use crate::ImageFault;
use lvdc_map::Hop;
use lvdc_text::octal;
use lvdc_word::Word;

/// The number of a START line, where the text has that form.
fn start_number(text: &[u8]) -> Option<u64>
    ensures { result ≡ start_number text.now }
{
    let digits = text.strip_prefix(b"START ")?;
    if digits.len() == 9 {
        octal(digits, 9)
    } else {
        None
    }
}

/// The start constant that the text of this line tells.
pub(crate) fn start_in(text: &[u8], number: u32) -> Result<Hop, ImageFault>
    ensures { result ≡ start_of number (start_number text.now) }
{
    match start_number(text) {
        Some(value) if value < 1 << 26 && value % 2 == 0 => {
            Ok(Hop::of(Word::within(value as u32)))
        }
        Some(_) => Err(ImageFault::BadWord(number)),
        None => Err(ImageFault::BadImageLine(number)),
    }
}
