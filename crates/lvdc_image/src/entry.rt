ghost use Rattle.std.specs.Prelude.{◌≡◌, ◌+◌, ◌≤◌, length};
ghost use Rattle.lvdc_image.specs.Reading.{field, is_spaced, entry_in};

use lvdc_map::{Address, Banks};
use lvdc_text::octal;

/// What a word line says: an address, and a number that may be too large for a word.
#[derive(Clone, Copy)]
pub(crate) struct Entry {
    pub(crate) at: Address,
    pub(crate) value: u64,
}

/// The octal number that fills these columns.
fn field(text: &[u8], column: usize, width: u8) -> Option<u64>
    requires within { column + width ≤ length text.now }
    requires width { width ≤ 18 }
    ensures { result ≡ field column width text.now }
{
    octal(&text[column..column + usize::from(width)], width)
}

/// Whether the text is as long as a word line, with single spaces between the fields.
fn is_spaced(text: &[u8]) -> bool
    ensures { result ≡ is_spaced text.now }
{
    text.len() == 18 && text[1] == b' ' && text[4] == b' ' && text[8] == b' '
}

/// What the text says as a word line, where it has that form and its bank is there.
#[tactic(auto, unfolding(crate::specs::Reading::entry_in))]
pub(crate) fn entry_in(text: &[u8], banks: Banks) -> Option<Entry>
    ensures { result ≡ entry_in banks text.now }
{
    if !is_spaced(text) {
        return None;
    }
    let pair = field(text, 0, 1)?;
    let sector = field(text, 2, 2)?;
    let loc = field(text, 5, 3)?;
    let value = field(text, 9, 9)?;
    if pair > 7 || sector > 15 || loc > 255 {
        return None;
    }
    let at = Address::new(pair as u8, sector as u8, loc as u8)?;
    if banks.has(at) {
        Some(Entry { at, value })
    } else {
        None
    }
}
