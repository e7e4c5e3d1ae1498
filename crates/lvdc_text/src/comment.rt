ghost use Rattle.std.specs.Prelude.{◌≡◌};
ghost use Rattle.std.specs.List.{list_all};
ghost use Rattle.lvdc_text.specs.Lines.{is_blank, is_long, is_comment};

use crate::cutting::is_blank;

/// The most bytes of a line of a deck or of a source, without its end (this project's profile).
pub const LONGEST_LINE: usize = 120;

/// Does the line have too many bytes?
pub fn is_long(text: &[u8]) -> bool
    ensures { result ≡ is_long text.now }
{
    text.len() > LONGEST_LINE
}

/// Are all bytes blanks?
fn are_blank(text: &[u8]) -> bool
    ensures { result ≡ list_all is_blank text.now }
{
    text.iter().all(|byte| is_blank(*byte))
}

/// Is the line blank, or does it begin with `*`? Decks and sources skip such a line.
pub fn is_comment(text: &[u8]) -> bool
    ensures { result ≡ is_comment text.now }
{
    match text {
        [] => true,
        [first, ..] => *first == b'*' || are_blank(text),
    }
}
