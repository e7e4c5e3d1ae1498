//! A line of a session as it is written again.

ghost use Rattle.std.specs.Prelude.{◌≡◌, ◌+◌, ◌≤◌, ◌++◌, length, OnOk};
ghost use Rattle.lvdc_debug.specs.Commands.{after_blanks, before_blanks};
ghost use Rattle.lvdc_debug.specs.Session.{echo_line};

use lvdc_text::{Piece, is_blank, put_line};
use lvdc_word::NoMemory;

/// The text without blanks in front.
fn after_blanks(text: &[u8]) -> &[u8]
    ensures { result.now ≡ after_blanks text.now }
{
    let mut start = 0;
    while start < text.len() && is_blank(text[start]) {
        start += 1;
    }
    &text[start..]
}

/// The text without blanks at its end.
fn before_blanks(text: &[u8]) -> &[u8]
    ensures { result.now ≡ before_blanks text.now }
{
    let mut end = text.len();
    while end > 0 && is_blank(text[end - 1]) {
        end -= 1;
    }
    &text[..end]
}

/// Adds the line without outer blanks.
pub(crate) fn put_echo(out: &mut Vec<u8>, text: &[u8]) -> Result<(), NoMemory>
    ensures line { OnOk result (out.new.items ≡ out.old.items ++ echo_line text.now) }
    ensures short { OnOk result (length out.new.items ≤ length out.old.items + length text.now + 3) }
{
    let line = Piece::Bytes(before_blanks(after_blanks(text)));
    put_line(out, b">", &[line])
}
