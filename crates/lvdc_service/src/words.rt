//! What the words of a frame ask for. They are read where they stand in its line, so that this takes no memory.

ghost use Rattle.std.specs.Prelude.{◌≡◌, map, true, IfSome, All};
ghost use Rattle.std.specs.List.{list_all};
ghost use Rattle.lvdc_console.specs.Commands.{command_of};
ghost use Rattle.lvdc_console.specs.Words.{inquiry_of, IsInquiry};
ghost use Rattle.lvdc_service.specs.Frames.{is_word};
ghost use Rattle.lvdc_service.specs.Parts.{part_of, LiesIn};

use crate::parts::{Part, bytes_of};
use lvdc_console::{Command, Inquiry};

/// The word that a part of the line is.
fn word_of<'a>(line: &'a [u8], part: &Part) -> &'a str
    requires within { LiesIn line.now part.now }
    requires word { is_word (part_of line.now part.now) ≡ true }
    ensures { result.now ≡ part_of line.now part.now }
{
    match str::from_utf8(bytes_of(line, part)) {
        Ok(word) => word,
        Err(_) => unreachable!(),
    }
}

/// The command that the words are.
pub(crate) fn command_of(line: &[u8], words: &[Part]) -> Option<Command>
    requires within { All (LiesIn line.now) words.now }
    requires words { list_all is_word (map (part_of line.now) words.now) ≡ true }
    ensures { result ≡ command_of (map (part_of line.now) words.now) }
{
    match words {
        [word] => Command::from_word(word_of(line, word)),
        [first, second] => Command::from_two_words(word_of(line, first), word_of(line, second)),
        _ => None,
    }
}

/// The inquiry that the words are.
pub(crate) fn inquiry_of(line: &[u8], words: &[Part]) -> Option<Inquiry>
    requires within { All (LiesIn line.now) words.now }
    requires words { list_all is_word (map (part_of line.now) words.now) ≡ true }
    ensures value { result ≡ inquiry_of (map (part_of line.now) words.now) }
    ensures ranges { IfSome result IsInquiry }
{
    match words {
        [name] => Inquiry::from_word(word_of(line, name)),
        [name, first, count] => Inquiry::from_three_words(
            word_of(line, name),
            word_of(line, first),
            word_of(line, count),
        ),
        [name, flag, first, count] => Inquiry::from_four_words(
            word_of(line, name),
            word_of(line, flag),
            word_of(line, first),
            word_of(line, count),
        ),
        _ => None,
    }
}
