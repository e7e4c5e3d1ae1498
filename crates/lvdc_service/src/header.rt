ghost use Rattle.std.specs.Prelude.{◌≡◌, ◌≤◌, ◌∷◌, length, map, true, None, Some, IfSome, IfNone, All, codes};
ghost use Rattle.std.specs.List.{list_all};
ghost use Rattle.std.specs.Str.{bytes_eq};
ghost use Rattle.lvdc_service.specs.Frames.{is_graphic, is_word, are_words, input_count, frame_line_of_parts, frame_line_of};
ghost use Rattle.lvdc_service.specs.Parts.{part_of, LiesIn};

use crate::parts::{Part, bytes_of, parts};
use arrayvec::ArrayVec;
use lvdc_text::plain_decimal;

/// The most bytes of an input.
const LONGEST_INPUT: u64 = 134_217_728;

/// What the line of a frame says. It takes no memory.
#[derive(Drop)]
pub struct Header {
    /// How many bytes of input follow the line.
    pub count: usize,
    /// Where the words stand in the line.
    pub words: ArrayVec<Part, 8>,
}

/// Can the byte be seen?
fn is_graphic(byte: u8) -> bool
    ensures { result ≡ is_graphic byte }
{
    byte > 32 && byte < 127
}

/// Can each byte be seen?
fn are_graphic(text: &[u8]) -> bool
    ensures { result ≡ list_all is_graphic text.now }
{
    text.iter().all(|byte| is_graphic(*byte))
}

/// Is it one byte or more, and can each be seen?
fn is_word(text: &[u8]) -> bool
    ensures { result ≡ is_word text.now }
{
    !text.is_empty() && are_graphic(text)
}

/// Are these parts of the line one to eight words?
fn are_words(line: &[u8], words: &[Part]) -> bool
    requires { All (LiesIn line.now) words.now }
    ensures { result ≡ are_words (map (part_of line.now) words.now) }
{
    if words.is_empty() || words.len() > 8 {
        return false;
    }
    for word in words {
        if !is_word(bytes_of(line, word)) {
            return false;
        }
    }
    true
}

/// Is it the word that a frame begins with?
fn is_first(text: &[u8]) -> bool
    ensures { result ≡ bytes_eq text.now (codes "REQUEST") }
{
    text == b"REQUEST".as_slice()
}

/// How many bytes of input the digits name.
fn input_count(digits: &[u8]) -> Option<usize>
    ensures { result ≡ input_count digits.now }
{
    match plain_decimal(digits, 9) {
        Some(count) if count <= LONGEST_INPUT => Some(count as usize),
        _ => None,
    }
}

/// The same parts, at most eight.
fn kept(words: &[Part]) -> ArrayVec<Part, 8>
    requires { length words.now ≤ 8 }
    ensures { result.items ≡ words.now }
{
    let mut kept = ArrayVec::new();
    let pushed = kept.try_extend_from_slice(words);
    prove!(pushed.is_ok());
    kept
}

/// What a line of these parts says, where it is the line of a frame.
fn header_by(line: &[u8], first: &Part, digits: &Part, words: &[Part]) -> Option<Header>
    requires first { LiesIn line.now first.now }
    requires digits { LiesIn line.now digits.now }
    requires words { All (LiesIn line.now) words.now }
    ensures some { IfSome result (λ header. frame_line_of_parts (map (part_of line.now) (first.now ∷ digits.now ∷ words.now))
        ≡ Some (record { count = header.count; words = map (part_of line.now) header.words.items })) }
    ensures none { IfNone result (frame_line_of_parts (map (part_of line.now) (first.now ∷ digits.now ∷ words.now)) ≡ None) }
    ensures within { IfSome result (λ header. All (LiesIn line.now) header.words.items) }
    ensures words { IfSome result (λ header. list_all is_word (map (part_of line.now) header.words.items) ≡ true) }
{
    if !is_first(bytes_of(line, first)) {
        return None;
    }
    if !are_words(line, words) {
        return None;
    }
    match input_count(bytes_of(line, digits)) {
        Some(count) => Some(Header {
            count,
            words: kept(words),
        }),
        None => None,
    }
}

/// What the line says, where it is the line of a frame.
pub fn header_of(line: &[u8]) -> Option<Header>
    ensures some { IfSome result (λ header. frame_line_of line.now
        ≡ Some (record { count = header.count; words = map (part_of line.now) header.words.items })) }
    ensures none { IfNone result (frame_line_of line.now ≡ None) }
    ensures within { IfSome result (λ header. All (LiesIn line.now) header.words.items) }
    ensures words { IfSome result (λ header. list_all is_word (map (part_of line.now) header.words.items) ≡ true) }
{
    match parts::<10>(line) {
        Some(parts) => match parts.as_slice() {
            [first, digits, words @ ..] => header_by(line, first, digits, words),
            _ => None,
        },
        None => None,
    }
}
