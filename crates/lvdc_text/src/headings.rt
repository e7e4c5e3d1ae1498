//! Words, and lines that are one word alone.

ghost use Rattle.std.specs.Prelude.{◌≡◌, map, All};
ghost use Rattle.std.specs.Str.{bytes_eq};
ghost use Rattle.lvdc_text.specs.Lines.{IsWithin, part_of, LiesIn, token_text};
ghost use Rattle.lvdc_text.specs.Headings.{is_word, is_alone, place_of};

use crate::cutting::{Line, Token, few_tokens, part, token_text};

/// Does the text spell this word?
pub fn spells(text: &[u8], word: &[u8]) -> bool
    ensures { result ≡ bytes_eq text.now word.now }
{
    text == word
}

/// Are the tokens this word alone?
pub fn is_word(word: &[u8], text: &[u8], tokens: &[Token]) -> bool
    requires { All (LiesIn text.now) tokens.now }
    ensures { result ≡ is_word word.now (map (token_text text.now) tokens.now) }
{
    match tokens {
        [token] => token_text(text, token) == word,
        _ => false,
    }
}

/// Is the text this word alone, but for outer blanks?
pub fn is_alone(word: &[u8], text: &[u8]) -> bool
    ensures { result ≡ is_alone word.now text.now }
{
    match few_tokens::<1>(text) {
        Some(tokens) => is_word(word, text, tokens.as_slice()),
        None => false,
    }
}

/// The place of the first of these lines that is this word alone.
pub fn place_of(word: &[u8], bytes: &[u8], lines: &[Line]) -> Option<usize>
    requires { All (IsWithin bytes.now) lines.now }
    ensures { result ≡ place_of word.now bytes.now lines.now }
{
    for (at, line) in lines.iter().enumerate() {
        if is_alone(word, part(bytes, line)) {
            return Some(at);
        }
    }
    None
}
