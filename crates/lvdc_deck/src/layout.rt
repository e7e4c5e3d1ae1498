ghost use Rattle.std.specs.Prelude.{◌≡◌, ◌<◌, ◌+◌, ◌-◌, ◌^◌, ℕ, List, length, map, option_map, IfSome, All};
ghost use Rattle.lvdc_text.specs.Lines.{IsWithin, LiesIn, token_text};
ghost use Rattle.lvdc_deck.specs.Sections.{section_of};
ghost use Rattle.lvdc_deck.specs.Deck.{opened_by, opening_of, end_of, lines_after};

use crate::section::{Opening, ProgramKind, Section};
use lvdc_text::{Line, Token, few_tokens, is_comment, is_long, is_word, place_of, spells};

/// The section that a first word opens.
pub(crate) fn section_of(word: &[u8]) -> Option<Section>
    ensures { result ≡ section_of word.now }
{
    if spells(word, b"START") {
        Some(Section::Start)
    } else if spells(word, b"SIMPLEX") {
        Some(Section::Simplex)
    } else if spells(word, b"PORTS") {
        Some(Section::Ports)
    } else if spells(word, b"FAULTS") {
        Some(Section::Faults)
    } else if spells(word, b"ORDER") {
        Some(Section::Order)
    } else if spells(word, b"RUN") {
        Some(Section::Run)
    } else if spells(word, b"DEBUG") {
        Some(Section::Debug)
    } else {
        None
    }
}

/// What the tokens of a line open that isn't skipped.
fn opened_by(text: &[u8], tokens: &[Token]) -> Opening
    requires { All (LiesIn text.now) tokens.now }
    ensures { result ≡ opened_by (map (token_text text.now) tokens.now) }
{
    if is_word(b"IMAGE", text, tokens) {
        Opening::Program(ProgramKind::Image)
    } else if is_word(b"SOURCE", text, tokens) {
        Opening::Program(ProgramKind::Source)
    } else {
        Opening::Other
    }
}

/// What a line opens that may be the deck's first.
pub(crate) fn opening_of(text: &[u8]) -> Opening
    requires { length text.now < 2 ^ 32 - 1 }
    ensures { result ≡ opening_of text.now }
{
    if is_long(text) {
        return Opening::Long;
    }
    if is_comment(text) {
        return Opening::Skipped;
    }
    match few_tokens::<1>(text) {
        Some(tokens) => opened_by(text, tokens.as_slice()),
        None => Opening::Other,
    }
}

/// The place of the program's last line among these.
pub fn end_of(bytes: &[u8], lines: &[Line]) -> Option<usize>
    requires size { length bytes.now < 2 ^ 32 - 1 }
    requires within { All (IsWithin bytes.now) lines.now }
    ensures place { result ≡ end_of bytes.now lines.now }
    ensures below { IfSome result (λ n. n < length lines.now) }
{
    place_of(b"END", bytes, lines)
}

/// A place behind the line at `at`, counted from the next line on.
pub(crate) fn place_after(place: Option<usize>, at: usize) -> Option<usize>
    requires { IfSome place (λ n. at < n) }
    ensures { result ≡ option_map (λ n. n - (at + 1)) place }
{
    match place {
        Some(place) => Some(place - (at + 1)),
        None => None,
    }
}

/// The lines after the one at this place, where there is one.
pub fn lines_after<'a>(lines: &'a [Line], at: Option<usize>) -> &'a [Line]
    requires { IfSome at (λ n. n < length lines.now) }
    ensures lines { result.now ≡ lines_after lines.now at }
    ensures within { (bytes : List ℕ) → All (IsWithin bytes) lines.now → All (IsWithin bytes) result.now }
{
    match at {
        Some(at) => &lines[at + 1..],
        None => &[],
    }
}
