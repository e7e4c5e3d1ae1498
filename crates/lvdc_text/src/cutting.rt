ghost use Rattle.std.specs.Prelude.{◌≡◌, ◌<◌, ◌≤◌, ◌+◌, ◌-◌, ◌^◌, ℕ, ◌∷◌, [], length, slice_index, map, false, IfOk, IfSome, IfNone, All};
ghost use Rattle.std.specs.Str.Lines.{strip_carriage_return};
ghost use Rattle.lvdc_text.specs.Lines.{lines_of, texts_of, is_blank, tokens_left, tokens_of, token_texts_of, IsWithin, part_of, LiesIn, token_text};

use arrayvec::ArrayVec;
use lvdc_word::NoMemory;
use std::alloc::Global;

#[derive(Debug)]
/// A line of a text: where it stands in the bytes, counted from 0, and its number, counted from 1.
#[derive(Clone, Copy, Default, PartialEq, Eq)]
pub struct Line {
    /// Which line of the text it is.
    pub number: u32,
    /// The place of its first byte.
    pub start: usize,
    /// The place after its last byte.
    pub end: usize,
}

#[derive(Debug)]
/// A token of a text: where it stands in the bytes, counted from 0.
#[derive(Clone, Copy, Default, PartialEq, Eq)]
pub struct Token {
    /// The place of its first byte.
    pub start: usize,
    /// The place after its last byte.
    pub end: usize,
}

/// The length of the text without a CR at its end.
fn length_without_cr(text: &[u8]) -> usize
    ensures kept { result ≡ length (strip_carriage_return text.now) }
    ensures within { result ≤ length text.now }
{
    match text.split_last() {
        Some((last, front)) if *last == b'\r' => front.len(),
        _ => text.len(),
    }
}

/// The lines of the bytes. LF ends a line, and a CR just before it is dropped; at the end of a last line without LF a CR
/// stays. Where nothing follows the last LF, no line follows it.
pub fn lines(alloc: Global, bytes: &[u8]) -> Result<Vec<Line>, NoMemory>
    requires { length bytes.now < 2 ^ 32 - 1 }
    ensures lines { IfOk result (λ v. v.items ≡ lines_of bytes.now) }
    ensures texts { IfOk result (λ v. map (part_of bytes.now) v.items ≡ texts_of bytes.now) }
    ensures within { IfOk result (λ v. All (IsWithin bytes.now) v.items) }
    ensures few { IfOk result (λ v. length v.items ≤ length bytes.now) }
{
    cut_lines(alloc, bytes)
}

/// The tokens of the text: its runs without blanks, which are space and tab.
pub fn tokens(alloc: Global, text: &[u8]) -> Result<Vec<Token>, NoMemory>
    ensures tokens { IfOk result (λ v. v.items ≡ tokens_of text.now) }
    ensures texts { IfOk result (λ v. map (token_text text.now) v.items ≡ token_texts_of text.now) }
    ensures within { IfOk result (λ v. All (LiesIn text.now) v.items) }
    ensures few { IfOk result (λ v. length v.items ≤ length text.now) }
{
    cut_tokens(alloc, text)
}

/// The tokens of the text, where there are at most so many. It takes no memory.
pub fn few_tokens<const MOST: usize>(text: &[u8]) -> Option<ArrayVec<Token, MOST>>
    ensures tokens { IfSome result (λ v. v.items ≡ tokens_of text.now) }
    ensures texts { IfSome result (λ v. map (token_text text.now) v.items ≡ token_texts_of text.now) }
    ensures within { IfSome result (λ v. All (LiesIn text.now) v.items) }
    ensures many { IfNone result (MOST < length (token_texts_of text.now)) }
    ensures long { IfNone result (MOST < length text.now) }
{
    cut_few_tokens(text)
}

/// The bytes of a line.
pub fn part<'a>(bytes: &'a [u8], line: &Line) -> &'a [u8]
    requires { IsWithin bytes.now line.now }
    ensures { result.now ≡ part_of bytes.now line.now }
{
    &bytes[line.start..line.end]
}

/// The bytes of a token.
pub fn token_text<'a>(text: &'a [u8], token: &Token) -> &'a [u8]
    requires { LiesIn text.now token.now }
    ensures { result.now ≡ token_text text.now token.now }
{
    &text[token.start..token.end]
}

/// The lines of the bytes, each pushed at the LF that ends it.
fn cut_lines(alloc: Global, bytes: &[u8]) -> Result<Vec<Line>, NoMemory>
    requires { length bytes.now < 2 ^ 32 - 1 }
    ensures { IfOk result (λ v. v.items ≡ lines_of bytes.now) }
{
    let mut lines = Vec::new(alloc);
    let mut number = 1;
    let mut start = 0;
    for (at, byte) in bytes.iter().enumerate() {
        if *byte == b'\n' {
            let end = start + length_without_cr(&bytes[start..at]);
            lines.push(Line { number, start, end })?;
            number += 1;
            start = at + 1;
        }
    }
    if start < bytes.len() {
        let end = bytes.len();
        lines.push(Line { number, start, end })?;
    }
    Ok(lines)
}

/// Whether the byte is a blank: a space or a tab.
pub fn is_blank(byte: u8) -> bool
    ensures { result ≡ is_blank byte }
{
    byte == b' ' || byte == b'\t'
}

/// The first place from `start` on where no blank stands.
fn skip_blanks(text: &[u8], start: usize) -> usize
    requires { start ≤ length text.now }
    ensures after { start ≤ result }
    ensures within { result ≤ length text.now }
    ensures some { result < length text.now → is_blank (slice_index text.now result) ≡ false }
    ensures skipped { tokens_left start text.now ≡ tokens_left result text.now }
{
    let mut at = start;
    while at < text.len() && is_blank(text[at]) {
        at += 1;
    }
    at
}

/// The end of the token that begins at `start`.
fn end_of_token(text: &[u8], start: usize) -> usize
    requires within { start < length text.now }
    requires begins { is_blank (slice_index text.now start) ≡ false }
    ensures after { start < result }
    ensures within { result ≤ length text.now }
    ensures token { tokens_left start text.now ≡ record { start = start; end = result } ∷ tokens_left result text.now }
{
    let mut end = start + 1;
    while end < text.len() && !is_blank(text[end]) {
        end += 1;
    }
    end
}

/// The first token from `start` on.
fn next_token(text: &[u8], start: usize) -> Option<Token>
    requires { start ≤ length text.now }
    ensures none { IfNone result (tokens_left start text.now ≡ []) }
    ensures some { IfSome result (λ token. tokens_left start text.now ≡ token ∷ tokens_left token.end text.now) }
    ensures further { IfSome result (λ token. (start < token.end) × (token.end ≤ length text.now)) }
{
    let start = skip_blanks(text, start);
    if start == text.len() {
        return None;
    }
    let end = end_of_token(text, start);
    Some(Token { start, end })
}

/// The tokens of the text, one after another.
fn cut_tokens(alloc: Global, text: &[u8]) -> Result<Vec<Token>, NoMemory>
    ensures { IfOk result (λ v. v.items ≡ tokens_of text.now) }
{
    let mut tokens = Vec::new(alloc);
    let mut start = 0;
    while let Some(token) = next_token(text, start) {
        tokens.push(token)?;
        start = token.end;
    }
    Ok(tokens)
}

/// The tokens of the text, where there are at most so many. It takes no memory.
fn cut_few_tokens<const MOST: usize>(text: &[u8]) -> Option<ArrayVec<Token, MOST>>
    ensures some { IfSome result (λ v. v.items ≡ tokens_of text.now) }
    ensures none { IfNone result (MOST < length (tokens_of text.now)) }
{
    let mut tokens = ArrayVec::new();
    let mut start = 0;
    while let Some(token) = next_token(text, start) {
        tokens.try_push(token).ok()?;
        start = token.end;
    }
    Some(tokens)
}
