//! The fields of lines.

ghost use Rattle.std.specs.Prelude.{◌≡◌, ◌<◌, ◌≤◌, map, option_map, IfSome, IfOk, All};
ghost use Rattle.lvdc_text.specs.Lines.{LiesIn, token_text};
ghost use Rattle.lvdc_fault.specs.Events.{TIMES};
ghost use Rattle.lvdc_save.specs.Entries.{steps_in, times_in, port_in, twin_in, cell_in, spot_in, words_in};

use lvdc_fault::MOST_TIMES;
use lvdc_lines::{decimal_in, octal_in};
use lvdc_map::Address;
use lvdc_text::{Token, octal_word, token_text};
use lvdc_word::{Cell, NoMemory, Word};
use std::alloc::Global;

/// A number of steps made.
pub(crate) fn steps_in(token: &[u8]) -> Option<u64>
    ensures { result ≡ steps_in token.now }
{
    decimal_in(0, 3 * MOST_TIMES + 1, token)
}

/// A number of instruction times.
pub(crate) fn times_in(token: &[u8]) -> Option<u64>
    ensures value { result ≡ times_in token.now }
    ensures range { IfSome result (λ times. times ≤ TIMES) }
{
    decimal_in(0, MOST_TIMES + 1, token)
}

/// A port, 000 to 377 octal.
pub(crate) fn port_in(token: &[u8]) -> Option<u8>
    ensures { result ≡ port_in token.now }
{
    let port = octal_in(1 << 8, 3, token)?;
    Some(port as u8)
}

/// A twin, 0 or 1.
pub(crate) fn twin_in(token: &[u8]) -> Option<u8>
    ensures value { result ≡ twin_in token.now }
    ensures range { IfSome result (λ twin. twin < 2) }
{
    let twin = decimal_in(0, 2, token)?;
    Some(twin as u8)
}

/// The bits of a cell.
pub(crate) fn cell_in(token: &[u8]) -> Option<Cell>
    ensures { result ≡ cell_in token.now }
{
    let bits = octal_in(1 << 28, 10, token)?;
    Some(Cell::within(bits as u32))
}

/// A bank, a sector and a location.
pub(crate) fn spot_in(pair: &[u8], sector: &[u8], loc: &[u8]) -> Option<Address>
    ensures { result ≡ spot_in pair.now sector.now loc.now }
{
    let pair = octal_in(8, 1, pair)?;
    let sector = octal_in(16, 2, sector)?;
    let loc = octal_in(256, 3, loc)?;
    Address::new(pair as u8, sector as u8, loc as u8)
}

/// The words of these tokens, where each token is one.
pub(crate) fn words_in(
    alloc: Global,
    text: &[u8],
    tokens: &[Token],
) -> Result<Option<Vec<Word>>, NoMemory>
    requires { All (LiesIn text.now) tokens.now }
    ensures { IfOk result (λ found. option_map (λ words. words.items) found ≡ words_in (map (token_text text.now) tokens.now)) }
{
    let mut words = Vec::new(alloc);
    for token in tokens {
        match octal_word(token_text(text, token)) {
            Some(word) => words.push(word)?,
            None => return Ok(None),
        }
    }
    Ok(Some(words))
}
