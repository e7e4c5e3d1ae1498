ghost use Rattle.std.specs.Prelude.{◌≡◌, ℕ, ◌+◌, ◌<◌, ◌≤◌, List, [], ◌∷◌, map, None, option_map, IfSome, IfNone, IfOk, All};
ghost use Rattle.lvdc_text.specs.Lines.{LiesIn, token_text};
ghost use Rattle.lvdc_deck.specs.Sections.{port_in, time_in, words_in, supply_of, pairs_from};

use lvdc_fault::MOST_TIMES;
use lvdc_map::Banks;
use lvdc_port::Supply;
use lvdc_text::{Token, octal, octal_word, plain_decimal, token_text};
use lvdc_word::NoMemory;
use std::alloc::Global;

/// A port: one to three octal digits up to 377.
pub(crate) fn port_in(token: &[u8]) -> Option<u8>
    ensures { result ≡ port_in token.now }
{
    match octal(token, 3) {
        Some(port) if port < 1 << 8 => Some(port as u8),
        _ => None,
    }
}

/// An instruction time: a decimal number up to the greatest count, without a needless zero.
pub(crate) fn time_in(token: &[u8]) -> Option<u64>
    ensures { result ≡ time_in token.now }
{
    match plain_decimal(token, 7) {
        Some(time) if time <= MOST_TIMES => Some(time),
        _ => None,
    }
}

/// The words of these tokens for the tape at a port, where each token is a word.
pub(crate) fn supplies_in(
    alloc: Global,
    port: u8,
    text: &[u8],
    tokens: &[Token],
) -> Result<Option<Vec<Supply>>, NoMemory>
    requires { All (LiesIn text.now) tokens.now }
    ensures { IfOk result (λ found. option_map (λ supplies. supplies.items) found
        ≡ option_map (supply_of port) (words_in (map (token_text text.now) tokens.now))) }
{
    let mut supplies = Vec::new(alloc);
    for token in tokens {
        match octal_word(token_text(text, token)) {
            Some(word) => supplies.push(Supply { port, word })?,
            None => return Ok(None),
        }
    }
    Ok(Some(supplies))
}

/// The pair that the token names, from 0 to 3, where it is `least` or a later one.
fn pair_in(least: u8, token: &[u8]) -> Option<u8>
    requires { least ≤ 4 }
    ensures some { IfSome result (λ pair. (token.now ≡ (48 + pair) ∷ []) × (least ≤ pair) × (pair < 4)) }
    ensures none { IfNone result ((tokens : List (List ℕ)) → pairs_from least (token.now ∷ tokens) ≡ None) }
{
    match token {
        [digit] if *digit >= b'0' + least && *digit <= b'3' => Some(*digit - b'0'),
        _ => None,
    }
}

/// The pairs that these tokens name, each by a digit of its own, rising.
pub(crate) fn pairs_in(text: &[u8], tokens: &[Token]) -> Option<Banks>
    requires { All (LiesIn text.now) tokens.now }
    ensures { result ≡ pairs_from 0 (map (token_text text.now) tokens.now) }
{
    let mut least = 0;
    let mut pairs = 0;
    for token in tokens {
        match pair_in(least, token_text(text, token)) {
            Some(pair) => {
                pairs += 1 << pair;
                least = pair + 1;
            }
            None => return None,
        }
    }
    Banks::new(pairs)
}
