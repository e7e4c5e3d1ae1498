ghost use Rattle.std.specs.Prelude.{◌≡◌, ◌<◌, ◌==◌, length, option_map, Some, IfSome, IfNone};
ghost use Rattle.std.specs.List.{position, before_first};
ghost use Rattle.lvdc_source.specs.Numbers.{after_any, above_zero, signed_of, octals_of};
ghost use Rattle.lvdc_text.specs.Numbers.{number_of};

use arrayvec::ArrayVec;
use lvdc_text::{decimal, octal};

/// The most digits of a number.
pub(crate) const DIGITS: u8 = 9;

/// The most fields of a directive; ORG has so many.
const MOST_FIELDS: usize = 4;

/// The number of a decimal text of one to nine digits, after a sign or without one.
#[tactic(auto, unfolding(crate::specs::Numbers::signed_of))]
pub(crate) fn signed(text: &[u8]) -> Option<i64>
    ensures { result ≡ signed_of text.now }
{
    match text {
        [b'+', digits @ ..] => magnitude(digits),
        [b'-', digits @ ..] => Some(-magnitude(digits)?),
        _ => magnitude(text),
    }
}

/// The number of a decimal text of one to nine digits.
fn magnitude(text: &[u8]) -> Option<i64>
    ensures { result ≡ above_zero (number_of 10 9 text.now) }
{
    let number = decimal(text, DIGITS)?;
    Some(number as i64)
}

/// Where the first separator stands.
fn first(text: &[u8], separator: u8) -> Option<usize>
    ensures { result ≡ position (λ b. b == separator) text.now }
{
    text.iter().position(|byte| *byte == separator)
}

/// The text before the first separator, and the text after it, where there is one.
pub(crate) fn cut(text: &[u8], separator: u8) -> (&[u8], Option<&[u8]>)
    ensures before { result.0.now ≡ before_first (λ b. b == separator) text.now }
    ensures after { option_map (λ after. after.now) result.1 ≡ after_any (λ b. b == separator) text.now }
{
    match first(text, separator) {
        Some(at) => (&text[..at], Some(&text[at + 1..])),
        None => (text, None),
    }
}

/// The octal numbers of one to nine digits between single commas, where there are at most four.
pub(crate) fn octals(text: &[u8]) -> Option<ArrayVec<u64, MOST_FIELDS>>
    ensures some { IfSome result (λ numbers. octals_of text.now ≡ Some numbers.items) }
    ensures none { IfNone result (IfSome (octals_of text.now) (λ numbers. 4 < length numbers)) }
{
    let mut numbers = ArrayVec::new();
    let mut rest = Some(text);
    while let Some(fields) = rest {
        let (field, after) = cut(fields, b',');
        let number = octal(field, DIGITS)?;
        if numbers.try_push(number).is_err() {
            return None;
        }
        rest = after;
    }
    Some(numbers)
}
