ghost use Rattle.std.specs.Prelude.{◌≡◌, ◌≤◌, ◌<◌, ◌^◌, ◌++◌, ℕ, Some, IfSome, OnOk, OnErr, decimal, length};
ghost use Rattle.lvdc_text.specs.Numbers.{number_of, is_plain, plain_number_of, word_in, octal_text};

use itoa::Buffer;
use lvdc_word::{NoMemory, Word};

/// The number that one to `digits` digits of the base stand for. Leading zeros are allowed.
fn number(text: &[u8], base: u64, digits: u8) -> Option<u64>
    requires some { 0 < base }
    requires base { base ≤ 10 }
    requires digits { digits ≤ 18 }
    ensures value { result ≡ number_of base digits text.now }
    ensures range { IfSome result (λ n. n < base ^ digits) }
{
    if text.is_empty() || text.len() > usize::from(digits) {
        return None;
    }
    let mut value = 0;
    for byte in text {
        if *byte < b'0' || u64::from(*byte) >= u64::from(b'0') + base {
            return None;
        }
        value = base * value + u64::from(*byte - b'0');
    }
    Some(value)
}

/// The number that one to `digits` octal digits stand for. Leading zeros are allowed.
pub fn octal(text: &[u8], digits: u8) -> Option<u64>
    requires { digits ≤ 18 }
    ensures value { result ≡ number_of 8 digits text.now }
    ensures range { IfSome result (λ n. n < 8 ^ digits) }
{
    number(text, 8, digits)
}

/// The number that one to `digits` decimal digits stand for. Leading zeros are allowed.
pub fn decimal(text: &[u8], digits: u8) -> Option<u64>
    requires { digits ≤ 18 }
    ensures value { result ≡ number_of 10 digits text.now }
    ensures range { IfSome result (λ n. n < 10 ^ digits) }
{
    number(text, 10, digits)
}

/// Does the number begin without a needless zero?
fn is_plain(text: &[u8]) -> bool
    ensures { result ≡ is_plain text.now }
{
    match text {
        [first, _, ..] => *first != b'0',
        _ => true,
    }
}

/// The number that one to `digits` decimal digits without a needless zero in front stand for.
pub fn plain_decimal(text: &[u8], digits: u8) -> Option<u64>
    requires { digits ≤ 18 }
    ensures value { result ≡ plain_number_of digits text.now }
    ensures range { IfSome result (λ n. n < 10 ^ digits) }
{
    if is_plain(text) {
        decimal(text, digits)
    } else {
        None
    }
}

/// The word that one to nine octal digits stand for.
#[tactic(auto, unfolding(crate::specs::Numbers::word_in))]
pub fn octal_word(text: &[u8]) -> Option<Word>
    ensures value { result ≡ word_in text.now }
    ensures range { IfSome result (λ word. word < 2 ^ 26) }
{
    match octal(text, 9) {
        Some(value) if value < u64::from(Word::LIMIT) => Some(Word::within(value as u32)),
        _ => None,
    }
}

/// Writes the number in as many octal digits as there is room for, with zeros in front.
#[inline(always)]
pub fn fill_octal(digits: &mut [u8], value: u64)
    requires { value < 8 ^ length digits.old }
    ensures { digits.new ≡ octal_text (length digits.old) value }
{
    let mut rest = value;
    for at in (0..digits.len()).rev() {
        digits[at] = b'0' + (rest % 8) as u8;
        rest /= 8;
    }
}

/// Appends the number in `width` octal digits, with zeros in front.
pub fn put_octal(out: &mut Vec<u8>, value: u64, width: u8) -> Result<(), NoMemory>
    requires { value < 8 ^ width }
    ensures ok { OnOk result (out.new.items ≡ out.old.items ++ octal_text width value) }
    ensures err { OnErr result (out.new.items ≡ out.old.items) }
    // What it appends, read again, is the number.
    ensures back { 0 < width → number_of 8 width (octal_text width value) ≡ Some value }
{
    let mut room = [b'0'; 255];
    let digits = &mut room[..usize::from(width)];
    fill_octal(digits, value);
    out.extend_from_slice(digits)?;
    Ok(())
}

/// Appends the number in decimal digits, without zeros in front.
pub fn put_decimal(out: &mut Vec<u8>, value: u64) -> Result<(), NoMemory>
    ensures ok { OnOk result (out.new.items ≡ out.old.items ++ decimal value) }
    ensures err { OnErr result (out.new.items ≡ out.old.items) }
    // What it appends, read again, is the number.
    ensures back { (digits : ℕ) → 0 < digits → value < 10 ^ digits →
        number_of 10 digits (decimal value) ≡ Some value }
{
    let mut buffer = Buffer::new();
    out.extend_from_slice(buffer.format(value).as_bytes())?;
    Ok(())
}
