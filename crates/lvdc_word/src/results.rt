ghost use Rattle.std.specs.Prelude.{◌≡◌, ◌<◌, ◌^◌, ◌*◌, ◌/◌, pos, negsuc, ◌≤ℤ◌, ◌*ℤ◌};
ghost use Rattle.lvdc_word.specs.Word.{word_of};
ghost use Rattle.lvdc_word.specs.Results.{fraction, product, quotient, saturated, with_sign};

use crate::Word;

/// The product of two fractions, as a multiply lands it.
pub fn product(a: Word, m: Word) -> Word
    ensures { result ≡ product a m }
{
    let product = fraction(a) * fraction(m);
    Word::modulo(product.div_euclid(1 << 21))
}

/// The quotient of two fractions, as a divide lands it.
pub fn quotient(a: Word, m: Word) -> Word
    ensures { result ≡ quotient a m }
{
    let a = fraction(a);
    let m = fraction(m);
    let negative = (a < 0) != (m < 0);
    if a.unsigned_abs() < m.unsigned_abs() {
        proper(a.unsigned_abs(), m.unsigned_abs(), negative)
    } else {
        saturated(negative)
    }
}

/// The quotient of this sign that is greatest in magnitude, where no quotient below 1 is (this project's profile).
pub fn saturated(negative: bool) -> Word
    ensures { result ≡ saturated negative }
{
    Word::within(if negative { 0o200000000 } else { 0o177777774 })
}

/// The upper 24 bits of a word, signed.
fn fraction(word: Word) -> i64
    ensures value { result ≡ fraction word }
    ensures low { negsuc 8388607 ≤ℤ result }
    ensures high { result ≤ℤ pos 8388607 }
{
    let bits = word.value();
    if bits < 1 << 25 {
        i64::from(bits / 4)
    } else {
        -1 - i64::from((Word::LIMIT - 1 - bits) / 4)
    }
}

/// A quotient below 1 of two magnitudes, with its sign.
fn proper(a: u64, m: u64, negative: bool) -> Word
    requires below { a < m }
    requires small { m < 2 ^ 24 }
    ensures { result ≡ word_of (with_sign negative (a * 2 ^ 23 / m) *ℤ pos 4) }
{
    let quotient = a * (1 << 23) / m;
    prove!(quotient < 1 << 23);
    let magnitude = quotient as i64;
    if negative {
        Word::modulo(-magnitude * 4)
    } else {
        Word::modulo(magnitude * 4)
    }
}
