ghost use Rattle.std.specs.Prelude.{◌≡◌, ◌<◌, ◌+ℤ◌, ◌*ℤ◌, ◌≤ℤ◌, pos, negsuc};
ghost use Rattle.lvdc_word.specs.Word.{signed, word_of};
ghost use Rattle.lvdc_mul.specs.Control.{control_of};
ghost use Rattle.lvdc_mul.specs.Unit.{digit, multiply_sum, multiply_phase, multiply_result};

use crate::Unit;
use crate::control::Control;
use lvdc_word::Word;

/// The multiplier's digit, -2 to 3: in the last phase it has a sign.
fn digit(last: bool, low: u32) -> i32
    requires { low < 4 }
    ensures value { result ≡ digit last low }
    ensures least { negsuc 1 ≤ℤ result }
    ensures greatest { result ≤ℤ pos 3 }
{
    if last && low >= 2 {
        low as i32 - 4
    } else {
        low as i32
    }
}

/// `h` and a digit's multiple of `m`, modulo 2^26.
fn with_multiple(h: Word, digit: i32, m: Word) -> Word
    requires least { negsuc 1 ≤ℤ digit }
    requires greatest { digit ≤ℤ pos 3 }
    ensures { result ≡ word_of (signed h +ℤ (digit *ℤ signed m)) }
{
    Word::modulo(i64::from(h.signed() + digit * m.signed()))
}

/// H and the digit's multiple of M, before they are shifted.
fn sum(unit: Unit, control: Control) -> Word
    requires fields { control ≡ control_of unit.control }
    ensures { result ≡ multiply_sum unit }
{
    let digit = digit(control.count == 1, unit.q.value() & 3);
    with_multiple(unit.h, digit, unit.m)
}

/// A phase of a multiply: the digit's multiple is added to H, and H and Q are shifted right by one digit.
pub(crate) fn phase(unit: Unit, control: Control) -> Unit
    requires fields { control ≡ control_of unit.control }
    requires some { 0 < control.count }
    ensures { result ≡ multiply_phase unit }
{
    let sum = sum(unit, control);
    let fraction = unit.q.value() & 0xff_ffff;
    Unit {
        control: control.counted_down().word(),
        m: unit.m,
        h: sum.right(2),
        q: Word::within((fraction >> 2) + (sum.value() & 3) * (1 << 22)),
    }
}

/// The product, of H and Q after the last phase.
pub(crate) fn result(h: Word, q: Word) -> Word
    ensures { result ≡ multiply_result h q }
{
    Word::within((h.value() * 8 + (q.value() >> 21)) & (Word::LIMIT - 1))
}
