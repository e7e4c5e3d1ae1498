ghost use Rattle.std.specs.Prelude.{◌≡◌, ◌<◌, unsigned_abs};
ghost use Rattle.lvdc_word.specs.Word.{signed};
ghost use Rattle.lvdc_mul.specs.Control.{control_of};
ghost use Rattle.lvdc_mul.specs.Unit.{sign_phase, bit_phase, divide_phase, divide_result};

use crate::Unit;
use crate::control::Control;
use lvdc_word::{Word, saturated};

/// The magnitude of a word, as a word: 2^25 at most.
fn magnitude(word: Word) -> Word
    ensures { result ≡ unsigned_abs (signed word) }
{
    Word::within(word.signed().unsigned_abs())
}

/// The first phase of a divide: the signs are noted, and the magnitudes are left.
fn sign_phase(unit: Unit, control: Control) -> Unit
    requires fields { control ≡ control_of unit.control }
    requires some { 0 < control.count }
    ensures { result ≡ sign_phase unit }
{
    let m = magnitude(unit.m);
    let h = magnitude(unit.h);
    let control = Control {
        negative: unit.h.is_negative() != unit.m.is_negative(),
        saturated: h >= m,
        ..control.counted_down()
    };
    Unit {
        control: control.word(),
        m,
        h,
        q: unit.q,
    }
}

/// A later phase of a divide: one bit of the quotient is found.
fn bit_phase(unit: Unit, control: Control) -> Unit
    requires fields { control ≡ control_of unit.control }
    requires some { 0 < control.count }
    ensures { result ≡ bit_phase unit }
{
    let twice = unit.h.left(1);
    let (h, bit) = if twice >= unit.m {
        (twice.minus(unit.m), 1)
    } else {
        (twice, 0)
    };
    Unit {
        control: control.counted_down().word(),
        m: unit.m,
        h,
        q: unit.q.left(1).plus(Word::within(bit)),
    }
}

/// A phase of a divide.
pub(crate) fn phase(unit: Unit, control: Control) -> Unit
    requires fields { control ≡ control_of unit.control }
    requires some { 0 < control.count }
    ensures { result ≡ divide_phase unit }
{
    if control.count == 24 {
        sign_phase(unit, control)
    } else {
        bit_phase(unit, control)
    }
}

/// The quotient, of CONTROL and Q after the last phase.
pub(crate) fn result(control: Control, q: Word) -> Word
    ensures { result ≡ divide_result control q }
{
    let magnitude = q.left(2);
    if control.saturated {
        saturated(control.negative)
    } else if control.negative {
        Word::ZERO.minus(magnitude)
    } else {
        magnitude
    }
}
