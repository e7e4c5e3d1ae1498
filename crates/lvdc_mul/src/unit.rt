ghost use Rattle.std.specs.Prelude.{◌≡◌};
ghost use Rattle.lvdc_word.specs.Results.{product, quotient};
ghost use Rattle.lvdc_mul.specs.Unit.{kind, issued_multiply, issued_divide, cancelled, phase_of, after_phases, lands_of, result_of};
ghost use Rattle.lvdc_mul.specs.Landing.{LandsOnlyIn, LandsNever};

use crate::control::{Control, Kind};
use crate::{divide, multiply};
use lvdc_word::Word;
use std::marker::Model;

/// The working latches of the multiplier. A pattern that no issue makes is legal too. The recurrences are this project's
/// profile of the published serial arithmetic.
#[derive(Clone, Copy)]
pub struct Unit {
    /// The kind of work, the count of phases left, NEG and SAT.
    pub control: Word,
    /// The multiplicand or the divisor.
    pub m: Word,
    /// The upper part of the product, or the remainder.
    pub h: Word,
    /// The multiplier and the lower part of the product, or the quotient.
    pub q: Word,
}

impl Model for Unit {
    ghost use Rattle.lvdc_mul.specs.Latches.{Latches};

    ghost Value = { Latches };

    ghost view = { λ u. record { control = u.control; m = u.m; h = u.h; q = u.q } };

    ghost inverse = { λ u. record { control = u.control; m = u.m; h = u.h; q = u.q } };
}

impl Unit {
    /// Begins the product of two words, of which the upper 24 bits count. The accumulator takes a high one too.
    pub fn issue_multiply(a: Word, m: Word, high: bool) -> Unit
        ensures latches { result ≡ issued_multiply a m high }
        ensures lands { LandsOnlyIn 12 (product a m) result }
    {
        let kind = if high {
            Kind::MultiplyHigh
        } else {
            Kind::Multiply
        };
        Unit {
            control: Control::begin(kind, 12).word(),
            m: m.right(2),
            h: Word::ZERO,
            q: Word::within(a.value() >> 2),
        }
    }

    /// Begins the quotient of `a` by `m`, of which the upper 24 bits count. A quotient that is not below 1 in magnitude is
    /// the greatest word of its sign, also where `m` is 0.
    pub fn issue_divide(a: Word, m: Word) -> Unit
        ensures latches { result ≡ issued_divide a m }
        ensures lands { LandsOnlyIn 24 (quotient a m) result }
    {
        Unit {
            control: Control::begin(Kind::Divide, 24).word(),
            m: m.right(2),
            h: a.right(2),
            q: Word::ZERO,
        }
    }

    /// Drops the work. CONTROL is 0 then; the other latches stay.
    pub fn cancel(self) -> Unit
        ensures latches { result ≡ cancelled self }
        ensures lands { LandsNever result }
    {
        Unit {
            control: Word::ZERO,
            ..self
        }
    }

    /// What the unit works on.
    pub fn kind(self) -> Kind
        ensures { result ≡ kind self }
    {
        Control::of(self.control).kind
    }

    /// Makes one phase. The last one leaves the count 0, and the kind, NEG and SAT as they are.
    #[inline(always)]
    pub fn phase(self) -> Unit
        ensures { result ≡ phase_of self }
    {
        let control = Control::of(self.control);
        if control.count == 0 {
            return self;
        }
        match control.kind {
            Kind::Idle => self,
            Kind::Multiply | Kind::MultiplyHigh => multiply::phase(self, control),
            Kind::Divide => divide::phase(self, control),
        }
    }

    /// Makes so many phases.
    pub fn after(self, phases: u8) -> Unit
        ensures { result ≡ after_phases phases self }
    {
        let mut unit = self;
        for _made in 0..phases {
            unit = unit.phase();
        }
        unit
    }

    /// The result that stands in the latches after the last phase.
    fn result(self) -> Word
        ensures { result ≡ result_of self }
    {
        let control = Control::of(self.control);
        match control.kind {
            Kind::Divide => divide::result(control, self.q),
            _ => multiply::result(self.h, self.q),
        }
    }

    /// The result, exactly where the next phase is the last one.
    #[inline(always)]
    pub fn lands(self) -> Option<Word>
        ensures { result ≡ lands_of self }
    {
        if Control::of(self.control).is_last() {
            Some(self.phase().result())
        } else {
            None
        }
    }
}
