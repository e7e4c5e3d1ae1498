ghost use Rattle.std.specs.Prelude.{◌≡◌, refl};
ghost use Rattle.std.proofs.Common.{ap};
ghost use Rattle.lvdc_modules.specs.States.{multiplier_latches, multiplier_of};
ghost use Rattle.lvdc_modules.specs.Multiplier.{working, unit_pq, unit_working, pq_after, working_after, multiplier_with, multiplier_row};

use crate::seen::{Doing, doing_of, instruction_of};
use crate::{AccumulatorState, Bus};
use lvdc_isa::{Instr, Op};
use lvdc_map::OperandKind;
use lvdc_mul::Unit;
use lvdc_vote::{LogicModule, Vote, majority};
use lvdc_word::Word;

/// The latches of the multiplier.
#[derive(Clone, Copy, PartialEq, Eq)]
pub struct MultiplierState {
    /// PQ, the product-quotient register.
    pub pq: Word,
    /// CONTROL, the work of the arithmetic unit and the phases that it has left.
    pub control: Word,
    /// M, the multiplicand or the divisor.
    pub m: Word,
    /// H, the upper part of the product, or the remainder.
    pub h: Word,
    /// Q, the multiplier and the lower part of the product, or the quotient.
    pub q: Word,
}

impl Vote for MultiplierState {
    ghost LATCHES = { 5 };

    ghost latches = { multiplier_latches };

    const LATCHES: u8 = 5;

    fn latch(&self, index: u8) -> Word {
        match index {
            0 => self.pq,
            1 => self.control,
            2 => self.m,
            3 => self.h,
            _ => self.q,
        }
    }

    fn vote(a: &Self, b: &Self, c: &Self) -> Self {
        MultiplierState {
            pq: majority(a.pq, b.pq, c.pq),
            control: majority(a.control, b.control, c.control),
            m: majority(a.m, b.m, c.m),
            h: majority(a.h, b.h, c.h),
            q: majority(a.q, b.q, c.q),
        }
    }

    fn with(&self, index: u8, word: Word) -> Self {
        match index {
            0 => MultiplierState { pq: word, ..*self },
            1 => MultiplierState {
                control: word,
                ..*self
            },
            2 => MultiplierState { m: word, ..*self },
            3 => MultiplierState { h: word, ..*self },
            _ => MultiplierState { q: word, ..*self },
        }
    }

    fn same(&self, other: &Self) -> bool {
        self == other
    }

    fn copied(&self) -> Self {
        *self
    }

    ghost counted = { λ s. refl };

    ghost exact = { λ s t e. ap multiplier_of e };
}

/// The arithmetic unit with its working latches.
#[inline(always)]
pub(crate) fn working(bus: &Bus) -> Unit
    ensures { result ≡ working bus.now }
{
    bus.multiplier.unit()
}

/// PQ and the unit after the unit's phase: a result lands in PQ, and the unit is idle then.
#[inline(always)]
pub(crate) fn after_phase(bus: &Bus) -> (Word, Unit)
    ensures pq { result.0 ≡ unit_pq bus.now }
    ensures unit { result.1 ≡ unit_working bus.now }
{
    let unit = working(bus);
    match unit.lands() {
        Some(landed) => (landed, unit.phase().cancel()),
        None => (bus.multiplier.pq, unit.phase()),
    }
}

/// The latches of PQ and the unit.
#[inline(always)]
pub(crate) fn latched(pq: Word, unit: Unit) -> MultiplierState
    ensures { result ≡ multiplier_with pq unit }
{
    let Unit { control, m, h, q } = unit;
    MultiplierState {
        pq,
        control,
        m,
        h,
        q,
    }
}

impl MultiplierState {
    /// The arithmetic unit with these working latches.
    fn unit(&self) -> Unit
        ensures { result ≡ record { control = self.now.control; m = self.now.m; h = self.now.h; q = self.now.q } }
    {
        let MultiplierState {
            control,
            m,
            h,
            q,
            ..
        } = *self;
        Unit { control, m, h, q }
    }

    /// What the operation makes of the latches as the unit's phase has left them. A new multiply or divide takes the place of
    /// the unit's work, and a store to PQ ends it.
    pub(crate) fn issue(&mut self, op: Op, address: u16, a: Word, operand: Word)
        ensures { (b : Bus) → b.accumulator.a ≡ a → b.accumulator.operand ≡ operand → self.old ≡ multiplier_with (unit_pq b) (unit_working b)
            → self.new ≡ multiplier_with (pq_after op b address) (working_after op b address) }
    {
        match op {
            Op::Mpy => *self = latched(self.pq, Unit::issue_multiply(a, operand, false)),
            Op::Mph => *self = latched(self.pq, Unit::issue_multiply(a, operand, true)),
            Op::Div => *self = latched(self.pq, Unit::issue_divide(a, operand)),
            Op::Sto => match OperandKind::of(address) {
                OperandKind::Pq => *self = latched(a, self.unit().cancel()),
                OperandKind::Memory | OperandKind::Saver => {}
            },
            _ => {}
        }
    }
}

/// The multiplier, module 6: it keeps PQ, and runs the arithmetic unit.
pub struct Multiplier;

impl LogicModule for Multiplier {
    type State = MultiplierState;

    type Bus = Bus;

    ghost next_of = { multiplier_row };

    const NUMBER: u8 = 6;

    fn next(bus: &Bus) -> MultiplierState {
        let (pq, unit) = after_phase(bus);
        let mut next = latched(pq, unit);
        if doing_of(bus) == Doing::Executing {
            let Instr { op, address } = instruction_of(bus);
            let AccumulatorState { a, operand } = bus.accumulator;
            next.issue(op, address, a, operand);
        }
        next
    }

    ghost fits = { λ bus. refl };
}
