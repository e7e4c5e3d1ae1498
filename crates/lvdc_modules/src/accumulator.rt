ghost use Rattle.std.specs.Prelude.{◌≡◌, refl};
ghost use Rattle.std.proofs.Common.{ap};
ghost use Rattle.lvdc_modules.specs.States.{accumulator_latches, accumulator_of};
ghost use Rattle.lvdc_isa.specs.Instr.{takes_operand};
ghost use Rattle.lvdc_map.specs.Place.{operand_kind};
ghost use Rattle.lvdc_mul.specs.Unit.{kind};
ghost use Rattle.lvdc_modules.specs.Multiplier.{working, landing};
ghost use Rattle.lvdc_modules.specs.Accumulator.{accumulated, a_by, a_landed, operand_from, operand_by, accumulator_row};

use crate::Bus;
use crate::multiplier::working;
use crate::seen::{Doing, doing_of, instruction_of};
use lvdc_isa::{Instr, Op, shifted};
use lvdc_map::{OperandKind, is_a9};
use lvdc_mul::Kind;
use lvdc_vote::{LogicModule, Vote, majority};
use lvdc_word::Word;

/// The latches of the accumulator.
#[derive(Clone, Copy, PartialEq, Eq)]
pub struct AccumulatorState {
    /// A, the accumulator.
    pub a: Word,
    /// OPERAND, the word that the instruction takes.
    pub operand: Word,
}

impl Vote for AccumulatorState {
    ghost LATCHES = { 2 };

    ghost latches = { accumulator_latches };

    const LATCHES: u8 = 2;

    fn latch(&self, index: u8) -> Word {
        match index {
            0 => self.a,
            _ => self.operand,
        }
    }

    fn vote(a: &Self, b: &Self, c: &Self) -> Self {
        AccumulatorState {
            a: majority(a.a, b.a, c.a),
            operand: majority(a.operand, b.operand, c.operand),
        }
    }

    fn with(&self, index: u8, word: Word) -> Self {
        match index {
            0 => AccumulatorState { a: word, ..*self },
            _ => AccumulatorState {
                operand: word,
                ..*self
            },
        }
    }

    fn same(&self, other: &Self) -> bool {
        self == other
    }

    fn copied(&self) -> Self {
        *self
    }

    ghost counted = { λ s. refl };

    ghost exact = { λ s t e. ap accumulator_of e };
}

/// What the operation makes of the accumulator.
#[inline(always)]
pub(crate) fn accumulated(op: Op, bus: &Bus, address: u16) -> Word
    ensures { result ≡ accumulated op bus.now address }
{
    let AccumulatorState { a, operand } = bus.accumulator;
    match op {
        Op::Sub => a.minus(operand),
        Op::And => a.both(operand),
        Op::Add => a.plus(operand),
        Op::Xor => a.differ(operand),
        Op::Pio => { if is_a9(address) { bus.port } else { a } }
        Op::Rsu => operand.minus(a),
        Op::Shf => shifted(a, address & 0x7f),
        Op::Cla => operand,
        _ => a,
    }
}

/// The operand word that the address names.
pub(crate) fn operand_named(bus: &Bus, address: u16) -> Word
    ensures { result ≡ operand_from (operand_kind address) bus.now }
{
    match OperandKind::of(address) {
        OperandKind::Pq => bus.multiplier.pq,
        OperandKind::Memory | OperandKind::Saver => bus.memory,
    }
}

/// The accumulator that the unit hasn't landed in.
fn a_executed(bus: &Bus, doing: Doing, instruction: Instr) -> Word
    ensures { result ≡ a_by doing bus.now instruction }
{
    if doing == Doing::Executing {
        accumulated(instruction.op, bus, instruction.address)
    } else {
        bus.accumulator.a
    }
}

/// The operand word.
fn operand_taken(bus: &Bus, doing: Doing, instruction: Instr) -> Word
    ensures { result ≡ operand_by doing bus.now instruction }
{
    if doing == Doing::Taking && instruction.op.takes_operand() {
        operand_named(bus, instruction.address)
    } else {
        bus.accumulator.operand
    }
}

/// The accumulator: the product of an MPH where it lands, whatever else this phase has made of it.
#[inline(always)]
pub(crate) fn a_landed(bus: &Bus, executed: Word) -> Word
    ensures { result ≡ a_landed (kind (working bus.now)) (landing bus.now) executed }
{
    let unit = working(bus);
    match unit.kind() {
        Kind::MultiplyHigh => unit.lands().unwrap_or(executed),
        _ => executed,
    }
}

/// The accumulator, module 5: it takes the operand word, and operates on A.
pub struct Accumulator;

impl LogicModule for Accumulator {
    type State = AccumulatorState;

    type Bus = Bus;

    ghost next_of = { accumulator_row };

    const NUMBER: u8 = 5;

    fn next(bus: &Bus) -> AccumulatorState {
        let doing = doing_of(bus);
        let instruction = instruction_of(bus);
        AccumulatorState {
            a: a_landed(bus, a_executed(bus, doing, instruction)),
            operand: operand_taken(bus, doing, instruction),
        }
    }

    ghost fits = { λ bus. refl };
}
