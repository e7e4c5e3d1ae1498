ghost use Rattle.std.specs.Prelude.{◌≡◌, refl};
ghost use Rattle.std.proofs.Common.{ap};
ghost use Rattle.lvdc_modules.specs.States.{timer_latches, timer_of};
ghost use Rattle.lvdc_modules.specs.Timer.{held_by, held_timer, timer, timer_row};

use crate::Bus;
use crate::seen::{Phase, hold_of, instruction_of, phase_of};
use lvdc_isa::Op;
use lvdc_vote::{LogicModule, Vote, majority};
use lvdc_word::Word;

/// The latches of the timer.
#[derive(Clone, Copy, PartialEq, Eq)]
pub struct TimerState {
    /// PHASE, which counts the phases of an instruction time.
    pub phase: Word,
    /// HOLD, the instruction times for which nothing more is fetched.
    pub hold: Word,
}

impl Vote for TimerState {
    ghost LATCHES = { 2 };

    ghost latches = { timer_latches };

    const LATCHES: u8 = 2;

    fn latch(&self, index: u8) -> Word {
        match index {
            0 => self.phase,
            _ => self.hold,
        }
    }

    fn vote(a: &Self, b: &Self, c: &Self) -> Self {
        TimerState {
            phase: majority(a.phase, b.phase, c.phase),
            hold: majority(a.hold, b.hold, c.hold),
        }
    }

    fn with(&self, index: u8, word: Word) -> Self {
        match index {
            0 => TimerState {
                phase: word,
                ..*self
            },
            _ => TimerState {
                hold: word,
                ..*self
            },
        }
    }

    fn same(&self, other: &Self) -> bool {
        self == other
    }

    fn copied(&self) -> Self {
        *self
    }

    ghost counted = { λ s. refl };

    ghost exact = { λ s t e. ap timer_of e };
}

/// The instruction times for which an instruction lets nothing be fetched: MPH waits for its product.
fn held_by(op: Op) -> Word
    ensures { result ≡ held_by op }
{
    match op {
        Op::Mph => Word::within(4),
        _ => Word::ZERO,
    }
}

/// The timer after an instruction, which may begin a hold.
pub(crate) fn held_timer(op: Op) -> TimerState
    ensures { result ≡ held_timer op }
{
    TimerState {
        phase: Word::ZERO,
        hold: held_by(op),
    }
}

/// The timer after this phase.
pub(crate) fn timer_after(bus: &Bus) -> TimerState
    ensures { result ≡ timer bus.now }
{
    let hold = bus.timer.hold;
    match phase_of(bus) {
        Phase::A => TimerState {
            phase: Word::within(1),
            hold,
        },
        Phase::B => TimerState {
            phase: Word::within(2),
            hold,
        },
        Phase::C => match hold_of(bus) {
            0 => held_timer(instruction_of(bus).op),
            left => TimerState {
                phase: Word::ZERO,
                hold: Word::within(left - 1),
            },
        },
    }
}

/// The timer, module 1: it counts phases, and instruction times for which nothing is fetched.
pub struct Timer;

impl LogicModule for Timer {
    type State = TimerState;

    type Bus = Bus;

    ghost next_of = { timer_row };

    const NUMBER: u8 = 1;

    fn next(bus: &Bus) -> TimerState {
        timer_after(bus)
    }

    ghost fits = { λ bus. refl };
}
