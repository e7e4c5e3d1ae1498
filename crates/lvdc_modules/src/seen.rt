ghost use Rattle.std.specs.Prelude.{◌≡◌, ◌<◌, ◌^◌};
ghost use Rattle.lvdc_modules.specs.declared.seen.Phase.TheVariants.{C};
ghost use Rattle.lvdc_modules.specs.declared.seen.Doing.TheVariants.{Executing};
ghost use Rattle.lvdc_modules.specs.Seen.{phase, hold, doing, instruction, here};

use crate::Bus;
use lvdc_isa::{Instr, decode};
use lvdc_map::Hop;
use lvdc_word::Syllable;

/// A third of an instruction time.
#[derive(Clone, Copy)]
pub enum Phase {
    A,
    B,
    C,
}

/// What the machine does in a phase: A fetches, B takes the operand, C executes; while a hold is left it waits.
#[derive(Clone, Copy, PartialEq, Eq)]
pub enum Doing {
    Fetching,
    Taking,
    Executing,
    Waiting,
}

/// The phase of the timer.
pub(crate) fn phase_of(bus: &Bus) -> Phase
    ensures { result ≡ phase bus.now }
{
    match bus.timer.phase.value() & 3 {
        0 => Phase::A,
        1 => Phase::B,
        _ => Phase::C,
    }
}

/// The instruction times for which nothing more is fetched.
pub(crate) fn hold_of(bus: &Bus) -> u32
    ensures value { result ≡ hold bus.now }
    ensures small { result < 8 }
{
    bus.timer.hold.value() & 7
}

/// What is done in this phase.
pub(crate) fn doing_of(bus: &Bus) -> Doing
    ensures value { result ≡ doing bus.now }
    ensures executing { result ≡ Executing → (hold bus.now ≡ 0) × (phase bus.now ≡ C) }
{
    if hold_of(bus) > 0 {
        return Doing::Waiting;
    }
    match phase_of(bus) {
        Phase::A => Doing::Fetching,
        Phase::B => Doing::Taking,
        Phase::C => Doing::Executing,
    }
}

/// The decoded instruction.
pub(crate) fn instruction_of(bus: &Bus) -> Instr
    ensures value { result ≡ instruction bus.now }
    ensures small { result.address < 2 ^ 9 }
{
    let bits = bus.decoder.instr.value() & 0x1fff;
    decode(Syllable::within(bits as u16))
}

/// The place of the locator, with the data fields of the selector.
pub(crate) fn here_of(bus: &Bus) -> Hop
    ensures { result ≡ here bus.now }
{
    let data = Hop::of(bus.selector.hold_place);
    Hop {
        dmod: data.dmod,
        dsec: data.dsec,
        dupdn: data.dupdn,
        ..Hop::of(bus.locator.place)
    }
}
