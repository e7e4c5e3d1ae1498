ghost use Rattle.std.specs.Prelude.{◌≡◌, refl};
ghost use Rattle.std.proofs.Common.{ap};
ghost use Rattle.lvdc_modules.specs.States.{locator_latches, locator_of};
ghost use Rattle.lvdc_modules.specs.Seen.{here};
ghost use Rattle.lvdc_modules.specs.Locator.{place_fields, moves_on, moves_to, jumps, located, locator_row};

use crate::Bus;
use crate::seen::{Doing, doing_of, here_of, instruction_of};
use lvdc_isa::Op;
use lvdc_map::Hop;
use lvdc_vote::{LogicModule, Vote, majority};
use lvdc_word::Word;

/// The latches of the locator.
#[derive(Clone, Copy, PartialEq, Eq)]
pub struct LocatorState {
    /// PLACE, the instruction fields of a HOP constant: where the next instruction is fetched.
    pub place: Word,
    /// SAVER, the HOP constant of the place after the last transfer.
    pub saver: Word,
}

impl Vote for LocatorState {
    ghost LATCHES = { 2 };

    ghost latches = { locator_latches };

    const LATCHES: u8 = 2;

    fn latch(&self, index: u8) -> Word {
        match index {
            0 => self.place,
            _ => self.saver,
        }
    }

    fn vote(a: &Self, b: &Self, c: &Self) -> Self {
        LocatorState {
            place: majority(a.place, b.place, c.place),
            saver: majority(a.saver, b.saver, c.saver),
        }
    }

    fn with(&self, index: u8, word: Word) -> Self {
        match index {
            0 => LocatorState {
                place: word,
                ..*self
            },
            _ => LocatorState {
                saver: word,
                ..*self
            },
        }
    }

    fn same(&self, other: &Self) -> bool {
        self == other
    }

    fn copied(&self) -> Self {
        *self
    }

    ghost counted = { λ s. refl };

    ghost exact = { λ s t e. ap locator_of e };
}

/// The word of the fields that PLACE keeps.
pub fn place_word(place: Hop) -> Word
    ensures { result ≡ place_fields place }
{
    Hop {
        dmod: 0,
        dsec: 0,
        dupdn: false,
        ..place
    }
    .to_word()
}

/// On to the next location.
fn moves_on(bus: &Bus) -> LocatorState
    ensures { result ≡ moves_on bus.now (here bus.now) }
{
    let place = here_of(bus);
    LocatorState {
        place: place_word(place.after()),
        saver: bus.locator.saver,
    }
}

/// To another place; the way back is saved.
fn moves_to(bus: &Bus, to: Hop) -> LocatorState
    ensures { result ≡ moves_to (here bus.now) to }
{
    let place = here_of(bus);
    LocatorState {
        place: place_word(to),
        saver: place.after().to_word(),
    }
}

/// To the syllable and location of an address in the same sector.
fn jumps(bus: &Bus, address: u16) -> LocatorState
    ensures { result ≡ jumps (here bus.now) address }
{
    moves_to(bus, here_of(bus).jumped(address))
}

/// Where the operation goes on.
#[inline(always)]
pub(crate) fn located(op: Op, bus: &Bus, address: u16) -> LocatorState
    ensures { result ≡ located op bus.now (here bus.now) address }
{
    let a = bus.accumulator.a;
    match op {
        Op::Hop => moves_to(bus, Hop::of(bus.accumulator.operand)),
        Op::Tra => jumps(bus, address),
        Op::Tnz => {
            if a == Word::ZERO {
                moves_on(bus)
            } else {
                jumps(bus, address)
            }
        }
        Op::Tmi => {
            if a.is_negative() {
                jumps(bus, address)
            } else {
                moves_on(bus)
            }
        }
        Op::WrongShift | Op::Exm => bus.locator,
        _ => moves_on(bus),
    }
}

/// The locator, module 2: it keeps where the next instruction stands, and the saver.
pub struct Locator;

impl LogicModule for Locator {
    type State = LocatorState;

    type Bus = Bus;

    ghost next_of = { locator_row };

    const NUMBER: u8 = 2;

    fn next(bus: &Bus) -> LocatorState {
        if doing_of(bus) == Doing::Executing {
            let instruction = instruction_of(bus);
            located(instruction.op, bus, instruction.address)
        } else {
            bus.locator
        }
    }

    ghost fits = { λ bus. refl };
}
