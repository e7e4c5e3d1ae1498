ghost use Rattle.std.specs.Prelude.{◌≡◌, refl};
ghost use Rattle.std.proofs.Common.{ap};
ghost use Rattle.lvdc_modules.specs.States.{selector_latches, selector_of};
ghost use Rattle.lvdc_modules.specs.Seen.{here};
ghost use Rattle.lvdc_modules.specs.Selector.{data_fields, selected, selector_row};

use crate::Bus;
use crate::seen::{Doing, doing_of, here_of, instruction_of};
use lvdc_isa::Op;
use lvdc_map::Hop;
use lvdc_vote::{LogicModule, Vote, majority};
use lvdc_word::Word;

/// The latch of the selector.
#[derive(Clone, Copy, PartialEq, Eq)]
pub struct SelectorState {
    /// DATA, the data fields of a HOP constant: where operands stand.
    pub hold_place: Word,
}

impl Vote for SelectorState {
    ghost LATCHES = { 1 };

    ghost latches = { selector_latches };

    const LATCHES: u8 = 1;

    fn latch(&self, _index: u8) -> Word {
        self.hold_place
    }

    fn vote(a: &Self, b: &Self, c: &Self) -> Self {
        SelectorState {
            hold_place: majority(a.hold_place, b.hold_place, c.hold_place),
        }
    }

    fn with(&self, _index: u8, word: Word) -> Self {
        SelectorState { hold_place: word }
    }

    fn same(&self, other: &Self) -> bool {
        self == other
    }

    fn copied(&self) -> Self {
        *self
    }

    ghost counted = { λ s. refl };

    ghost exact = { λ s t e. ap selector_of e };
}

/// The word of the fields that DATA keeps.
pub fn data_word(place: Hop) -> Word
    ensures { result ≡ data_fields place }
{
    Hop {
        imod: 0,
        isec: 0,
        syl: 0,
        loc: 0,
        dupin: false,
        ..place
    }
    .to_word()
}

/// Where operands stand after the operation.
pub(crate) fn selected(op: Op, bus: &Bus, address: u16) -> SelectorState
    ensures { result ≡ selected op bus.now (here bus.now) address }
{
    match op {
        Op::Hop => SelectorState {
            hold_place: data_word(Hop::of(bus.accumulator.operand)),
        },
        Op::Cds => SelectorState {
            hold_place: data_word(here_of(bus).with_data(address)),
        },
        _ => bus.selector,
    }
}

/// The selector, module 4: it keeps where operands stand.
pub struct Selector;

impl LogicModule for Selector {
    type State = SelectorState;

    type Bus = Bus;

    ghost next_of = { selector_row };

    const NUMBER: u8 = 4;

    fn next(bus: &Bus) -> SelectorState {
        if doing_of(bus) == Doing::Executing {
            let instruction = instruction_of(bus);
            selected(instruction.op, bus, instruction.address)
        } else {
            bus.selector
        }
    }

    ghost fits = { λ bus. refl };
}
