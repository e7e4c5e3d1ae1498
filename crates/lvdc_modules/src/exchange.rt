ghost use Rattle.std.specs.Prelude.{◌≡◌, refl, ◌<◌, ◌^◌};
ghost use Rattle.std.proofs.Common.{ap};
ghost use Rattle.lvdc_modules.specs.States.{exchange_latches, exchange_of};
ghost use Rattle.lvdc_modules.specs.Request.{IsRequest};
ghost use Rattle.lvdc_modules.specs.Exchange.{requested, stopped, exchange_row};

use crate::seen::{Doing, doing_of, here_of, instruction_of};
use crate::{Bus, Destination, Request};
use lvdc_isa::Op;
use lvdc_map::{Hop, OperandKind, is_a9, low_bits};
use lvdc_vote::{LogicModule, Vote, majority};
use lvdc_word::Word;

/// The latches of the exchanger.
#[derive(Clone, Copy, PartialEq, Eq)]
pub struct ExchangeState {
    /// STOP: 0 none, 1 a wrong shift, 2 EXM; of it the low two bits count.
    pub stop: Word,
    /// REQUEST, what the next phase C exchanges.
    pub request: Word,
}

impl Vote for ExchangeState {
    ghost LATCHES = { 2 };

    ghost latches = { exchange_latches };

    const LATCHES: u8 = 2;

    fn latch(&self, index: u8) -> Word {
        match index {
            0 => self.stop,
            _ => self.request,
        }
    }

    fn vote(a: &Self, b: &Self, c: &Self) -> Self {
        ExchangeState {
            stop: majority(a.stop, b.stop, c.stop),
            request: majority(a.request, b.request, c.request),
        }
    }

    fn with(&self, index: u8, word: Word) -> Self {
        match index {
            0 => ExchangeState {
                stop: word,
                ..*self
            },
            _ => ExchangeState {
                request: word,
                ..*self
            },
        }
    }

    fn same(&self, other: &Self) -> bool {
        self == other
    }

    fn copied(&self) -> Self {
        *self
    }

    ghost counted = { λ s. refl };

    ghost exact = { λ s t e. ap exchange_of e };
}

/// What the operation asks for.
pub(crate) fn requested(op: Op, place: Hop, address: u16) -> Request
    requires { address < 2 ^ 9 }
    ensures value { result ≡ requested op place address }
    ensures ranges { IsRequest result }
{
    let port = low_bits(address);
    match op {
        Op::Sto => match OperandKind::of(address) {
            OperandKind::Memory => Request::StoreA(Destination::at(place, address)),
            OperandKind::Saver => Request::StoreSaver(Destination::at(place, address)),
            OperandKind::Pq => Request::Nothing,
        },
        Op::Pio => {
            if is_a9(address) {
                Request::PortRead(port)
            } else {
                Request::PortWrite(port)
            }
        }
        _ => Request::Nothing,
    }
}

/// What the operation makes of STOP.
pub(crate) fn stopped(op: Op, stop: Word) -> Word
    ensures { result ≡ stopped op stop }
{
    match op {
        Op::WrongShift => Word::within(1),
        Op::Exm => Word::within(2),
        _ => stop,
    }
}

/// The exchanger, module 7: it asks memory or a port for an exchange, and stops the machine.
pub struct Exchanger;

impl LogicModule for Exchanger {
    type State = ExchangeState;

    type Bus = Bus;

    ghost next_of = { exchange_row };

    const NUMBER: u8 = 7;

    fn next(bus: &Bus) -> ExchangeState {
        let instruction = instruction_of(bus);
        let stop = bus.exchange.stop;
        match doing_of(bus) {
            Doing::Taking => ExchangeState {
                stop,
                request: requested(instruction.op, here_of(bus), instruction.address).to_word(),
            },
            Doing::Executing => ExchangeState {
                stop: stopped(instruction.op, stop),
                request: Word::ZERO,
            },
            Doing::Fetching | Doing::Waiting => ExchangeState {
                stop,
                request: Word::ZERO,
            },
        }
    }

    ghost fits = { λ bus. refl };
}
