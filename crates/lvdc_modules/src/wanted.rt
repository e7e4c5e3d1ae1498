ghost use Rattle.std.specs.Prelude.{◌≡◌, ◌<◌, ◌^◌};
ghost use Rattle.lvdc_modules.specs.Request.{IsRequest};
ghost use Rattle.lvdc_modules.specs.Wish.{wish, instruction_wish, request_wish, IsThereFor};

use crate::seen::{Phase, here_of, hold_of, instruction_of, phase_of};
use crate::{Bus, Request};
use lvdc_isa::Instr;
use lvdc_map::{Address, Banks, Place, operand_place};
use lvdc_word::Word;

/// The one exchange with memory or a port that a phase makes.
#[derive(Clone, Copy)]
pub enum Wanted {
    /// No exchange.
    Nothing,
    /// The word of the instruction is read.
    Fetch(Address),
    /// The operand word is read.
    Operand(Address),
    /// The word is written to memory.
    Store { at: Address, word: Word },
    /// A word is read from the port, 000 to 377 octal.
    PortRead(u8),
    /// The word is written to the port, 000 to 377 octal.
    PortWrite { port: u8, word: Word },
}

/// What the instruction wants as its operand.
#[inline(always)]
fn instruction_wish(instruction: Instr, bus: &Bus, banks: Banks) -> Wanted
    requires { instruction.address < 2 ^ 9 }
    ensures value { result ≡ instruction_wish instruction bus.now banks }
    ensures there { IsThereFor banks result }
{
    if !instruction.op.takes_operand() {
        return Wanted::Nothing;
    }
    match operand_place(here_of(bus), instruction.address, banks) {
        Place::Memory(at) | Place::Saver(at) => Wanted::Operand(at),
        Place::Pq => Wanted::Nothing,
    }
}

/// What was requested.
#[inline(always)]
fn request_wish(request: Request, bus: &Bus, banks: Banks) -> Wanted
    requires { IsRequest request }
    ensures value { result ≡ request_wish request bus.now banks }
    ensures there { IsThereFor banks result }
{
    let a = bus.accumulator.a;
    match request {
        Request::Nothing => Wanted::Nothing,
        Request::StoreA(destination) => Wanted::Store {
            at: destination.address(banks),
            word: a,
        },
        Request::StoreSaver(destination) => Wanted::Store {
            at: destination.address(banks),
            word: bus.locator.saver,
        },
        Request::PortWrite(port) => Wanted::PortWrite { port, word: a },
        Request::PortRead(port) => Wanted::PortRead(port),
    }
}

/// The exchange that this phase makes; each address that it names is in a bank that is there. The modules know memory
/// modules by their numbers, and only here do the banks come in.
#[inline(always)]
pub fn wish(bus: &Bus, banks: Banks) -> Wanted
    ensures value { result ≡ wish bus.now banks }
    ensures there { IsThereFor banks result }
{
    let held = hold_of(bus) > 0;
    match phase_of(bus) {
        Phase::C => request_wish(Request::of(bus.exchange.request), bus, banks),
        Phase::A | Phase::B if held => Wanted::Nothing,
        Phase::A => Wanted::Fetch(here_of(bus).fetch(banks)),
        Phase::B => instruction_wish(instruction_of(bus), bus, banks),
    }
}
