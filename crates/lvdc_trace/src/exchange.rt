//! The exchange of a step, and the repair that its read noted.

ghost use Rattle.std.specs.Prelude.{◌≡◌, ◌+◌, ◌≤◌, ◌++◌, length, OnOk};
ghost use Rattle.lvdc_trace.specs.Steps.{exchange_text, repair_text};

use lvdc_machine::{Made, Repair};
use lvdc_map::Address;
use lvdc_modules::Wanted;
use lvdc_text::{Piece, put_line};
use lvdc_word::{NoMemory, Word};

/// Adds the line of the exchange that a step made, if it made one.
pub(crate) fn put_exchange(out: &mut Vec<u8>, made: &Made) -> Result<(), NoMemory>
    ensures text { OnOk result (out.new.items ≡ out.old.items ++ exchange_text made.now.wanted made.now.word) }
    ensures short { OnOk result (length out.new.items ≤ length out.old.items + 27) }
{
    let brought = Piece::Word(made.word);
    match made.wanted {
        Wanted::Nothing => Ok(()),
        Wanted::Fetch(at) => put_line(out, b"FETCH", &[Piece::Address(at), brought]),
        Wanted::Operand(at) => put_line(out, b"OPERAND", &[Piece::Address(at), brought]),
        Wanted::Store { at, word } => {
            put_line(out, b"STORE", &[Piece::Address(at), Piece::Word(word)])
        }
        Wanted::PortRead(port) => {
            put_line(out, b"IN", &[Piece::Octal(u64::from(port), 3), brought])
        }
        Wanted::PortWrite { port, word } => {
            let port = Piece::Octal(u64::from(port), 3);
            put_line(out, b"OUT", &[port, Piece::Word(word)])
        }
    }
}

/// Adds the line of the repair that a read noted, if it noted one.
pub(crate) fn put_repair(out: &mut Vec<u8>, repair: &Option<Repair>) -> Result<(), NoMemory>
    ensures line { OnOk result (out.new.items ≡ out.old.items ++ repair_text repair.now) }
    ensures short { OnOk result (length out.new.items ≤ length out.old.items + 27) }
{
    let Some(repair) = repair else {
        return Ok(());
    };
    let (at, twin) = (Piece::Address(repair.at), Piece::Small(repair.twin));
    if repair.switched {
        put_line(out, b"REPAIR", &[at, twin, Piece::Bytes(b"SWITCH")])
    } else {
        put_line(out, b"REPAIR", &[at, twin])
    }
}
