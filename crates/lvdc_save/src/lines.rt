//! The lines of a saved text, one by one.

ghost use Rattle.std.specs.Prelude.{◌≡◌, ◌<◌, ◌≤◌, ◌^◌, ◌++◌, ◌+◌, map, length, OnOk, All};
ghost use Rattle.lvdc_image.specs.Image.{IsPlaced};
ghost use Rattle.lvdc_vote.specs.Copies.{IsFullOrder};
ghost use Rattle.lvdc_fault.specs.Events.{TIMES};
ghost use Rattle.lvdc_save.specs.declared.entry.Entry.TheVariants as says;
ghost use Rattle.lvdc_save.specs.Lines.{copy_line, select_line, cell_line, word_line, state_line, unplug_line, order_line, entry_line};
ghost use Rattle.lvdc_save.specs.Printed.{IsSupply, IsUnplug};

use crate::Entry;
use crate::events::put_fault;
use crate::parts::{put_number, put_twins, put_words};
use lvdc_image::put_simplex;
use lvdc_lines::{put_exchange_line, put_repair_line};
use lvdc_map::{Banks, Placed};
use lvdc_orders::Order;
use lvdc_plain::Unplug;
use lvdc_port::Supply;
use lvdc_text::{Piece, put_line, put_text};
use lvdc_twin::Held;
use lvdc_word::{NoMemory, Word};

/// Adds the STEPS line.
pub(crate) fn put_steps(out: &mut Vec<u8>, steps: u64) -> Result<(), NoMemory>
    ensures { OnOk result (out.new.items ≡ out.old.items ++ entry_line (says.Steps steps)) }
{
    put_line(out, b"STEPS", &[Piece::Decimal(steps)])
}

/// Adds the COUNT line.
pub(crate) fn put_count(out: &mut Vec<u8>, count: u64) -> Result<(), NoMemory>
    ensures { OnOk result (out.new.items ≡ out.old.items ++ entry_line (says.Count count)) }
{
    put_line(out, b"COUNT", &[Piece::Decimal(count)])
}

/// Adds the SIMPLEX line.
pub(crate) fn put_simplex_line(out: &mut Vec<u8>, banks: Banks) -> Result<(), NoMemory>
    ensures { OnOk result (out.new.items ≡ out.old.items ++ entry_line (says.Simplex banks)) }
{
    put_simplex(out, banks)?;
    put_text(out, b"\n")
}

/// Adds the COPY line of the copy of a module.
pub(crate) fn put_copy(
    out: &mut Vec<u8>,
    number: u8,
    copy: u8,
    count: u64,
    latches: &[Word],
) -> Result<(), NoMemory>
    ensures line { OnOk result (out.new.items ≡ out.old.items
        ++ copy_line (record { number = number; copy = copy; count = count; latches = latches.now })) }
    ensures latches { OnOk result (All (λ latch. latch < 2 ^ 26) latches.now) }
{
    put_text(out, b"COPY")?;
    put_number(out, u64::from(number))?;
    put_number(out, u64::from(copy))?;
    put_number(out, count)?;
    put_words(out, latches)?;
    put_text(out, b"\n")
}

/// Adds the SELECT line.
pub(crate) fn put_select(out: &mut Vec<u8>, twins: &[u8]) -> Result<(), NoMemory>
    ensures { OnOk result (out.new.items ≡ out.old.items ++ select_line twins.now) }
{
    put_text(out, b"SELECT")?;
    put_twins(out, twins)?;
    put_text(out, b"\n")
}

/// Adds a CELL line.
pub(crate) fn put_held(out: &mut Vec<u8>, held: &Held) -> Result<(), NoMemory>
    ensures line { OnOk result (out.new.items ≡ out.old.items ++ cell_line held.now) }
    ensures cell { OnOk result (held.now.cell < 2 ^ 28) }
{
    let (twin, at) = (Piece::Small(held.twin), Piece::Address(held.at));
    put_line(out, b"CELL", &[twin, at, Piece::Cell(held.cell)])
}

/// Adds a WORD line.
pub(crate) fn put_placed(out: &mut Vec<u8>, placed: &Placed) -> Result<(), NoMemory>
    ensures line { OnOk result (out.new.items ≡ out.old.items ++ word_line placed.now) }
    ensures placed { OnOk result (IsPlaced placed.now) }
{
    let (at, word) = (Piece::Address(placed.at), Piece::Word(placed.word));
    put_line(out, b"WORD", &[at, word])
}

/// Adds a STATE line.
pub(crate) fn put_state(out: &mut Vec<u8>, state: &Supply) -> Result<(), NoMemory>
    ensures line { OnOk result (out.new.items ≡ out.old.items ++ state_line state.now) }
    ensures printed { OnOk result (IsSupply state.now) }
{
    let port = Piece::Octal(u64::from(state.port), 3);
    put_line(out, b"STATE", &[port, Piece::Word(state.word)])
}

/// Adds an UNPLUG line.
pub(crate) fn put_unplug(out: &mut Vec<u8>, unplug: &Unplug) -> Result<(), NoMemory>
    ensures line { OnOk result (out.new.items ≡ out.old.items ++ unplug_line unplug.now) }
    ensures printed { OnOk result (unplug.now.time ≤ TIMES → IsUnplug unplug.now) }
{
    let port = Piece::Octal(u64::from(unplug.port), 3);
    put_line(out, b"UNPLUG", &[port, Piece::Decimal(unplug.time)])
}

/// Adds the letters of copies, A the first.
fn put_letters(out: &mut Vec<u8>, copies: &[u8]) -> Result<(), NoMemory>
    requires { All (λ copy. copy < 21) copies.now }
    ensures { OnOk result (out.new.items ≡ out.old.items ++ map (λ copy. 65 + copy) copies.now) }
{
    for copy in copies {
        out.push(b'A' + *copy)?;
    }
    Ok(())
}

/// Adds the line of an order.
pub(crate) fn put_order(out: &mut Vec<u8>, order: &Order) -> Result<(), NoMemory>
    ensures line { OnOk result (out.new.items ≡ out.old.items ++ order_line order.now) }
    ensures short { OnOk result (length out.new.items ≡ length out.old.items + 22) }
    ensures full { OnOk result (IsFullOrder 21 order.now) }
{
    put_letters(out, order.copies())?;
    put_text(out, b"\n")
}

/// Adds the line of an entry. After a want of memory `out` may have grown by a part of the line.
pub fn put_entry(out: &mut Vec<u8>, entry: &Entry) -> Result<(), NoMemory>
    ensures { OnOk result (out.new.items ≡ out.old.items ++ entry_line entry.now) }
{
    match entry {
        Entry::Title => put_text(out, b"LVDC SAVE 1\n"),
        Entry::Steps(steps) => put_steps(out, *steps),
        Entry::Count(count) => put_count(out, *count),
        Entry::Simplex(banks) => put_simplex_line(out, *banks),
        Entry::Copy(copy) => put_copy(
            out,
            copy.number,
            copy.copy,
            copy.count,
            copy.latches.items(),
        ),
        Entry::Select(twins) => put_select(out, twins),
        Entry::Cell(held) => put_held(out, held),
        Entry::Word(placed) => put_placed(out, placed),
        Entry::Exchange(exchange) => put_exchange_line(out, exchange),
        Entry::Repair(repair) => put_repair_line(out, repair),
        Entry::State(state) => put_state(out, state),
        Entry::Unplug(unplug) => put_unplug(out, unplug),
        Entry::Fault(event) => put_fault(out, event),
        Entry::Order(order) => put_order(out, order),
        Entry::End => put_text(out, b"END\n"),
    }
}
