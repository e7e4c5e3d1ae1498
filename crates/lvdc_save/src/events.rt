//! The lines of events, as a deck has them.

ghost use Rattle.std.specs.Prelude.{◌≡◌, ◌++◌, OnOk};
ghost use Rattle.lvdc_fault.specs.declared.event.Event.TheVariants as happens;
ghost use Rattle.lvdc_save.specs.Lines.{fault_line};

use lvdc_fault::Event;
use lvdc_map::Address;
use lvdc_text::{Piece, put_line};
use lvdc_word::{Cell, NoMemory, Word};

fn put_flip(
    out: &mut Vec<u8>,
    number: u8,
    copy: u8,
    first: u64,
    last: u64,
    index: u8,
    mask: Word,
) -> Result<(), NoMemory>
    ensures { OnOk result (out.new.items ≡ out.old.items ++ fault_line (happens.Flip number copy first last index mask)) }
{
    let (number, copy) = (Piece::Small(number), Piece::Small(copy));
    let (first, last) = (Piece::Decimal(first), Piece::Decimal(last));
    let (index, mask) = (Piece::Small(index), Piece::Word(mask));
    put_line(out, b"FLIP", &[number, copy, first, last, index, mask])
}

fn put_force(
    out: &mut Vec<u8>,
    number: u8,
    copy: u8,
    first: u64,
    last: u64,
    index: u8,
    mask: Word,
    value: Word,
) -> Result<(), NoMemory>
    ensures { OnOk result (out.new.items ≡ out.old.items
        ++ fault_line (happens.Force number copy first last index mask value)) }
{
    let (number, copy) = (Piece::Small(number), Piece::Small(copy));
    let (first, last) = (Piece::Decimal(first), Piece::Decimal(last));
    let (mask, value) = (Piece::Word(mask), Piece::Word(value));
    let index = Piece::Small(index);
    put_line(
        out,
        b"FORCE",
        &[number, copy, first, last, index, mask, value],
    )
}

fn put_lag(out: &mut Vec<u8>, number: u8, copy: u8, first: u64, last: u64) -> Result<(), NoMemory>
    ensures { OnOk result (out.new.items ≡ out.old.items ++ fault_line (happens.Lag number copy first last)) }
{
    let (number, copy) = (Piece::Small(number), Piece::Small(copy));
    let (first, last) = (Piece::Decimal(first), Piece::Decimal(last));
    put_line(out, b"LAG", &[number, copy, first, last])
}

fn put_deaf(out: &mut Vec<u8>, number: u8, copy: u8, first: u64, last: u64) -> Result<(), NoMemory>
    ensures { OnOk result (out.new.items ≡ out.old.items ++ fault_line (happens.Deaf number copy first last)) }
{
    let (number, copy) = (Piece::Small(number), Piece::Small(copy));
    let (first, last) = (Piece::Decimal(first), Piece::Decimal(last));
    put_line(out, b"DEAF", &[number, copy, first, last])
}

fn put_damage(
    out: &mut Vec<u8>,
    twin: u8,
    at: Address,
    step: u64,
    mask: Cell,
) -> Result<(), NoMemory>
    ensures { OnOk result (out.new.items ≡ out.old.items ++ fault_line (happens.Damage twin at step mask)) }
{
    let (twin, at) = (Piece::Small(twin), Piece::Address(at));
    let (step, mask) = (Piece::Decimal(step), Piece::Cell(mask));
    put_line(out, b"DAMAGE", &[twin, at, step, mask])
}

fn put_stick(
    out: &mut Vec<u8>,
    twin: u8,
    at: Address,
    first: u64,
    last: u64,
    mask: Cell,
    value: Cell,
) -> Result<(), NoMemory>
    ensures { OnOk result (out.new.items ≡ out.old.items ++ fault_line (happens.Stick twin at first last mask value)) }
{
    let (twin, at) = (Piece::Small(twin), Piece::Address(at));
    let (first, last) = (Piece::Decimal(first), Piece::Decimal(last));
    let (mask, value) = (Piece::Cell(mask), Piece::Cell(value));
    put_line(out, b"STICK", &[twin, at, first, last, mask, value])
}

fn put_dead(out: &mut Vec<u8>, twin: u8, pair: u8, first: u64, last: u64) -> Result<(), NoMemory>
    ensures { OnOk result (out.new.items ≡ out.old.items ++ fault_line (happens.Dead twin pair first last)) }
{
    let (twin, pair) = (Piece::Small(twin), Piece::Small(pair));
    let (first, last) = (Piece::Decimal(first), Piece::Decimal(last));
    put_line(out, b"DEAD", &[twin, pair, first, last])
}

/// Adds the line of an event.
pub(crate) fn put_fault(out: &mut Vec<u8>, event: &Event) -> Result<(), NoMemory>
    ensures { OnOk result (out.new.items ≡ out.old.items ++ fault_line event.now) }
{
    match *event {
        Event::Flip {
            module,
            copy,
            first,
            last,
            index,
            mask,
        } => put_flip(out, module, copy, first, last, index, mask),
        Event::Force {
            module,
            copy,
            first,
            last,
            index,
            mask,
            value,
        } => put_force(out, module, copy, first, last, index, mask, value),
        Event::Lag {
            module,
            copy,
            first,
            last,
        } => put_lag(out, module, copy, first, last),
        Event::Deaf {
            module,
            copy,
            first,
            last,
        } => put_deaf(out, module, copy, first, last),
        Event::Damage {
            twin,
            at,
            step,
            mask,
        } => put_damage(out, twin, at, step, mask),
        Event::Stick {
            twin,
            at,
            first,
            last,
            mask,
            value,
        } => put_stick(out, twin, at, first, last, mask, value),
        Event::Dead {
            twin,
            pair,
            first,
            last,
        } => put_dead(out, twin, pair, first, last),
    }
}
