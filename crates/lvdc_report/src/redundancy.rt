//! Which copies differed how often, in a report.

ghost use Rattle.std.specs.Prelude.{◌≡◌, ◌+◌, ◌≤◌, ◌++◌, length, OnOk};
ghost use Rattle.lvdc_report.specs.Voted.{wrong_line, wrong_lines, wrong_text};

use lvdc_machine::Machine;
use lvdc_text::{Piece, put_line};
use lvdc_word::NoMemory;

/// Adds the line of a copy, where it differed at all.
fn put_wrong_line(out: &mut Vec<u8>, number: u8, copy: u8, count: u64) -> Result<(), NoMemory>
    ensures line { OnOk result (out.new.items ≡ out.old.items ++ wrong_line number copy count) }
    ensures short { OnOk result (length out.new.items ≤ length out.old.items + 69) }
{
    if count == 0 {
        return Ok(());
    }
    put_line(
        out,
        b"WRONG",
        &[
            Piece::Small(number),
            Piece::Small(copy),
            Piece::Decimal(count),
        ],
    )
}

/// Adds the lines of the three copies of a module, 1 to 7.
fn put_wrong_lines(out: &mut Vec<u8>, machine: &Machine, number: u8) -> Result<(), NoMemory>
    requires first { 1 ≤ number }
    requires last { number ≤ 7 }
    ensures lines { OnOk result (out.new.items ≡ out.old.items ++ wrong_lines machine.now.counts number) }
    ensures short { OnOk result (length out.new.items ≤ length out.old.items + 207) }
{
    put_wrong_line(out, number, 1, machine.differed(number, 1))?;
    put_wrong_line(out, number, 2, machine.differed(number, 2))?;
    put_wrong_line(out, number, 3, machine.differed(number, 3))?;
    Ok(())
}

/// Adds the lines of all copies that differed, by module and copy.
pub(crate) fn put_wrong(out: &mut Vec<u8>, machine: &Machine) -> Result<(), NoMemory>
    ensures lines { OnOk result (out.new.items ≡ out.old.items ++ wrong_text machine.now.counts) }
    ensures short { OnOk result (length out.new.items ≤ length out.old.items + 1449) }
{
    for before in 0..7 {
        put_wrong_lines(out, machine, before + 1)?;
    }
    Ok(())
}
