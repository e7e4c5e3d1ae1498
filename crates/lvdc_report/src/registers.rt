ghost use Rattle.std.specs.Prelude.{◌≡◌, ◌+◌, ◌≤◌, ◌++◌, length, OnOk, OnErr};
ghost use Rattle.lvdc_report.specs.Report.{place_line, data_line, bit_digit, dup_line, registers_text};

use lvdc_map::Hop;
use lvdc_plain::Visible;
use lvdc_text::{Piece, put_line};
use lvdc_word::NoMemory;

fn bit_digit(bit: bool) -> &'static [u8]
    ensures digit { result.now ≡ bit_digit bit }
    ensures length { length result.now ≡ 1 }
{
    if bit { b"1" } else { b"0" }
}

fn put_place_line(out: &mut Vec<u8>, place: Hop) -> Result<(), NoMemory>
    ensures text { OnOk result (out.new.items ≡ out.old.items ++ place_line place) }
    ensures short { OnOk result (length out.new.items ≤ length out.old.items + 17) }
{
    put_line(
        out,
        b"PLACE",
        &[
            Piece::Octal(u64::from(place.imod), 1),
            Piece::Octal(u64::from(place.isec), 2),
            Piece::Octal(u64::from(place.syl), 1),
            Piece::Octal(u64::from(place.loc), 3),
        ],
    )
}

fn put_data_line(out: &mut Vec<u8>, place: Hop) -> Result<(), NoMemory>
    ensures text { OnOk result (out.new.items ≡ out.old.items ++ data_line place) }
    ensures short { OnOk result (length out.new.items ≤ length out.old.items + 10) }
{
    put_line(
        out,
        b"DATA",
        &[
            Piece::Octal(u64::from(place.dmod), 1),
            Piece::Octal(u64::from(place.dsec), 2),
        ],
    )
}

fn put_dup_line(out: &mut Vec<u8>, place: Hop) -> Result<(), NoMemory>
    ensures text { OnOk result (out.new.items ≡ out.old.items ++ dup_line place) }
    ensures short { OnOk result (length out.new.items ≤ length out.old.items + 8) }
{
    put_line(
        out,
        b"DUP",
        &[
            Piece::Bytes(bit_digit(place.dupin)),
            Piece::Bytes(bit_digit(place.dupdn)),
        ],
    )
}

/// Adds the lines of the registers, one after the other. After a want of memory `out` may have grown by the first ones.
fn put_register_lines(out: &mut Vec<u8>, visible: &Visible) -> Result<(), NoMemory>
    ensures text { OnOk result (out.new.items ≡ out.old.items ++ registers_text visible.now) }
    ensures short { OnOk result (length out.new.items ≤ length out.old.items + 120) }
{
    put_line(out, b"TIMES", &[Piece::Decimal(visible.times)])?;
    put_place_line(out, visible.place)?;
    put_data_line(out, visible.place)?;
    put_dup_line(out, visible.place)?;
    put_line(out, b"A", &[Piece::Word(visible.a)])?;
    put_line(out, b"PQ", &[Piece::Word(visible.pq)])?;
    put_line(out, b"SAVER", &[Piece::Word(visible.saver)])?;
    Ok(())
}

/// Adds the lines of the registers: TIMES, PLACE, DATA, DUP, A, PQ and SAVER. After a want of memory `out` is as before.
pub fn put_registers(out: &mut Vec<u8>, visible: &Visible) -> Result<(), NoMemory>
    ensures text { OnOk result (out.new.items ≡ out.old.items ++ registers_text visible.now) }
    ensures short { OnOk result (length out.new.items ≤ length out.old.items + 120) }
    ensures err { OnErr result (out.new.items ≡ out.old.items) }
{
    let mut lines = Vec::new(*out.allocator());
    put_register_lines(&mut lines, visible)?;
    out.extend_from_slice(&lines)?;
    Ok(())
}
