//! The rows of the lines of a source.

ghost use Rattle.std.specs.Prelude.{◌≡◌, ◌<◌, ◌-◌, ◌++◌, ◌∷◌, [], replicate, map, decimal, All, OnOk};
ghost use Rattle.lvdc_map.specs.Memory.{IsMemory, memory_of};
ghost use Rattle.lvdc_text.specs.Lines.{IsWithin, numbered};
ghost use Rattle.lvdc_text.specs.Joined.{text_of};
ghost use Rattle.lvdc_listing.specs.Listing.{placed_items, item_field};
ghost use Rattle.lvdc_listing.specs.Rows.{blanks, row, line_rows};

use crate::field::field;
use itoa::Buffer;
use lvdc_asm::Assembly;
use lvdc_map::Words;
use lvdc_text::{Line, Piece, is_comment, part, put, put_line};
use lvdc_word::NoMemory;
use std::alloc::Global;

/// How many places the number of a line takes.
const NUMBER: usize = 7;

/// How many places the field of a line takes.
const FIELD: usize = 20;

/// Appends blanks up to so many places, of which some are used.
fn put_blanks(out: &mut Vec<u8>, places: usize, used: usize) -> Result<(), NoMemory>
    requires { places < 100 }
    ensures { OnOk result (out.new.items ≡ out.old.items ++ replicate (places - used) 32) }
{
    let length = out.len() + places.saturating_sub(used);
    out.resize(length, b' ')?;
    Ok(())
}

/// Appends the number of a line.
fn put_number(out: &mut Vec<u8>, number: u32) -> Result<(), NoMemory>
    ensures { OnOk result (out.new.items ≡ out.old.items ++ (blanks 7 (decimal number) ++ decimal number)) }
{
    let mut buffer = Buffer::new();
    let digits = buffer.format(number).as_bytes();
    put_blanks(out, NUMBER, digits.len())?;
    out.extend_from_slice(digits)?;
    Ok(())
}

/// Appends the row of a line.
fn put_row(out: &mut Vec<u8>, number: u32, field: &[u8], text: &[u8]) -> Result<(), NoMemory>
    ensures { OnOk result (out.new.items ≡ out.old.items ++ text_of (row (record { number = number; text = text.now }) field.now ∷ [])) }
{
    put_number(out, number)?;
    put(out, &[Piece::Bytes(b" "), Piece::Bytes(field)])?;
    put_blanks(out, FIELD, field.len())?;
    put_line(out, b"", &[Piece::Bytes(text)])
}

/// Appends the rows of the lines of the source up to and with END.
pub(crate) fn put_lines(
    alloc: Global,
    out: &mut Vec<u8>,
    memory: &Words,
    assembly: &Assembly,
    bytes: &[u8],
    lines: &[Line],
) -> Result<(), NoMemory>
    requires within { All (IsWithin bytes.now) lines.now }
    requires memory { IsMemory memory.now (memory_of assembly.now.words) }
    ensures { OnOk result (out.new.items ≡ out.old.items ++ text_of (line_rows
        (map (item_field (memory_of assembly.now.words)) (placed_items assembly.now)) (numbered bytes.now lines.now))) }
{
    let items = assembly.items();
    let mut listed = 0;
    for line in lines {
        let text = part(bytes, line);
        if listed == items.len() {
            put_row(out, line.number, &[], text)?;
            if !is_comment(text) {
                return Ok(());
            }
        } else {
            let item = &items[listed];
            if item.line == line.number {
                let field = field(alloc, memory, assembly.spot(listed), &item.body)?;
                put_row(out, line.number, &field, text)?;
                listed += 1;
            } else {
                put_row(out, line.number, &[], text)?;
            }
        }
    }
    Ok(())
}
