//! The text of a study.

ghost use Rattle.std.specs.Prelude.{◌≡◌, ◌+◌, ◌*◌, ◌≤◌, ◌++◌, length, codes, is_none, All, OnOk, IfOk};
ghost use Rattle.lvdc_text.specs.Pieces.{piece_text, piece_room, IsFit};
ghost use Rattle.lvdc_lines.specs.Noted.{lines_of};
ghost use Rattle.lvdc_command_campaign.specs.Texts.{admits, count_in};
ghost use Rattle.lvdc_study.specs.declared.difference.Difference.TheVariants.{Words};
ghost use Rattle.lvdc_command_study.specs.Texts.{difference_text, outcome_text, step_text, redundancy_text, form_text, row_line, total_line, study_text};

use lvdc_command_campaign::{admits, put_counts, put_script};
use lvdc_map::Address;
use lvdc_study::{Difference, Row};
use lvdc_text::{Piece, put, put_line, put_text};
use lvdc_word::NoMemory;
use std::alloc::Global;

/// Adds the address of the words that differ first.
fn put_words(out: &mut Vec<u8>, at: Address) -> Result<(), NoMemory>
    ensures text { OnOk result (out.new.items ≡ out.old.items ++ difference_text (Words at)) }
    ensures short { OnOk result (length out.new.items ≤ length out.old.items + 25) }
{
    put(out, &[Piece::Bytes(b"WORDS "), Piece::Address(at)])
}

/// Adds what differs first.
fn put_difference(out: &mut Vec<u8>, difference: Difference) -> Result<(), NoMemory>
    ensures text { OnOk result (out.new.items ≡ out.old.items ++ difference_text difference) }
    ensures short { OnOk result (length out.new.items ≤ length out.old.items + 25) }
{
    match difference {
        Difference::End => put_text(out, b"END"),
        Difference::Port(time) => put(out, &[Piece::Bytes(b"PORT "), Piece::Decimal(time)]),
        Difference::Registers => put_text(out, b"REGISTERS"),
        Difference::Words(at) => put_words(out, at),
    }
}

/// Adds the outcome, after a blank.
fn put_outcome(out: &mut Vec<u8>, difference: Option<Difference>) -> Result<(), NoMemory>
    ensures text { OnOk result (out.new.items ≡ out.old.items ++ codes " " ++ outcome_text difference) }
    ensures short { OnOk result (length out.new.items ≤ length out.old.items + 34) }
{
    match difference {
        None => put_text(out, b" SAME"),
        Some(difference) => {
            put_text(out, b" DIFFERS ")?;
            put_difference(out, difference)
        }
    }
}

/// The step of the first repair.
fn step_piece(step: Option<u64>) -> Piece<'static>
    ensures text { piece_text result ≡ step_text step }
    ensures short { piece_room result ≤ 20 }
    ensures fit { IsFit result }
{
    match step {
        None => Piece::Bytes(b"-"),
        Some(step) => Piece::Decimal(step),
    }
}

/// Whether a script masks by form.
fn form_text(masks: bool) -> &'static [u8]
    ensures text { result.now ≡ form_text masks }
    ensures short { length result.now ≤ 3 }
{
    if masks { b"YES" } else { b"NO" }
}

/// Adds the end of a line: what the redundancy did, and whether the script masks by form.
fn put_end(out: &mut Vec<u8>, row: &Row) -> Result<(), NoMemory>
    ensures text { OnOk result (out.new.items ≡ out.old.items ++ redundancy_text row.now ++ codes " FORM " ++ form_text row.now.masks ++ codes "\n") }
    ensures short { OnOk result (length out.new.items ≤ length out.old.items + 88) }
{
    let copies = Piece::Decimal(row.copies);
    let (second, repairs) = (Piece::Bytes(b"REPAIRS"), Piece::Decimal(row.repairs));
    let step = step_piece(row.first_repair);
    let (third, form) = (Piece::Bytes(b"FORM"), Piece::Bytes(form_text(row.masks)));
    put_line(
        out,
        b" COPIES",
        &[copies, second, repairs, step, third, form],
    )
}

/// Adds the line of a script.
fn put_row(out: &mut Vec<u8>, row: &Row) -> Result<(), NoMemory>
    ensures line { OnOk result (out.new.items ≡ out.old.items ++ row_line row.now) }
    ensures short { OnOk result (length row.now.name ≤ 8 → length out.new.items ≤ length out.old.items + 174) }
{
    put_script(out, row.name.items(), row.verdict)?;
    put_outcome(out, row.difference)?;
    put_end(out, row)
}

/// Adds the lines of the scripts.
fn put_rows(out: &mut Vec<u8>, rows: &[Row]) -> Result<(), NoMemory>
    requires { All (λ row. length row.name ≤ 8) rows.now }
    ensures lines { OnOk result (out.new.items ≡ out.old.items ++ lines_of row_line rows.now) }
    ensures short { OnOk result (length out.new.items ≤ length out.old.items + 174 * length rows.now) }
{
    for row in rows {
        put_row(out, row)?;
    }
    Ok(())
}

/// How many scripts are admissible.
fn admissible_in(rows: &[Row]) -> usize
    ensures { result ≡ count_in (λ row. admits row.verdict) rows.now }
{
    rows.iter().filter(|&row| admits(&row.verdict)).count()
}

/// How many come to the same.
fn same_in(rows: &[Row]) -> usize
    ensures { result ≡ count_in (λ row. is_none row.difference) rows.now }
{
    rows.iter().filter(|&row| row.difference.is_none()).count()
}

/// How many mask by form.
fn masking_in(rows: &[Row]) -> usize
    ensures { result ≡ count_in (λ row. row.masks) rows.now }
{
    rows.iter().filter(|&row| row.masks).count()
}

/// Adds the last line.
fn put_total(out: &mut Vec<u8>, rows: &[Row]) -> Result<(), NoMemory>
    ensures line { OnOk result (out.new.items ≡ out.old.items ++ total_line rows.now) }
    ensures short { OnOk result (length out.new.items ≤ length out.old.items + 111) }
{
    let masking = Piece::Decimal(masking_in(rows) as u64);
    put_counts(
        out,
        b"STUDY",
        rows.len(),
        admissible_in(rows),
        same_in(rows),
    )?;
    put_line(out, b" FORM", &[masking])
}

/// The text of the rows of a study.
pub(crate) fn study_text(alloc: Global, rows: &[Row]) -> Result<Vec<u8>, NoMemory>
    requires { All (λ row. length row.name ≤ 8) rows.now }
    ensures text { IfOk result (λ text. text.items ≡ study_text rows.now) }
    ensures short { IfOk result (λ text. length text.items ≤ 174 * length rows.now + 111) }
{
    let mut out = Vec::new(alloc);
    put_rows(&mut out, rows)?;
    put_total(&mut out, rows)?;
    Ok(out)
}
