//! The text of a campaign.

ghost use Rattle.std.specs.Prelude.{◌≡◌, ◌+◌, ◌*◌, ◌≤◌, ◌++◌, length, All, OnOk, IfOk};
ghost use Rattle.lvdc_lines.specs.Noted.{lines_of};
ghost use Rattle.lvdc_command_campaign.specs.Texts.{outcome_text, script_text, row_line, counts_text, admits, count_in, total_line, campaign_text};

use lvdc_campaign::Row;
use lvdc_fault::Verdict;
use lvdc_text::{Piece, put};
use lvdc_word::NoMemory;
use std::alloc::Global;

/// Adds SCRIPT, the name and the verdict, whose step and module are decimal: the line of a script begins so, in a campaign and in a
/// study.
pub fn put_script(out: &mut Vec<u8>, name: &[u8], verdict: Verdict) -> Result<(), NoMemory>
    ensures text { OnOk result (out.new.items ≡ out.old.items ++ script_text name.now verdict) }
    ensures short { OnOk result (length out.new.items ≤ length out.old.items + (length name.now + 44)) }
{
    let (word, name) = (Piece::Bytes(b"SCRIPT "), Piece::Bytes(name));
    let blank = Piece::Bytes(b" ");
    match verdict {
        Verdict::Admissible => put(out, &[word, name, Piece::Bytes(b" ADMISSIBLE")]),
        Verdict::Logic { step, module } => {
            let (logic, step) = (Piece::Bytes(b" LOGIC "), Piece::Decimal(step));
            put(out, &[word, name, logic, step, blank, Piece::Small(module)])
        }
        Verdict::Memory { step, address } => {
            let (memory, step) = (Piece::Bytes(b" MEMORY "), Piece::Decimal(step));
            put(
                out,
                &[word, name, memory, step, blank, Piece::Address(address)],
            )
        }
    }
}

/// What follows the verdict.
fn outcome_text(same: bool) -> &'static [u8]
    ensures text { result.now ≡ outcome_text same }
    ensures short { length result.now ≤ 9 }
{
    if same { b" SAME\n" } else { b" DIFFERS\n" }
}

/// Adds the line of a script.
fn put_row(out: &mut Vec<u8>, row: &Row) -> Result<(), NoMemory>
    ensures line { OnOk result (out.new.items ≡ out.old.items ++ row_line row.now) }
    ensures short { OnOk result (length row.now.name ≤ 8 → length out.new.items ≤ length out.old.items + 61) }
{
    put_script(out, row.name.items(), row.verdict)?;
    out.extend_from_slice(outcome_text(row.same))?;
    Ok(())
}

/// Adds the lines of the scripts.
fn put_rows(out: &mut Vec<u8>, rows: &[Row]) -> Result<(), NoMemory>
    requires { All (λ row. length row.name ≤ 8) rows.now }
    ensures lines { OnOk result (out.new.items ≡ out.old.items ++ lines_of row_line rows.now) }
    ensures short { OnOk result (length out.new.items ≤ length out.old.items + 61 * length rows.now) }
{
    for row in rows {
        put_row(out, row)?;
    }
    Ok(())
}

/// Adds a title, how many scripts there are, how many are admissible and how many come to the same: the last line of a campaign and of a
/// study begins so.
pub fn put_counts(
    out: &mut Vec<u8>,
    title: &[u8],
    scripts: usize,
    admissible: usize,
    same: usize,
) -> Result<(), NoMemory>
    ensures text { OnOk result (out.new.items ≡ out.old.items ++ counts_text title.now scripts admissible same) }
    ensures short { OnOk result (length out.new.items ≤ length out.old.items + (length title.now + 79)) }
{
    let scripts = Piece::Decimal(scripts as u64);
    let admissible = Piece::Decimal(admissible as u64);
    let same = Piece::Decimal(same as u64);
    let (first, second) = (Piece::Bytes(b" ADMISSIBLE "), Piece::Bytes(b" SAME "));
    let (title, blank) = (Piece::Bytes(title), Piece::Bytes(b" "));
    put(
        out,
        &[title, blank, scripts, first, admissible, second, same],
    )
}

/// Is it admissible?
pub fn admits(verdict: &Verdict) -> bool
    ensures { result ≡ admits verdict.now }
{
    matches!(verdict, Verdict::Admissible)
}

/// How many scripts are admissible.
fn admissible_in(rows: &[Row]) -> usize
    ensures { result ≡ count_in (λ row. admits row.verdict) rows.now }
{
    rows.iter().filter(|&row| admits(&row.verdict)).count()
}

/// How many come to the same.
fn same_in(rows: &[Row]) -> usize
    ensures { result ≡ count_in (λ row. row.same) rows.now }
{
    rows.iter().filter(|&row| row.same).count()
}

/// Adds the last line.
fn put_total(out: &mut Vec<u8>, rows: &[Row]) -> Result<(), NoMemory>
    ensures line { OnOk result (out.new.items ≡ out.old.items ++ total_line rows.now) }
    ensures short { OnOk result (length out.new.items ≤ length out.old.items + 88) }
{
    put_counts(
        out,
        b"CAMPAIGN",
        rows.len(),
        admissible_in(rows),
        same_in(rows),
    )?;
    out.extend_from_slice(b"\n")?;
    Ok(())
}

/// The text of the rows of a campaign.
pub(crate) fn campaign_text(alloc: Global, rows: &[Row]) -> Result<Vec<u8>, NoMemory>
    requires { All (λ row. length row.name ≤ 8) rows.now }
    ensures text { IfOk result (λ text. text.items ≡ campaign_text rows.now) }
    ensures short { IfOk result (λ text. length text.items ≤ 61 * length rows.now + 88) }
{
    let mut out = Vec::new(alloc);
    put_rows(&mut out, rows)?;
    put_total(&mut out, rows)?;
    Ok(out)
}
