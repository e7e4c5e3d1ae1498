ghost use Rattle.std.specs.Prelude.{◌≡◌, ◌≤◌, length, IfOk};
ghost use Rattle.lvdc_plain.specs.Plain.{PlainState};
ghost use Rattle.lvdc_plain.specs.Stands.{Shows};
ghost use Rattle.lvdc_plain.specs.View.{answer_of_end};
ghost use Rattle.lvdc_report.specs.Report.{report_text};

use crate::end::{outcome_of, put_end};
use crate::registers::put_registers;
use crate::title::{Title, title_line};
use crate::words::put_memory;
use lvdc_lines::put_log;
use lvdc_plain::{Plain, PlainEnd};
use lvdc_word::NoMemory;
use std::alloc::Global;

/// No report has more bytes: 128 MiB.
pub const LONGEST_REPORT: usize = 134_217_728;

/// The report of a run of the plain machine. The end is the one that the machine keeps, or `Done` where it keeps none.
pub fn report_plain(alloc: Global, plain: &Plain, end: PlainEnd) -> Result<Vec<u8>, NoMemory>
    requires { end ≡ answer_of_end plain.now.end }
    ensures text { IfOk result (λ text. (p : PlainState) → Shows plain.now p → text.items ≡ report_text Title.Plain end p) }
    ensures size { IfOk result (λ text. length text.items ≤ LONGEST_REPORT) }
{
    let mut out = Vec::new(alloc);
    out.extend_from_slice(title_line(Title::Plain))?;
    put_end(&mut out, outcome_of(end))?;
    put_registers(&mut out, &plain.visible())?;
    put_log(&mut out, plain.log())?;
    put_memory(&mut out, plain)?;
    Ok(out)
}
