ghost use Rattle.std.specs.Prelude.{◌≡◌, ◌+◌, ◌<◌, ◌≤◌, ℕ, List, All, length, IfOk};
ghost use Rattle.lvdc_port.specs.Device.{Device};
ghost use Rattle.lvdc_model.specs.Trial.{Trial};
ghost use Rattle.lvdc_model.specs.Voted.{Voted};
ghost use Rattle.lvdc_machine.specs.Resumed.{state_from, StandsFrom};
ghost use Rattle.lvdc_lines.specs.Noted.{noted_size};
ghost use Rattle.lvdc_report.specs.Voted.{title_of, voted_text};

use crate::end::put_end;
use crate::redundancy::put_wrong;
use crate::registers::put_registers;
use crate::report::LONGEST_REPORT;
use crate::title::{Title, title_line};
use crate::words::put_shown_memory;
use lvdc_lines::{put_log, put_repairs};
use lvdc_machine::{Machine, Mode};
use lvdc_word::NoMemory;
use std::alloc::Global;

/// The title of a mode's report.
fn title_of(mode: Mode) -> Title
    ensures { result ≡ title_of mode }
{
    match mode {
        Mode::Guarded => Title::Run,
        Mode::Through => Title::Through,
    }
}

/// The report of a run of the voted machine, by its mode and the end that it keeps.
pub fn report_run(alloc: Global, machine: &Machine) -> Result<Vec<u8>, NoMemory>
    // It is that of the state where the machine stands, in a run from any state; `Stands` is the case of a trial's start.
    ensures text { IfOk result (λ text. (o : Trial) (first : Voted) (n : ℕ) (ds : List Device) → StandsFrom o first n machine.now ds
        → text.items ≡ voted_text (title_of machine.now.mode) o (state_from machine.now.end machine.now.mode o first n)) }

    // Each step made since that state has brought one exchange or one repair at most; they stand behind those that the state has.
    ensures size { IfOk result (λ text. (o : Trial) (first : Voted) (n : ℕ) (ds : List Device) → StandsFrom o first n machine.now ds
        → All (λ repair. repair.step < first.steps) first.repairs
        → length text.items < LONGEST_REPORT + noted_size first.log first.repairs) }
{
    let mut out = Vec::new(alloc);
    out.extend_from_slice(title_line(title_of(machine.mode())))?;
    put_end(&mut out, machine.outcome())?;
    put_registers(&mut out, &machine.visible())?;
    put_log(&mut out, machine.log())?;
    put_shown_memory(&mut out, machine)?;
    put_wrong(&mut out, machine)?;
    put_repairs(&mut out, machine.repairs())?;
    Ok(out)
}
