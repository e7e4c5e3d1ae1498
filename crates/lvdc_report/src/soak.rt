//! The text of a soak run.

ghost use Rattle.std.specs.Prelude.{◌≡◌, ◌*◌, ◌≤◌, ℕ, List, length, IfOk};
ghost use Rattle.lvdc_port.specs.Device.{Device};
ghost use Rattle.lvdc_fault.specs.declared.TheConstants.{MOST_TIMES};
ghost use Rattle.lvdc_model.specs.Trial.{Trial};
ghost use Rattle.lvdc_model.specs.Voted.{Voted};
ghost use Rattle.lvdc_machine.specs.Resumed.{state_from, StandsFrom};
ghost use Rattle.lvdc_machine.specs.Stands.{Stands, state_by};
ghost use Rattle.lvdc_machine.specs.View.{answer_of_end};
ghost use Rattle.lvdc_report.specs.Voted.{three_counts, all_counts, soak_text};

use crate::end::put_end;
use crate::report::LONGEST_REPORT;
use lvdc_machine::{Machine, Outcome};
use lvdc_text::{Piece, put_line};
use lvdc_word::NoMemory;
use std::alloc::Global;

/// In how many steps the three copies of a module, 1 to 7, differed from the vote, together.
fn three_counts(machine: &Machine, number: u8) -> u64
    requires first { 1 ≤ number }
    requires last { number ≤ 7 }
    ensures sum { result ≡ three_counts machine.now.counts number }
    ensures few { result ≤ 9 * MOST_TIMES }
{
    machine.differed(number, 1) + machine.differed(number, 2) + machine.differed(number, 3)
}

/// In how many steps each of the 21 copies of the modules differed from its vote, summed.
pub fn all_counts(machine: &Machine) -> u64
    ensures { result ≡ all_counts machine.now.counts }
{
    let mut sum = 0;
    for before in 0..7 {
        sum += three_counts(machine, before + 1);
    }
    sum
}

/// The text of the soak run of this number, made by this machine. The end is the one that the machine keeps, or `Done` where
/// it keeps none.
pub fn report_soak(
    alloc: Global,
    machine: &Machine,
    number: u32,
    end: Outcome,
) -> Result<Vec<u8>, NoMemory>
    requires { end ≡ answer_of_end machine.now.end }
    ensures text { IfOk result (λ text. (o : Trial) (t : ℕ) (ds : List Device) → Stands o t machine.now ds
        → text.items ≡ soak_text number (state_by machine.now.end machine.now.mode o t)) }

    // The same of a run from a given state.
    ensures resumed { IfOk result (λ text. (o : Trial) (first : Voted) (n : ℕ) (ds : List Device) → StandsFrom o first n machine.now ds
        → text.items ≡ soak_text number (state_from machine.now.end machine.now.mode o first n)) }
    ensures size { IfOk result (λ text. length text.items ≤ LONGEST_REPORT) }
{
    let visible = machine.visible();
    let mut out = Vec::new(alloc);
    put_line(&mut out, b"LVDC SOAK", &[Piece::Decimal(u64::from(number))])?;
    put_end(&mut out, end)?;
    put_line(&mut out, b"TIMES", &[Piece::Decimal(visible.times)])?;
    put_line(&mut out, b"A", &[Piece::Word(visible.a)])?;
    put_line(&mut out, b"WRONG", &[Piece::Decimal(all_counts(machine))])?;
    put_line(
        &mut out,
        b"REPAIRS",
        &[Piece::Decimal(machine.repairs().len() as u64)],
    )?;
    Ok(out)
}
