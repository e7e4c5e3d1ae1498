//! What a machine that judged a script says of it.

ghost use Rattle.std.specs.Prelude.{◌≡◌, ◌↔◌, ℕ, IsTrue};
ghost use Rattle.lvdc_fault.specs.declared.verdict.Verdict.TheVariants as verdicts;
ghost use Rattle.lvdc_model.specs.Judging.{first_bad};
ghost use Rattle.lvdc_model.specs.Trial.{Trial};
ghost use Rattle.lvdc_machine.specs.declared.mode.Mode.TheVariants.{Guarded};
ghost use Rattle.lvdc_runs.specs.Ran.{HasRun, verdict_in};

use lvdc_fault::Verdict;
use lvdc_laws_runs::guarded_follows;
use lvdc_machine::{Machine, Outcome};

/// The verdict that an end tells.
fn verdict_in(end: Option<Outcome>) -> Verdict
    ensures { result ≡ verdict_in end }
{
    match end {
        Some(Outcome::Inadmissible(verdict)) => verdict,
        _ => Verdict::Admissible,
    }
}

/// The verdict of the script of a machine that judges.
pub fn verdict_of(machine: &Machine) -> Verdict
    ensures first { (o : Trial) (times : ℕ) → HasRun Guarded o times machine.now → result ≡ first_bad o times }
    ensures end { result ≡ verdict_in machine.now.end }
{
    guarded_follows();
    verdict_in(machine.ended())
}

/// Is no step inadmissible?
pub fn is_admissible(verdict: &Verdict) -> bool
    ensures { IsTrue result ↔ (verdict.now ≡ verdicts.Admissible) }
{
    matches!(verdict, Verdict::Admissible)
}
