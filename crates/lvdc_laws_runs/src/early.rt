//! A script does nothing before its first event. These are laws over the definitions of the voted machine: each is the contract of
//! a function that does nothing when it runs, and that a proof cites by calling it.

ghost use Rattle.std.specs.Prelude.{◌≡◌, ℕ, ◌≤◌, List, None};
ghost use Rattle.lvdc_port.specs.Device.{Device};
ghost use Rattle.lvdc_fault.specs.declared.verdict.Verdict.TheVariants.{Admissible};
ghost use Rattle.lvdc_plain.specs.Run.{IsOpening};
ghost use Rattle.lvdc_model.specs.Judging.{first_bad_below};
ghost use Rattle.lvdc_model.specs.Runs.{guarded, alone, through};
ghost use Rattle.lvdc_model.specs.Trial.{Trial};
ghost use Rattle.lvdc_machine.specs.Resumed.{StandsFrom};
ghost use Rattle.lvdc_machine.specs.Stands.{Stands};
ghost use Rattle.lvdc_machine.specs.Steps.{run_of};
ghost use Rattle.lvdc_machine.specs.View.{View};
ghost use Rattle.lvdc_machine.specs.declared.mode.Mode.{Mode};
ghost use Rattle.lvdc_laws_runs.specs.Early.{AllBeginFrom, fault_free};

/// Up to the step where the first event begins each run is the run of the same opening under a script without events.
pub fn runs_begin_fault_free()
    ensures guarded { (o : Trial) (first : ℕ) → AllBeginFrom first o.script → (n : ℕ) → n ≤ first → guarded o n ≡ guarded (fault_free o) n }
    ensures alone { (o : Trial) (first : ℕ) → AllBeginFrom first o.script → (n : ℕ) → n ≤ first → alone o n ≡ alone (fault_free o) n }
    ensures through { (o : Trial) (first : ℕ) → AllBeginFrom first o.script → (n : ℕ) → n ≤ first → through o n ≡ through (fault_free o) n }
{}

/// So up to there the same is said of each step, and each step is admissible.
pub fn steps_begin_admissible()
    ensures same { (o : Trial) (first : ℕ) → AllBeginFrom first o.script → (n : ℕ) → n ≤ first
        → first_bad_below o n ≡ first_bad_below (fault_free o) n }
    ensures admissible { (o : Trial) (first : ℕ) → IsOpening o.opening → AllBeginFrom first o.script → (n : ℕ) → n ≤ first
        → first_bad_below o n ≡ Admissible }
{
    lvdc_laws_voted::no_faults_no_verdict();
}

/// So a machine may begin late: up to there the run of each mode is that under a script without events, and a machine under the script
/// that stands in a state of that run stands where the script's own run is.
pub fn machines_may_begin_late()
    ensures runs { (mode : Mode) (o : Trial) (first : ℕ) → AllBeginFrom first o.script → (n : ℕ) → n ≤ first
        → run_of mode o n ≡ run_of mode (fault_free o) n }
    ensures stands { (o : Trial) (first : ℕ) → AllBeginFrom first o.script → (n : ℕ) → n ≤ first → (m : View) (devices : List Device)
        → m.end ≡ None → StandsFrom o (run_of m.mode (fault_free o) n) 0 m devices → Stands o n m devices }
{
    runs_begin_fault_free();
}
