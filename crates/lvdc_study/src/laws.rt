ghost use Rattle.std.specs.Prelude.{◌≡◌, ℕ, ◌*◌, ◌≤◌, is_none, All, List};
ghost use Rattle.lvdc_plain.specs.Run.{Opening, IsOpening};
ghost use Rattle.lvdc_fault.specs.declared.event.Event.{Event};
ghost use Rattle.lvdc_fault.specs.declared.named.Named.{Named};
ghost use Rattle.lvdc_fault.specs.declared.verdict.Verdict.TheVariants.{Admissible};
ghost use Rattle.lvdc_laws_runs.specs.Early.{AllBeginFrom};
ghost use Rattle.lvdc_machine.specs.View.{View};
ghost use Rattle.lvdc_machine.specs.declared.mode.Mode.TheVariants.{Guarded};
ghost use Rattle.lvdc_model.specs.Judging.{first_bad};
ghost use Rattle.lvdc_model.specs.Runs.{through};
ghost use Rattle.lvdc_model.specs.Trial.{Trial};
ghost use Rattle.lvdc_runs.specs.Same.{is_same};
ghost use Rattle.lvdc_runs.specs.Scripts.{trial_under};
ghost use Rattle.lvdc_runs.specs.Ran.{HasRun};
ghost use Rattle.lvdc_runs.specs.Stations.{IsStation};
ghost use Rattle.lvdc_study.specs.Failures.{FailsPlainly, FailsUnder};
ghost use Rattle.lvdc_study.specs.Outcomes.{first_difference};
ghost use Rattle.lvdc_study.specs.Study.{rows_of, IsSame, KeepsLaws};
ghost use Rattle.lvdc_study.specs.Waypoints.{IsWaypoint, HasReplayed};
ghost use Rattle.lvdc_study.specs.declared.fault.Unstudied.{Unstudied};
ghost use Rattle.lvdc_study.specs.declared.waypoint.Waypoint.{Waypoint};

/// A law, which does nothing when it runs: under a script whose steps are all admissible the run through every fault comes to
/// what the plain run comes to, port log and devices included.
pub fn admissible_comes_to_the_same()
    ensures { (o : Trial) (times : ℕ) → IsOpening o.opening → first_bad o times ≡ Admissible → IsSame o times }
{
    lvdc_runs::admissible_is_same();
    lvdc_runs::through_is_guarded();
    lvdc_laws_voted::guarded_times();
}

/// A law: no difference is told exactly where the run through every fault comes to what the plain run comes to, as in a campaign.
pub fn no_difference_is_same()
    ensures { (o : Trial) (times : ℕ) → is_none (first_difference o times) ≡ is_same o times }
{}

/// A law: of the rows of scripts each admissible one is the same, and each whose script masks by form is admissible.
pub fn rows_keep_laws()
    ensures { (opening : Opening) (times : ℕ) (scripts : List Named) → IsOpening opening → All KeepsLaws (rows_of opening times scripts) }
{
    admissible_comes_to_the_same();
    lvdc_withstands::form_masks();
}

/// A law: where all steps are admissible a machine that judges has counted and repaired what the run through every fault has.
pub(crate) fn judged_goes_through()
    ensures { (o : Trial) (times : ℕ) (m : View) → HasRun Guarded o times m → first_bad o times ≡ Admissible
        → (m.counts ≡ (through o (3 * times)).counts) × (m.repairs ≡ (through o (3 * times)).repairs) }
{
    lvdc_runs::through_is_guarded();
    lvdc_laws_voted::judges_alone();
}

/// A law: where all steps of the times of a script's window are admissible, a machine that made them over whatever devices has counted and
/// repaired what the run through every fault has in the end.
pub(crate) fn replayed_counts()
    ensures counts { (o : Trial) (times lines : ℕ) (m : View) → IsOpening o.opening → HasReplayed o times lines m → first_bad o times ≡ Admissible
        → (m.counts ≡ (through o (3 * times)).counts) × (m.repairs ≡ (through o (3 * times)).repairs) }
    ensures early { (o : Trial) (times count : ℕ) → times ≤ count → first_bad o count ≡ Admissible → first_bad o times ≡ Admissible }
{
    lvdc_runs::through_is_guarded();
}

/// A law: where the plain run fails before a script begins, a run under the script fails there too.
pub(crate) fn fails_early()
    ensures { (opening : Opening) (script : List Event) (times count : ℕ) → IsOpening opening → AllBeginFrom (3 * times) script → times ≤ count
        → (e : Unstudied) → FailsPlainly opening times e → FailsUnder (trial_under opening script) count e }
{
    lvdc_laws_runs::steps_begin_admissible();
    lvdc_laws_voted::guarded_run();
    lvdc_laws_voted::step_begun();
    lvdc_plain::stopped_run_stays();
    lvdc_runs::through_is_guarded();
}

/// A law: a waypoint before which nothing went over a port is a station.
pub(crate) fn quiet_waypoints_are_stations()
    ensures { (program : Opening) (count : ℕ) (w : Waypoint) → IsWaypoint program count w → w.lines ≡ 0 → IsStation program count w.snapshot }
{
    lvdc_laws_voted::no_faults_no_verdict();
    lvdc_laws_voted::judges_alone();
    lvdc_laws_voted::guarded_times();
}
