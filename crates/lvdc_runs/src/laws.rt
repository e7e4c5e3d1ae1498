ghost use Rattle.std.specs.Prelude.{◌≡◌, ℕ, ◌*◌, ◌/◌, ◌≤◌, List, [], All, true};
ghost use Rattle.lvdc_fault.specs.Events.{IsEvent};
ghost use Rattle.lvdc_fault.specs.declared.verdict.Verdict.TheVariants.{Admissible};
ghost use Rattle.lvdc_port.specs.Device.{Device};
ghost use Rattle.lvdc_plain.specs.Run.{Opening, run, IsOpening};
ghost use Rattle.lvdc_plain.specs.Stands.{Stands};
ghost use Rattle.lvdc_plain.specs.View as plain_view;
ghost use Rattle.lvdc_laws_runs.specs.Guarded.{UnhurtBy};
ghost use Rattle.lvdc_laws_runs.specs.Rejoined.{HasRejoined};
ghost use Rattle.lvdc_machine.specs.Shows.{Shows};
ghost use Rattle.lvdc_machine.specs.Stands as machine;
ghost use Rattle.lvdc_machine.specs.View.{View};
ghost use Rattle.lvdc_machine.specs.declared.mode.Mode.TheVariants.{Through};
ghost use Rattle.lvdc_model.specs.Judging.{first_bad, first_bad_below};
ghost use Rattle.lvdc_model.specs.Runs.{through, guarded};
ghost use Rattle.lvdc_model.specs.Trial.{Trial};
ghost use Rattle.lvdc_runs.specs.Same.{is_same};
ghost use Rattle.lvdc_runs.specs.Ran.{HasRun, HasRunPlainly, NonePlainlyFailed};
ghost use Rattle.lvdc_snapshot.specs.declared.snapshot.Snapshot.{Snapshot};
ghost use Rattle.lvdc_runs.specs.Stations.{fault_free_at, IsStation};
ghost use Rattle.lvdc_runs.specs.Window.{IsWindow, TellsAll};

/// A law, which does nothing when it runs: under a script whose steps are all admissible the run through every fault comes to
/// what the plain run comes to.
pub fn admissible_is_same()
    ensures { (o : Trial) (times : ℕ) → IsOpening o.opening → first_bad o times ≡ Admissible → is_same o times ≡ true }
{
    lvdc_laws_voted::guarded_run();
    lvdc_laws_voted::guarded_times();
    lvdc_laws_voted::guarded_ends();
}

/// A law: as long as all steps are admissible the run through every fault is the guarded run.
pub fn through_is_guarded()
    ensures { (o : Trial) (n : ℕ) → IsOpening o.opening → first_bad_below o n ≡ Admissible → through o n ≡ guarded o n }
{
    lvdc_laws_voted::guarded_run();
}

/// A law: under a script without events a machine that goes through every fault and stands after whole times shows the plain run, with
/// its devices, unless a device failed. `unhurt_follows` of `lvdc_laws_runs` says the same of a machine that judges.
pub fn unhurt_through()
    ensures { (o : Trial) (times : ℕ) (m : View) (devices : List Device) → IsOpening o.opening → m.mode ≡ Through → m.script ≡ []
        → machine.Stands o (3 * times) m devices → UnhurtBy m.end o times (machine.state_by m.end m.mode o (3 * times)) }
{
    through_is_guarded();
    lvdc_laws_voted::no_faults_no_verdict();
    lvdc_laws_voted::guarded_times();
    lvdc_laws_voted::guarded_ends();
}

/// A law: after whole times the fault-free run has the devices of the plain run.
pub(crate) fn stations_have_plain_devices()
    ensures { (program : Opening) (times : ℕ) → IsOpening program → (fault_free_at program (3 * times)).devices ≡ (run program times).devices }
{
    lvdc_laws_voted::no_faults_no_verdict();
    lvdc_laws_voted::judges_alone();
    lvdc_laws_voted::guarded_times();
}

/// A law: up to a station before which nothing went over a port the plain run leaves the devices as they were, if none is taken away.
pub fn quiet_stations_leave_devices()
    ensures { (program : Opening) (count : ℕ) (s : Snapshot) → IsStation program count s → program.unplugs ≡ [] → s.log ≡ []
        → (run program (s.steps / 3)).devices ≡ program.devices }
{
    lvdc_laws_runs::quiet_runs_leave_devices();
    lvdc_laws_voted::no_faults_no_verdict();
    lvdc_laws_voted::judges_alone();
    lvdc_laws_voted::guarded_times();
}

/// A law: a plain machine that stands after so many times has run plainly, unless a device failed.
pub fn plain_machine_has_run()
    ensures { (program : Opening) (times : ℕ) (m : plain_view.View) (devices : List Device) → m.banks ≡ program.banks → Stands program times m devices
        → NonePlainlyFailed m.end → HasRunPlainly program times m }
{}

/// A law: a voted machine that has gone through every fault shows the state to which that run comes.
pub fn through_is_shown()
    ensures { (o : Trial) (times : ℕ) (m : View) (run : HasRun Through o times m) → Shows o m run.left (through o (3 * times)) }
{}

/// A law: where the times in which the events of a script act are admissible, so are all, and the run through every fault has counted and
/// repaired then what it will have in the end.
pub fn window_tells_all()
    ensures { (o : Trial) (times count : ℕ) → IsOpening o.opening → IsWindow o.script times count → first_bad o times ≡ Admissible
        → TellsAll o times count }
{
    through_is_guarded();
    lvdc_laws_runs::joined_runs_stay_joined();
    lvdc_laws_runs::spared_memory_stores_words();
}

/// A law: where the run through every fault has rejoined the plain run, it comes in any more times to what the plain run comes to, and has
/// counted and repaired then what it had.
pub fn rejoined_is_same()
    ensures same { (o : Trial) (times count : ℕ) → IsOpening o.opening → All IsEvent o.script → HasRejoined o times → times ≤ count → is_same o count ≡ true }
    ensures counts { (o : Trial) (times count : ℕ) → IsOpening o.opening → All IsEvent o.script → HasRejoined o times → times ≤ count
        → (through o (3 * count)).counts ≡ (through o (3 * times)).counts }
    ensures repairs { (o : Trial) (times count : ℕ) → IsOpening o.opening → All IsEvent o.script → HasRejoined o times → times ≤ count
        → (through o (3 * count)).repairs ≡ (through o (3 * times)).repairs }
{
    lvdc_laws_runs::rejoined_runs_stay_joined();
}
