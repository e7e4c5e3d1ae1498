//! A guarded machine is the plain run, while faults stay admissible. These are laws over every machine that stands where its run
//! is: each is the contract of a function that does nothing when it runs, and that a proof cites by calling it.

ghost use Rattle.std.specs.Prelude.{◌≡◌, ℕ, ◌*◌, List, [], None};
ghost use Rattle.lvdc_map.specs.Address.{Spot};
ghost use Rattle.lvdc_map.specs.Banks.{HasBank};
ghost use Rattle.lvdc_map.specs.Memory.{word_at};
ghost use Rattle.lvdc_port.specs.Device as device;
ghost use Rattle.lvdc_plain.specs.Run.{IsOpening};
ghost use Rattle.lvdc_model.specs.Exchanges.{begin_step, wished};
ghost use Rattle.lvdc_model.specs.Runs.{guarded};
ghost use Rattle.lvdc_model.specs.Trial.{Trial, plain_in};
ghost use Rattle.lvdc_laws_phases.specs.Standing.{Standing};
ghost use Rattle.lvdc_laws_voted.specs.Relation.{IsOnCourse};
ghost use Rattle.lvdc_laws_runs.specs.Guarded.{IsExchanged, GuardedBy, UnhurtBy, is_recoverable_by};
ghost use Rattle.lvdc_machine.specs.Stands.{Stands, state_by, shown_by, shown_of};
ghost use Rattle.lvdc_machine.specs.Steps.{NamesPort};
ghost use Rattle.lvdc_machine.specs.View.{View};
ghost use Rattle.lvdc_machine.specs.declared.mode.Mode.TheVariants.{Guarded};

/// A guarded machine that stands where its run is follows the plain run up to the first
/// inadmissible step, and has ended there.
pub fn guarded_follows()
    ensures { (o : Trial) (n : ℕ) (m : View) (ds : List device.Device) → IsOpening o.opening → m.mode ≡ Guarded → Stands o n m ds
        → GuardedBy m.end o n (state_by m.end m.mode o n) }
{
    lvdc_laws_voted::guarded_run();
    lvdc_laws_voted::judges_alone();
    lvdc_laws_voted::guarded_times();
    lvdc_laws_voted::step_begun();
}

/// As long as no end has come, a guarded machine that stands where its run is keeps the
/// whole relation to the plain run, step by step. The copies of a module that weren't wrong in the last step are one state, and
/// these states stand for the plain run in the phase of the next step.
pub fn guarded_keeps()
    ensures { (o : Trial) (n : ℕ) (m : View) (ds : List device.Device) → IsOpening o.opening → m.mode ≡ Guarded → m.end ≡ None
        → Stands o n m ds → IsOnCourse Standing o n (state_by m.end m.mode o n) }
{
    lvdc_laws_voted::guarded_run();
    lvdc_laws_voted::judges_alone();
}

/// Where a guarded run goes on and wishes an exchange with a port, the plain run makes
/// one with that port; also where a device then fails.
pub fn failed_exchange()
    ensures { (o : Trial) → IsOpening o.opening → (n port : ℕ) → (guarded o n).end ≡ None
        → NamesPort (wished o (begin_step o (guarded o n))) port → IsExchanged o n port }
{
    lvdc_laws_voted::guarded_run();
    lvdc_laws_voted::step_begun();
}

/// Under a script without events a guarded machine that stands after whole times shows
/// the plain run, unless a device failed.
pub fn unhurt_follows()
    ensures { (o : Trial) (times : ℕ) (m : View) (ds : List device.Device) → IsOpening o.opening → m.mode ≡ Guarded → m.script ≡ []
        → Stands o (3 * times) m ds → UnhurtBy m.end o times (state_by m.end m.mode o (3 * times)) }
{
    guarded_follows();
    lvdc_laws_voted::judges_alone();
    lvdc_laws_voted::guarded_ends();
    lvdc_laws_voted::no_faults_no_verdict();
}

/// What a guarded machine tells of a word is the plain run's word, exactly where that
/// can be recovered.
pub fn guarded_words()
    ensures { (o : Trial) (t : ℕ) (m : View) (ds : List device.Device) (at : Spot) → IsOpening o.opening → m.mode ≡ Guarded
        → HasBank o.opening.banks at → Stands o t m ds
        → shown_of o (state_by m.end m.mode o t) at
        ≡ shown_by (is_recoverable_by m.end o m.steps at) (word_at (plain_in o m.steps).memory at) }
{
    guarded_follows();
    lvdc_laws_voted::guarded_run();
    lvdc_laws_voted::judges_alone();
    lvdc_laws_voted::words_known();
}
