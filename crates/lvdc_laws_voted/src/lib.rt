//! An admissible voted run is the plain run. These are laws over the definitions of the voted machine: each is the contract of
//! a function that does nothing when it runs, and that a proof cites by calling it. `guarded_times` and `guarded_verdict` are
//! the heart of what the simulator promises. The laws of whole runs rest on those of one step, which come after them.
#![tactic(auto)]

ghost use Rattle.std.specs.Prelude.{◌≡◌, ◌≢◌, ℕ, suc, ◌*◌, None, Some, []};
ghost use Rattle.lvdc_map.specs.Address.{Spot};
ghost use Rattle.lvdc_map.specs.Banks.{HasBank};
ghost use Rattle.lvdc_plain.specs.Run.{Opening, run, IsOpening};
ghost use Rattle.lvdc_fault.specs.declared.verdict.Verdict.{Verdict};
ghost use Rattle.lvdc_fault.specs.declared.verdict.Verdict.TheVariants.{Admissible};
ghost use Rattle.lvdc_laws_phases.specs.Standing.{Standing};
ghost use Rattle.lvdc_model.specs.declared.outcome.Outcome.{Outcome};
ghost use Rattle.lvdc_model.specs.declared.outcome.Outcome.TheVariants.{Inadmissible};
ghost use Rattle.lvdc_model.specs.Trial.{Trial, plain_at, plain_in};
ghost use Rattle.lvdc_model.specs.Voted.{Voted};
ghost use Rattle.lvdc_model.specs.Judging.{is_recoverable, is_recoverable_after, first_bad, first_bad_below};
ghost use Rattle.lvdc_model.specs.Exchanges.{begin_step, with_end};
ghost use Rattle.lvdc_model.specs.Runs.{guarded, alone};
ghost use Rattle.lvdc_model.specs.Known.{last_begun, is_known};
ghost use Rattle.lvdc_laws_voted.specs.Laws.{VotesLaw, CopiesLaw, DamageLaw, ReadLaw, HoldersLaw, StoreLaw, IdleLaw, PortLaw, StepLaws};
ghost use Rattle.lvdc_laws_voted.specs.Ends.{Opens, ShowsTimes, stop_end, IsBegun, Comes};
ghost use Rattle.lvdc_laws_voted.specs.Relation.{Follows};

/// The headline's law: as long as no step was inadmissible, the guarded machine of 21 copies shows after whole times the
/// registers, the words, the log and the devices of the plain run, a stop's own time included.
pub fn guarded_times()
    ensures { (o : Trial) → IsOpening o.opening → (times : ℕ) → first_bad o times ≡ Admissible
        → ShowsTimes o times (guarded o (3 * times)) }
{
    laws_of_a_step();
}

/// Its other half: where a step was inadmissible, the run has ended with the verdict of the first one, and it ends with a
/// verdict nowhere else.
pub fn guarded_verdict()
    ensures ends { (o : Trial) → IsOpening o.opening → (times : ℕ) → first_bad o times ≢ Admissible
        → (guarded o (3 * times)).end ≡ Some (Inadmissible (first_bad o times)) }
    ensures only { (o : Trial) → IsOpening o.opening → (n : ℕ) (verdict : Verdict)
        → (guarded o n).end ≡ Some (Inadmissible verdict)
        → (verdict ≡ first_bad_below o n) × (first_bad_below o n ≢ Admissible) }
{
    laws_of_a_step();
}

/// An admissible run has ended exactly where the plain run has stopped, in the last step of its last time, and it has made the
/// steps of the times that the plain run made.
pub fn guarded_ends()
    ensures end { (o : Trial) → IsOpening o.opening → (times : ℕ) → first_bad o times ≡ Admissible
        → (guarded o (3 * times)).end ≡ stop_end (plain_at o times).stop (plain_at o times).times }
    ensures steps { (o : Trial) → IsOpening o.opening → (times : ℕ) → first_bad o times ≡ Admissible
        → (guarded o (3 * times)).steps ≡ 3 * (plain_at o times).times }
{
    laws_of_a_step();
}

/// Under a script without events no step is inadmissible, so the guarded run is the plain run throughout.
pub fn no_faults_no_verdict()
    ensures { (o : Trial) → IsOpening o.opening → o.script ≡ [] → (n : ℕ)
        → first_bad_below o n ≡ Admissible }
{
    laws_of_a_step();
}

/// A state that follows the plain run shows it after whole times, and has ended where the plain run has stopped: also one to which another
/// run has come.
pub fn following_shows()
    ensures shows { (o : Trial) (times : ℕ) (v : Voted) → Follows Standing o (3 * times) v → ShowsTimes o times v }
    ensures end { (o : Trial) (times : ℕ) (v : Voted) → Follows Standing o (3 * times) v
        → v.end ≡ stop_end (plain_at o times).stop (plain_at o times).times }
    ensures steps { (o : Trial) (times : ℕ) (v : Voted) → Follows Standing o (3 * times) v → v.steps ≡ 3 * (plain_at o times).times }
{
    laws_of_a_step();
}

/// Step by step: after every number of steps the run follows the plain run, or it has ended at the first inadmissible step,
/// not before, after that step was begun.
pub fn guarded_run()
    ensures { (o : Trial) → IsOpening o.opening → (n : ℕ) → Comes Standing o n }
{
    laws_of_a_step();
}

/// A machine that judges each step by its own votes, cells and intended words makes the guarded run, though it knows no plain
/// run.
pub fn judges_alone()
    ensures { (o : Trial) → IsOpening o.opening → (n : ℕ) → alone o n ≡ guarded o n }
{
    laws_of_a_step();
}

/// A step that is begun is the plain run's so far, and the exchange that the votes wish for is its exchange: also where a
/// device then fails.
pub fn step_begun()
    ensures { (o : Trial) → IsOpening o.opening → (n : ℕ) → first_bad_below o n ≡ Admissible
        → (guarded o n).end ≡ None
        → IsBegun o n (begin_step o (guarded o n)) }
{
    laws_of_a_step();
}

/// What the machine tells of its words is so by definition: after whole steps, at the first inadmissible one, and at any other
/// end that comes where a step was begun; and the intended words are the plain run's.
pub fn words_known()
    ensures made { (o : Trial) → IsOpening o.opening → (n : ℕ) → first_bad_below o n ≡ Admissible
        → (at : Spot) → HasBank o.opening.banks at
        → is_known o (guarded o n) at ≡ is_recoverable_after o (guarded o n).steps at }
    ensures bad { (o : Trial) → IsOpening o.opening → (n : ℕ) → first_bad_below o n ≡ Admissible
        → first_bad_below o (suc n) ≢ Admissible
        → (at : Spot) → HasBank o.opening.banks at
        → is_known o (guarded o (suc n)) at ≡ is_recoverable o n at }
    ensures begun { (o : Trial) (n : ℕ) (v : Voted) (e : Outcome) (at : Spot)
        → HasBank o.opening.banks at → IsBegun o n v
        → last_begun (Some e) n ≡ Some n → is_known o (with_end v e) at ≡ is_recoverable o n at }
    ensures intended { (o : Trial) → IsOpening o.opening → (n : ℕ)
        → first_bad_below o n ≡ Admissible
        → (guarded o n).intended ≡ (plain_in o n).memory }
    ensures intended_bad { (o : Trial) → IsOpening o.opening → (n : ℕ)
        → first_bad_below o n ≡ Admissible → first_bad_below o (suc n) ≢ Admissible
        → (guarded o (suc n)).intended ≡ (plain_in o n).memory }
{
    laws_of_a_step();
}

/// A plain run that has not stopped has made as many times as it was asked for.
pub fn all_times_made()
    ensures { (o : Opening) (n : ℕ) → (run o n).plain.stop ≡ None → (run o n).plain.times ≡ n }
{
    ports_match();
}

/// All laws of one step, and that an opening of words opens a run.
pub fn laws_of_a_step()
    ensures steps { StepLaws Standing }
    ensures opens { (o : Trial) → IsOpening o.opening → Opens Standing o }
{
    copies_agree();
    damage_keeps();
    read_recovers();
    store_keeps();
    idle_keeps();
    ports_match();
    lvdc_port::words_stay();
    lvdc_map::banks_are_held();
    lvdc_plain::stopped_run_stays();
    lvdc_laws_phases::phases_stand();
    lvdc_laws_phases::start_stands();
}

/// Where no module has two wrong copies, the votes are the state of those that aren't wrong, and these latch its next state.
pub fn copies_agree()
    ensures votes { VotesLaw }
    ensures latch { CopiesLaw }
{
    lvdc_vote::two_are_the_vote();
    lvdc_fault::none_wrong();
}

/// Damage leaves the cells that it leaves by definition.
pub fn damage_keeps()
    ensures { DamageLaw }
{
    lvdc_map::same_address();
}

/// A read of a recoverable address gives the plain word, whichever twin is selected, and mends what it mends by definition;
/// what can be recovered is said by the twins that hold the address alone.
pub fn read_recovers()
    ensures read { ReadLaw }
    ensures holders { HoldersLaw }
{
    lvdc_map::same_address();
    lvdc_map::banks_are_held();
    lvdc_twin::survivor_is_read();
}

/// A store leaves the cells that it leaves by definition.
pub fn store_keeps()
    ensures { StoreLaw }
{
    lvdc_map::same_address();
}

/// A step without a read or a store leaves the cells as they are.
pub fn idle_keeps()
    ensures { IdleLaw }
{}

/// What a plain time leaves of memory, log and devices, it leaves by its one exchange.
pub fn ports_match()
    ensures { PortLaw }
{}
