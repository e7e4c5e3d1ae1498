//! Runs that went through an inadmissible step and have rejoined the plain run stay with it. This is a law over the definitions of the
//! voted machine: the contract of a function that does nothing when it runs, and that a proof cites by calling it.

ghost use Rattle.std.specs.Prelude.{ℕ, ◌≤◌, All};
ghost use Rattle.lvdc_plain.specs.Run.{IsOpening};
ghost use Rattle.lvdc_fault.specs.Events.{IsEvent};
ghost use Rattle.lvdc_model.specs.Trial.{Trial};
ghost use Rattle.lvdc_laws_runs.specs.Rejoined.{HasRejoined, StaysRejoined};

/// Where no event is left, and all that a run through every fault goes on from is the plain run's, its rest is the plain run: it shows
/// it at the end of each later time and ends where it stops, no copy differs from its vote any more, and nothing is repaired. What it has
/// counted and repaired so far is left as it is.
pub fn rejoined_runs_stay_joined()
    ensures { (o : Trial) (times : ℕ) → IsOpening o.opening → All IsEvent o.script → HasRejoined o times → (later : ℕ) → times ≤ later → StaysRejoined o times later }
{
    lvdc_vote::two_are_the_vote();
    lvdc_map::banks_are_held();
    lvdc_laws_voted::laws_of_a_step();
    lvdc_laws_voted::no_faults_no_verdict();
    lvdc_laws_voted::following_shows();
}
