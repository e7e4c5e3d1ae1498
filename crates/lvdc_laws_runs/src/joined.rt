//! Runs that have joined the plain run stay joined. These are laws over the definitions of the voted machine: each is the contract of
//! a function that does nothing when it runs, and that a proof cites by calling it.

ghost use Rattle.std.specs.Prelude.{ℕ, ◌≤◌};
ghost use Rattle.lvdc_plain.specs.Run.{IsOpening};
ghost use Rattle.lvdc_model.specs.Trial.{Trial};
ghost use Rattle.lvdc_laws_runs.specs.Joined.{AllSpareMemory, StoresWords, HasJoined, StaysJoined};

/// Where no event is left, and the twins store the words of the plain run, the rest of an admissible run is the plain run: no later step
/// is inadmissible, no copy differs from its vote any more, and nothing is repaired.
pub fn joined_runs_stay_joined()
    ensures { (o : Trial) (step : ℕ) → IsOpening o.opening → HasJoined o step → (later : ℕ) → step ≤ later → StaysJoined o step later }
{
    lvdc_vote::two_are_the_vote();
    lvdc_map::banks_are_held();
    lvdc_laws_voted::laws_of_a_step();
}

/// Under a script without an event on memory the twins store the words of the plain run before each step.
pub fn spared_memory_stores_words()
    ensures { (o : Trial) → AllSpareMemory o.script → (step : ℕ) → StoresWords o step }
{
    lvdc_laws_voted::ports_match();
}
