//! What the answers of jobs tell, as laws over their definitions: functions that do nothing.

ghost use Rattle.std.specs.Prelude.{◌≡◌, ℕ, ◌*◌, false, List, Some, Ok};
ghost use Rattle.lvdc_port.specs.Device.{Device};
ghost use Rattle.lvdc_text.specs.Lines.{NumberedLine, numbered, lines_of};
ghost use Rattle.lvdc_asm.specs.Assembly.{assembly_of};
ghost use Rattle.lvdc_plain.specs.Run.{IsOpening};
ghost use Rattle.lvdc_model.specs.Runs.{guarded};
ghost use Rattle.lvdc_model.specs.Trial.{Trial};
ghost use Rattle.lvdc_deck.specs.Deck.{deck_of};
ghost use Rattle.lvdc_deck.specs.Loading.{source_in, HasLines};
ghost use Rattle.lvdc_deck.specs.declared.deck.Deck.{Deck};
ghost use Rattle.lvdc_command_run.specs.Trials.{trial_of};
ghost use Rattle.lvdc_command_run.specs.Headline.{HeadlineFor};
ghost use Rattle.lvdc_command_run.specs.Loaded.{StartsWith};
ghost use Rattle.lvdc_command_run.specs.Answers.{guarded_answer, run_answer, job_answer};
ghost use Rattle.lvdc_command_run.specs.Runs.{Judges, Stops, HasRunThat};
ghost use Rattle.lvdc_command_run.specs.declared.job.Engine.TheVariants as engines;
ghost use Rattle.lvdc_command_run.specs.declared.job.Job.{Job};
ghost use Rattle.lvdc_command_run.specs.declared.job.Job.TheVariants as jobs;

use lvdc_deck::source_is_assembled;

/// The answer of `run` to a deck carries the headline.
pub fn headline_told()
    ensures { (bytes : List ℕ) (devices : List Device) (deck : Deck) → deck_of bytes devices false ≡ Ok deck →
        HeadlineFor (trial_of devices deck) deck.count (job_answer (jobs.Deck engines.Guarded) bytes devices) }
{}

/// What `run` answers of a trial is what the voted machine's own state tells after the guarded run.
pub fn guarded_is_answered()
    ensures { (o : Trial) (n : ℕ) → IsOpening o.opening → guarded_answer o (guarded o (3 * n)) ≡ run_answer (jobs.Deck engines.Guarded) o n }
{
    lvdc_laws_voted::guarded_run();
    lvdc_laws_voted::guarded_ends();
    lvdc_laws_voted::guarded_times();
    lvdc_laws_voted::words_known();
    lvdc_laws_voted::all_times_made();
}

/// A run of a deck that begins with a source starts with exactly the words that assembling the source's lines gives.
pub fn source_is_loaded()
    // With their numbers in the deck.
    ensures deck { (bytes : List ℕ) (devices : List Device) (deck : Deck) (source : List NumberedLine) → deck_of bytes devices false ≡ Ok deck →
        source_in bytes ≡ Some source → StartsWith (trial_of devices deck) (assembly_of source) }
    // And as a text of its own that has the same lines.
    ensures alone { (bytes own : List ℕ) (devices : List Device) (deck : Deck) (source : List NumberedLine) → deck_of bytes devices false ≡ Ok deck →
        source_in bytes ≡ Some source → HasLines own source → StartsWith (trial_of devices deck) (assembly_of (numbered own (lines_of own))) }
{
    source_is_assembled();
}

/// The statuses 5 and 6 have their causes in the run of the job.
pub fn statuses_caused()
    // 5 exactly where the job judges the script and finds a step that isn't admissible.
    ensures inadmissible { (job : Job) (bytes : List ℕ) (devices : List Device) → (job_answer job bytes devices).status ≡ 5
        → HasRunThat Judges job bytes devices }
    ensures inadmissible_always { (job : Job) (bytes : List ℕ) (devices : List Device) → HasRunThat Judges job bytes devices
        → (job_answer job bytes devices).status ≡ 5 }

    // 6 exactly where the run of the job stops, which for a job that judges is one without such a step.
    ensures stopped { (job : Job) (bytes : List ℕ) (devices : List Device) → (job_answer job bytes devices).status ≡ 6
        → HasRunThat Stops job bytes devices }
    ensures stopped_always { (job : Job) (bytes : List ℕ) (devices : List Device) → HasRunThat Stops job bytes devices
        → (job_answer job bytes devices).status ≡ 6 }
{}
