//! Where a run withstands its faults, what a user reads of it is what the plain run tells. These are laws over the
//! definitions: the contract of a function that does nothing when it runs.

ghost use Rattle.std.specs.Prelude.{◌≡◌, ℕ, ◌*◌, ◌<◌, true, false, List, Ok};
ghost use Rattle.lvdc_port.specs.Device.{Device};
ghost use Rattle.lvdc_plain.specs.Run.{IsOpening};
ghost use Rattle.lvdc_model.specs.Trial.{Trial};
ghost use Rattle.lvdc_model.specs.Runs.{guarded};
ghost use Rattle.lvdc_withstands.specs.Form.{masks};
ghost use Rattle.lvdc_withstands.specs.Repairs.{repairs};
ghost use Rattle.lvdc_withstands.specs.Withstood.{Masked};
ghost use Rattle.lvdc_deck.specs.Deck.{deck_of};
ghost use Rattle.lvdc_deck.specs.declared.deck.Deck.{Deck};
ghost use Rattle.lvdc_command_run.specs.Trials.{trial_of};
ghost use Rattle.lvdc_command_run.specs.Answers.{run_answer, failed_answer, job_answer};
ghost use Rattle.lvdc_command_run.specs.declared.job.Engine.TheVariants as engines;
ghost use Rattle.lvdc_command_run.specs.declared.job.Job.TheVariants as jobs;
ghost use Rattle.lvdc_command_form.specs.Texts.{TellsPlain};

/// Where no step is inadmissible and each word can be recovered, `run` tells what `run --plain` tells, but for the first line
/// and the WRONG and REPAIR lines at its end.
pub fn texts_agree()
    // Of a run in which no device fails, and of one in which a device fails.
    ensures whole { (o : Trial) (count : ℕ) → Masked o count
        → TellsPlain (guarded o (3 * count)) (run_answer (jobs.Deck engines.Guarded) o count) (run_answer (jobs.Deck engines.Plain) o count) }
    ensures failed { (o : Trial) (count step port : ℕ) → Masked o count → step < 3 * count
        → TellsPlain (guarded o step) (failed_answer (jobs.Deck engines.Guarded) o step port) (failed_answer (jobs.Deck engines.Plain) o step port) }
{
    lvdc_laws_voted::ports_match();
}

/// So it is where the program repairs the damage of the script in time, and where the script masks by form: of the trial of a
/// deck over these devices.
pub fn decks_tell_plain()
    ensures repair { (bytes : List ℕ) (devices : List Device) (deck : Deck) → deck_of bytes devices false ≡ Ok deck
        → IsOpening (trial_of devices deck).opening → repairs (trial_of devices deck) deck.count ≡ true
        → TellsPlain (guarded (trial_of devices deck) (3 * deck.count)) (job_answer (jobs.Deck engines.Guarded) bytes devices) (job_answer (jobs.Deck engines.Plain) bytes devices) }
    ensures form { (bytes : List ℕ) (devices : List Device) (deck : Deck) → deck_of bytes devices false ≡ Ok deck
        → IsOpening (trial_of devices deck).opening → masks deck.script deck.banks deck.count ≡ true
        → TellsPlain (guarded (trial_of devices deck) (3 * deck.count)) (job_answer (jobs.Deck engines.Guarded) bytes devices) (job_answer (jobs.Deck engines.Plain) bytes devices) }
{
    texts_agree();
    lvdc_withstands::repair_masks();
    lvdc_withstands::form_masks();
}
