//! What the form of a script says of the answer of `run`, as a law: a function that does nothing.

ghost use Rattle.std.specs.Prelude.{◌≡◌, ℕ, true};
ghost use Rattle.lvdc_withstands.specs.Form.{masks};
ghost use Rattle.lvdc_plain.specs.Run.{IsOpening};
ghost use Rattle.lvdc_model.specs.Trial.{Trial};
ghost use Rattle.lvdc_command_run.specs.Answers.{run_answer};
ghost use Rattle.lvdc_command_run.specs.declared.job.Engine.TheVariants as engines;
ghost use Rattle.lvdc_command_run.specs.declared.job.Job.TheVariants as jobs;
ghost use Rattle.lvdc_command_form.specs.Plainly.{IsAsPlain};

/// Under a script that masks by form `run` answers as `run --plain`.
pub fn form_is_answered()
    ensures { (o : Trial) (n : ℕ) → IsOpening o.opening → masks o.script o.opening.banks n ≡ true →
        IsAsPlain (run_answer (jobs.Deck engines.Guarded) o n) (run_answer (jobs.Deck engines.Plain) o n) }
{
    lvdc_withstands::form_masks();
    crate::texts_agree();
}
