//! What the answer to a save tells, as a law over its definition: a function that does nothing.

ghost use Rattle.std.specs.Prelude.{◌≡◌, ℕ, List};
ghost use Rattle.lvdc_port.specs.Device.{Device};
ghost use Rattle.lvdc_command_run.specs.Runs.{Judges, Stops};
ghost use Rattle.lvdc_command_run.specs.declared.job.Engine.TheVariants.{Guarded};
ghost use Rattle.lvdc_command_run.specs.declared.job.Job.TheVariants as job;
ghost use Rattle.lvdc_command_save.specs.Answers.{save_answer};
ghost use Rattle.lvdc_command_save.specs.Statuses.{HasSaveThat};

/// The statuses 5 and 6 have their causes in the times that are asked for.
pub fn save_statuses()
    // 5 exactly where a step of these times is not admissible.
    ensures inadmissible { (n : ℕ) (bytes : List ℕ) (devices : List Device) → (save_answer n bytes devices).status ≡ 5
        → HasSaveThat (Judges (job.Deck Guarded)) n bytes devices }
    ensures inadmissible_always { (n : ℕ) (bytes : List ℕ) (devices : List Device) → HasSaveThat (Judges (job.Deck Guarded)) n bytes devices
        → (save_answer n bytes devices).status ≡ 5 }

    // 6 exactly where the plain run stops in these times, and no step is inadmissible.
    ensures stopped { (n : ℕ) (bytes : List ℕ) (devices : List Device) → (save_answer n bytes devices).status ≡ 6
        → HasSaveThat (Stops (job.Deck Guarded)) n bytes devices }
    ensures stopped_always { (n : ℕ) (bytes : List ℕ) (devices : List Device) → HasSaveThat (Stops (job.Deck Guarded)) n bytes devices
        → (save_answer n bytes devices).status ≡ 6 }
{}
