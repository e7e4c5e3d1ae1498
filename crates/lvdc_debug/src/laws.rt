//! What the answer to a session tells, as a law over its definition: a function that does nothing.

ghost use Rattle.std.specs.Prelude.{◌≡◌, ℕ, List};
ghost use Rattle.lvdc_port.specs.Device.{Device};
ghost use Rattle.lvdc_debug.specs.Answers.{session_answer, HasSessionThat};
ghost use Rattle.lvdc_command_run.specs.Runs.{Judges, Stops};
ghost use Rattle.lvdc_command_run.specs.declared.job.Engine.TheVariants.{Guarded};
ghost use Rattle.lvdc_command_run.specs.declared.job.Job.TheVariants as job;

/// The statuses 5 and 6 have their causes in the times for which the commands ask.
pub fn session_statuses()
    // 5 exactly where a step of these times is not admissible.
    ensures inadmissible { (bytes : List ℕ) (devices : List Device) → (session_answer bytes devices).status ≡ 5
        → HasSessionThat (Judges (job.Deck Guarded)) bytes devices }
    ensures inadmissible_always { (bytes : List ℕ) (devices : List Device) → HasSessionThat (Judges (job.Deck Guarded)) bytes devices
        → (session_answer bytes devices).status ≡ 5 }

    // 6 exactly where the plain run stops in these times, and no step is inadmissible.
    ensures stopped { (bytes : List ℕ) (devices : List Device) → (session_answer bytes devices).status ≡ 6
        → HasSessionThat (Stops (job.Deck Guarded)) bytes devices }
    ensures stopped_always { (bytes : List ℕ) (devices : List Device) → HasSessionThat (Stops (job.Deck Guarded)) bytes devices
        → (session_answer bytes devices).status ≡ 6 }
{}
