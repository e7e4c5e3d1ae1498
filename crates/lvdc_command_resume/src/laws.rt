//! What the answer to a saved text tells, as a law over its definition: a function that does nothing.

ghost use Rattle.std.specs.Prelude.{◌≡◌, ℕ, List};
ghost use Rattle.lvdc_port.specs.Device.{Device};
ghost use Rattle.lvdc_command_run.specs.Runs.{IsStop};
ghost use Rattle.lvdc_command_resume.specs.Answers.{resume_answer};
ghost use Rattle.lvdc_command_resume.specs.Statuses.{IsInadmissible, HasResumeThat};

/// The statuses 5 and 6 have their causes in the run that goes on.
pub fn resume_statuses()
    // 5 exactly where it comes to a step that isn't admissible.
    ensures inadmissible { (bytes : List ℕ) (devices : List Device) → (resume_answer bytes devices).status ≡ 5
        → HasResumeThat IsInadmissible bytes devices }
    ensures inadmissible_always { (bytes : List ℕ) (devices : List Device) → HasResumeThat IsInadmissible bytes devices
        → (resume_answer bytes devices).status ≡ 5 }

    // 6 exactly where it stops.
    ensures stopped { (bytes : List ℕ) (devices : List Device) → (resume_answer bytes devices).status ≡ 6
        → HasResumeThat IsStop bytes devices }
    ensures stopped_always { (bytes : List ℕ) (devices : List Device) → HasResumeThat IsStop bytes devices
        → (resume_answer bytes devices).status ≡ 6 }
{}
