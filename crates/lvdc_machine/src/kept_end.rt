ghost use Rattle.std.specs.Prelude.{◌≡◌};
ghost use Rattle.lvdc_machine.specs.View.{outcome_of};

use lvdc_fault::Verdict;
use lvdc_model::Outcome;
use lvdc_plain::Stop;

/// An end that a machine keeps: each outcome but `Done`, which is the answer where none has come.
#[derive(Clone, Copy)]
pub(crate) enum KeptEnd {
    Stopped { step: u64, stop: Stop },
    Inadmissible(Verdict),
    Device { step: u64, port: u8 },
}

impl KeptEnd {
    /// The outcome that it is.
    pub(crate) fn outcome(self) -> Outcome
        ensures { result ≡ outcome_of self }
    {
        match self {
            KeptEnd::Stopped { step, stop } => Outcome::Stopped { step, stop },
            KeptEnd::Inadmissible(verdict) => Outcome::Inadmissible(verdict),
            KeptEnd::Device { step, port } => Outcome::Device { step, port },
        }
    }
}
