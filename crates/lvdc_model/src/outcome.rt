use lvdc_fault::Verdict;
use lvdc_plain::Stop;

/// How a call of the voted machine ended, or what is told of a run. The number of a step is 3t + phase, for the instruction time t
/// and the phase 0 to 2.
#[derive(Clone, Copy, Debug, PartialEq, Eq)]
pub enum Outcome {
    /// All steps asked for were made.
    Done,
    /// The machine stopped in this step, by an instruction or by a read that found no good cell.
    Stopped { step: u64, stop: Stop },
    /// The first step that was not admissible, with its cause.
    Inadmissible(Verdict),
    /// The device at this port failed in the exchange of this step.
    Device { step: u64, port: u8 },
}
