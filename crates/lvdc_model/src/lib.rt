//! The voted machine, as definitions alone: what each twin stores before a step, which words can be recovered, which steps
//! are admissible, and what the machine of 21 copies makes of them, through every fault and guarded.
#![tactic(auto)]

mod outcome;
mod repair;

pub use outcome::Outcome;
pub use repair::Repair;
