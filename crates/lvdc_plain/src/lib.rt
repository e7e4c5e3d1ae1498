//! The plain machine: one copy of everything, which runs the instruction table without a fault.
#![tactic(auto)]

mod laws;
mod plain;
mod processor;
mod records;
mod unplugs;

pub use laws::stopped_run_stays;
pub use plain::Plain;
pub use records::{Exchange, Pending, PlainEnd, Stop, Unplug, Visible};
pub use unplugs::unplug_all;
