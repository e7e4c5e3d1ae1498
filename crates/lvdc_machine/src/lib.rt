//! The voted machine: three copies of each of seven modules, two memory twins and the devices at the ports, under a fault
//! script, judged step by step or run through every fault.
#![tactic(auto)]

mod answers;
mod kept_end;
mod machine;
mod made;
mod mode;
mod notes;
mod onward;
mod resumed;
mod shown;
mod snapshot;
mod start;
mod stepping;
mod views;

pub use lvdc_model::{Outcome, Repair};
pub use lvdc_orders::{Order, Orders, OrdersFull};
pub use lvdc_snapshot::Snapshot;
pub use machine::Machine;
pub use made::Made;
pub use mode::{Mode, Pace};
pub use resumed::resumed_goes_on;
pub use shown::Shown;
