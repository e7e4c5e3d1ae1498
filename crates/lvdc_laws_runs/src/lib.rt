//! Laws over runs of the machine. A guarded machine is the plain run, while faults stay admissible; a script does nothing before its
//! first event; and a run that has joined the plain run stays joined, also one that went through an inadmissible step. Each is the contract of
//! a function that does nothing when it runs, and that a proof cites by calling it.
#![tactic(auto)]

mod early;
mod guarded;
mod joined;
mod ports;
mod rejoined;

pub use early::{machines_may_begin_late, runs_begin_fault_free, steps_begin_admissible};
pub use guarded::{failed_exchange, guarded_follows, guarded_keeps, guarded_words, unhurt_follows};
pub use joined::{joined_runs_stay_joined, spared_memory_stores_words};
pub use ports::quiet_runs_leave_devices;
pub use rejoined::rejoined_runs_stay_joined;
