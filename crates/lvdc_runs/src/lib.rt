//! Runs of scripts: stations of the fault-free run that they go on from, the times in which a script acts, its verdict, and what its run
//! came to beside the plain run.
#![tactic(auto)]

mod early;
mod laws;
mod same;
mod stations;
mod verdict;
mod window;

pub use early::station_before;
pub use laws::{
    admissible_is_same, plain_machine_has_run, quiet_stations_leave_devices, rejoined_is_same,
    through_is_guarded, through_is_shown, unhurt_through, window_tells_all,
};
pub use same::{are_blank, are_same_registers, is_same_end, is_same_word};
pub use stations::{are_worth_stations, machine_at, stations_of};
pub use verdict::{is_admissible, verdict_of};
pub use window::{times_to_the_last, window_of};
