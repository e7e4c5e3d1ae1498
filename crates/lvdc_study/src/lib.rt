//! Studies: many scripts against one program with devices, each with its verdict, what its run through every fault came to beside the
//! plain run, what the redundancy did, and whether the script masks by form.
#![tactic(auto)]

mod apart;
mod bench;
mod compare;
mod difference;
mod fault;
mod late;
mod laws;
mod misled;
mod onward;
mod program;
mod rejoin;
mod replay;
mod row;
mod runs;
mod scripts;
mod study;
mod waypoint;

pub use apart::study_apart;
pub use bench::Bench;
pub use difference::Difference;
pub use fault::Unstudied;
pub use late::make_stations;
pub use laws::{admissible_comes_to_the_same, no_difference_is_same, rows_keep_laws};
pub use program::Program;
pub use replay::make_waypoints;
pub use row::Row;
pub use runs::run_plain;
pub use scripts::study_scripts;
pub use study::study_script;
pub use waypoint::Waypoint;
