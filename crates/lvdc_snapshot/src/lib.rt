//! Snapshots: what the voted machine has between two instruction times, but for its script and its devices.
#![tactic(auto)]

mod lists;
mod snapshot;

pub use lists::room_for;
pub use snapshot::Snapshot;
