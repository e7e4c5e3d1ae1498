//! What a script has in force on the 21 copies of the logic, step after step. It is worked out anew only where an event begins or
//! ends, and there only for the part of the script that it stands in; no clause says when.
#![tactic(auto)]

mod forces;
mod in_force;
mod known;
mod part;
mod parts;
mod shares;

pub use forces::Forces;
pub use in_force::{Faults, InForce};
