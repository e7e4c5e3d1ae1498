//! Placement: where the blocks of a program stand in memory, and where each line of it does.
#![tactic(auto)]

mod block;
mod fault;
mod laws;
mod layout;
mod placing;
mod search;
mod slot;
mod spot;
mod taken;

pub use fault::PlaceFault;
pub use laws::{placed_lines, pooled_places};
pub use layout::Layout;
pub use placing::place;
pub use spot::Spot;
