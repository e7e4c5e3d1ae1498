//! The memory of the voted machine: two twins under a fault script, and the words that are intended there.
#![tactic(auto)]

mod changed;
mod events;
mod memory;
mod order;
mod parts;
mod resume;
mod sound;

pub use events::MemoryEvents;
pub use memory::VotedMemory;
