//! Assembly: the image of a source, the HOP constants of its lines of code, or its first refusal.
#![tactic(auto)]

mod assembly;
mod data;
mod fault;
mod laws;
mod lines;
mod location;
mod names;
mod operand;
mod places;
mod pool;
mod table;
mod target;

pub use assembly::{Assembly, assemble};
pub use fault::AsmFault;
pub use laws::assembly_is_small;
