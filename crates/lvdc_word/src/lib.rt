//! The numbers that the machine is made of: words of 26 bits, syllables of 13 bits and cells of 28 bits; beside them the
//! list that a public struct holds, and the want of memory.
#![tactic(auto)]

mod cell;
mod memory;
mod results;
mod seq;
mod syllable;
mod word;

pub use cell::Cell;
pub use memory::NoMemory;
pub use results::{product, quotient, saturated};
pub use seq::Seq;
pub use syllable::Syllable;
pub use word::Word;
