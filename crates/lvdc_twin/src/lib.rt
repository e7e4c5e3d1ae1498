//! The memory of two twins: cells with parity, damage, stuck bits and dead modules; a read that finds a bad cell mends it
//! from the other twin.
#![tactic(auto)]

mod both_bad;
mod held;
mod physical;
mod read_out;
mod reading;
mod stuck;
mod twins;
mod writing;

pub use both_bad::BothBad;
pub use held::Held;
pub use physical::changes_are_local;
pub use read_out::ReadOut;
pub use reading::{shown_word_is_read, survivor_is_read};
pub use stuck::Stuck;
pub use twins::Twins;
