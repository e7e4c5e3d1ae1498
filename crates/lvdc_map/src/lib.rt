//! Where words stand: addresses, the banks of the memory, HOP constants, operand places, and the words of all addresses.
#![tactic(auto)]

mod address;
mod banks;
mod hop;
mod operand;
mod place;
mod placed;
mod sectors;
mod words;

pub use address::{Address, same_address};
pub use banks::{Banks, banks_are_held};
pub use hop::{Hop, is_hop_constant};
pub use operand::{OperandKind, is_a9, low_bits, operand_place};
pub use place::Place;
pub use placed::{Placed, places_words};
pub use sectors::Sectors;
pub use words::Words;
