//! The arithmetic unit: a radix-4 multiplier of 12 phases and a bitwise divider of 24 phases on four working latches.
#![tactic(auto)]

mod control;
mod divide;
mod landing;
mod multiply;
mod unit;

pub use control::Kind;
pub use landing::{divide_lands, multiply_lands};
pub use unit::Unit;
