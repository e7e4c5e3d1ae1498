//! The orders in which the 21 copies latch, and lists of them that take turns step by step (this project's profile).
#![tactic(auto)]

mod full;
mod order;
mod orders;

pub use full::OrdersFull;
pub use order::{COPIES, Order};
pub use orders::{MOST_ORDERS, Orders};
