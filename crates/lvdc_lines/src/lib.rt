//! The lines of faults, orders, exchanges and repairs, which several texts share. What is read: the events of a fault script, with their
//! numbers in range, and orders of latching (this project's profile). What is written: what a run notes of its devices and repairs.
#![tactic(auto)]

mod cells;
mod copies;
mod exchanges;
mod fields;
mod lines;
mod repairs;

pub use exchanges::{put_exchange_line, put_log};
pub use fields::{decimal_in, octal_in, place_in};
pub use lines::{event_of, order_of};
pub use repairs::{put_repair_line, put_repairs};
