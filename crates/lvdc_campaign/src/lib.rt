//! Fault campaigns: many scripts against one program, each with its verdict and whether its run through every fault comes to
//! what the fault-free run comes to. A campaign is a study over a bench without devices, and its row the shorter form of the same row.
#![tactic(auto)]

mod bench;
mod laws;
mod row;
mod rows;

pub use laws::{admissible_rows_are_same, rows_are_of_a_study};
pub use row::Row;
pub use rows::campaign;
