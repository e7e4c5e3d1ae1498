//! The logic of the voted machine: three copies of each of the seven modules, what each latches in a step whatever the order,
//! and how often each copy differed from the vote.
#![tactic(auto)]

mod counts;
mod listing;
mod logic;
mod triples;
mod words;

pub use logic::Logic;
