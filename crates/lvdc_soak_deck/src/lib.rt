//! The deck of a soak run: a loop over words that a number draws, and a fault every 146 steps.
#![tactic(auto)]

mod soak;

pub use soak::soak_deck;
