//! What a command answers: a status and a text, and how its devices may fail.
#![tactic(auto)]

mod reply;

pub use reply::{Reply, refusal};
