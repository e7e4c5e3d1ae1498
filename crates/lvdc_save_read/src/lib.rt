//! Saved texts are read: what each line says, whether it may stand where it does, and each refusal with its line
//! (this project's profile).
#![tactic(auto)]

mod entries;
mod fields;
mod laws;
mod read;
mod reading;

pub use laws::{entries_say_the_state, printed_is_read_back};
pub use read::read_saved;
