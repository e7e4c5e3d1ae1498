//! The command `save`: a deck is run for so many times, and what the run then is becomes the text of `lvdc_save`.
#![tactic(auto)]

mod laws;
mod reply;
mod runs;
mod saving;
mod states;

pub use laws::save_statuses;
pub use reply::save_bytes;
