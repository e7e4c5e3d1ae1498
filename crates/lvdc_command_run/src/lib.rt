//! Runs of decks: a deck that is read or drawn is run by one of the machines, and its report is the reply.
#![tactic(auto)]

mod job;
mod laws;
mod opening;
mod perform;
mod ready;
mod refusal;
mod runs;

pub use job::{Engine, Job};
pub use laws::{guarded_is_answered, headline_told, source_is_loaded, statuses_caused};
pub use opening::opens_with_words;
pub use perform::{refuse, run_job};
pub use ready::{Ready, make_ready};
pub use runs::{end_status, report_end};
