//! The trace of a run: for each step of a window what was exchanged, which copies were wrong, what the votes became, and which
//! copies differ from them. As a request: a deck or a saved text, a mode and a window to the reply.
#![tactic(auto)]

mod copies;
mod exchange;
mod laws;
mod reply;
mod saved;
mod step;
mod votes;
mod whole;
mod window;

pub use laws::trace_is_plain;
pub use reply::trace_bytes;
pub use whole::trace;
pub use window::Window;
