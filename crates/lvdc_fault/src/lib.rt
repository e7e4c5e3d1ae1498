//! The fault script: its events, which copies they act on, which module has two wrong copies, and the intended words of memory by
//! which a step is judged (this project's profile).
#![tactic(auto)]

mod codes;
mod copies;
mod event;
mod laws;
mod ledger;
mod named;
mod script;
mod span;
mod verdict;

pub use copies::number_of_copy;
pub use event::Event;
pub use laws::none_wrong;
pub use ledger::Ledger;
pub use named::Named;
pub use script::Script;
pub use span::Span;
pub use verdict::Verdict;

/// The most instruction times of a run.
pub const MOST_TIMES: u64 = 1_000_000;

/// The most events of a script.
pub const MOST_EVENTS: usize = 65_536;
