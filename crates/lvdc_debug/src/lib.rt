//! The stepping debugger: a session of commands over the guarded run of the voted machine. What it shows is the state that the
//! run has there. As a command: a deck with a DEBUG section to the reply, the text of its session.
#![tactic(auto)]

mod breaks;
mod command;
mod course;
mod echo;
mod fields;
mod laws;
mod parse;
mod reply;
mod session;
mod texts;

pub use breaks::{Breaks, BreaksFull};
pub use command::{Command, Spot2};
pub use laws::session_statuses;
pub use parse::{BadCommand, parse_command};
pub use reply::debug_bytes;
pub use session::{LONGEST_SESSION, debug};
pub use texts::{put_copy, put_latch};
