//! The top call: command lines, what each command is answered, and how that is read and written; and that the two halves of a run are
//! the whole: what `save` wrote and `resume` read comes to what `run` makes of the deck.
#![tactic(auto)]

mod call;
mod command;
mod due;
mod halves;
mod join;
mod laws;
mod resumed;

pub use call::lvdc;
pub use command::{Command, read_command};
pub use halves::saved_tells_run;
pub use join::reply;
pub use laws::source_is_printed;
use lvdc_debug::LONGEST_SESSION;
use lvdc_report::LONGEST_REPORT;
use lvdc_save::LONGEST_SAVED;
pub use resumed::resume_saved;

/// The input has at most so many bytes, but for `resume`.
pub const LIMIT: usize = 1_048_576;

/// A saved text that is resumed has at most so many.
pub const SAVED_LIMIT: usize = lvdc_command_resume::LIMIT;

/// A sink that tells its room has room for so many bytes, but for three commands: no other text is longer than the longest report.
pub const ROOM: usize = LONGEST_REPORT;

/// The same where a debug session is asked for.
pub const SESSION_ROOM: usize = LONGEST_SESSION;

/// The same where a run is saved.
pub const SAVED_ROOM: usize = LONGEST_SAVED;

/// The same where a saved run goes on: its report has the log and the repairs of both halves.
pub const RESUMED_ROOM: usize = lvdc_command_resume::ROOM;
