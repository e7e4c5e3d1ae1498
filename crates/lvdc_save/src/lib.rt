//! Saved texts: the state of a guarded run between two instruction times, with all that the run still needs. What such a text
//! means, and how it is printed; it is read in `lvdc_save_read` (this project's profile).
#![tactic(auto)]

mod entry;
mod events;
mod fault;
mod laws;
mod lines;
mod mark;
mod parts;
mod print;
mod saved;
mod section;

pub use entry::{CopyState, Entry};
pub use fault::SaveFault;
pub use laws::lines_are_read_back;
pub use lines::put_entry;
pub use mark::Mark;
pub use print::print_saved;
pub use saved::Saved;
pub use section::Section;

/// No saved text of a bounded run has more bytes: 128 MiB.
pub const LONGEST_SAVED: usize = 134_217_728;

/// The most words that the devices of a bounded run hold together.
pub const MOST_WORDS: usize = 1_048_576;
