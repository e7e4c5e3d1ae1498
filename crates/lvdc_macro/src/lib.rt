//! Macros of the assembler: a source with macros is written out line by line (the language is this project's profile).
#![tactic(auto)]

mod arguments;
mod expansion;
mod fault;
mod laws;
mod macros;
mod meaning;
mod source;
mod substitution;

pub use expansion::{Expansion, LONGEST_EXPANSION};
pub use fault::MacroFault;
pub use laws::plain_source_is_its_own;
pub use source::expand;
