//! The commands `asm` and `macro`: a source is assembled, and what was asked for of it is the reply; a source with macros is written
//! out, or its expansion is assembled.
#![tactic(auto)]

mod expand;
mod reply;

pub use expand::{Form, expand_bytes};
use lvdc_listing::LONGEST_LISTING;
pub use reply::{Product, assemble_bytes};

/// The text of a reply has at most so many bytes: a listing is the longest.
pub const LONGEST_TEXT: usize = LONGEST_LISTING;
