//! The listing of an assembled source: its lines with what the image holds for each, its pooled words and its names.
#![tactic(auto)]

mod field;
mod names;
mod pool;
mod print;
mod rows;

pub use print::listing;

/// The listing of 1,048,576 bytes has at most so many: 30 for a line beside its text, 24 for a pooled word and 25 for a name,
/// and a source has no more of each than bytes.
pub const LONGEST_LISTING: usize = 82_837_534;
