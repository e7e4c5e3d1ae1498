//! The request `study`: many fault scripts are run against one program with devices, and the text has a line for each and their
//! total.
#![tactic(auto)]

mod reply;
mod text;

pub use reply::study_bytes;
