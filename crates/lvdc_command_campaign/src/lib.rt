//! The command `campaign`: many fault scripts are run against one program, and the reply has a line for each and their total.
#![tactic(auto)]

mod reply;
mod text;

pub use reply::{campaign_bytes, refuse};
pub use text::{admits, put_counts, put_script};
