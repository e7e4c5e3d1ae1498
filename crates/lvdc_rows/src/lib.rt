//! Worked values of the parts beyond those in their own crates, and worked answers of whole commands, from the bytes of an input to
//! the bytes of a text: rows that the checker computes. No crate stands on this one.
#![tactic(auto)]
