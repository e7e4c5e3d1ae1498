//! Three copies of each logic module and the vote over them: what a state of latches is, how a copy is hurt, and the triple that
//! keeps of each copy only what differs from the vote. That there are three and a vote is published: this project's commission says
//! so of IBM, and no copy was at hand. How a copy is hurt is this project's profile.
#![tactic(auto)]

mod bits;
mod harm;
mod hurt;
mod logic;
mod triple;
mod vote;

pub use bits::{flipped, forced, majority};
pub use harm::{Harm, Patch, harm_suffices};
pub use hurt::Hurt;
pub use logic::LogicModule;
pub use triple::Triple;
pub use vote::{Vote, two_are_the_vote};
