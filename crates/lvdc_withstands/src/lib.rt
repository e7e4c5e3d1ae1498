//! What the redundancy withstands. Of a script alone: whether each of its faults is masked, whatever program runs, and else which
//! condition of the form it doesn't meet; that reads the lines, the banks and the count of times, and runs nothing. Of a program: whether
//! it reads or stores its words often enough. That the run is then the plain run are laws, each the contract of a function that does
//! nothing when it runs, and that a proof cites by calling it.
#![tactic(auto)]

mod condition;
mod copies;
mod form;
mod lines;
mod masking;
mod places;
mod repair;
mod twins;

pub use condition::Condition;
pub use form::first_unmet;
pub use masking::{
    all_at_once, form_masks, form_withstands, one_bit_each, one_copy_of_each, one_memory_dead,
};
pub use repair::{reads_find, repair_masks, repair_withstands, scrub_withstands};
