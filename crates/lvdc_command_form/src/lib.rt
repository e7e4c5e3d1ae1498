//! The question of a deck's form: whether its script masks by form, or which condition it doesn't meet; and what that says of the
//! answers of `run`.
#![tactic(auto)]

mod laws;
mod reply;
mod texts;

pub use laws::form_is_answered;
pub use reply::form_bytes;
pub use texts::{decks_tell_plain, texts_agree};
