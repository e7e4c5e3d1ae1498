//! Decks: a program, the sections that say how it is run, and each refusal with its line.
#![tactic(auto)]

mod commands;
mod deck;
mod entry;
mod fault;
mod fields;
mod laws;
mod layout;
mod ports;
mod program;
mod read;
mod said;
mod section;

pub use deck::Deck;
pub use fault::DeckFault;
pub use laws::{
    commands_are_apart, session_is_run, source_is_assembled, source_is_moved, unplugs_are_apart,
};
pub use layout::{end_of, lines_after};
pub use read::{read_deck, read_deck_lines};
