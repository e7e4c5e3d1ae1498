//! The instructions: what a syllable means, how an instruction is written, and what a shift makes of a word.
#![tactic(auto)]

mod codec;
mod instr;
mod op;
mod shift;
mod text;

pub use codec::{decode, encode};
pub use instr::Instr;
pub use op::Op;
pub use shift::shifted;
pub use text::{mnemonic, print};
