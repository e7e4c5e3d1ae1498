//! Texts at the edge: where bytes come from and where they go, the lines and tokens of a text, the reading and printing of its
//! numbers, texts by pieces, and values by the names that a text gives them. For the programs: the streams of std, which try again what a signal cut
//! short, and memory that stays.
#![tactic(auto)]

mod calls;
mod comment;
mod cutting;
mod faulty;
mod headings;
mod index;
mod keep;
mod memory;
mod numbers;
mod pieces;
mod retried;
mod standard;
mod streams;
mod transfer;

pub use calls::{Reads, Writes};
pub use comment::{LONGEST_LINE, is_comment, is_long};
pub use cutting::{Line, Token, few_tokens, is_blank, lines, part, token_text, tokens};
pub use faulty::{FaultySink, FaultySource};
pub use headings::{is_alone, is_word, place_of, spells};
pub use index::Index;
pub use keep::keep_memory;
pub use memory::{MemorySink, MemorySource};
pub use numbers::{decimal, fill_octal, octal, octal_word, plain_decimal, put_decimal, put_octal};
pub use pieces::{Piece, put, put_line, put_text};
pub use standard::{StdSink, StdSource};
pub use streams::{Failed, Sink, Source};
pub use transfer::{ReadEnd, WriteFault, read_all, write_all};
