//! Sources of the assembler: what each line of a program's text means.
#![tactic(auto)]

mod block;
mod bodies;
mod fault;
mod item;
mod laws;
mod line;
mod meaning;
mod names;
mod numbers;
mod operands;
mod operation;
mod parts;
mod program;
mod read;

pub use block::Block;
pub use fault::SourceFault;
pub use item::{Body, Constant, Item, Operand};
pub use laws::{items_are_few, items_follow_lines, sources_are_programs};
pub use names::is_name;
pub use operation::is_operation;
pub use parts::{Parts, parts_by};
pub use program::Program;
pub use read::parse_source;
