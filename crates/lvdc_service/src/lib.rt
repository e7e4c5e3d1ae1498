//! The service: frames from a source, one reply to each, in their order, until the source ends or a call fails. A frame is a line and
//! the bytes of its input; a reader takes pieces from a source and uses them frame by frame.
#![tactic(auto)]

mod due;
mod frame;
mod framing;
mod header;
mod laws;
mod parts;
mod reader;
mod service;
mod words;
mod write;

pub use framing::frames_are_apart;
pub use header::{Header, header_of};
pub use laws::{all_is_served, replies_are_due};
pub use parts::{Part, bytes_of};
pub use reader::{InputEnd, Line, Reader};
pub use service::{refuse, serve};
