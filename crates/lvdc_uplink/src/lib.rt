//! Ground uplink: an image is patched by framed and checked messages, each of which is answered (the messages are this
//! project's profile). As a command: the answers and the patched image are the reply.
#![tactic(auto)]

mod answer;
mod fault;
mod fields;
mod frame;
mod heading;
mod input;
mod laws;
mod load;
mod message;
mod parse;
mod patch;
mod reply;
mod send;
mod uplink;

pub use answer::Answer;
pub use fault::PatchFault;
pub use laws::{
    committed_once, doubled_changes_nothing, image_is_patched, lines_are_heard,
    refused_changes_nothing, repeated_changes_nothing,
};
pub use reply::patch_bytes;
pub use uplink::Uplink;

/// The text of a reply has at most so many bytes: 32 for the answer to each of 1,048,576 lines, and those of an image.
pub const LONGEST_TEXT: usize = 34_177_067;
