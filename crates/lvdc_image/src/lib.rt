//! Image texts, versions 1 and 2: what a memory is filled with before a run, read from lines and printed.
#![tactic(auto)]

mod entry;
mod fault;
mod image;
mod print;
mod read;
mod simplex;
mod start;

pub use fault::ImageFault;
pub use image::Image;
pub use print::{print_image, put_simplex};
pub use read::read_image;

/// The text of an image has at most so many bytes: a line for each address, and four more.
pub const LONGEST_IMAGE: usize = 622_635;
