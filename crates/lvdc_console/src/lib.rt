//! Commands, and what the worker is asked beside them, over the program's own devices: sixteen of them at the ports, any source and
//! any sink.
#![tactic(auto)]

mod answers;
mod bench;
mod command;
mod devices;
mod inquiry;
mod rack;
mod reply;
mod words;

pub use answers::inquire;
pub use command::run;
pub use inquiry::inquire_over_rack;
pub use lvdc_cli::{Command, read_command};
pub use rack::rack_holds_words;
pub use reply::reply_over_rack;
pub use words::{Inquiry, read_inquiry};
