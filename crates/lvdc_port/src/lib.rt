//! The devices at the machine's ports: what every device does, the four kinds of this project, a device that fails
//! when it is told to, and the calls by which a machine reaches a list of boxed devices.
#![tactic(auto)]

mod device;
mod failing;
mod latch;
mod recorder;
mod requests;
mod supplies;
mod tape;
mod ticker;

pub use device::{Failed, Kind, PortDevice, word_of_time};
pub use failing::Failing;
pub use latch::Latch;
pub use recorder::Recorder;
pub use requests::{DeviceFault, PortRequest, Supply, exchange, prepare_all, unplug, words_stay};
pub use supplies::{kind_at, supplies_words, supply_all};
pub use tape::Tape;
pub use ticker::Ticker;
