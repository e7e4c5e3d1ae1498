//! The seven modules of the logic: the latches of each, what they become in a phase, and the one exchange with memory or
//! ports that a phase makes. That the logic is seven modules, each in three copies, is published: this project's commission says so
//! of IBM, and no copy was at hand. The latches, the three phases and the layout of the words in the latches are this project's
//! profile.
#![tactic(auto)]

mod accumulator;
mod bus;
mod decoder;
mod exchange;
mod locator;
mod multiplier;
mod numbers;
mod renewal;
mod request;
mod seen;
mod selector;
mod timer;
mod wanted;

pub use accumulator::{Accumulator, AccumulatorState};
pub use bus::Bus;
pub use decoder::{Decoder, DecoderState};
pub use exchange::{ExchangeState, Exchanger};
pub use locator::{Locator, LocatorState, place_word};
pub use multiplier::{Multiplier, MultiplierState};
pub use numbers::latches;
pub use request::{Destination, Request};
pub use seen::{Doing, Phase};
pub use selector::{Selector, SelectorState, data_word};
pub use timer::{Timer, TimerState};
pub use wanted::{Wanted, wish};
