use lvdc_map::{Address, Hop};
use lvdc_word::Word;

/// The registers that a report shows, and the instruction times made.
#[derive(Clone, Copy, PartialEq, Eq)]
pub struct Visible {
    pub place: Hop,
    pub a: Word,
    pub pq: Word,
    pub saver: Word,
    pub times: u64,
}

/// A line of the port log: the instruction time from 0, the port, and the word that was read or written.
#[derive(Clone, Copy, PartialEq, Eq)]
pub struct Exchange {
    pub time: u64,
    pub port: u8,
    pub reading: bool,
    pub word: Word,
}

/// The device of this port is taken away before this instruction time.
#[derive(Clone, Copy, Debug, PartialEq, Eq)]
pub struct Unplug {
    pub port: u8,
    pub time: u64,
}

/// Why a machine stopped. The plain machine never answers `Memory`.
#[derive(Clone, Copy, Debug, PartialEq, Eq)]
pub enum Stop {
    /// A shift whose pattern means nothing.
    Shift,
    /// An execute modified instruction, which is left out by name.
    Exm,
    /// A read that found no good cell at this address.
    Memory(Address),
}

/// A result that is on its way: the instruction times left, 1 to 8, and whether the accumulator takes it too.
#[derive(Clone, Copy, PartialEq, Eq)]
pub struct Pending {
    pub left: u8,
    pub result: Word,
    pub to_a: bool,
}

/// How a call of the plain machine ended. The number of a step is 3t + 2, for the instruction time t.
#[derive(Clone, Copy, PartialEq, Eq)]
pub enum PlainEnd {
    /// All times asked for were made.
    Done,
    /// The machine stopped in this step.
    Stopped { step: u64, stop: Stop },
    /// The device at this port failed in the exchange of this step.
    Device { step: u64, port: u8 },
}
