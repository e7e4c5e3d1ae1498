use lvdc_map::Address;
use lvdc_word::{Cell, Word};

/// A line of the fault script (this project's profile). Modules are 1 to 7, copies 1 to 3, twins 0 and 1; `index` is a latch of the
/// module, from 0; an event acts at the steps from `first` to `last`. The events on memory name the physical place, with its pair
/// below 4.
#[derive(Clone, Copy, Debug, PartialEq, Eq)]
pub enum Event {
    /// FLIP: the bits under the mask are turned over in the latch that the copy takes.
    Flip {
        module: u8,
        copy: u8,
        first: u64,
        last: u64,
        index: u8,
        mask: Word,
    },
    /// FORCE: the bits under the mask are the value's in the latch that the copy takes.
    Force {
        module: u8,
        copy: u8,
        first: u64,
        last: u64,
        index: u8,
        mask: Word,
        value: Word,
    },
    /// LAG: the copy keeps its old latches.
    Lag {
        module: u8,
        copy: u8,
        first: u64,
        last: u64,
    },
    /// DEAF: the copy follows the copies of its own number in place of the votes.
    Deaf {
        module: u8,
        copy: u8,
        first: u64,
        last: u64,
    },
    /// DAMAGE: as the step begins the bits under the mask are turned over in the stored cell.
    Damage {
        twin: u8,
        at: Address,
        step: u64,
        mask: Cell,
    },
    /// STICK: the twin shows the value's bits under the mask. Where two meet on a bit, the later one of the script counts.
    Stick {
        twin: u8,
        at: Address,
        first: u64,
        last: u64,
        mask: Cell,
        value: Cell,
    },
    /// DEAD: the twin of the pair shows 0 and stores no word.
    Dead {
        twin: u8,
        pair: u8,
        first: u64,
        last: u64,
    },
}
