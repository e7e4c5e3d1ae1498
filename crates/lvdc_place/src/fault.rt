ghost use Rattle.std.specs.Prelude.{◌≡◌, ◌≤◌, length};
ghost use Rattle.lvdc_place.specs.declared.fault.PlaceFault.TheVariants.{NoMemory as WantsMemory};

use lvdc_word::NoMemory;
use std::alloc::AllocFailed;
use thiserror::Error;

/// Why a program can't be placed. Each cause but the want of memory names the line of a block's directive.
#[derive(Clone, Copy, Debug, Error)]
pub enum PlaceFault {
    /// There was no memory for the places.
    #[error("no memory")]
    NoMemory,
    /// The block runs past location 377, or floats where no place is free.
    #[error("there is no room for the block of line {0}")]
    NoRoom(u32),
    /// The block is fixed where a slot isn't free.
    #[error("the block of line {0} overlaps another one")]
    Overlap(u32),
}

impl PlaceFault {
    ghost use Rattle.lvdc_place.specs.Faults.{name_of, line_of};

    /// The name of the cause, as a refusal tells it.
    pub fn name(&self) -> &'static [u8]
        ensures name { result.now ≡ name_of self.now }
        ensures short { length result.now ≤ 8 }
    {
        match self {
            PlaceFault::NoMemory => b"NoMemory",
            PlaceFault::NoRoom(_) => b"NoRoom",
            PlaceFault::Overlap(_) => b"Overlap",
        }
    }

    /// The line of the refusal, counted from 1; 0 where there was no memory.
    pub fn line(&self) -> u32
        ensures { result ≡ line_of self.now }
    {
        match self {
            PlaceFault::NoMemory => 0,
            PlaceFault::NoRoom(line) => *line,
            PlaceFault::Overlap(line) => *line,
        }
    }
}

impl From<NoMemory> for PlaceFault {
    ghost from_gives = { λ _ e. e ≡ WantsMemory };

    fn from(_: NoMemory) -> PlaceFault {
        PlaceFault::NoMemory
    }
}

impl<T: Drop> From<AllocFailed<T>> for PlaceFault {
    ghost from_gives = { λ _ e. e ≡ WantsMemory };

    fn from(_: AllocFailed<T>) -> PlaceFault {
        PlaceFault::NoMemory
    }
}
