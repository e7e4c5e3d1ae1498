ghost use Rattle.std.specs.Prelude.{◌≡◌, ◌≤◌, length};
ghost use Rattle.lvdc_save.specs.declared.fault.SaveFault.TheVariants.{NoMemory as WantsMemory};

use lvdc_word::NoMemory;
use std::alloc::AllocFailed;
use thiserror::Error;

/// Why bytes are no saved text: the first refusal, and its line.
#[derive(Clone, Copy, Debug, PartialEq, Eq, Error)]
pub enum SaveFault {
    /// There was no memory for what the text says.
    #[error("no memory")]
    NoMemory,
    /// The line is out of form, order or range, the state isn't whole, or `END` is missing there.
    #[error("line {0} is no line of a saved text")]
    BadSave(u32),
    /// The line names a port at which no device is left, or none that holds words.
    #[error("line {0} names no device")]
    NoDevice(u32),
}

impl SaveFault {
    ghost use Rattle.lvdc_save.specs.Faults.{name_of, line_of};

    /// The name of the cause, as a refusal tells it.
    pub fn name(&self) -> &'static [u8]
        ensures name { result.now ≡ name_of self.now }
        ensures short { length result.now ≤ 8 }
    {
        match self {
            SaveFault::NoMemory => b"NoMemory",
            SaveFault::BadSave(_) => b"BadSave",
            SaveFault::NoDevice(_) => b"NoDevice",
        }
    }

    /// The line of the refusal, counted from 1; 0 where there was no memory.
    pub fn line(&self) -> u32
        ensures { result ≡ line_of self.now }
    {
        match self {
            SaveFault::NoMemory => 0,
            SaveFault::BadSave(line) => *line,
            SaveFault::NoDevice(line) => *line,
        }
    }
}

impl From<NoMemory> for SaveFault {
    ghost from_gives = { λ _ e. e ≡ WantsMemory };

    fn from(_: NoMemory) -> SaveFault {
        SaveFault::NoMemory
    }
}

impl<T: Drop> From<AllocFailed<T>> for SaveFault {
    ghost from_gives = { λ _ e. e ≡ WantsMemory };

    fn from(_: AllocFailed<T>) -> SaveFault {
        SaveFault::NoMemory
    }
}
