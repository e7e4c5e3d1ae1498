ghost use Rattle.std.specs.Prelude.{◌≡◌, ◌≤◌, length};
ghost use Rattle.lvdc_macro.specs.declared.fault.MacroFault.TheVariants.{NoMemory as WantsMemory};

use lvdc_word::NoMemory;
use std::alloc::{AllocError, AllocFailed};
use thiserror::Error;

/// Why a source can't be expanded. Each cause but the want of memory names the source line of the first refusal, counted from 1:
/// the outermost call for what stands in a body.
#[derive(Clone, Copy, Debug, Error)]
pub enum MacroFault {
    /// There was no memory for the expansion.
    #[error("no memory")]
    NoMemory,
    /// A macro isn't defined as it must be, or a call has a label or too many arguments.
    #[error("the macro or the call on line {0} is wrong")]
    BadMacro(u32),
    /// A call stands in too many others.
    #[error("the calls of line {0} are too deep")]
    TooDeep(u32),
    /// There are too many calls.
    #[error("the calls up to line {0} are too many")]
    TooManyCalls(u32),
    /// The expansion has too many bytes.
    #[error("the expansion of line {0} is too long")]
    ExpansionTooLong(u32),
}

impl MacroFault {
    ghost use Rattle.lvdc_macro.specs.Faults.{name_of, line_of};

    /// The name of the cause, as a refusal tells it.
    pub fn name(&self) -> &'static [u8]
        ensures name { result.now ≡ name_of self.now }
        ensures short { length result.now ≤ 16 }
    {
        match self {
            MacroFault::NoMemory => b"NoMemory",
            MacroFault::BadMacro(_) => b"BadMacro",
            MacroFault::TooDeep(_) => b"TooDeep",
            MacroFault::TooManyCalls(_) => b"TooManyCalls",
            MacroFault::ExpansionTooLong(_) => b"ExpansionTooLong",
        }
    }

    /// The line of the refusal, counted from 1; 0 where there was no memory.
    pub fn line(&self) -> u32
        ensures { result ≡ line_of self.now }
    {
        match self {
            MacroFault::NoMemory => 0,
            MacroFault::BadMacro(line) => *line,
            MacroFault::TooDeep(line) => *line,
            MacroFault::TooManyCalls(line) => *line,
            MacroFault::ExpansionTooLong(line) => *line,
        }
    }
}

impl From<NoMemory> for MacroFault {
    ghost from_gives = { λ _ e. e ≡ WantsMemory };

    fn from(_: NoMemory) -> MacroFault {
        MacroFault::NoMemory
    }
}

impl From<AllocError> for MacroFault {
    ghost from_gives = { λ _ e. e ≡ WantsMemory };

    fn from(_: AllocError) -> MacroFault {
        MacroFault::NoMemory
    }
}

impl<T: Drop> From<AllocFailed<T>> for MacroFault {
    ghost from_gives = { λ _ e. e ≡ WantsMemory };

    fn from(_: AllocFailed<T>) -> MacroFault {
        MacroFault::NoMemory
    }
}
