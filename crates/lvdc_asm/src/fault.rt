ghost use Rattle.std.specs.Prelude.{◌≡◌, ◌≤◌, length};
ghost use Rattle.lvdc_asm.specs.Faults.{of_source, of_place};
ghost use Rattle.lvdc_asm.specs.declared.fault.AsmFault.TheVariants.{NoMemory as WantsMemory};

use lvdc_place::PlaceFault;
use lvdc_source::SourceFault;
use lvdc_word::NoMemory;
use std::alloc::{AllocError, AllocFailed};
use thiserror::Error;

/// Why a text is no source that can be assembled. Each cause but the want of memory names the line of the first refusal,
/// counted from 1.
#[derive(Clone, Copy, Debug, Error)]
pub enum AsmFault {
    /// There was no memory for what is assembled.
    #[error("no memory")]
    NoMemory,
    /// The text isn't of the grammar. Want of memory is never told so.
    #[error("{0}")]
    Source(SourceFault),
    /// A block can't be placed, or a literal has no room. Want of memory is never told so.
    #[error("{0}")]
    Place(PlaceFault),
    /// The line defines a name that a line before it defines.
    #[error("the name on line {0} is defined already")]
    DuplicateName(u32),
    /// No line defines the name.
    #[error("the name that line {0} uses isn't defined")]
    UndefinedName(u32),
    /// A number is too large for what it stands for, or a place lies past location 377.
    #[error("the operand on line {0} is out of range")]
    OutOfRange(u32),
    /// The name can't be reached from the line, or it isn't that of a line of code.
    #[error("the name that line {0} uses is out of its sector")]
    OutOfSector(u32),
}

impl AsmFault {
    ghost use Rattle.lvdc_asm.specs.Faults.{name_of, line_of};

    /// The name of the cause, as a refusal tells it; that of a layer below is told by its own.
    pub fn name(&self) -> &'static [u8]
        ensures name { result.now ≡ name_of self.now }
        ensures short { length result.now ≤ 16 }
    {
        match self {
            AsmFault::NoMemory => b"NoMemory",
            AsmFault::DuplicateName(_) => b"DuplicateName",
            AsmFault::UndefinedName(_) => b"UndefinedName",
            AsmFault::OutOfRange(_) => b"OutOfRange",
            AsmFault::OutOfSector(_) => b"OutOfSector",
            AsmFault::Source(fault) => fault.name(),
            AsmFault::Place(fault) => fault.name(),
        }
    }

    /// The line of the refusal, counted from 1; 0 where there was no memory.
    pub fn line(&self) -> u32
        ensures { result ≡ line_of self.now }
    {
        match self {
            AsmFault::NoMemory => 0,
            AsmFault::DuplicateName(line) => *line,
            AsmFault::UndefinedName(line) => *line,
            AsmFault::OutOfRange(line) => *line,
            AsmFault::OutOfSector(line) => *line,
            AsmFault::Source(fault) => fault.line(),
            AsmFault::Place(fault) => fault.line(),
        }
    }
}

impl From<NoMemory> for AsmFault {
    ghost from_gives = { λ _ e. e ≡ WantsMemory };

    fn from(_: NoMemory) -> AsmFault {
        AsmFault::NoMemory
    }
}

impl From<AllocError> for AsmFault {
    ghost from_gives = { λ _ e. e ≡ WantsMemory };

    fn from(_: AllocError) -> AsmFault {
        AsmFault::NoMemory
    }
}

impl<T: Drop> From<AllocFailed<T>> for AsmFault {
    ghost from_gives = { λ _ e. e ≡ WantsMemory };

    fn from(_: AllocFailed<T>) -> AsmFault {
        AsmFault::NoMemory
    }
}

impl From<SourceFault> for AsmFault {
    ghost from_gives = { λ f e. e ≡ of_source f };

    fn from(fault: SourceFault) -> AsmFault {
        match fault {
            SourceFault::NoMemory => AsmFault::NoMemory,
            fault => AsmFault::Source(fault),
        }
    }
}

impl From<PlaceFault> for AsmFault {
    ghost from_gives = { λ f e. e ≡ of_place f };

    fn from(fault: PlaceFault) -> AsmFault {
        match fault {
            PlaceFault::NoMemory => AsmFault::NoMemory,
            fault => AsmFault::Place(fault),
        }
    }
}
