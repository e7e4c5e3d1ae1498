ghost use Rattle.std.specs.Prelude.{◌≡◌, ◌≤◌, length};
ghost use Rattle.lvdc_deck.specs.declared.fault.DeckFault.TheVariants.{NoMemory as WantsMemory};

use lvdc_asm::AsmFault;
use lvdc_image::ImageFault;
use lvdc_word::NoMemory;
use std::alloc::{AllocError, AllocFailed};
use thiserror::Error;

/// Why bytes are no deck: the first refusal, and its line.
#[derive(Clone, Copy, Debug, Error)]
pub enum DeckFault {
    /// There was no memory for what the deck says.
    #[error("no memory")]
    NoMemory,
    /// A section is missing, out of order or not closed.
    #[error("line {0} is out of its section")]
    BadSection(u32),
    /// The line has not the form that its section asks for, or has above 120 bytes.
    #[error("line {0} has a wrong form")]
    BadLine(u32),
    /// The first line is neither IMAGE nor SOURCE.
    #[error("line {0} begins no program")]
    NoProgram(u32),
    /// No device of the kind that is asked for is at that port, or an earlier line unplugs it.
    #[error("line {0} names no device")]
    NoDevice(u32),
    /// The script has more than 65,536 events.
    #[error("the event on line {0} is one too many")]
    TooManyEvents(u32),
    /// More than 1,000,000 instruction times are asked for.
    #[error("the count on line {0} is too large")]
    CountTooLarge(u32),
    /// The program is no image.
    #[error(transparent)]
    Image(ImageFault),
    /// The program is no source that can be assembled, or START names no line of code of it.
    #[error(transparent)]
    Asm(AsmFault),
}

impl DeckFault {
    ghost use Rattle.lvdc_deck.specs.Faults.{name_of, line_of};

    /// The name of the cause, as a refusal tells it; that of an image or of a source is told by its own.
    pub fn name(&self) -> &'static [u8]
        ensures name { result.now ≡ name_of self.now }
        ensures short { length result.now ≤ 16 }
    {
        match self {
            DeckFault::NoMemory => b"NoMemory",
            DeckFault::BadSection(_) => b"BadSection",
            DeckFault::BadLine(_) => b"BadLine",
            DeckFault::NoProgram(_) => b"NoProgram",
            DeckFault::NoDevice(_) => b"NoDevice",
            DeckFault::TooManyEvents(_) => b"TooManyEvents",
            DeckFault::CountTooLarge(_) => b"CountTooLarge",
            DeckFault::Image(fault) => fault.name(),
            DeckFault::Asm(fault) => fault.name(),
        }
    }

    /// The line of the refusal, counted from 1; 0 where there was no memory.
    pub fn line(&self) -> u32
        ensures { result ≡ line_of self.now }
    {
        match self {
            DeckFault::NoMemory => 0,
            DeckFault::BadSection(line) => *line,
            DeckFault::BadLine(line) => *line,
            DeckFault::NoProgram(line) => *line,
            DeckFault::NoDevice(line) => *line,
            DeckFault::TooManyEvents(line) => *line,
            DeckFault::CountTooLarge(line) => *line,
            DeckFault::Image(fault) => fault.line(),
            DeckFault::Asm(fault) => fault.line(),
        }
    }
}

impl From<NoMemory> for DeckFault {
    ghost from_gives = { λ _ e. e ≡ WantsMemory };

    fn from(_: NoMemory) -> DeckFault {
        DeckFault::NoMemory
    }
}

impl From<AllocError> for DeckFault {
    ghost from_gives = { λ _ e. e ≡ WantsMemory };

    fn from(_: AllocError) -> DeckFault {
        DeckFault::NoMemory
    }
}

impl<T: Drop> From<AllocFailed<T>> for DeckFault {
    ghost from_gives = { λ _ e. e ≡ WantsMemory };

    fn from(_: AllocFailed<T>) -> DeckFault {
        DeckFault::NoMemory
    }
}
