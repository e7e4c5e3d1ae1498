ghost use Rattle.std.specs.Prelude.{◌≡◌, ◌≤◌, length};
ghost use Rattle.lvdc_image.specs.declared.fault.ImageFault.TheVariants.{NoMemory as WantsMemory};

use lvdc_word::NoMemory;
use std::alloc::AllocFailed;
use thiserror::Error;

/// Why lines tell no image. Each cause but the want of memory names the line of the first refusal.
#[derive(Clone, Copy, Debug, Error)]
pub enum ImageFault {
    /// There was no memory for the words.
    #[error("no memory")]
    NoMemory,
    /// The line has not the form that its place asks for, names a bank that isn't there, or `END` is missing there.
    #[error("line {0} has a wrong form")]
    BadImageLine(u32),
    /// The address doesn't come after the one before it.
    #[error("the address on line {0} is out of order")]
    AddressOrder(u32),
    /// The value doesn't fit 26 bits, or it is a start constant with the spare bit.
    #[error("the value on line {0} is no word")]
    BadWord(u32),
}

impl ImageFault {
    ghost use Rattle.lvdc_image.specs.Faults.{name_of, line_of};

    /// The name of the cause, as a refusal tells it.
    pub fn name(&self) -> &'static [u8]
        ensures name { result.now ≡ name_of self.now }
        ensures short { length result.now ≤ 12 }
    {
        match self {
            ImageFault::NoMemory => b"NoMemory",
            ImageFault::BadImageLine(_) => b"BadImageLine",
            ImageFault::AddressOrder(_) => b"AddressOrder",
            ImageFault::BadWord(_) => b"BadWord",
        }
    }

    /// The line of the refusal, counted from 1; 0 where there was no memory.
    pub fn line(&self) -> u32
        ensures { result ≡ line_of self.now }
    {
        match self {
            ImageFault::NoMemory => 0,
            ImageFault::BadImageLine(line) => *line,
            ImageFault::AddressOrder(line) => *line,
            ImageFault::BadWord(line) => *line,
        }
    }
}

impl From<NoMemory> for ImageFault {
    ghost from_gives = { λ _ e. e ≡ WantsMemory };

    fn from(_: NoMemory) -> ImageFault {
        ImageFault::NoMemory
    }
}

impl<T: Drop> From<AllocFailed<T>> for ImageFault {
    ghost from_gives = { λ _ e. e ≡ WantsMemory };

    fn from(_: AllocFailed<T>) -> ImageFault {
        ImageFault::NoMemory
    }
}
