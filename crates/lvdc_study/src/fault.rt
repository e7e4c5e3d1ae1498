ghost use Rattle.std.specs.Prelude.{◌≡◌};
ghost use Rattle.lvdc_study.specs.declared.fault.Unstudied.TheVariants.{NoMemory as WantsMemory};

use lvdc_word::NoMemory;
use std::alloc::{AllocError, AllocFailed};
use thiserror::Error;

/// Why there is no row.
#[derive(Clone, Copy, Debug, PartialEq, Eq, Error)]
pub enum Unstudied {
    /// There was no memory.
    #[error("no memory")]
    NoMemory,
    /// The device at this port failed in an exchange of a run.
    #[error("the device at port {0} failed")]
    Device(u8),
}

impl From<NoMemory> for Unstudied {
    ghost from_gives = { λ _ e. e ≡ WantsMemory };

    fn from(_: NoMemory) -> Unstudied {
        Unstudied::NoMemory
    }
}

impl From<AllocError> for Unstudied {
    ghost from_gives = { λ _ e. e ≡ WantsMemory };

    fn from(_: AllocError) -> Unstudied {
        Unstudied::NoMemory
    }
}

impl<T: Drop> From<AllocFailed<T>> for Unstudied {
    ghost from_gives = { λ _ e. e ≡ WantsMemory };

    fn from(_: AllocFailed<T>) -> Unstudied {
        Unstudied::NoMemory
    }
}
