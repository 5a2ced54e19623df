//! Why a home device was not made, opened or read.

ghost use Rattle.std.specs.Prelude.{◌≡◌};
ghost use Rattle.zj_home.specs.declared.fault.HomeFault.TheVariants as faults;

use std::alloc::AllocError;
use thiserror::Error;
use zj_dev::{DiskFailed, DiskFault};

/// Why a device was not made a home, or not opened as one.
#[derive(Clone, Copy, Debug, PartialEq, Eq, Error)]
pub enum HomeFault {
    /// The device failed, and its count of faults rose.
    #[error("disk")]
    DiskFault,
    /// The bytes are no home's: the first byte that tells it is the one at this place.
    #[error("notanimage at {at}")]
    NotAnImage { at: u64 },
    /// The home is of another version of the format.
    #[error("version found {found}")]
    Version { found: u32 },
    /// The device has another length, in bytes, than its home.
    #[error("sizes found {found} expected {expected}")]
    Sizes { found: u64, expected: u64 },
    /// There was no memory.
    #[error("memory")]
    NoMemory,
}

impl From<AllocError> for HomeFault {
    ghost from_gives = { λ _ fault. fault ≡ faults.NoMemory };

    fn from(_error: AllocError) -> HomeFault {
        HomeFault::NoMemory
    }
}

impl From<DiskFailed> for HomeFault {
    ghost from_gives = { λ _ fault. fault ≡ faults.DiskFault };

    fn from(_error: DiskFailed) -> HomeFault {
        HomeFault::DiskFault
    }
}

impl From<DiskFault> for HomeFault {
    ghost from_gives = { λ _ fault. fault ≡ faults.DiskFault };

    fn from(_error: DiskFault) -> HomeFault {
        HomeFault::DiskFault
    }
}

/// A device that was not made a home or not opened as one, and why.
#[derive(Debug, Drop)]
pub struct HomeRefused<D> {
    /// The device, given back.
    pub device: D,
    /// Why.
    pub fault: HomeFault,
}
