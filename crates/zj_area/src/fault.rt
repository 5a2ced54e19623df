//! Why a journal was not read.

ghost use Rattle.std.specs.Prelude.{◌≡◌};
ghost use Rattle.zj_area.specs.declared.fault.ScanFault.TheVariants as faults;

use std::alloc::AllocError;
use thiserror::Error;
use zj_dev::DiskFault;

/// Why a journal was not read.
#[derive(Clone, Copy, Debug, PartialEq, Eq, Error)]
pub enum ScanFault {
    /// The device failed, and its count of faults rose.
    #[error("disk")]
    DiskFault,
    /// A gate is open, and no record stands behind it that is due there.
    #[error("damaged at {at} found {found} expected {expected}")]
    Damaged {
        /// Where the number stands that is not as expected, in bytes from the start of the device.
        at: u64,
        /// The number.
        found: u64,
        /// What was expected: that number, or the nearest one that is accepted.
        expected: u64,
    },
    /// There was no memory.
    #[error("memory")]
    NoMemory,
}

impl From<AllocError> for ScanFault {
    ghost from_gives = { λ _ fault. fault ≡ faults.NoMemory };

    fn from(_error: AllocError) -> ScanFault {
        ScanFault::NoMemory
    }
}

impl From<DiskFault> for ScanFault {
    ghost from_gives = { λ _ fault. fault ≡ faults.DiskFault };

    fn from(_error: DiskFault) -> ScanFault {
        ScanFault::DiskFault
    }
}
