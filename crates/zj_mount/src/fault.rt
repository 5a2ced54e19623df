//! Why the devices of an image were not opened, not closed or not mounted.

use std::alloc::AllocError;
use thiserror::Error;
use zj_dev::Device;
use zj_layout::TreeFault;

/// Why the devices of an image were not opened. All that were taken out of their shelf are back in it.
#[derive(Clone, Copy, Debug, PartialEq, Eq, Error)]
pub enum OpenFault {
    /// No such device is at hand.
    #[error("absent {device}")]
    Absent {
        /// The device.
        device: Device,
    },
    /// Home is no home: the first byte that tells it is the one at this place.
    #[error("notanimage at {at}")]
    NotAnImage {
        /// In bytes from the start of home.
        at: u64,
    },
    /// Home is of another version of the format.
    #[error("version found {found}")]
    Version {
        /// The version.
        found: u32,
    },
    /// The device has another length, in bytes, than the image says.
    #[error("sizes {device} found {found} expected {expected}")]
    Sizes {
        /// The device.
        device: Device,
        /// Its length.
        found: u64,
        /// What the image says.
        expected: u64,
    },
    /// The device failed, and its count of faults rose.
    #[error("disk {device}")]
    DiskFault {
        /// The device.
        device: Device,
    },
    /// The shelf failed to open the device, and the shelf's count of faults rose.
    #[error("shelf {device}")]
    ShelfFault {
        /// The device.
        device: Device,
    },
    /// There was no memory.
    #[error("memory")]
    NoMemory,
}

/// A shelf failed to close a device, and the shelf's count of faults rose. The device is back in any case.
#[derive(Clone, Copy, Debug, PartialEq, Eq, Error)]
#[error("shelf {device}")]
pub struct CloseFault {
    /// The first such device.
    pub device: Device,
}

/// Why an image was not mounted. No device was written.
#[derive(Clone, Copy, Debug, PartialEq, Eq, Error)]
pub enum MountFault {
    /// The device failed, and its count of faults rose. What was opened is to be opened again.
    #[error("disk {device}")]
    DiskFault {
        /// The device.
        device: Device,
    },
    /// A gate of the journal is open, and no record stands behind it that is due there.
    #[error("damaged {device} at {at} found {found} expected {expected}")]
    Damaged {
        /// The journal.
        device: Device,
        /// Where the number stands that is not as expected, in bytes from the start of the device.
        at: u64,
        /// The number.
        found: u64,
        /// What was expected: that number, or the nearest one that is accepted.
        expected: u64,
    },
    /// The blocks of home show no tree.
    #[error("notree rule {rule} block {block}")]
    NoTree {
        /// The first rule that they break.
        rule: u32,
        /// The lowest block at which they break it.
        block: u32,
    },
    /// The journal holds a record, which can't be replayed yet.
    #[error("unbuilt {device}")]
    Unbuilt {
        /// The lowest such journal.
        device: Device,
    },
    /// There was no memory.
    #[error("memory")]
    NoMemory,
}

impl From<AllocError> for MountFault {
    ghost use Rattle.std.specs.Prelude.{◌≡◌};
    ghost use Rattle.zj_mount.specs.declared.fault.MountFault.TheVariants.{NoMemory};

    ghost from_gives = { λ _ fault. fault ≡ NoMemory };

    fn from(_error: AllocError) -> MountFault {
        MountFault::NoMemory
    }
}

impl From<TreeFault> for MountFault {
    ghost use Rattle.std.specs.Prelude.{◌≡◌};
    ghost use Rattle.zj_mount.specs.Mounting.{fault_of_tree};

    ghost from_gives = { λ fault told. told ≡ fault_of_tree fault };

    fn from(fault: TreeFault) -> MountFault {
        match fault {
            TreeFault::NoTree { rule, block } => MountFault::NoTree { rule, block },
            TreeFault::NoMemory => MountFault::NoMemory,
        }
    }
}
