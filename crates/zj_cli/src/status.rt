//! How a call of the tool ended.

ghost use Rattle.std.specs.Prelude.{◌≡◌, option_copied};

use crate::phase::Phase;
use std::alloc::AllocError;
use thiserror::Error;
use zj_dev::{Device, ReadFailed, WriteFailed};
use zj_mount::{CloseFault, MountFault, OpenFault};
use zj_script::ScriptFault;
use zj_session::Stopped;

/// Why an image is refused.
#[derive(Clone, Copy, Debug, PartialEq, Eq, Error)]
pub enum ImageFault {
    /// No such device is at hand.
    #[error("absent {device}")]
    Absent {
        device: Device,
    },
    /// A device of that name is there already, or something else has the name.
    #[error("exists {device}")]
    Exists {
        device: Device,
    },
    /// Home is no home: the first byte that tells it is the one at this place.
    #[error("notanimage at {at}")]
    NotAnImage {
        at: u64,
    },
    /// Home is of another version of the format.
    #[error("version found {found}")]
    Version {
        found: u32,
    },
    /// The device has another length, in bytes, than the image says.
    #[error("sizes {device} found {found} expected {expected}")]
    Sizes {
        device: Device,
        found: u64,
        expected: u64,
    },
    /// A gate of the journal is open, and no record stands behind it that is due there. It tells where a
    /// number stands that is not as expected, in bytes from the start of the device.
    #[error("damaged {device} at {at} found {found} expected {expected}")]
    Damaged {
        device: Device,
        at: u64,
        found: u64,
        expected: u64,
    },
    /// The blocks of home show no tree: a rule fails, and this is the lowest block at which it does.
    #[error("notree rule {rule} block {block}")]
    NoTree {
        rule: u32,
        block: u32,
    },
    /// The journal holds a record, and the image can't be played yet.
    #[error("unbuilt {device}")]
    Unbuilt {
        device: Device,
    },
}

/// Why a call of the tool ended before all was done.
#[derive(Clone, Copy, Debug, PartialEq, Eq, Error)]
pub enum Fault {
    /// The words name no command.
    #[error("words")]
    Words,
    /// The input is refused. The kind is the number of a `zj_script::Kind`; line and column count from 1.
    #[error("script line {line} column {column} kind {kind}")]
    Script { kind: u32, line: u32, column: u32 },
    /// The image is refused.
    #[error("image {0}")]
    Image(ImageFault),
    /// The device failed, or its shelf did.
    #[error("device {device}")]
    Device { device: Device },
    /// It ran out of memory.
    #[error("memory")]
    Memory,
    /// The input failed.
    #[error("input")]
    Input,
    /// The output failed.
    #[error("output")]
    Output,
}

impl Fault {
    ghost use Rattle.std.specs.Prelude.{◌≡◌, Some};
    ghost use Rattle.zj_cli.specs.Tool.{code_of_fault};

    /// The exit status of a call that ends with it.
    pub fn code(&self) -> u8
        ensures { result ≡ code_of_fault (Some self.now) }
    {
        match self {
            Fault::Words => 1,
            Fault::Script { .. } => 2,
            Fault::Image(_) => 3,
            Fault::Device { .. } => 4,
            Fault::Memory => 5,
            Fault::Input => 6,
            Fault::Output => 7,
        }
    }
}

impl From<AllocError> for Fault {
    ghost use Rattle.std.specs.Prelude.{◌≡◌};
    ghost use Rattle.zj_cli.specs.declared.status.Fault.TheVariants.{Memory};

    ghost from_gives = { λ _ fault. fault ≡ Memory };

    fn from(_error: AllocError) -> Fault {
        Fault::Memory
    }
}

impl From<OpenFault> for Fault {
    ghost use Rattle.std.specs.Prelude.{◌≡◌};
    ghost use Rattle.zj_cli.specs.Faults.{fault_of_opening};

    ghost from_gives = { λ fault told. told ≡ fault_of_opening fault };

    fn from(fault: OpenFault) -> Fault {
        match fault {
            OpenFault::Absent { device } => Fault::Image(ImageFault::Absent { device }),
            OpenFault::NotAnImage { at } => Fault::Image(ImageFault::NotAnImage { at }),
            OpenFault::Version { found } => Fault::Image(ImageFault::Version { found }),
            OpenFault::Sizes {
                device,
                found,
                expected,
            } => Fault::Image(ImageFault::Sizes {
                device,
                found,
                expected,
            }),
            OpenFault::DiskFault { device } => Fault::Device { device },
            OpenFault::ShelfFault { device } => Fault::Device { device },
            OpenFault::NoMemory => Fault::Memory,
        }
    }
}

impl From<MountFault> for Fault {
    ghost use Rattle.std.specs.Prelude.{◌≡◌};
    ghost use Rattle.zj_cli.specs.Faults.{fault_of_mounting};

    ghost from_gives = { λ fault told. told ≡ fault_of_mounting fault };

    fn from(fault: MountFault) -> Fault {
        match fault {
            MountFault::DiskFault { device } => Fault::Device { device },
            MountFault::Damaged {
                device,
                at,
                found,
                expected,
            } => Fault::Image(ImageFault::Damaged {
                device,
                at,
                found,
                expected,
            }),
            MountFault::NoTree { rule, block } => Fault::Image(ImageFault::NoTree { rule, block }),
            MountFault::Unbuilt { device } => Fault::Image(ImageFault::Unbuilt { device }),
            MountFault::NoMemory => Fault::Memory,
        }
    }
}

impl From<CloseFault> for Fault {
    ghost use Rattle.std.specs.Prelude.{◌≡◌};
    ghost use Rattle.zj_cli.specs.declared.status.Fault.TheVariants.{Device};

    ghost from_gives = { λ fault told. told ≡ Device fault.device };

    fn from(fault: CloseFault) -> Fault {
        Fault::Device {
            device: fault.device,
        }
    }
}

impl From<ScriptFault> for Fault {
    ghost use Rattle.std.specs.Prelude.{◌≡◌};
    ghost use Rattle.zj_cli.specs.Faults.{fault_of_script};

    ghost from_gives = { λ fault told. told ≡ fault_of_script fault };

    fn from(fault: ScriptFault) -> Fault {
        match fault {
            ScriptFault::Refused { kind, line, column } => Fault::Script { kind, line, column },
            ScriptFault::NoMemory => Fault::Memory,
        }
    }
}

impl From<Stopped> for Fault {
    ghost use Rattle.std.specs.Prelude.{◌≡◌};
    ghost use Rattle.zj_cli.specs.Faults.{fault_of_stopping};

    ghost from_gives = { λ stopped told. told ≡ fault_of_stopping stopped };

    fn from(stopped: Stopped) -> Fault {
        match stopped {
            Stopped::Device(device) => Fault::Device { device },
            Stopped::Damaged {
                device,
                at,
                found,
                expected,
            } => Fault::Image(ImageFault::Damaged {
                device,
                at,
                found,
                expected,
            }),
        }
    }
}

impl From<ReadFailed> for Fault {
    ghost use Rattle.std.specs.Prelude.{◌≡◌};
    ghost use Rattle.zj_cli.specs.declared.status.Fault.TheVariants.{Input};

    ghost from_gives = { λ _ fault. fault ≡ Input };

    fn from(_error: ReadFailed) -> Fault {
        Fault::Input
    }
}

impl From<WriteFailed> for Fault {
    ghost use Rattle.std.specs.Prelude.{◌≡◌};
    ghost use Rattle.zj_cli.specs.declared.status.Fault.TheVariants.{Output};

    ghost from_gives = { λ _ fault. fault ≡ Output };

    fn from(_error: WriteFailed) -> Fault {
        Fault::Output
    }
}

/// The status of a call of the tool: its code, the fault where there was one, and the phases of its session.
#[derive(Debug, PartialEq, Eq, Drop)]
pub struct Status {
    fault: Option<Fault>,
    phases: Vec<Phase>,
}

impl Status {
    ghost use Rattle.std.specs.Prelude.{◌≡◌, length, option_copied, slice_get};
    ghost use Rattle.zj_cli.specs.Tool.{fault_of, code_of, phases_of};

    pub(crate) fn new(fault: Option<Fault>, phases: Vec<Phase>) -> Self
        ensures fault { fault_of result ≡ fault }
        ensures phases { phases_of result ≡ phases.items }
    {
        Status { fault, phases }
    }

    /// The exit status: 0 where all was done, and else the code of the fault.
    pub fn code(&self) -> u8
        ensures { result ≡ code_of self.now }
    {
        match &self.fault {
            None => 0,
            Some(fault) => fault.code(),
        }
    }

    /// The fault, where there was one.
    pub fn fault(&self) -> Option<&Fault>
        ensures { option_copied result ≡ fault_of self.now }
    {
        self.fault.as_ref()
    }

    /// How many phases there were, from the opening of an image to its closing.
    pub fn phases(&self) -> usize
        ensures { result ≡ length (phases_of self.now) }
    {
        self.phases.len()
    }

    /// The phase at a place, or `None` exactly from the end on. A mount comes first.
    pub fn phase(&self, i: usize) -> Option<&Phase>
        ensures { option_copied result ≡ slice_get (phases_of self.now) i }
    {
        self.phases.get(i)
    }
}
