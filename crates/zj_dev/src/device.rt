//! The devices of a file system, and the names that they stand under.

ghost use Rattle.std.specs.Prelude.{◌≡◌, IfOk, string_bytes};

use std::alloc::{AllocError, Global};
use std::fmt;

/// A device: home, or the journal of the core with that number.
#[derive(Clone, Copy, Debug, PartialEq, Eq)]
pub enum Device {
    Home,
    Journal(u32),
}

impl Device {
    ghost use Rattle.zj_dev.specs.Device.{device_name};

    /// The device's name: `home`, or `j` and the core's number in decimal.
    pub fn name(&self, alloc: Global) -> Result<String, AllocError>
        ensures { IfOk result (λ name. string_bytes name ≡ device_name self.now) }
    {
        self.to_string(alloc)
    }
}

impl fmt::Display for Device {
    ghost use Rattle.std.specs.Prelude.{Some};
    ghost use Rattle.zj_dev.specs.Device.{device_name};

    ghost output = { λ device. Some (device_name device) };

    fn fmt<W: fmt::Write>(&self, f: &mut fmt::Formatter<W>) -> fmt::Result {
        match self {
            Device::Home => write!(f, "home"),
            Device::Journal(core) => write!(f, "j{core}"),
        }
    }
}
