//! Single calls of a disk, with what each leaves whether it fails or not.

ghost use Rattle.std.specs.Prelude.{◌≡◌, ◌+◌, ◌-◌, ◌^◌, ◌<◌, ◌≤◌, OnOk, OnErr, length, min, option_map};
ghost use Rattle.zj_dev.specs.Fault.{Rose};
ghost use Rattle.zj_dev.specs.Disk.{Continues, IsDisk, IsSettled, StaysSince, TearsSince, replaced};

use crate::disk::{Disk, DiskFailed};
use thiserror::Error;

/// A device failed, and its count of faults rose.
#[derive(Clone, Copy, Debug, PartialEq, Eq, Error)]
#[error("disk")]
pub struct DiskFault;

impl From<DiskFailed> for DiskFault {
    fn from(_error: DiskFailed) -> DiskFault {
        DiskFault
    }
}

/// Writes the piece. Until the next sync a crash may leave any bytes in its range, also where it failed.
pub fn write_at<D: Disk>(d: &mut D, at: u64, piece: &[u8]) -> Result<(), DiskFault>
    requires within { at + length piece.now ≤ (D.view d.old).size }
    requires is_disk { IsDisk (D.view d.old) }
    ensures bytes { OnOk result ((D.view d.new).bytes ≡ option_map (λ bytes. replaced bytes at piece.now) (D.view d.old).bytes) }
    ensures torn { TearsSince at (length piece.now) (D.view d.old) (D.view d.new) }
    ensures calls { (D.view d.new).calls ≡ min ((D.view d.old).calls + 1) (2 ^ 64 - 1) }
    ensures early { OnOk result ((D.view d.old).calls < 2 ^ 63) }
    ensures continues { Continues (D.view d.old) (D.view d.new) }
    ensures is_disk { IsDisk (D.view d.new) }
    ensures quiet { OnOk result ((D.view d.new).faults ≡ (D.view d.old).faults) }
    ensures cause { OnErr result (Rose (D.view d.old).faults (D.view d.new).faults) }
{
    d.write(at, piece)?;
    Ok(())
}

/// Makes all that was written outlast a crash. A crash leaves nothing that it could not leave before.
pub fn sync<D: Disk>(d: &mut D) -> Result<(), DiskFault>
    requires { IsDisk (D.view d.old) }
    ensures settled { OnOk result (IsSettled (D.view d.new)) }
    ensures bytes { (D.view d.new).bytes ≡ (D.view d.old).bytes }
    ensures stays { StaysSince (D.view d.old) (D.view d.new) }
    ensures calls { (D.view d.new).calls ≡ min ((D.view d.old).calls + 1) (2 ^ 64 - 1) }
    ensures early { OnOk result ((D.view d.old).calls < 2 ^ 63) }
    ensures continues { Continues (D.view d.old) (D.view d.new) }
    ensures is_disk { IsDisk (D.view d.new) }
    ensures quiet { OnOk result ((D.view d.new).faults ≡ (D.view d.old).faults) }
    ensures cause { OnErr result (Rose (D.view d.old).faults (D.view d.new).faults) }
{
    d.sync()?;
    Ok(())
}
