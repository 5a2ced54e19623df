//! Reading from a device.

ghost use Rattle.std.specs.Prelude.{◌≡◌, ◌+◌, ◌^◌, ◌<◌, ◌≤◌, OnOk, OnErr, IfSome, length, slice_range};
ghost use Rattle.zj_dev.specs.Fault.{Rose};
ghost use Rattle.zj_dev.specs.Disk.{IsDisk, OnlyReads};

use zj_dev::{Disk, DiskFault};

/// Fills the piece with the bytes from a place on. An empty piece takes no call.
#[tactic(auto, using(zj_dev::proofs::DiskLaws::reads_once, zj_dev::proofs::DiskLaws::reads_refl))]
pub fn read_at<D: Disk>(d: &mut D, at: u64, into: &mut [u8]) -> Result<(), DiskFault>
    requires within { at + length into.old ≤ (D.view d.old).size }
    requires is_disk { IsDisk (D.view d.old) }
    ensures given { OnOk result (IfSome (D.view d.old).bytes (λ bytes. into.new ≡ slice_range bytes at (at + length into.new))) }
    ensures read_only { OnlyReads (D.view d.old) (D.view d.new) }
    ensures is_disk { IsDisk (D.view d.new) }
    ensures cause { OnErr result (Rose (D.view d.old).faults (D.view d.new).faults) }
    ensures counted { OnOk result (1 ≤ length into.old → ((D.view d.old).calls < 2 ^ 63) × ((D.view d.old).calls + 1 ≤ (D.view d.new).calls)) }
    ensures calls_at_most { (D.view d.new).calls ≤ (D.view d.old).calls + 1 }
{
    if into.is_empty() {
        return Ok(());
    }
    d.read(at, into)?;
    Ok(())
}
