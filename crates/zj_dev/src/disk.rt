//! Disks: what a read gives, what a crash may leave, and when a fault may be answered.

ghost use Rattle.std.specs.Prelude.{◌≡◌, ◌+◌, ◌^◌, ◌≤◌, length, slice_range, IsErr, OnOk, OnErr, IfSome};
ghost use Rattle.zj_dev.specs.Fault.{Rose};
ghost use Rattle.zj_dev.specs.Disk.{DiskView, IsDisk, LeavesAll, Writes, FailsToWrite, Syncs, FailsToSync};

use thiserror::Error;

/// A read, a write or a sync failed, and the disk's count of faults rose.
#[derive(Clone, Copy, Debug, PartialEq, Eq, Error)]
#[error("a disk failed")]
pub struct DiskFailed;

/// A device of a fixed number of bytes, which a crash may tear between two syncs.
///
/// A moment is a number of calls made. A crash within a call leaves what one at the moment before it or
/// after it may leave. From 2^63 calls on every call fails. A call that answers Ok leaves the count of
/// faults.
pub trait Disk {
    /// What the disk tells of itself.
    ghost view: { Self → DiskView };

    /// How many bytes the device has. It never changes.
    fn len(&self) -> u64
        ensures len { result ≡ (view self.now).size }
        ensures is_disk { IsDisk (view self.now) };

    /// How many reads, writes and syncs were asked: the moment that it is.
    fn calls(&self) -> u64
        ensures { result ≡ (view self.now).calls };

    /// Fills `into` with the bytes from `at` on. After `DiskFailed` it may hold anything. The device stays
    /// as it was, and so does what is pending on it.
    fn read(&mut self, at: u64, into: &mut [u8]) -> Result<(), DiskFailed>
        requires { at + length into.old ≤ (view self.old).size }
        ensures given { OnOk result (IfSome (view self.old).bytes (λ bytes. into.new ≡ slice_range bytes at (at + length into.old))) }
        ensures left { LeavesAll (view self.old) (view self.new) }
        ensures quiet { OnOk result ((view self.new).faults ≡ (view self.old).faults) }
        ensures cause { OnErr result (Rose (view self.old).faults (view self.new).faults) }
        ensures late { 2 ^ 63 ≤ (view self.old).calls → IsErr result };

    /// Writes the piece from `at` on. Until the next sync a crash may leave any bytes in that range; after
    /// `DiskFailed` it may hold anything for a read too. All else stays.
    fn write(&mut self, at: u64, bytes: &[u8]) -> Result<(), DiskFailed>
        requires { at + length bytes.now ≤ (view self.old).size }
        ensures ok { OnOk result (Writes at bytes.now (view self.old) (view self.new)) }
        ensures err { OnErr result (FailsToWrite at (length bytes.now) (view self.old) (view self.new)) }
        ensures quiet { OnOk result ((view self.new).faults ≡ (view self.old).faults) }
        ensures cause { OnErr result (Rose (view self.old).faults (view self.new).faults) }
        ensures late { 2 ^ 63 ≤ (view self.old).calls → IsErr result };

    /// Makes all that was written outlast a crash. After `DiskFailed` what was pending may be pending still:
    /// a crash leaves nothing that it could not leave before.
    fn sync(&mut self) -> Result<(), DiskFailed>
        ensures ok { OnOk result (Syncs (view self.old) (view self.new)) }
        ensures err { OnErr result (FailsToSync (view self.old) (view self.new)) }
        ensures quiet { OnOk result ((view self.new).faults ≡ (view self.old).faults) }
        ensures cause { OnErr result (Rose (view self.old).faults (view self.new).faults) }
        ensures late { 2 ^ 63 ≤ (view self.old).calls → IsErr result };
}
