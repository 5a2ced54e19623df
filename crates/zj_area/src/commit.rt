//! The device calls of a commit.

ghost use Rattle.std.specs.Prelude.{◌≡◌, ◌+◌, ◌^◌, ◌<◌, ◌≤◌, [], ◌∷◌, OnOk, OnErr, length, drop, option_map, slice_index};
ghost use Rattle.zj_dev.specs.Fault.{Rose};
ghost use Rattle.zj_dev.specs.Disk.{Continues, EachImageSince, IsDisk, IsSettled, replaced};
ghost use Rattle.zj_tx.specs.Record.{record_bytes};
ghost use Rattle.zj_area.specs.Moments.{TornByGate, TornByLay};

use zj_dev::{Disk, DiskFault, sync, write_at};
use zj_tx::laws::gate_is_open;
use zj_tx::{Sealed, encode};

/// The byte of a gate that is open.
pub const OPEN: u8 = 1;

/// The byte of a gate that is closed.
const CLOSED: u8 = 0;

/// Lays a record at a place: all of it but its gate, and then the closed gate of the record that will
/// follow it. Both outlast a crash once it answers Ok.
pub fn lay_at<D: Disk>(d: &mut D, place: u64, spelled: &[u8], next: u64) -> Result<(), DiskFault>
    requires is_disk { IsDisk (D.view d.old) }
    requires small { place < 2 ^ 63 }
    requires some { 1 ≤ length spelled.now }
    requires within { place + length spelled.now ≤ (D.view d.old).size }
    requires next_within { next + 1 ≤ (D.view d.old).size }
    ensures bytes { OnOk result ((D.view d.new).bytes ≡ option_map (λ bytes. replaced (replaced bytes (place + 1) (drop 1 spelled.now)) next (0 ∷ [])) (D.view d.old).bytes) }
    ensures settled { OnOk result (IsSettled (D.view d.new)) }
    ensures moments { EachImageSince (D.view d.old).calls (D.view d.new) (TornByLay place (length spelled.now) next (D.view d.old)) }
    ensures continues { Continues (D.view d.old) (D.view d.new) }
    ensures is_disk { IsDisk (D.view d.new) }
    ensures calls { OnOk result ((D.view d.new).calls ≡ (D.view d.old).calls + 3) }
    ensures calls_at_most { (D.view d.new).calls ≤ (D.view d.old).calls + 3 }
    ensures cause { OnErr result (Rose (D.view d.old).faults (D.view d.new).faults) }
{
    write_at(d, place + 1, &spelled[1..])?;
    write_at(d, next, &[CLOSED])?;
    sync(d)
}

/// Lays the record of a transaction at a place, as `lay_at` does. It is spelled in the buffer.
pub fn lay_record<D: Disk>(
    d: &mut D,
    buffer: &mut [u8],
    sealed: &Sealed,
    place: u64,
    next: u64,
) -> Result<(), DiskFault>
    requires is_disk { IsDisk (D.view d.old) }
    requires small { place < 2 ^ 63 }
    requires room { length (record_bytes sealed.now) ≤ length buffer.old }
    requires within { place + length (record_bytes sealed.now) ≤ (D.view d.old).size }
    requires next_within { next + 1 ≤ (D.view d.old).size }
    ensures bytes { OnOk result ((D.view d.new).bytes ≡ option_map (λ bytes. replaced (replaced bytes (place + 1) (drop 1 (record_bytes sealed.now))) next (0 ∷ [])) (D.view d.old).bytes) }
    ensures settled { OnOk result (IsSettled (D.view d.new)) }
    ensures moments { EachImageSince (D.view d.old).calls (D.view d.new) (TornByLay place (length (record_bytes sealed.now)) next (D.view d.old)) }
    ensures continues { Continues (D.view d.old) (D.view d.new) }
    ensures is_disk { IsDisk (D.view d.new) }
    ensures gate { slice_index (record_bytes sealed.now) 0 ≡ 1 }
    ensures calls { OnOk result ((D.view d.new).calls ≡ (D.view d.old).calls + 3) }
    ensures calls_at_most { (D.view d.new).calls ≤ (D.view d.old).calls + 3 }
    ensures cause { OnErr result (Rose (D.view d.old).faults (D.view d.new).faults) }
{
    gate_is_open();
    let _len = sealed.record_len();
    let len = encode(sealed, buffer);
    lay_at(d, place, &buffer[..len], next)
}

/// Opens the gate at a place. It outlasts a crash once it answers Ok.
pub fn open_at<D: Disk>(d: &mut D, place: u64) -> Result<(), DiskFault>
    requires is_disk { IsDisk (D.view d.old) }
    requires within { place + 1 ≤ (D.view d.old).size }
    ensures bytes { OnOk result ((D.view d.new).bytes ≡ option_map (λ bytes. replaced bytes place (1 ∷ [])) (D.view d.old).bytes) }
    ensures settled { OnOk result (IsSettled (D.view d.new)) }
    ensures moments { EachImageSince (D.view d.old).calls (D.view d.new) (TornByGate place (D.view d.old)) }
    ensures continues { Continues (D.view d.old) (D.view d.new) }
    ensures is_disk { IsDisk (D.view d.new) }
    ensures counted { OnOk result (((D.view d.old).calls < 2 ^ 63) × ((D.view d.old).calls + 1 ≤ (D.view d.new).calls)) }
    ensures calls { OnOk result ((D.view d.new).calls ≡ (D.view d.old).calls + 2) }
    ensures calls_at_most { (D.view d.new).calls ≤ (D.view d.old).calls + 2 }
    ensures cause { OnErr result (Rose (D.view d.old).faults (D.view d.new).faults) }
{
    write_at(d, place, &[OPEN])?;
    sync(d)
}
