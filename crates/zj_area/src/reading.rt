//! Reading the records of a journal.

ghost use Rattle.std.specs.Prelude.{◌≡◌, ◌+◌, ◌*◌, ◌^◌, ◌<◌, ◌≤◌, IfOk, IfErr, IfSome, IfNone, OnOk, OnErr, OnSome, length, slice_range, take};
ghost use Rattle.zj_block.specs.Sizes.{IsInLimits, max_record};
ghost use Rattle.zj_dev.specs.Fault.{Rose};
ghost use Rattle.zj_dev.specs.Disk.{IsDisk, OnlyReads};
ghost use Rattle.zj_tx.specs.Record.{Accepts};
ghost use Rattle.zj_area.specs.Ring.{Holds, IsOpenAt, IsPlace, HasRecordAt};
ghost use Rattle.zj_area.specs.Reading.{FitsBehind, IsRecordsCause, IsRecordCause, TellsLength, WasSeen, fault_placed, first_after};

use crate::commit::OPEN;
use crate::device::read_at;
use crate::fault::ScanFault;
use crate::ring::behind;
use std::alloc::Global;
use zj_block::{RECORD_BOUND_LEN, RECORD_HEAD_LEN, Sizes, Tail};
use zj_dev::{Disk, DiskFault};
use zj_tx::laws::{gate_is_open, one_spelling, spelling_length};
use zj_tx::{Found, RecordFault, Sealed, decode, len_from_head};

/// Where the number of a record stands in it.
const NUMBER_AT: u64 = 8;

#[tactic(auto, using(zj_dev::proofs::DiskLaws::reads_trans))]
/// Reads the record at a place into the buffer, if the gate there is open, and answers how many bytes it
/// has. First its head, which tells how many there are, and then the rest, so that no byte is read twice.
fn read_bytes<D: Disk>(
    d: &mut D,
    buffer: &mut [u8],
    sizes: &Sizes,
    place: u64,
) -> Result<Option<usize>, DiskFault>
    requires is_disk { IsDisk (D.view d.old) }
    requires size { (D.view d.old).size ≡ sizes.now.area }
    requires place { IsPlace sizes.now place }
    requires room { length buffer.old ≡ max_record sizes.now }
    ensures closed { IfOk result (λ found. IfNone found (IfSome (D.view d.old).bytes (λ image. IsOpenAt image place → ⊥))) }
    ensures open { IfOk result (λ found. IfSome found (λ len. IfSome (D.view d.old).bytes (λ image. IsOpenAt image place))) }
    ensures bytes { IfOk result (λ found. IfSome found (λ len. IfSome (D.view d.old).bytes (λ image. take len buffer.new ≡ slice_range image place (place + len)))) }
    ensures len { IfOk result (λ found. IfSome found (λ len. TellsLength sizes.now buffer.new len)) }
    ensures most { IfOk result (λ found. IfSome found (λ len. (RECORD_HEAD_LEN ≤ len) × (len ≤ max_record sizes.now))) }
    ensures read_only { OnlyReads (D.view d.old) (D.view d.new) }
    ensures is_disk { IsDisk (D.view d.new) }
    ensures counted { IfOk result (λ found. OnSome found (((D.view d.old).calls < 2 ^ 63) × ((D.view d.old).calls + 1 ≤ (D.view d.new).calls))) }
    ensures calls_at_most { (D.view d.new).calls ≤ (D.view d.old).calls + 2 }
    ensures calls_of_none { IfOk result (λ found. IfNone found ((D.view d.new).calls ≤ (D.view d.old).calls + 1)) }
    ensures cause { OnErr result (Rose (D.view d.old).faults (D.view d.new).faults) }
{
    let head = (RECORD_HEAD_LEN + RECORD_BOUND_LEN * u64::from(sizes.cores())) as usize;
    read_at(d, place, &mut buffer[..head])?;
    if buffer[0] != OPEN {
        return Ok(None);
    }
    let len = len_from_head(sizes, buffer);
    read_at(d, place + head as u64, &mut buffer[head..len])?;
    Ok(Some(len))
}

/// The record that is due, if the gate at its place is open.
fn read_record<D: Disk>(
    alloc: Global,
    d: &mut D,
    buffer: &mut [u8],
    sizes: &Sizes,
    core: u32,
    due: Tail,
) -> Result<Option<Sealed>, ScanFault>
    requires limits { IsInLimits sizes.now }
    requires is_disk { IsDisk (D.view d.old) }
    requires size { (D.view d.old).size ≡ sizes.now.area }
    requires core { core < sizes.now.cores }
    requires place { IsPlace sizes.now due.place }
    requires room { length buffer.old ≡ max_record sizes.now }
    ensures found { IfOk result (λ found. IfSome found (λ r. IfSome (D.view d.old).bytes (λ image. HasRecordAt sizes.now core image due r))) }
    ensures accepted { IfOk result (λ found. IfSome found (Accepts sizes.now core due.number)) }
    ensures closed { IfOk result (λ found. IfNone found (IfSome (D.view d.old).bytes (λ image. IsOpenAt image due.place → ⊥))) }
    ensures refused { IfErr result (IsRecordCause sizes.now core (D.view d.old) (D.view d.new) due) }
    ensures read_only { OnlyReads (D.view d.old) (D.view d.new) }
    ensures is_disk { IsDisk (D.view d.new) }
    ensures counted { IfOk result (λ found. OnSome found (((D.view d.old).calls < 2 ^ 63) × ((D.view d.old).calls + 1 ≤ (D.view d.new).calls))) }
    ensures calls_at_most { (D.view d.new).calls ≤ (D.view d.old).calls + 2 }
    ensures calls_of_none { IfOk result (λ found. IfNone found ((D.view d.new).calls ≤ (D.view d.old).calls + 1)) }
{
    spelling_length();
    let Some(_) = read_bytes(d, buffer, sizes, due.place)? else {
        return Ok(None);
    };
    match decode(alloc, sizes, core, due.number, buffer) {
        Ok(sealed) => Ok(Some(sealed)),
        Err(fault) => Err(placed(due.place, fault)),
    }
}

/// The fault of a record that stands at a place.
fn placed(place: u64, fault: RecordFault) -> ScanFault
    requires { FitsBehind place fault }
    ensures { result ≡ fault_placed place fault }
{
    match fault {
        RecordFault::Bad {
            at,
            found,
            expected,
        } => ScanFault::Damaged {
            at: place + at,
            found,
            expected,
        },
        RecordFault::NoMemory => ScanFault::NoMemory,
    }
}

/// The record that is due, if the gate at its place is open. `first` is the number of the record that was
/// read at the start of the ring, if it was: there no other number can be due again.
fn next_record<D: Disk>(
    alloc: Global,
    d: &mut D,
    buffer: &mut [u8],
    sizes: &Sizes,
    core: u32,
    due: Tail,
    first: Option<u64>,
) -> Result<Option<Sealed>, ScanFault>
    requires limits { IsInLimits sizes.now }
    requires is_disk { IsDisk (D.view d.old) }
    requires size { (D.view d.old).size ≡ sizes.now.area }
    requires core { core < sizes.now.cores }
    requires place { IsPlace sizes.now due.place }
    requires room { length buffer.old ≡ max_record sizes.now }
    requires seen { IfSome first (λ number. WasSeen sizes.now core (D.view d.old) due number) }
    ensures found { IfOk result (λ found. IfSome found (λ r. IfSome (D.view d.old).bytes (λ image. HasRecordAt sizes.now core image due r))) }
    ensures accepted { IfOk result (λ found. IfSome found (Accepts sizes.now core due.number)) }
    ensures closed { IfOk result (λ found. IfNone found (IfSome (D.view d.old).bytes (λ image. IsOpenAt image due.place → ⊥))) }
    ensures refused { IfErr result (IsRecordCause sizes.now core (D.view d.old) (D.view d.new) due) }
    ensures read_only { OnlyReads (D.view d.old) (D.view d.new) }
    ensures is_disk { IsDisk (D.view d.new) }
    ensures counted { IfOk result (λ found. OnSome found (((D.view d.old).calls < 2 ^ 63) × ((D.view d.old).calls + 1 ≤ (D.view d.new).calls))) }
    ensures calls_at_most { (D.view d.new).calls ≤ (D.view d.old).calls + 2 }
    ensures calls_of_none { IfOk result (λ found. IfNone found ((D.view d.new).calls ≤ (D.view d.old).calls + 1)) }
    ensures once { OnOk result (IfSome first (λ number. 0 < due.place)) }
{
    one_spelling();
    gate_is_open();
    if let Some(number) = first {
        if due.place == 0 {
            return Err(ScanFault::Damaged {
                at: NUMBER_AT,
                found: number,
                expected: due.number,
            });
        }
    }
    read_record(alloc, d, buffer, sizes, core, due)
}

/// The number of the record that was read at the start of the ring, if it was, after the one that is due.
fn first_after(first: Option<u64>, due: Tail) -> Option<u64>
    ensures { result ≡ first_after first due }
{
    if due.place == 0 {
        Some(due.number)
    } else {
        first
    }
}

/// The records of a journal from its tail on, and where the next one is due.
///
/// Each turn goes on in the ring, and the record at its start is read once, so reading ends whatever the
/// device gives.
pub fn read_records<D: Disk>(
    alloc: Global,
    d: &mut D,
    buffer: &mut [u8],
    sizes: &Sizes,
    core: u32,
    tail: Tail,
) -> Result<(Found, Tail), ScanFault>
    requires limits { IsInLimits sizes.now }
    requires is_disk { IsDisk (D.view d.old) }
    requires size { (D.view d.old).size ≡ sizes.now.area }
    requires core { core < sizes.now.cores }
    requires place { IsPlace sizes.now tail.place }
    requires number { tail.number ≤ 2 ^ 62 + (D.view d.old).calls }
    requires early { tail.number ≤ 2 ^ 62 + 2 ^ 63 }
    requires room { length buffer.old ≡ max_record sizes.now }
    ensures holds { IfOk result (λ read. IfSome (D.view d.old).bytes (λ image. Holds sizes.now core image tail read.0 read.1)) }
    ensures place { IfOk result (λ read. IsPlace sizes.now read.1.place) }
    ensures many { IfOk result (λ read. read.1.number ≡ tail.number + length read.0) }
    ensures none { IfOk result (λ read. length read.0 ≡ 0 → read.1 ≡ tail) }
    ensures few { IfOk result (λ read. length read.0 + (D.view d.old).calls ≤ (D.view d.new).calls) }
    ensures early { IfOk result (λ read. read.1.number ≤ 2 ^ 62 + 2 ^ 63) }
    ensures calls_at_most { IfOk result (λ read. (D.view d.new).calls ≤ (D.view d.old).calls + 2 * length read.0 + 1) }
    ensures read_only { OnlyReads (D.view d.old) (D.view d.new) }
    ensures is_disk { IsDisk (D.view d.new) }
    ensures cause { IfErr result (IsRecordsCause sizes.now core (D.view d.old) (D.view d.new) tail) }
{
    let mut found = Found::new(alloc);
    let mut due = tail;
    let mut first = None;
    while let Some(sealed) = next_record(alloc, d, buffer, sizes, core, due, first)? {
        first = first_after(first, due);
        due = behind(sizes, due, sealed.record_len());
        found.push(sealed)?;
    }
    Ok((found, due))
}
