//! A disk in memory, which fails where it was told to and keeps what a crash may leave at each moment.

ghost use Rattle.std.specs.Prelude.{◌≡◌, ◌+◌, ◌^◌, ◌<◌, ◌≤◌, true, [], ◌∷◌, ◌++◌, length, All, IfOk, OnOk, OnErr};
ghost use Rattle.zj_dev.specs.Disk.{replaced};
ghost use Rattle.zj_dev.specs.Medium.{IsHistory, may_be, filled};

use crate::disk::{Disk, DiskFailed};
use std::alloc::{AllocError, Global};

/// A range of bytes: its first place, and how many there are.
#[derive(Clone, Copy, Debug)]
struct Extent {
    at: usize,
    count: usize,
}

/// A change of what a disk holds.
#[derive(Debug, Drop)]
enum Change {
    Wrote(Extent, Vec<u8>),
    Tore(Extent),
    Synced,
}

/// A change, and the number of the call that made it.
#[derive(Debug, Drop)]
struct HistoryEntry {
    call: u64,
    change: Change,
}

/// What becomes, at a crash, of the bytes that were written since the last sync: they are as they were at
/// that sync, as they were written, or each has this value.
#[derive(Clone, Copy, Debug, PartialEq, Eq)]
pub enum Torn {
    Lost,
    Whole,
    Filled(u8),
}

/// From this number on every call fails.
const CALLS_END: u64 = 1 << 63;

/// A disk in memory. It tells its bytes at all moments, and fails at the calls that it was told to fail at.
/// A write that fails leaves the bytes that a read gives, but a crash may tear its range. A call that finds
/// no memory for its record fails, and so does every call after it.
#[derive(Debug, Drop)]
pub struct MemDisk {
    alloc: Global,
    start: Vec<u8>,
    history: Vec<HistoryEntry>,
    bytes: Vec<u8>,
    settled: Vec<u8>,
    pending: Vec<Extent>,
    calls: u64,
    failing: Vec<u64>,
    stop: u64,
    ghost history_is: { IsHistory start.items history.items calls (record { bytes = bytes.items; settled = settled.items; pending = pending.items }) },
    ghost ends: { stop ≤ 2 ^ 63 },
    ghost counted: { calls < 2 ^ 64 },
}

/// Adds an entry to the history, and its extent to the pending ones. Where it is out of memory, both stay.
fn record(
    history: &mut Vec<HistoryEntry>,
    pending: &mut Vec<Extent>,
    entry: HistoryEntry,
    extent: Extent,
) -> Result<(), AllocError>
    ensures history { OnOk result (history.new.items ≡ history.old.items ++ entry ∷ []) }
    ensures pending { OnOk result (pending.new.items ≡ pending.old.items ++ extent ∷ []) }
    ensures same_history { OnErr result (history.new.items ≡ history.old.items) }
    ensures same_pending { OnErr result (pending.new.items ≡ pending.old.items) }
{
    pending.reserve(1)?;
    history.push(entry)?;
    pending.push(extent).unwrap();
    Ok(())
}

/// Writes the piece over what is there, from a place on.
fn overwrite(bytes: &mut Vec<u8>, at: usize, piece: &[u8])
    requires { at + length piece.now ≤ length bytes.old.items }
    ensures { bytes.new.items ≡ replaced bytes.old.items at piece.now }
{
    bytes[at..at + piece.len()].copy_from_slice(piece);
}

/// Copies the pending extents of what a read gives to what is settled, which is then the same.
fn settle(settled: &mut [u8], bytes: &[u8], pending: &[Extent])
    requires image { may_be pending.now 0 settled.old bytes.now ≡ true }
    requires within { All (λ extent. extent.at + extent.count ≤ length settled.old) pending.now }
    ensures { settled.new ≡ bytes.now }
{
    for extent in pending {
        let end = extent.at + extent.count;
        settled[extent.at..end].copy_from_slice(&bytes[extent.at..end]);
    }
}

/// Fills the extents with the byte.
fn fill(image: &mut [u8], extents: &[Extent], byte: u8)
    requires { All (λ extent. extent.at + extent.count ≤ length image.old) extents.now }
    ensures { image.new ≡ filled byte extents.now image.old }
{
    for extent in extents {
        image[extent.at..extent.at + extent.count].fill(byte);
    }
}

/// A copy of the bytes with the extents filled.
fn filled_copy(
    alloc: Global,
    bytes: &[u8],
    extents: &[Extent],
    byte: u8,
) -> Result<Vec<u8>, AllocError>
    requires { All (λ extent. extent.at + extent.count ≤ length bytes.now) extents.now }
    ensures { IfOk result (λ copy. copy.items ≡ filled byte extents.now bytes.now) }
{
    let mut copy = Vec::from_slice(alloc, bytes)?;
    fill(&mut copy, extents, byte);
    Ok(copy)
}

impl MemDisk {
    ghost use Rattle.std.specs.Prelude.{◌≡◌, ℕ, ◌+◌, ◌-◌, ◌^◌, ◌<◌, ◌≤◌, length, true, false, min, unwrap_or, IsTrue, IfOk, OnOk, OnErr};
    ghost use Rattle.zj_dev.specs.Fault.{Rose};
    ghost use Rattle.zj_dev.specs.Disk.{LeavesAll, Writes, FailsToWrite, Syncs};
    ghost use Rattle.zj_dev.specs.Medium.{at_rest, written, torn, torn_image};
    ghost use Rattle.zj_dev.specs.MemDisk.{medium_of, failing_calls, stop_call, calls_made, fails_now, disk_view, IsFresh, IsUnchanged, SameFailures, GivesUp};

    /// A disk with these bytes and nothing pending. The calls with the numbers in `failing` fail, and from
    /// number `stop` on every call does. Reads, writes and syncs all count, from 0.
    pub fn new(
        alloc: Global,
        bytes: &[u8],
        failing: &[u64],
        stop: Option<u64>,
    ) -> Result<MemDisk, AllocError>
        ensures holds { IfOk result (λ disk. medium_of disk ≡ at_rest bytes.now) }
        ensures told { IfOk result (λ disk. IsFresh bytes.now (disk_view disk)) }
        ensures failing { IfOk result (λ disk. failing_calls disk ≡ failing.now) }
        ensures stop { IfOk result (λ disk. stop_call disk ≡ min (unwrap_or stop (2 ^ 63)) (2 ^ 63)) }
    {
        Ok(MemDisk {
            alloc,
            start: Vec::from_slice(alloc, bytes)?,
            history: Vec::new(alloc),
            bytes: Vec::from_slice(alloc, bytes)?,
            settled: Vec::from_slice(alloc, bytes)?,
            pending: Vec::new(alloc),
            calls: 0,
            failing: Vec::from_slice(alloc, failing)?,
            stop: stop.unwrap_or(CALLS_END).min(CALLS_END),
        })
    }

    /// What a crash now leaves, with the bytes that were written since the last sync lost, kept, or each of
    /// this value.
    pub fn image(&self, alloc: Global, torn: Torn) -> Result<Vec<u8>, AllocError>
        ensures image { IfOk result (λ image. image.items ≡ torn_image torn (medium_of self.now)) }
        ensures left { IfOk result (λ image. (disk_view self.now).may_leave (calls_made self.now) image.items ≡ true) }
    {
        match torn {
            Torn::Lost => Vec::from_slice(alloc, &self.settled),
            Torn::Whole => Vec::from_slice(alloc, &self.bytes),
            Torn::Filled(byte) => filled_copy(alloc, &self.settled, &self.pending, byte),
        }
    }

    /// Whether the next call was told to fail, or the disk has stopped.
    fn fails(&self) -> bool
        ensures { result ≡ fails_now self.now }
    {
        self.calls >= self.stop || self.failing.contains(&self.calls)
    }

    /// Counts a call that changes nothing.
    fn count(&mut self)
        ensures medium { medium_of self.new ≡ medium_of self.old }
        ensures same { SameFailures self.old self.new }
        ensures calls { calls_made self.new ≡ min (calls_made self.old + 1) (2 ^ 64 - 1) }
        ensures all { LeavesAll (disk_view self.old) (disk_view self.new) }
        ensures quiet { fails_now self.old ≡ false → (disk_view self.new).faults ≡ (disk_view self.old).faults }
        ensures cause { IsTrue (fails_now self.old) → Rose (disk_view self.old).faults (disk_view self.new).faults }
    {
        self.calls = self.calls.saturating_add(1);
    }

    /// Counts a call that found no memory: from this call on each one fails.
    fn give_up(&mut self)
        ensures given_up { GivesUp self.old self.new }
        ensures all { LeavesAll (disk_view self.old) (disk_view self.new) }
        ensures write { (at count : ℕ) → FailsToWrite at count (disk_view self.old) (disk_view self.new) }
        ensures cause { Rose (disk_view self.old).faults (disk_view self.new).faults }
    {
        self.stop = self.stop.min(self.calls);
        self.calls = self.calls.saturating_add(1);
    }

    /// Writes the piece. Where it is out of memory, all is as it was.
    fn put(&mut self, at: usize, piece: &[u8]) -> Result<(), AllocError>
        requires within { at + length piece.now ≤ length (medium_of self.old).bytes }
        requires early { calls_made self.old < 2 ^ 63 }
        ensures ok { OnOk result (medium_of self.new ≡ written (medium_of self.old) (record { at = at; count = length piece.now }) piece.now) }
        ensures writes { OnOk result (Writes at piece.now (disk_view self.old) (disk_view self.new)) }
        ensures quiet { OnOk result (fails_now self.old ≡ false → (disk_view self.new).faults ≡ (disk_view self.old).faults) }
        ensures err { OnErr result (IsUnchanged self.old self.new) }
        ensures same { SameFailures self.old self.new }
    {
        let extent = Extent {
            at,
            count: piece.len(),
        };
        let copy = Vec::from_slice(self.alloc, piece)?;
        let entry = HistoryEntry {
            call: self.calls,
            change: Change::Wrote(extent, copy),
        };
        record(&mut self.history, &mut self.pending, entry, extent)?;
        overwrite(&mut self.bytes, at, piece);
        self.calls += 1;
        Ok(())
    }

    /// Fails to write, so that a crash may tear the range. Where it is out of memory, all is as it was.
    fn tear(&mut self, at: usize, count: usize) -> Result<(), AllocError>
        requires within { at + count ≤ length (medium_of self.old).bytes }
        requires early { calls_made self.old < 2 ^ 63 }
        ensures ok { OnOk result (medium_of self.new ≡ torn (medium_of self.old) (record { at = at; count = count })) }
        ensures tears { OnOk result (FailsToWrite at count (disk_view self.old) (disk_view self.new)) }
        ensures cause { OnOk result (IsTrue (fails_now self.old) → Rose (disk_view self.old).faults (disk_view self.new).faults) }
        ensures err { OnErr result (IsUnchanged self.old self.new) }
        ensures same { SameFailures self.old self.new }
    {
        let extent = Extent { at, count };
        let entry = HistoryEntry {
            call: self.calls,
            change: Change::Tore(extent),
        };
        record(&mut self.history, &mut self.pending, entry, extent)?;
        self.calls += 1;
        Ok(())
    }

    /// Makes all that was written outlast a crash. Where it is out of memory, all is as it was.
    fn put_down(&mut self) -> Result<(), AllocError>
        requires { calls_made self.old < 2 ^ 63 }
        ensures ok { OnOk result (medium_of self.new ≡ at_rest (medium_of self.old).bytes) }
        ensures syncs { OnOk result (Syncs (disk_view self.old) (disk_view self.new)) }
        ensures quiet { OnOk result (fails_now self.old ≡ false → (disk_view self.new).faults ≡ (disk_view self.old).faults) }
        ensures err { OnErr result (IsUnchanged self.old self.new) }
        ensures same { SameFailures self.old self.new }
    {
        self.history.push(HistoryEntry {
            call: self.calls,
            change: Change::Synced,
        })?;
        settle(&mut self.settled, &self.bytes, &self.pending);
        self.pending.clear();
        self.calls += 1;
        Ok(())
    }
}

impl Disk for MemDisk {
    ghost use Rattle.std.specs.Prelude.{◌≡◌, ◌+◌, ◌^◌, ◌≤◌, ◌↔◌, ◌⊎◌, length, slice_range, IsTrue, IsErr, OnOk, OnErr, IfSome};
    ghost use Rattle.zj_dev.specs.Fault.{Rose};
    ghost use Rattle.zj_dev.specs.Disk.{LeavesAll, Writes, FailsToWrite, Syncs, FailsToSync};
    ghost use Rattle.zj_dev.specs.Medium.{at_rest, written, torn};
    ghost use Rattle.zj_dev.specs.MemDisk.{medium_of, fails_now, disk_view, SameFailures, GivesUp};

    ghost view = { disk_view };

    fn len(&self) -> u64 {
        self.bytes.len() as u64
    }

    fn calls(&self) -> u64 {
        self.calls
    }

    fn read(&mut self, at: u64, into: &mut [u8]) -> Result<(), DiskFailed>
        requires { at + length into.old ≤ (disk_view self.old).size }
        ensures given { OnOk result (IfSome (disk_view self.old).bytes (λ bytes. into.new ≡ slice_range bytes at (at + length into.old))) }
        ensures left { LeavesAll (disk_view self.old) (disk_view self.new) }
        ensures quiet { OnOk result ((disk_view self.new).faults ≡ (disk_view self.old).faults) }
        ensures cause { OnErr result (Rose (disk_view self.old).faults (disk_view self.new).faults) }
        ensures late { 2 ^ 63 ≤ (disk_view self.old).calls → IsErr result }
        ensures fails { IsErr result ↔ IsTrue (fails_now self.old) }
        ensures medium { medium_of self.new ≡ medium_of self.old }
        ensures same { SameFailures self.old self.new }
    {
        let fails = self.fails();
        self.count();
        if fails {
            return Err(DiskFailed);
        }
        let at = at as usize;
        into.copy_from_slice(&self.bytes[at..at + into.len()]);
        Ok(())
    }

    fn write(&mut self, at: u64, bytes: &[u8]) -> Result<(), DiskFailed>
        requires { at + length bytes.now ≤ (disk_view self.old).size }
        ensures ok { OnOk result (Writes at bytes.now (disk_view self.old) (disk_view self.new)) }
        ensures err { OnErr result (FailsToWrite at (length bytes.now) (disk_view self.old) (disk_view self.new)) }
        ensures quiet { OnOk result ((disk_view self.new).faults ≡ (disk_view self.old).faults) }
        ensures cause { OnErr result (Rose (disk_view self.old).faults (disk_view self.new).faults) }
        ensures late { 2 ^ 63 ≤ (disk_view self.old).calls → IsErr result }
        ensures fails { IsTrue (fails_now self.old) → IsErr result }
        ensures medium { OnOk result (medium_of self.new ≡ written (medium_of self.old) (record { at = at; count = length bytes.now }) bytes.now) }
        ensures same { OnOk result (SameFailures self.old self.new) }

        // A failed write tears its range, where it finds memory to tell it.
        ensures torn { OnErr result (GivesUp self.old self.new
            ⊎ ((medium_of self.new ≡ torn (medium_of self.old) (record { at = at; count = length bytes.now })) × SameFailures self.old self.new)) }
    {
        let at = at as usize;
        if self.calls >= CALLS_END {
            self.give_up();
            return Err(DiskFailed);
        }
        if self.fails() {
            if self.tear(at, bytes.len()).is_err() {
                self.give_up();
            }
            return Err(DiskFailed);
        }
        if self.put(at, bytes).is_err() {
            self.give_up();
            return Err(DiskFailed);
        }
        Ok(())
    }

    fn sync(&mut self) -> Result<(), DiskFailed>
        ensures ok { OnOk result (Syncs (disk_view self.old) (disk_view self.new)) }
        ensures err { OnErr result (FailsToSync (disk_view self.old) (disk_view self.new)) }
        ensures quiet { OnOk result ((disk_view self.new).faults ≡ (disk_view self.old).faults) }
        ensures cause { OnErr result (Rose (disk_view self.old).faults (disk_view self.new).faults) }
        ensures late { 2 ^ 63 ≤ (disk_view self.old).calls → IsErr result }
        ensures fails { IsTrue (fails_now self.old) → IsErr result }
        ensures medium { OnOk result (medium_of self.new ≡ at_rest (medium_of self.old).bytes) }
        ensures same { OnOk result (SameFailures self.old self.new) }
        ensures kept { OnErr result (medium_of self.new ≡ medium_of self.old) }
        ensures stops { OnErr result (GivesUp self.old self.new ⊎ SameFailures self.old self.new) }
    {
        if self.fails() {
            self.count();
            return Err(DiskFailed);
        }
        if self.put_down().is_err() {
            self.give_up();
            return Err(DiskFailed);
        }
        Ok(())
    }
}
