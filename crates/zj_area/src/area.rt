//! An area: one core's journal on a device that it owns.

ghost use Rattle.std.specs.Prelude.{◌≡◌, ◌<◌, ◌≤◌, ◌+◌, ◌-◌, ◌*◌, ◌^◌, ◌++◌, [], ◌∷◌, List, None, Some, IsSome, IfOk, IfErr, IfSome, OnOk, OnErr, MatchResult, true, false, is_some, length};
ghost use Rattle.zj_dev.specs.Fault.{Rose};
ghost use Rattle.zj_dev.specs.Disk.{Continues, IsDisk, IsSettled, OnlyReads, StaysSince};
ghost use Rattle.zj_tx.specs.Record.{Accepts, Record};
ghost use Rattle.zj_area.specs.Ring.{IsPlace, behind};
ghost use Rattle.zj_area.specs.Journal.{IsAtRest, IsLaid, fullness, journal_of, lacking, opened};
ghost use Rattle.zj_area.specs.Commit.{KeepsRecords, OpensGate};
ghost use Rattle.zj_area.specs.Cause.{Finds, IsKnown, IsScanCause, RestsEmpty};

use crate::commit::{lay_record, open_at};
use crate::fault::ScanFault;
use crate::reading::read_records;
use crate::ring::behind;
use std::alloc::{AllocError, Global};
use std::marker::Model;
use zj_block::{Sizes, Tail};
use zj_dev::{Disk, DiskFault, sync};
use zj_tx::{Found, Sealed};

/// What a longest record needs, and what is free, in bytes.
#[derive(Clone, Copy, Debug, PartialEq, Eq)]
pub struct Full {
    /// The bytes that have to be free for a record of the greatest length.
    pub need: u64,
    /// The bytes that are free.
    pub free: u64,
}

/// A device that was not made an area, since there was no memory.
#[derive(Debug, Drop)]
pub struct Returned<D> {
    /// The device, given back.
    pub device: D,
}

/// How far an area is: its records were not read yet, or they were; a record was laid, whose gate is still
/// closed, with where the next one is due once it is open; or a commit has failed.
#[derive(Clone, Copy, Debug)]
enum State {
    Unread,
    Ready,
    Laid(Tail),
    Failed,
}

/// One core's journal. A commit takes two calls, `lay` and `open_gate`, and no memory.
///
/// Between two commits the gate at the end is closed on the device, and nothing is pending there.
#[derive(Debug, Drop)]
pub struct Area<D: Disk> {
    alloc: Global,
    device: D,
    sizes: Sizes,
    core: u32,
    tail: Tail,
    end: Tail,
    state: State,
    buffer: Vec<u8>,
}

impl<D: Disk> Model for Area<D> {
    ghost use Rattle.std.specs.Prelude.{length};
    ghost use Rattle.zj_area.specs.Journal.{AreaView, IsArea};
    ghost use Rattle.zj_area.specs.State.{has_failed, is_ready, next_end};

    ghost Value = { AreaView D };

    ghost view = { λ a. record { device = a.device; sizes = a.sizes; core = a.core; tail = a.tail; end = a.end; ready = is_ready a.state; failed = has_failed a.state; laid = next_end a.state } };

    ghost invariant = { λ a. IsArea (D.view a.device) a.sizes a.core a.tail a.end (next_end a.state) (length a.buffer.items) };
}

/// That many zeros.
fn zeros(alloc: Global, count: usize) -> Result<Vec<u8>, AllocError>
    ensures { IfOk result (λ v. length v.items ≡ count) }
{
    vec![in alloc; 0u8; count]
}

/// Refuses where less is free than is needed.
fn enough(need: u64, free: u64) -> Result<(), Full>
    ensures { MatchResult result (λ _. lacking need free ≡ None) (λ full. lacking need free ≡ Some full) }
{
    if free < need {
        Err(Full { need, free })
    } else {
        Ok(())
    }
}

impl<D: Disk> Area<D> {
    /// The journal of a core of the image, over a device of `sizes.area()` bytes. The tail is where its
    /// records begin. The area's one buffer is taken here; no call of the device is made.
    ///
    /// The error is that there was no memory, and gives the device back.
    pub fn open(
        alloc: Global,
        d: D,
        core: u32,
        sizes: &Sizes,
        tail: Tail,
    ) -> Result<Area<D>, Returned<D>>
        requires core { core < sizes.now.cores }
        requires size { (D.view d).size ≡ sizes.now.area }
        requires place { IsPlace sizes.now tail.place }
        requires number { tail.number < 2 ^ 62 }
        ensures ok { IfOk result (λ area. area ≡ opened d sizes.now core tail) }
        ensures err { IfErr result (λ returned. returned.device ≡ d) }
    {
        let len = d.len();
        prove!(len == sizes.area());
        let Ok(buffer) = zeros(alloc, sizes.max_record() as usize) else {
            return Err(Returned { device: d });
        };
        Ok(Area {
            alloc,
            device: d,
            sizes: *sizes,
            core,
            tail,
            end: tail,
            state: State::Unread,
            buffer,
        })
    }

    /// How many reads, writes and syncs were asked of the device: the moment that it is.
    pub fn calls(&self) -> u64
        ensures calls { result ≡ (D.view self.now.device).calls }
        ensures is_disk { IsDisk (D.view self.now.device) }
    {
        self.device.calls()
    }

    /// The core whose journal it is.
    pub fn core(&self) -> u32
        ensures core { result ≡ self.now.core }
        ensures within { result < self.now.sizes.cores }
    {
        self.core
    }

    /// Where the records begin.
    pub fn tail(&self) -> Tail
        ensures { result ≡ self.now.tail }
    {
        self.tail
    }

    /// Where the next record is due, once the journal was scanned.
    pub fn end(&self) -> Tail
        ensures end { result ≡ self.now.end }
        ensures place { IsPlace self.now.sizes result.place }
        ensures number { result.number < 2 ^ 64 - 1 }
    {
        self.end
    }

    /// Whether a scan was Ok.
    pub fn ready(&self) -> bool
        ensures { result ≡ self.now.ready }
    {
        !matches!(self.state, State::Unread)
    }

    /// Whether a record was laid whose gate was not opened yet.
    pub fn laid(&self) -> bool
        ensures { result ≡ is_some self.now.laid }
    {
        matches!(self.state, State::Laid(_))
    }

    /// Whether the device failed in a commit.
    pub fn failed(&self) -> bool
        ensures { result ≡ self.now.failed }
    {
        matches!(self.state, State::Failed)
    }

    /// Makes what was written before outlast a crash: after Ok a crash leaves what a read gives.
    ///
    /// `DiskFault` tells that the device failed; what was pending is pending still.
    pub fn settle(&mut self) -> Result<(), DiskFault>
        ensures settled { OnOk result (IsSettled (D.view self.new.device)) }
        ensures bytes { (D.view self.new.device).bytes ≡ (D.view self.old.device).bytes }
        ensures images { StaysSince (D.view self.old.device) (D.view self.new.device) }
        ensures calls_at_most { (D.view self.new.device).calls ≤ (D.view self.old.device).calls + 1 }
        ensures continues { Continues (D.view self.old.device) (D.view self.new.device) }
        ensures same { self.new ≡ record self.old { device = self.new.device } }
        ensures is_disk { IsDisk (D.view self.new.device) }
        ensures cause { OnErr result (Rose (D.view self.old.device).faults (D.view self.new.device).faults) }
    {
        sync(&mut self.device)
    }

    /// Reads the records from the tail on, up to the first gate that is not open. It writes nothing. Where
    /// the end was known and no commit has failed, it stays; else it is the tail where no record was found.
    ///
    /// `Damaged` tells where a gate is open and no record stands that is due there, `DiskFault` that the
    /// device failed, and `NoMemory` that there was none for what was found. Then the area is as it was.
    pub fn scan(&mut self) -> Result<Found, ScanFault>
        ensures found { IfOk result (Finds (journal_of D.view self.old) (journal_of D.view self.new)) }
        ensures same { self.new ≡ record self.old { device = self.new.device; ready = self.new.ready; end = self.new.end } }
        ensures ready { OnOk result (self.new.ready ≡ true) }
        ensures end { OnOk result (IsKnown (journal_of D.view self.old) → self.new.end ≡ self.old.end) }
        ensures none { IfOk result (λ found. (IsKnown (journal_of D.view self.old) → ⊥) → length found ≡ 0 → self.new.end ≡ self.old.tail) }
        ensures err { OnErr result (self.new ≡ record self.old { device = self.new.device }) }
        ensures read_only { OnlyReads (D.view self.old.device) (D.view self.new.device) }
        ensures is_disk { IsDisk (D.view self.new.device) }
        ensures at_rest { IfOk result (RestsEmpty (journal_of D.view self.old) (journal_of D.view self.new)) }
        ensures calls_at_most { IfOk result (λ found. (D.view self.new.device).calls ≤ (D.view self.old.device).calls + 2 * length found + 1) }
        ensures cause { IfErr result (IsScanCause (journal_of D.view self.old) (D.view self.new.device)) }
    {
        let (found, end) = read_records(
            self.alloc,
            &mut self.device,
            &mut self.buffer,
            &self.sizes,
            self.core,
            self.tail,
        )?;
        match self.state {
            State::Unread => {
                self.end = end;
                self.state = State::Ready;
            }
            State::Failed => self.end = end,
            State::Ready | State::Laid(_) => {}
        }
        Ok(found)
    }

    /// Whether a record of the greatest length has room in front of the tail. Else it tells what such a
    /// record needs, and what is free.
    pub fn fits_one(&self) -> Result<(), Full>
        requires { self.now.ready ≡ true }
        ensures { MatchResult result (λ _. fullness self.now.sizes self.now.tail self.now.end ≡ None) (λ full. fullness self.now.sizes self.now.tail self.now.end ≡ Some full) }
    {
        let longest = self.sizes.max_record();
        if self.end.number == self.tail.number {
            return Ok(());
        }
        if self.tail.place < self.end.place {
            if self.tail.place == 0 {
                return enough(2 * longest, self.sizes.area() - self.end.place);
            }
            return Ok(());
        }
        enough(longest + 1, self.tail.place - self.end.place)
    }

    /// Lays the record of a transaction behind the last one, its gate closed: three calls of the device.
    ///
    /// Where the area is at rest, whatever a crash leaves, at any moment of it, holds the records before. An
    /// area is at rest once a scan found no record on a settled device, and after each commit from then on. No
    /// other scan tells it: bytes of another origin may be read as records that overlap.
    ///
    /// After `DiskFault` the area has failed.
    pub fn lay(&mut self, sealed: &Sealed) -> Result<(), DiskFault>
        requires ready { self.old.ready ≡ true }
        requires sound { self.old.failed ≡ false }
        requires empty { self.old.laid ≡ None }
        requires room { fullness self.old.sizes self.old.tail self.old.end ≡ None }
        requires accepted { Accepts self.old.sizes self.old.core self.old.end.number sealed.now }
        ensures laid { OnOk result (self.new ≡ record self.old { device = self.new.device; laid = Some (behind self.old.sizes self.old.end sealed.now) }) }
        ensures record { OnOk result ((records : List Record) → IsAtRest (journal_of D.view self.old) records → IsLaid (journal_of D.view self.new) records sealed.now (behind self.old.sizes self.old.end sealed.now)) }
        ensures moments { KeepsRecords (journal_of D.view self.old) (journal_of D.view self.new) }
        ensures failed { OnErr result (self.new ≡ record self.old { device = self.new.device; failed = true }) }
        ensures continues { Continues (D.view self.old.device) (D.view self.new.device) }
        ensures calls { OnOk result ((D.view self.new.device).calls ≡ (D.view self.old.device).calls + 3) }
        ensures calls_at_most { (D.view self.new.device).calls ≤ (D.view self.old.device).calls + 3 }
        ensures is_disk { IsDisk (D.view self.new.device) }
        ensures cause { OnErr result (Rose (D.view self.old.device).faults (D.view self.new.device).faults) }
    {
        let len = sealed.record_len();
        let next = behind(&self.sizes, self.end, len);
        let place = self.end.place;
        match lay_record(
            &mut self.device,
            &mut self.buffer,
            sealed,
            place,
            next.place,
        ) {
            Ok(()) => {
                self.state = State::Laid(next);
                Ok(())
            }
            Err(fault) => {
                self.state = State::Failed;
                Err(fault)
            }
        }
    }

    /// Opens the gate of the record that was laid, and answers its transaction's number: two calls of the
    /// device. Once it answers Ok the record is committed.
    ///
    /// Whatever a crash leaves, at any moment of it, holds the records before, or those with the new one.
    /// After `DiskFault` the area has failed.
    pub fn open_gate(&mut self) -> Result<u64, DiskFault>
        requires { IsSome self.old.laid }
        ensures number { IfOk result (λ number. number ≡ self.old.end.number) }
        ensures opened { OnOk result (IfSome self.old.laid (λ next. self.new ≡ record self.old { device = self.new.device; end = next; laid = None })) }
        ensures at_rest { OnOk result (IfSome self.old.laid (λ next. (records : List Record) (r : Record) → IsLaid (journal_of D.view self.old) records r next → IsAtRest (journal_of D.view self.new) (records ++ r ∷ []))) }
        ensures moments { IfSome self.old.laid (OpensGate (journal_of D.view self.old) (journal_of D.view self.new)) }
        ensures failed { OnErr result (self.new ≡ record self.old { device = self.new.device; failed = true; laid = None }) }
        ensures continues { Continues (D.view self.old.device) (D.view self.new.device) }
        ensures calls { OnOk result ((D.view self.new.device).calls ≡ (D.view self.old.device).calls + 2) }
        ensures calls_at_most { (D.view self.new.device).calls ≤ (D.view self.old.device).calls + 2 }
        ensures is_disk { IsDisk (D.view self.new.device) }
        ensures cause { OnErr result (Rose (D.view self.old.device).faults (D.view self.new.device).faults) }
    {
        let next = self.next_end().unwrap();
        let number = self.end.number;
        match open_at(&mut self.device, self.end.place) {
            Ok(()) => {
                self.end = next;
                self.state = State::Ready;
                Ok(number)
            }
            Err(fault) => {
                self.state = State::Failed;
                Err(fault)
            }
        }
    }

    /// Where the end will be once the gate of the record that was laid is open.
    fn next_end(&self) -> Option<Tail>
        ensures { result ≡ self.now.laid }
    {
        match self.state {
            State::Laid(next) => Some(next),
            State::Unread | State::Ready | State::Failed => None,
        }
    }

    /// The device.
    pub fn into_device(self) -> D
        ensures { result ≡ self.device }
    {
        let Area { device, .. } = self;
        device
    }
}
