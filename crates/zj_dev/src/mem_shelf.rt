//! A shelf in memory.

ghost use Rattle.std.specs.Prelude.{◌≡◌, ◌^◌, [], replicate, IfOk};
ghost use Rattle.zj_dev.specs.Shelf.{IsBlank};
ghost use Rattle.zj_dev.specs.MemDisk.{IsFresh, disk_view, failing_calls, stop_call};

use crate::disk::Disk;
use crate::mem_disk::MemDisk;
use crate::shelf::{Shelf, ShelfFailed};
use std::alloc::{AllocError, Global};
use std::mem;

/// What a shelf has under a name: nothing, a device that is out, or the device that stands there.
#[derive(Debug, Drop)]
enum Held {
    Absent,
    Out,
    Stands(MemDisk),
}

impl Held {
    ghost use Rattle.std.specs.Prelude.{◌≡◌, is_some};
    ghost use Rattle.zj_dev.specs.MemShelf.{disk_in, is_out};

    /// Whether a device is out.
    fn is_out(&self) -> bool
        ensures { result ≡ is_out self.now }
    {
        matches!(self, Held::Out)
    }

    /// Whether a device stands there.
    fn stands(&self) -> bool
        ensures { result ≡ is_some (disk_in self.now) }
    {
        matches!(self, Held::Stands(_))
    }

    /// The device that stands there.
    fn into_disk(self) -> Option<MemDisk>
        ensures { result ≡ disk_in self }
    {
        match self {
            Held::Stands(disk) => Some(disk),
            Held::Absent | Held::Out => None,
        }
    }
}

/// A name, and what the shelf has under it.
#[derive(Debug, Drop)]
struct ShelfPlace {
    name: String,
    held: Held,
}

/// How many calls of a shelf were made, which of them fail, and how many have failed.
#[derive(Debug, Drop)]
struct CallCounter {
    made: u64,
    failing: Vec<u64>,
    faults: u64,
}

impl CallCounter {
    ghost use Rattle.std.specs.Prelude.{◌≡◌, ◌+◌, ◌-◌, ◌^◌, ◌≤◌, ◌↔◌, min, IsErr, OnErr, OnOk, Contains};
    ghost use Rattle.zj_dev.specs.Fault.{Rose};

    /// Counts a call, which fails where it was told to.
    fn count(&mut self) -> Result<(), ShelfFailed>
        ensures fails { IsErr result ↔ Contains self.old.failing.items self.old.made }
        ensures made { self.new.made ≡ min (self.old.made + 1) (2 ^ 64 - 1) }
        ensures failing { self.new.failing ≡ self.old.failing }
        ensures cause { OnErr result (Rose self.old.faults self.new.faults) }
        ensures quiet { OnOk result (self.new.faults ≡ self.old.faults) }
        ensures no_fewer { self.old.faults ≤ self.new.faults }
    {
        let fails = self.failing.contains(&self.made);
        self.made = self.made.saturating_add(1);
        if fails {
            return Err(self.fail());
        }
        Ok(())
    }

    /// Counts a fault.
    fn fail(&mut self) -> ShelfFailed
        ensures rose { Rose self.old.faults self.new.faults }
        ensures no_fewer { self.old.faults ≤ self.new.faults }
        ensures made { self.new.made ≡ self.old.made }
        ensures failing { self.new.failing ≡ self.old.failing }
    {
        self.faults = self.faults.saturating_add(1);
        ShelfFailed
    }
}

/// A shelf in memory, whose devices are disks in memory. It tells what stands under each name, and fails at the
/// calls of `Shelf` that it was told to fail at, and where `create` finds no memory.
#[derive(Debug, Drop)]
pub struct MemShelf {
    alloc: Global,
    places: Vec<ShelfPlace>,
    calls: CallCounter,
}

impl MemShelf {
    ghost use Rattle.std.specs.Prelude.{◌≡◌, ℕ, List, Some, ◌^◌, [], replicate, IsTrue, is_some, IsOk, IfOk, OnOk, OnErr, OnSome, IfNone};
    ghost use Rattle.std.specs.List.{position_from};
    ghost use Rattle.zj_dev.specs.Shelf.{Absent, IsBlank};
    ghost use Rattle.zj_dev.specs.MemDisk.{IsFresh, disk_view, failing_calls, stop_call};
    ghost use Rattle.zj_dev.specs.MemShelf.{disk_in, is_named, is_out, is_taken, held_under, shelf_names, shelf_faults, failing_calls_of, calls_of, SameCalls, OthersHeld};

    /// A shelf with no device.
    pub fn new(alloc: Global) -> Result<MemShelf, AllocError>
        ensures ok { IsOk result }
        ensures empty { IfOk result (λ shelf. (name : List ℕ) → shelf_names shelf name ≡ Absent) }
        ensures faults { IfOk result (λ shelf. shelf_faults shelf ≡ 0) }
        ensures failing { IfOk result (λ shelf. failing_calls_of shelf ≡ []) }
    {
        Ok(MemShelf {
            alloc,
            places: Vec::new(alloc),
            calls: CallCounter {
                made: 0,
                failing: Vec::new(alloc),
                faults: 0,
            },
        })
    }

    /// From now on the calls of `Shelf` count from 0, and those with these numbers fail. One that fails opens and makes
    /// nothing, and leaves every name as it was, but that `close` puts the device back all the same. Where it is out of
    /// memory, the same calls fail as before.
    pub fn fail_at(&mut self, calls: &[u64]) -> Result<(), AllocError>
        ensures failing { OnOk result (failing_calls_of self.new ≡ calls.now) }
        ensures fresh { OnOk result (calls_of self.new ≡ 0) }
        ensures err { OnErr result (SameCalls self.old self.new) }
        ensures names { (name : List ℕ) → held_under self.new name ≡ held_under self.old name }
        ensures faults { shelf_faults self.new ≡ shelf_faults self.old }
    {
        self.calls.failing = Vec::from_slice(self.alloc, calls)?;
        self.calls.made = 0;
        Ok(())
    }

    /// Puts a device under the name, and answers the one that stood there. A device that was out is then
    /// forgotten: closing it changes nothing. Where it is out of memory, the shelf is as it was, without the
    /// device.
    pub fn put(&mut self, name: &str, d: MemDisk) -> Result<Option<MemDisk>, AllocError>
        ensures before { IfOk result (λ before. before ≡ disk_in (held_under self.old name.now)) }
        ensures stands { OnOk result (disk_in (held_under self.new name.now) ≡ Some d) }
        ensures err { OnErr result (held_under self.new name.now ≡ held_under self.old name.now) }
        ensures others { OthersHeld name.now self.old self.new }
        ensures faults { shelf_faults self.new ≡ shelf_faults self.old }
        ensures calls { SameCalls self.old self.new }
    {
        if self.is_taken(name) {
            return Ok(self.replace(name, Held::Stands(d)).into_disk());
        }
        self.insert(name, Held::Stands(d))?;
        Ok(None)
    }

    /// Takes the device that stands under the name, which then has none. None where no device stands
    /// there, which leaves the shelf as it was.
    pub fn take(&mut self, name: &str) -> Option<MemDisk>
        ensures taken { result ≡ disk_in (held_under self.old name.now) }
        ensures absent { OnSome result (shelf_names self.new name.now ≡ Absent) }
        ensures none { IfNone result (held_under self.new name.now ≡ held_under self.old name.now) }
        ensures others { OthersHeld name.now self.old self.new }
        ensures faults { shelf_faults self.new ≡ shelf_faults self.old }
        ensures calls { SameCalls self.old self.new }
    {
        if self.stands(name) {
            self.replace(name, Held::Absent).into_disk()
        } else {
            None
        }
    }

    /// The first place of that name.
    fn find(&self, name: &str) -> Option<usize>
        ensures { result ≡ position_from (is_named name.now) 0 self.now.places.items }
    {
        self.places
            .iter()
            .position(|place| place.name.as_str() == name)
    }

    /// Whether a device stands under the name.
    fn stands(&self, name: &str) -> bool
        ensures { result ≡ is_some (disk_in (held_under self.now name.now)) }
    {
        match self.find(name) {
            Some(i) => self.places[i].held.stands(),
            None => false,
        }
    }

    /// Whether the device of the name is out.
    fn is_out(&self, name: &str) -> bool
        ensures { result ≡ is_out (held_under self.now name.now) }
    {
        match self.find(name) {
            Some(i) => self.places[i].held.is_out(),
            None => false,
        }
    }

    /// Whether a device has the name, also one that is out.
    fn is_taken(&self, name: &str) -> bool
        ensures { result ≡ is_taken (held_under self.now name.now) }
    {
        self.is_out(name) || self.stands(name)
    }

    /// Puts this under a name that is taken, and answers what was there.
    fn replace(&mut self, name: &str, held: Held) -> Held
        requires { IsTrue (is_taken (held_under self.old name.now)) }
        ensures before { result ≡ held_under self.old name.now }
        ensures held { held_under self.new name.now ≡ held }
        ensures others { OthersHeld name.now self.old self.new }
        ensures calls { self.new.calls ≡ self.old.calls }
    {
        let i = self.find(name).unwrap();
        let place = &mut self.places[i];
        mem::replace(&mut place.held, held)
    }

    /// Puts this under a name. Where it is out of memory, the shelf is as it was.
    fn insert(&mut self, name: &str, held: Held) -> Result<(), AllocError>
        ensures held { OnOk result (held_under self.new name.now ≡ held) }
        ensures err { OnErr result (held_under self.new name.now ≡ held_under self.old name.now) }
        ensures others { OthersHeld name.now self.old self.new }
        ensures calls { self.new.calls ≡ self.old.calls }
    {
        if let Some(i) = self.find(name) {
            let place = &mut self.places[i];
            place.held = held;
            return Ok(());
        }
        let name = String::from_str(self.alloc, name)?;
        self.places.push(ShelfPlace { name, held })?;
        Ok(())
    }

    /// Makes a disk of zero bytes under a name that is free, which is then out.
    fn make(&mut self, name: &str, len: u64) -> Result<MemDisk, AllocError>
        ensures blank { IfOk result (λ disk. IsBlank len (disk_view disk)) }
        ensures fresh { IfOk result (λ disk. IsFresh (replicate len 0) (disk_view disk)) }
        ensures failing { IfOk result (λ disk. failing_calls disk ≡ []) }
        ensures stop { IfOk result (λ disk. stop_call disk ≡ 2 ^ 63) }
        ensures out { OnOk result (held_under self.new name.now ≡ Held.Out) }
        ensures err { OnErr result (held_under self.new name.now ≡ held_under self.old name.now) }
        ensures others { OthersHeld name.now self.old self.new }
        ensures calls { self.new.calls ≡ self.old.calls }
    {
        let disk = blank(self.alloc, len)?;
        self.insert(name, Held::Out)?;
        Ok(disk)
    }
}

/// A disk of zero bytes.
fn blank(alloc: Global, len: u64) -> Result<MemDisk, AllocError>
    ensures blank { IfOk result (λ disk. IsBlank len (disk_view disk)) }
    ensures fresh { IfOk result (λ disk. IsFresh (replicate len 0) (disk_view disk)) }
    ensures failing { IfOk result (λ disk. failing_calls disk ≡ []) }
    ensures stop { IfOk result (λ disk. stop_call disk ≡ 2 ^ 63) }
{
    let zeros = vec![in alloc; 0u8; len as usize]?;
    MemDisk::new(alloc, &zeros, &[], None)
}

impl Shelf for MemShelf {
    ghost use Rattle.std.specs.Prelude.{◌≡◌, ◌+◌, ◌-◌, ◌≤◌, ◌^◌, ◌↔◌, [], min, replicate, option_map, IsErr, IfOk, IfSome, OnErr, OnOk, Contains};
    ghost use Rattle.zj_dev.specs.Fault.{Rose};
    ghost use Rattle.zj_dev.specs.Shelf.{OthersStay, Opens, Creates, FailsToCreate, Closes};
    ghost use Rattle.zj_dev.specs.MemDisk.{IsFresh, disk_view, failing_calls, stop_call};
    ghost use Rattle.zj_dev.specs.MemShelf.{disk_in, held_under, shelf_names, shelf_faults, failing_calls_of, calls_of};

    type D = MemDisk;

    ghost names = { shelf_names };

    ghost faults = { shelf_faults };

    fn open(&mut self, name: &str) -> Result<Option<MemDisk>, ShelfFailed>
        ensures ok { IfOk result (λ disk. Opens (shelf_names self.old name.now) (shelf_names self.new name.now) (option_map disk_view disk)) }
        ensures err { OnErr result (shelf_names self.new name.now ≡ shelf_names self.old name.now) }
        ensures others { OthersStay name.now (shelf_names self.old) (shelf_names self.new) }
        ensures cause { OnErr result (Rose (shelf_faults self.old) (shelf_faults self.new)) }
        ensures quiet { OnOk result (shelf_faults self.new ≡ shelf_faults self.old) }
        ensures no_fewer { shelf_faults self.old ≤ shelf_faults self.new }
        ensures taken { IfOk result (λ disk. disk ≡ disk_in (held_under self.old name.now)) }
        ensures fails { IsErr result ↔ Contains (failing_calls_of self.old) (calls_of self.old) }
        ensures failing { failing_calls_of self.new ≡ failing_calls_of self.old }
        ensures calls { calls_of self.new ≡ min (calls_of self.old + 1) (2 ^ 64 - 1) }
    {
        self.calls.count()?;
        if self.stands(name) {
            Ok(self.replace(name, Held::Out).into_disk())
        } else {
            Ok(None)
        }
    }

    fn create(&mut self, name: &str, len: u64) -> Result<Option<MemDisk>, ShelfFailed>
        ensures ok { IfOk result (λ disk. Creates len (shelf_names self.old name.now) (shelf_names self.new name.now) (option_map disk_view disk)) }
        ensures err { OnErr result (FailsToCreate (shelf_names self.old name.now) (shelf_names self.new name.now)) }
        ensures others { OthersStay name.now (shelf_names self.old) (shelf_names self.new) }
        ensures cause { OnErr result (Rose (shelf_faults self.old) (shelf_faults self.new)) }
        ensures quiet { OnOk result (shelf_faults self.new ≡ shelf_faults self.old) }
        ensures no_fewer { shelf_faults self.old ≤ shelf_faults self.new }
        ensures fresh { IfOk result (λ disk. IfSome disk (λ made. IsFresh (replicate len 0) (disk_view made))) }
        ensures sound { IfOk result (λ disk. IfSome disk (λ made. failing_calls made ≡ [])) }
        ensures stop { IfOk result (λ disk. IfSome disk (λ made. stop_call made ≡ 2 ^ 63)) }
        ensures told { Contains (failing_calls_of self.old) (calls_of self.old) → IsErr result }
        ensures kept { OnErr result (shelf_names self.new name.now ≡ shelf_names self.old name.now) }
        ensures failing { failing_calls_of self.new ≡ failing_calls_of self.old }
        ensures calls { calls_of self.new ≡ min (calls_of self.old + 1) (2 ^ 64 - 1) }
    {
        self.calls.count()?;
        if self.is_taken(name) {
            return Ok(None);
        }
        match self.make(name, len) {
            Ok(disk) => Ok(Some(disk)),
            Err(_) => Err(self.calls.fail()),
        }
    }

    fn close(&mut self, name: &str, d: MemDisk) -> Result<(), ShelfFailed>
        ensures closed { Closes (disk_view d) (shelf_names self.old name.now) (shelf_names self.new name.now) }
        ensures others { OthersStay name.now (shelf_names self.old) (shelf_names self.new) }
        ensures cause { OnErr result (Rose (shelf_faults self.old) (shelf_faults self.new)) }
        ensures quiet { OnOk result (shelf_faults self.new ≡ shelf_faults self.old) }
        ensures no_fewer { shelf_faults self.old ≤ shelf_faults self.new }
        ensures fails { IsErr result ↔ Contains (failing_calls_of self.old) (calls_of self.old) }
        ensures failing { failing_calls_of self.new ≡ failing_calls_of self.old }
        ensures calls { calls_of self.new ≡ min (calls_of self.old + 1) (2 ^ 64 - 1) }
    {
        if self.is_out(name) {
            let _ = self.replace(name, Held::Stands(d));
        }
        self.calls.count()
    }
}
