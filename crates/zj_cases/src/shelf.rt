//! A shelf in memory that notes which devices are closed, and fails to close one.

ghost use Rattle.std.specs.Prelude.{◌≡◌, ◌≤◌, IsErr};
ghost use Rattle.zj_dev.specs.Fault.{Rose};
ghost use Rattle.zj_dev.specs.MemShelf.{shelf_names};

use std::alloc::{AllocError, Global};
use std::mem;
use zj_dev::{MemDisk, MemShelf, Shelf, ShelfFailed};

/// A shelf that notes the order of closing. It puts each device back, and then fails at the one that is stuck.
#[derive(Drop)]
pub struct CaseShelf {
    shelf: MemShelf,
    stuck: String,
    closed: String,
    faults: u64,
}

impl CaseShelf {
    /// A shelf with no device.
    pub fn new(alloc: Global) -> Result<CaseShelf, AllocError> {
        Ok(CaseShelf {
            shelf: MemShelf::new(alloc)?,
            stuck: String::new(alloc),
            closed: String::new(alloc),
            faults: 0,
        })
    }

    /// Has the device of that name fail to close.
    pub fn stick(&mut self, name: String) {
        self.stuck = name;
    }

    /// The names that were closed since they were last asked for, each behind a space.
    pub fn take_closed(&mut self, alloc: Global) -> String {
        mem::replace(&mut self.closed, String::new(alloc))
    }

    /// Puts a device under a name, in place of what stood there.
    pub fn put(&mut self, name: &str, disk: MemDisk) -> Result<(), AllocError> {
        let _before = self.shelf.put(name, disk)?;
        Ok(())
    }

    /// Takes the device that stands under a name.
    pub fn take(&mut self, name: &str) -> Option<MemDisk> {
        self.shelf.take(name)
    }

    /// Counts a fault.
    fn fails<T>(&mut self) -> Result<T, ShelfFailed>
        ensures failed { IsErr result }
        ensures rose { Rose self.old.faults self.new.faults }
        ensures no_fewer { self.old.faults ≤ self.new.faults }
        ensures same { self.new.shelf ≡ self.old.shelf }
    {
        self.faults = self.faults.saturating_add(1);
        Err(ShelfFailed)
    }

    /// Notes that a device was closed.
    fn note(&mut self, name: &str)
        ensures same { self.new.shelf ≡ self.old.shelf }
        ensures faults { self.new.faults ≡ self.old.faults }
    {
        let _put = self.closed.push(' ');
        let _put = self.closed.push_str(name);
    }
}

impl Shelf for CaseShelf {
    type D = MemDisk;

    ghost names = { λ shelf. shelf_names shelf.shelf };

    ghost faults = { λ shelf. shelf.faults };

    fn open(&mut self, name: &str) -> Result<Option<MemDisk>, ShelfFailed> {
        match self.shelf.open(name) {
            Ok(found) => Ok(found),
            Err(_) => self.fails(),
        }
    }

    fn create(&mut self, name: &str, len: u64) -> Result<Option<MemDisk>, ShelfFailed> {
        match self.shelf.create(name, len) {
            Ok(made) => Ok(made),
            Err(_) => self.fails(),
        }
    }

    fn close(&mut self, name: &str, d: MemDisk) -> Result<(), ShelfFailed> {
        let _ = self.shelf.close(name, d);
        self.note(name);
        if name == self.stuck.as_str() {
            self.fails()
        } else {
            Ok(())
        }
    }
}
