//! Shelves: devices under names.

ghost use Rattle.std.specs.Prelude.{◌≡◌, ℕ, ◌≤◌, option_map, IfOk, OnErr, OnOk};
ghost use Rattle.zj_dev.specs.Fault.{Rose};
ghost use Rattle.zj_dev.specs.Shelf.{ShelfView, OthersStay, Opens, Creates, FailsToCreate, Closes};

use crate::disk::Disk;
use thiserror::Error;

/// A shelf could not open, make or close a device, and its count of faults rose.
#[derive(Clone, Copy, Debug, PartialEq, Eq, Error)]
#[error("a shelf failed")]
pub struct ShelfFailed;

/// A place where devices stand under names. Each call leaves all names as they were, and their devices,
/// but the one that it speaks of.
pub trait Shelf {
    /// The devices that stand here.
    type D: Disk;

    /// What stands under each name, where the shelf tells it.
    ghost names: { Self → ShelfView };

    /// How many calls have failed. One that answers Ok leaves the count.
    ghost faults: { Self → ℕ };

    /// Takes the device of that name, which is out until it is closed. None exactly where no device of that
    /// name is at hand. `ShelfFailed` leaves every name as it was.
    fn open(&mut self, name: &str) -> Result<Option<Self::D>, ShelfFailed>
        ensures ok { IfOk result (λ disk. Opens (names self.old name.now) (names self.new name.now) (option_map Self.D.view disk)) }
        ensures err { OnErr result (names self.new name.now ≡ names self.old name.now) }
        ensures others { OthersStay name.now (names self.old) (names self.new) }
        ensures cause { OnErr result (Rose (faults self.old) (faults self.new)) }
        ensures quiet { OnOk result (faults self.new ≡ faults self.old) }
        ensures no_fewer { faults self.old ≤ faults self.new };

    /// Makes a device of `len` zero bytes, with nothing pending. It is out until it is closed. None exactly
    /// where the name is taken. After `ShelfFailed` a device of zero bytes may stand under a name that
    /// was free.
    fn create(&mut self, name: &str, len: u64) -> Result<Option<Self::D>, ShelfFailed>
        ensures ok { IfOk result (λ disk. Creates len (names self.old name.now) (names self.new name.now) (option_map Self.D.view disk)) }
        ensures err { OnErr result (FailsToCreate (names self.old name.now) (names self.new name.now)) }
        ensures others { OthersStay name.now (names self.old) (names self.new) }
        ensures cause { OnErr result (Rose (faults self.old) (faults self.new)) }
        ensures quiet { OnOk result (faults self.new ≡ faults self.old) }
        ensures no_fewer { faults self.old ≤ faults self.new };

    /// Puts a device back under its name, which was out, also where it answers `ShelfFailed`.
    fn close(&mut self, name: &str, d: Self::D) -> Result<(), ShelfFailed>
        ensures closed { Closes (Self.D.view d) (names self.old name.now) (names self.new name.now) }
        ensures others { OthersStay name.now (names self.old) (names self.new) }
        ensures cause { OnErr result (Rose (faults self.old) (faults self.new)) }
        ensures quiet { OnOk result (faults self.new ≡ faults self.old) }
        ensures no_fewer { faults self.old ≤ faults self.new };
}

impl<H: Shelf> Shelf for &mut H {
    type D = H::D;

    ghost names = { λ shelf. H.names shelf.now };

    ghost faults = { λ shelf. H.faults shelf.now };

    fn open(&mut self, name: &str) -> Result<Option<H::D>, ShelfFailed> {
        (**self).open(name)
    }

    fn create(&mut self, name: &str, len: u64) -> Result<Option<H::D>, ShelfFailed> {
        (**self).create(name, len)
    }

    fn close(&mut self, name: &str, d: H::D) -> Result<(), ShelfFailed> {
        (**self).close(name, d)
    }
}
