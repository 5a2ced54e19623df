//! The devices of an image, put back into their shelf in order.

ghost use Rattle.std.specs.Prelude.{◌≡◌, ◌≢◌, ℕ, List, ◌<◌, ◌≤◌, IfErr, IfSome, OnOk, slice_get, length};
ghost use Rattle.zj_block.specs.declared.sizes.TheConstants.{MAX_CORES};
ghost use Rattle.zj_dev.specs.Fault.{Rose};
ghost use Rattle.zj_dev.specs.Shelf.{ShelfView, OthersStay, Closes};
ghost use Rattle.zj_home.specs.Super.{Super};
ghost use Rattle.zj_mount.specs.Opening.{IsJournalBelow, IsOfSet, StopsOpening};
ghost use Rattle.zj_mount.specs.Set.{AllBack, ClosesAll, IsClosed, IsLent, IsOut, home_name, journal_name};

use crate::areas::Areas;
use crate::fault::CloseFault;
use crate::names::{HOME, journal_name};
use crate::opening::Set;
use zj_dev::{Device, Shelf};

/// Puts a device back into its shelf, under its name.
fn put_back<H: Shelf>(shelf: &mut H, device: Device, name: &str, d: H::D) -> Result<(), CloseFault>
    ensures closed { Closes (H.D.view d) (H.names shelf.old name.now) (H.names shelf.new name.now) }
    ensures others { OthersStay name.now (H.names shelf.old) (H.names shelf.new) }
    ensures cause { IfErr result (λ fault. (fault.device ≡ device) × Rose (H.faults shelf.old) (H.faults shelf.new)) }
    ensures quiet { OnOk result (H.faults shelf.new ≡ H.faults shelf.old) }
    ensures no_fewer { H.faults shelf.old ≤ H.faults shelf.new }
{
    match shelf.close(name, d) {
        Ok(()) => Ok(()),
        Err(_) => Err(CloseFault { device }),
    }
}

/// Puts the devices of journals back under their names, from core 0 on.
///
/// The fault is of the first device that the shelf failed to close; all are back in any case.
fn close_areas<H: Shelf>(shelf: &mut H, areas: Areas<H::D>) -> Result<(), CloseFault>
    requires { length areas.areas ≤ MAX_CORES }
    ensures closed { (core : ℕ) → core < length areas.areas → IfSome (slice_get areas.areas core) (λ area. Closes (H.D.view area.device) (H.names shelf.old (journal_name core)) (H.names shelf.new (journal_name core))) }
    ensures others { (name : List ℕ) → ((core : ℕ) → core < length areas.areas → name ≢ journal_name core) → H.names shelf.new name ≡ H.names shelf.old name }
    ensures cause { IfErr result (λ fault. IsJournalBelow (length areas.areas) fault.device × Rose (H.faults shelf.old) (H.faults shelf.new)) }
    ensures quiet { OnOk result (H.faults shelf.new ≡ H.faults shelf.old) }
    ensures no_fewer { H.faults shelf.old ≤ H.faults shelf.new }
{
    let mut closed = Ok(());
    let mut core = 0;
    let mut left = areas.into_vec().into_iter();
    while let Some(area) = left.next() {
        let device = Device::Journal(core);
        let one = put_back(shelf, device, journal_name(core), area.into_device());
        closed = closed.and(one);
        core += 1;
    }
    left.destroy_empty();
    closed
}

/// Puts the devices of an image back under their names, home first and then the journals from core 0 on.
///
/// The fault is of the first device that the shelf failed to close; all are back in any case.
pub fn close_all<H: Shelf>(shelf: &mut H, set: Set<H::D>) -> Result<(), CloseFault>
    requires { length set.areas.areas ≤ MAX_CORES }
    ensures closed { (before : ShelfView) → IsOut H.D.view before (H.names shelf.old) (H.D.view set.home.device) set.areas.areas → IsClosed H.D.view before (H.names shelf.new) (H.D.view set.home.device) set.areas.areas }
    ensures back { (before : ShelfView) → IsOut H.D.view before (H.names shelf.old) (H.D.view set.home.device) set.areas.areas → AllBack before (H.names shelf.new) }
    ensures closes { ClosesAll H.D.view (H.names shelf.old) (H.names shelf.new) (H.D.view set.home.device) set.areas.areas }
    ensures cause { IfErr result (λ fault. IsOfSet (length set.areas.areas) fault.device × Rose (H.faults shelf.old) (H.faults shelf.new)) }
    ensures quiet { OnOk result (H.faults shelf.new ≡ H.faults shelf.old) }
    ensures no_fewer { H.faults shelf.old ≤ H.faults shelf.new }
{
    let Set { home, areas } = set;
    let closed = put_back(shelf, Device::Home, HOME, home.into_device());
    closed.and(close_areas(shelf, areas))
}

/// Puts the devices of an image back that was not opened whole: home, the journals that were opened, and then the
/// one that was refused, where it is out.
pub(crate) fn close_refused<H: Shelf>(shelf: &mut H, set: Set<H::D>, refused: Option<H::D>)
    requires { length set.areas.areas < MAX_CORES }
    ensures back { (before mid : ShelfView) (super : Super) → OthersStay home_name before mid → IsLent (before home_name) (mid home_name) (H.D.view set.home.device)
        → StopsOpening H.D.view mid (H.names shelf.old) super set.areas.areas refused → AllBack before (H.names shelf.new) }
    ensures no_fewer { H.faults shelf.old ≤ H.faults shelf.new }
{
    let name = journal_name(set.areas.len() as u32);
    let _ = close_all(shelf, set);
    match refused {
        Some(d) => {
            let _ = shelf.close(name, d);
        }
        None => {}
    }
}
