//! The devices of an image: taken out of their shelf in order.

ghost use Rattle.std.specs.Prelude.{◌≡◌, ◌<◌, ◌≤◌, [], IfOk, IfErr, OnOk, OnErr, ◌⊎◌, MatchOption, length};
ghost use Rattle.zj_block.specs.declared.sizes.TheConstants.{MAX_CORES};
ghost use Rattle.zj_dev.specs.Fault.{Rose};
ghost use Rattle.zj_dev.specs.Shelf.{OthersStay};
ghost use Rattle.zj_mount.specs.declared.fault.OpenFault.TheVariants as faults;
ghost use Rattle.zj_mount.specs.Image.{HasHome, HasJournals, IsMissing, OfLength};
ghost use Rattle.zj_mount.specs.Mounting.{AreInOrder};
ghost use Rattle.zj_mount.specs.Opening.{AllOpened, AreOpened, IsJournalCause, IsJournalsCause, IsOpenCause, IsOpened, StopsOpening, fault_of_home};
ghost use Rattle.zj_mount.specs.Set.{AllBack, IsBack, IsLent, IsOut, IsTakenOut, home_name, journal_name};

use crate::areas::Areas;
use crate::closing::close_refused;
use crate::fault::OpenFault;
use crate::names::{HOME, journal_name};
use std::alloc::Global;
use zj_area::Area;
use zj_dev::{Device, Disk, Shelf};
use zj_home::{Home, HomeFault};

/// Takes a device out of its shelf, by its name.
fn take_out<H: Shelf>(shelf: &mut H, device: Device, name: &str) -> Result<H::D, OpenFault>
    ensures taken { IfOk result (λ d. IsTakenOut (H.names shelf.old name.now) (H.names shelf.new name.now) (H.D.view d)) }
    ensures same { OnErr result (H.names shelf.new name.now ≡ H.names shelf.old name.now) }
    ensures others { OthersStay name.now (H.names shelf.old) (H.names shelf.new) }
    ensures missing { IfErr result (λ fault. fault ≡ faults.Absent device → IsMissing (H.names shelf.old name.now)) }
    ensures cause { IfErr result (λ fault. (fault ≡ faults.Absent device) ⊎ ((fault ≡ faults.ShelfFault device) × Rose (H.faults shelf.old) (H.faults shelf.new))) }
    ensures quiet { OnOk result (H.faults shelf.new ≡ H.faults shelf.old) }
    ensures no_fewer { H.faults shelf.old ≤ H.faults shelf.new }
{
    match shelf.open(name) {
        Ok(Some(d)) => Ok(d),
        Ok(None) => Err(OpenFault::Absent { device }),
        Err(_) => Err(OpenFault::ShelfFault { device }),
    }
}

/// The fault of a home that was not opened.
fn home_fault(fault: HomeFault) -> OpenFault
    ensures { result ≡ fault_of_home fault }
{
    let device = Device::Home;
    match fault {
        HomeFault::DiskFault => OpenFault::DiskFault { device },
        HomeFault::NotAnImage { at } => OpenFault::NotAnImage { at },
        HomeFault::Version { found } => OpenFault::Version { found },
        HomeFault::Sizes { found, expected } => OpenFault::Sizes {
            device,
            found,
            expected,
        },
        HomeFault::NoMemory => OpenFault::NoMemory,
    }
}

/// Takes home out of its shelf and opens it.
fn open_home<H: Shelf>(alloc: Global, shelf: &mut H) -> Result<Home<H::D>, OpenFault>
    ensures lent { IfOk result (λ home. IsLent (H.names shelf.old home_name) (H.names shelf.new home_name) (H.D.view home.device)) }
    ensures home { IfOk result (λ home. HasHome (H.names shelf.old) home.told) }
    ensures back { OnErr result (IsBack (H.names shelf.old home_name) (H.names shelf.new home_name)) }
    ensures others { OthersStay home_name (H.names shelf.old) (H.names shelf.new) }
    ensures cause { IfErr result (IsOpenCause (H.names shelf.old) (H.names shelf.new) (H.faults shelf.old) (H.faults shelf.new)) }
    ensures quiet { OnOk result (H.faults shelf.new ≡ H.faults shelf.old) }
    ensures no_fewer { H.faults shelf.old ≤ H.faults shelf.new }
{
    let d = take_out(shelf, Device::Home, HOME)?;
    match Home::open(alloc, d) {
        Ok(home) => Ok(home),
        Err(refused) => {
            let _ = shelf.close(HOME, refused.device);
            Err(home_fault(refused.fault))
        }
    }
}

/// A journal that was not opened: why, and its device where that is out of the shelf.
#[derive(Debug)]
struct Refused<D: Disk> {
    fault: OpenFault,
    device: Option<D>,
}

/// Takes the journal of a core out of its shelf, if it is as long as the image says.
fn open_journal<H: Shelf>(
    alloc: Global,
    shelf: &mut H,
    home: &Home<H::D>,
    core: u32,
) -> Result<Area<H::D>, Refused<H::D>>
    requires { core < home.now.told.sizes.cores }
    ensures lent { IfOk result (λ area. IsLent (H.names shelf.old (journal_name core)) (H.names shelf.new (journal_name core)) (H.D.view area.device)) }
    ensures area { IfOk result (IsOpened home.now.told core) }
    ensures length { OnOk result (OfLength (H.names shelf.old (journal_name core)) (λ len. len ≡ home.now.told.sizes.area)) }
    ensures refused { IfErr result (λ refused. MatchOption refused.device (H.names shelf.new (journal_name core) ≡ H.names shelf.old (journal_name core)) (λ d. IsLent (H.names shelf.old (journal_name core)) (H.names shelf.new (journal_name core)) (H.D.view d))) }
    ensures others { OthersStay (journal_name core) (H.names shelf.old) (H.names shelf.new) }
    ensures cause { IfErr result (λ refused. IsJournalCause (H.names shelf.old (journal_name core)) (H.faults shelf.old) (H.faults shelf.new) home.now.told core refused.fault) }
    ensures quiet { OnOk result (H.faults shelf.new ≡ H.faults shelf.old) }
    ensures no_fewer { H.faults shelf.old ≤ H.faults shelf.new }
{
    let device = Device::Journal(core);
    let cores = home.sizes().cores();
    prove!(core < cores);
    let d = match take_out(shelf, device, journal_name(core)) {
        Ok(d) => d,
        Err(fault) => return Err(Refused {
            fault,
            device: None,
        }),
    };
    let found = d.len();
    let expected = home.sizes().area();
    if found != expected {
        let fault = OpenFault::Sizes {
            device,
            found,
            expected,
        };
        return Err(Refused {
            fault,
            device: Some(d),
        });
    }
    let tail = home.tail(core).unwrap();
    match Area::open(alloc, d, core, home.sizes(), tail) {
        Ok(area) => Ok(area),
        Err(returned) => Err(Refused {
            fault: OpenFault::NoMemory,
            device: Some(returned.device),
        }),
    }
}

/// Takes the journals of an image out of their shelf, in the order of the cores. After a fault those that
/// were opened are in `areas`.
fn open_journals<H: Shelf>(
    alloc: Global,
    shelf: &mut H,
    home: &Home<H::D>,
    areas: &mut Areas<H::D>,
) -> Result<(), Refused<H::D>>
    requires { areas.old.areas ≡ [] }
    ensures opened { OnOk result (AreOpened H.D.view (H.names shelf.old) (H.names shelf.new) home.now.told home.now.told.sizes.cores areas.new.areas) }
    ensures few { OnOk result (length areas.new.areas ≤ MAX_CORES) }
    ensures stops { IfErr result (λ refused. StopsOpening H.D.view (H.names shelf.old) (H.names shelf.new) home.now.told areas.new.areas refused.device) }
    ensures cause { IfErr result (λ refused. IsJournalsCause (H.names shelf.old) (H.faults shelf.old) (H.faults shelf.new) home.now.told refused.fault) }
    ensures quiet { OnOk result (H.faults shelf.new ≡ H.faults shelf.old) }
    ensures no_fewer { H.faults shelf.old ≤ H.faults shelf.new }
{
    for core in 0..home.sizes().cores() {
        if areas.reserve().is_err() {
            return Err(Refused {
                fault: OpenFault::NoMemory,
                device: None,
            });
        }
        let area = open_journal(alloc, shelf, home, core)?;
        areas.push(area);
    }
    Ok(())
}

/// The devices of an image, out of their shelf.
#[derive(Debug, Drop)]
pub struct Set<D: Disk> {
    /// The home device.
    pub home: Home<D>,
    /// The journals, in the order of their cores.
    pub areas: Areas<D>,
}

/// Takes the devices of an image out of their shelf: home first, and then the journals from core 0 on. Home is read, and no
/// journal.
///
/// The first device that is missing, fails or is none of an image's is the fault, and then all that were taken out are put
/// back, and none was written.
pub fn open_all<H: Shelf>(alloc: Global, shelf: &mut H) -> Result<Set<H::D>, OpenFault>
    // What was opened.
    ensures out { IfOk result (λ set. IsOut H.D.view (H.names shelf.old) (H.names shelf.new) (H.D.view set.home.device) set.areas.areas) }
    ensures home { IfOk result (λ set. HasHome (H.names shelf.old) set.home.told) }
    ensures journals { IfOk result (λ set. HasJournals (H.names shelf.old) set.home.told set.home.told.sizes.cores) }
    ensures opened { IfOk result (λ set. AllOpened set.home.told set.areas.areas) }
    ensures in_order { IfOk result (λ set. AreInOrder set.home.told set.areas.areas) }
    ensures quiet { OnOk result (H.faults shelf.new ≡ H.faults shelf.old) }

    // Or why it was not, and all is back.
    ensures back { OnErr result (AllBack (H.names shelf.old) (H.names shelf.new)) }
    ensures cause { IfErr result (IsOpenCause (H.names shelf.old) (H.names shelf.new) (H.faults shelf.old) (H.faults shelf.new)) }
    ensures no_fewer { H.faults shelf.old ≤ H.faults shelf.new }
{
    let home = open_home(alloc, shelf)?;
    let mut areas = Areas::new(alloc);
    match open_journals(alloc, shelf, &home, &mut areas) {
        Ok(()) => Ok(Set { home, areas }),
        Err(Refused { fault, device }) => {
            close_refused(shelf, Set { home, areas }, device);
            Err(fault)
        }
    }
}
