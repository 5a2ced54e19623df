//! Settling the devices of an image.

ghost use Rattle.std.specs.Prelude.{◌≡◌, ◌≤◌, IfErr, OnOk, length};
ghost use Rattle.zj_block.specs.declared.sizes.TheConstants.{MAX_CORES};
ghost use Rattle.zj_dev.specs.Disk.{IsSettled};
ghost use Rattle.zj_dev.specs.Fault.{Rose};
ghost use Rattle.zj_dev.specs.declared.device.Device.TheVariants as devices;
ghost use Rattle.zj_mount.specs.declared.fault.MountFault.TheVariants as faults;
ghost use Rattle.zj_mount.specs.Scanning.{FailsAt};
ghost use Rattle.zj_mount.specs.Settling.{AllSettled, AreSynced, FailsToSettle, IsSettleCause, IsSynced, Settles};

use crate::areas::Areas;
use crate::fault::MountFault;
use zj_area::Area;
use zj_dev::{Device, Disk};
use zj_home::Home;

/// Syncs home and then each journal, in the order of the cores. What was pending on a device outlasts a crash from then on.
///
/// `DiskFault` names the first device that failed; those behind it are not synced.
pub(crate) fn settle_all<D: Disk>(
    home: &mut Home<D>,
    areas: &mut Areas<D>,
) -> Result<(), MountFault>
    requires { length areas.old.areas ≤ MAX_CORES }
    ensures settled { OnOk result (IsSettled (D.view home.new.device)) }
    ensures all_settled { OnOk result (AllSettled D.view areas.new.areas (length areas.old.areas)) }
    ensures cause { IfErr result (IsSettleCause D.view home.old.device home.new.device areas.old.areas areas.new.areas) }
    ensures settles { Settles (D.view home.old.device) (D.view home.new.device) }
    ensures synced { AreSynced D.view areas.old.areas areas.new.areas }
    ensures told { home.new.told ≡ home.old.told }
    ensures count { length areas.new.areas ≡ length areas.old.areas }
    ensures spare { areas.new.spare ≡ areas.old.spare }
{
    settle_home(home)?;
    settle_areas(areas.slice_mut())
}

/// Syncs home.
fn settle_home<D: Disk>(home: &mut Home<D>) -> Result<(), MountFault>
    ensures settled { OnOk result (IsSettled (D.view home.new.device)) }
    ensures cause { IfErr result (λ fault. (fault ≡ faults.DiskFault devices.Home) × Rose (D.view home.old.device).faults (D.view home.new.device).faults) }
    ensures settles { Settles (D.view home.old.device) (D.view home.new.device) }
    ensures told { home.new.told ≡ home.old.told }
{
    match home.sync() {
        Ok(()) => Ok(()),
        Err(_) => Err(MountFault::DiskFault {
            device: Device::Home,
        }),
    }
}

/// Syncs journals, in the order of their cores.
fn settle_areas<D: Disk>(areas: &mut [Area<D>]) -> Result<(), MountFault>
    requires { length areas.old ≤ MAX_CORES }
    ensures settled { OnOk result (AllSettled D.view areas.new (length areas.old)) }
    ensures cause { IfErr result (FailsToSettle D.view areas.old areas.new) }
    ensures synced { AreSynced D.view areas.old areas.new }
{
    for (core, area) in areas.iter_mut().enumerate() {
        settle_one(area, core as u32)?;
    }
    Ok(())
}

/// Syncs the journal of a core.
fn settle_one<D: Disk>(area: &mut Area<D>, core: u32) -> Result<(), MountFault>
    ensures settled { OnOk result (IsSettled (D.view area.new.device)) }
    ensures cause { IfErr result (λ fault. (fault ≡ faults.DiskFault (devices.Journal core)) × FailsAt D.view area.old area.new) }
    ensures synced { IsSynced D.view area.old area.new }
{
    match area.settle() {
        Ok(()) => Ok(()),
        Err(_) => Err(MountFault::DiskFault {
            device: Device::Journal(core),
        }),
    }
}
