//! Reading the journals of an image.

ghost use Rattle.std.specs.Prelude.{◌≡◌, ◌≤◌, [], IfOk, IfErr, OnOk, length};
ghost use Rattle.zj_block.specs.declared.sizes.TheConstants.{MAX_CORES};
ghost use Rattle.zj_dev.specs.Disk.{OnlyReads};
ghost use Rattle.zj_mount.specs.Scanning.{AreCounted, AreRead, AreReady, HoldsSome, IsAreaCause, IsNowReady, RestIfNone, RestsIfSettled, StopsAt};

use crate::fault::MountFault;
use zj_area::{Area, ScanFault};
use zj_dev::{Device, Disk};

/// How many records the journal of a core holds.
fn scan_one<D: Disk>(area: &mut Area<D>, core: u32) -> Result<usize, MountFault>
    ensures count { IfOk result (HoldsSome D.view area.old) }
    ensures ready { OnOk result (IsNowReady area.old area.new) }
    ensures rest { IfOk result (λ count. count ≡ 0 → RestsIfSettled D.view area.old area.new) }
    ensures read { OnlyReads (D.view area.old.device) (D.view area.new.device) }
    ensures cause { IfErr result (IsAreaCause D.view core area.old area.new) }
{
    let device = Device::Journal(core);
    match area.scan() {
        Ok(found) => Ok(found.len()),
        Err(ScanFault::DiskFault) => Err(MountFault::DiskFault { device }),
        Err(
            ScanFault::Damaged {
                at,
                found,
                expected,
            },
        ) => Err(MountFault::Damaged {
            device,
            at,
            found,
            expected,
        }),
        Err(ScanFault::NoMemory) => Err(MountFault::NoMemory),
    }
}

/// How many records each journal holds, in the order of the cores. After a fault the counts are those of the
/// journals before it.
pub(crate) fn scan_all<D: Disk>(
    areas: &mut [Area<D>],
    counts: &mut Vec<usize>,
) -> Result<(), MountFault>
    requires few { length areas.old ≤ MAX_CORES }
    requires none { counts.old.items ≡ [] }
    ensures counted { OnOk result (AreCounted D.view areas.old counts.new.items (length areas.old)) }
    ensures many { OnOk result (length counts.new.items ≡ length areas.old) }
    ensures ready { OnOk result (AreReady areas.old areas.new (length areas.old)) }
    ensures rest { OnOk result (RestIfNone D.view areas.old areas.new counts.new.items (length areas.old)) }
    ensures read { AreRead D.view areas.old areas.new }
    ensures cause { IfErr result (StopsAt D.view areas.old areas.new counts.new.items) }
{
    for (core, area) in areas.iter_mut().enumerate() {
        counts.reserve(1)?;
        let count = scan_one(area, core as u32)?;
        counts.push(count).unwrap();
    }
    Ok(())
}
