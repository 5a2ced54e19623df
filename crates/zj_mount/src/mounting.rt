//! The mount of an image that was opened.

ghost use Rattle.std.specs.Prelude.{◌≡◌, ◌⊎◌, ◌<◌, ◌≤◌, ℕ, Some, IfOk, IfErr, IfSome, OnOk, length, slice_get};
ghost use Rattle.std.specs.Option.{option_map};
ghost use Rattle.zj_block.specs.declared.sizes.TheConstants.{MAX_CORES};
ghost use Rattle.zj_block.specs.Block.{IsContent, bytes_of};
ghost use Rattle.zj_dev.specs.Disk.{OnlyReads};
ghost use Rattle.zj_dev.specs.Fault.{Rose};
ghost use Rattle.zj_home.specs.Made.{HoldsBlocks};
ghost use Rattle.zj_home.specs.Super.{block_bytes_in};
ghost use Rattle.zj_layout.specs.Shows.{Shows, limits_of};
ghost use Rattle.zj_dev.specs.declared.device.Device.TheVariants as devices;
ghost use Rattle.zj_mount.specs.declared.fault.MountFault.TheVariants as faults;
ghost use Rattle.zj_mount.specs.Mounting.{AreEmpty, AreInOrder, HasTree, IsHomeCause, IsMountCause, IsUsedCause};
ghost use Rattle.zj_mount.specs.Recovered.{empty_from};
ghost use Rattle.zj_mount.specs.Scanning.{AreRead, AreReady, RestIfSettled};
ghost use Rattle.zj_mount.specs.Settling.{AreSettled, IsOfImage, NothingPends, RestEmpty, Settles};

use crate::areas::Areas;
use crate::fault::MountFault;
use crate::recovered::{Recovered, Tally};
use crate::scanning::scan_all;
use crate::settling::settle_all;
use std::alloc::{AllocError, Global};
use zj_area::Area;
use zj_block::{Block, BlockNo, Blocks};
use zj_dev::{Device, Disk};
use zj_home::Home;
use zj_layout::read_tree;
use zj_tree::Tree;

/// Mounts an image, whose journals are in the order of their cores: syncs home and then each journal, reads each journal, and
/// then the blocks of home and the tree that they show. It writes no device. What was pending on one outlasts a crash from
/// then on, also where what the devices hold is refused.
///
/// Records are not replayed yet: the lowest journal that holds one is refused as `Unbuilt`, once all were read.
pub fn mount<D: Disk>(
    alloc: Global,
    home: &mut Home<D>,
    areas: &mut Areas<D>,
) -> Result<Recovered, MountFault>
    requires { AreInOrder home.old.told areas.old.areas }

    // What was recovered.
    ensures sizes { IfOk result (λ recovered. recovered.sizes ≡ home.old.told.sizes) }
    ensures many { IfOk result (λ recovered. length recovered.journals ≡ home.old.told.sizes.cores) }
    ensures journals { IfOk result (λ recovered. (core : ℕ) → core < home.old.told.sizes.cores → slice_get recovered.journals core ≡ option_map empty_from (slice_get home.old.told.tails core)) }
    ensures limits { IfOk result (λ recovered. recovered.tree.limits ≡ limits_of home.old.told.sizes) }
    ensures tree { IfOk result (λ recovered. HasTree D.view home.old.told home.old.device areas.old.areas recovered.blocks recovered.tree.tree) }

    // The areas are then ready.
    ensures ready { OnOk result (AreReady areas.old.areas areas.new.areas (length areas.old.areas)) }

    // Or why nothing was.
    ensures cause { IfErr result (IsMountCause D.view home.old.told home.old.device home.new.device areas.old.areas areas.new.areas) }

    // What it does to the devices: it syncs and reads them.
    ensures told { home.new.told ≡ home.old.told }
    ensures home { Settles (D.view home.old.device) (D.view home.new.device) }
    ensures settled { OnOk result (NothingPends D.view home.new.device areas.new.areas) }
    ensures refused { IfErr result (λ fault. IsOfImage fault → NothingPends D.view home.new.device areas.new.areas) }
    ensures settles { AreSettled D.view areas.old.areas areas.new.areas }
    ensures rest { OnOk result (RestEmpty D.view areas.old.areas areas.new.areas) }
    ensures count { length areas.new.areas ≡ length areas.old.areas }
    ensures spare { areas.new.spare ≡ areas.old.spare }
{
    settle_all(home, areas)?;
    refuse_used(alloc, areas)?;
    let (blocks, tree) = read_home(alloc, home)?;
    let journals = empty_journals(alloc, home)?;
    Ok(Recovered::new(*home.sizes(), journals, blocks, tree))
}

/// Reads the journals, and refuses the first that holds a record.
fn refuse_used<D: Disk>(alloc: Global, areas: &mut Areas<D>) -> Result<(), MountFault>
    requires { length areas.old.areas ≤ MAX_CORES }
    ensures empty { OnOk result (AreEmpty D.view areas.old.areas (length areas.old.areas)) }
    ensures ready { OnOk result (AreReady areas.old.areas areas.new.areas (length areas.old.areas)) }
    ensures rest { OnOk result (RestIfSettled D.view areas.old.areas areas.new.areas (length areas.old.areas)) }
    ensures cause { IfErr result (IsUsedCause D.view areas.old.areas areas.new.areas) }
    ensures read { AreRead D.view areas.old.areas areas.new.areas }
    ensures count { length areas.new.areas ≡ length areas.old.areas }
    ensures spare { areas.new.spare ≡ areas.old.spare }
{
    read_empty(alloc, areas.slice_mut())
}

/// Reads the journals, and refuses the first that holds a record.
fn read_empty<D: Disk>(alloc: Global, areas: &mut [Area<D>]) -> Result<(), MountFault>
    requires { length areas.old ≤ MAX_CORES }
    ensures empty { OnOk result (AreEmpty D.view areas.old (length areas.old)) }
    ensures ready { OnOk result (AreReady areas.old areas.new (length areas.old)) }
    ensures rest { OnOk result (RestIfSettled D.view areas.old areas.new (length areas.old)) }
    ensures cause { IfErr result (IsUsedCause D.view areas.old areas.new) }
    ensures read { AreRead D.view areas.old areas.new }
{
    let mut counts = Vec::new(alloc);
    scan_all(areas, &mut counts)?;
    refuse_records(&counts)
}

/// Refuses the first journal that holds a record, of journals that hold so many each.
fn refuse_records(counts: &[usize]) -> Result<(), MountFault>
    requires { length counts.now ≤ MAX_CORES }
    ensures none { OnOk result ((core : ℕ) → core < length counts.now → slice_get counts.now core ≡ Some 0) }
    ensures first { IfErr result (λ fault. (core count : ℕ) × (fault ≡ faults.Unbuilt (devices.Journal core)) × (slice_get counts.now core ≡ Some count) × (0 < count) × ((k : ℕ) → k < core → slice_get counts.now k ≡ Some 0)) }
{
    for (core, count) in counts.iter().enumerate() {
        if *count > 0 {
            return Err(MountFault::Unbuilt {
                device: Device::Journal(core as u32),
            });
        }
    }
    Ok(())
}

/// The blocks of home, and the tree that they show.
fn read_home<D: Disk>(alloc: Global, home: &mut Home<D>) -> Result<(Blocks, Tree), MountFault>
    ensures held { IfOk result (λ read. IfSome (D.view home.old.device).bytes (λ image. HoldsBlocks image read.0 (length read.0))) }
    ensures shows { IfOk result (λ read. Shows home.old.told.sizes read.0 read.1.tree) }
    ensures limits { IfOk result (λ read. read.1.limits ≡ limits_of home.old.told.sizes) }
    ensures cause { IfErr result (IsHomeCause D.view home.old.told home.old.device home.new.device) }
    ensures told { home.new.told ≡ home.old.told }
    ensures read { OnlyReads (D.view home.old.device) (D.view home.new.device) }
{
    let blocks = read_blocks(alloc, home)?;
    let tree = read_tree(alloc, home.sizes(), &blocks)?;
    Ok((blocks, tree))
}

/// The blocks of home.
pub(crate) fn read_blocks<D: Disk>(alloc: Global, home: &mut Home<D>) -> Result<Blocks, MountFault>
    ensures many { IfOk result (λ blocks. length blocks ≡ home.old.told.sizes.blocks) }
    ensures held { IfOk result (λ blocks. IfSome (D.view home.old.device).bytes (λ image. HoldsBlocks image blocks (length blocks))) }
    ensures told { home.new.told ≡ home.old.told }
    ensures read { OnlyReads (D.view home.old.device) (D.view home.new.device) }
    ensures cause { IfErr result (λ fault. (fault ≡ faults.NoMemory) ⊎ ((fault ≡ faults.DiskFault devices.Home) × Rose (D.view home.old.device).faults (D.view home.new.device).faults)) }
{
    let count = home.sizes().blocks();
    let mut blocks = Blocks::zero(alloc, count)?;
    for number in 0..count {
        let block = read_block(home, number)?;
        let _put = blocks.put(number as usize, &block);
    }
    Ok(blocks)
}

/// A block of home.
fn read_block<D: Disk>(home: &mut Home<D>, number: u32) -> Result<Block, MountFault>
    requires { number < home.old.told.sizes.blocks }
    ensures block { IfOk result (λ block. IfSome (D.view home.old.device).bytes (λ image. bytes_of block ≡ block_bytes_in image number)) }
    ensures content { IfOk result IsContent }
    ensures told { home.new.told ≡ home.old.told }
    ensures read { OnlyReads (D.view home.old.device) (D.view home.new.device) }
    ensures cause { IfErr result (λ fault. (fault ≡ faults.DiskFault devices.Home) × Rose (D.view home.old.device).faults (D.view home.new.device).faults) }
{
    let mut block = Block::zero();
    match home.read_block(BlockNo(number), &mut block) {
        Ok(()) => Ok(block),
        Err(_) => Err(MountFault::DiskFault {
            device: Device::Home,
        }),
    }
}

/// What journals held that held no record.
fn empty_journals<D: Disk>(alloc: Global, home: &Home<D>) -> Result<Vec<Tally>, AllocError>
    ensures many { IfOk result (λ journals. length journals.items ≡ home.now.told.sizes.cores) }
    ensures told { IfOk result (λ journals. (core : ℕ) → core < home.now.told.sizes.cores → slice_get journals.items core ≡ option_map empty_from (slice_get home.now.told.tails core)) }
{
    let mut journals = Vec::new(alloc);
    for core in 0..home.sizes().cores() {
        let tail = home.tail(core).unwrap();
        journals.push(Tally {
            from: tail.number,
            found: 0,
            kept: 0,
        })?;
    }
    Ok(journals)
}
