//! The inspection of an image that was opened, whose journals may hold records.

ghost use Rattle.std.specs.Prelude.{◌≡◌, ◌-◌, ◌<◌, ◌≤◌, ℕ, All, Some, IfOk, IfErr, IfSome, List, OnOk, length, map, slice_get, slice_index, slice_set};
ghost use Rattle.zj_block.specs.Block.{IsContent};
ghost use Rattle.zj_block.specs.declared.sizes.TheConstants.{MAX_CORES};
ghost use Rattle.zj_closure.specs.Found.{tail_of};
ghost use Rattle.zj_closure.specs.Newest.{HasNewest};
ghost use Rattle.zj_closure.specs.Recovered.{recovered};
ghost use Rattle.zj_dev.specs.Disk.{OnlyReads};
ghost use Rattle.zj_layout.specs.Shows.{Shows, limits_of};
ghost use Rattle.zj_mount.specs.Inspecting.{AreAllReady, AreJournals, AreOnlyRead, HomeHolds, Inspects, IsInspectCause, IsRecoverCause, tally_of};
ghost use Rattle.zj_tx.specs.Record.{Record};

use crate::fault::MountFault;
use crate::gathering::{bound_of, gather_kept};
use crate::mounting::read_blocks;
use crate::recovered::{Recovered, Tally};
use std::alloc::{AllocError, Global};
use zj_area::Journal;
use zj_block::{Blocks, Bounds};
use zj_closure::Images;
use zj_dev::Disk;
use zj_home::Home;
use zj_layout::read_tree;
use zj_tree::Tree;
use zj_tx::Found;

/// What an image holds whose journals, in the order of their cores, may hold records: reads each journal, keeps the greatest
/// consistent cut of what was found, puts the newest images of the kept records over the blocks of home, and reads the tree
/// that these show. It writes no device and syncs none, so what was pending on a device is pending still. The blocks of one
/// journal are in memory at a time: where not all that was found is kept, the journals are read twice.
///
/// `Damaged` names the first journal behind an open gate of which no record stands that is due, `DiskFault` the first journal
/// whose device failed, or home, and `NoTree` the first rule that the recovered blocks break. `Unbuilt` never comes.
pub fn inspect<D: Disk, J: Journal>(
    alloc: Global,
    home: &mut Home<D>,
    journals: &mut [J],
) -> Result<Recovered, MountFault>
    requires { AreJournals home.old.told (map J.journal journals.old) }

    // What was recovered.
    ensures inspects { IfOk result (Inspects home.old.told (D.view home.old.device) (map J.journal journals.old)) }

    // The journals are then ready.
    ensures ready { OnOk result (AreAllReady (map J.journal journals.new) (length journals.old)) }

    // Or why nothing was.
    ensures cause { IfErr result (IsInspectCause home.old.told (D.view home.old.device) (D.view home.new.device) (map J.journal journals.old) (map J.journal journals.new)) }

    // What it does to the devices: it reads them.
    ensures told { home.new.told ≡ home.old.told }
    ensures home_read { OnlyReads (D.view home.old.device) (D.view home.new.device) }
    ensures read { AreOnlyRead (map J.journal journals.old) (map J.journal journals.new) }
{
    let gathered = gather_kept(alloc, home, journals)?;
    let (blocks, tree) = recover(alloc, home, &gathered.images)?;
    let tallies = tallies_of(alloc, home, &gathered.heads, &gathered.kept)?;
    Ok(Recovered::new(*home.sizes(), tallies, blocks, tree))
}

/// The blocks of home under images, and the tree that they show.
fn recover<D: Disk>(
    alloc: Global,
    home: &mut Home<D>,
    images: &Images,
) -> Result<(Blocks, Tree), MountFault>
    ensures recovered { (records : List Record) → HasNewest images.now records → IfOk result (λ read. (base : _) × HomeHolds home.old.told.sizes (D.view home.old.device) base × (read.0 ≡ recovered records base)) }
    ensures shows { IfOk result (λ read. Shows home.old.told.sizes read.0 read.1.tree) }
    ensures limits { IfOk result (λ read. read.1.limits ≡ limits_of home.old.told.sizes) }
    ensures cause { (records : List Record) → HasNewest images.now records → IfErr result (IsRecoverCause home.old.told.sizes (D.view home.old.device) (D.view home.new.device) records) }
    ensures told { home.new.told ≡ home.old.told }
    ensures read { OnlyReads (D.view home.old.device) (D.view home.new.device) }
{
    let mut blocks = read_blocks(alloc, home)?;
    put_images(&mut blocks, images);
    let tree = read_tree(alloc, home.sizes(), &blocks)?;
    Ok((blocks, tree))
}

/// Puts images over the blocks that they are of.
fn put_images(blocks: &mut Blocks, images: &Images)
    ensures recovered { (records : List Record) → HasNewest images.now records → blocks.new ≡ recovered records blocks.old }
    ensures contents { All IsContent blocks.old }
    ensures many { length blocks.new ≡ length blocks.old }
{
    let _len = blocks.len();
    for i in 0..images.len() {
        put_image(blocks, images, i);
    }
}

/// Puts the image with this place over its block, if the image has that block.
fn put_image(blocks: &mut Blocks, images: &Images, i: usize)
    ensures { IfSome (slice_get images.now i) (λ p. blocks.new ≡ slice_set blocks.old p.block.0 p.image) }
{
    let Some((block, image)) = images.at(i) else {
        return;
    };
    let _put = blocks.put(block.0 as usize, image);
}

/// What the journals held of which so much is kept.
fn tallies_of<D: Disk>(
    alloc: Global,
    home: &Home<D>,
    found: &[Found],
    kept: &Bounds,
) -> Result<Vec<Tally>, AllocError>
    requires many { length found.now ≤ MAX_CORES }
    requires kept { (core : ℕ) → tail_of home.now.told.tails core ≤ slice_index kept.now core }
    ensures many { IfOk result (λ tallies. length tallies.items ≡ length found.now) }
    ensures told { IfOk result (λ tallies. (core : ℕ) → core < length found.now → slice_get tallies.items core ≡ Some (tally_of (tail_of home.now.told.tails) found.now (slice_index kept.now) core)) }
{
    let mut tallies = Vec::new(alloc);
    for (core, records) in found.iter().enumerate() {
        tallies.push(tally(home, core as u32, records, kept))?;
    }
    Ok(tallies)
}

/// What the journal of a core held of which so much is kept.
fn tally<D: Disk>(home: &Home<D>, core: u32, records: &Found, kept: &Bounds) -> Tally
    requires { tail_of home.now.told.tails core ≤ slice_index kept.now core }
    ensures { result ≡ record { from = tail_of home.now.told.tails core; found = length records.now; kept = slice_index kept.now core - tail_of home.now.told.tails core } }
{
    let from = start_of(home, core);
    let bound = bound_of(kept, core);
    Tally {
        from,
        found: records.len() as u64,
        kept: bound - from,
    }
}

/// The number of a core's tail, and 0 from the count of cores on.
fn start_of<D: Disk>(home: &Home<D>, core: u32) -> u64
    ensures { result ≡ tail_of home.now.told.tails core }
{
    match home.tail(core) {
        Some(tail) => tail.number,
        None => 0,
    }
}
