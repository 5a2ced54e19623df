//! Leaving out new contents that come out as they were found.

ghost use Rattle.std.specs.Prelude.{◌≡◌, ◌↔◌, IfOk, IsTrue, OnOk, Some};
ghost use Rattle.zj_block.specs.Lists.{content_under};
ghost use Rattle.zj_dirs.specs.Possible.{AllTaken};
ghost use Rattle.zj_dirs.specs.Trimming.{Counts, IsTrimmed, IsTrimmedAt, MakeTheSame, WasFoundFree};

use crate::searching::map_byte;
use std::alloc::{AllocError, Global};
use zj_block::{BLOCKS_PER_MAP_BLOCK, Block, BlockNo, Taken, Written};

/// The new contents that are to be written: all but those that come out as they were found, and of the newly used blocks,
/// which were free in the map as it was found, those too.
pub fn trim(alloc: Global, taken: &Taken, built: &Written) -> Result<Written, AllocError>
    requires { AllTaken taken.now built.now }
    ensures trimmed { IfOk result (IsTrimmed taken.now built.now) }
    ensures same { IfOk result (MakeTheSame taken.now built.now) }
{
    let mut written = Written::new(alloc);
    for i in 0..taken.len() {
        if let Some((block, _found)) = taken.at(i) {
            trim_block(block, taken, built, &mut written)?;
        }
    }
    Ok(written)
}

// Adds the new content of a block, if it counts.
fn trim_block(
    block: BlockNo,
    taken: &Taken,
    built: &Written,
    written: &mut Written,
) -> Result<(), AllocError>
    ensures { OnOk result (IsTrimmedAt taken.now built.now written.old written.new block.0) }
{
    let Some(content) = built.get(block) else {
        return Ok(());
    };
    if counts(taken, block, content) {
        return Ok(written.put(block, content)?);
    }
    Ok(())
}

// Whether a new content is to be written.
fn counts(taken: &Taken, block: BlockNo, content: &Block) -> bool
    ensures { IsTrue result ↔ Counts taken.now block.0 content.now }
{
    !is_found(taken, block, content) || was_free(taken, block)
}

// Whether a block was found with a content.
fn is_found(taken: &Taken, block: BlockNo, content: &Block) -> bool
    ensures { IsTrue result ↔ (content_under taken.now block.0 ≡ Some content.now) }
{
    match taken.get(block) {
        Some(found) => found == content,
        None => false,
    }
}

// Whether a block was free in the map as it was found.
fn was_free(taken: &Taken, block: BlockNo) -> bool
    ensures { IsTrue result ↔ WasFoundFree taken.now block.0 }
{
    match taken.get(BlockNo(block.0 / BLOCKS_PER_MAP_BLOCK)) {
        Some(map) => map_byte(map, block.0 % BLOCKS_PER_MAP_BLOCK) == 0,
        None => false,
    }
}
