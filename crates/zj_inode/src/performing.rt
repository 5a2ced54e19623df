//! Performing a call over blocks that were taken.

ghost use Rattle.std.specs.Prelude.{◌≡◌, ◌≢◌, ◌+◌, ◌<◌, ◌≤◌, IfErr, IfNone, IfOk, IfSome, None};
ghost use Rattle.std.specs.FinMap as map_of;
ghost use Rattle.zj_block.specs.Lists.{content_under};
ghost use Rattle.zj_block.specs.declared.sizes.TheConstants.{MAX_RECORD_BLOCKS};
ghost use Rattle.zj_layout.specs.Image.{node_block};
ghost use Rattle.zj_dirs.specs.Possible.{AllTaken};
ghost use Rattle.zj_inode.specs.Answering.{Builds, CallStops, IsAnswered, count_written};
ghost use Rattle.zj_inode.specs.Performs.{IsRootFirst, IsWholeWrite, NeedsWithin, OutcomeSays};

use crate::files::{truncate, write};
use crate::finishing::finish;
use crate::looking::{fsync, list, read, stat};
use crate::making::make_entry;
use crate::outcome::Outcome;
use crate::removing::{rmdir, unlink};
use crate::renaming::rename;
use crate::stopped::Stopped;
use std::alloc::{AllocError, Global};
use zj_block::{BlockNo, Sizes, Taken, Written};
use zj_layout::Kind;
use zj_tree::{Call, Reply};

/// Performs a call over the blocks that were taken, or tells which block it needs besides: first of all that of the root's
/// node, whatever the call is. It writes nothing: the new contents are in the outcome, no more than one record holds.
///
/// The outcome is `Odd` only where the blocks are part of no state that shows a tree. `AllocError`: no memory was at hand.
pub fn perform(
    alloc: Global,
    sizes: &Sizes,
    call: &Call,
    taken: &Taken,
) -> Result<Outcome, AllocError>
    ensures says { IfOk result (OutcomeSays sizes.now taken.now call.now) }
    ensures root { IfOk result (IsRootFirst sizes.now taken.now) }
    ensures within { IfOk result (NeedsWithin sizes.now) }
    ensures whole { IfOk result (IsWholeWrite sizes.now taken.now call.now) }
    ensures few { IfOk result (λ outcome. count_written outcome ≤ MAX_RECORD_BLOCKS) }
{
    if let Some(block) = untaken_root(sizes, taken) {
        return Ok(Outcome::Need(block));
    }
    if let Call::Write { path, at, bytes } = call {
        return write(alloc, sizes, path.as_slice(), *at, bytes, taken);
    }
    let mut built = Written::new(alloc);
    let answered = answer(alloc, sizes, call, taken, &mut built);
    finish(alloc, sizes, taken, &built, answered)
}

/// The block of the root's node, which is node 0, where it was not taken.
fn untaken_root(sizes: &Sizes, taken: &Taken) -> Option<BlockNo>
    ensures some { IfSome result (λ block. (block.0 ≡ node_block sizes.now 0) × (content_under taken.now block.0 ≡ None) × (block.0 < sizes.now.blocks)) }
    ensures none { IfNone result (content_under taken.now (node_block sizes.now 0) ≢ None) }
{
    let block = BlockNo(sizes.map_blocks());
    match taken.get(block) {
        Some(_found) => None,
        None => Some(block),
    }
}

/// What a call but write answers, with the new contents that it builds. After an error they are to be dropped.
fn answer(
    alloc: Global,
    sizes: &Sizes,
    call: &Call,
    taken: &Taken,
    built: &mut Written,
) -> Result<Reply, Stopped>
    requires known { IsAnswered call.now }
    requires fresh { built.old ≡ map_of.empty }
    ensures done { IfOk result (Builds sizes.now taken.now built.new call.now) }
    ensures taken { AllTaken taken.now built.old → AllTaken taken.now built.new }
    ensures few { map_of.len built.new ≤ map_of.len built.old + 17 }
    ensures stop { IfErr result (CallStops sizes.now taken.now call.now) }
{
    match call {
        Call::Mkdir { path } => make_entry(sizes, Kind::Dir, path.as_slice(), taken, built),
        Call::Create { path } => make_entry(sizes, Kind::File, path.as_slice(), taken, built),
        Call::Unlink { path } => unlink(sizes, path.as_slice(), taken, built),
        Call::Rmdir { path } => rmdir(sizes, path.as_slice(), taken, built),
        Call::List { path } => list(alloc, sizes, path.as_slice(), taken),
        Call::Stat { path } => stat(sizes, path.as_slice(), taken),
        Call::Fsync { path } => fsync(sizes, path.as_slice(), taken),
        Call::Read { path, at, count } => {
            read(alloc, sizes, path.as_slice(), *at, *count, taken)
        }
        Call::Write { .. } => unreachable!(),
        Call::Truncate { path, size } => truncate(sizes, path.as_slice(), *size, taken, built),
        Call::Rename { from, to } => rename(sizes, from.as_slice(), to.as_slice(), taken, built),
    }
}
