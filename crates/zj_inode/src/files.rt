//! The calls that change the bytes of files: truncate and write.

ghost use Rattle.std.specs.Prelude.{◌≡◌, ◌≢◌, ℕ, ◌+◌, ◌<◌, ◌≤◌, IfErr, IfOk, IsTrue, OnOk, Some, None, length, slice_index};
ghost use Rattle.std.specs.FinMap as map_of;
ghost use Rattle.zj_block.specs.declared.sizes.TheConstants.{MAX_RECORD_BLOCKS};
ghost use Rattle.zj_tree.specs.declared.call.Call.TheVariants as calls;
ghost use Rattle.zj_tree.specs.Tree.{blocks_for};
ghost use Rattle.zj_layout.specs.declared.fields.Kind.TheVariants as kinds;
ghost use Rattle.zj_layout.specs.Image.{is_data};
ghost use Rattle.zj_layout.specs.Node.{blocks_needed, is_node};
ghost use Rattle.zj_layout.specs.Stored.{IsStored};
ghost use Rattle.zj_changes.specs.Resized.{FreesBlocks, PutsBytes};
ghost use Rattle.zj_dirs.specs.Looking.{IsLowestBlock};
ghost use Rattle.zj_dirs.specs.Possible.{AllTaken, Halts, KeepsContents, Made, Turns, overlaid};
ghost use Rattle.zj_inode.specs.Answering.{Builds, CallStops, count_written};
ghost use Rattle.zj_inode.specs.Files.{Cuts, IsTruncateBlock, IsMapOf, Overwrites, PutsInto, PutsSeen, TakeBlockStops, TakesBlock, TrimsAround, WriteStops, WritesFirst, blocks_up_to};
ghost use Rattle.zj_inode.specs.Performs.{IsWhole, NeedsWithin, OutcomeSays};

use crate::finding::{Located, go_to_file};
use crate::finishing::stop;
use crate::outcome::Outcome;
use crate::stopped::Stopped;
use std::alloc::{AllocError, Global};
use zj_block::{BLOCK_LEN, Block, BlockNo, Sizes, Taken, Written};
use zj_dirs::answers::Halt;
use zj_dirs::looking::{named_data, seen};
use zj_dirs::searching::free_block;
use zj_dirs::setting::{set_content, set_map, set_node};
use zj_dirs::trimming::trim;
use zj_layout::{Kind, Node};
use zj_tree::tree::MAX_BYTES;
use zj_tree::{Bytes, Name, Refusal, Reply};

/// How many bytes a file has at most.
const MAX_FILE: u32 = 6144;

/// Leaves the first bytes of a file. After an error `built` is to be dropped.
pub(crate) fn truncate(
    sizes: &Sizes,
    path: &[Name],
    size: u32,
    taken: &Taken,
    built: &mut Written,
) -> Result<Reply, Stopped>
    requires fresh { built.old ≡ map_of.empty }
    ensures done { IfOk result (Builds sizes.now taken.now built.new (calls.Truncate path.now size)) }
    ensures taken { AllTaken taken.now built.old → AllTaken taken.now built.new }
    ensures few { map_of.len built.new ≤ map_of.len built.old + 13 }
    ensures stop { IfErr result (CallStops sizes.now taken.now (calls.Truncate path.now size)) }
{
    let file = go_to_file(sizes, path, taken)?;
    if size > file.node.size {
        return Err(Stopped::Refused(Refusal::PastEnd));
    }
    cut(sizes, &file, size, taken, built)?;
    let _contents = built.len();
    Ok(Reply::Done)
}

/// Leaves the first bytes of a file, and frees the blocks behind them.
fn cut(
    sizes: &Sizes,
    file: &Located,
    size: u32,
    taken: &Taken,
    built: &mut Written,
) -> Result<(), Halt>
    requires stored { Made sizes.now taken.now built.old (IsStored sizes.now) }
    requires node { Made sizes.now taken.now built.old (λ image. image.node file.now.number ≡ Some file.now.node) }
    requires is_file { file.now.node.kind ≡ kinds.File }
    requires spelled { IsTrue (is_node file.now.node) }
    requires few { file.now.node.size ≤ 6144 }
    requires fewer { size ≤ file.now.node.size }
    ensures done { OnOk result (Turns sizes.now taken.now built.old built.new (λ old new. Cuts sizes.now old new file.now.number size)) }
    ensures taken { AllTaken taken.now built.old → AllTaken taken.now built.new }
    ensures kept { KeepsContents taken.now built.old built.new }
    ensures few { map_of.len built.new ≤ map_of.len built.old + 13 }
    ensures halt { IfErr result (Halts sizes.now taken.now built.old (λ image block. IsTruncateBlock sizes.now image file.now.number size block)) }
{
    let len = BLOCK_LEN as u32;
    let keeps = (size + (len - 1)) / len;
    let had = (file.node.size + (len - 1)) / len;
    free_blocks(sizes, file, keeps, had, taken, built)?;
    set_node(
        sizes,
        file.number,
        &shortened(&file.node, size, keeps),
        taken,
        built,
    )
}

/// A file's node with its first blocks alone.
fn shortened(node: &Node, size: u32, keeps: u32) -> Node
    requires is_file { node.now.kind ≡ kinds.File }
    requires spelled { IsTrue (is_node node.now) }
    requires few { node.now.size ≤ 6144 }
    requires fewer { size ≤ node.now.size }
    requires keeps { keeps ≡ blocks_for size 512 }
    ensures is { result ≡ (record { kind = kinds.File; size = size; blocks = result.blocks }) }
    ensures first { (j : ℕ) → j < keeps → slice_index result.blocks j ≡ slice_index node.now.blocks j }
    ensures spelled { IsTrue (is_node result) }
{
    Node {
        kind: Kind::File,
        size,
        blocks: first_blocks(&node.blocks, keeps),
    }
}

/// The first numbers, and zeros behind them.
fn first_blocks(blocks: &[u32; 12], count: u32) -> [u32; 12]
    requires { count ≤ 12 }
    ensures first { (j : ℕ) → j < count → slice_index result j ≡ slice_index blocks.now j }
    ensures zeros { (j : ℕ) → count ≤ j → slice_index result j ≡ 0 }
{
    let mut first = [0; 12];
    for j in 0..count {
        first[j as usize] = blocks[j as usize];
    }
    first
}

/// Frees the blocks that a node names from one place up to another.
pub(crate) fn free_blocks(
    sizes: &Sizes,
    of: &Located,
    low: u32,
    high: u32,
    taken: &Taken,
    built: &mut Written,
) -> Result<(), Halt>
    requires stored { Made sizes.now taken.now built.old (IsStored sizes.now) }
    requires node { Made sizes.now taken.now built.old (λ image. image.node of.now.number ≡ Some of.now.node) }
    requires ordered { low ≤ high }
    requires within { high ≤ blocks_needed of.now.node }
    requires many { high ≤ 12 }
    ensures done { OnOk result (Turns sizes.now taken.now built.old built.new (λ old new. FreesBlocks old new of.now.number low high)) }
    ensures taken { AllTaken taken.now built.old → AllTaken taken.now built.new }
    ensures kept { KeepsContents taken.now built.old built.new }
    ensures few { map_of.len built.new ≤ map_of.len built.old + 12 }
    ensures halt { IfErr result (Halts sizes.now taken.now built.old (λ image block. IsMapOf image of.now.number low high block)) }
{
    for j in low..high {
        named_data(sizes, of.node.blocks[j as usize])?;
        set_map(sizes, of.node.blocks[j as usize], false, taken, built)?;
    }
    Ok(())
}

/// Puts bytes into a file from a place on, and performs so: each block of the range is written whole.
pub(crate) fn write(
    alloc: Global,
    sizes: &Sizes,
    path: &[Name],
    at: u32,
    bytes: &Bytes,
    taken: &Taken,
) -> Result<Outcome, AllocError>
    ensures says { IfOk result (OutcomeSays sizes.now taken.now (calls.Write path.now at bytes.now)) }
    ensures within { IfOk result (NeedsWithin sizes.now) }
    ensures whole { IfOk result (IsWhole sizes.now taken.now path.now at (length bytes.now)) }
    ensures few { IfOk result (λ outcome. count_written outcome ≤ MAX_RECORD_BLOCKS) }
{
    let mut built = Written::new(alloc);
    let bytes = bytes.as_slice();
    match overwrite(sizes, path, at, bytes, taken, &mut built) {
        Ok(blocks) => {
            let low = at / BLOCK_LEN as u32;
            let high = end_block(at, bytes.len() as u32);
            Ok(Outcome::Done {
                reply: Reply::Done,
                written: trim_around(alloc, taken, &built, &blocks, low, high)?,
            })
        }
        Err(stopped) => stop(alloc, sizes, stopped),
    }
}

/// The new contents that are to be written: those that count, and those of some blocks.
fn trim_around(
    alloc: Global,
    taken: &Taken,
    built: &Written,
    blocks: &[u32; 12],
    low: u32,
    high: u32,
) -> Result<Written, AllocError>
    requires all { AllTaken taken.now built.now }
    requires ordered { low ≤ high }
    requires few { high ≤ 12 }
    ensures trims { IfOk result (TrimsAround taken.now built.now blocks.now low high) }
    ensures few { IfOk result (λ written. map_of.len written ≤ map_of.len built.now + 12) }
{
    let mut written = trim(alloc, taken, built)?;
    for j in low..high {
        put_seen(BlockNo(blocks[j as usize]), taken, built, &mut written)?;
    }
    Ok(written)
}

/// Writes a block also where its content comes out as it was found.
fn put_seen(
    block: BlockNo,
    taken: &Taken,
    built: &Written,
    written: &mut Written,
) -> Result<(), AllocError>
    ensures puts { OnOk result (PutsSeen taken.now built.now written.old written.new block.0) }
    ensures few { map_of.len written.new ≤ map_of.len written.old + 1 }
{
    let Some(content) = seen(block, taken, Some(built)) else {
        return Ok(());
    };
    Ok(written.put(block, content)?)
}

/// Puts bytes into a file from a place on. It tells the numbers of the file's blocks then. After an error `built` is to be
/// dropped.
fn overwrite(
    sizes: &Sizes,
    path: &[Name],
    at: u32,
    bytes: &[u8],
    taken: &Taken,
    built: &mut Written,
) -> Result<[u32; 12], Stopped>
    requires fresh { built.old ≡ map_of.empty }
    ensures done { IfOk result (λ blocks. Overwrites sizes.now taken.now built.new path.now at bytes.now blocks) }
    ensures fits { OnOk result (at + length bytes.now ≤ 6144) }
    ensures taken { AllTaken taken.now built.old → AllTaken taken.now built.new }
    ensures few { map_of.len built.new ≤ map_of.len built.old + 25 }
    ensures stop { IfErr result (CallStops sizes.now taken.now (calls.Write path.now at bytes.now)) }
{
    let file = go_to_file(sizes, path, taken)?;
    if at > file.node.size {
        return Err(Stopped::Refused(Refusal::PastEnd));
    }
    if bytes.len() > MAX_BYTES {
        return Err(Stopped::Refused(Refusal::TooBig));
    }
    let to = at + bytes.len() as u32;
    if to > MAX_FILE {
        return Err(Stopped::Refused(Refusal::TooBig));
    }
    let blocks = write_blocks(sizes, &file, at, bytes, taken, built)?;
    let node = Node {
        kind: Kind::File,
        size: file.node.size.max(to),
        blocks,
    };
    set_node(sizes, file.number, &node, taken, built)?;
    let _contents = built.len();
    Ok(blocks)
}

/// Writes bytes into the blocks of a file from a place on, and into free ones where it has too few. It tells the
/// numbers of all its blocks.
fn write_blocks(
    sizes: &Sizes,
    file: &Located,
    at: u32,
    bytes: &[u8],
    taken: &Taken,
    built: &mut Written,
) -> Result<[u32; 12], Stopped>
    requires stored { Made sizes.now taken.now built.old (IsStored sizes.now) }
    requires node { Made sizes.now taken.now built.old (λ image. image.node file.now.number ≡ Some file.now.node) }
    requires is_file { file.now.node.kind ≡ kinds.File }
    requires spelled { IsTrue (is_node file.now.node) }
    requires few { file.now.node.size ≤ 6144 }
    requires at_most { at ≤ file.now.node.size }
    requires fits { at + length bytes.now ≤ 6144 }
    ensures done { IfOk result (λ blocks. WritesFirst sizes.now taken.now built.old built.new file.now.number at (blocks_needed file.now.node) bytes.now blocks (blocks_up_to at (length bytes.now))) }
    ensures taken { AllTaken taken.now built.old → AllTaken taken.now built.new }
    ensures kept { KeepsContents taken.now built.old built.new }
    ensures few { map_of.len built.new ≤ map_of.len built.old + 24 }
    ensures stop { IfErr result (WriteStops sizes.now taken.now built.old file.now.number at (at + length bytes.now)) }
{
    let len = BLOCK_LEN as u32;
    let had = (file.node.size + (len - 1)) / len;
    let end = end_block(at, bytes.len() as u32);
    let mut blocks = numbers(&file.node);
    for j in at / len..end {
        if j < had {
            named_data(sizes, blocks[j as usize])?;
            write_old(sizes, blocks[j as usize], len * j, at, bytes, taken, built)?;
        } else {
            blocks[j as usize] = write_new(sizes, len * j, at, bytes, taken, built)?;
        }
    }
    Ok(blocks)
}

/// The numbers of a node's blocks.
fn numbers(node: &Node) -> [u32; 12]
    ensures { result ≡ node.now.blocks }
{
    node.blocks
}

/// How many of the first blocks of a file are written.
fn end_block(at: u32, count: u32) -> u32
    requires { at + count ≤ 6144 }
    ensures { result ≡ blocks_up_to at count }
{
    let len = BLOCK_LEN as u32;
    if count == 0 {
        return at / len;
    }
    (at + count + (len - 1)) / len
}

/// Writes the bytes of a range that lie in a block of the file's.
fn write_old(
    sizes: &Sizes,
    block: u32,
    first: u32,
    at: u32,
    bytes: &[u8],
    taken: &Taken,
    built: &mut Written,
) -> Result<(), Halt>
    requires low { first ≤ 6144 }
    requires fits { at + length bytes.now ≤ 6144 }
    ensures done { OnOk result (Turns sizes.now taken.now built.old built.new (λ old new. IsTrue (is_data sizes.now block) → PutsInto sizes.now old new block first at bytes.now)) }
    ensures taken { AllTaken taken.now built.old → AllTaken taken.now built.new }
    ensures kept { KeepsContents taken.now built.old built.new }
    ensures few { map_of.len built.new ≤ map_of.len built.old + 1 }
    ensures seen { OnOk result (overlaid taken.now built.old block ≢ None) }
    ensures halt { IfErr result (Halts sizes.now taken.now built.old (λ image b. b ≡ block)) }
{
    let Some(found) = seen(BlockNo(block), taken, Some(&*built)) else {
        return Err(Halt::Need(BlockNo(block)));
    };
    let content = with_range(found, first, at, bytes);
    set_content(sizes, block, &content, taken, built)?;
    Ok(())
}

/// Takes the lowest free block, and writes the bytes of a range that lie in it, and else zeros.
fn write_new(
    sizes: &Sizes,
    first: u32,
    at: u32,
    bytes: &[u8],
    taken: &Taken,
    built: &mut Written,
) -> Result<u32, Stopped>
    requires low { first ≤ 6144 }
    requires fits { at + length bytes.now ≤ 6144 }
    requires used { Made sizes.now taken.now built.old (λ image. image.map 0 ≢ 0) }
    ensures lowest { IfOk result (λ block. Made sizes.now taken.now built.old (λ image. IsLowestBlock sizes.now image (Some block))) }
    ensures done { IfOk result (λ block. Turns sizes.now taken.now built.old built.new (λ old new. IsTrue (is_data sizes.now block) → TakesBlock sizes.now old new block first at bytes.now)) }
    ensures named { IfOk result (λ block. block ≢ 0) }
    ensures taken { AllTaken taken.now built.old → AllTaken taken.now built.new }
    ensures kept { KeepsContents taken.now built.old built.new }
    ensures few { map_of.len built.new ≤ map_of.len built.old + 2 }
    ensures seen { IfOk result (λ block. overlaid taken.now built.old block ≢ None) }
    ensures stop { IfErr result (TakeBlockStops sizes.now taken.now built.old) }
{
    let Some(block) = free_block(sizes, taken, built)? else {
        return Err(Stopped::Refused(Refusal::NoSpace));
    };
    if block == 0 {
        return Err(Stopped::Odd);
    }
    let Some(_found) = seen(BlockNo(block), taken, Some(&*built)) else {
        return Err(Stopped::Need(BlockNo(block)));
    };
    let content = with_range(&Block::zero(), first, at, bytes);
    set_map(sizes, block, true, taken, built)?;
    set_content(sizes, block, &content, taken, built)?;
    Ok(block)
}

/// The content of a block, whose first byte is at a place of a file, with the bytes of a range that lie in it.
fn with_range(was: &Block, first: u32, at: u32, bytes: &[u8]) -> Block
    requires low { first ≤ 6144 }
    requires fits { at + length bytes.now ≤ 6144 }
    ensures { PutsBytes was.now result first at bytes.now }
{
    let mut out = [0; 512];
    was.to_bytes(&mut out);
    let end = (at + bytes.len() as u32).min(first + BLOCK_LEN as u32);
    for k in at.max(first)..end {
        out[(k - first) as usize] = bytes[(k - at) as usize];
    }
    Block::from_bytes(&out)
}
