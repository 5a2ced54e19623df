//! Adding and removing entries of directories, over blocks that were taken, with the written ones put in.

ghost use Rattle.std.specs.Prelude.{◌≡◌, ◌≢◌, ℕ, ◌+◌, ◌-◌, ◌/◌, ◌%◌, ◌<◌, ◌≤◌, IfErr, IfOk, IsTrue, OnOk, Some, slice_index};
ghost use Rattle.zj_block.specs.Block.{zero_content};
ghost use Rattle.std.specs.FinMap as map_of;
ghost use Rattle.zj_layout.specs.declared.fields.Kind.TheVariants as kinds;
ghost use Rattle.zj_layout.specs.Image.{item_block, node_of};
ghost use Rattle.zj_layout.specs.Node.{is_node, link_in};
ghost use Rattle.zj_layout.specs.Stored.{IsStored};
ghost use Rattle.zj_changes.specs.Entry.{Appends};
ghost use Rattle.zj_dirs.specs.Changing.{ChangesWithin, CutsLast, FillsHole, IsCutBlock, IsPlaceBlock, IsRemoveBlock, PlaceSays, RemoveSays, Removes};
ghost use Rattle.zj_dirs.specs.Possible.{AllTaken, Halts, HaltsWithin, Made, KeepsContents, Turns};

use crate::answers::{Change, Halt};
use crate::looking::{named_data, read_dir, read_link};
use crate::searching::free_block;
use crate::setting::{set_content, set_link, set_map, set_node};
use std::alloc::AllocError;
use zj_block::{Block, Sizes, Taken, Written};
use zj_layout::{Kind, LINKS_PER_BLOCK, Link, Node, put_link};
use zj_tree::tree::MAX_ENTRIES;

/// Adds an entry to a directory, last. After any answer but `Done`, and after an error, `written` is to be dropped.
pub fn place(
    sizes: &Sizes,
    dir: u32,
    link: &Link,
    taken: &Taken,
    written: &mut Written,
) -> Result<Change, AllocError>
    requires stored { Made sizes.now taken.now written.old (IsStored sizes.now) }
    requires directory { Made sizes.now taken.now written.old (λ image. (node_of image dir).kind ≡ kinds.Dir) }
    ensures says { IfOk result (PlaceSays sizes.now taken.now written.old written.new dir link.now) }
    ensures within { IfOk result (ChangesWithin sizes.now) }
    ensures taken { AllTaken taken.now written.old → AllTaken taken.now written.new }
    ensures kept { KeepsContents taken.now written.old written.new }
    ensures few { map_of.len written.new ≤ map_of.len written.old + 3 }
{
    match append(sizes, dir, link, taken, written) {
        Ok(change) => Ok(change),
        Err(Halt::Need(block)) => Ok(Change::Need(block)),
        Err(Halt::Odd) => Ok(Change::Odd),
        Err(Halt::NoMemory) => Err(AllocError),
    }
}

// Adds an entry to a directory, last.
fn append(
    sizes: &Sizes,
    dir: u32,
    link: &Link,
    taken: &Taken,
    written: &mut Written,
) -> Result<Change, Halt>
    requires stored { Made sizes.now taken.now written.old (IsStored sizes.now) }
    requires directory { Made sizes.now taken.now written.old (λ image. (node_of image dir).kind ≡ kinds.Dir) }
    ensures says { IfOk result (PlaceSays sizes.now taken.now written.old written.new dir link.now) }
    ensures taken { AllTaken taken.now written.old → AllTaken taken.now written.new }
    ensures kept { KeepsContents taken.now written.old written.new }
    ensures few { map_of.len written.new ≤ map_of.len written.old + 3 }
    ensures halt { IfErr result (Halts sizes.now taken.now written.old (λ image block. IsPlaceBlock sizes.now image dir block)) }
    ensures inside { IfOk result (ChangesWithin sizes.now) }
    ensures within { IfErr result (HaltsWithin sizes.now) }
{
    let node = read_dir(sizes, dir, taken, Some(&*written))?;
    if node.size >= MAX_ENTRIES as u32 {
        return Ok(Change::DirFull);
    }
    if node.size % LINKS_PER_BLOCK == 0 {
        append_in_new(sizes, dir, &node, link, taken, written)
    } else {
        append_in_last(sizes, dir, &node, link, taken, written)
    }
}

// Adds an entry to the last block of a directory.
fn append_in_last(
    sizes: &Sizes,
    dir: u32,
    node: &Node,
    link: &Link,
    taken: &Taken,
    written: &mut Written,
) -> Result<Change, Halt>
    requires stored { Made sizes.now taken.now written.old (IsStored sizes.now) }
    requires node { Made sizes.now taken.now written.old (λ image. image.node dir ≡ Some node.now) }
    requires directory { node.now.kind ≡ kinds.Dir }
    requires spelled { IsTrue (is_node node.now) }
    requires few { node.now.size < 192 }
    requires room { node.now.size % 16 ≢ 0 }
    ensures says { IfOk result (PlaceSays sizes.now taken.now written.old written.new dir link.now) }
    ensures taken { AllTaken taken.now written.old → AllTaken taken.now written.new }
    ensures kept { KeepsContents taken.now written.old written.new }
    ensures few { map_of.len written.new ≤ map_of.len written.old + 2 }
    ensures halt { IfErr result (Halts sizes.now taken.now written.old (λ image block. IsPlaceBlock sizes.now image dir block)) }
    ensures inside { IfOk result (ChangesWithin sizes.now) }
    ensures within { dir < sizes.now.nodes → IfErr result (HaltsWithin sizes.now) }
{
    let block = node.blocks[(node.size / LINKS_PER_BLOCK) as usize];
    named_data(sizes, block)?;
    let grown = Node {
        kind: Kind::Dir,
        size: node.size + 1,
        blocks: node.blocks,
    };
    set_link(
        sizes,
        block,
        node.size % LINKS_PER_BLOCK,
        link,
        taken,
        written,
    )?;
    set_node(sizes, dir, &grown, taken, written)?;
    Ok(Change::Done)
}

// Adds an entry to a directory whose blocks are full.
fn append_in_new(
    sizes: &Sizes,
    dir: u32,
    node: &Node,
    link: &Link,
    taken: &Taken,
    written: &mut Written,
) -> Result<Change, Halt>
    requires stored { Made sizes.now taken.now written.old (IsStored sizes.now) }
    requires node { Made sizes.now taken.now written.old (λ image. image.node dir ≡ Some node.now) }
    requires directory { node.now.kind ≡ kinds.Dir }
    requires spelled { IsTrue (is_node node.now) }
    requires few { node.now.size < 192 }
    requires full { node.now.size % 16 ≡ 0 }
    ensures says { IfOk result (PlaceSays sizes.now taken.now written.old written.new dir link.now) }
    ensures taken { AllTaken taken.now written.old → AllTaken taken.now written.new }
    ensures kept { KeepsContents taken.now written.old written.new }
    ensures few { map_of.len written.new ≤ map_of.len written.old + 3 }
    ensures halt { IfErr result (Halts sizes.now taken.now written.old (λ image block. IsPlaceBlock sizes.now image dir block)) }
    ensures inside { IfOk result (ChangesWithin sizes.now) }
    ensures within { dir < sizes.now.nodes → IfErr result (HaltsWithin sizes.now) }
{
    let Some(block) = free_block(sizes, taken, written)? else {
        return Ok(Change::NoSpace);
    };
    if block == 0 {
        return Err(Halt::Odd);
    }
    let mut blocks = node.blocks;
    blocks[(node.size / LINKS_PER_BLOCK) as usize] = block;
    let grown = Node {
        kind: Kind::Dir,
        size: node.size + 1,
        blocks,
    };
    set_content(sizes, block, &first_link(link), taken, written)?;
    set_map(sizes, block, true, taken, written)?;
    set_node(sizes, dir, &grown, taken, written)?;
    Ok(Change::Done)
}

// The content of a new block: its first entry, and zeros behind it.
fn first_link(link: &Link) -> Block
    ensures here { link_in result 0 ≡ Some link.now }
    ensures rest { (j : ℕ) → j ≢ 0 → link_in result j ≡ link_in zero_content j }
{
    let mut content = Block::zero();
    put_link(&mut content, 0, link);
    content
}

/// Removes the entry at a place of a directory: the last one moves into the hole. After any answer but `Done`, and after
/// an error, `written` is to be dropped.
pub fn remove(
    sizes: &Sizes,
    dir: u32,
    place: u32,
    taken: &Taken,
    written: &mut Written,
) -> Result<Change, AllocError>
    requires stored { Made sizes.now taken.now written.old (IsStored sizes.now) }
    requires directory { Made sizes.now taken.now written.old (λ image. (node_of image dir).kind ≡ kinds.Dir) }
    requires place { Made sizes.now taken.now written.old (λ image. place < (node_of image dir).size) }
    ensures says { IfOk result (RemoveSays sizes.now taken.now written.old written.new dir place) }
    ensures within { IfOk result (ChangesWithin sizes.now) }
    ensures taken { AllTaken taken.now written.old → AllTaken taken.now written.new }
    ensures kept { KeepsContents taken.now written.old written.new }
    ensures few { map_of.len written.new ≤ map_of.len written.old + 3 }
{
    match detach(sizes, dir, place, taken, written) {
        Ok(()) => Ok(Change::Done),
        Err(Halt::Need(block)) => Ok(Change::Need(block)),
        Err(Halt::Odd) => Ok(Change::Odd),
        Err(Halt::NoMemory) => Err(AllocError),
    }
}

// Removes the entry at a place of a directory.
fn detach(
    sizes: &Sizes,
    dir: u32,
    place: u32,
    taken: &Taken,
    written: &mut Written,
) -> Result<(), Halt>
    requires stored { Made sizes.now taken.now written.old (IsStored sizes.now) }
    requires directory { Made sizes.now taken.now written.old (λ image. (node_of image dir).kind ≡ kinds.Dir) }
    requires place { Made sizes.now taken.now written.old (λ image. place < (node_of image dir).size) }
    ensures done { OnOk result (Turns sizes.now taken.now written.old written.new (λ old new. Removes sizes.now old new dir place)) }
    ensures taken { AllTaken taken.now written.old → AllTaken taken.now written.new }
    ensures kept { KeepsContents taken.now written.old written.new }
    ensures few { map_of.len written.new ≤ map_of.len written.old + 3 }
    ensures halt { IfErr result (Halts sizes.now taken.now written.old (λ image block. IsRemoveBlock sizes.now image dir place block)) }
    ensures within { IfErr result (HaltsWithin sizes.now) }
{
    let node = read_dir(sizes, dir, taken, Some(&*written))?;
    if place >= node.size {
        return Err(Halt::Odd);
    }
    named_data(
        sizes,
        node.blocks[((node.size - 1) / LINKS_PER_BLOCK) as usize],
    )?;
    fill_hole(sizes, dir, &node, place, taken, written)?;
    cut_last(sizes, dir, &node, taken, written)
}

// Moves the last entry of a directory to the place of one before it.
fn fill_hole(
    sizes: &Sizes,
    dir: u32,
    node: &Node,
    place: u32,
    taken: &Taken,
    written: &mut Written,
) -> Result<(), Halt>
    requires stored { Made sizes.now taken.now written.old (IsStored sizes.now) }
    requires node { Made sizes.now taken.now written.old (λ image. image.node dir ≡ Some node.now) }
    requires directory { node.now.kind ≡ kinds.Dir }
    requires few { node.now.size ≤ 192 }
    requires place { place < node.now.size }
    ensures done { OnOk result (Turns sizes.now taken.now written.old written.new (λ old new. FillsHole old new dir place (node.now.size - 1))) }
    ensures taken { AllTaken taken.now written.old → AllTaken taken.now written.new }
    ensures kept { KeepsContents taken.now written.old written.new }
    ensures few { map_of.len written.new ≤ map_of.len written.old + 1 }
    ensures halt { IfErr result (Halts sizes.now taken.now written.old (λ image block. IsRemoveBlock sizes.now image dir place block)) }
    ensures within { IfErr result (HaltsWithin sizes.now) }
{
    let last = node.size - 1;
    if place == last {
        return Ok(());
    }
    let link = read_link(sizes, dir, node, last, taken, Some(&*written))?;
    let block = node.blocks[(place / LINKS_PER_BLOCK) as usize];
    named_data(sizes, block)?;
    set_link(sizes, block, place % LINKS_PER_BLOCK, &link, taken, written)
}

// Takes the last entry off a directory's node, and its block where no other entry stands in it.
fn cut_last(
    sizes: &Sizes,
    dir: u32,
    node: &Node,
    taken: &Taken,
    written: &mut Written,
) -> Result<(), Halt>
    requires directory { node.now.kind ≡ kinds.Dir }
    requires spelled { IsTrue (is_node node.now) }
    requires few { node.now.size ≤ 192 }
    requires some { 0 < node.now.size }
    ensures done { OnOk result (Turns sizes.now taken.now written.old written.new (λ old new. dir < sizes.now.nodes → slice_index node.now.blocks ((node.now.size - 1) / 16) < sizes.now.blocks → CutsLast old new dir (node.now.size - 1) node.now)) }
    ensures taken { AllTaken taken.now written.old → AllTaken taken.now written.new }
    ensures kept { KeepsContents taken.now written.old written.new }
    ensures few { map_of.len written.new ≤ map_of.len written.old + 2 }
    ensures halt { IfErr result (Halts sizes.now taken.now written.old (λ image block. IsCutBlock sizes.now dir (node.now.size - 1) node.now block)) }
    ensures within { dir < sizes.now.nodes → slice_index node.now.blocks ((node.now.size - 1) / 16) < sizes.now.blocks → IfErr result (HaltsWithin sizes.now) }
{
    let last = node.size - 1;
    let mut blocks = node.blocks;
    if last % LINKS_PER_BLOCK == 0 {
        let at = (last / LINKS_PER_BLOCK) as usize;
        blocks[at] = 0;
        set_map(sizes, node.blocks[at], false, taken, written)?;
        return set_node(sizes, dir, &dir_node(last, blocks), taken, written);
    }
    set_node(sizes, dir, &dir_node(last, blocks), taken, written)
}

// A directory's node.
fn dir_node(size: u32, blocks: [u32; 12]) -> Node
    ensures { result ≡ (record { kind = kinds.Dir; size = size; blocks = blocks }) }
{
    Node {
        kind: Kind::Dir,
        size,
        blocks,
    }
}
