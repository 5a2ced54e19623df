//! Looking at nodes and entries, over blocks that were taken, with the written ones put in.

ghost use Rattle.std.specs.Prelude.{◌≡◌, ◌<◌, ◌≤◌, IfOk, IfErr, IfNone, IfSome, IsTrue, OnOk, Some, false};
ghost use Rattle.std.specs.Option.{option_copied};
ghost use Rattle.zj_block.specs.Block.{IsContent};
ghost use Rattle.zj_layout.specs.declared.fields.Kind.TheVariants as kinds;
ghost use Rattle.zj_layout.specs.Image.{entry_at, is_data, item_block, node_block, node_of};
ghost use Rattle.zj_layout.specs.declared.fields.Link.{Link};
ghost use Rattle.zj_layout.specs.Node.{is_node, link_in};
ghost use Rattle.zj_layout.specs.Stored.{IsStored};
ghost use Rattle.zj_dirs.specs.declared.answers.Stop.TheVariants as stops;
ghost use Rattle.zj_dirs.specs.Looking.{FindSays, FindsWithin, HasOther, IsEntry};
ghost use Rattle.zj_dirs.specs.Possible.{Made, Stops, StopsWithin, or_nothing, overlaid};
ghost use Rattle.zj_dirs.specs.Walking.{IsSearched, IsStepBlock};

use crate::answers::{Entry, Find, Stop};
use zj_block::{Block, BlockNo, NODES_PER_BLOCK, Sizes, Taken, Written};
use zj_layout::{Kind, LINKS_PER_BLOCK, Link, Node, link_at, node_at};
use zj_tree::Name;

/// The content of a block: the written one, or else the one that was found.
pub fn seen<'a>(block: BlockNo, taken: &'a Taken, written: Option<&'a Written>) -> Option<&'a Block>
    ensures content { option_copied result ≡ overlaid taken.now (or_nothing (option_copied written.entry)) block.0 }
    ensures fits { IfSome result (λ c. IsContent c.now) }
{
    let Some(contents) = written else {
        return taken.get(block);
    };
    match contents.get(block) {
        Some(content) => Some(content),
        None => taken.get(block),
    }
}

/// The node with a number.
pub fn read_node(
    sizes: &Sizes,
    number: u32,
    taken: &Taken,
    written: Option<&Written>,
) -> Result<Node, Stop>
    requires stored { Made sizes.now taken.now (or_nothing (option_copied written)) (IsStored sizes.now) }
    requires within { Made sizes.now taken.now (or_nothing (option_copied written)) (λ image. number < sizes.now.nodes) }
    ensures ok { IfOk result (λ node. Made sizes.now taken.now (or_nothing (option_copied written.entry)) (λ image. image.node number ≡ Some node)) }
    ensures spelled { IfOk result (λ node. IsTrue (is_node node)) }
    ensures inside { OnOk result (number < sizes.now.nodes) }
    ensures stop { IfErr result (Stops sizes.now taken.now (or_nothing (option_copied written.entry)) (λ image block. block ≡ node_block sizes.now number)) }
    ensures within { IfErr result (StopsWithin sizes.now) }
{
    if number >= sizes.nodes() {
        return Err(Stop::Odd);
    }
    let block = BlockNo(sizes.map_blocks() + number / NODES_PER_BLOCK);
    let Some(content) = seen(block, taken, written) else {
        return Err(Stop::Need(block));
    };
    match node_at(content, number % NODES_PER_BLOCK) {
        Some(node) => Ok(node),
        None => Err(Stop::Odd),
    }
}

/// A directory's node.
pub fn read_dir(
    sizes: &Sizes,
    dir: u32,
    taken: &Taken,
    written: Option<&Written>,
) -> Result<Node, Stop>
    requires stored { Made sizes.now taken.now (or_nothing (option_copied written)) (IsStored sizes.now) }
    requires directory { Made sizes.now taken.now (or_nothing (option_copied written)) (λ image. (node_of image dir).kind ≡ kinds.Dir) }
    ensures ok { IfOk result (λ node. Made sizes.now taken.now (or_nothing (option_copied written.entry)) (λ image. image.node dir ≡ Some node)) }
    ensures spelled { IfOk result (λ node. IsTrue (is_node node)) }
    ensures directory { IfOk result (λ node. node.kind ≡ kinds.Dir) }
    ensures few { IfOk result (λ node. node.size ≤ 192) }
    ensures inside { OnOk result (dir < sizes.now.nodes) }
    ensures stop { IfErr result (Stops sizes.now taken.now (or_nothing (option_copied written.entry)) (λ image block. block ≡ node_block sizes.now dir)) }
    ensures within { IfErr result (StopsWithin sizes.now) }
{
    let node = read_node(sizes, dir, taken, written)?;
    match node.kind {
        Kind::Dir => Ok(node),
        Kind::Free => Err(Stop::Odd),
        Kind::File => Err(Stop::Odd),
    }
}

/// Whether a number by which a node names a block is that of a block for data. `Odd`: it isn't, and no state that shows a tree
/// has a node that names it, since each names blocks for data alone.
pub fn named_data(sizes: &Sizes, block: u32) -> Result<(), Stop>
    ensures ok { OnOk result (IsTrue (is_data sizes.now block)) }
    ensures stop { IfErr result (λ stop. (stop ≡ stops.Odd) × (is_data sizes.now block ≡ false)) }
{
    if sizes.first_data() <= block && block < sizes.blocks() {
        Ok(())
    } else {
        Err(Stop::Odd)
    }
}

/// The entry at a place of a directory.
pub fn read_link(
    sizes: &Sizes,
    dir: u32,
    node: &Node,
    place: u32,
    taken: &Taken,
    written: Option<&Written>,
) -> Result<Link, Stop>
    requires stored { Made sizes.now taken.now (or_nothing (option_copied written)) (IsStored sizes.now) }
    requires node { Made sizes.now taken.now (or_nothing (option_copied written)) (λ image. image.node dir ≡ Some node.now) }
    requires directory { node.now.kind ≡ kinds.Dir }
    requires few { node.now.size ≤ 192 }
    requires place { place < node.now.size }
    ensures ok { IfOk result (λ link. Made sizes.now taken.now (or_nothing (option_copied written.entry)) (λ image. entry_at image dir place ≡ Some link)) }
    ensures stop { IfErr result (Stops sizes.now taken.now (or_nothing (option_copied written.entry)) (λ image block. block ≡ item_block image dir place)) }
    ensures within { IfErr result (StopsWithin sizes.now) }
{
    let block = BlockNo(node.blocks[(place / LINKS_PER_BLOCK) as usize]);
    named_data(sizes, block.0)?;
    let Some(content) = seen(block, taken, written) else {
        return Err(Stop::Need(block));
    };
    match link_at(content, place % LINKS_PER_BLOCK) {
        Some(link) => Ok(link),
        None => Err(Stop::Odd),
    }
}

// The entry of a directory with a name, if it has one.
pub(crate) fn find_entry(
    sizes: &Sizes,
    dir: u32,
    node: &Node,
    name: &Name,
    taken: &Taken,
    written: Option<&Written>,
) -> Result<Option<Entry>, Stop>
    requires stored { Made sizes.now taken.now (or_nothing (option_copied written)) (IsStored sizes.now) }
    requires node { Made sizes.now taken.now (or_nothing (option_copied written)) (λ image. image.node dir ≡ Some node.now) }
    requires directory { node.now.kind ≡ kinds.Dir }
    requires few { node.now.size ≤ 192 }
    ensures ok { IfOk result (λ entry. Made sizes.now taken.now (or_nothing (option_copied written.entry)) (λ image. IsEntry image dir name.now entry)) }
    ensures stop { IfErr result (Stops sizes.now taken.now (or_nothing (option_copied written.entry)) (λ image block. IsSearched image dir name.now block)) }
    ensures within { IfErr result (StopsWithin sizes.now) }
{
    for place in 0..node.size {
        if let Some(link) = read_named(sizes, dir, node, place, name, taken, written)? {
            return Ok(Some(Entry {
                place,
                node: link.node,
            }));
        }
    }
    Ok(None)
}

// The entry at a place of a directory, if it has a name.
fn read_named(
    sizes: &Sizes,
    dir: u32,
    node: &Node,
    place: u32,
    name: &Name,
    taken: &Taken,
    written: Option<&Written>,
) -> Result<Option<Link>, Stop>
    requires stored { Made sizes.now taken.now (or_nothing (option_copied written)) (IsStored sizes.now) }
    requires node { Made sizes.now taken.now (or_nothing (option_copied written)) (λ image. image.node dir ≡ Some node.now) }
    requires directory { node.now.kind ≡ kinds.Dir }
    requires few { node.now.size ≤ 192 }
    requires place { place < node.now.size }
    ensures some { IfOk result (λ found. IfSome found (λ link. (link.name ≡ name.now) × Made sizes.now taken.now (or_nothing (option_copied written.entry)) (λ image. entry_at image dir place ≡ Some link))) }
    ensures none { IfOk result (λ found. IfNone found (Made sizes.now taken.now (or_nothing (option_copied written.entry)) (λ image. HasOther image dir place name.now))) }
    ensures stop { IfErr result (Stops sizes.now taken.now (or_nothing (option_copied written.entry)) (λ image block. block ≡ item_block image dir place)) }
    ensures within { IfErr result (StopsWithin sizes.now) }
{
    let block = BlockNo(node.blocks[(place / LINKS_PER_BLOCK) as usize]);
    named_data(sizes, block.0)?;
    let Some(content) = seen(block, taken, written) else {
        return Err(Stop::Need(block));
    };
    let at = place % LINKS_PER_BLOCK;
    if !may_have_name(content, at, name) {
        return Ok(None);
    }
    let Some(link) = link_at(content, at) else {
        return Err(Stop::Odd);
    };
    if link.name == *name {
        Ok(Some(link))
    } else {
        Ok(None)
    }
}

// Whether the entry at a place of a block has the length and the last byte of a name. One that has not has another name, and
// need not be read.
fn may_have_name(content: &Block, place: u32, name: &Name) -> bool
    requires { place < 16 }
    ensures { (link : Link) → link_in content.now place ≡ Some link → link.name ≡ name.now → IsTrue result }
{
    let at = 32 * place as usize;
    let len = name.as_slice().len();
    let Some(last) = name.as_slice().last() else {
        return true;
    };
    content.byte(at + 4) == Some(len as u8) && content.byte(at + 5 + len) == Some(*last)
}

/// Searches a directory for the entry with a name, over `taken` with the blocks of `written` put in.
pub fn find(sizes: &Sizes, dir: u32, name: &Name, taken: &Taken, written: &Written) -> Find
    requires stored { Made sizes.now taken.now written.now (IsStored sizes.now) }
    requires directory { Made sizes.now taken.now written.now (λ image. (node_of image dir).kind ≡ kinds.Dir) }
    ensures says { FindSays sizes.now taken.now written.now dir name.now result }
    ensures within { FindsWithin sizes.now result }
{
    match search(sizes, dir, name, taken, written) {
        Ok(Some(entry)) => Find::Found {
            place: entry.place,
            node: entry.node,
        },
        Ok(None) => Find::Absent,
        Err(Stop::Need(block)) => Find::Need(block),
        Err(Stop::Odd) => Find::Odd,
    }
}

// The entry with a name, if the directory has one.
fn search(
    sizes: &Sizes,
    dir: u32,
    name: &Name,
    taken: &Taken,
    written: &Written,
) -> Result<Option<Entry>, Stop>
    requires stored { Made sizes.now taken.now written.now (IsStored sizes.now) }
    requires directory { Made sizes.now taken.now written.now (λ image. (node_of image dir).kind ≡ kinds.Dir) }
    ensures ok { IfOk result (λ entry. Made sizes.now taken.now written.now (λ image. IsEntry image dir name.now entry)) }
    ensures stop { IfErr result (Stops sizes.now taken.now written.now (λ image block. IsStepBlock sizes.now image dir name.now block)) }
    ensures within { IfErr result (StopsWithin sizes.now) }
{
    let node = read_dir(sizes, dir, taken, Some(written))?;
    find_entry(sizes, dir, &node, name, taken, Some(written))
}
