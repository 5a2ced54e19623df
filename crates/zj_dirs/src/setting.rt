//! Setting nodes, contents of data blocks and bytes of the map, over blocks that were taken, with the written ones put in.

ghost use Rattle.std.specs.Prelude.{◌≡◌, ◌+◌, ◌<◌, ◌≤◌, IfErr, IsTrue, OnOk, if◌then◌else◌};
ghost use Rattle.std.specs.FinMap as map_of;
ghost use Rattle.zj_layout.specs.Image.{is_data, map_block, node_block};
ghost use Rattle.zj_layout.specs.Node.{is_node};
ghost use Rattle.zj_changes.specs.Tables.{SetsContent, SetsLink, SetsMap, SetsNode};
ghost use Rattle.zj_dirs.specs.Possible.{AllTaken, Halts, HaltsWithin, KeepsContents, Turns};

use crate::answers::Halt;
use crate::looking::seen;
use zj_block::{BLOCKS_PER_MAP_BLOCK, Block, BlockNo, NODES_PER_BLOCK, Sizes, Taken, Written};
use zj_layout::{Link, Node, put_in_use, put_link, put_node};

/// Sets a node.
pub fn set_node(
    sizes: &Sizes,
    number: u32,
    node: &Node,
    taken: &Taken,
    written: &mut Written,
) -> Result<(), Halt>
    requires { IsTrue (is_node node.now) }
    ensures done { OnOk result (Turns sizes.now taken.now written.old written.new (λ old new. number < sizes.now.nodes → SetsNode sizes.now old new number node.now)) }
    ensures taken { AllTaken taken.now written.old → AllTaken taken.now written.new }
    ensures kept { KeepsContents taken.now written.old written.new }
    ensures few { map_of.len written.new ≤ map_of.len written.old + 1 }
    ensures halt { IfErr result (Halts sizes.now taken.now written.old (λ image block. block ≡ node_block sizes.now number)) }
    ensures within { number < sizes.now.nodes → IfErr result (HaltsWithin sizes.now) }
{
    let block = BlockNo(sizes.map_blocks() + number / NODES_PER_BLOCK);
    let Some(found) = seen(block, taken, Some(&*written)) else {
        return Err(Halt::Need(block));
    };
    let mut content = *found;
    put_node(&mut content, number % NODES_PER_BLOCK, node);
    Ok(written.put(block, &content)?)
}

/// Sets whether the map has a block as in use.
pub fn set_map(
    sizes: &Sizes,
    block: u32,
    in_use: bool,
    taken: &Taken,
    written: &mut Written,
) -> Result<(), Halt>
    ensures done { OnOk result (Turns sizes.now taken.now written.old written.new (λ old new. block < sizes.now.blocks → SetsMap sizes.now old new block (if in_use then 1 else 0))) }
    ensures taken { AllTaken taken.now written.old → AllTaken taken.now written.new }
    ensures kept { KeepsContents taken.now written.old written.new }
    ensures few { map_of.len written.new ≤ map_of.len written.old + 1 }
    ensures halt { IfErr result (Halts sizes.now taken.now written.old (λ image b. b ≡ map_block block)) }
    ensures within { block < sizes.now.blocks → IfErr result (HaltsWithin sizes.now) }
{
    let of_map = BlockNo(block / BLOCKS_PER_MAP_BLOCK);
    let Some(found) = seen(of_map, taken, Some(&*written)) else {
        return Err(Halt::Need(of_map));
    };
    let mut content = *found;
    put_in_use(&mut content, block % BLOCKS_PER_MAP_BLOCK, in_use);
    Ok(written.put(of_map, &content)?)
}

// Sets an entry of a data block.
pub(crate) fn set_link(
    sizes: &Sizes,
    block: u32,
    place: u32,
    link: &Link,
    taken: &Taken,
    written: &mut Written,
) -> Result<(), Halt>
    requires { place < 16 }
    ensures done { OnOk result (Turns sizes.now taken.now written.old written.new (λ old new. IsTrue (is_data sizes.now block) → SetsLink sizes.now old new block place link.now)) }
    ensures taken { AllTaken taken.now written.old → AllTaken taken.now written.new }
    ensures kept { KeepsContents taken.now written.old written.new }
    ensures few { map_of.len written.new ≤ map_of.len written.old + 1 }
    ensures halt { IfErr result (Halts sizes.now taken.now written.old (λ image b. b ≡ block)) }
    ensures within { block < sizes.now.blocks → IfErr result (HaltsWithin sizes.now) }
{
    let Some(found) = seen(BlockNo(block), taken, Some(&*written)) else {
        return Err(Halt::Need(BlockNo(block)));
    };
    let mut content = *found;
    put_link(&mut content, place, link);
    Ok(written.put(BlockNo(block), &content)?)
}

/// Gives a data block a new content.
pub fn set_content(
    sizes: &Sizes,
    block: u32,
    content: &Block,
    taken: &Taken,
    written: &mut Written,
) -> Result<(), Halt>
    ensures done { OnOk result (Turns sizes.now taken.now written.old written.new (λ old new. IsTrue (is_data sizes.now block) → SetsContent sizes.now old new block content.now)) }
    ensures taken { AllTaken taken.now written.old → AllTaken taken.now written.new }
    ensures kept { KeepsContents taken.now written.old written.new }
    ensures few { map_of.len written.new ≤ map_of.len written.old + 1 }
    ensures halt { IfErr result (Halts sizes.now taken.now written.old (λ image b. b ≡ block)) }
    ensures within { block < sizes.now.blocks → IfErr result (HaltsWithin sizes.now) }
{
    let Some(_found) = seen(BlockNo(block), taken, Some(&*written)) else {
        return Err(Halt::Need(BlockNo(block)));
    };
    Ok(written.put(BlockNo(block), content)?)
}
