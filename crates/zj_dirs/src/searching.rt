//! The lowest free node and the lowest free block, over blocks that were taken, with the written ones put in.

ghost use Rattle.std.specs.Prelude.{◌≡◌, ◌<◌, ◌≤◌, ◌↔◌, ℕ, IfOk, IfErr, IfNone, IfSome, IsTrue, Some};
ghost use Rattle.zj_layout.specs.declared.fields.Kind.TheVariants as kinds;
ghost use Rattle.zj_layout.specs.declared.fields.Node.{Node};
ghost use Rattle.zj_layout.specs.Node.{byte_in, node_in};
ghost use Rattle.zj_layout.specs.Stored.{IsStored};
ghost use Rattle.zj_dirs.specs.Looking.{IsFreeAt, IsLowestBlock, IsLowestNode, IsLowestZero, IsMapSearch, IsNodeSearch, IsUsedAt};
ghost use Rattle.zj_dirs.specs.Possible.{Made, Stops, StopsWithin};

use crate::answers::Stop;
use crate::looking::seen;
use zj_block::{BLOCKS_PER_MAP_BLOCK, Block, BlockNo, NODES_PER_BLOCK, Sizes, Taken, Written};

/// The lowest free node, if one is free.
pub fn free_node(sizes: &Sizes, taken: &Taken, written: &Written) -> Result<Option<u32>, Stop>
    requires stored { Made sizes.now taken.now written.now (IsStored sizes.now) }
    ensures ok { IfOk result (λ found. Made sizes.now taken.now written.now (λ image. IsLowestNode sizes.now image found)) }
    ensures below { IfOk result (λ found. IfSome found (λ number. number < sizes.now.nodes)) }
    ensures stop { IfErr result (Stops sizes.now taken.now written.now (IsNodeSearch sizes.now)) }
    ensures within { IfErr result (StopsWithin sizes.now) }
{
    for k in 0..sizes.node_blocks() {
        let block = BlockNo(sizes.map_blocks() + k);
        let Some(content) = seen(block, taken, Some(written)) else {
            return Err(Stop::Need(block));
        };
        match free_place(content) {
            Some(place) => return Ok(Some(k * NODES_PER_BLOCK + place)),
            None => {}
        }
    }
    Ok(None)
}

// The lowest place of a node block at which a node is free, if one is.
fn free_place(content: &Block) -> Option<u32>
    ensures some { IfSome result (λ place. (place < 8) × IsFreeAt content.now place) }
    ensures lower { IfSome result (λ place. (lower : ℕ) → lower < place → IsUsedAt content.now lower) }
    ensures none { IfNone result ((place : ℕ) → place < 8 → IsUsedAt content.now place) }
{
    for place in 0..NODES_PER_BLOCK {
        if is_free(content, place) {
            return Some(place);
        }
    }
    None
}

// Whether the node at a place of a block is free, told by the number of its kind alone.
fn is_free(content: &Block, place: u32) -> bool
    requires { place < 8 }
    ensures { (node : Node) → node_in content.now place ≡ Some node → (IsTrue result ↔ (node.kind ≡ kinds.Free)) }
{
    content.get_u32(64 * place as usize) == Some(0)
}

/// The lowest free block, if one is free.
pub fn free_block(sizes: &Sizes, taken: &Taken, written: &Written) -> Result<Option<u32>, Stop>
    ensures ok { IfOk result (λ found. Made sizes.now taken.now written.now (λ image. IsLowestBlock sizes.now image found)) }
    ensures below { IfOk result (λ found. IfSome found (λ block. block < sizes.now.blocks)) }
    ensures stop { IfErr result (Stops sizes.now taken.now written.now (IsMapSearch sizes.now)) }
    ensures within { IfErr result (StopsWithin sizes.now) }
{
    for k in 0..sizes.map_blocks() {
        let first = k * BLOCKS_PER_MAP_BLOCK;
        let Some(content) = seen(BlockNo(k), taken, Some(written)) else {
            return Err(Stop::Need(BlockNo(k)));
        };
        let count = BLOCKS_PER_MAP_BLOCK.min(sizes.blocks() - first);
        match free_byte(content, count) {
            Some(place) => return Ok(Some(first + place)),
            None => {}
        }
    }
    Ok(None)
}

// The lowest of the first bytes of a block of the map that is 0.
fn free_byte(content: &Block, count: u32) -> Option<u32>
    requires { count ≤ 512 }
    ensures { IsLowestZero content.now count result }
{
    for place in 0..count {
        if map_byte(content, place) == 0 {
            return Some(place);
        }
    }
    None
}

// A byte of a block of the map.
#[tactic(auto, unfolding(zj_layout::specs::Node::byte_in))]
pub(crate) fn map_byte(b: &Block, place: u32) -> u8
    requires { place < 512 }
    ensures { result ≡ byte_in b.now place }
{
    match b.byte(place as usize) {
        Some(byte) => byte,
        None => 0,
    }
}
