//! The blocks of a new image.

ghost use Rattle.std.specs.Prelude.{◌≡◌, ◌≢◌, ℕ, ◌+◌, ◌*◌, ◌<◌, ◌≤◌, Some, IfOk, IsTrue};
ghost use Rattle.zj_block.specs.Block.{IsContent};
ghost use Rattle.zj_block.specs.Sizes.{map_blocks};
ghost use Rattle.zj_tree.specs.Tree.{root_alone};
ghost use Rattle.zj_layout.specs.Format.{IsMadeMap, IsMadeRoot, made_byte};
ghost use Rattle.zj_layout.specs.Shows.{Shows};

use crate::fields::{Kind, Node};
use crate::writing::{put_in_use, put_node};
use std::alloc::{AllocError, Global};
use zj_block::{BLOCKS_PER_MAP_BLOCK, Block, Blocks, Sizes};

/// The blocks of a new image, which show the root alone.
pub fn format(alloc: Global, sizes: &Sizes) -> Result<Blocks, AllocError>
    ensures shows { IfOk result (λ blocks. Shows sizes.now blocks root_alone) }
{
    let mut blocks = Blocks::zero(alloc, sizes.blocks())?;
    let map_blocks = sizes.map_blocks();
    for block in 0..map_blocks {
        let _put = blocks.put(block as usize, &made_map(sizes, block));
    }
    let _put = blocks.put(map_blocks as usize, &made_root());
    Ok(blocks)
}

// A block of the map of a new image.
fn made_map(sizes: &Sizes, block: u32) -> Block
    requires { block < map_blocks sizes.now }
    ensures bytes { IsMadeMap sizes.now block result }
    ensures content { IsContent result }
{
    let _blocks = sizes.blocks();
    let mut content = Block::zero();
    for i in 0..BLOCKS_PER_MAP_BLOCK {
        put_in_use(
            &mut content,
            i,
            is_made_in_use(sizes, BLOCKS_PER_MAP_BLOCK * block + i),
        );
    }
    content
}

// Whether the map of a new image has a block as in use: one of the map or of the nodes, or one that isn't there.
fn is_made_in_use(sizes: &Sizes, block: u32) -> bool
    ensures { result ≡ made_byte sizes.now block }
{
    block < sizes.first_data() || block >= sizes.blocks()
}

// The first block of nodes of a new image: node 0 is a directory with no entries, and the others are free.
fn made_root() -> Block
    ensures nodes { IsMadeRoot result }
    ensures content { IsContent result }
{
    let mut content = Block::zero();
    let root = Node {
        kind: Kind::Dir,
        size: 0,
        blocks: [0; 12],
    };
    put_node(&mut content, 0, &root);
    content
}
