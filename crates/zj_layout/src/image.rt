//! The tables of an image, as its blocks have them.

ghost use Rattle.std.specs.Prelude.{◌≡◌, ℕ, ◌+◌, ◌/◌, ◌<◌, ◌≤◌, Some, length, slice_index, IfOk, IsTrue, take};
ghost use Rattle.zj_layout.specs.Graph.{links_of};
ghost use Rattle.zj_layout.specs.Image.{entry_at, graph_of, image_of, is_data, item_block, node_block};
ghost use Rattle.zj_layout.specs.Node.{blocks_needed};
ghost use Rattle.zj_layout.specs.Read.{HasEntries, HasNodes};
ghost use Rattle.zj_layout.specs.Rules.{HasPlace};

use crate::fields::{Kind, Link, Node};
use crate::reading::{LINKS_PER_BLOCK, byte, link_at, node_at, per_block};
use std::alloc::{AllocError, Global};
use zj_block::{BLOCKS_PER_MAP_BLOCK, Blocks, NODES_PER_BLOCK, Sizes};

// The block that a node stands in.
pub(crate) fn node_block(sizes: &Sizes, number: u32) -> u32
    requires { number < sizes.now.nodes }
    ensures value { result ≡ node_block sizes.now number }
    ensures within { result < sizes.now.blocks }
{
    sizes.map_blocks() + number / NODES_PER_BLOCK
}

// The node with a number, if its bytes are those of one.
pub(crate) fn find_node(sizes: &Sizes, blocks: &Blocks, number: u32) -> Option<Node>
    requires many { length blocks.now ≡ sizes.now.blocks }
    requires within { number < sizes.now.nodes }
    ensures { result ≡ (image_of sizes.now blocks.now).node number }
{
    let content = blocks.at(node_block(sizes, number) as usize)?;
    node_at(content, number % NODES_PER_BLOCK)
}

// The node with a number.
pub(crate) fn node_of(sizes: &Sizes, blocks: &Blocks, number: u32) -> Node
    requires nodes { HasNodes sizes.now blocks.now }
    requires within { number < sizes.now.nodes }
    ensures { (image_of sizes.now blocks.now).node number ≡ Some result }
{
    match find_node(sizes, blocks, number) {
        Some(node) => node,
        None => Node {
            kind: Kind::Free,
            size: 0,
            blocks: [0; 12],
        },
    }
}

// The numbers of the blocks that a node names.
pub(crate) fn numbers(node: &Node) -> &[u32]
    requires { blocks_needed node.now ≤ 12 }
    ensures { result.now ≡ take (blocks_needed node.now) node.now.blocks }
{
    &node.blocks[..node.size.div_ceil(per_block(node.kind)) as usize]
}

// The block of the entry at a place of a directory.
pub(crate) fn entry_block(sizes: &Sizes, blocks: &Blocks, dir: u32, place: u32) -> u32
    requires nodes { HasNodes sizes.now blocks.now }
    requires within { dir < sizes.now.nodes }
    requires place { HasPlace (image_of sizes.now blocks.now) dir place }
    ensures value { result ≡ item_block (image_of sizes.now blocks.now) dir place }
    ensures data { IsTrue (is_data sizes.now result) }
{
    let node = node_of(sizes, blocks, dir);
    node.blocks[(place / LINKS_PER_BLOCK) as usize]
}

// The entry at a place of a directory, if its bytes are those of one.
pub(crate) fn find_link(sizes: &Sizes, blocks: &Blocks, dir: u32, place: u32) -> Option<Link>
    requires nodes { HasNodes sizes.now blocks.now }
    requires within { dir < sizes.now.nodes }
    requires place { HasPlace (image_of sizes.now blocks.now) dir place }
    ensures { result ≡ entry_at (image_of sizes.now blocks.now) dir place }
{
    let content = blocks.at(entry_block(sizes, blocks, dir, place) as usize)?;
    link_at(content, place % LINKS_PER_BLOCK)
}

// The entries of a directory in order, and none of another node.
pub(crate) fn links(
    alloc: Global,
    sizes: &Sizes,
    blocks: &Blocks,
    dir: u32,
) -> Result<Vec<Link>, AllocError>
    requires entries { HasEntries sizes.now blocks.now }
    requires within { dir < sizes.now.nodes }
    ensures { IfOk result (λ links. links.items ≡ links_of (graph_of (image_of sizes.now blocks.now) dir)) }
{
    let node = node_of(sizes, blocks, dir);
    let mut links = Vec::new(alloc);
    if node.kind != Kind::Dir {
        return Ok(links);
    }
    for place in 0..node.size {
        if let Some(link) = find_link(sizes, blocks, dir, place) {
            links.push(link)?;
        }
    }
    Ok(links)
}

// The byte of the map for a block.
pub(crate) fn map_byte(sizes: &Sizes, blocks: &Blocks, block: u32) -> u8
    requires many { length blocks.now ≡ sizes.now.blocks }
    requires within { block < sizes.now.blocks }
    ensures { result ≡ (image_of sizes.now blocks.now).map block }
{
    let _nodes = sizes.nodes();
    match blocks.at((block / BLOCKS_PER_MAP_BLOCK) as usize) {
        Some(content) => byte(content, (block % BLOCKS_PER_MAP_BLOCK) as usize),
        None => 0,
    }
}
