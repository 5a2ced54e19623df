//! The rules of an image, one by one.

ghost use Rattle.std.specs.Prelude.{◌≡◌, ℕ, ◌<◌, ◌≤◌, ◌&&◌, ◌↔◌, false, length, IsTrue, IfOk, IfErr, OnOk, nat_le, nat_lt, slice_index, take};
ghost use Rattle.std.specs.List.{list_all};
ghost use Rattle.zj_block.specs.Sizes.{first_data};
ghost use Rattle.zj_layout.specs.declared.fields.Kind.TheVariants as kinds;
ghost use Rattle.zj_layout.specs.Image.{image_of};
ghost use Rattle.zj_layout.specs.Faults.{IsFaultOf};
ghost use Rattle.zj_layout.specs.Node.{blocks_needed};
ghost use Rattle.zj_layout.specs.Read.{HasNodes, MarksApart, MarksNamed, Repeats};
ghost use Rattle.zj_layout.specs.Rules.{IsPlaced, Rule1, Rule2, Rule6};

use crate::faults::TreeFault;
use crate::fields::{Kind, Node};
use crate::image::{find_node, map_byte, node_block, node_of, numbers};
use std::alloc::Global;
use zj_block::{BLOCKS_PER_MAP_BLOCK, Blocks, Sizes};

// Rule 1: each node is one, its blocks are for data, and node 0 is a directory.
pub(crate) fn check_nodes(sizes: &Sizes, blocks: &Blocks) -> Result<(), TreeFault>
    requires { length blocks.now ≡ sizes.now.blocks }
    ensures ok { OnOk result (HasNodes sizes.now blocks.now) }
    ensures fault { IfErr result (IsFaultOf 1 (Rule1 sizes.now (image_of sizes.now blocks.now))) }
{
    for number in 0..sizes.nodes() {
        if !is_placed(sizes, blocks, number) {
            return Err(TreeFault::NoTree {
                rule: 1,
                block: node_block(sizes, number),
            });
        }
    }
    Ok(())
}

fn is_placed(sizes: &Sizes, blocks: &Blocks, number: u32) -> bool
    requires many { length blocks.now ≡ sizes.now.blocks }
    requires within { number < sizes.now.nodes }
    ensures { IsTrue result ↔ IsPlaced sizes.now (image_of sizes.now blocks.now) number }
{
    let Some(node) = find_node(sizes, blocks, number) else {
        return false;
    };
    if !is_root_kind(number, node.kind) {
        return false;
    }
    is_in_data(sizes, &node)
}

// Whether a node may be of a kind: node 0 is a directory.
fn is_root_kind(number: u32, kind: Kind) -> bool
    ensures { IsTrue result ↔ (number ≡ 0 → kind ≡ kinds.Dir) }
{
    number != 0 || kind == Kind::Dir
}

// Whether the blocks that a node names are for data.
fn is_in_data(sizes: &Sizes, node: &Node) -> bool
    requires { blocks_needed node.now ≤ 12 }
    ensures { result ≡ list_all (λ n. nat_le (first_data sizes.now) n && nat_lt n sizes.now.blocks) (take (blocks_needed node.now) node.now.blocks) }
{
    let first = sizes.first_data();
    let end = sizes.blocks();
    numbers(node)
        .iter()
        .all(|number| first <= *number && *number < end)
}

// Rule 2: no block is named twice. Which blocks are named.
pub(crate) fn named_blocks(
    alloc: Global,
    sizes: &Sizes,
    blocks: &Blocks,
) -> Result<Vec<bool>, TreeFault>
    requires { HasNodes sizes.now blocks.now }
    ensures once { OnOk result ((block : ℕ) → Rule2 sizes.now (image_of sizes.now blocks.now) block) }
    ensures named { IfOk result (λ named. MarksNamed sizes.now (image_of sizes.now blocks.now) sizes.now.nodes named.items) }
    ensures fault { IfErr result (IsFaultOf 2 (Rule2 sizes.now (image_of sizes.now blocks.now))) }
{
    let mut named = vec![in alloc; false; sizes.blocks() as usize]?;
    for number in 0..sizes.nodes() {
        let node = node_of(sizes, blocks, number);
        if !mark_apart(numbers(&node), &mut named) {
            return Err(TreeFault::NoTree {
                rule: 2,
                block: node_block(sizes, number),
            });
        }
    }
    Ok(named)
}

// Marks the numbers, if none is marked already.
fn mark_apart(numbers: &[u32], marks: &mut [bool]) -> bool
    requires { (j : ℕ) → j < length numbers.now → slice_index numbers.now j < length marks.old }
    ensures yes { IsTrue result → MarksApart marks.old marks.new numbers.now }
    ensures no { result ≡ false → Repeats marks.old numbers.now }
{
    for number in numbers {
        let at = *number as usize;
        if marks[at] {
            return false;
        }
        marks[at] = true;
    }
    true
}

// Rule 6: the map has as in use what is no data or is named.
pub(crate) fn check_map(sizes: &Sizes, blocks: &Blocks, named: &[bool]) -> Result<(), TreeFault>
    requires many { length blocks.now ≡ sizes.now.blocks }
    requires named { MarksNamed sizes.now (image_of sizes.now blocks.now) sizes.now.nodes named.now }
    ensures ok { OnOk result ((block : ℕ) → Rule6 sizes.now (image_of sizes.now blocks.now) block) }
    ensures fault { IfErr result (IsFaultOf 6 (Rule6 sizes.now (image_of sizes.now blocks.now))) }
{
    let first = sizes.first_data();
    for block in 0..sizes.blocks() {
        let in_use = block < first || named[block as usize];
        if map_byte(sizes, blocks, block) != u8::from(in_use) {
            return Err(TreeFault::NoTree {
                rule: 6,
                block: block / BLOCKS_PER_MAP_BLOCK,
            });
        }
    }
    Ok(())
}
