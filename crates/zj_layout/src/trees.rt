//! The tree that blocks show.

ghost use Rattle.std.specs.Prelude.{◌≡◌, ℕ, ◌+◌, ◌*◌, ◌<◌, ◌≤◌, length, map, Some, IfOk, IfErr};
ghost use Rattle.std.specs.List.{range_with_len};
ghost use Rattle.zj_block.specs.Block.{bytes_of};
ghost use Rattle.zj_tree.specs.Tree.{FileTree, used};
ghost use Rattle.zj_layout.specs.declared.fields.Kind.TheVariants as kinds;
ghost use Rattle.zj_layout.specs.Faults.{IsFirstFault};
ghost use Rattle.zj_layout.specs.Graph.{Describes, IsLive, content_of};
ghost use Rattle.zj_layout.specs.Image.{block_at, byte_at_place, graph_of, image_of, node_of};
ghost use Rattle.zj_layout.specs.Linked.{AreFound, FindsAll, shown_entry};
ghost use Rattle.zj_layout.specs.Read.{HasNodes};
ghost use Rattle.zj_layout.specs.Rules.{IsSound};
ghost use Rattle.zj_layout.specs.Shows.{Shows, limits_of};

use crate::entries::{check_entries, check_names};
use crate::faults::TreeFault;
use crate::fields::Kind;
use crate::image::{node_of, numbers};
use crate::links::{Found, check_links};
use crate::rules::{check_map, check_nodes, named_blocks};
use std::alloc::{AllocError, Global};
use zj_block::{BLOCK_LEN, Blocks, Sizes};
use zj_tree::{Bytes, Content, Path, Tree};

/// The tree that the blocks show. `NoTree` exactly where they show none: it names the first rule that they break, and the
/// lowest block at which they break it.
pub fn read_tree(alloc: Global, sizes: &Sizes, blocks: &Blocks) -> Result<Tree, TreeFault>
    requires { length blocks.now ≡ sizes.now.blocks }
    ensures shows { IfOk result (λ tree. Shows sizes.now blocks.now tree.tree) }
    ensures limits { IfOk result (λ tree. tree.limits ≡ limits_of sizes.now) }
    ensures fault { IfErr result (IsFirstFault sizes.now (image_of sizes.now blocks.now)) }
{
    check_nodes(sizes, blocks)?;
    let named = named_blocks(alloc, sizes, blocks)?;
    check_entries(sizes, blocks)?;
    check_names(alloc, sizes, blocks)?;
    let found = check_links(alloc, sizes, blocks)?;
    check_map(sizes, blocks, &named)?;
    Ok(tree_of(alloc, sizes, blocks, found)?)
}

// The tree of the nodes that were found.
fn tree_of(
    alloc: Global,
    sizes: &Sizes,
    blocks: &Blocks,
    found: Vec<Found>,
) -> Result<Tree, AllocError>
    requires nodes { HasNodes sizes.now blocks.now }
    requires sound { IsSound sizes.now (image_of sizes.now blocks.now) }
    requires found { AreFound sizes.now.nodes (graph_of (image_of sizes.now blocks.now)) found.items }
    requires all { FindsAll (graph_of (image_of sizes.now blocks.now)) found.items }
    ensures shows { IfOk result (λ tree. Shows sizes.now blocks.now tree.tree) }
    ensures limits { IfOk result (λ tree. tree.limits ≡ limits_of sizes.now) }
{
    let entries = entries_of(alloc, sizes, blocks, found)?;
    let used = used_blocks(sizes, blocks);
    let _len = blocks.len();
    Ok(Tree::from_entries(entries, used, sizes.nodes(), sizes.room(), sizes.version()))
}

// What stands at the paths of the nodes that were found.
fn entries_of(
    alloc: Global,
    sizes: &Sizes,
    blocks: &Blocks,
    found: Vec<Found>,
) -> Result<Vec<(Path, Content)>, AllocError>
    requires nodes { HasNodes sizes.now blocks.now }
    requires sound { IsSound sizes.now (image_of sizes.now blocks.now) }
    requires found { AreFound sizes.now.nodes (graph_of (image_of sizes.now blocks.now)) found.items }
    requires all { FindsAll (graph_of (image_of sizes.now blocks.now)) found.items }
    ensures { IfOk result (λ entries. entries.items ≡ map (shown_entry (graph_of (image_of sizes.now blocks.now))) found.items) }
{
    let _nodes = sizes.nodes();
    let mut entries = Vec::new(alloc);
    for one in found {
        let content = content_of(alloc, sizes, blocks, one.node)?;
        entries.push((one.path, content))?;
    }
    Ok(entries)
}

// How many blocks the tree takes up that is shown.
fn used_blocks(sizes: &Sizes, blocks: &Blocks) -> u32
    requires nodes { HasNodes sizes.now blocks.now }
    requires sound { IsSound sizes.now (image_of sizes.now blocks.now) }
    ensures { (tree : FileTree) → Describes (graph_of (image_of sizes.now blocks.now)) tree → result ≡ used tree }
{
    let mut used = 0;
    for number in 0..sizes.nodes() {
        let node = node_of(sizes, blocks, number);
        used += numbers(&node).len() as u32;
    }
    used
}

// What a path shows that leads to such a node.
fn content_of(
    alloc: Global,
    sizes: &Sizes,
    blocks: &Blocks,
    number: u32,
) -> Result<Content, AllocError>
    requires nodes { HasNodes sizes.now blocks.now }
    requires within { number < sizes.now.nodes }
    requires live { IsLive (graph_of (image_of sizes.now blocks.now) number) }
    ensures { IfOk result (λ content. content_of (graph_of (image_of sizes.now blocks.now) number) ≡ Some content) }
{
    match node_of(sizes, blocks, number).kind {
        Kind::Free | Kind::Dir => Ok(Content::Dir),
        Kind::File => Ok(Content::File(file_bytes(alloc, sizes, blocks, number)?)),
    }
}

// The bytes of a file.
fn file_bytes(alloc: Global, sizes: &Sizes, blocks: &Blocks, file: u32) -> Result<Bytes, AllocError>
    requires nodes { HasNodes sizes.now blocks.now }
    requires within { file < sizes.now.nodes }
    requires kind { (node_of (image_of sizes.now blocks.now) file).kind ≡ kinds.File }
    ensures { IfOk result (λ bytes. let image = image_of sizes.now blocks.now in bytes ≡ map (byte_at_place image file) (range_with_len 0 (node_of image file).size)) }
{
    let node = node_of(sizes, blocks, file);
    let mut bytes = Bytes::new(alloc);
    for (j, number) in numbers(&node).iter().enumerate() {
        let len = (node.size as usize - BLOCK_LEN * j).min(BLOCK_LEN);
        let content = block_bytes(blocks, *number);
        bytes.extend(&content[..len])?;
    }
    Ok(bytes)
}

// The bytes of a block.
fn block_bytes(blocks: &Blocks, number: u32) -> [u8; BLOCK_LEN]
    requires { number < length blocks.now }
    ensures bytes { result ≡ bytes_of (block_at blocks.now number) }
    ensures long { length result ≡ 512 }
{
    let mut bytes = [0; BLOCK_LEN];
    if let Some(content) = blocks.at(number as usize) {
        content.to_bytes(&mut bytes);
    }
    bytes
}
