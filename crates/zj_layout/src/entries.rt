//! The rules on the entries of directories.

ghost use Rattle.std.specs.Prelude.{◌≡◌, ℕ, ◌<◌, ◌≤◌, ◌↔◌, false, length, IsTrue, IfOk, IfErr, OnOk};
ghost use Rattle.std.specs.List.{list_any};
ghost use Rattle.std.specs.Str.{bytes_eq};
ghost use Rattle.zj_layout.specs.Faults.{IsFaultOf};
ghost use Rattle.zj_layout.specs.Graph.{links_of};
ghost use Rattle.zj_layout.specs.Image.{graph_of, image_of, item_block};
ghost use Rattle.zj_layout.specs.Read.{HasEntries, HasNodes, IsNewName, LeadsOn, Lowers};
ghost use Rattle.zj_layout.specs.Rules.{HasPlace, Rule3, Rule4};

use crate::faults::TreeFault;
use crate::fields::{Kind, Link};
use crate::image::{entry_block, find_link, links, node_of};
use std::alloc::{AllocError, Global};
use zj_block::{Blocks, Sizes};
use zj_tree::Name;

// Rule 3: each entry is one, and leads to a node that is there, is not free and is not the root.
pub(crate) fn check_entries(sizes: &Sizes, blocks: &Blocks) -> Result<(), TreeFault>
    requires { HasNodes sizes.now blocks.now }
    ensures ok { OnOk result (HasEntries sizes.now blocks.now) }
    ensures fault { IfErr result (IsFaultOf 3 (Rule3 sizes.now (image_of sizes.now blocks.now))) }
{
    let none = sizes.blocks();
    let mut lowest = none;
    for dir in 0..sizes.nodes() {
        lowest = lowest_astray(sizes, blocks, dir, lowest);
    }
    if lowest < none {
        return Err(TreeFault::NoTree {
            rule: 3,
            block: lowest,
        });
    }
    Ok(())
}

// The lowest block of an entry of a directory that leads nowhere, or the bound if none is lower.
fn lowest_astray(sizes: &Sizes, blocks: &Blocks, dir: u32, bound: u32) -> u32
    requires nodes { HasNodes sizes.now blocks.now }
    requires within { dir < sizes.now.nodes }
    ensures { let image = image_of sizes.now blocks.now in Lowers (HasPlace image dir) (LeadsOn sizes.now image dir) (item_block image dir) bound result }
{
    let node = node_of(sizes, blocks, dir);
    let mut lowest = bound;
    if node.kind != Kind::Dir {
        return lowest;
    }
    for place in 0..node.size {
        if !leads_on(sizes, blocks, dir, place) {
            lowest = lowest.min(entry_block(sizes, blocks, dir, place));
        }
    }
    lowest
}

// Whether an entry is one, and leads to a node that is there, is not free and is not the root.
fn leads_on(sizes: &Sizes, blocks: &Blocks, dir: u32, place: u32) -> bool
    requires nodes { HasNodes sizes.now blocks.now }
    requires within { dir < sizes.now.nodes }
    requires place { HasPlace (image_of sizes.now blocks.now) dir place }
    ensures { IsTrue result ↔ LeadsOn sizes.now (image_of sizes.now blocks.now) dir place }
{
    let Some(link) = find_link(sizes, blocks, dir, place) else {
        return false;
    };
    if link.node == 0 || link.node >= sizes.nodes() {
        return false;
    }
    node_of(sizes, blocks, link.node).kind != Kind::Free
}

// Rule 4: no name stands twice in a directory.
pub(crate) fn check_names(alloc: Global, sizes: &Sizes, blocks: &Blocks) -> Result<(), TreeFault>
    requires { HasEntries sizes.now blocks.now }
    ensures ok { OnOk result ((block : ℕ) → Rule4 (image_of sizes.now blocks.now) block) }
    ensures fault { IfErr result (IsFaultOf 4 (Rule4 (image_of sizes.now blocks.now))) }
{
    let none = sizes.blocks();
    let mut lowest = none;
    for dir in 0..sizes.nodes() {
        lowest = lowest_twice(alloc, sizes, blocks, dir, lowest)?;
    }
    if lowest < none {
        return Err(TreeFault::NoTree {
            rule: 4,
            block: lowest,
        });
    }
    Ok(())
}

// The lowest block of an entry of a directory whose name an earlier one has, or the bound if none is lower.
fn lowest_twice(
    alloc: Global,
    sizes: &Sizes,
    blocks: &Blocks,
    dir: u32,
    bound: u32,
) -> Result<u32, AllocError>
    requires entries { HasEntries sizes.now blocks.now }
    requires within { dir < sizes.now.nodes }
    ensures { IfOk result (λ lowest. let image = image_of sizes.now blocks.now in Lowers (HasPlace image dir) (IsNewName (links_of (graph_of image dir))) (item_block image dir) bound lowest) }
{
    let links = links(alloc, sizes, blocks, dir)?;
    let mut lowest = bound;
    for place in 0..links.len() {
        if is_repeated(&links, place) {
            lowest = lowest.min(entry_block(sizes, blocks, dir, place as u32));
        }
    }
    Ok(lowest)
}

// Whether an earlier entry has the name of the one at a place.
fn is_repeated(links: &[Link], place: usize) -> bool
    requires { place < length links.now }
    ensures yes { IsTrue result → ¬ (IsNewName links.now place) }
    ensures no { result ≡ false → IsNewName links.now place }
{
    let link = links[place];
    has_name(&links[..place], &link.name)
}

// Whether an entry has a name.
fn has_name(links: &[Link], name: &Name) -> bool
    ensures { result ≡ list_any (λ l. bytes_eq l.name name.now) links.now }
{
    links.iter().any(|link| link.name == *name)
}
