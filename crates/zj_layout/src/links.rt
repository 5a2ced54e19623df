//! The rule on how entries hang together.

ghost use Rattle.std.specs.Prelude.{◌≡◌, ℕ, ◌+◌, ◌<◌, ◌≤◌, ◌||◌, ◌↔◌, [], ◌∷◌, ◌++◌, true, false, length, IsTrue, OnOk, IfOk, IfErr};
ghost use Rattle.zj_layout.specs.Faults.{IsFaultOf};
ghost use Rattle.zj_layout.specs.Graph.{IsLive};
ghost use Rattle.zj_layout.specs.Rules.{Rule5};
ghost use Rattle.zj_layout.specs.Image.{graph_of, image_of};
ghost use Rattle.zj_layout.specs.Linked.{AreFound, Finds, FindsAll, IsClosed, IsLinked, MarksFound, MarksLed, MarksReached, found_at};
ghost use Rattle.zj_layout.specs.Read.{HasEntries, HasNames};

use crate::faults::TreeFault;
use crate::fields::{Kind, Link};
use crate::image::{links, node_block, node_of};
use std::alloc::{AllocError, Global};
use zj_block::{Blocks, Sizes};
use zj_tree::{Name, Path};

/// A node that was found, and a path that leads to it.
#[derive(Debug, Drop)]
pub struct Found {
    pub(crate) node: u32,
    pub(crate) path: Path,
}

// Rule 5: each node but the root that is not free has exactly one entry, and is reached from the root. The nodes that are
// reached, each once and behind the directory that it was found in.
pub(crate) fn check_links(
    alloc: Global,
    sizes: &Sizes,
    blocks: &Blocks,
) -> Result<Vec<Found>, TreeFault>
    requires { HasNames sizes.now blocks.now }
    ensures linked { OnOk result ((block : ℕ) → Rule5 sizes.now (image_of sizes.now blocks.now) block) }
    ensures found { IfOk result (λ found. AreFound sizes.now.nodes (graph_of (image_of sizes.now blocks.now)) found.items) }
    ensures all { IfOk result (λ found. FindsAll (graph_of (image_of sizes.now blocks.now)) found.items) }
    ensures fault { IfErr result (IsFaultOf 5 (Rule5 sizes.now (image_of sizes.now blocks.now))) }
{
    let (found, seen) = walk(alloc, sizes, blocks)?;
    let (led, again) = marks_led(alloc, sizes, blocks)?;
    for number in 1..sizes.nodes() {
        if !is_linked_or_free(sizes, blocks, number, &led, &again, &seen) {
            return Err(TreeFault::NoTree {
                rule: 5,
                block: node_block(sizes, number),
            });
        }
    }
    Ok(found)
}

// Whether a node is free, or has exactly one entry and is reached from the root.
fn is_linked_or_free(
    sizes: &Sizes,
    blocks: &Blocks,
    number: u32,
    led: &[bool],
    again: &[bool],
    seen: &[bool],
) -> bool
    requires names { HasNames sizes.now blocks.now }
    requires within { number < sizes.now.nodes }
    requires led { MarksLed sizes.now.nodes (graph_of (image_of sizes.now blocks.now)) (λ d p. d < sizes.now.nodes) led.now again.now }
    requires reached { MarksReached sizes.now.nodes (graph_of (image_of sizes.now blocks.now)) seen.now }
    ensures yes { IsTrue result → IsLive (graph_of (image_of sizes.now blocks.now) number) → IsLinked (image_of sizes.now blocks.now) number }
    ensures no { result ≡ false → IsLive (graph_of (image_of sizes.now blocks.now) number) × (¬ (IsLinked (image_of sizes.now blocks.now) number)) }
{
    if node_of(sizes, blocks, number).kind == Kind::Free {
        return true;
    }
    let at = number as usize;
    is_only(led[at], again[at], seen[at])
}

// Whether a node has the marks of one that is reached by one entry alone.
fn is_only(led: bool, again: bool, seen: bool) -> bool
    ensures { IsTrue result ↔ ((led ≡ true) × (again ≡ false) × (seen ≡ true)) }
{
    led && !again && seen
}

// The nodes that are reached from the root, each once and behind the directory that it was found in, and a mark for each.
fn walk(
    alloc: Global,
    sizes: &Sizes,
    blocks: &Blocks,
) -> Result<(Vec<Found>, Vec<bool>), AllocError>
    requires { HasNames sizes.now blocks.now }
    ensures found { IfOk result (λ r. AreFound sizes.now.nodes (graph_of (image_of sizes.now blocks.now)) r.0.items) }
    ensures marks { IfOk result (λ r. MarksFound sizes.now.nodes r.0.items r.1.items) }
    ensures reached { IfOk result (λ r. MarksReached sizes.now.nodes (graph_of (image_of sizes.now blocks.now)) r.1.items) }
{
    let mut seen = vec![in alloc; false; sizes.nodes() as usize]?;
    let mut found = Vec::new(alloc);
    seen[0] = true;
    found.push(Found {
        node: 0,
        path: Path::new(alloc),
    })?;
    let mut at = 0;
    while at < found.len() {
        find_in(alloc, sizes, blocks, at, &mut found, &mut seen)?;
        at += 1;
    }
    Ok((found, seen))
}

// Finds the nodes that the entries of a found directory lead to.
fn find_in(
    alloc: Global,
    sizes: &Sizes,
    blocks: &Blocks,
    at: usize,
    found: &mut Vec<Found>,
    seen: &mut [bool],
) -> Result<(), AllocError>
    requires names { HasNames sizes.now blocks.now }
    requires at { at < length found.old.items }
    requires found { AreFound sizes.now.nodes (graph_of (image_of sizes.now blocks.now)) found.old.items }
    requires marks { MarksFound sizes.now.nodes found.old.items seen.old }
    requires closed { IsClosed (graph_of (image_of sizes.now blocks.now)) found.old.items seen.old at }
    ensures found { OnOk result (AreFound sizes.now.nodes (graph_of (image_of sizes.now blocks.now)) found.new.items) }
    ensures marks { OnOk result (MarksFound sizes.now.nodes found.new.items seen.new) }
    ensures closed { OnOk result (IsClosed (graph_of (image_of sizes.now blocks.now)) found.new.items seen.new (at + 1)) }
    ensures more { OnOk result (length found.old.items ≤ length found.new.items) }
{
    let dir = node_at(found, at);
    let links = links(alloc, sizes, blocks, dir)?;
    for link in &links {
        find(alloc, at, link, found, seen)?;
    }
    Ok(())
}

// The node that was found at a place.
pub(crate) fn node_at(found: &[Found], at: usize) -> u32
    requires { at < length found.now }
    ensures { result ≡ (found_at found.now at).node }
{
    found[at].node
}

// The path of the node that was found at a place, with one step more.
fn path_from(alloc: Global, found: &[Found], at: usize, name: &Name) -> Result<Path, AllocError>
    requires { at < length found.now }
    ensures { IfOk result (λ path. path ≡ (found_at found.now at).path ++ name.now ∷ []) }
{
    let mut path = found[at].path.copy(alloc)?;
    path.push(*name)?;
    Ok(path)
}

// Finds the node that an entry leads to, from the directory that was found at a place.
fn find(
    alloc: Global,
    at: usize,
    link: &Link,
    found: &mut Vec<Found>,
    seen: &mut [bool],
) -> Result<(), AllocError>
    requires at { at < length found.old.items }
    requires node { link.now.node < length seen.old }
    ensures { OnOk result (Finds at link.now found.old.items seen.old found.new.items seen.new) }
{
    let node = link.node;
    if seen[node as usize] {
        return Ok(());
    }
    let path = path_from(alloc, found, at, &link.name)?;
    found.push(Found { node, path })?;
    seen[node as usize] = true;
    Ok(())
}

// A mark for each node that an entry leads to, and for each that two entries lead to.
fn marks_led(
    alloc: Global,
    sizes: &Sizes,
    blocks: &Blocks,
) -> Result<(Vec<bool>, Vec<bool>), AllocError>
    requires { HasEntries sizes.now blocks.now }
    ensures { IfOk result (λ r. MarksLed sizes.now.nodes (graph_of (image_of sizes.now blocks.now)) (λ d p. d < sizes.now.nodes) r.0.items r.1.items) }
{
    let mut led = vec![in alloc; false; sizes.nodes() as usize]?;
    let mut again = vec![in alloc; false; sizes.nodes() as usize]?;
    for dir in 0..sizes.nodes() {
        mark_led(alloc, sizes, blocks, dir, &mut led, &mut again)?;
    }
    Ok((led, again))
}

// Marks the nodes that the entries of a directory lead to, and those that an entry leads to already.
fn mark_led(
    alloc: Global,
    sizes: &Sizes,
    blocks: &Blocks,
    dir: u32,
    led: &mut [bool],
    again: &mut [bool],
) -> Result<(), AllocError>
    requires entries { HasEntries sizes.now blocks.now }
    requires within { dir < sizes.now.nodes }
    requires marks { MarksLed sizes.now.nodes (graph_of (image_of sizes.now blocks.now)) (λ d p. d < dir) led.old again.old }
    ensures { OnOk result (MarksLed sizes.now.nodes (graph_of (image_of sizes.now blocks.now)) (λ d p. d < dir + 1) led.new again.new) }
{
    let links = links(alloc, sizes, blocks, dir)?;
    for link in &links {
        let node = link.node as usize;
        again[node] = either(again[node], led[node]);
        led[node] = true;
    }
    Ok(())
}

fn either(one: bool, other: bool) -> bool
    ensures { result ≡ (one || other) }
{
    one || other
}
