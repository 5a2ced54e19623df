//! Reads full images of three shapes: flat directories of 192 entries, four entries in each directory, and a chain of
//! directories. The words are how many blocks and nodes an image has, and the shape; without words all three are read, of
//! 4,096 blocks and 1,024 nodes. The least time of some readings is told on standard error.
#![tactic(auto)]

ghost use Rattle.std.specs.Prelude.{◌≡◌, ◌≤◌, ◌<◌, ◌^◌, IfSome};

use std::alloc::Global;
use std::env;
use std::time::Instant;
use zj_block::{Blocks, Sizes};
use zj_layout::{Link, format, put_in_use, put_link, read_tree};
use zj_tree::Name;

/// How often an image is read.
const READINGS: u32 = 8;

/// The kinds of nodes, as they are spelled.
const FILE: u32 = 1;

const DIR: u32 = 2;

/// How the nodes of an image hang together.
#[derive(Clone, Copy, Debug)]
enum Shape {
    Flat,
    Nested,
    Deep,
}

/// Numbers that follow each other.
#[derive(Clone, Copy)]
struct Run {
    first: u32,
    count: u32,
}

/// The nodes that the entries of a node lead to.
fn entries(shape: Shape, node: u32, nodes: u32) -> Run
    requires { node < 2 ^ 16 }
    ensures { result.count ≤ 192 }
{
    let (first, most) = match shape {
        Shape::Flat if node == 0 => (1, 6),
        Shape::Flat if node < 7 => (7 + 192 * (node - 1), 192),
        Shape::Flat => (nodes, 0),
        Shape::Nested => (4 * node + 1, 4),
        Shape::Deep => (node + 1, 1),
    };
    let count = nodes.saturating_sub(first).min(most);
    Run { first, count }
}

/// A name of 26 bytes that ends with the number of a node.
fn name_of(node: u32) -> Option<Name> {
    let mut bytes = *b"the-entry-with-the-no-0000";
    for (place, unit) in [(22, 1000), (23, 100), (24, 10), (25, 1)] {
        bytes[place] = b'0' + (node / unit % 10) as u8;
    }
    Name::new(&bytes)
}

/// Puts a node of a kind with so many items, in blocks that follow each other.
fn put_node(
    sizes: &Sizes,
    blocks: &mut Blocks,
    node: u32,
    kind: u32,
    items: u32,
    own: Run,
) -> Option<()>
    requires { node < 2 ^ 16 }
{
    let at = (sizes.map_blocks() + node / 8) as usize;
    let mut block = *blocks.at(at)?;
    let place = 64 * (node as usize % 8);
    block.put_u32(place, kind)?;
    block.put_u32(place + 4, items)?;
    for j in 0..own.count.min(12) {
        block.put_u32(place + 8 + 4 * j as usize, own.first.wrapping_add(j))?;
    }
    blocks.put(at, &block)
}

/// Puts an entry at a place of a block.
fn put_entry(blocks: &mut Blocks, at: u32, place: u32, node: u32) -> Option<()>
    requires { place < 16 }
{
    let name = name_of(node)?;
    let mut block = *blocks.at(at as usize)?;
    put_link(&mut block, place, &Link { node, name });
    blocks.put(at as usize, &block)
}

/// Takes blocks, at most as many as are left.
fn take_blocks(sizes: &Sizes, blocks: &mut Blocks, next: &mut u32, most: u32) -> Option<Run>
    ensures { IfSome result (λ own. own.count ≤ most) }
{
    let first = *next;
    let count = sizes.blocks().saturating_sub(first).min(most);
    for k in 0..count {
        let number = first.wrapping_add(k);
        let at = (number / 512) as usize;
        let mut block = *blocks.at(at)?;
        put_in_use(&mut block, number % 512, true);
        blocks.put(at, &block)?;
    }
    *next = first.wrapping_add(count);
    Some(Run { first, count })
}

/// Fills a node: a directory has its entries, and a file up to five blocks of bytes.
fn fill_node(
    sizes: &Sizes,
    blocks: &mut Blocks,
    shape: Shape,
    node: u32,
    next: &mut u32,
) -> Option<()>
    requires { node < 2 ^ 16 }
{
    let below = entries(shape, node, sizes.nodes());
    if node > 0 && below.count == 0 {
        let own = take_blocks(sizes, blocks, next, 5)?;
        return put_node(sizes, blocks, node, FILE, 512 * own.count, own);
    }
    let own = take_blocks(sizes, blocks, next, below.count.div_ceil(16))?;
    put_node(sizes, blocks, node, DIR, below.count, own)?;
    for place in 0..below.count {
        let at = own.first.wrapping_add(place / 16);
        put_entry(blocks, at, place % 16, below.first.wrapping_add(place))?;
    }
    Some(())
}

/// Fills an image.
fn fill(sizes: &Sizes, blocks: &mut Blocks, shape: Shape) -> Option<()>
    requires { sizes.now.nodes ≤ 2 ^ 16 }
{
    let mut next = sizes.first_data();
    for node in 0..sizes.nodes() {
        fill_node(sizes, blocks, shape, node, &mut next)?;
    }
    Some(())
}

/// Reads a full image, and tells what its tree takes up, and on standard error the least time of some readings.
fn read(rt: &HostRuntime, sizes: &Sizes, shape: Shape) -> anyhow::Result<()>
    requires { sizes.now.nodes ≤ 2 ^ 16 }
{
    let mut blocks = format(rt.alloc(), sizes)?;
    let filled = fill(sizes, &mut blocks, shape);
    if filled.is_none() || blocks.len() != sizes.blocks() as usize {
        return Ok(());
    }
    match read_tree(rt.alloc(), sizes, &blocks) {
        Ok(tree) => println!(rt;
            "{shape:?}: {} entries, {} blocks",
            tree.nodes(),
            tree.used()
        )?,
        Err(fault) => println!(rt; "{shape:?}: {fault:?}")?,
    }
    let mut least = u128::MAX;
    for _ in 0..READINGS {
        let begin = Instant::now(rt)?;
        let _tree = read_tree(rt.alloc(), sizes, &blocks);
        least = least.min(begin.elapsed(rt)?.as_micros());
    }
    eprintln!(rt; "{shape:?}: {least} us")?;
    Ok(())
}

/// The shape that a word names.
fn shape_of(word: &str) -> Option<Shape> {
    match word {
        "flat" => Some(Shape::Flat),
        "nested" => Some(Shape::Nested),
        "deep" => Some(Shape::Deep),
        _ => None,
    }
}

/// The number that a word is, or another where there is no such word.
fn number_at(words: &[String], at: usize, other: u32) -> anyhow::Result<u32> {
    match words.get(at) {
        Some(word) => Ok(word.as_str().parse::<u32>()?),
        None => Ok(other),
    }
}

fn main(rt: HostRuntime) -> anyhow::Result<()> {
    let words: Vec<String> = env::args(&rt)?.skip(1).collect(rt.alloc())?;
    let blocks = number_at(words.as_slice(), 0, 4096)?;
    let nodes = number_at(words.as_slice(), 1, 1024)?;
    let Some(sizes) = Sizes::new(1, blocks, nodes, 1, 50_752) else {
        return Ok(());
    };
    if sizes.nodes() > 4096 {
        return Ok(());
    }
    if let Some(word) = words.get(2) {
        return match shape_of(word.as_str()) {
            Some(shape) => read(&rt, &sizes, shape),
            None => Ok(()),
        };
    }
    for shape in [Shape::Flat, Shape::Nested, Shape::Deep] {
        read(&rt, &sizes, shape)?;
    }
    Ok(())
}
