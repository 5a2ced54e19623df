//! Images by their bytes: what they show, and the rule and the block where they show nothing.

use crate::faults::TreeFault;
use crate::fields::{Kind, Link, Node};
use crate::formatting::format;
use crate::reading::{link_at, node_at};
use crate::trees::read_tree;
use crate::writing::{put_in_use, put_link, put_node};
use std::alloc::Global;
use std::process::Abort;
use zj_block::{Block, Blocks, Sizes};
use zj_tree::{Entry, Name, Tree};

/// The number at a place of a line, whose digits are of base 16 behind an `x`.
fn number(rt: &impl Abort, line: &str, place: usize) -> u32 {
    let word = line.split(' ').nth(place).expect(rt, line);
    let parsed = match word.strip_prefix('x') {
        Some(digits) => u32::from_str_radix(digits, 16),
        None => word.parse::<u32>(),
    };
    parsed.expect(rt, line)
}

fn sizes(rt: &impl Abort, blocks: u32, nodes: u32) -> Sizes {
    Sizes::new(1, blocks, nodes, 1, 50_752).expect(rt, "sizes")
}

fn content(rt: &impl Abort, blocks: &Blocks, block: u32) -> Block {
    *blocks.at(block as usize).expect(rt, "a block")
}

fn put(rt: &impl Abort, blocks: &mut Blocks, block: u32, content: &Block) {
    blocks.put(block as usize, content).expect(rt, "a block");
}

/// Sets a number of an image, in a block at a place.
fn set(rt: &impl Abort, blocks: &mut Blocks, block: u32, at: usize, number: u32) {
    let mut content = content(rt, blocks, block);
    content.put_u32(at, number).expect(rt, "a place");
    put(rt, blocks, block, &content);
}

/// Sets numbers of an image, a line each: a block, a place in it, and the number.
fn set_lines(rt: &impl Abort, blocks: &mut Blocks, lines: &str) {
    for line in lines.lines() {
        let at = number(rt, line, 1) as usize;
        set(rt, blocks, number(rt, line, 0), at, number(rt, line, 2));
    }
}

/// An image of 64 blocks and 8 nodes with the directory /a, the file /b of 600 bytes and the file /a/c of none.
fn image(rt: &impl Abort, alloc: Global, sizes: &Sizes) -> Blocks {
    let mut blocks = format(alloc, sizes).expect(rt, "memory");
    let lines = "0 0 x01010101
0 4 x0101
1 4 2
1 8 2
1 64 2
1 68 1
1 72 3
1 128 1
1 132 600
1 136 4
1 140 5
1 192 1
2 0 1
2 4 x00610001
2 32 2
2 36 x00620001
3 0 3
3 4 x00630001
4 0 7
5 84 x08000000
5 88 9";
    set_lines(rt, &mut blocks, lines);
    blocks
}

fn read(rt: &impl Abort, alloc: Global, sizes: &Sizes, blocks: &Blocks) -> Result<Tree, TreeFault> {
    assert!(rt; blocks.len() == sizes.blocks() as usize);
    read_tree(alloc, sizes, blocks)
}

/// The rule and the block where an image shows nothing, and zeros where it shows a tree.
fn fault(rt: &impl Abort, alloc: Global, sizes: &Sizes, blocks: &Blocks) -> (u32, u32) {
    match read(rt, alloc, sizes, blocks) {
        Ok(_) => (0, 0),
        Err(TreeFault::NoTree { rule, block }) => (rule, block),
        Err(TreeFault::NoMemory) => panic!(rt; "memory"),
    }
}

/// The tree that an image shows, which has so many nodes and takes up so many blocks.
fn tree_of(
    rt: &impl Abort,
    alloc: Global,
    sizes: &Sizes,
    blocks: &Blocks,
    nodes: u32,
    used: u32,
) -> Tree {
    let tree = read(rt, alloc, sizes, blocks).expect(rt, "a tree");
    assert!(rt; tree.nodes() == nodes);
    assert!(rt; tree.used() == used);
    tree
}

fn file_at<'a>(rt: &impl Abort, tree: &'a Tree, i: usize) -> &'a [u8] {
    match tree.at(i) {
        Some((_, Entry::File(bytes))) => bytes.as_slice(),
        _ => panic!(rt; "no file"),
    }
}

/// How many blocks and nodes there are.
#[test]
fn a_new_image_shows_the_root(rt: HostRuntime) {
    let lines = "64 8\n16 8\n4096 1024";
    assert!(rt; lines.lines().count() == 3);
    for line in lines.lines() {
        let sizes = sizes(&rt, number(&rt, line, 0), number(&rt, line, 1));
        let made = format(rt.alloc(), &sizes).expect(&rt, "memory");
        let _tree = tree_of(&rt, rt.alloc(), &sizes, &made, 1, 0);
    }
}

#[test]
fn a_new_image_has_these_words(rt: HostRuntime) {
    let made = format(rt.alloc(), &sizes(&rt, 64, 8)).expect(&rt, "memory");
    let map = content(&rt, &made, 0);
    assert!(rt; map.word(0) == Some(0x0101));
    assert!(rt; map.word(7) == Some(0));
    assert!(rt; map.word(8) == Some(0x0101_0101_0101_0101));
    assert!(rt; map.word(63) == Some(0x0101_0101_0101_0101));
    assert!(rt; content(&rt, &made, 1).word(0) == Some(2));
}

#[test]
fn an_image_shows_its_entries(rt: HostRuntime) {
    let sizes = sizes(&rt, 64, 8);
    let blocks = image(&rt, rt.alloc(), &sizes);
    let tree = tree_of(&rt, rt.alloc(), &sizes, &blocks, 4, 4);
    assert!(rt; tree.len() == 4);
    let (path, _) = tree.at(2).expect(&rt, "an entry");
    assert!(rt; path.len() == 2);
    let name = path.at(1).expect(&rt, "a name");
    assert_eq!(rt; name.as_slice(), b"c".as_slice());
    assert!(rt; file_at(&rt, &tree, 2).len() == 0);
    let bytes = file_at(&rt, &tree, 3);
    assert!(rt; bytes.len() == 600);
    assert!(rt; bytes[0] == 7 && bytes[1] == 0 && bytes[511] == 0 && bytes[599] == 8);
}

/// The first numbers of a line are set in an image, in front of the bar; behind it stand the rule and the block that are told.
fn breaks(rt: &impl Abort, alloc: Global, blocks: &mut Blocks, sizes: &Sizes, line: &str) {
    let (numbers, due) = line.split_once(" | ").expect(rt, line);
    for number in numbers.split(", ") {
        set_lines(rt, blocks, number);
    }
    let wanted = (number(rt, due, 0), number(rt, due, 1));
    assert!(rt; fault(rt, alloc, sizes, blocks) == wanted, "{line}");
}

/// A block, a place and a number each, and the rule and the block that are told.
#[test]
fn a_broken_image_names_rule_and_block(rt: HostRuntime) {
    let lines = "1 0 1 | 1 1
1 192 3 | 1 1
1 140 64 | 1 1
1 140 1 | 1 1
1 140 0 | 1 1
1 144 6 | 1 1
1 248 1 | 1 1
1 256 3 | 1 1
1 140 4 | 2 1
1 140 4, 0 4 1 | 2 1
1 140 2, 2 32 0 | 2 1
1 4 3 | 3 2
2 32 0 | 3 2
2 32 4 | 3 2
3 0 8 | 3 3
3 0 8, 2 32 8 | 3 2
3 4 x00610001 | 0 0
3 4 x002e0001 | 3 3
3 8 1 | 3 3
2 36 x00610001 | 4 2
1 256 1 | 5 1
2 32 3 | 5 1
1 4 1 | 5 1
0 4 x0001 | 6 0
0 4 x00010101 | 6 0
0 4 x0201 | 6 0
0 64 0, 0 508 7 | 0 0
5 508 7, 2 64 7 | 0 0";
    assert!(rt; lines.lines().count() == 28);
    let sizes = sizes(&rt, 64, 8);
    for line in lines.lines() {
        let mut blocks = image(&rt, rt.alloc(), &sizes);
        breaks(&rt, rt.alloc(), &mut blocks, &sizes, line);
    }
}

#[test]
fn two_directories_in_each_other_are_not_reached(rt: HostRuntime) {
    let sizes = sizes(&rt, 1024, 16);
    let mut blocks = format(rt.alloc(), &sizes).expect(&rt, "memory");
    let lines = "0 4 x0101
3 64 2
3 68 1
3 72 4
3 128 2
3 132 1
3 136 5
4 0 10
4 4 x00780001
5 0 9
5 4 x00790001";
    set_lines(&rt, &mut blocks, lines);
    assert_eq!(rt; fault(&rt, rt.alloc(), &sizes, &blocks), (5, 3));
    breaks(&rt, rt.alloc(), &mut blocks, &sizes, "3 64 9, 1 0 1 | 1 3");
}

/// Puts an entry whose name, of two letters, tells its node.
fn enter(rt: &impl Abort, blocks: &mut Blocks, block: u32, place: u32, node: u32) {
    let letters = [b'a' + (node / 16 % 16) as u8, b'a' + (node % 16) as u8];
    let name = Name::new(&letters).expect(rt, "a name");
    let mut content = content(rt, blocks, block);
    put_link(&mut content, place % 16, &Link { node, name });
    put(rt, blocks, block, &content);
}

/// Marks a block as in use.
fn take(rt: &impl Abort, blocks: &mut Blocks, block: u32) {
    let mut content = content(rt, blocks, block / 512);
    put_in_use(&mut content, block % 512, true);
    put(rt, blocks, block / 512, &content);
}

/// An image of 64 blocks and 200 nodes whose root has so many files.
fn root_with(rt: &impl Abort, alloc: Global, sizes: &Sizes, entries: u32) -> Blocks {
    let mut blocks = format(alloc, sizes).expect(rt, "memory");
    set(rt, &mut blocks, 1, 4, entries);
    for place in 0..entries {
        let block = 26 + place / 16;
        let node = place + 1;
        set(rt, &mut blocks, 1, 8 + 4 * (place / 16) as usize, block);
        set(rt, &mut blocks, 1 + node / 8, 64 * (node % 8) as usize, 1);
        enter(rt, &mut blocks, block, place, node);
        take(rt, &mut blocks, block);
    }
    blocks
}

/// How many entries there are, and how many blocks they take up.
#[test]
fn a_directory_has_up_to_192_entries(rt: HostRuntime) {
    let lines = "16 1\n17 2\n192 12";
    assert!(rt; lines.lines().count() == 3);
    let sizes = sizes(&rt, 64, 200);
    for line in lines.lines() {
        has_entries(&rt, rt.alloc(), &sizes, line);
    }
}

/// The root has so many entries, and no two of the same name.
fn has_entries(rt: &impl Abort, alloc: Global, sizes: &Sizes, line: &str) {
    let (entries, used) = (number(rt, line, 0), number(rt, line, 1));
    assert!(rt; entries <= 192 && used <= 12);
    let mut blocks = root_with(rt, alloc, sizes, entries);
    let _tree = tree_of(rt, alloc, sizes, &blocks, entries + 1, used);
    enter(rt, &mut blocks, 26, 0, entries);
    assert_eq!(rt; fault(rt, alloc, sizes, &blocks), (4, 25 + used));
}

/// An image of 24 nodes, which stand from a block on: each of the first 20 has an entry that leads to the next one, in a
/// block of its own from another block on, and the last one is a file.
fn chain(rt: &impl Abort, alloc: Global, sizes: &Sizes, nodes: u16, first: u16) -> Blocks {
    let mut blocks = format(alloc, sizes).expect(rt, "memory");
    for i in 0..20_u16 {
        let of_node = u32::from(nodes) + u32::from(i / 8);
        let at = 64 * usize::from(i % 8);
        let block = u32::from(first) + u32::from(i);
        set(rt, &mut blocks, of_node, at, 2);
        set(rt, &mut blocks, of_node, at + 4, 1);
        set(rt, &mut blocks, of_node, at + 8, block);
        enter(rt, &mut blocks, block, 0, u32::from(i) + 1);
        take(rt, &mut blocks, block);
    }
    set(rt, &mut blocks, u32::from(nodes) + 2, 256, 1);
    blocks
}

/// A path of 20 names is read in an image of so many blocks.
fn is_deep(rt: &impl Abort, alloc: Global, count: u32, nodes: u16, first: u16) {
    let sizes = sizes(rt, count, 24);
    let blocks = chain(rt, alloc, &sizes, nodes, first);
    let tree = tree_of(rt, alloc, &sizes, &blocks, 21, 20);
    let (path, _) = tree.at(20).expect(rt, "an entry");
    assert!(rt; path.len() == 20, "at {count}");
    assert!(rt; file_at(rt, &tree, 20).len() == 0, "at {count}");
}

#[test]
fn a_deep_path_is_read(rt: HostRuntime) {
    is_deep(&rt, rt.alloc(), 64, 1, 4);
    is_deep(&rt, rt.alloc(), 1024, 2, 600);
}

#[test]
fn a_map_of_two_blocks_is_read(rt: HostRuntime) {
    let lines = "1 188 1 | 6 1
1 88 0 | 6 1
0 20 1 | 6 0
1 108 0 | 0 0";
    assert!(rt; lines.lines().count() == 4);
    let sizes = sizes(&rt, 1024, 24);
    for line in lines.lines() {
        let mut blocks = chain(&rt, rt.alloc(), &sizes, 2, 600);
        breaks(&rt, rt.alloc(), &mut blocks, &sizes, line);
    }
}

#[test]
fn what_is_put_is_read(rt: HostRuntime) {
    let mut content = Block::zero();
    let node = Node {
        kind: Kind::File,
        size: 600,
        blocks: [4, 5, 0, 0, 0, 0, 0, 0, 0, 0, 0, 0],
    };
    put_node(&mut content, 3, &node);
    let found = node_at(&content, 3).expect(&rt, "a node");
    assert!(rt; found.kind == node.kind && found.size == 600 && found.blocks == node.blocks);
    assert!(rt; content.get_u32(196) == Some(600));
    let name = Name::new(b"a.b").expect(&rt, "a name");
    put_link(&mut content, 15, &Link { node: 7, name });
    let link = link_at(&content, 15).expect(&rt, "an entry");
    assert!(rt; link.node == 7);
    assert!(rt; content.get_u32(486) == Some(0x0062_2e61));
    put_in_use(&mut content, 9, true);
    assert!(rt; content.byte(9) == Some(1));
}
