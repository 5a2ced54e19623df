//! Directories of images that are built by hand, with each block taken as it is needed.

ghost use Rattle.std.specs.Prelude.{◌≡◌};
ghost use Rattle.std.specs.FinMap as map;
ghost use Rattle.zj_dirs.specs.Possible.{AllTaken};

use crate::answers::{Change, Find, Stop, Walk};
use crate::changing::{place, remove};
use crate::looking::find;
use crate::searching::free_node;
use crate::setting::set_content;
use crate::trimming::trim;
use crate::walking::{walk, walk_names};
use std::alloc::{AllocError, Global};
use std::process::Abort;
use zj_block::{Block, BlockNo, Blocks, Sizes, Taken, Written};
use zj_layout::{Link, Node, format, link_at, node_at, put_in_use, put_link};
use zj_tree::{Name, Path};

/// The word at a place of a line.
fn word<'a>(rt: &impl Abort, line: &'a str, place: usize) -> &'a str {
    line.split(' ').nth(place).expect(rt, line)
}

/// The number at a place of a line.
fn number(rt: &impl Abort, line: &str, place: usize) -> u32 {
    word(rt, line, place).parse::<u32>().expect(rt, line)
}

fn sizes(rt: &impl Abort, blocks: u32, nodes: u32) -> Sizes {
    Sizes::new(1, blocks, nodes, 1, 50_752).expect(rt, "sizes")
}

fn content(rt: &impl Abort, blocks: &Blocks, block: u32) -> Block {
    *blocks.at(block as usize).expect(rt, "a block")
}

fn put(rt: &impl Abort, blocks: &mut Blocks, block: u32, content: &Block) {
    blocks.put(block as usize, content).expect(rt, "a block");
}

/// Sets a number of an image, in a block at a place.
fn set(rt: &impl Abort, blocks: &mut Blocks, block: u32, at: usize, number: u32) {
    let mut content = content(rt, blocks, block);
    content.put_u32(at, number).expect(rt, "a place");
    put(rt, blocks, block, &content);
}

fn set_entry(rt: &impl Abort, blocks: &mut Blocks, block: u32, at: u32, link: &Link) {
    let mut content = content(rt, blocks, block);
    put_link(&mut content, at % 16, link);
    put(rt, blocks, block, &content);
}

fn set_in_use(rt: &impl Abort, blocks: &mut Blocks, block: u32) {
    let mut content = content(rt, blocks, block / 512);
    put_in_use(&mut content, block % 512, true);
    put(rt, blocks, block / 512, &content);
}

/// An entry with a name that leads to a node.
fn link(rt: &impl Abort, name: &[u8], node: u32) -> Link {
    let name = Name::new(name).expect(rt, "a name");
    Link { node, name }
}

/// The name of the entry at a place: two letters.
fn letters(place: u32) -> [u8; 2] {
    [b'a' + (place / 16 % 16) as u8, b'a' + (place % 16) as u8]
}

/// An image whose root has so many entries, in blocks from 2 on.
fn root_with(rt: &impl Abort, alloc: Global, sizes: &Sizes, entries: u32) -> Blocks {
    let mut blocks = format(alloc, sizes).expect(rt, "memory");
    set(rt, &mut blocks, 1, 4, entries);
    for place in 0..entries {
        let link = link(rt, &letters(place), 1 + place % 7);
        let block = 2 + place / 16;
        set_entry(rt, &mut blocks, block, place, &link);
        set(rt, &mut blocks, 1, 8 + 4 * (place / 16) as usize, block);
        set_in_use(rt, &mut blocks, block);
    }
    blocks
}

fn take(rt: &impl Abort, taken: &mut Taken, blocks: &Blocks, block: BlockNo) {
    assert!(rt; taken.get(block).is_none(), "taken twice");
    let content = content(rt, blocks, block.0);
    taken.add(block, &content).expect(rt, "memory");
}

/// The image with the written blocks put in.
fn put_in(rt: &impl Abort, blocks: &mut Blocks, written: &Written) {
    for i in 0..written.len() {
        let (block, content) = written.at(i).expect(rt, "a written block");
        put(rt, blocks, block.0, content);
    }
}

fn place_in_root(
    sizes: &Sizes,
    link: &Link,
    taken: &Taken,
    written: &mut Written,
) -> Result<Change, AllocError>
    requires { written.old ≡ map.empty }
{
    place(sizes, 0, link, taken, written)
}

/// Adds an entry to the root. Tells what came of it, and how many blocks it took.
fn add(
    rt: &impl Abort,
    alloc: Global,
    sizes: &Sizes,
    blocks: &mut Blocks,
    link: &Link,
) -> (Change, usize) {
    let mut taken = Taken::new(alloc);
    for _ in 0..40 {
        let mut written = Written::new(alloc);
        match place_in_root(sizes, link, &taken, &mut written).expect(rt, "memory") {
            Change::Need(block) => take(rt, &mut taken, blocks, block),
            change => {
                put_in(rt, blocks, &written);
                return (change, taken.len());
            }
        }
    }
    panic!(rt; "too many blocks")
}

fn remove_from_root(
    sizes: &Sizes,
    name: &Name,
    taken: &Taken,
    written: &mut Written,
) -> Result<Change, AllocError>
    requires { written.old ≡ map.empty }
{
    match find(sizes, 0, name, taken, written) {
        Find::Found { place, .. } => remove(sizes, 0, place, taken, written),
        Find::Need(block) => Ok(Change::Need(block)),
        Find::Absent | Find::Odd => Ok(Change::Odd),
    }
}

/// Removes an entry of the root. Tells what came of it, and how many blocks it took.
fn drop_entry(
    rt: &impl Abort,
    alloc: Global,
    sizes: &Sizes,
    blocks: &mut Blocks,
    name: &Name,
) -> (Change, usize) {
    let mut taken = Taken::new(alloc);
    for _ in 0..40 {
        let mut written = Written::new(alloc);
        match remove_from_root(sizes, name, &taken, &mut written).expect(rt, "memory") {
            Change::Need(block) => take(rt, &mut taken, blocks, block),
            change => {
                put_in(rt, blocks, &written);
                return (change, taken.len());
            }
        }
    }
    panic!(rt; "too many blocks")
}

fn root(rt: &impl Abort, blocks: &Blocks, block: u32) -> Node {
    node_at(&content(rt, blocks, block), 0).expect(rt, "a node")
}

fn in_use(rt: &impl Abort, blocks: &Blocks, block: u32) -> bool {
    let byte = content(rt, blocks, block / 512).byte((block % 512) as usize);
    byte == Some(1)
}

/// How many entries the root has, and the block of the one that is added.
#[test]
fn an_entry_is_added_last(rt: HostRuntime) {
    let lines = "0 2
1 2
15 2
16 3
17 3
191 13";
    assert!(rt; lines.lines().count() == 6);
    for line in lines.lines() {
        adds(&rt, rt.alloc(), line);
    }
}

/// An entry comes into its block.
fn adds(rt: &impl Abort, alloc: Global, line: &str) {
    let (entries, block) = (number(rt, line, 0), number(rt, line, 1));
    let sizes = sizes(rt, 64, 8);
    let mut blocks = root_with(rt, alloc, &sizes, entries);
    let (change, _) = add(rt, alloc, &sizes, &mut blocks, &link(rt, b"new", 5));
    assert!(rt; change == Change::Done, "{line}");
    let node = root(rt, &blocks, 1);
    assert!(rt; Some(node.size) == entries.checked_add(1), "{line}");
    assert!(rt;
        node.blocks.get((entries / 16) as usize) == Some(&block),
        "{line}"
    );
    assert!(rt; in_use(rt, &blocks, block), "{line}");
    let added = link_at(&content(rt, &blocks, block), entries % 16).expect(rt, line);
    assert!(rt; added.node == 5, "{line}");
    assert_eq!(rt; added.name.as_slice(), b"new".as_slice(), "{line}");
}

#[test]
fn a_full_directory(rt: HostRuntime) {
    let small = sizes(&rt, 64, 8);
    let mut blocks = root_with(&rt, rt.alloc(), &small, 192);
    let full = add(&rt, rt.alloc(), &small, &mut blocks, &link(&rt, b"new", 5));
    assert_eq!(rt; full, (Change::DirFull, 1));
}

/// Adds an entry to a new image of 600 blocks, of which those from 3 on and below another are in use.
fn add_above(rt: &impl Abort, alloc: Global, free: u32) -> (Change, usize, u32) {
    let wide = sizes(rt, 600, 8);
    let mut blocks = format(alloc, &wide).expect(rt, "memory");
    for block in 3..free {
        set_in_use(rt, &mut blocks, block);
    }
    let (change, count) = add(rt, alloc, &wide, &mut blocks, &link(rt, b"new", 5));
    (change, count, root(rt, &blocks, 2).blocks[0])
}

#[test]
fn a_map_that_is_full(rt: HostRuntime) {
    let last = add_above(&rt, rt.alloc(), 512);
    assert_eq!(rt; last, (Change::Done, 4, 512));
    let none = add_above(&rt, rt.alloc(), 600);
    assert_eq!(rt; none, (Change::NoSpace, 3, 0));
}

/// How many entries the root has, the place of the one that is removed, how many blocks that takes, and how many it frees.
#[test]
fn the_last_entry_moves_into_the_hole(rt: HostRuntime) {
    let lines = "1 0 3 1
2 0 2 0
16 15 2 0
17 0 4 1
17 8 4 1
17 16 4 1
18 17 3 0
192 100 9 0";
    assert!(rt; lines.lines().count() == 8);
    for line in lines.lines() {
        removes(&rt, rt.alloc(), line);
    }
}

/// An entry is removed, and its block is free or not.
fn removes(rt: &impl Abort, alloc: Global, line: &str) {
    let (entries, place) = (number(rt, line, 0), number(rt, line, 1));
    let freed = number(rt, line, 3) == 1;
    let sizes = sizes(rt, 64, 8);
    let mut blocks = root_with(rt, alloc, &sizes, entries);
    let name = link(rt, &letters(place), 1).name;
    let (change, count) = drop_entry(rt, alloc, &sizes, &mut blocks, &name);
    assert!(rt; change == Change::Done, "{line}");
    assert!(rt; count == number(rt, line, 2) as usize, "{line}");
    let node = root(rt, &blocks, 1);
    assert!(rt; Some(node.size) == entries.checked_sub(1), "{line}");
    let last = node.size / 16;
    assert!(rt; in_use(rt, &blocks, 2 + last) == !freed, "{line}");
    let number = *node.blocks.get(last as usize).expect(rt, line);
    assert!(rt; (number == 0) == freed, "{line}");
    if place < node.size {
        let content = content(rt, &blocks, 2 + place / 16);
        let moved = link_at(&content, place % 16).expect(rt, line);
        let expected = letters(node.size);
        assert_eq!(rt; moved.name.as_slice(), expected.as_slice(), "{line}");
    }
}

/// An image whose root has a directory, which has one, and so on, so many, and the last one a file: each has the name `d`.
fn nested(rt: &impl Abort, alloc: Global, sizes: &Sizes, depth: u8) -> Blocks {
    let mut blocks = format(alloc, sizes).expect(rt, "memory");
    for i in 0..depth {
        let link = link(rt, b"d", u32::from(i) + 1);
        let of_node = 1 + u32::from(i / 8);
        let at = 64 * usize::from(i % 8);
        let block = sizes.first_data() + u32::from(i);
        set(rt, &mut blocks, of_node, at, 2);
        set(rt, &mut blocks, of_node, at + 4, 1);
        set(rt, &mut blocks, of_node, at + 8, block);
        set_entry(rt, &mut blocks, block, 0, &link);
        set_in_use(rt, &mut blocks, block);
    }
    let of_node = 1 + u32::from(depth / 8);
    set(rt, &mut blocks, of_node, 64 * usize::from(depth % 8), 1);
    blocks
}

/// Where a path leads, once so many blocks are taken, each as it is needed.
fn walks(rt: &impl Abort, alloc: Global, sizes: &Sizes, blocks: &Blocks, line: &str) -> Walk {
    let parsed = Path::parse(alloc, word(rt, line, 0).as_bytes()).expect(rt, "memory");
    let path = parsed.expect(rt, line);
    let mut taken = Taken::new(alloc);
    for _ in 0..number(rt, line, 1) {
        match walk(sizes, &path, &taken) {
            Walk::Need(block) => take(rt, &mut taken, blocks, block),
            _ => panic!(rt; "no block is needed: {line}"),
        }
    }
    let led = walk(sizes, &path, &taken);
    assert_eq!(rt; walk_names(sizes, path.as_slice(), &taken), led, "{line}");
    led
}

/// Where the path of a line leads: to a node, or why it leads to none.
fn expected(rt: &impl Abort, line: &str) -> Walk {
    match word(rt, line, 2) {
        "notfound" => Walk::NotFound,
        "notdir" => Walk::NotDir,
        _ => Walk::Found {
            node: number(rt, line, 2),
        },
    }
}

/// A path, how many blocks are needed, and where it leads.
#[test]
fn a_path_leads_to_a_node(rt: HostRuntime) {
    let lines = "/ 0 0
/d 2 1
/d/d/d/d 5 4
/d/d/x 4 notfound
/d/d/d/d/d 5 notdir
/x/d/d 2 notfound";
    assert!(rt; lines.lines().count() == 6);
    let sizes = sizes(&rt, 64, 8);
    let blocks = nested(&rt, rt.alloc(), &sizes, 4);
    for line in lines.lines() {
        let led = walks(&rt, rt.alloc(), &sizes, &blocks, line);
        assert!(rt; led == expected(&rt, line), "{line}");
    }
}

#[test]
fn a_path_of_16_names_leads_to_a_node(rt: HostRuntime) {
    let sizes = sizes(&rt, 64, 24);
    let blocks = nested(&rt, rt.alloc(), &sizes, 16);
    let line = "/d/d/d/d/d/d/d/d/d/d/d/d/d/d/d/d 18";
    let led = walks(&rt, rt.alloc(), &sizes, &blocks, line);
    assert!(rt; led == Walk::Found { node: 16 });
}

fn lowest_node(sizes: &Sizes, taken: &Taken, written: &Written) -> Result<Option<u32>, Stop>
    requires { written.now ≡ map.empty }
{
    free_node(sizes, taken, written)
}

#[test]
fn the_lowest_free_node(rt: HostRuntime) {
    let sizes = sizes(&rt, 64, 8);
    let blocks = nested(&rt, rt.alloc(), &sizes, 4);
    let written = Written::new(rt.alloc());
    let mut taken = Taken::new(rt.alloc());
    let needed = lowest_node(&sizes, &taken, &written);
    assert!(rt; matches!(needed, Err(Stop::Need(BlockNo(1)))));
    take(&rt, &mut taken, &blocks, BlockNo(1));
    let found = lowest_node(&sizes, &taken, &written);
    assert!(rt; matches!(found, Ok(Some(5))));
}

/// Gives block 1 new content, and blocks 2 and 3 the content that they had.
fn rebuilt(rt: &impl Abort, alloc: Global, sizes: &Sizes, blocks: &Blocks, taken: &Taken) -> Written
    ensures { AllTaken taken.now result }
{
    let mut built = Written::new(alloc);
    let (used, free) = (content(rt, blocks, 2), content(rt, blocks, 3));
    let set = set_content(sizes, 1, &Block::zero(), taken, &mut built);
    assert!(rt; set.is_ok());
    let set = set_content(sizes, 2, &used, taken, &mut built);
    assert!(rt; set.is_ok());
    let set = set_content(sizes, 3, &free, taken, &mut built);
    assert!(rt; set.is_ok());
    built
}

#[test]
fn what_is_as_it_was_found_is_left_out(rt: HostRuntime) {
    let sizes = sizes(&rt, 64, 8);
    let blocks = root_with(&rt, rt.alloc(), &sizes, 1);
    let mut taken = Taken::new(rt.alloc());
    for block in 0..4 {
        take(&rt, &mut taken, &blocks, BlockNo(block));
    }
    let built = rebuilt(&rt, rt.alloc(), &sizes, &blocks, &taken);
    let written = trim(rt.alloc(), &taken, &built).expect(&rt, "memory");
    assert_eq!(rt; (built.len(), written.len()), (3, 2));
    assert!(rt; written.get(BlockNo(1)).is_some());
    assert!(rt; written.get(BlockNo(3)).is_some());
}
