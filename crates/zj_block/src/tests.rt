//! The sizes of some images, the bytes of blocks, and each list on its happy path.

use super::*;
use std::process::Abort;

/// The number at a place of a line.
fn number(rt: &impl Abort, line: &str, place: usize) -> u64 {
    let word = line.split(' ').nth(place).expect(rt, line);
    word.parse::<u64>().expect(rt, line)
}

/// The same, of one that fits in 32 bits.
fn small(rt: &impl Abort, line: &str, place: usize) -> u32 {
    u32::try_from(number(rt, line, place)).expect(rt, line)
}

/// The sizes with the numbers of a line from the version on, if they are within the limits.
fn sizes(rt: &impl Abort, line: &str) -> Option<Sizes> {
    let (version, blocks) = (small(rt, line, 0), small(rt, line, 1));
    let (nodes, cores) = (small(rt, line, 2), small(rt, line, 3));
    Sizes::new(version, blocks, nodes, cores, number(rt, line, 4))
}

/// Version, blocks, nodes, cores and area, and then the blocks of the map, those of the nodes, the first block of data, the room
/// and the longest record.
#[test]
fn sizes_follow_from_their_numbers(rt: HostRuntime) {
    let lines = "1 64 8 1 50752 1 1 2 62 25376
1 16 8 1 131072 1 1 2 14 25376
1 64 8 2 131072 1 1 2 62 25384
1 4096 1024 4 1048576 8 128 136 3960 25400";
    assert!(rt; lines.lines().count() == 4);
    for line in lines.lines() {
        let sizes = sizes(&rt, line).expect(&rt, line);
        keep_numbers(&rt, &sizes, line);
        have_derived(&rt, &sizes, line);
    }
}

fn keep_numbers(rt: &impl Abort, sizes: &Sizes, line: &str) {
    assert!(rt; sizes.version() == small(rt, line, 0), "{line}");
    assert!(rt; sizes.blocks() == small(rt, line, 1), "{line}");
    assert!(rt; sizes.nodes() == small(rt, line, 2), "{line}");
    assert!(rt; sizes.cores() == small(rt, line, 3), "{line}");
    assert!(rt; sizes.area() == number(rt, line, 4), "{line}");
}

fn have_derived(rt: &impl Abort, sizes: &Sizes, line: &str) {
    assert!(rt; sizes.map_blocks() == small(rt, line, 5), "{line}");
    assert!(rt; sizes.node_blocks() == small(rt, line, 6), "{line}");
    assert!(rt; sizes.first_data() == small(rt, line, 7), "{line}");
    assert!(rt; sizes.room() == small(rt, line, 8), "{line}");
    assert!(rt; sizes.max_record() == number(rt, line, 9), "{line}");
}

/// The number of a line that is out of range.
fn told(rt: &impl Abort, line: &str) -> &'static str {
    let (version, blocks) = (small(rt, line, 0), small(rt, line, 1));
    let (nodes, cores) = (small(rt, line, 2), small(rt, line, 3));
    match Sizes::out_of_range(version, blocks, nodes, cores, number(rt, line, 4)) {
        None => "none",
        Some(SizesField::Version) => "version",
        Some(SizesField::Blocks) => "blocks",
        Some(SizesField::Nodes) => "nodes",
        Some(SizesField::Cores) => "cores",
        Some(SizesField::Area) => "area",
    }
}

/// The five numbers, and which is out of range.
#[test]
fn sizes_outside_their_limits_are_refused(rt: HostRuntime) {
    let lines = "1 64 9 1 50752 nodes
1 64 8 1 50751 area
0 64 8 1 50752 version
2 64 8 1 50752 version
1 15 8 1 50752 blocks
1 4097 8 1 50752 blocks
1 64 8 9 131072 cores
1 64 8 1 16777217 area
1 16 128 1 50752 blocks
1 15 9 0 0 cores
1 15 9 1 0 blocks
1 64 9 1 0 nodes";
    assert!(rt; lines.lines().count() == 12);
    for line in lines.lines() {
        assert!(rt; sizes(&rt, line).is_none(), "{line}");
        assert!(rt; line.ends_with(told(&rt, line)), "{line}");
    }
    assert!(rt; told(&rt, "1 64 8 1 50752") == "none");
}

#[test]
fn numbers_stand_lowest_byte_first(rt: HostRuntime) {
    let mut block = Block::zero();
    block.set_word(1, 0x0807_0605_0403_0201).expect(&rt, "word");
    assert!(rt; block.word(1) == Some(0x0807_0605_0403_0201));
    assert!(rt; block.get_u32(8) == Some(0x0403_0201));
    assert!(rt; block.get_u32(13) == Some(0x0008_0706));
    assert!(rt; block.get_u32(7) == Some(0x0302_0100));
    assert!(rt; block.byte(8) == Some(1));
    block.put_u32(14, 0xddcc_bbaa).expect(&rt, "number");
    assert!(rt; block.word(1) == Some(0xbbaa_0605_0403_0201));
    assert!(rt; block.word(2) == Some(0xddcc));
    block.put_u32(10, 0x4433_2211).expect(&rt, "number");
    assert!(rt; block.word(1) == Some(0xbbaa_4433_2211_0201));
    block.put_byte(511, 0xee).expect(&rt, "byte");
    assert!(rt; block.word(63) == Some(0xee00_0000_0000_0000));
    assert!(rt; block.get_u32(508) == Some(0xee00_0000));
    assert!(rt; block.get_u32(509).is_none());
    assert!(rt; block.word(64).is_none());
    assert!(rt; block.byte(512).is_none());
}

#[test]
fn bytes_come_back(rt: HostRuntime) {
    let mut bytes = [0; 512];
    bytes[0] = 0x11;
    bytes[9] = 0x22;
    bytes[511] = 0x33;
    let block = Block::from_bytes(&bytes);
    assert!(rt; block.word(0) == Some(0x11));
    assert!(rt; block.word(1) == Some(0x2200));
    assert!(rt; block.words()[63] == 0x3300_0000_0000_0000);
    let mut out = [7; 512];
    block.to_bytes(&mut out);
    assert!(rt; out == bytes);
}

#[test]
fn each_core_has_a_tail(rt: HostRuntime) {
    let mut tails = Tails::zero();
    let (place, number) = (512, 3);
    tails.put(63, Tail { place, number }).expect(&rt, "tail");
    assert!(rt; tails.at(63) == Some(Tail { place, number }));
    assert!(rt; tails.at(64).is_none());
}

#[test]
fn each_core_has_a_bound(rt: HostRuntime) {
    let mut bounds = Bounds::zero();
    bounds.put(1, 9).expect(&rt, "bound");
    assert!(rt; bounds.at(0) == Some(0));
    assert!(rt; bounds.at(1) == Some(9));
    assert!(rt; bounds.put(64, 9).is_none());
}

/// A block with this first word.
fn block_with(rt: &impl Abort, word: u64) -> Block {
    let mut block = Block::zero();
    block.set_word(0, word).expect(rt, "word");
    block
}

/// The first word of a block.
fn word_of(rt: &impl Abort, block: Option<&Block>) -> u64 {
    let block = block.expect(rt, "block");
    block.word(0).expect(rt, "word")
}

#[test]
fn lists_keep_blocks(rt: HostRuntime) {
    let mut blocks = Blocks::zero(rt.alloc(), 3).expect(&rt, "memory");
    blocks.put(1, &block_with(&rt, 1)).expect(&rt, "block");
    assert!(rt; blocks.len() == 3);
    assert!(rt; word_of(&rt, blocks.at(0)) == 0);
    assert!(rt; word_of(&rt, blocks.at(1)) == 1);
    assert!(rt; word_of(&rt, blocks.at(2)) == 0);
    assert!(rt; blocks.at(3).is_none());
    assert!(rt; !blocks.is_empty());
}

#[test]
fn taken_blocks_are_found(rt: HostRuntime) {
    let mut taken = Taken::new(rt.alloc());
    assert!(rt; taken.is_empty());
    assert!(rt; taken.get(BlockNo(7)).is_none());
    taken
        .add(BlockNo(7), &block_with(&rt, 1))
        .expect(&rt, "memory");
    assert!(rt; word_of(&rt, taken.get(BlockNo(7))) == 1);
    let (number, found) = taken.at(0).expect(&rt, "entry");
    assert!(rt; number == BlockNo(7));
    assert!(rt; found.word(0) == Some(1));
    assert!(rt; taken.len() == 1);
    taken.clear();
    assert!(rt; taken.len() == 0);
}

/// The entry at a place is this block, with this first word.
fn stands(rt: &impl Abort, written: &Written, i: usize, number: u32, word: u64) {
    let (at, content) = written.at(i).expect(rt, "entry");
    assert!(rt; at == BlockNo(number));
    assert!(rt; content.word(0) == Some(word));
    assert!(rt; word_of(rt, written.get(at)) == word);
}

#[test]
fn the_newest_content_counts(rt: HostRuntime) {
    let mut written = Written::new(rt.alloc());
    for line in "9 1,4 2,9 3,6 4".split(',') {
        let block = block_with(&rt, number(&rt, line, 1));
        let number = BlockNo(small(&rt, line, 0));
        written.put(number, &block).expect(&rt, "memory");
    }
    assert!(rt; written.len() == 3);
    assert!(rt; !written.is_empty());
    stands(&rt, &written, 0, 4, 2);
    stands(&rt, &written, 1, 6, 4);
    stands(&rt, &written, 2, 9, 3);
    assert!(rt; written.get(BlockNo(5)).is_none());
    assert!(rt; written.at(3).is_none());
}
