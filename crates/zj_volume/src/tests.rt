//! Calls on new images: what the blocks hold, and a script beside the plain service.

ghost use Rattle.std.specs.Prelude.{◌<◌};

use crate::Volume;
use std::alloc::Global;
use std::process::Abort;
use zj_block::Sizes;
use zj_layout::format;
use zj_tree::{Bytes, Call, Name, Path, Reply, Tree};

/// A new image.
fn made(rt: &impl Abort, alloc: Global, blocks: u32, nodes: u32) -> Volume {
    let sizes = Sizes::new(1, blocks, nodes, 1, 50_752).expect(rt, "sizes");
    match format(alloc, &sizes) {
        Ok(blocks) => Volume::new(sizes, blocks),
        Err(_) => panic!(rt; "memory"),
    }
}

fn mkdir(rt: &impl Abort, alloc: Global, text: &str) -> Call {
    let parsed = Path::parse(alloc, text.as_bytes()).expect(rt, "memory");
    let path = parsed.expect(rt, text);
    Call::Mkdir { path }
}

/// The number at a place of a line.
fn number(rt: &impl Abort, line: &str, place: usize) -> usize {
    let word = line.split(' ').nth(place).expect(rt, line);
    word.parse::<usize>().expect(rt, line)
}

/// The number at the end of a line, whose digits are of base 16.
fn last_number(rt: &impl Abort, line: &str) -> u32 {
    let word = line.split(' ').last().expect(rt, line);
    u32::from_str_radix(word, 16).expect(rt, line)
}

#[test]
fn a_directory_in_a_new_image(rt: HostRuntime) {
    let mut volume = made(&rt, rt.alloc(), 16, 8);
    let call = mkdir(&rt, rt.alloc(), "/a");
    let reply = volume.apply(rt.alloc(), &call).expect(&rt, "memory");
    assert_eq!(rt; reply, Reply::Done);
    // A block, a place in it, and the number there.
    let numbers = "0 0 00010101
1 0 2
1 4 1
1 8 2
1 12 0
1 60 0
1 64 2
1 68 0
1 72 0
1 124 0
2 0 1
2 4 00610001
2 8 0
2 28 0";
    let mut count = 0u32;
    for line in numbers.lines() {
        let content = volume.blocks().at(number(&rt, line, 0)).expect(&rt, line);
        let found = content.get_u32(number(&rt, line, 1));
        assert_eq!(rt; found, Some(last_number(&rt, line)), "{line}");
        count = count.wrapping_add(1);
    }
    assert_eq!(rt; count, 14);
}

/// Numbers that follow no plain rule.
#[derive(Drop)]
struct Row {
    last: u32,
}

impl Row {
    fn below(&mut self, bound: u32) -> u32
        requires { 0 < bound }
    {
        self.last = self
            .last
            .wrapping_mul(1_664_525)
            .wrapping_add(1_013_904_223);
        (self.last >> 16) % bound
    }

    /// A path of up to two names, each of a letter.
    fn path(&mut self, rt: &impl Abort, alloc: Global) -> Path {
        let mut path = Path::new(alloc);
        for _ in 0..self.below(3) {
            let name = name(rt, self.below(3));
            path.push(name).expect(rt, "memory");
        }
        path
    }

    fn call(&mut self, rt: &impl Abort, alloc: Global) -> Call {
        let path = self.path(rt, alloc);
        let to = self.path(rt, alloc);
        let bytes = filled(rt, alloc, self.below(200));
        let at = self.below(900);
        call(self.below(13), path, to, at, bytes)
    }
}

fn name(rt: &impl Abort, letter: u32) -> Name {
    let letter = *b"abc".get(letter as usize).expect(rt, "a letter");
    Name::new(&[letter]).expect(rt, "a name")
}

fn filled(rt: &impl Abort, alloc: Global, count: u32) -> Bytes {
    let mut bytes = Bytes::new(alloc);
    for _ in 0..count {
        bytes.extend(b"abcdefg").expect(rt, "memory");
    }
    bytes
}

/// The call of a kind.
fn call(kind: u32, path: Path, to: Path, at: u32, bytes: Bytes) -> Call {
    match kind {
        0 => Call::Mkdir { path },
        1 => Call::Mkdir { path: to },
        2 => Call::Create { path },
        3 => Call::Create { path: to },
        4 => Call::Write { path, at, bytes },
        5 => Call::Write {
            path: to,
            at: 0,
            bytes,
        },
        6 => Call::Read {
            path,
            at,
            count: 700,
        },
        7 => Call::Truncate { path, size: at },
        8 => Call::Unlink { path },
        9 => Call::Rmdir { path },
        10 => Call::Rename { from: path, to },
        11 => Call::List { path },
        _ => Call::Stat { path },
    }
}

/// The next call of a row is answered alike.
fn agree(rt: &impl Abort, alloc: Global, row: &mut Row, volume: &mut Volume, tree: &mut Tree) {
    let call = row.call(rt, alloc);
    let reply = volume.apply(alloc, &call).expect(rt, "memory");
    let wanted = tree.apply(&call).expect(rt, "memory");
    assert!(rt; reply == wanted);
}

#[test]
fn a_script_beside_the_plain_service(rt: HostRuntime) {
    let mut volume = made(&rt, rt.alloc(), 16, 8);
    let mut tree = Tree::new(rt.alloc(), 8, 14, 1).expect(&rt, "memory");
    let mut row = Row { last: 1 };
    for _ in 0..400 {
        agree(&rt, rt.alloc(), &mut row, &mut volume, &mut tree);
    }
}
