//! A home in memory: its bytes, each refusal once, and each call failing or the last.

use super::*;
use std::alloc::Global;
use std::process::Abort;
use zj_block::{Block, BlockNo, Blocks, Sizes, Tail};
use zj_dev::{Disk, MemDisk, Torn};

/// The sizes that most tests use: 64 blocks, 8 nodes and one core.
fn sizes(rt: &impl Abort) -> Sizes {
    Sizes::new(1, 64, 8, 1, 50752).expect(rt, "within the limits")
}

/// What making a home on a device of 40,960 bytes answered, with the device, whose calls from `stop` on fail.
fn made(
    rt: &impl Abort,
    alloc: Global,
    failing: &[u64],
    stop: Option<u64>,
) -> (Option<HomeFault>, MemDisk) {
    let bytes = vec![in alloc; 7u8; 40960].expect(rt, "memory");
    let disk = MemDisk::new(alloc, &bytes, failing, stop).expect(rt, "memory");
    let sizes = sizes(rt);
    let blocks = Blocks::zero(alloc, 64).expect(rt, "memory");
    assert!(rt; disk.len() == 40960 && home_len(&sizes) == 40960);
    assert!(rt; blocks.len() == 64 && sizes.blocks() == 64);
    match Home::make(alloc, disk, &sizes, &blocks) {
        Ok(home) => (None, home.into_device()),
        Err(refused) => (Some(refused.fault), refused.device),
    }
}

/// What opening a device with these bytes tells: the epoch, or the fault.
fn opened(rt: &impl Abort, alloc: Global, bytes: &[u8]) -> String {
    let disk = MemDisk::new(alloc, bytes, &[], None).expect(rt, "memory");
    match Home::open(alloc, disk) {
        Ok(home) => {
            let epoch = home.epoch();
            format!(in alloc; "epoch {epoch}").expect(rt, "memory")
        }
        Err(refused) => {
            let fault = refused.fault;
            format!(in alloc; "{fault}").expect(rt, "memory")
        }
    }
}

/// The bytes of a home that was just made.
fn image(rt: &impl Abort, alloc: Global) -> Vec<u8> {
    let (fault, disk) = made(rt, alloc, &[], None);
    assert!(rt; fault.is_none());
    let bytes = disk.image(alloc, Torn::Lost).expect(rt, "memory");
    assert!(rt; bytes.len() == 40960);
    bytes
}

/// The byte at a place.
fn byte(rt: &impl Abort, bytes: &[u8], place: usize) -> u8 {
    *bytes.get(place).expect(rt, "a byte")
}

#[test]
fn a_home_has_its_bytes(rt: HostRuntime) {
    let bytes = image(&rt, rt.alloc());
    let slot =
        b"\x01ZJ-HOME\x01\0\0\0\0\0\0\0\x01\0\0\0\x01\0\0\0\x40\0\0\0\x08\0\0\0\x40\xc6\0\0\0\0\0\0\0\0\0\0\0\0\0\0\0\0\0\0\0\0\0\0\x07";
    assert_eq!(rt; bytes.get(..57), Some(slot.as_slice()));
    assert!(rt; byte(&rt, &bytes, 4096) == 0);
    assert!(rt; byte(&rt, &bytes, 8192) == 0);
    assert!(rt; byte(&rt, &bytes, 40959) == 0);
    let large = Sizes::new(1, 4096, 8, 1, 50752).expect(&rt, "within the limits");
    assert!(rt; home_len(&large) == 2_105_344);
}

/// A block of a home begins with a byte.
fn has_block(rt: &impl Abort, home: &mut Home<MemDisk>, b: u32, byte: u8) {
    let mut block = Block::zero();
    assert!(rt; b < home.sizes().blocks());
    assert!(rt; home.read_block(BlockNo(b), &mut block).is_ok());
    assert!(rt; block.byte(0) == Some(byte), "block {b}");
}

#[test]
fn a_home_opens(rt: HostRuntime) {
    let mut bytes = image(&rt, rt.alloc());
    *bytes.get_mut(8192 + 512 * 3).expect(&rt, "a byte") = 9;
    let disk = MemDisk::new(rt.alloc(), &bytes, &[], None).expect(&rt, "memory");
    let Ok(mut home) = Home::open(rt.alloc(), disk) else {
        panic!(rt; "refused")
    };
    assert!(rt; *home.sizes() == sizes(&rt) && home.epoch() == 1);
    let (place, number) = (0, 0);
    assert!(rt; home.tail(0) == Some(Tail { place, number }));
    assert!(rt; home.tail(1).is_none());
    has_block(&rt, &mut home, 2, 0);
    has_block(&rt, &mut home, 3, 9);
    has_block(&rt, &mut home, 4, 0);
}

/// The number at a place of a line.
fn number(rt: &impl Abort, line: &str, place: usize) -> u64 {
    let word = line.split(' ').nth(place).expect(rt, line);
    word.parse::<u64>().expect(rt, line)
}

/// The bytes of a home, of which those that a text names are changed: the place and the value of each.
fn changed(rt: &impl Abort, alloc: Global, bytes: &[u8], text: &str) -> Vec<u8> {
    let mut changed = Vec::from_slice(alloc, bytes).expect(rt, "memory");
    for change in text.split(", ") {
        let place = number(rt, change, 0) as usize;
        let value = u8::try_from(number(rt, change, 1)).expect(rt, change);
        *changed.get_mut(place).expect(rt, change) = value;
    }
    changed
}

/// In front of the colon of each line stand the bytes of a home that are changed, and behind it what opening it tells then.
/// Tells how many lines there are.
fn open_changed(rt: &impl Abort, alloc: Global, bytes: &[u8], lines: &str) -> u32 {
    let mut count = 0u32;
    for line in lines.lines() {
        let (changes, due) = line.split_once(": ").expect(rt, line);
        let bytes = changed(rt, alloc, bytes, changes);
        assert_eq!(rt; opened(rt, alloc, &bytes).as_str(), due, "{line}");
        count = count.wrapping_add(1);
    }
    count
}

#[test]
fn bytes_that_are_no_home_are_refused(rt: HostRuntime) {
    let bytes = image(&rt, rt.alloc());
    let lines = "0 7: notanimage at 0
7 88: notanimage at 1
16 2: version found 2
15 64: notanimage at 8
20 0: notanimage at 20
24 15: notanimage at 24
28 9: notanimage at 28
33 197: notanimage at 32
42 1: notanimage at 40
55 64: notanimage at 48
24 65: sizes found 40960 expected 41472";
    assert!(rt; open_changed(&rt, rt.alloc(), &bytes, lines) == 11);
    let cut = bytes.get(..40959).expect(&rt, "bytes");
    let told = opened(&rt, rt.alloc(), cut);
    assert_eq!(rt; told.as_str(), "sizes found 40959 expected 40960");
    let short = bytes.get(..8191).expect(&rt, "bytes");
    let told = opened(&rt, rt.alloc(), short);
    assert_eq!(rt; told.as_str(), "notanimage at 0");
}

#[test]
fn an_epoch_is_below_its_end(rt: HostRuntime) {
    let mut bytes = image(&rt, rt.alloc());
    assert!(rt; bytes.len() == 40960);
    bytes[8..15].fill(0xff);
    let lines = "15 63: epoch 4611686018427387903
15 64: notanimage at 8
15 64, 16 2: version found 2
15 64, 20 0: notanimage at 8";
    assert!(rt; open_changed(&rt, rt.alloc(), &bytes, lines) == 4);
}

#[test]
fn the_later_of_two_open_slots_counts(rt: HostRuntime) {
    let mut bytes = image(&rt, rt.alloc());
    for i in 0..56 {
        let byte = byte(&rt, &bytes, i);
        *bytes.get_mut(4096 + i).expect(&rt, "a byte") = byte;
    }
    let lines = "4104 2: epoch 2
4104 2, 4112 2: version found 2
4104 1: epoch 1
4104 1, 4112 2: epoch 1
4104 0: epoch 1
4104 0, 4112 2: epoch 1";
    assert!(rt; open_changed(&rt, rt.alloc(), &bytes, lines) == 6);
}

#[test]
fn a_call_that_fails_is_a_fault_of_the_disk(rt: HostRuntime) {
    for call in 0..71 {
        let (fault, _) = made(&rt, rt.alloc(), &[call], None);
        assert!(rt; fault == Some(HomeFault::DiskFault), "call {call}");
    }
    let bytes = image(&rt, rt.alloc());
    let disk = MemDisk::new(rt.alloc(), &bytes, &[0], None).expect(&rt, "memory");
    match Home::open(rt.alloc(), disk) {
        Ok(_) => panic!(rt; "opened"),
        Err(refused) => assert!(rt; refused.fault == HomeFault::DiskFault),
    }
}

/// What a crash leaves of a device opens so.
fn leaves(rt: &impl Abort, alloc: Global, disk: &MemDisk, torn: Torn, due: &str) {
    let bytes = disk.image(alloc, torn).expect(rt, "memory");
    assert_eq!(rt; opened(rt, alloc, &bytes).as_str(), due, "{torn:?}");
}

/// From which call on all fail, whether the home is made nevertheless, and whether it opens once the bytes that were not
/// synced are lost, are there, or are others.
#[test]
fn a_home_that_was_not_made_whole_does_not_open(rt: HostRuntime) {
    let lines = "0 0 0 0 0
1 0 0 0 0
63 0 0 0 0
64 0 0 0 0
65 0 0 0 0
66 0 0 0 0
67 0 0 0 0
68 0 0 0 0
69 0 0 0 0
70 0 0 1 0
71 1 1 1 1";
    assert!(rt; lines.lines().count() == 11);
    for line in lines.lines() {
        stops(&rt, rt.alloc(), line);
    }
}

fn stops(rt: &impl Abort, alloc: Global, line: &str) {
    let (fault, disk) = made(rt, alloc, &[], Some(number(rt, line, 0)));
    assert!(rt; fault.is_none() == (number(rt, line, 1) == 1), "{line}");
    leaves(rt, alloc, &disk, Torn::Lost, due(rt, line, 2));
    leaves(rt, alloc, &disk, Torn::Whole, due(rt, line, 3));
    leaves(rt, alloc, &disk, Torn::Filled(3), due(rt, line, 4));
}

/// What is told of a home that opens or doesn't.
fn due(rt: &impl Abort, line: &str, place: usize) -> &'static str {
    if number(rt, line, place) == 1 {
        "epoch 1"
    } else {
        "notanimage at 0"
    }
}

/// A fault has a text.
fn has_text(rt: &impl Abort, alloc: Global, fault: HomeFault, due: &str) {
    let text = format!(in alloc; "{fault}").expect(rt, "memory");
    assert_eq!(rt; text.as_str(), due);
}

#[test]
fn faults_have_their_texts(rt: HostRuntime) {
    has_text(&rt, rt.alloc(), HomeFault::DiskFault, "disk");
    has_text(
        &rt,
        rt.alloc(),
        HomeFault::NotAnImage { at: 41 },
        "notanimage at 41",
    );
    has_text(
        &rt,
        rt.alloc(),
        HomeFault::Version { found: 2 },
        "version found 2",
    );
    let (found, expected) = (1, 2);
    let sizes = HomeFault::Sizes { found, expected };
    has_text(&rt, rt.alloc(), sizes, "sizes found 1 expected 2");
    has_text(&rt, rt.alloc(), HomeFault::NoMemory, "memory");
}
