//! What a scan finds, and where a longest record has room.

use super::*;

/// What a scan tells of a record of no block: the place of a byte, its value, and from which call on the disk fails.
fn scan_told(rt: &impl Abort, alloc: Global, line: &str) -> String {
    let mut bytes = chain(rt, alloc, START, 1);
    let value = u8::try_from(number(rt, line, 2)).expect(rt, line);
    put(rt, &mut bytes, number(rt, line, 1) as usize, &[value]);
    let stop = word(rt, line, 3).parse::<u64>().ok();
    scanned(rt, alloc, &bytes, START, stop)
}

/// What a scan tells of a ring: the tail's place and number, and how many records there are from there on.
fn ring_told(rt: &impl Abort, alloc: Global, line: &str) -> String {
    let (place, number) = (self::number(rt, line, 1), self::number(rt, line, 2));
    let tail = Tail { place, number };
    let bytes = chain(rt, alloc, tail, self::number(rt, line, 3));
    scanned(rt, alloc, &bytes, tail, None)
}

/// How many bytes a longest record needs and has, where it has no room: the length of a journal, the tail's place, and how many
/// blocks the record there has, if there is one.
fn room_told(rt: &impl Abort, alloc: Global, line: &str) -> String {
    let place = number(rt, line, 2);
    let mut bytes = filled(rt, alloc, 0, number(rt, line, 1) as usize);
    if let Ok(blocks) = word(rt, line, 3).parse::<u32>() {
        let record = record_bytes(rt, alloc, 1, blocks);
        put(rt, &mut bytes, place as usize, &record);
    }
    let tail = Tail { place, number: 1 };
    let mut area = area_on(rt, alloc, disk(rt, alloc, &bytes, None), tail);
    assert!(rt; area.scan().is_ok());
    assert!(rt; area.ready());
    match area.fits_one() {
        Ok(()) => String::from_str(alloc, "room").expect(rt, "memory"),
        Err(Full { need, free }) => format!(in alloc; "{need} {free}").expect(rt, "memory"),
    }
}

/// What stands behind the colon of a line comes of what stands in front.
fn comes(rt: &impl Abort, alloc: Global, line: &str) {
    let (front, due) = line.split_once(": ").expect(rt, line);
    let told = match word(rt, front, 0) {
        "scan" => scan_told(rt, alloc, front),
        "ring" => ring_told(rt, alloc, front),
        _ => room_told(rt, alloc, front),
    };
    assert_eq!(rt; told.as_str(), due, "{line}");
}

#[test]
fn journals_are_scanned(rt: HostRuntime) {
    let lines = "scan 0 0 -: 0 to 0 0
scan 0 1 -: 1 to 32 1
scan 0 7 -: 0 to 0 0
scan 8 5 -: damaged at 8 found 5 expected 0
scan 0 1 0: disk
scan 0 1 1: disk
ring 0 0 0: 0 to 0 0
ring 0 0 5: 5 to 160 5
ring 32 1 792: 792 to 25376 793
ring 32 1 793: 793 to 0 794
ring 25376 7 1: 1 to 0 8
ring 0 0 794: damaged at 8 found 0 expected 794
room 50752 0 -: room
room 50752 0 3: 50752 49136
room 50783 0 0: 50752 50751
room 50784 0 0: room
room 50752 1616 3: room
room 50752 1616 48: 25377 1616
room 76127 25376 48: 25377 25376
room 76128 25377 48: room";
    assert!(rt; lines.lines().count() == 20);
    for line in lines.lines() {
        comes(&rt, rt.alloc(), line);
    }
}
