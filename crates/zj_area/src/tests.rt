//! A journal in memory.

ghost use Rattle.std.specs.Prelude.{◌≡◌, None, false};
ghost use Rattle.zj_block.specs.Sizes.{numbers_of};
ghost use Rattle.zj_dev.specs.MemDisk.{disk_view};

mod commits;
mod scans;

use super::*;
use std::alloc::Global;
use std::process::Abort;
use zj_block::{Sizes, Tail};
use zj_dev::{Disk, MemDisk, Torn};
use zj_tx::Found;

/// The start of a ring.
const START: Tail = Tail {
    place: 0,
    number: 0,
};

/// The word at a place of a line.
fn word<'a>(rt: &impl Abort, line: &'a str, place: usize) -> &'a str {
    line.split(' ').nth(place).expect(rt, line)
}

/// The number at a place of a line.
fn number(rt: &impl Abort, line: &str, place: usize) -> u64 {
    word(rt, line, place).parse::<u64>().expect(rt, line)
}

/// The sizes that the tests use, with journals of so many bytes: 64 blocks, 8 nodes and one core.
fn sizes(rt: &impl Abort, area: u64) -> Sizes
    ensures { result ≡ numbers_of 1 64 8 1 area }
{
    Sizes::new(1, 64, 8, 1, area).expect(rt, "within the limits")
}

/// A disk with these bytes, whose calls from `stop` on fail.
fn disk(rt: &impl Abort, alloc: Global, bytes: &[u8], stop: Option<u64>) -> MemDisk {
    MemDisk::new(alloc, bytes, &[], stop).expect(rt, "memory")
}

/// The journal of core 0 on a disk, which wasn't read yet.
fn area_on(rt: &impl Abort, alloc: Global, disk: MemDisk, tail: Tail) -> Area<MemDisk>
    ensures core { result.core ≡ 0 }
    ensures failed { result.failed ≡ false }
    ensures laid { result.laid ≡ None }
    ensures sizes { result.sizes ≡ numbers_of 1 64 8 1 (disk_view disk).size }
{
    let sizes = sizes(rt, disk.len());
    assert!(rt; tail.place <= sizes.area() - sizes.max_record());
    assert!(rt; tail.number < 1 << 62);
    Area::open(alloc, disk, 0, &sizes, tail).expect(rt, "memory")
}

/// Puts a piece over what is there, from a place on.
fn put(rt: &impl Abort, bytes: &mut [u8], at: usize, piece: &[u8]) {
    assert!(rt; at <= bytes.len() && piece.len() <= bytes.len() - at);
    bytes[at..at + piece.len()].copy_from_slice(piece);
}

fn extend(rt: &impl Abort, out: &mut Vec<u8>, bytes: &[u8]) {
    out.extend_from_slice(bytes).expect(rt, "memory");
}

/// The bytes of a record with blocks of the same content, each at its first write.
fn record_bytes(rt: &impl Abort, alloc: Global, number: u64, blocks: u32) -> Vec<u8> {
    let mut out = Vec::new(alloc);
    extend(rt, &mut out, &1_u64.to_le_bytes());
    extend(rt, &mut out, &number.to_le_bytes());
    extend(rt, &mut out, &blocks.to_le_bytes());
    extend(rt, &mut out, &[1, 0, 0, 0, 0, 0, 0, 0, 0, 0, 0, 0]);
    for block in 0..blocks {
        extend(rt, &mut out, &u64::from(block).to_le_bytes());
        extend(rt, &mut out, &1_u64.to_le_bytes());
        extend(rt, &mut out, &[0x5a; 512]);
    }
    out
}

/// So many bytes of one value.
fn filled(rt: &impl Abort, alloc: Global, value: u8, len: usize) -> Vec<u8> {
    vec![in alloc; value; len].expect(rt, "memory")
}

/// A journal of 50,752 bytes with so many records of no block, one behind the other from the tail on.
fn chain(rt: &impl Abort, alloc: Global, tail: Tail, count: u64) -> Vec<u8> {
    assert!(rt; tail.place <= 50_752 && tail.number <= 1_000 && count <= 1_000);
    let mut bytes = filled(rt, alloc, 0, 50_752);
    for i in 0..count {
        let record = record_bytes(rt, alloc, tail.number + i, 0);
        put(rt, &mut bytes, (tail.place + 32 * i) as usize, &record);
    }
    bytes
}

/// How many records were found, and where the next one is due; or the fault.
fn told(rt: &impl Abort, alloc: Global, answer: Result<Found, ScanFault>, end: Tail) -> String {
    match answer {
        Ok(found) => {
            let (count, place, number) = (found.len(), end.place, end.number);
            format!(in alloc; "{count} to {place} {number}").expect(rt, "memory")
        }
        Err(fault) => format!(in alloc; "{fault}").expect(rt, "memory"),
    }
}

/// What a scan of these bytes tells, on a disk whose calls from `stop` on fail.
fn scanned(rt: &impl Abort, alloc: Global, bytes: &[u8], tail: Tail, stop: Option<u64>) -> String {
    let mut area = area_on(rt, alloc, disk(rt, alloc, bytes, stop), tail);
    let answer = area.scan();
    assert!(rt; area.ready() == answer.is_ok());
    told(rt, alloc, answer, area.end())
}

#[test]
fn a_new_area_was_not_read(rt: HostRuntime) {
    let (place, number) = (64, 2);
    let tail = Tail { place, number };
    let bytes = filled(&rt, rt.alloc(), 0, 50_752);
    let disk = disk(&rt, rt.alloc(), &bytes, None);
    let area = area_on(&rt, rt.alloc(), disk, tail);
    assert!(rt; area.core() == 0);
    assert!(rt; area.tail() == tail);
    assert!(rt; area.end() == tail);
    assert!(rt; !area.ready());
    assert!(rt; !area.laid());
    assert!(rt; !area.failed());
    assert!(rt; area.into_device().calls() == 0);
}

/// What a journal tells of its records.
fn read<J: Journal>(rt: &impl Abort, alloc: Global, journal: &mut J) -> String {
    let answer = journal.found();
    told(rt, alloc, answer, journal.end())
}

#[test]
fn an_area_is_a_journal(rt: HostRuntime) {
    let bytes = chain(&rt, rt.alloc(), START, 1);
    let record = b"\x01\0\0\0\0\0\0\0\0\0\0\0\0\0\0\0\0\0\0\0\x01\0\0\0\0\0\0\0\0\0\0\0";
    assert!(rt; bytes.starts_with(record));
    let mut area = area_on(&rt, rt.alloc(), disk(&rt, rt.alloc(), &bytes, None), START);
    assert_eq!(rt; read(&rt, rt.alloc(), &mut area).as_str(), "1 to 32 1");
}

/// A fault of a scan has this text.
fn has_text(rt: &impl Abort, alloc: Global, fault: ScanFault, due: &str) {
    let text = told(rt, alloc, Err(fault), START);
    assert_eq!(rt; text.as_str(), due);
}

#[test]
fn faults_have_their_texts(rt: HostRuntime) {
    let text = format!(in rt.alloc(); "{DiskFault}").expect(&rt, "memory");
    assert_eq!(rt; text.as_str(), "disk");
    has_text(&rt, rt.alloc(), ScanFault::DiskFault, "disk");
    let (at, found, expected) = (8, 5, 0);
    let damaged = ScanFault::Damaged {
        at,
        found,
        expected,
    };
    has_text(&rt, rt.alloc(), damaged, "damaged at 8 found 5 expected 0");
    has_text(&rt, rt.alloc(), ScanFault::NoMemory, "memory");
}
