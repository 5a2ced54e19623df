//! Commits, and those that stop at each of their calls.

ghost use Rattle.std.specs.Prelude.{◌≡◌, None, IsSome, OnOk, false};
ghost use Rattle.zj_block.specs.Sizes.{numbers_of};
ghost use Rattle.zj_tx.specs.Record.{Accepts};

use super::*;
use zj_tx::{Sealed, decode};

/// The transaction of core 0 with this record, in the journals of 50,752 bytes.
fn decoded(rt: &impl Abort, alloc: Global, number: u64, record: &[u8]) -> Sealed
    ensures { Accepts (numbers_of 1 64 8 1 50752) 0 number result }
{
    let mut bytes = Vec::from_slice(alloc, record).expect(rt, "memory");
    assert!(rt; bytes.len() <= 25_376);
    bytes.resize(25_376, 0xee).expect(rt, "memory");
    let decoded = decode(alloc, &sizes(rt, 50_752), 0, number, &bytes);
    decoded.expect(rt, "a record")
}

/// Lays a record of so many blocks as the next one of a journal that was scanned.
fn lay(
    rt: &impl Abort,
    alloc: Global,
    area: &mut Area<MemDisk>,
    blocks: u32,
) -> Result<(), DiskFault>
    requires core { area.old.core ≡ 0 }
    requires failed { area.old.failed ≡ false }
    requires laid { area.old.laid ≡ None }
    requires sizes { area.old.sizes ≡ numbers_of 1 64 8 1 50752 }
    ensures laid { OnOk result (IsSome area.new.laid) }
{
    let number = area.end().number;
    let record = record_bytes(rt, alloc, number, blocks);
    let sealed = decoded(rt, alloc, number, &record);
    assert!(rt; area.ready() && area.fits_one().is_ok());
    area.lay(&sealed)
}

/// Commits a record of no block as the next one of a journal that was scanned. Tells how far it came.
fn commit(rt: &impl Abort, alloc: Global, area: &mut Area<MemDisk>) -> &'static str
    requires core { area.old.core ≡ 0 }
    requires failed { area.old.failed ≡ false }
    requires laid { area.old.laid ≡ None }
    requires sizes { area.old.sizes ≡ numbers_of 1 64 8 1 50752 }
{
    match lay(rt, alloc, area, 0) {
        Err(DiskFault) => "nothing",
        Ok(()) => match area.open_gate() {
            Err(DiskFault) => "laid",
            Ok(number) => {
                assert!(rt; number == 0);
                "committed"
            }
        },
    }
}

/// How many calls of the device a scan makes.
fn calls_of_a_scan(rt: &impl Abort, alloc: Global, bytes: &[u8]) -> u64 {
    let mut area = area_on(rt, alloc, disk(rt, alloc, bytes, None), START);
    assert!(rt; area.scan().is_ok());
    area.into_device().calls()
}

/// The number of records that a scan finds after a crash stands at a place of a line.
fn finds(rt: &impl Abort, alloc: Global, disk: &MemDisk, torn: Torn, due: &str) {
    let image = disk.image(alloc, torn).expect(rt, "memory");
    let told = scanned(rt, alloc, &image, START, None);
    assert_eq!(rt; word(rt, told.as_str(), 0), due, "{torn:?}");
}

/// Commits a record of no block on these bytes, where the disk stops after so many of its calls. Tells the disk.
fn stopped(rt: &impl Abort, alloc: Global, bytes: &[u8], line: &str) -> MemDisk {
    let after = number(rt, line, 0);
    let stop = calls_of_a_scan(rt, alloc, bytes).saturating_add(after);
    let disk = disk(rt, alloc, bytes, Some(stop));
    assert!(rt; disk.len() == 50_752);
    let mut area = area_on(rt, alloc, disk, START);
    assert!(rt; area.scan().is_ok());
    assert_eq!(rt; commit(rt, alloc, &mut area), word(rt, line, 1), "{line}");
    assert!(rt; area.failed() == (after < 5));
    area.into_device()
}

/// After how many calls the disk stops, how far the commit comes, and how many records a scan finds after a crash: without what
/// was not synced, with it, and with ones and with other bytes in its place.
#[test]
fn a_commit_that_stops_leaves_the_record_whole_or_not_at_all(rt: HostRuntime) {
    let lines = "0 nothing 0 0 0 0
1 nothing 0 0 0 0
2 nothing 0 0 0 0
3 laid 0 0 1 0
4 laid 0 1 1 0
5 committed 1 1 1 1";
    assert!(rt; lines.lines().count() == 6);
    for line in lines.lines() {
        stops(&rt, rt.alloc(), 0, line);
        stops(&rt, rt.alloc(), 1, line);
    }
}

/// A journal whose bytes are of one value but the first, which is 0.
fn stops(rt: &impl Abort, alloc: Global, before: u8, line: &str) {
    let mut bytes = filled(rt, alloc, before, 50_752);
    put(rt, &mut bytes, 0, &[0]);
    let disk = stopped(rt, alloc, &bytes, line);
    finds(rt, alloc, &disk, Torn::Lost, word(rt, line, 2));
    finds(rt, alloc, &disk, Torn::Whole, word(rt, line, 3));
    finds(rt, alloc, &disk, Torn::Filled(1), word(rt, line, 4));
    finds(rt, alloc, &disk, Torn::Filled(255), word(rt, line, 5));
}

/// Which call of a commit fails, how far the commit comes, and what a scan tells then.
#[test]
fn a_scan_after_a_failed_commit_tells_the_end(rt: HostRuntime) {
    let lines = "1 nothing: 0 to 0 0
3 laid: 0 to 0 0
4 laid: 1 to 32 1";
    assert!(rt; lines.lines().count() == 3);
    for line in lines.lines() {
        fails(&rt, rt.alloc(), line);
    }
}

fn fails(rt: &impl Abort, alloc: Global, line: &str) {
    let (front, due) = line.split_once(": ").expect(rt, line);
    let bytes = filled(rt, alloc, 0, 50_752);
    let call = calls_of_a_scan(rt, alloc, &bytes).saturating_add(number(rt, front, 0));
    let disk = MemDisk::new(alloc, &bytes, &[call], None).expect(rt, "memory");
    assert!(rt; disk.len() == 50_752);
    let mut area = area_on(rt, alloc, disk, START);
    assert!(rt; area.scan().is_ok());
    assert_eq!(rt; commit(rt, alloc, &mut area), word(rt, front, 1), "{line}");
    assert!(rt;
        area.failed() && !area.laid() && area.end() == START,
        "{line}"
    );
    let answer = area.scan();
    let told = told(rt, alloc, answer, area.end());
    assert_eq!(rt; told.as_str(), due, "{line}");
    assert!(rt; area.failed());
}

#[test]
fn a_commit_moves_the_end(rt: HostRuntime) {
    let bytes = filled(&rt, rt.alloc(), 0, 50_752);
    let disk = disk(&rt, rt.alloc(), &bytes, None);
    assert!(rt; disk.len() == 50_752);
    let mut area = area_on(&rt, rt.alloc(), disk, START);
    assert!(rt; area.scan().is_ok());
    assert!(rt; lay(&rt, rt.alloc(), &mut area, 3).is_ok());
    assert!(rt; area.laid());
    assert!(rt; area.end() == START && !area.failed());
    assert!(rt; area.open_gate() == Ok(0));
    let (place, number) = (1_616, 1);
    assert!(rt; area.end() == Tail { place, number } && !area.laid() && !area.failed());
    assert!(rt; area.settle().is_ok());
    let image = area.into_device().image(rt.alloc(), Torn::Lost);
    let image = image.expect(&rt, "memory");
    let record = record_bytes(&rt, rt.alloc(), 0, 3);
    assert!(rt; image.starts_with(&record));
}
