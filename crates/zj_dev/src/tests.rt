//! Each memory form with a fault in mid-stream, and each adapter once.

use super::*;
use std::alloc::Global;
use std::process::Abort;

/// A read of two bytes answers this, and leaves these bytes at the front.
fn reads<S: Source>(
    rt: &impl Abort,
    source: &mut S,
    answer: Result<usize, ReadFailed>,
    front: &[u8],
) {
    let mut piece = [b'-'; 2];
    let read = source.read(&mut piece);
    assert!(rt; read == answer, "{read:?}");
    assert!(rt; piece.starts_with(front), "{piece:?}");
}

#[test]
fn a_source_fails_where_it_was_told_to(rt: HostRuntime) {
    let mut source = MemSource::new(rt.alloc(), b"abc", &[1]).expect(&rt, "memory");
    reads(&rt, &mut source, Ok(2), b"ab");
    reads(&rt, &mut source, Err(ReadFailed), b"");
    reads(&rt, &mut source, Ok(1), b"c");
    reads(&rt, &mut source, Ok(0), b"");
}

#[test]
fn a_source_over_a_reader_gives_its_bytes(rt: HostRuntime) {
    let mut source = InSource::new(b"abc".as_slice());
    reads(&rt, &mut source, Ok(2), b"ab");
    reads(&rt, &mut source, Ok(1), b"c-");
    reads(&rt, &mut source, Ok(0), b"");
}

#[test]
fn a_sink_over_a_writer_passes_bytes_on(rt: HostRuntime) {
    let mut sink = OutSink::new(Vec::new(rt.alloc()));
    assert!(rt; sink.write(b"ab") == Ok(2));
    assert!(rt; sink.write(b"") == Ok(0));
}

#[test]
fn a_sink_fails_where_it_was_told_to(rt: HostRuntime) {
    let mut sink = MemSink::new(rt.alloc(), &[1]).expect(&rt, "memory");
    assert!(rt; sink.write(b"ab") == Ok(2));
    assert!(rt; sink.write(b"cd") == Err(WriteFailed));
    assert!(rt; sink.write(b"e") == Ok(1));
    assert_eq!(rt; sink.bytes(), b"abe".as_slice());
}

fn is_named(rt: &impl Abort, alloc: Global, device: Device, name: &str) {
    let text = device.name(alloc).expect(rt, "memory");
    assert_eq!(rt; text.as_str(), name);
}

#[test]
fn a_device_has_its_name(rt: HostRuntime) {
    is_named(&rt, rt.alloc(), Device::Home, "home");
    is_named(&rt, rt.alloc(), Device::Journal(0), "j0");
    is_named(&rt, rt.alloc(), Device::Journal(15), "j15");
}

/// The word at a place of a line.
fn word<'a>(rt: &impl Abort, line: &'a str, place: usize) -> &'a str {
    line.split(' ').nth(place).expect(rt, line)
}

/// A call was made, or failed, as a line says.
fn answers(rt: &impl Abort, is_ok: bool, line: &str, place: usize) {
    let told = if is_ok { "ok" } else { "fault" };
    assert_eq!(rt; told, word(rt, line, place), "{line}");
}

/// On a disk of the bytes `0123` `ab` is written at 0, then that is synced, then `cd` is written at 1, and then all is read.
/// The calls answer as the line says, and the bytes that are read stand behind.
fn worked(rt: &impl Abort, disk: &mut MemDisk, line: &str) {
    assert!(rt; disk.len() == 4);
    answers(rt, disk.write(0, b"ab").is_ok(), line, 0);
    answers(rt, disk.sync().is_ok(), line, 1);
    answers(rt, disk.write(1, b"cd").is_ok(), line, 2);
    let mut held = [b'-'; 4];
    assert!(rt; disk.len() == 4);
    answers(rt, disk.read(0, &mut held).is_ok(), line, 3);
    assert_eq!(rt; held.as_slice(), word(rt, line, 4).as_bytes(), "{line}");
    assert!(rt; disk.calls() == 4);
}

/// A crash leaves the bytes at a place of a line.
fn leaves(rt: &impl Abort, alloc: Global, disk: &MemDisk, torn: Torn, due: &str) {
    let image = disk.image(alloc, torn).expect(rt, "memory");
    assert_eq!(rt; image.as_slice(), due.as_bytes(), "{torn:?}");
}

/// What the four calls answer where these calls fail, and from `stop` on all; the bytes that are read; and those that are
/// there after a crash: without what was not synced, with it, and with other bytes in its place.
fn fails(rt: &impl Abort, alloc: Global, failing: &[u64], stop: Option<u64>, line: &str) {
    let mut disk = MemDisk::new(alloc, b"0123", failing, stop).expect(rt, "memory");
    worked(rt, &mut disk, line);
    leaves(rt, alloc, &disk, Torn::Lost, word(rt, line, 5));
    leaves(rt, alloc, &disk, Torn::Whole, word(rt, line, 6));
    leaves(rt, alloc, &disk, Torn::Filled(b'x'), word(rt, line, 7));
}

#[test]
fn a_disk_fails_and_tears_as_it_was_told(rt: HostRuntime) {
    let alloc = rt.alloc();
    fails(&rt, alloc, &[], None, "ok ok ok ok acd3 ab23 acd3 axx3");
    fails(&rt, alloc, &[0], None, "fault ok ok ok 0cd3 0123 0cd3 0xx3");
    fails(&rt, alloc, &[1], None, "ok fault ok ok acd3 0123 acd3 xxx3");
    fails(&rt, alloc, &[2], None, "ok ok fault ok ab23 ab23 ab23 axx3");
    fails(
        &rt,
        alloc,
        &[3, 0],
        None,
        "fault ok ok fault ---- 0123 0cd3 0xx3",
    );
    fails(
        &rt,
        alloc,
        &[],
        Some(1),
        "ok fault fault fault ---- 0123 ab23 xxx3",
    );
}

#[test]
fn a_fault_of_a_disk_is_handed_on(rt: HostRuntime) {
    let mut disk = MemDisk::new(rt.alloc(), b"0123", &[2, 3], None).expect(&rt, "memory");
    assert!(rt; disk.len() == 4);
    let line = "ok ok fault fault";
    answers(&rt, write_at(&mut disk, 1, b"ab").is_ok(), line, 0);
    answers(&rt, sync(&mut disk).is_ok(), line, 1);
    answers(&rt, write_at(&mut disk, 1, b"cd").is_ok(), line, 2);
    answers(&rt, sync(&mut disk).is_ok(), line, 3);
}

/// A shelf opens a device.
fn opened<S: Shelf>(rt: &impl Abort, shelf: &mut S, name: &str) -> S::D {
    let opened = shelf.open(name).expect(rt, "no fault");
    opened.expect(rt, "opened")
}

/// A shelf makes a device, which is not at hand then, nor its name.
fn made<S: Shelf>(rt: &impl Abort, shelf: &mut S, name: &str, len: u64) -> S::D
where
    S::D: Drop,
{
    has_none(rt, shelf, name);
    let made = shelf.create(name, len).expect(rt, "no fault");
    has_none(rt, shelf, name);
    let again = shelf.create(name, len).expect(rt, "no fault");
    assert!(rt; again.is_none(), "its name is taken");
    made.expect(rt, "made")
}

/// A shelf opens no device of that name.
fn has_none<S: Shelf>(rt: &impl Abort, shelf: &mut S, name: &str)
where
    S::D: Drop,
{
    let opened = shelf.open(name).expect(rt, "no fault");
    assert!(rt; opened.is_none());
}

/// Writes two bytes to a device, and syncs it.
fn write_two(rt: &impl Abort, disk: &mut impl Disk, at: u64, len: u64) {
    assert!(rt; disk.len() == len && at < 5_000 && at + 2 <= len);
    assert!(rt; disk.write(at, b"ab").is_ok());
    assert!(rt; disk.sync().is_ok());
}

#[test]
fn a_shelf_in_memory_keeps_its_devices(rt: HostRuntime) {
    let mut shelf = MemShelf::new(rt.alloc()).expect(&rt, "memory");
    let mut home = made(&rt, &mut (&mut shelf), "home", 4);
    write_two(&rt, &mut home, 1, 4);
    shelf.close("home", home).expect(&rt, "no fault");
    let home = opened(&rt, &mut shelf, "home");
    leaves(&rt, rt.alloc(), &home, Torn::Lost, "\0ab\0");
    shelf.close("home", home).expect(&rt, "no fault");
}

#[test]
fn devices_are_taken_and_put(rt: HostRuntime) {
    let mut shelf = MemShelf::new(rt.alloc()).expect(&rt, "memory");
    let home = made(&rt, &mut shelf, "home", 4);
    shelf.close("home", home).expect(&rt, "no fault");
    let home = shelf.take("home").expect(&rt, "taken");
    assert!(rt; shelf.take("home").is_none());
    let before = shelf.put("j0", home).expect(&rt, "memory");
    assert!(rt; before.is_none());
    let other = MemDisk::new(rt.alloc(), b"x", &[], None).expect(&rt, "memory");
    let before = shelf.put("j0", other).expect(&rt, "memory");
    assert!(rt; before.expect(&rt, "put before").len() == 4);
    assert!(rt; shelf.take("home").is_none());
    assert!(rt; opened(&rt, &mut shelf, "j0").len() == 1);
}

#[test]
fn a_shelf_in_memory_fails_where_it_was_told_to(rt: HostRuntime) {
    let mut shelf = MemShelf::new(rt.alloc()).expect(&rt, "memory");
    let home = made(&rt, &mut shelf, "home", 4);
    shelf.fail_at(&[0, 1, 3]).expect(&rt, "memory");
    assert!(rt;
        shelf.close("home", home).is_err(),
        "it stands there all the same"
    );
    assert!(rt; shelf.open("home").is_err());
    let home = opened(&rt, &mut shelf, "home");
    assert!(rt; shelf.create("j0", 1).is_err());
    has_none(&rt, &mut shelf, "j0");
    shelf.close("home", home).expect(&rt, "no fault");
}

#[test]
fn a_folder_keeps_its_files(rt: HostRuntime) {
    let mut shelf = FolderShelf::new(&rt);
    has_none(&rt, &mut shelf, "home");
    let mut home = shelf
        .create("home", 4098)
        .expect(&rt, "no fault")
        .expect(&rt, "made");
    let again = shelf.create("home", 6).expect(&rt, "no fault");
    assert!(rt; again.is_none(), "taken");
    write_two(&rt, &mut home, 4095, 4098);
    shelf.close("home", home).expect(&rt, "no fault");
    let mut home = opened(&rt, &mut shelf, "home");
    assert!(rt; home.len() == 4098);
    let mut bytes = [b'-'; 5];
    assert!(rt; home.read(4093, &mut bytes).is_ok());
    assert!(rt; bytes == *b"\0\0ab\0");
    assert!(rt; home.calls() == 1);
    shelf.close("home", home).expect(&rt, "no fault");
    std::fs::remove_file(&rt, "home").expect(&rt, "removed");
}

#[test]
fn a_folder_is_no_device(rt: HostRuntime) {
    let mut shelf = FolderShelf::new(&rt);
    std::fs::create_dir(&rt, "j0").expect(&rt, "made");
    has_none(&rt, &mut shelf, "j0");
    let made = shelf.create("j0", 1).expect(&rt, "no fault");
    assert!(rt; made.is_none(), "its name is taken");
    std::fs::remove_dir(&rt, "j0").expect(&rt, "removed");
}
