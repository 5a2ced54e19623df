//! The devices of a shelf: what they hold, and others in their place.

use crate::shelf::CaseShelf;
use crate::trouble::{Outcome, differs};
use std::alloc::{AllocError, Global};
use zj_dev::{Disk, MemDisk, Torn};

/// The names that devices of an image can have.
const NAMES: [&str; 9] = ["home", "j0", "j1", "j2", "j3", "j4", "j5", "j6", "j7"];

/// Takes a device from its shelf.
pub fn taken(alloc: Global, shelf: &mut CaseShelf, name: &str) -> Outcome<MemDisk> {
    match shelf.take(name) {
        Some(disk) => Ok(disk),
        None => Err(differs(alloc, &["no device ", name])),
    }
}

/// What a crash leaves of a device.
pub fn image_of(alloc: Global, shelf: &mut CaseShelf, name: &str, torn: Torn) -> Outcome<Vec<u8>> {
    let disk = taken(alloc, shelf, name)?;
    let image = disk.image(alloc, torn)?;
    shelf.put(name, disk)?;
    Ok(image)
}

/// How many calls were made of a device.
pub fn calls_of(alloc: Global, shelf: &mut CaseShelf, name: &str) -> Outcome<u64> {
    let disk = taken(alloc, shelf, name)?;
    let calls = Disk::calls(&disk);
    shelf.put(name, disk)?;
    Ok(calls)
}

/// Puts a new device with these bytes under a name. The calls of these numbers fail, and from another one on all.
pub fn put_device(
    alloc: Global,
    shelf: &mut CaseShelf,
    name: &str,
    bytes: &[u8],
    failing: &[u64],
    stop: Option<u64>,
) -> Result<(), AllocError> {
    shelf.put(name, MemDisk::new(alloc, bytes, failing, stop)?)
}

/// Writes to a disk where the piece fits it, and answers whether it was written.
fn write(disk: &mut MemDisk, at: u64, piece: &[u8]) -> bool {
    let len = Disk::len(disk);
    let count = piece.len() as u64;
    count <= len && at <= len - count && disk.write(at, piece).is_ok()
}

/// Writes to a device, so that the bytes are pending.
pub fn write_device(
    alloc: Global,
    shelf: &mut CaseShelf,
    name: &str,
    at: u64,
    piece: &[u8],
) -> Outcome<()> {
    let mut disk = taken(alloc, shelf, name)?;
    let written = write(&mut disk, at, piece);
    shelf.put(name, disk)?;
    if written {
        Ok(())
    } else {
        Err(differs(alloc, &["not written: ", name]))
    }
}

/// Puts a copy of what a crash leaves of a device onto another shelf, if the device stands there.
fn copy_device(
    alloc: Global,
    from: &mut CaseShelf,
    to: &mut CaseShelf,
    name: &str,
    torn: Torn,
) -> Result<(), AllocError> {
    let Some(disk) = from.take(name) else {
        return Ok(());
    };
    let image = disk.image(alloc, torn)?;
    from.put(name, disk)?;
    put_device(alloc, to, name, &image, &[], None)
}

/// Puts what a crash leaves of the devices of a shelf onto another one, the same choice for all.
fn copy_devices(
    alloc: Global,
    from: &mut CaseShelf,
    to: &mut CaseShelf,
    torn: Torn,
) -> Result<(), AllocError> {
    for name in NAMES {
        copy_device(alloc, from, to, name, torn)?;
    }
    Ok(())
}

/// A shelf with what a crash leaves of the devices of another one, the same choice for all.
pub fn crashed(alloc: Global, shelf: &mut CaseShelf, torn: Torn) -> Result<CaseShelf, AllocError> {
    let mut left = CaseShelf::new(alloc)?;
    copy_devices(alloc, shelf, &mut left, torn)?;
    Ok(left)
}

/// The kind of crash that a word names.
pub fn torn_of(alloc: Global, word: &str) -> Outcome<Torn> {
    match word {
        "lost" => Ok(Torn::Lost),
        "whole" => Ok(Torn::Whole),
        "255" => Ok(Torn::Filled(255)),
        _ => Err(differs(alloc, &["no kind of crash: ", word])),
    }
}
