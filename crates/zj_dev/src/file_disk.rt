//! Disks and shelves over the files of the system. They tell their counts alone: no contract can say what
//! a file holds.

ghost use Rattle.std.specs.Prelude.{◌≡◌, ◌+◌, ◌-◌, ◌^◌, ◌<◌, ◌≤◌, ◌↔◌, min, IfOk, IfSome, IsTrue, IsErr};
ghost use Rattle.zj_dev.specs.Fault.{Rose};

use crate::disk::{Disk, DiskFailed};
use crate::shelf::{Shelf, ShelfFailed};
use std::fs::{OpenFile, OpenOptions};
use std::io::ErrorKind;
use std::os::unix::fs::FileExt;
use std::rt::Files;
use std::{fs, io};

/// From this number on every call fails.
const CALLS_END: u64 = 1 << 63;

/// What a new file is filled with, piece by piece.
static ZEROS: [u8; 4096] = [0; 4096];

/// A disk over an open file. Its length is the file's at the opening. A read or a write is one call of the
/// system, at its place. A sync leaves out the file's times.
#[derive(Debug, Drop)]
pub struct FileDisk<F> {
    file: F,
    len: u64,
    calls: u64,
    faults: u64,
    ghost counted: { calls < 2 ^ 64 },
}

impl<F> FileDisk<F> {
    /// Counts a call, and answers whether it is early enough to be made.
    fn begins(&mut self) -> bool
        ensures early { IsTrue result ↔ (self.old.calls < 2 ^ 63) }
        ensures calls { self.new.calls ≡ min (self.old.calls + 1) (2 ^ 64 - 1) }
        ensures len { self.new.len ≡ self.old.len }
        ensures faults { self.new.faults ≡ self.old.faults }
    {
        let early = self.calls < CALLS_END;
        self.calls = self.calls.saturating_add(1);
        early
    }

    /// Counts a call that failed.
    fn fails(&mut self) -> Result<(), DiskFailed>
        ensures err { IsErr result }
        ensures faults { Rose self.old.faults self.new.faults }
        ensures no_fewer { self.old.faults ≤ self.new.faults }
        ensures len { self.new.len ≡ self.old.len }
        ensures calls { self.new.calls ≡ self.old.calls }
    {
        self.faults = self.faults.saturating_add(1);
        Err(DiskFailed)
    }
}

impl<F: FileExt + OpenFile + Drop> FileDisk<F> {
    ghost use Rattle.std.specs.Prelude.{◌≡◌, IfOk};
    ghost use Rattle.zj_dev.specs.Disk.{IsDisk};

    /// A disk over the open file, which is to be readable and writable. It fails where the system doesn't
    /// tell the file's length.
    pub fn new(file: F) -> io::Result<Self>
        ensures calls { IfOk result (λ disk. (⟦<FileDisk<F> as Disk>⟧.view disk).calls ≡ 0) }
        ensures faults { IfOk result (λ disk. (⟦<FileDisk<F> as Disk>⟧.view disk).faults ≡ 0) }
        ensures is_disk { IfOk result (λ disk. IsDisk (⟦<FileDisk<F> as Disk>⟧.view disk)) }
    {
        let len = file.metadata()?.len();
        Ok(FileDisk::with_len(file, len))
    }

    /// A disk over the open file, which is to be readable and writable and has that many bytes.
    fn with_len(file: F, len: u64) -> Self
        ensures size { (⟦<FileDisk<F> as Disk>⟧.view result).size ≡ len }
        ensures calls { (⟦<FileDisk<F> as Disk>⟧.view result).calls ≡ 0 }
        ensures faults { (⟦<FileDisk<F> as Disk>⟧.view result).faults ≡ 0 }
        ensures is_disk { IsDisk (⟦<FileDisk<F> as Disk>⟧.view result) }
    {
        FileDisk {
            file,
            len,
            calls: 0,
            faults: 0,
        }
    }
}

impl<F: FileExt + OpenFile> Disk for FileDisk<F> {
    ghost use Rattle.zj_dev.specs.Untold.{untold};

    ghost view = { λ disk. untold disk.len disk.calls disk.faults };

    fn len(&self) -> u64 {
        self.len
    }

    fn calls(&self) -> u64 {
        self.calls
    }

    fn read(&mut self, at: u64, into: &mut [u8]) -> Result<(), DiskFailed> {
        if self.begins() && self.file.read_exact_at(into, at).is_ok() {
            return Ok(());
        }
        self.fails()
    }

    fn write(&mut self, at: u64, bytes: &[u8]) -> Result<(), DiskFailed> {
        if self.begins() && self.file.write_all_at(bytes, at).is_ok() {
            return Ok(());
        }
        self.fails()
    }

    fn sync(&mut self) -> Result<(), DiskFailed> {
        if self.begins() && self.file.sync_data().is_ok() {
            return Ok(());
        }
        self.fails()
    }
}

/// A shelf over the current folder, whose devices are its plain files.
#[derive(Debug, Drop)]
pub struct FolderShelf<R> {
    files: R,
    faults: u64,
}

impl<R: Files> FolderShelf<R>
where
    R::File: FileExt,
{
    ghost use Rattle.std.specs.Prelude.{◌≡◌};

    /// A shelf over the current folder, by the files of the runtime.
    pub fn new(files: R) -> Self
        ensures { ⟦<FolderShelf<R> as Shelf>⟧.faults result ≡ 0 }
    {
        FolderShelf { files, faults: 0 }
    }
}

/// Opens the plain file of that name. None where there is none, also where a folder has the name.
fn open_plain<R: Files>(files: &R, name: &str) -> io::Result<Option<FileDisk<R::File>>>
where
    R::File: FileExt,
{
    match fs::metadata(files, name) {
        Ok(found) if found.is_file() => {}
        Ok(_) => return Ok(None),
        Err(e) if e.kind() == ErrorKind::NotFound => return Ok(None),
        Err(e) => return Err(e),
    }
    let file = OpenOptions::new().read(true).write(true).open(files, name)?;
    Ok(Some(FileDisk::new(file)?))
}

/// Writes that many zeros, so that the system has a place for each byte.
fn fill_with_zeros<F: FileExt>(file: &F, len: u64) -> io::Result<()> {
    let mut at = 0;
    while at < len {
        let count = (len - at).min(ZEROS.len() as u64);
        file.write_all_at(&ZEROS[..count as usize], at)?;
        at += count;
    }
    Ok(())
}

/// Makes a file of zero bytes, and syncs it and the folder. None where anything has the name.
fn create_plain<R: Files>(files: &R, name: &str, len: u64) -> io::Result<Option<FileDisk<R::File>>>
where
    R::File: FileExt,
    ensures size { IfOk result (λ made. IfSome made (λ disk. disk.len ≡ len)) }
{
    let created = OpenOptions::new()
        .read(true)
        .write(true)
        .create_new(true)
        .open(files, name);
    let file = match created {
        Ok(file) => file,
        Err(e) if e.kind() == ErrorKind::AlreadyExists => return Ok(None),
        Err(e) => return Err(e),
    };
    fill_with_zeros(&file, len)?;
    file.sync_all()?;
    fs::open(files, ".")?.sync_all()?;
    Ok(Some(FileDisk::with_len(file, len)))
}

impl<R: Files> Shelf for FolderShelf<R>
where
    R::File: FileExt,
{
    ghost use Rattle.zj_dev.specs.Shelf.{Untold};

    type D = FileDisk<R::File>;

    ghost names = { λ _ _. Untold };

    ghost faults = { λ shelf. shelf.faults };

    fn open(&mut self, name: &str) -> Result<Option<FileDisk<R::File>>, ShelfFailed> {
        match open_plain(&self.files, name) {
            Ok(found) => Ok(found),
            Err(_) => {
                self.faults = self.faults.saturating_add(1);
                Err(ShelfFailed)
            }
        }
    }

    fn create(&mut self, name: &str, len: u64) -> Result<Option<FileDisk<R::File>>, ShelfFailed> {
        match create_plain(&self.files, name, len) {
            Ok(made) => Ok(made),
            Err(_) => {
                self.faults = self.faults.saturating_add(1);
                Err(ShelfFailed)
            }
        }
    }

    /// Closes the file.
    fn close(&mut self, _name: &str, d: FileDisk<R::File>) -> Result<(), ShelfFailed> {
        drop(d);
        Ok(())
    }
}
