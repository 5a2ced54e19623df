//! What lies outside the program, as traits with a written meaning: streams of bytes in and out, disks
//! that a crash may tear, and shelves where disks stand under names.
//!
//! Each object counts its faults. A caller that is generic over a trait cannot raise that count by
//! itself, so an error that comes only where the count rose (clauses `cause`) is no way to give up. A call
//! that answers Ok leaves the count (clauses `quiet`), and a new object has met no fault.
//!
//! - `Disk`: what a read gives, and at each moment what a crash may leave. A write that answered Ok may
//!   tear its range until the next sync (clause `ok`), and so may one that failed (`err`). After a sync that
//!   answered Ok a crash leaves what a read gives; one that failed brings no image that a crash could not
//!   leave before.
//! - `Span`: the moments of a device from one on and up to another. A crash set of several devices (`specs/Crash.antt`) has of each an
//!   image that a crash may leave at some moment of its span.
//! - `Shelf`: which device stands under each name, and what opening, creating and closing one do to it.
//! - `Source` and `Sink`: the bytes that are left, and those that are held.
//! - `MemDisk`, `MemShelf`, `MemSource` and `MemSink` have these meanings, tell everything, and fail where
//!   they were told to.
//! - `FileDisk`, `FolderShelf`, `InSource` and `OutSink` stand over the system, tell their counts alone, and
//!   are trusted.
//! - `write_at` and `sync` say of one call of a disk what holds whether it failed or not. The laws of runs of
//!   calls, for proofs of the crates above, are in `proofs/DiskLaws.antt`.
#![tactic(auto)]

pub mod calls;
pub mod device;
pub mod disk;
pub mod file_disk;
pub mod mem_disk;
pub mod mem_shelf;
pub mod shelf;
pub mod sink;
pub mod source;
pub mod span;

pub use calls::{DiskFault, sync, write_at};
pub use device::Device;
pub use disk::{Disk, DiskFailed};
pub use file_disk::{FileDisk, FolderShelf};
pub use mem_disk::{MemDisk, Torn};
pub use mem_shelf::MemShelf;
pub use shelf::{Shelf, ShelfFailed};
pub use sink::{MemSink, OutSink, Sink, WriteFailed};
pub use source::{InSource, MemSource, ReadFailed, Source};
pub use span::Span;

#[cfg(test)]
mod tests;
