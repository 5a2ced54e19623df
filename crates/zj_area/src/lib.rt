//! One core's journal: records, one behind the other in a ring on a device of its own.
//!
//! A record is written with its gate closed, synced, and then its gate is opened, so a crash at any moment
//! leaves the records before, or those with the new one. All is said of disks that tell their bytes.
//!
//! - `Area::scan` answers the records that the bytes hold from the tail on, up to the first gate that is not
//!   open (clause `found`), only reads (`read_only`), and makes at most two calls of the device for each record
//!   that it finds and one more (`calls_at_most`). It answers damage only where a gate is open and no record
//!   stands that is due (`cause`). A journal holds one list of records with one end, and never holds records
//!   and is damaged (`laws`). So it answers a list of records, which may be empty, exactly where the bytes hold
//!   one, unless memory or the device failed.
//! - A scan that finds nothing on a settled device leaves the area at rest with no records (`at_rest`), and
//!   each commit of an area at rest leaves it at rest with one more (`at_rest` of `open_gate`). `settle` makes
//!   one call of the device (`calls_at_most`).
//! - `fits_one` tells exactly where a longest record has no room.
//! - At each moment of `lay` whatever a crash leaves holds the records before, also where it fails (`moments`);
//!   at each moment of `open_gate` those, or those with the new one (`moments`), and since `continues` keeps
//!   what a crash could leave at its first moment, those before until its gate is written. After it answered
//!   Ok, those with the new one and nothing else (`at_rest`). This is for an area at rest.
//! - A commit makes five calls of the device, and no more where one of them fails (`calls` and
//!   `calls_at_most`). After one that failed `failed` is true, and no other call makes it so (`failed`).
#![tactic(auto)]

pub mod area;
mod commit;
mod device;
pub mod fault;
pub mod journal;
pub mod laws;
mod reading;
mod ring;

pub use area::{Area, Full, Returned};
pub use fault::ScanFault;
pub use journal::Journal;
pub use zj_dev::DiskFault;

#[cfg(test)]
mod tests;
