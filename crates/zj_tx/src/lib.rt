//! A core's running transaction, its record once it is sealed, and the record's one spelling.
//!
//! Each operation of the core is added to the running transaction, which keeps what a commit needs: the contents that the
//! core itself last wrote, and how far it follows each other core. Sealed it is the frozen record of that transaction of
//! the history: of each block that its operations wrote, once, the content and the stamp of the last of them that wrote it.
//! What other cores write later doesn't change it.
//!
//! A record is a head of 24 bytes (its gate, which is 1 where it is open, the transaction's number, how
//! many blocks it has, and how many cores the image has), a dependency bound for each core, and each
//! block: its number, its stamp and its content. All numbers stand lowest byte first.
#![tactic(auto)]

mod adding;
mod fault;
mod fields;
mod follows;
mod found;
pub mod laws;
mod part;
pub mod parts;
mod reading;
mod running;
mod sealed;
mod writing;

pub use fault::{RecordFault, RoomFault};
pub use follows::Follows;
pub use found::Found;
pub use part::Part;
pub use reading::{decode, len_from_head};
pub use running::Running;
pub use sealed::Sealed;
pub use writing::encode;

#[cfg(test)]
mod tests;
