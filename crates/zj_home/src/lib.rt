//! The home device: its super in two slots, and its blocks.
//!
//! All is said of disks that tell their bytes.
//!
//! - `Home::open` answers the super that counts (clause `opens`), whose epoch is below 2^62, or the first
//!   thing about the bytes that is no home's (clause `cause`), and only reads (clauses `read_only` and
//!   `refused_read_only`). The bytes of a device open as one super at most, which tells the slot that counts
//!   too.
//! - After `Home::make` answered Ok, whatever a crash may leave opens with epoch 1, all tails 0, these sizes
//!   and these blocks (clause `made`). Where no image that a crash could leave as `make` began had the letters
//!   behind a gate, as on a device of zeros, a crash at any moment until its answer leaves bytes that are
//!   refused as no image, or that home whole, also where it failed (clauses `moments` and `refused_moments`).
//!   Where the letters stood, no clause says what a stop inside `make` leaves. It takes no memory, and fails
//!   only where the device's count of faults rose (clause `cause`).
//! - `read_block` gives a block's content (clause `block`).
//!
//! A slot is spelled without memory, so a super can be written where none is at hand.
#![tactic(auto)]

pub mod fault;
pub mod home;
mod make;
mod slot;
mod spelling;

pub use fault::{HomeFault, HomeRefused};
pub use home::Home;
pub use slot::home_len;
pub use zj_dev::DiskFault;

#[cfg(test)]
mod tests;
