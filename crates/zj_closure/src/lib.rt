//! What recovery keeps of the records that were found in the journals, and what it makes of them.
//!
//! A found transaction is kept exactly where no chain of following leads from it to one that was not found; so
//! transactions that follow each other in a cycle are kept together or dropped together. All below the tails is kept. The
//! recovered state has in each block the image of the greatest stamp among the kept records that have the block, else what
//! home has there.
//!
//! Proved of lists: let a history be legal, let the tails be a consistent cut of it, let home hold the state after that
//! cut except that a block in a kept record may hold anything, and let the records found be the frozen transactions of
//! each core from its tail on, without a gap. Then **what is kept is the greatest consistent cut of the history that was
//! found, and the recovered state is the state after that cut**. Bounds that were found and that are closed under
//! following, as those of a receipt are, lie below what is kept.
#![tactic(auto)]

mod closing;
mod imaging;
pub mod laws;

pub use closing::closed;
pub use imaging::{Images, newest};

#[cfg(test)]
mod tests;
