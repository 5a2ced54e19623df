//! Blocks, the sizes of an image, and lists of blocks.
//!
//! - `Sizes` are the numbers of an image, within their limits, which are known here alone: `Sizes::new` is
//!   `None` exactly where a number is outside (clauses `limits` and `in_range`), and `Sizes::out_of_range`
//!   tells the first such number.
//! - A `Block` is 512 bytes. Contracts see it as the list of its 64 little-endian numbers of 64 bits; the laws
//!   here say what its bytes and its numbers of 32 bits are, so that no layer above speaks of bytes again.
//! - `Blocks`, `Taken` and `Written` are lists and maps of blocks; `Tails` and `Bounds` have a tail or a number
//!   for each of 64 cores.
#![tactic(auto)]

pub mod block;
pub mod laws;
pub mod lists;
pub mod numbers;
pub mod sizes;

pub use block::Block;
pub use lists::{Blocks, Taken, Written};
pub use numbers::{BlockNo, Bounds, Stamp, Tail, Tails, Writer};
pub use sizes::{
    BLOCK_LEN, BLOCKS_PER_MAP_BLOCK, MAX_AREA, MAX_BLOCKS, MAX_CORES, MAX_NODES, MAX_RECORD_BLOCKS,
    MIN_BLOCKS, MIN_CORES, MIN_NODES, NODES_PER_BLOCK, RECORD_BLOCK_LEN, RECORD_BOUND_LEN,
    RECORD_HEAD_LEN, Sizes, SizesField, VERSION,
};

#[cfg(test)]
mod tests;
