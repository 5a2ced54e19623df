//! What performing a call over taken blocks answers.

use zj_block::{BlockNo, Written};
use zj_tree::Reply;

/// What performing a call over taken blocks answers.
#[derive(Debug, Drop)]
pub enum Outcome {
    /// This block of the image is needed: it wasn't taken.
    Need(BlockNo),
    /// The call is performed.
    Done {
        /// What it answers.
        reply: Reply,
        /// The new contents of blocks, each of which was taken.
        written: Written,
    },
    /// The blocks are part of no state that shows a tree.
    Odd,
}
