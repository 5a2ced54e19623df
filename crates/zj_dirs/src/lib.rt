//! Walking, finding, adding and removing entries of directories, over blocks that were taken.
//!
//! The calls see only the blocks that were taken, as they were found, and those that are written. A state is possible
//! where it shows a tree and has the taken blocks as they were found, and a made state is a possible one into which the
//! written blocks were put. What a call answers holds in every such state:
//!
//! - `walk` and `walk_names` tell where a path leads, or why it leads nowhere (clause of `WalkSays`), by the taken blocks
//!   alone; `find` tells the place of a directory's entry and the node that it leads to, or that there is none.
//! - `place` adds an entry, last, in the last block or in the lowest free one; `remove` takes one away, moves the last
//!   entry into the hole, and frees the last block where it then has no entry (clauses `says`). `DirFull` comes exactly at
//!   192 entries, and `NoSpace` exactly where a new block is needed and none is free.
//! - `read_node`, `read_dir`, `read_link`, `free_node`, `free_block`, `set_node`, `set_content` and `set_map` are the steps
//!   that calls on files need too, `named_data` tells whether a number by which a node names a block is one for data, and
//!   `trim` leaves out the new contents that come out as they were found.
//!
//! `Need(b)` names a block that has no content yet and that is due in every such state, one case for each reason
//! (`IsOnTheWay`, `IsPlaceBlock`, `IsRemoveBlock`, `IsNodeSearch`, `IsMapSearch`). It is a block of the image, also where no
//! such state is (clauses `within`): of `set_node`, `set_map` and `set_content` where the number that they are given is one.
//! `Odd` comes only where no state is possible: so where a node names a block that isn't for data, which the first of the six
//! rules that show a tree forbids (`Rule1` of `zj_layout`). Want of memory alone is free. Each new content is of a block that
//! was taken (clauses `taken`).
#![tactic(auto)]

pub mod answers;
pub mod changing;
pub mod laws;
pub mod looking;
pub mod searching;
pub mod setting;
pub mod trimming;
pub mod walking;

pub use answers::{Change, Find, Halt, Stop, Walk};

#[cfg(test)]
mod tests;
