//! All calls over a plain list of blocks, for one core with nobody beside it.
//!
//! A `Volume` is the blocks of an image, which show a tree, with its sizes. It answers calls one after another as the plain
//! service does, and keeps the tree in its blocks. What it promises:
//!
//! - `Volume::apply` (`reply`, `shows`, `sizes`, `err`): whatever tree the blocks show, the reply is the plain service's of
//!   that tree, and the blocks show the tree that it leaves. Out of memory leaves the blocks as they were.
//! - `Volume::new`: blocks that show a tree, as `zj_layout::format` makes them and `zj_layout::read_tree` tells of them.
//!
//! A call is performed over the blocks that it takes (`zj_inode::perform`), and takes one more as long as one is needed. No
//! call reads or copies the whole image.
#![tactic(auto)]

mod serving;
mod volume;

pub use volume::Volume;

#[cfg(test)]
mod tests;
