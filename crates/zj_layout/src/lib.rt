//! How blocks show a tree: a map of the blocks in use, nodes, and entries of directories.
//!
//! Which tree blocks show is said in three steps: blocks read as tables (nodes, contents of data blocks, the map:
//! `specs/Image.antt`), tables as a graph (what each node holds and where a name leads: `specs/Graph.antt`), the graph
//! as a tree (what stands at each path: `specs/Shows.antt`). They show one where six rules hold (`specs/Rules.antt`).
//!
//! What it promises:
//!
//! - `node_at`, `link_at` (their one clause): the node or entry at a place of a block, `None` exactly where its bytes
//!   are none or no such place is there.
//! - `put_node`, `put_link`, `put_in_use` (`here`, `others`): the place reads back what was put, and every other place
//!   of the block reads as before.
//! - `format` (`shows`): blocks that show the root alone.
//! - `read_tree` (`shows`, `limits`, `fault`): the tree that blocks show, within the image's limits; or the first rule
//!   that they break, with the lowest block at which they break it.
#![tactic(auto)]

mod entries;
mod faults;
mod fields;
mod formatting;
mod image;
mod links;
mod reading;
mod rules;
mod trees;
mod writing;

pub use faults::TreeFault;
pub use fields::{Kind, Link, Node};
pub use formatting::format;
pub use reading::{LINKS_PER_BLOCK, link_at, node_at};
pub use trees::read_tree;
pub use writing::{put_in_use, put_link, put_node};

#[cfg(test)]
mod tests;
