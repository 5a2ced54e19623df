//! What a mount recovers.

ghost use Rattle.std.specs.Prelude.{◌≡◌, slice_get};
ghost use Rattle.std.specs.Option.{option_map};

use std::marker::Model;
use zj_block::{Blocks, Sizes};
use zj_tree::Tree;

/// What the journal of a core held: from which transaction on it was read, how many were found, and how many of those were
/// kept.
#[derive(Clone, Copy, Debug)]
pub struct Tally {
    pub from: u64,
    pub found: u64,
    pub kept: u64,
}

/// What a mount recovered: the blocks of the image, the tree that they show, and what the journals held.
#[derive(Debug, Drop)]
pub struct Recovered {
    sizes: Sizes,
    journals: Vec<Tally>,
    blocks: Blocks,
    tree: Tree,
}

impl Model for Recovered {
    ghost use Rattle.zj_mount.specs.Recovered.{Restored, coded_restored};

    ghost Value = { Restored };

    ghost coded = { coded_restored };

    ghost view = { λ r. record { sizes = r.sizes; journals = r.journals.items; blocks = r.blocks; tree = r.tree } };
}

impl Recovered {
    /// What was recovered, of these parts.
    pub(crate) fn new(sizes: Sizes, journals: Vec<Tally>, blocks: Blocks, tree: Tree) -> Recovered
        ensures { result ≡ record { sizes = sizes; journals = journals.items; blocks = blocks; tree = tree } }
    {
        Recovered {
            sizes,
            journals,
            blocks,
            tree,
        }
    }

    /// The number of the transaction from which on the journal of a core was read: that of the tail. `None` exactly from the
    /// count of cores on.
    pub fn from(&self, core: u32) -> Option<u64>
        ensures { result ≡ option_map (λ tally. tally.from) (slice_get self.now.journals core) }
    {
        self.journals.get(core as usize).map(|tally| tally.from)
    }

    /// How many transactions the journal of a core held. `None` exactly from the count of cores on.
    pub fn found(&self, core: u32) -> Option<u64>
        ensures { result ≡ option_map (λ tally. tally.found) (slice_get self.now.journals core) }
    {
        self.journals.get(core as usize).map(|tally| tally.found)
    }

    /// How many of them were kept. `None` exactly from the count of cores on.
    pub fn kept(&self, core: u32) -> Option<u64>
        ensures { result ≡ option_map (λ tally. tally.kept) (slice_get self.now.journals core) }
    {
        self.journals.get(core as usize).map(|tally| tally.kept)
    }

    /// The blocks of the image.
    pub fn blocks(&self) -> &Blocks
        ensures { result.now ≡ self.now.blocks }
    {
        &self.blocks
    }

    /// The tree that the blocks show.
    pub fn tree(&self) -> &Tree
        ensures { result.now ≡ self.now.tree }
    {
        &self.tree
    }

    /// The sizes of the image.
    pub fn sizes(&self) -> &Sizes
        ensures { result.now ≡ self.now.sizes }
    {
        &self.sizes
    }

    /// The blocks of the image, for calls to be made on them.
    pub fn into_blocks(self) -> Blocks
        ensures { result ≡ self.blocks }
    {
        self.blocks
    }
}
