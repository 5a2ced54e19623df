//! The blocks of an image, which show a tree, and calls on it.

ghost use Rattle.std.specs.Prelude.{◌≡◌, ◌⊎◌, IfOk, OnOk, OnErr};
ghost use Rattle.zj_tree.specs.Apply.{apply};
ghost use Rattle.zj_tree.specs.Tree.{FileTree};
ghost use Rattle.zj_layout.specs.Shows.{Shows, ShowsSome, limits_of};
ghost use Rattle.zj_inode.specs.Performs.{IsRefused, Looks};

use crate::serving::{put_written, serve};
use std::alloc::{AllocError, Global};
use std::marker::Model;
use zj_block::{Blocks, Sizes};
use zj_dirs::laws::nothing_is_put;
use zj_tree::{Call, Reply};

/// The blocks of an image, which show a tree, with its sizes.
#[derive(Debug, Drop)]
pub struct Volume {
    sizes: Sizes,
    blocks: Blocks,
}

impl Model for Volume {
    ghost use Rattle.zj_layout.specs.Shows.{ShowsSome};
    ghost use Rattle.zj_volume.specs.Volume.{SizedState};

    ghost Value = { SizedState };

    ghost view = { λ v. record { sizes = v.sizes; state = v.blocks } };

    ghost invariant = { λ v. ShowsSome v.sizes v.blocks };
}

impl Volume {
    /// The volume of blocks that show a tree.
    pub fn new(sizes: Sizes, blocks: Blocks) -> Volume
        requires { ShowsSome sizes blocks }
        ensures { result ≡ record { sizes = sizes; state = blocks } }
    {
        Volume { sizes, blocks }
    }

    /// The sizes of the image.
    pub fn sizes(&self) -> &Sizes
        ensures { result.now ≡ self.now.sizes }
    {
        &self.sizes
    }

    /// The blocks as they are now.
    pub fn blocks(&self) -> &Blocks
        ensures blocks { result.now ≡ self.now.state }
        ensures shows { ShowsSome self.now.sizes self.now.state }
    {
        &self.blocks
    }

    /// Makes a call: its reply, and its tree in the blocks. A call that is refused, or only looks, changes no block, and so does
    /// `AllocError`.
    pub fn apply(&mut self, alloc: Global, call: &Call) -> Result<Reply, AllocError>
        ensures reply { IfOk result (λ reply. (tree : FileTree) → Shows self.old.sizes self.old.state tree → reply ≡ (apply (limits_of self.old.sizes) call.now tree).0) }
        ensures shows { OnOk result ((tree : FileTree) → Shows self.old.sizes self.old.state tree → Shows self.new.sizes self.new.state (apply (limits_of self.old.sizes) call.now tree).1) }
        ensures quiet { IfOk result (λ reply. IsRefused reply ⊎ Looks call.now → self.new ≡ self.old) }
        ensures sizes { self.new.sizes ≡ self.old.sizes }
        ensures err { OnErr result (self.new ≡ self.old) }
    {
        nothing_is_put();
        let (reply, written) = serve(alloc, &self.sizes, &self.blocks, call)?;
        put_written(&mut self.blocks, &written);
        Ok(reply)
    }
}
