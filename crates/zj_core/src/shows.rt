//! The test of the cache's states.

ghost use Rattle.zj_layout.specs.Shows.{ShowsSome};

use zj_turns::StateTest;

/// Each state of the cache shows a tree for the sizes of its image.
pub struct ShowsTree;

impl StateTest for ShowsTree {
    ghost passes = { ShowsSome };
}
