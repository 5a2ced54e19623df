//! Why no tree is read.

ghost use Rattle.std.specs.Prelude.{◌≡◌};
ghost use Rattle.zj_layout.specs.declared.faults.TreeFault.TheVariants as faults;

use std::alloc::AllocError;

/// Why no tree is read.
#[derive(Clone, Copy, Debug, PartialEq, Eq)]
pub enum TreeFault {
    /// The blocks show none.
    NoTree {
        /// The first rule that they break.
        rule: u32,
        /// The lowest block at which they break it.
        block: u32,
    },
    /// The memory ran out.
    NoMemory,
}

impl From<AllocError> for TreeFault {
    ghost from_gives = { λ _ fault. fault ≡ faults.NoMemory };

    fn from(_error: AllocError) -> TreeFault {
        TreeFault::NoMemory
    }
}
