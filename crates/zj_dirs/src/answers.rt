//! What looks at taken blocks answer, and changes of them.

ghost use Rattle.std.specs.Prelude.{◌≡◌};
ghost use Rattle.zj_dirs.specs.declared.answers.Halt.TheVariants as halts;
ghost use Rattle.zj_dirs.specs.Possible.{halted};

use std::alloc::AllocError;
use zj_block::BlockNo;

/// Why a look goes no further.
#[derive(Clone, Copy, Debug)]
pub enum Stop {
    /// This block is needed.
    Need(BlockNo),
    /// The blocks are part of no state that shows a tree.
    Odd,
}

/// Why a change goes no further.
#[derive(Clone, Copy, Debug)]
pub enum Halt {
    /// This block is needed.
    Need(BlockNo),
    /// The blocks are part of no state that shows a tree.
    Odd,
    /// No memory was at hand.
    NoMemory,
}

impl From<Stop> for Halt {
    ghost from_gives = { λ stop halt. halt ≡ halted stop };

    fn from(stop: Stop) -> Halt {
        match stop {
            Stop::Need(block) => Halt::Need(block),
            Stop::Odd => Halt::Odd,
        }
    }
}

impl From<AllocError> for Halt {
    ghost from_gives = { λ _ halt. halt ≡ halts.NoMemory };

    fn from(_error: AllocError) -> Halt {
        Halt::NoMemory
    }
}

/// Where a path leads.
#[derive(Clone, Copy, Debug, PartialEq, Eq)]
pub enum Walk {
    /// This block is needed.
    Need(BlockNo),
    /// It leads to a node.
    Found {
        /// The node's number.
        node: u32,
    },
    /// A directory on the way has no entry of the next name.
    NotFound,
    /// A file stands on the way.
    NotDir,
    /// The blocks are part of no state that shows a tree.
    Odd,
}

/// What a search for a name in a directory found.
#[derive(Clone, Copy, Debug, PartialEq, Eq)]
pub enum Find {
    /// This block is needed.
    Need(BlockNo),
    /// The directory has an entry of the name.
    Found {
        /// The entry's place.
        place: u32,
        /// The node that it leads to.
        node: u32,
    },
    /// It has none.
    Absent,
    /// The blocks are part of no state that shows a tree.
    Odd,
}

/// What came of a change.
#[derive(Clone, Copy, Debug, PartialEq, Eq)]
pub enum Change {
    /// This block is needed.
    Need(BlockNo),
    /// It is done.
    Done,
    /// The directory has as many entries as it may.
    DirFull,
    /// A block is needed and none is free.
    NoSpace,
    /// The blocks are part of no state that shows a tree.
    Odd,
}

// Where a name leads from a node.
#[derive(Clone, Copy, Debug)]
pub(crate) enum Step {
    To(u32),
    NotFound,
    NotDir,
}

// An entry by its place, and the node that it leads to.
#[derive(Clone, Copy, Debug)]
pub(crate) struct Entry {
    pub(crate) place: u32,
    pub(crate) node: u32,
}
