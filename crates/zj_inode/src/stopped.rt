//! Why a call goes no further.

ghost use Rattle.std.specs.Prelude.{◌≡◌};
ghost use Rattle.zj_inode.specs.declared.stopped.Stopped.TheVariants as stops;
ghost use Rattle.zj_inode.specs.Answering.{stopped_by, stopped_at};

use std::alloc::{AllocError, AllocFailed};
use zj_block::BlockNo;
use zj_dirs::answers::{Halt, Stop};
use zj_tree::Refusal;

/// Why a call goes no further.
#[derive(Clone, Copy, Debug)]
pub(crate) enum Stopped {
    /// This block is needed.
    Need(BlockNo),
    /// The call is refused.
    Refused(Refusal),
    /// The blocks are part of no state that shows a tree.
    Odd,
    /// No memory was at hand.
    NoMemory,
}

impl From<Stop> for Stopped {
    ghost from_gives = { λ stop stopped. stopped ≡ stopped_by stop };

    fn from(stop: Stop) -> Stopped {
        match stop {
            Stop::Need(block) => Stopped::Need(block),
            Stop::Odd => Stopped::Odd,
        }
    }
}

impl From<Halt> for Stopped {
    ghost from_gives = { λ halt stopped. stopped ≡ stopped_at halt };

    fn from(halt: Halt) -> Stopped {
        match halt {
            Halt::Need(block) => Stopped::Need(block),
            Halt::Odd => Stopped::Odd,
            Halt::NoMemory => Stopped::NoMemory,
        }
    }
}

impl<T: Drop> From<AllocFailed<T>> for Stopped {
    ghost from_gives = { λ _ stopped. stopped ≡ stops.NoMemory };

    fn from(_error: AllocFailed<T>) -> Stopped {
        Stopped::NoMemory
    }
}

impl From<AllocError> for Stopped {
    ghost from_gives = { λ _ stopped. stopped ≡ stops.NoMemory };

    fn from(_error: AllocError) -> Stopped {
        Stopped::NoMemory
    }
}
