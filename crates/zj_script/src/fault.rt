//! Why an input is no script or schedule.

ghost use Rattle.std.specs.Prelude.{◌≡◌};
ghost use Rattle.zj_script.specs.declared.fault.ScriptFault.TheVariants as faults;
ghost use Rattle.zj_script.specs.declared.fault.Stop.TheVariants as stops;

use crate::kind::Kind;
use std::alloc::{AllocError, AllocFailed};
use thiserror::Error;

/// Why an input could not be read.
#[derive(Clone, Copy, Debug, PartialEq, Eq, Error)]
pub enum ScriptFault {
    /// The first place where the input is refused.
    #[error("line {line} column {column} kind {kind}")]
    Refused {
        /// The number of a `Kind`.
        kind: u32,
        /// The line, from 1.
        line: u32,
        /// The byte of the line, from 1: the first one of the word that is wrong, or the one behind the line where a
        /// word is missing; or the first one that is past a limit.
        column: u32,
    },
    /// There was no memory for the lines.
    #[error("out of memory")]
    NoMemory,
}

impl From<AllocError> for ScriptFault {
    ghost from_gives = { λ _ fault. fault ≡ faults.NoMemory };

    fn from(_error: AllocError) -> ScriptFault {
        ScriptFault::NoMemory
    }
}

impl<T: Drop> From<AllocFailed<T>> for ScriptFault {
    ghost from_gives = { λ _ fault. fault ≡ faults.NoMemory };

    fn from(_error: AllocFailed<T>) -> ScriptFault {
        ScriptFault::NoMemory
    }
}

/// Why the words of a line could not be read.
#[derive(Clone, Copy, Debug, PartialEq, Eq)]
pub(crate) enum Stop {
    /// Another word was due.
    Refused {
        kind: Kind,
        /// How many bytes the line has from the wrong word on, 0 where a word is missing.
        left: usize,
    },
    /// There was no memory for a word.
    NoMemory,
}

impl From<AllocError> for Stop {
    ghost from_gives = { λ _ stop. stop ≡ stops.NoMemory };

    fn from(_error: AllocError) -> Stop {
        Stop::NoMemory
    }
}
