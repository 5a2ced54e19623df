//! Why a core refuses.

ghost use Rattle.std.specs.Prelude.{◌≡◌};
ghost use Rattle.zj_core.specs.declared.fault.TakeFault.TheVariants as takes;
ghost use Rattle.zj_core.specs.declared.fault.BeginFault.TheVariants as begins;
ghost use Rattle.zj_core.specs.declared.fault.CommitFault.TheVariants as commits;
ghost use Rattle.zj_core.specs.Steps.{roomless_by, stopped_by, unbegun_by, unstopped_by};

use std::alloc::AllocError;
use zj_area::{DiskFault, Full};
use zj_tx::RoomFault;

/// Why a handle isn't begun. The core is then as before.
#[derive(Clone, Copy, Debug, PartialEq, Eq)]
pub enum BeginFault {
    /// A commit of the core has failed.
    Failed {
        /// The core.
        core: u32,
    },
    /// The core has no draw left.
    Spent {
        /// How often it has drawn.
        drawn: u64,
    },
    /// The running transaction has no operation, and a record of the greatest length has no room in the journal.
    JournalFull {
        /// What such a record needs, in bytes.
        need: u64,
        /// What is free, in bytes.
        free: u64,
    },
    /// No memory was at hand.
    NoMemory,
}

/// Why a block isn't taken. The core is then as before.
#[derive(Clone, Copy, Debug, PartialEq, Eq)]
pub enum TakeFault {
    /// Another core has the block that is needed.
    Busy {
        /// The number of the block.
        block: u32,
        /// That core.
        holder: u32,
    },
    /// No memory was at hand.
    NoMemory,
}

/// Why a handle isn't stopped. It stays open with what it took.
#[derive(Clone, Copy, Debug, PartialEq, Eq)]
pub enum StopFault {
    /// Another core has a block that is needed.
    Busy {
        /// The number of the block.
        block: u32,
        /// That core.
        holder: u32,
    },
    /// With the blocks that the call writes the running transaction would have more than 48.
    TxFull {
        /// How many it has.
        have: u32,
        /// How many the call would add.
        more: u32,
    },
    /// No memory was at hand.
    NoMemory,
}

/// Why a call isn't made. The core is then as before.
#[derive(Clone, Copy, Debug, PartialEq, Eq)]
pub enum CallFault {
    /// A commit of the core has failed.
    Failed {
        /// The core.
        core: u32,
    },
    /// The core has no draw left.
    Spent {
        /// How often it has drawn.
        drawn: u64,
    },
    /// The running transaction has no operation, and a record of the greatest length has no room in the journal.
    JournalFull {
        /// What such a record needs, in bytes.
        need: u64,
        /// What is free, in bytes.
        free: u64,
    },
    /// Another core has a block that is needed.
    Busy {
        /// The number of the block.
        block: u32,
        /// That core.
        holder: u32,
    },
    /// With the blocks that the call writes the running transaction would have more than 48.
    TxFull {
        /// How many it has.
        have: u32,
        /// How many the call would add.
        more: u32,
    },
    /// No memory was at hand.
    NoMemory,
}

/// Why the running transaction isn't committed.
#[derive(Clone, Copy, Debug, PartialEq, Eq)]
pub enum CommitFault {
    /// An earlier commit of the core has failed. The core is as before.
    Failed {
        /// The core.
        core: u32,
    },
    /// The running transaction has no operation. The core is as before.
    Empty,
    /// The journal's device failed. The transaction is sealed all the same, and the core has failed.
    DiskFault,
}

impl From<AllocError> for BeginFault {
    ghost from_gives = { λ _ fault. fault ≡ begins.NoMemory };

    fn from(_error: AllocError) -> BeginFault {
        BeginFault::NoMemory
    }
}

impl From<Full> for BeginFault {
    ghost from_gives = { λ full fault. fault ≡ begins.JournalFull full.need full.free };

    fn from(full: Full) -> BeginFault {
        let Full { need, free } = full;
        BeginFault::JournalFull { need, free }
    }
}

impl From<RoomFault> for StopFault {
    ghost from_gives = { λ fault stopped. stopped ≡ roomless_by fault };

    fn from(fault: RoomFault) -> StopFault {
        match fault {
            RoomFault::TxFull { have, more } => StopFault::TxFull { have, more },
            RoomFault::NoMemory => StopFault::NoMemory,
        }
    }
}

impl From<DiskFault> for CommitFault {
    ghost from_gives = { λ _ fault. fault ≡ commits.DiskFault };

    fn from(_error: DiskFault) -> CommitFault {
        CommitFault::DiskFault
    }
}

impl From<TakeFault> for StopFault {
    ghost from_gives = { λ fault stopped. stopped ≡ stopped_by fault };

    fn from(fault: TakeFault) -> StopFault {
        match fault {
            TakeFault::Busy { block, holder } => StopFault::Busy { block, holder },
            TakeFault::NoMemory => StopFault::NoMemory,
        }
    }
}

impl From<BeginFault> for CallFault {
    ghost from_gives = { λ fault refused. refused ≡ unbegun_by fault };

    fn from(fault: BeginFault) -> CallFault {
        match fault {
            BeginFault::Failed { core } => CallFault::Failed { core },
            BeginFault::Spent { drawn } => CallFault::Spent { drawn },
            BeginFault::JournalFull { need, free } => CallFault::JournalFull { need, free },
            BeginFault::NoMemory => CallFault::NoMemory,
        }
    }
}

impl From<StopFault> for CallFault {
    ghost from_gives = { λ fault refused. refused ≡ unstopped_by fault };

    fn from(fault: StopFault) -> CallFault {
        match fault {
            StopFault::Busy { block, holder } => CallFault::Busy { block, holder },
            StopFault::TxFull { have, more } => CallFault::TxFull { have, more },
            StopFault::NoMemory => CallFault::NoMemory,
        }
    }
}

impl From<AllocError> for TakeFault {
    ghost from_gives = { λ _ fault. fault ≡ takes.NoMemory };

    fn from(_error: AllocError) -> TakeFault {
        TakeFault::NoMemory
    }
}
