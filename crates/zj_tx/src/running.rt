//! The transaction that a core is running.

ghost use Rattle.std.specs.Prelude.{◌≡◌, ◌≢◌, ◌+◌, ◌-◌, ◌^◌, ◌<◌, ◌≤◌, ℕ, Some, OnOk, OnErr, IfErr, length, max, slice_index, unwrap_or};
ghost use Rattle.zj_block.specs.Numbers.{IsBounds};
ghost use Rattle.zj_block.specs.declared.sizes.TheConstants.{MAX_RECORD_BLOCKS};
ghost use Rattle.zj_tx.specs.Record.{Ascends, IsRecord};
ghost use Rattle.zj_tx.specs.Running.{HasRoom, IsAdded, IsRoomCause, IsSealed, empty_transaction, new_count, recorded_bound};

use crate::adding::{add_all, count_new};
use crate::fault::RoomFault;
use crate::follows::Follows;
use crate::part::Part;
use crate::sealed::Sealed;
use std::alloc::Global;
use std::marker::Model;
use std::mem;
use zj_block::{MAX_RECORD_BLOCKS, Stamp, Written};

/// The transaction that a core is running: what its operations so far follow, and what they leave in the blocks that they
/// wrote. Where an operation is added or the transaction is sealed, no memory is taken: room is made before.
#[derive(Debug, Drop)]
pub struct Running {
    alloc: Global,
    core: u32,
    cores: u32,
    number: u64,
    handles: u64,
    follows: Follows,
    parts: Vec<Part>,
    /// The record's bounds, laid out as room is made.
    bounds: Vec<u64>,
    /// For how many new blocks room was made at most, since an operation was added last.
    room: Option<u32>,
}

impl Model for Running {
    ghost use Rattle.std.specs.Prelude.{vec_len};
    ghost use Rattle.std.specs.Vec.{vec_capacity};
    ghost use Rattle.zj_tx.specs.Running.{IsRunning, Transaction, transaction_with};

    ghost Value = { Transaction };

    ghost view = { λ r. transaction_with r.core r.cores r.number r.handles r.follows r.parts.items r.room };

    ghost invariant = { λ r. IsRunning (transaction_with r.core r.cores r.number r.handles r.follows r.parts.items r.room) (vec_capacity r.parts) (vec_len r.bounds) };
}

impl Running {
    /// A transaction of no operation, of a core of so many. It takes no memory.
    pub fn new(alloc: Global, core: u32, cores: u32, number: u64) -> Running
        requires core { core < cores }
        requires cores { cores ≤ 64 }
        ensures { result ≡ empty_transaction core cores number }
    {
        Running {
            alloc,
            core,
            cores,
            number,
            handles: 0,
            follows: Follows::new(),
            parts: Vec::new(alloc),
            bounds: Vec::new(alloc),
            room: None,
        }
    }

    /// The transaction's number on its core.
    pub fn number(&self) -> u64
        ensures { result ≡ self.now.number }
    {
        self.number
    }

    /// How many operations were added.
    pub fn handles(&self) -> u64
        ensures { result ≡ self.now.handles }
    {
        self.handles
    }

    /// How many blocks these wrote: at most 48.
    pub fn have(&self) -> u32
        ensures have { result ≡ length self.now.parts }
        ensures most { result ≤ MAX_RECORD_BLOCKS }
        ensures ascending { Ascends 0 self.now.parts }
    {
        self.parts.len() as u32
    }

    /// Makes room for the blocks that an operation writes. `TxFull` exactly where the new ones among them and those of the
    /// transaction are more than 48. After a refusal the transaction is as before.
    pub fn make_room(&mut self, written: &Written) -> Result<(), RoomFault>
        ensures ok { OnOk result (self.new ≡ record self.old { room = Some (max (unwrap_or self.old.room 0) (new_count self.old.parts written.now)) }) }
        ensures fits { OnOk result (length self.old.parts + new_count self.old.parts written.now ≤ MAX_RECORD_BLOCKS) }
        ensures cause { IfErr result (IsRoomCause self.old written.now) }
        ensures err { OnErr result (self.new ≡ self.old) }
    {
        let have = self.parts.len();
        let more = count_new(&self.parts, written);
        if more > MAX_RECORD_BLOCKS as usize - have {
            return Err(RoomFault::TxFull {
                have: have as u32,
                more: u32::try_from(more).unwrap_or(u32::MAX),
            });
        }
        self.parts.reserve(more)?;
        self.bounds.resize(self.cores as usize, 0)?;
        self.room = Some(self.room.unwrap_or(0).max(more as u32));
        Ok(())
    }

    /// Adds an operation: its ticket, the blocks that it wrote, and what it follows. Room was made for these blocks. It
    /// takes no memory.
    pub fn add(&mut self, ticket: u64, written: &Written, follows: &Follows)
        requires room { HasRoom self.old written.now }
        requires ticket { ticket < 2 ^ 64 - 1 }
        requires handles { self.old.handles < 2 ^ 64 - 1 }
        ensures { IsAdded self.old self.new ticket written.now follows.now }
    {
        let added = add_all(&mut self.parts, written, Stamp(ticket + 1));
        prove!(added.is_ok());
        self.follows.raise(follows);
        self.handles += 1;
        self.room = None;
    }

    /// Seals the transaction, which has some operation, and begins the next one. It takes no memory.
    pub fn seal(&mut self) -> Sealed
        requires handles { self.old.handles ≢ 0 }
        requires number { self.old.number < 2 ^ 64 - 1 }
        ensures sealed { IsSealed self.old result }
        ensures record { IsRecord result }
        ensures next { self.new ≡ empty_transaction self.old.core self.old.cores (self.old.number + 1) }
    {
        let mut bounds = mem::replace(&mut self.bounds, Vec::new(self.alloc));
        fill_bounds(&mut bounds, &self.follows, self.core);
        let parts = mem::replace(&mut self.parts, Vec::new(self.alloc));
        let number = self.number;
        self.number += 1;
        self.handles = 0;
        self.follows = Follows::new();
        self.room = None;
        Sealed {
            number,
            bounds,
            parts,
        }
    }
}

/// How far a record says that a core is followed.
fn bound_of(follows: &Follows, core: u32, own: u32) -> u64
    ensures bound { result ≡ recorded_bound own follows.now core }
    ensures bounds { IsBounds follows.now }
{
    let bound = follows.at(core).unwrap_or(0);
    if core == own {
        return 0;
    }
    bound
}

/// Fills in how far each core is followed.
fn fill_bounds(bounds: &mut [u64], follows: &Follows, own: u32)
    requires { length bounds.old ≤ 64 }
    ensures len { length bounds.new ≡ length bounds.old }
    ensures bounds { (core : ℕ) → core < length bounds.old → slice_index bounds.new core ≡ recorded_bound own follows.now core }
    ensures fit { (core : ℕ) → slice_index bounds.new core < 2 ^ 64 }
{
    for core in 0..bounds.len() {
        bounds[core] = bound_of(follows, core as u32, own);
    }
}
