//! Numbers that name blocks, writes and places, and one such number for each core.

ghost use Rattle.std.specs.Prelude.{◌≡◌, ◌<◌, ◌↔◌, IsSome, IfNone, OnSome, length, slice_get, slice_set};
ghost use Rattle.zj_block.specs.Numbers.{IsBounds, zero_bounds, zero_tails};

use std::marker::Model;

/// The number of a block of the home image, counted from 0.
#[derive(Clone, Copy, Debug, PartialEq, Eq, PartialOrd, Ord)]
pub struct BlockNo(pub u32);

/// How often a block was written: 0 for a block as the image had it.
#[derive(Clone, Copy, Debug, PartialEq, Eq, PartialOrd, Ord)]
pub struct Stamp(pub u64);

/// The transaction that wrote a block last: its core and its number on that core.
#[derive(Clone, Copy, Debug, PartialEq, Eq)]
pub struct Writer {
    /// The core.
    pub core: u32,
    /// The transaction's number.
    pub number: u64,
}

/// Where a journal's next record goes: its place in bytes, and the number of its transaction.
#[derive(Clone, Copy, Debug, PartialEq, Eq)]
pub struct Tail {
    /// The place, in bytes from the start of the journal's area.
    pub place: u64,
    /// The transaction's number.
    pub number: u64,
}

/// A tail for each of 64 cores.
#[derive(Clone, Copy, Debug)]
pub struct Tails {
    tails: [Tail; 64],
}

impl Model for Tails {
    ghost use Rattle.std.specs.Prelude.{◌≡◌, List, length};
    ghost use Rattle.zj_block.specs.declared.numbers.Tail.{Tail};

    ghost Value = { List Tail };

    ghost view = { λ t. t.tails };

    ghost invariant = { λ t. length t.tails ≡ 64 };

    ghost inverse = { λ tails. record { tails = tails } };
}

impl Tails {
    /// Place 0 and number 0 for each core.
    pub fn zero() -> Tails
        ensures zero { result ≡ zero_tails }
        ensures many { length result ≡ 64 }
    {
        Tails {
            tails: [Tail {
                place: 0,
                number: 0,
            }; 64],
        }
    }

    /// The tail of a core: `None` exactly from core 64 on.
    pub fn at(&self, core: u32) -> Option<Tail>
        ensures tail { result ≡ slice_get self.now core }
        ensures many { length self.now ≡ 64 }
    {
        self.tails.get(core as usize).copied()
    }

    /// Sets the tail of a core. `None` exactly from core 64 on: the tails are then unchanged.
    pub fn put(&mut self, core: u32, v: Tail) -> Option<()>
        ensures some { IsSome result ↔ (core < 64) }
        ensures put { OnSome result (self.new ≡ slice_set self.old core v) }
        ensures none { IfNone result (self.new ≡ self.old) }
        ensures many { length self.new ≡ 64 }
    {
        let _tail = self.at(core)?;
        self.tails[core as usize] = v;
        Some(())
    }
}

/// A bound for each of 64 cores: the number of one of its transactions.
#[derive(Clone, Copy, Debug)]
pub struct Bounds {
    bounds: [u64; 64],
}

impl Model for Bounds {
    ghost use Rattle.std.specs.Prelude.{List, ℕ};
    ghost use Rattle.zj_block.specs.Numbers.{IsBounds};

    ghost Value = { List ℕ };

    ghost view = { λ b. b.bounds };

    ghost invariant = { λ b. IsBounds b.bounds };

    ghost inverse = { λ bounds. record { bounds = bounds } };
}

impl Bounds {
    /// 0 for each core.
    pub fn zero() -> Bounds
        ensures zero { result ≡ zero_bounds }
        ensures bounds { IsBounds result }
    {
        Bounds { bounds: [0; 64] }
    }

    /// The bound of a core: `None` exactly from core 64 on.
    pub fn at(&self, core: u32) -> Option<u64>
        ensures bound { result ≡ slice_get self.now core }
        ensures bounds { IsBounds self.now }
    {
        self.bounds.get(core as usize).copied()
    }

    /// Sets the bound of a core. `None` exactly from core 64 on: the bounds are then unchanged.
    pub fn put(&mut self, core: u32, v: u64) -> Option<()>
        ensures some { IsSome result ↔ (core < 64) }
        ensures put { OnSome result (self.new ≡ slice_set self.old core v) }
        ensures none { IfNone result (self.new ≡ self.old) }
        ensures bounds { IsBounds self.new }
    {
        let _bound = self.at(core)?;
        self.bounds[core as usize] = v;
        Some(())
    }
}
