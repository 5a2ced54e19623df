//! How far a transaction follows each core directly.

ghost use Rattle.std.specs.Prelude.{◌≡◌, ◌-◌, ◌^◌, ◌<◌, ℕ, slice_get, slice_index, slice_set};
ghost use Rattle.zj_block.specs.Numbers.{IsBounds, zero_bounds};
ghost use Rattle.zj_tx.specs.Running.{IsNoted, IsRaised};

use std::marker::Model;
use zj_block::{Bounds, Writer};

/// For each of 64 cores the greatest number of its transactions that was noted, plus one, or 0.
#[derive(Debug, Drop)]
pub struct Follows {
    bounds: Bounds,
}

impl Model for Follows {
    ghost use Rattle.std.specs.Prelude.{List, ℕ};
    ghost use Rattle.zj_block.specs.Numbers.{IsBounds};

    ghost Value = { List ℕ };

    ghost view = { λ f. f.bounds };

    ghost invariant = { λ f. IsBounds f.bounds };
}

impl Follows {
    /// No transaction was noted.
    pub fn new() -> Follows
        ensures { result ≡ zero_bounds }
    {
        Follows {
            bounds: Bounds::zero(),
        }
    }

    /// Notes a transaction.
    pub fn note(&mut self, w: Writer)
        requires core { w.core < 64 }
        requires number { w.number < 2 ^ 64 - 1 }
        ensures { IsNoted self.old self.new w }
    {
        let bound = self.bounds.at(w.core).unwrap_or(0).max(w.number + 1);
        set_bound(&mut self.bounds, w.core, bound);
    }

    /// The bound on a core: `None` exactly from core 64 on.
    pub fn at(&self, core: u32) -> Option<u64>
        ensures bound { result ≡ slice_get self.now core }
        ensures bounds { IsBounds self.now }
    {
        self.bounds.at(core)
    }

    /// Notes all that was noted in another.
    pub(crate) fn raise(&mut self, by: &Follows)
        ensures { IsRaised self.old self.new by.now }
    {
        raise_bounds(&mut self.bounds, &by.bounds);
    }
}

/// Sets the bound of a core.
fn set_bound(bounds: &mut Bounds, core: u32, bound: u64)
    ensures set { bounds.new ≡ slice_set bounds.old core bound }
    ensures bounds { IsBounds bounds.new }
{
    let _set = bounds.put(core, bound);
}

/// Raises each bound to another's.
fn raise_bounds(bounds: &mut Bounds, by: &Bounds)
    ensures raised { IsRaised bounds.old bounds.new by.now }
    ensures bounds { IsBounds bounds.new }
{
    let _first = (bounds.at(0), by.at(0));
    for core in 0..64 {
        let bound = bounds.at(core).unwrap_or(0).max(by.at(core).unwrap_or(0));
        set_bound(bounds, core, bound);
    }
}
