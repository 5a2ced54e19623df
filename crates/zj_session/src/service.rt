//! The service: a block cache, and a core for each journal.

use std::marker::Model;
use zj_core::{Core, ShowsTree};
use zj_dev::Disk;
use zj_mount::Areas;
use zj_turns::Cache;

/// Cores over one cache, which play schedules.
#[derive(Drop)]
pub struct Service<D: Disk> {
    pub(crate) cache: Cache<ShowsTree>,
    pub(crate) cores: Vec<Core<D>>,
    // None, with a place for the journal of each core.
    pub(crate) places: Areas<D>,
}

impl<D: Disk> Model for Service<D> {
    ghost use Rattle.std.specs.Prelude.{◌≡◌, ◌≤◌, [], length};
    ghost use Rattle.std.specs.Coded.{codes};
    ghost use Rattle.zj_turns.specs.Passes.{pass_state_code};
    ghost use Rattle.zj_session.specs.Playing.{AreResting, ServiceState};

    ghost Value = { ServiceState D };

    ghost coded = { Prim.hlevel (codes, pass_state_code) };

    ghost view = { λ s. record { cache = s.cache; cores = s.cores.items } };

    ghost invariant = { λ s. AreResting s.cache s.cores.items × (s.places.areas ≡ []) × (length s.cores.items ≤ s.places.spare) };
}
