//! A service is started over an image that was mounted, and ends.

ghost use Rattle.std.specs.Prelude.{◌≡◌, ◌⊎◌, ◌≤◌, ◌+◌, ◌++◌, ℕ, [], IfErr, IfOk, None, Some, length, reverse, slice_get};
ghost use Rattle.std.specs.List.{All};
ghost use Rattle.std.specs.Vec.{vec_capacity};
ghost use Rattle.zj_layout.specs.Shows.{ShowsSome};
ghost use Rattle.zj_turns.specs.Passes.{IsMadeWith, dealt, left_of};
ghost use Rattle.zj_core.specs.Core.{CoreState};
ghost use Rattle.zj_session.specs.Playing.{AreIdle, AreJournals, journals_of};
ghost use Rattle.zj_session.specs.Service.{IsService};
ghost use Rattle.zj_session.specs.Playing.{HasPast};
ghost use Rattle.zj_session.specs.Starting.{AreFresh, RestWithNone, past_of};

use crate::service::Service;
use std::alloc::{AllocError, Global};
use zj_area::Area;
use zj_block::Sizes;
use zj_core::{Core, ShowsTree};
use zj_dev::Disk;
use zj_mount::{Areas, Recovered};
use zj_turns::{Cache, Passes};

impl<D: Disk> Service<D> {
    /// The service of an image that was mounted: what was recovered, and its journals, which are ready.
    ///
    /// The error is that there was no memory, and gives the journals back.
    pub fn start(
        alloc: Global,
        recovered: &Recovered,
        mut areas: Areas<D>,
    ) -> Result<Service<D>, Areas<D>>
        requires many { length areas.areas ≡ recovered.now.sizes.cores }
        requires shows { ShowsSome recovered.now.sizes recovered.now.blocks }
        requires journals { AreJournals recovered.now.sizes areas.areas }
        requires rest { RestWithNone D.view areas.areas }
        ensures cache { IfOk result (λ s. (s.cache.sizes ≡ recovered.now.sizes) × (s.cache.start ≡ recovered.now.blocks)) }
        ensures service { IfOk result (λ s. IsService s.cache s.cores []) }
        ensures past { IfOk result (λ s. HasPast D.view s (past_of D.view areas.areas)) }
        ensures journals { IfOk result (λ s. journals_of s.cores ≡ areas.areas) }
        ensures err { IfErr result (λ refused. refused.areas ≡ areas.areas) }
    {
        let Ok((cache, mut passes)) = new_cache(alloc, recovered) else {
            return Err(areas);
        };
        let Ok((mut cores, mut waiting)) = make_room(alloc, areas.len()) else {
            return Err(areas);
        };
        let sizes = recovered.sizes();
        take_all(&mut areas, &mut waiting);
        make_cores(alloc, &cache, sizes, &mut passes, &mut waiting, &mut cores);
        waiting.destroy_empty();
        Ok(Service {
            cache,
            cores,
            places: areas,
        })
    }

    /// The least number of tickets that a core of it may still draw.
    pub fn left(&self) -> u64
        ensures at_most { All (λ c. result ≤ left_of c.pass) self.now.cores }
        ensures least { (self.now.cores ≡ []) ⊎ ((i : ℕ) × (c : CoreState D) × (slice_get self.now.cores i ≡ Some c) × (left_of c.pass ≡ result)) }
    {
        let mut least = u64::from(u32::MAX);
        for core in &self.cores {
            least = least.min(core.left());
        }
        least
    }

    /// The journals, in the order of their cores. It takes no memory.
    pub fn end(self) -> Areas<D>
        ensures { result.areas ≡ journals_of self.cores }
    {
        let Service {
            cache: _,
            cores,
            mut places,
        } = self;
        close_all(cores, &mut places);
        places
    }
}

/// The cache of an image that was mounted, and its passes.
fn new_cache(
    alloc: Global,
    recovered: &Recovered,
) -> Result<(Cache<ShowsTree>, Passes<ShowsTree>), AllocError>
    requires shows { ShowsSome recovered.now.sizes recovered.now.blocks }
    ensures cache { IfOk result (λ r. IsMadeWith r.0 recovered.now.sizes.cores recovered.now.sizes recovered.now.blocks) }
    ensures passes { IfOk result (λ r. r.1 ≡ dealt r.0.table r.0.cores r.0.cores) }
{
    let sizes = recovered.sizes();
    Cache::new(alloc, sizes, recovered.blocks(), sizes.cores())
}

/// Room for cores, and for their journals on the way.
fn make_room<D: Disk>(
    alloc: Global,
    many: usize,
) -> Result<(Vec<Core<D>>, Vec<Area<D>>), AllocError>
    ensures cores { IfOk result (λ r. (r.0.items ≡ []) × (many ≤ vec_capacity r.0)) }
    ensures areas { IfOk result (λ r. (r.1.items ≡ []) × (many ≤ vec_capacity r.1)) }
{
    let cores = Vec::with_capacity(alloc, many)?;
    let Ok(areas) = Vec::with_capacity(alloc, many) else {
        cores.destroy_empty();
        return Err(AllocError);
    };
    Ok((cores, areas))
}

/// Takes all journals out of their places, the last first.
fn take_all<D: Disk>(areas: &mut Areas<D>, waiting: &mut Vec<Area<D>>)
    requires none { waiting.old.items ≡ [] }
    requires room { length areas.old.areas ≤ vec_capacity waiting.old }
    ensures taken { reverse waiting.new.items ≡ areas.old.areas }
    ensures capacity { vec_capacity waiting.new ≡ vec_capacity waiting.old }
    ensures areas { areas.new.areas ≡ [] }
    ensures spare { length areas.old.areas ≤ areas.new.spare }
{
    while let Some(area) = areas.pop() {
        waiting.push_reserved(area);
    }
}

/// Makes a core of each pass and its journal, where core 0's is the last that waits.
fn make_cores<D: Disk>(
    alloc: Global,
    cache: &Cache<ShowsTree>,
    sizes: &Sizes,
    passes: &mut Passes<ShowsTree>,
    waiting: &mut Vec<Area<D>>,
    cores: &mut Vec<Core<D>>,
)
    requires passes { passes.old ≡ dealt cache.now.table cache.now.cores cache.now.cores }
    requires many { length waiting.old.items ≡ cache.now.cores }
    requires journals { AreJournals sizes.now (reverse waiting.old.items) }
    requires none { cores.old.items ≡ [] }
    requires room { cache.now.cores ≤ vec_capacity cores.old }
    ensures fresh { AreFresh cache.now sizes.now cores.new.items }
    ensures journals { journals_of cores.new.items ++ reverse waiting.new.items ≡ reverse waiting.old.items }
    ensures all { waiting.new.items ≡ [] }
{
    for _core in 0..cache.cores() {
        let Some(pass) = passes.next() else {
            unreachable!()
        };
        let Some(area) = waiting.pop() else {
            unreachable!()
        };
        let core = Core::new(alloc, pass, area, sizes).unwrap();
        cores.push_reserved(core);
    }
}

/// Closes cores that have no handle, and puts their journals behind others. It takes no memory.
fn close_all<D: Disk>(cores: Vec<Core<D>>, places: &mut Areas<D>)
    requires idle { AreIdle cores.items }
    requires room { length cores.items ≤ places.old.spare }
    ensures areas { places.new.areas ≡ places.old.areas ++ journals_of cores.items }
    ensures spare { places.new.spare + length cores.items ≡ places.old.spare }
{
    let mut left = cores.into_iter();
    while let Some(core) = left.next() {
        let (_pass, area) = core.close();
        places.push(area);
    }
    left.destroy_empty();
}
