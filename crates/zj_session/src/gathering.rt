//! One core that meets all others, and parts from them.

ghost use Rattle.std.specs.Prelude.{◌≡◌, map, true, false};
ghost use Rattle.zj_core.specs.Core.{IsOf};
ghost use Rattle.zj_session.specs.Gathering.{ArePeers, core_away, gathered, passes_of, released};

use zj_core::{Core, ShowsTree};
use zj_dev::Disk;
use zj_turns::Cache;

/// A core meets others, which are then away in it.
pub(crate) fn meet_all<D: Disk>(
    cache: &Cache<ShowsTree>,
    core: &mut Core<D>,
    others: &mut [Core<D>],
)
    requires of { IsOf cache.now core.old }
    requires peers { ArePeers core.old.pass (passes_of others.old) false }
    ensures core { core.new ≡ record core.old { pass = gathered core.old.pass (passes_of others.old) } }
    ensures others { others.new ≡ map (core_away true) others.old }
    ensures peers { ArePeers core.new.pass (passes_of others.new) true }
{
    for other in others {
        core.meet(cache, other);
    }
}

/// A core parts from others, which are then at hand again.
pub(crate) fn part_all<D: Disk>(
    cache: &Cache<ShowsTree>,
    core: &mut Core<D>,
    others: &mut [Core<D>],
)
    requires of { IsOf cache.now core.old }
    requires peers { ArePeers core.old.pass (passes_of others.old) true }
    ensures core { core.new ≡ record core.old { pass = released core.old.pass (passes_of others.old) } }
    ensures others { others.new ≡ map (core_away false) others.old }
    ensures peers { ArePeers core.new.pass (passes_of others.new) false }
{
    for other in others {
        core.part(cache, other);
    }
}
