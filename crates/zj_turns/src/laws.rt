//! Laws of what a cache tells, each the contract of a function that does nothing.

ghost use Rattle.zj_turns.specs.Laws.{GrowsByOne, LoadedIsFound, OneHistory, ToldByCores};

/// A legal history is told by the operations of each core.
pub fn told_by_cores()
    ensures { ToldByCores }
{}

/// Where one core has one operation more and the others have the same ones, the history has that operation behind it, so its
/// ticket is the length of the history before.
pub fn grows_by_one()
    ensures { GrowsByOne }
{}

/// What a pass that has met all others knows is one history: the one that `Cache::load` and `Cache::draw` tell of.
pub fn one_history()
    ensures { OneHistory }
{}

/// What a load put into a block and answered is the block as its operation finds it.
pub fn loaded_is_found()
    ensures { LoadedIsFound }
{}
