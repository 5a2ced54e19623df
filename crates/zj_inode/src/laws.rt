//! Laws of calls over blocks: each is what a call with no effect ensures.

ghost use Rattle.zj_inode.specs.Laws.{CutIsRun, FootprintIsWithin, HistoryIsRun, PutsAreOne};

use zj_history::laws::{cut_is_history, front_is_legal};

/// The blocks that a call may take are blocks of the image.
pub fn footprint_is_within()
    ensures { FootprintIsWithin }
{}

/// New contents are put into a state as a history puts them in.
pub fn puts_are_one()
    ensures { PutsAreOne }
{}

/// A legal history that serves calls is the plain service's run of them.
pub fn history_is_run()
    ensures { HistoryIsRun }
{
    front_is_legal();
}

/// A consistent cut of a history that serves calls is the plain service's run of the calls in it.
pub fn cut_is_run()
    ensures { CutIsRun }
{
    cut_is_history();
}
