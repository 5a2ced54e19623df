//! Laws of histories and cuts, each the contract of a function that does nothing.

ghost use Rattle.zj_history.specs.Laws.{BoundIsLeast, ClosedPartIsCut, ConsistentByOperations, CutIsHistory, EarlierIsWithin, EmptyIsLegal, EmptyIsNumbered, FrontIsConsistent, FrontIsLegal, FrontIsNumbered, LastIsNewest, LegalIsHistory, NoneBelowFirst, NoneIsUnwritten, OneLonger, OneMoreNumber, OnePutMore, OneWriteMore, StateByBlocks, StateKeepsLength, StateOfCut};

/// A legal history grows by one operation exactly where that one has the next ticket and found what those
/// before it left.
pub fn one_longer()
    ensures empty { EmptyIsLegal }
    ensures longer { OneLonger }
{}

/// Its numbers grow by one exactly where that one is the last of its core or the next.
pub fn one_more_number()
    ensures empty { EmptyIsNumbered }
    ensures longer { OneMoreNumber }
{}

/// One operation more puts in what it wrote, and is the last that wrote it.
pub fn one_write_more()
    ensures state { OnePutMore }
    ensures last { OneWriteMore }
{}

/// A front of a legal history is legal, and a legal history is a history.
pub fn front_is_legal()
    ensures front { FrontIsLegal }
    ensures numbers { FrontIsNumbered }
    ensures history { LegalIsHistory }
{}

/// A consistent cut is a history: each of its operations found what those before it in the cut left.
pub fn cut_is_history()
    ensures { CutIsHistory }
{}

/// The state has in each block what was last written, else what the first state had.
pub fn state_by_blocks()
    ensures blocks { StateByBlocks }
    ensures many { StateKeepsLength }
{}

/// The last write is the one of the greatest ticket.
pub fn last_is_newest()
    ensures newest { LastIsNewest }
    ensures none { NoneIsUnwritten }
{}

/// The state after a cut has in each block what the cut's operation of the greatest ticket wrote there, else what
/// the first state had. Of the writes of a block, those in a consistent cut come first.
pub fn state_of_cut()
    ensures state { StateOfCut }
    ensures earlier { EarlierIsWithin }
{}

/// A cut is consistent, said of its bounds, exactly where none of its operations found a block that was last written
/// outside it. A part that is closed in this way, and lacks no earlier transaction of a core, is such a cut.
pub fn consistent_by_operations()
    ensures bounds { ConsistentByOperations }
    ensures parts { ClosedPartIsCut }
{}

/// The dependency bound is the least bound above all that is followed directly.
pub fn bound_is_least()
    ensures { BoundIsLeast }
{}

/// No number is below its core's first one.
pub fn none_below_first()
    ensures { NoneBelowFirst }
{}

/// Bounds that part a legal history into a front below them and a rest above are a consistent cut: the front.
pub fn front_is_consistent()
    ensures { FrontIsConsistent }
{}
