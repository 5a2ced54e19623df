//! Laws of the spelling of records, and of what a transaction's record is: each is what a call with no effect ensures.

ghost use Rattle.zj_tx.specs.Laws.{FrozenStays, GateIsOpen, KeepsOneMore, NoneNoted, NothingKept, OneNotedMore, OneRecord, OneSpelling, PartsAreWithin, SealedIsFrozen, SpellingLength};

/// Each record has one spelling, and no spelling begins another record's.
pub fn one_spelling()
    ensures { OneSpelling }
{}

/// A record has 24 bytes, 8 for each bound, and 528 for each block.
pub fn spelling_length()
    ensures { SpellingLength }
{}

/// The first byte of a record, its gate, is 1.
pub fn gate_is_open()
    ensures { GateIsOpen }
{}

/// A frozen transaction stays so while its history grows, and has one record.
pub fn frozen_stays()
    ensures stays { FrozenStays }
    ensures one { OneRecord }
{}

/// What is noted is, transaction by transaction, the bounds of all.
pub fn noted_are_bounds()
    ensures none { NoneNoted }
    ensures more { OneNotedMore }
{}

/// What is kept operation by operation is, sealed when it is all of a transaction, its frozen record.
pub fn sealed_is_frozen()
    ensures none { NothingKept }
    ensures more { KeepsOneMore }
    ensures all { SealedIsFrozen }
    ensures within { PartsAreWithin }
{}
