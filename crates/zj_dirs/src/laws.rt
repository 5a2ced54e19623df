//! Laws of possible and made states: each is what a call with no effect ensures.

ghost use Rattle.zj_dirs.specs.Laws.{ContentIsSeen, FoundFreeIsFree, FoundHasPlace, NothingIsPut, PossibleIsRooted, PossibleIsStored, UnseenIsUntaken};

/// With nothing written, a made state is the possible one.
pub fn nothing_is_put()
    ensures { NothingIsPut }
{}

/// In a possible state the tables fit each other, and the entries hang together.
pub fn possible_states()
    ensures stored { PossibleIsStored }
    ensures rooted { PossibleIsRooted }
{}

/// What a block that is seen says of every made state.
pub fn seen_blocks()
    ensures content { ContentIsSeen }
    ensures unseen { UnseenIsUntaken }
{}

/// A block that is free in the map as it was found is free in every possible state.
pub fn found_free_is_free()
    ensures { FoundFreeIsFree }
{}

/// An entry that is found stands at a place of the directory.
pub fn found_has_place()
    ensures { FoundHasPlace }
{}
