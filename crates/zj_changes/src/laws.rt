//! What a change of the tables makes of the tree that they hold, each the contract of a function that does nothing.

ghost use Rattle.zj_changes.specs.Laws.{BytesAreReplaced, CutIsTruncated, MadeIsInserted, MovedIsRenamed, MovedOverIsRenamed, RangeIsOverwritten, RenamedByPaths, ResizedKeepsOthers, ShownIsHeld, UnlinkedIsRemoved};

/// Blocks show a tree exactly where their tables hold it.
pub fn shown_is_held()
    ensures { ShownIsHeld }
{}

/// A node that has more or fewer blocks leaves the tables fitting each other, and all other nodes hold what they held.
pub fn resized_keeps_others()
    ensures { ResizedKeepsOthers }
{}

/// A new node's entry in a directory that lacks the name is a new path of the tree.
pub fn made_is_inserted()
    ensures { MadeIsInserted }
{}

/// An entry that is removed, with its node, is a path that is gone from the tree.
pub fn unlinked_is_removed()
    ensures { UnlinkedIsRemoved }
{}

/// A file's new bytes are those of its path in the tree.
pub fn bytes_are_replaced()
    ensures { BytesAreReplaced }
{}

/// A range that is written into a file is a write of the tree.
pub fn range_is_overwritten()
    ensures { RangeIsOverwritten }
{}

/// A file that is cut is one of the tree that is truncated.
pub fn cut_is_truncated()
    ensures { CutIsTruncated }
{}

/// An entry that moves to a name that leads nowhere is a rename of the tree.
pub fn moved_is_renamed()
    ensures { MovedIsRenamed }
{}

/// An entry that moves onto that of a node without entries of its own is one, too.
pub fn moved_over_is_renamed()
    ensures { MovedOverIsRenamed }
{}

/// A renamed tree has below the new path what was below the old one, nothing below the old one, and all else as it was.
pub fn renamed_by_paths()
    ensures { RenamedByPaths }
{}
