//! What one change of nodes, entries and blocks does to the tree that they show.
//!
//! A call of the service changes a few blocks: a node, an entry, bytes of the map, contents. This crate says what such a
//! change is, as a relation of the tables before and after, and proves which tree the blocks show then and what the call
//! answers. It has no code. Code that changes blocks cites its laws and lemmas, and has to show of itself no more than how
//! the tables changed.
//!
//! All changes of a node are cases of one, `Resizes`: its first blocks are those that it named, more were free before, and
//! those that it lost are free now. The cases are an entry that is appended (`AppendsEntry`), removed (`RemovesEntry`) or
//! replaced (`ReplacesEntry`), a node that is freed (`FreesNode`), and bytes that are written (`WritesRange`) or cut
//! (`CutsFile`). The laws:
//!
//! - `shown_is_held`: blocks show a tree exactly where their tables hold it, so all else is said of tables;
//! - `resized_keeps_others`: all other nodes hold what they held, and nodes, blocks and map still fit each other;
//! - `made_is_inserted`, `unlinked_is_removed`, `bytes_are_replaced`: a new node's entry, an entry removed with its node and
//!   a file's new bytes are one path of the tree that is new, gone or has other bytes;
//! - `range_is_overwritten`, `cut_is_truncated`: a range that is written and a file that is cut are the tree's write and
//!   truncate;
//! - `moved_is_renamed`, `moved_over_is_renamed`, `renamed_by_paths`: an entry that moves, onto nothing or onto a node
//!   without entries, is a rename of the tree, and what a rename is, path by path.
//!
//! # Lemmas for code
//!
//! What the code above knows is where a walk ends (`follow`, `step`, and why it `Stops`), the nodes that it read, and which
//! nodes and blocks are free. Each lemma below takes `sizes state tree shows`, then what the call names, then nodes, then
//! facts; it gives `Answers`: the reply is that of `apply`, and the state that it speaks of shows the tree that `apply`
//! leaves. A refusal leaves the state. Where more than one reason holds, each lemma asks that those before its own don't.
//!
//! Of mkdir and create, which are `making` a kind (`proofs/MakeReplies`):
//!
//! | Lemma | Answers | Where |
//! |---|---|---|
//! | `make_root` | Exists | the path is the root's |
//! | `make_no_directory` | NotDir, NotFound | the path above leads to no directory |
//! | `make_exists` | Exists | the directory has the name |
//! | `make_dir_full` | DirFull | it lacks the name and has 192 entries |
//! | `make_no_nodes` | NoNodes | it has fewer, and no node is free |
//! | `make_no_space` | NoSpace | a node is free, its last block is full, and no block is free |
//! | `make_done` | Done | it lacks the name, and the new state has a new node with its entry (`MakesEntry`) |
//!
//! Of unlink and rmdir (`proofs/RemoveReplies`):
//!
//! | Lemma | Answers | Where |
//! |---|---|---|
//! | `unlink_no_file` | NotDir, NotFound, IsDir | the path leads to no file |
//! | `unlink_done` | Done | an entry leads to a file, and the new state lacks both (`Unlinks`) |
//! | `rmdir_no_directory` | NotDir, NotFound | the path leads to no directory |
//! | `rmdir_root` | Inside | the path is the root's |
//! | `rmdir_not_empty` | NotEmpty | the directory has entries |
//! | `rmdir_done` | Done | an entry leads to a directory without entries, and the new state lacks both (`Unlinks`) |
//!
//! Of stat, list, fsync and read, which leave the state (`proofs/LookReplies`):
//!
//! | Lemma | Answers | Where |
//! |---|---|---|
//! | `stat_stops`, `fsync_stops` | NotDir, NotFound | the walk stops |
//! | `stat_file`, `stat_directory` | File, Dir | the path leads to one, of the node's size |
//! | `fsync_done` | Done | the path leads to a node |
//! | `list_no_directory` | NotDir, NotFound | the path leads to no directory |
//! | `list_done`, `list_sorted` | Listed | the names are those of its entries, ascending, or their names sorted |
//! | `read_no_file` | NotDir, NotFound, IsDir | the path leads to no file |
//! | `read_past_end` | PastEnd | the place is behind the file's size |
//! | `read_too_big` | TooBig | it is not, and more bytes are asked than one call reads |
//! | `read_done` | Data | the bytes are those of the file from the place on, one by one |
//!
//! Of write and truncate (`proofs/WriteReplies`):
//!
//! | Lemma | Answers | Where |
//! |---|---|---|
//! | `write_no_file`, `truncate_no_file` | NotDir, NotFound, IsDir | the path leads to no file |
//! | `write_past_end`, `truncate_past_end` | PastEnd | the place or the size is behind the file's size |
//! | `write_too_big` | TooBig | more bytes than one call writes, or than a file has |
//! | `write_no_space` | NoSpace | the file's blocks and all free ones are fewer than it needs |
//! | `write_done` | Done | the new state has the bytes there (`WritesRange`) |
//! | `truncate_done` | Done | the new state has the first bytes alone (`CutsFile`) |
//!
//! Of rename (`proofs/RenameReplies`):
//!
//! | Lemma | Answers | Where |
//! |---|---|---|
//! | `rename_stops` | NotDir, NotFound | the walk by the old path stops |
//! | `rename_root` | Inside | the old path is the root's |
//! | `rename_same` | Done | both paths are one; the state stays |
//! | `rename_inside` | Inside | a directory, to a path below itself |
//! | `rename_no_directory` | NotDir, NotFound | it may move (`MayMove`), and the path above the new one leads to no directory |
//! | `rename_file_onto_directory` | IsDir | a file, onto a directory |
//! | `rename_directory_onto_file` | NotDir | a directory, onto a file |
//! | `rename_onto_full`, `rename_directory_onto_root` | NotEmpty | a directory, onto one with entries, or onto the root |
//! | `rename_dir_full` | DirFull | into another directory that lacks the name (`GoesInto`) and has 192 entries |
//! | `rename_no_space` | NoSpace | into one whose last block is full, none is free, and the old directory keeps its last block |
//! | `rename_done` | Done | the name is lacking, and the new state has the entry there (`Renames`) |
//! | `rename_over_done` | Done | one `Matches` the other, and the new state has it in its place (`RenamesOver`) |
//!
//! Of changes that are made table by table, a node (`SetsNode`), a byte of the map (`SetsMap`), an entry (`SetsLink`) or a
//! content (`SetsContent`) at a time (`proofs/Built`, `proofs/Written`):
//!
//! | Lemma | Says |
//! |---|---|
//! | `replaced_by` | an entry put over another replaces it |
//! | `none_freed`, `one_more_freed` | blocks that a node names are freed one by one (`FreesBlocks`) |
//! | `freed_node` | all its blocks are freed and then its node: a node is freed |
//! | `cut_file` | its last blocks are freed and then its node has the first: a file is cut |
//! | `none_written`, `old_block_written`, `new_block_written` | bytes are written block by block (`WritesBlocks`), into blocks of the file and into free ones |
//! | `range_written` | and then its node has the blocks: a range is written |
#![tactic(auto)]

pub mod laws;
