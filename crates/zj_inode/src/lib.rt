//! Calls of the service over blocks that were taken.
//!
//! A call is performed over a few blocks as they were found, and nothing else: no lock, no disk, no other core. The blocks
//! may be part of many states, and what is answered is right in every one that shows a tree (`specs/Performs.antt`):
//!
//! - `Outcome::Done`: the reply is the plain service's, and the state with the new contents put in shows the tree that the
//!   call leaves. Each new content is of a block that was taken, and differs from what was found or is of a block that was
//!   free or is written over. A call that is refused, or that only looks, has none.
//! - `Outcome::Need`: this block was not taken, and the call may take it in every possible state (`specs/Footprint.antt`).
//!   It is to be taken, and the call performed again. The first one that any call needs is that of the root's node (`root`),
//!   and each is a block of the image, also where no state is possible (`within`).
//! - `Outcome::Odd`: no state is possible.
//!
//! Of lists of calls `laws::history_is_run` says: a legal history whose operations perform calls, of one core or of many, is
//! the plain service's run of them (`specs/Run.antt`). `laws::cut_is_run`: a consistent cut of it is the run of the calls in
//! the cut. `laws::footprint_is_within`: what a call may take is in the image.
//!
//! How a call is put together: each has a function that goes through its steps in the order of its reasons, leaves by `?`
//! with what stops it (`Stopped`: a block that is needed, a refusal, Odd, or want of memory), and builds new contents as it
//! goes. Its four clauses are `done` (the built contents answer the call: `Builds`), `taken` (each was taken), `few` (how many
//! it builds at most) and `stop` (what stops it is the call's own: `CallStops`). `finish` makes the outcome of that, and
//! leaves out contents that come out as they were found, so it has no more than were built. So a call has room in one
//! record, which holds 48 blocks (`few` of `perform`): the private functions say 37 of a write, and 17 of any other call.
//! A number that a node names outside the blocks for data is Odd where it is read, and `finishing::need` makes an Odd of any
//! block outside the image, so that no other private function speaks of that.
//!
//! - `finding`: `go_to_node`, `go_to_dir`, `go_to_file` and `go_to_entry` find what names lead to, `entry_of` searches a
//!   directory.
//! - `looking`: `stat`, `fsync`, `list`, `read`.
//! - `making`: `make_entry` is mkdir and create; `add_entry` adds an entry to a directory.
//! - `removing`: `unlink`, `rmdir`; `remove_at` removes an entry, `release` frees a node and its blocks.
//! - `files`: `truncate`, and `write`, which makes its own outcome: each block of the range that it writes is in it, also
//!   where it comes out as it was found, and zeros stand behind the end in each block that was free (`whole` of `perform`).
//! - `renaming`: `rename`; `move_to` moves an entry to a name that is absent, `move_over` onto another entry.
//! - `performing`: `perform`, which asks for the block of the root's node before it begins.
#![tactic(auto)]

mod files;
mod finding;
mod finishing;
pub mod laws;
mod looking;
mod making;
mod outcome;
mod performing;
mod removing;
mod renaming;
mod stopped;

pub use outcome::Outcome;
pub use performing::perform;
