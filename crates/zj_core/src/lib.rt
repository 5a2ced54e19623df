//! One core: handles that take blocks of the shared cache one by one, perform a call on them, and enter the history; and commits of
//! what they entered.
//!
//! A `Core` has a pass of the block cache, its journal, its running transaction, and at most one open handle. It promises:
//!
//! - `Core::stop` and `Core::call` that answer Ok add one operation to the history (clause `done`, `Performed`), and no other call adds
//!   any, as each says of what the core knows then: it has the ticket answered and the number of the running transaction, it found all
//!   that the handle held and beside it only blocks that were free and that its call may take, and on them it performs its call with
//!   the reply answered. One history of the cache has it and all else that the core knows.
//! - `Core::take` takes the next block that the call needs (`TakesNext`): it isn't held, the call may take it in every state
//!   that shows a tree and has what is held, and the first is that of the root's node. `None` comes where some reply and new
//!   contents perform the call on what is held (`NeedsNoMore`).
//! - What a call needs is never odd: the cache keeps to states that show a tree for its sizes (`ShowsTree`).
//! - The running transaction keeps what the core's operations with its number found and left: which transactions these follow, and the
//!   last content and stamp of each block that they wrote (clause `steady` of `Core::open_handle`, `Runs`). Each operation that enters
//!   joins it, also one that wrote nothing (clause `joined`), and no call that is refused does.
//! - `Core::commit` that answers Ok seals the running transaction as a record that fits the journal, and the next one runs
//!   (`Commits`): whatever a crash leaves on the journal's device, at any moment of the commit, holds the records before, or those
//!   with the new one, and afterwards those with the new one. That is said of a journal at rest, as one is once a scan found no
//!   record on a settled device, and after each commit from then on.
//! - Each refusal has its cause. `Failed` comes where a commit of the core has failed, and goes on coming from then on; `Spent` where no
//!   draw is left; `JournalFull` where a first operation of a transaction would come and a longest record has no room in the journal
//!   (`IsBeginCause`). `Busy` names a block that the call needs next and another core of the cache, which holds it if the core has met
//!   it; `TxFull` comes where nothing more is needed, and the transaction would have more than 48 blocks (`IsTakeCause`,
//!   `IsStopCause`, `IsHeldUp`). After one of `take` all is as before; after one of `stop` the handle is open with what it took; after
//!   one of `call` no handle is open and all is as before.
//! - `Core::commit` answers `Empty` exactly where the transaction has no operation, and `DiskFault` only where the count of faults of the
//!   journal's device rose: then the transaction is sealed all the same, and the core has failed (`IsCommitCause`).
//! - `Core::drop_handle` gives all back as it was.
//! - `Core::meet` and `Core::part` join and part what cores know, so that one knows whom it is refused by.
//! - Between two calls a core has drawn for nothing that it holds; it holds blocks for an open handle alone, and among them
//!   that of the root's node; some state that shows a tree has them; and a handle is open only where one may be begun (clause
//!   `steady` of `Core::open_handle`).
//!
//! No call waits: where another core holds a block the answer is `Busy`. Only `commit` makes device calls, all on the core's own
//! journal.
#![tactic(auto)]

mod committing;
mod fault;
mod handles;
mod shows;
mod steps;

pub use fault::{BeginFault, CallFault, CommitFault, StopFault, TakeFault};
pub use handles::{Core, CoreRefused, Done};
pub use shows::ShowsTree;
