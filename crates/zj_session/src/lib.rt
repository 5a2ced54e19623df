//! Several cores over one block cache, which play the lines of a schedule.
//!
//! A `Service` has a core for each journal of an image that was mounted. `play` runs each line on its core, which first meets every
//! other one and parts from each afterwards: so between two lines each core knows of no core but its own, and while it answers it
//! knows what all did and hold. It promises:
//!
//! - **The lines, the answers and one history fit** (`play`, clauses `plays` and `stops`, `Fit`): the history is legal from the blocks
//!   on that the cache was made with; the answers that have a ticket are its operations, in their order, each of its line's core,
//!   and each performs the line's call, or that of the handle which the line stops, with the reply answered. It found the
//!   block of the root's node and all that the handle took, and beside those only blocks that the call may take. Every other
//!   answer is right after the operations of the lines before it (`IsRight`): `order` exactly where the act doesn't suit the core;
//!   `busy` exactly where it suits the core and takes blocks, a handle may be begun, and the handle of another core has the block of
//!   the root's node, which each call takes first, and it names both; `took` names a block that the call may take in every state
//!   that shows a tree and has what the handle had before; `ready` comes where the call is performed on what the handle has. A stop
//!   that finds no room leaves its handle what it took: the block of the root's node, and others that its call may take.
//! - Replies that fit are the plain service's in turn (`laws::fit_is_run`).
//! - **What the answers say of transactions is right** (`FitsLog`, `IsRightOfLog`): a ticket belongs to the core's running transaction;
//!   `committed` names that and comes only where it has an operation; `empty` comes exactly where it has none; `full` exactly where it
//!   has none, a handle is to be begun and a longest record has no room behind the records of those before it; `txfull` tells how
//!   many blocks the transaction has and the call would add; `failed` comes exactly where a commit of the core has failed, and
//!   the journal's count of faults rose where one did (`rose`). `Ended::fault` is of the lowest such core (clause `ended`).
//! - **Crashes** (`logged`, `AreLogged`, and the law `laws::round_recovers`): at each moment since the service was started, whatever a crash
//!   leaves of a journal holds the first of its core's transactions, as many as reached it. So whatever a crash leaves of home and the
//!   journals, each at a moment of its own, the records found in each are transactions of its core from the tail on, and whatever is
//!   the greatest consistent cut found is one of the history: what is recovered is the state after it, which shows the tree that the
//!   plain service makes of its calls.
//! - `play` ends with no handle open, also where memory runs out: then the answers are those of the lines so far. Only
//!   commits make device calls, each on the journal of its core.
//! - `Service::start` makes a service whose history is empty, over the blocks that were recovered; where memory runs out it gives
//!   the journals back. `Service::left` tells the least number of tickets that a core may still draw, and `Service::end` gives
//!   the journals back as they are.
//! - `answer_line` answers one line (clause `answered`, `IsAnswered`); after it the cores go on to serve calls, and the answer is right
//!   (`laws::answers_are_right`); lines that fit a history go on to fit (`laws::fits_further`).
//!
//! There is no lock, and no call waits.
#![tactic(auto)]

mod answering;
mod gathering;
pub mod laws;
mod playing;
mod service;
mod starting;
mod transcript;

pub use answering::answer_line;
pub use playing::{Ended, Stopped, play};
pub use service::Service;
pub use transcript::Transcript;
