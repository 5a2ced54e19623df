//! The devices of an image: opened together, mounted, and closed together.
//!
//! What it promises:
//!
//! - `open_all` (`out`, `home`, `journals`, `opened`): home and the journals from core 0 on are out of their shelf, home opens, and
//!   each journal is as long as home says. Else (`cause`) the first device that is missing, of another length or failing, where a
//!   disk's count of faults and the shelf's are told apart; and (`back`) all that were taken out stand where they stood.
//! - `close_all` (`closes`, `closed`, `back`): home and then the journals stand again, also where the shelf fails (`cause`).
//! - `mount` (`tree`, `journals`, `ready`): home's blocks, the tree that they show, and what the journals held, none of which
//!   holds a record; the journals are then ready. Else (`cause`) the first device that can't be synced, home first; the first
//!   journal that can't be read; the first that holds a record; or why home gives no tree. It syncs home and each journal before
//!   it reads them, and writes no device (`home`, `settles`). After Ok nothing is pending on home (`settled`), and each journal
//!   that was not read before is at rest (`rest`).
//! - `inspect` (`inspects`): what each journal holds, the greatest consistent cut of it, home's blocks under the newest images of
//!   that cut, and the tree that these show. Else (`cause`) the first journal that can't be read, or why the recovered blocks
//!   give no tree. It writes no device (`home_read`, `read`).
//! - `journal_name` and `HOME`: under which names the devices stand.
//! - `Areas::pop` and `Areas::push` take no memory: a place that was given up is spare (`some` and `spare`).
#![tactic(auto)]

mod areas;
mod closing;
mod fault;
mod gathering;
mod inspecting;
mod mounting;
mod names;
mod opening;
mod recovered;
mod scanning;
mod settling;

pub use areas::Areas;
pub use closing::close_all;
pub use fault::{CloseFault, MountFault, OpenFault};
pub use inspecting::inspect;
pub use mounting::mount;
pub use names::{HOME, journal_name};
pub use opening::{Set, open_all};
pub use recovered::Recovered;
