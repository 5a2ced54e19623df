//! The lines of a schedule whose acts are built.

ghost use Rattle.std.specs.Prelude.{◌≡◌, IfErr, IfOk, IsTrue, OnOk};
ghost use Rattle.zj_script.specs.Script.{IsSchedule};
ghost use Rattle.zj_cli.specs.declared.status.Fault.TheVariants as faults;
ghost use Rattle.zj_cli.specs.Asked.{AreBuilt, IsUnbuiltFault, RefusesInput, act_column, is_built};

use crate::status::Fault;
use std::alloc::Global;
use zj_script::{Act, Kind, Line, Schedule, read_front};
use zj_tree::Call;

/// Reads a schedule for so many cores, all of whose acts are built. It is refused at the first line that is outside the
/// grammar or asks for another act.
pub fn read_built(alloc: Global, cores: u32, text: &[u8]) -> Result<Schedule, Fault>
    ensures schedule { IfOk result (λ schedule. IsSchedule cores text.now schedule) }
    ensures built { IfOk result AreBuilt }
    ensures err { IfErr result (RefusesInput cores text.now) }
{
    let (schedule, read) = read_front(alloc, cores, text);
    refuse_unbuilt(schedule.as_slice())?;
    read?;
    Ok(schedule)
}

/// Refuses the first line that asks for an act that isn't built.
fn refuse_unbuilt(lines: &[Line]) -> Result<(), Fault>
    ensures built { OnOk result (AreBuilt lines.now) }
    ensures err { IfErr result (IsUnbuiltFault lines.now) }
{
    for line in lines {
        if !is_built(&line.act) {
            return Err(Fault::Script {
                kind: Kind::BadCall.number(),
                line: line.number,
                column: act_column(line.core),
            });
        }
    }
    Ok(())
}

/// Whether an act is built: each whole call is, but for an fsync, which waits for receipts, each step of a handle, but for a look,
/// and a commit.
fn is_built(act: &Act) -> bool
    ensures { result ≡ is_built act.now }
{
    match act {
        Act::Call(Call::Fsync { .. }) | Act::Begin(Call::Fsync { .. }) => false,
        Act::Call(_) | Act::Begin(_) | Act::Take | Act::Stop | Act::Drop | Act::Commit => true,
        Act::Look | Act::Sync | Act::Checkpoint => false,
    }
}

/// The column of the word of an act of a core, or of none.
fn act_column(core: Option<u32>) -> u32
    ensures { result ≡ act_column core }
{
    match core {
        None => 1,
        Some(core) if core < 10 => 3,
        Some(_) => 4,
    }
}
