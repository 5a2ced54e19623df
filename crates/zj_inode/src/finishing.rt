//! From what a call answered, and the new contents that it built, to what performing it answers.

ghost use Rattle.std.specs.Prelude.{◌≡◌, ◌<◌, ◌≤◌, IfErr, IfOk};
ghost use Rattle.zj_inode.specs.declared.outcome.Outcome.TheVariants as outcomes;
ghost use Rattle.std.specs.FinMap as map_of;
ghost use Rattle.zj_block.specs.Lists.{Entries};
ghost use Rattle.zj_tree.specs.declared.call.Call.{Call};
ghost use Rattle.zj_dirs.specs.Possible.{AllTaken};
ghost use Rattle.zj_inode.specs.Answering.{Builds, CallStops, count_written};
ghost use Rattle.zj_inode.specs.Files.{IsUndone};
ghost use Rattle.zj_inode.specs.Performs.{NeedsWithin, OutcomeSays};

use crate::outcome::Outcome;
use crate::stopped::Stopped;
use std::alloc::{AllocError, Global};
use zj_block::{BlockNo, Sizes, Taken, Written};
use zj_dirs::trimming::trim;
use zj_tree::Reply;

/// What performing a call answers, by what it answered and the new contents that it built.
pub(crate) fn finish(
    alloc: Global,
    sizes: &Sizes,
    taken: &Taken,
    built: &Written,
    answered: Result<Reply, Stopped>,
) -> Result<Outcome, AllocError>
    requires { AllTaken taken.now built.now }
    ensures says { (call : Call) → IfOk answered (Builds sizes.now taken.now built.now call) → IfErr answered (CallStops sizes.now taken.now call) → IfOk result (OutcomeSays sizes.now taken.now call) }
    ensures within { IfOk result (NeedsWithin sizes.now) }
    ensures few { IfOk result (λ outcome. count_written outcome ≤ map_of.len built.now) }
{
    match answered {
        Ok(reply) => Ok(Outcome::Done {
            reply,
            written: trim(alloc, taken, built)?,
        }),
        Err(stopped) => stop(alloc, sizes, stopped),
    }
}

/// What performing a call answers that goes no further.
pub(crate) fn stop(alloc: Global, sizes: &Sizes, stopped: Stopped) -> Result<Outcome, AllocError>
    ensures undone { IfOk result (λ outcome. IsUndone outcome) }
    ensures says { (found : Entries) (call : Call) → CallStops sizes.now found call stopped → IfOk result (OutcomeSays sizes.now found call) }
    ensures within { IfOk result (NeedsWithin sizes.now) }
    ensures none { IfOk result (λ outcome. count_written outcome ≡ 0) }
{
    match stopped {
        Stopped::Need(block) => Ok(need(sizes, block)),
        Stopped::Refused(refusal) => Ok(Outcome::Done {
            reply: Reply::Refused(refusal),
            written: Written::new(alloc),
        }),
        Stopped::Odd => Ok(Outcome::Odd),
        Stopped::NoMemory => Err(AllocError),
    }
}

/// That a block is needed. No state is possible where that is due of a block outside the image.
fn need(sizes: &Sizes, block: BlockNo) -> Outcome
    ensures inside { block.0 < sizes.now.blocks → result ≡ outcomes.Need block }
    ensures outside { sizes.now.blocks ≤ block.0 → result ≡ outcomes.Odd }
{
    if block.0 < sizes.blocks() {
        Outcome::Need(block)
    } else {
        Outcome::Odd
    }
}
