//! A call over the blocks that it takes.

ghost use Rattle.std.specs.Prelude.{◌≡◌, ◌<◌, ◌+◌, length, None, IfOk, OnOk};
ghost use Rattle.zj_block.specs.Lists.{content_under, count_left};
ghost use Rattle.zj_layout.specs.Shows.{ShowsSome, put_blocks};
ghost use Rattle.zj_volume.specs.Volume.{Agrees, Serves};

use std::alloc::{AllocError, Global};
use zj_block::{BlockNo, Blocks, Sizes, Taken, Written};
use zj_inode::laws::{footprint_is_within, puts_are_one};
use zj_inode::{Outcome, perform};
use zj_tree::{Call, Reply};

/// What a call answers, and the new contents that it leaves. It takes one block after another, as the call needs them.
pub(crate) fn serve(
    alloc: Global,
    sizes: &Sizes,
    blocks: &Blocks,
    call: &Call,
) -> Result<(Reply, Written), AllocError>
    requires { ShowsSome sizes.now blocks.now }
    ensures { IfOk result (λ served. Serves sizes.now blocks.now call.now served.0 served.1) }
{
    footprint_is_within();
    let mut taken = Taken::new(alloc);
    loop {
        match perform(alloc, sizes, call, &taken)? {
            Outcome::Need(block) => take(blocks, block, &mut taken)?,
            Outcome::Done { reply, written } => return Ok((reply, written)),
            Outcome::Odd => unreachable!(),
        }
    }
}

/// Takes a block as it is. `AllocError` leaves what was taken.
fn take(blocks: &Blocks, block: BlockNo, taken: &mut Taken) -> Result<(), AllocError>
    requires fresh { content_under taken.old block.0 ≡ None }
    requires within { block.0 < length blocks.now }
    requires agrees { Agrees taken.old blocks.now }
    ensures agrees { OnOk result (Agrees taken.new blocks.now) }
    ensures fewer { OnOk result (count_left taken.new (length blocks.now) < count_left taken.old (length blocks.now)) }
{
    let content = blocks.at(block.0 as usize).unwrap();
    taken.add(block, content)
}

/// Puts new contents into their blocks.
pub(crate) fn put_written(blocks: &mut Blocks, written: &Written)
    ensures { blocks.new ≡ put_blocks blocks.old written.now }
{
    puts_are_one();
    for i in (0..written.len()).rev() {
        if let Some((block, content)) = written.at(i) {
            let _put = blocks.put(block.0 as usize, content);
        }
    }
}
