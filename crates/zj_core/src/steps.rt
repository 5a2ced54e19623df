//! The steps of a handle: it takes blocks, stores new contents, draws its ticket, and gives the blocks back.

ghost use Rattle.std.specs.Prelude.{◌≡◌, ◌≢◌, ◌⊎◌, ◌^◌, ◌-◌, ◌<◌, ◌≤◌, ◌++◌, ◌∷◌, [], ℕ, None, Some, IfErr, IfNone, IfOk, IfSome, OnErr, OnOk, length, true, false};
ghost use Rattle.std.specs.FinMap as finmap;
ghost use Rattle.zj_block.specs.Lists.{content_under, count_left};
ghost use Rattle.zj_inode.specs.Performs.{Performs};
ghost use Rattle.zj_inode.specs.Run.{contents_found};
ghost use Rattle.zj_history.specs.Operation.{Operation};
ghost use Rattle.zj_turns.specs.Views.{Has, Hold};
ghost use Rattle.zj_turns.specs.Passes.{IsActive, holds, left_of, mine, now_knowing};
ghost use Rattle.zj_block.specs.Numbers.{zero_bounds};
ghost use Rattle.zj_block.specs.declared.sizes.TheConstants.{MAX_RECORD_BLOCKS};
ghost use Rattle.zj_tx.specs.Record.{Ascends};
ghost use Rattle.zj_tx.specs.Running.{IsAdded, IsNoted, IsRoomCause};
ghost use Rattle.zj_core.specs.Core.{IsOneMore, IsStopCause, IsTakeCause, Joins, NeedsNoMore, Performed, TakesNext};
ghost use Rattle.zj_core.specs.Handle.{HasTaken, IsBegun, IsDue, IsPerformed, TakesFor, root_block};
ghost use Rattle.zj_core.specs.Steps.{Draws, IsMissed, KeepsTree, Knows, TakesMore, given_back, stored_into};

use crate::fault::{StopFault, TakeFault};
use crate::handles::Done;
use crate::shows::ShowsTree;
use std::alloc::{AllocError, Global};
use zj_block::{Block, BlockNo, Sizes, Taken, Writer, Written};
use zj_inode::laws::puts_are_one;
use zj_inode::{Outcome, perform};
use zj_tree::{Call, Reply};
use zj_turns::laws::loaded_is_found;
use zj_turns::{Cache, Pass};
use zj_tx::laws::sealed_is_frozen;
use zj_tx::{Follows, RoomFault, Running};

/// An open handle: the call that it is for, the blocks that it has taken, and the transactions that last wrote these.
#[derive(Drop)]
pub(crate) struct Handle {
    pub(crate) call: Call,
    pub(crate) taken: Taken,
    pub(crate) follows: Follows,
}

impl Handle {
    /// A handle for a call, which has taken nothing yet.
    pub(crate) fn new(alloc: Global, call: &Call) -> Result<Handle, AllocError>
        ensures { IfOk result (λ handle. (handle.call ≡ call.now) × (handle.taken ≡ []) × (handle.follows ≡ zero_bounds)) }
    {
        Ok(Handle {
            call: call.copy(alloc)?,
            taken: Taken::new(alloc),
            follows: Follows::new(),
        })
    }
}

/// Notes the transaction that last wrote a block, if one did.
fn note_writer(follows: &mut Follows, writer: Option<Writer>)
    requires { IfSome writer (λ w. (w.core < 64) × (w.number < 2 ^ 64 - 1)) }
    ensures some { IfSome writer (IsNoted follows.old follows.new) }
    ensures none { IfNone writer (follows.new ≡ follows.old) }
{
    if let Some(writer) = writer {
        follows.note(writer);
    }
}

/// Takes a block that is needed, and notes the transaction that last wrote it. After an error all is as before.
pub(crate) fn take_block(
    cache: &Cache<ShowsTree>,
    pass: &mut Pass<ShowsTree>,
    taken: &mut Taken,
    follows: &mut Follows,
    block: BlockNo,
) -> Result<(), TakeFault>
    requires active { IsActive cache.now pass.old }
    requires within { block.0 < length cache.now.start }
    requires has { HasTaken cache.now.sizes pass.old taken.old follows.old }
    requires fresh { content_under taken.old block.0 ≡ None }
    requires root { content_under taken.old (root_block cache.now.sizes) ≡ None → block.0 ≡ root_block cache.now.sizes }
    ensures has { OnOk result (HasTaken cache.now.sizes pass.new taken.new follows.new) }
    ensures takes { OnOk result (TakesMore cache.now pass.old pass.new) }
    ensures held { OnOk result (holds pass.new block.0 ≡ true) }
    ensures only { OnOk result ((b : ℕ) → holds pass.new b ≡ true → (b ≡ block.0) ⊎ (holds pass.old b ≡ true)) }
    ensures knows { OnOk result (Knows cache.now pass.new) }
    ensures fewer { OnOk result (count_left taken.new (length cache.now.start) < count_left taken.old (length cache.now.start)) }
    ensures missed { IfErr result (IsMissed cache.now pass.old block.0) }
    ensures pass { OnErr result (pass.new ≡ pass.old) }
    ensures taken { OnErr result (taken.new ≡ taken.old) }
    ensures noted { OnErr result (follows.new ≡ follows.old) }
{
    if let Err(held) = cache.try_take(pass, block) {
        return Err(TakeFault::Busy {
            block: block.0,
            holder: held.holder,
        });
    }
    // The cache has at most 64 cores.
    let _cores = cache.cores();
    loaded_is_found();
    let mut content = Block::zero();
    let (_stamp, writer) = cache.load(pass, block, &mut content);
    match taken.add(block, &content) {
        Ok(()) => {
            note_writer(follows, writer);
            Ok(())
        }
        Err(_no_memory) => {
            cache.give(pass, block);
            Err(TakeFault::NoMemory)
        }
    }
}

/// The block that a call needs besides those that were taken, if it needs one.
fn needed(
    alloc: Global,
    sizes: &Sizes,
    call: &Call,
    taken: &Taken,
) -> Result<Option<BlockNo>, AllocError>
    requires { IsBegun sizes.now taken.now }
    ensures some { IfOk result (λ next. IfSome next (λ block. IsDue sizes.now taken.now call.now block.0)) }
    ensures none { IfOk result (λ next. IfNone next (IsPerformed sizes.now taken.now call.now)) }
{
    match perform(alloc, sizes, call, taken)? {
        Outcome::Need(block) => Ok(Some(block)),
        Outcome::Done { .. } => Ok(None),
        Outcome::Odd => unreachable!(),
    }
}

/// Takes the next block that the call of a handle needs, if it needs one. After an error all is as before.
pub(crate) fn take_next(
    alloc: Global,
    cache: &Cache<ShowsTree>,
    sizes: &Sizes,
    pass: &mut Pass<ShowsTree>,
    handle: &mut Handle,
) -> Result<Option<BlockNo>, TakeFault>
    requires active { IsActive cache.now pass.old }
    requires sizes { cache.now.sizes ≡ sizes.now }
    requires many { length cache.now.start ≡ sizes.now.blocks }
    requires has { HasTaken sizes.now pass.old handle.old.taken handle.old.follows }
    ensures has { HasTaken sizes.now pass.new handle.new.taken handle.new.follows }
    ensures call { handle.new.call ≡ handle.old.call }
    ensures took { IfOk result (λ next. IfSome next (λ block. TakesNext cache.now sizes.now pass.old pass.new handle.old.call block.0)) }
    ensures ready { IfOk result (λ next. IfNone next (NeedsNoMore sizes.now pass.old handle.old.call)) }
    ensures idle { IfOk result (λ next. IfNone next ((pass.new ≡ pass.old) × (handle.new ≡ handle.old))) }
    ensures cause { IfErr result (IsTakeCause cache.now sizes.now pass.old handle.old.call) }
    ensures pass { OnErr result (pass.new ≡ pass.old) }
    ensures handle { OnErr result (handle.new ≡ handle.old) }
{
    let Some(block) = needed(alloc, sizes, &handle.call, &handle.taken)? else {
        return Ok(None);
    };
    take_block(cache, pass, &mut handle.taken, &mut handle.follows, block)?;
    Ok(Some(block))
}

/// Takes all blocks that the call of a handle needs besides, and performs it. After an error the pass has what was taken by then.
pub(crate) fn take_all(
    alloc: Global,
    cache: &Cache<ShowsTree>,
    sizes: &Sizes,
    pass: &mut Pass<ShowsTree>,
    handle: &mut Handle,
) -> Result<(Reply, Written), TakeFault>
    requires active { IsActive cache.now pass.old }
    requires sizes { cache.now.sizes ≡ sizes.now }
    requires many { length cache.now.start ≡ sizes.now.blocks }
    requires has { HasTaken sizes.now pass.old handle.old.taken handle.old.follows }
    ensures has { HasTaken sizes.now pass.new handle.new.taken handle.new.follows }
    ensures call { handle.new.call ≡ handle.old.call }
    ensures takes { TakesMore cache.now pass.old pass.new }
    ensures foot { TakesFor sizes.now pass.old pass.new handle.old.call }
    ensures performs { IfOk result (λ done. Performs sizes.now handle.new.taken done.1 handle.old.call done.0) }
    ensures root { OnOk result (content_under handle.new.taken (root_block sizes.now) ≢ None) }
    ensures cause { IfErr result (IsTakeCause cache.now sizes.now pass.new handle.old.call) }
{
    loop {
        match perform(alloc, sizes, &handle.call, &handle.taken)? {
            Outcome::Need(block) => {
                take_block(cache, pass, &mut handle.taken, &mut handle.follows, block)?;
            }
            Outcome::Done { reply, written } => return Ok((reply, written)),
            Outcome::Odd => unreachable!(),
        }
    }
}

/// Makes room for new contents, and enters the history with them, as an operation of the running transaction. Gives all blocks back.
///
/// After an error nothing was done.
fn enter(
    cache: &Cache<ShowsTree>,
    pass: &mut Pass<ShowsTree>,
    running: &mut Running,
    handle: &Handle,
    written: &Written,
) -> Result<u64, RoomFault>
    requires active { IsActive cache.now pass.old }
    requires has { HasTaken cache.now.sizes pass.old handle.now.taken handle.now.follows }
    requires some { handle.now.taken ≢ [] }
    requires left { left_of pass.old ≢ 0 }
    requires small { running.old.number < 2 ^ 64 - 1 }
    requires handles { running.old.handles < 2 ^ 64 - 1 }
    requires within { (b : ℕ) → finmap.contains_key written.now b ≡ true → content_under handle.now.taken b ≢ None }
    requires keeps { KeepsTree cache.now.sizes handle.now.taken written.now }
    ensures draws { IfOk result (Draws cache.now pass.old pass.new written.now running.old.number) }
    ensures adds { IfOk result (λ ticket. IsAdded running.old running.new ticket written.now handle.now.follows) }
    ensures ascending { OnOk result (Ascends 0 running.new.parts) }
    ensures blocks { OnOk result (length running.new.parts ≤ MAX_RECORD_BLOCKS) }
    ensures cause { IfErr result (IsRoomCause running.old written.now) }
    ensures pass { OnErr result (pass.new ≡ pass.old) }
    ensures running { OnErr result (running.new ≡ running.old) }
{
    running.make_room(written)?;
    let ticket = finish(cache, pass, handle, written, running.number());
    running.add(ticket, written, &handle.follows);
    let _blocks = running.have();
    Ok(ticket)
}

/// Takes all blocks that the call of a handle needs besides, performs it, and enters the history. After an error the pass has what was
/// taken by then.
pub(crate) fn stop_handle(
    alloc: Global,
    cache: &Cache<ShowsTree>,
    sizes: &Sizes,
    pass: &mut Pass<ShowsTree>,
    running: &mut Running,
    handle: &mut Handle,
) -> Result<Done, StopFault>
    requires active { IsActive cache.now pass.old }
    requires sizes { cache.now.sizes ≡ sizes.now }
    requires many { length cache.now.start ≡ sizes.now.blocks }
    requires has { HasTaken sizes.now pass.old handle.old.taken handle.old.follows }
    requires left { left_of pass.old ≢ 0 }
    requires small { running.old.number < 2 ^ 64 - 1 }
    requires handles { running.old.handles < 2 ^ 64 - 1 }
    ensures done { IfOk result (Performed cache.now sizes.now running.old.number pass.old pass.new handle.old.call) }
    ensures joined { OnOk result (IsOneMore running.old running.new) }
    ensures adds { OnOk result (Joins sizes.now running.old running.new pass.old pass.new) }
    ensures has { OnErr result (HasTaken sizes.now pass.new handle.new.taken handle.new.follows) }
    ensures call { OnErr result (handle.new.call ≡ handle.old.call) }
    ensures takes { OnErr result (TakesMore cache.now pass.old pass.new) }
    ensures foot { OnErr result (TakesFor sizes.now pass.old pass.new handle.old.call) }
    ensures cause { IfErr result (IsStopCause cache.now sizes.now pass.new running.old handle.old.call) }
    ensures running { OnErr result (running.new ≡ running.old) }
{
    let (reply, written) = take_all(alloc, cache, sizes, pass, handle)?;
    sealed_is_frozen();
    let ticket = enter(cache, pass, running, handle, &written)?;
    Ok(Done { ticket, reply })
}

/// Stores new contents into blocks that are held.
pub(crate) fn store_all(cache: &Cache<ShowsTree>, pass: &mut Pass<ShowsTree>, written: &Written)
    requires active { IsActive cache.now pass.old }
    requires known { Has pass.old.view pass.old.core }
    requires clear { (mine pass.old).drawn ≡ false }
    requires read { (b : ℕ) (h : Hold) → finmap.get (mine pass.old).held b ≡ Some h → length h.loaded ≡ 67 }
    requires held { (b : ℕ) → finmap.contains_key written.now b ≡ true → holds pass.old b ≡ true }
    ensures { pass.new ≡ now_knowing pass.old (stored_into (mine pass.old) (finmap.entries written.now)) }
{
    for i in (0..written.len()).rev() {
        if let Some((block, content)) = written.at(i) {
            cache.store(pass, block, content);
        }
    }
}

/// Gives all blocks back that were taken.
pub(crate) fn give_all(cache: &Cache<ShowsTree>, pass: &mut Pass<ShowsTree>, taken: &Taken)
    requires active { IsActive cache.now pass.old }
    requires known { Has pass.old.view pass.old.core }
    requires held { (b : ℕ) → content_under taken.now b ≢ None → holds pass.old b ≡ true }
    requires done { ((mine pass.old).drawn ≡ true) ⊎ ((b : ℕ) (h : Hold) → finmap.get (mine pass.old).held b ≡ Some h → h.stored ≡ []) }
    ensures { pass.new ≡ now_knowing pass.old (given_back (mine pass.old) taken.now) }
{
    for i in (0..taken.len()).rev() {
        if let Some((block, _)) = taken.at(i) {
            cache.give(pass, block);
        }
    }
}

/// Enters the history with the new contents, and gives all blocks back. Answers the ticket.
pub(crate) fn finish(
    cache: &Cache<ShowsTree>,
    pass: &mut Pass<ShowsTree>,
    handle: &Handle,
    written: &Written,
    number: u64,
) -> u64
    requires active { IsActive cache.now pass.old }
    requires has { HasTaken cache.now.sizes pass.old handle.now.taken handle.now.follows }
    requires some { handle.now.taken ≢ [] }
    requires left { left_of pass.old ≢ 0 }
    requires small { number < 2 ^ 64 - 1 }
    requires within { (b : ℕ) → finmap.contains_key written.now b ≡ true → content_under handle.now.taken b ≢ None }
    requires keeps { KeepsTree cache.now.sizes handle.now.taken written.now }
    ensures draws { Draws cache.now pass.old pass.new written.now number result }
    ensures ticket { result < 2 ^ 38 }
{
    puts_are_one();
    let _contents = written.len();
    store_all(cache, pass, written);
    let ticket = cache.draw(pass, number);
    give_all(cache, pass, &handle.taken);
    ticket
}
