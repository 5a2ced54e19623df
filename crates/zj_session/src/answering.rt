//! What a line is answered on its core.

ghost use Rattle.std.specs.Prelude.{◌≡◌, ◌≢◌, ◌⊎◌, ◌<◌, IfOk, IfSome, IsSome, OnErr, OnOk, None, Some, length, slice_get};
ghost use Rattle.zj_script.specs.declared.line.Act.TheVariants as acts;
ghost use Rattle.zj_script.specs.declared.answer.Form.TheVariants as forms;
ghost use Rattle.zj_turns.specs.Passes.{CacheParameters, left_of};
ghost use Rattle.zj_turns.specs.Views.{Has};
ghost use Rattle.zj_core.specs.Core.{CoreState, IsOf, IsSteady};
ghost use Rattle.zj_session.specs.Answering.{DeviceGoesOn, Does, DoesIdle, DoesOpen, IsAnswered, IsHandled, IsLeftOff, OnlyOwn, without_handle};
ghost use Rattle.zj_session.specs.Playing.{JournalsGoOn, journals_of};
ghost use Rattle.zj_session.specs.Service.{AreTogether};

use crate::gathering::{meet_all, part_all};
use std::alloc::AllocError;
use zj_core::{BeginFault, CallFault, CommitFault, Core, Done, ShowsTree, StopFault, TakeFault};
use zj_dev::{Device, Disk};
use zj_script::{Act, Form, SyncForm};
use zj_tree::Call;
use zj_turns::Cache;

/// Answers an act on its core, which knows what all cores know. `AllocError` leaves the core as it was, or drops
/// the handle that was open.
fn answer_act<D: Disk>(
    cache: &Cache<ShowsTree>,
    core: &mut Core<D>,
    act: &Act,
) -> Result<Form, AllocError>
    requires of { IsOf cache.now core.old }
    requires known { Has core.old.pass.view core.old.pass.core }
    requires handled { IsHandled act.now }
    requires left { left_of core.old.pass ≢ 0 }
    ensures does { IfOk result (Does D.view cache.now core.old core.new core.old.begun act.now) }
    ensures only { OnlyOwn core.old core.new }
    ensures device { DeviceGoesOn D.view core.old core.new }
    ensures err { OnErr result ((core.new ≡ core.old) ⊎ (core.new ≡ without_handle core.old)) }
{
    if core.open_handle() {
        answer_open(cache, core, act)
    } else {
        answer_idle(cache, core, act)
    }
}

/// Answers an act on a core that has no handle.
fn answer_idle<D: Disk>(
    cache: &Cache<ShowsTree>,
    core: &mut Core<D>,
    act: &Act,
) -> Result<Form, AllocError>
    requires of { IsOf cache.now core.old }
    requires known { Has core.old.pass.view core.old.pass.core }
    requires idle { core.old.begun ≡ None }
    requires handled { IsHandled act.now }
    requires left { left_of core.old.pass ≢ 0 }
    ensures does { IfOk result (DoesIdle D.view cache.now core.old core.new act.now) }
    ensures only { OnlyOwn core.old core.new }
    ensures device { DeviceGoesOn D.view core.old core.new }
    ensures err { OnErr result (core.new ≡ core.old) }
{
    match act {
        Act::Call(call) => make_call(cache, core, call),
        Act::Begin(call) => begin(core, call),
        Act::Commit => Ok(commit(core)),
        _ => Ok(Form::Order),
    }
}

/// Answers an act on a core whose handle is open. `AllocError` leaves it open, or drops it.
fn answer_open<D: Disk>(
    cache: &Cache<ShowsTree>,
    core: &mut Core<D>,
    act: &Act,
) -> Result<Form, AllocError>
    requires of { IsOf cache.now core.old }
    requires known { Has core.old.pass.view core.old.pass.core }
    requires open { IsSome core.old.begun }
    requires handled { IsHandled act.now }
    ensures does { IfOk result (λ form. IfSome core.old.begun (λ call. DoesOpen cache.now core.old core.new call act.now form)) }
    ensures only { OnlyOwn core.old core.new }
    ensures device { DeviceGoesOn D.view core.old core.new }
    ensures err { OnErr result ((core.new ≡ core.old) ⊎ (core.new ≡ without_handle core.old)) }
{
    match act {
        Act::Take => take(cache, core),
        Act::Stop => stop(cache, core),
        Act::Drop => {
            core.drop_handle(cache);
            Ok(Form::Dropped)
        }
        _ => Ok(Form::Order),
    }
}

/// Makes a call on a core that has no handle.
fn make_call<D: Disk>(
    cache: &Cache<ShowsTree>,
    core: &mut Core<D>,
    call: &Call,
) -> Result<Form, AllocError>
    requires of { IsOf cache.now core.old }
    requires known { Has core.old.pass.view core.old.pass.core }
    requires idle { core.old.begun ≡ None }
    requires left { left_of core.old.pass ≢ 0 }
    ensures does { IfOk result (DoesIdle D.view cache.now core.old core.new (acts.Call call.now)) }
    ensures only { OnlyOwn core.old core.new }
    ensures device { DeviceGoesOn D.view core.old core.new }
    ensures err { OnErr result (core.new ≡ core.old) }
{
    match core.call(cache, call) {
        Ok(Done { ticket, reply }) => Ok(Form::Drew { ticket, reply }),
        Err(CallFault::Busy { block, holder }) => Ok(Form::Busy { block, holder }),
        Err(CallFault::TxFull { have, more }) => Ok(Form::TxFull { have, more }),
        Err(CallFault::JournalFull { need, free }) => Ok(Form::Full { need, free }),
        Err(CallFault::Failed { core }) => Ok(Form::Sync(SyncForm::Failed { core })),
        Err(CallFault::Spent { .. }) => unreachable!(),
        Err(CallFault::NoMemory) => Err(AllocError),
    }
}

/// Begins a handle on a core that has none.
fn begin<D: Disk>(core: &mut Core<D>, call: &Call) -> Result<Form, AllocError>
    requires known { Has core.old.pass.view core.old.pass.core }
    requires idle { core.old.begun ≡ None }
    requires left { left_of core.old.pass ≢ 0 }
    ensures does { (cache : CacheParameters) → IfOk result (DoesIdle D.view cache core.old core.new (acts.Begin call.now)) }
    ensures only { OnlyOwn core.old core.new }
    ensures device { DeviceGoesOn D.view core.old core.new }
    ensures err { OnErr result (core.new ≡ core.old) }
{
    match core.begin(call) {
        Ok(()) => Ok(Form::Begun),
        Err(BeginFault::Failed { core }) => Ok(Form::Sync(SyncForm::Failed { core })),
        Err(BeginFault::JournalFull { need, free }) => Ok(Form::Full { need, free }),
        Err(BeginFault::Spent { .. }) => unreachable!(),
        Err(BeginFault::NoMemory) => Err(AllocError),
    }
}

/// Commits the running transaction of a core that has no handle. It takes no memory.
fn commit<D: Disk>(core: &mut Core<D>) -> Form
    requires known { Has core.old.pass.view core.old.pass.core }
    requires idle { core.old.begun ≡ None }
    ensures does { (cache : CacheParameters) → DoesIdle D.view cache core.old core.new acts.Commit result }
    ensures only { OnlyOwn core.old core.new }
    ensures device { DeviceGoesOn D.view core.old core.new }
{
    match core.commit() {
        Ok(number) => Form::Committed { number },
        Err(CommitFault::Empty) => Form::Empty,
        Err(CommitFault::Failed { core }) => Form::Sync(SyncForm::Failed { core }),
        Err(CommitFault::DiskFault) => Form::Sync(SyncForm::Fault {
            device: Device::Journal(core.core()),
        }),
    }
}

/// Takes the next block that the open handle needs.
fn take<D: Disk>(cache: &Cache<ShowsTree>, core: &mut Core<D>) -> Result<Form, AllocError>
    requires of { IsOf cache.now core.old }
    requires known { Has core.old.pass.view core.old.pass.core }
    requires open { IsSome core.old.begun }
    ensures does { IfOk result (λ form. IfSome core.old.begun (λ call. DoesOpen cache.now core.old core.new call acts.Take form)) }
    ensures only { OnlyOwn core.old core.new }
    ensures device { DeviceGoesOn D.view core.old core.new }
    ensures err { OnErr result (core.new ≡ core.old) }
{
    match core.take(cache) {
        Ok(Some(block)) => Ok(Form::Took { block: block.0 }),
        Ok(None) => Ok(Form::Ready),
        Err(TakeFault::Busy { block, holder }) => Ok(Form::Busy { block, holder }),
        Err(TakeFault::NoMemory) => Err(AllocError),
    }
}

/// Stops the open handle. `AllocError` drops it.
fn stop<D: Disk>(cache: &Cache<ShowsTree>, core: &mut Core<D>) -> Result<Form, AllocError>
    requires of { IsOf cache.now core.old }
    requires open { IsSome core.old.begun }
    ensures does { IfOk result (λ form. IfSome core.old.begun (λ call. DoesOpen cache.now core.old core.new call acts.Stop form)) }
    ensures only { OnlyOwn core.old core.new }
    ensures device { DeviceGoesOn D.view core.old core.new }
    ensures err { OnErr result (core.new ≡ without_handle core.old) }
{
    match core.stop(cache) {
        Ok(Done { ticket, reply }) => Ok(Form::Drew { ticket, reply }),
        Err(StopFault::Busy { block, holder }) => Ok(Form::Busy { block, holder }),
        Err(StopFault::TxFull { have, more }) => Ok(Form::TxFull { have, more }),
        Err(StopFault::NoMemory) => {
            core.drop_handle(cache);
            Err(AllocError)
        }
    }
}

/// Answers an act on the core at a place: it meets all others, and parts from each once the act is done. Only a commit makes device calls,
/// on the core's own journal.
///
/// `AllocError` leaves the cores as they were, or a handle that was open there is dropped.
pub fn answer_line<D: Disk>(
    cache: &Cache<ShowsTree>,
    cores: &mut [Core<D>],
    at: usize,
    act: &Act,
) -> Result<Form, AllocError>
    requires together { AreTogether cache.now cores.old }
    requires below { at < length cores.old }
    requires handled { IsHandled act.now }
    requires left { (core : CoreState D) → slice_get cores.old at ≡ Some core → left_of core.pass ≢ 0 }
    ensures answered { IfOk result (IsAnswered D.view cache.now cores.old cores.new at act.now) }
    ensures steady { (core : CoreState D) → slice_get cores.new at ≡ Some core → IsSteady core }
    ensures journals { JournalsGoOn D.view (journals_of cores.old) (journals_of cores.new) }
    ensures err { OnErr result (IsLeftOff cores.old cores.new at) }
{
    let (front, rest) = cores.split_at_mut(at);
    let Some((core, back)) = rest.split_first_mut() else {
        unreachable!()
    };
    meet_all(cache, core, front);
    meet_all(cache, core, back);
    let form = answer_act(cache, core, act);
    part_all(cache, core, front);
    part_all(cache, core, back);
    let _open = core.open_handle();
    form
}
