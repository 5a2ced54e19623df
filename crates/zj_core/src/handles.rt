//! A core and its handle.

ghost use Rattle.std.specs.Prelude.{[], ◌≡◌, ◌≢◌, IfErr, IfNone, IfOk, IfSome, IsOk, IsSome, None, OnErr, OnOk, Some, is_some, length, true, false};
ghost use Rattle.std.specs.FinMap as finmap;
ghost use Rattle.zj_turns.specs.Passes.{IsIdle, IsPeer, left_of, mine, now_knowing, with_away, with_view};
ghost use Rattle.zj_turns.specs.Views.{joined, without};
ghost use Rattle.zj_tx.specs.Running.{empty_transaction};
ghost use Rattle.zj_core.specs.declared.fault.CommitFault.TheVariants as commits;
ghost use Rattle.zj_core.specs.Committing.{AnswersCommit};
ghost use Rattle.zj_core.specs.Core.{IsBeginCause, IsCallCause, IsOf, IsOneMore, IsReadyToCommit, IsSteady, IsStopCause, IsTakeCause, MayBegin, NeedsNoMore, Performed, TakesNext, number_of};
ghost use Rattle.zj_core.specs.Handle.{TakesFor};
ghost use Rattle.zj_core.specs.Steps.{TakesMore, emptied};

use crate::committing::write_record;
use crate::fault::{BeginFault, CallFault, CommitFault, StopFault, TakeFault};
use crate::shows::ShowsTree;
use crate::steps::{Handle, give_all, stop_handle, take_next};
use std::alloc::Global;
use std::marker::Model;
use zj_area::Area;
use zj_block::{BlockNo, Sizes};
use zj_dev::Disk;
use zj_tree::{Call, Reply};
use zj_turns::{Cache, Pass};
use zj_tx::Running;
use zj_tx::laws::{noted_are_bounds, sealed_is_frozen};

/// What a call was answered that entered the history.
#[derive(Debug, PartialEq, Eq, Drop)]
pub struct Done {
    /// The ticket of its operation: its place in the history.
    pub ticket: u64,
    /// What the call answers.
    pub reply: Reply,
}

/// The parts of a core that there was no memory for, given back.
#[derive(Drop)]
pub struct CoreRefused<D: Disk> {
    /// The pass.
    pub pass: Pass<ShowsTree>,
    /// The journal.
    pub area: Area<D>,
}

/// One core: its pass of the cache, its journal, the handle that is open, if one is, and its running transaction.
#[derive(Drop)]
pub struct Core<D: Disk> {
    alloc: Global,
    pass: Pass<ShowsTree>,
    area: Area<D>,
    sizes: Sizes,
    handle: Option<Handle>,
    running: Running,
}

impl<D: Disk> Model for Core<D> {
    ghost use Rattle.std.specs.Coded.{codes};
    ghost use Rattle.std.specs.Option.{option_map};
    ghost use Rattle.zj_turns.specs.Passes.{pass_state_code};
    ghost use Rattle.zj_core.specs.Core.{CoreState, IsCore};

    ghost Value = { CoreState D };

    ghost coded = { Prim.hlevel (codes, pass_state_code) };

    ghost view = { λ c. record { pass = c.pass; area = c.area; sizes = c.sizes; begun = option_map (λ h. h.call) c.handle; running = c.running } };

    ghost invariant = { λ c. IsCore (record { pass = c.pass; area = c.area; sizes = c.sizes; begun = option_map (λ h. h.call) c.handle; running = c.running }) c.handle };
}

impl<D: Disk> Core<D> {
    /// The core of a pass of which nothing is held and a journal that is ready, for an image of these sizes.
    ///
    /// It takes no memory yet, and so it always answers Ok; where it will, the error gives both back.
    pub fn new(
        alloc: Global,
        pass: Pass<ShowsTree>,
        area: Area<D>,
        sizes: &Sizes,
    ) -> Result<Core<D>, CoreRefused<D>>
        requires idle { IsIdle pass.table pass.core pass }
        requires core { area.core ≡ pass.core }
        requires sizes { area.sizes ≡ sizes.now }
        requires ready { IsReadyToCommit area }
        requires none { (mine pass).operations ≡ [] }
        ensures made { IsOk result }
        ensures ok { IfOk result (λ core. core ≡ record { pass = pass; area = area; sizes = sizes.now; begun = None; running = empty_transaction pass.core sizes.now.cores area.end.number }) }
    {
        noted_are_bounds();
        sealed_is_frozen();
        let running = Running::new(alloc, area.core(), sizes.cores(), area.end().number);
        Ok(Core {
            alloc,
            pass,
            area,
            sizes: *sizes,
            handle: None,
            running,
        })
    }

    /// The core.
    pub fn core(&self) -> u32
        ensures { result ≡ self.now.pass.core }
    {
        self.pass.core()
    }

    /// Whether a handle is open. Between two calls a core has drawn for nothing that it holds.
    pub fn open_handle(&self) -> bool
        ensures open { result ≡ is_some self.now.begun }
        ensures steady { IsSteady self.now }
    {
        self.handle.is_some()
    }

    /// Whether the core is away in another, which has met it.
    pub fn away(&self) -> bool
        ensures { result ≡ self.now.pass.away }
    {
        self.pass.away()
    }

    /// How often the core may still draw a ticket.
    pub fn left(&self) -> u64
        ensures { result ≡ left_of self.now.pass }
    {
        self.pass.left()
    }

    /// The number of its running transaction.
    pub fn number(&self) -> u64
        ensures { result ≡ number_of self.now }
    {
        self.running.number()
    }

    /// How many operations its running transaction has.
    pub fn handles(&self) -> u64
        ensures { result ≡ self.now.running.handles }
    {
        self.running.handles()
    }

    /// Whether a commit of it has failed. It then goes on failing until the image is mounted again.
    pub fn failed(&self) -> bool
        ensures { result ≡ self.now.area.failed }
    {
        self.area.failed()
    }

    /// Refuses where no handle may be begun.
    fn may_begin(&self) -> Result<(), BeginFault>
        ensures may { OnOk result (MayBegin self.now) }
        ensures cause { IfErr result (IsBeginCause self.now) }
    {
        if self.area.failed() {
            return Err(BeginFault::Failed {
                core: self.pass.core(),
            });
        }
        if self.pass.left() == 0 {
            return Err(BeginFault::Spent {
                drawn: u64::from(u32::MAX),
            });
        }
        if self.running.handles() > 0 {
            return Ok(());
        }
        Ok(self.area.fits_one()?)
    }

    /// Begins a handle for a call. It takes no block yet.
    ///
    /// `Failed` comes exactly where a commit of the core has failed; else `Spent` exactly where it has no draw left; else `JournalFull`
    /// exactly where its running transaction has no operation and a longest record has no room in its journal; unless memory runs
    /// out. After an error all is as before.
    pub fn begin(&mut self, call: &Call) -> Result<(), BeginFault>
        requires idle { self.old.begun ≡ None }
        ensures begun { OnOk result (self.new ≡ record self.old { begun = Some call.now }) }
        ensures may { OnOk result (MayBegin self.old) }
        ensures cause { IfErr result (IsBeginCause self.old) }
        ensures err { OnErr result (self.new ≡ self.old) }
    {
        self.may_begin()?;
        self.handle = Some(Handle::new(self.alloc, call)?);
        Ok(())
    }

    /// Takes the next block that the call of the open handle needs, and tells it. `None` where it needs no more.
    ///
    /// `Busy` tells a block that it needs and the core that has it. After an error all is as before.
    pub fn take(&mut self, cache: &Cache<ShowsTree>) -> Result<Option<BlockNo>, TakeFault>
        requires of { IsOf cache.now self.old }
        requires open { IsSome self.old.begun }
        ensures took { IfOk result (λ next. IfSome next (λ block. IfSome self.old.begun (λ call. TakesNext cache.now self.old.sizes self.old.pass self.new.pass call block.0))) }
        ensures ready { IfOk result (λ next. IfNone next (IfSome self.old.begun (NeedsNoMore self.old.sizes self.old.pass))) }
        ensures idle { IfOk result (λ next. IfNone next (self.new ≡ self.old)) }
        ensures only { self.new ≡ record self.old { pass = self.new.pass } }
        ensures cause { IfErr result (λ fault. IfSome self.old.begun (λ call. IsTakeCause cache.now self.old.sizes self.old.pass call fault)) }
        ensures err { OnErr result (self.new ≡ self.old) }
    {
        let Some(handle) = &mut self.handle else {
            unreachable!()
        };
        take_next(self.alloc, cache, &self.sizes, &mut self.pass, handle)
    }

    /// Takes what the call of the open handle needs besides, stores its new contents, draws its ticket, gives all blocks back, and adds
    /// the operation to the running transaction. No handle is open then.
    ///
    /// `TxFull` comes exactly where nothing more is needed, and with the new blocks the running transaction would have more than 48. After
    /// an error the handle stays open with what it took, and all else is as before.
    pub fn stop(&mut self, cache: &Cache<ShowsTree>) -> Result<Done, StopFault>
        requires of { IsOf cache.now self.old }
        requires open { IsSome self.old.begun }
        ensures done { IfOk result (λ done. IfSome self.old.begun (λ call. Performed cache.now self.old.sizes (number_of self.old) self.old.pass self.new.pass call done)) }
        ensures closed { OnOk result (self.new ≡ record self.old { pass = self.new.pass; begun = None; running = self.new.running }) }
        ensures joined { OnOk result (IsOneMore self.old.running self.new.running) }
        ensures cause { IfErr result (λ fault. IfSome self.old.begun (λ call. IsStopCause cache.now self.old.sizes self.new.pass self.old.running call fault)) }
        ensures takes { OnErr result (TakesMore cache.now self.old.pass self.new.pass) }
        ensures foot { OnErr result (IfSome self.old.begun (TakesFor self.old.sizes self.old.pass self.new.pass)) }
        ensures stays { OnErr result (self.new ≡ record self.old { pass = self.new.pass }) }
    {
        let Some(mut handle) = self.handle.take() else {
            unreachable!()
        };
        noted_are_bounds();
        let _end = self.area.end();
        match stop_handle(
            self.alloc,
            cache,
            &self.sizes,
            &mut self.pass,
            &mut self.running,
            &mut handle,
        ) {
            Ok(done) => Ok(done),
            Err(fault) => {
                self.handle = Some(handle);
                Err(fault)
            }
        }
    }

    /// Gives the blocks of the open handle back, as they were. No handle is open then. It takes no memory.
    pub fn drop_handle(&mut self, cache: &Cache<ShowsTree>)
        requires of { IsOf cache.now self.old }
        requires open { IsSome self.old.begun }
        ensures { self.new ≡ record self.old { pass = now_knowing self.old.pass (emptied (mine self.old.pass)); begun = None } }
    {
        noted_are_bounds();
        if let Some(handle) = self.handle.take() {
            give_all(cache, &mut self.pass, &handle.taken);
        }
    }

    /// Makes a call: begins a handle and stops it.
    ///
    /// After an error no handle is open, and all is as before.
    pub fn call(&mut self, cache: &Cache<ShowsTree>, call: &Call) -> Result<Done, CallFault>
        requires of { IsOf cache.now self.old }
        requires idle { self.old.begun ≡ None }
        ensures done { IfOk result (Performed cache.now self.old.sizes (number_of self.old) self.old.pass self.new.pass call.now) }
        ensures closed { OnOk result (self.new ≡ record self.old { pass = self.new.pass; running = self.new.running }) }
        ensures joined { OnOk result (IsOneMore self.old.running self.new.running) }
        ensures may { OnOk result (MayBegin self.old) }
        ensures cause { IfErr result (IsCallCause cache.now self.old call.now) }
        ensures err { OnErr result (self.new ≡ self.old) }
    {
        // What the core keeps is known from here on.
        let _ = &self.alloc;
        self.begin(call)?;
        match self.stop(cache) {
            Ok(done) => Ok(done),
            Err(fault) => {
                self.drop_handle(cache);
                Err(fault.into())
            }
        }
    }

    /// Takes in what another core knows, which is then away in this one. It takes no memory.
    pub fn meet(&mut self, cache: &Cache<ShowsTree>, other: &mut Core<D>)
        requires of { IsOf cache.now self.old }
        requires peer { IsPeer self.old.pass other.old.pass false }
        ensures met { self.new ≡ record self.old { pass = with_view self.old.pass (joined self.old.pass.view other.old.pass.view) } }
        ensures other { other.new ≡ record other.old { pass = with_away other.old.pass true } }
        ensures peer { IsPeer self.new.pass other.new.pass true }
    {
        cache.meet(&mut self.pass, &mut other.pass);
    }

    /// Gives another core back what is known of it. It is then as it was before it was met. It takes no memory.
    pub fn part(&mut self, cache: &Cache<ShowsTree>, other: &mut Core<D>)
        requires of { IsOf cache.now self.old }
        requires peer { IsPeer self.old.pass other.old.pass true }
        ensures parted { self.new ≡ record self.old { pass = with_view self.old.pass (without self.old.pass.view other.old.pass.core) } }
        ensures other { other.new ≡ record other.old { pass = with_away other.old.pass false } }
        ensures peer { IsPeer self.new.pass other.new.pass false }
    {
        cache.part(&mut self.pass, &mut other.pass);
    }

    /// Commits the running transaction: seals it, lays its record in the journal with the gate closed, and opens the gate. It makes two
    /// writes and two syncs, and one more write of a byte, all on its own journal; it takes no memory, and waits for no other core.
    ///
    /// `Failed` comes exactly where an earlier commit has failed, else `Empty` exactly where the transaction has no operation; the core is
    /// then as before. After `DiskFault` the transaction is sealed all the same, and the core has failed: its record may be found by a later
    /// mount, or not.
    pub fn commit(&mut self) -> Result<u64, CommitFault>
        requires idle { self.old.begun ≡ None }
        ensures { AnswersCommit D.view self.old self.new result }
    {
        if self.area.failed() {
            return Err(CommitFault::Failed {
                core: self.pass.core(),
            });
        }
        if self.running.handles() == 0 {
            return Err(CommitFault::Empty);
        }
        sealed_is_frozen();
        let _journal = (self.area.core(), self.area.end());
        let sealed = self.running.seal();
        Ok(write_record(&mut self.area, &sealed)?)
    }

    /// The pass and the journal, once no handle is open. What runs uncommitted is dropped.
    pub fn close(self) -> (Pass<ShowsTree>, Area<D>)
        requires { self.begun ≡ None }
        ensures { result ≡ (self.pass, self.area) }
    {
        (self.pass, self.area)
    }
}
