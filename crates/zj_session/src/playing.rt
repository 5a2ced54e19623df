//! Playing the lines of a schedule.

ghost use Rattle.std.specs.Prelude.{◌≡◌, ◌≤◌, ◌↔◌, ◌&&◌, ◌++◌, ℕ, [], IfOk, List, None, OnErr, OnOk, Some, drop, length, map, true};
ghost use Rattle.std.specs.List.{All};
ghost use Rattle.zj_script.specs.declared.answer.Answer.{Answer};
ghost use Rattle.zj_script.specs.declared.line.Line.{Line};
ghost use Rattle.zj_turns.specs.Passes.{left_of};
ghost use Rattle.zj_core.specs.Core.{IsOf};
ghost use Rattle.zj_session.specs.Logging.{is_fault};
ghost use Rattle.zj_session.specs.Played.{is_on};
ghost use Rattle.zj_session.specs.Playing.{AreIdle, HasPast, IsLowestFault, IsPlayable, JournalsGoOn, Past, PlaysLines, journals_of, resting};
ghost use Rattle.zj_session.specs.Service.{AreTogether};

use crate::answering::answer_line;
use crate::laws::{log_fits_further, logs_are_right};
use crate::service::Service;
use crate::transcript::Transcript;
use std::alloc::{AllocError, Global};
use zj_core::{Core, ShowsTree};
use zj_dev::{Device, Disk};
use zj_home::Home;
use zj_script::{Answer, Form, Line, Schedule, SyncForm};
use zj_turns::Cache;

/// Why playing ended early.
#[derive(Debug, PartialEq, Eq, Drop)]
pub enum Stopped {
    /// A device failed: a journal in a commit, or any device in a checkpoint.
    Device(Device),
    /// A checkpoint found a damaged journal.
    Damaged {
        /// The journal.
        device: Device,
        /// Where a record is due.
        at: u64,
        /// The number that stands there.
        found: u64,
        /// The number that is due.
        expected: u64,
    },
}

/// How playing ended.
#[derive(Debug, PartialEq, Eq, Drop)]
pub struct Ended {
    /// The journal of the lowest core whose commit failed, and `None` where none did.
    pub fault: Option<Stopped>,
}

/// Drops each handle that is open.
fn drop_all<D: Disk>(cache: &Cache<ShowsTree>, cores: &mut [Core<D>])
    requires { All (IsOf cache.now) cores.old }
    ensures { cores.new ≡ map resting cores.old }
{
    for core in cores {
        if core.open_handle() {
            core.drop_handle(cache);
        }
    }
}

/// Answers lines in order on the cores that they name. After `AllocError` the answers are those of the lines so far. Once each
/// handle that is open then is dropped, the cores rest between two schedules.
fn play_lines<D: Disk>(
    cache: &Cache<ShowsTree>,
    cores: &mut [Core<D>],
    lines: &[Line],
    out: &mut Transcript,
) -> Result<(), AllocError>
    requires together { AreTogether cache.now cores.old }
    requires playable { All (IsPlayable (length cores.old)) lines.now }
    requires left { All (λ c. length lines.now ≤ left_of c.pass) cores.old }
    requires idle { AreIdle cores.old }
    ensures plays { OnOk result ((past : Past) → HasPast D.view (record { cache = cache.now; cores = cores.old }) past → (answers : List Answer) × (out.new.answers ≡ out.old.answers ++ answers) × PlaysLines D.view (record { cache = cache.now; cores = cores.old }) (record { cache = cache.now; cores = map resting cores.new }) past lines.now [] answers) }
    ensures stops { OnErr result ((past : Past) → HasPast D.view (record { cache = cache.now; cores = cores.old }) past → (rest : List Line) × (answers : List Answer) × (out.new.answers ≡ out.old.answers ++ answers) × PlaysLines D.view (record { cache = cache.now; cores = cores.old }) (record { cache = cache.now; cores = map resting cores.new }) past lines.now rest answers) }
    ensures together { AreTogether cache.now cores.new }
    ensures journals { JournalsGoOn D.view (journals_of cores.old) (journals_of cores.new) }
{
    logs_are_right::<D>();
    log_fits_further();
    for line in lines {
        out.reserve()?;
        let core = line.core.unwrap();
        let form = answer_line(cache, cores, core as usize, &line.act)?;
        out.push(Answer {
            line: line.number,
            core: line.core,
            form,
        });
    }
    Ok(())
}

/// The core of a line whose commit failed, by its answer.
fn failed_core(answer: &Answer) -> Option<u32>
    ensures { (core : ℕ) → (result ≡ Some core) ↔ (is_on core answer.now.core && is_fault answer.now.form ≡ true) }
{
    match answer.form {
        Form::Sync(SyncForm::Fault { .. }) => answer.core,
        _ => None,
    }
}

/// The fault of the journal of the lowest core whose commit failed, by the answers from a place on.
fn lowest_fault(out: &Transcript, from: usize) -> Option<Stopped>
    ensures { IsLowestFault (drop from out.now.answers) result }
{
    let mut lowest: Option<u32> = None;
    for i in from..out.len() {
        let Some(answer) = out.at(i) else {
            unreachable!()
        };
        if let Some(core) = failed_core(answer) {
            lowest = Some(lowest.unwrap_or(core).min(core));
        }
    }
    Some(Stopped::Device(Device::Journal(lowest?)))
}

/// Plays a schedule: each line runs in order on its core, which knows what all cores know. It ends without committing what runs, and drops
/// the handles that are open then. Only commits make device calls, each on the journal of its core. A device fault of a core doesn't
/// end it: the core then answers `failed`, and the others go on.
///
/// After `AllocError` the answers are those of the lines so far, and no handle is open.
pub fn play<D: Disk>(
    _alloc: Global,
    service: &mut Service<D>,
    _home: &mut Home<D>,
    schedule: &Schedule,
    out: &mut Transcript,
) -> Result<Ended, AllocError>
    requires playable { All (IsPlayable (length service.old.cores)) schedule.now }
    requires left { All (λ c. length schedule.now ≤ left_of c.pass) service.old.cores }
    ensures plays { OnOk result ((past : Past) → HasPast D.view service.old past → (answers : List Answer) × (out.new.answers ≡ out.old.answers ++ answers) × PlaysLines D.view service.old service.new past schedule.now [] answers) }
    ensures ended { IfOk result (λ ended. IsLowestFault (drop (length out.old.answers) out.new.answers) ended.fault) }
    ensures stops { OnErr result ((past : Past) → HasPast D.view service.old past → (rest : List Line) × (answers : List Answer) × (out.new.answers ≡ out.old.answers ++ answers) × PlaysLines D.view service.old service.new past schedule.now rest answers) }
    ensures cache { service.new.cache ≡ service.old.cache }
    ensures journals { JournalsGoOn D.view (journals_of service.old.cores) (journals_of service.new.cores) }
    ensures home { _home.new ≡ _home.old }
{
    let from = out.len();
    let Service { cache, cores, .. } = service;
    let cores = cores.as_mut_slice();
    let played = play_lines(cache, cores, schedule.as_slice(), out);
    drop_all(cache, cores);
    played?;
    Ok(Ended {
        fault: lowest_fault(out, from),
    })
}
