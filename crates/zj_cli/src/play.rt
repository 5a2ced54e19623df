//! `play`: the lines of a schedule in order, each on its core.

ghost use Rattle.std.specs.Prelude.{◌≡◌, ◌⊎◌, ◌<◌, ◌≤◌, ℕ, List, [], IfErr, IfOk, IsErr, OnOk, length, slice_get, ◌∷◌, map};
ghost use Rattle.std.specs.List.{All, flat_map};
ghost use Rattle.std.specs.Option.{option_map};
ghost use Rattle.std.specs.Result.{result_err};
ghost use Rattle.std.specs.Vec.{vec_capacity};
ghost use Rattle.zj_dev.specs.Disk.{IsSettled};
ghost use Rattle.zj_dev.specs.Shelf.{ShelfView};
ghost use Rattle.zj_tree.specs.Tree.{FileTree};
ghost use Rattle.zj_layout.specs.Image.{State};
ghost use Rattle.zj_script.specs.Answers.{answer_text};
ghost use Rattle.zj_mount.specs.declared.fault.MountFault.{MountFault};
ghost use Rattle.zj_mount.specs.Mounting.{AreInOrder, HasTree, IsMountCause};
ghost use Rattle.zj_mount.specs.Opening.{AllOpened};
ghost use Rattle.zj_mount.specs.Recovered.{empty_from};
ghost use Rattle.zj_mount.specs.Scanning.{AreReady};
ghost use Rattle.zj_mount.specs.Settling.{AreSettled, RestEmpty, Settles};
ghost use Rattle.zj_script.specs.Script.{IsSchedule};
ghost use Rattle.zj_turns.specs.Passes.{left_of};
ghost use Rattle.zj_session.specs.Playing.{HasPast, IsPlayable, JournalsGoOn, Past, PlaysLines, journals_of};
ghost use Rattle.zj_cli.specs.Asked.{AreBuilt};
ghost use Rattle.zj_dev.specs.declared.span.Span.{Span};
ghost use Rattle.zj_script.specs.declared.answer.Answer.{Answer};
ghost use Rattle.zj_script.specs.declared.line.Line.{Line};
ghost use Rattle.zj_cli.specs.declared.phase.Phase.{Phase};
ghost use Rattle.zj_cli.specs.Faults.{fault_of_mounting};
ghost use Rattle.zj_cli.specs.Phases.{AreOf, ArePhases, DevicesGoOn, HasRound, JournalFails, spans_in};
ghost use Rattle.zj_cli.specs.Play.{IsInputCause, LeavesCuts, ReadsInput, RoundEnds, RunsPlay, ScriptEnds};
ghost use Rattle.zj_cli.specs.Tool as tool;
ghost use Rattle.zj_cli.specs.Tool.{IsBeforeWriting};

use crate::asked::read_built;
use crate::phase::{Phase, PhaseKind, moments};
use crate::status::Fault;
use crate::stream::{read_whole, write_whole};
use std::alloc::{AllocError, Global};
use zj_dev::{Disk, Shelf, Sink, Source};
use zj_home::Home;
use zj_mount::{Areas, Recovered, Set, close_all, mount, open_all};
use zj_script::{Schedule, write_answer};
use zj_session::laws::{fit_is_run, round_recovers};
use zj_session::{Service, Transcript, play as play_lines};
use zj_tree::Bytes;

/// Reads a schedule, plays it over the image on a shelf, and writes the answers. Commits are written to the journals; home is only read
/// and synced. All that it opened is closed again.
///
/// The phases are told behind those that are there: a mount, once the image was opened, and a round, once the lines were begun.
///
/// The first fault in this order counts: opening, settling and reading the devices, the input, the schedule, commits, writing to `out`,
/// closing.
pub fn play<H: Shelf, S: Source, K: Sink>(
    alloc: Global,
    shelf: &mut H,
    input: &mut S,
    out: &mut K,
    phases: &mut Vec<Phase>,
) -> Result<(), Fault>
    requires none { phases.old.items ≡ [] }
    ensures runs { RunsPlay
        (record { left = S.left input.old; held = K.held out.old; names = H.names shelf.old; input_faults = S.faults input.old; output_faults = K.faults out.old; shelf_faults = H.faults shelf.old })
        (record { left = S.left input.new; held = K.held out.new; names = H.names shelf.new; input_faults = S.faults input.new; output_faults = K.faults out.new; shelf_faults = H.faults shelf.new })
        phases.new.items
        (result_err result) }
    ensures unwritten { IfErr result (λ fault. IsBeforeWriting tool.Play fault → out.new ≡ out.old) }
{
    phases.reserve(2)?;
    let Set { mut home, areas } = open_all(alloc, shelf)?;
    let (areas, played) = play_set(alloc, &mut home, areas, input, out, phases);
    let closed = close_all(shelf, Set { home, areas }).map_err(Fault::from);
    played.and(closed)
}

/// Plays a schedule from the tree on that an image shows which was opened. Gives the journals back.
fn play_set<D: Disk, S: Source, K: Sink>(
    alloc: Global,
    home: &mut Home<D>,
    mut areas: Areas<D>,
    input: &mut S,
    out: &mut K,
    phases: &mut Vec<Phase>,
) -> (Areas<D>, Result<(), Fault>)
    requires in_order { AreInOrder home.old.told areas.areas }
    requires opened { AllOpened home.old.told areas.areas }
    requires none { phases.old.items ≡ [] }
    requires room { 2 ≤ vec_capacity phases.old }
    ensures told { home.new.told ≡ home.old.told }
    ensures home { Settles (D.view home.old.device) (D.view home.new.device) }
    ensures journals { DevicesGoOn D.view areas.areas result.0.areas }
    ensures phases { ArePhases home.old.told.sizes.cores (AreOf D.view home.new.device result.0.areas) phases.new.items }
    ensures ends { ((start : State) × (tree : FileTree) × HasTree D.view home.old.told home.old.device areas.areas start tree
        × ((names now : ShelfView) (faults since : ℕ) → ScriptEnds home.old.told start tree (AreOf D.view home.new.device result.0.areas) (HasRound phases.new.items) (JournalFails D.view areas.areas result.0.areas)
        (record { left = S.left input.old; held = K.held out.old; names = names; input_faults = S.faults input.old; output_faults = K.faults out.old; shelf_faults = faults })
        (record { left = S.left input.new; held = K.held out.new; names = now; input_faults = S.faults input.new; output_faults = K.faults out.new; shelf_faults = since })
        (result_err result.1)))
        ⊎ (IfErr result.1 (λ fault. (told : MountFault) × (fault ≡ fault_of_mounting told) × IsMountCause D.view home.old.told home.old.device home.new.device areas.areas result.0.areas told) × (IsErr result.1) × (input.new ≡ input.old) × (out.new ≡ out.old) × (length phases.new.items ≡ 1)) }
    ensures begins { (first : Phase) (later : List Phase) → phases.new.items ≡ first ∷ later → map (λ s. s.from) (spans_in first) ≡ map (λ d. d.calls) (D.view home.old.device ∷ map (λ a. D.view a.device) areas.areas) }
    ensures cuts { (spans : List Span) → HasRound phases.new.items spans → (start : State) × (tree : FileTree) × HasTree D.view home.old.told home.old.device areas.areas start tree × LeavesCuts home.old.told start tree (AreOf D.view home.new.device result.0.areas) (S.left input.old) (S.left input.new) spans }
    ensures unwritten { IfErr result.1 (λ fault. IsBeforeWriting tool.Play fault → out.new ≡ out.old) }
{
    fit_is_run();
    round_recovers::<D>();
    has_tails(home);
    let devices = areas.len() as u32 + 1;
    let opened = moments(home, &mut areas);
    let prepared = prepare(alloc, home, &mut areas, input);
    let ready = moments(home, &mut areas);
    phases.push_reserved(Phase::new(PhaseKind::Mount, devices, &opened, &ready));
    let (recovered, schedule) = match prepared {
        Ok(prepared) => prepared,
        Err(fault) => return (areas, Err(fault)),
    };
    match Service::start(alloc, &recovered, areas) {
        Ok(mut service) => {
            let played = play_round(alloc, &mut service, home, &schedule, out);
            let mut areas = service.end();
            let ended = moments(home, &mut areas);
            phases.push_reserved(Phase::new(PhaseKind::Round, devices, &ready, &ended));
            (areas, played)
        }
        Err(areas) => (areas, Err(Fault::Memory)),
    }
}

/// An image has a tail for each core.
fn has_tails<D: Disk>(home: &Home<D>)
    ensures { length home.now.told.tails ≡ home.now.told.sizes.cores }
{
    let _first = home.tail(0);
}

/// Mounts an image that was opened, and reads a schedule for its cores.
fn prepare<D: Disk, S: Source>(
    alloc: Global,
    home: &mut Home<D>,
    areas: &mut Areas<D>,
    input: &mut S,
) -> Result<(Recovered, Schedule), Fault>
    requires { AreInOrder home.old.told areas.old.areas }

    // What was mounted.
    ensures sizes { IfOk result (λ prepared. prepared.0.sizes ≡ home.old.told.sizes) }
    ensures many { IfOk result (λ prepared. length prepared.0.journals ≡ home.old.told.sizes.cores) }
    ensures tallies { IfOk result (λ prepared. (core : ℕ) → core < home.old.told.sizes.cores → slice_get prepared.0.journals core ≡ option_map empty_from (slice_get home.old.told.tails core)) }
    ensures tree { IfOk result (λ prepared. HasTree D.view home.old.told home.old.device areas.old.areas prepared.0.blocks prepared.0.tree.tree) }
    ensures ready { OnOk result (AreReady areas.old.areas areas.new.areas (length areas.old.areas)) }
    ensures settled { OnOk result (IsSettled (D.view home.new.device)) }
    ensures rest { OnOk result (RestEmpty D.view areas.old.areas areas.new.areas) }

    // What was read.
    ensures schedule { IfOk result (λ prepared. (read : List ℕ) × ReadsInput (S.left input.old) (S.left input.new) read × IsSchedule home.old.told.sizes.cores read prepared.1) }
    ensures built { IfOk result (λ prepared. AreBuilt prepared.1) }
    ensures quiet { OnOk result (S.faults input.new ≡ S.faults input.old) }

    // Or why one of the two failed.
    ensures cause { IfErr result (λ fault. ((start : State) × (tree : FileTree) × HasTree D.view home.old.told home.old.device areas.old.areas start tree × IsInputCause home.old.told.sizes.cores (S.left input.old) (S.left input.new) (S.faults input.old) (S.faults input.new) fault)
        ⊎ ((told : MountFault) × (fault ≡ fault_of_mounting told) × IsMountCause D.view home.old.told home.old.device home.new.device areas.old.areas areas.new.areas told × (input.new ≡ input.old))) }

    // What it does to the devices.
    ensures told { home.new.told ≡ home.old.told }
    ensures home { Settles (D.view home.old.device) (D.view home.new.device) }
    ensures settles { AreSettled D.view areas.old.areas areas.new.areas }
    ensures count { length areas.new.areas ≡ length areas.old.areas }
{
    let recovered = mount(alloc, home, areas)?;
    let text = read_whole(alloc, input)?;
    let schedule = read_built(alloc, recovered.sizes().cores(), &text)?;
    Ok((recovered, schedule))
}

/// Plays a schedule on a service that was just started, and writes the answers, also where a commit failed.
fn play_round<D: Disk, K: Sink>(
    alloc: Global,
    service: &mut Service<D>,
    home: &mut Home<D>,
    schedule: &Schedule,
    out: &mut K,
) -> Result<(), Fault>
    requires playable { All (IsPlayable (length service.old.cores)) schedule.now }
    requires left { All (λ c. length schedule.now ≤ left_of c.pass) service.old.cores }
    ensures ends { (past : Past) → HasPast D.view service.old past → RoundEnds D.view service.old service.new past schedule.now (K.held out.old) (K.held out.new) (K.faults out.old) (K.faults out.new) (result_err result) }
    ensures cuts { (past : Past) → HasPast D.view service.old past → (rest : List Line) × (answers : List Answer) × PlaysLines D.view service.old service.new past schedule.now rest answers }
    ensures cache { service.new.cache ≡ service.old.cache }
    ensures journals { JournalsGoOn D.view (journals_of service.old.cores) (journals_of service.new.cores) }
    ensures home { home.new ≡ home.old }
    ensures unwritten { IfErr result (λ fault. IsBeforeWriting tool.Play fault → out.new ≡ out.old) }
{
    let mut transcript = Transcript::new(alloc);
    let ended = play_lines(alloc, service, home, schedule, &mut transcript)?;
    let answers = spell_answers(alloc, &transcript)?;
    let written = write_whole(out, answers.as_slice());
    match ended.fault {
        Some(stopped) => Err(stopped.into()),
        None => written,
    }
}

/// The answers as text.
fn spell_answers(alloc: Global, transcript: &Transcript) -> Result<Bytes, AllocError>
    ensures { IfOk result (λ text. text ≡ flat_map answer_text transcript.now.answers) }
{
    let mut text = Bytes::new(alloc);
    for i in 0..transcript.len() {
        if let Some(answer) = transcript.at(i) {
            write_answer(answer, &mut text)?;
        }
    }
    Ok(text)
}
