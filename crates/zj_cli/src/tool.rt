//! The top call.

ghost use Rattle.std.specs.Prelude.{◌≡◌, ◌≢◌, ◌⊎◌, ◌↔◌, map, string_bytes, IsTrue, Some, IfSome, IfNone, [], ◌∷◌, decimal};
ghost use Rattle.zj_block.specs.Sizes.{Numbers, IsInLimits, numbers_of};
ghost use Rattle.zj_cli.specs.declared.status.Fault.TheVariants as faults;
ghost use Rattle.zj_cli.specs.Check.{RunsCheck, RunsDump};
ghost use Rattle.zj_cli.specs.Outside.{Outside};
ghost use Rattle.zj_cli.specs.Make.{MakeEnds};
ghost use Rattle.zj_cli.specs.Play.{RunsPlay};
ghost use Rattle.zj_cli.specs.Tool.{Asks, Check, Command, Dump, IsBeforeWriting, Make, Play, command_of, fault_of, phases_of, size_words, usual_sizes};

use crate::check::{check, dump};
use crate::make::make;
use crate::play::play;
use crate::status::{Fault, Status};
use std::alloc::Global;
use zj_block::{Sizes, VERSION};
use zj_dev::{Shelf, Sink, Source};
use zj_script::read_number;

/// All that the program does. The words are those of the command line behind the name of the program.
///
/// `make` makes an image on the shelf, whose tree has the root alone; it reads no input and prints nothing.
///
/// `play` opens the image on the shelf, mounts it, reads a schedule from the input, runs its lines on cores over home's blocks in memory,
/// and writes their answers to `out`. A commit writes the running transaction of its core to that core's journal; what was not
/// committed is gone when it ends. Home is synced and read, and not written. It closes all that it opened. Reading ends at the byte
/// that is one more than a schedule may have. Nothing is written to `out` unless the whole schedule was read and all its lines
/// have run. Whatever a crash leaves of the devices at a moment of the lines, recovery leaves a tree that the calls could have made, with
/// all that was committed by then found: the status tells the moments (`Phase`).
///
/// `check` opens the image on the shelf and writes to `out` what its journals hold and how large the tree is that is
/// recovered; it reads no input and writes no device, and closes all that it opened.
///
/// `dump` does so with the entries of the tree that is recovered.
///
/// The first fault in this order counts: the words; making, or opening the devices and reading them; reading the input;
/// the schedule; writing to `out`; closing the devices. It may run out of memory at any time. After a fault of
/// the output a front of what was to be written is written.
pub fn zj_tool<H: Shelf, S: Source, K: Sink>(
    alloc: Global,
    words: &[String],
    shelf: &mut H,
    input: &mut S,
    out: &mut K,
) -> Status
    // What each command does, by the fault that it ends with.
    ensures words { (fault_of result ≡ Some faults.Words) ↔ ((command : Command) → Asks (map string_bytes words.now) command → ⊥) }
    ensures make { let before : Outside = record { left = S.left input.old; held = K.held out.old; names = H.names shelf.old; input_faults = S.faults input.old; output_faults = K.faults out.old; shelf_faults = H.faults shelf.old } in
        let after : Outside = record { left = S.left input.new; held = K.held out.new; names = H.names shelf.new; input_faults = S.faults input.new; output_faults = K.faults out.new; shelf_faults = H.faults shelf.new } in
        (sizes : Numbers) → Asks (map string_bytes words.now) (Make sizes) → MakeEnds sizes before after (fault_of result) }
    ensures play { let before : Outside = record { left = S.left input.old; held = K.held out.old; names = H.names shelf.old; input_faults = S.faults input.old; output_faults = K.faults out.old; shelf_faults = H.faults shelf.old } in
        let after : Outside = record { left = S.left input.new; held = K.held out.new; names = H.names shelf.new; input_faults = S.faults input.new; output_faults = K.faults out.new; shelf_faults = H.faults shelf.new } in
        Asks (map string_bytes words.now) Play → RunsPlay before after (phases_of result) (fault_of result) }
    ensures check { let before : Outside = record { left = S.left input.old; held = K.held out.old; names = H.names shelf.old; input_faults = S.faults input.old; output_faults = K.faults out.old; shelf_faults = H.faults shelf.old } in
        let after : Outside = record { left = S.left input.new; held = K.held out.new; names = H.names shelf.new; input_faults = S.faults input.new; output_faults = K.faults out.new; shelf_faults = H.faults shelf.new } in
        Asks (map string_bytes words.now) Check → RunsCheck before after (fault_of result) }
    ensures dump { let before : Outside = record { left = S.left input.old; held = K.held out.old; names = H.names shelf.old; input_faults = S.faults input.old; output_faults = K.faults out.old; shelf_faults = H.faults shelf.old } in
        let after : Outside = record { left = S.left input.new; held = K.held out.new; names = H.names shelf.new; input_faults = S.faults input.new; output_faults = K.faults out.new; shelf_faults = H.faults shelf.new } in
        Asks (map string_bytes words.now) Dump → RunsDump before after (fault_of result) }

    // Only a session has phases.
    ensures no_phase { ((command : Command) → Asks (map string_bytes words.now) command → command ≡ Play → ⊥) → phases_of result ≡ [] }

    // What is left as it was.
    ensures untouched { fault_of result ≡ Some faults.Words → (input.new ≡ input.old) × (shelf.new ≡ shelf.old) × (out.new ≡ out.old) }
    ensures input_untouched { Asks (map string_bytes words.now) Check → input.new ≡ input.old }
    ensures input_untouched_by_dump { Asks (map string_bytes words.now) Dump → input.new ≡ input.old }
    ensures streams_untouched { (sizes : Numbers) → Asks (map string_bytes words.now) (Make sizes) → (input.new ≡ input.old) × (out.new ≡ out.old) }
    ensures unwritten { (command : Command) → Asks (map string_bytes words.now) command → IfSome (fault_of result) (λ fault. IsBeforeWriting command fault → out.new ≡ out.old) }
{
    let mut phases = Vec::new(alloc);
    if let Some(sizes) = sizes_to_make(words) {
        return Status::new(make(alloc, shelf, &sizes).err(), phases);
    }
    let done = match read_command(words) {
        Some(Reading::Play) => play(alloc, shelf, input, out, &mut phases),
        Some(Reading::Check) => check(alloc, shelf, out),
        Some(Reading::Dump) => dump(alloc, shelf, out),
        None => Err(Fault::Words),
    };
    Status::new(done.err(), phases)
}

/// A command that reads an image.
#[derive(Clone, Copy)]
enum Reading {
    Play,
    Check,
    Dump,
}

/// The command on an image that the words ask for, if they ask for one.
fn read_command(words: &[String]) -> Option<Reading>
    ensures some { IfSome result (λ command. Asks (map string_bytes words.now) (command_of command)) }
    ensures no_play { IfNone result (Asks (map string_bytes words.now) Play → ⊥) }
    ensures no_check { IfNone result (Asks (map string_bytes words.now) Check → ⊥) }
    ensures no_dump { IfNone result (Asks (map string_bytes words.now) Dump → ⊥) }
{
    let [word] = words else {
        return None;
    };
    match word.as_str() {
        "play" => Some(Reading::Play),
        "check" => Some(Reading::Check),
        "dump" => Some(Reading::Dump),
        _ => None,
    }
}

/// The sizes of the image that the words ask to make, if they ask for one.
fn sizes_to_make(words: &[String]) -> Option<Sizes>
    ensures some { IfSome result (λ sizes. Asks (map string_bytes words.now) (Make sizes)) }
    ensures none { IfNone result ((sizes : Numbers) → Asks (map string_bytes words.now) (Make sizes) → ⊥) }
{
    let (command, rest) = words.split_first()?;
    match command.as_str() {
        "make" => read_sizes(rest),
        _ => None,
    }
}

/// The sizes of the image that words behind `make` ask for, if an image may have them.
fn read_sizes(words: &[String]) -> Option<Sizes>
    ensures some { IfSome result (λ sizes. IsInLimits sizes × ((map string_bytes words.now ≡ size_words sizes) ⊎ ((words.now ≡ []) × (sizes ≡ usual_sizes)))) }
    ensures none { IfNone result ((sizes : Numbers) → IsInLimits sizes → (map string_bytes words.now ≢ size_words sizes) × (words.now ≢ [])) }
{
    match words {
        [] => Sizes::new(VERSION, 4096, 1024, 4, 1_048_576),
        [blocks, nodes, cores, area] => sizes_of(
            read_number(blocks.as_bytes())?,
            read_number(nodes.as_bytes())?,
            read_number(cores.as_bytes())?,
            read_number(area.as_bytes())?,
        ),
        _ => None,
    }
}

/// The sizes with these numbers, if an image may have them.
fn sizes_of(blocks: u32, nodes: u32, cores: u32, area: u32) -> Option<Sizes>
    ensures some { IfSome result (λ sizes. IsInLimits sizes × (sizes ≡ numbers_of VERSION blocks nodes cores area)) }
    ensures none { IfNone result ((sizes : Numbers) → IsInLimits sizes → decimal blocks ∷ decimal nodes ∷ decimal cores ∷ decimal area ∷ [] ≢ size_words sizes) }
{
    Sizes::new(VERSION, blocks, nodes, cores, u64::from(area))
}
