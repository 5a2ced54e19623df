//! Calls of the tool, and what comes of them.

use crate::shelf::CaseShelf;
use crate::step::{is_said, said};
use crate::text::command_line;
use crate::trouble::{Outcome, compare, compare_number, differs};
use std::alloc::{AllocError, Global};
use zj_cli::{Fault, Phase, PhaseKind, Status, zj_tool};
use zj_dev::{MemSink, MemSource};

/// What came of a call of the tool.
#[derive(Drop)]
pub struct Came {
    pub status: Status,
    /// What was written.
    pub output: String,
}

/// Calls the tool.
fn run_tool(
    alloc: Global,
    shelf: &mut CaseShelf,
    words: &[String],
    source: &mut MemSource,
    sink: &mut MemSink,
) -> Status {
    zj_tool(alloc, words, shelf, source, sink)
}

/// Bytes as text.
fn text_of(alloc: Global, bytes: &[u8]) -> Outcome<String> {
    match std::str::from_utf8(bytes) {
        Ok(text) => Ok(String::from_str(alloc, text)?),
        Err(_) => Err(differs(alloc, &["what was written is no text"])),
    }
}

/// Calls the tool, and answers what came.
pub fn call_tool(
    alloc: Global,
    shelf: &mut CaseShelf,
    words: &[String],
    mut source: MemSource,
    mut sink: MemSink,
) -> Outcome<Came> {
    let status = run_tool(alloc, shelf, words, &mut source, &mut sink);
    let output = text_of(alloc, sink.bytes())?;
    Ok(Came { status, output })
}

/// The code and the text of the fault of a status: `0` without one.
fn end_of(alloc: Global, status: &Status) -> Result<String, AllocError> {
    let mut text = status.code().to_string(alloc)?;
    if let Some(fault) = status.fault() {
        text.push(' ')?;
        text.push_str(fault.to_string(alloc)?.as_str())?;
    }
    Ok(text)
}

/// Compares the code and the text of a fault that no run meets: that memory ran out.
pub fn compare_memory(alloc: Global, below: &[&str]) -> Outcome<()> {
    let mut text = Fault::Memory.code().to_string(alloc)?;
    text.push(' ')?;
    text.push_str(Fault::Memory.to_string(alloc)?.as_str())?;
    compare(
        alloc,
        "the fault",
        said(below, "=", 0).unwrap_or(""),
        text.as_str(),
    )
}

/// What a command of one line prints that reads this input. It has to end without a fault.
pub fn printed(alloc: Global, shelf: &mut CaseShelf, line: &str, input: &str) -> Outcome<String> {
    let words: Vec<&str> = line.split(' ').collect(alloc)?;
    let command = command_line(alloc, &words)?;
    let source = MemSource::new(alloc, input.as_bytes(), &[])?;
    let sink = MemSink::new(alloc, &[])?;
    let came = call_tool(alloc, shelf, &command, source, sink)?;
    let end = end_of(alloc, &came.status)?;
    compare(alloc, line, "0", end.as_str())?;
    Ok(came.output)
}

/// Compares how a call ended: as one of the lines below it says, or without a fault where none does.
pub fn compare_end(alloc: Global, below: &[&str], status: &Status) -> Outcome<()> {
    let end = end_of(alloc, status)?;
    if is_said(below, "=", end.as_str()) {
        return Ok(());
    }
    compare(
        alloc,
        "the end",
        said(below, "=", 0).unwrap_or("0"),
        end.as_str(),
    )
}

/// The word of a kind of phase.
fn kind_word(kind: PhaseKind) -> &'static str {
    match kind {
        PhaseKind::Mount => "mount",
        PhaseKind::Round => "round",
        PhaseKind::Checkpoint => "checkpoint",
    }
}

/// A phase as text: its kind, and the moments of each device.
fn phase_text(alloc: Global, phase: &Phase) -> Result<String, AllocError> {
    let mut text = String::from_str(alloc, kind_word(phase.kind))?;
    for span in phase.spans.iter().take(phase.devices as usize) {
        let (from, to) = (span.from, span.to);
        text.push_str(format!(in alloc; " {from}-{to}")?.as_str())?;
    }
    Ok(text)
}

/// Compares a phase with the line below a call that tells it, if there is one.
fn compare_phase(alloc: Global, below: &[&str], status: &Status, place: usize) -> Outcome<()> {
    let (Some(due), Some(phase)) = (said(below, "phase", place), status.phase(place)) else {
        return Ok(());
    };
    compare(alloc, "the phase", due, phase_text(alloc, phase)?.as_str())
}

/// Compares the phases that a call told, as far as the lines below it say them.
fn compare_phases(alloc: Global, below: &[&str], status: &Status) -> Outcome<()> {
    if let Some(due) = said(below, "phases", 0) {
        compare_number(alloc, "as many phases as", due, status.phases() as u64)?;
    }
    for place in 0..status.phases() {
        compare_phase(alloc, below, status, place)?;
    }
    Ok(())
}

/// Compares the phases that a call told and the devices that it closed, as far as the lines below it say them.
pub fn compare_rest(alloc: Global, below: &[&str], status: &Status, closed: &str) -> Outcome<()> {
    compare_phases(alloc, below, status)?;
    match said(below, "closes", 0) {
        Some(due) => compare(alloc, "the order of closing", due, closed.trim()),
        None => Ok(()),
    }
}
