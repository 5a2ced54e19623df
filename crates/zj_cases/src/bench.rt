//! What a case has come to, and its steps.

use crate::asked::{Came, call_tool, compare_end, compare_memory, compare_rest, printed};
use crate::device_steps::{change, fail_from};
use crate::devices::{crashed, image_of, torn_of};
use crate::past::{Past, Replay, tallies_of};
use crate::shelf::CaseShelf;
use crate::step::{Step, told};
use crate::text::{command_line, numbers_from, word_at};
use crate::trouble::{Outcome, compare, compare_number, differs, joined};
use std::alloc::{AllocError, Global};
use zj_dev::{MemSink, MemSource, Torn};

/// What a device held: after a crash that loses what is pending, and after one that keeps it.
#[derive(Drop)]
struct Note {
    name: String,
    lost: Vec<u8>,
    whole: Vec<u8>,
}

/// What a case has come to.
#[derive(Drop)]
pub struct Bench {
    alloc: Global,
    shelf: CaseShelf,
    notes: Vec<Note>,
    /// The calls that fail of the streams of the next call of the tool.
    reads: Vec<u64>,
    writes: Vec<u64>,
    /// What was played on the image that these words made.
    past: Past,
    made: String,
    /// The number of the run: the call that fails in it, or from which on all do.
    number: u64,
    /// Whether the steps are run again as long as a call of the tool meets a fault, and whether one did.
    repeats: bool,
    failed: bool,
}

/// What a device holds.
fn note_of(alloc: Global, shelf: &mut CaseShelf, name: &str) -> Outcome<Note> {
    Ok(Note {
        name: String::from_str(alloc, name)?,
        lost: image_of(alloc, shelf, name, Torn::Lost)?,
        whole: image_of(alloc, shelf, name, Torn::Whole)?,
    })
}

/// Whether two notes tell the same of a device.
fn is_same(one: &Note, other: &Note) -> bool {
    one.name.as_str() == other.name.as_str()
        && one.lost.as_slice() == other.lost.as_slice()
        && one.whole.as_slice() == other.whole.as_slice()
}

/// Notes what a mount finds on a shelf of what was played.
fn note_mount(alloc: Global, shelf: &mut CaseShelf, past: &mut Past) -> Outcome<()> {
    let mut left = crashed(alloc, shelf, Torn::Whole)?;
    match printed(alloc, &mut left, "zj check", "") {
        Ok(checked) => past.mount(alloc, &tallies_of(alloc, checked.as_str())?),
        Err(_) => Ok(()),
    }
}

/// What `dump` prints of a new image of one core, as large as the one that some words made, on which lines are played that are to be
/// answered so.
fn replayed(alloc: Global, made: &str, replay: &Replay) -> Outcome<String> {
    let mut shelf = CaseShelf::new(alloc)?;
    let words: Vec<&str> = made.split(' ').collect(alloc)?;
    let (blocks, nodes) = (word_at(&words, 2), word_at(&words, 3));
    let make = joined(alloc, &["zj make ", blocks, " ", nodes, " 1 262144"])?;
    let _made = printed(alloc, &mut shelf, make.as_str(), "")?;
    let played = printed(alloc, &mut shelf, "zj play", replay.lines.as_str())?;
    compare(
        alloc,
        "of the calls that are kept",
        replay.answers.as_str(),
        played.as_str(),
    )?;
    printed(alloc, &mut shelf, "zj dump", "")
}

/// Compares what is recovered after a crash with the tree of the calls in the transactions that are kept.
fn compare_recovered(
    alloc: Global,
    shelf: &mut CaseShelf,
    past: &Past,
    made: &str,
    torn: Torn,
) -> Outcome<()> {
    let mut left = crashed(alloc, shelf, torn)?;
    let checked = printed(alloc, &mut left, "zj check", "")?;
    let dumped = printed(alloc, &mut left, "zj dump", "")?;
    let tallies = tallies_of(alloc, checked.as_str())?;
    past.compare_found(alloc, &tallies)?;
    let due = replayed(alloc, made, &past.replay(alloc, &tallies)?)?;
    compare(alloc, checked.as_str(), due.as_str(), dumped.as_str())
}

impl Bench {
    /// The beginning of a case: an empty shelf.
    pub fn new(alloc: Global, number: u64) -> Result<Bench, AllocError> {
        Ok(Bench {
            alloc,
            shelf: CaseShelf::new(alloc)?,
            notes: Vec::new(alloc),
            reads: Vec::new(alloc),
            writes: Vec::new(alloc),
            past: Past::new(alloc),
            made: String::new(alloc),
            number,
            repeats: false,
            failed: false,
        })
    }

    /// Whether the steps are to be run again, with the next call failing.
    pub fn goes_on(&self) -> bool {
        self.repeats && self.failed
    }

    /// Makes a step.
    pub fn make(&mut self, step: &Step<'_>) -> Outcome<()> {
        let words: Vec<&str> = step.text.split(' ').collect(self.alloc)?;
        match word_at(&words, 0) {
            "case" => Ok(()),
            "zj" => self.call(step.text, &words, &step.below),
            "recovers" => self.recovers(),
            "memory" => compare_memory(self.alloc, &step.below),
            _ => self.make_rare(&words),
        }
    }

    /// Makes a step that isn't among the most frequent ones.
    fn make_rare(&mut self, words: &[&str]) -> Outcome<()> {
        match word_at(words, 0) {
            "input" => self.reads = numbers_from(self.alloc, words, 2)?,
            "output" => self.writes = numbers_from(self.alloc, words, 2)?,
            "stuck" => self
                .shelf
                .stick(String::from_str(self.alloc, word_at(words, 1))?),
            "crash" => self.crash(words)?,
            "keep" => self.keep(word_at(words, 1))?,
            "same" => self.compare_kept(word_at(words, 1))?,
            "each" => self.repeat(words)?,
            "count" => self.compare_count(words)?,
            _ => change(self.alloc, &mut self.shelf, words)?,
        }
        Ok(())
    }

    /// Calls the tool, and compares what comes.
    fn call(&mut self, text: &str, words: &[&str], below: &[&str]) -> Outcome<()> {
        let input = told(self.alloc, below, "<", "<<")?;
        let line = command_line(self.alloc, words)?;
        self.note_begin(text, word_at(words, 1))?;
        let source = MemSource::new(self.alloc, input.as_bytes(), &self.reads)?;
        let sink = MemSink::new(self.alloc, &self.writes)?;
        let came = call_tool(self.alloc, &mut self.shelf, &line, source, sink)?;
        self.note_call(words, input.as_str(), came.output.as_str())?;
        self.compare(below, &came)
    }

    /// Notes that a command is called.
    fn note_begin(&mut self, text: &str, command: &str) -> Outcome<()> {
        match command {
            "play" => note_mount(self.alloc, &mut self.shelf, &mut self.past)?,
            "make" => self.made = String::from_str(self.alloc, text)?,
            _ => {}
        }
        Ok(())
    }

    /// Notes what a call did.
    fn note_call(&mut self, words: &[&str], input: &str, output: &str) -> Outcome<()> {
        self.reads.clear();
        self.writes.clear();
        match word_at(words, 1) {
            "play" => self.past.play(self.alloc, input, output),
            _ => Ok(()),
        }
    }

    /// Compares what came of a call. In a run with a fault what is written from that on isn't compared.
    fn compare(&mut self, below: &[&str], came: &Came) -> Outcome<()> {
        let closed = self.shelf.take_closed(self.alloc);
        if self.repeats {
            self.failed = self.failed || came.status.fault().is_some();
            if came.status.fault().is_none() && self.failed {
                return Ok(());
            }
        }
        if !self.repeats || self.failed {
            compare_end(self.alloc, below, &came.status)?;
        }
        if self.failed {
            return Ok(());
        }
        let due = told(self.alloc, below, ">", ">>")?;
        compare(self.alloc, "the output", due.as_str(), came.output.as_str())?;
        compare_rest(self.alloc, below, &came.status, closed.as_str())
    }

    /// `crash lost`, `crash whole` or `crash BYTE`
    fn crash(&mut self, words: &[&str]) -> Outcome<()> {
        let torn = torn_of(self.alloc, word_at(words, 1))?;
        self.shelf = crashed(self.alloc, &mut self.shelf, torn)?;
        Ok(())
    }

    /// `keep NAME`
    fn keep(&mut self, name: &str) -> Outcome<()> {
        let note = note_of(self.alloc, &mut self.shelf, name)?;
        self.notes.push(note)?;
        Ok(())
    }

    /// `same NAME`
    fn compare_kept(&mut self, name: &str) -> Outcome<()> {
        let note = note_of(self.alloc, &mut self.shelf, name)?;
        if self.notes.iter().any(|kept| is_same(kept, &note)) {
            Ok(())
        } else {
            Err(differs(self.alloc, &["it has other bytes than were kept"]))
        }
    }

    /// `each NAME fails` or `each NAME stops`
    fn repeat(&mut self, words: &[&str]) -> Outcome<()> {
        self.repeats = true;
        fail_from(self.alloc, &mut self.shelf, words, self.number)
    }

    /// `count N`
    fn compare_count(&mut self, words: &[&str]) -> Outcome<()> {
        if self.failed {
            return Ok(());
        }
        compare_number(
            self.alloc,
            "runs with a fault",
            word_at(words, 1),
            self.number,
        )
    }

    /// `recovers`
    fn recovers(&mut self) -> Outcome<()> {
        for torn in [Torn::Lost, Torn::Whole, Torn::Filled(255)] {
            compare_recovered(
                self.alloc,
                &mut self.shelf,
                &self.past,
                self.made.as_str(),
                torn,
            )?;
        }
        Ok(())
    }
}
