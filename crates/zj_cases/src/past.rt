//! What was played on an image: the calls and the transactions that they are part of, and the tree that is recovered of them.

use crate::text::number_of;
use crate::trouble::{Outcome, compare_number, differs};
use std::alloc::{AllocError, Global};
use zj_script::read_number;

/// A call that was made.
#[derive(Drop)]
pub struct Drawn {
    /// Its core.
    pub core: u64,
    /// The number of the transaction that it is part of.
    pub number: u64,
    /// Its words.
    pub call: String,
    /// The words of its reply.
    pub reply: String,
}

/// A core.
#[derive(Drop)]
struct Running {
    /// The number of its running transaction, which is one more than that of the last one that it was told to be committed.
    number: u64,
    /// The words of the call that its handle was begun for.
    begun: String,
}

/// What `check` tells of a journal.
#[derive(Clone, Copy)]
pub struct Tally {
    /// Up to which transaction they are in home or found.
    pub found: u64,
    /// Up to which transaction they are in home or kept.
    pub kept: u64,
}

/// What was played on an image.
#[derive(Drop)]
pub struct Past {
    drawn: Vec<Drawn>,
    cores: Vec<Running>,
}

/// The number at a place of a line of words.
fn number_in(line: &str, place: usize) -> Option<u64> {
    let word = line.split(' ').nth(place)?;
    read_number(word.as_bytes()).map(u64::from)
}

/// The tally that a line of `check` tells, if it tells one.
fn tally_of(line: &str) -> Option<Tally> {
    let from = number_in(line, 2)?;
    let found = number_in(line, 4)?;
    let kept = number_in(line, 6)?;
    Some(Tally {
        found: from.saturating_add(found),
        kept: from.saturating_add(kept),
    })
}

/// The tallies of all journals, of what `check` prints.
pub fn tallies_of(alloc: Global, checked: &str) -> Result<Vec<Tally>, AllocError> {
    checked.lines().filter_map(tally_of).collect(alloc)
}

/// Whether the transaction of a call is kept.
fn is_kept(tallies: &[Tally], drawn: &Drawn) -> bool {
    match tallies.get(drawn.core as usize) {
        Some(tally) => drawn.number < tally.kept,
        None => false,
    }
}

/// Lines of one core, and the replies to them.
#[derive(Drop)]
pub struct Replay {
    /// The lines, each with its end.
    pub lines: String,
    /// What has to be answered.
    pub answers: String,
    /// How many calls there are.
    count: u64,
}

/// Adds a call, its reply, and a commit.
fn put_call(alloc: Global, drawn: &Drawn, replay: &mut Replay) -> Result<(), AllocError> {
    let (call, reply, ticket) = (drawn.call.as_str(), drawn.reply.as_str(), replay.count);
    let (line, next) = (
        ticket.wrapping_mul(2).wrapping_add(1),
        ticket.wrapping_mul(2).wrapping_add(2),
    );
    let lines = format!(in alloc; "0 {call}\n0 commit\n")?;
    let answers = format!(in alloc; "{line} 0 {ticket} {reply}\n{next} 0 committed {ticket}\n")?;
    replay.lines.push_str(lines.as_str())?;
    replay.answers.push_str(answers.as_str())?;
    replay.count = ticket.wrapping_add(1);
    Ok(())
}

/// The core with a number.
fn core_at(alloc: Global, cores: &mut [Running], core: u64) -> Outcome<&mut Running> {
    match cores.get_mut(core as usize) {
        Some(running) => Ok(running),
        None => Err(differs(alloc, &["an answer to a core that isn't there"])),
    }
}

/// A core was told that the transaction with this number is committed, which has to be its running one.
fn commit(alloc: Global, running: &mut Running, number: &str) -> Outcome<()> {
    let due = running.number;
    running.number = due.saturating_add(1);
    compare_number(alloc, "as the number of a commit", number, due)
}

/// A call that a core made, whole or by ending its handle.
fn drawn_by(
    alloc: Global,
    running: &Running,
    core: u64,
    act: &str,
    reply: &str,
) -> Result<Drawn, AllocError> {
    let call = match act {
        "stop" => running.begun.as_str(),
        _ => act,
    };
    Ok(Drawn {
        core,
        number: running.number,
        call: String::from_str(alloc, call)?,
        reply: String::from_str(alloc, reply)?,
    })
}

/// What stands behind the first word of a line.
fn rest_of(line: &str) -> &str {
    line.split_once(' ').unwrap_or((line, "")).1
}

/// The line that an answer tells the number of.
fn line_of<'a>(input: &'a str, answer: &str) -> &'a str {
    let number = number_in(answer, 0).unwrap_or(0);
    input
        .lines()
        .nth((number as usize).wrapping_sub(1))
        .unwrap_or("")
}

impl Past {
    /// Nothing was played.
    pub fn new(alloc: Global) -> Past {
        Past {
            drawn: Vec::new(alloc),
            cores: Vec::new(alloc),
        }
    }

    /// The image is mounted, of whose journals so much is kept: what else was played is gone.
    pub fn mount(&mut self, alloc: Global, tallies: &[Tally]) -> Outcome<()> {
        self.drawn.retain(|drawn| is_kept(tallies, drawn));
        self.cores.clear();
        for tally in tallies {
            self.cores.push(Running {
                number: tally.kept,
                begun: String::new(alloc),
            })?;
        }
        Ok(())
    }

    /// Lines were played, and this was answered.
    pub fn play(&mut self, alloc: Global, input: &str, answers: &str) -> Outcome<()> {
        for answer in answers.lines() {
            self.answer(alloc, rest_of(line_of(input, answer)), rest_of(answer))?;
        }
        Ok(())
    }

    /// An act of a core was answered so.
    fn answer(&mut self, alloc: Global, act: &str, answer: &str) -> Outcome<()> {
        let (core, told) = answer.split_once(' ').unwrap_or((answer, ""));
        let core = number_of(alloc, core)?;
        let running = core_at(alloc, &mut self.cores, core)?;
        let (first, rest) = told.split_once(' ').unwrap_or((told, ""));
        match first {
            "begun" => running.begun = String::from_str(alloc, rest_of(act))?,
            "committed" => commit(alloc, running, rest)?,
            _ if number_in(first, 0).is_some() => {
                self.drawn.push(drawn_by(alloc, running, core, act, rest)?)?;
            }
            _ => {}
        }
        Ok(())
    }

    /// What was told to be committed has to be found.
    pub fn compare_found(&self, alloc: Global, tallies: &[Tally]) -> Outcome<()> {
        for (core, running) in self.cores.iter().enumerate() {
            if tallies.get(core).map_or(0, |tally| tally.found) < running.number {
                return Err(differs(alloc, &["what was committed isn't found"]));
            }
        }
        Ok(())
    }

    /// The lines that make the calls of the transactions that are kept on one core, where so much of the journals is kept, and their
    /// answers: each with the reply that it was given. A commit stands behind the calls of one transaction that follow each other.
    pub fn replay(&self, alloc: Global, tallies: &[Tally]) -> Outcome<Replay> {
        let mut replay = Replay {
            lines: String::new(alloc),
            answers: String::new(alloc),
            count: 0,
        };
        for drawn in &self.drawn {
            if is_kept(tallies, drawn) {
                put_call(alloc, drawn, &mut replay)?;
            }
        }
        Ok(replay)
    }
}
