//! Runs the cases of a text, and tells what differs.

use crate::bench::Bench;
use crate::step::{Step, is_below, is_comment};
use crate::trouble::{Trouble, joined};
use std::alloc::{AllocError, Global};

/// How often the steps of a case are run at most.
const MAX_RUNS: u64 = 10_000;

/// The cases of a text, one after the other: the steps of the one that is being read, and what came of those before.
#[derive(Drop)]
pub struct Runner<'a> {
    alloc: Global,
    steps: Vec<Step<'a>>,
    /// How many cases there were.
    pub cases: u64,
    /// How often the steps of a case were run.
    pub runs: u64,
    /// How many cases differ.
    pub differ: u64,
    /// What differs.
    pub told: String,
}

impl<'a> Runner<'a> {
    /// No case yet.
    pub fn new(alloc: Global) -> Runner<'a> {
        Runner {
            alloc,
            steps: Vec::new(alloc),
            cases: 0,
            runs: 0,
            differ: 0,
            told: String::new(alloc),
        }
    }

    /// Takes the next line of the text, from 0.
    pub fn take(&mut self, place: usize, text: &'a str) -> Result<(), AllocError> {
        if is_comment(text) {
            return Ok(());
        }
        if text.starts_with("case ") {
            self.finish()?;
        }
        if is_below(text)
            && let Some(step) = self.steps.last_mut()
        {
            step.below.push(text)?;
            return Ok(());
        }
        let step = Step {
            number: place.saturating_add(1),
            text,
            below: Vec::new(self.alloc),
        };
        self.steps.push(step)?;
        Ok(())
    }

    /// Runs the case that was read.
    pub fn finish(&mut self) -> Result<(), AllocError> {
        if self.steps.is_empty() {
            return Ok(());
        }
        self.cases = self.cases.saturating_add(1);
        let told = self.told.len();
        self.run_case()?;
        if self.told.len() > told {
            self.differ = self.differ.saturating_add(1);
        }
        self.steps.clear();
        Ok(())
    }

    /// Runs the steps of the case until no call of the tool meets a fault, where it has each call of a device fail, and else once.
    fn run_case(&mut self) -> Result<(), AllocError> {
        for number in 0..MAX_RUNS {
            self.runs = self.runs.saturating_add(1);
            if !self.run_steps(number)? {
                return Ok(());
            }
        }
        self.told.push_str("there is no end of faults\n")
    }

    /// Runs the steps of the case, and answers whether they are to be run again.
    fn run_steps(&mut self, number: u64) -> Result<bool, AllocError> {
        let mut bench = Bench::new(self.alloc, number)?;
        for step in &self.steps {
            if let Err(trouble) = bench.make(step) {
                let text = trouble_text(self.alloc, step, &trouble)?;
                self.told.push_str(text.as_str())?;
            }
        }
        Ok(bench.goes_on())
    }
}

/// What is told of a step that failed.
fn trouble_text(alloc: Global, step: &Step<'_>, trouble: &Trouble) -> Result<String, AllocError> {
    let number = (step.number as u64).to_string(alloc)?;
    match trouble {
        Trouble::NoMemory => line_text(alloc, number.as_str(), step.text, "no memory"),
        Trouble::Differs(text) => line_text(alloc, number.as_str(), step.text, text.as_str()),
    }
}

/// A line of a step that failed.
fn line_text(alloc: Global, number: &str, step: &str, why: &str) -> Result<String, AllocError> {
    joined(alloc, &["line ", number, ", ", step, ": ", why, "\n"])
}
