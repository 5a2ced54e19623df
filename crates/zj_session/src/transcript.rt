//! The answers to the lines of a schedule.

ghost use Rattle.std.specs.Prelude.{◌≡◌, ◌≢◌, ◌∷◌, ◌++◌, [], OnOk, length, option_copied, slice_get};

use std::alloc::{AllocError, Global};
use std::marker::Model;
use zj_script::Answer;

/// Answers, in the order of their lines.
#[derive(Debug, Drop)]
pub struct Transcript {
    answers: Vec<Answer>,
}

impl Model for Transcript {
    ghost use Rattle.std.specs.Prelude.{List, ◌-◌, vec_len};
    ghost use Rattle.std.specs.Vec.{vec_capacity};
    ghost use Rattle.zj_session.specs.Playing.{AnswerList};

    ghost Value = { AnswerList };

    ghost view = { λ t. record { answers = t.answers.items; spare = vec_capacity t.answers - vec_len t.answers } };
}

impl Transcript {
    /// No answer yet. It takes no memory.
    pub fn new(alloc: Global) -> Transcript
        ensures { result.answers ≡ [] }
    {
        Transcript {
            answers: Vec::new(alloc),
        }
    }

    /// How many answers there are.
    pub fn len(&self) -> usize
        ensures { result ≡ length self.now.answers }
    {
        self.answers.len()
    }

    /// The answer at a place, or `None` exactly from the end on.
    pub fn at(&self, i: usize) -> Option<&Answer>
        ensures { option_copied result ≡ slice_get self.now.answers i }
    {
        self.answers.get(i)
    }

    /// Makes a place for one more. After `AllocError` the answers are as before.
    pub(crate) fn reserve(&mut self) -> Result<(), AllocError>
        ensures answers { self.new.answers ≡ self.old.answers }
        ensures spare { OnOk result (self.new.spare ≢ 0) }
    {
        self.answers.reserve(1)
    }

    /// Puts an answer behind the last one. It takes no memory.
    pub(crate) fn push(&mut self, answer: Answer)
        requires { self.old.spare ≢ 0 }
        ensures { self.new.answers ≡ self.old.answers ++ answer ∷ [] }
    {
        self.answers.push_reserved(answer);
    }
}
