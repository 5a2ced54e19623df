//! Acts, and the lines that ask for them.

ghost use Rattle.std.specs.Prelude.{◌≡◌, ◌<◌, ◌≢◌, ◌∷◌, ◌++◌, IfOk, IfErr, IsTrue, Option};
ghost use Rattle.zj_tree.specs.Path.{is_path, path_text};
ghost use Rattle.zj_script.specs.declared.line.Act.TheVariants as acts_of;
ghost use Rattle.zj_script.specs.Grammar.{act_parts, argument_parts, has_core, has_spelling, is_act, line_parts, path_part, verb_of, words_of};
ghost use Rattle.zj_script.specs.Parts.{parts_of};
ghost use Rattle.zj_script.specs.Reading.{AreArguments, AreOfAct, IsActOf, LineStops, Stops, StopsActOf};
ghost use Rattle.zj_script.specs.Words.{words_left};
ghost use Rattle.std.specs.Str.{byte};

use crate::fault::Stop;
use crate::verb::{Acts, Opening, Verb};
use crate::words::Words;
use std::alloc::Global;
use zj_tree::{Call, Path};

/// What a line asks for.
#[derive(Debug, PartialEq, Eq, Drop)]
pub enum Act {
    /// A whole call.
    Call(Call),
    /// Opens a handle for a call, which can't be an fsync.
    Begin(Call),
    /// Takes the next block that the open handle needs.
    Take,
    /// Looks at the next block that the open handle needs, without taking it.
    Look,
    /// Ends the open handle: its call is made.
    Stop,
    /// Gives up the open handle.
    Drop,
    /// Commits the core's running transaction.
    Commit,
    /// Tries for a receipt of what the core committed.
    Sync,
    /// Writes all that was committed home. It has no core.
    Checkpoint,
}

/// A line with an act.
#[derive(Debug, PartialEq, Eq, Drop)]
pub struct Line {
    /// Its number in the input, from 1. Lines without an act count.
    pub number: u32,
    /// The core that it runs on; None for a checkpoint alone.
    pub core: Option<u32>,
    pub act: Act,
}

/// Reads the words of a line: its core and its act.
pub(crate) fn read_words(
    alloc: Global,
    acts: Acts,
    cores: u32,
    text: &[u8],
) -> Result<(Option<u32>, Act), Stop>
    ensures ok { IfOk result (λ found. IsTrue (has_core cores found.0 found.1) × IsTrue (is_act acts found.1) × (parts_of (byte " ") text.now ≡ words_of (line_parts found.0 found.1))) }
    ensures err { IfErr result (LineStops acts cores (parts_of (byte " ") text.now)) }
{
    let mut words = Words::new(text);
    let core = words.core(acts, cores)?;
    let act = words.act_of(alloc, acts, core)?;
    words.end()?;
    Ok((core, act))
}

impl Words<'_> {
    /// Reads the act of a core, or of none, which is a checkpoint.
    fn act_of(&mut self, alloc: Global, acts: Acts, core: Option<u32>) -> Result<Act, Stop>
        ensures ok { IfOk result (λ act. IsActOf acts core act × (words_left self.old ≡ words_of (act_parts act) ++ words_left self.new)) }
        ensures err { IfErr result (StopsActOf acts core (words_left self.old)) }
    {
        match core {
            Some(_) => self.act(alloc, acts),
            None => Ok(Act::Checkpoint),
        }
    }

    /// Reads an act that has a core.
    fn act(&mut self, alloc: Global, acts: Acts) -> Result<Act, Stop>
        ensures ok { IfOk result (λ act. IsTrue (is_act acts act) × (act ≢ acts_of.Checkpoint) × (words_left self.old ≡ words_of (act_parts act) ++ words_left self.new)) }
        ensures err { IfErr result (Stops (AreOfAct acts) (words_left self.old)) }
    {
        let opening = self.opening(acts)?;
        match opening {
            Opening::Call(verb) => Ok(Act::Call(self.arguments(alloc, verb)?)),
            Opening::Begin => {
                let verb = self.begun()?;
                Ok(Act::Begin(self.arguments(alloc, verb)?))
            }
            Opening::Take => Ok(Act::Take),
            Opening::Look => Ok(Act::Look),
            Opening::Stop => Ok(Act::Stop),
            Opening::Drop => Ok(Act::Drop),
            Opening::Commit => Ok(Act::Commit),
            Opening::Sync => Ok(Act::Sync),
        }
    }

    /// Reads what stands behind a verb.
    fn arguments(&mut self, alloc: Global, verb: Verb) -> Result<Call, Stop>
        ensures ok { IfOk result (λ call. IsTrue (has_spelling call) × (verb_of call ≡ verb) × (words_left self.old ≡ words_of (argument_parts call) ++ words_left self.new)) }
        ensures err { IfErr result (Stops (AreArguments verb) (words_left self.old)) }
    {
        let path = self.path(alloc)?;
        self.behind_path(alloc, verb, path)
    }

    /// Reads what stands behind a verb and its path.
    fn behind_path(&mut self, alloc: Global, verb: Verb, path: Path) -> Result<Call, Stop>
        requires { IsTrue (is_path path) }
        ensures ok { IfOk result (λ call. IsTrue (has_spelling call) × (verb_of call ≡ verb) × (path_text path ∷ words_left self.old ≡ words_of (argument_parts call) ++ words_left self.new)) }
        ensures err { IfErr result (Stops (λ parts. AreArguments verb (path_part path ∷ parts)) (words_left self.old)) }
    {
        match verb {
            Verb::Mkdir => Ok(Call::Mkdir { path }),
            Verb::Create => Ok(Call::Create { path }),
            Verb::Unlink => Ok(Call::Unlink { path }),
            Verb::Rmdir => Ok(Call::Rmdir { path }),
            Verb::List => Ok(Call::List { path }),
            Verb::Stat => Ok(Call::Stat { path }),
            Verb::Fsync => Ok(Call::Fsync { path }),
            Verb::Rename => {
                let to = self.path(alloc)?;
                Ok(Call::Rename { from: path, to })
            }
            Verb::Truncate => {
                let size = self.number()?;
                Ok(Call::Truncate { path, size })
            }
            Verb::Read => {
                let at = self.number()?;
                let count = self.number()?;
                Ok(Call::Read { path, at, count })
            }
            Verb::Write => {
                let at = self.number()?;
                let bytes = self.text(alloc)?;
                Ok(Call::Write { path, at, bytes })
            }
        }
    }
}
