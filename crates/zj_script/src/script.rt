//! Scripts and schedules.

ghost use Rattle.std.specs.Prelude.{◌≡◌, [], ℕ, ◌≤◌, ◌<◌, Some, None, IfOk, IfErr, IsTrue, length, slice_get, option_copied};
ghost use Rattle.std.specs.Result.{result_err};
ghost use Rattle.zj_script.specs.declared.line.Line.{Line};
ghost use Rattle.zj_script.specs.declared.fault.ScriptFault.TheVariants as faults;
ghost use Rattle.zj_script.specs.declared.script.TheConstants.{MAX_LINE};
ghost use Rattle.zj_script.specs.Script.{EndsFront, EndsFrontOfSchedule, IsFault, IsInput, IsLine, IsNoSchedule, IsNoScript, IsSchedule, IsScript, LineFault, has_act, past_limit};

use crate::fault::{ScriptFault, Stop};
use crate::kind::Kind;
use crate::line::{Line, read_words};
use crate::lines::Lines;
use crate::verb::Acts;
use std::alloc::Global;
use std::marker::Model;

/// How many bytes an input has at most.
pub const MAX_BYTES: usize = 16_777_216;

/// How many lines an input has at most.
pub const MAX_LINES: u32 = 65_536;

/// How many bytes a line has at most.
pub const MAX_LINE: usize = 20_000;

/// Calls in the order of their lines.
#[derive(Debug, Drop)]
pub struct Script {
    lines: Vec<Line>,
}

impl Model for Script {
    ghost use Rattle.std.specs.Prelude.{List};
    ghost use Rattle.zj_script.specs.declared.line.Line.{Line};

    ghost Value = { List Line };

    ghost view = { λ script. script.lines.items };
}

impl Script {
    /// How many lines have an act.
    pub fn len(&self) -> usize
        ensures { result ≡ length self.now }
    {
        self.lines.len()
    }

    /// The line at a place, or None exactly from the end on.
    pub fn at(&self, i: usize) -> Option<&Line>
        ensures { option_copied result ≡ slice_get self.now i }
    {
        self.lines.get(i)
    }

    /// All lines in order.
    pub fn as_slice(&self) -> &[Line]
        ensures { result.now ≡ self.now }
    {
        &self.lines
    }
}

/// Acts in the order of their lines.
#[derive(Debug, Drop)]
pub struct Schedule {
    lines: Vec<Line>,
}

impl Model for Schedule {
    ghost use Rattle.std.specs.Prelude.{List};
    ghost use Rattle.zj_script.specs.declared.line.Line.{Line};

    ghost Value = { List Line };

    ghost view = { λ schedule. schedule.lines.items };
}

impl Schedule {
    /// How many lines have an act.
    pub fn len(&self) -> usize
        ensures { result ≡ length self.now }
    {
        self.lines.len()
    }

    /// The line at a place, or None exactly from the end on.
    pub fn at(&self, i: usize) -> Option<&Line>
        ensures { option_copied result ≡ slice_get self.now i }
    {
        self.lines.get(i)
    }

    /// All lines in order.
    pub fn as_slice(&self) -> &[Line]
        ensures { result.now ≡ self.now }
    {
        &self.lines
    }
}

/// The script for so many cores that an input is. `ScriptFault::Refused` exactly where it is none, with the first place
/// that is refused.
pub fn read_script(alloc: Global, cores: u32, input: &[u8]) -> Result<Script, ScriptFault>
    ensures ok { IfOk result (λ script. IsScript cores input.now script) }
    ensures err { IfErr result (IsNoScript cores input.now) }
{
    let mut lines = Vec::new(alloc);
    read_lines(alloc, Acts::Script, cores, input, &mut lines)?;
    Ok(Script { lines })
}

/// The schedule for so many cores that an input is. `ScriptFault::Refused` exactly where it is none, with the first
/// place that is refused.
pub fn read_schedule(alloc: Global, cores: u32, input: &[u8]) -> Result<Schedule, ScriptFault>
    ensures ok { IfOk result (λ schedule. IsSchedule cores input.now schedule) }
    ensures err { IfErr result (IsNoSchedule cores input.now) }
{
    let mut lines = Vec::new(alloc);
    read_lines(alloc, Acts::Schedule, cores, input, &mut lines)?;
    Ok(Schedule { lines })
}

/// The lines of a schedule for so many cores up to the first place where the input is refused as one, and that refusal.
pub fn read_front(alloc: Global, cores: u32, input: &[u8]) -> (Schedule, Result<(), ScriptFault>)
    ensures ok { IfOk result.1 (λ _. IsSchedule cores input.now result.0) }
    ensures err { IfErr result.1 (IsNoSchedule cores input.now) }
    ensures front { EndsFrontOfSchedule cores input.now result.0 (result_err result.1) }
{
    let mut lines = Vec::new(alloc);
    let read = read_lines(alloc, Acts::Schedule, cores, input, &mut lines);
    (Schedule { lines }, read)
}

/// Adds the lines with an act of an input, up to the first that is refused.
fn read_lines(
    alloc: Global,
    acts: Acts,
    cores: u32,
    input: &[u8],
    lines: &mut Vec<Line>,
) -> Result<(), ScriptFault>
    requires none { lines.old.items ≡ [] }
    ensures ok { IfOk result (λ _. IsInput acts cores input.now lines.new.items) }
    ensures err { IfErr result (IsFault acts cores input.now) }
    ensures front { EndsFront acts cores input.now lines.new.items (result_err result) }
{
    let mut number = 0;
    let mut texts = Lines::new(input);
    while let Some(text) = texts.next() {
        number += 1;
        check_limits(number, text, texts.is_cut())?;
        if has_act(text) {
            lines.push(read_line(alloc, acts, cores, number, text)?)?;
        }
    }
    Ok(())
}

/// Refuses a line with a byte past a limit: of the count of lines, of a line's length, or of the input.
fn check_limits(number: u32, text: &[u8], cut: bool) -> Result<(), ScriptFault>
    ensures ok { IfOk result (λ _. past_limit number text.now cut ≡ None) }
    ensures err { IfErr result (λ fault. (column : ℕ) × (past_limit number text.now cut ≡ Some column) × (fault ≡ faults.Refused 6 number column)) }
{
    let column = if number > MAX_LINES {
        1
    } else if text.len() > MAX_LINE {
        MAX_LINE as u32 + 1
    } else if cut {
        text.len() as u32 + 1
    } else {
        return Ok(());
    };
    Err(ScriptFault::Refused {
        kind: Kind::TooLong.number(),
        line: number,
        column,
    })
}

/// Whether a line has an act: it has a byte, and its first one is no `#`.
fn has_act(text: &[u8]) -> bool
    ensures { result ≡ has_act text.now }
{
    match text {
        [] => false,
        [first, ..] => *first != b'#',
    }
}

/// The line that a text spells, or where the text leaves the grammar.
fn read_line(
    alloc: Global,
    acts: Acts,
    cores: u32,
    number: u32,
    text: &[u8],
) -> Result<Line, ScriptFault>
    requires act { IsTrue (has_act text.now) }
    requires short { length text.now ≤ MAX_LINE }
    ensures ok { IfOk result (IsLine acts cores number text.now) }
    ensures err { IfErr result (LineFault acts cores number text.now) }
{
    match read_words(alloc, acts, cores, text) {
        Ok((core, act)) => Ok(Line { number, core, act }),
        Err(Stop::NoMemory) => Err(ScriptFault::NoMemory),
        Err(Stop::Refused { kind, left }) => Err(ScriptFault::Refused {
            kind: kind.number(),
            line: number,
            column: (text.len() - left) as u32 + 1,
        }),
    }
}
