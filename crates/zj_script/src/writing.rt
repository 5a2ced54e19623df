//! Writing lines.

ghost use Rattle.std.specs.Prelude.{◌≡◌, ◌∷◌, [], ◌++◌, OnOk, OnErr};
ghost use Rattle.std.specs.List.{flat_map};
ghost use Rattle.std.specs.Str.{byte};
ghost use Rattle.zj_tree.specs.Path.{has_names, path_text, step_text};
ghost use Rattle.zj_script.specs.Grammar.{act_parts, call_parts, argument_parts, core_word, verb_of, verb_word, words_of};
ghost use Rattle.zj_script.specs.Script.{line_text};
ghost use Rattle.zj_script.specs.Words.{spaced};
ghost use Rattle.zj_script.specs.Writing.{Adds};

use crate::line::{Act, Line};
use crate::put::{put_number, put_spaced_number, put_text, put_word};
use crate::verb::Verb;
use std::alloc::AllocError;
use zj_tree::{Bytes, Call, Name, Path};

/// Adds the text of a line, and a line feed. `AllocError` leaves the text as it was.
pub fn write_line(line: &Line, out: &mut Bytes) -> Result<(), AllocError>
    ensures added { OnOk result (out.new ≡ out.old ++ line_text line.now ++ byte "\n" ∷ []) }
    ensures same { OnErr result (out.new ≡ out.old) }
{
    let len = out.as_slice().len();
    let put = put_line(line, out);
    if put.is_err() {
        out.truncate(len);
    }
    put
}

/// Adds the text of a line and a line feed, or a part of it.
fn put_line(line: &Line, out: &mut Bytes) -> Result<(), AllocError>
    ensures { Adds result out.old out.new (line_text line.now ++ byte "\n" ∷ []) }
{
    put_core(line.core, out)?;
    put_act(&line.act, out)?;
    out.extend(b"\n")
}

/// Adds the first word of a line.
fn put_core(core: Option<u32>, out: &mut Bytes) -> Result<(), AllocError>
    ensures { Adds result out.old out.new (core_word core) }
{
    match core {
        Some(core) => put_number(u64::from(core), out),
        None => out.extend(b"checkpoint"),
    }
}

/// Adds the words of an act, each behind a space.
fn put_act(act: &Act, out: &mut Bytes) -> Result<(), AllocError>
    ensures { Adds result out.old out.new (flat_map spaced (words_of (act_parts act.now))) }
{
    match act {
        Act::Call(call) => put_call(call, out),
        Act::Begin(call) => {
            put_word(b"begin", out)?;
            put_call(call, out)
        }
        Act::Take => put_word(b"take", out),
        Act::Look => put_word(b"look", out),
        Act::Stop => put_word(b"stop", out),
        Act::Drop => put_word(b"drop", out),
        Act::Commit => put_word(b"commit", out),
        Act::Sync => put_word(b"sync", out),
        Act::Checkpoint => Ok(()),
    }
}

/// Adds the words of a call, each behind a space.
fn put_call(call: &Call, out: &mut Bytes) -> Result<(), AllocError>
    ensures { Adds result out.old out.new (flat_map spaced (words_of (call_parts call.now))) }
{
    put_word(verb_of(call).word(), out)?;
    put_arguments(call, out)
}

/// Adds the words of a call behind its verb, each behind a space.
fn put_arguments(call: &Call, out: &mut Bytes) -> Result<(), AllocError>
    ensures { Adds result out.old out.new (flat_map spaced (words_of (argument_parts call.now))) }
{
    match call {
        Call::Mkdir { path } => put_path(path, out),
        Call::Create { path } => put_path(path, out),
        Call::Unlink { path } => put_path(path, out),
        Call::Rmdir { path } => put_path(path, out),
        Call::List { path } => put_path(path, out),
        Call::Stat { path } => put_path(path, out),
        Call::Fsync { path } => put_path(path, out),
        Call::Rename { from, to } => {
            put_path(from, out)?;
            put_path(to, out)
        }
        Call::Truncate { path, size } => {
            put_path(path, out)?;
            put_spaced_number(u64::from(*size), out)
        }
        Call::Read { path, at, count } => {
            put_path(path, out)?;
            put_spaced_number(u64::from(*at), out)?;
            put_spaced_number(u64::from(*count), out)
        }
        Call::Write { path, at, bytes } => {
            put_path(path, out)?;
            put_spaced_number(u64::from(*at), out)?;
            put_text(bytes.as_slice(), out)
        }
    }
}

/// The verb of a call.
fn verb_of(call: &Call) -> Verb
    ensures { result ≡ verb_of call.now }
{
    match call {
        Call::Mkdir { .. } => Verb::Mkdir,
        Call::Create { .. } => Verb::Create,
        Call::Write { .. } => Verb::Write,
        Call::Read { .. } => Verb::Read,
        Call::Truncate { .. } => Verb::Truncate,
        Call::Unlink { .. } => Verb::Unlink,
        Call::Rmdir { .. } => Verb::Rmdir,
        Call::Rename { .. } => Verb::Rename,
        Call::List { .. } => Verb::List,
        Call::Stat { .. } => Verb::Stat,
        Call::Fsync { .. } => Verb::Fsync,
    }
}

/// Adds a path behind a space.
fn put_path(path: &Path, out: &mut Bytes) -> Result<(), AllocError>
    ensures { Adds result out.old out.new (spaced (path_text path.now)) }
{
    out.extend(b" ")?;
    put_first_path(path, out)
}

/// Adds a path.
pub(crate) fn put_first_path(path: &Path, out: &mut Bytes) -> Result<(), AllocError>
    ensures { Adds result out.old out.new (path_text path.now) }
{
    let names = path.as_slice();
    if names.is_empty() {
        out.extend(b"/")
    } else {
        put_steps(names, out)
    }
}

/// Adds a slash and a name for each name.
fn put_steps(names: &[Name], out: &mut Bytes) -> Result<(), AllocError>
    ensures { Adds result out.old out.new (flat_map step_text names.now) }
{
    for name in names {
        out.extend(b"/")?;
        out.extend(name.as_slice())?;
    }
    Ok(())
}
