//! The program `zj`: the top call over a folder and the real standard streams.
#![tactic(auto)]

mod folder;
mod place;
mod recorded;
mod sizes;
mod usage;

use folder::{enter, split_options, tell_folder};
use place::tell_place;
use recorded::Recorded;
use sizes::tell_sizes;
use std::fs::Files;
use std::process::ExitCode;
use std::{env, fs, io};
use zj_cli::{Fault, Status, zj_tool};
use zj_dev::{FolderShelf, InSource, OutSink};

fn main(rt: HostRuntime) -> io::Result<ExitCode> {
    let alloc = rt.alloc();
    let words: Vec<String> = env::args(&rt)?.skip(1).collect(alloc)?;
    let (options, words) = split_options(words.as_slice());
    if let Some(text) = usage::told(words) {
        print!(rt; "{text}")?;
        return Ok(ExitCode::SUCCESS);
    }
    if let Err(fault) = enter(&rt, options) {
        return Ok(tell_folder(&rt, &fault));
    }
    let _guards = [guard(&rt), guard(&rt), guard(&rt)];
    let mut shelf = FolderShelf::new(&rt);
    let mut input = Recorded::new(rt.alloc(), InSource::new(rt.reader()));
    let mut out = OutSink::new(io::writer(&rt));
    let status = zj_tool(rt.alloc(), words, &mut shelf, &mut input, &mut out);
    // A fault that can't be told changes nothing of the status.
    let _ = tell_fault(&rt, &status, words, input.given());
    Ok(ExitCode::from(status.code()))
}

/// Takes the number of a standard stream that is closed, if one is. Else the system would give it to a file of the image, and
/// what is written to the stream would reach that file; so it fails.
fn guard<R: Files>(files: &R) -> Option<R::File> {
    fs::open(files, "/").ok()
}

/// Tells a fault on standard error; of words also which number is wrong, and of a script the place, where the input is known.
fn tell_fault(
    rt: &HostRuntime,
    status: &Status,
    words: &[String],
    input: Option<&[u8]>,
) -> io::Result<()> {
    let Some(fault) = status.fault() else {
        return Ok(());
    };
    eprintln!(rt; "zj: {fault}")?;
    match (fault, input) {
        (Fault::Words, _) => tell_sizes(rt, words),
        (Fault::Script { kind, line, column }, Some(text)) => {
            tell_place(rt, text, *kind, *line, *column)
        }
        _ => Ok(()),
    }
}
