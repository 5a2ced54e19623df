//! The place where a script is refused, told to a person.

use std::alloc::{AllocError, Global};
use std::io;
use zj_script::Kind;

/// How many bytes of a line are shown in front of the column.
const IN_FRONT: usize = 60;

/// How many bytes of a line are shown from the column on.
const FROM_COLUMN: usize = 20;

/// The acts that the language has and the program refuses.
const UNBUILT: &str = "not built yet: fsync, look, sync and checkpoint";

/// Tells on standard error the line of a script that is refused, with a mark under the column, and what was due there: where
/// that is an act, also which acts aren't built yet. A long line is shown in part, and each byte that isn't printed as a `?`.
/// Nothing is told of a place outside of the text.
pub fn tell_place(
    rt: &HostRuntime,
    text: &[u8],
    kind: u32,
    line: u32,
    column: u32,
) -> io::Result<()> {
    let Some(bytes) = line_at(text, line) else {
        return Ok(());
    };
    let place = (column as usize).saturating_sub(1).min(bytes.len());
    let start = place.saturating_sub(IN_FRONT);
    let shown = printed(rt.alloc(), &bytes[start..], place - start + FROM_COLUMN)?;
    let mark = marked(rt.alloc(), place - start)?;
    eprintln!(rt; "{}\n{}", shown.as_str(), mark.as_str())?;
    let Some(kind) = Kind::from_number(kind) else {
        return Ok(());
    };
    eprintln!(rt; "{}", kind.due())?;
    match kind {
        Kind::BadCall => eprintln!(rt; "{UNBUILT}"),
        _ => Ok(()),
    }
}

/// The bytes of the line with a number, from 1, without its line feed.
fn line_at(text: &[u8], number: u32) -> Option<&[u8]> {
    text.split(|byte| *byte == b'\n')
        .nth((number as usize).checked_sub(1)?)
}

/// The first bytes, at most so many, with a `?` for each that isn't printed.
fn printed(alloc: Global, bytes: &[u8], most: usize) -> Result<String, AllocError> {
    let mut text = String::new(alloc);
    for byte in bytes.iter().take(most) {
        let is_shown = byte.is_ascii_graphic() || *byte == b' ';
        text.push(if is_shown { char::from(*byte) } else { '?' })?;
    }
    Ok(text)
}

/// A mark behind so many spaces.
fn marked(alloc: Global, spaces: usize) -> Result<String, AllocError> {
    let mut text = String::new(alloc);
    for _ in 0..spaces {
        text.push(' ')?;
    }
    text.push('^')?;
    Ok(text)
}
