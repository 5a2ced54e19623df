//! Writing the entries of a tree.

ghost use Rattle.std.specs.Prelude.{◌≡◌, ◌++◌, OnOk, OnErr};
ghost use Rattle.std.specs.List.{flat_map};
ghost use Rattle.zj_tree.specs.Entry.{entry_content};
ghost use Rattle.zj_script.specs.Entries.{content_words, entry_text};
ghost use Rattle.zj_script.specs.Words.{spaced};
ghost use Rattle.zj_script.specs.Writing.{Adds};

use crate::put::{put_data, put_spaced_number, put_word};
use crate::writing::put_first_path;
use std::alloc::AllocError;
use zj_tree::{Bytes, Entry, Path};

/// Adds the line of an entry of a tree: its path, and what stands there, a directory of so many entries or a file.
/// `AllocError` leaves the text as it was.
pub fn write_entry(
    path: &Path,
    content: Entry<'_>,
    entries: u64,
    out: &mut Bytes,
) -> Result<(), AllocError>
    ensures added { OnOk result (out.new ≡ out.old ++ entry_text path.now (entry_content content.entry) entries) }
    ensures same { OnErr result (out.new ≡ out.old) }
{
    let len = out.as_slice().len();
    let put = put_entry(path, content, entries, out);
    if put.is_err() {
        out.truncate(len);
    }
    put
}

/// Adds the line of an entry, or a part of it.
fn put_entry(
    path: &Path,
    content: Entry<'_>,
    entries: u64,
    out: &mut Bytes,
) -> Result<(), AllocError>
    ensures { Adds result out.old out.new (entry_text path.now (entry_content content.entry) entries) }
{
    put_first_path(path, out)?;
    put_content(content, entries, out)?;
    out.extend(b"\n")
}

/// Adds the words of what stands at a path, each behind a space.
fn put_content(content: Entry<'_>, entries: u64, out: &mut Bytes) -> Result<(), AllocError>
    ensures { Adds result out.old out.new (flat_map spaced (content_words (entry_content content.entry) entries)) }
{
    match content {
        Entry::Dir => {
            put_word(b"dir", out)?;
            put_spaced_number(entries, out)
        }
        Entry::File(bytes) => {
            let bytes = bytes.as_slice();
            put_word(b"file", out)?;
            put_spaced_number(bytes.len() as u64, out)?;
            put_data(bytes, out)
        }
    }
}
