//! `dump`: the tree that is recovered of an image, entry by entry.

ghost use Rattle.std.specs.Prelude.{◌≡◌, ◌≤◌, ◌++◌, IfOk, IfSome, OnOk, cond, slice_get};
ghost use Rattle.std.specs.FinMap as map_of;
ghost use Rattle.zj_script.specs.Entries.{entry_text};
ghost use Rattle.zj_tree.specs.Entry.{entry_content};
ghost use Rattle.zj_tree.specs.Tree.{entry_count, is_in};
ghost use Rattle.zj_cli.specs.Check.{line_of, tree_text};

use std::alloc::{AllocError, Global};
use zj_script::write_entry;
use zj_tree::{Bytes, Entry, Name, Tree};

/// Whether a path lies in a directory, one name below it.
fn is_in(dir: &[Name], path: &[Name]) -> bool
    ensures { result ≡ is_in dir.now path.now }
{
    match path.split_last() {
        Some((_, parent)) => parent == dir,
        None => false,
    }
}

/// How many entries of a directory the entry with this place is: one, or none where it lies elsewhere.
fn count_at(tree: &Tree, dir: &[Name], i: usize) -> u64
    ensures is { IfSome (slice_get (map_of.entries tree.now.tree) i) (λ entry. result ≡ cond (is_in dir.now entry.0) 1 0) }
    ensures most { result ≤ 1 }
{
    match tree.at(i) {
        Some((path, _)) if is_in(dir, path.as_slice()) => 1,
        _ => 0,
    }
}

/// How many entries a directory of a tree has.
fn entry_count(tree: &Tree, dir: &[Name]) -> u64
    ensures { result ≡ entry_count tree.now.tree dir.now }
{
    let mut count = 0;
    for i in 0..tree.len() {
        count += count_at(tree, dir, i);
    }
    count
}

/// How many entries the line of an entry tells: those of a directory. The line of a file tells none.
fn entries_told(tree: &Tree, path: &[Name], content: &Entry<'_>) -> u64
    ensures { entry_text path.now (entry_content content.now) result ≡ entry_text path.now (entry_content content.now) (entry_count tree.now.tree path.now) }
{
    match content {
        Entry::Dir => entry_count(tree, path),
        Entry::File(_) => 0,
    }
}

/// Adds the line of the entry with this place, if there is one.
fn put_at(tree: &Tree, i: usize, text: &mut Bytes) -> Result<(), AllocError>
    ensures { OnOk result (IfSome (slice_get (map_of.entries tree.now.tree) i) (λ entry. text.new ≡ text.old ++ line_of tree.now.tree entry)) }
{
    let Some((path, content)) = tree.at(i) else {
        return Ok(());
    };
    let entries = entries_told(tree, path.as_slice(), &content);
    write_entry(path, content, entries, text)
}

/// A line for each entry of a tree, in the order of the paths.
pub(crate) fn spell_dump(alloc: Global, tree: &Tree) -> Result<Bytes, AllocError>
    ensures { IfOk result (λ text. text ≡ tree_text tree.now.tree) }
{
    let mut text = Bytes::new(alloc);
    for i in 0..tree.len() {
        put_at(tree, i, &mut text)?;
    }
    Ok(text)
}
