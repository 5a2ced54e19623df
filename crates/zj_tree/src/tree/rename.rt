//! What stands at a path gets another path, with all that is below.

ghost use Rattle.std.specs.Prelude.{◌≡◌, ℕ, ◌+◌, ◌≤◌, ◌<◌, ◌^◌, MatchOption, List, T, map, ◌++◌, ◌∷◌, [], IfOk, OnOk, OnErr};
ghost use Rattle.std.specs.FinMap as map_of;
ghost use Rattle.std.specs.List.Sorted.{IsPermutation, IsSortedByKey};
ghost use Rattle.zj_tree.specs.StoredTree.{tree_of};
ghost use Rattle.zj_tree.specs.Tree.{path_cmp, used, content_at, content_blocks};
ghost use Rattle.zj_tree.specs.Changed.{moved, renamed};
ghost use Rattle.zj_tree.specs.Moved.{CanMove, moved_paths};

use super::Tree;
use super::looks::{are_beside, compare, directory_blocks, parent_of, search};
use crate::content::Content;
use crate::name::Name;
use crate::path::Path;
use std::alloc::AllocError;
use std::collections::VecDeque;

impl Tree {
    /// How many blocks the tree takes up once what stands at `from` stands at `to`.
    pub(super) fn blocks_renamed(&self, from: &[Name], to: &[Name]) -> usize
        requires { CanMove self.now.tree from.now to.now }
        ensures { result ≡ used (renamed self.now.tree from.now to.now) }
    {
        let (less, more) = self.directories_renamed(from, to);
        self.used() as usize + more - less - self.blocks_at(to)
    }

    /// How many blocks the directories of both paths take up before, and how many after.
    fn directories_renamed(&self, from: &[Name], to: &[Name]) -> (usize, usize)
        requires { CanMove self.now.tree from.now to.now }
        ensures sum { (freed : ℕ) → MatchOption (content_at self.now.tree to.now) (freed ≡ 0) (λ content. freed ≡ content_blocks content) → used (renamed self.now.tree from.now to.now) + result.0 + freed ≡ used self.now.tree + result.1 }
        ensures few { result.1 < 2 ^ 34 }
    {
        let there = usize::from(self.content_at(to).is_some());
        let left = self.entry_count(parent_of(from));
        let gained = self.entry_count(parent_of(to));
        if are_beside(from, to) {
            return (directory_blocks(gained), directory_blocks(gained - there));
        }
        (
            directory_blocks(left) + directory_blocks(gained),
            directory_blocks(left - 1) + directory_blocks(gained + 1 - there),
        )
    }

    /// Moves what stands at `from` to `to`, with all that is below.
    pub(super) fn rename(&mut self, from: &Path, to: &Path) -> Result<(), AllocError>
        requires movable { CanMove self.old.tree from.now to.now }
        requires room { used (renamed self.old.tree from.now to.now) ≤ self.old.limits.room }
        ensures ok { OnOk result (self.new.tree ≡ renamed self.old.tree from.now to.now) }
        ensures limits { self.new.limits ≡ self.old.limits }
        ensures err { OnErr result (self.new ≡ self.old) }
    {
        let blocks = self.blocks_renamed(from.as_slice(), to.as_slice());
        let paths = self.paths_moved(from.as_slice(), to)?;
        take_out(&mut self.entries, to.as_slice());
        set_paths(&mut self.entries, paths, from.as_slice(), to.as_slice());
        sort(&mut self.entries);
        self.blocks = blocks as u32;
        Ok(())
    }

    /// The new paths of what stands at `from` and below, in order.
    fn paths_moved(&self, from: &[Name], to: &Path) -> Result<VecDeque<Path>, AllocError>
        ensures { IfOk result (λ paths. paths.items ≡ moved_paths from.now to.now (map_of.keys self.now.tree)) }
    {
        let mut paths = VecDeque::new(*self.entries.allocator());
        for (path, _) in self.entries() {
            push_if_moved(&mut paths, path, from, to)?;
        }
        Ok(paths)
    }
}

/// Adds the new path of a path that begins with `from`.
fn push_if_moved(
    paths: &mut VecDeque<Path>,
    path: &Path,
    from: &[Name],
    to: &Path,
) -> Result<(), AllocError>
    ensures { OnOk result (paths.new.items ≡ paths.old.items ++ moved_paths from.now to.now (path.now ∷ [])) }
{
    let names = path.as_slice();
    if names.starts_with(from) {
        let (_, rest) = names.split_at(from.len());
        let moved = to.joined(*paths.allocator(), rest)?;
        paths.push_back(moved)?;
    }
    Ok(())
}

/// Takes out the entry of a path, where there is one.
fn take_out(entries: &mut Vec<(Path, Content)>, path: &[Name])
    requires { T (map_of.is_sorted path_cmp entries.old.items) }
    ensures { entries.new.items ≡ map_of.entries (map_of.remove (tree_of entries.old.items) path.now) }
{
    if let Ok(at) = search(entries, path) {
        entries.remove(at);
    }
}

/// Puts entries into the order of their paths.
pub(super) fn sort(entries: &mut Vec<(Path, Content)>)
    ensures permutation { IsPermutation entries.old.items entries.new.items }
    ensures sorted { IsSortedByKey (λ entry. entry.0) path_cmp entries.new.items }
{
    entries.sort_unstable_by(|one, other| compare(&one.0, other.0.as_slice()));
}

/// Gives each entry whose path begins with `from` its new path. They are handed in, in order.
fn set_paths(entries: &mut Vec<(Path, Content)>, paths: VecDeque<Path>, from: &[Name], to: &[Name])
    requires { paths.items ≡ moved_paths from.now to.now (map (λ entry. entry.0) entries.old.items) }
    ensures { entries.new.items ≡ map (λ entry. (moved from.now to.now entry.0, entry.1)) entries.old.items }
{
    let mut paths = paths;
    for entry in entries.iter_mut() {
        set_path(entry, &mut paths, from, to);
    }
}

/// Gives an entry whose path begins with `from` the first of the new paths.
fn set_path(entry: &mut (Path, Content), paths: &mut VecDeque<Path>, from: &[Name], to: &[Name])
    ensures { (rest : List (List (List ℕ))) → paths.old.items ≡ moved_paths from.now to.now (entry.old.0 ∷ []) ++ rest → (entry.new ≡ (moved from.now to.now entry.old.0, entry.old.1)) × (paths.new.items ≡ rest) }
{
    if !entry.0.as_slice().starts_with(from) {
        return;
    }
    if let Some(path) = paths.pop_front() {
        entry.0 = path;
    }
}
