//! What stands in a tree, and what it takes up.

ghost use Rattle.std.specs.Prelude.{◌≡◌, ℕ, ◌+◌, ◌^◌, ◌<◌, ◌∷◌, ◌++◌, [], List, length, map, filter, is_some, T, MatchOption, MatchResult, option_copied, IfOk, IfErr, OnOk, if◌then◌else◌, Some, None, IsSome, Ok, Err, false, true};
ghost use Rattle.std.specs.FinMap as map_of;
ghost use Rattle.zj_tree.specs.Tree.{path_cmp, IsTree, content_at, names_in, entry_count, used, is_in, blocks_for, directory_blocks, content_blocks};
ghost use Rattle.zj_tree.specs.declared.content.Content.TheVariants.{Dir, File};
ghost use Rattle.zj_tree.specs.Changed.{bytes_at};
ghost use Rattle.zj_tree.specs.Apply.{is_file, is_behind_file, resolve, size_of};
ghost use Rattle.zj_tree.specs.Path.{parent, last_name, same_path};
ghost use Rattle.zj_tree.specs.Laws.{IsWithin};
ghost use Rattle.zj_tree.specs.Search.{IsFoundAt, GoesTo};

use super::{BYTES_PER_BLOCK, ENTRIES_PER_BLOCK, Tree};
use crate::call::{Refusal, Reply};
use crate::content::Content;
use crate::name::Name;
use crate::path::{Names, Path};
use std::alloc::AllocError;
use std::cmp::Ordering;

impl Tree {
    /// All entries in the order of their paths.
    pub(super) fn entries(&self) -> &[(Path, Content)]
        ensures entries { result.now ≡ map_of.entries self.now.tree }
        ensures few { length result.now < 2 ^ 32 }
        ensures tree { IsTree self.now.tree }
        ensures within { IsWithin self.now.limits self.now.tree }
    {
        &self.entries
    }

    /// What stands at a path.
    pub(super) fn content_at(&self, path: &[Name]) -> Option<&Content>
        ensures value { option_copied result ≡ content_at self.now.tree path.now }
        ensures tree { IsTree self.now.tree }
        ensures within { IsWithin self.now.limits self.now.tree }
    {
        let entries = self.entries();
        match search(entries, path) {
            Ok(at) => Some(&entries[at].1),
            Err(_) => None,
        }
    }

    /// Where an entry goes at whose path nothing stands.
    pub(super) fn place_of(&self, path: &[Name]) -> usize
        requires { content_at self.now.tree path.now ≡ None }
        ensures { GoesTo (map_of.entries self.now.tree) path.now result }
    {
        match search(self.entries(), path) {
            Ok(at) | Err(at) => at,
        }
    }

    /// Where the entry of a path stands.
    pub(super) fn place_at(&self, path: &[Name]) -> usize
        requires { IsSome (content_at self.now.tree path.now) }
        ensures { IsFoundAt (map_of.entries self.now.tree) path.now result }
    {
        match search(self.entries(), path) {
            Ok(at) | Err(at) => at,
        }
    }

    /// The bytes of the file at a path, none where no file is.
    pub(super) fn bytes_at(&self, path: &[Name]) -> &[u8]
        ensures value { result.now ≡ bytes_at self.now.tree path.now }
        ensures tree { IsTree self.now.tree }
    {
        match self.content_at(path) {
            Some(Content::File(bytes)) => bytes.as_slice(),
            _ => &[],
        }
    }

    /// What stands at a path, and how large it is.
    pub(super) fn size_of(&self, path: &[Name]) -> Reply
        ensures { result ≡ size_of (content_at self.now.tree path.now) (entry_count self.now.tree path.now) }
    {
        match self.file_size(path) {
            Some(size) => Reply::File { size },
            None => Reply::Dir {
                entries: self.entry_count(path) as u32,
            },
        }
    }

    /// How many bytes the file at a path has.
    fn file_size(&self, path: &[Name]) -> Option<u32>
        ensures { MatchOption result (is_file (content_at self.now.tree path.now) ≡ false) (λ size. (is_file (content_at self.now.tree path.now) ≡ true) × (size ≡ length (bytes_at self.now.tree path.now))) }
    {
        match self.content_at(path) {
            Some(Content::File(bytes)) => Some(bytes.as_slice().len() as u32),
            _ => None,
        }
    }

    /// Whether a file stands on the way to a path.
    fn is_behind_file(&self, path: &[Name]) -> bool
        ensures { result ≡ is_behind_file self.now.tree path.now }
    {
        (0..path.len()).any(|n| self.is_file(&path[..n]))
    }

    fn is_file(&self, path: &[Name]) -> bool
        ensures { result ≡ is_file (content_at self.now.tree path.now) }
    {
        matches!(self.content_at(path), Some(Content::File(_)))
    }

    /// What a path leads to, or why nothing is found.
    pub(super) fn resolve(&self, path: &[Name]) -> Result<&Content, Refusal>
        ensures found { MatchResult result (λ content. resolve self.now.tree path.now ≡ Ok content.now) (λ refusal. resolve self.now.tree path.now ≡ Err refusal) }
        ensures tree { IsTree self.now.tree }
    {
        match self.content_at(path) {
            Some(content) => Ok(content),
            None if self.is_behind_file(path) => Err(Refusal::NotDir),
            None => Err(Refusal::NotFound),
        }
    }

    /// The names in a directory, ascending.
    pub(super) fn names_in(&self, dir: &[Name]) -> Result<Names, AllocError>
        ensures { IfOk result (λ names. names ≡ names_in self.now.tree dir.now) }
    {
        let mut names = Names::new(*self.entries.allocator());
        for (path, _) in self.entries() {
            push_if_in(&mut names, dir, path.as_slice())?;
        }
        Ok(names)
    }

    /// How many entries a directory has.
    pub(super) fn entry_count(&self, dir: &[Name]) -> usize
        ensures value { result ≡ entry_count self.now.tree dir.now }
        ensures few { result < 2 ^ 32 }
        ensures tree { IsTree self.now.tree }
    {
        self.entries()
            .iter()
            .filter(|entry| is_in(dir, entry.0.as_slice()))
            .count()
    }

    /// How many blocks the tree takes up with a new entry in a directory that is there.
    pub(super) fn blocks_with(&self, path: &Path, content: &Content) -> usize
        requires absent { content_at self.now.tree path.now ≡ None }
        requires directory { content_at self.now.tree (parent path.now) ≡ Some Dir }
        ensures used { result ≡ used (map_of.insert self.now.tree path.now content.now) }
        ensures is_tree { IsTree (map_of.insert self.now.tree path.now content.now) }
    {
        let entries = self.entry_count(parent_of(path.as_slice()));
        let more = directory_blocks(entries + 1) - directory_blocks(entries);
        self.used() as usize + content_blocks(content) + more
    }

    /// How many blocks the tree takes up once the file at a path has so many bytes.
    pub(super) fn blocks_resized(&self, path: &[Name], size: usize) -> usize
        requires { content_at self.now.tree path.now ≡ Some (File (bytes_at self.now.tree path.now)) }
        ensures used { (bytes : List ℕ) → length bytes ≡ size → result ≡ used (map_of.insert self.now.tree path.now (File bytes)) }
        ensures is_tree { (bytes : List ℕ) → IsTree (map_of.insert self.now.tree path.now (File bytes)) }
    {
        let before = file_blocks(self.bytes_at(path).len());
        self.used() as usize - before + file_blocks(size)
    }

    /// How many blocks the tree takes up without an entry that has no entries itself.
    pub(super) fn blocks_without(&self, path: &[Name]) -> usize
        requires there { IsSome (content_at self.now.tree path.now) }
        requires below_root { 0 < length path.now }
        requires empty { entry_count self.now.tree path.now ≡ 0 }
        ensures used { result ≡ used (map_of.remove self.now.tree path.now) }
        ensures is_tree { IsTree (map_of.remove self.now.tree path.now) }
    {
        let entries = self.entry_count(parent_of(path));
        self.used() as usize + directory_blocks(entries - 1)
            - directory_blocks(entries)
            - self.blocks_at(path)
    }

    /// How many blocks the bytes at a path take up.
    pub(super) fn blocks_at(&self, path: &[Name]) -> usize
        ensures { MatchOption (content_at self.now.tree path.now) (result ≡ 0) (λ content. result ≡ content_blocks content) }
    {
        match self.content_at(path) {
            Some(content) => content_blocks(content),
            None => 0,
        }
    }
}

/// Where the path stands among entries in order, or where it would go.
pub(super) fn search(entries: &[(Path, Content)], path: &[Name]) -> Result<usize, usize>
    requires { T (map_of.is_sorted path_cmp entries.now) }
    ensures found { IfOk result (IsFoundAt entries.now path.now) }
    ensures absent { IfErr result (GoesTo entries.now path.now) }
{
    entries.binary_search_by(|entry| compare(&entry.0, path))
}

/// How two paths compare.
pub(super) fn compare(path: &Path, other: &[Name]) -> Ordering
    ensures { result ≡ path_cmp path.now other.now }
{
    path.as_slice().cmp(other)
}

/// How many blocks so many entries of a directory take up.
pub(super) fn directory_blocks(entries: usize) -> usize
    ensures { result ≡ directory_blocks entries }
{
    entries.div_ceil(ENTRIES_PER_BLOCK)
}

/// How many blocks so many bytes of a file take up.
fn file_blocks(bytes: usize) -> usize
    ensures value { result ≡ blocks_for bytes 512 }
    ensures few { result < 2 ^ 63 }
{
    bytes.div_ceil(BYTES_PER_BLOCK)
}

/// How many blocks the bytes of a file take up.
pub(super) fn content_blocks(content: &Content) -> usize
    ensures value { result ≡ content_blocks content.now }
    ensures few { result < 2 ^ 63 }
{
    match content {
        Content::Dir => 0,
        Content::File(bytes) => file_blocks(bytes.as_slice().len()),
    }
}

/// The path of the directory that a path lies in. The root's is the root.
pub(super) fn parent_of(path: &[Name]) -> &[Name]
    ensures { result.now ≡ parent path.now }
{
    match path {
        [] => path,
        [parent @ .., _] => parent,
    }
}

/// Whether two paths lie in one directory.
pub(super) fn are_beside(path: &[Name], other: &[Name]) -> bool
    ensures { result ≡ same_path (parent path.now) (parent other.now) }
{
    parent_of(path) == parent_of(other)
}

/// Adds the name of a path, if it lies in the directory.
fn push_if_in(names: &mut Names, dir: &[Name], path: &[Name]) -> Result<(), AllocError>
    ensures { OnOk result (names.new ≡ names.old ++ map last_name (filter (is_in dir.now) (path.now ∷ []))) }
{
    match name_in(dir, path) {
        Some(name) => names.push(*name),
        None => Ok(()),
    }
}

/// Whether a path lies in a directory.
fn is_in(dir: &[Name], path: &[Name]) -> bool
    ensures { result ≡ is_in dir.now path.now }
{
    name_in(dir, path).is_some()
}

/// The name of a path in a directory, if it lies there.
fn name_in<'a>(dir: &[Name], path: &'a [Name]) -> Option<&'a Name>
    ensures { option_copied result ≡ (if is_in dir.now path.now then Some (last_name path.now) else None) }
{
    match path.split_last() {
        Some((name, parent)) if parent == dir => Some(name),
        _ => None,
    }
}
