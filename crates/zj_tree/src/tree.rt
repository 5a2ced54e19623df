//! The tree of files, as the plain service keeps it.

ghost use Rattle.std.specs.Prelude.{◌≡◌, ◌<◌, ◌≤◌, length, take, drop, slice_get, option_map, IsTrue, ◌↔◌, IfOk, OnOk, OnErr, Some, None};
ghost use Rattle.std.specs.FinMap as map_of;
ghost use Rattle.zj_tree.specs.Tree.{IsTree, root_alone, used, node_count};
ghost use Rattle.zj_tree.specs.Changed.{changed, bytes_of};
ghost use Rattle.zj_tree.specs.Apply.{apply, reasons, first_refusal, answer, longest_file, Fits};
ghost use Rattle.zj_tree.specs.Entry.{entry_content};
ghost use Rattle.zj_tree.specs.Laws.{IsWithin};

use crate::bytes::Bytes;
use crate::call::{Call, Refusal, Reply};
use crate::content::Content;
use crate::path::Path;
use rename::sort;
use std::alloc::{AllocError, Global};
use std::marker::Model;

mod changes;
mod looks;
mod reasons;
mod rename;

/// How many entries a directory has at most.
pub const MAX_ENTRIES: usize = 192;

/// How many entries of a directory one block holds.
pub const ENTRIES_PER_BLOCK: usize = 16;

/// How many bytes of a file one block holds.
pub const BYTES_PER_BLOCK: usize = 512;

/// How many bytes a file has at most in version 1, and how many one call reads or writes at most.
pub const MAX_BYTES: usize = 6144;

/// How many bytes a file has at most in version 2.
pub const MAX_LONG_FILE: usize = 71680;

/// A tree of files with its limits: the plain service.
#[derive(Debug, Drop)]
pub struct Tree {
    entries: Vec<(Path, Content)>,
    blocks: u32,
    nodes: u32,
    room: u32,
    version: u32,
}

impl Model for Tree {
    ghost use Rattle.zj_tree.specs.StoredTree.{LimitedTree, coded_tree, tree_of, IsKept};

    ghost Value = { LimitedTree };

    ghost coded = { coded_tree };

    ghost view = { λ t. record { limits = record { nodes = t.nodes; room = t.room; version = t.version }; tree = tree_of t.entries.items } };

    ghost invariant = { λ t. IsKept t.entries.items t.blocks t.nodes t.room t.version };
}

/// What stands at a path, as a tree shows it.
#[derive(Clone, Copy, Debug)]
pub enum Entry<'a> {
    Dir,
    File(&'a Bytes),
}

impl Tree {
    /// The tree with the root alone. It may grow to `nodes` entries, the root among them, and to `room`
    /// blocks. In version 1 a file has up to 6,144 bytes, in version 2 up to 71,680.
    pub fn new(alloc: Global, nodes: u32, room: u32, version: u32) -> Result<Self, AllocError>
        requires some { 0 < nodes }
        requires first { 1 ≤ version }
        requires known { version ≤ 2 }
        ensures { IfOk result (λ tree. tree ≡ record { limits = record { nodes = nodes; room = room; version = version }; tree = root_alone }) }
    {
        let mut entries = Vec::new(alloc);
        entries.push((Path::new(alloc), Content::Dir))?;
        Ok(Tree {
            entries,
            blocks: 0,
            nodes,
            room,
            version,
        })
    }

    /// The tree that has these entries, which stand in whatever order, each path once. It takes up that many blocks, and
    /// its limits are as in `new`.
    pub fn from_entries(
        entries: Vec<(Path, Content)>,
        blocks: u32,
        nodes: u32,
        room: u32,
        version: u32,
    ) -> Self
        requires once { node_count (map_of.from_entries entries.items) ≡ length entries.items }
        requires tree { IsTree (map_of.from_entries entries.items) }
        requires blocks { blocks ≡ used (map_of.from_entries entries.items) }
        requires within { IsWithin (record { nodes = nodes; room = room; version = version }) (map_of.from_entries entries.items) }
        ensures { result ≡ record { limits = record { nodes = nodes; room = room; version = version }; tree = map_of.from_entries entries.items } }
    {
        let mut entries = entries;
        sort(&mut entries);
        Tree {
            entries,
            blocks,
            nodes,
            room,
            version,
        }
    }

    /// The blocks that the tree takes up.
    pub fn used(&self) -> u32
        ensures { result ≡ used self.now.tree }
    {
        self.blocks
    }

    /// How many entries the tree has, the root among them.
    pub fn nodes(&self) -> u32
        ensures { result ≡ node_count self.now.tree }
    {
        self.entries.len() as u32
    }

    /// How many entries `at` shows: all of them.
    pub fn len(&self) -> usize
        ensures { result ≡ length (map_of.entries self.now.tree) }
    {
        self.entries().len()
    }

    /// The entry at a place in the order of paths, or None exactly from the end on.
    pub fn at(&self, i: usize) -> Option<(&Path, Entry<'_>)>
        ensures { option_map (λ entry. (entry.0.now, entry_content entry.1)) result ≡ slice_get (map_of.entries self.now.tree) i }
    {
        match self.entries().get(i) {
            None => None,
            Some((path, Content::Dir)) => Some((path, Entry::Dir)),
            Some((path, Content::File(bytes))) => Some((path, Entry::File(bytes))),
        }
    }

    /// Makes the call: its answer, and the tree that it leaves. A refused call changes nothing, and so does
    /// `AllocError`.
    pub fn apply(&mut self, call: &Call) -> Result<Reply, AllocError>
        ensures reply { IfOk result (λ reply. reply ≡ (apply self.old.limits call.now self.old.tree).0) }
        ensures tree { OnOk result (self.new.tree ≡ (apply self.old.limits call.now self.old.tree).1) }
        ensures limits { self.new.limits ≡ self.old.limits }
        ensures err { OnErr result (self.new ≡ self.old) }
    {
        if let Err(refusal) = self.check(call) {
            return Ok(Reply::Refused(refusal));
        }
        let answer = self.answer(call)?;
        self.change(call)?;
        Ok(answer)
    }

    /// Puts an entry that fits at a path where nothing stands. `AllocError` changes nothing.
    pub fn add(&mut self, path: &Path, content: Content) -> Result<(), AllocError>
        requires fits { Fits self.old.limits self.old.tree path.now content }
        requires size { length (bytes_of (Some content)) ≤ longest_file self.old.limits.version }
        ensures ok { OnOk result (self.new.tree ≡ map_of.insert self.old.tree path.now content) }
        ensures limits { self.new.limits ≡ self.old.limits }
        ensures err { OnErr result (self.new ≡ self.old) }
    {
        self.insert(path, content)
    }

    /// Whether both trees have the same entries.
    pub fn same(&self, other: &Tree) -> bool
        ensures { IsTrue result ↔ (self.now.tree ≡ other.now.tree) }
    {
        self.entries() == other.entries()
    }

    /// What the call answers where nothing refuses it.
    fn answer(&self, call: &Call) -> Result<Reply, AllocError>
        ensures { IfOk result (λ reply. reply ≡ answer call.now self.now.tree) }
    {
        match call {
            Call::Read { path, at, count } => {
                let bytes = self.bytes_at(path.as_slice());
                let part = part_of(bytes, *at as usize, *count as usize);
                Ok(Reply::Data(Bytes::from_slice(*self.entries.allocator(), part)?))
            }
            Call::List { path } => Ok(Reply::Listed(self.names_in(path.as_slice())?)),
            Call::Stat { path } => Ok(self.size_of(path.as_slice())),
            Call::Mkdir { .. }
            | Call::Create { .. }
            | Call::Write { .. }
            | Call::Truncate { .. }
            | Call::Unlink { .. }
            | Call::Rmdir { .. }
            | Call::Rename { .. }
            | Call::Fsync { .. } => Ok(Reply::Done),
        }
    }

    /// Makes the tree that the call leaves.
    fn change(&mut self, call: &Call) -> Result<(), AllocError>
        requires accepted { first_refusal (reasons self.old.limits call.now self.old.tree) ≡ None }
        requires tree { IsTree self.old.tree }
        ensures ok { OnOk result (self.new.tree ≡ changed call.now self.old.tree) }
        ensures limits { self.new.limits ≡ self.old.limits }
        ensures err { OnErr result (self.new ≡ self.old) }
    {
        match call {
            Call::Mkdir { path } => self.insert(path, Content::Dir),
            Call::Create { path } => {
                let empty = Content::File(Bytes::new(*self.entries.allocator()));
                self.insert(path, empty)
            }
            Call::Write { path, at, bytes } => {
                self.write(path.as_slice(), *at as usize, bytes.as_slice())
            }
            Call::Truncate { path, size } => {
                self.truncate(path.as_slice(), *size as usize);
                Ok(())
            }
            Call::Unlink { path } | Call::Rmdir { path } => {
                self.remove(path.as_slice());
                Ok(())
            }
            Call::Rename { from, to } => {
                if from == to {
                    return Ok(());
                }
                self.rename(from, to)
            }
            Call::Read { .. } | Call::List { .. } | Call::Stat { .. } | Call::Fsync { .. } => Ok(
                (),
            ),
        }
    }
}

/// The bytes from a place on, at most so many.
fn part_of(bytes: &[u8], at: usize, count: usize) -> &[u8]
    ensures { result.now ≡ take count (drop at bytes.now) }
{
    let rest = &bytes[at.min(bytes.len())..];
    &rest[..count.min(rest.len())]
}
