//! Why a call is refused: its reasons in order, of which the first that counts is told.

ghost use Rattle.std.specs.Prelude.{◌≡◌, ◌+◌, ◌==◌, ◌&&◌, ◌||◌, length, nat_lt, OnOk, if◌then◌else◌, None, false};
ghost use Rattle.std.specs.Result.{result_err};
ghost use Rattle.std.specs.FinMap as map_of;
ghost use Rattle.zj_tree.specs.Tree.{IsTree, content_at, entry_count};
ghost use Rattle.zj_tree.specs.Path.{parent, begins_with, same_path};
ghost use Rattle.zj_tree.specs.Apply.{refuse_if, first_refusal, resolve, nothing, no_directory, no_file, past_end, longest_file, most_bytes, is_directory, no_replacing, adds_entry, new_entry_reasons, move_reasons, reasons, Fits};
ghost use Rattle.zj_tree.specs.declared.call.Call.TheVariants as calls;
ghost use Rattle.zj_tree.specs.declared.call.Refusal.TheVariants as refusals;

use super::looks::{are_beside, parent_of};
use super::{MAX_BYTES, MAX_ENTRIES, MAX_LONG_FILE, Tree};
use crate::bytes::Bytes;
use crate::call::{Call, Refusal};
use crate::content::Content;
use crate::name::Name;
use crate::path::Path;

impl Tree {
    /// Err with the first reason to refuse the call, or Ok where none counts.
    pub(super) fn check(&self, call: &Call) -> Result<(), Refusal>
        ensures reason { result_err result ≡ first_refusal (reasons self.now.limits call.now self.now.tree) }
        ensures tree { IsTree self.now.tree }
    {
        match call {
            Call::Mkdir { path } => self.check_new_entry(path, &Content::Dir),
            Call::Create { path } => {
                let empty = Content::File(Bytes::new(*self.entries.allocator()));
                self.check_new_entry(path, &empty)
            }
            Call::Write { path, at, bytes } => {
                self.check_write(path.as_slice(), *at, bytes.as_slice())
            }
            Call::Read { path, at, count } => self.check_read(path.as_slice(), *at, *count),
            Call::Truncate { path, size } => self.check_truncate(path.as_slice(), *size),
            Call::Unlink { path } => self.check_file(path.as_slice()),
            Call::Rmdir { path } => self.check_rmdir(path.as_slice()),
            Call::Rename { from, to } => self.check_rename(from.as_slice(), to.as_slice()),
            Call::List { path } => self.check_directory(path.as_slice()),
            Call::Stat { path } | Call::Fsync { path } => self.check_there(path.as_slice()),
        }
    }

    /// A path has to lead somewhere.
    fn check_there(&self, path: &[Name]) -> Result<(), Refusal>
        ensures reason { result_err result ≡ nothing (resolve self.now.tree path.now) }
        ensures tree { IsTree self.now.tree }
    {
        self.resolve(path)?;
        Ok(())
    }

    /// A path has to lead to a directory.
    fn check_directory(&self, path: &[Name]) -> Result<(), Refusal>
        ensures reason { result_err result ≡ no_directory (resolve self.now.tree path.now) }
        ensures tree { IsTree self.now.tree }
    {
        match self.resolve(path)? {
            Content::Dir => Ok(()),
            Content::File(_) => Err(Refusal::NotDir),
        }
    }

    /// A path has to lead to a file.
    fn check_file(&self, path: &[Name]) -> Result<(), Refusal>
        ensures reason { result_err result ≡ no_file (resolve self.now.tree path.now) }
        ensures tree { IsTree self.now.tree }
    {
        match self.resolve(path)? {
            Content::Dir => Err(Refusal::IsDir),
            Content::File(_) => Ok(()),
        }
    }

    /// Whether a new entry fits: Err with the first reason that counts against it.
    pub fn check_new_entry(&self, path: &Path, content: &Content) -> Result<(), Refusal>
        ensures reason { result_err result ≡ first_refusal (new_entry_reasons self.now.limits self.now.tree path.now (map_of.insert self.now.tree path.now content.now)) }
        ensures fits { OnOk result (Fits self.now.limits self.now.tree path.now content.now) }
        ensures tree { IsTree self.now.tree }
    {
        let names = path.as_slice();
        let parent = parent_of(names);
        let there = self.content_at(names).is_some();
        refuse_if(names.is_empty(), Refusal::Exists)?;
        self.check_directory(parent)?;
        refuse_if(there, Refusal::Exists)?;
        refuse_if(self.entry_count(parent) == MAX_ENTRIES, Refusal::DirFull)?;
        refuse_if(self.nodes() == self.nodes, Refusal::NoNodes)?;
        self.check_room(self.blocks_with(path, content))
    }

    /// Bytes are to be put into a file.
    fn check_write(&self, path: &[Name], at: u32, bytes: &[u8]) -> Result<(), Refusal>
        ensures reason { result_err result ≡ first_refusal (reasons self.now.limits (calls.Write path.now at bytes.now) self.now.tree) }
        ensures tree { IsTree self.now.tree }
    {
        self.check_file(path)?;
        self.check_end(path, at)?;
        refuse_if(self.is_too_big(at, bytes.len()), Refusal::TooBig)?;
        let end = at as usize + bytes.len();
        self.check_room(self.blocks_resized(path, self.bytes_at(path).len().max(end)))
    }

    /// Bytes of a file are to be told.
    fn check_read(&self, path: &[Name], at: u32, count: u32) -> Result<(), Refusal>
        ensures reason { result_err result ≡ first_refusal (reasons self.now.limits (calls.Read path.now at count) self.now.tree) }
        ensures tree { IsTree self.now.tree }
    {
        self.check_file(path)?;
        self.check_end(path, at)?;
        refuse_if(count as usize > MAX_BYTES, Refusal::TooBig)
    }

    /// The first bytes of a file are to stay.
    fn check_truncate(&self, path: &[Name], size: u32) -> Result<(), Refusal>
        ensures reason { result_err result ≡ first_refusal (reasons self.now.limits (calls.Truncate path.now size) self.now.tree) }
        ensures tree { IsTree self.now.tree }
    {
        self.check_file(path)?;
        self.check_end(path, size)
    }

    /// A directory is to be removed.
    fn check_rmdir(&self, path: &[Name]) -> Result<(), Refusal>
        ensures reason { result_err result ≡ first_refusal (reasons self.now.limits (calls.Rmdir path.now) self.now.tree) }
        ensures tree { IsTree self.now.tree }
    {
        self.check_directory(path)?;
        refuse_if(path.is_empty(), Refusal::Inside)?;
        refuse_if(self.entry_count(path) > 0, Refusal::NotEmpty)
    }

    /// What stands at a path is to get another.
    fn check_rename(&self, from: &[Name], to: &[Name]) -> Result<(), Refusal>
        ensures reason { result_err result ≡ first_refusal (reasons self.now.limits (calls.Rename from.now to.now) self.now.tree) }
        ensures tree { IsTree self.now.tree }
    {
        self.check_there(from)?;
        refuse_if(from.is_empty(), Refusal::Inside)?;
        if from == to {
            return Ok(());
        }
        self.check_move(from, to)
    }

    /// What stands at a path is to get another one, which is not the same.
    fn check_move(&self, from: &[Name], to: &[Name]) -> Result<(), Refusal>
        requires tree { IsTree self.now.tree }
        requires there { nothing (resolve self.now.tree from.now) ≡ None }
        requires below_root { (length from.now == 0) ≡ false }
        requires other { same_path from.now to.now ≡ false }
        ensures { result_err result ≡ first_refusal (move_reasons self.now.limits self.now.tree from.now to.now) }
    {
        refuse_if(self.is_inside(from, to), Refusal::Inside)?;
        self.check_parent(to)?;
        self.check_replacing(from, to)?;
        refuse_if(self.overfills(from, to), Refusal::DirFull)?;
        self.check_room(self.blocks_renamed(from, to))
    }

    /// The directory of a path has to be one, but the root has none.
    fn check_parent(&self, path: &[Name]) -> Result<(), Refusal>
        ensures { result_err result ≡ (if length path.now == 0 then None else no_directory (resolve self.now.tree (parent path.now))) }
    {
        if path.is_empty() {
            return Ok(());
        }
        self.check_directory(parent_of(path))
    }

    /// What stands at one path is to be put over what stands at another.
    fn check_replacing(&self, from: &[Name], to: &[Name]) -> Result<(), Refusal>
        ensures { result_err result ≡ no_replacing (content_at self.now.tree from.now) (content_at self.now.tree to.now) (entry_count self.now.tree to.now) }
    {
        match (self.content_at(from), self.content_at(to)) {
            (Some(Content::File(_)), Some(Content::Dir)) => Err(Refusal::IsDir),
            (Some(Content::Dir), Some(Content::File(_))) => Err(Refusal::NotDir),
            (Some(Content::Dir), Some(Content::Dir)) => {
                refuse_if(self.entry_count(to) > 0, Refusal::NotEmpty)
            }
            _ => Ok(()),
        }
    }

    /// Whether a directory would be moved into itself.
    fn is_inside(&self, from: &[Name], to: &[Name]) -> bool
        ensures { result ≡ (is_directory (content_at self.now.tree from.now) && begins_with to.now from.now) }
    {
        match self.content_at(from) {
            Some(Content::Dir) => to.starts_with(from),
            _ => false,
        }
    }

    /// Whether a rename would put one entry too many into a directory.
    fn overfills(&self, from: &[Name], to: &[Name]) -> bool
        ensures { result ≡ (adds_entry self.now.tree from.now to.now && entry_count self.now.tree (parent to.now) == 192) }
    {
        if self.content_at(to).is_some() || are_beside(from, to) {
            return false;
        }
        self.entry_count(parent_of(to)) == MAX_ENTRIES
    }

    /// Whether so many bytes from a place on are more than a call, or a file, may have.
    fn is_too_big(&self, at: u32, count: usize) -> bool
        ensures { result ≡ (nat_lt most_bytes count || nat_lt (longest_file self.now.limits.version) (at + count)) }
    {
        if count > MAX_BYTES {
            return true;
        }
        at as usize + count > self.longest_file()
    }

    /// How many bytes a file has at most.
    fn longest_file(&self) -> usize
        ensures { result ≡ longest_file self.now.limits.version }
    {
        if self.version == 1 {
            MAX_BYTES
        } else {
            MAX_LONG_FILE
        }
    }

    /// A place has to lie in a file, or at its end.
    fn check_end(&self, path: &[Name], at: u32) -> Result<(), Refusal>
        ensures { result_err result ≡ past_end self.now.tree path.now at }
    {
        refuse_if(at as usize > self.bytes_at(path).len(), Refusal::PastEnd)
    }

    /// So many blocks have to fit.
    fn check_room(&self, blocks: usize) -> Result<(), Refusal>
        ensures { result_err result ≡ refuse_if (nat_lt self.now.limits.room blocks) refusals.NoSpace }
    {
        refuse_if(blocks > self.room as usize, Refusal::NoSpace)
    }
}

/// Err with the refusal where the condition holds.
fn refuse_if(condition: bool, refusal: Refusal) -> Result<(), Refusal>
    ensures { result_err result ≡ refuse_if condition refusal }
{
    if condition { Err(refusal) } else { Ok(()) }
}
