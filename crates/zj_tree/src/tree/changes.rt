//! Entries put into a tree, written and taken out.

ghost use Rattle.std.specs.Prelude.{◌≡◌, ◌≢◌, ◌+◌, ◌<◌, ◌≤◌, length, take, OnOk, OnErr, Some, None, IsSome};
ghost use Rattle.std.specs.FinMap as map_of;
ghost use Rattle.zj_tree.specs.Tree.{content_at, entry_count, used, node_count};
ghost use Rattle.zj_tree.specs.Path.{parent};
ghost use Rattle.zj_tree.specs.Bytes.{overwritten};
ghost use Rattle.zj_tree.specs.Changed.{bytes_of, bytes_at};
ghost use Rattle.zj_tree.specs.Apply.{longest_file};
ghost use Rattle.zj_tree.specs.declared.content.Content.TheVariants.{Dir, File};

use super::Tree;
use crate::content::Content;
use crate::name::Name;
use crate::path::Path;
use std::alloc::AllocError;

impl Tree {
    /// Puts a new entry at its path.
    pub(super) fn insert(&mut self, path: &Path, content: Content) -> Result<(), AllocError>
        requires absent { content_at self.old.tree path.now ≡ None }
        requires directory { content_at self.old.tree (parent path.now) ≡ Some Dir }
        requires nodes { node_count self.old.tree ≢ self.old.limits.nodes }
        requires room { used (map_of.insert self.old.tree path.now content) ≤ self.old.limits.room }
        requires size { length (bytes_of (Some content)) ≤ longest_file self.old.limits.version }
        ensures ok { OnOk result (self.new.tree ≡ map_of.insert self.old.tree path.now content) }
        ensures limits { self.new.limits ≡ self.old.limits }
        ensures err { OnErr result (self.new ≡ self.old) }
    {
        let blocks = self.blocks_with(path, &content);
        let at = self.place_of(path.as_slice());
        let path = path.copy(*self.entries.allocator())?;
        self.entries.insert(at, (path, content))?;
        self.blocks = blocks as u32;
        Ok(())
    }

    /// Puts bytes over those of a file from a place on.
    pub(super) fn write(&mut self, path: &[Name], at: usize, bytes: &[u8]) -> Result<(), AllocError>
        requires file { content_at self.old.tree path.now ≡ Some (File (bytes_at self.old.tree path.now)) }
        requires within { at ≤ length (bytes_at self.old.tree path.now) }
        requires size { at + length bytes.now ≤ longest_file self.old.limits.version }
        requires room { used (map_of.insert self.old.tree path.now (File (overwritten (bytes_at self.old.tree path.now) at bytes.now))) ≤ self.old.limits.room }
        ensures ok { OnOk result (self.new.tree ≡ map_of.insert self.old.tree path.now (File (overwritten (bytes_at self.old.tree path.now) at bytes.now))) }
        ensures limits { self.new.limits ≡ self.old.limits }
        ensures err { OnErr result (self.new ≡ self.old) }
    {
        let size = self.bytes_at(path).len().max(at + bytes.len());
        let blocks = self.blocks_resized(path, size);
        let place = self.place_at(path);
        self.entries[place].1.write(at, bytes)?;
        self.blocks = blocks as u32;
        Ok(())
    }

    /// Leaves the first bytes of a file.
    pub(super) fn truncate(&mut self, path: &[Name], size: usize)
        requires file { content_at self.old.tree path.now ≡ Some (File (bytes_at self.old.tree path.now)) }
        ensures tree { self.new.tree ≡ map_of.insert self.old.tree path.now (File (take size (bytes_at self.old.tree path.now))) }
        ensures limits { self.new.limits ≡ self.old.limits }
    {
        let blocks = self.blocks_resized(path, self.bytes_at(path).len().min(size));
        let place = self.place_at(path);
        self.entries[place].1.truncate(size);
        self.blocks = blocks as u32;
    }

    /// Takes out an entry that has no entries itself.
    pub(super) fn remove(&mut self, path: &[Name])
        requires there { IsSome (content_at self.old.tree path.now) }
        requires below_root { 0 < length path.now }
        requires empty { entry_count self.old.tree path.now ≡ 0 }
        ensures tree { self.new.tree ≡ map_of.remove self.old.tree path.now }
        ensures limits { self.new.limits ≡ self.old.limits }
    {
        let blocks = self.blocks_without(path);
        let place = self.place_at(path);
        self.entries.remove(place);
        self.blocks = blocks as u32;
    }
}
