//! Finding nodes by the names of paths, over blocks that were taken.

ghost use Rattle.std.specs.Prelude.{◌≡◌, ◌≤◌, [], ◌∷◌, ◌++◌, IfErr, IfNone, IfOk, IfSome, IsTrue, Some};
ghost use Rattle.std.specs.FinMap as map_of;
ghost use Rattle.zj_layout.specs.declared.fields.Kind.TheVariants as kinds;
ghost use Rattle.zj_layout.specs.Graph.{follow};
ghost use Rattle.zj_layout.specs.Image.{graph_of, node_of};
ghost use Rattle.zj_layout.specs.Node.{is_node};
ghost use Rattle.zj_layout.specs.Stored.{IsStored};
ghost use Rattle.zj_dirs.specs.Possible.{Always, Made};
ghost use Rattle.zj_inode.specs.Finding.{DirStops, FileStops, IsAt, IsEntryOf, IsTarget, NodeStops, SearchStops, WalkStops};

use crate::stopped::Stopped;
use zj_block::{Sizes, Taken, Written};
use zj_dirs::answers::{Find, Walk};
use zj_dirs::looking::{find, read_node};
use zj_dirs::walking::walk_names;
use zj_layout::{Kind, Node};
use zj_tree::{Name, Refusal};

/// A node by its number.
#[derive(Clone, Copy, Debug)]
pub(crate) struct Located {
    pub(crate) number: u32,
    pub(crate) node: Node,
}

/// An entry by its place, and the node that it leads to.
#[derive(Clone, Copy, Debug)]
pub(crate) struct Entry {
    pub(crate) place: u32,
    pub(crate) node: u32,
}

/// An entry by its directory and its place, and the node that it leads to.
#[derive(Clone, Copy, Debug)]
pub(crate) struct Target {
    pub(crate) dir: u32,
    pub(crate) place: u32,
    pub(crate) number: u32,
    pub(crate) node: Node,
}

/// The names before the last one, and the last: None for the path of the root.
pub(crate) fn split(path: &[Name]) -> Option<(&[Name], &Name)>
    ensures some { IfSome result (λ s. path.now ≡ s.0.now ++ s.1.now ∷ []) }
    ensures none { IfNone result (path.now ≡ []) }
{
    if path.is_empty() {
        return None;
    }
    let last = path.len() - 1;
    Some((&path[..last], &path[last]))
}

/// The number of the node that names lead to.
pub(crate) fn go(sizes: &Sizes, names: &[Name], taken: &Taken) -> Result<u32, Stopped>
    ensures ok { IfOk result (λ node. Always sizes.now taken.now (λ image. follow (graph_of image) 0 names.now ≡ Some node)) }
    ensures stop { IfErr result (WalkStops sizes.now taken.now names.now) }
{
    match walk_names(sizes, names, taken) {
        Walk::Found { node } => Ok(node),
        Walk::Need(block) => Err(Stopped::Need(block)),
        Walk::NotFound => Err(Stopped::Refused(Refusal::NotFound)),
        Walk::NotDir => Err(Stopped::Refused(Refusal::NotDir)),
        Walk::Odd => Err(Stopped::Odd),
    }
}

/// The node that names lead to.
pub(crate) fn go_to_node(sizes: &Sizes, names: &[Name], taken: &Taken) -> Result<Located, Stopped>
    ensures ok { IfOk result (λ found. Always sizes.now taken.now (λ image. IsAt image names.now found)) }
    ensures spelled { IfOk result (λ found. IsTrue (is_node found.node)) }
    ensures stop { IfErr result (NodeStops sizes.now taken.now names.now) }
{
    let number = go(sizes, names, taken)?;
    let node = read_node(sizes, number, taken, None)?;
    Ok(Located { number, node })
}

/// The directory that names lead to.
pub(crate) fn go_to_dir(sizes: &Sizes, names: &[Name], taken: &Taken) -> Result<Located, Stopped>
    ensures ok { IfOk result (λ found. Always sizes.now taken.now (λ image. IsAt image names.now found)) }
    ensures directory { IfOk result (λ found. found.node.kind ≡ kinds.Dir) }
    ensures few { IfOk result (λ found. found.node.size ≤ 192) }
    ensures stop { IfErr result (DirStops sizes.now taken.now names.now) }
{
    let found = go_to_node(sizes, names, taken)?;
    match found.node.kind {
        Kind::Dir => Ok(found),
        Kind::File => Err(Stopped::Refused(Refusal::NotDir)),
        Kind::Free => Err(Stopped::Odd),
    }
}

/// The file that names lead to.
pub(crate) fn go_to_file(sizes: &Sizes, names: &[Name], taken: &Taken) -> Result<Located, Stopped>
    ensures ok { IfOk result (λ found. Always sizes.now taken.now (λ image. IsAt image names.now found)) }
    ensures file { IfOk result (λ found. found.node.kind ≡ kinds.File) }
    ensures spelled { IfOk result (λ found. IsTrue (is_node found.node)) }
    ensures few { IfOk result (λ found. found.node.size ≤ 6144) }
    ensures stop { IfErr result (FileStops sizes.now taken.now names.now) }
{
    let found = go_to_node(sizes, names, taken)?;
    match found.node.kind {
        Kind::File => Ok(found),
        Kind::Dir => Err(Stopped::Refused(Refusal::IsDir)),
        Kind::Free => Err(Stopped::Odd),
    }
}

/// The entry of a directory with a name, if it has one, over `taken` with the blocks of `built` put in.
pub(crate) fn entry_of(
    sizes: &Sizes,
    dir: u32,
    name: &Name,
    taken: &Taken,
    built: &Written,
) -> Result<Option<Entry>, Stopped>
    requires stored { Made sizes.now taken.now built.now (IsStored sizes.now) }
    requires directory { Made sizes.now taken.now built.now (λ image. (node_of image dir).kind ≡ kinds.Dir) }
    ensures ok { IfOk result (λ entry. Made sizes.now taken.now built.now (λ image. IsEntryOf image dir name.now entry)) }
    ensures stop { IfErr result (SearchStops sizes.now taken.now built.now dir name.now) }
{
    match find(sizes, dir, name, taken, built) {
        Find::Found { place, node } => Ok(Some(Entry { place, node })),
        Find::Absent => Ok(None),
        Find::Need(block) => Err(Stopped::Need(block)),
        Find::Odd => Err(Stopped::Odd),
    }
}

/// The entry that names and a last one lead to. Nothing is built yet.
pub(crate) fn go_to_entry(
    sizes: &Sizes,
    front: &[Name],
    name: &Name,
    taken: &Taken,
    built: &Written,
) -> Result<Target, Stopped>
    requires fresh { built.now ≡ map_of.empty }
    ensures ok { IfOk result (λ target. Always sizes.now taken.now (λ image. IsTarget image front.now name.now target)) }
    ensures spelled { IfOk result (λ target. IsTrue (is_node target.node)) }
    ensures stop { IfErr result (NodeStops sizes.now taken.now (front.now ++ name.now ∷ [])) }
{
    let dir = go_to_dir(sizes, front, taken)?;
    let Some(entry) = entry_of(sizes, dir.number, name, taken, built)? else {
        return Err(Stopped::Refused(Refusal::NotFound));
    };
    let node = read_node(sizes, entry.node, taken, None)?;
    Ok(Target {
        dir: dir.number,
        place: entry.place,
        number: entry.node,
        node,
    })
}
