//! The calls that remove a node: unlink and rmdir.

ghost use Rattle.std.specs.Prelude.{◌≡◌, ◌+◌, ◌≤◌, ◌<◌, IfErr, IfOk, IsTrue, OnOk, Some, [], ◌∷◌, ◌++◌, List, ℕ};
ghost use Rattle.std.specs.FinMap as map_of;
ghost use Rattle.zj_tree.specs.declared.call.Call.TheVariants as calls;
ghost use Rattle.zj_layout.specs.declared.fields.Kind.TheVariants as kinds;
ghost use Rattle.zj_layout.specs.Image.{node_of};
ghost use Rattle.zj_layout.specs.Node.{blocks_needed, is_node};
ghost use Rattle.zj_layout.specs.Stored.{IsStored};
ghost use Rattle.zj_changes.specs.Resized.{FreesNode};
ghost use Rattle.zj_dirs.specs.Changing.{Removes};
ghost use Rattle.zj_dirs.specs.Possible.{AllTaken, Always, KeepsContents, Made, Turns};
ghost use Rattle.zj_inode.specs.Answering.{Builds, CallStops};
ghost use Rattle.zj_inode.specs.Finding.{IsTarget};
ghost use Rattle.zj_inode.specs.Removing.{DetachStops, Detaches, IsLeafNode, ReleaseStops, RemoveStops};

use crate::finding::{Target, go_to_entry, split};
use crate::making::empty;
use crate::stopped::Stopped;
use zj_block::{BLOCK_LEN, Sizes, Taken, Written};
use zj_dirs::answers::Change;
use zj_dirs::changing::remove;
use zj_dirs::looking::named_data;
use zj_dirs::setting::{set_map, set_node};
use zj_layout::{Kind, LINKS_PER_BLOCK, Node};
use zj_tree::{Name, Refusal, Reply};

/// Removes a file. After an error `built` is to be dropped.
pub(crate) fn unlink(
    sizes: &Sizes,
    path: &[Name],
    taken: &Taken,
    built: &mut Written,
) -> Result<Reply, Stopped>
    requires fresh { built.old ≡ map_of.empty }
    ensures done { IfOk result (Builds sizes.now taken.now built.new (calls.Unlink path.now)) }
    ensures taken { AllTaken taken.now built.old → AllTaken taken.now built.new }
    ensures few { map_of.len built.new ≤ map_of.len built.old + 16 }
    ensures stop { IfErr result (CallStops sizes.now taken.now (calls.Unlink path.now)) }
{
    let Some((front, name)) = split(path) else {
        return Err(Stopped::Refused(Refusal::IsDir));
    };
    let target = go_to_entry(sizes, front, name, taken, &*built)?;
    match target.node.kind {
        Kind::File => detach(sizes, &target, taken, built),
        Kind::Dir => Err(Stopped::Refused(Refusal::IsDir)),
        Kind::Free => Err(Stopped::Odd),
    }
}

/// Removes a directory that has no entries. After an error `built` is to be dropped.
pub(crate) fn rmdir(
    sizes: &Sizes,
    path: &[Name],
    taken: &Taken,
    built: &mut Written,
) -> Result<Reply, Stopped>
    requires fresh { built.old ≡ map_of.empty }
    ensures done { IfOk result (Builds sizes.now taken.now built.new (calls.Rmdir path.now)) }
    ensures taken { AllTaken taken.now built.old → AllTaken taken.now built.new }
    ensures few { map_of.len built.new ≤ map_of.len built.old + 16 }
    ensures stop { IfErr result (CallStops sizes.now taken.now (calls.Rmdir path.now)) }
{
    let Some((front, name)) = split(path) else {
        return Err(Stopped::Refused(Refusal::Inside));
    };
    let target = go_to_entry(sizes, front, name, taken, &*built)?;
    match target.node.kind {
        Kind::File => Err(Stopped::Refused(Refusal::NotDir)),
        Kind::Free => Err(Stopped::Odd),
        Kind::Dir => {
            if target.node.size > 0 {
                return Err(Stopped::Refused(Refusal::NotEmpty));
            }
            detach(sizes, &target, taken, built)
        }
    }
}

/// Removes an entry, and frees its node, which has no entries.
fn detach(
    sizes: &Sizes,
    target: &Target,
    taken: &Taken,
    built: &mut Written,
) -> Result<Reply, Stopped>
    requires fresh { built.old ≡ map_of.empty }
    requires at { (front : List (List ℕ)) × (name : List ℕ) × Always sizes.now taken.now (λ image. IsTarget image front name target.now) }
    requires spelled { IsTrue (is_node target.now.node) }
    requires leaf { IsLeafNode target.now.node }
    ensures done { IfOk result (Detaches sizes.now taken.now built.new target.now) }
    ensures taken { AllTaken taken.now built.old → AllTaken taken.now built.new }
    ensures few { map_of.len built.new ≤ map_of.len built.old + 16 }
    ensures stop { IfErr result (DetachStops sizes.now taken.now target.now) }
{
    remove_at(sizes, target.dir, target.place, taken, built)?;
    release(sizes, target.number, &target.node, taken, built)?;
    let _contents = built.len();
    Ok(Reply::Done)
}

/// Removes the entry at a place of a directory. After an error `built` is to be dropped.
pub(crate) fn remove_at(
    sizes: &Sizes,
    dir: u32,
    place: u32,
    taken: &Taken,
    built: &mut Written,
) -> Result<(), Stopped>
    requires stored { Made sizes.now taken.now built.old (IsStored sizes.now) }
    requires directory { Made sizes.now taken.now built.old (λ image. (node_of image dir).kind ≡ kinds.Dir) }
    requires place { Made sizes.now taken.now built.old (λ image. place < (node_of image dir).size) }
    ensures done { OnOk result (Turns sizes.now taken.now built.old built.new (λ old new. Removes sizes.now old new dir place)) }
    ensures taken { AllTaken taken.now built.old → AllTaken taken.now built.new }
    ensures kept { KeepsContents taken.now built.old built.new }
    ensures few { map_of.len built.new ≤ map_of.len built.old + 3 }
    ensures stop { IfErr result (RemoveStops sizes.now taken.now built.old dir place) }
{
    match remove(sizes, dir, place, taken, built)? {
        Change::Done => Ok(()),
        Change::Need(block) => Err(Stopped::Need(block)),
        Change::DirFull => Err(Stopped::Odd),
        Change::NoSpace => Err(Stopped::Odd),
        Change::Odd => Err(Stopped::Odd),
    }
}

/// Frees the blocks of a node, and then the node. After an error `built` is to be dropped.
pub(crate) fn release(
    sizes: &Sizes,
    number: u32,
    node: &Node,
    taken: &Taken,
    built: &mut Written,
) -> Result<(), Stopped>
    requires stored { Made sizes.now taken.now built.old (IsStored sizes.now) }
    requires node { Made sizes.now taken.now built.old (λ image. image.node number ≡ Some node.now) }
    requires spelled { IsTrue (is_node node.now) }
    ensures done { OnOk result (Turns sizes.now taken.now built.old built.new (λ old new. FreesNode old new number)) }
    ensures taken { AllTaken taken.now built.old → AllTaken taken.now built.new }
    ensures kept { KeepsContents taken.now built.old built.new }
    ensures few { map_of.len built.new ≤ map_of.len built.old + 13 }
    ensures stop { IfErr result (ReleaseStops sizes.now taken.now built.old number) }
{
    for j in 0..block_count(node) {
        named_data(sizes, node.blocks[j as usize])?;
        set_map(sizes, node.blocks[j as usize], false, taken, built)?;
    }
    Ok(set_node(sizes, number, &empty(Kind::Free), taken, built)?)
}

/// How many blocks a node names.
pub(crate) fn block_count(node: &Node) -> u32
    requires { IsTrue (is_node node.now) }
    ensures value { result ≡ blocks_needed node.now }
    ensures few { result ≤ 12 }
{
    match node.kind {
        Kind::Free => 0,
        Kind::File => (node.size + BLOCK_LEN as u32 - 1) / BLOCK_LEN as u32,
        Kind::Dir => (node.size + LINKS_PER_BLOCK - 1) / LINKS_PER_BLOCK,
    }
}
