//! The calls that make a node: mkdir and create.

ghost use Rattle.std.specs.Prelude.{◌≡◌, ◌≢◌, ◌+◌, ◌≤◌, IfErr, IfOk, IsTrue, OnOk};
ghost use Rattle.std.specs.FinMap as map_of;
ghost use Rattle.zj_layout.specs.declared.fields.Kind.TheVariants as kinds;
ghost use Rattle.zj_layout.specs.Image.{node_of};
ghost use Rattle.zj_layout.specs.Node.{is_node};
ghost use Rattle.zj_layout.specs.Stored.{IsStored};
ghost use Rattle.zj_changes.specs.Holds.{empty_node, making};
ghost use Rattle.zj_dirs.specs.Changing.{Places};
ghost use Rattle.zj_dirs.specs.Possible.{AllTaken, KeepsContents, Made, Turns};
ghost use Rattle.zj_inode.specs.Answering.{Builds, CallStops};
ghost use Rattle.zj_inode.specs.Making.{AddStops, TakeStops, TakesNode};

use crate::finding::{entry_of, go_to_dir, split};
use crate::stopped::Stopped;
use zj_block::{Sizes, Taken, Written};
use zj_dirs::answers::Change;
use zj_dirs::changing::place;
use zj_dirs::searching::free_node;
use zj_dirs::setting::set_node;
use zj_layout::{Kind, Link, Node};
use zj_tree::tree::MAX_ENTRIES;
use zj_tree::{Name, Refusal, Reply};

/// Makes an empty directory or an empty file. After an error `built` is to be dropped.
pub(crate) fn make_entry(
    sizes: &Sizes,
    kind: Kind,
    path: &[Name],
    taken: &Taken,
    built: &mut Written,
) -> Result<Reply, Stopped>
    requires new { kind ≢ kinds.Free }
    requires fresh { built.old ≡ map_of.empty }
    ensures done { IfOk result (Builds sizes.now taken.now built.new (making kind path.now)) }
    ensures taken { AllTaken taken.now built.old → AllTaken taken.now built.new }
    ensures few { map_of.len built.new ≤ map_of.len built.old + 4 }
    ensures stop { IfErr result (CallStops sizes.now taken.now (making kind path.now)) }
{
    let Some((front, name)) = split(path) else {
        return Err(Stopped::Refused(Refusal::Exists));
    };
    let dir = go_to_dir(sizes, front, taken)?;
    match entry_of(sizes, dir.number, name, taken, &*built)? {
        None => {}
        Some(_entry) => return Err(Stopped::Refused(Refusal::Exists)),
    }
    if dir.node.size >= MAX_ENTRIES as u32 {
        return Err(Stopped::Refused(Refusal::DirFull));
    }
    let number = take_node(sizes, kind, taken, built)?;
    let link = Link {
        node: number,
        name: *name,
    };
    add_entry(sizes, dir.number, &link, taken, built)?;
    let _contents = built.len();
    Ok(Reply::Done)
}

/// Makes the lowest free node an empty one of a kind.
fn take_node(sizes: &Sizes, kind: Kind, taken: &Taken, built: &mut Written) -> Result<u32, Stopped>
    requires fresh { built.old ≡ map_of.empty }
    ensures done { IfOk result (λ number. Turns sizes.now taken.now built.old built.new (λ old new. TakesNode sizes.now old new kind number)) }
    ensures taken { AllTaken taken.now built.old → AllTaken taken.now built.new }
    ensures kept { KeepsContents taken.now built.old built.new }
    ensures few { map_of.len built.new ≤ map_of.len built.old + 1 }
    ensures stop { IfErr result (TakeStops sizes.now taken.now) }
{
    let Some(number) = free_node(sizes, taken, built)? else {
        return Err(Stopped::Refused(Refusal::NoNodes));
    };
    set_node(sizes, number, &empty(kind), taken, built)?;
    Ok(number)
}

/// An empty node of a kind.
pub(crate) fn empty(kind: Kind) -> Node
    ensures value { result ≡ empty_node kind }
    ensures node { IsTrue (is_node result) }
{
    Node {
        kind,
        size: 0,
        blocks: [0; 12],
    }
}

/// Adds an entry to a directory, last. After an error `built` is to be dropped.
pub(crate) fn add_entry(
    sizes: &Sizes,
    dir: u32,
    link: &Link,
    taken: &Taken,
    built: &mut Written,
) -> Result<(), Stopped>
    requires stored { Made sizes.now taken.now built.old (IsStored sizes.now) }
    requires directory { Made sizes.now taken.now built.old (λ image. (node_of image dir).kind ≡ kinds.Dir) }
    ensures done { OnOk result (Turns sizes.now taken.now built.old built.new (λ old new. Places sizes.now old new dir link.now)) }
    ensures taken { AllTaken taken.now built.old → AllTaken taken.now built.new }
    ensures kept { KeepsContents taken.now built.old built.new }
    ensures few { map_of.len built.new ≤ map_of.len built.old + 3 }
    ensures stop { IfErr result (AddStops sizes.now taken.now built.old dir) }
{
    match place(sizes, dir, link, taken, built)? {
        Change::Done => Ok(()),
        Change::Need(block) => Err(Stopped::Need(block)),
        Change::DirFull => Err(Stopped::Refused(Refusal::DirFull)),
        Change::NoSpace => Err(Stopped::Refused(Refusal::NoSpace)),
        Change::Odd => Err(Stopped::Odd),
    }
}
