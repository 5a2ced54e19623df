//! The call that moves an entry: rename.

ghost use Rattle.std.specs.Prelude.{◌≡◌, ◌↔◌, ℕ, ◌+◌, ◌<◌, ◌≤◌, List, IfErr, IfOk, IsTrue, None, OnOk, Some};
ghost use Rattle.std.specs.FinMap as map_of;
ghost use Rattle.zj_tree.specs.declared.call.Call.TheVariants as calls;
ghost use Rattle.zj_tree.specs.declared.call.Refusal.TheVariants as refusals;
ghost use Rattle.zj_inode.specs.declared.stopped.Stopped.TheVariants as stops;
ghost use Rattle.zj_layout.specs.declared.fields.Kind.TheVariants as kinds;
ghost use Rattle.zj_layout.specs.Graph.{step};
ghost use Rattle.zj_layout.specs.Image.{graph_of, item_block};
ghost use Rattle.zj_layout.specs.Stored.{IsStored};
ghost use Rattle.zj_changes.specs.Holds.{Matches, Renames, RenamesOver};
ghost use Rattle.zj_changes.specs.Moved.{Begins};
ghost use Rattle.zj_changes.specs.Resized.{ReplacesEntry};
ghost use Rattle.zj_dirs.specs.Looking.{StandsAt};
ghost use Rattle.zj_dirs.specs.Possible.{AllTaken, Always, Halts, KeepsContents, Made, Turns};
ghost use Rattle.zj_inode.specs.Answering.{Builds, CallStops};
ghost use Rattle.zj_inode.specs.Renaming.{FitsOver, Moves, StandsInTheWay};

use crate::finding::{Entry, Located, Target, entry_of, go_to_dir, go_to_entry, split};
use crate::making::add_entry;
use crate::removing::{release, remove_at};
use crate::stopped::Stopped;
use zj_block::{BlockNo, Sizes, Taken, Written};
use zj_dirs::answers::Halt;
use zj_dirs::looking::{named_data, read_node, seen};
use zj_dirs::setting::set_content;
use zj_layout::{Kind, LINKS_PER_BLOCK, Link, Node, put_link};
use zj_tree::{Name, Refusal, Reply};

/// Gives what stands at a path another path. After an error `built` is to be dropped.
pub(crate) fn rename(
    sizes: &Sizes,
    from: &[Name],
    to: &[Name],
    taken: &Taken,
    built: &mut Written,
) -> Result<Reply, Stopped>
    requires fresh { built.old ≡ map_of.empty }
    ensures done { IfOk result (Builds sizes.now taken.now built.new (calls.Rename from.now to.now)) }
    ensures taken { AllTaken taken.now built.old → AllTaken taken.now built.new }
    ensures few { map_of.len built.new ≤ map_of.len built.old + 17 }
    ensures stop { IfErr result (CallStops sizes.now taken.now (calls.Rename from.now to.now)) }
{
    let Some((front, name)) = split(from) else {
        return Err(Stopped::Refused(Refusal::Inside));
    };
    let old = go_to_entry(sizes, front, name, taken, &*built)?;
    if from == to {
        return Ok(Reply::Done);
    }
    if goes_inside(&old.node, to, from) {
        return Err(Stopped::Refused(Refusal::Inside));
    }
    let Some((to_front, to_name)) = split(to) else {
        return Err(onto_root(&old.node));
    };
    let to_dir = go_to_dir(sizes, to_front, taken)?;
    let link = Link {
        node: old.number,
        name: *to_name,
    };
    match entry_of(sizes, to_dir.number, to_name, taken, &*built)? {
        Some(onto) => move_over(sizes, &old, &to_dir, &onto, &link, taken, built)?,
        None => move_to(sizes, &old, to_dir.number, &link, taken, built)?,
    }
    let _contents = built.len();
    Ok(Reply::Done)
}

/// Whether a path is below that of a directory.
fn goes_inside(node: &Node, path: &[Name], own: &[Name]) -> bool
    ensures { IsTrue result ↔ ((node.now.kind ≡ kinds.Dir) × Begins path.now own.now) }
{
    match node.kind {
        Kind::Dir => begins(path, own),
        Kind::File => false,
        Kind::Free => false,
    }
}

/// Whether a path begins with another.
fn begins(path: &[Name], front: &[Name]) -> bool
    ensures { IsTrue result ↔ Begins path.now front.now }
{
    if front.len() > path.len() {
        return false;
    }
    &path[..front.len()] == front
}

/// Why a node can't get the path of the root.
fn onto_root(node: &Node) -> Stopped
    ensures file { node.now.kind ≡ kinds.File → result ≡ stops.Refused refusals.IsDir }
    ensures directory { node.now.kind ≡ kinds.Dir → result ≡ stops.Refused refusals.NotEmpty }
    ensures free { node.now.kind ≡ kinds.Free → result ≡ stops.Odd }
{
    match node.kind {
        Kind::File => Stopped::Refused(Refusal::IsDir),
        Kind::Dir => Stopped::Refused(Refusal::NotEmpty),
        Kind::Free => Stopped::Odd,
    }
}

/// Moves an entry to a name that a directory lacks. After an error `built` is to be dropped.
fn move_to(
    sizes: &Sizes,
    old: &Target,
    to_dir: u32,
    link: &Link,
    taken: &Taken,
    built: &mut Written,
) -> Result<(), Stopped>
    requires fresh { built.old ≡ map_of.empty }
    requires moves { (from : List (List ℕ)) × (to : List (List ℕ)) × Moves sizes.now taken.now from to old.now to_dir link.now }
    requires absent { Always sizes.now taken.now (λ image. step (graph_of image) to_dir link.now.name ≡ None) }
    ensures done { OnOk result (Turns sizes.now taken.now built.old built.new (λ before after. Renames sizes.now before after old.now.dir old.now.place to_dir link.now)) }
    ensures taken { AllTaken taken.now built.old → AllTaken taken.now built.new }
    ensures few { map_of.len built.new ≤ map_of.len built.old + 6 }
    ensures stop { (from to : List (List ℕ)) → Moves sizes.now taken.now from to old.now to_dir link.now → IfErr result (CallStops sizes.now taken.now (calls.Rename from to)) }
{
    remove_at(sizes, old.dir, old.place, taken, built)?;
    add_entry(sizes, to_dir, link, taken, built)
}

/// Moves an entry onto another one, whose node it frees. After an error `built` is to be dropped.
fn move_over(
    sizes: &Sizes,
    old: &Target,
    to_dir: &Located,
    onto: &Entry,
    link: &Link,
    taken: &Taken,
    built: &mut Written,
) -> Result<(), Stopped>
    requires fresh { built.old ≡ map_of.empty }
    requires moves { (from : List (List ℕ)) × (to : List (List ℕ)) × Moves sizes.now taken.now from to old.now to_dir.now.number link.now }
    requires node { Always sizes.now taken.now (λ image. image.node to_dir.now.number ≡ Some to_dir.now.node) }
    requires directory { to_dir.now.node.kind ≡ kinds.Dir }
    requires few { to_dir.now.node.size ≤ 192 }
    requires stands { Always sizes.now taken.now (λ image. StandsAt image to_dir.now.number link.now.name onto.now.place onto.now.node) }
    ensures matches { OnOk result (Always sizes.now taken.now (λ image. Matches image old.now.number onto.now.node)) }
    ensures done { OnOk result (Turns sizes.now taken.now built.old built.new (λ before after. RenamesOver sizes.now before after old.now.dir old.now.place to_dir.now.number onto.now.place link.now onto.now.node)) }
    ensures taken { AllTaken taken.now built.old → AllTaken taken.now built.new }
    ensures few { map_of.len built.new ≤ map_of.len built.old + 17 }
    ensures stop { (from to : List (List ℕ)) → Moves sizes.now taken.now from to old.now to_dir.now.number link.now → IfErr result (CallStops sizes.now taken.now (calls.Rename from to)) }
{
    let node = read_node(sizes, onto.node, taken, None)?;
    fits_over(&old.node, &node)?;
    replace(sizes, to_dir, onto.place, link, taken, built)?;
    remove_at(sizes, old.dir, old.place, taken, built)?;
    release(sizes, onto.node, &node, taken, built)
}

/// Whether a node may take the place of another.
fn fits_over(moved: &Node, onto: &Node) -> Result<(), Stopped>
    ensures ok { OnOk result (FitsOver moved.now onto.now) }
    ensures stop { IfErr result (StandsInTheWay moved.now onto.now) }
{
    match moved.kind {
        Kind::File => match onto.kind {
            Kind::File => Ok(()),
            Kind::Dir => Err(Stopped::Refused(Refusal::IsDir)),
            Kind::Free => Err(Stopped::Odd),
        },
        Kind::Dir => match onto.kind {
            Kind::File => Err(Stopped::Refused(Refusal::NotDir)),
            Kind::Dir => is_empty(onto),
            Kind::Free => Err(Stopped::Odd),
        },
        Kind::Free => Err(Stopped::Odd),
    }
}

/// Whether a directory has no entries.
fn is_empty(node: &Node) -> Result<(), Stopped>
    ensures ok { OnOk result (node.now.size ≡ 0) }
    ensures stop { IfErr result (λ stopped. (stopped ≡ stops.Refused refusals.NotEmpty) × (0 < node.now.size)) }
{
    if node.size > 0 {
        return Err(Stopped::Refused(Refusal::NotEmpty));
    }
    Ok(())
}

/// Puts an entry over the one at a place of a directory. After an error `built` is to be dropped.
fn replace(
    sizes: &Sizes,
    dir: &Located,
    place: u32,
    link: &Link,
    taken: &Taken,
    built: &mut Written,
) -> Result<(), Halt>
    requires stored { Made sizes.now taken.now built.old (IsStored sizes.now) }
    requires node { Made sizes.now taken.now built.old (λ image. image.node dir.now.number ≡ Some dir.now.node) }
    requires directory { dir.now.node.kind ≡ kinds.Dir }
    requires few { dir.now.node.size ≤ 192 }
    requires place { Made sizes.now taken.now built.old (λ image. place < dir.now.node.size) }
    ensures done { OnOk result (Turns sizes.now taken.now built.old built.new (λ before after. ReplacesEntry sizes.now before after dir.now.number place link.now)) }
    ensures taken { AllTaken taken.now built.old → AllTaken taken.now built.new }
    ensures kept { KeepsContents taken.now built.old built.new }
    ensures few { map_of.len built.new ≤ map_of.len built.old + 1 }
    ensures halt { IfErr result (Halts sizes.now taken.now built.old (λ image block. block ≡ item_block image dir.now.number place)) }
{
    if place >= dir.node.size {
        return Err(Halt::Odd);
    }
    let block = dir.node.blocks[(place / LINKS_PER_BLOCK) as usize];
    named_data(sizes, block)?;
    let Some(found) = seen(BlockNo(block), taken, Some(&*built)) else {
        return Err(Halt::Need(BlockNo(block)));
    };
    let mut content = *found;
    put_link(&mut content, place % LINKS_PER_BLOCK, link);
    set_content(sizes, block, &content, taken, built)
}
