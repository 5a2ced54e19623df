//! The calls that only look: stat, fsync, list and read.

ghost use Rattle.std.specs.Prelude.{◌≡◌, ℕ, ◌+◌, ◌-◌, ◌<◌, ◌≤◌, IfErr, IfOk, OnOk, Some, length, map, slice_index};
ghost use Rattle.std.specs.FinMap as map_of;
ghost use Rattle.zj_tree.specs.declared.call.Call.TheVariants as calls;
ghost use Rattle.zj_layout.specs.declared.fields.Kind.TheVariants as kinds;
ghost use Rattle.zj_layout.specs.declared.fields.Link.{Link as Entry};
ghost use Rattle.zj_layout.specs.Graph.{links_of};
ghost use Rattle.zj_layout.specs.Image.{byte_at_place, graph_of};
ghost use Rattle.zj_layout.specs.Node.{byte_in};
ghost use Rattle.zj_dirs.specs.Possible.{Always};
ghost use Rattle.zj_inode.specs.Answering.{Builds, CallStops};
ghost use Rattle.zj_inode.specs.Looking.{EntryStops, RangeStops};

use crate::finding::{Located, go, go_to_dir, go_to_file, go_to_node};
use crate::stopped::Stopped;
use std::alloc::{AllocError, Global};
use zj_block::{BLOCK_LEN, Block, BlockNo, Sizes, Taken};
use zj_dirs::looking::{named_data, read_link};
use zj_layout::Kind;
use zj_tree::tree::MAX_BYTES;
use zj_tree::{Bytes, Name, Names, Refusal, Reply};

/// Tells what stands at a path, and how large it is.
pub(crate) fn stat(sizes: &Sizes, path: &[Name], taken: &Taken) -> Result<Reply, Stopped>
    ensures done { IfOk result (Builds sizes.now taken.now map_of.empty (calls.Stat path.now)) }
    ensures stop { IfErr result (CallStops sizes.now taken.now (calls.Stat path.now)) }
{
    let found = go_to_node(sizes, path, taken)?;
    match found.node.kind {
        Kind::Dir => Ok(Reply::Dir {
            entries: found.node.size,
        }),
        Kind::File => Ok(Reply::File {
            size: found.node.size,
        }),
        Kind::Free => Err(Stopped::Odd),
    }
}

/// Finds what stands at a path, and changes nothing.
pub(crate) fn fsync(sizes: &Sizes, path: &[Name], taken: &Taken) -> Result<Reply, Stopped>
    ensures done { IfOk result (Builds sizes.now taken.now map_of.empty (calls.Fsync path.now)) }
    ensures stop { IfErr result (CallStops sizes.now taken.now (calls.Fsync path.now)) }
{
    let _node = go(sizes, path, taken)?;
    Ok(Reply::Done)
}

/// Tells the names in a directory, ascending by bytes.
pub(crate) fn list(
    alloc: Global,
    sizes: &Sizes,
    path: &[Name],
    taken: &Taken,
) -> Result<Reply, Stopped>
    ensures done { IfOk result (Builds sizes.now taken.now map_of.empty (calls.List path.now)) }
    ensures stop { IfErr result (CallStops sizes.now taken.now (calls.List path.now)) }
{
    let dir = go_to_dir(sizes, path, taken)?;
    let mut names = read_names(alloc, sizes, &dir, taken)?;
    names.sort()?;
    Ok(Reply::Listed(listed(alloc, &names)?))
}

/// The names of a directory's entries, in their order.
fn read_names(
    alloc: Global,
    sizes: &Sizes,
    dir: &Located,
    taken: &Taken,
) -> Result<Vec<Name>, Stopped>
    requires node { Always sizes.now taken.now (λ image. image.node dir.now.number ≡ Some dir.now.node) }
    requires directory { dir.now.node.kind ≡ kinds.Dir }
    requires few { dir.now.node.size ≤ 192 }
    ensures ok { IfOk result (λ names. Always sizes.now taken.now (λ image. names.items ≡ map (λ (entry : Entry). entry.name) (links_of (graph_of image dir.now.number)))) }
    ensures stop { IfErr result (EntryStops sizes.now taken.now dir.now.number) }
{
    let mut names = Vec::new(alloc);
    for place in 0..dir.node.size {
        let link = read_link(sizes, dir.number, &dir.node, place, taken, None)?;
        names.push(link.name)?;
    }
    Ok(names)
}

/// The same names as the answer to a listing.
fn listed(alloc: Global, names: &[Name]) -> Result<Names, AllocError>
    ensures { IfOk result (λ listed. listed ≡ names.now) }
{
    let mut listed = Names::new(alloc);
    for name in names {
        listed.push(*name)?;
    }
    Ok(listed)
}

/// Tells the bytes of a file from a place on, at most so many.
pub(crate) fn read(
    alloc: Global,
    sizes: &Sizes,
    path: &[Name],
    at: u32,
    count: u32,
    taken: &Taken,
) -> Result<Reply, Stopped>
    ensures done { IfOk result (Builds sizes.now taken.now map_of.empty (calls.Read path.now at count)) }
    ensures stop { IfErr result (CallStops sizes.now taken.now (calls.Read path.now at count)) }
{
    let file = go_to_file(sizes, path, taken)?;
    if at > file.node.size {
        return Err(Stopped::Refused(Refusal::PastEnd));
    }
    if count > MAX_BYTES as u32 {
        return Err(Stopped::Refused(Refusal::TooBig));
    }
    let end = at + count.min(file.node.size - at);
    Ok(Reply::Data(read_range(alloc, sizes, &file, at, end, taken)?))
}

/// The bytes of a file from one place up to another.
fn read_range(
    alloc: Global,
    sizes: &Sizes,
    file: &Located,
    from: u32,
    to: u32,
    taken: &Taken,
) -> Result<Bytes, Stopped>
    requires node { Always sizes.now taken.now (λ image. image.node file.now.number ≡ Some file.now.node) }
    requires is_file { file.now.node.kind ≡ kinds.File }
    requires few { file.now.node.size ≤ 6144 }
    requires ordered { from ≤ to }
    requires within { to ≤ file.now.node.size }
    ensures long { IfOk result (λ bytes. length bytes ≡ to - from) }
    ensures each { IfOk result (λ bytes. (k : ℕ) → k < to - from → Always sizes.now taken.now (λ image. slice_index bytes k ≡ byte_at_place image file.now.number (from + k))) }
    ensures stop { IfErr result (RangeStops sizes.now taken.now file.now.number from to) }
{
    let len = BLOCK_LEN as u32;
    let mut bytes = Bytes::new(alloc);
    if from == to {
        return Ok(bytes);
    }
    for j in from / len..(to + len - 1) / len {
        let block = BlockNo(file.node.blocks[j as usize]);
        named_data(sizes, block.0)?;
        let Some(content) = taken.get(block) else {
            return Err(Stopped::Need(block));
        };
        let first = len * j;
        extend(
            &mut bytes,
            content,
            from.max(first) - first,
            to.min(first + len) - first,
        )?;
    }
    Ok(bytes)
}

/// Adds some bytes of a block.
fn extend(bytes: &mut Bytes, content: &Block, low: u32, high: u32) -> Result<(), AllocError>
    requires ordered { low ≤ high }
    requires within { high ≤ 512 }
    ensures long { OnOk result (length bytes.new ≡ length bytes.old + (high - low)) }
    ensures before { OnOk result ((k : ℕ) → k < length bytes.old → slice_index bytes.new k ≡ slice_index bytes.old k) }
    ensures added { OnOk result ((k : ℕ) → k < high - low → slice_index bytes.new (length bytes.old + k) ≡ byte_in content.now (low + k)) }
{
    let mut out = [0; 512];
    content.to_bytes(&mut out);
    bytes.extend(&out[low as usize..high as usize])
}
