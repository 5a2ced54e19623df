//! Nodes and entries as they stand in a block.

ghost use Rattle.std.specs.Prelude.{◌≡◌, ℕ, ◌+◌, ◌*◌, ◌/◌, ◌<◌, ◌≤◌, ◌&&◌, ◌==◌, not, length, take, drop, Some, None, map, if◌then◌else◌, nat_lt, slice_index};
ghost use Rattle.std.specs.List.{list_all, range_with_len};
ghost use Rattle.zj_block.specs.Block.{bytes_of, u32_at};
ghost use Rattle.zj_layout.specs.Node.{blocks_needed, checked_link, checked_node, field_at, is_node, kind_of, link_in, most_items, node_in, per_block};

use crate::fields::{Kind, Link, Node};
use zj_block::{Block, NODES_PER_BLOCK};
use zj_tree::Name;

/// How many entries one block holds.
pub const LINKS_PER_BLOCK: u32 = 16;

/// The node at a place of a block: `None` exactly where the bytes there are none, or from place 8 on.
#[tactic(auto, unfolding(crate::specs::Node::node_in))]
pub fn node_at(b: &Block, i: u32) -> Option<Node>
    ensures { result ≡ (if nat_lt i 8 then node_in b.now i else None) }
{
    if i >= NODES_PER_BLOCK {
        return None;
    }
    let at = 64 * i as usize;
    let zeros = number(b, at + 56) == 0 && number(b, at + 60) == 0;
    checked_node(
        kind_of(number(b, at)),
        number(b, at + 4),
        numbers(b, at + 8),
        zeros,
    )
}

/// The entry at a place of a block: `None` exactly where the bytes there are none, or from place 16 on.
#[tactic(auto, unfolding(crate::specs::Node::link_in))]
pub fn link_at(b: &Block, i: u32) -> Option<Link>
    ensures { result ≡ (if nat_lt i 16 then link_in b.now i else None) }
{
    if i >= LINKS_PER_BLOCK {
        return None;
    }
    let at = 32 * i as usize;
    checked_link(
        number(b, at),
        byte(b, at + 4),
        byte(b, at + 5),
        &field(b, at + 6),
    )
}

// The node with these fields, if they are those of one.
fn checked_node(kind: Option<Kind>, size: u32, blocks: [u32; 12], zeros: bool) -> Option<Node>
    ensures { result ≡ checked_node kind size blocks zeros }
{
    let node = Node {
        kind: kind?,
        size,
        blocks,
    };
    if zeros && is_node(&node) {
        Some(node)
    } else {
        None
    }
}

// The entry with these fields, if they are those of one.
fn checked_link(node: u32, len: u8, zero: u8, field: &[u8; 26]) -> Option<Link>
    ensures { result ≡ checked_link node len zero field.now }
{
    if len > 26 || zero != 0 || !all_zero_bytes(&field[len as usize..]) {
        return None;
    }
    let name = Name::new(&field[..len as usize])?;
    Some(Link { node, name })
}

fn all_zero_bytes(bytes: &[u8]) -> bool
    ensures { result ≡ list_all (λ b. b == 0) bytes.now }
{
    bytes.iter().all(|byte| *byte == 0)
}

// What a node of this kind number is.
fn kind_of(number: u32) -> Option<Kind>
    ensures { result ≡ kind_of number }
{
    match number {
        0 => Some(Kind::Free),
        1 => Some(Kind::File),
        2 => Some(Kind::Dir),
        _ => None,
    }
}

// How many items of a node one block holds.
pub(crate) fn per_block(kind: Kind) -> u32
    ensures { result ≡ per_block kind }
{
    match kind {
        Kind::Free => 1,
        Kind::File => 512,
        Kind::Dir => 16,
    }
}

// How many items a node has at most.
fn most_items(kind: Kind) -> u32
    ensures { result ≡ most_items kind }
{
    match kind {
        Kind::Free => 0,
        Kind::File => 6144,
        Kind::Dir => 192,
    }
}

// Whether a node names as many blocks as it needs, first, and no other.
fn is_node(node: &Node) -> bool
    ensures { result ≡ is_node node.now }
{
    node.size <= most_items(node.kind)
        && names_first(
            &node.blocks,
            node.size.div_ceil(per_block(node.kind)) as usize,
        )
}

// Whether the first numbers are not 0, and the others are.
fn names_first(blocks: &[u32], needed: usize) -> bool
    requires { needed ≤ length blocks.now }
    ensures { result ≡ (list_all (λ n. not (n == 0)) (take needed blocks.now) && list_all (λ n. n == 0) (drop needed blocks.now)) }
{
    all_named(&blocks[..needed]) && all_zero(&blocks[needed..])
}

fn all_named(blocks: &[u32]) -> bool
    ensures { result ≡ list_all (λ n. not (n == 0)) blocks.now }
{
    blocks.iter().all(|block| *block != 0)
}

fn all_zero(blocks: &[u32]) -> bool
    ensures { result ≡ list_all (λ n. n == 0) blocks.now }
{
    blocks.iter().all(|block| *block == 0)
}

// A number of a block.
fn number(b: &Block, at: usize) -> u32
    requires { at + 4 ≤ 512 }
    ensures { result ≡ u32_at b.now at }
{
    match b.get_u32(at) {
        Some(number) => number,
        None => 0,
    }
}

// A byte of a block.
pub(crate) fn byte(b: &Block, at: usize) -> u8
    requires { at < 512 }
    ensures { result ≡ slice_index (bytes_of b.now) at }
{
    match b.byte(at) {
        Some(byte) => byte,
        None => 0,
    }
}

// Twelve numbers of a block.
fn numbers(b: &Block, at: usize) -> [u32; 12]
    requires { at + 48 ≤ 512 }
    ensures { result ≡ map (λ j. u32_at b.now (at + 4 * j)) (range_with_len 0 12) }
{
    let mut numbers = [0; 12];
    for (j, place) in numbers.iter_mut().enumerate() {
        *place = number(b, at + 4 * j);
    }
    numbers
}

// The 26 bytes for a name.
fn field(b: &Block, at: usize) -> [u8; 26]
    requires { at + 26 ≤ 512 }
    ensures { result ≡ field_at b.now at }
{
    let mut field = [0; 26];
    for (j, place) in field.iter_mut().enumerate() {
        *place = byte(b, at + j);
    }
    field
}
