//! Nodes, entries and bytes of the map put into a block.

ghost use Rattle.std.specs.Prelude.{◌≡◌, ◌≢◌, ℕ, ◌+◌, ◌*◌, ◌-◌, ◌<◌, ◌≤◌, ◌++◌, length, map, replicate, Some, IsTrue, if◌then◌else◌, slice_index};
ghost use Rattle.std.specs.List.{range_with_len};
ghost use Rattle.zj_block.specs.Block.{IsContent, bytes_of, u32_at};
ghost use Rattle.zj_layout.specs.Node.{byte_in, field_at, is_node, link_in, node_in};
ghost use Rattle.zj_layout.specs.Kept.{KeepsBytesOff, kind_number};

use crate::fields::{Kind, Link, Node};
use zj_block::Block;

/// Puts a node at a place of a block, and leaves the other places.
pub fn put_node(b: &mut Block, i: u32, node: &Node)
    requires place { i < 8 }
    requires spelled { IsTrue (is_node node.now) }
    ensures here { node_in b.new i ≡ Some node.now }
    ensures others { (j : ℕ) → j ≢ i → node_in b.new j ≡ node_in b.old j }
    ensures content { IsContent b.new }
{
    let at = 64 * i as usize;
    put_number(b, at, kind_number(node.kind));
    put_number(b, at + 4, node.size);
    put_numbers(b, at + 8, &node.blocks);
    put_number(b, at + 56, 0);
    put_number(b, at + 60, 0);
}

/// Puts an entry at a place of a block, and leaves the other places.
pub fn put_link(b: &mut Block, i: u32, link: &Link)
    requires { i < 16 }
    ensures here { link_in b.new i ≡ Some link.now }
    ensures others { (j : ℕ) → j ≢ i → link_in b.new j ≡ link_in b.old j }
    ensures content { IsContent b.new }
{
    let at = 32 * i as usize;
    let name = link.name.as_slice();
    put_number(b, at, link.node);
    put_byte(b, at + 4, name.len() as u8);
    put_byte(b, at + 5, 0);
    put_field(b, at + 6, name);
}

/// Puts whether a block is in use at its place of a block of the map, and leaves the other places.
pub fn put_in_use(b: &mut Block, i: u32, in_use: bool)
    requires { i < 512 }
    ensures here { byte_in b.new i ≡ (if in_use then 1 else 0) }
    ensures others { (j : ℕ) → j ≢ i → byte_in b.new j ≡ byte_in b.old j }
    ensures content { IsContent b.new }
{
    put_byte(b, i as usize, u8::from(in_use));
}

// The number of a kind.
fn kind_number(kind: Kind) -> u32
    ensures { result ≡ kind_number kind }
{
    match kind {
        Kind::Free => 0,
        Kind::File => 1,
        Kind::Dir => 2,
    }
}

// Puts a number.
fn put_number(b: &mut Block, at: usize, number: u32)
    requires { at + 4 ≤ 512 }
    ensures here { u32_at b.new at ≡ number }
    ensures others { KeepsBytesOff b.old b.new at 4 }
    ensures content { IsContent b.new }
{
    let _words = b.words();
    let _put = b.put_u32(at, number);
}

// Puts a byte.
fn put_byte(b: &mut Block, at: usize, byte: u8)
    requires { at < 512 }
    ensures here { slice_index (bytes_of b.new) at ≡ byte }
    ensures others { KeepsBytesOff b.old b.new at 1 }
    ensures content { IsContent b.new }
{
    let _words = b.words();
    let _put = b.put_byte(at, byte);
}

// Puts twelve numbers.
fn put_numbers(b: &mut Block, at: usize, numbers: &[u32; 12])
    requires { at + 48 ≤ 512 }
    ensures here { map (λ j. u32_at b.new (at + 4 * j)) (range_with_len 0 12) ≡ numbers.now }
    ensures others { KeepsBytesOff b.old b.new at 48 }
    ensures content { IsContent b.new }
{
    let _words = b.words();
    for (j, number) in numbers.iter().enumerate() {
        put_number(b, at + 4 * j, *number);
    }
}

// Puts the 26 bytes for a name: its own, and then zeros.
fn put_field(b: &mut Block, at: usize, name: &[u8])
    requires inside { at + 26 ≤ 512 }
    requires short { length name.now ≤ 26 }
    ensures here { field_at b.new at ≡ name.now ++ replicate (26 - length name.now) 0 }
    ensures others { KeepsBytesOff b.old b.new at 26 }
    ensures content { IsContent b.new }
{
    let _words = b.words();
    for j in 0..26 {
        put_byte(b, at + j, byte_or_zero(name, j));
    }
}

fn byte_or_zero(name: &[u8], j: usize) -> u8
    ensures { result ≡ slice_index name.now j }
{
    name.get(j).copied().unwrap_or(0)
}
