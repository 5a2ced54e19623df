//! The blocks that an operation wrote, added to those of its transaction.

ghost use Rattle.std.specs.Prelude.{◌≡◌, ◌+◌, ◌≤◌, IfSome, IsOk, OnOk, is_none, if◌then◌else◌, length, slice_get};
ghost use Rattle.std.specs.FinMap as map_of;
ghost use Rattle.std.specs.List.{AllByRecursion};
ghost use Rattle.std.specs.Vec.{vec_capacity};
ghost use Rattle.zj_tx.specs.Frozen.{image_in};
ghost use Rattle.zj_tx.specs.Parts.{ArePut, IsPut};
ghost use Rattle.zj_tx.specs.Record.{Ascends, IsPart};
ghost use Rattle.zj_tx.specs.Running.{new_count};

use crate::part::Part;
use crate::parts;
use std::alloc::AllocError;
use zj_block::{Stamp, Written};

/// Whether the block with this place among those written isn't among those of a transaction.
fn is_new(blocks: &[Part], written: &Written, i: usize) -> bool
    requires { Ascends 0 blocks.now }
    ensures { IfSome (slice_get (map_of.entries written.now) i) (λ e. result ≡ is_none (image_in blocks.now e.0)) }
{
    match written.at(i) {
        Some((block, _)) => parts::find(blocks, block.0).is_none(),
        None => false,
    }
}

/// How many of the blocks that were written aren't among those of a transaction.
pub fn count_new(blocks: &[Part], written: &Written) -> usize
    requires { Ascends 0 blocks.now }
    ensures { result ≡ new_count blocks.now written.now }
{
    let mut count = 0;
    for i in 0..written.len() {
        if is_new(blocks, written, i) {
            count += 1;
        }
    }
    count
}

/// Puts in the block with this place among those written.
fn add_one(
    blocks: &mut Vec<Part>,
    written: &Written,
    i: usize,
    stamp: Stamp,
) -> Result<(), AllocError>
    requires ascending { Ascends 0 blocks.old.items }
    requires written { 1 ≤ stamp.0 }
    ensures ok { OnOk result (IfSome (slice_get (map_of.entries written.now) i) (λ e. IsPut blocks.old.items blocks.new.items (record { block = record { 0 = e.0 }; stamp = stamp; image = e.1 }))) }
    ensures fit { AllByRecursion IsPart blocks.old.items → AllByRecursion IsPart blocks.new.items }
    ensures room { IfSome (slice_get (map_of.entries written.now) i) (λ e. length blocks.old.items + (if is_none (image_in blocks.old.items e.0) then 1 else 0) ≤ vec_capacity blocks.old → IsOk result) }
    ensures capacity { vec_capacity blocks.old ≤ vec_capacity blocks.new }
{
    let Some((block, content)) = written.at(i) else {
        return Ok(());
    };
    let part = Part {
        block,
        stamp,
        image: *content,
    };
    parts::put(blocks, part)
}

/// Puts in each block that was written, with one stamp. With room for the new ones it takes no memory.
pub fn add_all(blocks: &mut Vec<Part>, written: &Written, stamp: Stamp) -> Result<(), AllocError>
    requires ascending { Ascends 0 blocks.old.items }
    requires written { 1 ≤ stamp.0 }
    ensures ok { OnOk result (ArePut blocks.old.items blocks.new.items written.now stamp.0) }
    ensures fit { AllByRecursion IsPart blocks.old.items → AllByRecursion IsPart blocks.new.items }
    ensures room { length blocks.old.items + new_count blocks.old.items written.now ≤ vec_capacity blocks.old → IsOk result }
    ensures capacity { vec_capacity blocks.old ≤ vec_capacity blocks.new }
{
    for i in 0..written.len() {
        add_one(blocks, written, i, stamp)?;
    }
    Ok(())
}
