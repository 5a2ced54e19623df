//! Blocks of a transaction in the order of their numbers.

ghost use Rattle.std.specs.Prelude.{◌≡◌, ◌+◌, ◌≤◌, OnOk, OnErr, IsOk, is_none, if◌then◌else◌, length};
ghost use Rattle.std.specs.Option.{option_copied, option_map};
ghost use Rattle.std.specs.List.{AllByRecursion};
ghost use Rattle.std.specs.Vec.{vec_capacity};
ghost use Rattle.zj_tx.specs.Frozen.{image_in};
ghost use Rattle.zj_tx.specs.Parts.{IsPartPlace, IsPut, part_image};
ghost use Rattle.zj_tx.specs.Record.{Ascends, IsPart};

use crate::part::Part;
use std::alloc::AllocError;

/// The place of the first block that is not below this one.
fn place(parts: &[Part], block: u32) -> usize
    requires { Ascends 0 parts.now }
    ensures { IsPartPlace parts.now block result }
{
    parts.partition_point(|part| part.block.0 < block)
}

/// Puts a block in, in place of an earlier one with its number. It takes no memory where there is room for it, or an
/// earlier one.
pub fn put(parts: &mut Vec<Part>, part: Part) -> Result<(), AllocError>
    requires { Ascends 0 parts.old.items }
    ensures ok { OnOk result (IsPut parts.old.items parts.new.items part) }
    ensures fit { AllByRecursion IsPart parts.old.items → IsPart part → AllByRecursion IsPart parts.new.items }
    ensures err { OnErr result (parts.new.items ≡ parts.old.items) }
    ensures room { length parts.old.items + (if is_none (image_in parts.old.items part.block.0) then 1 else 0) ≤ vec_capacity parts.old → IsOk result }
    ensures capacity { vec_capacity parts.old ≤ vec_capacity parts.new }
{
    let at = place(parts, part.block.0);
    if at < parts.len() && parts[at].block.0 == part.block.0 {
        parts[at] = part;
        return Ok(());
    }
    parts.insert(at, part)?;
    Ok(())
}

/// The block with a number, if there is one.
pub fn find(parts: &[Part], block: u32) -> Option<&Part>
    requires { Ascends 0 parts.now }
    ensures { option_map part_image (option_copied result) ≡ image_in parts.now block }
{
    let part = parts.get(place(parts, block))?;
    if part.block.0 == block {
        Some(part)
    } else {
        None
    }
}
