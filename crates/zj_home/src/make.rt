//! Making a home, call by call.

ghost use Rattle.std.specs.Prelude.{◌≡◌, ◌+◌, ◌*◌, ◌^◌, ◌<◌, ◌≤◌, ◌⊎◌, [], ◌∷◌, Some, IfOk, OnOk, OnErr, IfErr, IfSome, All, length, take, drop, option_map};
ghost use Rattle.zj_block.specs.Block.{bytes_of};
ghost use Rattle.zj_dev.specs.Fault.{Rose};
ghost use Rattle.zj_dev.specs.Disk.{IsDisk, Continues, IsSettled, LeadsTo, TearsSince, replaced};
ghost use Rattle.zj_home.specs.Super.{IsTail, home_length};
ghost use Rattle.zj_home.specs.Told.{super_told};
ghost use Rattle.zj_home.specs.Made.{GoesFurther, HasNoLetters, HoldsBlocks, IsFailure, IsLaidOut, IsMade, IsNoImage, IsShut, MakesOnly, first_super};

use crate::fault::HomeFault;
use crate::slot::{HEAD_LEN, SECOND_SLOT, Told, home_len};
use crate::spelling::spell;
use zj_block::{BLOCK_LEN, Block, Blocks, MAX_BLOCKS, Sizes, Tails};
use zj_dev::{Disk, DiskFault, sync, write_at};

/// The gate of a slot that is closed.
const CLOSED: u8 = 0;

/// The epoch of a home that was just made.
pub const FIRST_EPOCH: u64 = 1;

/// Writes a block to its place.
fn write_block<D: Disk>(d: &mut D, b: usize, block: &Block) -> Result<(), DiskFault>
    requires is_disk { IsDisk (D.view d.old) }
    requires within { HEAD_LEN + BLOCK_LEN * b + BLOCK_LEN ≤ (D.view d.old).size }
    requires few { b < MAX_BLOCKS }
    ensures ok { OnOk result ((D.view d.new).bytes ≡ option_map (λ bytes. replaced bytes (HEAD_LEN + BLOCK_LEN * b) (bytes_of block.now)) (D.view d.old).bytes) }
    ensures many { length (bytes_of block.now) ≡ BLOCK_LEN }
    ensures torn { TearsSince (HEAD_LEN + BLOCK_LEN * b) BLOCK_LEN (D.view d.old) (D.view d.new) }
    ensures kept { GoesFurther (D.view d.old) (D.view d.new) }
    ensures cause { OnErr result (Rose (D.view d.old).faults (D.view d.new).faults) }
{
    let mut bytes = [0u8; BLOCK_LEN];
    block.to_bytes(&mut bytes);
    write_at(d, (HEAD_LEN + BLOCK_LEN * b) as u64, &bytes)
}

/// Closes both gates, so that no crash leaves an open one.
pub fn close_gates<D: Disk>(d: &mut D) -> Result<(), DiskFault>
    requires is_disk { IsDisk (D.view d.old) }
    requires long { HEAD_LEN ≤ (D.view d.old).size }
    ensures ok { OnOk result ((D.view d.new).bytes ≡ option_map (λ bytes. replaced (replaced bytes 0 (0 ∷ [])) SECOND_SLOT (0 ∷ [])) (D.view d.old).bytes) }
    ensures only { OnOk result (IsSettled (D.view d.new)) }
    ensures moments { LeadsTo HasNoLetters HasNoLetters (D.view d.old) (D.view d.new) }
    ensures kept { GoesFurther (D.view d.old) (D.view d.new) }
    ensures cause { OnErr result (Rose (D.view d.old).faults (D.view d.new).faults) }
{
    write_at(d, 0, &[CLOSED])?;
    write_at(d, SECOND_SLOT as u64, &[CLOSED])?;
    sync(d)
}

/// Writes the first slot: its body, and once that outlasts a crash its gate.
pub fn write_slot<D: Disk>(d: &mut D, slot: &[u8]) -> Result<(), DiskFault>
    requires is_disk { IsDisk (D.view d.old) }
    requires open { take 1 slot.now ≡ 1 ∷ [] }
    requires short { length slot.now ≤ SECOND_SLOT }
    requires within { length slot.now ≤ (D.view d.old).size }
    ensures ok { OnOk result ((D.view d.new).bytes ≡ option_map (λ bytes. replaced (replaced bytes 1 (drop 1 slot.now)) 0 (take 1 slot.now)) (D.view d.old).bytes) }
    ensures only { OnOk result (IsSettled (D.view d.new)) }
    ensures moments { LeadsTo IsShut (λ image. IsShut image ⊎ (option_map (λ bytes. replaced (replaced bytes 1 (drop 1 slot.now)) 0 (take 1 slot.now)) (D.view d.old).bytes ≡ Some image)) (D.view d.old) (D.view d.new) }
    ensures kept { GoesFurther (D.view d.old) (D.view d.new) }
    ensures cause { OnErr result (Rose (D.view d.old).faults (D.view d.new).faults) }
{
    let (gate, body) = slot.split_at(1);
    write_at(d, 1, body)?;
    sync(d)?;
    write_at(d, 0, gate)?;
    sync(d)
}

/// Writes all blocks to their places.
fn write_blocks<D: Disk>(d: &mut D, blocks: &Blocks) -> Result<(), DiskFault>
    requires is_disk { IsDisk (D.view d.old) }
    requires size { (D.view d.old).size ≡ HEAD_LEN + BLOCK_LEN * length blocks.now }
    requires few { length blocks.now ≤ MAX_BLOCKS }
    ensures ok { OnOk result (IfSome (D.view d.new).bytes (λ image. HoldsBlocks image blocks.now (length blocks.now))) }
    ensures moments { LeadsTo HasNoLetters HasNoLetters (D.view d.old) (D.view d.new) }
    ensures kept { GoesFurther (D.view d.old) (D.view d.new) }
    ensures cause { OnErr result (Rose (D.view d.old).faults (D.view d.new).faults) }
{
    for b in 0..blocks.len() {
        write_block(d, b, blocks.at(b).unwrap())?;
    }
    Ok(())
}

/// Writes the image of a home, the gate of its slot last.
fn write_image<D: Disk>(d: &mut D, slot: &[u8], blocks: &Blocks) -> Result<(), DiskFault>
    requires is_disk { IsDisk (D.view d.old) }
    requires size { (D.view d.old).size ≡ HEAD_LEN + BLOCK_LEN * length blocks.now }
    requires few { length blocks.now ≤ MAX_BLOCKS }
    requires open { take 1 slot.now ≡ 1 ∷ [] }
    requires short { length slot.now ≤ SECOND_SLOT }
    ensures ok { OnOk result (IfSome (D.view d.new).bytes (λ image. IsLaidOut slot.now blocks.now (D.view d.old).size image)) }
    ensures only { OnOk result (IsSettled (D.view d.new)) }
    ensures moments { LeadsTo HasNoLetters (λ image. IsNoImage image ⊎ IsLaidOut slot.now blocks.now (D.view d.old).size image) (D.view d.old) (D.view d.new) }
    ensures kept { GoesFurther (D.view d.old) (D.view d.new) }
    ensures cause { OnErr result (Rose (D.view d.old).faults (D.view d.new).faults) }
{
    write_blocks(d, blocks)?;
    close_gates(d)?;
    write_slot(d, slot)
}

/// Makes a home on a device of its length.
pub fn make_on<D: Disk>(d: &mut D, sizes: &Sizes, blocks: &Blocks) -> Result<Told, HomeFault>
    requires size { (D.view d.old).size ≡ home_length sizes.now }
    requires many { length blocks.now ≡ sizes.now.blocks }
    ensures made { OnOk result (IsMade (first_super sizes.now) blocks.now (D.view d.new)) }
    ensures told { IfOk result (λ told. super_told told ≡ first_super sizes.now) }
    ensures same_sizes { IfOk result (λ told. told.sizes ≡ sizes.now) }
    ensures tails { IfOk result (λ told. All (IsTail told.sizes) (take told.sizes.cores told.tails)) }
    ensures epoch { IfOk result (λ told. told.epoch < 2 ^ 62) }
    ensures continues { Continues (D.view d.old) (D.view d.new) }
    ensures moments { MakesOnly (first_super sizes.now) blocks.now (D.view d.old) (D.view d.new) }
    ensures cause { IfErr result (IsFailure (D.view d.old) (D.view d.new)) }
{
    let len = d.len();
    prove!(len == home_len(sizes));
    let told = Told {
        slot: 0,
        epoch: FIRST_EPOCH,
        sizes: *sizes,
        tails: Tails::zero(),
    };
    write_image(d, spell(&told).as_slice(), blocks)?;
    Ok(told)
}
