//! The slots of a home: what their bytes tell, and which of them counts.

ghost use Rattle.std.specs.Prelude.{◌≡◌, ℕ, ◌+◌, ◌^◌, ◌<◌, ◌≤◌, All, length, None, Some, take, map, IfOk, IfErr, IfSome, OnOk, option_map};
ghost use Rattle.std.specs.List.{range_with_len};
ghost use Rattle.zj_block.specs.Sizes.{IsInLimits, numbers_of};
ghost use Rattle.zj_home.specs.Told.{super_told};
ghost use Rattle.zj_home.specs.Super.{IsOfBytes, IsTail, counting, field_fault, head_fault, home_length, numbers_fault, numbers_in, slot_fault, super_in, tail_fault, tail_in, tails_fault, u32_in, u64_in};

use crate::fault::HomeFault;
use byteorder::{ByteOrder, LittleEndian};
use zj_block::{BLOCK_LEN, Sizes, SizesField, Tail, Tails, VERSION};

/// The bytes that both slots stand in. The blocks stand behind them.
pub const HEAD_LEN: usize = 8192;

/// Where the second slot stands. The first stands at 0.
pub const SECOND_SLOT: usize = 4096;

/// The gate of an open slot.
pub const OPEN: u8 = 1;

/// The letters behind the gate.
pub const LETTERS: &[u8; 7] = b"ZJ-HOME";

/// From this number on an epoch is none, nor is the number of a tail.
const NUMBERS_END: u64 = 1 << 62;

/// The number of 32 bits whose lowest byte stands there.
fn u32_in(bytes: &[u8], at: usize) -> u32
    requires { at + 4 ≤ length bytes.now }
    ensures { result ≡ u32_in bytes.now at }
{
    LittleEndian::read_u32(&bytes[at..])
}

/// The number of 64 bits whose lowest byte stands there.
fn u64_in(bytes: &[u8], at: usize) -> u64
    requires { at + 8 ≤ length bytes.now }
    ensures { result ≡ u64_in bytes.now at }
{
    LittleEndian::read_u64(&bytes[at..])
}

/// Where the slot that counts stands, if one is open.
#[tactic(auto, unfolding(crate::specs::Super::counting))]
fn counting_slot(head: &[u8]) -> Option<usize>
    requires { length head.now ≡ HEAD_LEN }
    ensures slot { result ≡ counting head.now }
    ensures inside { IfSome result (λ slot. slot ≤ SECOND_SLOT) }
{
    let first = head[0] == OPEN;
    let second = head[SECOND_SLOT] == OPEN;
    if first && second {
        let later = u64_in(head, 8) < u64_in(head, SECOND_SLOT + 8);
        return Some(if later { SECOND_SLOT } else { 0 });
    }
    if first {
        return Some(0);
    }
    if second { Some(SECOND_SLOT) } else { None }
}

/// The fault of a number that is out of range, in a slot that tells this version.
fn field_fault(slot: u64, version: u32, field: SizesField) -> HomeFault
    requires { slot ≤ SECOND_SLOT }
    ensures fault { (blocks nodes cores area : ℕ) → result ≡ field_fault slot (numbers_of version blocks nodes cores area) field }
    ensures of_bytes { IsOfBytes result }
{
    match field {
        SizesField::Version => HomeFault::Version { found: version },
        SizesField::Cores => HomeFault::NotAnImage { at: slot + 20 },
        SizesField::Blocks => HomeFault::NotAnImage { at: slot + 24 },
        SizesField::Nodes => HomeFault::NotAnImage { at: slot + 28 },
        SizesField::Area => HomeFault::NotAnImage { at: slot + 32 },
    }
}

/// The first fault of a core's tail.
fn tail_fault(slot: u64, sizes: &Sizes, core: u32, tail: Tail) -> Option<HomeFault>
    requires within { core < sizes.now.cores }
    requires slot { slot ≤ SECOND_SLOT }
    ensures fault { result ≡ tail_fault slot sizes.now core tail }
    ensures of_bytes { IfSome result IsOfBytes }
{
    let field = slot + 40 + 16 * u64::from(core);
    if tail.place > sizes.area() - sizes.max_record() {
        return Some(HomeFault::NotAnImage { at: field });
    }
    if tail.number >= NUMBERS_END {
        return Some(HomeFault::NotAnImage { at: field + 8 });
    }
    None
}

/// What a slot tells, and its place. Of the 64 tails those of the image's cores count.
#[derive(Clone, Copy, Debug)]
pub struct Told {
    pub slot: usize,
    pub epoch: u64,
    pub sizes: Sizes,
    pub tails: Tails,
}

/// Reads the sizes that a slot tells.
fn read_sizes(head: &[u8], slot: usize) -> Result<Sizes, HomeFault>
    requires whole { length head.now ≡ HEAD_LEN }
    requires slot { slot ≤ SECOND_SLOT }
    ensures ok { IfOk result (λ sizes. (numbers_fault slot (numbers_in head.now slot) ≡ None) × (sizes ≡ numbers_in head.now slot)) }
    ensures err { IfErr result (λ fault. numbers_fault slot (numbers_in head.now slot) ≡ Some fault) }
    ensures limits { IfOk result IsInLimits }
    ensures of_bytes { IfErr result IsOfBytes }
{
    let version = u32_in(head, slot + 16);
    let cores = u32_in(head, slot + 20);
    let blocks = u32_in(head, slot + 24);
    let nodes = u32_in(head, slot + 28);
    let area = u64_in(head, slot + 32);
    if let Some(field) = Sizes::out_of_range(version, blocks, nodes, cores, area) {
        return Err(field_fault(slot as u64, version, field));
    }
    Ok(Sizes::new(version, blocks, nodes, cores, area).unwrap())
}

/// Reads the tails that a slot tells.
fn read_tails(head: &[u8], slot: usize, sizes: &Sizes) -> Result<Tails, HomeFault>
    requires whole { length head.now ≡ HEAD_LEN }
    requires slot { slot ≤ SECOND_SLOT }
    ensures ok { IfOk result (λ tails. (tails_fault head.now slot sizes.now sizes.now.cores ≡ None) × (take sizes.now.cores tails ≡ map (λ core. tail_in head.now slot core) (range_with_len 0 sizes.now.cores))) }
    ensures err { IfErr result (λ fault. tails_fault head.now slot sizes.now sizes.now.cores ≡ Some fault) }
    ensures sound { IfOk result (λ tails. All (IsTail sizes.now) (take sizes.now.cores tails)) }
    ensures of_bytes { IfErr result IsOfBytes }
{
    let mut tails = Tails::zero();
    for core in 0..sizes.cores() {
        let at = 16 * core as usize;
        let tail = Tail {
            place: u64_in(head, slot + 40 + at),
            number: u64_in(head, slot + 48 + at),
        };
        if let Some(fault) = tail_fault(slot as u64, sizes, core, tail) {
            return Err(fault);
        }
        tails.put(core, tail).unwrap();
    }
    Ok(tails)
}

/// Reads what a slot tells, on a device of some length in bytes.
#[tactic(auto, unfolding(crate::specs::Super::slot_fault))]
fn read_slot(head: &[u8], len: u64, slot: usize) -> Result<Told, HomeFault>
    requires whole { length head.now ≡ HEAD_LEN }
    requires slot { slot ≤ SECOND_SLOT }
    ensures none { OnOk result (slot_fault head.now len slot ≡ None) }
    ensures told { IfOk result (λ told. super_told told ≡ super_in head.now slot) }
    ensures size { IfOk result (λ told. len ≡ home_length told.sizes) }
    ensures tails { IfOk result (λ told. All (IsTail told.sizes) (take told.sizes.cores told.tails)) }
    ensures epoch { IfOk result (λ told. told.epoch < 2 ^ 62) }
    ensures err { IfErr result (λ fault. slot_fault head.now len slot ≡ Some fault) }
    ensures of_bytes { IfErr result IsOfBytes }
{
    if !head[slot + 1..].starts_with(LETTERS) {
        return Err(HomeFault::NotAnImage {
            at: slot as u64 + 1,
        });
    }
    let version = u32_in(head, slot + 16);
    if version != VERSION {
        return Err(HomeFault::Version { found: version });
    }
    let epoch = u64_in(head, slot + 8);
    if epoch >= NUMBERS_END {
        return Err(HomeFault::NotAnImage {
            at: slot as u64 + 8,
        });
    }
    let sizes = read_sizes(head, slot)?;
    let tails = read_tails(head, slot, &sizes)?;
    let expected = home_len(&sizes);
    if len != expected {
        return Err(HomeFault::Sizes {
            found: len,
            expected,
        });
    }
    Ok(Told {
        slot,
        epoch,
        sizes,
        tails,
    })
}

/// The bytes of a home with these sizes.
pub fn home_len(sizes: &Sizes) -> u64
    ensures value { result ≡ home_length sizes.now }
    ensures limits { IsInLimits sizes.now }
{
    HEAD_LEN as u64 + BLOCK_LEN as u64 * u64::from(sizes.blocks())
}

/// Reads what the slot that counts tells, on a device of some length in bytes.
#[tactic(auto, unfolding(crate::specs::Super::head_fault))]
pub fn read_super(head: &[u8], len: u64) -> Result<Told, HomeFault>
    requires { length head.now ≡ HEAD_LEN }
    ensures none { OnOk result (head_fault head.now len (counting head.now) ≡ None) }
    ensures told { IfOk result (λ told. option_map (λ slot. super_in head.now slot) (counting head.now) ≡ Some (super_told told)) }
    ensures size { IfOk result (λ told. len ≡ home_length told.sizes) }
    ensures tails { IfOk result (λ told. All (IsTail told.sizes) (take told.sizes.cores told.tails)) }
    ensures epoch { IfOk result (λ told. told.epoch < 2 ^ 62) }
    ensures err { IfErr result (λ fault. head_fault head.now len (counting head.now) ≡ Some fault) }
    ensures of_bytes { IfErr result IsOfBytes }
{
    match counting_slot(head) {
        Some(slot) => read_slot(head, len, slot),
        None => Err(HomeFault::NotAnImage { at: 0 }),
    }
}
