//! The newest images of what is kept.

ghost use Rattle.std.specs.Prelude.{◌≡◌, ◌↔◌, ◌≤◌, [], ◌∷◌, ℕ, List, IsTrue, OnOk, IfOk, IfSome, length, slice_get, slice_index};
ghost use Rattle.std.specs.Bool.{OnTrue};
ghost use Rattle.std.specs.Option.{option_map};
ghost use Rattle.zj_closure.specs.Newest.{HasNewer, HasNewest, HasNewestOf, block_content};
ghost use Rattle.zj_closure.specs.Recovered.{kept_records, records_below};
ghost use Rattle.zj_tx.specs.Record.{Ascends};

use crate::closing::bound_of;
use std::alloc::{AllocError, Global};
use std::marker::Model;
use zj_block::{Block, BlockNo, Bounds, Stamp};
use zj_tx::{Found, Part, Sealed, parts};

/// The newest images of blocks, by ascending block.
#[derive(Debug, Drop)]
pub struct Images {
    images: Vec<Part>,
}

impl Model for Images {
    ghost use Rattle.std.specs.Prelude.{List};
    ghost use Rattle.zj_tx.specs.declared.part.Part.{Part};
    ghost use Rattle.zj_tx.specs.Record.{Ascends};

    ghost Value = { List Part };

    ghost view = { λ i. i.images.items };

    ghost invariant = { λ i. Ascends 0 i.images.items };
}

impl Images {
    /// No image yet. It takes no memory.
    pub fn new(alloc: Global) -> Images
        ensures { result ≡ [] }
    {
        Images {
            images: Vec::new(alloc),
        }
    }

    /// Adds what the records of one core below a bound have of each block: a newer image in place of an older one. Where two
    /// stamps are equal, the image that was there first stays. After an `Err` some of them were added.
    pub fn add(&mut self, found: &Found, bound: u64) -> Result<(), AllocError>
        ensures { OnOk result (HasNewestOf self.old self.new (records_below bound found.now)) }
    {
        add_core(&mut self.images, found, bound)
    }

    /// How many blocks have an image.
    pub fn len(&self) -> usize
        ensures len { result ≡ length self.now }
        ensures ascending { Ascends 0 self.now }
    {
        self.images.len()
    }

    /// Whether no block has one.
    pub fn is_empty(&self) -> bool
        ensures { IsTrue result ↔ (self.now ≡ []) }
    {
        self.images.is_empty()
    }

    /// The block with this place in the ascending order, and its content: `None` exactly from the length on.
    pub fn at(&self, i: usize) -> Option<(BlockNo, &Block)>
        ensures { option_map (λ e. (e.0, e.1.now)) result ≡ option_map block_content (slice_get self.now i) }
    {
        let part = self.images.get(i)?;
        Some((part.block, &part.image))
    }
}

/// Puts an image in where it is newer than the one of its block.
fn put_newer(
    images: &mut Vec<Part>,
    block: BlockNo,
    stamp: Stamp,
    image: &Block,
) -> Result<(), AllocError>
    requires { Ascends 0 images.old.items }
    ensures ok { OnOk result (HasNewer images.old.items images.new.items (record { block = block; stamp = stamp; image = image.now })) }
    ensures ascending { Ascends 0 images.new.items }
{
    if let Some(older) = parts::find(images, block.0) {
        if stamp.0 <= older.stamp.0 {
            return Ok(());
        }
    }
    let part = Part {
        block,
        stamp,
        image: *image,
    };
    parts::put(images, part)
}

/// Whether the image with this place is one of a block that is no older than a stamp.
fn has_as_new(images: &[Part], at: usize, block: BlockNo, stamp: Stamp) -> bool
    requires { Ascends 0 images.now }
    ensures { OnTrue result ((content : List ℕ) → HasNewer images.now images.now (record { block = block; stamp = stamp; image = content })) }
{
    let Some(part) = images.get(at) else {
        return false;
    };
    if part.block.0 != block.0 {
        return false;
    }
    if part.stamp.0 < stamp.0 {
        return false;
    }
    true
}

/// Adds the block with this place in a record. Its image is looked for at a place first, and then by its number.
fn add_part(images: &mut Vec<Part>, sealed: &Sealed, i: usize, at: usize) -> Result<(), AllocError>
    requires { Ascends 0 images.old.items }
    ensures ok { OnOk result (IfSome (slice_get sealed.now.parts i) (HasNewer images.old.items images.new.items)) }
    ensures ascending { Ascends 0 images.new.items }
{
    let Some((block, stamp, image)) = sealed.image(i) else {
        return Ok(());
    };
    if has_as_new(images, at, block, stamp) {
        return Ok(());
    }
    put_newer(images, block, stamp, image)
}

/// The place of the first image that is not below a record's first block.
fn first_place(images: &[Part], sealed: &Sealed) -> usize {
    match sealed.image(0) {
        Some((block, _, _)) => images.partition_point(|part| part.block.0 < block.0),
        None => 0,
    }
}

/// Adds what a record has of each block. A record's blocks often stand side by side in the images too: so each is looked for
/// there first.
fn add_record(images: &mut Vec<Part>, sealed: &Sealed) -> Result<(), AllocError>
    requires { Ascends 0 images.old.items }
    ensures ok { OnOk result (HasNewestOf images.old.items images.new.items (sealed.now ∷ [])) }
    ensures ascending { Ascends 0 images.new.items }
{
    let first = first_place(images, sealed);
    for i in 0..sealed.len() {
        add_part(images, sealed, i, first.saturating_add(i))?;
    }
    Ok(())
}

/// Adds a record where its number is below a bound.
fn add_below(images: &mut Vec<Part>, sealed: &Sealed, bound: u64) -> Result<(), AllocError>
    requires { Ascends 0 images.old.items }
    ensures ok { OnOk result (HasNewestOf images.old.items images.new.items (records_below bound (sealed.now ∷ []))) }
    ensures ascending { Ascends 0 images.new.items }
{
    if sealed.number() >= bound {
        return Ok(());
    }
    add_record(images, sealed)
}

/// Adds the record with this place in a journal, where its number is below a bound.
fn add_found(images: &mut Vec<Part>, found: &Found, i: usize, bound: u64) -> Result<(), AllocError>
    requires { Ascends 0 images.old.items }
    ensures ok { OnOk result (IfSome (slice_get found.now i) (λ r. HasNewestOf images.old.items images.new.items (records_below bound (r ∷ [])))) }
    ensures ascending { Ascends 0 images.new.items }
{
    let Some(sealed) = found.at(i) else {
        return Ok(());
    };
    add_below(images, sealed, bound)
}

/// Adds the records of one core below its bound.
fn add_core(images: &mut Vec<Part>, found: &Found, bound: u64) -> Result<(), AllocError>
    requires { Ascends 0 images.old.items }
    ensures ok { OnOk result (HasNewestOf images.old.items images.new.items (records_below bound found.now)) }
    ensures ascending { Ascends 0 images.new.items }
{
    for i in 0..found.len() {
        add_found(images, found, i, bound)?;
    }
    Ok(())
}

/// The images of what is kept: of each block in a kept record the one of the greatest stamp. Where two
/// stamps are equal, the lower core counts, and then the lower number.
pub fn newest(alloc: Global, found: &[Found], kept: &Bounds) -> Result<Images, AllocError>
    requires { length found.now ≤ 64 }
    ensures { IfOk result (λ images. HasNewest images (kept_records found.now (slice_index kept.now))) }
{
    let mut images = Images::new(alloc);
    for (core, records) in found.iter().enumerate() {
        images.add(records, bound_of(kept, core as u32))?;
    }
    Ok(images)
}
