//! Lists of blocks: a whole image, the blocks that were found, and those that are to be written.

ghost use Rattle.std.specs.Prelude.{◌≡◌, ◌==◌, ◌<◌, ◌↔◌, ℕ, [], ◌∷◌, ◌++◌, None, Some, All, IsTrue, IsSome, IfSome, IfNone, OnSome, IfOk, OnOk, OnErr, cond, length, replicate, slice_get, slice_set};
ghost use Rattle.std.specs.Option.{option_copied, option_map};
ghost use Rattle.zj_block.specs.Block.{IsContent, zero_content};
ghost use Rattle.std.specs.FinMap as map;
ghost use Rattle.zj_block.specs.Lists.{AreContents, IsInsertionPoint, IsTaken, content_under, count_left};

use crate::block::Block;
use crate::numbers::BlockNo;
use std::alloc::{AllocError, Global};
use std::marker::Model;

/// Blocks by their place, as those of an image.
#[derive(Debug, Drop)]
pub struct Blocks {
    blocks: Vec<Block>,
}

impl Model for Blocks {
    ghost use Rattle.std.specs.Prelude.{All, List, ℕ};
    ghost use Rattle.zj_block.specs.Block.{IsContent};

    ghost Value = { List (List ℕ) };

    ghost view = { λ b. b.blocks.items };

    ghost invariant = { λ b. All IsContent b.blocks.items };
}

impl Blocks {
    /// That many blocks of zeros.
    pub fn zero(alloc: Global, count: u32) -> Result<Blocks, AllocError>
        ensures { IfOk result (λ b. b ≡ replicate count zero_content) }
    {
        Ok(Blocks {
            blocks: vec![in alloc; Block::zero(); count as usize]?,
        })
    }

    /// How many blocks there are.
    pub fn len(&self) -> usize
        ensures len { result ≡ length self.now }
        ensures contents { All IsContent self.now }
    {
        self.blocks.len()
    }

    /// Whether there is no block.
    pub fn is_empty(&self) -> bool
        ensures { IsTrue result ↔ (self.now ≡ []) }
    {
        self.blocks.is_empty()
    }

    /// The block at a place: `None` exactly from the length on.
    pub fn at(&self, i: usize) -> Option<&Block>
        ensures block { option_copied result ≡ slice_get self.now i }
        ensures content { IfSome result (λ b. IsContent b.now) }
    {
        self.blocks.get(i)
    }

    /// Puts the block at a place. `None` exactly from the length on: the blocks are then unchanged.
    pub fn put(&mut self, i: usize, b: &Block) -> Option<()>
        ensures some { IsSome result ↔ (i < length self.old) }
        ensures put { OnSome result (self.new ≡ slice_set self.old i b.now) }
        ensures none { IfNone result (self.new ≡ self.old) }
    {
        if i >= self.blocks.len() {
            return None;
        }
        let _words = b.words();
        self.blocks[i] = *b;
        Some(())
    }
}

/// Blocks as they were found, each under its number, in the order in which they were taken.
#[derive(Debug, Drop)]
pub struct Taken {
    found: Vec<(u32, Block)>,
}

impl Model for Taken {
    ghost use Rattle.std.specs.Prelude.{List, ℕ};
    ghost use Rattle.zj_block.specs.Lists.{IsTaken};

    ghost Value = { List (ℕ × List ℕ) };

    ghost view = { λ t. t.found.items };

    ghost invariant = { λ t. IsTaken t.found.items };
}

impl Taken {
    /// No block yet. It takes no memory.
    pub fn new(alloc: Global) -> Taken
        ensures { result ≡ [] }
    {
        Taken {
            found: Vec::new(alloc),
        }
    }

    /// Adds a block that was not taken yet, as it was found.
    pub fn add(&mut self, b: BlockNo, found: &Block) -> Result<(), AllocError>
        requires { content_under self.old b.0 ≡ None }
        ensures ok { OnOk result (self.new ≡ self.old ++ (b.0, found.now) ∷ []) }
        ensures under { OnOk result ((k : ℕ) → content_under self.new k ≡ cond (b.0 == k) (Some found.now) (content_under self.old k)) }
        ensures fewer { OnOk result ((blocks : ℕ) → b.0 < blocks → count_left self.new blocks < count_left self.old blocks) }
        ensures content { IsContent found.now }
        ensures err { OnErr result (self.new ≡ self.old) }
    {
        let _words = found.words();
        Ok(self.found.push((b.0, *found))?)
    }

    /// The block with a number as it was found: `None` where it was not taken.
    pub fn get(&self, b: BlockNo) -> Option<&Block>
        ensures found { option_copied result ≡ content_under self.now b.0 }
        ensures content { IfSome result (λ f. IsContent f.now) }
    {
        content_in(&self.found, b.0)
    }

    /// How many blocks were taken. No block was taken twice.
    pub fn len(&self) -> usize
        ensures len { result ≡ length self.now }
        ensures taken { IsTaken self.now }
    {
        self.found.len()
    }

    /// Whether no block was taken.
    pub fn is_empty(&self) -> bool
        ensures { IsTrue result ↔ (self.now ≡ []) }
    {
        self.found.is_empty()
    }

    /// The block that was taken as the one with this place, with its number: `None` exactly from the
    /// length on.
    pub fn at(&self, i: usize) -> Option<(BlockNo, &Block)>
        ensures entry { option_map (λ e. (e.0.0, e.1.now)) result ≡ slice_get self.now i }
        ensures content { IfSome result (λ e. IsContent e.1.now) }
    {
        entry_at(&self.found, i)
    }

    /// Forgets all blocks.
    pub fn clear(&mut self)
        ensures { self.new ≡ [] }
    {
        self.found.clear();
    }
}

/// New contents of blocks, by ascending number.
#[derive(Debug, Drop)]
pub struct Written {
    entries: Vec<(u32, Block)>,
}

impl Model for Written {
    ghost use Rattle.std.specs.Prelude.{List, ℕ};
    ghost use Rattle.std.specs.Ordering.{nat_cmp};
    ghost use Rattle.std.specs.FinMap as map;
    ghost use Rattle.std.specs.Coded.{coded_list, coded_ℕ};
    ghost use Rattle.zj_block.specs.Lists.{IsWritten};

    ghost Value = { map.FinMap nat_cmp (List ℕ) };

    ghost coded = { map.code coded_ℕ (coded_list coded_ℕ) };

    ghost view = { λ w. map.from_sorted w.entries.items };

    ghost invariant = { λ w. IsWritten w.entries.items };
}

impl Written {
    /// No content yet. It takes no memory.
    pub fn new(alloc: Global) -> Written
        ensures { result ≡ map.empty }
    {
        Written {
            entries: Vec::new(alloc),
        }
    }

    /// Sets the content of a block, in place of an earlier one.
    pub fn put(&mut self, b: BlockNo, content: &Block) -> Result<(), AllocError>
        ensures ok { OnOk result (self.new ≡ map.insert self.old b.0 content.now) }
        ensures err { OnErr result (self.new ≡ self.old) }
    {
        let _words = content.words();
        let at = place(&self.entries, b.0);
        if at < self.entries.len() && self.entries[at].0 == b.0 {
            self.entries[at] = (b.0, *content);
            return Ok(());
        }
        self.entries.insert(at, (b.0, *content))?;
        Ok(())
    }

    /// The new content of a block: `None` where it has none.
    pub fn get(&self, b: BlockNo) -> Option<&Block>
        ensures new { option_copied result ≡ map.get self.now b.0 }
        ensures content { IfSome result (λ n. IsContent n.now) }
    {
        content_in(&self.entries, b.0)
    }

    /// How many blocks have a new content.
    pub fn len(&self) -> usize
        ensures len { result ≡ map.len self.now }
        ensures contents { AreContents (map.entries self.now) }
    {
        self.entries.len()
    }

    /// Whether no block has a new content.
    pub fn is_empty(&self) -> bool
        ensures { IsTrue result ↔ (self.now ≡ map.empty) }
    {
        self.entries.is_empty()
    }

    /// The block with this place in the order of the numbers, and its new content: `None` exactly from
    /// the length on.
    pub fn at(&self, i: usize) -> Option<(BlockNo, &Block)>
        ensures entry { option_map (λ e. (e.0.0, e.1.now)) result ≡ slice_get (map.entries self.now) i }
        ensures content { IfSome result (λ e. IsContent e.1.now) }
    {
        entry_at(&self.entries, i)
    }
}

/// The content of the first entry with a number.
fn content_in(entries: &[(u32, Block)], number: u32) -> Option<&Block>
    ensures content { option_copied result ≡ content_under entries.now number }
    ensures fits { AreContents entries.now → IfSome result (λ content. IsContent content.now) }
{
    let (_, content) = entries.iter().find(|(other, _)| *other == number)?;
    Some(content)
}

/// The entry at a place.
fn entry_at(entries: &[(u32, Block)], i: usize) -> Option<(BlockNo, &Block)>
    ensures entry { option_map (λ e. (e.0.0, e.1.now)) result ≡ slice_get entries.now i }
    ensures fits { AreContents entries.now → IfSome result (λ e. IsContent e.1.now) }
{
    let (number, content) = entries.get(i)?;
    Some((BlockNo(*number), content))
}

/// The place of the first entry whose number is not below this one.
fn place(entries: &[(u32, Block)], number: u32) -> usize
    ensures { IsInsertionPoint entries.now number result }
{
    for (i, (other, _)) in entries.iter().enumerate() {
        if *other >= number {
            return i;
        }
    }
    entries.len()
}
