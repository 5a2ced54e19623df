//! One block of 512 bytes.

ghost use Rattle.std.specs.Prelude.{◌≡◌, ℕ, ◌+◌, ◌*◌, ◌<◌, ◌≤◌, ◌↔◌, [], ◌∷◌, IsTrue, IsSome, IfSome, IfNone, OnSome, slice_get, slice_index, slice_set};
ghost use Rattle.std.specs.Int.{byte_at, bytes_low_first, to_le_bytes, w32};
ghost use Rattle.zj_block.specs.Block.{IsContent, bytes_of, u32_at, with_bytes_at, overwritten, words_of, zero_content};

use byteorder::{ByteOrder, LittleEndian};
use std::marker::Model;

/// A block: 64 words of 64 bits, whose bytes stand lowest first.
#[derive(Clone, Copy, Debug, PartialEq, Eq)]
pub struct Block {
    words: [u64; 64],
}

impl Model for Block {
    ghost use Rattle.std.specs.Prelude.{List, ℕ};
    ghost use Rattle.zj_block.specs.Block.{IsContent};

    ghost Value = { List ℕ };

    ghost view = { λ b. b.words };

    ghost invariant = { λ b. IsContent b.words };

    ghost inverse = { λ words. record { words = words } };
}

impl Block {
    /// A block of zeros.
    pub fn zero() -> Block
        ensures zero { result ≡ zero_content }
        ensures content { IsContent result }
    {
        Block { words: [0; 64] }
    }

    /// The words.
    pub fn words(&self) -> &[u64; 64]
        ensures words { result.now ≡ self.now }
        ensures content { IsContent self.now }
    {
        &self.words
    }

    /// The word at a place: `None` exactly from place 64 on.
    pub fn word(&self, i: usize) -> Option<u64>
        ensures word { result ≡ slice_get self.now i }
        ensures content { IsContent self.now }
    {
        self.words.get(i).copied()
    }

    /// Sets the word at a place. `None` exactly from place 64 on: the block is then unchanged.
    pub fn set_word(&mut self, i: usize, w: u64) -> Option<()>
        ensures some { IsSome result ↔ (i < 64) }
        ensures set { OnSome result (self.new ≡ slice_set self.old i w) }
        ensures none { IfNone result (self.new ≡ self.old) }
        ensures content { IsContent self.new }
    {
        let _before = self.word(i)?;
        self.words[i] = w;
        Some(())
    }

    /// The number of 32 bits whose lowest byte is byte `at` of the block: `None` exactly where it is not
    /// wholly in the block.
    pub fn get_u32(&self, at: usize) -> Option<u32>
        ensures some { IsSome result ↔ (at + 4 ≤ 512) }
        ensures value { IfSome result (λ v. v ≡ u32_at self.now at) }
        ensures content { IsContent self.now }
    {
        if !self.holds(at, 4) {
            return None;
        }
        Some((self.window(at) & 0xffff_ffff) as u32)
    }

    /// Puts a number of 32 bits, its lowest byte at byte `at` of the block. `None` exactly where it would
    /// not be wholly in the block: the block is then unchanged.
    pub fn put_u32(&mut self, at: usize, v: u32) -> Option<()>
        ensures some { IsSome result ↔ (at + 4 ≤ 512) }
        ensures put { OnSome result (self.new ≡ with_bytes_at self.old at (to_le_bytes w32 v)) }
        ensures bytes { OnSome result (bytes_of self.new ≡ overwritten (bytes_of self.old) at (to_le_bytes w32 v)) }
        ensures none { IfNone result (self.new ≡ self.old) }
        ensures content { IsContent self.new }
    {
        if !self.holds(at, 4) {
            return None;
        }
        let i = at / 8;
        let from = (at % 8) as u32;
        let value = u64::from(v);
        if from <= 4 {
            self.put_part(i, from, 4, value);
        } else {
            let count = 8 - from;
            self.put_part(i, from, count, value);
            self.put_part(i + 1, 0, 4 - count, value >> (8 * count));
        }
        Some(())
    }

    /// Byte `at` of the block: `None` exactly from byte 512 on.
    pub fn byte(&self, at: usize) -> Option<u8>
        ensures byte { result ≡ slice_get (bytes_of self.now) at }
        ensures content { IsContent self.now }
    {
        let word = self.word(at / 8)?;
        Some(((word >> (8 * (at % 8))) & 0xff) as u8)
    }

    /// Puts byte `at` of the block. `None` exactly from byte 512 on: the block is then unchanged.
    pub fn put_byte(&mut self, at: usize, v: u8) -> Option<()>
        ensures some { IsSome result ↔ (at < 512) }
        ensures put { OnSome result (self.new ≡ with_bytes_at self.old at (v ∷ [])) }
        ensures bytes { OnSome result (bytes_of self.new ≡ overwritten (bytes_of self.old) at (v ∷ [])) }
        ensures none { IfNone result (self.new ≡ self.old) }
        ensures content { IsContent self.new }
    {
        if !self.holds(at, 1) {
            return None;
        }
        self.put_part(at / 8, (at % 8) as u32, 1, u64::from(v));
        Some(())
    }

    /// Writes the bytes of the block.
    pub fn to_bytes(&self, out: &mut [u8; 512])
        ensures bytes { out.new ≡ bytes_of self.now }
        ensures content { IsContent self.now }
    {
        for (i, word) in self.words.iter().enumerate() {
            LittleEndian::write_u64(&mut out[8 * i..], *word);
        }
    }

    /// The block with these bytes.
    pub fn from_bytes(bytes: &[u8; 512]) -> Block
        ensures words { result ≡ words_of bytes.now }
        ensures bytes { bytes_of result ≡ bytes.now }
        ensures content { IsContent result }
    {
        let mut words = [0; 64];
        for (i, word) in words.iter_mut().enumerate() {
            *word = LittleEndian::read_u64(&bytes[8 * i..]);
        }
        Block { words }
    }

    /// Whether some bytes from a place on are wholly in the block.
    fn holds(&self, at: usize, count: usize) -> bool
        requires { count ≤ 512 }
        ensures inside { IsTrue result ↔ (at + count ≤ 512) }
        ensures content { IsContent self.now }
    {
        let words = &self.words;
        at <= 8 * words.len() - count
    }

    /// A number whose lowest four bytes are those of the block from a byte on.
    fn window(&self, at: usize) -> u64
        requires { at + 4 ≤ 512 }
        ensures { (k : ℕ) → k < 4 → byte_at k result ≡ slice_index (bytes_of self.now) (at + k) }
    {
        let from = at % 8;
        let low = self.words[at / 8] >> (8 * from);
        if from <= 4 {
            return low;
        }
        let high = self.words[at / 8 + 1] & 0xffff_ffff;
        (high << (8 * (8 - from))) + low
    }

    /// Puts the lowest bytes of a value over those of word `i` from byte `from` on.
    fn put_part(&mut self, i: usize, from: u32, count: u32, value: u64)
        requires word { i < 64 }
        requires inside { from + count ≤ 8 }
        requires some { 1 ≤ count }
        requires few { count ≤ 4 }
        ensures bytes { bytes_of self.new ≡ overwritten (bytes_of self.old) (8 * i + from) (bytes_low_first 0 count value) }
        ensures content { IsContent self.new }
    {
        self.words[i] = with_part(self.words[i], from, count, value);
    }
}

/// The word with the lowest bytes of a value over its own from byte `from` on.
fn with_part(word: u64, from: u32, count: u32, value: u64) -> u64
    requires inside { from + count ≤ 8 }
    requires some { 1 ≤ count }
    requires few { count ≤ 4 }
    ensures below { (k : ℕ) → k < from → byte_at k result ≡ byte_at k word }
    ensures part { (k : ℕ) → k < count → byte_at (from + k) result ≡ byte_at k value }
    ensures above { (k : ℕ) → from + count ≤ k → byte_at k result ≡ byte_at k word }
{
    let shift = 8 * from;
    let mask = (1u64 << (8 * count)) - 1;
    let old = (word >> shift) & mask;
    let new = value & mask;
    word - (old << shift) + (new << shift)
}
