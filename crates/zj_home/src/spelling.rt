//! The spelling of a slot. It takes no memory.

ghost use Rattle.std.specs.Prelude.{◌≡◌, ◌+◌, ◌*◌, ◌≤◌, ◌++◌, [], length};
ghost use Rattle.zj_home.specs.Made.{field_bytes, slot_bytes, tail_bytes};
ghost use Rattle.zj_home.specs.Told.{super_told};

use crate::slot::{LETTERS, OPEN, Told};
use std::marker::Model;
use zj_block::Tail;

/// The bytes of a slot in front of its tails.
pub const FIELDS_LEN: usize = 40;

/// The bytes of a tail in a slot.
pub const TAIL_LEN: usize = 16;

/// The bytes of a slot with a tail for each of the most cores.
pub const MAX_SLOT_LEN: usize = 168;

/// The bytes of a slot, as far as they were spelled.
#[derive(Debug, Drop)]
pub struct SlotBytes {
    bytes: [u8; MAX_SLOT_LEN],
    len: usize,
}

impl Model for SlotBytes {
    ghost use Rattle.std.specs.Prelude.{List, ℕ, ◌≤◌, take};
    ghost use Rattle.zj_home.specs.declared.spelling.TheConstants.{MAX_SLOT_LEN};

    ghost Value = { List ℕ };

    ghost view = { λ s. take s.len s.bytes };

    ghost invariant = { λ s. s.len ≤ MAX_SLOT_LEN };
}

impl SlotBytes {
    /// No bytes.
    fn new() -> SlotBytes
        ensures { result ≡ [] }
    {
        SlotBytes {
            bytes: [0; MAX_SLOT_LEN],
            len: 0,
        }
    }

    /// Adds a piece.
    fn push(&mut self, piece: &[u8])
        requires { length self.old + length piece.now ≤ MAX_SLOT_LEN }
        ensures added { self.new ≡ self.old ++ piece.now }
        ensures len { length self.new ≡ length self.old + length piece.now }
    {
        let end = self.len + piece.len();
        self.bytes[self.len..end].copy_from_slice(piece);
        self.len = end;
    }

    /// The bytes.
    pub fn as_slice(&self) -> &[u8]
        ensures { result.now ≡ self.now }
    {
        &self.bytes[..self.len]
    }
}

/// Spells what stands in front of the tails.
fn spell_fields(told: &Told) -> SlotBytes
    ensures spelled { result ≡ field_bytes told.now.epoch told.now.sizes }
    ensures len { length result ≡ FIELDS_LEN }
{
    let sizes = &told.sizes;
    let mut slot = SlotBytes::new();
    slot.push(&[OPEN]);
    slot.push(LETTERS);
    slot.push(&told.epoch.to_le_bytes());
    slot.push(&sizes.version().to_le_bytes());
    slot.push(&sizes.cores().to_le_bytes());
    slot.push(&sizes.blocks().to_le_bytes());
    slot.push(&sizes.nodes().to_le_bytes());
    slot.push(&sizes.area().to_le_bytes());
    slot
}

/// Spells one tail more.
fn spell_tail(slot: &mut SlotBytes, tail: Tail)
    requires { length slot.old + TAIL_LEN ≤ MAX_SLOT_LEN }
    ensures spelled { slot.new ≡ slot.old ++ tail_bytes tail }
    ensures len { length slot.new ≡ length slot.old + TAIL_LEN }
{
    slot.push(&tail.place.to_le_bytes());
    slot.push(&tail.number.to_le_bytes());
}

/// Spells what a slot tells, with its gate open.
pub fn spell(told: &Told) -> SlotBytes
    ensures spelled { result ≡ slot_bytes (super_told told.now) }
    ensures len { length result ≡ FIELDS_LEN + TAIL_LEN * told.now.sizes.cores }
{
    let mut slot = spell_fields(told);
    for core in 0..told.sizes.cores() {
        spell_tail(&mut slot, told.tails.at(core).unwrap());
    }
    slot
}
