//! Reading a source to its end, and writing all of a piece to a sink.

ghost use Rattle.std.specs.Prelude.{◌≡◌, ◌⊎◌, ◌++◌, List, ℕ, ◌≤◌, IfOk, IfErr, OnOk, OnErr};
ghost use Rattle.zj_dev.specs.Fault.{Rose};
ghost use Rattle.zj_dev.specs.Stream.{Took};
ghost use Rattle.zj_cli.specs.declared.status.Fault.TheVariants as faults;
ghost use Rattle.zj_cli.specs.Play.{Reads, ReadsInput};

use crate::status::Fault;
use std::alloc::Global;
use zj_dev::{Sink, Source};
use zj_script::MAX_BYTES;

/// How many bytes are read at once.
const PIECE: usize = 16_384;

/// Reads the source to its end, or to one byte more than a schedule may have.
pub fn read_whole<S: Source>(alloc: Global, input: &mut S) -> Result<Vec<u8>, Fault>
    ensures ok { IfOk result (λ bytes. ReadsInput (S.left input.old) (S.left input.new) bytes.items) }
    ensures err { OnErr result ((read : List ℕ) × Reads (S.left input.old) (S.left input.new) read) }
    ensures cause { IfErr result (λ fault. (fault ≡ faults.Memory) ⊎ ((fault ≡ faults.Input) × Rose (S.faults input.old) (S.faults input.new))) }
    ensures quiet { OnOk result (S.faults input.new ≡ S.faults input.old) }
    ensures no_fewer { S.faults input.old ≤ S.faults input.new }
{
    let mut bytes = Vec::new(alloc);
    let mut piece = [0; PIECE];
    while bytes.len() <= MAX_BYTES {
        let room = PIECE.min(MAX_BYTES + 1 - bytes.len());
        let count = input.read(&mut piece[..room])?;
        if count == 0 {
            return Ok(bytes);
        }
        bytes.extend_from_slice(&piece[..count])?;
    }
    Ok(bytes)
}

/// Writes all of the bytes, in as many pieces as the sink takes them in.
pub fn write_whole<K: Sink>(out: &mut K, bytes: &[u8]) -> Result<(), Fault>
    ensures ok { OnOk result (Took (K.held out.old) (K.held out.new) bytes.now) }
    ensures err { OnErr result ((front rest : List ℕ) × (front ++ rest ≡ bytes.now) × Took (K.held out.old) (K.held out.new) front) }
    ensures cause { IfErr result (λ fault. (fault ≡ faults.Output) × Rose (K.faults out.old) (K.faults out.new)) }
    ensures quiet { OnOk result (K.faults out.new ≡ K.faults out.old) }
    ensures no_fewer { K.faults out.old ≤ K.faults out.new }
{
    let mut rest = bytes;
    while !rest.is_empty() {
        let count = out.write(rest)?;
        rest = &rest[count..];
    }
    Ok(())
}
