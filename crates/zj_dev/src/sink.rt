//! Byte streams out of the program.

ghost use Rattle.std.specs.Prelude.{◌≡◌, ℕ, ◌+◌, ◌<◌, ◌≤◌, List, [], length, take, Option, Some, None, IsErr, IfOk, OnErr, OnOk, Contains};
ghost use Rattle.zj_dev.specs.Fault.{Rose};
ghost use Rattle.zj_dev.specs.Stream.{Took};

use std::alloc::{AllocError, Global};
use std::io::Write;
use thiserror::Error;

/// A write failed. It added nothing, and the sink's count of faults rose.
#[derive(Clone, Copy, Debug, PartialEq, Eq, Error)]
#[error("a write failed")]
pub struct WriteFailed;

/// A stream of bytes that is written at its end.
pub trait Sink {
    /// The bytes that the sink holds, where it tells them.
    ghost held: { Self → Option (List ℕ) };

    /// How many writes have failed. One that answers Ok leaves the count.
    ghost faults: { Self → ℕ };

    /// Adds some first bytes of the piece to those that the sink holds, and answers how many: at least
    /// one of a piece that isn't empty. `WriteFailed` leaves what the sink holds.
    fn write(&mut self, bytes: &[u8]) -> Result<usize, WriteFailed>
        ensures count { IfOk result (λ n. n ≤ length bytes.now) }
        ensures some { IfOk result (λ n. 0 < length bytes.now → 0 < n) }
        ensures added { IfOk result (λ n. Took (held self.old) (held self.new) (take n bytes.now)) }
        ensures failed { OnErr result (held self.new ≡ held self.old) }
        ensures quiet { OnOk result (faults self.new ≡ faults self.old) }
        ensures cause { OnErr result (Rose (faults self.old) (faults self.new)) }
        ensures no_fewer { faults self.old ≤ faults self.new };
}

/// A sink in memory. It tells its bytes, and fails at the calls that it was told to fail at. A write that
/// finds no memory fails too.
#[derive(Debug, Drop)]
pub struct MemSink {
    bytes: Vec<u8>,
    failing: Vec<u64>,
    calls: u64,
    faults: u64,
}

impl MemSink {
    ghost use Rattle.zj_dev.specs.Memory.{bytes_held, failing_writes, writes_made};

    /// An empty sink, whose writes with the numbers in `failing` fail. Writes count from 0.
    pub fn new(alloc: Global, failing: &[u64]) -> Result<Self, AllocError>
        ensures empty { IfOk result (λ sink. bytes_held sink ≡ []) }
        ensures failing { IfOk result (λ sink. failing_writes sink ≡ failing.now) }
        ensures fresh { IfOk result (λ sink. writes_made sink ≡ 0) }
        ensures faults { IfOk result (λ sink. ⟦<MemSink as Sink>⟧.faults sink ≡ 0) }
    {
        Ok(MemSink {
            bytes: Vec::new(alloc),
            failing: Vec::from_slice(alloc, failing)?,
            calls: 0,
            faults: 0,
        })
    }

    /// What the sink holds.
    pub fn bytes(&self) -> &[u8]
        ensures { result.now ≡ bytes_held self.now }
    {
        &self.bytes
    }
}

impl Sink for MemSink {
    ghost use Rattle.std.specs.Prelude.{◌≡◌, ◌+◌, ◌-◌, ◌^◌, ◌<◌, ◌≤◌, length, take, Some, min, IsErr, IfOk, OnErr, OnOk, Contains};
    ghost use Rattle.zj_dev.specs.Fault.{Rose};
    ghost use Rattle.zj_dev.specs.Stream.{Took};
    ghost use Rattle.zj_dev.specs.Memory.{bytes_held, failing_writes, writes_made};

    ghost held = { λ sink. Some (bytes_held sink) };

    ghost faults = { λ sink. sink.faults };

    fn write(&mut self, bytes: &[u8]) -> Result<usize, WriteFailed>
        ensures count { IfOk result (λ n. n ≤ length bytes.now) }
        ensures some { IfOk result (λ n. 0 < length bytes.now → 0 < n) }
        ensures added { IfOk result (λ n. Took (Some (bytes_held self.old)) (Some (bytes_held self.new)) (take n bytes.now)) }
        ensures failed { OnErr result (Some (bytes_held self.new) ≡ Some (bytes_held self.old)) }
        ensures quiet { OnOk result (self.new.faults ≡ self.old.faults) }
        ensures cause { OnErr result (Rose self.old.faults self.new.faults) }
        ensures no_fewer { self.old.faults ≤ self.new.faults }
        ensures fails { Contains (failing_writes self.old) (writes_made self.old) → IsErr result }
        ensures calls { writes_made self.new ≡ min (writes_made self.old + 1) (2 ^ 64 - 1) }
        ensures failing { failing_writes self.new ≡ failing_writes self.old }
    {
        let fails = self.failing.contains(&self.calls);
        self.calls = self.calls.saturating_add(1);
        if fails || self.bytes.extend_from_slice(bytes).is_err() {
            self.faults = self.faults.saturating_add(1);
            return Err(WriteFailed);
        }
        Ok(bytes.len())
    }
}

/// A sink over a writer of the system. It tells its count of faults alone.
#[derive(Debug, Drop)]
pub struct OutSink<W> {
    writer: W,
    faults: u64,
}

impl<W: Write> OutSink<W> {
    ghost use Rattle.std.specs.Prelude.{◌≡◌};

    /// A sink over the writer.
    pub fn new(writer: W) -> Self
        ensures { ⟦<OutSink<W> as Sink>⟧.faults result ≡ 0 }
    {
        OutSink { writer, faults: 0 }
    }
}

impl<W: Write> Sink for OutSink<W> {
    ghost held = { λ _. None };

    ghost faults = { λ sink. sink.faults };

    fn write(&mut self, bytes: &[u8]) -> Result<usize, WriteFailed> {
        match self.writer.write(bytes) {
            Ok(count) if count > 0 || bytes.is_empty() => Ok(count),
            _ => {
                self.faults = self.faults.saturating_add(1);
                Err(WriteFailed)
            }
        }
    }
}
