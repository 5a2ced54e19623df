//! Byte streams into the program.

ghost use Rattle.std.specs.Prelude.{◌≡◌, ℕ, ◌+◌, ◌<◌, ◌≤◌, ◌↔◌, List, [], length, take, Option, Some, None, min, IsErr, IfOk, IfSome, OnErr, OnOk, Contains};
ghost use Rattle.zj_dev.specs.Fault.{Rose};
ghost use Rattle.zj_dev.specs.Stream.{Gave};

use std::alloc::{AllocError, Global};
use std::io::Read;
use thiserror::Error;

/// A read failed. It moved nothing, and the source's count of faults rose.
#[derive(Clone, Copy, Debug, PartialEq, Eq, Error)]
#[error("a read failed")]
pub struct ReadFailed;

/// A stream of bytes that is read from its front.
pub trait Source {
    /// The bytes that are left, where the source tells them.
    ghost left: { Self → Option (List ℕ) };

    /// How many reads have failed. One that answers Ok leaves the count.
    ghost faults: { Self → ℕ };

    /// Moves some first bytes of what is left to the front of `into`, and answers how many: 0 for a
    /// piece that isn't empty exactly at the end. The rest of `into` may then hold anything, and so may
    /// all of it after `ReadFailed`, which leaves what the source has left.
    fn read(&mut self, into: &mut [u8]) -> Result<usize, ReadFailed>
        ensures count { IfOk result (λ n. n ≤ length into.old) }
        ensures moved { IfOk result (λ n. Gave (left self.old) (left self.new) (take n into.new)) }
        ensures end { IfOk result (λ n. n ≡ 0 → 0 < length into.old → IfSome (left self.new) (λ rest. rest ≡ [])) }
        ensures failed { OnErr result (left self.new ≡ left self.old) }
        ensures quiet { OnOk result (faults self.new ≡ faults self.old) }
        ensures cause { OnErr result (Rose (faults self.old) (faults self.new)) }
        ensures no_fewer { faults self.old ≤ faults self.new };
}

/// A source in memory. It tells its bytes, and fails at the calls that it was told to fail at.
#[derive(Debug, Drop)]
pub struct MemSource {
    bytes: Vec<u8>,
    next: usize,
    failing: Vec<u64>,
    calls: u64,
    faults: u64,
    ghost within: { next ≤ length bytes.items },
}

impl MemSource {
    ghost use Rattle.zj_dev.specs.Memory.{bytes_left, failing_reads, reads_made};

    /// A source with these bytes, whose reads with the numbers in `failing` fail. Reads count from 0.
    pub fn new(alloc: Global, bytes: &[u8], failing: &[u64]) -> Result<Self, AllocError>
        ensures bytes { IfOk result (λ source. bytes_left source ≡ bytes.now) }
        ensures failing { IfOk result (λ source. failing_reads source ≡ failing.now) }
        ensures fresh { IfOk result (λ source. reads_made source ≡ 0) }
        ensures faults { IfOk result (λ source. ⟦<MemSource as Source>⟧.faults source ≡ 0) }
    {
        Ok(MemSource {
            bytes: Vec::from_slice(alloc, bytes)?,
            next: 0,
            failing: Vec::from_slice(alloc, failing)?,
            calls: 0,
            faults: 0,
        })
    }
}

impl Source for MemSource {
    ghost use Rattle.std.specs.Prelude.{◌≡◌, ◌+◌, ◌-◌, ◌^◌, ◌<◌, ◌≤◌, ◌↔◌, [], length, take, Some, min, IsErr, IfOk, IfSome, OnErr, OnOk, Contains};
    ghost use Rattle.zj_dev.specs.Fault.{Rose};
    ghost use Rattle.zj_dev.specs.Stream.{Gave};
    ghost use Rattle.zj_dev.specs.Memory.{bytes_left, failing_reads, reads_made};

    ghost left = { λ source. Some (bytes_left source) };

    ghost faults = { λ source. source.faults };

    fn read(&mut self, into: &mut [u8]) -> Result<usize, ReadFailed>
        ensures count { IfOk result (λ n. n ≤ length into.old) }
        ensures moved { IfOk result (λ n. Gave (Some (bytes_left self.old)) (Some (bytes_left self.new)) (take n into.new)) }
        ensures end { IfOk result (λ n. n ≡ 0 → 0 < length into.old → IfSome (Some (bytes_left self.new)) (λ rest. rest ≡ [])) }
        ensures failed { OnErr result (Some (bytes_left self.new) ≡ Some (bytes_left self.old)) }
        ensures quiet { OnOk result (self.new.faults ≡ self.old.faults) }
        ensures cause { OnErr result (Rose self.old.faults self.new.faults) }
        ensures no_fewer { self.old.faults ≤ self.new.faults }
        ensures fails { IsErr result ↔ Contains (failing_reads self.old) (reads_made self.old) }
        ensures calls { reads_made self.new ≡ min (reads_made self.old + 1) (2 ^ 64 - 1) }
        ensures failing { failing_reads self.new ≡ failing_reads self.old }
    {
        let fails = self.failing.contains(&self.calls);
        self.calls = self.calls.saturating_add(1);
        if fails {
            self.faults = self.faults.saturating_add(1);
            return Err(ReadFailed);
        }
        let rest = &self.bytes[self.next..];
        let count = rest.len().min(into.len());
        into[..count].copy_from_slice(&rest[..count]);
        self.next += count;
        Ok(count)
    }
}

/// A source over a reader of the system. It tells its count of faults alone.
#[derive(Debug, Drop)]
pub struct InSource<R> {
    reader: R,
    faults: u64,
}

impl<R: Read> InSource<R> {
    ghost use Rattle.std.specs.Prelude.{◌≡◌};

    /// A source over the reader.
    pub fn new(reader: R) -> Self
        ensures { ⟦<InSource<R> as Source>⟧.faults result ≡ 0 }
    {
        InSource { reader, faults: 0 }
    }
}

impl<R: Read> Source for InSource<R> {
    ghost left = { λ _. None };

    ghost faults = { λ source. source.faults };

    fn read(&mut self, into: &mut [u8]) -> Result<usize, ReadFailed> {
        match self.reader.read(into) {
            Ok(count) => Ok(count),
            Err(_) => {
                self.faults = self.faults.saturating_add(1);
                Err(ReadFailed)
            }
        }
    }
}
