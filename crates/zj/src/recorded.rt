//! A source that keeps what it gave.

use std::alloc::Global;
use zj_dev::{ReadFailed, Source};

/// A source over another one that keeps a copy of the bytes that it gave, as far as there is memory for them.
#[derive(Debug, Drop)]
pub struct Recorded<S> {
    source: S,
    given: Vec<u8>,
    is_whole: bool,
}

impl<S: Source> Recorded<S> {
    /// A source over another one, from which nothing was read yet.
    pub fn new(alloc: Global, source: S) -> Self {
        Recorded {
            source,
            given: Vec::new(alloc),
            is_whole: true,
        }
    }

    /// All bytes that it gave, or None where there was no memory to keep them.
    pub fn given(&self) -> Option<&[u8]> {
        if self.is_whole {
            Some(&self.given)
        } else {
            None
        }
    }
}

impl<S: Source> Source for Recorded<S> {
    ghost left = { λ recorded. S.left recorded.source };

    ghost faults = { λ recorded. S.faults recorded.source };

    fn read(&mut self, into: &mut [u8]) -> Result<usize, ReadFailed> {
        let count = self.source.read(into)?;
        if self.is_whole && self.given.extend_from_slice(&into[..count]).is_err() {
            self.is_whole = false;
        }
        Ok(count)
    }
}
