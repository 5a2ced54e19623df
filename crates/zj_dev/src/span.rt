//! Spans of moments of a device.

/// The moments of a device from one on and up to another, both of them counted. A moment is a number of calls made.
#[derive(Clone, Copy, Debug, PartialEq, Eq)]
pub struct Span {
    /// The first moment.
    pub from: u64,
    /// The last one.
    pub to: u64,
}
