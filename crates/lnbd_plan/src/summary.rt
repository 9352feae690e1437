//! What a copy did.

/// What a copy did, in bytes of the source.
#[derive(Clone, Copy, Debug, PartialEq, Eq)]
pub struct Summary {
    /// Bytes that were read.
    pub read: u64,
    /// Bytes that were written as they are.
    pub written: u64,
    /// Bytes that were written as zeroes.
    pub zeroed: u64,
    /// Bytes that nothing was written for.
    pub skipped: u64,
}
