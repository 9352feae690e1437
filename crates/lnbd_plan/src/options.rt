//! The options of a copy.

/// The options of a copy. Their names and meanings are those of nbdcopy(1); each limit is this
/// program's own.
#[derive(Clone, Copy, Debug, PartialEq, Eq)]
pub struct CopyOptions {
    /// Connections to each side, 1 to 16.
    pub connections: u32,
    /// Requests in flight on each connection, 1 to 512.
    pub requests: u32,
    /// The most bytes of a request: a power of two from 4,096 to 33,554,432.
    pub request_size: u32,
    /// The fewest zero bytes that are written as zeroes: 0, or a power of two from 512 to
    /// 33,554,432.
    pub sparse: u32,
    /// The source is asked for its extents.
    pub extents: bool,
    /// Zeroes are written as allocated.
    pub allocated: bool,
    /// The destination is known to read as zeroes.
    pub destination_is_zero: bool,
    /// The destination is flushed in the end.
    pub flush: bool,
}
