//! Why serving did not end well.

use thiserror::Error;

/// Why serving did not end well. All links of clients are then shut; but for `Client`, and for `Output` on the last line,
/// it was cut off.
#[derive(Clone, Copy, Debug, PartialEq, Eq, Error)]
pub enum ServeFault {
    /// Memory ran out.
    #[error("no memory")]
    NoMemory,
    /// A call on a link or the listener failed. The count of the wires' faults, at first and in the end.
    #[error("link fault")]
    Link { before: u64, after: u64 },
    /// A line could not be printed. `serve_on` prints none.
    #[error("output fault")]
    Output,
    /// Nothing came for too long. The count of the wires' waiting in the end.
    #[error("peer silent")]
    Silent { idles: u64 },
    /// The bytes of a client were no client's. All others were served to their end.
    #[error("a client broke the protocol")]
    Client,
}
