//! What is answered of a chunk.

use lnbd_model::Breach;
use thiserror::Error;

/// What the first bytes of a chunk show.
#[derive(Clone, Copy, Debug, PartialEq, Eq)]
pub enum Judged {
    /// They break the protocol.
    Breach(Breach),
    /// They begin data without a fault, which go to so many bytes of the export from a place on.
    Place { offset: u64, length: u64 },
    /// Neither so far.
    Going,
}

/// What a whole chunk asks for.
#[derive(Clone, Copy, Debug, PartialEq, Eq)]
pub enum Effect {
    /// Its data go to so many bytes of the export from a place on.
    Place { offset: u64, length: u64 },
    /// There are so many zeros from a place of the export on.
    Hole { offset: u64, length: u64 },
    /// Its descriptors are told under this meta context.
    Told { context: u32 },
    /// The peer told an error, of a place of the export or of none.
    Error { offset: Option<u64>, error: u32 },
    /// Nothing: the chunk is empty, or what it tells has a fault.
    Nothing,
}

/// Why a chunk was not taken.
#[derive(Clone, Copy, Debug, PartialEq, Eq, Error)]
pub enum ChunkFault {
    /// Memory ran out.
    #[error("no memory")]
    NoMemory,
    /// The chunk breaks the protocol.
    #[error("a breach of the protocol")]
    Breach(Breach),
}
