//! Why a dump was not made.

use lnbd_model::{Broken, NoMemory};
use thiserror::Error;

/// Why a dump was not made, or not all of it.
#[derive(Clone, Copy, Debug, PartialEq, Eq, Error)]
pub enum DumpFault {
    /// Memory ran out. It may come in place of every other answer.
    #[error("no memory")]
    NoMemory,
    /// A call on the wires failed: how often one had failed before, and by then.
    #[error("link")]
    Link { before: u64, after: u64 },
    /// The server broke the protocol, sent faulty content or ended the connection.
    #[error("broke {0:?}")]
    Broke(Broken),
    /// The server refused an option, or a read, with this code.
    #[error("peer {code}")]
    Peer { option: Option<u32>, code: u32 },
    /// The wires waited so long, in milliseconds, and nothing came.
    #[error("silent")]
    Silent { idles: u64 },
    /// The output failed.
    #[error("output")]
    Output,
    /// The export has this size and no such range; the length is 0 where none was given.
    #[error("range {offset} {length} {size}")]
    Range { offset: u64, length: u64, size: u64 },
    /// The export's last bytes lie in no whole block, and the range has some of them.
    #[error("uneven {length} {block}")]
    Uneven { length: u64, block: u32 },
}
