//! Why a copy does not end well. When each comes is not said here.

ghost use Rattle.std.specs.Prelude.{◌≡◌};
ghost use Rattle.lnbd_plan.specs.declared.fault.CopyFault.TheVariants.{NoMemory as OutOfMemory};

use lnbd_model::{Broken, NoMemory};
use thiserror::Error;

/// A rule between the two sides of a copy that does not hold. Where several do not, the first of this
/// order is told.
#[derive(Clone, Copy, Debug, PartialEq, Eq, Error)]
pub enum Rule {
    /// The destination is read-only.
    #[error("read-only")]
    ReadOnly,
    /// The destination is smaller than the source: the bytes of both.
    #[error("smaller {source} {destination}")]
    Smaller { source: u64, destination: u64 },
    /// The source's bytes are no multiple of the larger minimum block of the two.
    #[error("uneven {length} {block}")]
    Uneven { length: u64, block: u32 },
    /// The larger minimum block is greater than what both sides take in one request, in bytes.
    #[error("unfit {minimum} {maximum}")]
    Unfit { minimum: u32, maximum: u32 },
}

/// Why a copy does not end well.
#[derive(Clone, Copy, Debug, PartialEq, Eq, Error)]
pub enum CopyFault {
    /// Memory ran out. It may come in place of every other answer.
    #[error("no memory")]
    NoMemory,
    /// A link failed: the wires' count of faults before and after.
    #[error("link fault")]
    Link { before: u64, after: u64 },
    /// A peer broke off.
    #[error("peer broke off")]
    Broke(Broken),
    /// A peer answered this option, or else a command, by an error.
    #[error("peer error")]
    Peer { option: Option<u32>, code: u32 },
    /// A rule between the two sides does not hold.
    #[error("rule {0}")]
    Rule(Rule),
    /// The peers were silent for too long: the wires' count of idles.
    #[error("peer silent")]
    Silent { idles: u64 },
}

impl From<NoMemory> for CopyFault {
    ghost from_gives = { λ _ fault. fault ≡ OutOfMemory };

    fn from(_error: NoMemory) -> CopyFault {
        CopyFault::NoMemory
    }
}
