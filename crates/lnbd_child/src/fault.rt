//! Why serving beside a child, or a file, did not end well, and what each fault comes from.

ghost use Rattle.lnbd_child.specs.Loading.{TellsUnread};

use crate::reading::Unread;
use lnbd_serve::ServeFault;
use lnbd_spawn::Waited;
use thiserror::Error;

/// Why serving did not end well. Of `Serve(Client)` and `Child` all steps were done.
#[derive(Clone, Copy, Debug, PartialEq, Eq, Error)]
pub enum RunFault {
    /// What serving alone tells. Memory that ran out anywhere is told so, too.
    #[error("{0}")]
    Serve(ServeFault),
    /// A call on the store failed. The count of its faults, before the step in which it did and behind it.
    #[error("store fault")]
    Store { before: u64, after: u64 },
    /// The child was not started, or how it ended can't be had. The count of the spawner's faults, before that and behind it.
    #[error("spawn fault")]
    Spawn { before: u64, after: u64 },
    /// A signal ended the child, or it ended with another status than 0.
    #[error("the child ended badly")]
    Child(Waited),
    /// The file has more bytes than are served: so many.
    #[error("rule file-size {length} 1073741824")]
    TooLong { length: u64 },
    /// The file told that it has so many bytes, and ended before the byte at this place was read.
    #[error("rule changed {length} {end}")]
    Changed { length: u64, end: u64 },
}

impl Unread {
    /// What serving answers then, by the counts of the store's faults.
    pub(crate) fn fault(self, before: u64, after: u64) -> RunFault
        ensures { TellsUnread before after self result }
    {
        match self {
            Unread::NoMemory => RunFault::Serve(ServeFault::NoMemory),
            Unread::Failed => RunFault::Store { before, after },
            Unread::TooLong { length } => RunFault::TooLong { length },
            Unread::Changed { length, end } => RunFault::Changed { length, end },
        }
    }
}
