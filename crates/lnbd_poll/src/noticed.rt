//! What a call over a handle and its link answers, and a turn over several.

ghost use Rattle.std.specs.Prelude.{◌≡◌};
ghost use Rattle.lnbd_poll.specs.Turns.{is_lost, is_moved, is_short, moved_by, turn_of};
ghost use Rattle.lnbd_poll.specs.Steps.{both};

/// What `notify_read` and `notify_write` did.
#[derive(Clone, Copy, Debug, PartialEq, Eq)]
pub enum Noticed {
    /// The handle took so many bytes, or so many of its own were written.
    Moved(usize),
    /// The link has no byte yet, or takes none yet.
    NotReady,
    /// The handle doesn't read, or has nothing to write (libnbd, nbd_aio_get_direction).
    Idle,
    /// The peer sends no more, and the handle was told.
    Ended,
    /// The link is of no use.
    LinkFailed,
    /// Memory ran out while the handle took what was read; what it didn't take stays in the inbox.
    NoMemory,
}

impl Noticed {
    /// How much happened.
    pub(crate) fn turn(self) -> Turn
        ensures { result ≡ turn_of (moved_by self) }
    {
        match self {
            Noticed::Moved(n) => Turn::Moved(n),
            Noticed::Ended | Noticed::LinkFailed => Turn::Moved(0),
            Noticed::NotReady | Noticed::Idle | Noticed::NoMemory => Turn::Still,
        }
    }

    /// Whether bytes moved.
    pub(crate) fn is_moved(self) -> bool
        ensures { result ≡ is_moved self }
    {
        matches!(self, Noticed::Moved(_))
    }

    /// Whether the link failed.
    pub(crate) fn is_lost(self) -> bool
        ensures { result ≡ is_lost self }
    {
        matches!(self, Noticed::LinkFailed)
    }

    /// Whether memory ran out.
    pub(crate) fn is_short(self) -> bool
        ensures { result ≡ is_short self }
    {
        matches!(self, Noticed::NoMemory)
    }
}

/// What happened in a turn.
#[derive(Clone, Copy, Debug, PartialEq, Eq)]
pub enum Turn {
    /// So many bytes moved on all links together, or the greatest usize where they are more. It is 0 where a peer ended or a
    /// link failed and no byte moved.
    Moved(usize),
    /// Each link of a handle that reads was tried, and none moved, ended or failed.
    Still,
}

impl Turn {
    /// What happened in two parts of a turn.
    pub fn and(self, other: Turn) -> Turn
        ensures { result ≡ both self other }
    {
        match (self, other) {
            (Turn::Still, other) => other,
            (turn, Turn::Still) => turn,
            (Turn::Moved(n), Turn::Moved(m)) => Turn::Moved(n.saturating_add(m)),
        }
    }
}
