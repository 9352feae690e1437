//! What one line of a script tells. No text is made here.

ghost use Rattle.std.specs.Prelude.{◌≡◌};
ghost use Rattle.lnbd_script.specs.Steps.{linked_told, moved_end, moved_of, read_answer, settled_end};

use lnbd_history::Completed;
use lnbd_model::{NoMemory, State, Why};
use lnbd_poll::Noticed;

/// What one read or write did.
#[derive(Clone, Copy, Debug, PartialEq, Eq)]
pub(crate) enum Moved {
    /// So many bytes were taken or written.
    Bytes(usize),
    /// Nothing moved yet.
    NotReady,
    /// The handle does not read, or has nothing to write.
    Idle,
    /// The peer sends no more.
    Ended,
    /// The link failed.
    Failed,
}

impl Moved {
    /// What a handle and its link did. Where memory ran out nothing is told of it.
    pub(crate) fn of(noticed: Noticed) -> Moved
        ensures { result ≡ moved_of noticed }
    {
        match noticed {
            Noticed::Moved(n) => Moved::Bytes(n),
            Noticed::NotReady | Noticed::NoMemory => Moved::NotReady,
            Noticed::Idle => Moved::Idle,
            Noticed::Ended => Moved::Ended,
            Noticed::LinkFailed => Moved::Failed,
        }
    }

    /// What a read did, unless memory ran out.
    pub(crate) fn of_read(noticed: Noticed) -> Result<Moved, NoMemory>
        ensures { result ≡ read_answer noticed }
    {
        match noticed {
            Noticed::NoMemory => Err(NoMemory),
            _ => Ok(Moved::of(noticed)),
        }
    }
}

/// What a connect did.
#[derive(Clone, Copy, Debug, PartialEq, Eq)]
pub(crate) enum Linked {
    Connected,
    /// The wires gave no link.
    NotConnected,
    /// The handle is in this state, and is not connected again.
    Refused(State),
}

/// What a line tells. A question is answered by the handle as it then stands.
#[derive(Debug, Drop)]
pub(crate) enum Told {
    /// The handle is closed.
    Gone,
    /// It is done.
    Done,
    Connected,
    NotConnected,
    Settled,
    /// The handle is in this state.
    RefusedState(State),
    /// So many meta contexts, the most, were added.
    RefusedContext(u32),
    /// Structured replies are off.
    RefusedUnstructured,
    /// These bits of strict mode mean nothing.
    RefusedStrict(u32),
    Cookie(u64),
    Refused(Why),
    Moved(Moved),
    Result(Completed),
    /// A line for each call that callbacks heard.
    Heard(String),
    /// So many callbacks were admitted, and so many freed.
    Closed { opened: u64, freed: u64 },
    Log,
    Peek,
    InFlight,
    Direction,
    State,
    Info,
    Answer,
    Listing,
}

/// What ends a script in a line.
#[derive(Clone, Copy, Debug, PartialEq, Eq)]
pub(crate) enum Halt {
    /// The wires were idle for too long.
    Silent,
    /// Memory ran out.
    NoMemory,
}

impl Told {
    /// What a connect tells.
    pub(crate) fn of_connect(linked: Linked) -> Told
        ensures { result ≡ linked_told linked }
    {
        match linked {
            Linked::Connected => Told::Connected,
            Linked::NotConnected => Told::NotConnected,
            Linked::Refused(state) => Told::RefusedState(state),
        }
    }

    /// What a read tells.
    pub(crate) fn of_read(moved: Result<Moved, NoMemory>) -> Result<Told, Halt>
        ensures { result ≡ moved_end moved }
    {
        match moved {
            Ok(moved) => Ok(Told::Moved(moved)),
            Err(_) => Err(Halt::NoMemory),
        }
    }

    /// What a settle tells.
    pub(crate) fn of_settle(settled: Result<(), Halt>) -> Result<Told, Halt>
        ensures { result ≡ settled_end settled }
    {
        match settled {
            Ok(()) => Ok(Told::Settled),
            Err(halt) => Err(halt),
        }
    }
}
