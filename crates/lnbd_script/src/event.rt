//! What happens in a script that decides how its run ends, and how a play ends.

ghost use Rattle.std.specs.Prelude.{◌≡◌};
ghost use Rattle.lnbd_script.specs.Seen.{death_in, death_of, event_of_answer, event_of_error, event_of_faulty};

use lnbd_handle::OptAnswer;
use lnbd_model::{Broken, Cause, State};
use thiserror::Error;

/// An event after which a script goes on. The first decides how the run ends.
#[derive(Clone, Copy, Debug, PartialEq, Eq)]
pub enum Event {
    /// A link failed.
    Link,
    /// The peer broke off.
    Broke(Broken),
    /// The peer answered this option, or else a command, by an error.
    Peer { option: Option<u32>, code: u32 },
}

/// Why a play does not end well.
#[derive(Clone, Copy, Debug, PartialEq, Eq, Error)]
pub enum PlayFault {
    /// Memory ran out. It ends the script at once.
    #[error("no memory")]
    NoMemory,
    /// The wires were idle for too long. It ends the script at once.
    #[error("peer silent")]
    Silent,
    /// The output failed. It ends the script at once.
    #[error("output fault")]
    Output,
    /// A link failed. The script went on.
    #[error("link fault")]
    Link,
    /// The peer broke off. The script went on.
    #[error("peer broke off")]
    Broke(Broken),
    /// The peer answered this option, or else a command, by an error. The script went on.
    #[error("peer error")]
    Peer { option: Option<u32>, code: u32 },
}

impl Event {
    /// What a death comes to that no failed call told.
    fn of_death(cause: Cause) -> Option<Event>
        ensures { result ≡ death_of cause }
    {
        match cause {
            Cause::Broke(breach) => Some(Event::Broke(Broken::Breach(breach))),
            Cause::Refused { option, code } => Some(Event::Peer {
                option: Some(option),
                code,
            }),
            Cause::Ended => Some(Event::Broke(Broken::Ended)),
            Cause::LinkFailed => None,
        }
    }

    /// The event of a handle that is dead.
    pub(crate) fn in_state(state: State) -> Option<Event>
        ensures { result ≡ death_in state }
    {
        match state {
            State::Dead(cause) => Event::of_death(cause),
            _ => None,
        }
    }

    /// The event of a command that failed by faulty content.
    pub(crate) fn of_faulty(faulty: bool) -> Option<Event>
        ensures { result ≡ event_of_faulty faulty }
    {
        match faulty {
            true => Some(Event::Broke(Broken::Content)),
            false => None,
        }
    }

    /// The event of the answer to an option that the caller asked.
    pub(crate) fn of_answer(answer: Option<OptAnswer>) -> Option<Event>
        ensures { result ≡ event_of_answer answer }
    {
        match answer {
            Some(OptAnswer::Refused { option, code }) => Some(Event::Peer {
                option: Some(option),
                code,
            }),
            _ => None,
        }
    }

    /// The event of an error that the peer told a command.
    pub(crate) fn of_error(error: Option<u32>) -> Option<Event>
        ensures { result ≡ event_of_error error }
    {
        match error {
            None => None,
            Some(code) => Some(Event::Peer { option: None, code }),
        }
    }
}
