//! The states of a handle, and why it died.

ghost use Rattle.std.specs.Prelude.{◌≡◌, ◌++◌, OnOk, string_bytes};
ghost use Rattle.lnbd_texts.specs.States.{state_text, cause_text};

use lnbd_model::{Cause, State};
use std::alloc::AllocError;

/// The state that a handle is in.
pub fn push_state(text: &mut String, state: State) -> Result<(), AllocError>
    ensures { OnOk result (string_bytes text.new ≡ string_bytes text.old ++ state_text state) }
{
    match state {
        State::Created => text.push_str("created"),
        State::Negotiating => text.push_str("negotiating"),
        State::OptMode => text.push_str("opt-mode"),
        State::Ready => text.push_str("ready"),
        State::Closing => text.push_str("closing"),
        State::Closed => text.push_str("closed"),
        State::Dead(cause) => {
            text.push_str("dead ")?;
            push_cause(text, cause)
        }
    }
}

/// Why a connection is dead.
pub fn push_cause(text: &mut String, cause: Cause) -> Result<(), AllocError>
    ensures { OnOk result (string_bytes text.new ≡ string_bytes text.old ++ cause_text cause) }
{
    match cause {
        Cause::Broke(breach) => {
            text.push_str("broke ")?;
            text.push_str(breach.name())
        }
        Cause::Refused { option, code } => write!(text, "refused {option} {code}"),
        Cause::Ended => text.push_str("ended"),
        Cause::LinkFailed => text.push_str("link-failed"),
    }
}
