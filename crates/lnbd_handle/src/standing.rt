//! Where a connection stands, in the words of its caller.

ghost use Rattle.std.specs.Prelude.{◌≡◌, ℕ, List, length, nat_lt, IfErr, OnOk, OnErr, Some, None, true, false};
ghost use Rattle.lnbd_history.specs.Answers.{state_at, is_living, direction_of};
ghost use Rattle.lnbd_history.specs.Laws.{may_name};
ghost use Rattle.lnbd_history.specs.Refusals.{by_state};

use lnbd_history::{Phase, Stage};
use lnbd_model::{State, Why};

pub(crate) fn state_at(stage: Stage, phase: Phase) -> State
    ensures { result ≡ state_at stage phase }
{
    match stage {
        Stage::Created => State::Created,
        Stage::Open => match phase {
            Phase::OptMode => State::OptMode,
            Phase::Ready => State::Ready,
            Phase::Greeting => State::Negotiating,
            Phase::Asked(_) => State::Negotiating,
            Phase::AskedByName => State::Negotiating,
            Phase::Refused(_) => State::Negotiating,
        },
        Stage::Disconnecting => State::Closing,
        Stage::Aborting => State::Closing,
        Stage::Closed => State::Closed,
        Stage::Dead(cause) => State::Dead(cause),
    }
}

fn is_living(stage: Stage) -> bool
    ensures { result ≡ is_living stage }
{
    match stage {
        Stage::Open => true,
        Stage::Disconnecting => true,
        Stage::Aborting => true,
        Stage::Created => false,
        Stage::Closed => false,
        Stage::Dead(_) => false,
    }
}

/// 0 where nothing may be read or written, else 1 for reading, and 3 where bytes wait.
pub(crate) fn direction_of(stage: Stage, offers: bool) -> u32
    ensures { (out : List ℕ) → offers ≡ nat_lt 0 (length out) → result ≡ direction_of (is_living stage) out }
{
    if !is_living(stage) {
        0
    } else if offers {
        3
    } else {
        1
    }
}

/// Whether a name may be set.
pub(crate) fn may_name(state: State) -> bool
    ensures { result ≡ may_name state }
{
    match state {
        State::Created => true,
        State::OptMode => true,
        State::Negotiating => false,
        State::Ready => false,
        State::Closing => false,
        State::Closed => false,
        State::Dead(_) => false,
    }
}

/// Why nothing may be asked in this state, if it may not.
pub(crate) fn by_state(state: State) -> Option<Why>
    ensures { result ≡ by_state state None }
{
    match state {
        State::Created => Some(Why::NotReady(state)),
        State::Negotiating => Some(Why::NotReady(state)),
        State::OptMode => Some(Why::NotReady(state)),
        State::Ready => None,
        State::Closing => Some(Why::Closing),
        State::Closed => Some(Why::Closing),
        State::Dead(cause) => Some(Why::Dead(cause)),
    }
}
