//! Why no more is asked of an export, and what is told of it.

ghost use Rattle.std.specs.Prelude.{◌≡◌, ◌==◌, if◌then◌else◌, Ok, Err};
ghost use Rattle.lnbd_model.specs.declared.state.Cause.TheVariants as cause;
ghost use Rattle.lnbd_waits.specs.declared.waiting.Halt.TheVariants as halt;
ghost use Rattle.lnbd_ask.specs.declared.stops.Stop.TheVariants as stop;
ghost use Rattle.lnbd_ask.specs.Asks.{IfLink, IfSilent};
ghost use Rattle.lnbd_ask.specs.Maps.{IsOfStop, death_stop, failed_by, is_no_context, stop_of, told_stop};
ghost use Rattle.lnbd_ask.specs.MapSteps.{end_at, end_of, is_end_parting};

use crate::fault::InfoFault;
use crate::telling::{Counts, of_death, of_halt};
use lnbd_model::{Breach, Broken, Cause, EPROTO, State};
use lnbd_waits::Halt;

/// Why no more is asked.
#[derive(Clone, Copy, Debug, PartialEq, Eq)]
pub(crate) enum Stop {
    /// What was awaited did not come.
    Halted(Halt),
    /// The connection is over.
    Died(Cause),
    /// What was told of the export breaks the protocol.
    Broke(Breach),
    /// A command failed with this error.
    Failed(u32),
    /// The server did not agree to the meta context.
    NoContext,
}

/// Why no more is asked after an answer with this error, if so.
fn told_stop(error: u32) -> Option<Stop>
    ensures { result ≡ told_stop error }
{
    match error {
        0 => None,
        _ => Some(Stop::Failed(error)),
    }
}

/// Why no more is asked where the connection is dead, and a command failed with this error.
fn death_stop(death: Cause, error: u32) -> Stop
    ensures { result ≡ death_stop death error }
{
    match death {
        Cause::LinkFailed => Stop::Died(death),
        _ => {
            if error == EPROTO {
                Stop::Failed(EPROTO)
            } else {
                Stop::Died(death)
            }
        }
    }
}

/// Why no more is asked after an answer with this error, where the handle is in this state, if so.
pub(crate) fn stop_of(at: State, error: u32) -> Option<Stop>
    ensures { result ≡ stop_of at error }
{
    match at {
        State::Ready => told_stop(error),
        State::Dead(death) => Some(death_stop(death, error)),
        _ => Some(Stop::Halted(Halt::NoMemory)),
    }
}

fn is_no_context(stop: Stop) -> bool
    ensures { result ≡ is_no_context stop }
{
    matches!(stop, Stop::NoContext)
}

/// Whether there is no more to ask, on a connection that goes on.
pub(crate) fn is_end_parting(end: Result<(), Stop>) -> bool
    ensures { result ≡ is_end_parting end }
{
    match end {
        Ok(()) => true,
        Err(stop) => is_no_context(stop),
    }
}

fn end_at(at: State) -> Result<(), Stop>
    ensures { result ≡ end_at at }
{
    match at {
        State::Dead(death) => Err(Stop::Died(death)),
        _ => Ok(()),
    }
}

/// What comes of it where the end was waited for so, and the handle then is in this state.
pub(crate) fn end_of(
    asked: Result<(), Stop>,
    written: Result<(), Halt>,
    at: State,
) -> Result<(), Stop>
    ensures { result ≡ end_of asked written at }
{
    match asked {
        Err(stop) => Err(stop),
        Ok(()) => match written {
            Err(halt) => Err(Stop::Halted(halt)),
            Ok(()) => end_at(at),
        },
    }
}

/// A command's error: faulty content, or what the peer told.
fn failed_by(error: u32) -> InfoFault
    ensures told { result ≡ failed_by error }
    ensures link { IfLink result (λ before after. ⊥) }
    ensures silent { IfSilent result (λ idles. ⊥) }
{
    if error == EPROTO {
        InfoFault::Broke(Broken::Content)
    } else {
        InfoFault::Peer {
            option: None,
            code: error,
        }
    }
}

/// What is told of it.
pub(crate) fn of_stop(stop: Stop, start: Counts, now: Counts) -> InfoFault
    ensures told { IsOfStop stop result }
    ensures link { IfLink result (λ before after. (stop ≡ Stop.Died cause.LinkFailed) × (before ≡ start.faults) × (after ≡ now.faults)) }
    ensures silent { IfSilent result (λ idles. (stop ≡ Stop.Halted halt.Silent) × (idles ≡ now.idles)) }
{
    match stop {
        Stop::Halted(halt) => of_halt(halt, now),
        Stop::Died(death) => of_death(death, start, now),
        Stop::Broke(breach) => InfoFault::Broke(Broken::Breach(breach)),
        Stop::Failed(error) => failed_by(error),
        Stop::NoContext => InfoFault::NoContext,
    }
}
