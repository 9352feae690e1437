//! What a command came to is taken from the handle.

ghost use Rattle.std.specs.Prelude.{◌≡◌, IfOk, OnErr, length};
ghost use Rattle.lnbd_dump.specs.Leads.{Acts};
ghost use Rattle.lnbd_dump.specs.Showing.{StaysWell};
ghost use Rattle.lnbd_dump.specs.Stops.{HasStop, IsPlain, IsPlainStop};
ghost use Rattle.lnbd_dump.specs.Takes.{Stands, TakesResult};

use crate::reader::Reader;
use crate::stop::Stop;
use lnbd_history::Completed;
use lnbd_model::{Bytes, Cause, EPROTO, State};
use lnbd_poll::Handles;
use lnbd_waits::Halt;

/// Why no more is shown after a command with this error, where the handle is in this state: a failed link comes first, then faulty
/// content, then the end of the connection, then an error that the peer told.
fn stop_of(at: State, error: u32) -> Stop
    ensures stands { Stands at error result }
    ensures plain { IsPlainStop result }
{
    match at {
        State::Dead(Cause::LinkFailed) => Stop::Died(Cause::LinkFailed),
        State::Dead(death) => {
            if error == EPROTO {
                Stop::Failed(error)
            } else {
                Stop::Died(death)
            }
        }
        _ => Stop::Failed(error),
    }
}

/// Takes what the command of this cookie came to, once it is completed.
pub(crate) fn take_result(handles: &mut Handles<Reader>, cookie: u64) -> Result<Bytes, Stop>
    requires { length handles.old ≡ 1 }
    ensures takes { Acts handles.old handles.new (λ before after. HasStop result after.history × OnErr result (StaysWell before.history after.history) × IfOk result (λ bytes. TakesResult cookie bytes before.history after.history)) }
    ensures plain { IsPlain result }
{
    match handles.get_mut(0).command_completed(cookie) {
        Completed::Done(bytes) => Ok(bytes),
        Completed::Failed { error, buf: _ } => Err(stop_of(handles.get(0).state(), error)),
        Completed::NotYet => Err(Stop::Halted(Halt::NoMemory)),
        Completed::NoSuchCookie => Err(Stop::Halted(Halt::NoMemory)),
    }
}
