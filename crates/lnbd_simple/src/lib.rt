//! What a simple reply makes of its command.
//!
//! The bytes of a reply, the command's buffer and its callbacks are not known here.
#![tactic(auto)]

ghost use Rattle.std.specs.Prelude.{◌≡◌, ◌≢◌, true, false};
ghost use Rattle.lnbd_model.specs.Errors.{error_of};
ghost use Rattle.lnbd_simple.specs.Reply.{breaks, reply_error};
ghost use Rattle.lnbd_simple.specs.Settled.{OnDone, IfFailed, IfBroke};

use lnbd_model::{Breach, EPROTO, Kind, told_error};

/// What a command comes to by its simple reply.
#[derive(Clone, Copy, Debug, PartialEq, Eq)]
pub enum Settled {
    /// It is done. A read's bytes follow the reply.
    Done,
    /// It failed with this error, which isn't 0.
    Failed(u32),
    /// The reply breaks the protocol, and the connection dies.
    Broke(Breach),
}

/// What a simple reply with this error makes of a command (NBD protocol, "Simple reply message"). `structured` says
/// whether structured replies were negotiated.
pub fn settle(kind: Kind, structured: bool, error: u32) -> Settled
    ensures done { OnDone result ((breaks kind structured ≡ false) × (reply_error kind error ≡ 0)) }
    ensures failed { IfFailed result (λ number.
        (breaks kind structured ≡ false) × (number ≡ reply_error kind error) × (number ≢ 0)) }
    ensures broke { IfBroke result (λ breach.
        (breaks kind structured ≡ true) × (breach ≡ Breach.SimpleForRead)) }
{
    match kind {
        Kind::Read => {
            if structured {
                Settled::Broke(Breach::SimpleForRead)
            } else {
                told(error)
            }
        }
        Kind::BlockStatus => {
            if error == 0 {
                Settled::Failed(EPROTO)
            } else {
                told(error)
            }
        }
        Kind::Write | Kind::Flush | Kind::Trim | Kind::Cache | Kind::Zero => told(error),
    }
}

/// What an error of the wire says of its command.
fn told(error: u32) -> Settled
    ensures done { OnDone result (error_of error ≡ 0) }
    ensures failed { IfFailed result (λ number. (number ≡ error_of error) × (number ≢ 0)) }
    ensures lawful { IfBroke result (λ breach. ⊥) }
{
    match told_error(error) {
        0 => Settled::Done,
        number => Settled::Failed(number),
    }
}
