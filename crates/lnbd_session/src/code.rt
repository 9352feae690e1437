//! What a call answers: that it did what it says, or why it did not.

ghost use Rattle.std.specs.Prelude.{◌≡◌, ◌≢◌, Some};
ghost use Rattle.lnbd_session.specs.Codes.{code_at, code_of_opt_fault, code_of_set_fault, code_of_why, number_of};

use lnbd_handle::{OptFault, SetFault};
use lnbd_model::Why;

/// What a call answers. Where it isn't `Ok` nothing has changed, but where it is said.
#[derive(Clone, Copy, Debug, PartialEq, Eq)]
pub enum Code {
    /// It did what it says.
    Ok,
    /// Memory ran out; the call may be made again.
    NoMemory,
    /// What is to be made is there already.
    Held,
    /// There is none.
    Empty,
    /// Not in this state.
    BadState,
    /// More bytes than were lent, or an index past the end.
    TooMany,
    /// It is in flight, or not told yet.
    NotYet,
    /// No command has this cookie.
    NoCookie,
    /// The server does not offer it, or did not tell it.
    Unsupported,
    /// Flags, length, range, alignment, bits or text are not allowed.
    BadRequest,
    /// Too many commands are not retired, or too many contexts are asked for.
    Full,
    /// The connection is gone.
    Dead,
}

impl Code {
    /// Its number: 0, and those below.
    pub fn number(self) -> i32
        ensures number { result ≡ number_of self }
        ensures code { code_at result ≡ Some self }
    {
        match self {
            Code::Ok => 0,
            Code::NoMemory => -1,
            Code::Held => -2,
            Code::Empty => -3,
            Code::BadState => -4,
            Code::TooMany => -5,
            Code::NotYet => -6,
            Code::NoCookie => -7,
            Code::Unsupported => -8,
            Code::BadRequest => -9,
            Code::Full => -10,
            Code::Dead => -11,
        }
    }

    /// Why a command was refused.
    pub(crate) fn of_why(why: Why) -> Code
        ensures value { result ≡ code_of_why why }
        ensures not_ok { result ≢ Code.Ok }
        ensures not_short { result ≢ Code.NoMemory }
    {
        match why {
            Why::NotReady(_) => Code::BadState,
            Why::Dead(_) => Code::Dead,
            Why::Closing => Code::BadState,
            Why::TooMany(_) => Code::Full,
            Why::Unsupported(_) => Code::Unsupported,
            Why::BadFlags(_) => Code::BadRequest,
            Why::ZeroSize => Code::BadRequest,
            Why::TooBig(_) => Code::BadRequest,
            Why::Bounds(_) => Code::BadRequest,
            Why::Align(_) => Code::BadRequest,
        }
    }

    /// Why a setting was refused.
    pub(crate) fn of_set_fault(fault: SetFault) -> Code
        ensures value { result ≡ code_of_set_fault fault }
        ensures not_ok { result ≢ Code.Ok }
    {
        match fault {
            SetFault::NoMemory => Code::NoMemory,
            SetFault::State(_) => Code::BadState,
            SetFault::TooMany(_) => Code::Full,
        }
    }

    /// Why an option was refused.
    pub(crate) fn of_opt_fault(fault: OptFault) -> Code
        ensures value { result ≡ code_of_opt_fault fault }
        ensures not_ok { result ≢ Code.Ok }
    {
        match fault {
            OptFault::NoMemory => Code::NoMemory,
            OptFault::State(_) => Code::BadState,
            OptFault::NotStructured => Code::Unsupported,
        }
    }
}
