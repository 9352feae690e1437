//! What a command came to, and which completed command comes next.

ghost use Rattle.std.specs.Prelude.{◌≡◌, ◌++◌, OnOk, string_bytes};
ghost use Rattle.lnbd_texts.specs.Results.{completed_text, peeked_text};

use crate::runs::push_runs;
use lnbd_history::{Completed, Peeked};
use std::alloc::AllocError;

/// The result of a command.
pub fn push_completed(text: &mut String, completed: &Completed) -> Result<(), AllocError>
    ensures { OnOk result (string_bytes text.new ≡ string_bytes text.old ++ completed_text completed.now) }
{
    match completed {
        Completed::Done(buf) => {
            let count = buf.len();
            write!(text, "done {count} ")?;
            push_runs(text, buf.as_slice())
        }
        Completed::Failed { error, buf } => {
            let count = buf.len();
            write!(text, "failed {error} {count} ")?;
            push_runs(text, buf.as_slice())
        }
        Completed::NotYet => text.push_str("not-yet"),
        Completed::NoSuchCookie => text.push_str("no-such-cookie"),
    }
}

/// Which completed command comes next.
pub fn push_peeked(text: &mut String, peeked: Peeked) -> Result<(), AllocError>
    ensures { OnOk result (string_bytes text.new ≡ string_bytes text.old ++ peeked_text peeked) }
{
    match peeked {
        Peeked::Cookie(cookie) => write!(text, "cookie {cookie}"),
        Peeked::NoneDone => text.push_str("none-done"),
        Peeked::NoneLeft => text.push_str("none-left"),
    }
}
