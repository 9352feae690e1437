//! Why a command or a setting was refused.

ghost use Rattle.std.specs.Prelude.{◌≡◌, ◌++◌, OnOk, string_bytes};
ghost use Rattle.lnbd_texts.specs.Refusals.{lack_text, why_text, refusal_text, refused_state_text};

use crate::states::{push_cause, push_state};
use lnbd_model::{Lack, State, Why};
use std::alloc::AllocError;

/// The refusal of a command.
pub fn push_refusal(text: &mut String, why: Why) -> Result<(), AllocError>
    ensures { OnOk result (string_bytes text.new ≡ string_bytes text.old ++ refusal_text why) }
{
    text.push_str("refused ")?;
    push_why(text, why)
}

/// The refusal of a setting, which the state does not allow.
pub fn push_refused_state(text: &mut String, state: State) -> Result<(), AllocError>
    ensures { OnOk result (string_bytes text.new ≡ string_bytes text.old ++ refused_state_text state) }
{
    text.push_str("refused state ")?;
    push_state(text, state)
}

fn push_why(text: &mut String, why: Why) -> Result<(), AllocError>
    ensures { OnOk result (string_bytes text.new ≡ string_bytes text.old ++ why_text why) }
{
    match why {
        Why::NotReady(state) => {
            text.push_str("not-ready ")?;
            push_state(text, state)
        }
        Why::Dead(cause) => {
            text.push_str("dead ")?;
            push_cause(text, cause)
        }
        Why::Closing => text.push_str("closing"),
        Why::TooMany(limit) => write!(text, "too-many {limit}"),
        Why::Unsupported(lack) => {
            text.push_str("unsupported ")?;
            push_lack(text, lack)
        }
        Why::BadFlags(bits) => write!(text, "bad-flags {bits}"),
        Why::ZeroSize => text.push_str("zero-size"),
        Why::TooBig(limit) => write!(text, "too-big {limit}"),
        Why::Bounds(size) => write!(text, "bounds {size}"),
        Why::Align(minimum) => write!(text, "align {minimum}"),
    }
}

/// What the export does not offer.
fn push_lack(text: &mut String, lack: Lack) -> Result<(), AllocError>
    ensures { OnOk result (string_bytes text.new ≡ string_bytes text.old ++ lack_text lack) }
{
    match lack {
        Lack::ReadOnly => text.push_str("read-only"),
        Lack::Flush => text.push_str("flush"),
        Lack::Trim => text.push_str("trim"),
        Lack::Zero => text.push_str("zero"),
        Lack::Cache => text.push_str("cache"),
        Lack::Context => text.push_str("context"),
    }
}
