//! The order in which options are asked.

ghost use Rattle.std.specs.Prelude.{◌≡◌};
ghost use Rattle.lnbd_history.specs.Agreement.{after_hello, after_extended, after_structured, after_answer, settles_replies};
ghost use Rattle.lnbd_negotiate.specs.Told.{end};

use lnbd_history::Phase;
use lnbd_model::Texts;
use lnbd_records::names::{
    ERR_UNSUP, OPT_EXTENDED_HEADERS, OPT_GO, OPT_SET_META_CONTEXT, OPT_STRUCTURED_REPLY,
};

/// Whether the option settles how the server replies. Such options are asked without the caller.
pub fn settles_replies(option: u32) -> bool
    ensures { result ≡ settles_replies option }
{
    option == OPT_STRUCTURED_REPLY || option == OPT_EXTENDED_HEADERS
}

/// How the server replies is settled.
fn after_structured(opt_mode: bool, wanted: &Texts, on: bool) -> Phase
    ensures { result ≡ after_structured opt_mode wanted.now on }
{
    if opt_mode {
        Phase::OptMode
    } else if on && wanted.len() != 0 {
        Phase::Asked(OPT_SET_META_CONTEXT)
    } else {
        Phase::Asked(OPT_GO)
    }
}

/// EXTENDED_HEADERS was answered, or isn't asked for.
fn after_extended(structured: bool, opt_mode: bool, wanted: &Texts, on: bool) -> Phase
    ensures { result ≡ after_extended structured opt_mode wanted.now on }
{
    if !on && structured {
        Phase::Asked(OPT_STRUCTURED_REPLY)
    } else {
        after_structured(opt_mode, wanted, on)
    }
}

pub fn after_hello(extended: bool, structured: bool, opt_mode: bool, wanted: &Texts) -> Phase
    ensures { result ≡ after_hello extended structured opt_mode wanted.now }
{
    if extended {
        Phase::Asked(OPT_EXTENDED_HEADERS)
    } else {
        after_extended(structured, opt_mode, wanted, false)
    }
}

/// GO was answered.
fn after_go(opt_mode: bool, code: Option<u32>) -> Phase
    ensures { result ≡ Rattle.lnbd_history.specs.Agreement.after_go opt_mode (end code) }
{
    match code {
        None => Phase::Ready,
        Some(code) => {
            if opt_mode {
                Phase::OptMode
            } else if code == ERR_UNSUP {
                Phase::AskedByName
            } else {
                Phase::Refused(code)
            }
        }
    }
}

/// An answer to this option ended by ACK, or by an error with its code.
pub fn after_answer(
    structured: bool,
    opt_mode: bool,
    wanted: &Texts,
    option: u32,
    code: Option<u32>,
) -> Phase
    ensures { result ≡ after_answer structured opt_mode wanted.now option (end code) }
{
    if option == OPT_EXTENDED_HEADERS {
        after_extended(structured, opt_mode, wanted, code.is_none())
    } else if option == OPT_STRUCTURED_REPLY {
        after_structured(opt_mode, wanted, code.is_none())
    } else if option == OPT_GO {
        after_go(opt_mode, code)
    } else if opt_mode {
        Phase::OptMode
    } else {
        Phase::Asked(OPT_GO)
    }
}
