//! What a line tells, as text.

ghost use Rattle.std.specs.Prelude.{◌≡◌, ◌++◌, OnOk, string_bytes, true, false};
ghost use Rattle.lnbd_history.specs.Events.{History};
ghost use Rattle.lnbd_script.specs.declared.keeper.Keeper.{Keeper as Callback};
ghost use Rattle.lnbd_script.specs.Scenes.{Held};
ghost use Rattle.lnbd_script.specs.Seen.{Seen, IsAt};
ghost use Rattle.lnbd_script.specs.Steps.{IsHeld, is_open, is_question};
ghost use Rattle.lnbd_script.specs.Texts.{moved_text, text_of};

use crate::place::Place;
use crate::session::Session;
use crate::told::{Moved, Told};
use lnbd_texts::{
    push_completed, push_info, push_listing, push_log, push_opt_answer, push_peeked, push_refusal,
    push_refused_state, push_state,
};
use std::alloc::AllocError;

fn push_moved(text: &mut String, moved: Moved) -> Result<(), AllocError>
    ensures { OnOk result (string_bytes text.new ≡ string_bytes text.old ++ moved_text moved) }
{
    match moved {
        Moved::Bytes(n) => write!(text, "moved {n}"),
        Moved::NotReady => text.push_str("not-ready"),
        Moved::Idle => text.push_str("idle"),
        Moved::Ended => text.push_str("ended"),
        Moved::Failed => text.push_str("failed"),
    }
}

/// What is told without asking the handle.
fn push_plain(text: &mut String, told: &Told) -> Result<(), AllocError>
    requires plain { is_question told.now ≡ false }
    ensures { OnOk result ((history : History Callback) → string_bytes text.new ≡ string_bytes text.old ++ text_of history told.now) }
{
    match told {
        Told::Gone => text.push_str("gone"),
        Told::Done => text.push_str("ok"),
        Told::Connected => text.push_str("connected"),
        Told::NotConnected => text.push_str("connect failed"),
        Told::Settled => text.push_str("settled"),
        Told::RefusedState(state) => push_refused_state(text, *state),
        Told::RefusedContext(most) => write!(text, "refused too-many {most}"),
        Told::RefusedUnstructured => text.push_str("refused not-structured"),
        Told::RefusedStrict(bits) => write!(text, "refused strict {bits}"),
        Told::Cookie(cookie) => write!(text, "cookie {cookie}"),
        Told::Refused(why) => push_refusal(text, *why),
        Told::Moved(moved) => push_moved(text, *moved),
        Told::Result(completed) => push_completed(text, completed),
        Told::Heard(lines) => {
            text.push_str(lines.as_str())?;
            text.push_str("end")
        }
        Told::Closed { opened, freed } => write!(text, "closed {opened} {freed}"),
        _ => Ok(()),
    }
}

/// What the handle answers.
fn push_answer(text: &mut String, told: &Told, session: &Session) -> Result<(), AllocError>
    requires question { is_question told.now ≡ true }
    ensures { OnOk result ((seen : Seen) → IsAt seen session.now → string_bytes text.new ≡ string_bytes text.old ++ text_of seen.history told.now) }
{
    let handle = &session.handle;
    match told {
        Told::Log => push_log(text, handle.log()),
        Told::Peek => push_peeked(text, handle.peek()),
        Told::InFlight => {
            let count = handle.in_flight();
            write!(text, "{count}")
        }
        Told::Direction => {
            let direction = handle.direction();
            write!(text, "{direction}")
        }
        Told::State => push_state(text, handle.state()),
        Told::Info => push_info(text, handle.info()),
        Told::Answer => push_opt_answer(text, handle.opt_answer()),
        Told::Listing => push_listing(text, handle.listed().as_slice()),
        _ => Ok(()),
    }
}

fn is_question(told: &Told) -> bool
    ensures { result ≡ is_question told.now }
{
    match told {
        Told::Log
        | Told::Peek
        | Told::InFlight
        | Told::Direction
        | Told::State
        | Told::Info
        | Told::Answer
        | Told::Listing => true,
        _ => false,
    }
}

/// What a line tells, where the script then stands.
pub(crate) fn push_told(text: &mut String, told: &Told, place: &Place) -> Result<(), AllocError>
    requires open { is_question told.now ≡ true → is_open place.now ≡ true }
    ensures { OnOk result ((held : Held) → IsHeld held place.now → string_bytes text.new ≡ string_bytes text.old ++ text_of held.history told.now) }
{
    if !is_question(told) {
        return push_plain(text, told);
    }
    match place {
        Place::Open(session) => push_answer(text, told, session),
        Place::Unused | Place::Over(_) => unreachable!(),
    }
}
