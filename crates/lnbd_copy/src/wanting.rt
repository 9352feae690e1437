//! What a pause would wait for. That it pauses, and when, is not known here.

ghost use Rattle.std.specs.Prelude.{◌≡◌, ◌≢◌, ◌⊎◌, [], true, OnOk};
ghost use Rattle.lnbd_handle.specs.Histories.{ForEach};
ghost use Rattle.lnbd_history.specs.Answers.{direction_after, state_after};
ghost use Rattle.lnbd_model.specs.declared.state.State.TheVariants as state;
ghost use Rattle.lnbd_poll.specs.Held.{wants_now};
ghost use Rattle.lnbd_copy.specs.Unready.{IsLoud};
ghost use Rattle.lnbd_copy.specs.Waits.{AreUnparted};

use lnbd_board::Ticket;
use lnbd_handle::Handle;
use lnbd_model::{NoMemory, State};
use lnbd_poll::{Handles, is_wanting};

/// Some handle waits for its link. A pause for handles of which none does would never end, and so would count as want of memory: none
/// is made.
pub(crate) fn check_wanted(handles: &Handles<Ticket>) -> Result<(), NoMemory>
    ensures { OnOk result (wants_now handles.now ≢ []) }
{
    'handles: for index in 0..handles.len() {
        if is_wanting(handles.get(index)) {
            return Ok(());
        }
    }
    Err(NoMemory)
}

/// Whether a connection negotiates still, or has something to write.
fn is_loud(handle: &Handle<Ticket>) -> bool
    ensures { result ≡ true → ForEach handle.now.machine (λ history. (state_after history ≡ state.Negotiating) ⊎ (direction_after history ≡ 3)) }
{
    matches!(handle.state(), State::Negotiating) || handle.is_waiting()
}

/// Some connection negotiates still, or has something to write: that is waited for before a copy begins. That none does, where not all
/// are ready and none is dead, would count as want of memory.
pub fn check_loud(handles: &Handles<Ticket>) -> Result<(), NoMemory>
    ensures { OnOk result (IsLoud handles.now) }
{
    'handles: for index in 0..handles.len() {
        if is_loud(handles.get(index)) {
            return Ok(());
        }
    }
    Err(NoMemory)
}

/// Whether a connection may be read, and was not asked for its end, or has that to write still.
fn is_unparted(handle: &Handle<Ticket>) -> bool
    ensures reads { result ≡ true → ForEach handle.now.machine (λ history. direction_after history ≢ 0) }
    ensures parts { result ≡ true → ForEach handle.now.machine (λ history. direction_after history ≡ 1 → state_after history ≢ state.Closing) }
{
    handle.is_reading() && (handle.is_waiting() || !matches!(handle.state(), State::Closing))
}

/// Each connection may be read, and none has written that it ends: its link is shut then, and no more is waited for. That one has
/// would count as want of memory.
#[tactic(auto, using(crate::proofs::UnpartedLemmas::all_unparted, crate::proofs::UnpartedLemmas::none_unparted))]
pub(crate) fn check_unparted(handles: &Handles<Ticket>) -> Result<(), NoMemory>
    ensures { OnOk result (AreUnparted handles.now) }
{
    'handles: for index in 0..handles.len() {
        if !is_unparted(handles.get(index)) {
            return Err(NoMemory);
        }
    }
    Ok(())
}
