//! What the connections of a copy note: each command leaves notes, which nobody reads, so they are forgotten. When is not known here.

ghost use Rattle.lnbd_copy.specs.Forgetting.{Forgets, NoneKeepNotes};
ghost use Rattle.lnbd_copy.specs.Links.{HaveSameLinks};
ghost use Rattle.lnbd_copy.specs.Ready.{StaysReady};

use lnbd_board::Ticket;
use lnbd_poll::Handles;

/// Forgets what every connection noted.
#[tactic(auto, using(crate::proofs::ReadyLemmas::ready_none, crate::proofs::ForgetLemmas::forgets_none, crate::proofs::ForgetLemmas::keep_begins, crate::proofs::LinkLemmas::same_none))]
pub(crate) fn forget(handles: &mut Handles<Ticket>)
    ensures forgets { Forgets handles.old handles.new }
    ensures none { NoneKeepNotes handles.new }
    ensures ready { StaysReady handles.old handles.new }
    ensures links { HaveSameLinks handles.old handles.new }
{
    'handles: for index in 0..handles.len() {
        handles.get_mut(index).clear_log();
    }
}
