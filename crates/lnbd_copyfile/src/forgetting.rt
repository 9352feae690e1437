//! What the connections note: each command leaves notes, which nobody reads, so they are forgotten. When is not known here.

ghost use Rattle.lnbd_board.specs.Files.{Seen};
ghost use Rattle.lnbd_connections.specs.Bound.{BindsStill};
ghost use Rattle.lnbd_connections.specs.Steps.{Parts};
ghost use Rattle.lnbd_copy.specs.Forgetting.{NoneKeepNotes};
ghost use Rattle.lnbd_copy.specs.Links.{HaveSameLinks};

use lnbd_board::Ticket;
use lnbd_poll::Handles;

/// Forgets what every connection noted.
#[tactic(auto, using(lnbd_connections::proofs::StepLemmas::parts_none, lnbd_copy::proofs::ForgetLemmas::keep_begins, lnbd_copy::proofs::LinkLemmas::same_none, crate::proofs::ForgettingLemmas::still_none))]
pub(crate) fn forget(handles: &mut Handles<Ticket>)
    ensures links { HaveSameLinks handles.old handles.new }
    ensures forgets { (now : Seen) → Parts now handles.old handles.new }
    ensures binds { (now : Seen) → BindsStill now handles.old handles.new }
    ensures none { NoneKeepNotes handles.new }
{
    'handles: for index in 0..handles.len() {
        handles.get_mut(index).clear_log();
    }
}
