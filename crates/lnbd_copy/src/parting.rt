//! The end of a copy's connections: each is asked to end, and its link is shut once that is written or it has ended.

ghost use Rattle.std.specs.Prelude.{◌≡◌, ◌≢◌, ◌<◌, ◌+◌, [], length, true};
ghost use Rattle.lnbd_board.specs.Files.{Seen};
ghost use Rattle.lnbd_copy.specs.Causes.{GoesOn};
ghost use Rattle.lnbd_copy.specs.Deciding.{GoesShut};
ghost use Rattle.lnbd_conduct.specs.Driven.{HasParted};
ghost use Rattle.lnbd_copy.specs.Faults.{GoesIdly};
ghost use Rattle.lnbd_copy.specs.Grounds.{Happens, Lasts};
ghost use Rattle.lnbd_copy.specs.Leaving.{Leaves, Parts};
ghost use Rattle.lnbd_copy.specs.Moving.{SomethingHappens};
ghost use Rattle.lnbd_copy.specs.Pauses.{Unpaused};
ghost use Rattle.lnbd_copy.specs.Links.{HaveSameLinks, LinksGo};

use lnbd_board::{Board, Ticket};
use lnbd_handle::Closed;
use lnbd_link::Wires;
use lnbd_model::State;
use lnbd_poll::Handles;

/// Asks every connection to end.
#[tactic(auto, using(crate::proofs::PartLemmas::parts_none, crate::proofs::LinkLemmas::same_none))]
pub(crate) fn part(handles: &mut Handles<Ticket>)
    ensures parts { (now : Seen) → Parts now handles.old handles.new }
    ensures links { HaveSameLinks handles.old handles.new }
{
    'handles: for index in 0..handles.len() {
        let _ = handles.get_mut(index).aio_disconnect();
    }
}

/// Whether a connection has written that it ends, or has ended.
pub fn has_parted(handles: &Handles<Ticket>, index: usize) -> bool
    requires { index < length handles.now }
    ensures { result ≡ true → Happens HasParted index handles.now }
{
    let handle = handles.get(index);
    match handle.state() {
        State::Closing => !handle.is_waiting(),
        State::Closed => true,
        _ => false,
    }
}

/// Closes a handle and shuts its link. What is left of its commands: each callback that was admitted was freed.
#[tactic(auto, using(crate::proofs::FiledLemmas::calls_filed, crate::proofs::PartLemmas::leaves_one, crate::proofs::LastLemmas::lasts_adds, crate::proofs::IdleLemmas::idly_shut, crate::proofs::PauseLemmas::unpaused_adds, crate::proofs::MovingLemmas::happens_shut, crate::proofs::DecidingLemmas::shut_one))]
fn hang_up<W: Wires>(
    handles: &mut Handles<Ticket>,
    board: &mut Board,
    wires: &mut W,
    index: usize,
) -> Closed
    requires { index < length handles.old }
    ensures freed { result.opened ≡ result.freed }
    ensures leaves { Happens HasParted index handles.old → Leaves board.old handles.old (W.told wires.old) board.new handles.new (W.told wires.new) }
    ensures counts { GoesOn (W.faults wires.old) (W.faults wires.new) (W.idles wires.old) (W.idles wires.new) (W.contents wires.old) (W.contents wires.new) }
    ensures fewer { length handles.new + 1 ≡ length handles.old }
    ensures happens { SomethingHappens (W.told wires.old) (W.told wires.new) }
    ensures lasts { Lasts (W.told wires.old) (W.told wires.new) }
    ensures unpaused { Unpaused (W.told wires.old) (W.told wires.new) }
    ensures links { LinksGo [] handles.old (W.told wires.old) handles.new (W.told wires.new) }
    ensures idly { GoesIdly (W.told wires.old) (W.told wires.new) }
    ensures shuts { GoesShut (W.told wires.old) (W.told wires.new) }
{
    let (link, handle) = handles.take(index);
    let closed = handle.close(board);
    wires.shut(link);
    closed
}

/// Hangs up where a connection has parted. How many did.
#[tactic(auto, using(crate::proofs::CauseLemmas::goes_same, crate::proofs::CauseLemmas::goes_then, crate::proofs::CauseLemmas::cause_later, crate::proofs::CauseLemmas::cause_free, crate::proofs::PartLemmas::leaves_none, crate::proofs::PartLemmas::leaves_then, crate::proofs::DecidingLemmas::shut_none, crate::proofs::IdleLemmas::idly_none, crate::proofs::IdleLemmas::idly_then, crate::proofs::PauseLemmas::unpaused_none, crate::proofs::LinkLemmas::links_none, crate::proofs::LinkLemmas::links_then))]
pub(crate) fn shut_parted<W: Wires>(
    handles: &mut Handles<Ticket>,
    board: &mut Board,
    wires: &mut W,
) -> usize
    ensures leaves { Leaves board.old handles.old (W.told wires.old) board.new handles.new (W.told wires.new) }
    ensures unpaused { Unpaused (W.told wires.old) (W.told wires.new) }
    ensures still { result ≡ 0 → (handles.new ≡ handles.old) × (wires.new ≡ wires.old) × (board.new ≡ board.old) }
    ensures happens { result ≢ 0 → SomethingHappens (W.told wires.old) (W.told wires.new) }
    ensures counts { GoesOn (W.faults wires.old) (W.faults wires.new) (W.idles wires.old) (W.idles wires.new) (W.contents wires.old) (W.contents wires.new) }
    ensures links { LinksGo [] handles.old (W.told wires.old) handles.new (W.told wires.new) }
    ensures idly { GoesIdly (W.told wires.old) (W.told wires.new) }
    ensures shuts { GoesShut (W.told wires.old) (W.told wires.new) }
{
    let count = handles.len();
    let mut shut: usize = 0;
    // From the last on: those behind one that is handed out move down.
    'handles: for passed in 0..count {
        let index = count - 1 - passed;
        if has_parted(handles, index) {
            let _ = hang_up(handles, board, wires, index);
            shut += 1;
        }
    }
    shut
}

/// Hangs up on every connection.
#[tactic(auto, using(crate::proofs::CauseLemmas::goes_same, crate::proofs::CauseLemmas::goes_then, crate::proofs::CauseLemmas::cause_later, crate::proofs::CauseLemmas::cause_free, crate::proofs::LastLemmas::lasts_none, crate::proofs::LastLemmas::lasts_then, crate::proofs::DecidingLemmas::shut_none, crate::proofs::PauseLemmas::unpaused_none, crate::proofs::PauseLemmas::unpaused_then, crate::proofs::IdleLemmas::idly_none, crate::proofs::IdleLemmas::idly_then, crate::proofs::LinkLemmas::links_none, crate::proofs::LinkLemmas::links_then))]
pub(crate) fn shut_all<W: Wires>(handles: &mut Handles<Ticket>, board: &mut Board, wires: &mut W)
    ensures counts { GoesOn (W.faults wires.old) (W.faults wires.new) (W.idles wires.old) (W.idles wires.new) (W.contents wires.old) (W.contents wires.new) }
    ensures none { handles.new ≡ [] }
    ensures lasts { Lasts (W.told wires.old) (W.told wires.new) }
    ensures idly { GoesIdly (W.told wires.old) (W.told wires.new) }
    ensures unpaused { Unpaused (W.told wires.old) (W.told wires.new) }
    ensures parted { handles.old ≡ [] → wires.new ≡ wires.old }
    ensures links { LinksGo [] handles.old (W.told wires.old) handles.new (W.told wires.new) }
    ensures shuts { GoesShut (W.told wires.old) (W.told wires.new) }
{
    'handles: while !handles.is_empty() {
        let _ = hang_up(handles, board, wires, 0);
    }
}
