//! The end of the connections: each is asked to end, and its link is shut once that is written or it has ended.

ghost use Rattle.std.specs.Prelude.{◌≡◌, ◌<◌, ◌+◌, ℕ, [], false, length};
ghost use Rattle.lnbd_board.specs.Files.{Seen};
ghost use Rattle.lnbd_copy.specs.Causes.{GoesOn};
ghost use Rattle.lnbd_copy.specs.Faults.{GoesIdly};
ghost use Rattle.lnbd_copy.specs.Links.{HaveSameLinks};
ghost use Rattle.lnbd_copy.specs.Pauses.{Unpaused};
ghost use Rattle.lnbd_connections.specs.Steps.{Leaves, Parts};
ghost use Rattle.lnbd_connections.specs.Uses.{Uses};

use lnbd_board::{Board, Ticket};
use lnbd_copy::has_parted;
use lnbd_handle::Closed;
use lnbd_link::Wires;
use lnbd_poll::Handles;

/// Asks every connection to end.
#[tactic(auto, using(crate::proofs::StepLemmas::parts_none, lnbd_copy::proofs::LinkLemmas::same_none))]
pub fn part(handles: &mut Handles<Ticket>)
    ensures parts { (now : Seen) → Parts now handles.old handles.new }
    ensures links { HaveSameLinks handles.old handles.new }
{
    'handles: for index in 0..handles.len() {
        let _ = handles.get_mut(index).aio_disconnect();
    }
}

/// Closes a handle and shuts its link. What is left of its commands: each callback that was admitted was freed.
fn hang_up<W: Wires>(
    handles: &mut Handles<Ticket>,
    board: &mut Board,
    wires: &mut W,
    index: usize,
) -> Closed
    requires { index < length handles.old }
    ensures freed { result.opened ≡ result.freed }
    ensures unpaused { Unpaused (W.told wires.old) (W.told wires.new) }
    ensures uses { (first : ℕ) → Uses false first [] handles.old (W.told wires.old) (W.idles wires.old) handles.new (W.told wires.new) (W.idles wires.new) }
    ensures leaves { Leaves board.old handles.old (W.told wires.old) board.new handles.new (W.told wires.new) }
    ensures counts { GoesOn (W.faults wires.old) (W.faults wires.new) (W.idles wires.old) (W.idles wires.new) (W.contents wires.old) (W.contents wires.new) }
    ensures asks { GoesIdly (W.told wires.old) (W.told wires.new) }
    ensures idly { GoesIdly (W.told wires.old) (W.told wires.new) }
    ensures fewer { length handles.new + 1 ≡ length handles.old }
{
    let (link, handle) = handles.take(index);
    let closed = handle.close(board);
    wires.shut(link);
    closed
}

/// Hangs up where a connection has parted. How many did.
#[tactic(auto, using(lnbd_copy::proofs::CauseLemmas::goes_same, crate::proofs::StepLemmas::leaves_none, crate::proofs::UseLemmas::uses_none, lnbd_copy::proofs::IdleLemmas::idly_none, lnbd_copy::proofs::PauseLemmas::unpaused_none))]
pub fn shut_parted<W: Wires>(
    handles: &mut Handles<Ticket>,
    board: &mut Board,
    wires: &mut W,
) -> usize
    ensures still { result ≡ 0 → (handles.new ≡ handles.old) × (wires.new ≡ wires.old) × (board.new ≡ board.old) }
    ensures unpaused { Unpaused (W.told wires.old) (W.told wires.new) }
    ensures uses { (first : ℕ) → Uses false first [] handles.old (W.told wires.old) (W.idles wires.old) handles.new (W.told wires.new) (W.idles wires.new) }
    ensures leaves { Leaves board.old handles.old (W.told wires.old) board.new handles.new (W.told wires.new) }
    ensures idly { GoesIdly (W.told wires.old) (W.told wires.new) }
    ensures counts { GoesOn (W.faults wires.old) (W.faults wires.new) (W.idles wires.old) (W.idles wires.new) (W.contents wires.old) (W.contents wires.new) }
    ensures asks { GoesIdly (W.told wires.old) (W.told wires.new) }
{
    let count = handles.len();
    let mut shut: usize = 0;
    // From the last on: those behind one that is handed out move down.
    'handles: for passed in 0..count {
        let index = count - 1 - passed;
        if has_parted(handles, index) {
            let _ = hang_up(handles, board, wires, index);
            shut += 1;
        }
    }
    shut
}

/// Hangs up on every connection.
#[tactic(auto, using(lnbd_copy::proofs::CauseLemmas::goes_same, lnbd_copy::proofs::PauseLemmas::unpaused_none, crate::proofs::UseLemmas::uses_none, lnbd_copy::proofs::IdleLemmas::idly_none))]
pub fn shut_all<W: Wires>(handles: &mut Handles<Ticket>, board: &mut Board, wires: &mut W)
    ensures unpaused { Unpaused (W.told wires.old) (W.told wires.new) }
    ensures uses { (first : ℕ) → Uses false first [] handles.old (W.told wires.old) (W.idles wires.old) handles.new (W.told wires.new) (W.idles wires.new) }
    ensures none { handles.new ≡ [] }
    ensures parted { handles.old ≡ [] → wires.new ≡ wires.old }
    ensures idly { GoesIdly (W.told wires.old) (W.told wires.new) }
    ensures counts { GoesOn (W.faults wires.old) (W.faults wires.new) (W.idles wires.old) (W.idles wires.new) (W.contents wires.old) (W.contents wires.new) }
    ensures asks { GoesIdly (W.told wires.old) (W.told wires.new) }
{
    'handles: while !handles.is_empty() {
        let _ = hang_up(handles, board, wires, 0);
    }
}
