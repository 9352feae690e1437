//! One turn of the connections, and a pause. How often turns are taken, and what is asked between two of them, is not known here.

ghost use Rattle.std.specs.Prelude.{◌≡◌, ◌≤◌, IfErr, IfOk, None, OnOk, [], false, ℕ, List, Option, OnErr};
ghost use Rattle.lnbd_link.specs.Call.{Call, Pause};
ghost use Rattle.lnbd_link.specs.Part.{Adds};
ghost use Rattle.lnbd_poll.specs.Held.{wants_now};
ghost use Rattle.lnbd_copy.specs.Pauses.{Unpaused};
ghost use Rattle.lnbd_board.specs.Files.{Seen};
ghost use Rattle.lnbd_course.specs.Far.{Far};
ghost use Rattle.lnbd_conduct.specs.Told.{Told};
ghost use Rattle.lnbd_copy.specs.Causes.{GoesOn, HasCause};
ghost use Rattle.lnbd_copy.specs.Links.{LinksGo};
ghost use Rattle.lnbd_copy.specs.Moving.{TurnsInVain};
ghost use Rattle.lnbd_copy.specs.Way.{Stand};
ghost use Rattle.lnbd_copy.specs.Faults.{GoesIdly};
ghost use Rattle.lnbd_connections.specs.Asks.{AsksNone};
ghost use Rattle.lnbd_connections.specs.Bound.{Binds};
ghost use Rattle.lnbd_connections.specs.Few.{HasFew, StaysFew};
ghost use Rattle.lnbd_connections.specs.Steps.{Goes};
ghost use Rattle.lnbd_connections.specs.Unready.{KeepsAwaiting};
ghost use Rattle.lnbd_connections.specs.Uses.{Rests, Uses};
ghost use Rattle.lnbd_poll.specs.declared.noticed.Turn.TheVariants as turned;
ghost use Rattle.lnbd_connections.specs.Way.{Way};

use lnbd_board::{Board, Ticket};
use lnbd_copy::{Counts, check_calm, turn, wait};
use lnbd_link::Wires;
use lnbd_plan::CopyFault;
use lnbd_poll::{Handles, Turn};

/// One turn, which ends with the first event for which a copy ends.
///
/// # Errors
///
/// What the event means: `Link` where a call on the wires failed, `Broke` where the peer broke the protocol, told faulty content or ended its
/// connection, `Peer` where it refused the export or answered a command by an error. `NoMemory` may come in place of every other.
#[tactic(auto, using(lnbd_copy::proofs::CauseLemmas::goes_same, lnbd_copy::proofs::CauseLemmas::cause_free, crate::proofs::FewLemmas::few_same))]
pub fn take_turn<W: Wires>(
    handles: &mut Handles<Ticket>,
    board: &mut Board,
    wires: &mut W,
    start: Counts,
) -> Result<Turn, CopyFault>
    requires counted { start.faults ≤ W.faults wires.old }
    ensures uses { Stand handles.old → Uses false start.idles [] handles.old (W.told wires.old) (W.idles wires.old) handles.new (W.told wires.new) (W.idles wires.new) }
    ensures vain { IfOk result (λ told. told ≡ turned.Still → Stand handles.old → TurnsInVain handles.new (W.told wires.old) (W.told wires.new)) }
    ensures goes { OnOk result (Goes board.old handles.old (W.told wires.old) board.new handles.new (W.told wires.new)) }
    ensures binds { OnOk result (Binds board.old handles.old (W.told wires.old) board.new handles.new (W.told wires.new)) }
    // Whatever it comes to, no more are unanswered on any link at each moment of it than slices were bound to one connection.
    ensures few { (most : ℕ) (far : Far) (way : Way) (start : Option (List Call)) → Stand handles.old → Told start (W.told wires.old) (λ calls. HasFew most far way board.old calls handles.old)
        → StaysFew most start (W.told wires.old) (W.told wires.new) }
    ensures well { OnOk result (board.new.error ≡ None) }
    ensures unpaused { Stand handles.old → Unpaused (W.told wires.old) (W.told wires.new) }
    ensures awaits { OnOk result (KeepsAwaiting board.old handles.old (W.told wires.old) board.new handles.new (W.told wires.new)) }
    ensures causes { IfErr result (λ told. HasCause start (W.faults wires.new) (W.idles wires.new) told) }
    ensures counts { GoesOn (W.faults wires.old) (W.faults wires.new) (W.idles wires.old) (W.idles wires.new) (W.contents wires.old) (W.contents wires.new) }
    ensures asks { AsksNone board.old handles.old (W.told wires.old) (W.told wires.new) }
{
    check_calm(handles, board, None)?;
    turn(handles, board, wires, start, None)
}

/// Waits, unless that was borne for as long as it is.
///
/// # Errors
///
/// `Silent` where the wires waited for as long as is borne, since the start. That nothing is waited for counts as want of memory.
pub fn rest<W: Wires>(
    handles: &mut Handles<Ticket>,
    wires: &mut W,
    start: Counts,
) -> Result<(), CopyFault>
    requires counted { start.idles ≤ W.idles wires.old }
    ensures pauses { OnOk result (Adds (W.told wires.old) (W.told wires.new) (Pause (wants_now handles.old))) }
    ensures still { OnErr result (W.told wires.new ≡ W.told wires.old) }
    ensures same { handles.new ≡ handles.old }
    ensures links { LinksGo [] handles.old (W.told wires.old) handles.new (W.told wires.new) }
    ensures rests { Rests (Unit {0}) start.idles handles.old (W.told wires.old) (W.idles wires.old) handles.new (W.told wires.new) (W.idles wires.new) }
    ensures goes { OnOk result ((now : Seen) → Goes now handles.old (W.told wires.old) now handles.new (W.told wires.new)) }
    ensures binds { OnOk result ((now : Seen) → Binds now handles.old (W.told wires.old) now handles.new (W.told wires.new)) }
    ensures few { (most : ℕ) (start : Option (List Call)) → StaysFew most start (W.told wires.old) (W.told wires.new) }
    ensures causes { IfErr result (λ told. HasCause start (W.faults wires.new) (W.idles wires.new) told) }
    ensures counts { GoesOn (W.faults wires.old) (W.faults wires.new) (W.idles wires.old) (W.idles wires.new) (W.contents wires.old) (W.contents wires.new) }
    ensures asks { GoesIdly (W.told wires.old) (W.told wires.new) }
{
    wait(handles, wires, start)
}
