//! The connections to the one export are made one after another, negotiate side by side, and tell the same.

ghost use Rattle.std.specs.Prelude.{◌≡◌, ◌≤◌, ◌∷◌, IfErr, None, OnOk, [], false, replicate, true, ℕ, List, Option};
ghost use Rattle.lnbd_link.specs.Call.{Call};
ghost use Rattle.lnbd_board.specs.Files.{Seen};
ghost use Rattle.lnbd_course.specs.Far.{Far};
ghost use Rattle.lnbd_conduct.specs.Told.{Told};
ghost use Rattle.lnbd_copy.specs.Agreed.{AreQuiet};
ghost use Rattle.lnbd_copy.specs.Causes.{GoesOn, HasCause, tells_no_count};
ghost use Rattle.lnbd_copy.specs.Faults.{GoesIdly};
ghost use Rattle.lnbd_connections.specs.Alike.{AreAlike, FindsUnlike};
ghost use Rattle.lnbd_connections.specs.Asks.{AsksNone, DialsOnly};
ghost use Rattle.lnbd_copy.specs.Way.{Stand};
ghost use Rattle.lnbd_connections.specs.Bound.{Binds, BindsMore, DrivesFirst};
ghost use Rattle.lnbd_connections.specs.Few.{StaysFew};
ghost use Rattle.lnbd_connections.specs.Steps.{Dials, Goes};
ghost use Rattle.lnbd_connections.specs.Unready.{AwaitsMore, KeepsAwaiting, PausesUnready};
ghost use Rattle.lnbd_copy.specs.Pauses.{Unpaused};
ghost use Rattle.lnbd_connections.specs.Uses.{Rests, Uses, UsesTo};
ghost use Rattle.lnbd_copy.specs.Connects.{StaysConnected};
ghost use Rattle.lnbd_poll.specs.declared.noticed.Turn.TheVariants as turned;
ghost use Rattle.lnbd_connections.specs.Way.{IsUnderWay, Way};

use crate::turning::{rest, take_turn};
use lnbd_board::{Board, Ticket};
use lnbd_copy::{
    Counts, MAX_TURNS, are_quiet, check_calm, check_idles, check_loud, hold, info_of, is_same, open,
};
use lnbd_link::Wires;
use lnbd_model::{Broken, Place};
use lnbd_plan::CopyFault;
use lnbd_poll::{Handles, Turn};
use std::alloc::Global;

/// The first connection.
const FIRST: usize = 0;

/// Connects to the export, and has one handle more ask there.
#[tactic(auto, using(lnbd_copy::proofs::CauseLemmas::goes_same, lnbd_copy::proofs::CauseLemmas::cause_free, crate::proofs::UseLemmas::uses_nowhere, crate::proofs::FewLemmas::few_same, lnbd_copy::proofs::PauseLemmas::unpaused_none))]
pub fn dial<W: Wires>(
    alloc: Global,
    handles: &mut Handles<Ticket>,
    board: &mut Board,
    wires: &mut W,
    place: &Place,
    extents: bool,
    start: Counts,
) -> Result<(), CopyFault>
    requires counted { start.faults ≤ W.faults wires.old }
    ensures links { UsesTo false start.idles (place.now.to ∷ []) handles.old (W.told wires.old) (W.idles wires.old) handles.new (W.told wires.new) (W.idles wires.new) }
    ensures connects { OnOk result (Uses false start.idles (place.now.to ∷ []) handles.old (W.told wires.old) (W.idles wires.old) handles.new (W.told wires.new) (W.idles wires.new)) }
    ensures connected { OnOk result (StaysConnected (W.told wires.old) (W.told wires.new)) }
    ensures dials { OnOk result (Dials place.now 1 board.old handles.old (W.told wires.old) handles.new (W.told wires.new)) }
    ensures binds { OnOk result (BindsMore place.now board.old handles.old (W.told wires.old) handles.new (W.told wires.new)) }
    ensures drives { OnOk result (DrivesFirst place.now extents board.old handles.old (W.told wires.old) handles.new (W.told wires.new)) }
    ensures few { (most : ℕ) (start : Option (List Call)) → StaysFew most start (W.told wires.old) (W.told wires.new) }
    ensures unpaused { Unpaused (W.told wires.old) (W.told wires.new) }
    ensures awaits { OnOk result (AwaitsMore place.now extents board.old handles.old (W.told wires.old) board.new handles.new (W.told wires.new)) }
    ensures board { OnOk result (board.new ≡ board.old) }
    ensures causes { IfErr result (λ told. HasCause start (W.faults wires.new) (W.idles wires.new) told) }
    ensures counts { GoesOn (W.faults wires.old) (W.faults wires.new) (W.idles wires.old) (W.idles wires.new) (W.contents wires.old) (W.contents wires.new) }
    ensures asks { DialsOnly place.now board.old handles.old (W.told wires.old) (W.told wires.new) }
{
    let handle = open(alloc, &place.name, extents, board)?;
    match wires.connect(&place.to) {
        Ok(link) => Ok(hold(handles, board, wires, link, handle)?),
        Err(_) => {
            let _ = handle.close(board);
            Err(CopyFault::Link {
                before: start.faults,
                after: wires.faults(),
            })
        }
    }
}

/// Connects so many times more, and asks for no extents there.
pub fn dial_further<W: Wires>(
    alloc: Global,
    handles: &mut Handles<Ticket>,
    board: &mut Board,
    wires: &mut W,
    place: &Place,
    more: u32,
    start: Counts,
) -> Result<(), CopyFault>
    requires counted { start.faults ≤ W.faults wires.old }
    ensures links { UsesTo false start.idles (replicate more place.now.to) handles.old (W.told wires.old) (W.idles wires.old) handles.new (W.told wires.new) (W.idles wires.new) }
    ensures connects { OnOk result (Uses false start.idles (replicate more place.now.to) handles.old (W.told wires.old) (W.idles wires.old) handles.new (W.told wires.new) (W.idles wires.new)) }
    ensures connected { OnOk result (StaysConnected (W.told wires.old) (W.told wires.new)) }
    ensures dials { OnOk result (Dials place.now more board.old handles.old (W.told wires.old) handles.new (W.told wires.new)) }
    ensures binds { OnOk result (BindsMore place.now board.old handles.old (W.told wires.old) handles.new (W.told wires.new)) }
    ensures few { (most : ℕ) (start : Option (List Call)) → StaysFew most start (W.told wires.old) (W.told wires.new) }
    ensures unpaused { Unpaused (W.told wires.old) (W.told wires.new) }
    ensures awaits { OnOk result (AwaitsMore place.now false board.old handles.old (W.told wires.old) board.new handles.new (W.told wires.new)) }
    ensures board { OnOk result (board.new ≡ board.old) }
    ensures causes { IfErr result (λ told. HasCause start (W.faults wires.new) (W.idles wires.new) told) }
    ensures counts { GoesOn (W.faults wires.old) (W.faults wires.new) (W.idles wires.old) (W.idles wires.new) (W.contents wires.old) (W.contents wires.new) }
    ensures asks { DialsOnly place.now board.old handles.old (W.told wires.old) (W.told wires.new) }
{
    'connections: for _connection in 0..more {
        dial(alloc, handles, board, wires, place, false, start)?;
    }
    Ok(())
}

/// A further connection tells another export than the first, if so.
fn check_alike(handles: &Handles<Ticket>) -> Result<(), CopyFault>
    requires quiet { AreQuiet handles.now }
    ensures alike { OnOk result (AreAlike handles.now) }
    ensures found { IfErr result (FindsUnlike handles.now) }
    ensures free { IfErr result (λ told. tells_no_count told ≡ true) }
{
    'handles: for index in 1..handles.len() {
        let first = info_of(handles, FIRST)?;
        let other = info_of(handles, index)?;
        if !is_same(first, other) {
            return Err(CopyFault::Broke(Broken::Differs));
        }
    }
    Ok(())
}

/// Waits where nothing happened in a turn and a connection still negotiates, or has something to write.
#[tactic(auto, using(crate::proofs::FewLemmas::few_same))]
fn rest_after<W: Wires>(
    handles: &mut Handles<Ticket>,
    wires: &mut W,
    start: Counts,
    told: Turn,
) -> Result<(), CopyFault>
    requires counted { start.idles ≤ W.idles wires.old }
    ensures unready { (now : Seen) → PausesUnready now handles.old (W.told wires.old) (W.told wires.new) }
    ensures awaits { OnOk result ((now : Seen) → KeepsAwaiting now handles.old (W.told wires.old) now handles.new (W.told wires.new)) }
    ensures rests { Rests (told ≡ turned.Still) start.idles handles.old (W.told wires.old) (W.idles wires.old) handles.new (W.told wires.new) (W.idles wires.new) }
    ensures goes { OnOk result ((now : Seen) → Goes now handles.old (W.told wires.old) now handles.new (W.told wires.new)) }
    ensures binds { OnOk result ((now : Seen) → Binds now handles.old (W.told wires.old) now handles.new (W.told wires.new)) }
    ensures few { (most : ℕ) (start : Option (List Call)) → StaysFew most start (W.told wires.old) (W.told wires.new) }
    ensures causes { IfErr result (λ told. HasCause start (W.faults wires.new) (W.idles wires.new) told) }
    ensures counts { GoesOn (W.faults wires.old) (W.faults wires.new) (W.idles wires.old) (W.idles wires.new) (W.contents wires.old) (W.contents wires.new) }
    ensures asks { GoesIdly (W.told wires.old) (W.told wires.new) }
{
    match told {
        Turn::Still => {
            check_loud(handles)?;
            rest(handles, wires, start)
        }
        Turn::Moved(_) => Ok(()),
    }
}

/// Takes turns until all handles have negotiated and written all that they did, with a pause after each in which nothing happened. Then each tells
/// the same export.
///
/// # Errors
///
/// Those of a turn and a pause, and `Broke` where a further connection tells another export than the first.
pub fn settle<W: Wires>(
    handles: &mut Handles<Ticket>,
    board: &mut Board,
    wires: &mut W,
    start: Counts,
) -> Result<(), CopyFault>
    requires faults { start.faults ≤ W.faults wires.old }
    requires idles { start.idles ≤ W.idles wires.old }
    ensures uses { Stand handles.old → Uses true start.idles [] handles.old (W.told wires.old) (W.idles wires.old) handles.new (W.told wires.new) (W.idles wires.new) }
    ensures unready { PausesUnready board.old handles.old (W.told wires.old) (W.told wires.new) }
    ensures awaits { OnOk result (KeepsAwaiting board.old handles.old (W.told wires.old) board.new handles.new (W.told wires.new)) }
    ensures settles { OnOk result (Stand handles.old → Uses false start.idles [] handles.old (W.told wires.old) (W.idles wires.old) handles.new (W.told wires.new) (W.idles wires.new)) }
    ensures goes { OnOk result (Goes board.old handles.old (W.told wires.old) board.new handles.new (W.told wires.new)) }
    ensures binds { OnOk result (Binds board.old handles.old (W.told wires.old) board.new handles.new (W.told wires.new)) }
    // Whatever it comes to, none is unanswered on any link at each moment of it, where no slice was begun.
    ensures few { (most : ℕ) (far : Far) (way : Way) (start : Option (List Call)) → Stand handles.old → board.old.rows ≡ [] →
        Told start (W.told wires.old) (λ calls. IsUnderWay far way board.old calls handles.old)
        → StaysFew most start (W.told wires.old) (W.told wires.new) }
    ensures quiet { OnOk result (AreQuiet handles.new) }
    ensures alike { OnOk result (AreAlike handles.new) }
    ensures well { OnOk result (board.new.error ≡ None) }
    ensures causes { IfErr result (λ told. HasCause start (W.faults wires.new) (W.idles wires.new) told) }
    ensures counts { GoesOn (W.faults wires.old) (W.faults wires.new) (W.idles wires.old) (W.idles wires.new) (W.contents wires.old) (W.contents wires.new) }
    ensures asks { AsksNone board.old handles.old (W.told wires.old) (W.told wires.new) }
{
    'turns: for _ in 0..MAX_TURNS {
        check_calm(handles, board, None)?;
        check_idles(wires, start)?;
        if are_quiet(handles) {
            return check_alike(handles);
        }
        let told = take_turn(handles, board, wires, start)?;
        rest_after(handles, wires, start, told)?;
    }
    Err(CopyFault::NoMemory)
}
