//! The connections of a copy: they are made one after another, and negotiate side by side.

ghost use Rattle.std.specs.Prelude.{◌≡◌, ◌⊎◌, ◌<◌, ◌≤◌, ◌++◌, ◌∷◌, [], true, false, IfErr, List, OnErr, OnOk, Option, Some, length};
ghost use Rattle.lnbd_link.specs.Call.{Call, Pause};
ghost use Rattle.lnbd_link.specs.Part.{Adds};
ghost use Rattle.lnbd_poll.specs.Held.{max_held, wants_now};
ghost use Rattle.lnbd_model.specs.declared.target.Place.{Place as At};
ghost use Rattle.lnbd_poll.specs.declared.noticed.Turn.TheVariants as turned;
ghost use Rattle.lnbd_board.specs.Files.{Seen};
ghost use Rattle.lnbd_copy.specs.Agreed.{AreQuiet};
ghost use Rattle.lnbd_copy.specs.Causes.{GoesOn, HasCause};
ghost use Rattle.lnbd_copy.specs.Connects.{StaysConnected};
ghost use Rattle.lnbd_copy.specs.Deciding.{DecidesOn, IsCalm};
ghost use Rattle.lnbd_copy.specs.Driving.{DrivesOn, DrivesOneMore};
ghost use Rattle.lnbd_copy.specs.Faults.{AreUnissued, AsksNone, GoesIdly, StaysFresh, StaysUnasked};
ghost use Rattle.lnbd_conduct.specs.Grounds.{needs_no_ground};
ghost use Rattle.lnbd_copy.specs.Links.{LinksGo, LinksGoTo};
ghost use Rattle.lnbd_copy.specs.Little.{StaysLittle};
ghost use Rattle.lnbd_copy.specs.Moving.{TurnsInVain};
ghost use Rattle.lnbd_copy.specs.Opening.{Dials};
ghost use Rattle.lnbd_copy.specs.Pace.{StaysPaced, TriesAtMost};
ghost use Rattle.lnbd_copy.specs.Patient.{StaysPatient, may_end_waiting};
ghost use Rattle.lnbd_copy.specs.Pauses.{Pauses, Unpaused, WantsInVain};
ghost use Rattle.lnbd_copy.specs.Tried.{AnyLeft, NoneLeft, RestsEarly, Tries};
ghost use Rattle.lnbd_copy.specs.Unready.{StaysUnready};
ghost use Rattle.lnbd_copy.specs.Waits.{AreUnparted};
ghost use Rattle.lnbd_conduct.specs.Pauses.{WantsSome};
ghost use Rattle.lnbd_copy.specs.Way.{Goes, Stand};

use crate::agreeing::are_quiet;
use crate::counts::{Counts, check_idles};
use crate::opening::open;
use crate::turning::turn;
use crate::wanting::{check_loud, check_unparted, check_wanted};
use lnbd_board::{Board, Ticket};
use lnbd_conduct::Sides;
use lnbd_handle::Handle;
use lnbd_link::Wires;
use lnbd_model::{NoMemory, Place};
use lnbd_plan::CopyFault;
use lnbd_poll::{Handles, Turn};
use std::alloc::Global;

/// The most connections of both sides together.
const MAX_CONNECTIONS: usize = 64;

/// After so many turns a copy is given up, as for want of memory. None comes near.
pub const MAX_TURNS: u64 = u64::MAX;

/// Holds a handle with its link, behind the others, where fewer are held than may be.
#[tactic(auto, using(crate::proofs::IdleLemmas::idly_none, crate::proofs::IdleLemmas::idly_shut, crate::proofs::PauseLemmas::unpaused_none, crate::proofs::PauseLemmas::unpaused_shut))]
fn hold_next<W: Wires>(
    handles: &mut Handles<Ticket>,
    board: &mut Board,
    wires: &mut W,
    link: u32,
    handle: Handle<Ticket>,
) -> Result<(), NoMemory>
    requires few { length handles.old < max_held }
    ensures held { OnOk result (handles.new ≡ handles.old ++ record { link = link; handle = handle.machine; inbox = [] } ∷ []) }
    ensures board { OnOk result (board.new ≡ board.old) }
    ensures told { OnOk result (W.told wires.new ≡ W.told wires.old) }
    ensures unpaused { Unpaused (W.told wires.old) (W.told wires.new) }
    ensures counts { GoesOn (W.faults wires.old) (W.faults wires.new) (W.idles wires.old) (W.idles wires.new) (W.contents wires.old) (W.contents wires.new) }
    ensures links { LinksGo [] (handles.old ++ record { link = link; handle = handle.machine; inbox = [] } ∷ []) (W.told wires.old) handles.new (W.told wires.new) }
    ensures idly { GoesIdly (W.told wires.old) (W.told wires.new) }
{
    match handles.add(link, handle) {
        Ok(_) => Ok(()),
        Err(handle) => {
            let _ = handle.close(board);
            wires.shut(link);
            Err(NoMemory)
        }
    }
}

/// The same, however many are held: one more than may be would count as want of memory.
#[tactic(auto, using(crate::proofs::IdleLemmas::idly_none, crate::proofs::IdleLemmas::idly_shut, crate::proofs::PauseLemmas::unpaused_none, crate::proofs::PauseLemmas::unpaused_shut))]
pub fn hold<W: Wires>(
    handles: &mut Handles<Ticket>,
    board: &mut Board,
    wires: &mut W,
    link: u32,
    handle: Handle<Ticket>,
) -> Result<(), NoMemory>
    ensures held { OnOk result (handles.new ≡ handles.old ++ record { link = link; handle = handle.machine; inbox = [] } ∷ []) }
    ensures board { OnOk result (board.new ≡ board.old) }
    ensures told { OnOk result (W.told wires.new ≡ W.told wires.old) }
    ensures unpaused { Unpaused (W.told wires.old) (W.told wires.new) }
    ensures counts { GoesOn (W.faults wires.old) (W.faults wires.new) (W.idles wires.old) (W.idles wires.new) (W.contents wires.old) (W.contents wires.new) }
    ensures links { LinksGo [] (handles.old ++ record { link = link; handle = handle.machine; inbox = [] } ∷ []) (W.told wires.old) handles.new (W.told wires.new) }
    ensures idly { GoesIdly (W.told wires.old) (W.told wires.new) }
{
    if handles.len() >= MAX_CONNECTIONS {
        let _ = handle.close(board);
        wires.shut(link);
        return Err(NoMemory);
    }
    hold_next(handles, board, wires, link, handle)
}

/// Connects to this place, and has one handle more ask there.
#[tactic(auto, using(crate::proofs::DialLemmas::dials, crate::proofs::PauseLemmas::unpaused_none, crate::proofs::ConnectLemmas::goes_nowhere, crate::proofs::DecidingLemmas::decides_memory))]
pub(crate) fn dial<W: Wires>(
    alloc: Global,
    handles: &mut Handles<Ticket>,
    board: &mut Board,
    wires: &mut W,
    place: &Place,
    extents: bool,
    start: Counts,
    sides: Sides,
) -> Result<(), CopyFault>
    requires few { length handles.old < max_held }
    requires calm { IsCalm (Some sides) board.old handles.old }
    requires counted { start.faults ≤ W.faults wires.old }
    ensures dials { OnOk result (Dials place.now extents board.old handles.old (W.told wires.old) handles.new (W.told wires.new)) }
    ensures unpaused { Unpaused (W.told wires.old) (W.told wires.new) }
    ensures untried { TriesAtMost 0 (W.told wires.old) (W.told wires.new) }
    ensures board { OnOk result (board.new ≡ board.old) }
    ensures causes { IfErr result (λ told. HasCause start (W.faults wires.new) (W.idles wires.new) told) }
    ensures free { IfErr result (λ told. needs_no_ground told ≡ true) }
    ensures counts { GoesOn (W.faults wires.old) (W.faults wires.new) (W.idles wires.old) (W.idles wires.new) (W.contents wires.old) (W.contents wires.new) }
    ensures links { LinksGoTo (place.now.to ∷ []) handles.old (W.told wires.old) handles.new (W.told wires.new) }
    ensures connects { OnOk result (LinksGo (place.now.to ∷ []) handles.old (W.told wires.old) handles.new (W.told wires.new)) }
    ensures unasked { (from to : At) → (place.now ≡ from) ⊎ (place.now ≡ to) → StaysUnasked from to (W.told wires.old) (W.told wires.new) }
    ensures unissued { OnOk result (AreUnissued handles.old → AreUnissued handles.new) }
    ensures connected { OnOk result (StaysConnected (W.told wires.old) (W.told wires.new)) }
    ensures drives { DrivesOneMore place.now extents board.old handles.old (W.told wires.old) (W.told wires.new) }
    ensures decides { IfErr result (λ told. DecidesOn (Some sides) false board.old handles.old (W.told wires.old) (W.told wires.new) told) }
    ensures calm { OnOk result (IsCalm (Some sides) board.new handles.new) }
{
    let handle = open(alloc, &place.name, extents, board)?;
    match wires.connect(&place.to) {
        Ok(link) => Ok(hold_next(handles, board, wires, link, handle)?),
        Err(_) => {
            let _ = handle.close(board);
            Err(CopyFault::Link {
                before: start.faults,
                after: wires.faults(),
            })
        }
    }
}

/// Waits, unless that was borne for as long as it is.
#[tactic(auto, using(crate::proofs::LinkLemmas::links_none, crate::proofs::LinkLemmas::links_then, crate::proofs::IdleLemmas::idly_none, crate::proofs::IdleLemmas::idly_paused, crate::proofs::PauseLemmas::pauses_none, crate::proofs::PatientLemmas::patient_none))]
pub fn wait<W: Wires>(
    handles: &mut Handles<Ticket>,
    wires: &mut W,
    start: Counts,
) -> Result<(), CopyFault>
    requires counted { start.idles ≤ W.idles wires.old }
    ensures goes { OnOk result ((now : Seen) → Goes now handles.old (W.told wires.old) now handles.new (W.told wires.new)) }
    ensures pauses { OnOk result (Adds (W.told wires.old) (W.told wires.new) (Pause (wants_now handles.old))) }
    ensures still { OnErr result (W.told wires.new ≡ W.told wires.old) }
    ensures causes { IfErr result (λ told. HasCause start (W.faults wires.new) (W.idles wires.new) told) }
    ensures free { IfErr result (λ told. needs_no_ground told ≡ true) }
    ensures counts { GoesOn (W.faults wires.old) (W.faults wires.new) (W.idles wires.old) (W.idles wires.new) (W.contents wires.old) (W.contents wires.new) }
    ensures links { LinksGo [] handles.old (W.told wires.old) handles.new (W.told wires.new) }
    ensures idly { GoesIdly (W.told wires.old) (W.told wires.new) }
    ensures same { handles.new ≡ handles.old }
    ensures wanted { Pauses WantsSome (W.told wires.old) (W.told wires.new) }
    ensures unparted { OnOk result (AreUnparted handles.old) }
    ensures patient { StaysPatient true start.idles (W.told wires.old) (W.idles wires.old) (W.told wires.new) (W.idles wires.new) }
{
    check_idles(wires, start)?;
    check_wanted(handles)?;
    check_unparted(handles)?;
    handles.pause(wires);
    Ok(())
}

/// Waits where nothing happened in a turn and a connection still negotiates.
#[tactic(auto, using(crate::proofs::CauseLemmas::goes_same, crate::proofs::TurnLemmas::goes_none, crate::proofs::LinkLemmas::links_none, crate::proofs::LinkLemmas::links_then, crate::proofs::IdleLemmas::idly_none, crate::proofs::PauseLemmas::pauses_none, crate::proofs::PatientLemmas::patient_none))]
fn rest<W: Wires>(
    handles: &mut Handles<Ticket>,
    wires: &mut W,
    start: Counts,
    told: Turn,
) -> Result<(), CopyFault>
    requires counted { start.idles ≤ W.idles wires.old }
    ensures goes { OnOk result ((now : Seen) → Goes now handles.old (W.told wires.old) now handles.new (W.told wires.new)) }
    ensures unready { (now : Seen) → StaysUnready now handles.old (W.told wires.old) (W.told wires.new) }
    ensures vain { (before : Option (List Call)) → Unpaused before (W.told wires.old) → (told ≡ turned.Still → TurnsInVain handles.old before (W.told wires.old)) → Pauses WantsInVain before (W.told wires.new) }
    ensures causes { IfErr result (λ told. HasCause start (W.faults wires.new) (W.idles wires.new) told) }
    ensures free { IfErr result (λ told. needs_no_ground told ≡ true) }
    ensures counts { GoesOn (W.faults wires.old) (W.faults wires.new) (W.idles wires.old) (W.idles wires.new) (W.contents wires.old) (W.contents wires.new) }
    ensures links { LinksGo [] handles.old (W.told wires.old) handles.new (W.told wires.new) }
    ensures idly { GoesIdly (W.told wires.old) (W.told wires.new) }
    ensures same { handles.new ≡ handles.old }
    ensures wanted { Pauses WantsSome (W.told wires.old) (W.told wires.new) }
    ensures little { (now : Seen) → StaysLittle now handles.old (W.told wires.old) (W.told wires.new) }
    ensures rests { OnOk result (RestsEarly handles.old (told ≡ turned.Still) (W.told wires.old) (W.told wires.new)) }
    ensures paused { OnOk result (told ≡ turned.Still → Adds (W.told wires.old) (W.told wires.new) (Pause (wants_now handles.old))) }
    ensures still { OnErr result (W.told wires.new ≡ W.told wires.old) }
    ensures patient { StaysPatient true start.idles (W.told wires.old) (W.idles wires.old) (W.told wires.new) (W.idles wires.new) }
{
    match told {
        Turn::Still => {
            check_loud(handles)?;
            wait(handles, wires, start)
        }
        Turn::Moved(_) => Ok(()),
    }
}

/// Takes turns until all handles have negotiated and written all that they did, with a pause after each in which nothing happened. What
/// they tell is held against what was told before at once. What the wires counted is looked at behind each pause: where that was the last
/// that is borne, nothing that comes later is told.
#[tactic(auto, using(crate::proofs::CauseLemmas::goes_same, crate::proofs::CauseLemmas::goes_then, crate::proofs::CauseLemmas::cause_later, crate::proofs::CauseLemmas::cause_free, crate::proofs::TurnLemmas::goes_none, crate::proofs::UnaskedLemmas::fresh_none, crate::proofs::UnaskedLemmas::fresh_asks_none, crate::proofs::PauseLemmas::pauses_none, crate::proofs::LinkLemmas::links_none, crate::proofs::LinkLemmas::links_then, crate::proofs::DecidingLemmas::decides_memory))]
pub(crate) fn settle<W: Wires>(
    handles: &mut Handles<Ticket>,
    board: &mut Board,
    wires: &mut W,
    start: Counts,
    sides: Sides,
) -> Result<(), CopyFault>
    requires faults { start.faults ≤ W.faults wires.old }
    requires idles { start.idles ≤ W.idles wires.old }
    requires calm { IsCalm (Some sides) board.old handles.old }
    ensures goes { OnOk result (Goes board.old handles.old (W.told wires.old) board.new handles.new (W.told wires.new)) }
    ensures quiet { OnOk result (AreQuiet handles.new) }
    ensures unready { StaysUnready board.old handles.old (W.told wires.old) (W.told wires.new) }
    ensures vain { Stand handles.old → Pauses WantsInVain (W.told wires.old) (W.told wires.new) }
    ensures causes { IfErr result (λ told. HasCause start (W.faults wires.new) (W.idles wires.new) told) }
    ensures counts { GoesOn (W.faults wires.old) (W.faults wires.new) (W.idles wires.old) (W.idles wires.new) (W.contents wires.old) (W.contents wires.new) }
    ensures links { Stand handles.old → LinksGo [] handles.old (W.told wires.old) handles.new (W.told wires.new) }
    ensures asks { AsksNone board.old handles.old (W.told wires.old) (W.told wires.new) }
    ensures fresh { OnOk result (StaysFresh board.old handles.old (W.told wires.old) board.new handles.new (W.told wires.new)) }
    ensures wanted { Stand handles.old → Pauses WantsSome (W.told wires.old) (W.told wires.new) }
    ensures little { StaysLittle board.old handles.old (W.told wires.old) (W.told wires.new) }
    ensures drives { DrivesOn board.old handles.old (W.told wires.old) (W.told wires.new) }
    ensures decides { IfErr result (λ told. DecidesOn (Some sides) false board.old handles.old (W.told wires.old) (W.told wires.new) told) }
    ensures calm { OnOk result (IsCalm (Some sides) board.new handles.new) }
    ensures tries { Stand handles.old → Tries AnyLeft (W.told wires.old) (W.told wires.new) }
    ensures tried { OnOk result (Stand handles.old → Tries NoneLeft (W.told wires.old) (W.told wires.new)) }
    ensures paces { StaysPaced 2 board.old handles.old (W.told wires.old) (W.told wires.new) }
    ensures paced { OnOk result (StaysPaced 1 board.old handles.old (W.told wires.old) (W.told wires.new)) }
    ensures patient { OnOk result (Stand handles.old → StaysPatient false start.idles (W.told wires.old) (W.idles wires.old) (W.told wires.new) (W.idles wires.new)) }
    ensures impatient { IfErr result (λ told. Stand handles.old → StaysPatient (may_end_waiting told) start.idles (W.told wires.old) (W.idles wires.old) (W.told wires.new) (W.idles wires.new)) }
{
    'turns: for _ in 0..MAX_TURNS {
        check_idles(wires, start)?;
        if are_quiet(handles) {
            return Ok(());
        }
        let told = turn(handles, board, wires, start, Some(sides))?;
        rest(handles, wires, start, told)?;
    }
    Err(CopyFault::NoMemory)
}
