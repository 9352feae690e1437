//! One turn of a copy's connections, which ends with the first event for which the copy ends. How often turns are taken, and what is
//! asked between two of them, is not known here.

ghost use Rattle.std.specs.Prelude.{◌≡◌, ◌<◌, ◌≤◌, Bool, length, None, false, true, IfErr, IfOk, OnErr, OnOk};
ghost use Rattle.lnbd_callbacks.specs.Steps.{OneByOne};
ghost use Rattle.lnbd_poll.specs.Held.{AreAt};
ghost use Rattle.lnbd_poll.specs.Seen.{Goes};
ghost use Rattle.lnbd_poll.specs.Turned.{TurnsCut, TurnsWhole};
ghost use Rattle.lnbd_board.specs.Files.{Files};
ghost use Rattle.lnbd_copy.specs.Causes.{GoesOn, HasCause, tells_no_count};
ghost use Rattle.lnbd_conduct.specs.Decided.{is_of_answer};
ghost use Rattle.lnbd_copy.specs.Deciding.{AreAlive, DecidesOn, IsAliveAt, IsCalm, IsSteady, Reveals};
ghost use Rattle.lnbd_copy.specs.Grounds.{FindsDead};
ghost use Rattle.lnbd_copy.specs.ToldAlike.{AreHeldFit, FindsUnfit};

use crate::agreeing::{
    check_alike, check_answers, check_content, check_memory, check_rules, check_well,
};
use crate::counts::{Counts, check_faults, of_death};
use lnbd_board::{Board, Ticket};
use lnbd_conduct::Sides;
use lnbd_link::Wires;
use lnbd_model::{NoMemory, State};
use lnbd_plan::CopyFault;
use lnbd_poll::{Handles, Turn};

/// Why the copy ends where this connection is dead, if so.
fn check_state(handles: &Handles<Ticket>, index: usize) -> Result<(), CopyFault>
    requires { index < length handles.now }
    ensures free { IfErr result (λ told. tells_no_count told ≡ true) }
    ensures dead { IfErr result (λ told. FindsDead told handles.now) }
    ensures alive { OnOk result (IsAliveAt index handles.now) }
    ensures other { IfErr result (λ told. is_of_answer told ≡ false) }
{
    match handles.get(index).state() {
        State::Dead(death) => Err(of_death(death)),
        _ => Ok(()),
    }
}

/// No connection is dead. One that is would count as want of memory: the turn in which it died has ended the copy.
fn check_alive(handles: &Handles<Ticket>) -> Result<(), NoMemory>
    ensures { OnOk result (AreAlive handles.now) }
{
    'handles: for index in 0..handles.len() {
        match check_state(handles, index) {
            Ok(()) => {}
            Err(_) => return Err(NoMemory),
        }
    }
    Ok(())
}

/// While connections are made: one tells another export than the first of its side, or what both sides told breaks a rule, if so.
fn check_told(handles: &Handles<Ticket>, sides: Option<Sides>) -> Result<(), CopyFault>
    ensures free { IfErr result (λ told. tells_no_count told ≡ true) }
    ensures fit { OnOk result (AreHeldFit sides handles.now) }
    ensures found { IfErr result (λ told. FindsUnfit sides handles.now told) }
    ensures other { IfErr result (λ told. is_of_answer told ≡ false) }
{
    match sides {
        Some(sides) => {
            check_alike(handles, sides)?;
            check_rules(handles)
        }
        None => Ok(()),
    }
}

/// Nothing came so far for which the copy ends. If anything had, it would count as want of memory: it has ended the copy.
pub fn check_calm(
    handles: &Handles<Ticket>,
    board: &Board,
    sides: Option<Sides>,
) -> Result<(), NoMemory>
    ensures { OnOk result (IsCalm sides board.now handles.now) }
{
    check_well(board)?;
    check_alive(handles)?;
    match check_told(handles, sides) {
        Ok(()) => Ok(()),
        Err(_) => Err(NoMemory),
    }
}

/// Why the copy ends by what came in this connection's part of a turn, if so. One call of the part brings it all: want of memory comes
/// before a call that failed, that before faulty content, that before the death of the connection, that before what it told and does not
/// fit, while connections are made, and that before an error that was told.
#[tactic(auto, using(crate::proofs::CauseLemmas::cause_free, crate::proofs::DecidingLemmas::reveals_free, crate::proofs::DecidingLemmas::steady_memory))]
fn judge<W: Wires>(
    handles: &Handles<Ticket>,
    index: usize,
    board: &Board,
    wires: &W,
    start: Counts,
    sides: Option<Sides>,
) -> Result<(), CopyFault>
    requires held { index < length handles.now }
    requires counted { start.faults ≤ W.faults wires.now }
    ensures causes { IfErr result (λ told. HasCause start (W.faults wires.now) (W.idles wires.now) told) }
    ensures reveals { IfErr result (λ told. Reveals sides index board.now handles.now told) }
    ensures steady { IfErr result (λ told. IsSteady start.faults (W.faults wires.now) told) }
    ensures alive { OnOk result (IsAliveAt index handles.now) }
    ensures well { OnOk result (board.now.error ≡ None) }
    ensures fit { OnOk result (AreHeldFit sides handles.now) }
{
    check_memory(board)?;
    check_faults(wires, start)?;
    check_content(board)?;
    check_state(handles, index)?;
    check_told(handles, sides)?;
    check_answers(board)
}

/// One handle after another takes its part of a turn, until the first event for which the copy ends: it is looked for after each part,
/// of which only the last call can bring one. While connections are made it is given how many each side has: what they tell is looked at
/// then, and later they tell nothing else.
///
/// # Errors
///
/// What the event means: `Link` where a call on the wires failed, `Broke` where a peer broke the protocol, told faulty content, ended its
/// connection or told another export than on the first one, `Rule` where the two exports don't fit, `Peer` where it refused the export or
/// answered a command by an error. `NoMemory` may come in place of every other.
#[tactic(auto, using(crate::proofs::CauseLemmas::goes_same, crate::proofs::CauseLemmas::goes_then, crate::proofs::CauseLemmas::cause_later, crate::proofs::CauseLemmas::cause_free, crate::proofs::DecidingLemmas::decides_memory))]
pub fn turn<W: Wires>(
    handles: &mut Handles<Ticket>,
    board: &mut Board,
    wires: &mut W,
    start: Counts,
    sides: Option<Sides>,
) -> Result<Turn, CopyFault>
    requires counted { start.faults ≤ W.faults wires.old }
    requires calm { IsCalm sides board.old handles.old }
    ensures ok { IfOk result (λ told. Goes (W.told wires.old) (W.told wires.new) (λ seens. AreAt handles.old seens) (λ seens. AreAt handles.new seens) (λ before calls after. TurnsWhole (OneByOne Files) (W.faults wires.old) (W.faults wires.new) told before board.old calls after board.new)) }
    ensures cut { OnErr result (Goes (W.told wires.old) (W.told wires.new) (λ seens. AreAt handles.old seens) (λ seens. AreAt handles.new seens) (λ before calls after. TurnsCut (OneByOne Files) (W.faults wires.old) (W.faults wires.new) before board.old calls after board.new)) }
    ensures calm { OnOk result (IsCalm sides board.new handles.new) }
    ensures decides { IfErr result (λ told. (parting : Bool) → DecidesOn sides parting board.old handles.old (W.told wires.old) (W.told wires.new) told) }
    ensures causes { IfErr result (λ told. HasCause start (W.faults wires.new) (W.idles wires.new) told) }
    ensures counts { GoesOn (W.faults wires.old) (W.faults wires.new) (W.idles wires.old) (W.idles wires.new) (W.contents wires.old) (W.contents wires.new) }
{
    let mut turn = Turn::Still;
    'handles: for index in 0..handles.len() {
        let part = handles.take_part(index, wires, board)?;
        judge(handles, index, board, wires, start, sides)?;
        turn = turn.and(part);
    }
    Ok(turn)
}
