//! What the connections of a copy tell of their exports, and whether a copy can be made of it.

ghost use Rattle.std.specs.Prelude.{◌≡◌, ◌≢◌, ◌<◌, ◌≤◌, ◌^◌, true, false, length, Some, None, IfErr, IfOk, OnOk};
ghost use Rattle.lnbd_model.specs.declared.errors.TheConstants as errors;
ghost use Rattle.lnbd_handle.specs.Histories.{ForEach};
ghost use Rattle.lnbd_history.specs.Answers.{direction_after, state_after};
ghost use Rattle.lnbd_model.specs.declared.state.State.TheVariants as state;
ghost use Rattle.lnbd_copy.specs.Agreed.{AreAgreed, AreQuiet, Tells};
ghost use Rattle.lnbd_copy.specs.Causes.{tells_no_count};
ghost use Rattle.lnbd_conduct.specs.Decided.{is_of_answer};
ghost use Rattle.lnbd_copy.specs.Grounds.{Answers, FindsOther, Happens, IsRefused};
ghost use Rattle.lnbd_conduct.specs.Grounds.{AreSame, IsShown};
ghost use Rattle.lnbd_copy.specs.Ready.{HasContext};
ghost use Rattle.lnbd_copy.specs.Settled.{FindsTerms};
ghost use Rattle.lnbd_conduct.specs.Answered.{HasNoContext};
ghost use Rattle.lnbd_copy.specs.ToldAlike.{AreAlike, AreFitting, FindsUnfit, IsAlikeAt, IsUnsettled};

use crate::counts::of_failure;
use crate::terms::{broken_rule, settled};
use lnbd_board::{Board, Ticket};
use lnbd_conduct::{FIRST_DESTINATION, FIRST_SOURCE, Sides, Terms};
use lnbd_handle::Handle;
use lnbd_model::{Broken, EPROTO, ExportInfo, NoMemory, State};
use lnbd_plan::{CopyFault, CopyOptions};
use lnbd_poll::Handles;

/// The first size that no export has (libnbd: sizes are below 2^63).
const SIZE_END: u64 = 1 << 63;

/// What a connection tells of its export, once all have negotiated. That it tells nothing, or a size that no export has, would count
/// as want of memory: none does that may make requests.
pub fn info_of(handles: &Handles<Ticket>, index: usize) -> Result<&ExportInfo, NoMemory>
    requires held { index < length handles.now }
    requires quiet { AreQuiet handles.now }
    ensures size { IfOk result (λ info. info.now.size < 2 ^ 63) }
    ensures tells { IfOk result (λ info. Tells index info.now.size handles.now) }
    ensures shown { IfOk result (λ info. Happens (IsShown info.now) index handles.now) }
{
    match handles.get(index).info() {
        Some(info) => {
            if info.size < SIZE_END {
                return Ok(info);
            }
            Err(NoMemory)
        }
        None => Err(NoMemory),
    }
}

/// Whether a connection may make requests, and has nothing to write.
fn is_quiet(handle: &Handle<Ticket>) -> bool
    ensures ready { result ≡ true → ForEach handle.now.machine (λ history. state_after history ≡ state.Ready) }
    ensures quiet { result ≡ true → ForEach handle.now.machine (λ history. direction_after history ≡ 1) }
{
    matches!(handle.state(), State::Ready) && handle.is_reading() && !handle.is_waiting()
}

/// Whether all connections may make requests, and have nothing to write.
#[tactic(auto, using(crate::proofs::AgreeLemmas::all_quiet, crate::proofs::AgreeLemmas::none_quiet))]
pub fn are_quiet(handles: &Handles<Ticket>) -> bool
    ensures { result ≡ true → AreQuiet handles.now }
{
    'handles: for index in 0..handles.len() {
        if !is_quiet(handles.get(index)) {
            return false;
        }
    }
    true
}

/// What both sides settle, once the first connection of each has negotiated. A rule that is broken was told before, as soon as both had told.
pub(crate) fn agree(handles: &Handles<Ticket>, options: CopyOptions) -> Result<Terms, CopyFault>
    requires both { 1 < length handles.now }
    requires quiet { AreQuiet handles.now }
    ensures cells { IfOk result (λ terms. (0 < terms.cell) × (0 < terms.zero_cell) × (0 < terms.grain)) }
    ensures size { IfOk result (λ terms. terms.size ≤ 2 ^ 63) }
    ensures agrees { IfOk result (λ terms. AreAgreed options terms handles.now) }
    ensures free { IfErr result (λ told. tells_no_count told ≡ true) }
    ensures settles { IfOk result (λ terms. FindsTerms options terms handles.now) }
    ensures found { IfErr result (λ told. IsRefused handles.now told) }
{
    let source = info_of(handles, FIRST_SOURCE)?;
    let destination = info_of(handles, FIRST_DESTINATION)?;
    match broken_rule(source, destination) {
        Some(rule) => Err(CopyFault::Rule(rule)),
        None => Ok(settled(options, source, destination)),
    }
}

/// Whether the source's extents can be asked for: of its first connection, where it agreed a meta context.
pub fn tells_extents(handles: &Handles<Ticket>) -> Result<bool, NoMemory>
    requires held { 0 < length handles.now }
    requires quiet { AreQuiet handles.now }
    ensures none { IfOk result (λ tells. tells ≡ false → Happens HasNoContext 0 handles.now) }
    ensures some { IfOk result (λ tells. tells ≡ true → Happens HasContext 0 handles.now) }
{
    let info = info_of(handles, FIRST_SOURCE)?;
    Ok(info.contexts.len() != 0)
}

/// Whether two connections of a side tell the same export.
pub fn is_same(one: &ExportInfo, other: &ExportInfo) -> bool
    ensures same { result ≡ true → AreSame one.now other.now }
    ensures differ { result ≡ false → AreSame one.now other.now → ⊥ }
{
    one.size == other.size && one.flags == other.flags && one.blocks == other.blocks
}

/// Whether a connection negotiates still.
fn is_negotiating(handles: &Handles<Ticket>, index: usize) -> bool
    requires { index < length handles.now }
    ensures { result ≡ true → Happens (λ history. state_after history ≡ state.Negotiating) index handles.now }
{
    matches!(handles.get(index).state(), State::Negotiating)
}

/// What a connection tells of its export once it may make requests. While connections are made one that neither negotiates nor may make
/// requests is dead, and has ended the copy: it would count as want of memory.
fn told_by(handles: &Handles<Ticket>, index: usize) -> Result<&ExportInfo, NoMemory>
    requires { index < length handles.now }
    ensures { IfOk result (λ info. Happens (IsShown info.now) index handles.now) }
{
    let handle = handles.get(index);
    match (handle.state(), handle.info()) {
        (State::Ready, Some(info)) => Ok(info),
        _ => Err(NoMemory),
    }
}

/// Whether a connection negotiates still, or tells the same export as the first of its side.
fn is_alike(handles: &Handles<Ticket>, index: usize, sides: Sides) -> Result<bool, NoMemory>
    requires { index < length handles.now }
    ensures alike { IfOk result (λ is. is ≡ true → IsAlikeAt sides index handles.now) }
    ensures differs { IfOk result (λ is. is ≡ false → FindsOther sides handles.now) }
{
    if is_negotiating(handles, index) {
        return Ok(true);
    }
    let one = told_by(handles, sides.first(index))?;
    let other = told_by(handles, index)?;
    Ok(is_same(one, other))
}

/// A connection tells another export than the first of its side, if so. One that negotiates still tells nothing.
pub(crate) fn check_alike(handles: &Handles<Ticket>, sides: Sides) -> Result<(), CopyFault>
    ensures free { IfErr result (λ told. tells_no_count told ≡ true) }
    ensures alike { OnOk result (AreAlike sides handles.now) }
    ensures found { IfErr result (λ told. FindsUnfit (Some sides) handles.now told) }
    ensures other { IfErr result (λ told. is_of_answer told ≡ false) }
{
    'handles: for index in 0..handles.len() {
        if !is_alike(handles, index, sides)? {
            return Err(CopyFault::Broke(Broken::Differs));
        }
    }
    Ok(())
}

/// Whether the first connection of each side has negotiated.
fn have_both_told(handles: &Handles<Ticket>) -> bool
    ensures both { result ≡ true → 1 < length handles.now }
    ensures still { result ≡ false → IsUnsettled handles.now }
{
    if handles.len() < 2 {
        return false;
    }
    !is_negotiating(handles, FIRST_SOURCE) && !is_negotiating(handles, FIRST_DESTINATION)
}

/// The first rule that does not hold between what both sides told, once both did, if so. Further connections are made only where all
/// hold, so that one which is broken then would count as want of memory.
pub(crate) fn check_rules(handles: &Handles<Ticket>) -> Result<(), CopyFault>
    ensures free { IfErr result (λ told. tells_no_count told ≡ true) }
    ensures fit { OnOk result (AreFitting handles.now) }
    ensures found { IfErr result (λ told. (sides : Sides) → FindsUnfit (Some sides) handles.now told) }
    ensures other { IfErr result (λ told. is_of_answer told ≡ false) }
{
    if !have_both_told(handles) {
        return Ok(());
    }
    let source = told_by(handles, FIRST_SOURCE)?;
    let destination = told_by(handles, FIRST_DESTINATION)?;
    match broken_rule(source, destination) {
        None => Ok(()),
        Some(rule) => {
            if handles.len() == 2 {
                return Err(CopyFault::Rule(rule));
            }
            Err(CopyFault::NoMemory)
        }
    }
}

/// Memory was there for all that was told.
pub(crate) fn check_memory(board: &Board) -> Result<(), NoMemory> {
    if board.is_short() {
        return Err(NoMemory);
    }
    Ok(())
}

/// A command's content was faulty, if so.
#[tactic(auto, using(crate::proofs::GroundLemmas::answers_error))]
pub(crate) fn check_content(board: &Board) -> Result<(), CopyFault>
    ensures whole { OnOk result (board.now.error ≢ Some errors.EPROTO) }
    ensures free { IfErr result (λ told. tells_no_count told ≡ true) }
    ensures answers { IfErr result (λ told. Answers board.now told) }
    ensures other { IfErr result (λ told. is_of_answer told ≡ false) }
{
    match board.error() {
        Some(EPROTO) => Err(of_failure(EPROTO)),
        _ => Ok(()),
    }
}

/// Why the copy ends by what its commands came to, if so.
#[tactic(auto, using(crate::proofs::GroundLemmas::answers_free, crate::proofs::GroundLemmas::answers_error))]
pub(crate) fn check_answers(board: &Board) -> Result<(), CopyFault>
    ensures well { OnOk result (board.now.error ≡ None) }
    ensures free { IfErr result (λ told. tells_no_count told ≡ true) }
    ensures answers { IfErr result (λ told. Answers board.now told) }
{
    if board.is_short() {
        return Err(CopyFault::NoMemory);
    }
    match board.error() {
        None => Ok(()),
        Some(error) => Err(of_failure(error)),
    }
}

/// No command came to an error so far. One that did would count as want of memory: the turn that told it has ended the copy.
pub fn check_well(board: &Board) -> Result<(), NoMemory>
    ensures { OnOk result (board.now.error ≡ None) }
{
    if board.is_short() {
        return Err(NoMemory);
    }
    match board.error() {
        None => Ok(()),
        Some(_) => Err(NoMemory),
    }
}
