//! What a copy does once both sides are known: slices are begun and go on, extents are asked for, and in the end the
//! destination is flushed and all connections part. How bytes move is not known here.

ghost use Rattle.std.specs.Prelude.{◌≡◌, ◌≢◌, ◌⊎◌, ◌<◌, ◌≤◌, ◌^◌, ℕ, true, false, not, List, [], length, Bool, Some, None, is_some, IfOk, OnErr, OnOk};
ghost use Rattle.lnbd_poll.specs.Held.{Held};
ghost use Rattle.lnbd_board.specs.declared.ticket.Ticket.{Ticket as Tag};
ghost use Rattle.lnbd_board.specs.Files.{Seen as Kept};
ghost use Rattle.lnbd_board.specs.Rows.{busy};
ghost use Rattle.lnbd_copy.specs.Awaiting.{AreToAsk, HasNothingToAsk};
ghost use Rattle.lnbd_copy.specs.Dealt.{AreDealt, HasDealt, HasFit, Spreads};
ghost use Rattle.lnbd_copy.specs.Heard.{IsHeardTo};
ghost use Rattle.lnbd_copy.specs.Reached.{IsToldTo};
ghost use Rattle.lnbd_conduct.specs.Slices.{cells_of};
ghost use Rattle.lnbd_copy.specs.UnderWay.{HasAsked, HasFilled, HaveLooked, IsPast, IsWantedOf, Refills, unfinished};
ghost use Rattle.lnbd_copy.specs.Dealing.{HasGoneOn};
ghost use Rattle.lnbd_copy.specs.Fewest.{AddsFewest, LeavesFewer, TakesFewest};
ghost use Rattle.lnbd_copy.specs.Leaving.{Parts};
ghost use Rattle.lnbd_copy.specs.Links.{HaveSameLinks};
ghost use Rattle.lnbd_copy.specs.Forgetting.{NoneKeepNotes};
ghost use Rattle.lnbd_copy.specs.Moving.{AsksFor, HasChanged, HasHeard};
ghost use Rattle.lnbd_copy.specs.Ready.{MayAct, MayGoOn, StaysReady};
ghost use Rattle.lnbd_copy.specs.Way.{Way};
ghost use Rattle.lnbd_copy.specs.Windows.{IsPlanned, wanted};

use crate::dealing::{Bindings, ask_extents, ask_flush};
use crate::forgetting::forget;
use crate::parting::part;
use crate::windows::Windows;
use lnbd_board::{Board, Ticket};
use lnbd_conduct::Terms;
use lnbd_model::NoMemory;
use lnbd_poll::Handles;
use std::alloc::Global;
use std::marker::Model;

/// What a copy is at.
#[derive(Clone, Copy, Debug, PartialEq, Eq)]
enum Phase {
    /// Slices are copied.
    Copying,
    /// All are over, and the destination is flushed.
    Flushing,
    /// The connections part.
    Parting,
}

/// What is under way.
#[derive(Drop)]
pub(crate) struct Job {
    terms: Terms,
    windows: Windows,
    bindings: Bindings,
    // Whether extents are asked for and not told yet.
    asked: bool,
    phase: Phase,
}

impl Model for Job {
    ghost use Rattle.lnbd_copy.specs.Job.{Seen, IsSettled};

    ghost Value = { Seen };

    ghost view = { λ j. record { terms = j.terms; windows = j.windows; asked = j.asked; phase = j.phase; bound = j.bindings.bound } };

    ghost invariant = { λ j. IsSettled j.terms j.windows j.bindings.sides };
}

impl Job {
    ghost use Rattle.lnbd_copy.specs.declared.job.Phase.TheVariants as phase;
    ghost use Rattle.lnbd_copy.specs.Job.{Acts, IsJob, IsOver};

    /// No slice is begun yet. Where the source's extents can't be asked for, all of it is planned as bytes.
    #[tactic(auto, using(crate::proofs::JobLemmas::job_begins))]
    pub(crate) fn new(alloc: Global, terms: Terms, extents: bool) -> Result<Job, NoMemory>
        requires cells { (0 < terms.cell) × (0 < terms.zero_cell) × (0 < terms.grain) }
        requires size { terms.size ≤ 2 ^ 63 }
        requires some { (0 < terms.sides.source) × (0 < terms.sides.destination) }
        ensures terms { IfOk result (λ job. job.terms ≡ terms) }
        ensures begins { IfOk result (λ job. job.phase ≡ phase.Copying) }
        ensures dealt { IfOk result (λ job. AreDealt terms.limit terms.sides job.bound []) }
        ensures wanted { IfOk result (λ job. is_some (wanted job.windows) ≡ true → extents ≡ true) }
        ensures job { IfOk result (λ job. (way : Way) (now : Kept) → way.size ≡ Some terms.size → now.how ≡ terms.how → way.how ≡ terms.how → way.sides ≡ terms.sides → way.slices ≡ [] → way.asked ≡ None → ((block p : ℕ) → way.whole block p ≡ false) → now.flushing ≡ false → (extents ≡ false → (grain p : ℕ) → way.heard grain p ≡ true) → ((p : ℕ) → way.reach p ≡ false) → way.ended ≡ false → way.flush ≡ terms.flush → way.queries ≡ 0 → IsJob job way now) }
    {
        let bindings = Bindings::new(alloc, terms)?;
        let windows = first_windows(alloc, terms, extents)?;
        Ok(Job {
            terms,
            windows,
            bindings,
            asked: false,
            phase: Phase::Copying,
        })
    }

    /// The source's size in bytes.
    pub(crate) fn size(&self) -> u64
        ensures { result ≡ self.now.terms.size }
    {
        self.terms.size
    }

    /// Whether the connections part.
    pub(crate) fn is_parting(&self) -> bool
        ensures parting { result ≡ true → self.now.phase ≡ phase.Parting }
        ensures other { result ≡ false → self.now.phase ≢ phase.Parting }
    {
        matches!(self.phase, Phase::Parting)
    }

    /// Asks for whatever can be asked for now. Whether anything was, or the copy went on in another way: what the connections noted
    /// meanwhile is then forgotten.
    ///
    /// On `NoMemory` some requests may have been made, and the copy is to end.
    #[tactic(auto, using(crate::proofs::ForgetLemmas::acts_forgotten, crate::proofs::LinkLemmas::same_then))]
    pub(crate) fn act(
        &mut self,
        alloc: Global,
        handles: &mut Handles<Ticket>,
        board: &mut Board,
    ) -> Result<bool, NoMemory>
        requires how { board.old.how ≡ self.old.terms.how }
        requires well { board.old.error ≡ None }
        requires dealt { HasDealt self.old board.old }
        requires fit { HasFit self.old board.old }
        requires may { MayGoOn self.old handles.old }
        ensures acts { OnOk result (Acts self.old self.new board.old board.new handles.old handles.new) }
        ensures terms { self.new.terms ≡ self.old.terms }
        ensures well { OnOk result (board.new.error ≡ None) }
        ensures onward { self.old.phase ≢ phase.Copying → self.new.phase ≢ phase.Copying }
        ensures parting { self.old.phase ≡ phase.Parting → (self.new ≡ self.old) × (board.new ≡ board.old) × (handles.new ≡ handles.old) }
        ensures acted { IfOk result (λ acted. acted ≡ true → HasChanged self.old self.new board.old board.new) }
        ensures awaits { OnOk result ((self.old.phase ≡ phase.Copying → board.old.flushed ≡ false) → HasNothingToAsk self.new board.new) }
        ensures idle { IfOk result (λ acted. HasNothingToAsk self.old board.old → acted ≡ false) }
        ensures full { OnOk result (Refills self.old self.new board.old board.new) }
        ensures still { IfOk result (λ acted. acted ≡ false → handles.new ≡ handles.old) }
        ensures forgets { IfOk result (λ acted. acted ≡ true → NoneKeepNotes handles.new) }
        ensures spread { OnOk result (Spreads self.old self.new board.old board.new) }
        ensures fewest { OnOk result (TakesFewest self.old.terms.sides board.old board.new) }
        ensures may { OnOk result (MayGoOn self.new handles.new) }
        ensures links { HaveSameLinks handles.old handles.new }
    {
        if !self.proceed(alloc, handles, board)? {
            return Ok(false);
        }
        forget(handles);
        Ok(true)
    }

    /// Slices are copied, the flush is waited for, or nothing is asked any more. Whether anything was asked, or the copy went on in another
    /// way.
    #[tactic(auto, using(crate::proofs::JobLemmas::acts_none, crate::proofs::UnderWayLemmas::parting_none, crate::proofs::UnderWayLemmas::past_none, crate::proofs::SpreadLemmas::spreads_none, crate::proofs::SpreadLemmas::spreads_same, crate::proofs::FewestLemmas::takes_none, crate::proofs::LinkLemmas::same_none))]
    fn proceed(
        &mut self,
        alloc: Global,
        handles: &mut Handles<Ticket>,
        board: &mut Board,
    ) -> Result<bool, NoMemory>
        requires how { board.old.how ≡ self.old.terms.how }
        requires well { board.old.error ≡ None }
        requires dealt { HasDealt self.old board.old }
        requires fit { HasFit self.old board.old }
        requires may { MayGoOn self.old handles.old }
        ensures acts { OnOk result (Acts self.old self.new board.old board.new handles.old handles.new) }
        ensures terms { self.new.terms ≡ self.old.terms }
        ensures well { OnOk result (board.new.error ≡ None) }
        ensures onward { self.old.phase ≢ phase.Copying → self.new.phase ≢ phase.Copying }
        ensures parting { self.old.phase ≡ phase.Parting → (self.new ≡ self.old) × (board.new ≡ board.old) × (handles.new ≡ handles.old) }
        ensures acted { IfOk result (λ acted. acted ≡ true → HasChanged self.old self.new board.old board.new) }
        ensures awaits { OnOk result ((self.old.phase ≡ phase.Copying → board.old.flushed ≡ false) → HasNothingToAsk self.new board.new) }
        ensures idle { IfOk result (λ acted. HasNothingToAsk self.old board.old → acted ≡ false) }
        ensures full { OnOk result (Refills self.old self.new board.old board.new) }
        ensures still { IfOk result (λ acted. acted ≡ false → handles.new ≡ handles.old) }
        ensures spread { OnOk result (Spreads self.old self.new board.old board.new) }
        ensures fewest { OnOk result (TakesFewest self.old.terms.sides board.old board.new) }
        ensures may { OnOk result (MayGoOn self.new handles.new) }
        ensures links { HaveSameLinks handles.old handles.new }
    {
        match self.phase {
            Phase::Copying => self.copy(alloc, handles, board),
            Phase::Flushing => self.flushed(handles, board),
            Phase::Parting => Ok(false),
        }
    }

    /// Slices go on, extents are heard and asked for, and slices are begun.
    #[tactic(auto, using(crate::proofs::LinkLemmas::same_then))]
    fn copy(
        &mut self,
        alloc: Global,
        handles: &mut Handles<Ticket>,
        board: &mut Board,
    ) -> Result<bool, NoMemory>
        requires how { board.old.how ≡ self.old.terms.how }
        requires well { board.old.error ≡ None }
        requires copying { self.old.phase ≡ phase.Copying }
        requires dealt { HasDealt self.old board.old }
        requires fit { HasFit self.old board.old }
        requires may { MayAct self.old handles.old }
        ensures acts { OnOk result (Acts self.old self.new board.old board.new handles.old handles.new) }
        ensures terms { self.new.terms ≡ self.old.terms }
        ensures well { OnOk result (board.new.error ≡ None) }
        ensures acted { IfOk result (λ acted. acted ≡ true → HasChanged self.old self.new board.old board.new) }
        ensures awaits { OnOk result (board.old.flushed ≡ false → HasNothingToAsk self.new board.new) }
        ensures idle { IfOk result (λ acted. HasNothingToAsk self.old board.old → acted ≡ false) }
        ensures full { OnOk result (Refills self.old self.new board.old board.new) }
        ensures still { IfOk result (λ acted. acted ≡ false → handles.new ≡ handles.old) }
        ensures spread { OnOk result (Spreads self.old self.new board.old board.new) }
        ensures fewest { OnOk result (TakesFewest self.old.terms.sides board.old board.new) }
        ensures may { OnOk result (MayGoOn self.new handles.new) }
        ensures links { HaveSameLinks handles.old handles.new }
    {
        let went = self.go_on(alloc, handles, board)?;
        let heard = self.hear(board)?;
        let asked = self.ask(handles, board)?;
        let begun = self.begin(alloc, handles, board)?;
        if self.is_copied(board) {
            self.conclude(handles, board)?;
            return Ok(true);
        }
        Ok(went != 0 || begun != 0 || heard || asked)
    }

    /// Slices go on that something came for. How many requests were made, and slices came to their end.
    fn go_on(
        &mut self,
        alloc: Global,
        handles: &mut Handles<Ticket>,
        board: &mut Board,
    ) -> Result<usize, NoMemory>
        requires how { board.old.how ≡ self.old.terms.how }
        requires copying { self.old.phase ≡ phase.Copying }
        requires dealt { HasDealt self.old board.old }
        requires fit { HasFit self.old board.old }
        requires may { MayAct self.old handles.old }
        ensures acts { OnOk result (Acts self.old self.new board.old board.new handles.old handles.new) }
        ensures how { OnOk result (board.new.how ≡ board.old.how) }
        ensures others { OnOk result (HasGoneOn board.old board.new) }
        ensures none { IfOk result (λ done. board.old.came ≡ [] → done ≡ 0) }
        ensures same { IfOk result (λ done. done ≡ 0 → board.new ≡ board.old) }
        ensures looked { OnOk result (HaveLooked board.old board.new) }
        ensures still { IfOk result (λ done. done ≡ 0 → handles.new ≡ handles.old) }
        ensures job { self.new ≡ record self.old { bound = self.new.bound } }
        ensures spread { OnOk result (Spreads self.old self.new board.old board.new) }
        ensures leaves { OnOk result (LeavesFewer board.old board.new) }
        ensures may { OnOk result (MayAct self.new handles.new) }
        ensures links { HaveSameLinks handles.old handles.new }
    {
        let went = self.bindings.go_on(alloc, handles, board)?;
        Ok(went)
    }

    /// Takes extents that were told, if the board had memory for them.
    #[tactic(auto, using(crate::proofs::JobLemmas::acts_none))]
    fn hear(&mut self, board: &Board) -> Result<bool, NoMemory>
        requires { self.old.phase ≡ phase.Copying }
        ensures acts { OnOk result ((held : List (Held Tag)) → Acts self.old self.new board.now board.now held held) }
        ensures terms { self.new.terms ≡ self.old.terms }
        ensures phase { self.new.phase ≡ self.old.phase }
        ensures untold { OnOk result (self.new.asked ≡ true → board.now.mapped ≡ false) }
        ensures heard { IfOk result (λ heard. HasHeard heard self.old self.new board.now) }
        ensures may { OnOk result ((held : List (Held Tag)) → MayAct self.old held → MayAct self.new held) }
        ensures bound { self.new.bound ≡ self.old.bound }
    {
        if !self.has_come(board) {
            return Ok(false);
        }
        if board.is_short() {
            return Err(NoMemory);
        }
        self.asked = false;
        self.windows.hear(board.told())?;
        Ok(true)
    }

    /// Whether extents were told that were asked for.
    fn has_come(&self, board: &Board) -> bool
        ensures asked { result ≡ true → self.now.asked ≡ true }
        ensures mapped { result ≡ true → board.now.mapped ≡ true }
        ensures untold { result ≡ false → self.now.asked ≡ true → board.now.mapped ≡ false }
    {
        self.asked && board.is_mapped()
    }

    /// Asks for extents, if they may be asked for and windows are left.
    #[tactic(auto, using(crate::proofs::JobLemmas::acts_none, crate::proofs::LinkLemmas::same_none))]
    fn ask(&mut self, handles: &mut Handles<Ticket>, board: &mut Board) -> Result<bool, NoMemory>
        requires copying { self.old.phase ≡ phase.Copying }
        requires may { MayAct self.old handles.old }
        ensures acts { OnOk result (Acts self.old self.new board.old board.new handles.old handles.new) }
        ensures how { OnOk result (board.new.how ≡ board.old.how) }
        ensures terms { self.new.terms ≡ self.old.terms }
        ensures phase { self.new.phase ≡ self.old.phase }
        ensures well { OnOk result (board.new.error ≡ board.old.error) }
        ensures asks { OnOk result (HasAsked self.old self.new board.old board.new) }
        ensures asked { IfOk result (λ asked. AsksFor asked self.old self.new board.new) }
        ensures due { IfOk result (λ asked. asked ≡ true → AreToAsk self.old board.old) }
        ensures done { OnOk result (¬ AreToAsk self.new board.new) }
        ensures still { IfOk result (λ asked. asked ≡ false → handles.new ≡ handles.old) }
        ensures may { OnOk result (MayAct self.new handles.new) }
        ensures links { HaveSameLinks handles.old handles.new }
    {
        if !self.may_ask(board) {
            return Ok(false);
        }
        match self.windows.wanted() {
            None => Ok(false),
            Some(wanted) => {
                ask_extents(handles, board, wanted.offset, wanted.length)?;
                self.asked = true;
                Ok(true)
            }
        }
    }

    /// Whether extents may be asked for: none are, and a window is under way, or fewer planned slices are not over than may be
    /// under way.
    fn may_ask(&self, board: &Board) -> bool
        ensures unasked { result ≡ true → self.now.asked ≡ false }
        ensures few { result ≡ true → (self.now.windows.plan.end < self.now.windows.at) ⊎ (unfinished self.now.windows board.now < self.now.terms.limit) }
        ensures planned { result ≡ false → self.now.asked ≡ false → self.now.terms.limit ≤ unfinished self.now.windows board.now }
        ensures whole { result ≡ false → self.now.asked ≡ false → self.now.windows.at ≤ self.now.windows.plan.end }
        ensures wanted { IsWantedOf self.now.windows }
        ensures ahead { self.now.windows.plan.end ≤ self.now.windows.at }
    {
        let planned = self.windows.left().saturating_add(board.count() as u64);
        !self.asked && (self.windows.is_under_way() || planned < self.terms.limit)
    }

    /// Planned slices are begun. How many were.
    fn begin(
        &mut self,
        alloc: Global,
        handles: &mut Handles<Ticket>,
        board: &mut Board,
    ) -> Result<usize, NoMemory>
        requires how { board.old.how ≡ self.old.terms.how }
        requires copying { self.old.phase ≡ phase.Copying }
        requires may { MayAct self.old handles.old }
        ensures acts { OnOk result (Acts self.old self.new board.old board.new handles.old handles.new) }
        ensures terms { self.new.terms ≡ self.old.terms }
        ensures well { OnOk result (board.new.error ≡ board.old.error) }
        ensures fills { OnOk result (HasFilled self.old self.new board.old board.new) }
        ensures begun { IfOk result (λ done. board.new.begun ≡ board.old.begun → done ≡ 0) }
        ensures none { IfOk result (λ done. (length board.old.rows < self.old.terms.limit → length self.old.windows.plan.slices ≡ 0) → done ≡ 0) }
        ensures still { IfOk result (λ done. done ≡ 0 → handles.new ≡ handles.old) }
        ensures phase { self.new.phase ≡ self.old.phase }
        ensures spread { OnOk result (Spreads self.old self.new board.old board.new) }
        ensures fewest { OnOk result (HasDealt self.old board.old → AddsFewest self.old.terms.sides board.old board.new) }
        ensures may { OnOk result (MayAct self.new handles.new) }
        ensures links { HaveSameLinks handles.old handles.new }
    {
        let begun = self
            .bindings
            .begin(alloc, handles, board, &mut self.windows, self.terms.limit)?;
        Ok(begun)
    }

    /// Whether all extents were heard, and all slices of all windows are over.
    fn is_copied(&self, board: &Board) -> bool
        ensures over { result ≡ true → IsOver self.now board.now }
        ensures left { result ≡ false → ¬ IsOver self.now board.now }
        ensures quiet { board.now.came ≡ [] → busy board.now.rows ≡ length board.now.rows }
    {
        let count = board.count();
        !self.asked && self.windows.are_planned() && self.windows.left() == 0 && count == 0
    }

    /// Asks for the flush, where it is wanted, or else for the end.
    #[tactic(auto, using(crate::proofs::LinkLemmas::same_none))]
    fn conclude(&mut self, handles: &mut Handles<Ticket>, board: &mut Board) -> Result<(), NoMemory>
        requires over { IsOver self.old board.old }
        requires well { board.old.error ≡ None }
        requires copying { self.old.phase ≡ phase.Copying }
        requires may { MayAct self.old handles.old }
        ensures acts { OnOk result (Acts self.old self.new board.old board.new handles.old handles.new) }
        ensures terms { self.new.terms ≡ self.old.terms }
        ensures well { OnOk result (board.new.error ≡ None) }
        ensures past { OnOk result (IsPast self.new board.old board.new) }
        ensures flushed { OnOk result (board.new.flushed ≡ board.old.flushed) }
        ensures begun { OnOk result (board.new.begun ≡ board.old.begun) }
        ensures bound { self.new.bound ≡ self.old.bound }
        ensures may { OnOk result (MayGoOn self.new handles.new) }
        ensures links { HaveSameLinks handles.old handles.new }
    {
        if self.terms.flush {
            ask_flush(handles, board)?;
            self.phase = Phase::Flushing;
            return Ok(());
        }
        self.leave(handles);
        Ok(())
    }

    /// Asks for the end, where the flush was answered.
    #[tactic(auto, using(crate::proofs::JobLemmas::acts_none, crate::proofs::LinkLemmas::same_none))]
    fn flushed(&mut self, handles: &mut Handles<Ticket>, board: &Board) -> Result<bool, NoMemory>
        requires flushing { self.old.phase ≡ phase.Flushing }
        requires well { board.now.error ≡ None }
        requires may { MayGoOn self.old handles.old }
        ensures acts { OnOk result (Acts self.old self.new board.now board.now handles.old handles.new) }
        ensures terms { self.new.terms ≡ self.old.terms }
        ensures phase { self.new.phase ≢ phase.Copying }
        ensures awaits { OnOk result (HasNothingToAsk self.new board.now) }
        ensures idle { IfOk result (λ acted. HasNothingToAsk self.old board.now → acted ≡ false) }
        ensures still { IfOk result (λ acted. acted ≡ false → handles.new ≡ handles.old) }
        ensures acted { IfOk result (λ acted. acted ≡ true → self.new.phase ≢ self.old.phase) }
        ensures bound { self.new.bound ≡ self.old.bound }
        ensures may { OnOk result (MayGoOn self.new handles.new) }
        ensures links { HaveSameLinks handles.old handles.new }
    {
        if board.is_flushed() {
            self.leave(handles);
            return Ok(true);
        }
        Ok(false)
    }

    /// Asks for the end. No connection is dead by then: each may make requests.
    fn leave(&mut self, handles: &mut Handles<Ticket>)
        ensures parts { (now : Kept) → Parts now handles.old handles.new }
        ensures others { self.new ≡ record self.old { phase = phase.Parting } }
        ensures links { HaveSameLinks handles.old handles.new }
    {
        part(handles);
        self.phase = Phase::Parting;
    }
}

/// The windows before any extent was told. Where none can be asked for, all of the source is planned as bytes.
fn first_windows(alloc: Global, terms: Terms, extents: bool) -> Result<Windows, NoMemory>
    requires cells { (0 < terms.cell) × (0 < terms.zero_cell) × (0 < terms.grain) }
    requires size { terms.size ≤ 2 ^ 63 }
    ensures planned { IfOk result (λ windows. (zero : ℕ → Bool) → IsPlanned windows zero []) }
    ensures size { IfOk result (λ windows. windows.size ≡ terms.size) }
    ensures grain { IfOk result (λ windows. windows.grain ≡ terms.grain) }
    ensures cells { IfOk result (λ windows. windows.plan.cells ≡ cells_of terms) }
    ensures heard { IfOk result (λ windows. (heard : ℕ → Bool) → (extents ≡ false → (p : ℕ) → heard p ≡ true) → IsHeardTo windows heard) }
    ensures reached { IfOk result (λ windows. (reach : ℕ → Bool) → ((p : ℕ) → reach p ≡ false) → IsToldTo windows reach) }
    ensures inside { IfOk result (λ windows. windows.at ≤ windows.size) }
    ensures wanted { IfOk result (λ windows. is_some (wanted windows) ≡ true → extents ≡ true) }
{
    let mut windows = Windows::new(alloc, terms);
    if extents {
        return Ok(windows);
    }
    windows.plan_rest()?;
    Ok(windows)
}
