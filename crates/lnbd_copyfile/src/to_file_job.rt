//! What is under way in a copy from an export to a file, whose connections stand: slices are begun and go on, extents are asked for, and in the
//! end all connections part. How bytes move, and when the wires are turned, is not known here.

ghost use Rattle.std.specs.Prelude.{◌≡◌, ◌<◌, ◌≤◌, ◌⊎◌, ◌+◌, ◌-◌, ◌^◌, ℕ, Bool, true, false, List, [], length, slice_index, slice_set, Err, IfErr, IfOk, OnOk, None, Option, Some};
ghost use Rattle.lnbd_link.specs.Count.{Rises};
ghost use Rattle.lnbd_poll.specs.Held.{Held};
ghost use Rattle.lnbd_board.specs.declared.ticket.Ticket.{Ticket as Tag};
ghost use Rattle.lnbd_board.specs.Files.{Seen as Kept};
ghost use Rattle.lnbd_board.specs.Rows.{busy};
ghost use Rattle.lnbd_conduct.specs.Slices.{cells_of};
ghost use Rattle.lnbd_connections.specs.Way.{Way};
ghost use Rattle.lnbd_copy.specs.Dealt.{IsDealt};
ghost use Rattle.lnbd_copy.specs.Forgetting.{NoneKeepNotes};
ghost use Rattle.lnbd_copy.specs.Heard.{IsHeardTo};
ghost use Rattle.lnbd_copy.specs.Reached.{IsToldTo};
ghost use Rattle.lnbd_copy.specs.UnderWay.{IsWantedOf, unfinished};
ghost use Rattle.lnbd_copy.specs.Windows.{IsPlanned};
ghost use Rattle.lnbd_touched.specs.Grown.{Grew};
ghost use Rattle.lnbd_copyfile.specs.Fullness.{StaysWell};
ghost use Rattle.lnbd_copyfile.specs.Making.{MakesChanges};
ghost use Rattle.lnbd_copyfile.specs.OneFile.{BreaksWriting, Writes};
ghost use Rattle.lnbd_copyfile.specs.ToFileJob.{Begins, BindsOne, anywhere};
ghost use Rattle.lnbd_store.specs.Shelf.{Shelf};
ghost use Rattle.lnbd_copy.specs.Links.{HaveSameLinks};

use crate::desk::{First, begin_slice, go_on};
use crate::fault::Stop;
use crate::forgetting::forget;
use lnbd_board::{Board, Bound, Ticket};
use lnbd_conduct::Terms;
use lnbd_connections::{ask_extents, ask_read, part};
use lnbd_copy::Windows;
use lnbd_model::NoMemory;
use lnbd_plan::Slice;
use lnbd_poll::Handles;
use lnbd_store::Store;
use std::alloc::Global;
use std::marker::Model;

/// What is under way, and on what terms.
#[derive(Drop)]
pub(crate) struct ToFileJob {
    terms: Terms,
    windows: Windows,
    bound: Bound,
    // Whether extents are asked for and not told yet.
    asked: bool,
    is_parting: bool,
}

impl Model for ToFileJob {
    ghost use Rattle.lnbd_copyfile.specs.Jobs.{Seen};
    ghost use Rattle.lnbd_copyfile.specs.ToFileJob.{IsSettled};

    ghost Value = { Seen };

    ghost view = { λ j. record { terms = j.terms; windows = j.windows; asked = j.asked; is_parting = j.is_parting; bound = j.bound } };

    ghost invariant = { λ j. IsSettled j.terms j.windows j.bound j.terms.sides.source };
}

impl ToFileJob {
    ghost use Rattle.lnbd_copyfile.specs.Hearing.{HearsOn};
    ghost use Rattle.lnbd_copyfile.specs.ToFileJob.{Acts, AreToAsk, HasNothingToDo, IsJob, IsOver, Spreads};

    /// No slice is begun yet. Where the source's extents can't be asked for, all of it is planned as bytes. A source without connections counts as
    /// one for which memory ran out.
    pub(crate) fn new(alloc: Global, terms: Terms, extents: bool) -> Result<ToFileJob, NoMemory>
        requires cells { (0 < terms.cell) × (0 < terms.zero_cell) × (0 < terms.grain) }
        requires size { terms.size ≤ 2 ^ 63 }
        ensures terms { IfOk result (λ job. job.terms ≡ terms) }
        ensures copying { IfOk result (λ job. job.is_parting ≡ false) }
        ensures dealt { IfOk result (λ job. IsDealt terms.limit terms.sides.source job.bound []) }
        ensures at { IfOk result (λ job. extents ≡ true → job.windows.at ≡ 0) }
        ensures begins { IfOk result (λ job. (way : Way) (now : Kept) → way.size ≡ Some terms.size → way.how ≡ terms.how → now.how ≡ terms.how
            → way.slices ≡ [] → way.asked ≡ None → ((block p : ℕ) → way.known.whole block p ≡ false) → ((p : ℕ) → way.known.reach p ≡ false) → IsJob job way now) }
    {
        let connections = terms.sides.source as usize;
        if connections == 0 {
            return Err(NoMemory);
        }
        let bound = Bound::new(alloc, connections)?;
        let windows = first_windows(alloc, terms, extents)?;
        Ok(ToFileJob {
            terms,
            windows,
            bound,
            asked: false,
            is_parting: false,
        })
    }

    /// Whether the connections part.
    pub(crate) fn is_parting(&self) -> bool
        ensures { result ≡ self.now.is_parting }
    {
        self.is_parting
    }

    /// Does whatever can be done now of the file, and asks for whatever can be asked for of the source. Whether anything was: what the connections
    /// noted meanwhile is then forgotten.
    #[tactic(auto, using(crate::proofs::ToFileJobLemmas::acts_none, crate::proofs::HearingLemmas::hears_still, crate::proofs::SpreadLemmas::spreads_none, lnbd_copy::proofs::LinkLemmas::same_none, lnbd_copy::proofs::LinkLemmas::same_then, crate::proofs::FullLemmas::well_none))]
    pub(crate) fn act<S: Store>(
        &mut self,
        alloc: Global,
        handles: &mut Handles<Ticket>,
        board: &mut Board,
        store: &mut S,
        file: u32,
    ) -> Result<bool, Stop>
        requires how { board.old.how ≡ self.old.terms.how }
        ensures links { HaveSameLinks handles.old handles.new }
        ensures kept { IfOk result (λ acted. acted ≡ false → handles.new ≡ handles.old) }
        ensures acts { OnOk result (Acts file self.old self.new board.old board.new handles.old handles.new (S.shelf store.old) (S.shelf store.new) (S.taken store.old) (S.taken store.new)) }
        ensures parting { self.old.is_parting ≡ true → self.new.is_parting ≡ true }
        ensures terms { self.new.terms ≡ self.old.terms }
        ensures waits { IfOk result (λ acted. acted ≡ false → self.new.is_parting ≡ false → HasNothingToDo self.new board.new) }
        ensures forgets { IfOk result (λ acted. acted ≡ true → NoneKeepNotes handles.new) }
        ensures most { OnOk result (length board.old.rows ≤ self.old.terms.limit → length board.new.rows ≤ self.old.terms.limit) }
        ensures well { IfOk result (λ acted. acted ≡ false → StaysWell board.old.how board.old board.new) }
        ensures spread { OnOk result (Spreads self.old self.new board.old board.new) }
        ensures writes { OnOk result (Grew (S.told store.old) (S.told store.new) (Writes file)) }
        ensures breaks { IfErr result (λ why. Grew (S.told store.old) (S.told store.new) (BreaksWriting file why)) }
        ensures unchanged { (n end : ℕ) → result ≡ Err (Stop.Changed n end) → ⊥ }
        ensures failed { result ≡ Err Stop.Failed → Rises 1 (S.faults store.old) (S.faults store.new) }
        ensures later { S.faults store.old ≤ S.faults store.new }
        ensures given { S.given store.new ≡ S.given store.old }
        ensures hears { OnOk result (HearsOn self.old self.new board.old handles.old) }
    {
        if self.is_parting {
            return Ok(false);
        }
        match self.copy(alloc, handles, board, store, file) {
            Ok(true) => {
                forget(handles);
                Ok(true)
            }
            Ok(false) => Ok(false),
            Err(why) => Err(why),
        }
    }

    /// Slices go on, extents are heard and asked for, and slices are begun. Where all of them are over the connections are asked to end.
    #[tactic(auto, using(lnbd_copy::proofs::LinkLemmas::same_none, lnbd_copy::proofs::LinkLemmas::same_then, crate::proofs::FullLemmas::acts_well))]
    fn copy<S: Store>(
        &mut self,
        alloc: Global,
        handles: &mut Handles<Ticket>,
        board: &mut Board,
        store: &mut S,
        file: u32,
    ) -> Result<bool, Stop>
        requires how { board.old.how ≡ self.old.terms.how }
        requires copying { self.old.is_parting ≡ false }
        ensures links { HaveSameLinks handles.old handles.new }
        ensures kept { IfOk result (λ acted. acted ≡ false → handles.new ≡ handles.old) }
        ensures acts { OnOk result (Acts file self.old self.new board.old board.new handles.old handles.new (S.shelf store.old) (S.shelf store.new) (S.taken store.old) (S.taken store.new)) }
        ensures waits { IfOk result (λ acted. acted ≡ false → HasNothingToDo self.new board.new) }
        ensures most { OnOk result (length board.old.rows ≤ self.old.terms.limit → length board.new.rows ≤ self.old.terms.limit) }
        ensures well { IfOk result (λ acted. acted ≡ false → StaysWell board.old.how board.old board.new) }
        ensures terms { self.new.terms ≡ self.old.terms }
        ensures spread { OnOk result (Spreads self.old self.new board.old board.new) }
        ensures writes { OnOk result (Grew (S.told store.old) (S.told store.new) (Writes file)) }
        ensures breaks { IfErr result (λ why. Grew (S.told store.old) (S.told store.new) (BreaksWriting file why)) }
        ensures unchanged { (n end : ℕ) → result ≡ Err (Stop.Changed n end) → ⊥ }
        ensures failed { result ≡ Err Stop.Failed → Rises 1 (S.faults store.old) (S.faults store.new) }
        ensures later { S.faults store.old ≤ S.faults store.new }
        ensures given { S.given store.new ≡ S.given store.old }
        ensures hears { OnOk result (HearsOn self.old self.new board.old handles.old) }
    {
        let went = match self.go_on(alloc, board, store, file) {
            Ok(went) => went,
            Err(why) => return Err(why),
        };
        let listened = match self.listen(handles, board) {
            Ok(listened) => listened,
            Err(_) => return Err(Stop::NoMemory),
        };
        let begun = match self.begin(alloc, handles, board, store, file) {
            Ok(begun) => begun,
            Err(why) => return Err(why),
        };
        let left = self.leave_where_copied(handles, board);
        Ok(went || listened || begun || left)
    }

    /// Slices go on that something came for. Whether one came to its end. If that came to no end it would count as want of memory.
    fn go_on<S: Store>(
        &mut self,
        alloc: Global,
        board: &mut Board,
        store: &mut S,
        file: u32,
    ) -> Result<bool, Stop>
        requires how { board.old.how ≡ self.old.terms.how }
        requires copying { self.old.is_parting ≡ false }
        ensures acts { OnOk result ((held : List (Held Tag)) →
            Acts file self.old self.new board.old board.new held held (S.shelf store.old) (S.shelf store.new) (S.taken store.old) (S.taken store.new)) }
        ensures job { self.new ≡ record self.old { bound = self.new.bound } }
        ensures how { OnOk result (board.new.how ≡ board.old.how) }
        ensures makes { OnOk result (MakesChanges board.old.how file board.old board.new (S.shelf store.old) (S.shelf store.new) (S.taken store.old) (S.taken store.new)) }
        ensures looked { OnOk result (board.new.came ≡ []) }
        ensures spread { OnOk result (Spreads self.old self.new board.old board.new) }
        ensures writes { OnOk result (Grew (S.told store.old) (S.told store.new) (Writes file)) }
        ensures breaks { IfErr result (λ why. Grew (S.told store.old) (S.told store.new) (BreaksWriting file why)) }
        ensures unchanged { (n end : ℕ) → result ≡ Err (Stop.Changed n end) → ⊥ }
        ensures failed { result ≡ Err Stop.Failed → Rises 1 (S.faults store.old) (S.faults store.new) }
        ensures later { S.faults store.old ≤ S.faults store.new }
        ensures given { S.given store.new ≡ S.given store.old }
    {
        let mut went = false;
        'slices: for _ in 0..u64::MAX {
            match go_on(alloc, store, file, board) {
                Ok(Some(source)) => {
                    self.release(source);
                    went = true;
                }
                Ok(None) => return Ok(went),
                Err(why) => return Err(why),
            }
        }
        Err(Stop::NoMemory)
    }

    /// A slice is over that was bound to this connection. It is looked at, since a board does not know how many there are.
    fn release(&mut self, source: usize)
        ensures others { self.new ≡ record self.old { bound = self.new.bound } }
        ensures released { source < self.old.terms.sides.source → self.new.bound ≡ slice_set self.old.bound source (slice_index self.old.bound source - 1) }
    {
        if source < self.terms.sides.source as usize {
            self.bound.release(source);
        }
    }

    /// Takes extents that were told, and asks for more. Whether any were, or are.
    #[tactic(auto, using(lnbd_copy::proofs::LinkLemmas::same_none, lnbd_copy::proofs::LinkLemmas::same_then))]
    fn listen(&mut self, handles: &mut Handles<Ticket>, board: &mut Board) -> Result<bool, NoMemory>
        requires copying { self.old.is_parting ≡ false }
        ensures links { HaveSameLinks handles.old handles.new }
        ensures kept { IfOk result (λ listened. listened ≡ false → handles.new ≡ handles.old) }
        ensures acts { OnOk result ((file : ℕ) (shelf : Option Shelf) (taken : ℕ) → Acts file self.old self.new board.old board.new handles.old handles.new shelf shelf taken taken) }
        ensures terms { self.new.terms ≡ self.old.terms }
        ensures copying { OnOk result (self.new.is_parting ≡ false) }
        ensures how { OnOk result (board.new.how ≡ board.old.how) }
        ensures bound { self.new.bound ≡ self.old.bound }
        ensures rows { OnOk result (board.new.rows ≡ board.old.rows) }
        ensures untold { OnOk result (self.new.asked ≡ true → board.new.mapped ≡ false) }
        ensures wanted { OnOk result (IsWantedOf self.new.windows) }
        ensures done { OnOk result (¬ AreToAsk self.new board.new) }
        ensures still { IfOk result (λ listened. listened ≡ false → (self.new ≡ self.old) × (board.new ≡ board.old)) }
        ensures hears { OnOk result (HearsOn self.old self.new board.old handles.old) }
    {
        let heard = self.hear(board)?;
        let asked = self.ask(handles, board)?;
        Ok(heard || asked)
    }

    /// Takes extents that were told, if the board had memory for them.
    #[tactic(auto, using(crate::proofs::ToFileJobLemmas::acts_none, crate::proofs::HearingLemmas::hears_still))]
    fn hear(&mut self, board: &Board) -> Result<bool, NoMemory>
        requires copying { self.old.is_parting ≡ false }
        ensures acts { OnOk result ((file : ℕ) (held : List (Held Tag)) (shelf : Option Shelf) (taken : ℕ) → Acts file self.old self.new board.now board.now held held shelf shelf taken taken) }
        ensures terms { self.new.terms ≡ self.old.terms }
        ensures copying { self.new.is_parting ≡ false }
        ensures bound { self.new.bound ≡ self.old.bound }
        ensures untold { OnOk result (self.new.asked ≡ true → board.now.mapped ≡ false) }
        ensures still { IfOk result (λ heard. heard ≡ false → self.new ≡ self.old) }
        ensures hears { OnOk result ((held : List (Held Tag)) → HearsOn self.old self.new board.now held) }
    {
        if !self.has_come(board) {
            return Ok(false);
        }
        if board.is_short() {
            return Err(NoMemory);
        }
        self.asked = false;
        self.windows.hear(board.told())?;
        Ok(true)
    }

    /// Whether extents were told that were asked for.
    fn has_come(&self, board: &Board) -> bool
        ensures asked { result ≡ true → self.now.asked ≡ true }
        ensures mapped { result ≡ true → board.now.mapped ≡ true }
        ensures untold { result ≡ false → self.now.asked ≡ true → board.now.mapped ≡ false }
    {
        self.asked && board.is_mapped()
    }

    /// Asks for extents, if they may be asked for and windows are left.
    #[tactic(auto, using(crate::proofs::ToFileJobLemmas::acts_none, lnbd_copy::proofs::LinkLemmas::same_none, lnbd_copy::proofs::LinkLemmas::same_then))]
    fn ask(&mut self, handles: &mut Handles<Ticket>, board: &mut Board) -> Result<bool, NoMemory>
        requires copying { self.old.is_parting ≡ false }
        ensures links { HaveSameLinks handles.old handles.new }
        ensures kept { IfOk result (λ asked. asked ≡ false → handles.new ≡ handles.old) }
        ensures acts { OnOk result ((file : ℕ) (shelf : Option Shelf) (taken : ℕ) → Acts file self.old self.new board.old board.new handles.old handles.new shelf shelf taken taken) }
        ensures how { OnOk result (board.new.how ≡ board.old.how) }
        ensures terms { self.new.terms ≡ self.old.terms }
        ensures copying { self.new.is_parting ≡ false }
        ensures bound { self.new.bound ≡ self.old.bound }
        ensures rows { OnOk result (board.new.rows ≡ board.old.rows) }
        ensures done { OnOk result (¬ AreToAsk self.new board.new) }
        ensures wanted { OnOk result (IsWantedOf self.new.windows) }
        ensures untold { IfOk result (λ asked. asked ≡ true → board.new.mapped ≡ false) }
        ensures still { IfOk result (λ asked. asked ≡ false → (self.new ≡ self.old) × (board.new ≡ board.old)) }
        ensures windows { self.new.windows ≡ self.old.windows }
    {
        if !self.may_ask(board) {
            return Ok(false);
        }
        match self.windows.wanted() {
            None => Ok(false),
            Some(wanted) => {
                ask_extents(handles, board, wanted.offset, wanted.length)?;
                self.asked = true;
                Ok(true)
            }
        }
    }

    /// Whether extents may be asked for: none are, and a window is under way, or fewer planned slices are not over than may be
    /// under way.
    fn may_ask(&self, board: &Board) -> bool
        ensures unasked { result ≡ true → self.now.asked ≡ false }
        ensures wanted { IsWantedOf self.now.windows }
        ensures planned { result ≡ false → self.now.asked ≡ false → self.now.terms.limit ≤ unfinished self.now.windows board.now }
        ensures whole { result ≡ false → self.now.asked ≡ false → self.now.windows.at ≤ self.now.windows.plan.end }
    {
        let planned = self.windows.left().saturating_add(board.count() as u64);
        !self.asked && (self.windows.is_under_way() || planned < self.terms.limit)
    }

    /// Planned slices are begun, up to as many as may be under way. Whether one was.
    #[tactic(auto, using(lnbd_copy::proofs::LinkLemmas::same_none, lnbd_copy::proofs::LinkLemmas::same_then))]
    fn begin<S: Store>(
        &mut self,
        alloc: Global,
        handles: &mut Handles<Ticket>,
        board: &mut Board,
        store: &mut S,
        file: u32,
    ) -> Result<bool, Stop>
        requires how { board.old.how ≡ self.old.terms.how }
        requires copying { self.old.is_parting ≡ false }
        ensures links { HaveSameLinks handles.old handles.new }
        ensures kept { IfOk result (λ begun. begun ≡ false → handles.new ≡ handles.old) }
        ensures acts { OnOk result (Acts file self.old self.new board.old board.new handles.old handles.new (S.shelf store.old) (S.shelf store.new) (S.taken store.old) (S.taken store.new)) }
        ensures terms { self.new.terms ≡ self.old.terms }
        ensures copying { OnOk result (self.new.is_parting ≡ false) }
        ensures spread { OnOk result (Spreads self.old self.new board.old board.new) }
        ensures still { IfOk result (λ begun. begun ≡ false → (self.new ≡ self.old) × (board.new ≡ board.old)) }
        ensures full { IfOk result (λ begun. begun ≡ false → length board.new.rows < self.new.terms.limit → length self.new.windows.plan.slices ≡ 0) }
        ensures most { OnOk result (length board.old.rows ≤ self.old.terms.limit → length board.new.rows ≤ self.old.terms.limit) }
        ensures writes { OnOk result (Grew (S.told store.old) (S.told store.new) (Writes file)) }
        ensures breaks { IfErr result (λ why. Grew (S.told store.old) (S.told store.new) (BreaksWriting file why)) }
        ensures unchanged { (n end : ℕ) → result ≡ Err (Stop.Changed n end) → ⊥ }
        ensures failed { result ≡ Err Stop.Failed → Rises 1 (S.faults store.old) (S.faults store.new) }
        ensures later { S.faults store.old ≤ S.faults store.new }
        ensures given { S.given store.new ≡ S.given store.old }
        ensures at { self.new.windows.at ≡ self.old.windows.at }
    {
        let mut begun = false;
        'slices: for under_way in board.count() as u64..self.limit() {
            match self.begin_next(alloc, handles, board, store, file) {
                Ok(true) => begun = true,
                Ok(false) => return Ok(begun),
                Err(why) => return Err(why),
            }
        }
        Ok(begun)
    }

    /// The most slices that are begun and not over.
    fn limit(&self) -> u64
        ensures limit { result ≡ self.now.terms.limit }
        ensures fits { result < 2 ^ 64 }
    {
        self.terms.limit
    }

    /// Begins the next slice that is planned, if there is one. Whether there was.
    #[tactic(auto, using(lnbd_copy::proofs::LinkLemmas::same_none, lnbd_copy::proofs::LinkLemmas::same_then))]
    fn begin_next<S: Store>(
        &mut self,
        alloc: Global,
        handles: &mut Handles<Ticket>,
        board: &mut Board,
        store: &mut S,
        file: u32,
    ) -> Result<bool, Stop>
        requires how { board.old.how ≡ self.old.terms.how }
        requires copying { self.old.is_parting ≡ false }
        ensures links { HaveSameLinks handles.old handles.new }
        ensures kept { IfOk result (λ begun. begun ≡ false → handles.new ≡ handles.old) }
        ensures acts { OnOk result (Acts file self.old self.new board.old board.new handles.old handles.new (S.shelf store.old) (S.shelf store.new) (S.taken store.old) (S.taken store.new)) }
        ensures how { OnOk result (board.new.how ≡ board.old.how) }
        ensures terms { self.new.terms ≡ self.old.terms }
        ensures copying { self.new.is_parting ≡ false }
        ensures spread { OnOk result (self.old.terms.limit < 2 ^ 64 → length board.old.rows < self.old.terms.limit → Spreads self.old self.new board.old board.new) }
        ensures more { IfOk result (λ begun. begun ≡ true → length board.new.rows ≡ length board.old.rows + 1) }
        ensures still { IfOk result (λ begun. begun ≡ false → (self.new ≡ self.old) × (board.new ≡ board.old)) }
        ensures none { IfOk result (λ begun. begun ≡ false → length self.old.windows.plan.slices ≡ 0) }
        ensures writes { OnOk result (Grew (S.told store.old) (S.told store.new) (Writes file)) }
        ensures breaks { IfErr result (λ why. Grew (S.told store.old) (S.told store.new) (BreaksWriting file why)) }
        ensures unchanged { (n end : ℕ) → result ≡ Err (Stop.Changed n end) → ⊥ }
        ensures failed { result ≡ Err Stop.Failed → Rises 1 (S.faults store.old) (S.faults store.new) }
        ensures later { S.faults store.old ≤ S.faults store.new }
        ensures given { S.given store.new ≡ S.given store.old }
        ensures at { self.new.windows.at ≡ self.old.windows.at }
    {
        let slice = match self.windows.next() {
            Some(slice) => slice,
            None => return Ok(false),
        };
        match begin_one(alloc, handles, board, store, file, slice, &mut self.bound) {
            Ok(()) => Ok(true),
            Err(why) => Err(why),
        }
    }

    /// Whether all extents were heard, and all slices of all windows are over.
    fn is_copied(&self, board: &Board) -> bool
        ensures over { result ≡ true → IsOver self.now board.now }
        ensures left { result ≡ false → ¬ IsOver self.now board.now }
        ensures quiet { board.now.came ≡ [] → busy board.now.rows ≡ length board.now.rows }
    {
        let count = board.count();
        !self.asked && self.windows.are_planned() && self.windows.left() == 0 && count == 0
    }

    /// Asks all connections to end, where all is copied. Whether it is.
    #[tactic(auto, using(crate::proofs::ToFileJobLemmas::acts_none, lnbd_copy::proofs::LinkLemmas::same_none, lnbd_copy::proofs::LinkLemmas::same_then))]
    fn leave_where_copied(&mut self, handles: &mut Handles<Ticket>, board: &Board) -> bool
        ensures links { HaveSameLinks handles.old handles.new }
        ensures kept { result ≡ false → handles.new ≡ handles.old }
        ensures acts { (file : ℕ) (shelf : Option Shelf) (taken : ℕ) → Acts file self.old self.new board.now board.now handles.old handles.new shelf shelf taken taken }
        ensures terms { self.new.terms ≡ self.old.terms }
        ensures bound { self.new.bound ≡ self.old.bound }
        ensures left { result ≡ false → ¬ IsOver self.old board.now }
        ensures still { result ≡ false → self.new ≡ self.old }
        ensures windows { self.new.windows ≡ self.old.windows }
        ensures quiet { board.now.came ≡ [] → busy board.now.rows ≡ length board.now.rows }
    {
        if !self.is_copied(board) {
            return false;
        }
        part(handles);
        self.is_parting = true;
        true
    }
}

/// Begins a slice on the connection to which the fewest are bound. What comes first of it is asked of the connection, or done of the file.
#[tactic(auto, using(lnbd_copy::proofs::LinkLemmas::same_none, lnbd_copy::proofs::LinkLemmas::same_then))]
fn begin_one<S: Store>(
    alloc: Global,
    handles: &mut Handles<Ticket>,
    board: &mut Board,
    store: &mut S,
    file: u32,
    slice: Slice,
    bound: &mut Bound,
) -> Result<(), Stop>
    requires room { slice.start + slice.length ≤ 2 ^ 63 }
    requires copied { slice.zero ≡ true → board.old.how.skip ≡ false }
    requires some { 0 < length bound.old }
    ensures links { HaveSameLinks handles.old handles.new }
    ensures begins { OnOk result (Begins file slice board.old board.new handles.old handles.new (S.shelf store.old) (S.shelf store.new) (S.taken store.old) (S.taken store.new)) }
    ensures binds { OnOk result (BindsOne bound.old bound.new board.old.rows board.new.rows) }
    ensures how { OnOk result (board.new.how ≡ board.old.how) }
    ensures many { length bound.new ≡ length bound.old }
    ensures writes { OnOk result (Grew (S.told store.old) (S.told store.new) (Writes file)) }
    ensures breaks { IfErr result (λ why. Grew (S.told store.old) (S.told store.new) (BreaksWriting file why)) }
    ensures unchanged { (n end : ℕ) → result ≡ Err (Stop.Changed n end) → ⊥ }
    ensures failed { result ≡ Err Stop.Failed → Rises 1 (S.faults store.old) (S.faults store.new) }
    ensures later { S.faults store.old ≤ S.faults store.new }
    ensures given { S.given store.new ≡ S.given store.old }
{
    let number = board.begun();
    let source = bound.fewest();
    bound.bind(source);
    let first = match begin_slice(alloc, store, file, board, slice, source) {
        Ok(first) => first,
        Err(why) => return Err(why),
    };
    match first {
        First::Made => Ok(()),
        First::Reads { offset, buf } => {
            match ask_read(handles, board, source, number, offset, buf.into_vec()) {
                Ok(()) => Ok(()),
                Err(_) => Err(Stop::NoMemory),
            }
        }
    }
}

/// The windows before any extent was told. Where none can be asked for, all of the source is planned as bytes.
fn first_windows(alloc: Global, terms: Terms, extents: bool) -> Result<Windows, NoMemory>
    requires cells { (0 < terms.cell) × (0 < terms.zero_cell) × (0 < terms.grain) }
    requires size { terms.size ≤ 2 ^ 63 }
    ensures planned { IfOk result (λ windows. (zero : ℕ → Bool) → IsPlanned windows zero []) }
    ensures size { IfOk result (λ windows. windows.size ≡ terms.size) }
    ensures grain { IfOk result (λ windows. windows.grain ≡ terms.grain) }
    ensures cells { IfOk result (λ windows. windows.plan.cells ≡ cells_of terms) }
    ensures heard { IfOk result (λ windows. IsHeardTo windows anywhere) }
    ensures reached { IfOk result (λ windows. (reach : ℕ → Bool) → ((p : ℕ) → reach p ≡ false) → IsToldTo windows reach) }
    ensures at { IfOk result (λ windows. extents ≡ true → windows.at ≡ 0) }
{
    let mut windows = Windows::new(alloc, terms);
    if extents {
        return Ok(windows);
    }
    windows.plan_rest()?;
    Ok(windows)
}
