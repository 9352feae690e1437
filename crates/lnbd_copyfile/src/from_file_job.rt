//! What is under way in a copy from a file to an export whose connections stand: slices begin and go on, and in the end the export is flushed
//! and all connections part. How bytes move is not known here.

ghost use Rattle.std.specs.Prelude.{◌≡◌, ◌≢◌, ◌<◌, ◌≤◌, ◌^◌, ℕ, Err, IfErr, IfOk, List, None, OnOk, Some, [], false, length, true};
ghost use Rattle.lnbd_link.specs.Count.{Rises};
ghost use Rattle.lnbd_board.specs.Files.{Seen as Kept};
ghost use Rattle.lnbd_board.specs.declared.ticket.Ticket.{Ticket as Tag};
ghost use Rattle.lnbd_poll.specs.Held.{Held};
ghost use Rattle.lnbd_board.specs.Rows.{busy};
ghost use Rattle.lnbd_connections.specs.Steps.{Parts};
ghost use Rattle.lnbd_connections.specs.Way.{Way};
ghost use Rattle.lnbd_touched.specs.Grown.{Grew};
ghost use Rattle.lnbd_touched.specs.Parts.{IsShort};
ghost use Rattle.lnbd_touched.specs.Touches.{Touches};
ghost use Rattle.lnbd_conduct.specs.Slices.{cells_of};
ghost use Rattle.lnbd_copy.specs.Dealt.{IsDealt};
ghost use Rattle.lnbd_copyfile.specs.Causes.{IsChanged};
ghost use Rattle.lnbd_copyfile.specs.OneFile.{BreaksReading, Reads};
ghost use Rattle.lnbd_copy.specs.Links.{HaveSameLinks};

use crate::between::Source;
use crate::fault::Stop;
use crate::forgetting::forget;
use crate::holes::extent_at;
use crate::sending::Bindings;
use lnbd_board::{Board, Ticket};
use lnbd_conduct::Terms;
use lnbd_connections::{ask_flush, part};
use lnbd_copy::Windows;
use lnbd_model::NoMemory;
use lnbd_poll::Handles;
use lnbd_store::Store;
use std::alloc::Global;
use std::marker::Model;

/// The connection that is asked to flush.
const FIRST: usize = 0;

/// The most parts of a file that it tells before the connections take their next turn.
const PARTS: u64 = 1024;

/// What a copy is at.
#[derive(Clone, Copy, Debug, PartialEq, Eq)]
enum Phase {
    /// Slices are copied.
    Copying,
    /// All are over, and the export is flushed.
    Flushing,
    /// The connections part.
    Parting,
}

/// What is under way.
#[derive(Drop)]
pub(crate) struct FromFileJob {
    terms: Terms,
    windows: Windows,
    bindings: Bindings,
    phase: Phase,
}

impl Model for FromFileJob {
    ghost use Rattle.lnbd_copyfile.specs.FromFileJob.{IsSettled, Seen};

    ghost Value = { Seen };

    ghost view = { λ j. record { terms = j.terms; windows = j.windows; phase = j.phase; bound = j.bindings } };

    ghost invariant = { λ j. IsSettled j.terms j.windows };
}

impl FromFileJob {
    ghost use Rattle.lnbd_copyfile.specs.declared.from_file_job.Phase.TheVariants as phase;
    ghost use Rattle.lnbd_copyfile.specs.Binding.{Spreads};
    ghost use Rattle.lnbd_copyfile.specs.FromFileJob.{Acts, Concludes, IsJob, IsOver};
    ghost use Rattle.lnbd_copyfile.specs.Holes.{nowhere};
    ghost use Rattle.lnbd_copyfile.specs.Sent.{HasNothingToSend};

    /// No slice is begun or planned yet.
    #[tactic(auto, using(crate::proofs::DealtLemmas::dealt_begins))]
    pub(crate) fn new(alloc: Global, terms: Terms) -> Result<FromFileJob, NoMemory>
        requires cells { (0 < terms.cell) × (0 < terms.zero_cell) × (0 < terms.grain) }
        requires size { terms.size ≤ 2 ^ 63 }
        ensures terms { IfOk result (λ job. job.terms ≡ terms) }
        ensures ends { IfOk result (λ job. job.windows.size ≡ job.terms.size) }
        ensures copying { IfOk result (λ job. job.phase ≡ phase.Copying) }
        ensures dealt { IfOk result (λ job. IsDealt terms.limit terms.sides.destination job.bound []) }
        ensures begins { IfOk result (λ job. (way : Way) (now : Kept) (room : ℕ) → way.size ≡ Some room → terms.size ≤ room → way.how ≡ terms.how → now.how ≡ terms.how → way.slices ≡ [] →
            way.asked ≡ None → now.flushing ≡ false → IsJob job nowhere way now) }
    {
        let bindings = Bindings::new(alloc, terms.sides.destination)?;
        Ok(FromFileJob {
            terms,
            windows: Windows::new(alloc, terms),
            bindings,
            phase: Phase::Copying,
        })
    }

    /// The file's size in bytes.
    pub(crate) fn size(&self) -> u64
        ensures { result ≡ self.now.terms.size }
    {
        self.terms.size
    }

    /// Whether the connections part.
    pub(crate) fn is_parting(&self) -> bool
        ensures { result ≡ true → self.now.phase ≡ phase.Parting }
    {
        matches!(self.phase, Phase::Parting)
    }

    /// Asks for whatever can be asked for now, and reads what begins. Whether anything was, or the copy went on in another way: what the connections
    /// noted meanwhile is then forgotten.
    ///
    /// On a fault some requests may have been made, and the copy is to end.
    #[tactic(auto, using(lnbd_copy::proofs::LinkLemmas::same_none, lnbd_copy::proofs::LinkLemmas::same_then))]
    pub(crate) fn act<S: Store>(
        &mut self,
        alloc: Global,
        handles: &mut Handles<Ticket>,
        board: &mut Board,
        store: &mut S,
        file: u32,
    ) -> Result<bool, Stop>
        requires how { board.old.how ≡ self.old.terms.how }
        ensures links { HaveSameLinks handles.old handles.new }
        ensures kept { IfOk result (λ acted. acted ≡ false → handles.new ≡ handles.old) }
        ensures acts { OnOk result (Acts file self.old self.new board.old board.new handles.old handles.new (S.shelf store.old) (S.shelf store.new) (S.given store.old) (S.given store.new)) }
        ensures waits { IfOk result (λ acted. acted ≡ false → self.new.phase ≡ phase.Copying → HasNothingToSend self.new board.new) }
        ensures most { OnOk result (length board.old.rows ≤ self.old.terms.limit → length board.new.rows ≤ self.old.terms.limit) }
        ensures spread { OnOk result (Spreads self.old self.new board.old board.new) }
        ensures ends { self.new.windows.size ≡ self.old.windows.size }
        ensures terms { self.new.terms ≡ self.old.terms }
        ensures how { OnOk result (board.new.how ≡ board.old.how) }
        ensures reads { OnOk result (Grew (S.told store.old) (S.told store.new) (Reads file)) }
        ensures breaks { IfErr result (λ why. Grew (S.told store.old) (S.told store.new) (BreaksReading file self.old.terms.size why)) }
        ensures short { IfErr result (λ why. IsChanged why → Touches file (IsShort self.old.terms.size) (S.shelf store.old) (S.shelf store.new)) }
        ensures failed { result ≡ Err Stop.Failed → Rises 1 (S.faults store.old) (S.faults store.new) }
        ensures later { S.faults store.old ≤ S.faults store.new }
        ensures taken { S.taken store.new ≡ S.taken store.old }
    {
        match self.proceed(alloc, handles, board, store, file) {
            Ok(true) => {
                forget(handles);
                Ok(true)
            }
            Ok(false) => Ok(false),
            Err(why) => Err(why),
        }
    }

    /// Slices are copied, the flush is waited for, or nothing is asked any more. Whether anything was asked, or the copy went on in another way.
    #[tactic(auto, using(lnbd_copy::proofs::LinkLemmas::same_none, lnbd_copy::proofs::LinkLemmas::same_then, crate::proofs::DealtLemmas::spreads_none))]
    fn proceed<S: Store>(
        &mut self,
        alloc: Global,
        handles: &mut Handles<Ticket>,
        board: &mut Board,
        store: &mut S,
        file: u32,
    ) -> Result<bool, Stop>
        requires how { board.old.how ≡ self.old.terms.how }
        ensures links { HaveSameLinks handles.old handles.new }
        ensures kept { IfOk result (λ acted. acted ≡ false → handles.new ≡ handles.old) }
        ensures acts { OnOk result (Acts file self.old self.new board.old board.new handles.old handles.new (S.shelf store.old) (S.shelf store.new) (S.given store.old) (S.given store.new)) }
        ensures waits { IfOk result (λ acted. acted ≡ false → self.new.phase ≡ phase.Copying → HasNothingToSend self.new board.new) }
        ensures most { OnOk result (length board.old.rows ≤ self.old.terms.limit → length board.new.rows ≤ self.old.terms.limit) }
        ensures spread { OnOk result (Spreads self.old self.new board.old board.new) }
        ensures ends { self.new.windows.size ≡ self.old.windows.size }
        ensures terms { self.new.terms ≡ self.old.terms }
        ensures how { OnOk result (board.new.how ≡ board.old.how) }
        ensures reads { OnOk result (Grew (S.told store.old) (S.told store.new) (Reads file)) }
        ensures breaks { IfErr result (λ why. Grew (S.told store.old) (S.told store.new) (BreaksReading file self.old.terms.size why)) }
        ensures short { IfErr result (λ why. IsChanged why → Touches file (IsShort self.old.terms.size) (S.shelf store.old) (S.shelf store.new)) }
        ensures failed { result ≡ Err Stop.Failed → Rises 1 (S.faults store.old) (S.faults store.new) }
        ensures later { S.faults store.old ≤ S.faults store.new }
        ensures taken { S.taken store.new ≡ S.taken store.old }
    {
        match self.phase {
            Phase::Copying => self.copy(alloc, handles, board, store, file),
            Phase::Flushing => Ok(self.flushed(handles, board)),
            Phase::Parting => Ok(false),
        }
    }

    /// Slices go on and begin, and more of the file is planned; once all are over, the flush is asked for, or the end.
    #[tactic(auto, using(lnbd_copy::proofs::LinkLemmas::same_none, lnbd_copy::proofs::LinkLemmas::same_then))]
    fn copy<S: Store>(
        &mut self,
        alloc: Global,
        handles: &mut Handles<Ticket>,
        board: &mut Board,
        store: &mut S,
        file: u32,
    ) -> Result<bool, Stop>
        requires how { board.old.how ≡ self.old.terms.how }
        requires copying { self.old.phase ≡ phase.Copying }
        ensures links { HaveSameLinks handles.old handles.new }
        ensures kept { IfOk result (λ acted. acted ≡ false → handles.new ≡ handles.old) }
        ensures acts { OnOk result (Acts file self.old self.new board.old board.new handles.old handles.new (S.shelf store.old) (S.shelf store.new) (S.given store.old) (S.given store.new)) }
        ensures waits { IfOk result (λ acted. acted ≡ false → HasNothingToSend self.new board.new) }
        ensures most { OnOk result (length board.old.rows ≤ self.old.terms.limit → length board.new.rows ≤ self.old.terms.limit) }
        ensures spread { OnOk result (Spreads self.old self.new board.old board.new) }
        ensures ends { self.new.windows.size ≡ self.old.windows.size }
        ensures terms { self.new.terms ≡ self.old.terms }
        ensures how { OnOk result (board.new.how ≡ board.old.how) }
        ensures reads { OnOk result (Grew (S.told store.old) (S.told store.new) (Reads file)) }
        ensures breaks { IfErr result (λ why. Grew (S.told store.old) (S.told store.new) (BreaksReading file self.old.terms.size why)) }
        ensures short { IfErr result (λ why. IsChanged why → Touches file (IsShort self.old.terms.size) (S.shelf store.old) (S.shelf store.new)) }
        ensures failed { result ≡ Err Stop.Failed → Rises 1 (S.faults store.old) (S.faults store.new) }
        ensures later { S.faults store.old ≤ S.faults store.new }
        ensures taken { S.taken store.new ≡ S.taken store.old }
    {
        let sent = match self.send(alloc, handles, board, store, file) {
            Ok(sent) => sent,
            Err(why) => return Err(why),
        };
        let heard = match self.hear(store, file) {
            Ok(heard) => heard,
            Err(_) => return Err(Stop::NoMemory),
        };
        if !self.is_over(board) {
            return Ok(sent || heard);
        }
        match self.conclude(handles, board) {
            Ok(()) => Ok(true),
            Err(_) => Err(Stop::NoMemory),
        }
    }

    /// Slices go on and begin. Whether there were any.
    #[tactic(auto, using(lnbd_copy::proofs::LinkLemmas::same_none, lnbd_copy::proofs::LinkLemmas::same_then))]
    fn send<S: Store>(
        &mut self,
        alloc: Global,
        handles: &mut Handles<Ticket>,
        board: &mut Board,
        store: &mut S,
        file: u32,
    ) -> Result<bool, Stop>
        requires how { board.old.how ≡ self.old.terms.how }
        requires copying { self.old.phase ≡ phase.Copying }
        ensures links { HaveSameLinks handles.old handles.new }
        ensures kept { IfOk result (λ sent. sent ≡ false → handles.new ≡ handles.old) }
        ensures acts { OnOk result (Acts file self.old self.new board.old board.new handles.old handles.new (S.shelf store.old) (S.shelf store.new) (S.given store.old) (S.given store.new)) }
        ensures waits { IfOk result (λ sent. sent ≡ false → (board.new.came ≡ []) × (length board.new.rows < self.new.terms.limit → length self.new.windows.plan.slices ≡ 0)) }
        ensures most { OnOk result (length board.old.rows ≤ self.old.terms.limit → length board.new.rows ≤ self.old.terms.limit) }
        ensures spread { OnOk result (Spreads self.old self.new board.old board.new) }
        ensures ends { self.new.windows.size ≡ self.old.windows.size }
        ensures terms { self.new.terms ≡ self.old.terms }
        ensures phase { self.new.phase ≡ self.old.phase }
        ensures how { OnOk result (board.new.how ≡ board.old.how) }
        ensures reads { OnOk result (Grew (S.told store.old) (S.told store.new) (Reads file)) }
        ensures breaks { IfErr result (λ why. Grew (S.told store.old) (S.told store.new) (BreaksReading file self.old.terms.size why)) }
        ensures short { IfErr result (λ why. IsChanged why → Touches file (IsShort self.old.terms.size) (S.shelf store.old) (S.shelf store.new)) }
        ensures failed { result ≡ Err Stop.Failed → Rises 1 (S.faults store.old) (S.faults store.new) }
        ensures later { S.faults store.old ≤ S.faults store.new }
        ensures taken { S.taken store.new ≡ S.taken store.old }
    {
        let source = Source {
            file,
            size: self.terms.size,
        };
        self.bindings.send(
            alloc,
            handles,
            board,
            store,
            source,
            &mut self.windows,
            self.terms.limit,
        )
    }

    /// Where no planned slice is left the file tells what comes next of it, until a slice is planned, all of it is told, or it told so many parts that
    /// the connections are to take a turn first. Whether anything was told.
    fn hear<S: Store>(&mut self, store: &mut S, file: u32) -> Result<bool, NoMemory>
        requires copying { self.old.phase ≡ phase.Copying }
        ensures acts { OnOk result ((now : Kept) (held : List (Held Tag)) → Acts file self.old self.new now now held held (S.shelf store.old) (S.shelf store.new) (S.given store.old)
            (S.given store.new)) }
        ensures others { self.new ≡ record self.old { windows = self.new.windows } }
        ensures ends { self.new.windows.size ≡ self.old.windows.size }
        ensures still { IfOk result (λ heard. heard ≡ false → self.new ≡ self.old) }
        ensures planned { IfOk result (λ heard. heard ≡ false → length self.new.windows.plan.slices ≡ 0 → self.new.terms.size ≤ self.new.windows.plan.end) }
        ensures reads { Grew (S.told store.old) (S.told store.new) (Reads file) }
        ensures faults { S.faults store.new ≡ S.faults store.old }
        ensures given { S.given store.new ≡ S.given store.old }
        ensures taken { S.taken store.new ≡ S.taken store.old }
    {
        let mut heard = false;
        'parts: for _ in 0..PARTS {
            if !self.hear_part(store, file)? {
                return Ok(heard);
            }
            heard = true;
        }
        Ok(true)
    }

    /// Where no planned slice is left the file tells the next part of it, zeros or bytes, and a window that is told whole is planned. Whether anything was
    /// told.
    #[tactic(auto, using(crate::proofs::FromFileJobLemmas::acts_none))]
    fn hear_part<S: Store>(&mut self, store: &mut S, file: u32) -> Result<bool, NoMemory>
        requires copying { self.old.phase ≡ phase.Copying }
        ensures acts { OnOk result ((now : Kept) (held : List (Held Tag)) → Acts file self.old self.new now now held held (S.shelf store.old) (S.shelf store.new) (S.given store.old)
            (S.given store.new)) }
        ensures others { self.new ≡ record self.old { windows = self.new.windows } }
        ensures ends { self.new.windows.size ≡ self.old.windows.size }
        ensures still { IfOk result (λ heard. heard ≡ false → self.new ≡ self.old) }
        ensures planned { IfOk result (λ heard. heard ≡ false → length self.new.windows.plan.slices ≡ 0 → self.new.terms.size ≤ self.new.windows.plan.end) }
        ensures reads { Grew (S.told store.old) (S.told store.new) (Reads file) }
        ensures faults { S.faults store.new ≡ S.faults store.old }
        ensures given { S.given store.new ≡ S.given store.old }
        ensures taken { S.taken store.new ≡ S.taken store.old }
    {
        if self.windows.left() != 0 {
            return Ok(false);
        }
        match self.windows.wanted() {
            None => Ok(false),
            Some(wanted) => {
                let told = [extent_at(store, file, wanted.offset)];
                self.windows.hear(&told)?;
                Ok(true)
            }
        }
    }

    /// Whether all slices of the file are over.
    fn is_over(&self, board: &Board) -> bool
        ensures over { result ≡ true → IsOver self.now board.now }
        ensures quiet { board.now.came ≡ [] → busy board.now.rows ≡ length board.now.rows }
    {
        let count = board.count();
        self.windows.are_planned() && self.windows.left() == 0 && count == 0
    }

    /// Asks for the flush, where it is wanted, or else for the end.
    #[tactic(auto, using(lnbd_copy::proofs::LinkLemmas::same_none, lnbd_copy::proofs::LinkLemmas::same_then))]
    fn conclude(&mut self, handles: &mut Handles<Ticket>, board: &mut Board) -> Result<(), NoMemory>
        requires copying { self.old.phase ≡ phase.Copying }
        requires over { IsOver self.old board.old }
        ensures links { HaveSameLinks handles.old handles.new }
        ensures concludes { OnOk result (Concludes self.old self.new board.old board.new handles.old handles.new) }
        ensures rows { OnOk result (board.new.rows ≡ board.old.rows) }
        ensures spread { OnOk result (Spreads self.old self.new board.old board.new) }
        ensures ends { self.new.windows.size ≡ self.old.windows.size }
        ensures terms { self.new.terms ≡ self.old.terms }
        ensures how { OnOk result (board.new.how ≡ board.old.how) }
    {
        if self.terms.flush {
            ask_flush(handles, board, FIRST)?;
            self.phase = Phase::Flushing;
            return Ok(());
        }
        self.leave(handles);
        Ok(())
    }

    /// Asks for the end, where the flush was answered. Whether it was.
    #[tactic(auto, using(lnbd_copy::proofs::LinkLemmas::same_none, lnbd_copy::proofs::LinkLemmas::same_then, crate::proofs::DealtLemmas::spreads_none))]
    fn flushed(&mut self, handles: &mut Handles<Ticket>, board: &Board) -> bool
        requires flushing { self.old.phase ≡ phase.Flushing }
        ensures links { HaveSameLinks handles.old handles.new }
        ensures kept { result ≡ false → handles.new ≡ handles.old }
        ensures concludes { Concludes self.old self.new board.now board.now handles.old handles.new }
        ensures waits { result ≡ false → self.new ≡ self.old }
        ensures spread { Spreads self.old self.new board.now board.now }
        ensures ends { self.new.windows.size ≡ self.old.windows.size }
        ensures terms { self.new.terms ≡ self.old.terms }
    {
        if !board.is_flushed() {
            return false;
        }
        self.leave(handles);
        true
    }

    /// Asks for the end of all connections.
    #[tactic(auto, using(lnbd_copy::proofs::LinkLemmas::same_none, lnbd_copy::proofs::LinkLemmas::same_then))]
    fn leave(&mut self, handles: &mut Handles<Ticket>)
        ensures links { HaveSameLinks handles.old handles.new }
        ensures parts { (now : Kept) → Parts now handles.old handles.new }
        ensures others { self.new ≡ record self.old { phase = phase.Parting } }
    {
        part(handles);
        self.phase = Phase::Parting;
    }
}
