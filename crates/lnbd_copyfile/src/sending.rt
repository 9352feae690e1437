//! The slices of a copy from a file: each is read as it begins, unless it counts as zero, and what it asks for goes to the connections of the export. When a copy turns, and
//! when it ends, is not known here.

ghost use Rattle.std.specs.Prelude.{◌≡◌, ◌+◌, ◌-◌, ◌<◌, ◌≤◌, ◌^◌, ℕ, [], Err, IfErr, IfOk, List, OnOk, false, length, not, replicate, slice_index, slice_set, true};
ghost use Rattle.lnbd_link.specs.Count.{Rises};
ghost use Rattle.lnbd_poll.specs.Held.{Held};
ghost use Rattle.lnbd_board.specs.Board.{risen};
ghost use Rattle.lnbd_board.specs.declared.ticket.Ticket.{Ticket as Tag};
ghost use Rattle.lnbd_touched.specs.Grown.{Grew};
ghost use Rattle.lnbd_touched.specs.Parts.{IsShort};
ghost use Rattle.lnbd_touched.specs.Touches.{Touches};
ghost use Rattle.lnbd_board.specs.Bound.{IsFewest};
ghost use Rattle.lnbd_copyfile.specs.Binding.{Deals};
ghost use Rattle.lnbd_copyfile.specs.Causes.{IsChanged};
ghost use Rattle.lnbd_copyfile.specs.OneFile.{BreaksReading, Reads};
ghost use Rattle.lnbd_copyfile.specs.Sending.{BeginsOne, PassesOn, Sends};
ghost use Rattle.lnbd_copy.specs.Links.{HaveSameLinks};

use crate::between::Source;
use crate::fault::Stop;
use crate::loading::load_slice;
use lnbd_board::{Board, Bound, Next, Ticket};
use lnbd_connections::ask_change;
use lnbd_copy::Windows;
use lnbd_model::NoMemory;
use lnbd_plan::Slice;
use lnbd_poll::Handles;
use lnbd_store::Store;
use std::alloc::Global;
use std::marker::Model;

/// A file has one connection, as it were: slices are bound to it by this number.
const FILE: usize = 0;

/// The slices that are bound to the connections of the export. Contracts see how many are bound to each.
#[derive(Drop)]
pub(crate) struct Bindings {
    connections: usize,
    bound: Bound,
}

impl Model for Bindings {
    ghost use Rattle.std.specs.Prelude.{◌≡◌, ◌<◌, List, length, ℕ};

    ghost Value = { List ℕ };

    ghost view = { λ b. b.bound };

    ghost invariant = { λ b. (length b.bound ≡ b.connections) × (0 < b.connections) };
}

impl Bindings {
    /// No slice is bound to any of so many connections. That there are none would count as want of memory.
    pub(crate) fn new(alloc: Global, connections: u32) -> Result<Bindings, NoMemory>
        ensures { IfOk result (λ bindings. bindings ≡ replicate connections 0) }
    {
        if connections == 0 {
            return Err(NoMemory);
        }
        Ok(Bindings {
            connections: connections as usize,
            bound: Bound::new(alloc, connections as usize)?,
        })
    }

    /// The connection to which the fewest slices are bound.
    fn fewest(&self) -> usize
        ensures held { result < length self.now }
        ensures fewest { IsFewest self.now result }
    {
        self.bound.fewest()
    }

    /// A slice is bound to a connection.
    fn bind(&mut self, connection: usize)
        requires { connection < length self.old }
        ensures { self.new ≡ slice_set self.old connection (risen (slice_index self.old connection) 1) }
    {
        self.bound.bind(connection);
    }

    /// A slice is over that was bound to a connection. It is looked at, since a board does not know how many there are.
    fn release(&mut self, connection: usize)
        ensures { connection < length self.old → self.new ≡ slice_set self.old connection (slice_index self.old connection - 1) }
    {
        if connection < self.connections {
            self.bound.release(connection);
        }
    }

    /// Asks the export what comes next of the slice that something came for first. Whether there was one.
    #[tactic(auto, using(lnbd_copy::proofs::LinkLemmas::same_none, lnbd_copy::proofs::LinkLemmas::same_then))]
    fn go_on_once(
        &mut self,
        alloc: Global,
        handles: &mut Handles<Ticket>,
        board: &mut Board,
    ) -> Result<bool, NoMemory>
        ensures links { HaveSameLinks handles.old handles.new }
        ensures kept { IfOk result (λ went. went ≡ false → handles.new ≡ handles.old) }
        ensures passes { OnOk result (PassesOn board.old board.new handles.old handles.new) }
        ensures deals { OnOk result ((limit : ℕ) → Deals limit self.old self.new board.old board.new) }
        ensures fewer { OnOk result (length board.new.rows ≤ length board.old.rows) }
        ensures still { IfOk result (λ went. went ≡ false → (board.old.came ≡ []) × (board.new ≡ board.old)) }
    {
        let next = board.next(alloc)?;
        match next {
            Next::Nothing => Ok(false),
            Next::Over {
                slice: _,
                source: _,
                destination,
            } => {
                self.release(destination);
                Ok(true)
            }
            Next::Asks {
                slice,
                destination,
                change,
            } => {
                ask_change(handles, board, destination, slice, change)?;
                Ok(true)
            }
        }
    }

    /// Asks the export what comes next of all slices that something came for. Whether there were any. If that came to no end it would count as
    /// want of memory.
    #[tactic(auto, using(lnbd_copy::proofs::LinkLemmas::same_none, lnbd_copy::proofs::LinkLemmas::same_then))]
    fn go_on(
        &mut self,
        alloc: Global,
        handles: &mut Handles<Ticket>,
        board: &mut Board,
    ) -> Result<bool, NoMemory>
        ensures links { HaveSameLinks handles.old handles.new }
        ensures kept { IfOk result (λ went. went ≡ false → handles.new ≡ handles.old) }
        ensures passes { OnOk result (PassesOn board.old board.new handles.old handles.new) }
        ensures deals { OnOk result ((limit : ℕ) → Deals limit self.old self.new board.old board.new) }
        ensures fewer { OnOk result (length board.new.rows ≤ length board.old.rows) }
        ensures none { OnOk result (board.new.came ≡ []) }
        ensures still { IfOk result (λ went. went ≡ false → board.new ≡ board.old) }
    {
        let mut went = false;
        'slices: for _ in 0..u64::MAX {
            if !self.go_on_once(alloc, handles, board)? {
                return Ok(went);
            }
            went = true;
        }
        Err(NoMemory)
    }

    /// Begins a slice, bound to the connection to which the fewest are, and reads it, unless it counts as zero.
    fn begin_one<S: Store>(
        &mut self,
        alloc: Global,
        handles: &mut Handles<Ticket>,
        board: &mut Board,
        store: &mut S,
        source: Source,
        slice: Slice,
    ) -> Result<(), Stop>
        requires room { slice.start + slice.length ≤ 2 ^ 63 }
        requires copied { slice.zero ≡ true → board.old.how.skip ≡ false }
        ensures links { HaveSameLinks handles.old handles.new }
        ensures begins { OnOk result (BeginsOne source.file slice board.old board.new handles.old handles.new (S.shelf store.old) (S.shelf store.new) (S.given store.old) (S.given store.new)) }
        ensures deals { OnOk result ((limit : ℕ) → limit < 2 ^ 64 → length board.old.rows < limit → Deals limit self.old self.new board.old board.new) }
        ensures more { OnOk result (length board.new.rows ≡ length board.old.rows + 1) }
        ensures reads { OnOk result (Grew (S.told store.old) (S.told store.new) (Reads source.file)) }
        ensures breaks { IfErr result (λ why. Grew (S.told store.old) (S.told store.new) (BreaksReading source.file source.size why)) }
        ensures short { IfErr result (λ why. IsChanged why → Touches source.file (IsShort source.size) (S.shelf store.old) (S.shelf store.new)) }
        ensures failed { result ≡ Err Stop.Failed → Rises 1 (S.faults store.old) (S.faults store.new) }
        ensures later { S.faults store.old ≤ S.faults store.new }
        ensures taken { S.taken store.new ≡ S.taken store.old }
    {
        let destination = self.fewest();
        match load_slice(
            alloc,
            handles,
            store,
            source.file,
            source.size,
            board,
            slice,
            FILE,
            destination,
        ) {
            Ok(()) => {
                self.bind(destination);
                Ok(())
            }
            Err(why) => Err(why),
        }
    }

    /// Begins the next slice that is planned, if there is one. Whether there was.
    #[tactic(auto, using(crate::proofs::DealtLemmas::deals_none, lnbd_copy::proofs::LinkLemmas::same_none))]
    fn begin_next<S: Store>(
        &mut self,
        alloc: Global,
        handles: &mut Handles<Ticket>,
        board: &mut Board,
        store: &mut S,
        source: Source,
        windows: &mut Windows,
    ) -> Result<bool, Stop>
        requires zeros { windows.old.plan.cells.zeros ≡ not board.old.how.skip }
        ensures windows { windows.new ≡ record windows.old { plan = record windows.old.plan { slices = windows.new.plan.slices } } }
        ensures links { HaveSameLinks handles.old handles.new }
        ensures kept { IfOk result (λ begun. begun ≡ false → handles.new ≡ handles.old) }
        ensures begins { OnOk result (Sends source.file windows.old windows.new board.old board.new handles.old handles.new (S.shelf store.old) (S.shelf store.new) (S.given store.old)
            (S.given store.new)) }
        ensures deals { OnOk result ((limit : ℕ) → limit < 2 ^ 64 → length board.old.rows < limit → Deals limit self.old self.new board.old board.new) }
        ensures more { IfOk result (λ begun. begun ≡ true → length board.new.rows ≡ length board.old.rows + 1) }
        ensures still { IfOk result (λ begun. begun ≡ false → board.new ≡ board.old) }
        ensures none { IfOk result (λ begun. begun ≡ false → length windows.new.plan.slices ≡ 0) }
        ensures reads { OnOk result (Grew (S.told store.old) (S.told store.new) (Reads source.file)) }
        ensures breaks { IfErr result (λ why. Grew (S.told store.old) (S.told store.new) (BreaksReading source.file source.size why)) }
        ensures short { IfErr result (λ why. IsChanged why → Touches source.file (IsShort source.size) (S.shelf store.old) (S.shelf store.new)) }
        ensures failed { result ≡ Err Stop.Failed → Rises 1 (S.faults store.old) (S.faults store.new) }
        ensures later { S.faults store.old ≤ S.faults store.new }
        ensures taken { S.taken store.new ≡ S.taken store.old }
    {
        match windows.next() {
            None => Ok(false),
            Some(slice) => match self.begin_one(alloc, handles, board, store, source, slice) {
                Ok(()) => Ok(true),
                Err(why) => Err(why),
            },
        }
    }

    /// Begins planned slices, up to as many as may be under way. Whether there were any.
    #[tactic(auto, using(lnbd_copy::proofs::LinkLemmas::same_none, lnbd_copy::proofs::LinkLemmas::same_then))]
    fn begin<S: Store>(
        &mut self,
        alloc: Global,
        handles: &mut Handles<Ticket>,
        board: &mut Board,
        store: &mut S,
        source: Source,
        windows: &mut Windows,
        limit: u64,
    ) -> Result<bool, Stop>
        requires zeros { windows.old.plan.cells.zeros ≡ not board.old.how.skip }
        ensures windows { windows.new ≡ record windows.old { plan = record windows.old.plan { slices = windows.new.plan.slices } } }
        ensures links { HaveSameLinks handles.old handles.new }
        ensures kept { IfOk result (λ begun. begun ≡ false → handles.new ≡ handles.old) }
        ensures begins { OnOk result (Sends source.file windows.old windows.new board.old board.new handles.old handles.new (S.shelf store.old) (S.shelf store.new) (S.given store.old)
            (S.given store.new)) }
        ensures deals { OnOk result (Deals limit self.old self.new board.old board.new) }
        ensures full { IfOk result (λ begun. begun ≡ false → length board.new.rows < limit → length windows.new.plan.slices ≡ 0) }
        ensures most { OnOk result (length board.old.rows ≤ limit → length board.new.rows ≤ limit) }
        ensures reads { OnOk result (Grew (S.told store.old) (S.told store.new) (Reads source.file)) }
        ensures breaks { IfErr result (λ why. Grew (S.told store.old) (S.told store.new) (BreaksReading source.file source.size why)) }
        ensures short { IfErr result (λ why. IsChanged why → Touches source.file (IsShort source.size) (S.shelf store.old) (S.shelf store.new)) }
        ensures failed { result ≡ Err Stop.Failed → Rises 1 (S.faults store.old) (S.faults store.new) }
        ensures later { S.faults store.old ≤ S.faults store.new }
        ensures taken { S.taken store.new ≡ S.taken store.old }
    {
        let mut begun = false;
        'slices: for under_way in board.count() as u64..limit {
            match self.begin_next(alloc, handles, board, store, source, windows) {
                Ok(true) => begun = true,
                Ok(false) => return Ok(begun),
                Err(why) => return Err(why),
            }
        }
        Ok(begun)
    }

    /// Slices that something came for go on, and planned ones begin, up to as many as may be under way. What was read of these has come at
    /// once, so they go on too. Whether there were any.
    #[tactic(auto, using(lnbd_copy::proofs::LinkLemmas::same_none, lnbd_copy::proofs::LinkLemmas::same_then))]
    pub(crate) fn send<S: Store>(
        &mut self,
        alloc: Global,
        handles: &mut Handles<Ticket>,
        board: &mut Board,
        store: &mut S,
        source: Source,
        windows: &mut Windows,
        limit: u64,
    ) -> Result<bool, Stop>
        requires zeros { windows.old.plan.cells.zeros ≡ not board.old.how.skip }
        ensures links { HaveSameLinks handles.old handles.new }
        ensures kept { IfOk result (λ sent. sent ≡ false → handles.new ≡ handles.old) }
        ensures windows { windows.new ≡ record windows.old { plan = record windows.old.plan { slices = windows.new.plan.slices } } }
        ensures sends { OnOk result (Sends source.file windows.old windows.new board.old board.new handles.old handles.new (S.shelf store.old) (S.shelf store.new) (S.given store.old)
            (S.given store.new)) }
        ensures deals { OnOk result (Deals limit self.old self.new board.old board.new) }
        ensures waits { IfOk result (λ sent. sent ≡ false → (board.new.came ≡ []) × (length board.new.rows < limit → length windows.new.plan.slices ≡ 0)) }
        ensures most { OnOk result (length board.old.rows ≤ limit → length board.new.rows ≤ limit) }
        ensures reads { OnOk result (Grew (S.told store.old) (S.told store.new) (Reads source.file)) }
        ensures breaks { IfErr result (λ why. Grew (S.told store.old) (S.told store.new) (BreaksReading source.file source.size why)) }
        ensures short { IfErr result (λ why. IsChanged why → Touches source.file (IsShort source.size) (S.shelf store.old) (S.shelf store.new)) }
        ensures failed { result ≡ Err Stop.Failed → Rises 1 (S.faults store.old) (S.faults store.new) }
        ensures later { S.faults store.old ≤ S.faults store.new }
        ensures taken { S.taken store.new ≡ S.taken store.old }
    {
        let Ok(went) = self.go_on(alloc, handles, board) else {
            return Err(Stop::NoMemory);
        };
        let begun = match self.begin(alloc, handles, board, store, source, windows, limit) {
            Ok(begun) => begun,
            Err(why) => return Err(why),
        };
        match self.go_on(alloc, handles, board) {
            Ok(went_on) => Ok(went || begun || went_on),
            Err(_) => Err(Stop::NoMemory),
        }
    }
}
