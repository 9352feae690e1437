//! The requests of a copy: which connection is asked for what, as the board and the plan say. When a copy turns, and when it
//! ends, is not known here.

ghost use Rattle.std.specs.Prelude.{◌≡◌, ◌+◌, ◌-◌, ◌≤◌, ◌<◌, ◌^◌, ℕ, true, false, not, [], ◌∷◌, length, replicate, slice_index, slice_set, IfOk, OnOk};
ghost use Rattle.lnbd_handle.specs.Issues.{read_of, write_of, zero_of, flush_of, block_status_of};
ghost use Rattle.lnbd_board.specs.Board.{risen};
ghost use Rattle.lnbd_board.specs.Bound.{IsFewest};
ghost use Rattle.lnbd_board.specs.declared.ticket.Ticket.TheVariants as ticket;
ghost use Rattle.lnbd_course.specs.Orders.{command_of};
ghost use Rattle.lnbd_plan.specs.declared.cells.Cells.{Cells};
ghost use Rattle.lnbd_copy.specs.Asked.{IsAsked};
ghost use Rattle.lnbd_copy.specs.Dealt.{AreDealt, Deals, HaveDealt};
ghost use Rattle.lnbd_copy.specs.Dealing.{Begins, HasBegun, HasGoneOn, IsAskedFirst, IsAskedOf};
ghost use Rattle.lnbd_copy.specs.Fewest.{AddsFewest, LeavesFewer};
ghost use Rattle.lnbd_copy.specs.Links.{HaveSameLinks};
ghost use Rattle.lnbd_copy.specs.Ready.{IsExpected, MayBegin, MayCopy, MayServe, MayTake, MayTakeFirst, StaysReady, is_measured};
ghost use Rattle.lnbd_conduct.specs.Sides.{is_source};
ghost use Rattle.lnbd_copy.specs.UnderWay.{Fills, HasBegunOne, HasLooked, HaveLooked};
ghost use Rattle.lnbd_copy.specs.Way.{Keeps};
ghost use Rattle.lnbd_copy.specs.Windows.{AllFit, IsFit};

use crate::windows::Windows;
use lnbd_board::{Ask, Board, Bound, Change, Next, Ticket};
use lnbd_conduct::{FIRST_DESTINATION, FIRST_SOURCE, Sides, Terms};
use lnbd_handle::IssueFault;
use lnbd_model::{NoMemory, Why};
use lnbd_plan::Slice;
use lnbd_poll::Handles;
use std::alloc::Global;
use std::marker::Model;

/// The slices that are bound to the connections of both sides. Contracts see how many connections there are, and how many slices
/// are bound to each.
#[derive(Drop)]
pub(crate) struct Bindings {
    sides: Sides,
    source: Bound,
    destination: Bound,
}

impl Model for Bindings {
    ghost use Rattle.std.specs.Prelude.{◌≡◌, ◌<◌, length};
    ghost use Rattle.lnbd_copy.specs.Bound.{Seen};

    ghost Value = { Seen };

    ghost view = { λ b. record { sides = b.sides; bound = record { source = b.source; destination = b.destination } } };

    ghost invariant = { λ b. (length b.source ≡ b.sides.source) × (length b.destination ≡ b.sides.destination) × (0 < b.sides.source) × (0 < b.sides.destination) };
}

/// Why a command was not issued that its handle may be asked: memory ran out; or too many are not retired, or it has no whole blocks, which
/// counts as that. No clause says yet that these don't come.
fn of_memory(fault: IssueFault<Ticket>) -> NoMemory
    requires { IsExpected fault }
{
    match fault {
        IssueFault::NoMemory {
            buf: _,
            first: _,
            done: _,
        } => NoMemory,
        IssueFault::Refused { why, buf: _ } => by_measure(why),
    }
}

/// A command that is refused by how many there are, or by its blocks.
fn by_measure(why: Why) -> NoMemory
    requires { is_measured why ≡ true }
{
    match why {
        Why::TooMany(_) | Why::Align(_) => NoMemory,
        Why::NotReady(_)
        | Why::Dead(_)
        | Why::Closing
        | Why::Unsupported(_)
        | Why::BadFlags(_)
        | Why::ZeroSize
        | Why::TooBig(_)
        | Why::Bounds(_) => unreachable!(),
    }
}

/// The cookie of a command that was taken is of no use here.
fn told(cookie: u64)
    ensures small { cookie < 2 ^ 64 }
{
    let _cookie = cookie;
}

/// Asks a connection for a change, with the ticket of its slice.
fn ask_change(
    handles: &mut Handles<Ticket>,
    board: &mut Board,
    index: usize,
    number: u64,
    change: Change,
) -> Result<(), NoMemory>
    requires held { index < length handles.old }
    requires may { MayTake index (command_of number change) handles.old }
    ensures asked { OnOk result (IsAsked index (command_of number change) handles.old handles.new) }
    ensures board { OnOk result (board.new ≡ board.old) }
    ensures links { HaveSameLinks handles.old handles.new }
{
    match change {
        Change::Write { offset, bytes } => {
            ask_write(handles, board, index, number, offset, bytes.into_vec())
        }
        Change::Zero {
            offset,
            length,
            flags,
        } => ask_zero(handles, board, index, number, offset, length, flags),
    }
}

/// Asks a connection to write bytes of a slice.
#[tactic(auto, using(crate::proofs::LinkLemmas::same_none, crate::proofs::LinkLemmas::same_with))]
fn ask_write(
    handles: &mut Handles<Ticket>,
    board: &mut Board,
    index: usize,
    number: u64,
    offset: u64,
    buf: Vec<u8>,
) -> Result<(), NoMemory>
    requires held { index < length handles.old }
    requires may { MayTake index (write_of buf.items offset (ticket.Slice number) 0) handles.old }
    ensures asked { OnOk result (IsAsked index (write_of buf.items offset (ticket.Slice number) 0) handles.old handles.new) }
    ensures board { OnOk result (board.new ≡ board.old) }
    ensures links { HaveSameLinks handles.old handles.new }
{
    let answer = handles
        .get_mut(index)
        .aio_pwrite(buf, offset, Ticket::Slice(number), 0, board);
    match answer {
        Ok(cookie) => Ok(told(cookie)),
        Err(fault) => Err(of_memory(fault)),
    }
}

/// Asks a connection to zero bytes of a slice.
#[tactic(auto, using(crate::proofs::LinkLemmas::same_none, crate::proofs::LinkLemmas::same_with))]
fn ask_zero(
    handles: &mut Handles<Ticket>,
    board: &mut Board,
    index: usize,
    number: u64,
    offset: u64,
    count: u64,
    flags: u32,
) -> Result<(), NoMemory>
    requires held { index < length handles.old }
    requires may { MayTake index (zero_of count offset (ticket.Slice number) flags) handles.old }
    ensures asked { OnOk result (IsAsked index (zero_of count offset (ticket.Slice number) flags) handles.old handles.new) }
    ensures board { OnOk result (board.new ≡ board.old) }
    ensures links { HaveSameLinks handles.old handles.new }
{
    let answer = handles
        .get_mut(index)
        .aio_zero(count, offset, Ticket::Slice(number), flags, board);
    match answer {
        Ok(cookie) => Ok(told(cookie)),
        Err(fault) => Err(of_memory(fault)),
    }
}

/// Asks a connection for the bytes of a slice.
#[tactic(auto, using(crate::proofs::LinkLemmas::same_none, crate::proofs::LinkLemmas::same_with))]
fn ask_read(
    handles: &mut Handles<Ticket>,
    board: &mut Board,
    index: usize,
    number: u64,
    offset: u64,
    buf: Vec<u8>,
) -> Result<(), NoMemory>
    requires held { index < length handles.old }
    requires may { MayTake index (read_of buf.items offset (ticket.Slice number) 0) handles.old }
    ensures asked { OnOk result (IsAsked index (read_of buf.items offset (ticket.Slice number) 0) handles.old handles.new) }
    ensures board { OnOk result (board.new ≡ board.old) }
    ensures links { HaveSameLinks handles.old handles.new }
{
    let answer = handles
        .get_mut(index)
        .aio_pread(buf, offset, Ticket::Slice(number), 0, board);
    match answer {
        Ok(cookie) => Ok(told(cookie)),
        Err(fault) => Err(of_memory(fault)),
    }
}

/// Asks the source's first connection for the extents of a range.
#[tactic(auto, using(crate::proofs::LinkLemmas::same_none, crate::proofs::LinkLemmas::same_with))]
pub(crate) fn ask_extents(
    handles: &mut Handles<Ticket>,
    board: &mut Board,
    offset: u64,
    count: u64,
) -> Result<(), NoMemory>
    requires held { 0 < length handles.old }
    requires may { MayTake 0 (block_status_of count offset ticket.Extents ticket.Extents 0) handles.old }
    ensures asked { OnOk result (IsAsked 0 (block_status_of count offset ticket.Extents ticket.Extents 0) handles.old handles.new) }
    ensures board { OnOk result (board.new ≡ record board.old { told = []; mapped = false }) }
    ensures links { HaveSameLinks handles.old handles.new }
{
    board.forget_map();
    let answer = handles
        .get_mut(FIRST_SOURCE)
        .aio_block_status(count, offset, Ticket::Extents, Ticket::Extents, 0, board);
    match answer {
        Ok(cookie) => Ok(told(cookie)),
        Err(fault) => Err(of_memory(fault)),
    }
}

/// Asks the destination's first connection to flush.
#[tactic(auto, using(crate::proofs::LinkLemmas::same_none, crate::proofs::LinkLemmas::same_with))]
pub(crate) fn ask_flush(handles: &mut Handles<Ticket>, board: &mut Board) -> Result<(), NoMemory>
    requires held { 1 < length handles.old }
    requires may { MayTake 1 (flush_of ticket.Flush 0) handles.old }
    ensures asked { OnOk result (IsAsked 1 (flush_of ticket.Flush 0) handles.old handles.new) }
    ensures board { OnOk result (board.new ≡ record board.old { flushing = true }) }
    ensures links { HaveSameLinks handles.old handles.new }
{
    board.begin_flush();
    let answer = handles
        .get_mut(FIRST_DESTINATION)
        .aio_flush(Ticket::Flush, 0, board);
    match answer {
        Ok(cookie) => Ok(told(cookie)),
        Err(fault) => Err(of_memory(fault)),
    }
}

/// Asks a connection of the destination for a change of a slice.
fn change_destination(
    handles: &mut Handles<Ticket>,
    board: &mut Board,
    sides: Sides,
    connection: usize,
    number: u64,
    change: Change,
) -> Result<(), NoMemory>
    requires here { connection < sides.destination }
    requires many { length handles.old ≡ sides.source + sides.destination }
    requires held { 0 < sides.source }
    requires may { (index : ℕ) → is_source sides index ≡ false → MayTake index (command_of number change) handles.old }
    ensures asked { OnOk result (IsAskedOf sides false connection (command_of number change) handles.old handles.new) }
    ensures board { OnOk result (board.new ≡ board.old) }
    ensures links { HaveSameLinks handles.old handles.new }
{
    let index = sides.destination(connection);
    ask_change(handles, board, index, number, change)
}

/// Asks for what comes first of a slice that is bound to these connections.
fn ask_first(
    handles: &mut Handles<Ticket>,
    board: &mut Board,
    sides: Sides,
    source: usize,
    destination: usize,
    number: u64,
    first: Ask,
) -> Result<(), NoMemory>
    requires here { destination < sides.destination }
    requires many { length handles.old ≡ sides.source + sides.destination }
    requires held { source < sides.source }
    requires may { MayTakeFirst sides number first handles.old }
    ensures asked { OnOk result (IsAskedFirst sides source destination number first handles.old handles.new) }
    ensures board { OnOk result (board.new ≡ board.old) }
    ensures links { HaveSameLinks handles.old handles.new }
{
    match first {
        Ask::Read { offset, buf } => {
            let index = sides.source(source);
            ask_read(handles, board, index, number, offset, buf.into_vec())
        }
        Ask::Change(change) => {
            change_destination(handles, board, sides, destination, number, change)
        }
    }
}

impl Bindings {
    /// No slice is bound to any of these connections.
    pub(crate) fn new(alloc: Global, terms: Terms) -> Result<Bindings, NoMemory>
        requires some { (0 < terms.sides.source) × (0 < terms.sides.destination) }
        ensures sides { IfOk result (λ bindings. bindings.sides ≡ terms.sides) }
        ensures source { IfOk result (λ bindings. bindings.bound.source ≡ replicate terms.sides.source 0) }
        ensures destination { IfOk result (λ bindings. bindings.bound.destination ≡ replicate terms.sides.destination 0) }
    {
        let sides = terms.sides;
        Ok(Bindings {
            sides,
            source: Bound::new(alloc, sides.source as usize)?,
            destination: Bound::new(alloc, sides.destination as usize)?,
        })
    }

    /// Asks what comes next of all slices that something came for. How many requests were made, and slices came to their end.
    #[tactic(auto, using(crate::proofs::FewestLemmas::fewer_none, crate::proofs::LinkLemmas::same_none, crate::proofs::LinkLemmas::same_then))]
    pub(crate) fn go_on(
        &mut self,
        alloc: Global,
        handles: &mut Handles<Ticket>,
        board: &mut Board,
    ) -> Result<usize, NoMemory>
        requires may { MayServe self.old.sides board.old.how.zeroes board.old.rows handles.old }
        requires dealt { HaveDealt self.old.sides self.old.bound board.old.rows }
        ensures sides { self.new.sides ≡ self.old.sides }
        ensures others { OnOk result (HasGoneOn board.old board.new) }
        ensures keeps { OnOk result (Keeps board.old.how self.old.sides [] board.old board.new handles.old handles.new) }
        ensures looked { OnOk result (HaveLooked board.old board.new) }
        ensures none { IfOk result (λ done. board.old.came ≡ [] → done ≡ 0) }
        ensures same { IfOk result (λ done. done ≡ 0 → board.new ≡ board.old) }
        ensures still { IfOk result (λ done. done ≡ 0 → handles.new ≡ handles.old) }
        ensures dealt { OnOk result ((limit : ℕ) → Deals limit self.old.sides self.old.bound self.new.bound board.old.rows board.new.rows) }
        ensures leaves { OnOk result (LeavesFewer board.old board.new) }
        ensures ready { OnOk result (StaysReady handles.old handles.new) }
        ensures fits { OnOk result ((size : ℕ) (cells : Cells) → AllFit size cells board.old.rows → AllFit size cells board.new.rows) }
        ensures links { HaveSameLinks handles.old handles.new }
    {
        let mut done: usize = 0;
        'slices: while self.go_on_once(alloc, handles, board)? {
            done = done.saturating_add(1);
        }
        Ok(done)
    }

    /// Asks what comes next of the slice that something came for first. Whether there was one.
    #[tactic(auto, using(crate::proofs::LinkLemmas::same_none, crate::proofs::LinkLemmas::same_then))]
    fn go_on_once(
        &mut self,
        alloc: Global,
        handles: &mut Handles<Ticket>,
        board: &mut Board,
    ) -> Result<bool, NoMemory>
        requires may { MayServe self.old.sides board.old.how.zeroes board.old.rows handles.old }
        requires dealt { HaveDealt self.old.sides self.old.bound board.old.rows }
        ensures sides { self.new.sides ≡ self.old.sides }
        ensures others { OnOk result (HasGoneOn board.old board.new) }
        ensures keeps { OnOk result (Keeps board.old.how self.old.sides [] board.old board.new handles.old handles.new) }
        ensures looked { IfOk result (λ went. HasLooked went board.old board.new) }
        ensures none { IfOk result (λ went. board.old.came ≡ [] → went ≡ false) }
        ensures fewer { IfOk result (λ went. went ≡ true → length board.new.came < length board.old.came) }
        ensures still { IfOk result (λ went. went ≡ false → handles.new ≡ handles.old) }
        ensures dealt { OnOk result ((limit : ℕ) → Deals limit self.old.sides self.old.bound self.new.bound board.old.rows board.new.rows) }
        ensures leaves { OnOk result (LeavesFewer board.old board.new) }
        ensures ready { OnOk result (StaysReady handles.old handles.new) }
        ensures fits { OnOk result ((size : ℕ) (cells : Cells) → AllFit size cells board.old.rows → AllFit size cells board.new.rows) }
        ensures links { HaveSameLinks handles.old handles.new }
    {
        let next = board.next(alloc)?;
        match next {
            Next::Nothing => Ok(false),
            Next::Over {
                slice: _,
                source,
                destination,
            } => {
                self.release(source, destination);
                Ok(true)
            }
            Next::Asks {
                slice,
                destination,
                change,
            } => {
                change_destination(handles, board, self.sides(), destination, slice, change)?;
                Ok(true)
            }
        }
    }

    /// How many connections each side has.
    fn sides(&self) -> Sides
        ensures same { result ≡ self.now.sides }
        ensures some { 0 < result.source }
    {
        self.sides
    }

    /// The connection of each side to which the fewest slices are bound.
    fn fewest(&self) -> (usize, usize)
        ensures source { result.0 < self.now.sides.source }
        ensures destination { result.1 < self.now.sides.destination }
        ensures few_of_source { IsFewest self.now.bound.source result.0 }
        ensures few_of_destination { IsFewest self.now.bound.destination result.1 }
    {
        (self.source.fewest(), self.destination.fewest())
    }

    /// A slice is bound to these connections.
    fn bind(&mut self, source: usize, destination: usize)
        requires source { source < self.old.sides.source }
        requires destination { destination < self.old.sides.destination }
        ensures sides { self.new.sides ≡ self.old.sides }
        ensures source { self.new.bound.source ≡ slice_set self.old.bound.source source (risen (slice_index self.old.bound.source source) 1) }
        ensures destination { self.new.bound.destination ≡ slice_set self.old.bound.destination destination (risen (slice_index self.old.bound.destination destination) 1) }
    {
        self.source.bind(source);
        self.destination.bind(destination);
    }

    /// A slice is over that was bound to these connections.
    fn release(&mut self, source: usize, destination: usize)
        requires source { source < self.old.sides.source }
        requires destination { destination < self.old.sides.destination }
        ensures sides { self.new.sides ≡ self.old.sides }
        ensures source { self.new.bound.source ≡ slice_set self.old.bound.source source (slice_index self.old.bound.source source - 1) }
        ensures destination { self.new.bound.destination ≡ slice_set self.old.bound.destination destination (slice_index self.old.bound.destination destination - 1) }
    {
        self.source.release(source);
        self.destination.release(destination);
    }

    /// Begins planned slices, each on the connections to which the fewest are bound, up to as many as may be under way. How
    /// many were begun.
    #[tactic(auto, using(crate::proofs::LinkLemmas::same_none, crate::proofs::LinkLemmas::same_then))]
    pub(crate) fn begin(
        &mut self,
        alloc: Global,
        handles: &mut Handles<Ticket>,
        board: &mut Board,
        windows: &mut Windows,
        limit: u64,
    ) -> Result<usize, NoMemory>
        requires zeros { windows.old.plan.cells.zeros ≡ not board.old.how.skip }
        requires may { MayBegin self.old.sides board.old.how.zeroes windows.old handles.old }
        ensures sides { self.new.sides ≡ self.old.sides }
        ensures windows { windows.new ≡ record windows.old { plan = record windows.old.plan { slices = windows.new.plan.slices } } }
        ensures begins { OnOk result (Begins board.old.how self.old.sides windows.old windows.new board.old board.new handles.old handles.new) }
        ensures fills { OnOk result (Fills limit windows.old windows.new board.old board.new) }
        ensures begun { IfOk result (λ done. board.new.begun ≡ board.old.begun → done ≡ 0) }
        ensures none { IfOk result (λ done. (length board.old.rows < limit → length windows.old.plan.slices ≡ 0) → done ≡ 0) }
        ensures still { IfOk result (λ done. done ≡ 0 → handles.new ≡ handles.old) }
        ensures dealt { OnOk result (Deals limit self.old.sides self.old.bound self.new.bound board.old.rows board.new.rows) }
        ensures fewest { OnOk result (AreDealt limit self.old.sides self.old.bound board.old.rows → AddsFewest self.old.sides board.old board.new) }
        ensures ready { OnOk result (StaysReady handles.old handles.new) }
        ensures fits { OnOk result (AllFit windows.old.size windows.old.plan.cells board.old.rows → AllFit windows.old.size windows.old.plan.cells board.new.rows) }
        ensures links { HaveSameLinks handles.old handles.new }
    {
        let mut done: usize = 0;
        'slices: for under_way in board.count() as u64..limit {
            if !self.begin_next(alloc, handles, board, windows)? {
                return Ok(done);
            }
            done = done.saturating_add(1);
        }
        Ok(done)
    }

    /// Begins the next slice that is planned, if there is one. Whether there was.
    #[tactic(auto, using(crate::proofs::FewestLemmas::all_add_none, crate::proofs::LinkLemmas::same_none, crate::proofs::LinkLemmas::same_then))]
    fn begin_next(
        &mut self,
        alloc: Global,
        handles: &mut Handles<Ticket>,
        board: &mut Board,
        windows: &mut Windows,
    ) -> Result<bool, NoMemory>
        requires zeros { windows.old.plan.cells.zeros ≡ not board.old.how.skip }
        requires may { MayBegin self.old.sides board.old.how.zeroes windows.old handles.old }
        ensures sides { self.new.sides ≡ self.old.sides }
        ensures windows { windows.new ≡ record windows.old { plan = record windows.old.plan { slices = windows.new.plan.slices } } }
        ensures begins { OnOk result (Begins board.old.how self.old.sides windows.old windows.new board.old board.new handles.old handles.new) }
        ensures next { IfOk result (λ begun. HasBegunOne begun windows.old windows.new board.old board.new) }
        ensures begun { IfOk result (λ begun. begun ≡ true → board.new.begun ≡ board.old.begun + 1) }
        ensures still { IfOk result (λ begun. begun ≡ false → handles.new ≡ handles.old) }
        ensures dealt { OnOk result ((limit : ℕ) → limit < 2 ^ 64 → length board.old.rows < limit → Deals limit self.old.sides self.old.bound self.new.bound board.old.rows board.new.rows) }
        ensures fewest { OnOk result (HaveDealt self.old.sides self.old.bound board.old.rows → AddsFewest self.old.sides board.old board.new) }
        ensures ready { OnOk result (StaysReady handles.old handles.new) }
        ensures fits { OnOk result (AllFit windows.old.size windows.old.plan.cells board.old.rows → AllFit windows.old.size windows.old.plan.cells board.new.rows) }
        ensures links { HaveSameLinks handles.old handles.new }
    {
        match windows.next() {
            None => Ok(false),
            Some(slice) => {
                self.begin_one(alloc, handles, board, slice)?;
                Ok(true)
            }
        }
    }

    /// Begins a slice, and asks for what comes first of it.
    #[tactic(auto, using(crate::proofs::LinkLemmas::same_none))]
    fn begin_one(
        &mut self,
        alloc: Global,
        handles: &mut Handles<Ticket>,
        board: &mut Board,
        slice: Slice,
    ) -> Result<(), NoMemory>
        requires room { slice.start + slice.length ≤ 2 ^ 63 }
        requires copied { slice.zero ≡ true → board.old.how.skip ≡ false }
        requires may { MayCopy self.old.sides board.old.how.zeroes slice handles.old }
        ensures sides { self.new.sides ≡ self.old.sides }
        ensures others { OnOk result (HasBegun board.old board.new) }
        ensures keeps { OnOk result (Keeps board.old.how self.old.sides (slice ∷ []) board.old board.new handles.old handles.new) }
        ensures more { OnOk result (length board.new.rows ≡ length board.old.rows + 1) }
        ensures begun { OnOk result (board.new.begun ≡ board.old.begun + 1) }
        ensures dealt { OnOk result ((limit : ℕ) → limit < 2 ^ 64 → length board.old.rows < limit → Deals limit self.old.sides self.old.bound self.new.bound board.old.rows board.new.rows) }
        ensures fewest { OnOk result (HaveDealt self.old.sides self.old.bound board.old.rows → AddsFewest self.old.sides board.old board.new) }
        ensures ready { OnOk result (StaysReady handles.old handles.new) }
        ensures fits { OnOk result ((size : ℕ) (cells : Cells) → IsFit size cells slice → AllFit size cells board.old.rows → AllFit size cells board.new.rows) }
        ensures links { HaveSameLinks handles.old handles.new }
    {
        let number = board.begun();
        let (source, destination) = self.fewest();
        let first = board.begin(alloc, slice, source, destination)?;
        self.bind(source, destination);
        ask_first(
            handles,
            board,
            self.sides(),
            source,
            destination,
            number,
            first,
        )
    }
}
