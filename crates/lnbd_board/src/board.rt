//! The board of a copy.

ghost use Rattle.std.specs.Prelude.{◌≡◌, ℕ, ◌+◌, ◌<◌, ◌≤◌, ◌^◌, ◌-◌, [], ◌∷◌, ◌++◌, true, false, not, length, slice_get, IfOk, OnOk, OnErr, OnSome, IfNone, IsSome, Some, None, if◌then◌else◌, ◌==◌};
ghost use Rattle.std.specs.VecDeque.{deque_capacity};
ghost use Rattle.lnbd_keyed.specs.Keyed.{value_at, without, IsBelow};
ghost use Rattle.lnbd_board.specs.Files.{or_error, content_first, is_reading, is_unfit, received, rows_with, came_with};
ghost use Rattle.lnbd_board.specs.Rows.{is_busy, busy};
ghost use Rattle.lnbd_board.specs.Asks.{Goes, is_over};
ghost use Rattle.lnbd_board.specs.Board.{AllSit, IsIdle, WentOn, IsOverAt, IsBoundTo, HasRoom};

use crate::advance::advance;
use crate::ask::{Ask, Change};
use crate::begin::{first_ask, stage_of};
use crate::how::How;
use crate::next::Next;
use crate::row::{Row, Stage};
use crate::spare::keep_buffer;
use crate::ticket::Ticket;
use lnbd_inflight::Table;
use lnbd_model::{Bytes, EPROTO, Extent, NoMemory};
use lnbd_plan::{Slice, Summary};
use std::alloc::Global;
use std::collections::VecDeque;
use std::marker::Model;
use std::mem;

/// The slices of a copy that are begun and not over, and what came for them. It must be spent, by `end`.
pub struct Board {
    how: How,
    rows: Table<Row>,
    // The numbers of rows that something came for, the earliest first. There is room for each row.
    came: VecDeque<u64>,
    // Buffers to be used again.
    spare: Vec<Vec<u8>>,
    begun: u64,
    error: Option<u32>,
    told: Vec<Extent>,
    short: bool,
    mapped: bool,
    flushing: bool,
    flushed: bool,
    read: u64,
    written: u64,
    zeroed: u64,
}

impl Model for Board {
    ghost use Rattle.std.specs.VecDeque.{deque_capacity};
    ghost use Rattle.lnbd_board.specs.Files.{Seen};
    ghost use Rattle.lnbd_board.specs.Board.{IsKept};

    ghost Value = { Seen };

    ghost view = { λ b. record { how = b.how; begun = b.begun; rows = b.rows.rows; came = b.came.items; error = b.error; told = b.told.items; short = b.short; mapped = b.mapped; flushing = b.flushing; flushed = b.flushed; read = b.read; written = b.written; zeroed = b.zeroed } };

    ghost invariant = { λ b. IsKept b.how b.rows.rows b.came.items (deque_capacity b.came) b.begun };
}

impl Board {
    ghost use Rattle.lnbd_board.specs.Files.{filed, Hears};
    ghost use Rattle.lnbd_board.specs.Asks.{Begins, Goes, IsFirstOf};
    ghost use Rattle.lnbd_board.specs.Board.{IsNext, begun_with, first_row};

    /// A board with no slices, of a copy that writes so. It takes no memory.
    pub fn new(alloc: Global, how: How) -> Board
        ensures { result ≡ record { how = how; begun = 0; rows = []; came = []; error = None; told = []; short = false; mapped = false; flushing = false; flushed = false; read = 0; written = 0; zeroed = 0 } }
    {
        Board {
            how,
            rows: Table::new(alloc),
            came: VecDeque::new(alloc),
            spare: Vec::new(alloc),
            begun: 0,
            error: None,
            told: Vec::new(alloc),
            short: false,
            mapped: false,
            flushing: false,
            flushed: false,
            read: 0,
            written: 0,
            zeroed: 0,
        }
    }

    /// Begins a slice, bound to these connections of both sides. It takes memory for its row, for the note that
    /// something came for it, and for its buffer where none is free.
    ///
    /// The request is to be asked with the slice's number, which is how many were begun before, on the
    /// connection that it is bound to. On `NoMemory`, also where numbers end, no slice is begun.
    pub fn begin(
        &mut self,
        alloc: Global,
        slice: Slice,
        source: usize,
        destination: usize,
    ) -> Result<Ask, NoMemory>
        requires room { slice.start + slice.length ≤ 2 ^ 63 }
        requires copied { slice.zero ≡ true → self.old.how.skip ≡ false }
        ensures ok { IfOk result (λ one. Begins self.old.how slice self.old.begun one self.old.rows self.new.rows) }
        ensures inside { IfOk result (λ one. IsFirstOf self.old.how slice one) }
        ensures row { IfOk result (λ one. self.new ≡ begun_with self.old (first_row slice source destination) one) }
        ensures err { OnErr result (self.new ≡ self.old) }
    {
        let Some(begun) = self.begun.checked_add(1) else {
            return Err(NoMemory);
        };
        let Some(room) = self.rows.count().checked_add(1) else {
            return Err(NoMemory);
        };
        let one = first_ask(&mut self.spare, alloc, self.how, slice)?;
        self.came.reserve(room)?;
        let row = Row {
            slice,
            source,
            destination,
            stage: stage_of(slice),
        };
        let Ok(()) = self.rows.insert(self.begun, row) else {
            return Err(NoMemory);
        };
        self.begun = begun;
        self.read = self.read.saturating_add(one.read());
        self.written = self.written.saturating_add(one.written());
        self.zeroed = self.zeroed.saturating_add(one.zeroed());
        Ok(one)
    }

    /// What comes next of the slices that something came for, the earliest first. It takes memory for the pieces of a
    /// slice that was read.
    ///
    /// On `NoMemory` the board has the same slices, and nothing is to be asked.
    pub fn next(&mut self, alloc: Global) -> Result<Next, NoMemory>
        ensures ok { IfOk result (λ next. IsNext self.old.how next self.old self.new) }
        ensures err { OnErr result (Goes self.old.how 0 None self.old.rows self.new.rows) }
    {
        let Some(number) = first_came(&self.came) else {
            return Ok(Next::Nothing);
        };
        let Went {
            change,
            source,
            destination,
        } = go_on(&mut self.rows, number, self.how, alloc)?;
        let _number = self.came.pop_front();
        match change {
            Some(change) => {
                self.written = self.written.saturating_add(change.written());
                self.zeroed = self.zeroed.saturating_add(change.zeroed());
                Ok(Next::Asks {
                    slice: number,
                    destination,
                    change,
                })
            }
            None => {
                drop_row(&mut self.rows, &mut self.spare, number);
                Ok(Next::Over {
                    slice: number,
                    source,
                    destination,
                })
            }
        }
    }

    /// How many slices are begun and not over. Where nothing came that was not looked at, each has one request
    /// unanswered.
    pub fn count(&self) -> usize
        ensures count { result ≡ length self.now.rows }
        ensures quiet { self.now.came ≡ [] → busy self.now.rows ≡ length self.now.rows }
    {
        self.rows.count()
    }

    /// How the copy writes.
    pub fn how(&self) -> How
        ensures { result ≡ self.now.how }
    {
        self.how
    }

    /// How many slices were begun.
    pub fn begun(&self) -> u64
        ensures { result ≡ self.now.begun }
    {
        self.begun
    }

    /// The first error that was told, or that of faulty content, EPROTO, where a command came to it.
    pub fn error(&self) -> Option<u32>
        ensures { result ≡ self.now.error }
    {
        self.error
    }

    /// The extents that were told last.
    pub fn told(&self) -> &[Extent]
        ensures { result.now ≡ self.now.told }
    {
        &self.told
    }

    /// Whether there was no memory for extents that were told, or they were told twice.
    pub fn is_short(&self) -> bool
        ensures { result ≡ self.now.short }
    {
        self.short
    }

    /// Whether the request for extents was answered.
    pub fn is_mapped(&self) -> bool
        ensures { result ≡ self.now.mapped }
    {
        self.mapped
    }

    /// Extents are asked for anew: those told before are forgotten.
    pub fn forget_map(&mut self)
        ensures { self.new ≡ record self.old { told = []; mapped = false } }
    {
        self.told.clear();
        self.mapped = false;
    }

    /// The destination is asked to flush.
    pub fn begin_flush(&mut self)
        ensures { self.new ≡ record self.old { flushing = true } }
    {
        self.flushing = true;
    }

    /// Whether the flush was answered.
    pub fn is_flushed(&self) -> bool
        ensures { result ≡ self.now.flushed }
    {
        self.flushed
    }

    /// The bytes that were asked to be read, written and zeroed so far, and how many of a source of this size
    /// were neither written nor zeroed.
    pub fn summary(&self, size: u64) -> Summary
        ensures { result ≡ record { read = self.now.read; written = self.now.written; zeroed = self.now.zeroed; skipped = size - self.now.written - self.now.zeroed } }
    {
        Summary {
            read: self.read,
            written: self.written,
            zeroed: self.zeroed,
            skipped: size
                .saturating_sub(self.written)
                .saturating_sub(self.zeroed),
        }
    }

    /// Ends the board, whatever it holds.
    pub fn end(self) {
        let Board {
            how: _,
            rows,
            came: _,
            spare: _,
            begun: _,
            error: _,
            told: _,
            short: _,
            mapped: _,
            flushing: _,
            flushed: _,
            read: _,
            written: _,
            zeroed: _,
        } = self;
        end_rows(rows);
    }

    /// Files a completion by its ticket. It takes no memory, and copies no byte. A read that comes with another
    /// number of bytes than its slice has counts as faulty content, EPROTO.
    pub(crate) fn file(&mut self, by: Ticket, error: u32, buf: Bytes)
        ensures { self.new ≡ filed by error buf self.old }
    {
        if error != 0 {
            self.error = content_first(self.error, error);
            return;
        }
        match by {
            Ticket::Slice(number) => {
                if is_unfit(&self.rows, number, &buf) {
                    self.error = first_error(self.error, EPROTO);
                    return;
                }
                receive(&mut self.rows, &mut self.came, number, buf);
            }
            Ticket::Extents => self.mapped = true,
            Ticket::Flush => self.flushed = true,
        }
    }

    /// Keeps the extents that were told, or says that there was no memory for them. Extents that are told when some were
    /// told already, which no server does that keeps to the protocol, count as if there were none for them.
    pub(crate) fn hear(&mut self, entries: &[Extent])
        ensures { Hears true entries.now self.old self.new }
    {
        if !self.told.is_empty() {
            self.told.clear();
            self.short = true;
            return;
        }
        if self.told.extend_from_slice(entries).is_err() {
            self.short = true;
        }
    }
}

/// The first error stands.
fn first_error(old: Option<u32>, error: u32) -> Option<u32>
    ensures { result ≡ or_error old error }
{
    match old {
        Some(first) => Some(first),
        None => Some(error),
    }
}

/// The first error stands, but faulty content comes before it.
fn content_first(old: Option<u32>, error: u32) -> Option<u32>
    ensures { result ≡ content_first old error }
{
    match old {
        Some(first) => {
            if error == EPROTO {
                Some(error)
            } else {
                Some(first)
            }
        }
        None => Some(error),
    }
}

/// Whether a read comes with another number of bytes than its slice has.
fn is_unfit(rows: &Table<Row>, number: u64, buf: &Bytes) -> bool
    ensures { result ≡ is_unfit (value_at number rows.now.rows) buf.now }
{
    match rows.get(number) {
        Some(row) => is_reading(&row.stage) && buf.len() as u64 != row.slice.length,
        None => false,
    }
}

fn is_reading(stage: &Stage) -> bool
    ensures { result ≡ is_reading stage.now }
{
    matches!(stage, Stage::Reading)
}

/// A row that waits for something has it, and is noted.
fn receive(rows: &mut Table<Row>, came: &mut VecDeque<u64>, number: u64, buf: Bytes)
    requires room { length came.old.items + busy rows.old.rows ≤ deque_capacity came.old }
    ensures rows { rows.new.rows ≡ rows_with (value_at number rows.old.rows) number buf rows.old.rows }
    ensures came { came.new.items ≡ came_with (value_at number rows.old.rows) number came.old.items }
    ensures capacity { deque_capacity came.new ≡ deque_capacity came.old }
{
    if let Some(row) = rows.get_mut(number) {
        if is_waiting(&row.stage) {
            let stage = mem::replace(&mut row.stage, Stage::Last);
            row.stage = with_buffer(stage, buf);
            came.push_back_reserved(number);
        }
    }
}

fn is_waiting(stage: &Stage) -> bool
    ensures { result ≡ is_busy stage.now }
{
    matches!(stage, Stage::Reading | Stage::Last | Stage::Writing { .. })
}

/// What a buffer that came back makes of a stage.
fn with_buffer(stage: Stage, buf: Bytes) -> Stage
    ensures { result ≡ received stage buf }
{
    match stage {
        Stage::Reading => Stage::Came { bytes: buf },
        Stage::Last => Stage::Finished { bytes: buf },
        Stage::Writing { bytes, left } => Stage::Holding { bytes, left },
        stage => stage,
    }
}

/// The number of the row that something came for first.
fn first_came(came: &VecDeque<u64>) -> Option<u64>
    ensures { result ≡ slice_get came.now.items 0 }
{
    came.front().copied()
}

/// What a row that went on asks for, and the connections that it is bound to.
#[derive(Drop)]
struct Went {
    change: Option<Change>,
    source: usize,
    destination: usize,
}

/// The row of a number goes on.
fn go_on(rows: &mut Table<Row>, number: u64, how: How, alloc: Global) -> Result<Went, NoMemory>
    requires sits { AllSit how rows.old.rows }
    requires idle { IsIdle rows.old.rows number }
    requires room { HasRoom rows.old.rows }
    ensures ok { IfOk result (λ went. WentOn how number went.change rows.old.rows rows.new.rows) }
    ensures over { IfOk result (λ went. IsOverAt number went.change rows.new.rows) }
    ensures bound { IfOk result (λ went. IsBoundTo number went.source went.destination rows.old.rows) }
    ensures err { OnErr result (WentOn how number None rows.old.rows rows.new.rows) }
{
    match rows.get_mut(number) {
        Some(row) => {
            let source = row.source;
            let destination = row.destination;
            let change = advance(row, how, alloc)?;
            Ok(Went {
                change,
                source,
                destination,
            })
        }
        None => unreachable!(),
    }
}

/// A row that is over goes, and its buffer is free again.
fn drop_row(rows: &mut Table<Row>, spare: &mut Vec<Vec<u8>>, number: u64)
    requires held { IsSome (value_at number rows.old.rows) }
    ensures { rows.new.rows ≡ without number rows.old.rows }
{
    if let Some(row) = rows.remove(number) {
        if let Stage::Finished { bytes } = row.stage {
            keep_buffer(spare, bytes);
        }
    }
}

fn end_rows(rows: Table<Row>) {
    let mut rows = rows;
    'rows: while let Some(_row) = rows.take_first() {}
    rows.finish();
}
