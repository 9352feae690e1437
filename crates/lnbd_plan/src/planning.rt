//! A plan: the slices of windows, one by one. Only runs of positions that are told alike are kept, and
//! the first of them is cut when a slice is asked for.

ghost use Rattle.std.specs.Prelude.{◌≡◌, ℕ, ◌+◌, ◌-◌, ◌<◌, ◌≤◌, ◌^◌, [], ◌∷◌, ◌++◌, OnOk, OnErr, IsSome, IfOk, IfNone, option_to_list, ◌↔◌, ◌||◌, not, if◌then◌else◌, length, take};
ghost use Rattle.lnbd_extents.specs.Positions.{holds};
ghost use Rattle.lnbd_plan.specs.Walks.{end_in_front, start_behind, place_behind, IsPlace};
ghost use Rattle.lnbd_plan.specs.Plans.{window_slices, run_slices, runs_slices, AreCells, AreRuns, Planned, IsAlikeRun};

use crate::cells::Cells;
use crate::grid::{Slice, rest_of_cell};
use lnbd_extents::Ranges;
use lnbd_model::NoMemory;
use std::alloc::Global;
use std::collections::VecDeque;
use std::marker::Model;

/// The slices of a copy, planned window by window.
#[derive(Debug, Drop)]
pub struct Plan {
    first: Slice,
    runs: VecDeque<Slice>,
    left: u64,
    end: u64,
    cells: Cells,
}

impl Model for Plan {
    ghost use Rattle.std.specs.Prelude.{◌≡◌, ◌≤◌, ◌+◌, ◌^◌, ◌++◌, length};
    ghost use Rattle.lnbd_plan.specs.Plans.{run_slices, runs_slices, AreCells, AreRuns, Planned};

    ghost Value = { Planned };

    ghost view = { λ p. record { end = p.end; slices = run_slices p.cells p.first ++ runs_slices p.cells p.runs.items; cells = p.cells } };

    ghost invariant = { λ p. AreCells p.cells × (p.first.start + p.first.length ≤ 2 ^ 63) × AreRuns (2 ^ 63) p.runs.items × (p.left ≡ length (run_slices p.cells p.first ++ runs_slices p.cells p.runs.items)) × (p.left ≤ p.end) × (p.end ≤ 2 ^ 63) };
}

impl Plan {
    /// A plan with no window. It takes no memory.
    pub fn new(alloc: Global, cell: u32, zero_cell: u64, zeros: bool) -> Plan
        requires cell { 0 < cell }
        requires zero_cell { 0 < zero_cell }
        ensures { result ≡ record { end = 0; slices = []; cells = record { cell = cell; zero_cell = zero_cell; zeros = zeros } } }
    {
        Plan {
            first: Slice {
                start: 0,
                length: 0,
                zero: false,
            },
            runs: VecDeque::new(alloc),
            left: 0,
            end: 0,
            cells: Cells {
                cell,
                zero_cell,
                zeros,
            },
        }
    }

    /// Plans one window more, which begins where the last one ended.
    ///
    /// It searches for the window's first range and then walks along its ranges once. It takes memory for
    /// the runs between their ends, however many slices these have.
    ///
    /// On `NoMemory` the plan is as before.
    pub fn window(&mut self, start: u64, length: u64, zero: &Ranges) -> Result<(), NoMemory>
        requires begins { start ≡ self.old.end }
        requires room { start + length ≤ 2 ^ 63 }
        ensures ok { OnOk result (self.new ≡ record self.old { end = start + length; slices = self.old.slices ++ window_slices self.old.cells (holds zero.now) start length }) }
        ensures err { OnErr result (self.new ≡ self.old) }
    {
        let before = self.runs.len();
        let Ok(count) = append_runs(&mut self.runs, self.cells, start, start + length, zero) else {
            self.runs.truncate(before);
            return Err(NoMemory);
        };
        self.left += count;
        self.end = start + length;
        Ok(())
    }

    /// The next slice, if one is planned. It costs the same however many there are.
    pub fn next(&mut self) -> Option<Slice>
        ensures slices { self.old.slices ≡ option_to_list result ++ self.new.slices }
        ensures some { IsSome result ↔ (0 < length self.old.slices) }
        ensures others { self.new ≡ record self.old { slices = self.new.slices } }
    {
        match take_first(&mut self.first, &mut self.runs, self.cells) {
            None => None,
            Some(slice) => {
                self.left -= 1;
                Some(slice)
            }
        }
    }

    /// How many slices are still to come.
    pub fn left(&self) -> u64
        ensures { result ≡ length self.now.slices }
    {
        self.left
    }
}

/// Takes the first slice of a run and those behind it, if there is one.
fn take_first(first: &mut Slice, runs: &mut VecDeque<Slice>, cells: Cells) -> Option<Slice>
    requires cells { AreCells cells }
    requires first { first.old.start + first.old.length ≤ 2 ^ 63 }
    requires runs { AreRuns (2 ^ 63) runs.old.items }
    ensures slices { run_slices cells first.old ++ runs_slices cells runs.old.items ≡ option_to_list result ++ (run_slices cells first.new ++ runs_slices cells runs.new.items) }
    ensures none { IfNone result (run_slices cells first.old ++ runs_slices cells runs.old.items ≡ []) }
    ensures first { first.new.start + first.new.length ≤ 2 ^ 63 }
    ensures runs { AreRuns (2 ^ 63) runs.new.items }
{
    if first.length > 0 {
        return Some(cut_first(first, cells));
    }
    match runs.pop_front() {
        None => None,
        Some(run) => {
            *first = run;
            Some(cut_first(first, cells))
        }
    }
}

/// Cuts the first slice off a run.
fn cut_first(run: &mut Slice, cells: Cells) -> Slice
    requires cells { AreCells cells }
    requires some { 0 < run.old.length }
    requires room { run.old.start + run.old.length ≤ 2 ^ 63 }
    ensures slices { run_slices cells run.old ≡ result ∷ run_slices cells run.new }
    ensures room { run.new.start + run.new.length ≤ 2 ^ 63 }
{
    let slice = Slice {
        start: run.start,
        length: rest_of_cell(run.start, cell_of(run.zero, cells), run.length),
        zero: run.zero,
    };
    run.start += slice.length;
    run.length -= slice.length;
    slice
}

/// The cell of zero slices, or of the others.
fn cell_of(zero: bool, cells: Cells) -> u64
    requires { AreCells cells }
    ensures cell { result ≡ (if zero then cells.zero_cell else cells.cell) }
    ensures some { 0 < result }
{
    if zero {
        cells.zero_cell
    } else {
        cells.cell as u64
    }
}

/// Appends the runs of these positions, and tells how many slices they have. On `NoMemory` some of them
/// are behind what was there.
fn append_runs(
    runs: &mut VecDeque<Slice>,
    cells: Cells,
    start: u64,
    end: u64,
    zero: &Ranges,
) -> Result<u64, NoMemory>
    requires cells { AreCells cells }
    requires order { start ≤ end }
    requires room { end ≤ 2 ^ 63 }
    requires runs { AreRuns (2 ^ 63) runs.old.items }
    ensures ok { OnOk result (runs_slices cells runs.new.items ≡ runs_slices cells runs.old.items ++ window_slices cells (holds zero.now) start (end - start)) }
    ensures count { IfOk result (λ n. n ≡ length (window_slices cells (holds zero.now) start (end - start))) }
    ensures few { IfOk result (λ n. n ≤ end - start) }
    ensures runs { OnOk result (AreRuns (2 ^ 63) runs.new.items) }
    ensures err { take (length runs.old.items) runs.new.items ≡ runs.old.items }
{
    zero.are_longest();
    let mut at = start;
    let mut place = zero.place(start);
    let mut count = 0;
    while at < end {
        let run = run_at(zero, place, at, end);
        count += append_run(runs, cells, run)?;
        at += run.length;
        place = place_behind(zero, place, run.zero);
    }
    Ok(count)
}

/// Appends a run, if it has slices that are copied, and tells how many.
fn append_run(runs: &mut VecDeque<Slice>, cells: Cells, run: Slice) -> Result<u64, NoMemory>
    requires cells { AreCells cells }
    requires some { 0 < run.length }
    requires room { run.start + run.length ≤ 2 ^ 63 }
    ensures ok { OnOk result (runs.new.items ≡ (if cells.zeros || not run.zero then runs.old.items ++ run ∷ [] else runs.old.items)) }
    ensures count { IfOk result (λ n. n ≡ length (if cells.zeros || not run.zero then run_slices cells run else [])) }
    ensures err { OnErr result (runs.new.items ≡ runs.old.items) }
{
    if cells.zeros || !run.zero {
        runs.push_back(run)?;
        return Ok(count_of(run, cells));
    }
    Ok(0)
}

/// How many slices a run has: one, and one more for each multiple in it.
fn count_of(run: Slice, cells: Cells) -> u64
    requires cells { AreCells cells }
    requires some { 0 < run.length }
    requires room { run.start + run.length ≤ 2 ^ 63 }
    ensures { result ≡ length (run_slices cells run) }
{
    let cell = cell_of(run.zero, cells);
    (run.start + (run.length - 1)) / cell - run.start / cell + 1
}

/// The run of positions from here on that are told alike, up to an end. The place is that of the first
/// range that starts behind this position.
fn run_at(zero: &Ranges, place: usize, at: u64, end: u64) -> Slice
    requires place { IsPlace zero.now at place }
    requires some { at < end }
    requires room { end ≤ 2 ^ 63 }
    ensures run { IsAlikeRun (holds zero.now) at end result }
    ensures behind { at + result.length < end → IsPlace zero.now (at + result.length) (place_behind result.zero place) }
{
    let until = end_before(zero, place);
    if at < until {
        return run(at, until.min(end), true);
    }
    run(at, start_from(zero, place, end), false)
}

/// The place behind a run: where one ends that isn't zero, the range at its place starts.
fn place_behind(zero: &Ranges, place: usize, told: bool) -> usize
    ensures { place_behind told place ≤ length zero.now → result ≡ place_behind told place }
{
    if told || place >= zero.count() {
        return place;
    }
    place + 1
}

/// Where the range in front of a place ends, or 0.
fn end_before(zero: &Ranges, place: usize) -> u64
    requires { place ≤ length zero.now }
    ensures { result ≡ end_in_front zero.now place }
{
    if place == 0 {
        return 0;
    }
    zero.are_longest();
    let (start, length) = zero.get(place - 1);
    start + length
}

/// Where the range at a place starts, but no further than the end.
fn start_from(zero: &Ranges, place: usize, end: u64) -> u64
    ensures { result ≡ start_behind zero.now place end }
{
    if place < zero.count() {
        let (start, _) = zero.get(place);
        return start.min(end);
    }
    end
}

fn run(start: u64, end: u64, zero: bool) -> Slice
    requires { start ≤ end }
    ensures { result ≡ record { start = start; length = end - start; zero = zero } }
{
    Slice {
        start,
        length: end - start,
        zero,
    }
}
