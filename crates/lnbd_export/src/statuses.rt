//! The status of positions, as descriptors, by a walk over what is told as zero. What a
//! block status is, and how it is put into bytes, is not known here.

ghost use Rattle.std.specs.Prelude.{◌≡◌, ◌+◌, ◌-◌, ◌<◌, ◌≤◌, ◌^◌, IfOk, take, length};
ghost use Rattle.lnbd_extents.specs.Positions.{holds};
ghost use Rattle.lnbd_export.specs.Zeros.{told};
ghost use Rattle.lnbd_export.specs.Export.{flags};
ghost use Rattle.lnbd_export.specs.Spans.{is_told_by};
ghost use Rattle.lnbd_export.specs.Statuses.{statuses, status_of};
ghost use Rattle.lnbd_export.specs.Walks.{IsRun, end_in_front, start_behind};

use crate::spans::Spans;
use crate::zeros::Zeros;
use lnbd_extents::Ranges;
use lnbd_model::{Extent, NoMemory};
use lnbd_records::names::{STATE_HOLE, STATE_ZERO};
use std::alloc::Global;

/// HOLE and ZERO of base:allocation.
const HOLE_AND_ZERO: u64 = STATE_HOLE | STATE_ZERO;

/// So many positions that are told alike.
#[derive(Clone, Copy, Debug, PartialEq, Eq)]
pub(crate) struct Run {
    pub length: u64,
    pub zero: bool,
}

/// The status of the positions from `start` up to `end`, but no more than `most` descriptors.
pub(crate) fn statuses(
    alloc: Global,
    zeros: &Zeros,
    start: u64,
    end: u64,
    most: usize,
) -> Result<Vec<Extent>, NoMemory>
    requires order { start ≤ end }
    requires room { end ≤ 2 ^ 63 }
    ensures { IfOk result (λ all. all.items ≡ take most (statuses (flags (told zeros.now) start (end - start)))) }
{
    let mut extents = Vec::new(alloc);
    let mut at = start;
    while at < end && extents.len() < most {
        let run = run_at(zeros, at, end);
        extents.push(Extent {
            length: run.length,
            flags: status_of(run.zero),
        })?;
        at += run.length;
    }
    Ok(extents)
}

fn status_of(zero: bool) -> u64
    ensures { result ≡ status_of zero }
{
    if zero { HOLE_AND_ZERO } else { 0 }
}

/// The positions from here on that are told alike, up to an end.
fn run_at(zeros: &Zeros, at: u64, end: u64) -> Run
    requires some { at < end }
    requires room { end ≤ 2 ^ 63 }
    ensures { IsRun (told zeros.now) at end result }
{
    match zeros {
        Zeros::Given(ranges) => run_of_ranges(ranges, at, end),
        Zeros::Turning(spans) => run_of_spans(spans, at, end),
    }
}

fn run_of_spans(zeros: &Spans, at: u64, end: u64) -> Run
    requires some { at < end }
    requires room { end ≤ 2 ^ 63 }
    ensures { IsRun (is_told_by zeros.now.spans.items) at end result }
{
    let zero = zeros.is_told(at);
    let mut until = zeros.reach(at, end);
    while until < end && zeros.is_told(until) == zero {
        until = zeros.reach(until, end);
    }
    made_run(at, until, zero)
}

fn run_of_ranges(zeros: &Ranges, at: u64, end: u64) -> Run
    requires some { at < end }
    requires room { end ≤ 2 ^ 63 }
    ensures { IsRun (holds zeros.now) at end result }
{
    zeros.are_longest();
    let place = zeros.place(at);
    let until = end_before(zeros, place);
    if at < until {
        return made_run(at, until.min(end), true);
    }
    made_run(at, start_from(zeros, place, end), false)
}

/// Where the range in front of a place ends, or 0.
fn end_before(zeros: &Ranges, place: usize) -> u64
    requires { place ≤ length zeros.now }
    ensures { result ≡ end_in_front zeros.now place }
{
    if place == 0 {
        return 0;
    }
    zeros.are_longest();
    let (start, length) = zeros.get(place - 1);
    start + length
}

/// Where the range at a place starts, but no further than the end.
fn start_from(zeros: &Ranges, place: usize, end: u64) -> u64
    ensures { result ≡ start_behind zeros.now place end }
{
    if place < zeros.count() {
        let (start, _) = zeros.get(place);
        return start.min(end);
    }
    end
}

fn made_run(start: u64, end: u64, zero: bool) -> Run
    requires { start ≤ end }
    ensures { result ≡ record { length = end - start; zero = zero } }
{
    Run {
        length: end - start,
        zero,
    }
}
