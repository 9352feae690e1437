//! Positions told as zero, span by span: what is told of a position is told by the span in which it lies. A
//! change searches and moves the edges of two spans, and no others. Which bytes stand there is not known here.

ghost use Rattle.std.specs.Prelude.{◌≡◌, ℕ, ◌+◌, ◌-◌, ◌*◌, ◌/◌, ◌<◌, ◌≤◌, ◌^◌, IfOk, OnOk, OnErr, false, if◌then◌else◌, length, vec_len};
ghost use Rattle.lnbd_extents.specs.Positions.{holds, within};
ghost use Rattle.lnbd_export.specs.Spans.{span_size, all_told, tells, tells_at, is_told_by};
ghost use Rattle.lnbd_export.specs.Walks.{IsReach};

use crate::edges::Edges;
use lnbd_extents::Ranges;
use lnbd_model::NoMemory;
use std::alloc::Global;

/// How many positions a span has: few enough that its edges are moved in a moment, and enough that a walk over
/// spans without edges is short.
const SPAN: u64 = 65_536;

/// The positions that are told as zero in a span: those that its edges tell, or all others.
#[derive(Debug, Drop)]
pub(crate) struct Span {
    pub inverted: bool,
    pub edges: Edges,
}

impl Span {
    /// All positions are told so. It takes no memory.
    fn all(alloc: Global, zero: bool) -> Span
        ensures { result ≡ all_told zero }
    {
        Span {
            inverted: zero,
            edges: Edges::new(alloc),
        }
    }

    /// The same in memory of its own.
    fn copy(&self) -> Result<Span, NoMemory>
        ensures { IfOk result (λ span. span ≡ self.now) }
    {
        let edges = self.edges.copy()?;
        Ok(Span {
            inverted: self.inverted,
            edges,
        })
    }

    fn is_told(&self, position: u64) -> bool
        requires { position < 2 ^ 63 }
        ensures { result ≡ tells self.now position }
    {
        self.edges.is_told(position) != self.inverted
    }

    /// Up to where all is told as at a position, but no further than the end.
    fn reach(&self, at: u64, end: u64) -> u64
        requires some { at < end }
        requires room { end ≤ 2 ^ 63 }
        ensures { IsReach (tells self.now) at end result }
    {
        self.edges.reach(at, end)
    }

    /// Tells these positions as zero, or no more. On `NoMemory` nothing changes.
    fn tell(&mut self, start: u64, length: u64, zero: bool) -> Result<(), NoMemory>
        requires { start + length ≤ 2 ^ 63 }
        ensures told { OnOk result ((p : ℕ) → tells self.new p ≡ (if within (start, length) p then zero else tells self.old p)) }
        ensures err { OnErr result (self.new ≡ self.old) }
    {
        self.edges.tell(start, length, zero != self.inverted)
    }
}

/// Which positions are told as zero. Behind the last span none is.
#[derive(Debug, Drop)]
pub(crate) struct Spans {
    pub spans: Vec<Span>,
}

impl Spans {
    /// No position is told as zero. It takes no memory.
    pub fn new(alloc: Global) -> Spans
        ensures { (p : ℕ) → is_told_by result.spans.items p ≡ false }
    {
        Spans {
            spans: Vec::new(alloc),
        }
    }

    /// The positions of ranges.
    pub fn of(alloc: Global, ranges: &Ranges) -> Result<Spans, NoMemory>
        ensures { IfOk result (λ spans. (p : ℕ) → is_told_by spans.spans.items p ≡ holds ranges.now p) }
    {
        ranges.are_longest();
        let mut spans = Spans::new(alloc);
        for index in 0..ranges.count() {
            let (start, length) = ranges.get(index);
            spans.tell(start, length, true)?;
        }
        Ok(spans)
    }

    /// Whether a position is told as zero.
    pub fn is_told(&self, position: u64) -> bool
        requires { position < 2 ^ 63 }
        ensures { result ≡ is_told_by self.now.spans.items position }
    {
        let index = index_of(position);
        index < self.spans.len() && self.spans[index].is_told(position)
    }

    /// Up to where all is told as at a position, as far as its span shows, but no further than the end.
    pub fn reach(&self, at: u64, end: u64) -> u64
        requires some { at < end }
        requires room { end ≤ 2 ^ 63 }
        ensures { IsReach (is_told_by self.now.spans.items) at end result }
    {
        let index = index_of(at);
        if index < self.spans.len() {
            let next = (index as u64 + 1) * SPAN;
            return self.spans[index].reach(at, end.min(next));
        }
        end
    }

    /// Tells these positions as zero, or no more. On `NoMemory` what is told stays.
    #[tactic(auto, using(crate::proofs::SpanLaws::told_in_one, crate::proofs::SpanLaws::kept_in_one, crate::proofs::SpanLaws::told_in_more, crate::proofs::SpanLaws::kept_in_more, crate::proofs::EdgeLaws::told_nowhere))]
    pub fn tell(&mut self, start: u64, length: u64, zero: bool) -> Result<(), NoMemory>
        requires { start + length ≤ 2 ^ 63 }
        ensures told { OnOk result ((p : ℕ) → is_told_by self.new.spans.items p ≡ (if within (start, length) p then zero else is_told_by self.old.spans.items p)) }
        ensures err { OnErr result ((p : ℕ) → is_told_by self.new.spans.items p ≡ is_told_by self.old.spans.items p) }
    {
        if length == 0 {
            return Ok(());
        }
        let first = index_of(start);
        let last = index_of(start + length - 1);
        grow(&mut self.spans, last + 1)?;
        if first == last {
            return tell_in(&mut self.spans, first, start, length, zero);
        }
        tell_across(&mut self.spans, start, length, zero)
    }
}

/// In which span a position lies.
fn index_of(position: u64) -> usize
    ensures { result ≡ position / span_size }
{
    (position / SPAN) as usize
}

/// Adds spans in which nothing is told as zero, until there are so many.
fn grow(spans: &mut Vec<Span>, count: usize) -> Result<(), NoMemory>
    ensures same { (k p : ℕ) → tells_at spans.new.items k p ≡ tells_at spans.old.items k p }
    ensures count { OnOk result (count ≤ vec_len spans.new) }
{
    let alloc = *spans.allocator();
    while spans.len() < count {
        spans.push(Span::all(alloc, false))?;
    }
    Ok(())
}

/// Tells positions of one span.
fn tell_in(
    spans: &mut Vec<Span>,
    index: usize,
    start: u64,
    length: u64,
    zero: bool,
) -> Result<(), NoMemory>
    requires room { start + length ≤ 2 ^ 63 }
    requires index { index < vec_len spans.old }
    ensures told { OnOk result ((p : ℕ) → tells_at spans.new.items index p ≡ (if within (start, length) p then zero else tells_at spans.old.items index p)) }
    ensures others { (k p : ℕ) → (k ≡ index → ⊥) → tells_at spans.new.items k p ≡ tells_at spans.old.items k p }
    ensures err { OnErr result ((k p : ℕ) → tells_at spans.new.items k p ≡ tells_at spans.old.items k p) }
    ensures count { vec_len spans.new ≡ vec_len spans.old }
{
    spans[index].tell(start, length, zero)
}

/// Tells positions of more spans than one. What the first span tells is made apart, and put in its place when
/// nothing can fail any more.
fn tell_across(spans: &mut Vec<Span>, start: u64, length: u64, zero: bool) -> Result<(), NoMemory>
    requires room { start + length ≤ 2 ^ 63 }
    requires across { start / span_size < (start + length - 1) / span_size }
    requires count { (start + length - 1) / span_size < vec_len spans.old }
    ensures told { OnOk result ((p : ℕ) → is_told_by spans.new.items p ≡ (if within (start, length) p then zero else is_told_by spans.old.items p)) }
    ensures err { OnErr result ((p : ℕ) → is_told_by spans.new.items p ≡ is_told_by spans.old.items p) }
{
    let alloc = *spans.allocator();
    let first = index_of(start);
    let last = index_of(start + length - 1);
    let next = (first as u64 + 1) * SPAN;
    let begins = last as u64 * SPAN;
    let mut front = copied(spans, first)?;
    front.tell(start, next - start, zero)?;
    tell_in(spans, last, begins, start + length - begins, zero)?;
    put(spans, first, front);
    cover(alloc, spans, first + 1, last, zero);
    Ok(())
}

/// The span of this number, in memory of its own.
fn copied(spans: &[Span], index: usize) -> Result<Span, NoMemory>
    requires { index < length spans.now }
    ensures { IfOk result (λ span. (p : ℕ) → tells span p ≡ tells_at spans.now index p) }
{
    spans[index].copy()
}

/// Puts a span in its place.
fn put(spans: &mut Vec<Span>, index: usize, span: Span)
    requires { index < vec_len spans.old }
    ensures here { (p : ℕ) → tells_at spans.new.items index p ≡ tells span p }
    ensures others { (k p : ℕ) → (k ≡ index → ⊥) → tells_at spans.new.items k p ≡ tells_at spans.old.items k p }
    ensures count { vec_len spans.new ≡ vec_len spans.old }
{
    spans[index] = span;
}

/// Tells all positions of these spans so.
fn cover(alloc: Global, spans: &mut Vec<Span>, from: usize, until: usize, zero: bool)
    requires order { from ≤ until }
    requires count { until ≤ vec_len spans.old }
    ensures { (k p : ℕ) → tells_at spans.new.items k p ≡ (if within (from, until - from) k then zero else tells_at spans.old.items k p) }
{
    for index in from..until {
        spans[index] = Span::all(alloc, zero);
    }
}
