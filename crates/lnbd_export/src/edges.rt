//! Positions, kept as the edges between those that are told as zero and those that aren't. Which bytes stand
//! there is not known here.

ghost use Rattle.std.specs.Prelude.{◌≡◌, ℕ, ◌+◌, ◌<◌, ◌≤◌, ◌^◌, [], ◌∷◌, IfOk, OnOk, OnErr, if◌then◌else◌, length, slice_get};
ghost use Rattle.std.specs.List.{splice};
ghost use Rattle.lnbd_extents.specs.Positions.{within};
ghost use Rattle.lnbd_export.specs.Edges.{Rise, below, is_odd, is_told, edge_at, turned};
ghost use Rattle.lnbd_export.specs.Walks.{IsReach};

use lnbd_model::NoMemory;
use std::alloc::Global;
use std::marker::Model;

/// Edges: from the first on positions are told as zero, from the second on they aren't, and so on.
#[derive(Debug, Drop)]
pub(crate) struct Edges {
    places: Vec<u64>,
}

impl Model for Edges {
    ghost use Rattle.lnbd_export.specs.Edges.{Rise};
    ghost use Rattle.std.specs.Prelude.{ℕ, List};

    ghost Value = { List ℕ };

    ghost view = { λ e. e.places.items };

    ghost invariant = { λ e. Rise 0 e.places.items };
}

impl Edges {
    /// No position is told as zero. It takes no memory.
    pub fn new(alloc: Global) -> Edges
        ensures { result ≡ [] }
    {
        Edges {
            places: Vec::new(alloc),
        }
    }

    /// The same edges in memory of their own.
    pub fn copy(&self) -> Result<Edges, NoMemory>
        ensures { IfOk result (λ edges. edges ≡ self.now) }
    {
        let places = self.places.clone()?;
        Ok(Edges { places })
    }

    /// Whether a position is told as zero.
    pub fn is_told(&self, position: u64) -> bool
        requires { position < 2 ^ 63 }
        ensures { result ≡ is_told self.now position }
    {
        is_odd(below(&self.places, position + 1))
    }

    /// Up to where all is told as at a position, but no further than the end.
    pub fn reach(&self, at: u64, end: u64) -> u64
        requires some { at < end }
        requires room { end ≤ 2 ^ 63 }
        ensures { IsReach (is_told self.now) at end result }
    {
        edge_at(&self.places, below(&self.places, at + 1), end)
    }

    /// Tells these positions as zero, or no more. On `NoMemory` nothing changes.
    pub fn tell(&mut self, start: u64, length: u64, zero: bool) -> Result<(), NoMemory>
        requires { start + length ≤ 2 ^ 63 }
        ensures told { OnOk result ((p : ℕ) → is_told self.new p ≡ (if within (start, length) p then zero else is_told self.old p)) }
        ensures err { OnErr result (self.new ≡ self.old) }
    {
        if length == 0 {
            return Ok(());
        }
        turn(&mut self.places, start, start + length, zero)
    }
}

/// Whether so many edges end on positions that are told as zero.
fn is_odd(count: usize) -> bool
    ensures { result ≡ is_odd count }
{
    count % 2 == 1
}

/// How many of the edges lie below a position, by binary search.
fn below(places: &[u64], position: u64) -> usize
    requires { Rise 0 places.now }
    ensures { result ≡ below position places.now }
{
    places.partition_point(|place| *place < position)
}

/// The edge at a place, but no further than the end.
fn edge_at(places: &[u64], place: usize, end: u64) -> u64
    ensures { result ≡ edge_at places.now place end }
{
    if place < places.len() {
        return places[place].min(end);
    }
    end
}

/// From `start` up to `end` this is told from now on.
fn turn(places: &mut Vec<u64>, start: u64, end: u64, zero: bool) -> Result<(), NoMemory>
    requires rise { Rise 0 places.old.items }
    requires some { start < end }
    requires room { end ≤ 2 ^ 63 }
    ensures ok { OnOk result (places.new.items ≡ turned start end zero places.old.items) }
    ensures err { OnErr result (places.new.items ≡ places.old.items) }
{
    let from = below(places, start);
    let until = below(places, end + 1);
    let begins = is_odd(from) != zero;
    let ends = is_odd(until) != zero;
    match (begins, ends) {
        (false, false) => cut(places, from, until),
        (true, false) => put_one(places, from, until, start),
        (false, true) => put_one(places, from, until, end),
        (true, true) => return put_two(places, from, until, start, end),
    }
    Ok(())
}

/// Takes edges out.
fn cut(places: &mut Vec<u64>, from: usize, until: usize)
    requires order { from ≤ until }
    requires within { until ≤ length places.old.items }
    ensures { places.new.items ≡ splice places.old.items from until [] }
{
    if from < until {
        places.drain(from..until);
    }
}

/// Puts one edge in the place of others.
fn put_one(places: &mut Vec<u64>, from: usize, until: usize, edge: u64)
    requires some { from < until }
    requires within { until ≤ length places.old.items }
    ensures { places.new.items ≡ splice places.old.items from until (edge ∷ []) }
{
    places[from] = edge;
    cut(places, from + 1, until);
}

/// Puts two edges in the place of none, or of two or more.
fn put_two(
    places: &mut Vec<u64>,
    from: usize,
    until: usize,
    start: u64,
    end: u64,
) -> Result<(), NoMemory>
    requires order { from ≤ until }
    requires not_one { from < until → from + 2 ≤ until }
    requires within { until ≤ length places.old.items }
    ensures ok { OnOk result (places.new.items ≡ splice places.old.items from until (start ∷ end ∷ [])) }
    ensures err { OnErr result (places.new.items ≡ places.old.items) }
{
    if from == until {
        return insert_two(places, from, start, end);
    }
    places[from] = start;
    places[from + 1] = end;
    cut(places, from + 2, until);
    Ok(())
}

fn insert_two(places: &mut Vec<u64>, at: usize, start: u64, end: u64) -> Result<(), NoMemory>
    requires { at ≤ length places.old.items }
    ensures ok { OnOk result (places.new.items ≡ splice places.old.items at at (start ∷ end ∷ [])) }
    ensures err { OnErr result (places.new.items ≡ places.old.items) }
{
    places.reserve(2)?;
    if places.insert(at, end).is_err() {
        unreachable!()
    }
    if places.insert(at, start).is_err() {
        unreachable!()
    }
    Ok(())
}
