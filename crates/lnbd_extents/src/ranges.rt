//! Positions, kept as the longest ranges, in pages of neighbours. What is told of a position is not known here.

ghost use Rattle.std.specs.Prelude.{◌≡◌, ℕ, ◌+◌, ◌<◌, ◌≤◌, ◌^◌, ◌↔◌, [], ◌∷◌, ◌++◌, ◌||◌, ◌&&◌, not, true, false, Some, IfOk, OnOk, OnErr, IsErrOf, length, slice_get};
ghost use Rattle.lnbd_extents.specs.Positions.{within, holds, any_at, all_at};
ghost use Rattle.lnbd_extents.specs.Ranges.{adding, with_positions, front_piece, back_piece, taking_away, IsFrom, AreUpTo};
ghost use Rattle.lnbd_extents.specs.Spots.{meets};
ghost use Rattle.lnbd_extents.specs.Pages.{ranges_of, AreFilled, AreFull};

use crate::page::Page;
use crate::pages::{
    count_before, full_pages, has_all_of, has_some_of, page_of, page_with, place_in, put,
};
use lnbd_model::NoMemory;
use std::alloc::Global;
use std::marker::Model;
use thiserror::Error;

/// Why positions were not added.
#[derive(Clone, Copy, Debug, PartialEq, Eq, Error)]
pub enum AddFault {
    /// Memory ran out.
    #[error("no memory")]
    NoMemory,
    /// One of the positions is held already.
    #[error("a position is held already")]
    Overlap,
}

/// Positions, kept as the longest ranges. Positions are added in any order in the time of a search and of moving the
/// ranges of one page. Where they were added in rising order, a range is found by its number at once.
#[derive(Debug, Drop)]
pub struct Ranges {
    pages: Vec<Page>,

    /// So many of the first pages are full.
    full: usize,
}

impl Model for Ranges {
    ghost use Rattle.lnbd_extents.specs.Ranges.{IsFrom, AreUpTo};
    ghost use Rattle.lnbd_extents.specs.Pages.{ranges_of, AreFilled, AreFull};
    ghost use Rattle.std.specs.Prelude.{◌^◌, ℕ, List};

    ghost Value = { List (ℕ × ℕ) };

    ghost view = { λ r. ranges_of r.pages.items };

    ghost invariant = { λ r. IsFrom 0 (ranges_of r.pages.items) × AreUpTo (2 ^ 63) (ranges_of r.pages.items)
        × AreFilled r.pages.items × AreFull r.full r.pages.items };
}

impl Ranges {
    /// No position is held. It takes no memory.
    pub fn new(alloc: Global) -> Self
        ensures { result ≡ [] }
    {
        Ranges {
            pages: Vec::new(alloc),
            full: 0,
        }
    }

    /// How many ranges there are.
    pub fn count(&self) -> usize
        ensures { result ≡ length self.now }
    {
        count_before(&self.pages, self.full, self.pages.len())
    }

    /// One of the ranges, its start and its length.
    pub fn get(&self, index: usize) -> (u64, u64)
        requires { index < length self.now }
        ensures { slice_get self.now index ≡ Some result }
    {
        let (page, place) = page_with(&self.pages, self.full, index);
        self.pages[page].range(place)
    }

    /// The ranges rise, are not empty and do not touch.
    pub fn are_longest(&self)
        ensures longest { IsFrom 0 self.now }
        ensures within { AreUpTo (2 ^ 63) self.now }
    {
        let _ = &self.pages;
    }

    /// Whether all these positions are held.
    pub fn covers(&self, start: u64, length: u64) -> bool
        ensures { result ≡ all_at (holds self.now) start length }
    {
        if length == 0 {
            return true;
        }
        has_all_of(&self.pages, start, length)
    }

    /// Whether some of these positions is held.
    pub fn meets(&self, start: u64, length: u64) -> bool
        requires { start + length < 2 ^ 64 }
        ensures { result ≡ any_at (holds self.now) start length }
    {
        length > 0 && has_some_of(&self.pages, start, length)
    }

    /// Adds positions, where none of them is held.
    pub fn add(&mut self, start: u64, length: u64) -> Result<(), AddFault>
        requires { start + length ≤ 2 ^ 63 }
        ensures ok { OnOk result (self.new ≡ with_positions start length self.old) }
        ensures held { OnOk result ((p : ℕ) → holds self.new p ≡ within (start, length) p || holds self.old p) }
        ensures err { OnErr result (self.new ≡ self.old) }
        ensures overlap { IsErrOf result AddFault.Overlap ↔ (any_at (holds self.old) start length ≡ true) }
    {
        if length == 0 {
            return Ok(());
        }
        add_to(&mut self.pages, &mut self.full, start, length)
    }

    /// Holds these positions, whether they were held before or not. On `NoMemory` nothing changes.
    pub fn hold(&mut self, start: u64, length: u64) -> Result<(), NoMemory>
        requires { start + length ≤ 2 ^ 63 }
        ensures held { OnOk result ((p : ℕ) → holds self.new p ≡ within (start, length) p || holds self.old p) }
        ensures err { OnErr result (self.new ≡ self.old) }
    {
        if self.covers(start, length) {
            return Ok(());
        }
        self.hold_over(start, length)
    }

    /// Holds positions of which some may be held: these are cut out first.
    fn hold_over(&mut self, start: u64, length: u64) -> Result<(), NoMemory>
        requires { start + length ≤ 2 ^ 63 }
        ensures held { OnOk result ((p : ℕ) → holds self.new p ≡ within (start, length) p || holds self.old p) }
        ensures err { OnErr result (self.new ≡ self.old) }
    {
        if !self.meets(start, length) {
            return self.add(start, length).map_err(|_| NoMemory);
        }
        let alloc = *self.pages.allocator();
        self.pages = holding(alloc, &self.pages, start, length)?;
        self.full = 0;
        Ok(())
    }

    /// Holds none of these positions any more. On `NoMemory` nothing changes.
    pub fn release(&mut self, start: u64, length: u64) -> Result<(), NoMemory>
        requires { start + length ≤ 2 ^ 63 }
        ensures held { OnOk result ((p : ℕ) →
            holds self.new p ≡ not (within (start, length) p) && holds self.old p) }
        ensures err { OnErr result (self.new ≡ self.old) }
    {
        if !self.meets(start, length) {
            return Ok(());
        }
        let alloc = *self.pages.allocator();
        self.pages = without(alloc, &self.pages, start, start + length)?;
        self.full = 0;
        Ok(())
    }

    /// How many ranges start at this position or before it. A walk from the position begins at the
    /// last of these, which may hold it, or at the next one.
    pub fn place(&self, position: u64) -> usize
        ensures within { result ≤ length self.now }
        ensures before { (i : ℕ) (r : ℕ × ℕ) → i < result → slice_get self.now i ≡ Some r → r.0 ≤ position }
        ensures behind { (i : ℕ) (r : ℕ × ℕ) → result ≤ i → slice_get self.now i ≡ Some r → position < r.0 }
    {
        place_in(&self.pages, self.full, position)
    }
}

/// Adds positions, where none of them is held. `full` of the first pages are full.
#[tactic(auto, using(crate::proofs::CountLaws::full_front, crate::proofs::CountLaws::full_less))]
fn add_to(pages: &mut Vec<Page>, full: &mut usize, start: u64, length: u64) -> Result<(), AddFault>
    requires longest { IsFrom 0 (ranges_of pages.old.items) }
    requires within { AreUpTo (2 ^ 63) (ranges_of pages.old.items) }
    requires filled { AreFilled pages.old.items }
    requires full { AreFull full.old pages.old.items }
    requires some { 0 < length }
    requires room { start + length ≤ 2 ^ 63 }
    ensures ok { OnOk result (ranges_of pages.new.items ≡ adding start length (ranges_of pages.old.items)) }
    ensures apart { OnOk result (meets start length (ranges_of pages.old.items) ≡ false) }
    ensures err { OnErr result (ranges_of pages.new.items ≡ ranges_of pages.old.items) }
    ensures overlap { IsErrOf result AddFault.Overlap ↔ (meets start length (ranges_of pages.old.items) ≡ true) }
    ensures filled { AreFilled pages.new.items }
    ensures full { AreFull full.new pages.new.items }
{
    if pages.is_empty() {
        return add_first(pages, start, length);
    }
    let at = page_of(pages, start);
    put(pages, at, start, length)?;
    *full = full_pages(pages, (*full).min(at));
    Ok(())
}

/// Adds positions where none is held.
fn add_first(pages: &mut Vec<Page>, start: u64, length: u64) -> Result<(), AddFault>
    requires { pages.old.items ≡ [] }
    ensures ok { OnOk result (pages.new.items ≡ ((start, length) ∷ []) ∷ []) }
    ensures err { OnErr result (pages.new.items ≡ []) }
    ensures no_overlap { IsErrOf result AddFault.Overlap → ⊥ }
{
    let alloc = *pages.allocator();
    let Ok(page) = Page::one(alloc, start, length) else {
        return Err(AddFault::NoMemory);
    };
    if pages.push(page).is_err() {
        return Err(AddFault::NoMemory);
    }
    Ok(())
}

/// The ranges with these positions, those of them that were held cut out first.
fn holding(alloc: Global, pages: &[Page], start: u64, length: u64) -> Result<Vec<Page>, NoMemory>
    requires longest { IsFrom 0 (ranges_of pages.now) }
    requires within { AreUpTo (2 ^ 63) (ranges_of pages.now) }
    requires some { 0 < length }
    requires room { start + length ≤ 2 ^ 63 }
    ensures ranges { IfOk result (λ all. ranges_of all.items ≡ adding start length (taking_away start (start + length) (ranges_of pages.now))) }
    ensures filled { IfOk result (λ all. AreFilled all.items) }
{
    let mut kept = without(alloc, pages, start, start + length)?;
    let mut full = 0;
    if add_to(&mut kept, &mut full, start, length).is_err() {
        return Err(NoMemory);
    }
    Ok(kept)
}

/// The ranges without the positions from `start` up to `end`.
#[tactic(auto, using(crate::proofs::CountLaws::up_to_read, crate::proofs::CountLaws::left_read))]
fn without(alloc: Global, pages: &[Page], start: u64, end: u64) -> Result<Vec<Page>, NoMemory>
    requires { AreUpTo (2 ^ 63) (ranges_of pages.now) }
    ensures ranges { IfOk result (λ kept. ranges_of kept.items ≡ taking_away start end (ranges_of pages.now)) }
    ensures filled { IfOk result (λ kept. AreFilled kept.items) }
{
    let mut kept = Vec::new(alloc);
    for page in pages {
        push_left(&mut kept, page.ranges(), start, end)?;
    }
    Ok(kept)
}

/// Adds what of a page lies outside, if there is something.
#[tactic(auto, using(crate::proofs::PageLaws::ranges_push, crate::proofs::PageLaws::filled_push))]
fn push_left(
    kept: &mut Vec<Page>,
    ranges: &[(u64, u64)],
    start: u64,
    end: u64,
) -> Result<(), NoMemory>
    requires within { AreUpTo (2 ^ 63) ranges.now }
    requires filled { AreFilled kept.old.items }
    ensures ranges { OnOk result (ranges_of kept.new.items ≡ ranges_of kept.old.items ++ taking_away start end ranges.now) }
    ensures filled { OnOk result (AreFilled kept.new.items) }
{
    let alloc = *kept.allocator();
    let left = left_of(alloc, ranges, start, end)?;
    if !left.is_empty() {
        kept.push(Page::of(left))?;
    }
    Ok(())
}

/// The ranges of a page without the positions from `start` up to `end`.
fn left_of(
    alloc: Global,
    ranges: &[(u64, u64)],
    start: u64,
    end: u64,
) -> Result<Vec<(u64, u64)>, NoMemory>
    requires { AreUpTo (2 ^ 63) ranges.now }
    ensures { IfOk result (λ left. left.items ≡ taking_away start end ranges.now) }
{
    let mut left = Vec::new(alloc);
    for range in ranges {
        push_front(&mut left, *range, start)?;
        push_back(&mut left, *range, end)?;
    }
    Ok(left)
}

fn push_front(left: &mut Vec<(u64, u64)>, range: (u64, u64), start: u64) -> Result<(), NoMemory>
    requires { range.0 + range.1 < 2 ^ 64 }
    ensures { OnOk result (left.new.items ≡ left.old.items ++ front_piece start range) }
{
    if range.0 < start {
        left.push((range.0, (range.0 + range.1).min(start) - range.0))?;
        return Ok(());
    }
    Ok(())
}

fn push_back(left: &mut Vec<(u64, u64)>, range: (u64, u64), end: u64) -> Result<(), NoMemory>
    requires { range.0 + range.1 < 2 ^ 64 }
    ensures { OnOk result (left.new.items ≡ left.old.items ++ back_piece end range) }
{
    if end < range.0 + range.1 {
        let first = range.0.max(end);
        left.push((first, range.0 + range.1 - first))?;
        return Ok(());
    }
    Ok(())
}
