//! Ranges in pages, so that an addition in any order moves the ranges of one page and no others. What is told of a
//! position is not known here.

ghost use Rattle.std.specs.Prelude.{◌≡◌, ℕ, ◌+◌, ◌<◌, ◌≤◌, ◌^◌, ◌↔◌, ◌++◌, true, false, OnOk, OnErr, IsErrOf, length, get_or, slice_set, take, drop};
ghost use Rattle.lnbd_extents.specs.Ranges.{adding, IsFrom, AreUpTo};
ghost use Rattle.lnbd_extents.specs.Spots.{meets, covers, place};
ghost use Rattle.lnbd_extents.specs.Pages.{ranges_of, AreFilled, AreFull, page_at, IsPageOf, IsNextPage};

use crate::page::Page;
use crate::places::{Side, has_all, has_some, place_of};
use crate::ranges::AddFault;
use lnbd_model::NoMemory;
use std::alloc::Global;

/// How many ranges a page has before it is cut in two: few enough that they are moved in a moment, and enough that a search
/// over pages is short.
const PAGE: usize = 256;

/// The page to which a position belongs.
#[tactic(auto, using(crate::proofs::CountLaws::filled_read))]
pub(crate) fn page_of(pages: &[Page], position: u64) -> usize
    requires some { 0 < length pages.now }
    requires filled { AreFilled pages.now }
    ensures page { IsPageOf pages.now position result }
    ensures within { result < length pages.now }
{
    let count = pages.len();
    if pages[count - 1].start() <= position {
        return count - 1;
    }
    let mut low = 0;
    let mut high = count;
    while low + 1 < high {
        let middle = low + (high - low) / 2;
        if pages[middle].start() <= position {
            low = middle;
        } else {
            high = middle;
        }
    }
    low
}

/// How positions that end here lie to the page of this number, if there is one.
#[tactic(auto, using(crate::proofs::CountLaws::filled_read))]
fn next_side(pages: &[Page], at: usize, end: u64) -> Side
    requires { AreFilled pages.now }
    ensures { IsNextPage pages.now at end result }
{
    if at >= pages.len() {
        return Side::Apart;
    }
    let start = pages[at].start();
    if end < start {
        return Side::Apart;
    }
    if start == end {
        Side::Joins
    } else {
        Side::Meets
    }
}

/// Whether a range of this page has all these positions.
fn has_all_in(pages: &[Page], at: usize, start: u64, count: u64) -> bool
    requires inside { at < length pages.now }
    requires longest { IsFrom 0 (page_at pages.now at) }
    requires some { 0 < count }
    ensures { result ≡ covers start count (page_at pages.now at) }
{
    has_all(pages[at].ranges(), start, count)
}

/// Whether some of these positions is held in this page.
fn has_some_in(pages: &[Page], at: usize, start: u64, count: u64) -> bool
    requires inside { at < length pages.now }
    requires longest { IsFrom 0 (page_at pages.now at) }
    requires some { 0 < count }
    requires room { start + count < 2 ^ 64 }
    ensures { result ≡ meets start count (page_at pages.now at) }
{
    has_some(pages[at].ranges(), start, count)
}

/// How many ranges of this page start at a position or before it.
fn place_at(pages: &[Page], at: usize, position: u64) -> usize
    requires inside { at < length pages.now }
    requires longest { IsFrom 0 (page_at pages.now at) }
    ensures place { result ≡ place position (page_at pages.now at) }
    ensures within { result ≤ length (page_at pages.now at) }
{
    place_of(pages[at].ranges(), position)
}

/// How long the first range of this page is.
#[tactic(auto, using(crate::proofs::CountLaws::filled_read))]
fn first_length(pages: &[Page], at: usize) -> u64
    requires inside { at < length pages.now }
    requires filled { AreFilled pages.now }
    ensures { result ≡ (get_or (page_at pages.now at) 0 (0, 0)).1 }
{
    let (_, length) = pages[at].range(0);
    length
}

/// Whether one of the ranges has all these positions.
pub(crate) fn has_all_of(pages: &[Page], start: u64, length: u64) -> bool
    requires longest { IsFrom 0 (ranges_of pages.now) }
    requires filled { AreFilled pages.now }
    requires some { 0 < length }
    ensures { result ≡ covers start length (ranges_of pages.now) }
{
    if pages.is_empty() {
        return false;
    }
    let at = page_of(pages, start);
    has_all_in(pages, at, start, length)
}

/// Whether some of these positions is held.
pub(crate) fn has_some_of(pages: &[Page], start: u64, length: u64) -> bool
    requires longest { IsFrom 0 (ranges_of pages.now) }
    requires filled { AreFilled pages.now }
    requires some { 0 < length }
    requires room { start + length < 2 ^ 64 }
    ensures { result ≡ meets start length (ranges_of pages.now) }
{
    if pages.is_empty() {
        return false;
    }
    let at = page_of(pages, start);
    match next_side(pages, at + 1, start + length) {
        Side::Meets => true,
        Side::Joins => has_some_in(pages, at, start, length),
        Side::Apart => has_some_in(pages, at, start, length),
    }
}

/// How many ranges lie in the pages in front of this one.
#[tactic(auto, using(crate::proofs::CountLaws::take_read, crate::proofs::CountLaws::read_le, crate::proofs::CountLaws::full_le, crate::proofs::CountLaws::full_length))]
pub(crate) fn count_before(pages: &[Page], full: usize, at: usize) -> usize
    requires full { AreFull full pages.now }
    requires within { at ≤ length pages.now }
    requires room { length (ranges_of pages.now) < 2 ^ 64 }
    ensures { result ≡ length (ranges_of (take at pages.now)) }
{
    let first = at.min(full);
    let mut count = first * PAGE;
    for index in first..at {
        count += pages[index].len();
    }
    count
}

/// In which page the range of this number lies, and where in it.
#[tactic(auto, using(crate::proofs::CountLaws::range_in, crate::proofs::CountLaws::take_read, crate::proofs::CountLaws::take_le, crate::proofs::CountLaws::take_whole, crate::proofs::CountLaws::full_length, crate::proofs::CountLaws::full_at, crate::proofs::CountLaws::full_within))]
pub(crate) fn page_with(pages: &[Page], full: usize, index: usize) -> (usize, usize)
    requires full { AreFull full pages.now }
    requires within { index < length (ranges_of pages.now) }
    ensures page { result.0 < length pages.now }
    ensures place { result.1 < length (page_at pages.now result.0) }
    ensures range { (d : ℕ × ℕ) → get_or (page_at pages.now result.0) result.1 d ≡ get_or (ranges_of pages.now) index d }
{
    if index / PAGE < full {
        return (index / PAGE, index % PAGE);
    }
    let mut at = full;
    let mut left = index - full * PAGE;
    while left >= pages[at].len() {
        left -= pages[at].len();
        at += 1;
    }
    (at, left)
}

/// How many ranges start at this position or before it.
pub(crate) fn place_in(pages: &[Page], full: usize, position: u64) -> usize
    requires longest { IsFrom 0 (ranges_of pages.now) }
    requires filled { AreFilled pages.now }
    requires full { AreFull full pages.now }
    requires room { length (ranges_of pages.now) < 2 ^ 64 }
    ensures { result ≡ place position (ranges_of pages.now) }
{
    if pages.is_empty() {
        return 0;
    }
    let at = page_of(pages, position);
    let before = count_before(pages, full, at);
    before + place_at(pages, at, position)
}

/// Adds positions, where none of them is held, by the page to which the first of them belongs.
pub(crate) fn put(pages: &mut Vec<Page>, at: usize, start: u64, count: u64) -> Result<(), AddFault>
    requires longest { IsFrom 0 (ranges_of pages.old.items) }
    requires within { AreUpTo (2 ^ 63) (ranges_of pages.old.items) }
    requires filled { AreFilled pages.old.items }
    requires page { IsPageOf pages.old.items start at }
    requires inside { at < length pages.old.items }
    requires some { 0 < count }
    requires room { start + count ≤ 2 ^ 63 }
    ensures ok { OnOk result (ranges_of pages.new.items ≡ adding start count (ranges_of pages.old.items)) }
    ensures apart { OnOk result (meets start count (ranges_of pages.old.items) ≡ false) }
    ensures err { OnErr result (pages.new.items ≡ pages.old.items) }
    ensures overlap { IsErrOf result AddFault.Overlap ↔ (meets start count (ranges_of pages.old.items) ≡ true) }
    ensures filled { AreFilled pages.new.items }
    ensures front { take at pages.new.items ≡ take at pages.old.items }
{
    match next_side(pages, at + 1, start + count) {
        Side::Meets => Err(AddFault::Overlap),
        Side::Joins => put_joined(pages, at, start, count),
        Side::Apart => put_apart(pages, at, start, count),
    }
}

/// Adds positions that do not touch the next page.
#[tactic(auto, using(crate::proofs::PageLaws::page_adding, crate::proofs::PageLaws::filled_adding, crate::proofs::PageLaws::page_meets_apart, crate::proofs::PageLaws::page_up_to))]
fn put_apart(pages: &mut Vec<Page>, at: usize, start: u64, count: u64) -> Result<(), AddFault>
    requires longest { IsFrom 0 (ranges_of pages.old.items) }
    requires within { AreUpTo (2 ^ 63) (ranges_of pages.old.items) }
    requires filled { AreFilled pages.old.items }
    requires page { IsPageOf pages.old.items start at }
    requires inside { at < length pages.old.items }
    requires next { IsNextPage pages.old.items (at + 1) (start + count) Side.Apart }
    requires some { 0 < count }
    requires room { start + count ≤ 2 ^ 63 }
    ensures ok { OnOk result (ranges_of pages.new.items ≡ adding start count (ranges_of pages.old.items)) }
    ensures apart { OnOk result (meets start count (ranges_of pages.old.items) ≡ false) }
    ensures err { OnErr result (pages.new.items ≡ pages.old.items) }
    ensures overlap { IsErrOf result AddFault.Overlap ↔ (meets start count (ranges_of pages.old.items) ≡ true) }
    ensures filled { AreFilled pages.new.items }
    ensures front { take at pages.new.items ≡ take at pages.old.items }
{
    put_at(pages, at, start, count)?;
    cut(pages, at);
    Ok(())
}

/// Adds positions that end where the next page starts: its first range goes with them.
#[tactic(auto, using(crate::proofs::PageLaws::page_joined, crate::proofs::PageLaws::filled_adding, crate::proofs::PageLaws::filled_at, crate::proofs::PageLaws::take_shorter, crate::proofs::PageLaws::page_meets_joined, crate::proofs::PageLaws::joined_room, crate::proofs::PageLaws::page_up_to))]
fn put_joined(pages: &mut Vec<Page>, at: usize, start: u64, count: u64) -> Result<(), AddFault>
    requires longest { IsFrom 0 (ranges_of pages.old.items) }
    requires within { AreUpTo (2 ^ 63) (ranges_of pages.old.items) }
    requires filled { AreFilled pages.old.items }
    requires page { IsPageOf pages.old.items start at }
    requires inside { at < length pages.old.items }
    requires next { IsNextPage pages.old.items (at + 1) (start + count) Side.Joins }
    requires some { 0 < count }
    requires room { start + count ≤ 2 ^ 63 }
    ensures ok { OnOk result (ranges_of pages.new.items ≡ adding start count (ranges_of pages.old.items)) }
    ensures apart { OnOk result (meets start count (ranges_of pages.old.items) ≡ false) }
    ensures err { OnErr result (pages.new.items ≡ pages.old.items) }
    ensures overlap { IsErrOf result AddFault.Overlap ↔ (meets start count (ranges_of pages.old.items) ≡ true) }
    ensures filled { AreFilled pages.new.items }
    ensures front { take at pages.new.items ≡ take at pages.old.items }
{
    let more = first_length(pages, at + 1);
    put_at(pages, at, start, count + more)?;
    remove_first(pages, at + 1);
    cut(pages, at);
    Ok(())
}

/// Adds positions to a page.
fn put_at(pages: &mut Vec<Page>, at: usize, start: u64, count: u64) -> Result<(), AddFault>
    requires inside { at < length pages.old.items }
    requires longest { IsFrom 0 (page_at pages.old.items at) }
    requires within { AreUpTo (2 ^ 63) (page_at pages.old.items at) }
    requires some { 0 < count }
    requires room { start + count ≤ 2 ^ 63 }
    ensures ok { OnOk result (pages.new.items ≡ slice_set pages.old.items at (adding start count (page_at pages.old.items at))) }
    ensures apart { OnOk result (meets start count (page_at pages.old.items at) ≡ false) }
    ensures err { OnErr result (pages.new.items ≡ pages.old.items) }
    ensures overlap { IsErrOf result AddFault.Overlap ↔ (meets start count (page_at pages.old.items at) ≡ true) }
{
    pages[at].put(start, count)
}

/// Takes the first range of a page away.
#[tactic(auto, using(crate::proofs::PageLaws::first_gone_set, crate::proofs::PageLaws::take_removed, crate::proofs::PageLaws::first_gone_removed, crate::proofs::PageLaws::filled_gone, crate::proofs::PageLaws::filled_remove))]
fn remove_first(pages: &mut Vec<Page>, at: usize)
    requires inside { at < length pages.old.items }
    requires some { 0 < length (page_at pages.old.items at) }
    requires filled { AreFilled pages.old.items }
    ensures ranges { ranges_of pages.new.items ≡ ranges_of (take at pages.old.items) ++ drop 1 (ranges_of (drop at pages.old.items)) }
    ensures filled { AreFilled pages.new.items }
    ensures front { take at pages.new.items ≡ take at pages.old.items }
{
    if pages[at].len() == 1 {
        pages.remove(at);
        return;
    }
    pages[at].remove_first();
}

/// Cuts a page that has too many ranges in two, where memory allows. The last page keeps as many as fit, so that
/// ranges that are added in rising order fill their pages.
fn cut(pages: &mut Vec<Page>, at: usize)
    requires inside { at < length pages.old.items }
    requires filled { AreFilled pages.old.items }
    ensures ranges { ranges_of pages.new.items ≡ ranges_of pages.old.items }
    ensures filled { AreFilled pages.new.items }
    ensures front { take at pages.new.items ≡ take at pages.old.items }
{
    let count = pages[at].len();
    if count <= PAGE {
        return;
    }
    let kept = if at + 1 == pages.len() && count == PAGE + 1 {
        PAGE
    } else {
        count / 2
    };
    let _ = cut_at(pages, at, kept);
}

/// Cuts a page in two. On `NoMemory` nothing changes.
#[tactic(auto, using(crate::proofs::PageLaws::ranges_cut, crate::proofs::PageLaws::filled_cut, crate::proofs::PageLaws::take_cut))]
fn cut_at(pages: &mut Vec<Page>, at: usize, kept: usize) -> Result<(), NoMemory>
    requires inside { at < length pages.old.items }
    requires filled { AreFilled pages.old.items }
    requires front { 0 < kept }
    requires rest { kept < length (page_at pages.old.items at) }
    ensures ranges { ranges_of pages.new.items ≡ ranges_of pages.old.items }
    ensures filled { AreFilled pages.new.items }
    ensures front { take at pages.new.items ≡ take at pages.old.items }
{
    pages.reserve(1)?;
    let rest = pages[at].split_off(kept)?;
    if pages.insert(at + 1, rest).is_err() {
        unreachable!()
    }
    Ok(())
}

/// How many of the first pages are full, as far as the last change shows.
#[tactic(auto, using(crate::proofs::CountLaws::full_more))]
pub(crate) fn full_pages(pages: &[Page], full: usize) -> usize
    requires { AreFull full pages.now }
    ensures { AreFull result pages.now }
{
    if full < pages.len() && pages[full].len() == PAGE {
        return full + 1;
    }
    full
}
