//! A page: some ranges that are neighbours. Which pages lie beside it is not known here.

ghost use Rattle.std.specs.Prelude.{◌≡◌, ℕ, ◌+◌, ◌<◌, ◌≤◌, ◌^◌, ◌↔◌, [], ◌∷◌, ◌++◌, true, false, IfOk, OnOk, OnErr, IsErrOf, length, get_or, drop};
ghost use Rattle.lnbd_extents.specs.Ranges.{adding, IsFrom, AreUpTo};
ghost use Rattle.lnbd_extents.specs.Spots.{meets};

use crate::places::{Spot, spot_of};
use crate::ranges::AddFault;
use lnbd_model::NoMemory;
use std::alloc::Global;
use std::marker::Model;

/// Ranges that are neighbours, in rising order.
#[derive(Debug, Drop)]
pub(crate) struct Page {
    ranges: Vec<(u64, u64)>,

    /// Where the first of them starts, so that a search over pages opens none.
    start: u64,
}

impl Model for Page {
    ghost use Rattle.std.specs.Prelude.{◌≡◌, ℕ, List, get_or};

    ghost Value = { List (ℕ × ℕ) };

    ghost view = { λ p. p.ranges.items };

    ghost invariant = { λ p. p.start ≡ (get_or p.ranges.items 0 (0, 0)).0 };
}

impl Page {
    pub fn of(ranges: Vec<(u64, u64)>) -> Page
        ensures { result ≡ ranges.items }
    {
        let start = start_of(&ranges);
        Page { ranges, start }
    }

    /// A page of one range.
    pub fn one(alloc: Global, start: u64, length: u64) -> Result<Page, NoMemory>
        ensures { IfOk result (λ page. page ≡ (start, length) ∷ []) }
    {
        let mut ranges = Vec::new(alloc);
        ranges.push((start, length))?;
        Ok(Page { ranges, start })
    }

    pub fn len(&self) -> usize
        ensures { result ≡ length self.now }
    {
        self.ranges.len()
    }

    pub fn ranges(&self) -> &[(u64, u64)]
        ensures { result.now ≡ self.now }
    {
        &self.ranges
    }

    pub fn range(&self, index: usize) -> (u64, u64)
        requires { index < length self.now }
        ensures { (d : ℕ × ℕ) → result ≡ get_or self.now index d }
    {
        self.ranges[index]
    }

    /// Where the first range starts; 0 where there is none.
    pub fn start(&self) -> u64
        ensures { result ≡ (get_or self.now 0 (0, 0)).0 }
    {
        self.start
    }

    /// Takes the first range away.
    pub fn remove_first(&mut self)
        requires { 0 < length self.old }
        ensures { self.new ≡ drop 1 self.old }
    {
        self.ranges.remove(0);
        self.start = start_of(&self.ranges);
    }

    /// Takes the ranges from a place on into a page of their own. On `NoMemory` nothing changes.
    pub fn split_off(&mut self, at: usize) -> Result<Page, NoMemory>
        requires { at ≤ length self.old }
        ensures parts { IfOk result (λ rest. self.old ≡ self.new ++ rest) }
        ensures front { OnOk result (length self.new ≡ at) }
        ensures rest { IfOk result (λ rest. at + length rest ≡ length self.old) }
        ensures err { OnErr result (self.new ≡ self.old) }
    {
        let ranges = self.ranges.split_off(at)?;
        self.start = start_of(&self.ranges);
        Ok(Page::of(ranges))
    }

    /// Adds positions, where none of them is held in this page.
    pub fn put(&mut self, start: u64, length: u64) -> Result<(), AddFault>
        requires longest { IsFrom 0 self.old }
        requires within { AreUpTo (2 ^ 63) self.old }
        requires some { 0 < length }
        requires room { start + length ≤ 2 ^ 63 }
        ensures ok { OnOk result (self.new ≡ adding start length self.old) }
        ensures apart { OnOk result (meets start length self.old ≡ false) }
        ensures err { OnErr result (self.new ≡ self.old) }
        ensures overlap { IsErrOf result AddFault.Overlap ↔ (meets start length self.old ≡ true) }
    {
        let added = put(&mut self.ranges, start, length);
        self.start = start_of(&self.ranges);
        added
    }
}

/// Where the first range starts; 0 where there is none.
fn start_of(ranges: &[(u64, u64)]) -> u64
    ensures { result ≡ (get_or ranges.now 0 (0, 0)).0 }
{
    if ranges.is_empty() {
        return 0;
    }
    ranges[0].0
}

fn put(items: &mut Vec<(u64, u64)>, start: u64, length: u64) -> Result<(), AddFault>
    requires longest { IsFrom 0 items.old.items }
    requires within { AreUpTo (2 ^ 63) items.old.items }
    requires some { 0 < length }
    requires room { start + length ≤ 2 ^ 63 }
    ensures ok { OnOk result (items.new.items ≡ adding start length items.old.items) }
    ensures apart { OnOk result (meets start length items.old.items ≡ false) }
    ensures err { OnErr result (items.new.items ≡ items.old.items) }
    ensures overlap { IsErrOf result AddFault.Overlap ↔ (meets start length items.old.items ≡ true) }
{
    match spot_of(items, start, length) {
        Spot::Overlap => return Err(AddFault::Overlap),
        Spot::Apart(at) => {
            if items.insert(at, (start, length)).is_err() {
                return Err(AddFault::NoMemory);
            }
        }
        Spot::Before(at) => {
            let more = items[at].1;
            items[at] = (start, length + more);
        }
        Spot::After(at) => {
            items[at].1 += length;
        }
        Spot::Between(at) => {
            let more = items[at + 1].1;
            items[at].1 += length + more;
            items.remove(at + 1);
        }
    }
    Ok(())
}
