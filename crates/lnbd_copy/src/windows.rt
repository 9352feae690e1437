//! The windows of a copy: how far the source's extents were asked for and told, and the slices that are planned of it.
//! One window after another is asked for; which connection is asked, and when, is not known here.

ghost use Rattle.std.specs.Prelude.{◌≡◌, ◌<◌, ◌≤◌, ◌⊎◌, ◌+◌, ◌-◌, ◌*◌, ◌/◌, ◌^◌, ℕ, Bool, true, false, not, ◌||◌, ◌==◌, ◌↔◌, nat_lt, min, length, List, [], ◌++◌, IfSome, IsSome, is_some, IfOk, OnOk, None, option_to_list};
ghost use Rattle.std.specs.Option.{option_map};
ghost use Rattle.lnbd_extents.specs.Positions.{within, holds};
ghost use Rattle.lnbd_extents.specs.Lists.{flags_at, AreJoined};
ghost use Rattle.lnbd_asked.specs.Transcript.{is_zero};
ghost use Rattle.lnbd_tracks.specs.Saying.{is_told};
ghost use Rattle.lnbd_conduct.specs.Slices.{window};
ghost use Rattle.lnbd_copy.specs.Spared.{HaveOneFlag, IsInside, whole_within};
ghost use Rattle.lnbd_copy.specs.Windows.{zero_within};

use lnbd_conduct::Terms;
use lnbd_extents::{Ranges, push_joined};
use lnbd_model::{Extent, NoMemory};
use lnbd_plan::{Plan, Slice};
use lnbd_records::names::STATE_ZERO;
use std::alloc::Global;
use std::marker::Model;

/// The bytes of a window, and the most of which extents are asked for at once.
const WINDOW: u64 = 134_217_728;

/// A range of the source whose extents are to be asked for.
#[derive(Clone, Copy, Debug, PartialEq, Eq)]
pub struct Wanted {
    pub offset: u64,
    pub length: u64,
}

/// The slices that are planned, and how far they are.
#[derive(Drop)]
pub struct Windows {
    alloc: Global,
    plan: Plan,
    size: u64,
    grain: u64,
    // Where the window begins that is asked for; how far its extents are told, and which of its blocks as zero.
    start: u64,
    at: u64,
    zero: Ranges,
}

impl Model for Windows {
    ghost use Rattle.lnbd_copy.specs.Windows.{Seen, AreKept};

    ghost Value = { Seen };

    ghost view = { λ w. record { plan = w.plan; size = w.size; grain = w.grain; at = w.at; zero = w.zero } };

    ghost invariant = { λ w. AreKept w.plan w.start w.at w.size w.grain };
}

impl Windows {
    ghost use Rattle.lnbd_plan.specs.declared.grid.Slice.{Slice};
    ghost use Rattle.lnbd_copy.specs.Heard.{IsHeardTo, passed_heard};
    ghost use Rattle.lnbd_copy.specs.Reached.{IsToldTo, told_heard};
    ghost use Rattle.lnbd_copy.specs.Spared.{IsSpared, whole_heard};
    ghost use Rattle.lnbd_copy.specs.Windows.{wanted, zero_heard, IsFit, IsPlanned};

    /// No window yet.
    pub fn new(alloc: Global, terms: Terms) -> Windows
        requires cells { (0 < terms.cell) × (0 < terms.zero_cell) × (0 < terms.grain) }
        requires size { terms.size ≤ 2 ^ 63 }
        ensures value { result ≡ record { plan = record { end = 0; slices = []; cells = record { cell = terms.cell; zero_cell = terms.zero_cell; zeros = not terms.how.skip } }; size = terms.size; grain = terms.grain; at = 0; zero = [] } }
        ensures planned { (zero : ℕ → Bool) → IsPlanned result zero [] }
        ensures heard { (heard : ℕ → Bool) → IsHeardTo result heard }
        ensures reached { (reach : ℕ → Bool) → ((p : ℕ) → reach p ≡ false) → IsToldTo result reach }
    {
        Windows {
            alloc,
            plan: Plan::new(alloc, terms.cell, terms.zero_cell, !terms.how.skip),
            size: terms.size,
            grain: terms.grain as u64,
            start: 0,
            at: 0,
            zero: Ranges::new(alloc),
        }
    }

    /// Plans all that is left as bytes of which nothing more is told.
    pub fn plan_rest(&mut self) -> Result<(), NoMemory>
        ensures planned { OnOk result ((zero : ℕ → Bool) (slices : List Slice) → IsPlanned self.old zero slices → IsPlanned self.new zero slices) }
        ensures heard { OnOk result ((heard : ℕ → Bool) → ((p : ℕ) → heard p ≡ true) → IsHeardTo self.new heard) }
        ensures reached { OnOk result ((reach : ℕ → Bool) → ((p : ℕ) → reach p ≡ false) → IsToldTo self.new reach) }
        ensures whole { OnOk result (self.new.plan.end ≡ self.old.size) }
        ensures unwanted { OnOk result (¬ (is_some (wanted self.new) ≡ true)) }
        ensures inside { OnOk result (self.new.at ≤ self.new.size) }
        ensures cells { self.new.plan.cells ≡ self.old.plan.cells }
        ensures size { self.new.size ≡ self.old.size }
        ensures grain { self.new.grain ≡ self.old.grain }
    {
        self.plan
            .window(self.start, self.size - self.start, &self.zero)?;
        self.start = self.size;
        self.at = self.size;
        Ok(())
    }

    /// The range whose extents are to be asked for next, if windows are left.
    pub fn wanted(&self) -> Option<Wanted>
        ensures { option_map (λ range. (range.offset, range.length)) result ≡ wanted self.now }
    {
        let end = end_of(self.start, self.size);
        if self.at < end {
            return Some(Wanted {
                offset: self.at,
                length: end - self.at,
            });
        }
        None
    }

    /// Takes the extents that were told of the range that was wanted. A window that is told whole is planned.
    pub fn hear(&mut self, told: &[Extent]) -> Result<(), NoMemory>
        ensures planned { OnOk result ((zero : ℕ → Bool) (slices : List Slice) → IsPlanned self.old zero slices
            → IsPlanned self.new (λ p. zero p || zero_heard (wanted self.old) told.now p) slices) }
        ensures spared { OnOk result ((whole : ℕ → Bool) (slices : List Slice) → IsSpared self.old whole slices
            → IsSpared self.new (λ p. whole p || whole_heard self.old.grain (wanted self.old) told.now p) slices) }
        ensures heard { OnOk result ((heard : ℕ → Bool) → IsHeardTo self.old heard → IsHeardTo self.new (λ p. heard p || passed_heard self.old.grain (wanted self.old) told.now p)) }
        ensures reached { OnOk result ((reach : ℕ → Bool) → IsToldTo self.old reach → IsToldTo self.new (λ p. reach p || told_heard (wanted self.old) told.now p)) }
        ensures cells { self.new.plan.cells ≡ self.old.plan.cells }
        ensures size { self.new.size ≡ self.old.size }
        ensures grain { self.new.grain ≡ self.old.grain }
        ensures unwanted { wanted self.old ≡ None → self.new ≡ self.old }
        ensures ahead { OnOk result (is_some (wanted self.old) ≡ true → self.old.at < self.new.at) }
        ensures inside { OnOk result (self.new.at ≤ self.new.size) }
    {
        let end = end_of(self.start, self.size);
        if end <= self.at {
            return Ok(());
        }
        let most = end - self.at;
        let joined = joined(self.alloc, told, most)?;
        let reached = hold_zeroes(&mut self.zero, &joined, self.at, most, self.grain)?;
        let at = self.at + passed(reached, self.grain, most);
        if at < end {
            self.at = at;
            return Ok(());
        }
        self.plan.window(self.start, at - self.start, &self.zero)?;
        self.start = at;
        self.at = at;
        self.zero = Ranges::new(self.alloc);
        Ok(())
    }

    /// Whether a part of a window was told, and not all of it.
    pub fn is_under_way(&self) -> bool
        ensures { result ≡ nat_lt self.now.plan.end self.now.at }
    {
        self.start < self.at
    }

    /// Whether all windows are planned.
    pub fn are_planned(&self) -> bool
        ensures { result ≡ (self.now.plan.end == self.now.size) }
    {
        self.start == self.size
    }

    /// The next slice, if one is planned.
    pub fn next(&mut self) -> Option<Slice>
        ensures slices { self.old.plan.slices ≡ option_to_list result ++ self.new.plan.slices }
        ensures some { IsSome result ↔ (0 < length self.old.plan.slices) }
        ensures others { self.new ≡ record self.old { plan = record self.old.plan { slices = self.new.plan.slices } } }
        ensures room { IfSome result (λ slice. slice.start + slice.length ≤ 2 ^ 63) }
        ensures fits { IfSome result (λ slice. IsFit self.old.size self.old.plan.cells slice) }
        ensures copied { IfSome result (λ slice. slice.zero ≡ true → self.old.plan.cells.zeros ≡ true) }
    {
        self.plan.next()
    }

    /// How many slices are planned and still to come.
    pub fn left(&self) -> u64
        ensures left { result ≡ length self.now.plan.slices }
        ensures wanted { self.now.plan.end < self.now.size → is_some (wanted self.now) ≡ true }
        ensures ahead { self.now.plan.end ≤ self.now.at }
    {
        self.plan.left()
    }
}

/// Where the window ends that begins here.
fn end_of(start: u64, size: u64) -> u64
    requires { start ≤ size }
    ensures end { result ≡ min (start + window) size }
    ensures order { (start ≤ result) × (result ≤ size) }
{
    start + WINDOW.min(size - start)
}

/// What was told, with STATE_ZERO as the one flag, equal neighbours joined, up to so many bytes.
fn joined(alloc: Global, told: &[Extent], most: u64) -> Result<Vec<Extent>, NoMemory>
    requires { most ≤ 2 ^ 63 }
    ensures told { IfOk result (λ list. (p : ℕ) → is_zero (flags_at list.items p) ≡ true → is_zero (flags_at told.now p) ≡ true) }
    ensures all { IfOk result (λ list. (p : ℕ) → p < most → is_zero (flags_at told.now p) ≡ true → is_zero (flags_at list.items p) ≡ true) }
    ensures reach { IfOk result (λ list. (p : ℕ) → p < most → is_told (flags_at told.now p) ≡ true → is_told (flags_at list.items p) ≡ true) }
    ensures told_so { IfOk result (λ list. (p : ℕ) → is_told (flags_at list.items p) ≡ true → is_told (flags_at told.now p) ≡ true) }
    ensures joined { IfOk result (λ list. AreJoined list.items) }
    ensures one { IfOk result (λ list. HaveOneFlag list.items) }
{
    let mut list = Vec::new(alloc);
    let mut left = most;
    'extents: for extent in told {
        let length = extent.length.min(left);
        push_joined(
            &mut list,
            Extent {
                length,
                flags: extent.flags & STATE_ZERO,
            },
        )?;
        left -= length;
    }
    Ok(list)
}

/// Holds the whole blocks that are told as zero, and answers how many bytes were told.
fn hold_zeroes(
    zero: &mut Ranges,
    told: &[Extent],
    from: u64,
    most: u64,
    grain: u64,
) -> Result<u64, NoMemory>
    requires room { from + most ≤ 2 ^ 63 }
    requires grain { 0 < grain }
    requires joined { AreJoined told.now }
    requires one { HaveOneFlag told.now }
    ensures reached { IfOk result (λ reached. reached ≤ most) }
    ensures far { IfOk result (λ reached. (p : ℕ) → p < most → is_told (flags_at told.now p) ≡ true → p < reached) }
    ensures near { IfOk result (λ reached. (p : ℕ) → p < reached → is_told (flags_at told.now p) ≡ true) }
    ensures held { OnOk result ((p : ℕ) → holds zero.new p ≡ true → holds zero.old p || zero_within (from, most) told.now p ≡ true) }
    ensures kept { OnOk result ((p : ℕ) → holds zero.old p ≡ true → holds zero.new p ≡ true) }
    ensures whole { OnOk result ((p : ℕ) → whole_within grain (from, most) told.now p ≡ true → holds zero.new p ≡ true) }
{
    let mut reached: u64 = 0;
    'extents: for extent in told {
        let length = extent.length.min(most - reached);
        if extent.flags & STATE_ZERO != 0 {
            hold_blocks(zero, from + reached, length, grain)?;
        }
        reached += length;
    }
    Ok(reached)
}

/// Holds the whole blocks of a range.
fn hold_blocks(zero: &mut Ranges, start: u64, length: u64, grain: u64) -> Result<(), NoMemory>
    requires room { start + length ≤ 2 ^ 63 }
    requires grain { 0 < grain }
    ensures held { OnOk result ((p : ℕ) → holds zero.new p ≡ true → within (start, length) p || holds zero.old p ≡ true) }
    ensures kept { OnOk result ((p : ℕ) → holds zero.old p ≡ true → holds zero.new p ≡ true) }
    ensures whole { OnOk result ((p : ℕ) → IsInside grain start length p → holds zero.new p ≡ true) }
{
    let first = first_block(start, grain);
    let last = last_block(start + length, grain);
    if first < last {
        zero.hold(first, last - first)?;
    }
    Ok(())
}

/// Where the first block begins that doesn't begin before this place.
fn first_block(start: u64, grain: u64) -> u64
    requires room { start ≤ 2 ^ 63 }
    requires grain { 0 < grain }
    ensures ahead { start ≤ result }
    ensures first { (p : ℕ) → start ≤ p / grain * grain → result ≤ p / grain * grain }
{
    let over = start % grain;
    if over == 0 {
        return start;
    }
    start - over + grain
}

/// Where the last block ends that doesn't end behind this place.
fn last_block(end: u64, grain: u64) -> u64
    requires { 0 < grain }
    ensures behind { result ≤ end }
    ensures last { (p : ℕ) → p / grain * grain + grain ≤ end → p / grain * grain + grain ≤ result }
{
    end - end % grain
}

/// How far asking goes on where so many bytes were told: to the end where all were, else to the last multiple of the grain, but
/// by a block at least.
fn passed(reached: u64, grain: u64, most: u64) -> u64
    requires grain { 0 < grain }
    requires inside { reached ≤ most }
    ensures inside { result ≤ most }
    ensures whole { reached ≡ most → result ≡ most }
    ensures near { reached < result + grain }
    ensures some { 0 < most → 0 < result }
    ensures told { (result ≤ reached) ⊎ (result ≤ grain) }
    ensures blocks { (result ≡ most) ⊎ (result / grain * grain ≡ result) }
{
    if reached == most {
        return most;
    }
    let whole = reached - reached % grain;
    if whole == 0 {
        return grain.min(most);
    }
    whole
}
