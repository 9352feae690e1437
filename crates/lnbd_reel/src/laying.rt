//! What was told of blocks is laid out as runs: whole blocks that were told as zero, and what is to be read between them.

ghost use Rattle.std.specs.Prelude.{◌≡◌, ◌≤◌, ◌<◌, ◌+◌, ◌-◌, ◌/◌, ◌^◌, [], ℕ, IfOk, OnOk, true};
ghost use Rattle.lnbd_asked.specs.Transcript.{zero_in};
ghost use Rattle.lnbd_records.specs.Flags.{state_zero};
ghost use Rattle.lnbd_records.specs.Numbers.{has_bit};
ghost use Rattle.lnbd_reel.specs.Laying.{LaysOn, LaysOne, PushesRun, ZerosAreSpared, zero_among};
ghost use Rattle.lnbd_reel.specs.Reel.{AreRuns, IsInWhole};

use crate::reel::{Run, Runs};
use lnbd_model::Extent;
use lnbd_records::names::STATE_ZERO;
use std::alloc::AllocError;

fn is_zero(flags: u64) -> bool
    ensures { result ≡ has_bit state_zero flags }
{
    flags & STATE_ZERO != 0
}

/// The place where the block begins that has this one.
fn down(at: u64, block: u64) -> u64
    requires { 0 < block }
    ensures low { result ≤ at }
    ensures same { (p : ℕ) → result ≤ p → p ≤ at → p / block ≡ at / block }
{
    at - at % block
}

/// The place where a block begins, this one or the next behind it.
fn up(at: u64, block: u64) -> u64
    requires some { 0 < block }
    requires room { at + block ≤ 2 ^ 64 }
    ensures high { at ≤ result }
    ensures same { (p : ℕ) → at ≤ p → p < result → (0 < at) × (p / block ≡ (at - 1) / block) }
{
    match at % block {
        0 => at,
        past => at + (block - past),
    }
}

/// Adds a run from one place to another, if it has any position.
fn push_run(runs: &mut Runs, from: u64, end: u64, zero: bool) -> Result<(), AllocError>
    requires { from ≤ end }
    ensures { OnOk result (PushesRun runs.old from end zero runs.new) }
{
    if from == end {
        return Ok(());
    }
    runs.push(Run { end, zero })
}

/// How far extents were laid out.
#[derive(Clone, Copy, Debug, PartialEq, Eq)]
struct Laying {
    /// Where the extents so far end.
    at: u64,
    /// Where the zeros begin that end there.
    zeros: u64,
    /// Up to where runs were laid.
    laid: u64,
}

/// Lays out the whole blocks among the zeros so far, and what lies before them.
fn close(runs: &mut Runs, laying: Laying, block: u64) -> Result<u64, AllocError>
    requires some { (0 < block) × (block ≤ 65536) }
    requires order { (laying.laid ≤ laying.zeros) × (laying.zeros ≤ laying.at) × (laying.at ≤ 2 ^ 63) }
    ensures lays { IfOk result (λ laid. LaysOn laying block runs.old laid runs.new) }
{
    let first = up(laying.zeros, block);
    let last = down(laying.at, block);
    if first >= last {
        return Ok(laying.laid);
    }
    push_run(runs, laying.laid, first, false)?;
    push_run(runs, first, last, true)?;
    Ok(last)
}

/// Goes on by one extent.
fn lay_one(
    runs: &mut Runs,
    laying: Laying,
    extent: Extent,
    end: u64,
    block: u64,
) -> Result<Laying, AllocError>
    requires some { (0 < block) × (block ≤ 65536) }
    requires order { (laying.laid ≤ laying.zeros) × (laying.zeros ≤ laying.at) × (laying.at ≤ end) × (end ≤ 2 ^ 63) }
    ensures lays { IfOk result (λ next. LaysOne laying extent end block runs.old next runs.new) }
{
    let at = laying.at + extent.length.min(end - laying.at);
    if at == laying.at || is_zero(extent.flags) {
        return Ok(Laying {
            at,
            zeros: laying.zeros,
            laid: laying.laid,
        });
    }
    let laid = close(runs, laying, block)?;
    Ok(Laying {
        at,
        zeros: at,
        laid,
    })
}

/// How far a range is told in whole blocks, where extents tell of it up to `at` and runs were laid: one block at least.
fn told_to(at: u64, laid: u64, from: u64, size: u64, block: u64) -> u64
    requires some { (0 < block) × (0 < size) }
    requires order { (from ≤ laid) × (laid ≤ at) × (at ≤ from + size) }
    requires room { (from + size ≤ 2 ^ 63) × (block ≤ 65536) }
    ensures { (from < result) × (laid ≤ result) × (result ≤ from + size) }
{
    let to = down(at, block).max(laid);
    if to == from {
        return from + block.min(size);
    }
    to
}

/// Lays out what extents tell of a range, and answers how far they tell of whole blocks: one block at least.
pub fn lay(
    runs: &mut Runs,
    extents: &[Extent],
    from: u64,
    size: u64,
    block: u64,
) -> Result<u64, AllocError>
    requires none { runs.old ≡ [] }
    requires some { (0 < block) × (block ≤ 65536) × (0 < size) }
    requires room { from + size ≤ 2 ^ 63 }
    ensures within { IfOk result (λ to. (from < to) × (to ≤ from + size)) }
    ensures runs { IfOk result (λ to. AreRuns (λ p. zero_in from extents.now p ≡ true) from runs.new to) }
    ensures spared { IfOk result (λ to. ZerosAreSpared block (zero_among from size extents.now) from runs.new to) }
    ensures beyond { IfOk result (λ to. (p : ℕ) → to ≤ p → IsInWhole block (λ q. zero_among from size extents.now q ≡ true) p → ⊥) }
{
    let end = from + size;
    let mut laying = Laying {
        at: from,
        zeros: from,
        laid: from,
    };
    'extents: for extent in extents {
        laying = lay_one(runs, laying, *extent, end, block)?;
    }
    let laid = close(runs, laying, block)?;
    let to = told_to(laying.at, laid, from, size, block);
    push_run(runs, laid, to, false)?;
    Ok(to)
}
