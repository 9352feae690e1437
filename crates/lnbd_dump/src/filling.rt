//! Parts of a range are begun, sixteen at a time. What they tell is no matter here.

ghost use Rattle.std.specs.Prelude.{◌≡◌, ◌≤◌, ◌<◌, ◌+◌, ℕ, IfOk, OnErr, OnOk, Some, length, slice_get};
ghost use Rattle.lnbd_poll.specs.Seen.{Seen};
ghost use Rattle.lnbd_waits.specs.Waits.{Holds};
ghost use Rattle.lnbd_dump.specs.Filling.{AreInOrder, BeginsPart, Continues, FollowEach, IsLeft};
ghost use Rattle.lnbd_dump.specs.Leads.{Acts};
ghost use Rattle.lnbd_dump.specs.Showing.{StaysWell};
ghost use Rattle.lnbd_dump.specs.Stops.{HasStop, IsPlain};
ghost use Rattle.lnbd_dump.specs.declared.reader.Reader.{Reader as Calls};
ghost use Rattle.lnbd_dump.specs.Conduct.{max_piece};

use crate::asking::{Plan, ask_read};
use crate::reader::{Latest, Reader};
use crate::stop::Stop;
use lnbd_poll::Handles;
use lnbd_reel::{Part, Reel, Run, Runs};
use lnbd_waits::Halt;
use std::alloc::Global;

/// How many parts are under way at once.
const AHEAD: usize = 16;

/// The next part of a run: all of it where it was told as zero, else a piece that is asked for.
fn part_of(
    alloc: Global,
    handles: &mut Handles<Reader>,
    world: &mut Latest,
    plan: Plan,
    run: Run,
) -> Result<Part, Stop>
    requires one { length handles.old ≡ 1 }
    requires some { (plan.at < run.end) × (0 < plan.piece) × (plan.piece ≤ max_piece) }
    ensures begins { Acts handles.old handles.new (λ before after. HasStop result after.history × OnErr result (StaysWell before.history after.history) × IfOk result (λ part. BeginsPart plan run part before.history after.history)) }
    ensures world { OnOk result (world.new ≡ world.old) }
    ensures start { IfOk result (λ part. part.start ≡ plan.at) }
    ensures within { IfOk result (λ part. (0 < part.length) × (plan.at + part.length ≤ run.end)) }
    ensures plain { IsPlain result }
{
    if run.zero {
        return Ok(Part {
            start: plan.at,
            length: run.end - plan.at,
            cookie: None,
        });
    }
    let length = plan.piece.min(run.end - plan.at);
    match ask_read(alloc, handles, world, plan.at, length) {
        Ok(cookie) => Ok(Part {
            start: plan.at,
            length,
            cookie: Some(cookie),
        }),
        Err(stop) => Err(stop),
    }
}

/// So many positions of the first run are begun.
fn advance(plan: &mut Plan, run: Run, length: u64, runs: &mut Runs)
    requires run { slice_get runs.old 0 ≡ Some run }
    requires within { plan.old.at + length ≤ run.end }
    ensures plan { plan.new ≡ record plan.old { at = plan.old.at + length } }
    ensures left { IsLeft run runs.old plan.new.at runs.new }
{
    plan.at += length;
    if plan.at == run.end {
        let _ = runs.take();
    }
}

/// Begins the next part of the first run.
fn begin(
    alloc: Global,
    handles: &mut Handles<Reader>,
    world: &mut Latest,
    plan: &mut Plan,
    run: Run,
    runs: &mut Runs,
    reel: &mut Reel,
) -> Result<(), Stop>
    requires one { length handles.old ≡ 1 }
    requires run { slice_get runs.old 0 ≡ Some run }
    requires order { AreInOrder plan.old.at runs.old plan.old.known }
    requires some { (plan.old.at < run.end) × (run.end ≤ plan.old.known) × (0 < plan.old.piece) × (plan.old.piece ≤ max_piece) }
    ensures begins { Acts handles.old handles.new (λ before after. HasStop result after.history × Continues result plan.old runs.old reel.old world.old before.history plan.new runs.new reel.new world.new after.history) }
    ensures order { OnOk result (AreInOrder plan.new.at runs.new plan.new.known) }
    ensures follow { OnOk result ((from : ℕ) → FollowEach from reel.old plan.old.at → FollowEach from reel.new plan.new.at) }
    ensures same { plan.new ≡ record plan.old { at = plan.new.at } }
    ensures more { OnOk result (0 < length reel.new) }
    ensures plain { IsPlain result }
{
    let part = match part_of(alloc, handles, world, *plan, run) {
        Ok(part) => part,
        Err(stop) => return Err(stop),
    };
    if let Err(_) = reel.push(part) {
        return Err(Stop::Halted(Halt::NoMemory));
    }
    advance(plan, run, part.length, runs);
    Ok(())
}

/// Begins as many parts as may be under way.
pub(crate) fn fill(
    alloc: Global,
    handles: &mut Handles<Reader>,
    world: &mut Latest,
    plan: &mut Plan,
    runs: &mut Runs,
    reel: &mut Reel,
) -> Result<(), Stop>
    requires reached { (seen : Seen Calls) × Holds handles.old seen }
    requires order { AreInOrder plan.old.at runs.old plan.old.known }
    requires piece { (0 < plan.old.piece) × (plan.old.piece ≤ max_piece) }
    ensures begins { Acts handles.old handles.new (λ before after. HasStop result after.history × Continues result plan.old runs.old reel.old world.old before.history plan.new runs.new reel.new world.new after.history) }
    ensures order { OnOk result (AreInOrder plan.new.at runs.new plan.new.known) }
    ensures follow { OnOk result ((from : ℕ) → FollowEach from reel.old plan.old.at → FollowEach from reel.new plan.new.at) }
    ensures same { plan.new ≡ record plan.old { at = plan.new.at } }
    ensures more { OnOk result (0 < length runs.old → 0 < length reel.new) }
    ensures plain { IsPlain result }
{
    'ahead: for _i in 0..AHEAD {
        let run = match runs.first() {
            Some(first) => first,
            None => return Ok(()),
        };
        if let Err(stop) = begin(alloc, handles, world, plan, run, runs, reel) {
            return Err(stop);
        }
    }
    Ok(())
}
