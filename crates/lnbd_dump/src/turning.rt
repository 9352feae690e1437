//! What is awaited of the handle, and what is asked of blocks before they are read.

ghost use Rattle.std.specs.Prelude.{◌≡◌, ◌≤◌, ◌<◌, ◌+◌, [], ℕ, IfOk, OnOk, Err, length};
ghost use Rattle.lnbd_link.specs.Contents.{Keeps};
ghost use Rattle.lnbd_link.specs.Count.{Rises, patience};
ghost use Rattle.lnbd_poll.specs.Seen.{Seen};
ghost use Rattle.lnbd_waits.specs.Waits.{Holds};
ghost use Rattle.lnbd_dump.specs.Filling.{AreInOrder, Continues, FollowEach, Learns};
ghost use Rattle.lnbd_dump.specs.Leads.{GoesTo, GoesQuietly};
ghost use Rattle.lnbd_dump.specs.Stops.{HasEnd, HasStop, IsDry, IsPlain, is_failed};
ghost use Rattle.lnbd_dump.specs.declared.reader.Reader.{Reader as Calls};
ghost use Rattle.lnbd_records.specs.Limits.{max_minimum_block};
ghost use Rattle.lnbd_ask.specs.Maps.{size_end};
ghost use Rattle.lnbd_dump.specs.Conduct.{max_piece};

use crate::asking::{Plan, ask_status, clear_log};
use crate::filling::fill;
use crate::hearing::hear;
use crate::reader::{Latest, Reader};
use crate::stop::Stop;
use crate::taking::take_result;
use lnbd_link::Wires;
use lnbd_model::State;
use lnbd_poll::Handles;
use lnbd_reel::{Reel, Runs};
use lnbd_waits::{Awaited, Halt, settle};
use std::alloc::Global;

/// The most bytes of which the status is asked at once.
const MAX_ASKED: u64 = 134_217_728;

/// What the wires answer is awaited until negotiation came to a stand and nothing is in flight.
pub(crate) fn await_all<W: Wires>(
    handles: &mut Handles<Reader>,
    wires: &mut W,
    world: &mut Latest,
    start: u64,
) -> Result<(), Stop>
    requires reached { (seen : Seen Calls) × Holds handles.old seen }
    requires started { start ≤ W.idles wires.old }
    ensures goes { GoesTo (is_failed result) (W.told wires.old) (W.told wires.new) (W.faults wires.old) (W.faults wires.new) handles.old handles.new (λ before after. HasStop result after.history × GoesQuietly world.old world.new before after) }
    ensures silent { result ≡ Err (Stop.Halted Halt.Silent) → Rises patience start (W.idles wires.new) }
    ensures contents { Keeps (W.contents wires.old) (W.contents wires.new) }
    ensures faults { W.faults wires.old ≤ W.faults wires.new }
    ensures idles { W.idles wires.old ≤ W.idles wires.new }
    ensures dry { IsDry result }
{
    match settle(handles, wires, world, Awaited::Answers, start) {
        Ok(()) => Ok(()),
        Err(halt) => Err(Stop::Halted(halt)),
    }
}

/// It is awaited that what waits to go out is written.
pub(crate) fn await_written<W: Wires>(
    handles: &mut Handles<Reader>,
    wires: &mut W,
    world: &mut Latest,
    start: u64,
) -> Result<(), Stop>
    requires reached { (seen : Seen Calls) × Holds handles.old seen }
    requires started { start ≤ W.idles wires.old }
    ensures goes { GoesTo (is_failed result) (W.told wires.old) (W.told wires.new) (W.faults wires.old) (W.faults wires.new) handles.old handles.new (λ before after. HasStop result after.history × GoesQuietly world.old world.new before after) }
    ensures silent { result ≡ Err (Stop.Halted Halt.Silent) → Rises patience start (W.idles wires.new) }
    ensures contents { Keeps (W.contents wires.old) (W.contents wires.new) }
    ensures faults { W.faults wires.old ≤ W.faults wires.new }
    ensures idles { W.idles wires.old ≤ W.idles wires.new }
    ensures dry { IsDry result }
{
    match settle(handles, wires, world, Awaited::Written, start) {
        Ok(()) => Ok(()),
        Err(halt) => Err(Stop::Halted(halt)),
    }
}

/// Why no more can be asked where the handle is in this state, if so.
fn end_at(at: State) -> Result<(), Stop>
    ensures ends { HasEnd result at }
    ensures plain { IsPlain result }
{
    match at {
        State::Ready => Ok(()),
        State::Dead(death) => Err(Stop::Died(death)),
        _ => Err(Stop::Halted(Halt::NoMemory)),
    }
}

/// Whether more can be asked.
fn check(handles: &Handles<Reader>) -> Result<(), Stop>
    requires { length handles.now ≡ 1 }
    ensures stops { (seen : Seen Calls) → Holds handles.now seen → HasStop result seen.history }
    ensures plain { IsPlain result }
{
    end_at(handles.get(0).state())
}

/// Asks for the status of the next blocks, and lays out what is told of them.
fn ask_more<W: Wires>(
    handles: &mut Handles<Reader>,
    wires: &mut W,
    world: &mut Latest,
    plan: &mut Plan,
    runs: &mut Runs,
    start: u64,
) -> Result<(), Stop>
    requires reached { (seen : Seen Calls) × Holds handles.old seen }
    requires none { runs.old ≡ [] }
    requires some { (plan.old.at ≡ plan.old.known) × (plan.old.at < plan.old.end) × (plan.old.end ≤ size_end) }
    requires block { (0 < plan.old.block) × (plan.old.block ≤ max_minimum_block) }
    requires started { start ≤ W.idles wires.old }
    ensures goes { GoesTo (is_failed result) (W.told wires.old) (W.told wires.new) (W.faults wires.old) (W.faults wires.new) handles.old handles.new (λ before after. HasStop result after.history × Learns result plan.old runs.old world.old before.history plan.new runs.new world.new after.history) }
    ensures order { OnOk result (AreInOrder plan.new.at runs.new plan.new.known) }
    ensures within { OnOk result ((plan.new.at < plan.new.known) × (plan.new.known ≤ plan.new.end)) }
    ensures same { plan.new ≡ record plan.old { known = plan.new.known } }
    ensures silent { result ≡ Err (Stop.Halted Halt.Silent) → Rises patience start (W.idles wires.new) }
    ensures contents { Keeps (W.contents wires.old) (W.contents wires.new) }
    ensures faults { W.faults wires.old ≤ W.faults wires.new }
    ensures idles { W.idles wires.old ≤ W.idles wires.new }
    ensures dry { IsDry result }
{
    let size = MAX_ASKED.min(plan.end - plan.at);
    let cookie = match ask_status(handles, world, plan.at, size) {
        Ok(cookie) => cookie,
        Err(stop) => return Err(stop),
    };
    if let Err(stop) = await_all(handles, wires, world, start) {
        return Err(stop);
    }
    let _told = match take_result(handles, cookie) {
        Ok(bytes) => bytes,
        Err(stop) => return Err(stop),
    };
    if world.short {
        return Err(Stop::Halted(Halt::NoMemory));
    }
    match hear(runs, world, plan.at, size, plan.block) {
        Ok(known) => {
            plan.known = known;
            Ok(())
        }
        Err(_) => Err(Stop::Halted(Halt::NoMemory)),
    }
}

/// Has runs to begin: where none is left, the status of the next blocks is asked.
fn learn<W: Wires>(
    handles: &mut Handles<Reader>,
    wires: &mut W,
    world: &mut Latest,
    plan: &mut Plan,
    runs: &mut Runs,
    start: u64,
) -> Result<(), Stop>
    requires reached { (seen : Seen Calls) × Holds handles.old seen }
    requires order { AreInOrder plan.old.at runs.old plan.old.known }
    requires some { (plan.old.at < plan.old.end) × (plan.old.known ≤ plan.old.end) × (plan.old.end ≤ size_end) }
    requires block { (0 < plan.old.block) × (plan.old.block ≤ max_minimum_block) }
    requires started { start ≤ W.idles wires.old }
    ensures goes { GoesTo (is_failed result) (W.told wires.old) (W.told wires.new) (W.faults wires.old) (W.faults wires.new) handles.old handles.new (λ before after. HasStop result after.history × Learns result plan.old runs.old world.old before.history plan.new runs.new world.new after.history) }
    ensures order { OnOk result (AreInOrder plan.new.at runs.new plan.new.known) }
    ensures more { OnOk result (0 < length runs.new) }
    ensures within { OnOk result (plan.new.known ≤ plan.new.end) }
    ensures same { plan.new ≡ record plan.old { known = plan.new.known } }
    ensures silent { result ≡ Err (Stop.Halted Halt.Silent) → Rises patience start (W.idles wires.new) }
    ensures contents { Keeps (W.contents wires.old) (W.contents wires.new) }
    ensures faults { W.faults wires.old ≤ W.faults wires.new }
    ensures idles { W.idles wires.old ≤ W.idles wires.new }
    ensures dry { IsDry result }
{
    match runs.first() {
        Some(_) => Ok(()),
        None => ask_more(handles, wires, world, plan, runs, start),
    }
}

/// Begins the next parts, and waits until they are read. Where no run is left, the status of the next blocks is asked before.
pub(crate) fn next_batch<W: Wires>(
    alloc: Global,
    handles: &mut Handles<Reader>,
    wires: &mut W,
    world: &mut Latest,
    plan: &mut Plan,
    runs: &mut Runs,
    reel: &mut Reel,
    start: u64,
) -> Result<(), Stop>
    requires reached { (seen : Seen Calls) × Holds handles.old seen }
    requires order { AreInOrder plan.old.at runs.old plan.old.known }
    requires some { (plan.old.at < plan.old.end) × (plan.old.known ≤ plan.old.end) × (plan.old.end ≤ size_end) }
    requires block { (0 < plan.old.block) × (plan.old.block ≤ max_minimum_block) × (0 < plan.old.piece) × (plan.old.piece ≤ max_piece) }
    requires started { start ≤ W.idles wires.old }
    ensures goes { GoesTo (is_failed result) (W.told wires.old) (W.told wires.new) (W.faults wires.old) (W.faults wires.new) handles.old handles.new (λ before after. HasStop result after.history × Continues result plan.old runs.old reel.old world.old before.history plan.new runs.new reel.new world.new after.history) }
    ensures order { OnOk result (AreInOrder plan.new.at runs.new plan.new.known) }
    ensures within { OnOk result (plan.new.known ≤ plan.new.end) }
    ensures follow { OnOk result ((from : ℕ) → FollowEach from reel.old plan.old.at → FollowEach from reel.new plan.new.at) }
    ensures more { OnOk result (0 < length reel.new) }
    ensures same { plan.new ≡ record plan.old { at = plan.new.at; known = plan.new.known } }
    ensures silent { result ≡ Err (Stop.Halted Halt.Silent) → Rises patience start (W.idles wires.new) }
    ensures contents { Keeps (W.contents wires.old) (W.contents wires.new) }
    ensures faults { W.faults wires.old ≤ W.faults wires.new }
    ensures idles { W.idles wires.old ≤ W.idles wires.new }
    ensures dry { IsDry result }
{
    if let Err(stop) = check(handles) {
        return Err(stop);
    }
    clear_log(handles);
    if let Err(stop) = learn(handles, wires, world, plan, runs, start) {
        return Err(stop);
    }
    if let Err(stop) = fill(alloc, handles, world, plan, runs, reel) {
        return Err(stop);
    }
    await_all(handles, wires, world, start)
}
