//! The block status requests by which an export is asked for its map, one after another. What is told of it is not said here.

ghost use Rattle.std.specs.Prelude.{◌≡◌, ◌≤◌, [], Err, OnErr, OnOk, length};
ghost use Rattle.lnbd_extents.specs.Lists.{span};
ghost use Rattle.lnbd_link.specs.Contents.{Keeps};
ghost use Rattle.lnbd_link.specs.Count.{Rises, patience};
ghost use Rattle.lnbd_poll.specs.Seen.{Goes, Seen};
ghost use Rattle.lnbd_ask.specs.declared.survey.Surveyor.{Surveyor as Calls};
ghost use Rattle.lnbd_ask.specs.Maps.{cleared, issued, sent};
ghost use Rattle.lnbd_ask.specs.MapSteps.{AsksOne, Inquired, IsFit, IsNotIssued};
ghost use Rattle.lnbd_waits.specs.Waits.{Holds};

use crate::laying::lay;
use crate::stops::{Stop, stop_of};
use crate::survey::{Survey, Surveyor};
use lnbd_handle::IssueFault;
use lnbd_link::Wires;
use lnbd_model::{Extent, NoMemory};
use lnbd_poll::Handles;
use lnbd_waits::{Awaited, Halt, settle};

/// The most bytes that are asked for at once.
const MAX_ASKED: u64 = 134_217_728;

/// What is to be asked of an export.
#[derive(Clone, Copy, Debug, PartialEq, Eq)]
pub(crate) struct Plan {
    /// Its least block.
    pub(crate) block: u64,
    /// How many of its bytes lie in whole blocks.
    pub(crate) whole: u64,
    /// Its size.
    pub(crate) size: u64,
}

/// Issues the block status of so many bytes from here on.
fn send(
    handles: &mut Handles<Surveyor>,
    world: &mut Survey,
    offset: u64,
    size: u64,
) -> Result<(), NoMemory>
    requires { length handles.old ≡ 1 }
    ensures ok { OnOk result ((seen : Seen Calls) → Holds handles.old seen → Holds handles.new (sent offset size seen)) }
    ensures world { OnOk result (world.new ≡ world.old) }
    ensures err { OnErr result ((seen : Seen Calls) → Holds handles.old seen → (after : Seen Calls) × Holds handles.new after × IsNotIssued offset size seen after) }
{
    let answer = handles
        .get_mut(0)
        .aio_block_status(size, offset, Surveyor, Surveyor, 0, world);
    match answer {
        Ok(_) => Ok(()),
        Err(IssueFault::Refused { why: _, buf: _ }) => Err(NoMemory),
        Err(
            IssueFault::NoMemory {
                buf: _,
                first: _,
                done: _,
            },
        ) => Err(NoMemory),
    }
}

/// Drops the notes of callbacks, so that they don't grow with each question.
fn clear_log(handles: &mut Handles<Surveyor>)
    requires { length handles.old ≡ 1 }
    ensures { (seen : Seen Calls) → Holds handles.old seen → Holds handles.new (cleared seen) }
{
    handles.get_mut(0).clear_log();
}

/// Issues the block status of so many bytes from here on, and drops the notes of the answers before it.
fn issue(
    handles: &mut Handles<Surveyor>,
    world: &mut Survey,
    offset: u64,
    size: u64,
) -> Result<(), NoMemory>
    requires { (seen : Seen Calls) × Holds handles.old seen }
    ensures ok { OnOk result ((seen : Seen Calls) → Holds handles.old seen → Holds handles.new (issued offset size seen)) }
    ensures world { OnOk result (world.new ≡ world.old) }
    ensures err { OnErr result ((seen : Seen Calls) → Holds handles.old seen → (after : Seen Calls) × Holds handles.new after × IsNotIssued offset size seen after) }
{
    match send(handles, world, offset, size) {
        Ok(()) => {
            clear_log(handles);
            Ok(())
        }
        Err(fault) => Err(fault),
    }
}

/// Asks for one range, and waits for the answer.
fn ask<W: Wires>(
    handles: &mut Handles<Surveyor>,
    wires: &mut W,
    world: &mut Survey,
    offset: u64,
    size: u64,
    start: u64,
) -> Result<(), Stop>
    requires reached { (seen : Seen Calls) × Holds handles.old seen }
    requires started { start ≤ W.idles wires.old }
    ensures asks { Goes (W.told wires.old) (W.told wires.new) (Holds handles.old) (Holds handles.new) (λ before calls after. AsksOne world.old.context offset size world.new.told.items (W.faults wires.old) (W.faults wires.new) result before calls after) }
    ensures context { OnOk result (world.new.context ≡ world.old.context) }
    ensures silent { result ≡ Err (Stop.Halted Halt.Silent) → Rises patience start (W.idles wires.new) }
    ensures contents { Keeps (W.contents wires.old) (W.contents wires.new) }
    ensures faults { W.faults wires.old ≤ W.faults wires.new }
    ensures idles { W.idles wires.old ≤ W.idles wires.new }
{
    world.clear();
    if let Err(_) = issue(handles, world, offset, size) {
        return Err(Stop::Halted(Halt::NoMemory));
    }
    if let Err(halt) = settle(handles, wires, world, Awaited::Answers, start) {
        return Err(Stop::Halted(halt));
    }
    if world.short {
        return Err(Stop::Halted(Halt::NoMemory));
    }
    match stop_of(handles.get(0).state(), world.error) {
        None => Ok(()),
        Some(stop) => Err(stop),
    }
}

/// Asks for all whole blocks, one range after another, and lays what counts of the answers into the map. Each answer takes the
/// asking on by a block at least.
pub(crate) fn inquire<W: Wires>(
    handles: &mut Handles<Surveyor>,
    wires: &mut W,
    world: &mut Survey,
    plan: Plan,
    map: &mut Vec<Extent>,
    start: u64,
) -> Result<(), Stop>
    requires reached { (seen : Seen Calls) × Holds handles.old seen }
    requires started { start ≤ W.idles wires.old }
    requires none { map.old.items ≡ [] }
    requires fit { IsFit plan }
    ensures spans { OnOk result (span map.new.items ≡ plan.whole) }
    ensures asks { Goes (W.told wires.old) (W.told wires.new) (Holds handles.old) (Holds handles.new) (λ before calls after. Inquired world.old.context plan.block plan.whole map.new.items (W.faults wires.old) (W.faults wires.new) result before calls after) }
    ensures silent { result ≡ Err (Stop.Halted Halt.Silent) → Rises patience start (W.idles wires.new) }
    ensures contents { Keeps (W.contents wires.old) (W.contents wires.new) }
    ensures faults { W.faults wires.old ≤ W.faults wires.new }
    ensures idles { W.idles wires.old ≤ W.idles wires.new }
{
    let mut at = 0;
    'rounds: while at < plan.whole {
        let size = MAX_ASKED.min(plan.whole - at);
        if let Err(stop) = ask(handles, wires, world, at, size, start) {
            return Err(stop);
        }
        match lay(map, &world.told, plan.block, size) {
            Ok(passed) => at += passed,
            Err(_) => return Err(Stop::Halted(Halt::NoMemory)),
        }
    }
    Ok(())
}
