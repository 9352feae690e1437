//! A range is shown, part by part in order.

ghost use Rattle.std.specs.Prelude.{◌≡◌, ◌<◌, ◌≤◌, ◌+◌, ◌-◌, ◌++◌, [], ℕ, IfNone, IfOk, OnOk, Err, length, take, drop, replicate, option_to_list};
ghost use Rattle.lnbd_link.specs.Contents.{Keeps};
ghost use Rattle.lnbd_link.specs.Count.{Rises, patience};
ghost use Rattle.lnbd_hexdump.specs.Said.{Fed, reach};
ghost use Rattle.lnbd_poll.specs.Seen.{Seen};
ghost use Rattle.lnbd_waits.specs.Waits.{Holds};
ghost use Rattle.lnbd_dump.specs.Filling.{AreInOrder, FollowEach};
ghost use Rattle.lnbd_dump.specs.Leads.{Acts, Comes, GoesTo};
ghost use Rattle.lnbd_reel.specs.Said.{shown_to};
ghost use Rattle.lnbd_dump.specs.Showing.{FinishesWith, HasNext, HasNoCause, Says, Shows, ShowsPart};
ghost use Rattle.lnbd_dump.specs.Stops.{HasStop, IsDry, IsLoud, IsPlain, is_failed};
ghost use Rattle.lnbd_dump.specs.declared.reader.Reader.{Reader as Calls};
ghost use Rattle.lnbd_records.specs.Limits.{max_minimum_block};
ghost use Rattle.lnbd_ask.specs.Maps.{size_end};
ghost use Rattle.lnbd_dump.specs.Conduct.{max_piece};

use crate::asking::Plan;
use crate::reader::{Latest, Reader};
use crate::stop::Stop;
use crate::taking::take_result;
use crate::turning::next_batch;
use lnbd_hexdump::Dumper;
use lnbd_link::{Sink, Wires, put};
use lnbd_poll::Handles;
use lnbd_reel::{Part, Reel, Runs, cut, middle};
use lnbd_waits::Halt;
use std::alloc::Global;

fn say_zeros(dumper: &mut Dumper, count: u64, text: &mut Vec<u8>) -> Result<(), Stop>
    requires { reach dumper.old + count ≤ size_end }
    ensures stops { HasNoCause result }
    ensures fed { OnOk result (Fed dumper.old dumper.new (replicate count 0) text.old.items text.new.items) }
    ensures reach { OnOk result (reach dumper.new ≡ reach dumper.old + count) }
    ensures plain { IsPlain result }
{
    match dumper.feed_zeros(count, text) {
        Ok(()) => Ok(()),
        Err(_) => Err(Stop::Halted(Halt::NoMemory)),
    }
}

fn say_bytes(dumper: &mut Dumper, bytes: &[u8], text: &mut Vec<u8>) -> Result<(), Stop>
    requires { reach dumper.old + length bytes.now ≤ size_end }
    ensures stops { HasNoCause result }
    ensures fed { OnOk result (Fed dumper.old dumper.new bytes.now text.old.items text.new.items) }
    ensures reach { OnOk result (reach dumper.new ≡ reach dumper.old + length bytes.now) }
    ensures plain { IsPlain result }
{
    match dumper.feed(bytes, text) {
        Ok(()) => Ok(()),
        Err(_) => Err(Stop::Halted(Halt::NoMemory)),
    }
}

/// Says what a part told, as far as it lies in the range.
fn say(
    handles: &mut Handles<Reader>,
    dumper: &mut Dumper,
    part: Part,
    offset: u64,
    end: u64,
    text: &mut Vec<u8>,
) -> Result<(), Stop>
    requires one { length handles.old ≡ 1 }
    requires order { offset ≤ end }
    requires room { (part.start + part.length ≤ size_end) × (end ≤ size_end) }
    requires reach { reach dumper.old ≤ offset + shown_to offset end part.start }
    requires empty { text.old.items ≡ [] }
    ensures says { Acts handles.old handles.new (λ before after. HasStop result after.history × Says result offset end part dumper.old dumper.new text.new.items before.history after.history) }
    ensures reach { OnOk result (reach dumper.new ≤ offset + shown_to offset end (part.start + part.length)) }
    ensures plain { IsPlain result }
{
    let (from, to) = cut(part.start, part.length, offset, end);
    match part.cookie {
        None => say_zeros(dumper, to - from, text),
        Some(cookie) => match take_result(handles, cookie) {
            Ok(bytes) => say_bytes(dumper, middle(bytes.as_slice(), from, to), text),
            Err(stop) => Err(stop),
        },
    }
}

/// Says what a part told, and writes it.
fn show_part<O: Sink>(
    handles: &mut Handles<Reader>,
    dumper: &mut Dumper,
    part: Part,
    offset: u64,
    count: u64,
    text: &mut Vec<u8>,
    out: &mut O,
) -> Result<(), Stop>
    requires one { length handles.old ≡ 1 }
    requires room { (part.start + part.length ≤ size_end) × (offset + count ≤ size_end) }
    requires reach { reach dumper.old ≤ offset + shown_to offset (offset + count) part.start }
    requires empty { text.old.items ≡ [] }
    ensures shows { Acts handles.old handles.new (λ before after. HasStop result after.history × ShowsPart result offset count part dumper.old dumper.new (O.taken out.old) (O.taken out.new) before.history after.history) }
    ensures reach { OnOk result (reach dumper.new ≤ offset + shown_to offset (offset + count) (part.start + part.length)) }
    ensures empty { OnOk result (text.new.items ≡ []) }
    ensures output { result ≡ Err Stop.Output → Rises 1 (O.faults out.old) (O.faults out.new) }
    ensures later { O.faults out.old ≤ O.faults out.new }
    ensures well { OnOk result (O.faults out.new ≡ O.faults out.old) }
    ensures loud { IsLoud result }
{
    match say(handles, dumper, part, offset, offset + count, text) {
        Ok(()) => {}
        Err(stop) => return Err(stop),
    }
    match put(out, text.as_slice()) {
        Ok(()) => {
            text.clear();
            Ok(())
        }
        Err(_) => Err(Stop::Output),
    }
}

/// Says the last group, and writes it.
fn finish<O: Sink>(dumper: &Dumper, text: &mut Vec<u8>, out: &mut O) -> Result<(), Stop>
    requires { text.old.items ≡ [] }
    ensures ends { FinishesWith result dumper.now (O.taken out.old) (O.taken out.new) }
    ensures stops { HasNoCause result }
    ensures output { result ≡ Err Stop.Output → Rises 1 (O.faults out.old) (O.faults out.new) }
    ensures later { O.faults out.old ≤ O.faults out.new }
    ensures well { OnOk result (O.faults out.new ≡ O.faults out.old) }
    ensures loud { IsLoud result }
{
    match dumper.end(text) {
        Ok(()) => {}
        Err(_) => return Err(Stop::Halted(Halt::NoMemory)),
    }
    match put(out, text.as_slice()) {
        Ok(()) => Ok(()),
        Err(_) => Err(Stop::Output),
    }
}

/// The next part that is to be shown, if there is one. Where none is under way, the next ones are begun and awaited.
fn next_part<W: Wires>(
    alloc: Global,
    handles: &mut Handles<Reader>,
    wires: &mut W,
    world: &mut Latest,
    plan: &mut Plan,
    runs: &mut Runs,
    reel: &mut Reel,
    start: u64,
) -> Result<Option<Part>, Stop>
    requires reached { (seen : Seen Calls) × Holds handles.old seen }
    requires order { AreInOrder plan.old.at runs.old plan.old.known }
    requires some { (plan.old.at ≤ plan.old.end) × (plan.old.known ≤ plan.old.end) × (plan.old.end ≤ size_end) }
    requires block { (0 < plan.old.block) × (plan.old.block ≤ max_minimum_block) × (0 < plan.old.piece) × (plan.old.piece ≤ max_piece) }
    requires started { start ≤ W.idles wires.old }
    ensures goes { GoesTo (is_failed result) (W.told wires.old) (W.told wires.new) (W.faults wires.old) (W.faults wires.new) handles.old handles.new (λ before after. HasStop result after.history × HasNext result plan.old runs.old reel.old world.old before.history plan.new runs.new reel.new world.new after.history) }
    ensures order { OnOk result (AreInOrder plan.new.at runs.new plan.new.known) }
    ensures within { OnOk result ((plan.new.at ≤ plan.new.end) × (plan.new.known ≤ plan.new.end)) }
    ensures follow { IfOk result (λ found. (from : ℕ) → FollowEach from reel.old plan.old.at → FollowEach from (option_to_list found ++ reel.new) plan.new.at) }
    ensures none { IfOk result (λ found. IfNone found ((reel.new ≡ []) × (plan.new.at ≡ plan.new.end))) }
    ensures same { plan.new ≡ record plan.old { at = plan.new.at; known = plan.new.known } }
    ensures silent { result ≡ Err (Stop.Halted Halt.Silent) → Rises patience start (W.idles wires.new) }
    ensures contents { Keeps (W.contents wires.old) (W.contents wires.new) }
    ensures faults { W.faults wires.old ≤ W.faults wires.new }
    ensures idles { W.idles wires.old ≤ W.idles wires.new }
    ensures dry { IsDry result }
{
    if reel.len() != 0 {
        return Ok(reel.take());
    }
    if plan.at >= plan.end {
        return Ok(None);
    }
    match next_batch(alloc, handles, wires, world, plan, runs, reel, start) {
        Ok(()) => Ok(reel.take()),
        Err(stop) => Err(stop),
    }
}

/// Shows a range of an export, part by part in order.
pub(crate) fn show<W: Wires, O: Sink>(
    alloc: Global,
    handles: &mut Handles<Reader>,
    wires: &mut W,
    world: &mut Latest,
    mut plan: Plan,
    mut runs: Runs,
    offset: u64,
    count: u64,
    out: &mut O,
    start: u64,
) -> Result<(), Stop>
    requires reached { (seen : Seen Calls) × Holds handles.old seen }
    requires begins { plan.at ≤ offset }
    requires ends { (offset + count ≤ plan.end) × (plan.end ≤ size_end) }
    requires order { AreInOrder plan.at runs plan.known }
    requires some { (plan.at ≤ plan.end) × (plan.known ≤ plan.end) }
    requires block { (0 < plan.block) × (plan.block ≤ max_minimum_block) × (0 < plan.piece) × (plan.piece ≤ max_piece) }
    requires started { start ≤ W.idles wires.old }
    ensures shows { Comes (is_failed result) (W.told wires.old) (W.told wires.new) (W.faults wires.old) (W.faults wires.new) handles.old handles.new (λ before after ended. HasStop result after.history × Shows result plan runs world.old offset count (O.taken out.old) (O.taken out.new) before.history after.history ended.history) }
    ensures silent { result ≡ Err (Stop.Halted Halt.Silent) → Rises patience start (W.idles wires.new) }
    ensures output { result ≡ Err Stop.Output → Rises 1 (O.faults out.old) (O.faults out.new) }
    ensures contents { Keeps (W.contents wires.old) (W.contents wires.new) }
    ensures faults { W.faults wires.old ≤ W.faults wires.new }
    ensures idles { W.idles wires.old ≤ W.idles wires.new }
    ensures later { O.faults out.old ≤ O.faults out.new }
    ensures well { OnOk result (O.faults out.new ≡ O.faults out.old) }
{
    let mut text = Vec::new(alloc);
    let mut reel = Reel::new(alloc);
    let mut dumper = match Dumper::new(alloc, offset) {
        Ok(dumper) => dumper,
        Err(_) => return Err(Stop::Halted(Halt::NoMemory)),
    };
    let mut at = plan.at;
    'parts: loop {
        let found = match next_part(
            alloc, handles, wires, world, &mut plan, &mut runs, &mut reel, start,
        ) {
            Ok(found) => found,
            Err(stop) => return Err(stop),
        };
        let part = match found {
            Some(part) => part,
            None => break,
        };
        match show_part(handles, &mut dumper, part, offset, count, &mut text, out) {
            Ok(()) => at = part.start + part.length,
            Err(stop) => return Err(stop),
        }
    }
    finish(&dumper, &mut text, out)
}
