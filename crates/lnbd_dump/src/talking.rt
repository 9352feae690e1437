//! The conversation on a link: negotiation, the range, and the end.

ghost use Rattle.std.specs.Prelude.{◌≡◌, ◌≤◌, ◌<◌, IfOk, IsOk, OnOk, Err, not, true};
ghost use Rattle.lnbd_link.specs.Contents.{Keeps};
ghost use Rattle.lnbd_link.specs.Count.{Rises, patience};
ghost use Rattle.lnbd_poll.specs.Seen.{Seen};
ghost use Rattle.lnbd_waits.specs.Waits.{Holds};
ghost use Rattle.lnbd_dump.specs.Leads.{Comes};
ghost use Rattle.lnbd_reel.specs.Ranges.{Covers};
ghost use Rattle.lnbd_dump.specs.Talks.{EndsAs, Reads, ShowsSpan, is_parting};
ghost use Rattle.lnbd_dump.specs.Stops.{HasStop, is_failed};
ghost use Rattle.lnbd_dump.specs.declared.reader.Reader.{Reader as Calls};
ghost use Rattle.lnbd_records.specs.Limits.{max_minimum_block};
ghost use Rattle.lnbd_ask.specs.Maps.{size_end};
ghost use Rattle.lnbd_dump.specs.Conduct.{max_piece};

use crate::reader::{Latest, Reader};
use crate::showing::show;
use crate::stop::Stop;
use crate::terms::{Terms, judge, known, plan_of, runs_of};
use crate::turning::{await_all, await_written};
use lnbd_link::{Sink, Wires};
use lnbd_model::State;
use lnbd_poll::Handles;
use lnbd_reel::Span;
use lnbd_waits::{Awaited, Halt, part, settle};
use std::alloc::Global;

/// Whether there is no more to ask, on a connection that goes on.
fn is_parting(end: Result<u64, Stop>) -> bool
    ensures { result ≡ is_parting end }
{
    match end {
        Ok(_) => true,
        Err(Stop::Range { size: _ }) => true,
        Err(Stop::Uneven { size: _, block: _ }) => true,
        Err(_) => false,
    }
}

/// Shows the bytes of blocks, where there are any to show.
fn show_span<W: Wires, O: Sink>(
    alloc: Global,
    handles: &mut Handles<Reader>,
    wires: &mut W,
    world: &mut Latest,
    terms: Terms,
    span: Span,
    offset: u64,
    out: &mut O,
    start: u64,
) -> Result<u64, Stop>
    requires reached { (seen : Seen Calls) × Holds handles.old seen }
    requires covers { 0 < span.count → Covers offset span.count terms.size terms.block span.first span.last }
    requires size { terms.size < size_end }
    requires block { (0 < terms.block) × (terms.block ≤ max_minimum_block) × (0 < terms.piece) × (terms.piece ≤ max_piece) }
    requires started { start ≤ W.idles wires.old }
    ensures shows { Comes (is_failed result) (W.told wires.old) (W.told wires.new) (W.faults wires.old) (W.faults wires.new) handles.old handles.new (λ before after ended. HasStop result after.history × ShowsSpan result terms world.old offset span.count (O.taken out.old) (O.taken out.new) before.history after.history ended.history) }
    ensures count { IfOk result (λ count. count ≡ span.count) }
    ensures silent { result ≡ Err (Stop.Halted Halt.Silent) → Rises patience start (W.idles wires.new) }
    ensures output { result ≡ Err Stop.Output → Rises 1 (O.faults out.old) (O.faults out.new) }
    ensures contents { Keeps (W.contents wires.old) (W.contents wires.new) }
    ensures faults { W.faults wires.old ≤ W.faults wires.new }
    ensures idles { W.idles wires.old ≤ W.idles wires.new }
    ensures later { O.faults out.old ≤ O.faults out.new }
    ensures well { OnOk result (O.faults out.new ≡ O.faults out.old) }
{
    if span.count == 0 {
        return Ok(0);
    }
    let plan = plan_of(terms, span);
    let runs = match runs_of(alloc, plan) {
        Ok(runs) => runs,
        Err(stop) => return Err(stop),
    };
    match show(
        alloc, handles, wires, world, plan, runs, offset, span.count, out, start,
    ) {
        Ok(()) => Ok(span.count),
        Err(stop) => Err(stop),
    }
}

/// Waits until negotiation comes to a stand, judges the range and shows it.
fn read<W: Wires, O: Sink>(
    alloc: Global,
    handles: &mut Handles<Reader>,
    wires: &mut W,
    world: &mut Latest,
    offset: u64,
    length: Option<u64>,
    out: &mut O,
    start: u64,
) -> Result<u64, Stop>
    requires reached { (seen : Seen Calls) × Holds handles.old seen }
    requires started { start ≤ W.idles wires.old }
    ensures reads { Comes (not (is_parting result)) (W.told wires.old) (W.told wires.new) (W.faults wires.old) (W.faults wires.new) handles.old handles.new (λ before after ended. Reads result offset length world.old (O.taken out.old) (O.taken out.new) before.history after.history ended.history) }
    ensures silent { result ≡ Err (Stop.Halted Halt.Silent) → Rises patience start (W.idles wires.new) }
    ensures output { result ≡ Err Stop.Output → Rises 1 (O.faults out.old) (O.faults out.new) }
    ensures contents { Keeps (W.contents wires.old) (W.contents wires.new) }
    ensures faults { W.faults wires.old ≤ W.faults wires.new }
    ensures idles { W.idles wires.old ≤ W.idles wires.new }
    ensures later { O.faults out.old ≤ O.faults out.new }
    ensures well { OnOk result (O.faults out.new ≡ O.faults out.old) }
{
    if let Err(stop) = await_all(handles, wires, world, start) {
        return Err(stop);
    }
    if let Err(stop) = await_written(handles, wires, world, start) {
        return Err(stop);
    }
    let terms = match known(handles) {
        Ok(terms) => terms,
        Err(stop) => return Err(stop),
    };
    match judge(terms, offset, length) {
        Ok(span) => show_span(
            alloc, handles, wires, world, terms, span, offset, out, start,
        ),
        Err(stop) => Err(stop),
    }
}

/// What comes of it where the end was waited for so, and the handle then is in this state.
fn end_of(read: Result<u64, Stop>, written: Result<(), Halt>, at: State) -> Result<u64, Stop>
    ensures ends { EndsAs read written at result }
    ensures read { OnOk result (IsOk read) }
{
    match read {
        Err(stop) => Err(stop),
        Ok(count) => match written {
            Err(halt) => Err(Stop::Halted(halt)),
            Ok(()) => match at {
                State::Dead(death) => Err(Stop::Died(death)),
                _ => Ok(count),
            },
        },
    }
}

/// Shows the range, and then asks for the end and waits until that is written.
pub(crate) fn talk<W: Wires, O: Sink>(
    alloc: Global,
    handles: &mut Handles<Reader>,
    wires: &mut W,
    world: &mut Latest,
    offset: u64,
    length: Option<u64>,
    out: &mut O,
    start: u64,
) -> Result<u64, Stop>
    requires reached { (seen : Seen Calls) × Holds handles.old seen }
    requires started { start ≤ W.idles wires.old }
    ensures talks { Comes true (W.told wires.old) (W.told wires.new) (W.faults wires.old) (W.faults wires.new) handles.old handles.new (λ before after ended. Reads result offset length world.old (O.taken out.old) (O.taken out.new) before.history after.history ended.history) }
    ensures silent { result ≡ Err (Stop.Halted Halt.Silent) → Rises patience start (W.idles wires.new) }
    ensures output { result ≡ Err Stop.Output → Rises 1 (O.faults out.old) (O.faults out.new) }
    ensures contents { Keeps (W.contents wires.old) (W.contents wires.new) }
    ensures faults { W.faults wires.old ≤ W.faults wires.new }
    ensures idles { W.idles wires.old ≤ W.idles wires.new }
    ensures later { O.faults out.old ≤ O.faults out.new }
    ensures well { OnOk result (O.faults out.new ≡ O.faults out.old) }
{
    let end = read(alloc, handles, wires, world, offset, length, out, start);
    if is_parting(end) {
        part(handles);
        let written = settle(handles, wires, world, Awaited::Written, start);
        return end_of(end, written, handles.get(0).state());
    }
    end
}
