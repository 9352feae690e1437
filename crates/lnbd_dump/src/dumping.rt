//! A range of an export is shown: it is connected to, asked and shut.

ghost use Rattle.std.specs.Prelude.{◌≡◌, ◌≤◌, ℕ, None, IfErr, IfOk, OnErr, OnOk, Err, true};
ghost use Rattle.lnbd_handle.specs.Histories.{max_unretired};
ghost use Rattle.lnbd_link.specs.Contents.{Keeps};
ghost use Rattle.lnbd_link.specs.Call.{Shut};
ghost use Rattle.lnbd_link.specs.Count.{Rises, patience};
ghost use Rattle.lnbd_link.specs.Part.{Adds};
ghost use Rattle.lnbd_standing.specs.Standing.{StandsFor};
ghost use Rattle.lnbd_waits.specs.Begun.{base_allocation, begins, begun};
ghost use Rattle.lnbd_waits.specs.Waits.{Holds};
ghost use Rattle.lnbd_dump.specs.Conduct.{Dumped, IfLink, IfSilent};
ghost use Rattle.lnbd_dump.specs.Ends.{Conversed, DumpedAll, DumpedOn, IsShort};
ghost use Rattle.lnbd_dump.specs.Heard.{kept};
ghost use Rattle.lnbd_dump.specs.Shown.{Shows, ShowsFront, WasToldByte};
ghost use Rattle.lnbd_reel.specs.Said.{Shown, ShownFront};

use crate::fault::DumpFault;
use crate::reader::{Latest, Reader};
use crate::stop::{Counts, of_stop};
use crate::talking::talk;
use lnbd_handle::Handle;
use lnbd_link::{Sink, Wires};
use lnbd_model::{NoMemory, Place, Text};
use lnbd_poll::Handles;
use lnbd_waits::{base_allocation, open};
use std::alloc::Global;

/// Has the conversation on the link of the one handle that is held, and tells what came of it.
fn converse<W: Wires, O: Sink>(
    alloc: Global,
    handles: &mut Handles<Reader>,
    wires: &mut W,
    world: &mut Latest,
    place: &Place,
    offset: u64,
    length: Option<u64>,
    out: &mut O,
    start: Counts,
) -> Result<u64, DumpFault>
    requires begins { (link : ℕ) × Holds handles.old (begins link place.now.name base_allocation) }
    requires kept { kept world.old ≡ None }
    requires started { start.idles ≤ W.idles wires.old }
    requires counted { start.faults ≤ W.faults wires.old }
    ensures converses { (link : ℕ) → Holds handles.old (begins link place.now.name base_allocation) → Conversed link place.now offset length (W.told wires.old) (W.told wires.new) (O.taken out.old) (O.taken out.new) result }
    ensures link { IfErr result (λ told. IfLink told (λ before after. (before ≡ start.faults) × Rises 1 before after × (after ≤ W.faults wires.new))) }
    ensures silent { IfErr result (λ told. IfSilent told (λ idles. Rises patience start.idles idles × (idles ≤ W.idles wires.new))) }
    ensures output { result ≡ Err DumpFault.Output → Rises 1 (O.faults out.old) (O.faults out.new) }
    ensures contents { Keeps (W.contents wires.old) (W.contents wires.new) }
    ensures faults { W.faults wires.old ≤ W.faults wires.new }
    ensures idles { W.idles wires.old ≤ W.idles wires.new }
    ensures later { O.faults out.old ≤ O.faults out.new }
    ensures well { OnOk result (O.faults out.new ≡ O.faults out.old) }
{
    let talked = talk(
        alloc,
        handles,
        wires,
        world,
        offset,
        length,
        out,
        start.idles,
    );
    let now = Counts {
        faults: wires.faults(),
        idles: wires.idles(),
    };
    match talked {
        Ok(count) => Ok(count),
        Err(stop) => Err(of_stop(stop, offset, length, start, now)),
    }
}

/// Closes what is held and shuts its link.
fn hang_up<W: Wires>(handles: Handles<Reader>, wires: &mut W, world: &mut Latest, link: u32)
    ensures told { Adds (W.told wires.old) (W.told wires.new) (Shut link) }
    ensures contents { Keeps (W.contents wires.old) (W.contents wires.new) }
    ensures faults { W.faults wires.old ≤ W.faults wires.new }
    ensures idles { W.idles wires.old ≤ W.idles wires.new }
{
    let _ = handles.close(world);
    wires.shut(link);
}

/// Has the conversation on a link that was had, and shuts it.
fn dump_on<W: Wires, O: Sink>(
    alloc: Global,
    handle: Handle<Reader>,
    wires: &mut W,
    link: u32,
    place: &Place,
    offset: u64,
    length: Option<u64>,
    out: &mut O,
    start: Counts,
) -> Result<u64, DumpFault>
    requires stands { StandsFor max_unretired (begun place.now.name base_allocation) handle.machine }
    requires short { IsShort place.now.name }
    requires started { start.idles ≤ W.idles wires.old }
    requires counted { start.faults ≤ W.faults wires.old }
    ensures dumps { DumpedOn link place.now offset length (W.told wires.old) (W.told wires.new) (O.taken out.old) (O.taken out.new) result }
    ensures link { IfErr result (λ told. IfLink told (λ before after. (before ≡ start.faults) × Rises 1 before after × (after ≤ W.faults wires.new))) }
    ensures silent { IfErr result (λ told. IfSilent told (λ idles. Rises patience start.idles idles × (idles ≤ W.idles wires.new))) }
    ensures output { result ≡ Err DumpFault.Output → Rises 1 (O.faults out.old) (O.faults out.new) }
    ensures contents { Keeps (W.contents wires.old) (W.contents wires.new) }
    ensures faults { W.faults wires.old ≤ W.faults wires.new }
    ensures idles { W.idles wires.old ≤ W.idles wires.new }
    ensures later { O.faults out.old ≤ O.faults out.new }
    ensures well { OnOk result (O.faults out.new ≡ O.faults out.old) }
{
    let mut world = Latest::new(alloc);
    let mut handles = Handles::new(alloc);
    match handles.add(link, handle) {
        Ok(_) => {
            let told = converse(
                alloc,
                &mut handles,
                wires,
                &mut world,
                place,
                offset,
                length,
                out,
                start,
            );
            hang_up(handles, wires, &mut world, link);
            told
        }
        Err(handle) => {
            let _ = handle.close(&mut world);
            hang_up(handles, wires, &mut world, link);
            Err(DumpFault::NoMemory)
        }
    }
}

/// Connects, and has the conversation.
fn dial<W: Wires, O: Sink>(
    alloc: Global,
    handle: Handle<Reader>,
    wires: &mut W,
    place: &Place,
    offset: u64,
    length: Option<u64>,
    out: &mut O,
) -> Result<u64, DumpFault>
    requires stands { StandsFor max_unretired (begun place.now.name base_allocation) handle.machine }
    requires short { IsShort place.now.name }
    ensures dumps { DumpedAll place.now offset length (W.told wires.old) (W.told wires.new) (O.taken out.old) (O.taken out.new) result }
    ensures link { IfErr result (λ told. IfLink told (λ before after. (before ≡ W.faults wires.old) × Rises 1 before after × (after ≤ W.faults wires.new))) }
    ensures silent { IfErr result (λ told. IfSilent told (λ idles. Rises patience (W.idles wires.old) idles × (idles ≤ W.idles wires.new))) }
    ensures output { result ≡ Err DumpFault.Output → Rises 1 (O.faults out.old) (O.faults out.new) }
    ensures contents { Keeps (W.contents wires.old) (W.contents wires.new) }
    ensures faults { W.faults wires.old ≤ W.faults wires.new }
    ensures idles { W.idles wires.old ≤ W.idles wires.new }
    ensures later { O.faults out.old ≤ O.faults out.new }
    ensures well { OnOk result (O.faults out.new ≡ O.faults out.old) }
{
    let start = Counts {
        faults: wires.faults(),
        idles: wires.idles(),
    };
    match wires.connect(&place.to) {
        Ok(link) => dump_on(
            alloc, handle, wires, link, place, offset, length, out, start,
        ),
        Err(_) => {
            let mut world = Latest::new(alloc);
            let _ = handle.close(&mut world);
            Err(DumpFault::Link {
                before: start.faults,
                after: wires.faults(),
            })
        }
    }
}

/// The name again, which is short.
fn copied(alloc: Global, name: &Text) -> Result<Text, NoMemory>
    ensures same { IfOk result (λ copy. copy ≡ name.now) }
    ensures short { IsShort name.now }
{
    let _length = name.len();
    name.try_clone(alloc)
}

/// A handle that is to ask for the export at this place.
fn open_for(alloc: Global, place: &Place) -> Result<Handle<Reader>, NoMemory>
    ensures stands { IfOk result (λ handle. StandsFor max_unretired (begun place.now.name base_allocation) handle.machine) }
    ensures short { OnOk result (IsShort place.now.name) }
{
    let name = copied(alloc, &place.name)?;
    let context = base_allocation(alloc)?;
    let mut idle = Latest::new(alloc);
    open(alloc, name, context, &mut idle)
}

/// Shows the bytes of the export at this place from an offset on, as many as are given or all that follow, in lines of 16 bytes as
/// hexadecimal numbers and as text, and answers how many they were. It connects once, and asks for extended headers, structured
/// replies and the meta context base:allocation. Where that is agreed, the block status of 128 MiB at a time is asked before any of
/// it is read; a block that is told as zero whole is shown and not read. The rest is read by 256 KiB at most, sixteen reads at a
/// time. Then the end is asked for, and the link is shut once that is written or the connection has ended.
///
/// # Errors
///
/// `Range` exactly where the export is known and has no such range, and else `Uneven` exactly where bytes are to be shown that lie in
/// no whole block of it. `Link` where a call on the wires failed, `Broke` where the server broke the protocol, answered faulty content
/// or ended the connection before, `Peer` where it refused the export or answered a command by an error, `Silent` where the wires were
/// idle for too long, `Output` where the output failed. `NoMemory` may come in place of every other answer. What was shown before stays.
pub fn dump<W: Wires, O: Sink>(
    alloc: Global,
    place: &Place,
    offset: u64,
    length: Option<u64>,
    wires: &mut W,
    out: &mut O,
) -> Result<u64, DumpFault>
    // The calls that were made on the wires, what was asked by them and in which order, and why it ended so.
    ensures dumps { Dumped place.now offset length (W.told wires.old) (W.told wires.new) result }

    // What was shown is what was told.
    ensures shown { IfOk result (λ count. Shown (WasToldByte place.now (W.told wires.old) (W.told wires.new)) offset count (O.taken out.old) (O.taken out.new)) }
    ensures front { OnErr result (ShownFront (WasToldByte place.now (W.told wires.old) (W.told wires.new)) offset (O.taken out.old) (O.taken out.new)) }

    // Over an export that is honest and wasn't changed, that is the dump of its bytes, or a front of it.
    ensures shows { IfOk result (λ count. Shows place.now offset length count (W.told wires.old) (W.told wires.new) (O.taken out.old) (O.taken out.new)) }
    ensures fronts { OnErr result (ShowsFront place.now offset length (W.told wires.old) (W.told wires.new) (O.taken out.old) (O.taken out.new)) }

    // The counts that rose.
    ensures link { IfErr result (λ told. IfLink told (λ before after. (before ≡ W.faults wires.old) × Rises 1 before after × (after ≤ W.faults wires.new))) }
    ensures silent { IfErr result (λ told. IfSilent told (λ idles. Rises patience (W.idles wires.old) idles × (idles ≤ W.idles wires.new))) }
    ensures output { result ≡ Err DumpFault.Output → Rises 1 (O.faults out.old) (O.faults out.new) }
    ensures contents { Keeps (W.contents wires.old) (W.contents wires.new) }
    ensures faults { W.faults wires.old ≤ W.faults wires.new }
    ensures idles { W.idles wires.old ≤ W.idles wires.new }
    ensures later { O.faults out.old ≤ O.faults out.new }
    ensures well { OnOk result (O.faults out.new ≡ O.faults out.old) }
{
    match open_for(alloc, place) {
        Ok(handle) => dial(alloc, handle, wires, place, offset, length, out),
        Err(_) => Err(DumpFault::NoMemory),
    }
}
