//! What a server tells of one export.

ghost use Rattle.std.specs.Prelude.{◌≡◌, ◌≢◌, ◌≤◌, ℕ, length, Err, IfErr, IfOk};
ghost use Rattle.lnbd_handle.specs.Histories.{max_unretired};
ghost use Rattle.lnbd_link.specs.Contents.{Keeps};
ghost use Rattle.lnbd_link.specs.Call.{Shut};
ghost use Rattle.lnbd_link.specs.Count.{Rises, patience};
ghost use Rattle.lnbd_link.specs.Part.{Adds};
ghost use Rattle.lnbd_poll.specs.Seen.{Goes, Seen};
ghost use Rattle.lnbd_standing.specs.Standing.{StandsFor};
ghost use Rattle.lnbd_waits.specs.Waits.{Holds};
ghost use Rattle.lnbd_ask.specs.Asks.{Collected, CollectedOn, Conversed, IfLink, IfSilent, Talked, base_allocation, begins, begun};
ghost use Rattle.lnbd_ask.specs.Quiet.{Passes};

use crate::fault::InfoFault;
use crate::quiet::Quiet;
use crate::telling::{Counts, tell};
use lnbd_callbacks::Caller;
use lnbd_handle::Handle;
use lnbd_info::Found;
use lnbd_link::Wires;
use lnbd_model::{NoMemory, Place};
use lnbd_poll::Handles;
use lnbd_waits::{Awaited, Halt, base_allocation, open, part, settle};
use std::alloc::Global;

/// Waits until negotiation comes to a stand, and then asks for the end and waits until that is written.
fn talk<K: Caller, W: Wires>(
    handles: &mut Handles<K>,
    wires: &mut W,
    world: &mut K::World,
    start: u64,
) -> Result<(), Halt>
    requires reached { (seen : Seen K) × Holds handles.old seen }
    requires started { start ≤ W.idles wires.old }
    ensures talks { Goes (W.told wires.old) (W.told wires.new) (Holds handles.old) (Holds handles.new) (λ before calls after. Talked K.steps (W.faults wires.old) (W.faults wires.new) result before world.old calls after world.new) }
    ensures silent { result ≡ Err Halt.Silent → Rises patience start (W.idles wires.new) }
    ensures contents { Keeps (W.contents wires.old) (W.contents wires.new) }
    ensures faults { W.faults wires.old ≤ W.faults wires.new }
    ensures idles { W.idles wires.old ≤ W.idles wires.new }
{
    if let Err(halt) = settle(handles, wires, world, Awaited::Answers, start) {
        return Err(halt);
    }
    part(handles);
    settle(handles, wires, world, Awaited::Written, start)
}

/// Asks and hears on the link of the one handle that is held, and tells what came of it.
fn converse<W: Wires>(
    alloc: Global,
    handles: &mut Handles<Quiet>,
    wires: &mut W,
    place: &Place,
    start: Counts,
) -> Result<Found, InfoFault>
    requires begins { (link : ℕ) × Holds handles.old (begins link place.now.name base_allocation) }
    requires started { start.idles ≤ W.idles wires.old }
    requires counted { start.faults ≤ W.faults wires.old }
    ensures converses { (link : ℕ) → Holds handles.old (begins link place.now.name base_allocation) → Conversed Passes link place.now (W.told wires.old) (W.told wires.new) result }
    ensures link { IfErr result (λ told. IfLink told (λ before after. (before ≡ start.faults) × Rises 1 before after × (after ≤ W.faults wires.new))) }
    ensures silent { IfErr result (λ told. IfSilent told (λ idles. Rises patience start.idles idles × (idles ≤ W.idles wires.new))) }
    ensures contents { Keeps (W.contents wires.old) (W.contents wires.new) }
    ensures faults { W.faults wires.old ≤ W.faults wires.new }
    ensures idles { W.idles wires.old ≤ W.idles wires.new }
{
    let mut world = ();
    let talked = talk(handles, wires, &mut world, start.idles);
    let now = Counts {
        faults: wires.faults(),
        idles: wires.idles(),
    };
    tell(alloc, handles, talked, place, start, now)
}

/// Closes what is held and shuts its link.
pub(crate) fn hang_up<W: Wires>(handles: Handles<Quiet>, wires: &mut W, link: u32)
    ensures told { Adds (W.told wires.old) (W.told wires.new) (Shut link) }
    ensures contents { Keeps (W.contents wires.old) (W.contents wires.new) }
    ensures faults { W.faults wires.old ≤ W.faults wires.new }
    ensures idles { W.idles wires.old ≤ W.idles wires.new }
{
    let mut world = ();
    let _ = handles.close(&mut world);
    wires.shut(link);
}

/// Has the conversation on a link that was had, and shuts it.
fn collect_on<W: Wires>(
    alloc: Global,
    handle: Handle<Quiet>,
    wires: &mut W,
    link: u32,
    place: &Place,
    start: Counts,
) -> Result<Found, InfoFault>
    requires stands { StandsFor max_unretired (begun place.now.name base_allocation) handle.machine }
    requires started { start.idles ≤ W.idles wires.old }
    requires counted { start.faults ≤ W.faults wires.old }
    ensures collects { CollectedOn Passes link place.now (W.told wires.old) (W.told wires.new) result }
    ensures link { IfErr result (λ told. IfLink told (λ before after. (before ≡ start.faults) × Rises 1 before after × (after ≤ W.faults wires.new))) }
    ensures silent { IfErr result (λ told. IfSilent told (λ idles. Rises patience start.idles idles × (idles ≤ W.idles wires.new))) }
    ensures contents { Keeps (W.contents wires.old) (W.contents wires.new) }
    ensures faults { W.faults wires.old ≤ W.faults wires.new }
    ensures idles { W.idles wires.old ≤ W.idles wires.new }
{
    let mut handles = Handles::new(alloc);
    match handles.add(link, handle) {
        Ok(_) => {
            let told = converse(alloc, &mut handles, wires, place, start);
            hang_up(handles, wires, link);
            told
        }
        Err(handle) => {
            let mut world = ();
            let _ = handle.close(&mut world);
            hang_up(handles, wires, link);
            Err(InfoFault::NoMemory)
        }
    }
}

/// Connects, and has the conversation.
fn dial<W: Wires>(
    alloc: Global,
    handle: Handle<Quiet>,
    wires: &mut W,
    place: &Place,
) -> Result<Found, InfoFault>
    requires stands { StandsFor max_unretired (begun place.now.name base_allocation) handle.machine }
    ensures collects { Collected Passes place.now (W.told wires.old) (W.told wires.new) result }
    ensures link { IfErr result (λ told. IfLink told (λ before after. (before ≡ W.faults wires.old) × Rises 1 before after × (after ≤ W.faults wires.new))) }
    ensures silent { IfErr result (λ told. IfSilent told (λ idles. Rises patience (W.idles wires.old) idles × (idles ≤ W.idles wires.new))) }
    ensures contents { Keeps (W.contents wires.old) (W.contents wires.new) }
    ensures faults { W.faults wires.old ≤ W.faults wires.new }
    ensures idles { W.idles wires.old ≤ W.idles wires.new }
{
    let start = Counts {
        faults: wires.faults(),
        idles: wires.idles(),
    };
    match wires.connect(&place.to) {
        Ok(link) => collect_on(alloc, handle, wires, link, place, start),
        Err(_) => {
            let mut world = ();
            let _ = handle.close(&mut world);
            Err(InfoFault::Link {
                before: start.faults,
                after: wires.faults(),
            })
        }
    }
}

/// A handle that is to ask for this export.
fn open_for(alloc: Global, place: &Place) -> Result<Handle<Quiet>, NoMemory>
    ensures { IfOk result (λ handle. StandsFor max_unretired (begun place.now.name base_allocation) handle.machine) }
{
    let name = place.name.try_clone(alloc)?;
    let context = base_allocation(alloc)?;
    let mut world = ();
    open(alloc, name, context, &mut world)
}

/// What the server tells of the export at this place: it connects once, negotiates with extended headers, structured replies and
/// the context base:allocation, and asks for the end as soon as commands may be issued. The link is shut once that is written or the
/// connection has ended.
///
/// # Errors
///
/// `Link` where a call on the wires failed, `Broke` where the server broke the protocol or ended the connection before,
/// `Peer` where it refused the export, `Silent` where the wires were idle for too long. `NoMemory` may come in place of every
/// other answer. `NoContext` never comes: a server may agree to no context.
pub fn collect<W: Wires>(alloc: Global, place: &Place, wires: &mut W) -> Result<Found, InfoFault>
    // The calls that were made on the wires, and what they tell.
    ensures collects { Collected Passes place.now (W.told wires.old) (W.told wires.new) result }

    // A server may agree to no context.
    ensures context { IfErr result (λ told. told ≢ InfoFault.NoContext) }

    // The counts that rose.
    ensures link { IfErr result (λ told. IfLink told (λ before after. (before ≡ W.faults wires.old) × Rises 1 before after × (after ≤ W.faults wires.new))) }
    ensures silent { IfErr result (λ told. IfSilent told (λ idles. Rises patience (W.idles wires.old) idles × (idles ≤ W.idles wires.new))) }
    ensures contents { Keeps (W.contents wires.old) (W.contents wires.new) }
    ensures faults { W.faults wires.old ≤ W.faults wires.new }
    ensures idles { W.idles wires.old ≤ W.idles wires.new }
{
    match open_for(alloc, place) {
        Ok(handle) => dial(alloc, handle, wires, place),
        Err(_) => Err(InfoFault::NoMemory),
    }
}
