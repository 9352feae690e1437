//! The map of an export: what its server tells of each of its blocks in one meta context.

ghost use Rattle.std.specs.Prelude.{◌<◌, ◌≤◌, ◌≡◌, ◌-◌, ℕ, [], Err, IfErr, IfOk, OnOk, Some, length};
ghost use Rattle.std.specs.Option.{option_copied};
ghost use Rattle.lnbd_extents.specs.Lists.{span, with_extent};
ghost use Rattle.lnbd_handle.specs.Histories.{max_unretired};
ghost use Rattle.lnbd_history.specs.Refusals.{minimum};
ghost use Rattle.lnbd_info.specs.Map.{AreFilled};
ghost use Rattle.lnbd_link.specs.Contents.{Keeps};
ghost use Rattle.lnbd_link.specs.Call.{Shut};
ghost use Rattle.lnbd_link.specs.Count.{Rises, patience};
ghost use Rattle.lnbd_link.specs.Part.{Adds};
ghost use Rattle.lnbd_poll.specs.Seen.{Goes, Seen};
ghost use Rattle.lnbd_records.specs.Limits.{max_minimum_block};
ghost use Rattle.lnbd_standing.specs.Standing.{StandsFor};
ghost use Rattle.lnbd_ask.specs.declared.survey.Surveyor.{Surveyor as Calls};
ghost use Rattle.lnbd_ask.specs.Asks.{IfLink, IfSilent, begins, begun};
ghost use Rattle.lnbd_ask.specs.Maps.{Mapped, export_known, is_agreed, known_after, known_at, least_block, size_end};
ghost use Rattle.lnbd_ask.specs.MapSteps.{Discussed, IsFit, MappedOn, Talked_over, Taught, plan_of, planned};
ghost use Rattle.lnbd_waits.specs.Waits.{Holds};

use crate::asking::{Plan, inquire};
use crate::fault::InfoFault;
use crate::stops::{Stop, end_of, is_end_parting, of_stop};
use crate::survey::{Survey, Surveyor};
use crate::telling::Counts;
use lnbd_extents::push_joined;
use lnbd_handle::Handle;
use lnbd_link::Wires;
use lnbd_model::{
    Blocks, Breach, Context, ExportInfo, Extent, Extents, NoMemory, Place, State, Text,
};
use lnbd_poll::Handles;
use lnbd_records::names::MAX_MINIMUM_BLOCK;
use lnbd_waits::{Awaited, Halt, open, part, settle};
use std::alloc::Global;

/// The first size that no export has (libnbd: sizes are below 2^63).
pub const SIZE_END: u64 = 1 << 63;

/// The least block of an export of which this was told.
pub fn least_block(told: Option<Blocks>) -> u64
    ensures value { result ≡ least_block (minimum told) }
    ensures some { (0 < result) × (result ≤ max_minimum_block) }
{
    match told {
        Some(blocks) => {
            if 0 < blocks.minimum && blocks.minimum <= MAX_MINIMUM_BLOCK {
                blocks.minimum as u64
            } else {
                1
            }
        }
        None => 1,
    }
}

/// What is to be asked of an export of which this was told.
fn plan_of(info: &ExportInfo) -> Plan
    ensures { result ≡ plan_of info.now }
{
    let block = least_block(info.blocks);
    Plan {
        block,
        whole: info.size - info.size % block,
        size: info.size,
    }
}

/// Whether the context of this name is agreed.
fn is_agreed(contexts: &[Context], name: &Text) -> bool
    ensures { result ≡ is_agreed name.now contexts.now }
{
    'contexts: for context in contexts {
        if context.name.as_str() == name.as_str() {
            return true;
        }
    }
    false
}

/// What is to be asked of an export of which this was told, or why nothing is.
fn export_known(info: &ExportInfo, context: &Text) -> Result<Plan, Stop>
    ensures { result ≡ planned (export_known context.now (Some info.now)) }
{
    if !is_agreed(info.contexts.as_slice(), context) {
        return Err(Stop::NoContext);
    }
    if SIZE_END <= info.size {
        return Err(Stop::Broke(Breach::SizeTooBig));
    }
    Ok(plan_of(info))
}

/// The same, where the handle is in this state.
fn known_at(at: State, info: Option<&ExportInfo>, context: &Text) -> Result<Plan, Stop>
    ensures { result ≡ planned (known_at context.now at (option_copied info.entry)) }
{
    match at {
        State::Dead(death) => Err(Stop::Died(death)),
        State::Ready => match info {
            Some(info) => export_known(info, context),
            None => Err(Stop::Broke(Breach::NoExportInfo)),
        },
        _ => Err(Stop::Halted(Halt::NoMemory)),
    }
}

/// The same, of the one handle that is held.
fn known(handles: &Handles<Surveyor>, context: &Text) -> Result<Plan, Stop>
    requires { length handles.now ≡ 1 }
    ensures { (seen : Seen Calls) → Holds handles.now seen → result ≡ planned (known_after context.now seen.history) }
{
    let handle = handles.get(0);
    known_at(handle.state(), handle.info(), context)
}

/// Adds to a map what cannot be asked for, which has the flags 0.
fn lay_rest(map: &mut Vec<Extent>, plan: Plan) -> Result<(), Stop>
    requires fit { IsFit plan }
    requires room { span map.old.items ≡ plan.whole }
    ensures ok { OnOk result (map.new.items ≡ with_extent map.old.items (record { length = plan.size - plan.whole; flags = 0 })) }
    ensures err { IfErr result (λ told. told ≡ Stop.Halted Halt.NoMemory) }
{
    let rest = Extent {
        length: plan.size - plan.whole,
        flags: 0,
    };
    match push_joined(map, rest) {
        Ok(()) => Ok(()),
        Err(_) => Err(Stop::Halted(Halt::NoMemory)),
    }
}

/// Waits until negotiation comes to a stand, and then asks for all whole blocks.
fn learn<W: Wires>(
    handles: &mut Handles<Surveyor>,
    wires: &mut W,
    world: &mut Survey,
    map: &mut Vec<Extent>,
    start: u64,
) -> Result<(), Stop>
    requires reached { (seen : Seen Calls) × Holds handles.old seen }
    requires started { start ≤ W.idles wires.old }
    requires none { map.old.items ≡ [] }
    ensures learns { Goes (W.told wires.old) (W.told wires.new) (Holds handles.old) (Holds handles.new) (λ before calls after. Taught world.old.context map.new.items (W.faults wires.old) (W.faults wires.new) result before calls after) }
    ensures silent { result ≡ Err (Stop.Halted Halt.Silent) → Rises patience start (W.idles wires.new) }
    ensures contents { Keeps (W.contents wires.old) (W.contents wires.new) }
    ensures faults { W.faults wires.old ≤ W.faults wires.new }
    ensures idles { W.idles wires.old ≤ W.idles wires.new }
{
    if let Err(halt) = settle(handles, wires, world, Awaited::Answers, start) {
        return Err(Stop::Halted(halt));
    }
    match known(handles, &world.context) {
        Ok(plan) => match inquire(handles, wires, world, plan, map, start) {
            Ok(()) => lay_rest(map, plan),
            Err(stop) => Err(stop),
        },
        Err(stop) => Err(stop),
    }
}

/// Learns all, and then asks for the end and waits until that is written.
fn discuss<W: Wires>(
    handles: &mut Handles<Surveyor>,
    wires: &mut W,
    world: &mut Survey,
    map: &mut Vec<Extent>,
    start: u64,
) -> Result<(), Stop>
    requires reached { (seen : Seen Calls) × Holds handles.old seen }
    requires started { start ≤ W.idles wires.old }
    requires none { map.old.items ≡ [] }
    ensures discusses { Goes (W.told wires.old) (W.told wires.new) (Holds handles.old) (Holds handles.new) (λ before calls after. Discussed world.old.context map.new.items (W.faults wires.old) (W.faults wires.new) result before calls after) }
    ensures silent { result ≡ Err (Stop.Halted Halt.Silent) → Rises patience start (W.idles wires.new) }
    ensures contents { Keeps (W.contents wires.old) (W.contents wires.new) }
    ensures faults { W.faults wires.old ≤ W.faults wires.new }
    ensures idles { W.idles wires.old ≤ W.idles wires.new }
{
    let learned = learn(handles, wires, world, map, start);
    if !is_end_parting(learned) {
        return learned;
    }
    part(handles);
    let written = settle(handles, wires, world, Awaited::Written, start);
    end_of(learned, written, handles.get(0).state())
}

/// Asks and hears on the link of the one handle that is held, and tells what came of it.
fn converse<W: Wires>(
    alloc: Global,
    handles: &mut Handles<Surveyor>,
    wires: &mut W,
    world: &mut Survey,
    place: &Place,
    start: Counts,
) -> Result<Extents, InfoFault>
    requires begins { (link : ℕ) × Holds handles.old (begins link place.now.name world.old.context) }
    requires started { start.idles ≤ W.idles wires.old }
    requires counted { start.faults ≤ W.faults wires.old }
    ensures converses { (link : ℕ) → Holds handles.old (begins link place.now.name world.old.context) → Talked_over link place.now world.old.context (W.told wires.old) (W.told wires.new) result }
    ensures room { IfOk result (λ map. span map ≤ size_end) }
    ensures filled { IfOk result (λ map. AreFilled map) }
    ensures link { IfErr result (λ told. IfLink told (λ before after. (before ≡ start.faults) × Rises 1 before after × (after ≤ W.faults wires.new))) }
    ensures silent { IfErr result (λ told. IfSilent told (λ idles. Rises patience start.idles idles × (idles ≤ W.idles wires.new))) }
    ensures contents { Keeps (W.contents wires.old) (W.contents wires.new) }
    ensures faults { W.faults wires.old ≤ W.faults wires.new }
    ensures idles { W.idles wires.old ≤ W.idles wires.new }
{
    let mut map = Vec::new(alloc);
    let talked = discuss(handles, wires, world, &mut map, start.idles);
    let now = Counts {
        faults: wires.faults(),
        idles: wires.idles(),
    };
    match talked {
        Ok(()) => Ok(Extents::from_vec(map)),
        Err(stop) => Err(of_stop(stop, start, now)),
    }
}

/// Closes what is held and shuts its link.
fn hang_up<W: Wires>(handles: Handles<Surveyor>, wires: &mut W, world: &mut Survey, link: u32)
    ensures told { Adds (W.told wires.old) (W.told wires.new) (Shut link) }
    ensures contents { Keeps (W.contents wires.old) (W.contents wires.new) }
    ensures faults { W.faults wires.old ≤ W.faults wires.new }
    ensures idles { W.idles wires.old ≤ W.idles wires.new }
{
    let _ = handles.close(world);
    wires.shut(link);
}

/// Has the conversation on a link that was had, and shuts it.
fn map_on<W: Wires>(
    alloc: Global,
    handle: Handle<Surveyor>,
    wires: &mut W,
    world: &mut Survey,
    link: u32,
    place: &Place,
    start: Counts,
) -> Result<Extents, InfoFault>
    requires stands { StandsFor max_unretired (begun place.now.name world.old.context) handle.machine }
    requires started { start.idles ≤ W.idles wires.old }
    requires counted { start.faults ≤ W.faults wires.old }
    ensures maps { MappedOn link place.now world.old.context (W.told wires.old) (W.told wires.new) result }
    ensures room { IfOk result (λ map. span map ≤ size_end) }
    ensures filled { IfOk result (λ map. AreFilled map) }
    ensures link { IfErr result (λ told. IfLink told (λ before after. (before ≡ start.faults) × Rises 1 before after × (after ≤ W.faults wires.new))) }
    ensures silent { IfErr result (λ told. IfSilent told (λ idles. Rises patience start.idles idles × (idles ≤ W.idles wires.new))) }
    ensures contents { Keeps (W.contents wires.old) (W.contents wires.new) }
    ensures faults { W.faults wires.old ≤ W.faults wires.new }
    ensures idles { W.idles wires.old ≤ W.idles wires.new }
{
    let mut handles = Handles::new(alloc);
    match handles.add(link, handle) {
        Ok(_) => {
            let told = converse(alloc, &mut handles, wires, world, place, start);
            hang_up(handles, wires, world, link);
            told
        }
        Err(handle) => {
            let _ = handle.close(world);
            hang_up(handles, wires, world, link);
            Err(InfoFault::NoMemory)
        }
    }
}

/// Connects, and has the conversation.
fn dial<W: Wires>(
    alloc: Global,
    handle: Handle<Surveyor>,
    wires: &mut W,
    world: &mut Survey,
    place: &Place,
) -> Result<Extents, InfoFault>
    requires stands { StandsFor max_unretired (begun place.now.name world.old.context) handle.machine }
    ensures maps { Mapped place.now world.old.context (W.told wires.old) (W.told wires.new) result }
    ensures room { IfOk result (λ map. span map ≤ size_end) }
    ensures filled { IfOk result (λ map. AreFilled map) }
    ensures link { IfErr result (λ told. IfLink told (λ before after. (before ≡ W.faults wires.old) × Rises 1 before after × (after ≤ W.faults wires.new))) }
    ensures silent { IfErr result (λ told. IfSilent told (λ idles. Rises patience (W.idles wires.old) idles × (idles ≤ W.idles wires.new))) }
    ensures contents { Keeps (W.contents wires.old) (W.contents wires.new) }
    ensures faults { W.faults wires.old ≤ W.faults wires.new }
    ensures idles { W.idles wires.old ≤ W.idles wires.new }
{
    let start = Counts {
        faults: wires.faults(),
        idles: wires.idles(),
    };
    match wires.connect(&place.to) {
        Ok(link) => map_on(alloc, handle, wires, world, link, place, start),
        Err(_) => {
            let _ = handle.close(world);
            Err(InfoFault::Link {
                before: start.faults,
                after: wires.faults(),
            })
        }
    }
}

/// A handle that is to ask for this export and this context.
fn open_for(alloc: Global, place: &Place, context: &Text) -> Result<Handle<Surveyor>, NoMemory>
    ensures { IfOk result (λ handle. StandsFor max_unretired (begun place.now.name context.now) handle.machine) }
{
    let name = place.name.try_clone(alloc)?;
    let context = context.try_clone(alloc)?;
    let mut idle = Survey::new(alloc, Text::empty(alloc));
    open(alloc, name, context, &mut idle)
}

/// Connects with a new handle, and has the conversation.
fn map_for<W: Wires>(
    alloc: Global,
    place: &Place,
    wires: &mut W,
    world: &mut Survey,
) -> Result<Extents, InfoFault>
    ensures maps { Mapped place.now world.old.context (W.told wires.old) (W.told wires.new) result }
    ensures room { IfOk result (λ map. span map ≤ size_end) }
    ensures filled { IfOk result (λ map. AreFilled map) }
    ensures link { IfErr result (λ told. IfLink told (λ before after. (before ≡ W.faults wires.old) × Rises 1 before after × (after ≤ W.faults wires.new))) }
    ensures silent { IfErr result (λ told. IfSilent told (λ idles. Rises patience (W.idles wires.old) idles × (idles ≤ W.idles wires.new))) }
    ensures contents { Keeps (W.contents wires.old) (W.contents wires.new) }
    ensures faults { W.faults wires.old ≤ W.faults wires.new }
    ensures idles { W.idles wires.old ≤ W.idles wires.new }
{
    match open_for(alloc, place, &world.context) {
        Ok(handle) => dial(alloc, handle, wires, world, place),
        Err(_) => Err(InfoFault::NoMemory),
    }
}

/// What callbacks keep of this context.
fn survey_of(alloc: Global, context: &Text) -> Result<Survey, NoMemory>
    ensures { IfOk result (λ world. world.context ≡ context.now) }
{
    let context = context.try_clone(alloc)?;
    Ok(Survey::new(alloc, context))
}

/// The map of the export at this place in this meta context: the extents from 0 to its size, of which no two neighbours have the
/// same flags. It connects once, negotiates with extended headers, structured replies and this one context, and asks for the block
/// status of 128 MiB at a time. It goes on at the last multiple of the export's least block that the told extents reach; a block of
/// which less is told has the flags of the first extent told for it. What is left at the end of less than a block has the flags 0.
/// Then the end is asked for, and the link is shut once that is written or the connection has ended.
///
/// # Errors
///
/// `NoContext` exactly where the server makes the export known and does not agree to the context. `Link` where a call on the wires
/// failed, `Broke` where the server broke the protocol, answered faulty content or ended the connection before, `Peer` where it
/// refused the export or answered a command by an error, `Silent` where the wires were idle for too long. `NoMemory` may come in
/// place of every other answer.
pub fn map<W: Wires>(
    alloc: Global,
    place: &Place,
    context: &Text,
    wires: &mut W,
) -> Result<Extents, InfoFault>
    // The calls that were made on the wires, and the map that was told, or why there is none.
    ensures maps { Mapped place.now context.now (W.told wires.old) (W.told wires.new) result }

    // A map is of 2^63 bytes at most, and no extent of it is empty.
    ensures room { IfOk result (λ map. span map ≤ size_end) }
    ensures filled { IfOk result (λ map. AreFilled map) }

    // The counts that rose.
    ensures link { IfErr result (λ told. IfLink told (λ before after. (before ≡ W.faults wires.old) × Rises 1 before after × (after ≤ W.faults wires.new))) }
    ensures silent { IfErr result (λ told. IfSilent told (λ idles. Rises patience (W.idles wires.old) idles × (idles ≤ W.idles wires.new))) }
    ensures contents { Keeps (W.contents wires.old) (W.contents wires.new) }
    ensures faults { W.faults wires.old ≤ W.faults wires.new }
    ensures idles { W.idles wires.old ≤ W.idles wires.new }
{
    match survey_of(alloc, context) {
        Ok(world) => {
            let mut world = world;
            map_for(alloc, place, wires, &mut world)
        }
        Err(_) => Err(InfoFault::NoMemory),
    }
}
