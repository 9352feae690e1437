//! Which exports a server has, and what it tells of each.

ghost use Rattle.std.specs.Prelude.{[], ◌≡◌, ◌≢◌, ◌≤◌, ℕ, length, Err, IfErr, IfOk, OnOk};
ghost use Rattle.lnbd_model.specs.declared.state.State.TheVariants as state;
ghost use Rattle.lnbd_model.specs.declared.state.Cause.TheVariants as cause;
ghost use Rattle.lnbd_handle.specs.Histories.{max_unretired};
ghost use Rattle.lnbd_history.specs.Answers.{opt_answer_after, state_after};
ghost use Rattle.lnbd_link.specs.Contents.{Keeps};
ghost use Rattle.lnbd_link.specs.Count.{Rises, patience};
ghost use Rattle.lnbd_poll.specs.Seen.{Seen};
ghost use Rattle.lnbd_standing.specs.Standing.{StandsFor};
ghost use Rattle.lnbd_ask.specs.Asks.{IfLink, IfSilent};
ghost use Rattle.lnbd_ask.specs.Lists.{HasInquired, HasListed, HasListedOn, TellsAt, TellsEntries, answered, begins_listing, begun_listing};
ghost use Rattle.lnbd_ask.specs.Quiet.{Passes};
ghost use Rattle.lnbd_waits.specs.Waits.{Holds};
ghost use Rattle.lnbd_waits.specs.declared.waiting.Halt.TheVariants as halt;

use crate::collecting::hang_up;
use crate::entries::Entries;
use crate::fault::InfoFault;
use crate::inquiring::inquire;
use crate::quiet::Quiet;
use crate::telling::{Counts, of_death, of_halt};
use lnbd_callbacks::Caller;
use lnbd_handle::{Handle, SetFault};
use lnbd_history::OptAnswer;
use lnbd_link::Wires;
use lnbd_model::{NoMemory, Place, State};
use lnbd_poll::Handles;
use lnbd_records::names::OPT_LIST;
use lnbd_waits::Halt;
use std::alloc::Global;

/// Asks for extended headers, structured replies and opt mode, and starts.
fn begin<K>(handle: &mut Handle<K>) -> Result<(), SetFault>
    requires { StandsFor max_unretired [] handle.old.machine }
    ensures { OnOk result (StandsFor max_unretired begun_listing handle.new.machine) }
{
    handle.set_request_extended_headers(true)?;
    handle.set_request_structured_replies(true)?;
    handle.set_opt_mode(true)?;
    handle.start()
}

/// A handle that is to ask for a server's exports.
fn open<K: Caller>(alloc: Global, world: &mut K::World) -> Result<Handle<K>, NoMemory>
    ensures { IfOk result (λ handle. StandsFor max_unretired begun_listing handle.machine) }
{
    let mut handle = Handle::create(alloc)?;
    match begin(&mut handle) {
        Ok(()) => Ok(handle),
        Err(_) => {
            let _ = handle.close(world);
            Err(NoMemory)
        }
    }
}

/// What is told where the connection ended as was asked.
fn answered(last: Option<OptAnswer>, entries: Entries) -> Result<Entries, InfoFault>
    ensures { result ≡ answered last entries }
{
    match last {
        Some(OptAnswer::Refused { option, code }) => {
            if option == OPT_LIST {
                Err(InfoFault::Peer {
                    option: Some(option),
                    code,
                })
            } else {
                Ok(entries)
            }
        }
        Some(OptAnswer::Ok) => Ok(entries),
        None => Ok(entries),
    }
}

/// What is told where the handle is in this state.
fn tell_at(
    at: State,
    last: Option<OptAnswer>,
    entries: Entries,
    start: Counts,
    now: Counts,
) -> Result<Entries, InfoFault>
    ensures told { TellsAt at last entries result }
    ensures link { IfErr result (λ told. IfLink told (λ before after. (at ≡ state.Dead cause.LinkFailed) × (before ≡ start.faults) × (after ≡ now.faults))) }
    ensures silent { IfErr result (λ told. IfSilent told (λ idles. ⊥)) }
{
    match at {
        State::Dead(cause) => Err(of_death(cause, start, now)),
        _ => answered(last, entries),
    }
}

/// What is told where the conversation ended so.
fn tell_entries<K>(
    handles: &Handles<K>,
    inquired: Result<Entries, Halt>,
    start: Counts,
    now: Counts,
) -> Result<Entries, InfoFault>
    requires { length handles.now ≡ 1 }
    ensures told { (seen : Seen K) → Holds handles.now seen → TellsEntries inquired (state_after seen.history) (opt_answer_after seen.history) result }
    ensures link { (seen : Seen K) → Holds handles.now seen → IfErr result (λ told. IfLink told (λ before after. (state_after seen.history ≡ state.Dead cause.LinkFailed) × (before ≡ start.faults) × (after ≡ now.faults))) }
    ensures silent { IfErr result (λ told. IfSilent told (λ idles. (inquired ≡ Err halt.Silent) × (idles ≡ now.idles))) }
{
    match inquired {
        Ok(entries) => {
            let handle = handles.get(0);
            tell_at(handle.state(), handle.opt_answer(), entries, start, now)
        }
        Err(halt) => Err(of_halt(halt, now)),
    }
}

/// Asks and hears on the link of the one handle that is held, and tells what came of it.
fn converse<W: Wires>(
    alloc: Global,
    handles: &mut Handles<Quiet>,
    wires: &mut W,
    start: Counts,
) -> Result<Entries, InfoFault>
    requires begins { (link : ℕ) × Holds handles.old (begins_listing link) }
    requires started { start.idles ≤ W.idles wires.old }
    requires counted { start.faults ≤ W.faults wires.old }
    ensures converses { (link : ℕ) → Holds handles.old (begins_listing link) → HasInquired Passes link (W.told wires.old) (W.told wires.new) result }
    ensures link { IfErr result (λ told. IfLink told (λ before after. (before ≡ start.faults) × Rises 1 before after × (after ≤ W.faults wires.new))) }
    ensures silent { IfErr result (λ told. IfSilent told (λ idles. Rises patience start.idles idles × (idles ≤ W.idles wires.new))) }
    ensures contents { Keeps (W.contents wires.old) (W.contents wires.new) }
    ensures faults { W.faults wires.old ≤ W.faults wires.new }
    ensures idles { W.idles wires.old ≤ W.idles wires.new }
{
    let mut world = ();
    let inquired = inquire(alloc, handles, wires, &mut world, start.idles);
    let now = Counts {
        faults: wires.faults(),
        idles: wires.idles(),
    };
    tell_entries(handles, inquired, start, now)
}

/// Has the conversation on a link that was had, and shuts it.
fn list_on<W: Wires>(
    alloc: Global,
    handle: Handle<Quiet>,
    wires: &mut W,
    link: u32,
    place: &Place,
    start: Counts,
) -> Result<Entries, InfoFault>
    requires stands { StandsFor max_unretired begun_listing handle.machine }
    requires started { start.idles ≤ W.idles wires.old }
    requires counted { start.faults ≤ W.faults wires.old }
    ensures lists { HasListedOn Passes link place.now (W.told wires.old) (W.told wires.new) result }
    ensures link { IfErr result (λ told. IfLink told (λ before after. (before ≡ start.faults) × Rises 1 before after × (after ≤ W.faults wires.new))) }
    ensures silent { IfErr result (λ told. IfSilent told (λ idles. Rises patience start.idles idles × (idles ≤ W.idles wires.new))) }
    ensures contents { Keeps (W.contents wires.old) (W.contents wires.new) }
    ensures faults { W.faults wires.old ≤ W.faults wires.new }
    ensures idles { W.idles wires.old ≤ W.idles wires.new }
{
    let mut handles = Handles::new(alloc);
    match handles.add(link, handle) {
        Ok(_) => {
            let told = converse(alloc, &mut handles, wires, start);
            hang_up(handles, wires, link);
            told
        }
        Err(handle) => {
            let mut world = ();
            let _ = handle.close(&mut world);
            hang_up(handles, wires, link);
            Err(InfoFault::NoMemory)
        }
    }
}

/// Connects, and has the conversation.
fn dial<W: Wires>(
    alloc: Global,
    handle: Handle<Quiet>,
    wires: &mut W,
    place: &Place,
) -> Result<Entries, InfoFault>
    requires stands { StandsFor max_unretired begun_listing handle.machine }
    ensures lists { HasListed Passes place.now (W.told wires.old) (W.told wires.new) result }
    ensures link { IfErr result (λ told. IfLink told (λ before after. (before ≡ W.faults wires.old) × Rises 1 before after × (after ≤ W.faults wires.new))) }
    ensures silent { IfErr result (λ told. IfSilent told (λ idles. Rises patience (W.idles wires.old) idles × (idles ≤ W.idles wires.new))) }
    ensures contents { Keeps (W.contents wires.old) (W.contents wires.new) }
    ensures faults { W.faults wires.old ≤ W.faults wires.new }
    ensures idles { W.idles wires.old ≤ W.idles wires.new }
{
    let start = Counts {
        faults: wires.faults(),
        idles: wires.idles(),
    };
    match wires.connect(&place.to) {
        Ok(link) => list_on(alloc, handle, wires, link, place, start),
        Err(_) => {
            let mut world = ();
            let _ = handle.close(&mut world);
            Err(InfoFault::Link {
                before: start.faults,
                after: wires.faults(),
            })
        }
    }
}

/// The exports of the server at this place: it connects once, negotiates in opt mode with extended headers and structured
/// replies, asks LIST and then INFO for each listed name in order, and gives negotiation up by ABORT. An INFO that is refused
/// gives its code, and the listing goes on. The link is shut once the connection has ended. The place's own name is not asked for.
///
/// # Errors
///
/// `Link` where a call on the wires failed, `Broke` where the server broke the protocol or ended the connection before,
/// `Peer` where it refused LIST, `Silent` where the wires were idle for too long. `NoMemory` may come in place of every
/// other answer. `NoContext` never comes: no context is asked for.
pub fn list<W: Wires>(alloc: Global, place: &Place, wires: &mut W) -> Result<Entries, InfoFault>
    // The calls that were made on the wires, and what they tell.
    ensures lists { HasListed Passes place.now (W.told wires.old) (W.told wires.new) result }

    // No context is asked for.
    ensures context { IfErr result (λ told. told ≢ InfoFault.NoContext) }

    // The counts that rose.
    ensures link { IfErr result (λ told. IfLink told (λ before after. (before ≡ W.faults wires.old) × Rises 1 before after × (after ≤ W.faults wires.new))) }
    ensures silent { IfErr result (λ told. IfSilent told (λ idles. Rises patience (W.idles wires.old) idles × (idles ≤ W.idles wires.new))) }
    ensures contents { Keeps (W.contents wires.old) (W.contents wires.new) }
    ensures faults { W.faults wires.old ≤ W.faults wires.new }
    ensures idles { W.idles wires.old ≤ W.idles wires.new }
{
    let mut world = ();
    match open(alloc, &mut world) {
        Ok(handle) => dial(alloc, handle, wires, place),
        Err(_) => Err(InfoFault::NoMemory),
    }
}
