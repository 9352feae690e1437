//! What is told of a conversation that ended.

ghost use Rattle.std.specs.Prelude.{◌≡◌, length, Ok, Err, IfErr, IfOk};
ghost use Rattle.std.specs.Option.{option_copied};
ghost use Rattle.lnbd_history.specs.Answers.{info_after, state_after};
ghost use Rattle.lnbd_model.specs.declared.state.State.TheVariants as state;
ghost use Rattle.lnbd_model.specs.declared.state.Cause.TheVariants as cause;
ghost use Rattle.lnbd_poll.specs.Seen.{Seen};
ghost use Rattle.lnbd_waits.specs.Waits.{Holds};
ghost use Rattle.lnbd_ask.specs.Asks.{IfLink, IfSilent, IsOfDeath, IsOfHalt, Tells, TellsExport, TellsState};
ghost use Rattle.lnbd_waits.specs.declared.waiting.Halt.TheVariants as halt;

use crate::copies::{copy_info, copy_place};
use crate::fault::InfoFault;
use lnbd_info::Found;
use lnbd_model::{Breach, Broken, Cause, ExportInfo, NoMemory, Place, State};
use lnbd_poll::Handles;
use lnbd_waits::Halt;
use std::alloc::Global;

/// What the wires counted.
#[derive(Clone, Copy, Debug, PartialEq, Eq)]
pub(crate) struct Counts {
    /// How often a call failed.
    pub(crate) faults: u64,
    /// How long they waited.
    pub(crate) idles: u64,
}

/// What is told where the conversation broke off.
pub(crate) fn of_halt(halt: Halt, now: Counts) -> InfoFault
    ensures told { IsOfHalt halt result }
    ensures silent { IfSilent result (λ idles. (halt ≡ Halt.Silent) × (idles ≡ now.idles)) }
    ensures link { IfLink result (λ before after. ⊥) }
{
    match halt {
        Halt::Silent => InfoFault::Silent { idles: now.idles },
        Halt::NoMemory => InfoFault::NoMemory,
    }
}

/// What is told where the connection is dead.
pub(crate) fn of_death(death: Cause, start: Counts, now: Counts) -> InfoFault
    ensures told { IsOfDeath death result }
    ensures link { IfLink result (λ before after. (death ≡ cause.LinkFailed) × (before ≡ start.faults) × (after ≡ now.faults)) }
    ensures silent { IfSilent result (λ idles. ⊥) }
{
    match death {
        Cause::Broke(breach) => InfoFault::Broke(Broken::Breach(breach)),
        Cause::Refused { option, code } => InfoFault::Peer {
            option: Some(option),
            code,
        },
        Cause::Ended => InfoFault::Broke(Broken::Ended),
        Cause::LinkFailed => InfoFault::Link {
            before: start.faults,
            after: now.faults,
        },
    }
}

fn copy_found(alloc: Global, info: &ExportInfo, place: &Place) -> Result<Found, NoMemory>
    ensures { IfOk result (λ found. found ≡ record { info = info.now; place = place.now }) }
{
    Ok(Found {
        info: copy_info(alloc, info)?,
        place: copy_place(alloc, place)?,
    })
}

/// What is known of the export.
fn found(alloc: Global, info: Option<&ExportInfo>, place: &Place) -> Result<Found, InfoFault>
    ensures told { TellsExport (option_copied info.entry) place.now result }
    ensures link { IfErr result (λ told. IfLink told (λ before after. ⊥)) }
    ensures silent { IfErr result (λ told. IfSilent told (λ idles. ⊥)) }
{
    match info {
        Some(info) => Ok(copy_found(alloc, info, place)?),
        None => Err(InfoFault::Broke(Broken::Breach(Breach::NoExportInfo))),
    }
}

/// What is told where the handle is in this state and knows so much of the export.
fn tell_state(
    alloc: Global,
    at: State,
    info: Option<&ExportInfo>,
    place: &Place,
    start: Counts,
    now: Counts,
) -> Result<Found, InfoFault>
    ensures told { TellsState at (option_copied info.entry) place.now result }
    ensures link { IfErr result (λ told. IfLink told (λ before after. (at ≡ state.Dead cause.LinkFailed) × (before ≡ start.faults) × (after ≡ now.faults))) }
    ensures silent { IfErr result (λ told. IfSilent told (λ idles. ⊥)) }
{
    match at {
        State::Dead(cause) => Err(of_death(cause, start, now)),
        _ => found(alloc, info, place),
    }
}

/// What is told where the conversation ended so.
pub(crate) fn tell<K>(
    alloc: Global,
    handles: &Handles<K>,
    talked: Result<(), Halt>,
    place: &Place,
    start: Counts,
    now: Counts,
) -> Result<Found, InfoFault>
    requires { length handles.now ≡ 1 }
    ensures told { (seen : Seen K) → Holds handles.now seen → Tells talked (state_after seen.history) (info_after seen.history) place.now result }
    ensures link { (seen : Seen K) → Holds handles.now seen → IfErr result (λ told. IfLink told (λ before after. (state_after seen.history ≡ state.Dead cause.LinkFailed) × (before ≡ start.faults) × (after ≡ now.faults))) }
    ensures silent { IfErr result (λ told. IfSilent told (λ idles. (talked ≡ Err halt.Silent) × (idles ≡ now.idles))) }
{
    match talked {
        Ok(()) => {
            let handle = handles.get(0);
            tell_state(alloc, handle.state(), handle.info(), place, start, now)
        }
        Err(halt) => Err(of_halt(halt, now)),
    }
}
