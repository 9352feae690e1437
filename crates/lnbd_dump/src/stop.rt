//! Why no more is shown, and what is told of it.

ghost use Rattle.std.specs.Prelude.{◌≡◌, None};
ghost use Rattle.lnbd_model.specs.declared.state.Cause.TheVariants as cause;
ghost use Rattle.lnbd_dump.specs.Conduct.{IfLink, IfSilent};
ghost use Rattle.lnbd_dump.specs.Stops.{IsToldAs, IsToldDead};

use crate::fault::DumpFault;
use lnbd_model::{Breach, Broken, Cause, EPROTO};
use lnbd_waits::Halt;

/// Why no more is shown.
#[derive(Clone, Copy, Debug, PartialEq, Eq)]
pub(crate) enum Stop {
    /// What was awaited did not come, or memory ran out.
    Halted(Halt),
    /// The connection is over.
    Died(Cause),
    /// What was told of the export breaks the protocol.
    Broke(Breach),
    /// A command failed with this error.
    Failed(u32),
    /// The output failed.
    Output,
    /// The export has no such range.
    Range { size: u64 },
    /// Its last bytes lie in no whole block.
    Uneven { size: u64, block: u32 },
}

/// What the wires counted.
#[derive(Clone, Copy, Debug, PartialEq, Eq)]
pub(crate) struct Counts {
    /// How often a call failed.
    pub(crate) faults: u64,
    /// How long they waited.
    pub(crate) idles: u64,
}

/// What is told where the connection is dead.
fn of_death(death: Cause, start: Counts, now: Counts) -> DumpFault
    ensures told { IsToldDead death result }
    ensures link { IfLink result (λ before after. (death ≡ cause.LinkFailed) × (before ≡ start.faults) × (after ≡ now.faults)) }
    ensures silent { IfSilent result (λ idles. ⊥) }
{
    match death {
        Cause::Broke(breach) => DumpFault::Broke(Broken::Breach(breach)),
        Cause::Refused { option, code } => DumpFault::Peer {
            option: Some(option),
            code,
        },
        Cause::Ended => DumpFault::Broke(Broken::Ended),
        Cause::LinkFailed => DumpFault::Link {
            before: start.faults,
            after: now.faults,
        },
    }
}

/// A command's error: faulty content, or what the peer told.
fn failed_by(error: u32) -> DumpFault
    ensures told { IsToldAs 0 None (Stop.Failed error) result }
    ensures link { IfLink result (λ before after. ⊥) }
    ensures silent { IfSilent result (λ idles. ⊥) }
{
    if error == EPROTO {
        DumpFault::Broke(Broken::Content)
    } else {
        DumpFault::Peer {
            option: None,
            code: error,
        }
    }
}

/// What is told of it.
pub(crate) fn of_stop(
    stop: Stop,
    offset: u64,
    length: Option<u64>,
    start: Counts,
    now: Counts,
) -> DumpFault
    ensures told { IsToldAs offset length stop result }
    ensures link { IfLink result (λ before after. (stop ≡ Stop.Died cause.LinkFailed) × (before ≡ start.faults) × (after ≡ now.faults)) }
    ensures silent { IfSilent result (λ idles. (stop ≡ Stop.Halted Halt.Silent) × (idles ≡ now.idles)) }
    ensures output { result ≡ DumpFault.Output → stop ≡ Stop.Output }
{
    match stop {
        Stop::Halted(Halt::Silent) => DumpFault::Silent { idles: now.idles },
        Stop::Halted(Halt::NoMemory) => DumpFault::NoMemory,
        Stop::Died(death) => of_death(death, start, now),
        Stop::Broke(breach) => DumpFault::Broke(Broken::Breach(breach)),
        Stop::Failed(error) => failed_by(error),
        Stop::Output => DumpFault::Output,
        Stop::Range { size } => DumpFault::Range {
            offset,
            length: length.unwrap_or(0),
            size,
        },
        Stop::Uneven { size, block } => DumpFault::Uneven {
            length: size,
            block,
        },
    }
}
