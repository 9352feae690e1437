//! nbddump: bytes of an export are shown, and how such a run ends (nbddump(1)).

ghost use Rattle.std.specs.Prelude.{◌≡◌, Err, OnOk, true};
ghost use Rattle.lnbd_link.specs.Count.{Rises, patience};
ghost use Rattle.lnbd_cli.specs.Dumps.{DumpEnds, TellsDumpFault, is_dump_status};
ghost use Rattle.lnbd_cli.specs.Ends.{status_of};
ghost use Rattle.lnbd_cli.specs.declared.ending.Fault.TheVariants as fault;

use crate::counts::look;
use crate::ending::{End, Fault, Ruling};
use lnbd_dump::{DumpFault, dump};
use lnbd_link::{Sink, Wires};
use lnbd_model::Place;
use std::alloc::Global;

/// Which bytes of which export are shown.
#[derive(Debug, Drop)]
pub(crate) struct Excerpt {
    pub(crate) place: Place,
    pub(crate) offset: u64,
    /// How many they are, if not all that follow.
    pub(crate) length: Option<u64>,
}

/// What is told of a fault of dumping.
fn told(fault: DumpFault) -> Fault
    ensures told { TellsDumpFault fault result }
    ensures known { is_dump_status (status_of (Err result)) ≡ true }
{
    match fault {
        DumpFault::NoMemory => Fault::NoMemory,
        DumpFault::Link { .. } => Fault::Link,
        DumpFault::Broke(broken) => Fault::Broke(broken),
        DumpFault::Peer { option, code } => Fault::Told { option, code },
        DumpFault::Silent { .. } => Fault::Silent,
        DumpFault::Output => Fault::Output,
        DumpFault::Range {
            offset,
            length,
            size,
        } => Fault::Rule(Ruling::Range {
            offset,
            length,
            size,
        }),
        DumpFault::Uneven { length, block } => Fault::Rule(Ruling::Uneven {
            size: length,
            block,
        }),
    }
}

/// Shows them.
pub(crate) fn show<W: Wires, O: Sink>(
    alloc: Global,
    what: Excerpt,
    wires: &mut W,
    out: &mut O,
) -> End
    ensures ends { DumpEnds what (W.told wires.old) (W.told wires.new) (O.taken out.old) (O.taken out.new) (wires.new ≡ wires.old) (out.new ≡ out.old) result }
    ensures known { is_dump_status (status_of result) ≡ true }
    ensures link { result ≡ Err fault.Link → Rises 1 (W.faults wires.old) (W.faults wires.new) }
    ensures silent { result ≡ Err fault.Silent → Rises patience (W.idles wires.old) (W.idles wires.new) }
    ensures output { result ≡ Err fault.Output → Rises 1 (O.faults out.old) (O.faults out.new) }
    ensures well { OnOk result (¬ Rises 1 (W.faults wires.old) (W.faults wires.new)) }
    ensures patient { OnOk result (¬ Rises patience (W.idles wires.old) (W.idles wires.new)) }
    ensures output_well { OnOk result (O.faults out.new ≡ O.faults out.old) }
{
    let Excerpt {
        place,
        offset,
        length,
    } = what;
    let faults = wires.faults();
    let idles = wires.idles();
    match dump(alloc, &place, offset, length, wires, out) {
        Ok(_) => match look(faults, idles, wires) {
            Ok(()) => Ok(true),
            Err(fault) => Err(fault),
        },
        Err(fault) => Err(told(fault)),
    }
}
