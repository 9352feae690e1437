//! nbdcopy: a copy from one export to another, and how such a run ends (nbdcopy(1)).

ghost use Rattle.std.specs.Prelude.{◌≡◌, Err, OnOk, true};
ghost use Rattle.lnbd_conduct.specs.Limits.{AreLimited};
ghost use Rattle.lnbd_link.specs.Count.{Rises, patience};
ghost use Rattle.lnbd_cli.specs.Copies.{CopyEnds, TellsCopyFault, is_copy_status};
ghost use Rattle.lnbd_cli.specs.Ends.{status_of};
ghost use Rattle.lnbd_cli.specs.declared.ending.Fault.TheVariants as fault;

use crate::ending::{End, Fault, Ruling};
use lnbd_args::CopyOptions;
use lnbd_copy::Copier;
use lnbd_link::Wires;
use lnbd_model::Place;
use lnbd_plan::CopyFault;
use std::alloc::Global;

/// What is to be copied where to, and how.
#[derive(Debug, Drop)]
pub(crate) struct Transfer {
    pub(crate) options: CopyOptions,
    pub(crate) from: Place,
    pub(crate) to: Place,
}

/// What is told of a fault of copying.
pub(crate) fn told(fault: CopyFault) -> Fault
    ensures told { TellsCopyFault fault result }
    ensures known { is_copy_status (status_of (Err result)) ≡ true }
{
    match fault {
        CopyFault::Peer { option, code } => Fault::Told { option, code },
        CopyFault::Broke(broken) => Fault::Broke(broken),
        CopyFault::Link { .. } => Fault::Link,
        CopyFault::Rule(rule) => Fault::Rule(Ruling::Copy(rule)),
        CopyFault::Silent { .. } => Fault::Silent,
        CopyFault::NoMemory => Fault::NoMemory,
    }
}

/// Copies.
pub(crate) fn copy<W: Wires>(alloc: Global, what: Transfer, wires: &mut W) -> End
    requires { AreLimited what.options }
    ensures ends { CopyEnds what (W.told wires.old) (W.told wires.new) (wires.new ≡ wires.old) result }
    ensures known { is_copy_status (status_of result) ≡ true }
    ensures link { result ≡ Err fault.Link → Rises 1 (W.faults wires.old) (W.faults wires.new) }
    ensures silent { result ≡ Err fault.Silent → Rises patience (W.idles wires.old) (W.idles wires.new) }
    ensures well { OnOk result (¬ Rises 1 (W.faults wires.old) (W.faults wires.new)) }
    ensures patient { OnOk result (¬ Rises patience (W.idles wires.old) (W.idles wires.new)) }
{
    let Transfer { options, from, to } = what;
    match Copier::new(alloc, options, from, to).run(wires) {
        Ok(_) => Ok(true),
        Err(fault) => Err(told(fault)),
    }
}
