//! nbdcopy where a side is a file, and how such a run ends (nbdcopy(1)). Copies between two exports are in `copying`.

ghost use Rattle.std.specs.Prelude.{◌≡◌, Err, OnOk, true};
ghost use Rattle.lnbd_conduct.specs.Limits.{AreLimited};
ghost use Rattle.lnbd_copyfile.specs.FileCopy.{AreFileSides};
ghost use Rattle.lnbd_link.specs.Count.{Rises, patience};
ghost use Rattle.lnbd_cli.specs.Ends.{status_of};
ghost use Rattle.lnbd_cli.specs.FileCopies.{FilesEnd, HasExport, IsEndOf, is_files_status, is_mixed_status};
ghost use Rattle.lnbd_cli.specs.declared.ending.Fault.TheVariants as fault;

use crate::copying::told;
use crate::ending::{End, Fault, Ruling};
use lnbd_args::{CopyOptions, Side};
use lnbd_copyfile::{FileCopy, FileFault};
use lnbd_link::Wires;
use lnbd_plan::Summary;
use lnbd_store::Store;
use std::alloc::Global;

/// How the run ends where the copy came to this.
fn end_of(made: Result<Summary, FileFault>) -> End
    ensures end { IsEndOf made result }
    ensures known { is_mixed_status (status_of result) ≡ true }
{
    match made {
        Ok(_) => Ok(true),
        Err(FileFault::Copy(fault)) => Err(told(fault)),
        Err(FileFault::Store { .. }) => Err(Fault::Store),
        Err(FileFault::Changed { length, end }) => {
            Err(Fault::Rule(Ruling::Changed { length, end }))
        }
    }
}

/// Copies where a side is a file.
pub(crate) fn copy_files<W: Wires, S: Store>(
    alloc: Global,
    options: CopyOptions,
    from: Side,
    to: Side,
    wires: &mut W,
    store: &mut S,
) -> End
    requires limited { AreLimited options }
    requires sides { AreFileSides from to }
    ensures ends { FilesEnd options from to (W.told wires.old) (W.told wires.new) (wires.new ≡ wires.old) (S.told store.old) (S.told store.new)
        (S.shelf store.old) (S.shelf store.new) (S.given store.old) (S.given store.new) (S.taken store.old) (S.taken store.new) (store.new ≡ store.old) result }
    ensures known { is_files_status from to (status_of result) ≡ true }
    ensures link { result ≡ Err fault.Link → Rises 1 (W.faults wires.old) (W.faults wires.new) }
    ensures silent { result ≡ Err fault.Silent → Rises patience (W.idles wires.old) (W.idles wires.new) }
    ensures storing { result ≡ Err fault.Store → Rises 1 (S.faults store.old) (S.faults store.new) }
    ensures well { HasExport from to → OnOk result (¬ Rises 1 (W.faults wires.old) (W.faults wires.new)) }
    ensures patient { HasExport from to → OnOk result (¬ Rises patience (W.idles wires.old) (W.idles wires.new)) }
{
    match FileCopy::new(alloc, options, from, to) {
        Ok(copy) => end_of(copy.run(wires, store)),
        Err(_) => Err(Fault::NoMemory),
    }
}
