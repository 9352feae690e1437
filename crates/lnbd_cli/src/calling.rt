//! nbdcalls: a script is read and played, and how such a run ends.

ghost use Rattle.std.specs.Prelude.{◌≡◌, ◌≢◌, Ok, Err, OnOk, true};
ghost use Rattle.lnbd_link.specs.Count.{Rises, patience};
ghost use Rattle.lnbd_cli.specs.Calls.{CallsEnds, HoldsScript, PlayEnds, is_calls_status};
ghost use Rattle.lnbd_cli.specs.Ends.{status_of};
ghost use Rattle.lnbd_cli.specs.Inputs.{ReadAtMost};
ghost use Rattle.lnbd_cli.specs.Limits.{most_read};
ghost use Rattle.lnbd_cli.specs.declared.ending.Fault.TheVariants as fault;

use crate::counts::look;
use crate::ending::{End, Fault};
use crate::input::{Unread, read_script};
use lnbd_link::{Sink, Source, Wires};
use lnbd_script::{PlayFault, Script, play};
use std::alloc::Global;

/// Plays the script.
fn play_script<W: Wires, O: Sink>(alloc: Global, script: &Script, wires: &mut W, out: &mut O) -> End
    ensures ends { PlayEnds result script.now (W.told wires.old) (W.told wires.new) (O.taken out.old) (O.taken out.new) }
    ensures known { is_calls_status (status_of result) ≡ true }
    ensures good { status_of result ≢ 1 }
    ensures input { result ≢ Err fault.Input }
    ensures link { result ≡ Err fault.Link → Rises 1 (W.faults wires.old) (W.faults wires.new) }
    ensures silent { result ≡ Err fault.Silent → Rises patience (W.idles wires.old) (W.idles wires.new) }
    ensures output { result ≡ Err fault.Output → Rises 1 (O.faults out.old) (O.faults out.new) }
    ensures well { OnOk result (¬ Rises 1 (W.faults wires.old) (W.faults wires.new)) }
    ensures patient { OnOk result (¬ Rises patience (W.idles wires.old) (W.idles wires.new)) }
    ensures output_well { OnOk result (O.faults out.new ≡ O.faults out.old) }
{
    let faults = wires.faults();
    let idles = wires.idles();
    match play(alloc, script, wires, out) {
        Ok(()) => match look(faults, idles, wires) {
            Ok(()) => Ok(true),
            Err(fault) => Err(fault),
        },
        Err(PlayFault::Peer { option, code }) => Err(Fault::Told { option, code }),
        Err(PlayFault::Broke(broken)) => Err(Fault::Broke(broken)),
        Err(PlayFault::Link) => Err(Fault::Link),
        Err(PlayFault::Silent) => Err(Fault::Silent),
        Err(PlayFault::Output) => Err(Fault::Output),
        Err(PlayFault::NoMemory) => Err(Fault::NoMemory),
    }
}

/// Reads the script that the input holds, and plays it.
pub(crate) fn calls<I: Source, W: Wires, O: Sink>(
    alloc: Global,
    input: &mut I,
    wires: &mut W,
    out: &mut O,
) -> End
    ensures ends { CallsEnds (I.left input.old) (I.left input.new) (W.told wires.old) (W.told wires.new) (O.taken out.old) (O.taken out.new) ((wires.new ≡ wires.old) × (out.new ≡ out.old)) result }
    ensures known { is_calls_status (status_of result) ≡ true }
    ensures accepts { HoldsScript (I.left input.old) → status_of result ≢ 1 }
    ensures most { ReadAtMost most_read (I.left input.old) (I.left input.new) }
    ensures input { result ≡ Err fault.Input → Rises 1 (I.faults input.old) (I.faults input.new) }
    ensures link { result ≡ Err fault.Link → Rises 1 (W.faults wires.old) (W.faults wires.new) }
    ensures silent { result ≡ Err fault.Silent → Rises patience (W.idles wires.old) (W.idles wires.new) }
    ensures output { result ≡ Err fault.Output → Rises 1 (O.faults out.old) (O.faults out.new) }
    ensures well { OnOk result (¬ Rises 1 (W.faults wires.old) (W.faults wires.new)) }
    ensures patient { OnOk result (¬ Rises patience (W.idles wires.old) (W.idles wires.new)) }
    ensures output_well { OnOk result (O.faults out.new ≡ O.faults out.old) }
    ensures input_well { OnOk result (I.faults input.new ≡ I.faults input.old) }
{
    match read_script(alloc, input) {
        Ok(script) => play_script(alloc, &script, wires, out),
        Err(Unread::Line(number)) => Err(Fault::Line(number)),
        Err(Unread::Failed) => Err(Fault::Input),
        Err(Unread::NoMemory) => Err(Fault::NoMemory),
    }
}
