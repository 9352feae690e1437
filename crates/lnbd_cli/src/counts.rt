//! What the wires counted: a last look at it in a run, and that they count the calls that they tell. What the calls were for is no
//! matter here.

ghost use Rattle.std.specs.Prelude.{◌≡◌, ◌<◌, ◌⊎◌, ◌^◌, Err, IfErr, List, OnOk, Some};
ghost use Rattle.lnbd_link.specs.Call.{Call};
ghost use Rattle.lnbd_link.specs.Count.{Rises, patience};
ghost use Rattle.lnbd_link.specs.Failed.{failed};
ghost use Rattle.lnbd_cli.specs.declared.ending.Fault.TheVariants as fault;

use crate::ending::Fault;
use lnbd_link::{Wires, is_long, rose};

/// Wires that tell their calls have counted those of them that failed, which are fewer than 2 ^ 63.
pub(crate) fn tally<W: Wires>(wires: &W)
    ensures counted { (calls : List Call) → W.told wires.now ≡ Some calls → W.faults wires.now ≡ failed calls }
    ensures few { (calls : List Call) → W.told wires.now ≡ Some calls → failed calls < 2 ^ 63 }
{
    let _ = wires.faults();
}

/// The last look, where these were the counts when the run began: a call failed, or else they waited for as long as is borne, if so.
pub(crate) fn look<W: Wires>(faults: u64, idles: u64, wires: &W) -> Result<(), Fault>
    ensures well { OnOk result (¬ Rises 1 faults (W.faults wires.now)) }
    ensures patient { OnOk result (¬ Rises patience idles (W.idles wires.now)) }
    ensures link { result ≡ Err fault.Link → Rises 1 faults (W.faults wires.now) }
    ensures silent { result ≡ Err fault.Silent → Rises patience idles (W.idles wires.now) }
    ensures only { IfErr result (λ why. (why ≡ fault.Link) ⊎ (why ≡ fault.Silent)) }
{
    if rose(1, faults, wires.faults()) {
        return Err(Fault::Link);
    }
    if is_long(idles, wires.idles()) {
        return Err(Fault::Silent);
    }
    Ok(())
}
