//! Serving with a listener of its own, and with what is printed of it.

ghost use Rattle.std.specs.Prelude.{◌≡◌, ◌≢◌, ◌≤◌, ◌++◌, ℕ, Err, Result, IfOk, IsOk, OnOk, true, false};
ghost use Rattle.lnbd_export.specs.Export.{size};
ghost use Rattle.lnbd_link.specs.Count.{Rises, patience};
ghost use Rattle.lnbd_link.specs.Part.{Takes, TakesFront};
ghost use Rattle.lnbd_serve.specs.Printed.{Prints, Ran, Runs, Tells, concluded, is_served, serving_line, sessions_line};
ghost use Rattle.lnbd_serve.specs.declared.printed.Unprinted.{Unprinted as Untold};

use crate::fault::ServeFault;
use crate::printed::{Unprinted, print_serving, print_sessions};
use crate::serving::serve_on;
use lnbd_export::Export;
use lnbd_link::{Sink, Wires};
use lnbd_model::{Place, Text};
use std::alloc::Global;

/// Whether all clients were served to their end, whatever they sent.
fn is_served(served: Result<u32, ServeFault>) -> bool
    ensures { result ≡ is_served served }
{
    match served {
        Ok(_) => true,
        Err(ServeFault::Client) => true,
        Err(ServeFault::NoMemory) => false,
        Err(ServeFault::Link { .. }) => false,
        Err(ServeFault::Output) => false,
        Err(ServeFault::Silent { .. }) => false,
    }
}

/// The answer, by how the last line was printed.
fn concluded(
    told: Result<(), Unprinted>,
    served: Result<u32, ServeFault>,
) -> Result<u32, ServeFault>
    ensures value { result ≡ concluded told served }
    ensures told { OnOk result (IsOk told) }
{
    match told {
        Ok(()) => served,
        Err(why) => Err(why.fault()),
    }
}

/// Prints the last line, where all clients were served.
fn conclude<O: Sink>(
    alloc: Global,
    served: Result<u32, ServeFault>,
    sessions: u32,
    out: &mut O,
) -> Result<u32, ServeFault>
    ensures cut { is_served served ≡ false → (result ≡ served) × (out.new ≡ out.old) }
    ensures whole { is_served served ≡ true → (told : Result (Unit {0}) Untold) × (result ≡ concluded told served) × Prints told (O.taken out.old) (O.taken out.new) (sessions_line sessions) }
    ensures well { OnOk result (O.faults out.new ≡ O.faults out.old) }
    ensures output { served ≢ Err ServeFault.Output → result ≡ Err ServeFault.Output → Rises 1 (O.faults out.old) (O.faults out.new) }
    ensures later { O.faults out.old ≤ O.faults out.new }
{
    if !is_served(served) {
        return served;
    }
    let told = print_sessions(alloc, sessions, out);
    concluded(told, served)
}

/// Prints the first line, serves, and prints the last line.
fn serve_there<W: Wires, O: Sink>(
    alloc: Global,
    listener: u32,
    name: &Text,
    export: &mut Export,
    sessions: u32,
    wires: &mut W,
    out: &mut O,
) -> Result<u32, ServeFault>
    requires { name.now ≡ export.old.name }
    ensures tells { Ran (W.told wires.old) (W.told wires.new) (O.taken out.old) (O.taken out.new) (λ calls printed. Tells listener sessions result export.old calls printed export.new) }
    ensures link { (before after : ℕ) → result ≡ Err (ServeFault.Link before after) → (before ≡ W.faults wires.old) × (after ≡ W.faults wires.new) × Rises 1 before after }
    ensures silent { (idles : ℕ) → result ≡ Err (ServeFault.Silent idles) → (idles ≡ W.idles wires.new) × Rises patience (W.idles wires.old) idles }
    ensures well { OnOk result (O.faults out.new ≡ O.faults out.old) }
    ensures output { result ≡ Err ServeFault.Output → Rises 1 (O.faults out.old) (O.faults out.new) }
    ensures faults { W.faults wires.old ≤ W.faults wires.new }
    ensures idles { W.idles wires.old ≤ W.idles wires.new }
    ensures printing { O.faults out.old ≤ O.faults out.new }
{
    match print_serving(alloc, export.size(), out) {
        Ok(()) => {
            let served = serve_on(alloc, listener, name, export, sessions, wires);
            conclude(alloc, served, sessions, out)
        }
        Err(why) => Err(why.fault()),
    }
}

/// Listens at a place, prints `serving SIZE`, serves an export to so many clients, and prints `sessions N` once all have
/// left: answers how many they were. Its listener is shut whatever comes.
///
/// `Client`: the bytes of one were no client's; all others were served, and the last line was printed. `Output`: a line
/// was not printed whole. `NoMemory`, `Link` and `Silent` cut serving off as they do for [`serve_on`], or nothing was
/// served: there was no listener, or no memory for a line.
pub fn serve<W: Wires, O: Sink>(
    alloc: Global,
    place: &Place,
    export: &mut Export,
    sessions: u32,
    wires: &mut W,
    out: &mut O,
) -> Result<u32, ServeFault>
    requires { place.now.name ≡ export.old.name }

    // What is listened at, what is printed when, and the clients served between.
    ensures runs { Ran (W.told wires.old) (W.told wires.new) (O.taken out.old) (O.taken out.new) (λ calls printed. Runs place.now.to sessions result export.old calls printed export.new) }
    ensures all { IfOk result (λ n. n ≡ sessions) }

    // What is printed: both lines where all clients were served, and else a front of them.
    ensures lines { is_served result ≡ true → Takes (O.taken out.old) (O.taken out.new) (serving_line (size export.old) ++ sessions_line sessions) }
    ensures front { TakesFront (O.taken out.old) (O.taken out.new) (serving_line (size export.old) ++ sessions_line sessions) }

    // The counts, and what a fault comes from.
    ensures link { (before after : ℕ) → result ≡ Err (ServeFault.Link before after) → (W.faults wires.old ≤ before) × (after ≤ W.faults wires.new) × Rises 1 before after }
    ensures silent { (idles : ℕ) → result ≡ Err (ServeFault.Silent idles) → (idles ≤ W.idles wires.new) × Rises patience (W.idles wires.old) idles }
    ensures well { OnOk result (O.faults out.new ≡ O.faults out.old) }
    ensures output { result ≡ Err ServeFault.Output → Rises 1 (O.faults out.old) (O.faults out.new) }
    ensures faults { W.faults wires.old ≤ W.faults wires.new }
    ensures idles { W.idles wires.old ≤ W.idles wires.new }
    ensures printing { O.faults out.old ≤ O.faults out.new }
{
    let before = wires.faults();
    match wires.listen(&place.to) {
        Ok(listener) => {
            let served = serve_there(alloc, listener, &place.name, export, sessions, wires, out);
            wires.shut(listener);
            served
        }
        Err(_) => Err(ServeFault::Link {
            before,
            after: wires.faults(),
        }),
    }
}
