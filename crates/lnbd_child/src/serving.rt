//! Serving a file, or made contents, to clients and to a child program, from the file's reading to the answer.

ghost use Rattle.std.specs.Prelude.{◌≡◌, ◌≤◌, [], ℕ, Err, IfErr, IfOk, OnOk, None, Some, true};
ghost use Rattle.lnbd_link.specs.Count.{Rises};
ghost use Rattle.lnbd_serve.specs.Printed.{is_served};
ghost use Rattle.lnbd_serve.specs.Steps.{Went};
ghost use Rattle.lnbd_store.specs.Shelf.{Shelf};
ghost use Rattle.lnbd_child.specs.Causes.{Because, Cuts, Never, Rose, IsLong};
ghost use Rattle.lnbd_child.specs.Hosting.{Attends, Hosts, Serves, Worked, running_of};
ghost use Rattle.lnbd_child.specs.Loading.{IsFew, IsOfNumber};
ghost use Rattle.lnbd_child.specs.Serving.{Did, Goes, RunsChild, ServesFile, is_done};

use crate::child::{Attended, Running, start, wait};
use crate::closing::close;
use crate::fault::RunFault;
use crate::loading::load;
use lnbd_export::Export;
use lnbd_link::{Sink, Wires};
use lnbd_serve::{ServeFault, print_serving, serve_on};
use lnbd_spawn::Spawner;
use lnbd_store::{Serving, Store};
use std::alloc::Global;

/// Serving goes on where all clients were served to their end, whatever they sent.
fn running_of(served: Result<u32, ServeFault>, child: Option<u32>) -> Result<Running, RunFault>
    ensures { result ≡ running_of served child }
{
    match served {
        Ok(_) => Ok(Running { served, child }),
        Err(ServeFault::Client) => Ok(Running { served, child }),
        Err(ServeFault::NoMemory) => Err(RunFault::Serve(ServeFault::NoMemory)),
        Err(ServeFault::Link { before, after }) => {
            Err(RunFault::Serve(ServeFault::Link { before, after }))
        }
        Err(ServeFault::Output) => Err(RunFault::Serve(ServeFault::Output)),
        Err(ServeFault::Silent { idles }) => Err(RunFault::Serve(ServeFault::Silent { idles })),
    }
}

/// Serves the clients, while the child of this number runs beside.
fn serve_beside<W: Wires>(
    alloc: Global,
    listener: u32,
    asked: &Serving,
    child: Option<u32>,
    export: &mut Export,
    wires: &mut W,
) -> Result<Running, RunFault>
    requires { asked.now.place.name ≡ export.old.name }
    ensures serves { Went (W.told wires.old) (W.told wires.new) (Serves listener asked.now.sessions child export.old export.new result) }
    ensures child { IfOk result (λ running. running.child ≡ child) }
    ensures served { IfOk result (λ running. is_served running.served ≡ true) }
    ensures cause { IfErr result (Because ⊥ ⊥ (Cuts W.faults W.idles wires.old wires.new ⊥) Never Never) }
    ensures faults { W.faults wires.old ≤ W.faults wires.new }
    ensures idles { W.idles wires.old ≤ W.idles wires.new }
{
    let name = &asked.place.name;
    let served = serve_on(alloc, listener, name, export, asked.sessions, wires);
    running_of(served, child)
}

/// Prints the first line, starts the child where one is asked for, and serves the clients.
fn host<W: Wires, O: Sink, P: Spawner>(
    alloc: Global,
    listener: u32,
    asked: &Serving,
    export: &mut Export,
    wires: &mut W,
    out: &mut O,
    spawn: &mut P,
) -> Result<Running, RunFault>
    requires { asked.now.place.name ≡ export.old.name }
    ensures hosts { Worked (W.told wires.old) (W.told wires.new) (O.taken out.old) (O.taken out.new) (P.told spawn.old) (P.told spawn.new) (Hosts asked.now listener export.old export.new result) }
    ensures served { IfOk result (λ running. is_served running.served ≡ true) }
    ensures alone { asked.now.run ≡ [] → spawn.new ≡ spawn.old }
    ensures nobody { asked.now.run ≡ [] → IfOk result (λ running. running.child ≡ None) }
    ensures cause { IfErr result (Because ⊥ ⊥ (Cuts W.faults W.idles wires.old wires.new (Rises 1 (O.faults out.old) (O.faults out.new))) Never (Rose P.faults spawn.old spawn.new)) }
    ensures faults { W.faults wires.old ≤ W.faults wires.new }
    ensures idles { W.idles wires.old ≤ W.idles wires.new }
    ensures printing { O.faults out.old ≤ O.faults out.new }
    ensures well { OnOk result (O.faults out.new ≡ O.faults out.old) }
    ensures starting { P.faults spawn.old ≤ P.faults spawn.new }
{
    match print_serving(alloc, export.size(), out) {
        Ok(()) => {}
        Err(why) => return Err(RunFault::Serve(why.fault())),
    }
    match start(alloc, &asked.run, &asked.uri, spawn) {
        Ok(child) => serve_beside(alloc, listener, asked, child, export, wires),
        Err(why) => Err(why),
    }
}

/// Listens, and attends to the clients and the child. The listener is shut before the child is waited for, so that one that
/// connects once more is refused and does not wait for ever.
fn attend<W: Wires, O: Sink, P: Spawner>(
    alloc: Global,
    asked: &Serving,
    export: &mut Export,
    wires: &mut W,
    out: &mut O,
    spawn: &mut P,
) -> Result<Attended, RunFault>
    requires { asked.now.place.name ≡ export.old.name }
    ensures attends { Worked (W.told wires.old) (W.told wires.new) (O.taken out.old) (O.taken out.new) (P.told spawn.old) (P.told spawn.new) (Attends asked.now export.old export.new result) }
    ensures served { IfOk result (λ attended. is_served attended.served ≡ true) }
    ensures alone { asked.now.run ≡ [] → spawn.new ≡ spawn.old }
    ensures cause { IfErr result (Because ⊥ ⊥ (Cuts W.faults W.idles wires.old wires.new (Rises 1 (O.faults out.old) (O.faults out.new))) Never (Rose P.faults spawn.old spawn.new)) }
    ensures faults { W.faults wires.old ≤ W.faults wires.new }
    ensures idles { W.idles wires.old ≤ W.idles wires.new }
    ensures printing { O.faults out.old ≤ O.faults out.new }
    ensures well { OnOk result (O.faults out.new ≡ O.faults out.old) }
    ensures starting { P.faults spawn.old ≤ P.faults spawn.new }
{
    let before = wires.faults();
    let listener = match wires.listen(&asked.place.to) {
        Ok(listener) => listener,
        Err(_) => {
            return Err(RunFault::Serve(ServeFault::Link {
                before,
                after: wires.faults(),
            }));
        }
    };
    let hosted = host(alloc, listener, asked, export, wires, out, spawn);
    wires.shut(listener);
    match hosted {
        Ok(running) => wait(running, spawn),
        Err(why) => Err(why),
    }
}

/// Serves a file, or made contents, to so many clients and to a child program, in seven steps: a file is read whole; its listener is opened and
/// `serving SIZE` printed; the child is started with its words and the address; the clients are served, and the listener is shut; the child is
/// waited for; a file that isn't read-only is written back whole; and `sessions N` is printed. Answers how many clients they were.
///
/// What comes behind a fault is left out, and a child is then neither waited for nor ended. But `Serve(Client)` and `Child` are answered once all
/// steps were done. `Serve(NoMemory)`: memory ran out, in whichever step.
pub fn serve_child<W: Wires, O: Sink, S: Store, P: Spawner>(
    alloc: Global,
    asked: &Serving,
    wires: &mut W,
    out: &mut O,
    store: &mut S,
    spawn: &mut P,
) -> Result<u32, RunFault>
    requires { IsFew asked.now.content }

    // What becomes of the file, and what of the child, where all steps were done; and which steps were, in which order, whatever comes.
    ensures file { is_done result ≡ true → ServesFile asked.now (W.told wires.old) (W.told wires.new) (S.shelf store.old) (S.shelf store.new) result }
    ensures child { is_done result ≡ true → RunsChild asked.now.run asked.now.uri (P.told spawn.old) (P.told spawn.new) result }
    ensures goes { Did (W.told wires.old) (W.told wires.new) (O.taken out.old) (O.taken out.new) (S.told store.old) (S.told store.new) (P.told spawn.old) (P.told spawn.new) (Goes asked.now result) }

    // Where no program is asked for the spawner is as it was, and where no file is, the store.
    ensures alone { asked.now.run ≡ [] → spawn.new ≡ spawn.old }
    ensures untouched { IsOfNumber asked.now.content → store.new ≡ store.old }

    // The counts, and what a fault comes from.
    ensures link { (before after : ℕ) → result ≡ Err (RunFault.Serve (ServeFault.Link before after)) → Rose W.faults wires.old wires.new before after }
    ensures silent { (count : ℕ) → result ≡ Err (RunFault.Serve (ServeFault.Silent count)) → IsLong W.idles wires.old wires.new count }
    ensures output { result ≡ Err (RunFault.Serve ServeFault.Output) → Rises 1 (O.faults out.old) (O.faults out.new) }
    ensures store { (before after : ℕ) → result ≡ Err (RunFault.Store before after) → Rose S.faults store.old store.new before after }
    ensures spawn { (before after : ℕ) → result ≡ Err (RunFault.Spawn before after) → Rose P.faults spawn.old spawn.new before after }
    ensures changed { (n end : ℕ) → result ≡ Err (RunFault.Changed n end) → (now : Shelf) → S.shelf store.new ≡ Some now → ⊥ }
    ensures faults { W.faults wires.old ≤ W.faults wires.new }
    ensures idles { W.idles wires.old ≤ W.idles wires.new }
    ensures printing { O.faults out.old ≤ O.faults out.new }
    ensures well { OnOk result (O.faults out.new ≡ O.faults out.old) }
    ensures storing { S.faults store.old ≤ S.faults store.new }
    ensures starting { P.faults spawn.old ≤ P.faults spawn.new }
{
    let mut export = match load(alloc, asked, store) {
        Ok(export) => export,
        Err(why) => return Err(why),
    };
    match attend(alloc, asked, &mut export, wires, out, spawn) {
        Ok(attended) => close(alloc, asked, attended, export.bytes(), store, out),
        Err(why) => Err(why),
    }
}
