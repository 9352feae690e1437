//! serve: an export whose content a number gives, served to so many clients, and how such a run ends. With a file or a program it goes on in `beside`.

ghost use Rattle.std.specs.Prelude.{◌≡◌, ◌≤◌, ◌^◌, Err, IfOk, OnOk, true};
ghost use Rattle.lnbd_child.specs.Loading.{IsFew};
ghost use Rattle.lnbd_cli.specs.Hosts.{IsTask, ServeDid};
ghost use Rattle.lnbd_link.specs.Count.{Rises, patience};
ghost use Rattle.lnbd_export.specs.Generated.{IsGenerated};
ghost use Rattle.lnbd_cli.specs.Ends.{status_of};
ghost use Rattle.lnbd_cli.specs.Serves.{ServeEnds, TellsServeFault, is_serve_status};
ghost use Rattle.lnbd_cli.specs.declared.ending.Fault.TheVariants as fault;

use crate::beside::serve_beside;
use crate::counts::look;
use crate::ending::{End, Fault};
use lnbd_export::{Export, generate};
use lnbd_link::{Sink, Wires};
use lnbd_model::{NoMemory, Place};
use lnbd_serve::{ServeFault, serve};
use lnbd_spawn::Spawner;
use lnbd_store::{Content, Serving, Store};
use std::alloc::Global;

/// What is served, and to how many clients.
#[derive(Debug, Drop)]
pub(crate) struct Service {
    pub(crate) place: Place,
    /// Bytes.
    pub(crate) size: u64,
    /// The number that the content is made from.
    pub(crate) seed: u64,
    pub(crate) read_only: bool,
    pub(crate) sessions: u32,
}

/// What serve is asked for: made contents alone, or a file, or to serve beside a program.
#[derive(Debug, Drop)]
pub(crate) enum Task {
    Alone(Service),
    Beside(Serving),
}

/// Which of them it is.
fn task_of(asked: Serving) -> Task
    ensures { IsTask asked result }
{
    let Serving {
        place,
        content,
        read_only,
        sessions,
        uri,
        run,
    } = asked;
    if run.as_slice().is_empty() {
        if let Content::Made { seed, size } = &content {
            return Task::Alone(Service {
                place,
                size: *size,
                seed: *seed,
                read_only,
                sessions,
            });
        }
    }
    Task::Beside(Serving {
        place,
        content,
        read_only,
        sessions,
        uri,
        run,
    })
}

/// The export that is served.
fn export_of(alloc: Global, service: &Service) -> Result<Export, NoMemory>
    requires { service.now.size ≤ 2 ^ 30 }
    ensures { IfOk result (λ export. IsGenerated service.now.place.name service.now.seed service.now.size service.now.read_only export) }
{
    let name = service.place.name.try_clone(alloc)?;
    generate(alloc, name, service.seed, service.size, service.read_only)
}

/// What is told of a fault of serving.
pub(crate) fn told_of_serving(fault: ServeFault) -> Fault
    ensures told { TellsServeFault fault result }
    ensures known { is_serve_status (status_of (Err result)) ≡ true }
{
    match fault {
        ServeFault::Client => Fault::Client,
        ServeFault::Link { .. } => Fault::Link,
        ServeFault::Silent { .. } => Fault::Silent,
        ServeFault::Output => Fault::Output,
        ServeFault::NoMemory => Fault::NoMemory,
    }
}

/// Serves the export.
fn serve_export<W: Wires, O: Sink>(
    alloc: Global,
    service: &Service,
    mut export: Export,
    wires: &mut W,
    out: &mut O,
) -> End
    requires { IsGenerated service.now.place.name service.now.seed service.now.size service.now.read_only export }
    ensures ends { ServeEnds service.now (W.told wires.old) (W.told wires.new) (O.taken out.old) (O.taken out.new) (wires.new ≡ wires.old) (out.new ≡ out.old) result }
    ensures known { is_serve_status (status_of result) ≡ true }
    ensures link { result ≡ Err fault.Link → Rises 1 (W.faults wires.old) (W.faults wires.new) }
    ensures silent { result ≡ Err fault.Silent → Rises patience (W.idles wires.old) (W.idles wires.new) }
    ensures output { result ≡ Err fault.Output → Rises 1 (O.faults out.old) (O.faults out.new) }
    ensures well { OnOk result (¬ Rises 1 (W.faults wires.old) (W.faults wires.new)) }
    ensures patient { OnOk result (¬ Rises patience (W.idles wires.old) (W.idles wires.new)) }
    ensures output_well { OnOk result (O.faults out.new ≡ O.faults out.old) }
{
    let sessions = service.sessions;
    let faults = wires.faults();
    let idles = wires.idles();
    match serve(alloc, &service.place, &mut export, sessions, wires, out) {
        Ok(_) => match look(faults, idles, wires) {
            Ok(()) => Ok(true),
            Err(fault) => Err(fault),
        },
        Err(fault) => Err(told_of_serving(fault)),
    }
}

/// Makes the export and serves it.
pub(crate) fn host<W: Wires, O: Sink>(
    alloc: Global,
    service: &Service,
    wires: &mut W,
    out: &mut O,
) -> End
    requires { service.now.size ≤ 2 ^ 30 }
    ensures ends { ServeEnds service.now (W.told wires.old) (W.told wires.new) (O.taken out.old) (O.taken out.new) (wires.new ≡ wires.old) (out.new ≡ out.old) result }
    ensures known { is_serve_status (status_of result) ≡ true }
    ensures link { result ≡ Err fault.Link → Rises 1 (W.faults wires.old) (W.faults wires.new) }
    ensures silent { result ≡ Err fault.Silent → Rises patience (W.idles wires.old) (W.idles wires.new) }
    ensures output { result ≡ Err fault.Output → Rises 1 (O.faults out.old) (O.faults out.new) }
    ensures well { OnOk result (¬ Rises 1 (W.faults wires.old) (W.faults wires.new)) }
    ensures patient { OnOk result (¬ Rises patience (W.idles wires.old) (W.idles wires.new)) }
    ensures output_well { OnOk result (O.faults out.new ≡ O.faults out.old) }
{
    match export_of(alloc, service) {
        Ok(export) => serve_export(alloc, service, export, wires, out),
        Err(_) => Err(Fault::NoMemory),
    }
}

/// Serves what is asked for.
pub(crate) fn attend<W: Wires, O: Sink, S: Store, P: Spawner>(
    alloc: Global,
    asked: Serving,
    wires: &mut W,
    out: &mut O,
    store: &mut S,
    spawn: &mut P,
) -> End
    requires { IsFew asked.content }
    ensures did { ServeDid W.told wires.old wires.new O.taken out.old out.new S.told S.shelf store.old store.new P.told spawn.old spawn.new result asked }
    ensures link { result ≡ Err fault.Link → Rises 1 (W.faults wires.old) (W.faults wires.new) }
    ensures silent { result ≡ Err fault.Silent → Rises patience (W.idles wires.old) (W.idles wires.new) }
    ensures output { result ≡ Err fault.Output → Rises 1 (O.faults out.old) (O.faults out.new) }
    ensures storing { result ≡ Err fault.Store → Rises 1 (S.faults store.old) (S.faults store.new) }
    ensures spawning { result ≡ Err fault.Spawn → Rises 1 (P.faults spawn.old) (P.faults spawn.new) }
    ensures well { OnOk result (¬ Rises 1 (W.faults wires.old) (W.faults wires.new)) }
    ensures patient { OnOk result (¬ Rises patience (W.idles wires.old) (W.idles wires.new)) }
    ensures output_well { OnOk result (O.faults out.new ≡ O.faults out.old) }
{
    match task_of(asked) {
        Task::Alone(service) => host(alloc, &service, wires, out),
        Task::Beside(asked) => serve_beside(alloc, &asked, wires, out, store, spawn),
    }
}
