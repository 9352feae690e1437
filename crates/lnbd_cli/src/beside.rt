//! serve with a file, or beside a program: what is told of how that ends. Made contents alone are served in `serving`.

ghost use Rattle.std.specs.Prelude.{◌≡◌, [], Err, OnOk, true};
ghost use Rattle.lnbd_link.specs.Count.{Rises, patience};
ghost use Rattle.lnbd_child.specs.Loading.{IsFew, IsOfNumber};
ghost use Rattle.lnbd_cli.specs.Beside.{FileServed, ProgramRan, TellsChild, TellsRunFault, is_all_done, is_beside_status};
ghost use Rattle.lnbd_cli.specs.Ends.{status_of};
ghost use Rattle.lnbd_cli.specs.Runs.{RunsBeside};
ghost use Rattle.lnbd_cli.specs.declared.ending.Fault.TheVariants as fault;

use crate::counts::look;
use crate::ending::{End, Fault, Ruling};
use crate::serving::told_of_serving;
use lnbd_child::{RunFault, serve_child};
use lnbd_link::{Sink, Wires};
use lnbd_spawn::{Spawner, Waited};
use lnbd_store::{Serving, Store};
use std::alloc::Global;

/// What is told of how a child ended.
fn told_of_child(ended: Waited) -> Fault
    ensures told { TellsChild ended result }
    ensures known { is_beside_status (status_of (Err result)) ≡ true }
{
    match ended {
        Waited::Status(status) => Fault::Child(status),
        Waited::Signal => Fault::Signal,
        Waited::Failed => Fault::Spawn,
    }
}

/// What is told of a fault.
fn told(fault: RunFault) -> Fault
    ensures told { TellsRunFault fault result }
    ensures known { is_beside_status (status_of (Err result)) ≡ true }
{
    match fault {
        RunFault::Serve(fault) => told_of_serving(fault),
        RunFault::Store { .. } => Fault::Store,
        RunFault::Spawn { .. } => Fault::Spawn,
        RunFault::Child(ended) => told_of_child(ended),
        RunFault::TooLong { length } => Fault::Rule(Ruling::FileSize(length)),
        RunFault::Changed { length, end } => Fault::Rule(Ruling::Changed { length, end }),
    }
}

/// Serves a file, or beside a program.
pub(crate) fn serve_beside<W: Wires, O: Sink, S: Store, P: Spawner>(
    alloc: Global,
    asked: &Serving,
    wires: &mut W,
    out: &mut O,
    store: &mut S,
    spawn: &mut P,
) -> End
    requires { IsFew asked.now.content }
    ensures ends { RunsBeside asked.now W.told wires.old wires.new O.taken out.old out.new S.told store.old store.new P.told spawn.old spawn.new result }
    ensures file { is_all_done (status_of result) ≡ true → FileServed asked.now (W.told wires.old) (W.told wires.new) (S.shelf store.old) (S.shelf store.new) (status_of result) }
    ensures child { is_all_done (status_of result) ≡ true → ProgramRan asked.now (P.told spawn.old) (P.told spawn.new) (status_of result) }
    ensures known { is_beside_status (status_of result) ≡ true }
    ensures store { IsOfNumber asked.now.content → store.new ≡ store.old }
    ensures spawner { asked.now.run ≡ [] → spawn.new ≡ spawn.old }
    ensures link { result ≡ Err fault.Link → Rises 1 (W.faults wires.old) (W.faults wires.new) }
    ensures silent { result ≡ Err fault.Silent → Rises patience (W.idles wires.old) (W.idles wires.new) }
    ensures output { result ≡ Err fault.Output → Rises 1 (O.faults out.old) (O.faults out.new) }
    ensures storing { result ≡ Err fault.Store → Rises 1 (S.faults store.old) (S.faults store.new) }
    ensures spawning { result ≡ Err fault.Spawn → Rises 1 (P.faults spawn.old) (P.faults spawn.new) }
    ensures well { OnOk result (¬ Rises 1 (W.faults wires.old) (W.faults wires.new)) }
    ensures patient { OnOk result (¬ Rises patience (W.idles wires.old) (W.idles wires.new)) }
    ensures output_well { OnOk result (O.faults out.new ≡ O.faults out.old) }
{
    let faults = wires.faults();
    let idles = wires.idles();
    match serve_child(alloc, asked, wires, out, store, spawn) {
        Ok(_) => match look(faults, idles, wires) {
            Ok(()) => Ok(true),
            Err(fault) => Err(fault),
        },
        Err(fault) => Err(told(fault)),
    }
}
