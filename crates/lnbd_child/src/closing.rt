//! What is done once all have left: the file is written back, and the last line printed.

ghost use Rattle.std.specs.Prelude.{◌≡◌, ◌≤◌, Err, IfErr, IsOk, OnErr, OnOk, true};
ghost use Rattle.lnbd_link.specs.Count.{Rises};
ghost use Rattle.lnbd_serve.specs.Printed.{is_served};
ghost use Rattle.lnbd_child.specs.Causes.{Because, Ends, Never, Rose};
ghost use Rattle.lnbd_child.specs.Child.{answer_of};
ghost use Rattle.lnbd_child.specs.Closing.{Closed, Closes, Leaves, WritesBack, WritesNotBack, answered};
ghost use Rattle.lnbd_child.specs.Grown.{Grew};
ghost use Rattle.lnbd_child.specs.Loading.{IsOfNumber};
ghost use Rattle.lnbd_child.specs.Serving.{is_done};

use crate::child::{Attended, answer_of};
use crate::fault::RunFault;
use crate::writing::write_whole;
use lnbd_link::Sink;
use lnbd_serve::{Unprinted, print_sessions};
use lnbd_store::{Content, Serving, Store, StoreFailed};
use std::alloc::Global;

/// Writes a file back that isn't read-only.
fn write_back<S: Store>(asked: &Serving, bytes: &[u8], store: &mut S) -> Result<(), StoreFailed>
    ensures back { OnOk result (Grew (S.told store.old) (S.told store.new) (WritesBack asked.now.content asked.now.read_only bytes.now)) }
    ensures leaves { OnOk result (Leaves asked.now.content asked.now.read_only bytes.now (S.shelf store.old) (S.shelf store.new)) }
    ensures unwritten { OnErr result (Grew (S.told store.old) (S.told store.new) (WritesNotBack asked.now.content asked.now.read_only bytes.now)) }
    ensures untouched { IsOfNumber asked.now.content → store.new ≡ store.old }
    ensures failed { OnErr result (Rises 1 (S.faults store.old) (S.faults store.new)) }
    ensures later { S.faults store.old ≤ S.faults store.new }
{
    match &asked.content {
        Content::Made { .. } => Ok(()),
        Content::File(path) => {
            if asked.read_only {
                return Ok(());
            }
            write_whole(path, bytes, store)
        }
    }
}

/// The answer, by how the last line was printed.
fn answered(told: Result<(), Unprinted>, attended: Attended) -> Result<u32, RunFault>
    ensures value { result ≡ answered told attended }
    ensures told { OnOk result (IsOk told) }
{
    match told {
        Ok(()) => answer_of(attended),
        Err(why) => Err(RunFault::Serve(why.fault())),
    }
}

/// Writes a file back and prints the last line: the answer.
pub(crate) fn close<S: Store, O: Sink>(
    alloc: Global,
    asked: &Serving,
    attended: Attended,
    bytes: &[u8],
    store: &mut S,
    out: &mut O,
) -> Result<u32, RunFault>
    requires { is_served attended.served ≡ true }
    ensures closes { Closed (S.told store.old) (S.told store.new) (O.taken out.old) (O.taken out.new) (Closes asked.now attended bytes.now result) }
    ensures leaves { is_done result ≡ true → Leaves asked.now.content asked.now.read_only bytes.now (S.shelf store.old) (S.shelf store.new) }
    ensures answer { is_done result ≡ true → result ≡ answer_of attended.served attended.ended }
    ensures untouched { IsOfNumber asked.now.content → store.new ≡ store.old }
    ensures cause { IfErr result (Because ⊥ (Unit {0}) (Ends (Rises 1 (O.faults out.old) (O.faults out.new))) (Rose S.faults store.old store.new) Never) }
    ensures later { S.faults store.old ≤ S.faults store.new }
    ensures printing { O.faults out.old ≤ O.faults out.new }
    ensures well { OnOk result (O.faults out.new ≡ O.faults out.old) }
{
    let before = store.faults();
    match write_back(asked, bytes, store) {
        Ok(()) => {
            let told = print_sessions(alloc, asked.sessions, out);
            answered(told, attended)
        }
        Err(_) => Err(RunFault::Store {
            before,
            after: store.faults(),
        }),
    }
}
