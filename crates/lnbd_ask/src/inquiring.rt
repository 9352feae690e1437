//! A conversation in opt mode: which exports there are, and what each of them is. How the link was had, and what is told of the
//! end, is no matter here.

ghost use Rattle.std.specs.Prelude.{◌≡◌, ◌≤◌, length, Err};
ghost use Rattle.lnbd_link.specs.Contents.{Keeps};
ghost use Rattle.lnbd_link.specs.Count.{Rises, patience};
ghost use Rattle.lnbd_poll.specs.Seen.{Goes, Seen};
ghost use Rattle.lnbd_ask.specs.Lists.{AnswersInfo, AnswersList, AsksEach, AsksFor, AsksInfo, AsksList, EndsWith, GivesUp, Inquires, NegotiatesList, Surveys};
ghost use Rattle.lnbd_ask.specs.Parts.{Done};
ghost use Rattle.lnbd_waits.specs.Waits.{Holds};

use crate::acts::{abort, ask_info, ask_list, name_export, tell_entry, tell_listing};
use crate::entries::Entries;
use lnbd_callbacks::Caller;
use lnbd_info::Entry;
use lnbd_link::Wires;
use lnbd_model::{Listed, Listing};
use lnbd_poll::Handles;
use lnbd_waits::{Awaited, Halt, settle};
use std::alloc::Global;

/// Waits for the answer to LIST, and takes the exports that it told.
fn hear_list<K: Caller, W: Wires>(
    alloc: Global,
    handles: &mut Handles<K>,
    wires: &mut W,
    world: &mut K::World,
    start: u64,
) -> Result<Listing, Halt>
    requires reached { (seen : Seen K) × Holds handles.old seen }
    requires started { start ≤ W.idles wires.old }
    ensures hears { Goes (W.told wires.old) (W.told wires.new) (Holds handles.old) (Holds handles.new) (λ before calls after. Done (AnswersList K.steps) (W.faults wires.old) (W.faults wires.new) result before world.old calls after world.new) }
    ensures silent { result ≡ Err Halt.Silent → Rises patience start (W.idles wires.new) }
    ensures contents { Keeps (W.contents wires.old) (W.contents wires.new) }
    ensures faults { W.faults wires.old ≤ W.faults wires.new }
    ensures idles { W.idles wires.old ≤ W.idles wires.new }
{
    if let Err(halt) = settle(handles, wires, world, Awaited::Answers, start) {
        return Err(halt);
    }
    tell_listing(alloc, handles)
}

/// Asks for the server's exports.
fn request_list<K: Caller, W: Wires>(
    alloc: Global,
    handles: &mut Handles<K>,
    wires: &mut W,
    world: &mut K::World,
    start: u64,
) -> Result<Listing, Halt>
    requires reached { (seen : Seen K) × Holds handles.old seen }
    requires started { start ≤ W.idles wires.old }
    ensures asks { Goes (W.told wires.old) (W.told wires.new) (Holds handles.old) (Holds handles.new) (λ before calls after. Done (AsksList K.steps) (W.faults wires.old) (W.faults wires.new) result before world.old calls after world.new) }
    ensures silent { result ≡ Err Halt.Silent → Rises patience start (W.idles wires.new) }
    ensures contents { Keeps (W.contents wires.old) (W.contents wires.new) }
    ensures faults { W.faults wires.old ≤ W.faults wires.new }
    ensures idles { W.idles wires.old ≤ W.idles wires.new }
{
    if let Err(halt) = ask_list(handles) {
        return Err(halt);
    }
    hear_list(alloc, handles, wires, world, start)
}

/// Waits until negotiation comes to a stand, and asks for the server's exports.
fn negotiate<K: Caller, W: Wires>(
    alloc: Global,
    handles: &mut Handles<K>,
    wires: &mut W,
    world: &mut K::World,
    start: u64,
) -> Result<Listing, Halt>
    requires reached { (seen : Seen K) × Holds handles.old seen }
    requires started { start ≤ W.idles wires.old }
    ensures negotiates { Goes (W.told wires.old) (W.told wires.new) (Holds handles.old) (Holds handles.new) (λ before calls after. Done (NegotiatesList K.steps) (W.faults wires.old) (W.faults wires.new) result before world.old calls after world.new) }
    ensures silent { result ≡ Err Halt.Silent → Rises patience start (W.idles wires.new) }
    ensures contents { Keeps (W.contents wires.old) (W.contents wires.new) }
    ensures faults { W.faults wires.old ≤ W.faults wires.new }
    ensures idles { W.idles wires.old ≤ W.idles wires.new }
{
    if let Err(halt) = settle(handles, wires, world, Awaited::Answers, start) {
        return Err(halt);
    }
    request_list(alloc, handles, wires, world, start)
}

/// Waits for the answer to INFO, and makes the entry of this export of it.
fn hear_info<K: Caller, W: Wires>(
    alloc: Global,
    handles: &mut Handles<K>,
    wires: &mut W,
    world: &mut K::World,
    export: &Listed,
    start: u64,
) -> Result<Entry, Halt>
    requires reached { (seen : Seen K) × Holds handles.old seen }
    requires started { start ≤ W.idles wires.old }
    ensures hears { Goes (W.told wires.old) (W.told wires.new) (Holds handles.old) (Holds handles.new) (λ before calls after. Done (AnswersInfo K.steps export.now) (W.faults wires.old) (W.faults wires.new) result before world.old calls after world.new) }
    ensures silent { result ≡ Err Halt.Silent → Rises patience start (W.idles wires.new) }
    ensures contents { Keeps (W.contents wires.old) (W.contents wires.new) }
    ensures faults { W.faults wires.old ≤ W.faults wires.new }
    ensures idles { W.idles wires.old ≤ W.idles wires.new }
{
    if let Err(halt) = settle(handles, wires, world, Awaited::Answers, start) {
        return Err(halt);
    }
    tell_entry(alloc, handles, export)
}

/// Asks for the export whose name is set.
fn request_info<K: Caller, W: Wires>(
    alloc: Global,
    handles: &mut Handles<K>,
    wires: &mut W,
    world: &mut K::World,
    export: &Listed,
    start: u64,
) -> Result<Entry, Halt>
    requires reached { (seen : Seen K) × Holds handles.old seen }
    requires started { start ≤ W.idles wires.old }
    ensures asks { Goes (W.told wires.old) (W.told wires.new) (Holds handles.old) (Holds handles.new) (λ before calls after. Done (AsksInfo K.steps export.now) (W.faults wires.old) (W.faults wires.new) result before world.old calls after world.new) }
    ensures silent { result ≡ Err Halt.Silent → Rises patience start (W.idles wires.new) }
    ensures contents { Keeps (W.contents wires.old) (W.contents wires.new) }
    ensures faults { W.faults wires.old ≤ W.faults wires.new }
    ensures idles { W.idles wires.old ≤ W.idles wires.new }
{
    if let Err(halt) = ask_info(handles) {
        return Err(halt);
    }
    hear_info(alloc, handles, wires, world, export, start)
}

/// Asks for an export by its listed name.
fn ask_for<K: Caller, W: Wires>(
    alloc: Global,
    handles: &mut Handles<K>,
    wires: &mut W,
    world: &mut K::World,
    export: &Listed,
    start: u64,
) -> Result<Entry, Halt>
    requires reached { (seen : Seen K) × Holds handles.old seen }
    requires started { start ≤ W.idles wires.old }
    ensures asks { Goes (W.told wires.old) (W.told wires.new) (Holds handles.old) (Holds handles.new) (λ before calls after. Done (AsksFor K.steps export.now) (W.faults wires.old) (W.faults wires.new) result before world.old calls after world.new) }
    ensures silent { result ≡ Err Halt.Silent → Rises patience start (W.idles wires.new) }
    ensures contents { Keeps (W.contents wires.old) (W.contents wires.new) }
    ensures faults { W.faults wires.old ≤ W.faults wires.new }
    ensures idles { W.idles wires.old ≤ W.idles wires.new }
{
    if let Err(halt) = name_export(alloc, handles, export) {
        return Err(halt);
    }
    request_info(alloc, handles, wires, world, export, start)
}

/// Asks for each of these exports in order.
fn ask_each<K: Caller, W: Wires>(
    alloc: Global,
    handles: &mut Handles<K>,
    wires: &mut W,
    world: &mut K::World,
    exports: &[Listed],
    start: u64,
) -> Result<Entries, Halt>
    requires reached { (seen : Seen K) × Holds handles.old seen }
    requires started { start ≤ W.idles wires.old }
    ensures asks { Goes (W.told wires.old) (W.told wires.new) (Holds handles.old) (Holds handles.new) (λ before calls after. Done (AsksEach K.steps exports.now) (W.faults wires.old) (W.faults wires.new) result before world.old calls after world.new) }
    ensures silent { result ≡ Err Halt.Silent → Rises patience start (W.idles wires.new) }
    ensures contents { Keeps (W.contents wires.old) (W.contents wires.new) }
    ensures faults { W.faults wires.old ≤ W.faults wires.new }
    ensures idles { W.idles wires.old ≤ W.idles wires.new }
{
    let mut entries = Entries::new(alloc);
    'exports: for export in exports {
        let entry = match ask_for(alloc, handles, wires, world, export, start) {
            Ok(entry) => entry,
            Err(halt) => return Err(halt),
        };
        match entries.push(entry) {
            Ok(()) => continue,
            Err(_) => return Err(Halt::NoMemory),
        }
    }
    Ok(entries)
}

/// Gives negotiation up and waits for the end.
fn give_up<K: Caller, W: Wires>(
    handles: &mut Handles<K>,
    wires: &mut W,
    world: &mut K::World,
    start: u64,
) -> Result<(), Halt>
    requires reached { (seen : Seen K) × Holds handles.old seen }
    requires started { start ≤ W.idles wires.old }
    ensures gives_up { Goes (W.told wires.old) (W.told wires.new) (Holds handles.old) (Holds handles.new) (λ before calls after. Done (GivesUp K.steps) (W.faults wires.old) (W.faults wires.new) result before world.old calls after world.new) }
    ensures silent { result ≡ Err Halt.Silent → Rises patience start (W.idles wires.new) }
    ensures contents { Keeps (W.contents wires.old) (W.contents wires.new) }
    ensures faults { W.faults wires.old ≤ W.faults wires.new }
    ensures idles { W.idles wires.old ≤ W.idles wires.new }
{
    abort(handles);
    settle(handles, wires, world, Awaited::End, start)
}

/// Gives negotiation up, where these entries were told.
fn end_with<K: Caller, W: Wires>(
    handles: &mut Handles<K>,
    wires: &mut W,
    world: &mut K::World,
    entries: Entries,
    start: u64,
) -> Result<Entries, Halt>
    requires reached { (seen : Seen K) × Holds handles.old seen }
    requires started { start ≤ W.idles wires.old }
    ensures ends { Goes (W.told wires.old) (W.told wires.new) (Holds handles.old) (Holds handles.new) (λ before calls after. Done (EndsWith K.steps entries) (W.faults wires.old) (W.faults wires.new) result before world.old calls after world.new) }
    ensures silent { result ≡ Err Halt.Silent → Rises patience start (W.idles wires.new) }
    ensures contents { Keeps (W.contents wires.old) (W.contents wires.new) }
    ensures faults { W.faults wires.old ≤ W.faults wires.new }
    ensures idles { W.idles wires.old ≤ W.idles wires.new }
{
    match give_up(handles, wires, world, start) {
        Ok(()) => Ok(entries),
        Err(halt) => Err(halt),
    }
}

/// Asks for each of these exports, and then gives negotiation up.
fn survey<K: Caller, W: Wires>(
    alloc: Global,
    handles: &mut Handles<K>,
    wires: &mut W,
    world: &mut K::World,
    exports: &[Listed],
    start: u64,
) -> Result<Entries, Halt>
    requires reached { (seen : Seen K) × Holds handles.old seen }
    requires started { start ≤ W.idles wires.old }
    ensures surveys { Goes (W.told wires.old) (W.told wires.new) (Holds handles.old) (Holds handles.new) (λ before calls after. Done (Surveys K.steps exports.now) (W.faults wires.old) (W.faults wires.new) result before world.old calls after world.new) }
    ensures silent { result ≡ Err Halt.Silent → Rises patience start (W.idles wires.new) }
    ensures contents { Keeps (W.contents wires.old) (W.contents wires.new) }
    ensures faults { W.faults wires.old ≤ W.faults wires.new }
    ensures idles { W.idles wires.old ≤ W.idles wires.new }
{
    match ask_each(alloc, handles, wires, world, exports, start) {
        Ok(entries) => end_with(handles, wires, world, entries, start),
        Err(halt) => Err(halt),
    }
}

/// Asks for the server's exports and for each of them, and then gives negotiation up.
pub(crate) fn inquire<K: Caller, W: Wires>(
    alloc: Global,
    handles: &mut Handles<K>,
    wires: &mut W,
    world: &mut K::World,
    start: u64,
) -> Result<Entries, Halt>
    requires reached { (seen : Seen K) × Holds handles.old seen }
    requires started { start ≤ W.idles wires.old }
    ensures inquires { Goes (W.told wires.old) (W.told wires.new) (Holds handles.old) (Holds handles.new) (λ before calls after. Done (Inquires K.steps) (W.faults wires.old) (W.faults wires.new) result before world.old calls after world.new) }
    ensures silent { result ≡ Err Halt.Silent → Rises patience start (W.idles wires.new) }
    ensures contents { Keeps (W.contents wires.old) (W.contents wires.new) }
    ensures faults { W.faults wires.old ≤ W.faults wires.new }
    ensures idles { W.idles wires.old ≤ W.idles wires.new }
{
    match negotiate(alloc, handles, wires, world, start) {
        Ok(exports) => survey(alloc, handles, wires, world, exports.as_slice(), start),
        Err(halt) => Err(halt),
    }
}
