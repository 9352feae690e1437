//! Serving as a whole: rounds, and a pause after each in which nothing happened, until all clients were served.

ghost use Rattle.std.specs.Prelude.{◌≡◌, ◌≤◌, ◌<◌, ◌+◌, ◌-◌, ◌++◌, ℕ, All, Err, map, false, length, IfOk, IfErr, OnOk, OnErr};
ghost use Rattle.lnbd_export.specs.Export.{Export as Kept};
ghost use Rattle.lnbd_link.specs.Call.{Pause};
ghost use Rattle.lnbd_link.specs.Count.{Rises, patience};
ghost use Rattle.lnbd_link.specs.Part.{Adds};
ghost use Rattle.lnbd_serve.specs.Halls.{Rests, ServesUntil, want_of, wants_of};
ghost use Rattle.lnbd_serve.specs.Rounds.{ServedSome, ServedWhole, hall_of};
ghost use Rattle.lnbd_serve.specs.Served.{ServedAs, answer_of, shut_of};
ghost use Rattle.lnbd_serve.specs.Steps.{Counts, Went, blames};

use crate::fault::ServeFault;
use crate::guest::{Doing, Guest, Halt};
use crate::guests::{Door, Guests};
use lnbd_export::Export;
use lnbd_link::{Want, Wires, is_long};
use lnbd_model::{NoMemory, Text};
use std::alloc::Global;

/// How many bytes one read may give.
const ROOM: usize = 65_536;

/// Adds every open link.
fn push_wants(wants: &mut Vec<Want>, all: &Vec<Guest>) -> Result<(), NoMemory>
    ensures { OnOk result (wants.new.items ≡ wants.old.items ++ map want_of all.now.items) }
{
    'guests: for i in 0..all.len() {
        wants.push(all[i].want())?;
    }
    Ok(())
}

/// What a pause waits for.
fn wants_of(alloc: Global, guests: &Guests, door: Door) -> Result<Vec<Want>, NoMemory>
    ensures { IfOk result (λ wants. (export : Kept) → wants.items ≡ wants_of door.listener door.limit (hall_of guests.now export)) }
{
    let mut wants = Vec::new(alloc);
    if guests.is_accepting(door.limit) {
        wants.push(door.want())?;
    }
    push_wants(&mut wants, &guests.all)?;
    Ok(wants)
}

/// Waits until something can move.
fn pause<W: Wires>(
    alloc: Global,
    guests: &Guests,
    door: Door,
    wires: &mut W,
) -> Result<(), NoMemory>
    ensures ok { OnOk result ((export : Kept) → Adds (W.told wires.old) (W.told wires.new) (Pause (wants_of door.listener door.limit (hall_of guests.now export)))) }
    ensures waited { OnOk result (Rises 1 (W.idles wires.old) (W.idles wires.new)) }
    ensures faults { OnOk result (W.faults wires.old ≤ W.faults wires.new) }
    ensures err { OnErr result (wires.new ≡ wires.old) }
{
    let wants = wants_of(alloc, guests, door)?;
    wires.pause(&wants);
    Ok(())
}

/// Rounds and pauses until something comes.
fn await_news<W: Wires>(
    alloc: Global,
    guests: &mut Guests,
    door: Door,
    wires: &mut W,
    export: &mut Export,
    buffer: &mut [u8],
) -> Result<(), Halt>
    requires rests { All Rests guests.old.all.items }
    requires serving { 0 < length guests.old.all.items + (door.limit - guests.old.accepted) }
    requires room { 0 < length buffer.old }
    ensures ok { OnOk result (Went (W.told wires.old) (W.told wires.new) (λ calls. ServedSome door.listener door.limit (hall_of guests.old export.old) calls (hall_of guests.new export.new))) }
    ensures err { IfErr result (λ why. Went (W.told wires.old) (W.told wires.new) (λ calls. ServesUntil door.listener door.limit (hall_of guests.old export.old) calls (hall_of guests.new export.new) why)) }
    ensures silent { result ≡ Err Halt.Silent → Rises patience (W.idles wires.old) (W.idles wires.new) }
    ensures counts { Counts (blames result) (W.faults wires.old) (W.faults wires.new) (W.idles wires.old) (W.idles wires.new) }
{
    let start = wires.idles();
    'rounds: loop {
        match guests.round(alloc, door, wires, export, buffer) {
            Ok(Doing::News) => return Ok(()),
            Ok(Doing::Sent) => {}
            Ok(Doing::Still) => {
                match pause(alloc, guests, door, wires) {
                    Ok(()) => {}
                    Err(_) => return Err(Halt::NoMemory),
                }
                if is_long(start, wires.idles()) {
                    return Err(Halt::Silent);
                }
            }
            Err(why) => return Err(why),
        }
    }
}

/// Serves until so many clients were let in and all have left.
fn serve_all<W: Wires>(
    alloc: Global,
    guests: &mut Guests,
    door: Door,
    wires: &mut W,
    export: &mut Export,
) -> Result<(), Halt>
    requires rests { All Rests guests.old.all.items }
    requires few { guests.old.accepted ≤ door.limit }
    ensures ok { OnOk result (Went (W.told wires.old) (W.told wires.new) (λ calls. ServedWhole door.listener door.limit (hall_of guests.old export.old) calls (hall_of guests.new export.new))) }
    ensures err { IfErr result (λ why. Went (W.told wires.old) (W.told wires.new) (λ calls. ServesUntil door.listener door.limit (hall_of guests.old export.old) calls (hall_of guests.new export.new) why)) }
    ensures silent { result ≡ Err Halt.Silent → Rises patience (W.idles wires.old) (W.idles wires.new) }
    ensures counts { Counts (blames result) (W.faults wires.old) (W.faults wires.new) (W.idles wires.old) (W.idles wires.new) }
{
    let mut buffer = [0; ROOM];
    'serving: while guests.is_serving(door.limit) {
        match await_news(alloc, guests, door, wires, export, &mut buffer) {
            Ok(()) => {}
            Err(why) => return Err(why),
        }
    }
    Ok(())
}

/// Shuts the links that are open.
fn shut_all<W: Wires>(all: &Vec<Guest>, wires: &mut W)
    ensures shuts { Went (W.told wires.old) (W.told wires.new) (λ calls. calls ≡ map shut_of all.now.items) }
    ensures counts { Counts false (W.faults wires.old) (W.faults wires.new) (W.idles wires.old) (W.idles wires.new) }
{
    'guests: for i in 0..all.len() {
        wires.shut(all[i].link);
    }
}

/// The answer, by how serving ended and the counts at its end.
fn answer_of(
    served: Result<(), Halt>,
    broken: bool,
    sessions: u32,
    before: u64,
    faults: u64,
    idles: u64,
) -> Result<u32, ServeFault>
    ensures { result ≡ answer_of served broken sessions before faults idles }
{
    match served {
        Ok(()) => {
            if broken {
                Err(ServeFault::Client)
            } else {
                Ok(sessions)
            }
        }
        Err(Halt::NoMemory) => Err(ServeFault::NoMemory),
        Err(Halt::Link) => Err(ServeFault::Link {
            before,
            after: faults,
        }),
        Err(Halt::Silent) => Err(ServeFault::Silent { idles }),
    }
}

/// Serves an export to so many clients, one after another and up to 64 at once, which come in by this listener: answers
/// how many they were, once all have left.
///
/// `Client`: the bytes of one were no client's; all others were served. `NoMemory`, `Link` and `Silent` cut serving off:
/// memory ran out, a call on the wires failed, or nothing came while they waited for 1,000,000,000. All links are then shut.
pub fn serve_on<W: Wires>(
    alloc: Global,
    listener: u32,
    name: &Text,
    export: &mut Export,
    sessions: u32,
    wires: &mut W,
) -> Result<u32, ServeFault>
    requires { name.now ≡ export.old.name }

    // Who is let in, what each client's bytes do and what it is answered, when a link is read, written and shut, and when
    // and for what there is a pause.
    ensures serves { Went (W.told wires.old) (W.told wires.new) (λ calls. ServedAs listener sessions result export.old calls export.new) }

    // The counts, and what a fault comes from.
    ensures link { (before after : ℕ) → result ≡ Err (ServeFault.Link before after) → (before ≡ W.faults wires.old) × (after ≡ W.faults wires.new) × Rises 1 before after }
    ensures silent { (idles : ℕ) → result ≡ Err (ServeFault.Silent idles) → (idles ≡ W.idles wires.new) × Rises patience (W.idles wires.old) idles }
    ensures faults { W.faults wires.old ≤ W.faults wires.new }
    ensures idles { W.idles wires.old ≤ W.idles wires.new }
{
    let _ = name;
    let before = wires.faults();
    let door = Door {
        listener,
        limit: sessions,
    };
    let mut guests = Guests::new(alloc);
    let served = serve_all(alloc, &mut guests, door, wires, export);
    shut_all(&guests.all, wires);
    answer_of(
        served,
        guests.broken,
        sessions,
        before,
        wires.faults(),
        wires.idles(),
    )
}
