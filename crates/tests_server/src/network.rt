//! Wires that serve one export of 16 bytes, and calls of them as data.

ghost use Rattle.std.specs.Prelude.{◌≤◌, IfOk, map};
ghost use Rattle.lnbd_memnet.specs.Network.{AreApart, hosted_of};
ghost use Rattle.lnbd_memnet.specs.Schedule.{Moves};

use crate::client::{BEGIN, DISC};
use crate::told::{Told, text};
use lnbd_export::Export;
use lnbd_extents::Ranges;
use lnbd_link::{Accepted, Got, Took, Want, WireFailed, Wires};
use lnbd_memnet::{Schedule, Served, ServedWires, Step};
use lnbd_model::{NoMemory, Target, Text};
use std::alloc::Global;

/// What goes out until GO is answered: the hello, size and flags, the sizes of blocks, and ACK.
const GREETING: &[u8] = b"NBDMAGICIHAVEOPT\0\x03\
\0\x03\xe8\x89\x04\x55\x65\xa9\0\0\0\x07\0\0\0\x03\0\0\0\x0c\0\0\0\0\0\0\0\0\0\x10\x05\x6d\
\0\x03\xe8\x89\x04\x55\x65\xa9\0\0\0\x07\0\0\0\x03\0\0\0\x0e\0\x03\0\0\0\x01\0\0\x10\0\x02\0\0\0\
\0\x03\xe8\x89\x04\x55\x65\xa9\0\0\0\x07\0\0\0\x01\0\0\0\0";

/// A call of the wires.
#[derive(Clone, Copy)]
pub enum Ask {
    /// To the Unix address of this one letter.
    Connect(&'static str),
    /// To a host and a port.
    Call,
    Listen,
    Accept,
    /// Negotiates by so many writes and so many reads at most.
    Greet(u32, usize),
    /// Up to four bytes.
    Read(u32),
    /// The flags and GO.
    Begin(u32),
    /// DISC.
    End(u32),
    Pause(u32),
    Shut(u32),
    /// The counts of faults, of waiting and of want of memory.
    Counts,
}

pub fn unix(alloc: Global, path: &str) -> Result<Target, NoMemory> {
    let path = text(alloc, path)?;
    Ok(Target::Unix { path })
}

/// The sixteen bytes, without a name.
fn export(alloc: Global) -> Result<Export, NoMemory> {
    let content = b"abcdefghijklmnop".to_vec(alloc)?;
    let zeros = Ranges::new(alloc);
    Ok(Export::new(
        Text::empty(alloc),
        Text::empty(alloc),
        content,
        zeros,
        false,
    ))
}

#[tactic(auto, using(lnbd_memnet::proofs::Apart::one_apart))]
fn served(alloc: Global) -> Result<Vec<Served>, NoMemory>
    ensures { IfOk result (λ exports. AreApart (map hosted_of exports.items)) }
{
    let at = unix(alloc, "a")?;
    let export = export(alloc)?;
    let mut exports = Vec::new(alloc);
    exports.push(Served { at, export })?;
    Ok(exports)
}

/// Wires to it, by this schedule.
pub fn wires(alloc: Global, schedule: Schedule) -> Result<ServedWires, NoMemory>
    requires { Moves schedule }
{
    ServedWires::new(alloc, served(alloc)?, schedule)
}

/// The same step so many times.
#[tactic(auto, using(lnbd_memnet::proofs::Apart::all_same))]
pub fn steps(alloc: Global, step: Step, count: usize) -> Result<Schedule, NoMemory>
    requires { 1 ≤ step.most }
    ensures { IfOk result (λ schedule. Moves schedule) }
{
    Ok(Schedule::List(vec![in alloc; step; count]?))
}

/// Writes as many of the bytes as go in so many calls.
pub fn send(wires: &mut ServedWires, link: u32, bytes: &[u8], calls: usize) -> usize {
    let mut at = 0;
    for _ in 0..calls {
        if at < bytes.len() {
            let (_, rest) = bytes.split_at(at);
            if let Took::Bytes(n) = wires.write(link, rest) {
                at += n;
            }
        }
    }
    at
}

/// Reads as many bytes as come in so many calls.
pub fn hear(wires: &mut ServedWires, link: u32, into: &mut [u8], calls: usize) -> usize {
    let mut at = 0;
    for _ in 0..calls {
        if at < into.len() {
            let (_, rest) = into.split_at_mut(at);
            if let Got::Bytes(n) = wires.read(link, rest) {
                at += n;
            }
        }
    }
    at
}

/// What the one export holds.
pub fn held(wires: &ServedWires) -> &[u8] {
    if wires.exports() == 0 {
        return &[];
    }
    wires.bytes(0)
}

/// Negotiates on a link: whether all went and came as it is to.
pub fn greet(wires: &mut ServedWires, link: u32, calls: usize) -> bool {
    let mut came = [0; 104];
    send(wires, link, BEGIN, calls) == BEGIN.len()
        && hear(wires, link, &mut came, calls) == came.len()
        && came.as_slice() == GREETING
}

fn push_link(told: &mut Told, link: Result<u32, WireFailed>) {
    match link {
        Ok(link) => told.number(u64::from(link)),
        Err(_) => told.push("failed"),
    }
}

fn push_connected(told: &mut Told, wires: &mut ServedWires, to: Result<Target, NoMemory>) {
    match to {
        Ok(to) => push_link(told, wires.connect(&to)),
        Err(_) => told.lack(),
    }
}

fn push_listening(told: &mut Told, wires: &mut ServedWires, at: Result<Target, NoMemory>) {
    match at {
        Ok(at) => push_link(told, wires.listen(&at)),
        Err(_) => told.lack(),
    }
}

/// A host and a port at which nobody serves.
fn host(alloc: Global) -> Result<Target, NoMemory> {
    let host = text(alloc, "a")?;
    Ok(Target::Tcp { host, port: 10809 })
}

fn push_read(told: &mut Told, wires: &mut ServedWires, link: u32) {
    let mut came = [0; 4];
    match wires.read(link, &mut came) {
        Got::Bytes(n) => {
            told.numbers(&[n as u64]);
            told.number(u64::from(came[0]));
        }
        Got::NotReady => told.push("not ready"),
        Got::End => told.push("end"),
        Got::Failed => told.push("failed"),
    }
}

fn push_took(told: &mut Told, took: Took) {
    match took {
        Took::Bytes(n) => told.number(n as u64),
        Took::NotReady => told.push("not ready"),
        Took::Failed => told.push("failed"),
    }
}

fn push_counts(told: &mut Told, wires: &ServedWires) {
    told.numbers(&[wires.faults(), wires.idles()]);
    told.number(wires.shorts());
}

/// Makes a call, and appends its answer.
fn push_answer(told: &mut Told, alloc: Global, wires: &mut ServedWires, ask: Ask) {
    match ask {
        Ask::Connect(path) => push_connected(told, wires, unix(alloc, path)),
        Ask::Call => push_connected(told, wires, host(alloc)),
        Ask::Listen => push_listening(told, wires, unix(alloc, "a")),
        Ask::Accept => match wires.accept(0) {
            Accepted::Failed => told.push("failed"),
            _ => told.push("link"),
        },
        Ask::Greet(link, calls) => told.holds(greet(wires, link, calls)),
        Ask::Read(link) => push_read(told, wires, link),
        Ask::Begin(link) => push_took(told, wires.write(link, BEGIN)),
        Ask::End(link) => push_took(told, wires.write(link, DISC)),
        Ask::Pause(link) => wires.pause(&[Want { link, direction: 1 }]),
        Ask::Shut(link) => wires.shut(link),
        Ask::Counts => push_counts(told, wires),
    }
    told.push(", ");
}

/// Makes these calls, and appends their answers.
pub fn push_answers(told: &mut Told, alloc: Global, wires: &mut ServedWires, asks: &[Ask]) {
    for ask in asks {
        push_answer(told, alloc, wires, *ask);
    }
}
