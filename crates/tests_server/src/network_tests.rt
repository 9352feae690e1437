//! Served wires driven by hand, byte for byte, over an export of 16 bytes.

ghost use Rattle.lnbd_memnet.specs.Schedule.{Moves};

use crate::network::Ask::{
    Accept, Begin, Call, Connect, Counts, End, Greet, Listen, Pause, Read, Shut,
};
use crate::network::{Ask, greet, hear, held, push_answers, send, steps, unix, wires};
use crate::told::{Told, same};
use lnbd_link::Wires;
use lnbd_memnet::{Schedule, ServedWires, Step};
use lnbd_model::{NoMemory, Target};
use std::alloc::Global;

/// WRITE of three bytes at 2, WRITE_ZEROES of four at 8 and TRIM of two at 14, with cookies 1 to 3.
const CHANGES: &[u8] =
    b"\x25\x60\x95\x13\0\0\0\x01\0\0\0\0\0\0\0\x01\0\0\0\0\0\0\0\x02\0\0\0\x03XYZ\
\x25\x60\x95\x13\0\0\0\x06\0\0\0\0\0\0\0\x02\0\0\0\0\0\0\0\x08\0\0\0\x04\
\x25\x60\x95\x13\0\0\0\x04\0\0\0\0\0\0\0\x03\0\0\0\0\0\0\0\x0e\0\0\0\x02";

/// What the export then holds.
const CHANGED: &[u8] = b"abXYZfgh\0\0\0\0mn\0\0";

/// READ of all 16 bytes, with cookie 4.
const READ_ALL: &[u8] = b"\x25\x60\x95\x13\0\0\0\0\0\0\0\0\0\0\0\x04\0\0\0\0\0\0\0\0\0\0\0\x10";

/// WRITE of one byte at 0, which is still to come.
const WRITE: &[u8] = b"\x25\x60\x95\x13\0\0\0\x01\0\0\0\0\0\0\0\x01\0\0\0\0\0\0\0\x00\0\0\0\x01";

/// Whether all of these bytes go out, and as many come as there is room for.
fn is_answered(wires: &mut ServedWires, link: u32, bytes: &[u8], came: &mut [u8]) -> bool {
    let room = came.len();
    send(wires, link, bytes, 200) == bytes.len() && hear(wires, link, came, 200) == room
}

/// Whether changes are answered, a read then gives what was written, and the export holds it.
fn is_kept(wires: &mut ServedWires, link: u32) -> bool {
    let mut replies = [0; 48];
    let mut reply = [0; 32];
    greet(wires, link, 200)
        && is_answered(wires, link, CHANGES, &mut replies)
        && is_answered(wires, link, READ_ALL, &mut reply)
        && &reply[16..] == CHANGED
        && held(wires) == CHANGED
}

/// Whether it is so under this seed, and nothing failed.
fn is_kept_under(alloc: Global, to: &Target, seed: u64) -> Result<bool, NoMemory> {
    let mut wires = wires(alloc, Schedule::Seeded(seed))?;
    match wires.connect(to) {
        Ok(link) => Ok(is_kept(&mut wires, link) && wires.faults() == 0 && wires.shorts() == 0),
        Err(_) => Ok(false),
    }
}

/// Each seed under which it is not so.
fn push_seeds(told: &mut Told, alloc: Global) -> Result<(), NoMemory> {
    let to = unix(alloc, "a")?;
    for seed in 0..200 {
        if !is_kept_under(alloc, &to, seed)? {
            told.numbers(&[seed]);
        }
    }
    Ok(())
}

// Whatever a seed draws, what is read is what was written, and the export holds it.
#[test]
fn what_is_written_is_read_under_each_seed(rt: HostRuntime) -> Result<(), NoMemory> {
    let mut told = Told::new(rt.alloc());
    push_seeds(&mut told, rt.alloc())?;
    same(&rt, &told, "");
    Ok(())
}

/// After the end of a list all is ready and whole, and the server ends once it was told to.
const AT_ONCE: &[Ask] = &[
    Connect("a"),
    Greet(0, 1),
    Read(0),
    End(0),
    Read(0),
    Shut(0),
    Read(0),
    Counts,
];

/// A schedule that lets nothing move lets the first read and the first write after a pause move.
const PAUSED: &[Ask] = &[
    Connect("a"),
    Read(0),
    Begin(0),
    Pause(0),
    Read(0),
    Read(0),
    Begin(0),
    Begin(0),
    Counts,
];

/// Bytes move one by one where each step says so.
const ONE_BY_ONE: &[Ask] = &[Connect("a"), Greet(0, 104), Read(0)];

/// What is not there fails, and each fault is counted.
const NOT_SERVED: &[Ask] = &[
    Connect("b"),
    Call,
    Listen,
    Accept,
    Read(0),
    End(7),
    Counts,
    Connect("a"),
];

/// What these calls answer where wires move as their schedule says.
fn push_played(
    told: &mut Told,
    alloc: Global,
    schedule: Schedule,
    asks: &[Ask],
) -> Result<(), NoMemory>
    requires { Moves schedule }
{
    let mut wires = wires(alloc, schedule)?;
    push_answers(told, alloc, &mut wires, asks);
    Ok(())
}

fn push_paused(told: &mut Told, alloc: Global) -> Result<(), NoMemory> {
    let still = Step {
        ready: false,
        most: 1,
        pick: 0,
    };
    push_played(told, alloc, steps(alloc, still, 100)?, PAUSED)
}

/// How many bytes of the changes go out, and whether the export then holds them.
fn push_sent(told: &mut Told, wires: &mut ServedWires) {
    told.numbers(&[send(wires, 0, CHANGES, 87) as u64]);
    told.holds(held(wires) == CHANGED);
    told.push(", ");
}

fn push_one_by_one(told: &mut Told, alloc: Global) -> Result<(), NoMemory> {
    let slow = Step {
        ready: true,
        most: 1,
        pick: 3,
    };
    let mut wires = wires(alloc, steps(alloc, slow, 1000)?)?;
    push_answers(told, alloc, &mut wires, ONE_BY_ONE);
    push_sent(told, &mut wires);
    Ok(())
}

#[test]
fn calls_of_served_wires_are_answered(rt: HostRuntime) -> Result<(), NoMemory> {
    let alloc = rt.alloc();
    let mut told = Told::new(alloc);
    push_played(&mut told, alloc, Schedule::List(Vec::new(alloc)), AT_ONCE)?;
    push_paused(&mut told, alloc)?;
    push_one_by_one(&mut told, alloc)?;
    push_played(&mut told, alloc, Schedule::Seeded(0), NOT_SERVED)?;
    same(
        &rt,
        &told,
        "0, true, not ready, 28, end, , failed, 1 0 0, \
0, not ready, not ready, , 1 78, not ready, 1, not ready, 0 1 0, \
0, true, not ready, 87 true, \
failed, failed, failed, failed, failed, failed, 6 0 0, 0, ",
    );
    Ok(())
}

// Sixteen links on one export: of writes that overlap the last holds.
fn greet_each(told: &mut Told, alloc: Global, wires: &mut ServedWires) {
    for number in 0..16 {
        push_answers(told, alloc, wires, &[Connect("a"), Greet(number, 1)]);
    }
}

fn write_on_each(told: &mut Told, wires: &mut ServedWires) {
    for number in 0..16 {
        told.numbers(&[send(wires, number, WRITE, 1) as u64]);
    }
}

// A byte that goes out on one of the links is the export's first.
fn push_held(told: &mut Told, wires: &mut ServedWires) {
    for number in [3u8, 9, 0, 15, 7] {
        let sent = send(wires, u32::from(number), &[number], 1);
        if let Some(byte) = held(wires).first() {
            told.numbers(&[sent as u64, u64::from(*byte)]);
        }
    }
}

#[test]
fn sixteen_links_on_one_export(rt: HostRuntime) -> Result<(), NoMemory> {
    let alloc = rt.alloc();
    let mut wires = wires(alloc, Schedule::List(Vec::new(alloc)))?;
    let mut told = Told::new(alloc);
    greet_each(&mut told, alloc, &mut wires);
    write_on_each(&mut told, &mut wires);
    push_held(&mut told, &mut wires);
    same(
        &rt,
        &told,
        "0, true, 1, true, 2, true, 3, true, 4, true, 5, true, 6, true, 7, true, 8, true, 9, true, 10, true, 11, true, 12, true, 13, true, 14, true, 15, true, \
28 28 28 28 28 28 28 28 28 28 28 28 28 28 28 28 1 3 1 9 1 0 1 15 1 7 ",
    );
    Ok(())
}
