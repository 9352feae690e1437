//! Files in memory as a store: what each call answers, and what the files then hold.

use crate::store_tests::Ask::{Counts, Cut, Held, Length, Open, Part, Read, Sync, Write};
use crate::told::{Told, same, text};
use lnbd_model::NoMemory;
use lnbd_store::{Contents, MemoryStore, Side, Store, StoreFile, StoreGot, StorePart, StoreTook};
use std::alloc::Global;

/// A call on a store, or a look at a file or at the counts.
#[derive(Clone, Copy)]
enum Ask {
    Open(&'static str, bool),
    Length(u32),
    /// From a place on, with so much room.
    Read(u32, u64, usize),
    Write(u32, u64, &'static [u8]),
    Cut(u32, u64),
    Sync(u32),
    Part(u32, u64),
    Held(&'static str),
    Counts,
}

/// Reads and writes within, across and behind the end, cuts both ways, and what is missing.
const CALLS: &[Ask] = &[
    Open("c", false),
    Open("a", true),
    Length(0),
    Read(0, 4, 4),
    Read(0, 6, 1),
    Read(0, 7, 1),
    Write(0, 1, b"XY"),
    Held("a"),
    Write(0, 5, b"ghi"),
    Held("a"),
    Write(0, 10, b"Z"),
    Held("a"),
    Cut(0, 3),
    Cut(0, 5),
    Held("a"),
    Open("d", true),
    Held("d"),
    Open("a", false),
    Read(2, 0, 2),
    Sync(1),
    Held("c"),
    Counts,
    Length(3),
    Read(3, 0, 1),
    Write(3, 0, b"a"),
    Cut(3, 0),
    Sync(3),
    Counts,
];

/// The third call fails, whatever it is, and leaves the files as they were. What lies at a place is none of those that are counted.
const THIRD: &[Ask] = &[
    Open("b", true),
    Length(0),
    Part(0, 0),
    Write(0, 0, b"ab"),
    Held("b"),
    Write(0, 0, b"ab"),
    Held("b"),
    Counts,
];

fn file(alloc: Global, path: &str, bytes: &[u8]) -> Result<StoreFile, NoMemory> {
    let bytes = Contents::from_vec(bytes.to_vec(alloc)?);
    let path = text(alloc, path)?;
    Ok(StoreFile { path, bytes })
}

/// Two files: one of six bytes, and an empty one.
fn files(alloc: Global) -> Result<Vec<StoreFile>, NoMemory> {
    let mut files = Vec::new(alloc);
    files.push(file(alloc, "a", b"abcdef")?)?;
    files.push(file(alloc, "b", b"")?)?;
    Ok(files)
}

/// Appends bytes, a zero as a dot.
fn push_bytes(told: &mut Told, bytes: &[u8]) {
    for byte in bytes {
        told.letter(if *byte == 0 { '.' } else { *byte as char });
    }
}

/// Appends a number, or that there is none.
fn push_number(told: &mut Told, number: Option<u64>) {
    match number {
        Some(number) => told.number(number),
        None => told.push("failed"),
    }
}

fn push_opened(told: &mut Told, alloc: Global, store: &mut MemoryStore, path: &str, write: bool) {
    match text(alloc, path) {
        Ok(path) => match store.open(&path, write) {
            Ok(number) => told.number(u64::from(number)),
            Err(_) => told.push("failed"),
        },
        Err(_) => told.lack(),
    }
}

/// Appends what a read gives.
fn push_read(told: &mut Told, store: &mut MemoryStore, file: u32, offset: u64, room: usize) {
    let mut into = [0; 8];
    if room == 0 || room > into.len() {
        return;
    }
    match store.read_at(file, offset, &mut into[..room]) {
        StoreGot::Bytes(n) => push_bytes(told, &into[..n]),
        StoreGot::End => told.push("end"),
        StoreGot::Failed => told.push("failed"),
    }
}

/// Appends what a write takes.
fn push_written(told: &mut Told, store: &mut MemoryStore, file: u32, offset: u64, from: &[u8]) {
    if from.is_empty() {
        return;
    }
    match store.write_at(file, offset, from) {
        StoreTook::Bytes(n) => told.number(n as u64),
        StoreTook::Failed => told.push("failed"),
    }
}

/// Appends how many bytes are told to lie from a place on.
fn push_part(told: &mut Told, store: &mut MemoryStore, file: u32, offset: u64) {
    match store.part_at(file, offset) {
        StorePart::Bytes(n) => told.number(n),
        StorePart::Zeros(_) => told.push("zeros"),
    }
}

fn push_held(told: &mut Told, store: &MemoryStore, path: &str) {
    match store.bytes_at(path.as_bytes()) {
        Some(bytes) => push_bytes(told, bytes),
        None => told.push("none"),
    }
}

fn push_counts(told: &mut Told, store: &MemoryStore) {
    told.number(store.faults());
    told.push(" ");
    told.number(store.given());
    told.push(" ");
    told.number(store.taken());
}

/// Makes a call, and appends its answer.
fn push_answer(told: &mut Told, alloc: Global, store: &mut MemoryStore, ask: Ask) {
    match ask {
        Open(path, write) => push_opened(told, alloc, store, path, write),
        Length(file) => push_number(told, store.length(file).ok()),
        Read(file, offset, room) => push_read(told, store, file, offset, room),
        Write(file, offset, from) => push_written(told, store, file, offset, from),
        Cut(file, length) => told.holds(store.cut(file, length).is_ok()),
        Sync(file) => told.holds(store.sync(file).is_ok()),
        Part(file, offset) => push_part(told, store, file, offset),
        Held(path) => push_held(told, store, path),
        Counts => push_counts(told, store),
    }
    told.push(", ");
}

/// Makes these calls, of which the one of this number fails.
fn push_answers(
    told: &mut Told,
    alloc: Global,
    fail_at: Option<u64>,
    asks: &[Ask],
) -> Result<(), NoMemory> {
    let mut store = MemoryStore::new(alloc, files(alloc)?, fail_at);
    for ask in asks {
        push_answer(told, alloc, &mut store, *ask);
    }
    Ok(())
}

/// Whether the file that is a side has the path that was given.
fn push_side(told: &mut Told, alloc: Global) -> Result<(), NoMemory> {
    let side = Side::File(text(alloc, "a")?);
    told.holds(matches!(&side, Side::File(path) if path.as_str() == "a"));
    Ok(())
}

#[test]
fn calls_of_files_in_memory_are_answered(rt: HostRuntime) -> Result<(), NoMemory> {
    let mut told = Told::new(rt.alloc());
    push_answers(&mut told, rt.alloc(), None, CALLS)?;
    push_answers(&mut told, rt.alloc(), Some(2), THIRD)?;
    push_side(&mut told, rt.alloc())?;
    same(
        &rt,
        &told,
        "failed, 0, 6, ef, end, end, 2, aXYdef, 3, aXYdeghi, 1, aXYdeghi..Z, true, true, aXY.., \
1, , 2, aX, true, none, 1 4 6, failed, failed, failed, false, false, 6 4 6, \
0, 0, 18446744073709551615, failed, , 2, ab, 1 0 2, true",
    );
    Ok(())
}
