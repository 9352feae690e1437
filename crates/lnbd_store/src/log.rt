//! The calls so far, each with its bytes, while memory lasts. What a call did to a file is not known here.

ghost use Rattle.std.specs.Prelude.{◌≡◌, ◌≤◌, [], Some, None, length, IfOk, OnErr};
ghost use Rattle.lnbd_link.specs.Part.{Adds};
ghost use Rattle.lnbd_store.specs.Answers.{got_len, took_len};
ghost use Rattle.lnbd_store.specs.Call.{number_told, done_told, read_told, write_told};
ghost use Rattle.lnbd_store.specs.Call.{Open, Length, ReadAt, WriteAt, Cut, Sync, PartAt};
ghost use Rattle.lnbd_store.specs.Log.{call_of};

use crate::store::{StoreFailed, StoreGot, StorePart, StoreTook};
use lnbd_model::{NoMemory, Text};
use std::alloc::Global;
use std::marker::Model;

/// One call.
#[derive(Drop)]
pub(crate) enum Kept {
    Open {
        path: Text,
        write: bool,
        number: Option<u32>,
    },
    Length {
        file: u32,
        length: Option<u64>,
    },
    ReadAt {
        file: u32,
        offset: u64,
        room: usize,
        got: StoreGot,
        bytes: Vec<u8>,
    },
    WriteAt {
        file: u32,
        offset: u64,
        offered: usize,
        took: StoreTook,
        bytes: Vec<u8>,
    },
    Cut {
        file: u32,
        length: u64,
        done: bool,
    },
    Sync {
        file: u32,
        done: bool,
    },
    PartAt {
        file: u32,
        offset: u64,
        answer: StorePart,
    },
}

/// An open, with the number that it answered.
pub(crate) fn kept_open(
    alloc: Global,
    path: &Text,
    write: bool,
    answer: Result<u32, StoreFailed>,
) -> Result<Kept, NoMemory>
    ensures { IfOk result (λ kept. call_of kept ≡ Open path.now write (number_told answer)) }
{
    let path = path.try_clone(alloc)?;
    let number = match answer {
        Ok(number) => Some(number),
        Err(_) => None,
    };
    Ok(Kept::Open {
        path,
        write,
        number,
    })
}

/// A length, with what it answered.
pub(crate) fn kept_length(file: u32, answer: Result<u64, StoreFailed>) -> Kept
    ensures { call_of result ≡ Length file (number_told answer) }
{
    let length = match answer {
        Ok(length) => Some(length),
        Err(_) => None,
    };
    Kept::Length { file, length }
}

/// A cut, done or not.
pub(crate) fn kept_cut(file: u32, length: u64, answer: Result<(), StoreFailed>) -> Kept
    ensures { call_of result ≡ Cut file length (done_told answer) }
{
    let done = match answer {
        Ok(()) => true,
        Err(_) => false,
    };
    Kept::Cut { file, length, done }
}

/// A sync, done or not.
pub(crate) fn kept_sync(file: u32, answer: Result<(), StoreFailed>) -> Kept
    ensures { call_of result ≡ Sync file (done_told answer) }
{
    let done = match answer {
        Ok(()) => true,
        Err(_) => false,
    };
    Kept::Sync { file, done }
}

/// A read, with the bytes that came.
pub(crate) fn kept_read(
    alloc: Global,
    file: u32,
    offset: u64,
    into: &[u8],
    got: StoreGot,
) -> Result<Kept, NoMemory>
    requires { got_len got ≤ length into.now }
    ensures { IfOk result (λ kept. call_of kept ≡ ReadAt file offset (length into.now) (read_told got into.now)) }
{
    let (moved, _) = into.split_at(got.moved());
    let bytes = moved.to_vec(alloc)?;
    Ok(Kept::ReadAt {
        file,
        offset,
        room: into.len(),
        got,
        bytes,
    })
}

/// A write, with the bytes that were taken.
pub(crate) fn kept_write(
    alloc: Global,
    file: u32,
    offset: u64,
    from: &[u8],
    took: StoreTook,
) -> Result<Kept, NoMemory>
    requires { took_len took ≤ length from.now }
    ensures { IfOk result (λ kept. call_of kept ≡ WriteAt file offset (length from.now) (write_told took from.now)) }
{
    let (taken, _) = from.split_at(took.moved());
    let bytes = taken.to_vec(alloc)?;
    Ok(Kept::WriteAt {
        file,
        offset,
        offered: from.len(),
        took,
        bytes,
    })
}

/// Contracts see the calls, the oldest first, as long as they are told.
#[derive(Drop)]
pub(crate) struct Log {
    kept: Vec<Kept>,
    telling: bool,
}

impl Model for Log {
    ghost use Rattle.std.specs.Prelude.{List, Option, Some, None, map, if◌then◌else◌};
    ghost use Rattle.lnbd_store.specs.Call.{Call};
    ghost use Rattle.lnbd_store.specs.Log.{call_of};

    ghost Value = { Option (List Call) };

    ghost view = { λ a. if a.telling then Some (map call_of a.kept.items) else None };
}

impl Log {
    /// No call.
    pub fn new(alloc: Global) -> Log
        ensures { result ≡ Some [] }
    {
        Log {
            kept: Vec::new(alloc),
            telling: true,
        }
    }

    /// Adds a call. On `NoMemory` nothing is told from then on.
    pub fn add(&mut self, call: Kept) -> Result<(), NoMemory>
        ensures ok { Adds self.old self.new (call_of call) }
        ensures err { OnErr result (self.new ≡ None) }
    {
        if !self.telling {
            return Ok(());
        }
        if let Err(_) = self.kept.push(call) {
            self.telling = false;
            return Err(NoMemory);
        }
        Ok(())
    }

    /// Tells nothing from then on.
    pub fn stop(&mut self)
        ensures { self.new ≡ None }
    {
        self.telling = false;
    }
}
