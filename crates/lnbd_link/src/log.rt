//! The calls so far, in memory that was taken at the start: no call takes any. Which calls may be made
//! is no matter here.

ghost use Rattle.std.specs.Prelude.{◌≡◌, ◌<◌, ◌≤◌, ◌+◌, ◌-◌, ◌^◌, [], ◌∷◌, ◌++◌, length, sum_by, IfOk, vec_len, vec_capacity};
ghost use Rattle.lnbd_link.specs.Call.{read_told, write_told};
ghost use Rattle.lnbd_link.specs.Call.{Connect, Listen, Accept, Read, Write, Pause, Shut};
ghost use Rattle.lnbd_link.specs.Room.{text_of, target_len, got_len, took_len};
ghost use Rattle.lnbd_link.specs.Kept.{bytes_of, wants_of, call_of, calls_of, reach_of};

use crate::kept::{Kept, Reach};
use crate::wires::{Accepted, Got, Took, Want};
use lnbd_model::{NoMemory, Target};
use std::alloc::Global;
use std::marker::Model;

/// Contracts see the calls and the room that is left for more.
#[derive(Drop)]
pub struct Log {
    kept: Vec<Kept>,
    bytes: Vec<u8>,
    wants: Vec<Want>,
    room: usize,
}

impl Model for Log {
    ghost use Rattle.std.specs.Prelude.{ℕ, List};
    ghost use Rattle.lnbd_link.specs.Call.{Call};

    ghost Value = { List Call × ℕ };

    ghost use Rattle.lnbd_link.specs.Kept.{calls_of};
    ghost use Rattle.lnbd_link.specs.Log.{IsKept};

    ghost view = { λ a. (calls_of a.kept.items a.bytes.items a.wants.items, a.room) };

    ghost invariant = { λ a. IsKept a };
}

impl Log {
    /// No call, and room for so much.
    pub fn new(alloc: Global, room: usize) -> Result<Log, NoMemory>
        ensures state { IfOk result (λ log. log ≡ ([], room)) }
        ensures small { IfOk result (λ log. room < 2 ^ 63) }
    {
        Ok(Log {
            kept: Vec::with_capacity(alloc, room)?,
            bytes: Vec::with_capacity(alloc, room)?,
            wants: Vec::with_capacity(alloc, room)?,
            room,
        })
    }

    pub fn room(&self) -> usize
        ensures { result ≡ self.now.1 }
    {
        self.room
    }

    pub fn connect(&mut self, to: &Target, link: Option<u32>)
        requires { 1 + target_len to.now ≤ self.old.1 }
        ensures { self.new ≡ (self.old.0 ++ Connect to.now link ∷ [], self.old.1 - (1 + target_len to.now)) }
    {
        let text = target_text(to);
        add(
            &mut self.kept,
            &mut self.bytes,
            &mut self.wants,
            Kept::Connect {
                to: reach(to),
                text: text.len(),
                link,
            },
            text,
            &[],
        );
        self.room -= 1 + text.len();
    }

    pub fn listen(&mut self, at: &Target, listener: Option<u32>)
        requires { 1 + target_len at.now ≤ self.old.1 }
        ensures { self.new ≡ (self.old.0 ++ Listen at.now listener ∷ [], self.old.1 - (1 + target_len at.now)) }
    {
        let text = target_text(at);
        add(
            &mut self.kept,
            &mut self.bytes,
            &mut self.wants,
            Kept::Listen {
                at: reach(at),
                text: text.len(),
                listener,
            },
            text,
            &[],
        );
        self.room -= 1 + text.len();
    }

    pub fn accept(&mut self, listener: u32, answer: Accepted)
        requires { 1 ≤ self.old.1 }
        ensures { self.new ≡ (self.old.0 ++ Accept listener answer ∷ [], self.old.1 - 1) }
    {
        add(
            &mut self.kept,
            &mut self.bytes,
            &mut self.wants,
            Kept::Accept { listener, answer },
            &[],
            &[],
        );
        self.room -= 1;
    }

    pub fn read(&mut self, link: u32, into: &[u8], got: Got)
        requires fits { 1 + got_len got ≤ self.old.1 }
        requires moved { got_len got ≤ length into.now }
        ensures { self.new ≡ (self.old.0 ++ Read link (length into.now) (read_told got into.now) ∷ [], self.old.1 - (1 + got_len got)) }
    {
        let n = got.moved();
        let call = Kept::Read {
            link,
            room: into.len(),
            got,
        };
        add(
            &mut self.kept,
            &mut self.bytes,
            &mut self.wants,
            call,
            &into[..n],
            &[],
        );
        self.room -= 1 + n;
    }

    pub fn write(&mut self, link: u32, from: &[u8], took: Took)
        requires fits { 1 + took_len took ≤ self.old.1 }
        requires moved { took_len took ≤ length from.now }
        ensures { self.new ≡ (self.old.0 ++ Write link (length from.now) (write_told took from.now) ∷ [], self.old.1 - (1 + took_len took)) }
    {
        let sent = took.moved();
        let call = Kept::Write {
            link,
            offered: from.len(),
            took,
        };
        add(
            &mut self.kept,
            &mut self.bytes,
            &mut self.wants,
            call,
            &from[..sent],
            &[],
        );
        self.room -= 1 + sent;
    }

    pub fn pause(&mut self, wants: &[Want])
        requires { 1 + length wants.now ≤ self.old.1 }
        ensures { self.new ≡ (self.old.0 ++ Pause wants.now ∷ [], self.old.1 - (1 + length wants.now)) }
    {
        add(
            &mut self.kept,
            &mut self.bytes,
            &mut self.wants,
            Kept::Pause { wants: wants.len() },
            &[],
            wants,
        );
        self.room -= 1 + wants.len();
    }

    pub fn shut(&mut self, link: u32)
        requires { 1 ≤ self.old.1 }
        ensures { self.new ≡ (self.old.0 ++ Shut link ∷ [], self.old.1 - 1) }
    {
        add(
            &mut self.kept,
            &mut self.bytes,
            &mut self.wants,
            Kept::Shut { link },
            &[],
            &[],
        );
        self.room -= 1;
    }
}

/// The text of an address: its host or its path.
pub fn target_text(target: &Target) -> &[u8]
    ensures text { result.now ≡ text_of target.now }
    ensures len { length result.now ≡ target_len target.now }
{
    match target {
        Target::Tcp { host, .. } => host.as_bytes(),
        Target::Unix { path } => path.as_bytes(),
    }
}

fn reach(target: &Target) -> Reach
    ensures { result ≡ reach_of target.now }
{
    match target {
        Target::Tcp { port, .. } => Reach::Tcp(*port),
        Target::Unix { .. } => Reach::Unix,
    }
}

// Adds a call and what belongs to it. There is room, so no memory is taken.
fn add(
    kept: &mut Vec<Kept>,
    bytes: &mut Vec<u8>,
    wants: &mut Vec<Want>,
    call: Kept,
    moved: &[u8],
    wanted: &[Want],
)
    requires bytes_are { sum_by bytes_of kept.old.items ≡ length bytes.old.items }
    requires wants_are { sum_by wants_of kept.old.items ≡ length wants.old.items }
    requires moved { bytes_of call ≡ length moved.now }
    requires wanted { wants_of call ≡ length wanted.now }
    requires kept { vec_len kept.old < vec_capacity kept.old }
    requires bytes { vec_len bytes.old + length moved.now ≤ vec_capacity bytes.old }
    requires wants { vec_len wants.old + length wanted.now ≤ vec_capacity wants.old }
    ensures calls { calls_of kept.new.items bytes.new.items wants.new.items ≡ calls_of kept.old.items bytes.old.items wants.old.items ++ call_of call moved.now wanted.now ∷ [] }
    ensures kept { kept.new.items ≡ kept.old.items ++ call ∷ [] }
    ensures bytes { bytes.new.items ≡ bytes.old.items ++ moved.now }
    ensures wants { wants.new.items ≡ wants.old.items ++ wanted.now }
    ensures bytes_are { sum_by bytes_of kept.new.items ≡ length bytes.new.items }
    ensures wants_are { sum_by wants_of kept.new.items ≡ length wants.new.items }
    ensures kept_len { vec_len kept.new ≡ vec_len kept.old + 1 }
    ensures bytes_len { vec_len bytes.new ≡ vec_len bytes.old + length moved.now }
    ensures wants_len { vec_len wants.new ≡ vec_len wants.old + length wanted.now }
    ensures kept_room { vec_capacity kept.old ≤ vec_capacity kept.new }
    ensures bytes_room { vec_capacity bytes.old ≤ vec_capacity bytes.new }
    ensures wants_room { vec_capacity wants.old ≤ vec_capacity wants.new }
{
    if let Err(_) = kept.push(call) {
        unreachable!()
    }
    if let Err(_) = bytes.extend_from_slice(moved) {
        unreachable!()
    }
    if let Err(_) = wants.extend_from_slice(wanted) {
        unreachable!()
    }
}
