//! Bytes that were read from a link and that its handle has not taken.

ghost use Rattle.std.specs.Prelude.{◌≡◌, ◌≤◌, ◌<◌, [], ◌==◌, true, false, length, drop, IfOk, OnOk};
ghost use Rattle.lnbd_link.specs.Answers.{IfMoved, ReadFailed};
ghost use Rattle.lnbd_link.specs.Call.{Read, read_told};
ghost use Rattle.lnbd_link.specs.Contents.{Keeps};
ghost use Rattle.lnbd_link.specs.Count.{Rises};
ghost use Rattle.lnbd_link.specs.Part.{Adds};
ghost use Rattle.lnbd_poll.specs.Seen.{is_empty, gives_bytes, inbox_room};

use lnbd_link::{Got, Wires};
use lnbd_model::NoMemory;
use std::alloc::Global;
use std::marker::Model;

/// How many bytes one read may give.
const ROOM: usize = 65_536;

/// Room for what one read gives. Contracts see the bytes that were read and not yet taken.
#[derive(Drop)]
pub struct Inbox {
    buffer: Vec<u8>,
    from: usize,
    to: usize,
}

impl Model for Inbox {
    ghost use Rattle.std.specs.Prelude.{◌≡◌, ◌≤◌, ◌-◌, ℕ, List, vec_len, take, drop};

    ghost Value = { List ℕ };

    ghost view = { λ a. take (a.to - a.from) (drop a.from a.buffer.items) };

    ghost invariant = { λ a. (vec_len a.buffer ≡ 65536) × (a.from ≤ a.to) × (a.to ≤ 65536) };
}

impl Inbox {
    /// An inbox without bytes.
    pub fn new(alloc: Global) -> Result<Inbox, NoMemory>
        ensures { IfOk result (λ inbox. inbox ≡ []) }
    {
        Ok(Inbox {
            buffer: vec![in alloc; 0; ROOM]?,
            from: 0,
            to: 0,
        })
    }

    /// How many bytes are left to take.
    pub fn len(&self) -> usize
        ensures { result ≡ length self.now }
    {
        self.to - self.from
    }

    /// Whether no byte is left to take.
    pub fn is_empty(&self) -> bool
        ensures { result ≡ is_empty self.now }
    {
        self.from == self.to
    }

    /// The bytes that are left to take.
    pub(crate) fn bytes(&self) -> &[u8]
        ensures { result.now ≡ self.now }
    {
        &self.buffer[self.from..self.to]
    }

    /// Drops the first bytes, which were taken.
    pub(crate) fn take(&mut self, n: usize)
        requires { n ≤ length self.old }
        ensures { self.new ≡ drop n self.old }
    {
        self.from += n;
    }

    /// Reads once from a link, into all of the room.
    pub(crate) fn read<W: Wires>(&mut self, wires: &mut W, link: u32) -> Got
        requires { is_empty self.old ≡ true }
        ensures told { Adds (W.told wires.old) (W.told wires.new) (Read link inbox_room (read_told result self.new)) }
        ensures count { IfMoved result (λ n. (0 < n) × (n ≡ length self.new)) }
        ensures none { gives_bytes result ≡ false → self.new ≡ [] }
        ensures contents { Keeps (W.contents wires.old) (W.contents wires.new) }
        ensures faults { W.faults wires.old ≤ W.faults wires.new }
        ensures cause { ReadFailed result → Rises 1 (W.faults wires.old) (W.faults wires.new) }
        ensures idles { W.idles wires.old ≤ W.idles wires.new }
    {
        let got = wires.read(link, &mut self.buffer);
        self.from = 0;
        self.to = got.moved();
        got
    }
}
