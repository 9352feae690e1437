//! A sink in memory. It tells what it took.

ghost use Rattle.std.specs.Prelude.{◌≡◌, ◌<◌, ◌≤◌, [], Some, length, IfOk};
ghost use Rattle.lnbd_link.specs.Count.{Rises};
ghost use Rattle.lnbd_link.specs.Part.{Takes};
ghost use Rattle.lnbd_link.specs.Answers.{IfSunk, SinkFailed, sunk_of};
ghost use Rattle.lnbd_link.specs.Streams.{sink_answer, sink_after};

use crate::count::{is_call, raised};
use crate::sink::{Sink, SinkTook};
use lnbd_model::NoMemory;
use std::alloc::Global;
use std::marker::Model;

/// A sink that takes bytes into memory while its room lasts. One of its calls may fail. Contracts see
/// the bytes taken, the room, and the counts of calls and faults.
#[derive(Debug, Drop)]
pub struct ListSink {
    bytes: Vec<u8>,
    room: usize,
    fail_at: Option<usize>,
    calls: usize,
    faults: u64,
}

impl Model for ListSink {
    ghost use Rattle.std.specs.Prelude.{◌≤◌, ◌+◌, vec_len, vec_capacity};
    ghost use Rattle.lnbd_link.specs.Streams.{SinkState};

    ghost Value = { SinkState };

    ghost view = { λ a. record { taken = a.bytes.items; room = a.room; fail_at = a.fail_at; calls = a.calls; faults = a.faults } };

    ghost invariant = { λ a. vec_len a.bytes + a.room ≤ vec_capacity a.bytes };
}

impl ListSink {
    /// A sink with room for so many bytes. The call of number `fail_at`, from 0, fails.
    pub fn new(alloc: Global, room: usize, fail_at: Option<usize>) -> Result<ListSink, NoMemory>
        ensures { IfOk result (λ sink. sink ≡ record { taken = []; room = room; fail_at = fail_at; calls = 0; faults = 0 }) }
    {
        Ok(ListSink {
            bytes: Vec::with_capacity(alloc, room)?,
            room,
            fail_at,
            calls: 0,
            faults: 0,
        })
    }

    /// What it took.
    pub fn bytes(&self) -> &[u8]
        ensures { result.now ≡ self.now.taken }
    {
        &self.bytes
    }
}

impl Sink for ListSink {
    ghost taken = { λ s. Some s.taken };

    ghost faults = { λ s. s.faults };

    fn write(&mut self, from: &[u8]) -> SinkTook
        requires { 0 < length from.now }
        ensures taken { Takes (Some self.old.taken) (Some self.new.taken) (sunk_of result from.now) }
        ensures count { IfSunk result (λ n. (0 < n) × (n ≤ length from.now)) }
        ensures faults { self.old.faults ≤ self.new.faults }
        ensures cause { SinkFailed result → Rises 1 self.old.faults self.new.faults }
        ensures still { IfSunk result (λ n. self.new.faults ≡ self.old.faults) }
        ensures answer { result ≡ sink_answer self.old (length from.now) }
        ensures state { self.new ≡ sink_after self.old from.now }
    {
        let call = self.calls;
        self.calls = call.saturating_add(1);
        let n = from.len().min(self.room);
        if is_call(self.fail_at, call) || n == 0 {
            self.faults = raised(self.faults, 1);
            return SinkTook::Failed;
        }
        if let Err(_) = self.bytes.extend_from_slice(&from[..n]) {
            unreachable!()
        }
        self.room -= n;
        SinkTook::Bytes(n)
    }
}
