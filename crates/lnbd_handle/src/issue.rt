//! How a command is issued, and how one is refused: what is queued, and what becomes of its callbacks. Whether it is refused
//! is not said here.

ghost use Rattle.std.specs.Prelude.{◌≡◌, ◌≤◌, ◌<◌, ◌^◌, ◌++◌, ◌==◌, [], ◌∷◌, true, false, None, Some, IfErr, IfOk, OnErr, OnOk, List, ℕ, vec_len, length, if◌then◌else◌};
ghost use Rattle.lnbd_model.specs.Kind.{has_range, is_read, is_write};
ghost use Rattle.lnbd_records.specs.Limits.{max_range};
ghost use Rattle.lnbd_history.specs.Laws.{HasItsBytes};
ghost use Rattle.lnbd_history.specs.Outgoing as sent;
ghost use Rattle.lnbd_history.specs.Refusals.{sendable_flags};
ghost use Rattle.lnbd_machine.specs.Machine.{issued};
ghost use Rattle.lnbd_machine.specs.Now.{refusal_now};
ghost use Rattle.lnbd_commands.specs.Asks.{command_of};
ghost use Rattle.lnbd_outgoing.specs.Pieces.{Writes, head_bytes};
ghost use Rattle.lnbd_outgoing.specs.Queue.{waits, AllFit};
ghost use Rattle.lnbd_handle.specs.Histories.{max_unretired};
ghost use Rattle.lnbd_handle.specs.Issues.{Faults};
ghost use Rattle.lnbd_handle.specs.Queued.{pieces_of, parts_of};
ghost use Rattle.lnbd_handle.specs.Seen.{IsSound, machine_of, state_of};

use crate::connection::Connection;
use lnbd_callbacks::Caller;
use lnbd_commands::Asked;
use lnbd_model::{Bytes, Kind, Why};
use lnbd_outgoing::{Piece, Queue, RequestBytes};
use lnbd_records::names::CMD_FLAG_PAYLOAD_LEN;
use lnbd_wire::{put_request, put_request_ext};

/// Why a command was not issued. What was handed over comes back.
#[derive(Drop)]
pub enum IssueFault<K> {
    /// Memory ran out, or the numbers did. Nothing has changed.
    NoMemory {
        buf: Bytes,
        first: Option<K>,
        done: K,
    },
    /// The command was refused, and its callbacks were freed.
    Refused {
        why: Why,
        buf: Bytes,
    },
}

/// What the head of a request says of its command.
#[derive(Clone, Copy)]
struct Head {
    kind: Kind,
    flags: u32,
    offset: u64,
    length: u64,
}

/// All that was handed over comes back.
pub(crate) fn handed_back<K>(asked: Asked<K>) -> IssueFault<K>
    ensures { result ≡ IssueFault.NoMemory asked.buf.items asked.first asked.done }
{
    let Asked {
        kind: _,
        flags: _,
        offset: _,
        length: _,
        buf,
        first,
        done,
    } = asked;
    IssueFault::NoMemory {
        buf: Bytes::from_vec(buf),
        first,
        done,
    }
}

/// Refuses a command for this reason.
pub(crate) fn refuse<K: Caller>(
    connection: &mut Connection<K>,
    world: &mut K::World,
    asked: Asked<K>,
    why: Why,
) -> IssueFault<K>
    requires sound { IsSound connection.old }
    requires why { refusal_now max_unretired (state_of connection.old) (command_of asked) ≡ Some why }
    ensures faults { (held : List ℕ) → Faults K.steps (command_of asked) result (machine_of connection.old held) (machine_of connection.new held) world.old world.new }
    ensures sound { IsSound connection.new }
{
    let Asked {
        kind: _,
        flags: _,
        offset: _,
        length: _,
        buf,
        first,
        done,
    } = asked;
    let buf = Bytes::from_vec(buf);
    match connection.commands.refuse(world, first, done) {
        Ok(()) => IssueFault::Refused { why, buf },
        Err((first, done)) => IssueFault::NoMemory { buf, first, done },
    }
}

/// The flags of an extended request: a write says that its length is that of the data behind it.
fn sent_flags(kind: Kind, flags: u32) -> u32
    requires { flags ≤ sendable_flags }
    ensures value { result ≡ sent.sent_flags kind flags }
    ensures fits { result < 2 ^ 16 }
{
    match kind {
        Kind::Write => flags + CMD_FLAG_PAYLOAD_LEN as u32,
        _ => flags,
    }
}

impl Head {
    /// What is said of this command: flush has no range.
    fn of<K>(asked: &Asked<K>) -> Head
        ensures kind { result.kind ≡ asked.now.kind }
        ensures flags { result.flags ≡ asked.now.flags }
        ensures offset { result.offset ≡ (if has_range asked.now.kind then asked.now.offset else 0) }
        ensures length { result.length ≡ (if has_range asked.now.kind then asked.now.length else 0) }
    {
        let (offset, length) = match asked.kind {
            Kind::Flush => (0, 0),
            _ => (asked.offset, asked.length),
        };
        Head {
            kind: asked.kind,
            flags: asked.flags,
            offset,
            length,
        }
    }

    /// Its bytes, whether extended headers are on or off.
    fn put(self, extended: bool, cookie: u64) -> RequestBytes
        requires flags { self.flags ≤ sendable_flags }
        requires length { extended ≡ false → self.length ≤ max_range }
        ensures { head_bytes result ≡ sent.head extended self.kind self.flags cookie self.offset self.length }
    {
        if extended {
            let flags = sent_flags(self.kind, self.flags) as u16;
            let mut head = [0; 32];
            put_request_ext(
                self.kind,
                flags,
                cookie,
                self.offset,
                self.length,
                &mut head,
            );
            RequestBytes::Extended(head)
        } else {
            let mut head = [0; 28];
            put_request(
                self.kind,
                self.flags as u16,
                cookie,
                self.offset,
                self.length as u32,
                &mut head,
            );
            RequestBytes::Compact(head)
        }
    }
}

/// How many bytes a command sends behind its head: those of a write.
fn sent_size<K>(asked: &Asked<K>) -> usize
    ensures { result ≡ (if is_write asked.now.kind then length asked.now.buf.items else 0) }
{
    match asked.kind {
        Kind::Write => asked.buf.len(),
        _ => 0,
    }
}

/// Queues a request: its head, and so many bytes behind it, which stay with their command.
fn queue_request(queue: &mut Queue, head: RequestBytes, cookie: u64, size: usize)
    requires open { queue.old.ended ≡ false }
    requires room { 2 ≤ queue.old.room }
    ensures waits { (writes : Writes) → waits writes queue.new ≡ waits writes queue.old ++ parts_of (head_bytes head) size (writes cookie) }
    ensures pieces { queue.new.pieces ≡ queue.old.pieces ++ pieces_of head cookie size }
    ensures fits { (writes : Writes) → ((size == 0) ≡ false → length (writes cookie) ≡ size) → AllFit writes queue.old.pieces → AllFit writes queue.new.pieces }
    ensures ended { queue.new.ended ≡ false }
{
    if size == 0 {
        queue.push(Piece::Whole(head));
    } else {
        queue.push_write(head, cookie, size);
    }
}

/// Issues a command that is not refused.
pub(crate) fn issue<K: Caller>(
    connection: &mut Connection<K>,
    asked: Asked<K>,
) -> Result<u64, Asked<K>>
    requires sound { IsSound connection.old }
    requires read { is_read asked.kind ≡ true → vec_len asked.buf ≡ asked.length }
    requires write { HasItsBytes (command_of asked) }
    requires accepted { refusal_now max_unretired (state_of connection.old) (command_of asked) ≡ None }
    ensures cookie { IfOk result (λ cookie. cookie ≡ (state_of connection.new).issued) }
    ensures ok { OnOk result (state_of connection.new ≡ issued (command_of asked) (state_of connection.old)) }
    ensures handed_back { IfErr result (λ back. back ≡ asked) }
    ensures err { OnErr result (state_of connection.new ≡ state_of connection.old) }
    ensures sound { IsSound connection.new }
{
    if connection.queue.reserve(2).is_err() {
        return Err(asked);
    }
    let head = Head::of(&asked);
    let size = sent_size(&asked);
    let cookie = match connection.commands.issue(asked) {
        Ok(cookie) => cookie,
        Err(asked) => return Err(asked),
    };
    let head = head.put(connection.talk.extended(), cookie);
    queue_request(&mut connection.queue, head, cookie, size);
    Ok(cookie)
}
