//! The answers that a link of a list has left. Which calls reach the link is no matter here.

ghost use Rattle.std.specs.Prelude.{◌≡◌, ◌<◌, ◌≤◌, ◌+◌, ◌-◌, ◌^◌, true, length, take, drop, min};
ghost use Rattle.lnbd_link.specs.Answers.{IfMoved, IfSent};
ghost use Rattle.lnbd_link.specs.Call.{read_told, write_told};
ghost use Rattle.lnbd_link.specs.Left.{link_of, cut, is_longer, told_of, next_read, reads_left, written_of, next_write, writes_left};

use crate::wires::{Got, Took};
use lnbd_model::Bytes;
use std::marker::Model;

/// What one read, or several, of a link in memory answer.
#[derive(Debug, Drop)]
pub enum ReadAnswer {
    /// These bytes, in parts where the slice of a read is shorter. No byte at all counts as `Failed`.
    Bytes(Bytes),
    NotReady,
    End,
    Failed,
}

/// What one write on a link in memory answers.
#[derive(Clone, Copy, Debug)]
pub enum WriteAnswer {
    /// So many of the bytes are taken, or all where fewer are offered. 0 counts as `Failed`.
    AtMost(usize),
    NotReady,
    Failed,
}

/// A link in memory: whether its connect fails, and what its reads and writes answer, in order.
#[derive(Debug, Drop)]
pub struct ListLink {
    pub fails: bool,
    /// After the last of them each read answers `End`.
    pub reads: Vec<ReadAnswer>,
    /// After the last of them each write takes all.
    pub writes: Vec<WriteAnswer>,
}

/// A link and how far its lists are used up. Contracts see what is left.
#[derive(Drop)]
pub struct Left {
    link: ListLink,
    read: usize,
    given: usize,
    write: usize,
}

impl Model for Left {
    ghost use Rattle.std.specs.Prelude.{drop};
    ghost use Rattle.lnbd_link.specs.Left.{LinkLeft, reads_from};

    ghost Value = { LinkLeft };

    ghost view = { λ a. record { fails = a.link.fails; reads = reads_from a.given (drop a.read a.link.reads.items); writes = drop a.write a.link.writes.items } };
}

impl Left {
    /// All of it is left.
    pub fn new(link: ListLink) -> Left
        ensures { result ≡ link_of link }
    {
        Left {
            link,
            read: 0,
            given: 0,
            write: 0,
        }
    }

    pub fn fails(&self) -> bool
        ensures { result ≡ self.now.fails }
    {
        self.link.fails
    }

    /// The next answer of the reads.
    pub fn read(&mut self, into: &mut [u8]) -> Got
        requires { 0 < length into.old }
        ensures told { read_told result into.new ≡ next_read self.old.reads (length into.old) }
        ensures left { self.new ≡ record self.old { reads = reads_left self.old.reads (length into.old) } }
        ensures count { IfMoved result (λ n. (0 < n) × (n ≤ length into.old)) }
    {
        if self.read >= self.link.reads.len() {
            return Got::End;
        }
        let answer = &self.link.reads[self.read];
        let room = into.len();
        let got = got_of(answer, self.given, into);
        if is_longer(answer, self.given, room) {
            self.given += room;
        } else {
            self.read += 1;
            self.given = 0;
        }
        got
    }

    /// The next answer of the writes.
    pub fn write(&mut self, from: &[u8]) -> Took
        requires { 0 < length from.now }
        ensures told { write_told result from.now ≡ next_write self.old.writes from.now }
        ensures left { self.new ≡ record self.old { writes = writes_left self.old.writes } }
        ensures count { IfSent result (λ n. (0 < n) × (n ≤ length from.now)) }
    {
        if self.write >= self.link.writes.len() {
            return Took::Bytes(from.len());
        }
        let took = took_of(self.link.writes[self.write], from);
        self.write += 1;
        took
    }
}

// What a read is answered, where so many bytes of the answer were given before.
fn got_of(answer: &ReadAnswer, given: usize, into: &mut [u8]) -> Got
    requires { 0 < length into.old }
    ensures told { read_told result into.new ≡ told_of (cut given answer.now) (length into.old) }
    ensures count { IfMoved result (λ n. (0 < n) × (n ≤ length into.old)) }
{
    match answer {
        ReadAnswer::Bytes(bytes) => match copied(bytes.as_slice(), given, into) {
            0 => Got::Failed,
            n => Got::Bytes(n),
        },
        ReadAnswer::NotReady => Got::NotReady,
        ReadAnswer::End => Got::End,
        ReadAnswer::Failed => Got::Failed,
    }
}

// Whether more bytes are left of the answer than so many.
fn is_longer(answer: &ReadAnswer, given: usize, room: usize) -> bool
    ensures value { result ≡ is_longer (cut given answer.now) room }
    ensures fits { result ≡ true → given + room < 2 ^ 64 }
{
    match answer {
        ReadAnswer::Bytes(bytes) => given < bytes.len() && room < bytes.len() - given,
        ReadAnswer::NotReady | ReadAnswer::End | ReadAnswer::Failed => false,
    }
}

// What a write is answered.
fn took_of(answer: WriteAnswer, from: &[u8]) -> Took
    requires { 0 < length from.now }
    ensures told { write_told result from.now ≡ written_of answer from.now }
    ensures count { IfSent result (λ n. (0 < n) × (n ≤ length from.now)) }
{
    match answer {
        WriteAnswer::AtMost(most) => {
            if most == 0 {
                Took::Failed
            } else {
                Took::Bytes(from.len().min(most))
            }
        }
        WriteAnswer::NotReady => Took::NotReady,
        WriteAnswer::Failed => Took::Failed,
    }
}

// Copies what fits from a place on, and tells how much.
pub fn copied(bytes: &[u8], at: usize, into: &mut [u8]) -> usize
    ensures count { result ≡ min (length bytes.now - at) (length into.old) }
    ensures moved { take result into.new ≡ take result (drop at bytes.now) }
{
    if at >= bytes.len() {
        return 0;
    }
    let rest = &bytes[at..];
    let n = rest.len().min(into.len());
    into[..n].copy_from_slice(&rest[..n]);
    n
}
