//! A socket, and whether its next call may find something. The system tells only of changes, so a socket is
//! waited for where its last call found nothing more and no event came since; and no call is made of it meanwhile.

ghost use Rattle.std.specs.Prelude.{◌<◌, ◌≤◌, length};
ghost use Rattle.lnbd_link.specs.Answers.{IfMoved, IfSent};

use crate::door::{Door, SocketFile};
use crate::socket::{Refusal, Socket, Trouble};
use lnbd_link::{Got, Took};
use mio::event::Event;
use mio::unix::SourceFd;
use mio::{Interest, Poll, Token};
use std::alloc::Global;
use std::io;
use std::io::ErrorKind;

/// How many calls in a row are answered from what is known. One that asks and awaits the answer reads twice in vain before it waits: right behind its
/// question, and in the turn that finds nothing left to do.
const ANSWERED: u32 = 2;

/// A link or a listener that a poll tells of.
#[derive(Drop)]
pub struct Held {
    socket: Socket,
    // A listener of the other family of addresses, under the same number.
    beside: Option<Socket>,
    // The file that was made for it.
    file: Option<SocketFile>,
    // Whether the peer came to a listener: what becomes of it is then its own matter.
    was_accepted: bool,
    // Whether a write found that the peer is gone from the net.
    is_lost: bool,
    // Whether the last accept found no descriptor or memory. Nothing tells when there is one again.
    is_starved: bool,
    // That there may be bytes, a peer or an end to be had, and that bytes may be taken.
    may_read: bool,
    may_write: bool,
    // Whether the peer's end was told: behind a read that finds less than it has room for it is still to be found.
    has_ended: bool,
    // Whether the last write was taken in part, so that another at once would find no room.
    is_full: bool,
    // How many calls were answered from what is known since the poll was asked last.
    answered: u32,
    // Whether the poll tells of writing too, beside reading.
    tells_writing: bool,
    // Where it leads to, or listens.
    place: Option<String>,
    // Why its last call failed.
    error: Option<io::Error>,
    // The last bytes of what came last, as many as there is room for.
    heard: Vec<u8>,
}

impl Held {
    /// Has the poll tell of a link by its number. None of its calls has been made yet.
    pub fn link(
        alloc: Global,
        poll: &Poll,
        socket: Socket,
        number: usize,
        was_accepted: bool,
    ) -> io::Result<Held> {
        register(poll, &socket, number)?;
        Ok(Held {
            socket,
            beside: None,
            file: None,
            was_accepted,
            is_lost: false,
            is_starved: false,
            may_read: true,
            may_write: true,
            has_ended: false,
            is_full: false,
            answered: 0,
            tells_writing: false,
            place: None,
            error: None,
            heard: Vec::new(alloc),
        })
    }

    /// Has the poll tell of a listener by its number. No peer has been asked for yet.
    pub fn door(alloc: Global, poll: &Poll, door: Door, number: usize) -> io::Result<Held> {
        if let Some(beside) = &door.beside {
            register(poll, beside, number)?;
        }
        let mut held = Held::link(alloc, poll, door.listener, number, false)?;
        held.beside = door.beside;
        held.file = door.file;
        Ok(held)
    }

    /// What the peer sent, or that it is gone.
    pub fn read(&mut self, into: &mut [u8]) -> Got
        requires { 0 < length into.old }
        ensures { IfMoved result (λ n. (0 < n) × (n ≤ length into.old)) }
    {
        if self.is_lost {
            return Got::End;
        }
        if !self.may_read {
            self.answered = self.answered.saturating_add(1);
            return Got::NotReady;
        }
        let room = into.len();
        let got = match self.socket.read(into) {
            Ok(0) => Got::End,
            Ok(n) => Got::Bytes(n),
            Err(error) => match Trouble::of(&error, self.was_accepted) {
                Trouble::Later => Got::NotReady,
                Trouble::Gone | Trouble::Lost => Got::End,
                Trouble::Failed => {
                    self.error = Some(error);
                    Got::Failed
                }
            },
        };
        self.may_read = match got {
            Got::Bytes(n) => n == room || self.has_ended,
            Got::NotReady => false,
            Got::End | Got::Failed => true,
        };
        got
    }

    /// Hands over bytes for the peer. Those for a peer that reads no more are taken and dropped, as the system does with
    /// what it took before the peer left: reading then tells the end.
    pub fn write(&mut self, from: &[u8]) -> Took
        requires { 0 < length from.now }
        ensures { IfSent result (λ n. (0 < n) × (n ≤ length from.now)) }
    {
        if self.is_full {
            self.is_full = false;
            return Took::NotReady;
        }
        let took = match self.socket.write(from) {
            Ok(0) => Took::Failed,
            Ok(n) => Took::Bytes(n),
            Err(error) => match Trouble::of(&error, self.was_accepted) {
                Trouble::Later => Took::NotReady,
                Trouble::Gone => Took::Bytes(from.len()),
                Trouble::Lost => {
                    self.is_lost = true;
                    Took::Bytes(from.len())
                }
                Trouble::Failed => {
                    self.error = Some(error);
                    Took::Failed
                }
            },
        };
        self.is_full = matches!(took, Took::Bytes(n) if n < from.len());
        self.may_write = !self.is_full && !matches!(took, Took::NotReady);
        took
    }

    /// A link from a peer that waits.
    pub fn accept(&mut self) -> Result<Socket, Refusal> {
        if !self.may_read {
            self.answered = self.answered.saturating_add(1);
            return Err(Refusal::NoPeer);
        }
        let accepted = match (self.socket.accept(), &self.beside) {
            (Err(Refusal::NoPeer), Some(beside)) => beside.accept(),
            (accepted, _) => accepted,
        };
        self.is_starved = matches!(accepted, Err(Refusal::Starved));
        self.may_read = !matches!(accepted, Err(Refusal::NoPeer | Refusal::Starved));
        accepted
    }

    /// Closes the socket, of which the poll then tells no more, and gives the file that was made for it.
    pub fn shut(&mut self) -> Option<SocketFile> {
        self.socket = Socket::Shut;
        self.beside = None;
        self.doubt();
        self.file.take()
    }

    /// Keeps where it leads to, and room for so many of the last bytes that come.
    pub fn remember(&mut self, place: Option<String>, room: usize) {
        self.place = place;
        let _ = self.heard.reserve_exact(room);
    }

    /// Keeps the last of the bytes that came, as many as there is room for.
    pub fn hear_bytes(&mut self, came: &[u8]) {
        let kept = came.len().min(self.heard.capacity());
        self.heard.clear();
        let _ = self.heard.extend_from_slice(&came[came.len() - kept..]);
    }

    pub fn place(&self) -> Option<&str> {
        self.place.as_deref()
    }

    pub fn heard(&self) -> &[u8] {
        self.heard.as_slice()
    }

    /// Why its last call failed, where the system said so.
    pub fn take_error(&mut self) -> Option<io::Error> {
        self.error.take()
    }

    /// Whether a wait for it has to end by itself.
    pub fn is_starved(&self) -> bool {
        self.is_starved
    }

    /// Nothing is known of it any more, so that its next calls are made.
    pub fn doubt(&mut self) {
        self.may_read = true;
        self.may_write = true;
        self.is_full = false;
    }

    /// Whether the poll is to be asked before its next read: what was known has been given as an answer often enough.
    pub fn is_stale(&self) -> bool {
        self.answered >= ANSWERED && !self.may_read
    }

    /// The poll was asked. Where it told nothing, nothing is known any more; nor of what it can't tell.
    pub fn refresh(&mut self, was_told: bool) {
        self.answered = 0;
        if !was_told || self.is_starved {
            self.is_starved = false;
            self.doubt();
        }
    }

    /// What the system tells of it.
    pub fn hear(&mut self, event: &Event) {
        let failed = event.is_error();
        if failed || event.is_readable() || event.is_read_closed() {
            self.may_read = true;
        }
        if failed || event.is_writable() || event.is_write_closed() {
            self.may_write = true;
            self.is_full = false;
        }
        if failed || event.is_read_closed() {
            self.has_ended = true;
        }
    }

    /// Whether nothing is to be waited for in this direction: 1 is reading, 2 writing, and 3 both. A link that is
    /// wanted for both waits to be written only where its last write found it full, and then to be read only where
    /// its last read found no byte: a server wants each of its links for both, reads no further where a client takes
    /// no reply, and would else never wait at all.
    pub fn is_due(&self, direction: u32) -> bool {
        match direction {
            _ if self.socket.fd().is_none() => false,
            1 => self.may_read,
            2 => self.may_write,
            3 => self.may_write && self.may_read,
            _ => false,
        }
    }

    /// Has the poll tell of writing where that is waited for, and no more where it isn't: each byte that a peer takes
    /// would else end a wait. Whether a wait can end by this socket.
    pub fn listens(&mut self, poll: &Poll, number: usize, direction: u32) -> bool {
        let Some(fd) = self.socket.fd() else {
            return false;
        };
        let wants_writing = !self.may_write && matches!(direction, 2 | 3);
        if wants_writing != self.tells_writing && (wants_writing || self.may_write) {
            let interest = if wants_writing {
                Interest::READABLE | Interest::WRITABLE
            } else {
                Interest::READABLE
            };
            let told = poll
                .registry()
                .reregister(&mut SourceFd(&fd), Token(number), interest);
            if told.is_err() {
                return false;
            }
            self.tells_writing = wants_writing;
        }
        matches!(direction, 1..=3)
    }
}

// Has the poll tell of reading, or of peers that come.
fn register(poll: &Poll, socket: &Socket, number: usize) -> io::Result<()> {
    let fd = socket.fd().ok_or(ErrorKind::NotConnected)?;
    poll.registry()
        .register(&mut SourceFd(&fd), Token(number), Interest::READABLE)
}
