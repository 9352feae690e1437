//! Links and listeners over the system's sockets. None of their calls waits for a peer but `connect` and
//! `pause`. They tell their counts alone.

ghost use Rattle.std.specs.Prelude.{◌≡◌, ◌≤◌, None, OnErr};
ghost use Rattle.lnbd_link.specs.Count.{Rises};

use crate::door::Door;
use crate::failure::{Asked, Failure, named};
use crate::held::Held;
use crate::socket::{Refusal, Socket};
use lnbd_link::{Accepted, Got, Took, Want, WireFailed, Wires, raised};
use lnbd_model::Target;
use mio::{Events, Poll};
use std::alloc::Global;
use std::fs::Files;
use std::io;
use std::io::ErrorKind;
use std::net::{Net, TcpListener, TcpStream};
use std::time::Duration;

/// How long is waited where a listener found no descriptor for a link: nothing tells when there is one.
const STARVED_MILLISECONDS: u64 = 100;

/// Links over TCP and Unix sockets. A link's number is that of its place, and no place is used twice.
#[derive(Drop)]
pub struct SocketWires<'a, R: Net<Listener = TcpListener, Stream = TcpStream> + Files> {
    alloc: Global,
    net: &'a R,
    sockets: Vec<Held>,
    poll: Poll,
    events: Events,
    faults: u64,
    idles: u64,
    // Of the last bytes that came on each link, how many are kept.
    room: usize,
    failure: Option<Failure>,
}

impl<'a, R: Net<Listener = TcpListener, Stream = TcpStream> + Files> SocketWires<'a, R> {
    /// No link yet. Each link takes memory for its place: where it can't be had, a connect, a listen or
    /// an accept fails.
    pub fn new(alloc: Global, net: &'a R) -> io::Result<SocketWires<'a, R>> {
        Ok(SocketWires {
            alloc,
            net,
            sockets: Vec::new(alloc),
            poll: Poll::new(net)?,
            events: Events::with_capacity(alloc, 64)?,
            faults: 0,
            idles: 0,
            room: 0,
            failure: None,
        })
    }

    /// Keeps so many of the last bytes that come on each link that is made from now on.
    pub fn keep_heard(&mut self, room: usize) {
        self.room = room;
    }

    /// The last call that failed.
    pub fn failure(&self) -> Option<&Failure> {
        self.failure.as_ref()
    }

    /// How many links and listeners there are.
    pub fn count(&self) -> usize {
        self.sockets.len()
    }

    /// Where this link leads to, and the last bytes that came on it.
    pub fn heard(&self, number: usize) -> Option<(&str, &[u8])> {
        let held = self.sockets.get(number)?;
        Some((held.place()?, held.heard()))
    }

    // Gives what was opened its number, or counts the fault and keeps why it came.
    fn placed(
        &mut self,
        asked: Asked,
        place: &Target,
        opened: io::Result<Held>,
    ) -> Result<u32, WireFailed>
        ensures faults { self.old.faults ≤ self.new.faults }
        ensures idles { self.new.idles ≡ self.old.idles }
        ensures cause { OnErr result (Rises 1 self.old.faults self.new.faults) }
    {
        match added(&mut self.sockets, opened) {
            Ok(number) => Ok(number),
            Err(error) => {
                self.faults = raised(self.faults, 1);
                if let Some(place) = named(self.alloc, place) {
                    self.failure = Failure::new(self.alloc, asked, place.as_str(), &error);
                }
                Err(WireFailed)
            }
        }
    }

    // Keeps why the last call of this socket failed. One that is shut tells nothing.
    fn blame(&mut self, asked: Asked, number: u32)
        ensures faults { self.new.faults ≡ self.old.faults }
        ensures idles { self.new.idles ≡ self.old.idles }
    {
        let alloc = self.alloc;
        if let Some(held) = self.sockets.get_mut(number as usize)
            && let Some(error) = held.take_error()
        {
            let place = held.place().unwrap_or("a client");
            self.failure = Failure::new(alloc, asked, place, &error);
        }
    }

    // Keeps the last of what came on this link.
    fn overhear(&mut self, link: u32, came: &[u8])
        ensures faults { self.new.faults ≡ self.old.faults }
        ensures idles { self.new.idles ≡ self.old.idles }
    {
        if let Some(held) = self.sockets.get_mut(link as usize) {
            held.hear_bytes(came);
        }
    }
}

impl<'a, R: Net<Listener = TcpListener, Stream = TcpStream> + Files> Wires for SocketWires<'a, R> {
    ghost told = { λ _. None };

    ghost contents = { λ _. None };

    ghost faults = { λ w. w.faults };

    ghost idles = { λ w. w.idles };

    fn connect(&mut self, to: &Target) -> Result<u32, WireFailed> {
        let number = self.sockets.len();
        let opened = connected(self.alloc, self.net, &self.poll, to, number, self.room);
        self.placed(Asked::Connect, to, opened)
    }

    fn listen(&mut self, at: &Target) -> Result<u32, WireFailed> {
        let opened = opened(self.alloc, self.net, &self.poll, at, self.sockets.len());
        self.placed(Asked::Listen, at, opened)
    }

    fn accept(&mut self, listener: u32) -> Accepted {
        look(
            &mut self.poll,
            &mut self.events,
            &mut self.sockets,
            listener,
        );
        let accepted = accepted(self.alloc, &self.poll, &mut self.sockets, listener);
        if let Accepted::Failed = accepted {
            self.faults = raised(self.faults, 1);
            self.blame(Asked::Accept, listener);
        }
        accepted
    }

    fn read(&mut self, link: u32, into: &mut [u8]) -> Got {
        look(&mut self.poll, &mut self.events, &mut self.sockets, link);
        let got = match self.sockets.get_mut(link as usize) {
            Some(held) => held.read(into),
            None => Got::Failed,
        };
        match got {
            Got::Failed => {
                self.faults = raised(self.faults, 1);
                self.blame(Asked::Read, link);
            }
            Got::Bytes(n) if self.room > 0 => self.overhear(link, &into[..n]),
            Got::Bytes(_) | Got::NotReady | Got::End => {}
        }
        got
    }

    fn write(&mut self, link: u32, from: &[u8]) -> Took {
        let took = match self.sockets.get_mut(link as usize) {
            Some(held) => held.write(from),
            None => Took::Failed,
        };
        if let Took::Failed = took {
            self.faults = raised(self.faults, 1);
            self.blame(Asked::Write, link);
        }
        took
    }

    // Waits where none of the wanted may be ready already and one can become so. A wait that fails counts as one
    // that ended.
    fn pause(&mut self, wants: &[Want]) {
        match waiting(&self.poll, &mut self.sockets, wants) {
            Waited::Not => {}
            Waited::Shortly => wait(
                &mut self.poll,
                &mut self.events,
                &mut self.sockets,
                Some(Duration::from_millis(STARVED_MILLISECONDS)),
            ),
            Waited::Long => wait(&mut self.poll, &mut self.events, &mut self.sockets, None),
        }
        self.idles = raised(self.idles, 1);
    }

    fn shut(&mut self, link: u32) {
        if let Some(held) = self.sockets.get_mut(link as usize)
            && let Some(file) = held.shut()
        {
            file.remove(self.net);
        }
    }

    fn faults(&self) -> u64 {
        self.faults
    }

    fn idles(&self) -> u64 {
        self.idles
    }
}

/// How long a pause waits.
#[derive(Clone, Copy, PartialEq, Eq)]
enum Waited {
    Not,
    Shortly,
    Long,
}

// Has the poll tell of what is wanted. It is waited for where none of it may be ready already, and one can become so; and
// shortly where one of them can't be told.
fn waiting(poll: &Poll, sockets: &mut Vec<Held>, wants: &[Want]) -> Waited {
    let mut due = false;
    let mut listens = false;
    let mut starved = false;
    for want in wants {
        let number = want.link as usize;
        if let Some(held) = sockets.get_mut(number) {
            due = due || held.is_due(want.direction);
            listens = held.listens(poll, number, want.direction) || listens;
            starved = starved || held.is_starved();
        }
    }
    match (listens && !due, starved) {
        (false, _) => Waited::Not,
        (true, true) => Waited::Shortly,
        (true, false) => Waited::Long,
    }
}

// Asks the poll without waiting where calls of this socket were answered from what is known, and nothing was told since. So each is
// looked at at its third call at the latest, and all of them by one call of the system.
fn look(poll: &mut Poll, events: &mut Events, sockets: &mut Vec<Held>, number: u32) {
    let is_stale = match sockets.get(number as usize) {
        Some(held) => held.is_stale(),
        None => false,
    };
    if is_stale {
        wait(poll, events, sockets, Some(Duration::ZERO));
    }
}

// Waits for an event, so long at most, and tells each socket of its own. Where that fails, each socket's next call is made.
fn wait(poll: &mut Poll, events: &mut Events, sockets: &mut Vec<Held>, most: Option<Duration>) {
    let told = poll.poll(events, most);
    for held in sockets.iter_mut() {
        held.refresh(told.is_ok());
    }
    for event in events.iter() {
        if let Some(held) = sockets.get_mut(event.token().0) {
            held.hear(event);
        }
    }
}

// A link to this address, of which the poll tells by its number, and so many of whose last bytes are kept.
fn connected<R: Net<Listener = TcpListener, Stream = TcpStream>>(
    alloc: Global,
    net: &R,
    poll: &Poll,
    to: &Target,
    number: usize,
    room: usize,
) -> io::Result<Held> {
    let mut held = Held::link(alloc, poll, Socket::connect(net, to)?, number, false)?;
    held.remember(named(alloc, to), room);
    Ok(held)
}

// A listener at this address, of which the poll tells by its number.
fn opened<R: Net<Listener = TcpListener, Stream = TcpStream> + Files>(
    alloc: Global,
    net: &R,
    poll: &Poll,
    at: &Target,
    number: usize,
) -> io::Result<Held> {
    let mut held = Held::door(alloc, poll, Door::open(alloc, net, at)?, number)?;
    held.remember(named(alloc, at), 0);
    Ok(held)
}

// Gives what was opened a place, if there is one.
fn added(sockets: &mut Vec<Held>, opened: io::Result<Held>) -> io::Result<u32> {
    let number = u32::try_from(sockets.len()).map_err(|_| ErrorKind::OutOfMemory)?;
    sockets.push(opened?).map_err(|_| ErrorKind::OutOfMemory)?;
    Ok(number)
}

// A link from a peer of this listener, with a place. A peer for whose link there is no room is sent away.
fn accepted(alloc: Global, poll: &Poll, sockets: &mut Vec<Held>, listener: u32) -> Accepted {
    let number = sockets.len();
    let accepted = match sockets.get_mut(listener as usize) {
        Some(held) => held.accept(),
        None => return Accepted::Failed,
    };
    match accepted {
        Ok(socket) => match added(sockets, Held::link(alloc, poll, socket, number, true)) {
            Ok(link) => Accepted::Link(link),
            Err(_) => Accepted::NotReady,
        },
        Err(Refusal::Failed) => Accepted::Failed,
        Err(Refusal::NoPeer | Refusal::Again | Refusal::Starved) => Accepted::NotReady,
    }
}
