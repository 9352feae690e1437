//! The standard streams as a source and as sinks. Nothing is kept back: what a write took has left. They
//! tell their counts alone. One that was given as a stream that doesn't wait is waited for.

ghost use Rattle.std.specs.Prelude.{◌≡◌, ◌≤◌, ◌<◌, None, length, IfOk};

use lnbd_link::{Sink, SinkTook, Source, SourceGot, raised};
use mio::unix::SourceFd;
use mio::{Events, Interest, Poll, Token};
use std::alloc::Global;
use std::fs::{File, Files, OpenOptions};
use std::io;
use std::io::{ErrorKind, Read};
use std::net::Net;
use std::os::fd::{AsRawFd, RawFd};

/// What stands for a standard stream that was closed.
const NOTHING: &str = "/dev/null";

/// The standard streams' numbers, and how many they are.
const INPUT: RawFd = 0;

const OUTPUT: RawFd = 1;

const ERROR: RawFd = 2;

const STREAMS: RawFd = 3;

/// Opens what is closed of the standard streams, so that nothing that is opened later gets the number of one of them, and is
/// read or written in its place. They stay open as long as what is answered does.
pub fn fill_streams<R: Files<File = File>>(alloc: Global, files: &R) -> io::Result<Vec<File>> {
    let mut held = Vec::new(alloc);
    for _ in 0..STREAMS {
        let file = OpenOptions::new()
            .read(true)
            .write(true)
            .open(files, NOTHING)?;
        if file.as_raw_fd() >= STREAMS {
            break;
        }
        held.push(file)?;
    }
    Ok(held)
}

/// Waits for one standard stream that was given as one that doesn't wait, as a pipe of some parents is.
#[derive(Drop)]
struct Waiter<'a, R: Net> {
    net: &'a R,
    alloc: Global,
    stream: RawFd,
    interest: Interest,
}

impl<'a, R: Net> Waiter<'a, R> {
    // Waits until the stream may move bytes. Whether it could wait.
    fn wait(&self) -> bool {
        self.poll().is_ok()
    }

    fn poll(&self) -> io::Result<()> {
        let mut poll = Poll::new(self.net)?;
        let mut events = Events::with_capacity(self.alloc, 1)?;
        poll.registry()
            .register(&mut SourceFd(&self.stream), Token(0), self.interest)?;
        poll.poll(&mut events, None)
    }
}

/// A source over a reader, as standard input.
#[derive(Drop)]
pub struct ReaderSource<'a, R: Net, I: Read + Drop> {
    reader: I,
    waiter: Waiter<'a, R>,
    faults: u64,
}

impl<'a, R: Net, I: Read + Drop> ReaderSource<'a, R, I> {
    /// Over the reader of standard input.
    pub fn input(alloc: Global, net: &'a R, reader: I) -> Self {
        ReaderSource {
            reader,
            waiter: Waiter {
                net,
                alloc,
                stream: INPUT,
                interest: Interest::READABLE,
            },
            faults: 0,
        }
    }
}

impl<'a, R: Net, I: Read + Drop> Source for ReaderSource<'a, R, I> {
    ghost left = { λ _. None };

    ghost faults = { λ s. s.faults };

    fn read(&mut self, into: &mut [u8]) -> SourceGot {
        match got(&mut self.reader, &self.waiter, into) {
            Ok(0) => SourceGot::End,
            Ok(n) => SourceGot::Bytes(n),
            Err(_) => {
                self.faults = raised(self.faults, 1);
                SourceGot::Failed
            }
        }
    }
}

// What a reader gives, waited for.
fn got<R: Net, I: Read>(
    reader: &mut I,
    waiter: &Waiter<'_, R>,
    into: &mut [u8],
) -> io::Result<usize>
    ensures { IfOk result (λ n. n ≤ length into.old) }
{
    for _ in 0..u64::MAX {
        match reader.read(into) {
            Err(error) if error.kind() == ErrorKind::WouldBlock && waiter.wait() => {}
            told => return told,
        }
    }
    Err(io::Error::from(ErrorKind::WouldBlock))
}

/// A sink over a stream, as standard output. A stream that takes nothing, or that nobody reads, fails.
#[derive(Drop)]
pub struct PrintSink<'a, R: Net, P: Print> {
    to: &'a P,
    waiter: Waiter<'a, R>,
    faults: u64,
    // The first bytes that it took, as many as there is room for.
    kept: Vec<u8>,
}

impl<'a, R: Net, P: Print> PrintSink<'a, R, P> {
    /// Over standard output.
    pub fn output(alloc: Global, net: &'a R, to: &'a P) -> Self {
        PrintSink::over(alloc, net, to, OUTPUT)
    }

    /// Over standard error.
    pub fn error(alloc: Global, net: &'a R, to: &'a P) -> Self {
        PrintSink::over(alloc, net, to, ERROR)
    }

    fn over(alloc: Global, net: &'a R, to: &'a P, stream: RawFd) -> Self {
        PrintSink {
            to,
            waiter: Waiter {
                net,
                alloc,
                stream,
                interest: Interest::WRITABLE,
            },
            faults: 0,
            kept: Vec::new(alloc),
        }
    }

    /// Keeps so many of the first bytes that are taken from now on.
    pub fn keep(&mut self, room: usize) {
        let _ = self.kept.reserve_exact(room);
    }

    /// The bytes that were kept.
    pub fn kept(&self) -> &[u8] {
        self.kept.as_slice()
    }

    // Keeps what there is room for.
    fn keep_front(&mut self, taken: &[u8])
        ensures { self.new.faults ≡ self.old.faults }
    {
        let room = self.kept.capacity().saturating_sub(self.kept.len());
        let _ = self.kept.extend_from_slice(&taken[..room.min(taken.len())]);
    }
}

impl<'a, R: Net, P: Print> Sink for PrintSink<'a, R, P> {
    ghost taken = { λ _. None };

    ghost faults = { λ s. s.faults };

    fn write(&mut self, from: &[u8]) -> SinkTook {
        match taken(self.to, &self.waiter, from) {
            Ok(n) if n > 0 => {
                self.keep_front(&from[..n]);
                SinkTook::Bytes(n)
            }
            _ => {
                self.faults = raised(self.faults, 1);
                SinkTook::Failed
            }
        }
    }
}

// How many bytes a stream takes, waited for.
fn taken<R: Net, P: Print>(to: &P, waiter: &Waiter<'_, R>, from: &[u8]) -> io::Result<usize>
    ensures { IfOk result (λ n. n ≤ length from.now) }
{
    for _ in 0..u64::MAX {
        match to.write_some(from) {
            Err(error) if error.kind() == ErrorKind::WouldBlock && waiter.wait() => {}
            told => return told,
        }
    }
    Err(io::Error::from(ErrorKind::WouldBlock))
}
