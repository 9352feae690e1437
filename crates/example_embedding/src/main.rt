//! A handle in an event loop of one's own: reads an export over a Unix socket, sixteen reads at a time, and prints how many
//! bytes came and their sum. The handle does no I/O: the loop polls, reads, hands in, takes out and writes.
#![tactic(auto)]

mod sums;

ghost use Rattle.std.specs.Prelude.{◌≡◌, ◌≤◌, true, length, IfOk, IfSome};
ghost use Rattle.lnbd_history.specs.Answers.{is_living};

use lnbd_handle::Handle;
use lnbd_model::State;
use mio::unix::SourceFd;
use mio::{Events, Interest, Poll, Token};
use std::alloc::Global;
use std::io::{ErrorKind, Read, Write};
use std::os::fd::AsRawFd;
use std::os::unix::net::UnixStream;
use std::process::ExitCode;
use std::{env, io};
use sums::{Adding, Sums};

/// How many bytes one read asks for, and how many reads are in flight.
const PIECE: u64 = 65_536;

const AT_ONCE: usize = 16;

fn main(rt: HostRuntime) -> anyhow::Result<ExitCode> {
    let alloc = rt.alloc();
    let Some(path) = env::args(&rt)?.nth(1) else {
        println!(rt; "usage: example_embedding PATH")?;
        return Ok(ExitCode::from(1));
    };
    let mut stream = UnixStream::connect(&rt, path.as_str())?;
    stream.set_nonblocking(true)?;
    let mut poll = Poll::new(&rt)?;
    let both = Interest::READABLE | Interest::WRITABLE;
    poll.registry()
        .register(&mut SourceFd(&stream.as_raw_fd()), Token(0), both)?;
    let mut sums = Sums::new();
    let mut handle = Handle::create(alloc)?;
    let polled = drive(alloc, &mut handle, &mut sums, &mut poll, &mut stream);
    let closed = handle.close(&mut sums);
    polled?;
    println!(rt;
        "{} bytes, sum {}, {} failed, {} of {} callbacks freed",
        sums.bytes, sums.sum, sums.failed, closed.freed, closed.opened
    )?;
    Ok(ExitCode::from(if sums.failed == 0 { 0 } else { 4 }))
}

// Turns until the export is read and the server has ended the connection, or it died.
fn drive(
    alloc: Global,
    handle: &mut Handle<Adding>,
    sums: &mut Sums,
    poll: &mut Poll,
    stream: &mut UnixStream,
) -> anyhow::Result<()> {
    let mut events = Events::with_capacity(alloc, 8)?;
    let mut asked = 0;
    let _ = handle.start();
    for _ in 0..u64::MAX {
        if !handle.is_reading() {
            break;
        }
        poll.poll(&mut events, None)?;
        receive(handle, sums, stream);
        if let State::Ready = handle.state() {
            ask(alloc, handle, sums, &mut asked)?;
        }
        send(handle, sums, stream);
        // Nobody reads the notes of the callbacks.
        handle.clear_log();
    }
    Ok(())
}

// Issues reads up to the end of the export, and asks for the end once all of them are answered.
fn ask(
    alloc: Global,
    handle: &mut Handle<Adding>,
    sums: &mut Sums,
    asked: &mut u64,
) -> anyhow::Result<()> {
    let size = match handle.info() {
        Some(info) => info.size,
        None => 0,
    };
    for _ in handle.in_flight()..AT_ONCE {
        if *asked >= size {
            break;
        }
        let length = PIECE.min(size - *asked);
        let buf = vec![in alloc; 0u8; length as usize]?;
        let _ = handle.aio_pread(buf, *asked, Adding, 0, sums);
        *asked += length;
    }
    if handle.in_flight() == 0 {
        let _ = handle.aio_disconnect();
    }
    Ok(())
}

// Hands over what waits to go out, until nothing does or the socket takes no more.
fn send(handle: &mut Handle<Adding>, sums: &mut Sums, stream: &mut UnixStream) {
    for _ in 0..u64::MAX {
        if handle.out().is_empty() {
            return;
        }
        match stream.write(handle.out()) {
            Ok(n) => handle.wrote(n),
            Err(error) if is_early(&error) => return,
            Err(_) => return handle.link_failed(sums),
        }
    }
}

// Takes what came, until the socket has no more.
fn receive(handle: &mut Handle<Adding>, sums: &mut Sums, stream: &mut UnixStream) {
    let mut buffer = [0; PIECE as usize];
    for _ in 0..u64::MAX {
        if !handle.is_reading() {
            return;
        }
        let more = match read_placed(handle, stream) {
            Some(read) => count_placed(handle, sums, read),
            None => hand_in(handle, sums, stream, &mut buffer),
        };
        if !more {
            return;
        }
    }
}

// Reads once straight into the handle's place, where it has one.
fn read_placed(handle: &mut Handle<Adding>, stream: &mut UnixStream) -> Option<io::Result<usize>>
    ensures same { handle.new.machine ≡ handle.old.machine }
    ensures count { IfSome result (λ read. IfOk read (λ n. n ≤ length handle.new.place)) }
{
    let place = handle.place();
    if place.is_empty() {
        return None;
    }
    Some(stream.read(place))
}

// Counts what came into the handle's place. Whether more may come.
fn count_placed(handle: &mut Handle<Adding>, sums: &mut Sums, read: io::Result<usize>) -> bool
    requires { IfOk read (λ n. n ≤ length handle.old.place) }
{
    match read {
        Ok(0) => stop(handle, sums, None),
        Ok(n) => {
            handle.placed(n);
            return true;
        }
        Err(error) => stop(handle, sums, Some(error)),
    }
    false
}

// Reads once into a buffer, and hands in what came. Whether more may come.
fn hand_in(
    handle: &mut Handle<Adding>,
    sums: &mut Sums,
    stream: &mut UnixStream,
    buffer: &mut [u8],
) -> bool
    requires { is_living handle.old.machine.known.stage ≡ true }
{
    match stream.read(buffer) {
        Ok(0) => stop(handle, sums, None),
        Ok(n) => {
            if handle.arrive(&buffer[..n], sums).is_ok() {
                return true;
            }
            handle.link_failed(sums);
        }
        Err(error) => stop(handle, sums, Some(error)),
    }
    false
}

// Tells the handle of the end, or of an error that is more than an early read.
fn stop(handle: &mut Handle<Adding>, sums: &mut Sums, error: Option<io::Error>) {
    match error {
        None => handle.ended(sums),
        Some(error) if is_early(&error) => {}
        Some(_) => handle.link_failed(sums),
    }
}

fn is_early(error: &io::Error) -> bool {
    matches!(error.kind(), ErrorKind::WouldBlock | ErrorKind::Interrupted)
}
