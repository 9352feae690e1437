//! Each kind of wires by rows of calls.

use crate::asks::Ask::{Accept, Connect, Faults, Idles, Listen, Pause, Read, Shut, Write};
use crate::asks::{Ask, play, same};
use crate::peer::{Peer, Told, address, link_of, wires_to};
use lnbd_inbound::InboundWires;
use lnbd_link::{ListSink, ListSource, Sink, SinkTook, Source, SourceGot, WriteAnswer, raised};
use lnbd_model::Target;
use lnbd_sockets::{ReaderSource, SocketWires};
use std::alloc::{AllocError, Global};
use std::test::Fail;

/// A peer to which no connect succeeds.
const UNREACHABLE: Peer<'static> = Peer {
    fails: true,
    reads: &[Told::Bytes(b"hello")],
    writes: &[],
};

/// A peer with an answer of each kind.
const CHANGEFUL: Peer<'static> = Peer {
    fails: false,
    reads: &[
        Told::Bytes(b"hello"),
        Told::Nothing,
        Told::Failure,
        Told::Bytes(b""),
        Told::End,
    ],
    writes: &[
        WriteAnswer::AtMost(2),
        WriteAnswer::NotReady,
        WriteAnswer::Failed,
        WriteAnswer::AtMost(0),
    ],
};

/// The first connect fails, the second gives the number 1, and a third finds no link.
const READS: &[Ask] = &[
    Connect,
    Connect,
    Connect,
    Faults,
    Read(0),
    Read(1),
    Read(1),
    Read(1),
    Read(1),
    Read(1),
    Read(1),
    Read(1),
    Faults,
    Shut(1),
    Read(1),
];

const READS_ANSWERED: &str =
    "failed, 1, failed, 2, failed, 3 hel, 2 lo., not ready, failed, failed, end, end, 5, , failed, ";

const WRITES: &[Ask] = &[
    Connect,
    Connect,
    Write(1),
    Write(1),
    Write(1),
    Write(1),
    Write(1),
    Faults,
    Listen,
    Accept(1),
    Faults,
    Pause,
    Idles,
];

const WRITES_ANSWERED: &str =
    "failed, 1, 2, not ready, failed, failed, 5, 3, failed, failed, 5, , 3, ";

/// Two connects take 3 each of a room of 11, a read of 3 bytes 4, and 1 is left.
const PAST_THE_ROOM: &[Ask] = &[
    Connect,
    Connect,
    Read(1),
    Read(1),
    Faults,
    Shut(1),
    Pause,
    Faults,
    Idles,
];

const PAST_THE_ROOM_ANSWERED: &str = "failed, 1, 3 hel, failed, 2, , , 4, 3, ";

/// A listener has its peers once, whose connects are no matter.
const ACCEPTS: &[Ask] = &[
    Listen,
    Accept(0),
    Accept(0),
    Read(1),
    Faults,
    Connect,
    Accept(7),
    Faults,
];

const ACCEPTS_ANSWERED: &str = "0, 1, not ready, 3 hel, 0, failed, failed, 2, ";

/// Where no socket is, nothing is had.
const NO_SOCKET: &[Ask] = &[
    Connect,
    Listen,
    Accept(0),
    Read(0),
    Write(0),
    Faults,
    Pause,
    Idles,
];

const NO_SOCKET_ANSWERED: &str = "failed, failed, failed, failed, failed, 5, , 1, ";

// A function for each kind of wires: one in which all of them are alive is proved in minutes.

/// Calls of wires to listed peers with so much room.
fn listed(alloc: Global, to: &Target, room: usize, asks: &[Ask]) -> Result<String, Fail> {
    let mut wires = wires_to(alloc, &UNREACHABLE, &CHANGEFUL, room, 3)?;
    Ok(play(alloc, &mut wires, asks, to)?)
}

/// Calls of wires by which a peer comes in.
fn inbound(alloc: Global, to: &Target, asks: &[Ask]) -> Result<String, Fail> {
    let links = vec![in alloc; link_of(alloc, &UNREACHABLE)?]?;
    let mut wires = InboundWires::new(alloc, links, 100, 3)?;
    Ok(play(alloc, &mut wires, asks, to)?)
}

#[test]
fn calls_of_wires_in_memory_are_answered(rt: HostRuntime) -> Result<(), Fail> {
    let alloc = rt.alloc();
    let to = address(alloc, b"ab")?;
    same(
        &rt,
        listed(alloc, &to, 1000, READS)?.as_str(),
        READS_ANSWERED,
    );
    same(
        &rt,
        listed(alloc, &to, 1000, WRITES)?.as_str(),
        WRITES_ANSWERED,
    );
    same(
        &rt,
        listed(alloc, &to, 11, PAST_THE_ROOM)?.as_str(),
        PAST_THE_ROOM_ANSWERED,
    );
    same(
        &rt,
        inbound(alloc, &to, ACCEPTS)?.as_str(),
        ACCEPTS_ANSWERED,
    );
    Ok(())
}

#[test]
fn calls_of_wires_over_sockets_are_answered(rt: HostRuntime) -> Result<(), Fail> {
    let alloc = rt.alloc();
    let nowhere = address(alloc, b"/no/such/socket")?;
    let mut wires = SocketWires::new(alloc, &rt)?;
    same(
        &rt,
        play(alloc, &mut wires, NO_SOCKET, &nowhere)?.as_str(),
        NO_SOCKET_ANSWERED,
    );
    Ok(())
}

/// What four reads of two bytes answer.
fn push_reads<S: Source>(text: &mut String, source: &mut S) -> Result<(), AllocError> {
    let mut into = [0; 2];
    for _ in 0..4 {
        match source.read(&mut into) {
            SourceGot::Bytes(n) => write!(text, "{n}")?,
            SourceGot::End => text.push_str("end")?,
            SourceGot::Failed => text.push_str("failed")?,
        }
        text.push_str(", ")?;
    }
    Ok(())
}

/// What four writes of three bytes answer, and what was taken.
fn push_writes(text: &mut String, sink: &mut ListSink) -> Result<(), AllocError> {
    for _ in 0..4 {
        match sink.write(b"abc") {
            SinkTook::Bytes(n) => write!(text, "{n}")?,
            SinkTook::Failed => text.push_str("failed")?,
        }
        text.push_str(", ")?;
    }
    text.push_str(std::str::from_utf8(sink.bytes()).unwrap_or("?"))
}

#[test]
fn streams_are_answered(rt: HostRuntime) -> Result<(), Fail> {
    let alloc = rt.alloc();
    let mut found = String::new(alloc);
    let mut listed = ListSource::new(b"abc".to_vec(alloc)?, Some(1));
    push_reads(&mut found, &mut listed)?;
    let mut reader = ReaderSource::input(alloc, &rt, b"abc".as_slice());
    push_reads(&mut found, &mut reader)?;
    let mut sink = ListSink::new(alloc, 4, Some(1))?;
    push_writes(&mut found, &mut sink)?;
    write!(found, " {}", raised(u64::MAX - 1, 3))?;
    same(
        &rt,
        found.as_str(),
        "2, failed, 1, end, 2, 1, end, end, 3, failed, 1, failed, abca 18446744073709551615",
    );
    Ok(())
}
