//! Handles over links in memory: what each call answers, and which handle gets which bytes. The replies are spelled as the NBD
//! protocol has them.

use crate::asks::same;
use crate::party::Deed::{Count, Done, Join, Part, Pause, Pread, State, Take, Turn};
use crate::party::{Deed, Keeper, Party, word_of};
use crate::peer::{Peer, Told, address, wires_to};
use lnbd_handle::Handle;
use lnbd_link::{Wires, WriteAnswer};
use lnbd_poll::{Inbox, Noticed, notify_read, notify_write};
use std::alloc::{AllocError, Global};
use std::test::Fail;

/// The server's hello.
const HELLO: &[u8] = b"NBDMAGICIHAVEOPT\0\x03";

/// GO's reply for an export of 1 MiB with the flags 1, and its ACK.
const GO: &[u8] =
    b"\0\x03\xe8\x89\x04\x55\x65\xa9\0\0\0\x07\0\0\0\x03\0\0\0\x0c\0\0\0\0\0\0\0\x10\0\0\0\x01\
\0\x03\xe8\x89\x04\x55\x65\xa9\0\0\0\x07\0\0\0\x01\0\0\0\0";

/// Replies to a read of one byte with the cookie 1: of 0x77, and of 0x99.
const SEVENS: &[u8] = b"\x67\x44\x66\x98\0\0\0\0\0\0\0\0\0\0\0\x01\x77";

const NINES: &[u8] = b"\x67\x44\x66\x98\0\0\0\0\0\0\0\0\0\0\0\x01\x99";

/// A reply to a cookie that no command has.
const STRANGE: &[u8] = b"\x67\x44\x66\x98\0\0\0\0\0\0\0\0\0\0\0\x09";

/// A peer that sends nothing and takes all.
const SILENT: Peer<'static> = Peer {
    fails: false,
    reads: &[],
    writes: &[],
};

/// The one's reply comes late, and then a strange one.
const LATE: Peer<'static> = Peer {
    reads: &[
        Told::Bytes(HELLO),
        Told::Bytes(GO),
        Told::Nothing,
        Told::Bytes(SEVENS),
        Told::Bytes(STRANGE),
    ],
    ..SILENT
};

/// The other's comes at once, and then nothing for a while.
const PROMPT: Peer<'static> = Peer {
    reads: &[
        Told::Bytes(HELLO),
        Told::Bytes(GO),
        Told::Bytes(NINES),
        Told::Nothing,
        Told::Nothing,
        Told::Nothing,
    ],
    ..SILENT
};

/// The hellos; then the client's flags, GO and its answer. The requests go out, and the reply of link 1 comes first. A breach on
/// link 0 leaves the handle of link 1 ready. Nothing has come; then link 1 ends.
const OWN_LINKS: &[Deed] = &[
    Join { starts: true },
    Join { starts: true },
    Turn,
    Turn,
    State(0),
    Pread(0),
    Pread(1),
    Turn,
    Done(0),
    Done(1),
    Turn,
    Done(0),
    Turn,
    State(0),
    State(1),
    Turn,
    Part(0),
    Part(1),
    State(1),
];

const OWN_LINKS_ANSWERED: &str =
    "0, 1, 36, 168, ready, 1, 1, 73, not yet, 153, 17, 119, 16, dead by a strange cookie, ready, still, still, 0, dead by the end, 1 callbacks, 1 callbacks, ";

/// Handles are held in order, and those behind one that is taken out move down.
const IN_ORDER: &[Deed] = &[
    Count,
    Join { starts: false },
    Join { starts: true },
    State(0),
    State(1),
    Pause,
    Take(0),
    Count,
    State(0),
    State(1),
];

const IN_ORDER_ANSWERED: &str =
    "0, 0, 1, created, negotiating, 1, 0, 1, negotiating, no handle, 0 callbacks, ";

/// What these deeds answer where the links are to these peers.
fn played(
    alloc: Global,
    first: &Peer,
    second: &Peer,
    room: usize,
    deeds: &[Deed],
) -> Result<String, Fail> {
    let party = Party::of(alloc, wires_to(alloc, first, second, room, 1)?);
    Ok(party.play(deeds)?)
}

#[test]
fn each_handle_takes_the_bytes_of_its_own_link(rt: HostRuntime) -> Result<(), Fail> {
    let alloc = rt.alloc();
    same(
        &rt,
        played(alloc, &LATE, &PROMPT, 10_000, OWN_LINKS)?.as_str(),
        OWN_LINKS_ANSWERED,
    );
    same(
        &rt,
        played(alloc, &SILENT, &SILENT, 1_000, IN_ORDER)?.as_str(),
        IN_ORDER_ANSWERED,
    );
    Ok(())
}

fn push_noticed(text: &mut String, noticed: Noticed) -> Result<(), AllocError> {
    match noticed {
        Noticed::Moved(n) => write!(text, "{n}, "),
        Noticed::NotReady => text.push_str("not ready, "),
        Noticed::Idle => text.push_str("idle, "),
        Noticed::Ended => text.push_str("ended, "),
        Noticed::LinkFailed => text.push_str("failed, "),
        Noticed::NoMemory => text.push_str("no memory, "),
    }
}

/// Peers that greet, say nothing yet, end the connection, and fail.
const GREETING: Peer<'static> = Peer {
    reads: &[Told::Bytes(HELLO)],
    ..SILENT
};

const QUIET: Peer<'static> = Peer {
    reads: &[Told::Nothing],
    ..SILENT
};

const ENDING: Peer<'static> = Peer {
    reads: &[Told::End],
    ..SILENT
};

const FAILING: Peer<'static> = Peer {
    reads: &[Told::Failure],
    ..SILENT
};

/// What a read of a handle notices, started or not, where its link is to this peer.
fn read_noticed(alloc: Global, peer: &Peer, starts: bool) -> Result<Noticed, Fail> {
    let mut wires = wires_to(alloc, peer, &SILENT, 1_000, 1)?;
    let to = address(alloc, b"ab")?;
    let link = wires.connect(&to)?;
    let mut inbox = Inbox::new(alloc)?;
    let mut world = 0;
    let mut handle: Handle<Keeper> = Handle::create(alloc)?;
    let started = starts && handle.start().is_ok();
    let noticed = notify_read(&mut handle, &mut inbox, &mut wires, link, &mut world);
    handle.close(&mut world);
    if started == starts {
        Ok(noticed)
    } else {
        Ok(Noticed::NoMemory)
    }
}

/// Of the client's flags three bytes go out first, then none, and then the link fails.
const FALTERING: Peer<'static> = Peer {
    writes: &[
        WriteAnswer::AtMost(3),
        WriteAnswer::NotReady,
        WriteAnswer::Failed,
    ],
    ..SILENT
};

/// What four writes of a handle notice, of which the first comes before the server's hello, and where the handle then stands.
fn push_writes(text: &mut String, alloc: Global) -> Result<(), Fail> {
    let mut wires = wires_to(alloc, &FALTERING, &SILENT, 1_000, 1)?;
    let to = address(alloc, b"ab")?;
    let link = wires.connect(&to)?;
    let mut world = 0;
    let mut handle: Handle<Keeper> = Handle::create(alloc)?;
    let started = handle.start().is_ok();
    let first = notify_write(&mut handle, &mut wires, link);
    let greeted = handle.direction() != 0 && handle.arrive(HELLO, &mut world).is_ok();
    let second = notify_write(&mut handle, &mut wires, link);
    let third = notify_write(&mut handle, &mut wires, link);
    let fourth = notify_write(&mut handle, &mut wires, link);
    let state = handle.state();
    handle.close(&mut world);
    if started && greeted {
        for noticed in [first, second, third, fourth] {
            push_noticed(text, noticed)?;
        }
    }
    text.push_str(word_of(state))?;
    Ok(())
}

#[test]
fn reads_and_writes_notice_what_the_wires_answered(rt: HostRuntime) -> Result<(), Fail> {
    let alloc = rt.alloc();
    let mut found = String::new(alloc);
    for (peer, starts) in [
        (&GREETING, true),
        (&QUIET, true),
        (&ENDING, true),
        (&FAILING, true),
        (&GREETING, false),
    ] {
        push_noticed(&mut found, read_noticed(alloc, peer, starts)?)?;
    }
    push_writes(&mut found, alloc)?;
    same(
        &rt,
        found.as_str(),
        "18, not ready, ended, failed, idle, idle, 3, not ready, failed, negotiating",
    );
    Ok(())
}
