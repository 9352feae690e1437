//! Whole negotiations, turn by turn, with the bytes that go either way.

use crate::support::note_row;
use lnbd_history::{OptAnswer, Phase};
use lnbd_model::{Breach, Cause, Text, Texts};
use lnbd_negotiate::{
    Config, Greeted, Next, Seen, Talk, TalkFault, abort_request, client_flags, look, look_by_name,
    look_hello,
};
use lnbd_options::OptionHead;
use std::alloc::Global;
use std::test::Fail;

/// GO for the empty name, which asks for NAME, DESCRIPTION and BLOCK_SIZE.
const GO: &[u8] = b"IHAVEOPT\0\0\0\x07\0\0\0\x0c\0\0\0\0\0\x03\0\x01\0\x02\0\x03";

/// An export of 1 MiB with the flags 1.
const EXPORT: &[u8] = b"\0\0\0\0\0\0\0\x10\0\0\0\x01";

/// EXTENDED_HEADERS and STRUCTURED_REPLY.
const EXTENDED: &[u8] = b"IHAVEOPT\0\0\0\x0b\0\0\0\0";

const STRUCTURED: &[u8] = b"IHAVEOPT\0\0\0\x08\0\0\0\0";

/// The kinds of replies: an acknowledgement, a server and an export told, and the errors of an option that is not supported, not known, or that
/// asks for TLS first.
const ACK: u32 = 1;

const SERVER: u32 = 2;

const INFO: u32 = 3;

const UNSUPPORTED: u32 = 0x8000_0001;

const UNKNOWN: u32 = 0x8000_0006;

const TLS_REQUIRED: u32 = 0x8000_0005;

/// What a side does.
#[derive(Clone, Copy)]
enum Does {
    /// The server greets with these handshake flags.
    Hello(u16),
    /// It answers an option, with a reply of this kind and these data.
    Reply(u32, u32, &'static [u8]),
    /// It answers EXPORT_NAME with a size and flags.
    ByName(u64, u16),
    /// The caller asks an option.
    Asks(u32),
}

/// A turn of a talk.
enum Turn {
    /// What a side does, what comes next, and the bytes that then go out.
    On(Does, Next, &'static [u8]),
    /// What a side does, and the cause for which the connection is dead. Nothing goes out.
    Death(Does, Cause),
}

struct Session {
    shows: &'static str,
    /// Whether structured replies, extended headers, opt mode and base:allocation of the export 'd' are asked for.
    structured: bool,
    extended: bool,
    opt_mode: bool,
    allocation: bool,
    turns: &'static [Turn],
    /// What is then told: the export's size, how many exports were listed, and the last answer in opt mode.
    size: u64,
    listed: u32,
    answer: Option<OptAnswer>,
    /// Whether extended headers and structured replies are then on.
    on: (bool, bool),
}

const SESSION: Session = Session {
    shows: "",
    structured: false,
    extended: false,
    opt_mode: false,
    allocation: false,
    turns: &[],
    size: 0,
    listed: 0,
    answer: None,
    on: (false, false),
};

static SESSIONS: [Session; 7] = [
    Session {
        shows: "GO tells the export",
        turns: &[
            Turn::On(Does::Hello(3), Next::Wait, GO),
            Turn::On(Does::Reply(7, INFO, EXPORT), Next::Wait, b""),
            Turn::On(Does::Reply(7, ACK, b""), Next::Ready, b""),
        ],
        size: 1_048_576,
        ..SESSION
    },
    Session {
        shows: "the export is asked by name where GO is not supported",
        turns: &[
            Turn::On(Does::Hello(1), Next::Wait, GO),
            Turn::On(
                Does::Reply(7, UNSUPPORTED, b""),
                Next::WaitExport,
                b"IHAVEOPT\0\0\0\x01\0\0\0\0",
            ),
            Turn::On(Does::ByName(4096, 1), Next::Ready, b""),
        ],
        size: 4096,
        ..SESSION
    },
    Session {
        shows: "a hello of another style and another error of GO end it",
        turns: &[
            Turn::Death(Does::Hello(2), Cause::Broke(Breach::NotFixed)),
            Turn::On(Does::Hello(1), Next::Wait, GO),
            Turn::Death(
                Does::Reply(7, TLS_REQUIRED, b""),
                Cause::Refused { option: 7, code: 5 },
            ),
        ],
        ..SESSION
    },
    Session {
        shows: "the caller asks in opt mode",
        structured: true,
        opt_mode: true,
        turns: &[
            Turn::On(Does::Hello(3), Next::Wait, STRUCTURED),
            Turn::On(Does::Reply(8, ACK, b""), Next::Caller, b""),
            Turn::On(Does::Asks(3), Next::Caller, b"IHAVEOPT\0\0\0\x03\0\0\0\0"),
            Turn::On(Does::Reply(3, SERVER, b"\0\0\0\x01ax"), Next::Wait, b""),
            Turn::On(Does::Reply(3, ACK, b""), Next::Caller, b""),
            Turn::On(
                Does::Asks(6),
                Next::Caller,
                b"IHAVEOPT\0\0\0\x06\0\0\0\x0c\0\0\0\0\0\x03\0\x01\0\x02\0\x03",
            ),
            Turn::On(Does::Reply(6, UNKNOWN, b""), Next::Caller, b""),
        ],
        listed: 1,
        answer: Some(OptAnswer::Refused { option: 6, code: 6 }),
        on: (false, true),
        ..SESSION
    },
    Session {
        shows: "contexts are asked for behind structured replies",
        structured: true,
        allocation: true,
        turns: &[
            Turn::On(Does::Hello(3), Next::Wait, STRUCTURED),
            Turn::On(
                Does::Reply(8, ACK, b""),
                Next::Wait,
                b"IHAVEOPT\0\0\0\x0a\0\0\0\x1c\0\0\0\x01d\0\0\0\x01\0\0\0\x0fbase:allocation",
            ),
        ],
        on: (false, true),
        ..SESSION
    },
    Session {
        shows: "extended headers bring structured replies",
        structured: true,
        extended: true,
        turns: &[
            Turn::On(Does::Hello(3), Next::Wait, EXTENDED),
            Turn::On(Does::Reply(11, ACK, b""), Next::Wait, GO),
        ],
        on: (true, true),
        ..SESSION
    },
    Session {
        shows: "structured replies are asked for where extended headers are refused",
        structured: true,
        extended: true,
        turns: &[
            Turn::On(Does::Hello(3), Next::Wait, EXTENDED),
            Turn::On(Does::Reply(11, UNSUPPORTED, b""), Next::Wait, STRUCTURED),
            Turn::On(Does::Reply(8, UNSUPPORTED, b""), Next::Wait, GO),
        ],
        ..SESSION
    },
];

/// A talk that has not begun, with what a session asks for.
fn begun(alloc: Global, session: &Session) -> Result<Talk, Fail> {
    let config = Config {
        name: Text::empty(alloc),
        contexts: Texts::new(alloc),
        structured: false,
        extended: false,
        opt_mode: false,
    };
    let mut talk = Talk::new(alloc, config);
    talk.set_structured(session.structured);
    talk.set_extended(session.extended);
    talk.set_opt_mode(session.opt_mode);
    if session.allocation && talk.wanted() < 16 {
        talk.set_name(Text::from_bytes(alloc, b"d")?);
        talk.add_context(Text::from_bytes(alloc, b"base:allocation")?)?;
    }
    Ok(talk)
}

/// What comes next once a side has done something. Memory is wanting where it may not do so now.
fn take(talk: &mut Talk, does: Does, out: &mut Vec<u8>) -> Result<Next, TalkFault> {
    match (does, talk.phase()) {
        (Does::Hello(flags), Phase::Greeting) => talk.hello(flags, out),
        (Does::Reply(option, kind, body), _) => {
            let head = OptionHead {
                option,
                kind,
                length: u32::try_from(body.len()).unwrap_or(0),
            };
            talk.apply(&head, body, out)
        }
        (Does::ByName(size, flags), Phase::AskedByName) => talk.export_told(size, flags),
        (Does::Asks(option), Phase::OptMode) => {
            talk.ask(option, out)?;
            Ok(Next::Caller)
        }
        _ => Err(TalkFault::NoMemory),
    }
}

/// Whether a turn leads to what it says.
fn leads(talk: &mut Talk, alloc: Global, turn: &Turn) -> bool {
    let (does, next, bytes): (Does, Result<Next, TalkFault>, &[u8]) = match turn {
        Turn::On(does, next, bytes) => (*does, Ok(*next), *bytes),
        Turn::Death(does, cause) => (*does, Err(TalkFault::Cause(*cause)), b""),
    };
    let mut out = Vec::new(alloc);
    take(talk, does, &mut out) == next && out.as_slice() == bytes
}

/// Whether each turn of a session does.
fn all_lead(talk: &mut Talk, alloc: Global, session: &Session) -> bool {
    let mut leads_on = true;
    for turn in session.turns {
        leads_on = leads_on && leads(talk, alloc, turn);
    }
    leads_on
}

/// Whether the talk then tells what the session says.
fn tells(talk: &Talk, session: &Session) -> bool {
    let size = match talk.info() {
        Some(info) => info.size,
        None => 0,
    };
    size == session.size
        && talk.listed().len() == session.listed as usize
        && talk.answer() == session.answer
        && talk.extended() == session.on.0
        && talk.structured() == session.on.1
}

#[test]
fn talks_go_as_the_protocol_says(rt: HostRuntime) -> Result<(), Fail> {
    let mut wrong = String::new(rt.alloc());
    for session in &SESSIONS {
        let mut talk = begun(rt.alloc(), session)?;
        let holds = all_lead(&mut talk, rt.alloc(), session) && tells(&talk, session);
        note_row(&mut wrong, session.shows, holds)?;
    }
    assert_eq!(rt; wrong.as_str(), "");
    Ok(())
}

/// An acknowledgement of GO.
const ACKNOWLEDGED: &[u8] = b"\0\x03\xe8\x89\x04\x55\x65\xa9\0\0\0\x07\0\0\0\x01\0\0\0\0";

static FRONTS: [(Phase, &[u8], Seen); 4] = [
    (Phase::Asked(7), b"IHAVEOP", Seen::Nothing),
    (
        Phase::Asked(7),
        b"IHAVEOPT",
        Seen::Broken(Breach::BadOptionMagic),
    ),
    (
        Phase::Asked(7),
        ACKNOWLEDGED,
        Seen::Whole(OptionHead {
            option: 7,
            kind: 1,
            length: 0,
        }),
    ),
    (
        Phase::OptMode,
        ACKNOWLEDGED,
        Seen::Broken(Breach::WrongOption),
    ),
];

static HELLOS: [(&[u8], Greeted); 4] = [
    (b"NBDMAGICIHAVEOPT\0", Greeted::Nothing),
    (b"NBDMAGICIHAVEOPT\0\x03", Greeted::Whole(3)),
    (b"NBDMAGIX", Greeted::Broken(Breach::BadHello)),
    (
        b"NBDMAGIC\0\0\x42\x02\x81\x86\x12\x53",
        Greeted::Broken(Breach::OldStyle),
    ),
];

/// Whether each front of a reply shows what its row says.
fn fronts_show() -> bool {
    let mut shows = true;
    for (phase, bytes, seen) in &FRONTS {
        shows = shows && look(*phase, bytes) == *seen;
    }
    shows
}

/// The same of a hello.
fn hellos_show() -> bool {
    let mut shows = true;
    for (bytes, greeted) in &HELLOS {
        shows = shows && look_hello(bytes) == *greeted;
    }
    shows
}

#[test]
fn fronts_are_seen(rt: HostRuntime) {
    let told = b"\0\0\0\0\0\0\x10\0\0\x01";
    let named = look_by_name(true, told) == Some((4096, 1)) && look_by_name(false, told).is_none();
    let requests = abort_request() == *b"IHAVEOPT\0\0\0\x02\0\0\0\0"
        && client_flags(0xffff) == [0, 0, 0, 3];
    assert!(rt; fronts_show() && hellos_show() && named && requests);
}
