//! How plays begin: what a server says until a handle is ready, and what a handle asks for it. Bytes and steps alone.

use crate::play::{Setting, Step};

/// NBDMAGIC, IHAVEOPT and the flags FIXED_NEWSTYLE and NO_ZEROES.
pub const HELLO: &[u8] = b"NBDMAGICIHAVEOPT\0\x03";

pub const CLIENT_FLAGS: &[u8] = b"\0\0\0\x03";

/// GO's reply for an export of 1 MiB with the flags 1, and its ACK.
pub const GO: &[u8] =
    b"\0\x03\xe8\x89\x04\x55\x65\xa9\0\0\0\x07\0\0\0\x03\0\0\0\x0c\0\0\0\0\0\0\0\x10\0\0\0\x01\
\0\x03\xe8\x89\x04\x55\x65\xa9\0\0\0\x07\0\0\0\x01\0\0\0\0";

/// The same with READ_ONLY; and with every command and flag offered.
const GO_READ_ONLY: &[u8] =
    b"\0\x03\xe8\x89\x04\x55\x65\xa9\0\0\0\x07\0\0\0\x03\0\0\0\x0c\0\0\0\0\0\0\0\x10\0\0\0\x03\
\0\x03\xe8\x89\x04\x55\x65\xa9\0\0\0\x07\0\0\0\x01\0\0\0\0";

const GO_FULL: &[u8] =
    b"\0\x03\xe8\x89\x04\x55\x65\xa9\0\0\0\x07\0\0\0\x03\0\0\0\x0c\0\0\0\0\0\0\0\x10\0\0\x0c\x6d\
\0\x03\xe8\x89\x04\x55\x65\xa9\0\0\0\x07\0\0\0\x01\0\0\0\0";

/// The same with block sizes: at least 512, best 4,096, at most 65,536 bytes.
const GO_BLOCKS: &[u8] =
    b"\0\x03\xe8\x89\x04\x55\x65\xa9\0\0\0\x07\0\0\0\x03\0\0\0\x0c\0\0\0\0\0\0\0\x10\0\0\x0c\x6d\
\0\x03\xe8\x89\x04\x55\x65\xa9\0\0\0\x07\0\0\0\x03\0\0\0\x0e\0\x03\0\0\x02\0\0\0\x10\0\0\x01\0\0\
\0\x03\xe8\x89\x04\x55\x65\xa9\0\0\0\x07\0\0\0\x01\0\0\0\0";

/// An export of 4,096 bytes with the flags 1.
const GO_SMALL: &[u8] =
    b"\0\x03\xe8\x89\x04\x55\x65\xa9\0\0\0\x07\0\0\0\x03\0\0\0\x0c\0\0\0\0\0\0\0\0\x10\0\0\x01\
\0\x03\xe8\x89\x04\x55\x65\xa9\0\0\0\x07\0\0\0\x01\0\0\0\0";

/// GO for the empty name, with NAME, DESCRIPTION and BLOCK_SIZE.
pub const GO_REQUEST: &[u8] = b"IHAVEOPT\0\0\0\x07\0\0\0\x0c\0\0\0\0\0\x03\0\x01\0\x02\0\x03";

/// The requests of STRUCTURED_REPLY and of EXTENDED_HEADERS, and their ACKs.
const STRUCTURED_REQUEST: &[u8] = b"IHAVEOPT\0\0\0\x08\0\0\0\0";

const STRUCTURED_ACK: &[u8] = b"\0\x03\xe8\x89\x04\x55\x65\xa9\0\0\0\x08\0\0\0\x01\0\0\0\0";

pub const EXTENDED_REQUEST: &[u8] = b"IHAVEOPT\0\0\0\x0b\0\0\0\0";

pub const EXTENDED_ACK: &[u8] = b"\0\x03\xe8\x89\x04\x55\x65\xa9\0\0\0\x0b\0\0\0\x01\0\0\0\0";

/// SET_META_CONTEXT's reply that `base:allocation` has the number 7, or 1, and its ACK.
const CONTEXT_SEVEN: &[u8] =
    b"\0\x03\xe8\x89\x04\x55\x65\xa9\0\0\0\x0a\0\0\0\x04\0\0\0\x13\0\0\0\x07base:allocation\
\0\x03\xe8\x89\x04\x55\x65\xa9\0\0\0\x0a\0\0\0\x01\0\0\0\0";

const CONTEXT_ONE: &[u8] =
    b"\0\x03\xe8\x89\x04\x55\x65\xa9\0\0\0\x0a\0\0\0\x04\0\0\0\x13\0\0\0\x01base:allocation\
\0\x03\xe8\x89\x04\x55\x65\xa9\0\0\0\x0a\0\0\0\x01\0\0\0\0";

/// Nothing but the start.
pub const STARTED: &[Step<'static>] = &[Step::Start];

/// GO was asked and is not answered.
pub const ASKING: &[Step<'static>] = &[Step::Start, Step::Comes(HELLO)];

/// Ready, with an export of 1 MiB and the flags 1.
pub const READY: &[Step<'static>] = &[Step::Start, Step::Comes(HELLO), Step::Comes(GO)];

/// The same, of which all requests went out.
pub const BARE: &[Step<'static>] = &[
    Step::Start,
    Step::Comes(HELLO),
    Step::Comes(GO),
    Step::Goes(2),
];

pub const READ_ONLY: &[Step<'static>] = &[
    Step::Start,
    Step::Comes(HELLO),
    Step::Comes(GO_READ_ONLY),
    Step::Goes(2),
];

pub const FULL: &[Step<'static>] = &[
    Step::Start,
    Step::Comes(HELLO),
    Step::Comes(GO_FULL),
    Step::Goes(2),
];

pub const BLOCKS: &[Step<'static>] = &[
    Step::Start,
    Step::Comes(HELLO),
    Step::Comes(GO_BLOCKS),
    Step::Goes(2),
];

pub const SMALL: &[Step<'static>] = &[
    Step::Start,
    Step::Comes(HELLO),
    Step::Comes(GO_SMALL),
    Step::Goes(2),
];

/// In opt mode.
pub const OPT_MODE: &[Step<'static>] = &[
    Step::Sets(Setting::OptMode(true)),
    Step::Start,
    Step::Comes(HELLO),
    Step::Sends(CLIENT_FLAGS),
];

/// Ready with structured replies.
pub const STRUCTURED: &[Step<'static>] = &[
    Step::Sets(Setting::Structured(true)),
    Step::Sets(Setting::Extended(false)),
    Step::Start,
    Step::Comes(HELLO),
    Step::Sends(CLIENT_FLAGS),
    Step::Sends(STRUCTURED_REQUEST),
    Step::Comes(STRUCTURED_ACK),
    Step::Sends(GO_REQUEST),
    Step::Comes(GO),
];

/// The same with every command, and the context of the number 7.
pub const STRUCTURED_FULL: &[Step<'static>] = &[
    Step::Sets(Setting::Structured(true)),
    Step::Sets(Setting::Contexts(1)),
    Step::Start,
    Step::Comes(HELLO),
    Step::Comes(STRUCTURED_ACK),
    Step::Comes(CONTEXT_SEVEN),
    Step::Comes(GO_FULL),
    Step::Goes(4),
];

/// Ready with extended headers.
pub const EXTENDED: &[Step<'static>] = &[
    Step::Sets(Setting::Structured(false)),
    Step::Sets(Setting::Extended(true)),
    Step::Start,
    Step::Comes(HELLO),
    Step::Sends(CLIENT_FLAGS),
    Step::Sends(EXTENDED_REQUEST),
    Step::Comes(EXTENDED_ACK),
    Step::Sends(GO_REQUEST),
    Step::Comes(GO),
];

/// The same with every command, and the context of the number 1.
pub const EXTENDED_FULL: &[Step<'static>] = &[
    Step::Sets(Setting::Extended(true)),
    Step::Sets(Setting::Contexts(1)),
    Step::Start,
    Step::Comes(HELLO),
    Step::Comes(EXTENDED_ACK),
    Step::Comes(CONTEXT_ONE),
    Step::Comes(GO_FULL),
    Step::Goes(4),
];
