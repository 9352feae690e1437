//! What replies say of their commands: simple ones, and chunks of a read and of a block status, by the protocol's rules and this project's
//! profile of faults.

use crate::support::note_row;
use lnbd_model::{Breach, Context, Contexts, Extent, Failure, Kind, Origin, Text};
use lnbd_simple::{Settled, settle};
use lnbd_structured::{
    Assembly, ChunkFault, Effect, Judged, descriptors_in, extended_descriptors_in, put_data,
    put_zeros,
};
use lnbd_wire::ExtHead;
use std::alloc::Global;
use std::test::Fail;

const BROKE: Settled = Settled::Broke(Breach::SimpleForRead);

/// A command's kind, whether structured replies are on, the error of its simple reply, and what the command comes to.
static SETTLED: [(Kind, bool, u32, Settled); 12] = [
    (Kind::Read, true, 0, BROKE),
    (Kind::Read, true, 5, BROKE),
    (Kind::Read, false, 0, Settled::Done),
    (Kind::Read, false, 5, Settled::Failed(5)),
    (Kind::Write, true, 0, Settled::Done),
    (Kind::Write, false, 28, Settled::Failed(28)),
    (Kind::Flush, true, 108, Settled::Failed(108)),
    (Kind::Trim, false, 71, Settled::Failed(22)),
    (Kind::Cache, false, 95, Settled::Failed(95)),
    (Kind::Zero, true, 4_294_967_295, Settled::Failed(22)),
    (Kind::BlockStatus, true, 0, Settled::Failed(71)),
    (Kind::BlockStatus, true, 22, Settled::Failed(22)),
];

#[test]
fn a_simple_reply_settles_its_command(rt: HostRuntime) {
    let mut all = true;
    for (kind, structured, error, want) in &SETTLED {
        all = all && settle(*kind, *structured, *error) == *want;
    }
    assert!(rt; all);
}

/// The types of chunks.
const DATA: u16 = 1;

const HOLE: u16 = 2;

const STATUS: u16 = 5;

const EXTENDED_STATUS: u16 = 6;

const ERROR: u16 = 0x8001;

const ERROR_AT: u16 = 0x8002;

/// The flag of a command's last chunk.
const LAST: u16 = 1;

/// The flags of commands: all content in one chunk, and one descriptor a meta context.
const DF: u32 = 4;

const REQ_ONE: u32 = 8;

/// The fixed numbers of a payload.
#[derive(Clone, Copy)]
enum Fixed {
    /// The place and the size of content, which is also the form of a meta context's number with extended headers, and the count behind it.
    Content(u64, u32),
    /// An error's number, the length of its message, and its place.
    Error(u32, u16, u64),
}

impl Fixed {
    fn bytes(self) -> [u8; 16] {
        let mut bytes = [0; 16];
        match self {
            Fixed::Content(place, size) => {
                bytes[..8].copy_from_slice(&place.to_be_bytes());
                bytes[8..12].copy_from_slice(&size.to_be_bytes());
            }
            Fixed::Error(number, message, place) => {
                bytes[..4].copy_from_slice(&number.to_be_bytes());
                bytes[4..6].copy_from_slice(&message.to_be_bytes());
                bytes[6..14].copy_from_slice(&place.to_be_bytes());
            }
        }
        bytes
    }
}

/// A chunk with its payload.
#[derive(Clone, Copy)]
enum Chunk {
    /// So many bytes from a place on.
    Data(u64, u32),
    /// So many zeros from a place on.
    Hole(u64, u32),
    /// An error with a place and a message of three bytes.
    Error(u32, u64),
    /// Extents of a meta context.
    Status(u32, &'static [Extent]),
    /// Another one, by its flags, its type, the length of its payload, and the fixed numbers of that.
    Other(u16, u16, u64, Fixed),
}

impl Chunk {
    /// Its flags, its type and the length of its payload.
    fn head(self) -> ExtHead {
        let (flags, kind, length) = match self {
            Chunk::Data(_, size) => (0, DATA, 8 + u64::from(size)),
            Chunk::Hole(..) => (0, HOLE, 12),
            Chunk::Error(..) => (0, ERROR_AT, 17),
            Chunk::Status(..) => (0, STATUS, 12),
            Chunk::Other(flags, kind, length, _) => (flags, kind, length),
        };
        ExtHead {
            flags,
            kind,
            cookie: 1,
            offset: 0,
            length,
        }
    }

    /// The fixed numbers of its payload.
    fn fixed(self) -> [u8; 16] {
        let fixed = match self {
            Chunk::Data(place, size) | Chunk::Hole(place, size) => Fixed::Content(place, size),
            Chunk::Error(number, place) => Fixed::Error(number, 3, place),
            Chunk::Status(id, _) => Fixed::Error(id, 0, 0),
            Chunk::Other(_, _, _, fixed) => fixed,
        };
        fixed.bytes()
    }

    /// Its descriptors.
    fn entries(self) -> &'static [Extent] {
        match self {
            Chunk::Status(_, entries) => entries,
            _ => &[],
        }
    }
}

/// What a chunk asks for, or why it isn't taken.
#[derive(Clone, Copy)]
enum Wants {
    /// Content from a place on, of so many bytes.
    Place(u64, u64),
    Zeros(u64, u64),
    /// A meta context was told, or an error of the place 1008.
    Told(u32),
    Error(u32),
    /// What it tells is at fault.
    Nothing,
    Breach(Breach),
}

impl Wants {
    fn result(self) -> Result<Effect, ChunkFault> {
        Ok(match self {
            Wants::Place(offset, length) => Effect::Place { offset, length },
            Wants::Zeros(offset, length) => Effect::Hole { offset, length },
            Wants::Told(context) => Effect::Told { context },
            Wants::Error(error) => Effect::Error {
                offset: Some(1008),
                error,
            },
            Wants::Nothing => Effect::Nothing,
            Wants::Breach(breach) => return Err(ChunkFault::Breach(breach)),
        })
    }
}

const SOME: Extent = Extent {
    length: 4096,
    flags: 3,
};

const EMPTY: Extent = Extent {
    length: 0,
    flags: 0,
};

/// A chunk of no zeros, which is at fault.
const NO_ZEROS: Chunk = Chunk::Hole(1000, 0);

/// A command, the chunks that come for it with what each asks for, the answer of its callback to the last, and what it comes to at its end.
struct Command {
    shows: &'static str,
    kind: Kind,
    flags: u32,
    offset: u64,
    length: u64,
    /// How often the first chunk comes.
    times: u32,
    chunks: &'static [(Chunk, Wants)],
    heard: u32,
    failure: Option<Failure>,
}

/// A read of 16 bytes from place 1000 on, whose content is at fault.
const READ: Command = Command {
    shows: "",
    kind: Kind::Read,
    flags: 0,
    offset: 1000,
    length: 16,
    times: 1,
    chunks: &[],
    heard: 0,
    failure: CONTENT,
};

/// A block status that is told of two meta contexts, 1 and 2.
const BLOCK_STATUS: Command = Command {
    kind: Kind::BlockStatus,
    offset: 0,
    length: 8192,
    ..READ
};

const CONTENT: Option<Failure> = Some(Failure {
    origin: Origin::Content,
    error: 71,
});

const OUT_OF_RANGE: Wants = Wants::Breach(Breach::OutOfRange);

const TOO_MANY: Wants = Wants::Breach(Breach::TooManyErrors);

static COMMANDS: [Command; 18] = [
    Command {
        shows: "a gap",
        chunks: &[
            (Chunk::Data(1000, 8), Wants::Place(1000, 8)),
            (Chunk::Data(1009, 7), Wants::Place(1009, 7)),
        ],
        ..READ
    },
    Command {
        shows: "all of it",
        chunks: &[
            (Chunk::Data(1000, 8), Wants::Place(1000, 8)),
            (Chunk::Hole(1008, 8), Wants::Zeros(1008, 8)),
        ],
        failure: None,
        ..READ
    },
    Command {
        shows: "over the last byte",
        chunks: &[
            (Chunk::Data(1000, 8), Wants::Place(1000, 8)),
            (Chunk::Data(1007, 9), Wants::Nothing),
        ],
        ..READ
    },
    Command {
        shows: "a second chunk where one was to have all",
        flags: DF,
        chunks: &[
            (Chunk::Data(1000, 8), Wants::Place(1000, 8)),
            (Chunk::Data(1008, 8), Wants::Nothing),
        ],
        ..READ
    },
    Command {
        shows: "no zeros in the middle",
        chunks: &[
            (Chunk::Data(1000, 16), Wants::Place(1000, 16)),
            (Chunk::Hole(1008, 0), Wants::Nothing),
        ],
        ..READ
    },
    Command {
        shows: "no zeros at the end",
        chunks: &[
            (Chunk::Data(1000, 16), Wants::Place(1000, 16)),
            (Chunk::Hole(1016, 0), Wants::Nothing),
        ],
        ..READ
    },
    Command {
        shows: "no zeros behind the end, zeros over it, and data before the first byte or over 2^64",
        chunks: &[
            (Chunk::Data(1000, 16), Wants::Place(1000, 16)),
            (Chunk::Hole(1017, 0), OUT_OF_RANGE),
            (Chunk::Hole(1016, 1), OUT_OF_RANGE),
            (Chunk::Data(999, 1), OUT_OF_RANGE),
            (Chunk::Data(18446744073709551615, 2), OUT_OF_RANGE),
        ],
        failure: None,
        ..READ
    },
    Command {
        shows: "a read near 2^64",
        offset: 18446744073709551599,
        chunks: &[
            (
                Chunk::Hole(18446744073709551599, 15),
                Wants::Zeros(18446744073709551599, 15),
            ),
            (
                Chunk::Data(18446744073709551614, 1),
                Wants::Place(18446744073709551614, 1),
            ),
        ],
        failure: None,
        ..READ
    },
    Command {
        shows: "1,024 faults, and then only the last chunk",
        times: 1024,
        chunks: &[
            (NO_ZEROS, Wants::Nothing),
            (NO_ZEROS, TOO_MANY),
            (
                Chunk::Other(LAST, ERROR, 6, Fixed::Error(5, 0, 0)),
                TOO_MANY,
            ),
            (
                Chunk::Other(LAST, 0, 0, Fixed::Content(0, 0)),
                Wants::Nothing,
            ),
        ],
        ..READ
    },
    Command {
        shows: "what the peer told stands before what the callback says",
        chunks: &[(Chunk::Error(5, 1008), Wants::Error(5))],
        heard: 12,
        failure: Some(Failure {
            origin: Origin::Told,
            error: 5,
        }),
        ..READ
    },
    Command {
        shows: "a number that isn't known is 22",
        chunks: &[(Chunk::Error(71, 1008), Wants::Error(22))],
        heard: 12,
        failure: Some(Failure {
            origin: Origin::Told,
            error: 22,
        }),
        ..READ
    },
    Command {
        shows: "what the callback says stands before what is lacking",
        heard: 12,
        failure: Some(Failure {
            origin: Origin::Callback,
            error: 12,
        }),
        ..READ
    },
    Command {
        shows: "nothing came",
        ..READ
    },
    Command {
        shows: "both meta contexts",
        chunks: &[
            (Chunk::Status(1, &[SOME]), Wants::Told(1)),
            (Chunk::Status(2, &[SOME, SOME]), Wants::Told(2)),
        ],
        failure: None,
        ..BLOCK_STATUS
    },
    Command {
        shows: "a meta context told twice",
        chunks: &[
            (Chunk::Status(1, &[SOME]), Wants::Told(1)),
            (Chunk::Status(1, &[SOME, SOME]), Wants::Nothing),
        ],
        ..BLOCK_STATUS
    },
    Command {
        shows: "a meta context that is not agreed",
        chunks: &[
            (Chunk::Status(1, &[SOME]), Wants::Told(1)),
            (Chunk::Status(9, &[SOME, SOME]), Wants::Nothing),
        ],
        ..BLOCK_STATUS
    },
    Command {
        shows: "an extent of no bytes",
        chunks: &[
            (Chunk::Status(1, &[SOME]), Wants::Told(1)),
            (Chunk::Status(2, &[SOME, EMPTY]), Wants::Nothing),
        ],
        ..BLOCK_STATUS
    },
    Command {
        shows: "a second extent where one was asked",
        flags: REQ_ONE,
        chunks: &[
            (Chunk::Status(1, &[SOME]), Wants::Told(1)),
            (Chunk::Status(2, &[SOME, SOME]), Wants::Nothing),
        ],
        ..BLOCK_STATUS
    },
];

/// What a chunk asks for. Memory is wanting where too many were at fault for it to come.
#[tactic(auto, using(lnbd_structured::proofs::FactLemmas::fixed_at_most))]
fn take(assembly: &mut Assembly, chunk: Chunk, contexts: &Contexts) -> Result<Effect, ChunkFault> {
    if assembly.faults() > 1024 {
        return Err(ChunkFault::NoMemory);
    }
    assembly.chunk(&chunk.head(), &chunk.fixed(), chunk.entries(), contexts)
}

/// Whether so many of these chunks ask for what is wanted of one.
fn takes(
    assembly: &mut Assembly,
    times: u32,
    chunk: Chunk,
    want: Result<Effect, ChunkFault>,
    contexts: &Contexts,
) -> bool {
    let mut takes = true;
    for _ in 0..times {
        takes = take(assembly, chunk, contexts) == want && takes;
    }
    takes
}

/// Whether the chunks of a command ask for what they are to, and it comes to what it is to.
fn comes_to(assembly: &mut Assembly, command: &Command, contexts: &Contexts) -> bool {
    let mut holds = true;
    let mut times = command.times;
    for (chunk, want) in command.chunks {
        holds = takes(assembly, times, *chunk, want.result(), contexts) && holds;
        times = 1;
    }
    assembly.fail(command.heard);
    let error = assembly.end(contexts);
    holds && error == assembly.error() && assembly.failure() == command.failure
}

/// Two meta contexts, 1 and 2.
fn agreed(alloc: Global) -> Result<Contexts, Fail> {
    let mut contexts = Contexts::new(alloc);
    for id in [1, 2] {
        let name = Text::from_bytes(alloc, b"base:allocation")?;
        contexts.push(Context { id, name })?;
    }
    Ok(contexts)
}

#[test]
fn chunks_come_to_their_command(rt: HostRuntime) -> Result<(), Fail> {
    let mut wrong = String::new(rt.alloc());
    let contexts = agreed(rt.alloc())?;
    for command in &COMMANDS {
        if command.length > 16384 {
            return Err(Fail::new("too long a command"));
        }
        let mut assembly = Assembly::new(
            rt.alloc(),
            command.kind,
            command.offset,
            command.length,
            command.flags,
            false,
        );
        let holds = comes_to(&mut assembly, command, &contexts);
        note_row(&mut wrong, command.shows, holds)?;
    }
    assert_eq!(rt; wrong.as_str(), "");
    Ok(())
}

/// A chunk for a read, or with extended headers for a block status, of whose fixed numbers so many bytes are there, and what they show.
struct Front(&'static str, bool, Chunk, usize, Judged);

const NOTHING: Fixed = Fixed::Content(0, 0);

const ONE: Fixed = Fixed::Content(0x0000_0001_0000_0001, 0);

const BAD_TYPE: Judged = Judged::Breach(Breach::BadChunkType);

const BAD_LENGTH: Judged = Judged::Breach(Breach::BadChunkLength);

const BAD_RANGE: Judged = Judged::Breach(Breach::OutOfRange);

const PLACE: Judged = Judged::Place {
    offset: 1008,
    length: 8,
};

static FRONTS: [Front; 19] = [
    Front(
        "32 MiB",
        false,
        Chunk::Other(0, DATA, 33554440, NOTHING),
        0,
        Judged::Going,
    ),
    Front(
        "one byte more",
        false,
        Chunk::Other(0, DATA, 33554441, NOTHING),
        0,
        BAD_LENGTH,
    ),
    Front(
        "a status for a read",
        false,
        Chunk::Other(0, STATUS, 12, NOTHING),
        0,
        BAD_TYPE,
    ),
    Front(
        "none that isn't the last",
        false,
        Chunk::Other(0, 0, 0, NOTHING),
        0,
        BAD_TYPE,
    ),
    Front(
        "none that is the last",
        false,
        Chunk::Other(LAST, 0, 0, NOTHING),
        0,
        Judged::Going,
    ),
    Front(
        "another type",
        false,
        Chunk::Other(LAST, 3, 0, NOTHING),
        0,
        BAD_TYPE,
    ),
    Front(
        "a place without its last byte",
        false,
        Chunk::Data(1008, 8),
        7,
        Judged::Going,
    ),
    Front("a place", false, Chunk::Data(1008, 8), 8, PLACE),
    Front("a byte too many", false, Chunk::Data(1008, 9), 8, BAD_RANGE),
    Front(
        "zeros behind the end",
        false,
        Chunk::Hole(1017, 0),
        8,
        BAD_RANGE,
    ),
    Front(
        "zeros without the last byte of their count",
        false,
        Chunk::Hole(1008, 9),
        11,
        Judged::Going,
    ),
    Front(
        "zeros over the end",
        false,
        Chunk::Hole(1008, 9),
        12,
        BAD_RANGE,
    ),
    Front(
        "a message that is too short",
        false,
        Chunk::Other(0, ERROR, 10, Fixed::Error(5, 3, 0)),
        6,
        BAD_LENGTH,
    ),
    Front(
        "an error that is none",
        false,
        Chunk::Other(0, ERROR, 9, Fixed::Error(0, 3, 0)),
        6,
        Judged::Breach(Breach::ZeroError),
    ),
    Front(
        "an error with its place",
        false,
        Chunk::Error(5, 0),
        6,
        Judged::Going,
    ),
    Front(
        "a status of the other width",
        true,
        Chunk::Other(0, STATUS, 12, ONE),
        0,
        BAD_TYPE,
    ),
    Front(
        "no count yet",
        true,
        Chunk::Other(0, EXTENDED_STATUS, 40, ONE),
        7,
        Judged::Going,
    ),
    Front(
        "one where two have room",
        true,
        Chunk::Other(0, EXTENDED_STATUS, 40, ONE),
        8,
        BAD_LENGTH,
    ),
    Front(
        "one",
        true,
        Chunk::Other(0, EXTENDED_STATUS, 24, ONE),
        8,
        Judged::Going,
    ),
];

/// What a row of these bytes is judged to be, where so many of its payload are there.
fn judged(assembly: &Assembly, chunk: &Chunk, there: usize) -> Judged {
    let bytes = chunk.fixed();
    let (front, _) = bytes.split_at(there.min(16));
    assembly.judge(&chunk.head(), front)
}

#[test]
fn first_bytes_show_breaches(rt: HostRuntime) -> Result<(), Fail> {
    let mut wrong = String::new(rt.alloc());
    let read = Assembly::new(rt.alloc(), Kind::Read, 1000, 16, 0, false);
    let status = Assembly::new(rt.alloc(), Kind::BlockStatus, 0, 8192, 0, true);
    for Front(shows, extended, chunk, there, want) in &FRONTS {
        let found = if *extended {
            judged(&status, chunk, *there)
        } else {
            judged(&read, chunk, *there)
        };
        let holds = found == *want;
        note_row(&mut wrong, *shows, holds)?;
    }
    assert_eq!(rt; wrong.as_str(), "");
    Ok(())
}

#[test]
fn payloads_are_read_and_placed(rt: HostRuntime) -> Result<(), Fail> {
    let want = [
        SOME,
        Extent {
            length: 256,
            flags: 0,
        },
    ];
    let short = b"\0\0\x10\0\0\0\0\x03\0\0\x01\0\0\0\0\0";
    let long = b"\0\0\0\0\0\0\x10\0\0\0\0\0\0\0\0\x03\0\0\0\0\0\0\x01\0\0\0\0\0\0\0\0\0";
    let compact = descriptors_in(rt.alloc(), short)?.as_slice() == want.as_slice();
    let extended = extended_descriptors_in(rt.alloc(), long)?.as_slice() == want.as_slice();
    // a gap stays as it was, zeros and data stand in their places
    let mut buffer = [7; 8];
    put_data(&mut buffer, 1000, 1001, b"abc");
    put_zeros(&mut buffer, 1000, 1005, 3);
    assert!(rt; compact && extended && buffer == *b"\x07abc\x07\0\0\0");
    Ok(())
}
