//! Commands from their issue to their end: replies and chunks out of order, content at fault, buffers that are taken over, and a death. What
//! callbacks hear is what libnbd's manual says.

ghost use Rattle.std.specs.Prelude.{◌≡◌, true, IfOk, vec_len};
ghost use Rattle.lnbd_model.specs.Kind.{is_read};
ghost use Rattle.lnbd_structured.specs.Told.{content_in, IsInside};
ghost use Rattle.lnbd_chunks.specs.Chunk.{lies_within};
ghost use Rattle.lnbd_commands.specs.Commands.{waiting_at};
ghost use Rattle.lnbd_structured.specs.Waiting.{seen_waiting};
ghost use Rattle.lnbd_commands.specs.Takes.{IsReply};

use crate::support::{Scribe, contexts};
use lnbd_callbacks::Heard;
use lnbd_commands::{Asked, Commands, Told, Waiting};
use lnbd_history::{Completed, Peeked};
use lnbd_model::{Contexts, Extent, Kind};
use std::alloc::{AllocError, Global};
use std::fmt::Write;
use std::test::Fail;

/// Lets all go on, and keeps its result.
const KEEPER: Scribe = Scribe {
    heard: Heard::Going,
    keeps: true,
};

/// The flags of commands: all content in one chunk, and one descriptor a meta context.
const DF: u32 = 4;

const REQ_ONE: u32 = 8;

/// What a chunk tells.
#[derive(Clone, Copy)]
enum Sent {
    /// Bytes from a place on.
    Data(u64, &'static [u8]),
    /// So many zeros from a place on.
    Hole(u64, u64),
    /// Extents of a meta context.
    Status(u32, &'static [Extent]),
    /// An error of a place.
    Error(u32, u64),
    Nothing,
}

impl Sent {
    fn told(self) -> Told<'static> {
        match self {
            Sent::Data(offset, bytes) => Told::Data { offset, bytes },
            Sent::Hole(offset, length) => Told::Hole { offset, length },
            Sent::Status(context, entries) => Told::Status { context, entries },
            Sent::Error(number, place) => Told::Error {
                number,
                offset: Some(place),
            },
            Sent::Nothing => Told::Nothing,
        }
    }
}

/// One call on commands. Those that tell something write it.
#[derive(Clone, Copy)]
enum Step {
    /// A command for four bytes at 1000 with these flags, whose chunk or extents callback hears of them.
    Issue(Kind, u32),
    /// One that is refused.
    Refuse,
    /// A simple reply without error to the read with this cookie, and the same by a buffer that is taken over.
    Reply(u64, &'static [u8]),
    ReplyFilled(u64, &'static [u8]),
    /// A chunk for the command with this cookie, which is the last or not.
    Chunk(u64, Sent, bool),
    /// So many chunks of no zeros for the first command, which aren't the last.
    NoZeros(u32),
    /// Data for the first command, from a place on, by a buffer that is taken over.
    Filled(u64, &'static [u8], bool),
    /// The connection dies.
    Death,
    /// The notes are dropped.
    Clear,
    /// Tells which completed command is next, and how many commands and callbacks there are.
    Tell,
    /// Tells what is known of the command with this cookie while it is in flight.
    Waiting(u64),
    /// Tells its failure.
    Failure(u64),
    /// Takes its result.
    Take(u64),
}

/// The buffer of a command for four bytes.
fn buffer(alloc: Global, kind: Kind) -> Result<Vec<u8>, AllocError>
    ensures { IfOk result (λ buf. is_read kind ≡ true → vec_len buf ≡ 4) }
{
    match kind {
        Kind::Read => Vec::from_slice(alloc, &[0xff; 4]),
        _ => Ok(Vec::new(alloc)),
    }
}

/// Issues a command. Tells whether it has a cookie.
fn issue(commands: &mut Commands<Scribe>, alloc: Global, kind: Kind, flags: u32) -> bool {
    let Ok(buf) = buffer(alloc, kind) else {
        return false;
    };
    let asked = Asked {
        kind,
        flags,
        offset: 1000,
        length: 4,
        buf,
        first: Some(KEEPER),
        done: KEEPER,
    };
    match commands.issue(asked) {
        Ok(cookie) => cookie == commands.issued(),
        Err(_) => false,
    }
}

/// Whether a simple reply without error brings as many bytes as the command of a cookie is for, which is a read in flight.
fn fits(commands: &Commands<Scribe>, cookie: u64, bytes: &[u8]) -> bool
    ensures { result ≡ true → IsReply (waiting_at cookie commands.now) 0 bytes.now }
{
    let Some(known) = commands.waiting(cookie) else {
        return false;
    };
    let Kind::Read = known.kind else {
        return false;
    };
    known.length == bytes.len() as u64
}

/// Replies to a command without an error, where it is a read in flight.
fn reply(commands: &mut Commands<Scribe>, world: &mut String, cookie: u64, bytes: &[u8]) -> bool {
    fits(commands, cookie, bytes) && commands.reply(world, cookie, 0, bytes).is_ok()
}

/// The same by a buffer that is taken over.
fn reply_filled(
    commands: &mut Commands<Scribe>,
    world: &mut String,
    cookie: u64,
    bytes: Vec<u8>,
) -> bool {
    fits(commands, cookie, &bytes) && commands.reply_filled(world, cookie, 0, bytes).is_ok()
}

/// Whether so many bytes from this place on lie in what a read asked for.
fn lies_within(known: &Waiting, offset: u64, size: u64) -> bool
    ensures { result ≡ true → lies_within (seen_waiting known.now) offset size ≡ true }
{
    if offset < known.offset {
        return false;
    }
    let skipped = offset - known.offset;
    skipped <= known.length && size <= known.length - skipped
}

/// Whether content lies in what a command asked for.
fn is_inside(known: &Waiting, told: Told<'_>) -> bool
    ensures { result ≡ true → IsInside (seen_waiting known.now) (content_in told.entry) }
{
    let (offset, size) = match told {
        Told::Data { offset, bytes } => (offset, bytes.len() as u64),
        Told::Hole { offset, length } => (offset, length),
        Told::Status { .. } | Told::Error { .. } | Told::Nothing => return true,
    };
    let Kind::Read = known.kind else {
        return false;
    };
    lies_within(known, offset, size)
}

/// Files a chunk under the command of a cookie, where it is in flight and the protocol lets it come.
fn file(
    commands: &mut Commands<Scribe>,
    world: &mut String,
    cookie: u64,
    told: Told<'_>,
    last: bool,
    contexts: &Contexts,
) -> bool {
    let Some(known) = commands.waiting(cookie) else {
        return false;
    };
    if !is_inside(&known, told) {
        return false;
    }
    if !last && known.faults >= 1024 {
        return false;
    }
    commands.chunk(world, cookie, told, last, contexts).is_ok()
}

/// The same of so many chunks of no zeros for the first command.
fn file_none(
    commands: &mut Commands<Scribe>,
    world: &mut String,
    times: u32,
    contexts: &Contexts,
) -> bool {
    let none = Told::Hole {
        offset: 1000,
        length: 0,
    };
    let mut filed = true;
    for _ in 0..times {
        filed = file(commands, world, 1, none, false, contexts) && filed;
    }
    filed
}

/// The same of data for the first command, whose buffer is taken over. Tells whether one as long came back.
fn file_filled(
    commands: &mut Commands<Scribe>,
    world: &mut String,
    offset: u64,
    buffer: Vec<u8>,
    last: bool,
    contexts: &Contexts,
) -> bool {
    let size = buffer.len();
    let Some(known) = commands.waiting(1) else {
        return false;
    };
    let told = Told::Data {
        offset,
        bytes: buffer.as_slice(),
    };
    if !is_inside(&known, told) {
        return false;
    }
    if !last && known.faults >= 1024 {
        return false;
    }
    match commands.chunk_filled(world, 1, offset, buffer, last, contexts) {
        Ok(spare) => spare.len() == size,
        Err(_) => false,
    }
}

/// Writes what a command came to, which retires it.
fn write_result(world: &mut String, completed: Completed) -> Result<(), Fail> {
    match completed {
        Completed::Done(buf) => writeln!(world, "done: {:?}", buf.as_slice())?,
        Completed::Failed { error, buf } => writeln!(
            world,
            "failed by {error}: {:?}",
            buf.as_slice()
        )?,
        Completed::NotYet => world.push_str("not yet\n")?,
        Completed::NoSuchCookie => world.push_str("no such cookie\n")?,
    }
    Ok(())
}

/// Writes which completed command is next, and how many commands and callbacks there are.
fn write_counts(world: &mut String, commands: &Commands<Scribe>) -> Result<(), Fail> {
    match commands.peek() {
        Peeked::Cookie(cookie) => write!(world, "next {cookie}")?,
        Peeked::NoneDone => world.push_str("none done")?,
        Peeked::NoneLeft => world.push_str("none left")?,
    }
    writeln!(
        world,
        ", {} issued, {} held, {} in flight, {} callbacks, {} freed, {} notes",
        commands.issued(),
        commands.held(),
        commands.in_flight(),
        commands.admitted(),
        commands.freed(),
        commands.notes().len()
    )?;
    Ok(())
}

/// Takes one step, and tells whether what it does could be done.
fn take(
    commands: &mut Commands<Scribe>,
    world: &mut String,
    alloc: Global,
    step: Step,
    agreed: &Contexts,
) -> Result<bool, Fail> {
    let done = match step {
        Step::Issue(kind, flags) => issue(commands, alloc, kind, flags),
        Step::Refuse => commands.refuse(world, None, KEEPER).is_ok(),
        Step::Reply(cookie, bytes) => reply(commands, world, cookie, bytes),
        Step::ReplyFilled(cookie, bytes) => {
            let buffer = Vec::from_slice(alloc, bytes)?;
            reply_filled(commands, world, cookie, buffer)
        }
        Step::Chunk(cookie, sent, last) => {
            file(commands, world, cookie, sent.told(), last, agreed)
        }
        Step::NoZeros(times) => file_none(commands, world, times, agreed),
        Step::Filled(offset, bytes, last) => {
            let buffer = Vec::from_slice(alloc, bytes)?;
            file_filled(commands, world, offset, buffer, last, agreed)
        }
        _ => tell(commands, world, step)?,
    };
    Ok(done)
}

/// The same of those steps that tell or end something.
fn tell(commands: &mut Commands<Scribe>, world: &mut String, step: Step) -> Result<bool, Fail> {
    match step {
        Step::Death => commands.lose_all(world),
        Step::Clear => commands.clear_log(),
        Step::Tell => write_counts(world, commands)?,
        Step::Take(cookie) => {
            let completed = commands.take_completed(cookie);
            write_result(world, completed)?;
        }
        Step::Waiting(cookie) => match commands.waiting(cookie) {
            Some(known) => writeln!(
                world,
                "waits for {} at {}, {} faults",
                known.length, known.offset, known.faults
            )?,
            None => world.push_str("waits for nothing\n")?,
        },
        Step::Failure(cookie) => match commands.failure(cookie) {
            Some(failure) => writeln!(world, "{:?} {}", failure.origin, failure.error)?,
            None => world.push_str("no failure\n")?,
        },
        _ => return Ok(false),
    }
    Ok(true)
}

/// A session, all that its callbacks and its steps write before it is closed, and how many notes there then are.
struct Session {
    steps: &'static [Step],
    writes: &'static str,
    notes: usize,
}

const READ: Step = Step::Issue(Kind::Read, 0);

const STATUS: Step = Step::Issue(Kind::BlockStatus, 0);

const ENTRY: Extent = Extent {
    length: 4096,
    flags: 3,
};

const ALLOCATED: Extent = Extent {
    length: 4096,
    flags: 0,
};

const SMALL: Extent = Extent {
    length: 512,
    flags: 3,
};

const EMPTY: Extent = Extent {
    length: 0,
    flags: 0,
};

/// Half of the first read, and the end of the first command.
const FRONT: Step = Step::Chunk(1, Sent::Data(1000, &[1, 2]), false);

const END: Step = Step::Chunk(1, Sent::Nothing, true);

const TOLD: Step = Step::Chunk(1, Sent::Status(7, &[ENTRY]), false);

const HALF: &str =
    "status 1 at 1000: [1, 2], error 0\nfreed\ncompleted, error 71\nfreed\nContent 71\n";

const ONCE: &str =
    "base:allocation at 1000: 4096 3, error 0\nfreed\ncompleted, error 71\nfreed\nContent 71\n";

const NEVER: &str = "freed\ncompleted, error 71\nfreed\nContent 71\n";

static SESSIONS: [Session; 17] = [
    // replies come in any order
    Session {
        steps: &[
            READ,
            READ,
            READ,
            Step::Tell,
            Step::Reply(2, &[1, 2, 3, 4]),
            Step::ReplyFilled(1, &[5, 6, 7, 8]),
            Step::Tell,
            Step::Take(3),
            Step::Take(2),
            Step::Take(2),
            Step::Take(1),
            Step::Tell,
        ],
        writes: "none done, 3 issued, 3 held, 3 in flight, 6 callbacks, 0 freed, 0 notes\n\
status 1 at 1000: [1, 2, 3, 4], error 0\nfreed\ncompleted, error 0\nfreed\n\
status 1 at 1000: [5, 6, 7, 8], error 0\nfreed\ncompleted, error 0\nfreed\n\
next 2, 3 issued, 3 held, 1 in flight, 6 callbacks, 4 freed, 8 notes\n\
not yet\ndone: [1, 2, 3, 4]\nno such cookie\ndone: [5, 6, 7, 8]\n\
none done, 3 issued, 1 held, 1 in flight, 6 callbacks, 4 freed, 8 notes\n",
        notes: 10,
    },
    // a death fails all that were left
    Session {
        steps: &[
            READ,
            Step::Refuse,
            Step::Tell,
            Step::Clear,
            Step::Failure(1),
            Step::Death,
            Step::Failure(1),
            Step::Take(1),
            Step::Tell,
        ],
        writes: "freed\nnone done, 1 issued, 1 held, 1 in flight, 3 callbacks, 1 freed, 1 notes\n\
no failure\nfreed\ncompleted, error 107\nfreed\nLost 107\nfailed by 107: [0, 0, 0, 0]\n\
none left, 1 issued, 0 held, 0 in flight, 3 callbacks, 3 freed, 3 notes\n",
        notes: 3,
    },
    // two reads and a block status; the second read fails by an error of the peer's, and what comes behind it is still told
    Session {
        steps: &[
            READ,
            READ,
            STATUS,
            Step::Chunk(2, Sent::Error(5, 1001), false),
            Step::Chunk(1, Sent::Hole(1002, 2), false),
            Step::Chunk(3, Sent::Status(7, &[SMALL, ALLOCATED]), true),
            Step::Chunk(2, Sent::Data(1003, &[9]), false),
            Step::Chunk(2, Sent::Nothing, true),
            Step::Chunk(1, Sent::Data(1000, &[1, 2]), true),
            Step::Tell,
            Step::Take(1),
            Step::Take(2),
            Step::Take(3),
        ],
        writes: "status 3 at 1001: [], error 5\n\
status 2 at 1002: [0, 0], error 0\n\
base:allocation at 1000: 512 3, error 0\nbase:allocation at 1000: 4096 0, error 0\n\
freed\ncompleted, error 0\nfreed\n\
status 1 at 1003: [9], error 5\nfreed\ncompleted, error 5\nfreed\n\
status 1 at 1000: [1, 2], error 0\nfreed\ncompleted, error 0\nfreed\n\
next 3, 3 issued, 3 held, 0 in flight, 6 callbacks, 6 freed, 14 notes\n\
done: [1, 2, 0, 0]\nfailed by 5: [0, 0, 0, 0]\ndone: []\n",
        notes: 14,
    },
    // buffers are taken over: all of a read, its two halves, and its end twice, which is at fault
    Session {
        steps: &[READ, Step::Filled(1000, &[5, 6, 7, 8], true), Step::Take(1)],
        writes: "status 1 at 1000: [5, 6, 7, 8], error 0\nfreed\ncompleted, error 0\nfreed\ndone: [5, 6, 7, 8]\n",
        notes: 4,
    },
    Session {
        steps: &[
            READ,
            Step::Filled(1002, &[7, 8], false),
            Step::Filled(1000, &[5, 6], true),
            Step::Take(1),
        ],
        writes: "status 1 at 1002: [7, 8], error 0\nstatus 1 at 1000: [5, 6], error 0\n\
freed\ncompleted, error 0\nfreed\ndone: [5, 6, 7, 8]\n",
        notes: 5,
    },
    Session {
        steps: &[
            READ,
            Step::Filled(1003, &[8], false),
            Step::Filled(1000, &[1, 2, 3, 4], true),
            Step::Take(1),
        ],
        writes: "status 1 at 1003: [8], error 0\nfreed\ncompleted, error 71\nfreed\nfailed by 71: [0, 0, 0, 0]\n",
        notes: 4,
    },
    // what has no fault is told to the callback, what has one isn't: a gap
    Session {
        steps: &[
            READ,
            FRONT,
            Step::Chunk(1, Sent::Nothing, false),
            END,
            Step::Failure(1),
        ],
        writes: HALF,
        notes: 4,
    },
    // no zeros, in the middle and at the end
    Session {
        steps: &[
            READ,
            FRONT,
            Step::Chunk(1, Sent::Hole(1002, 0), false),
            END,
            Step::Failure(1),
        ],
        writes: HALF,
        notes: 4,
    },
    Session {
        steps: &[
            READ,
            FRONT,
            Step::Chunk(1, Sent::Hole(1004, 0), false),
            END,
            Step::Failure(1),
        ],
        writes: HALF,
        notes: 4,
    },
    // over the last byte
    Session {
        steps: &[
            READ,
            FRONT,
            Step::Chunk(1, Sent::Data(1001, &[2, 3, 4]), false),
            END,
            Step::Failure(1),
        ],
        writes: HALF,
        notes: 4,
    },
    // a second chunk where one was to have all
    Session {
        steps: &[
            Step::Issue(Kind::Read, DF),
            FRONT,
            Step::Chunk(1, Sent::Data(1002, &[3, 4]), false),
            END,
            Step::Failure(1),
        ],
        writes: HALF,
        notes: 4,
    },
    // a meta context that was never agreed, and one that is told twice
    Session {
        steps: &[
            STATUS,
            TOLD,
            Step::Chunk(1, Sent::Status(9, &[ENTRY]), false),
            END,
            Step::Failure(1),
        ],
        writes: ONCE,
        notes: 4,
    },
    Session {
        steps: &[
            STATUS,
            TOLD,
            Step::Chunk(1, Sent::Status(7, &[ENTRY]), false),
            END,
            Step::Failure(1),
        ],
        writes: ONCE,
        notes: 4,
    },
    // an extent of no bytes, and a second one where one was asked
    Session {
        steps: &[
            STATUS,
            Step::Chunk(1, Sent::Status(7, &[ENTRY, EMPTY]), false),
            END,
            Step::Failure(1),
        ],
        writes: NEVER,
        notes: 3,
    },
    Session {
        steps: &[
            Step::Issue(Kind::BlockStatus, REQ_ONE),
            Step::Chunk(1, Sent::Status(7, &[ENTRY, ALLOCATED]), false),
            END,
            Step::Failure(1),
        ],
        writes: NEVER,
        notes: 3,
    },
    // 1,024 chunks of no zeros, and one more that is the last
    Session {
        steps: &[
            READ,
            Step::NoZeros(1024),
            Step::Waiting(1),
            Step::Chunk(1, Sent::Hole(1000, 0), true),
            Step::Take(1),
        ],
        writes: "waits for 4 at 1000, 1024 faults\nfreed\ncompleted, error 71\nfreed\nfailed by 71: [0, 0, 0, 0]\n",
        notes: 3,
    },
    // a second reply, for which nothing waits
    Session {
        steps: &[
            READ,
            Step::Reply(1, &[1, 2, 3, 4]),
            Step::Reply(1, &[1, 2, 3, 4]),
        ],
        writes: "status 1 at 1000: [1, 2, 3, 4], error 0\nfreed\ncompleted, error 0\nfreed\nnot taken\n",
        notes: 4,
    },
];

/// Takes each step of a session, and writes where one can't be taken.
fn play(
    commands: &mut Commands<Scribe>,
    world: &mut String,
    alloc: Global,
    steps: &[Step],
    agreed: &Contexts,
) -> Result<(), Fail> {
    for step in steps {
        if !take(commands, world, alloc, *step, agreed)? {
            world.push_str("not taken\n")?;
        }
    }
    Ok(())
}

/// Plays a session. What it writes otherwise than it should is added to what is wrong. At its end each callback is freed.
fn judge(
    wrong: &mut String,
    alloc: Global,
    session: &Session,
    agreed: &Contexts,
) -> Result<(), Fail> {
    let mut world = String::new(alloc);
    let mut commands = Commands::new(alloc);
    let played = play(&mut commands, &mut world, alloc, session.steps, agreed);
    let callbacks = commands.admitted();
    let mut ends = String::new(alloc);
    let closed = commands.close(&mut ends);
    played?;
    let same = world.as_str() == session.writes;
    let ended = closed.opened == callbacks
        && closed.freed == callbacks
        && closed.notes.len() == session.notes;
    if !same || !ended {
        wrong.push_str(world.as_str())?;
        wrong.push_str(ends.as_str())?;
    }
    Ok(())
}

#[test]
fn commands_go_as_the_manual_says(rt: HostRuntime) -> Result<(), Fail> {
    let mut wrong = String::new(rt.alloc());
    let agreed = contexts(rt.alloc())?;
    for session in &SESSIONS {
        judge(&mut wrong, rt.alloc(), session, &agreed)?;
    }
    assert_eq!(rt; wrong.as_str(), "");
    Ok(())
}
