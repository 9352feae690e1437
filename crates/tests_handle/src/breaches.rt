//! Each way in which a server breaks the protocol: at which byte a handle dies of it, however the bytes are cut.

use crate::openings::{ASKING, BARE, EXTENDED, EXTENDED_FULL, OPT_MODE, STARTED, STRUCTURED};
use crate::play::{Opt, Session, Step};
use lnbd_model::{Breach, Cause, Kind, NoMemory, State};
use std::alloc::Global;
use std::test::Fail;

/// Bytes that break the protocol, and how many of them have come when they do.
#[derive(Clone, Copy)]
struct Line<'a> {
    begins: &'a [Step<'a>],
    /// What is asked, and comes, before them.
    before: &'a [Step<'a>],
    bytes: &'a [u8],
    at: usize,
    breach: Breach,
}

/// A read, a status and a write of 16 bytes at 0, which went out.
const READ: &[Step<'static>] = &[Step::Asks(Kind::Read, 16, 0, 0), Step::Goes(1)];

const STATUS: &[Step<'static>] = &[Step::Asks(Kind::BlockStatus, 16, 0, 0), Step::Goes(1)];

const WRITE: &[Step<'static>] = &[Step::Asks(Kind::Write, 16, 0, 0), Step::Goes(2)];

/// EIO to the first command, with more to come; and a hole of four bytes at its beginning.
const ERROR: &[u8] = b"\x66\x8e\x33\xef\0\0\x80\x01\0\0\0\0\0\0\0\x01\0\0\0\x06\0\0\0\x05\0\0";

const HOLE: &[u8] =
    b"\x66\x8e\x33\xef\0\0\0\x02\0\0\0\0\0\0\0\x01\0\0\0\x0c\0\0\0\0\0\0\0\0\0\0\0\x04";

/// A reply to GO with an information that has no known number, and one with a name that is no text.
const PASSED: &[u8] = b"\0\x03\xe8\x89\x04\x55\x65\xa9\0\0\0\x07\0\0\0\x03\0\0\0\x03\0\x04?";

const NO_TEXT: &[u8] = b"\0\x03\xe8\x89\x04\x55\x65\xa9\0\0\0\x07\0\0\0\x03\0\0\0\x03\0\x01\xff";

const GREETINGS: [Line<'static>; 4] = [
    Line {
        begins: STARTED,
        before: &[],
        bytes: b"NBDMAGIC\0\0\x42\x02\x81\x86\x12\x53!",
        at: 16,
        breach: Breach::OldStyle,
    },
    Line {
        begins: STARTED,
        before: &[],
        bytes: b"NBDMAGICIHAVEOPT\0\0",
        at: 18,
        breach: Breach::NotFixed,
    },
    Line {
        begins: STARTED,
        before: &[],
        bytes: b"NBDMAGID",
        at: 8,
        breach: Breach::BadHello,
    },
    Line {
        begins: STARTED,
        before: &[],
        bytes: b"NBDMAGICIHAVEOPU",
        at: 16,
        breach: Breach::BadHello,
    },
];

const OPTIONS: [Line<'static>; 11] = [
    Line {
        begins: ASKING,
        before: &[],
        bytes: b"\0\x03\xe8\x89\x04\x55\x65\xaa",
        at: 8,
        breach: Breach::BadOptionMagic,
    },
    Line {
        begins: ASKING,
        before: &[],
        bytes: b"\0\x03\xe8\x89\x04\x55\x65\xa9\0\0\0\x03\0\0\0\x01\0\0\0\0",
        at: 20,
        breach: Breach::WrongOption,
    },
    Line {
        begins: OPT_MODE,
        before: &[],
        bytes: b"\0\x03\xe8\x89\x04\x55\x65\xa9\0\0\0\x03\0\0\0\x01\0\0\0\0",
        at: 20,
        breach: Breach::WrongOption,
    },
    // 65,537 bytes
    Line {
        begins: ASKING,
        before: &[],
        bytes: b"\0\x03\xe8\x89\x04\x55\x65\xa9\0\0\0\x07\0\0\0\x03\0\x01\0\x01",
        at: 20,
        breach: Breach::BadOptionLength,
    },
    // a byte in an ACK
    Line {
        begins: ASKING,
        before: &[],
        bytes: b"\0\x03\xe8\x89\x04\x55\x65\xa9\0\0\0\x07\0\0\0\x01\0\0\0\x01!",
        at: 21,
        breach: Breach::BadOptionLength,
    },
    // a reply of LIST
    Line {
        begins: ASKING,
        before: &[],
        bytes: b"\0\x03\xe8\x89\x04\x55\x65\xa9\0\0\0\x07\0\0\0\x02\0\0\0\x06",
        at: 20,
        breach: Breach::UnexpectedReply,
    },
    // of two faults the first in order counts
    Line {
        begins: ASKING,
        before: &[Step::Repeats(PASSED, 1024)],
        bytes: NO_TEXT,
        at: 23,
        breach: Breach::TooManyReplies,
    },
    Line {
        begins: ASKING,
        before: &[Step::Repeats(PASSED, 1023)],
        bytes: NO_TEXT,
        at: 23,
        breach: Breach::BadText,
    },
    Line {
        begins: ASKING,
        before: &[],
        bytes: b"\0\x03\xe8\x89\x04\x55\x65\xa9\0\0\0\x07\0\0\0\x01\0\0\0\0",
        at: 20,
        breach: Breach::NoExportInfo,
    },
    Line {
        begins: ASKING,
        before: &[],
        bytes: b"\0\x03\xe8\x89\x04\x55\x65\xa9\0\0\0\x07\0\0\0\x03\0\0\0\x0c\0\0\x80\0\0\0\0\0\0\0\0\x01",
        at: 32,
        breach: Breach::SizeTooBig,
    },
    // 65,535 bytes were passed over after an abort
    Line {
        begins: OPT_MODE,
        before: &[Step::Opts(Opt::Abort), Step::Repeats(&[0xff; 255], 257)],
        bytes: b"abc",
        at: 2,
        breach: Breach::TooManyReplies,
    },
];

const HEADS: [Line<'static>; 19] = [
    // magics
    Line {
        begins: BARE,
        before: READ,
        bytes: b"\x66\x8e\x33\xef",
        at: 4,
        breach: Breach::BadReplyMagic,
    },
    Line {
        begins: BARE,
        before: READ,
        bytes: b"\x67\x44\x66\x99",
        at: 4,
        breach: Breach::BadReplyMagic,
    },
    Line {
        begins: STRUCTURED,
        before: READ,
        bytes: b"\x6e\x8a\x27\x8c",
        at: 4,
        breach: Breach::BadReplyMagic,
    },
    Line {
        begins: EXTENDED,
        before: READ,
        bytes: b"\x66\x8e\x33\xee",
        at: 4,
        breach: Breach::BadReplyMagic,
    },
    Line {
        begins: EXTENDED,
        before: READ,
        bytes: b"\x67\x44\x66\x98",
        at: 4,
        breach: Breach::MixedHeaders,
    },
    Line {
        begins: EXTENDED,
        before: WRITE,
        bytes: b"\x67\x44\x66\x98",
        at: 4,
        breach: Breach::MixedHeaders,
    },
    Line {
        begins: EXTENDED,
        before: WRITE,
        bytes: b"\x66\x8e\x33\xef",
        at: 4,
        breach: Breach::MixedHeaders,
    },
    // cookies: of no command, also where bytes lie behind it, and of one that was answered
    Line {
        begins: BARE,
        before: READ,
        bytes: b"\x67\x44\x66\x98\0\0\0\0\0\0\0\0\0\0\0\x09\0",
        at: 16,
        breach: Breach::UnknownCookie,
    },
    Line {
        begins: BARE,
        before: &[Step::Asks(Kind::Read, 1, 0, 0), Step::Goes(1)],
        bytes: b"\x67\x44\x66\x98\0\0\0\0\0\0\0\0\0\0\0\x01\x11\x67\x44\x66\x98\0\0\0\0\0\0\0\0\0\0\0\x01",
        at: 33,
        breach: Breach::UnknownCookie,
    },
    Line {
        begins: STRUCTURED,
        before: READ,
        bytes: b"\x66\x8e\x33\xef\0\x01\0\0\0\0\0\0\0\0\0\x09\0\0\0\0",
        at: 20,
        breach: Breach::UnknownCookie,
    },
    // simple replies to a read, without and with an error, and behind one to a write
    Line {
        begins: STRUCTURED,
        before: READ,
        bytes: b"\x67\x44\x66\x98\0\0\0\0\0\0\0\0\0\0\0\x01",
        at: 16,
        breach: Breach::SimpleForRead,
    },
    Line {
        begins: STRUCTURED,
        before: READ,
        bytes: b"\x67\x44\x66\x98\0\0\0\x05\0\0\0\0\0\0\0\x01",
        at: 16,
        breach: Breach::SimpleForRead,
    },
    Line {
        begins: STRUCTURED,
        before: &[
            Step::Asks(Kind::Read, 512, 0, 0),
            Step::Asks(Kind::Write, 1, 0, 0),
            Step::Goes(3),
        ],
        bytes: b"\x67\x44\x66\x98\0\0\0\0\0\0\0\0\0\0\0\x02\x67\x44\x66\x98\0\0\0\0\0\0\0\0\0\0\0\x01",
        at: 32,
        breach: Breach::SimpleForRead,
    },
    // lengths that a type does not allow: of a hole, of nothing, and of data, 32 MiB and a byte
    Line {
        begins: STRUCTURED,
        before: READ,
        bytes: b"\x66\x8e\x33\xef\0\x01\0\x02\0\0\0\0\0\0\0\x01\0\0\0\x0b",
        at: 20,
        breach: Breach::BadChunkLength,
    },
    Line {
        begins: STRUCTURED,
        before: READ,
        bytes: b"\x66\x8e\x33\xef\0\x01\0\0\0\0\0\0\0\0\0\x01\0\0\0\x01",
        at: 20,
        breach: Breach::BadChunkLength,
    },
    Line {
        begins: STRUCTURED,
        before: READ,
        bytes: b"\x66\x8e\x33\xef\0\0\0\x01\0\0\0\0\0\0\0\x01\x02\0\0\x09",
        at: 20,
        breach: Breach::BadChunkLength,
    },
    // types that are not lawful here: one of none, nothing that is not the last, and 5 under extended headers
    Line {
        begins: STRUCTURED,
        before: READ,
        bytes: b"\x66\x8e\x33\xef\0\x01\0\x07\0\0\0\0\0\0\0\x01\0\0\0\0",
        at: 20,
        breach: Breach::BadChunkType,
    },
    Line {
        begins: STRUCTURED,
        before: READ,
        bytes: b"\x66\x8e\x33\xef\0\0\0\0\0\0\0\0\0\0\0\x01\0\0\0\0",
        at: 20,
        breach: Breach::BadChunkType,
    },
    Line {
        begins: EXTENDED_FULL,
        before: STATUS,
        bytes: b"\x6e\x8a\x27\x8c\0\x01\0\x05\0\0\0\0\0\0\0\x01\0\0\0\0\0\0\0\0\0\0\0\0\0\0\0\x0c",
        at: 32,
        breach: Breach::BadChunkType,
    },
];

const PAYLOADS: [Line<'static>; 9] = [
    Line {
        begins: STRUCTURED,
        before: READ,
        bytes: b"\x66\x8e\x33\xef\0\x01\0\x01\0\0\0\0\0\0\0\x01\0\0\0\x09\0\0\0\0\0\0\0\x10",
        at: 28,
        breach: Breach::OutOfRange,
    },
    // thirteen bytes from place 4 on
    Line {
        begins: STRUCTURED,
        before: READ,
        bytes: b"\x66\x8e\x33\xef\0\x01\0\x01\0\0\0\0\0\0\0\x01\0\0\0\x15\0\0\0\0\0\0\0\x04",
        at: 28,
        breach: Breach::OutOfRange,
    },
    Line {
        begins: STRUCTURED,
        before: &[Step::Asks(Kind::Read, 512, 4096, 0), Step::Goes(1)],
        bytes: b"\x66\x8e\x33\xef\0\0\0\x01\0\0\0\0\0\0\0\x01\0\0\0\x0c\0\0\0\0\0\0\x11\xfd",
        at: 28,
        breach: Breach::OutOfRange,
    },
    Line {
        begins: STRUCTURED,
        before: READ,
        bytes: b"\x66\x8e\x33\xef\0\x01\x80\x01\0\0\0\0\0\0\0\x01\0\0\0\x06\0\0\0\0\0\0",
        at: 26,
        breach: Breach::ZeroError,
    },
    // a message of one byte in a payload with room for two, and with room for none
    Line {
        begins: STRUCTURED,
        before: WRITE,
        bytes: b"\x66\x8e\x33\xef\0\x01\x80\x01\0\0\0\0\0\0\0\x01\0\0\0\x08\0\0\0\x05\0\x01",
        at: 26,
        breach: Breach::BadChunkLength,
    },
    Line {
        begins: STRUCTURED,
        before: READ,
        bytes: b"\x66\x8e\x33\xef\0\x01\x80\x01\0\0\0\0\0\0\0\x01\0\0\0\x06\0\0\0\x05\0\x01",
        at: 26,
        breach: Breach::BadChunkLength,
    },
    // a count of two with room for one
    Line {
        begins: EXTENDED_FULL,
        before: STATUS,
        bytes: b"\x6e\x8a\x27\x8c\0\x01\0\x06\0\0\0\0\0\0\0\x01\0\0\0\0\0\0\0\0\0\0\0\0\0\0\0\x18\0\0\0\x01\0\0\0\x02",
        at: 40,
        breach: Breach::BadChunkLength,
    },
    // 1,024 errors were told; and so many chunks with a fault, the first hole being none
    Line {
        begins: STRUCTURED,
        before: &[
            Step::Asks(Kind::Read, 16, 0, 0),
            Step::Goes(1),
            Step::Repeats(ERROR, 1024),
        ],
        bytes: b"\x66\x8e\x33\xef\0\0\x80\x01\0\0\0\0\0\0\0\x01\0\0\0\x06",
        at: 20,
        breach: Breach::TooManyErrors,
    },
    Line {
        begins: STRUCTURED,
        before: &[
            Step::Asks(Kind::Read, 16, 0, 0),
            Step::Goes(1),
            Step::Repeats(HOLE, 513),
            Step::Repeats(ERROR, 512),
        ],
        bytes: b"\x66\x8e\x33\xef\0\0\x80\x01\0\0\0\0\0\0\0\x01\0\0\0\x06",
        at: 20,
        breach: Breach::TooManyErrors,
    },
];

impl Line<'_> {
    /// Whether the handle dies of the breach where it should, with the bytes cut here.
    fn breaks(&self, alloc: Global, cut: usize) -> Result<bool, NoMemory> {
        let mut session = Session::new(alloc, usize::MAX)?;
        let death = self.death(&mut session, cut);
        // A session must be closed, whatever came of its steps.
        let told = session.close();
        let (is_early, state) = death?;
        told?;
        Ok(is_early == (self.at <= cut) && state == State::Dead(Cause::Broke(self.breach)))
    }

    /// Whether the handle is dead behind the front of the bytes, and where it stands behind all of them.
    fn death(&self, session: &mut Session, cut: usize) -> Result<(bool, State), NoMemory> {
        session.play(self.begins)?;
        session.play(self.before)?;
        let (front, back) = self.bytes.split_at(cut.min(self.bytes.len()));
        session.feed(front)?;
        let is_early = session.handle.direction() == 0;
        session.feed(back)?;
        Ok((is_early, session.handle.state()))
    }

    /// Adds to the faults each cut with which it breaks otherwise.
    fn push_faults(&self, alloc: Global, faults: &mut String) -> Result<(), NoMemory> {
        for cut in 0..self.bytes.len() + 1 {
            if !self.breaks(alloc, cut)? {
                let (name, at) = (self.breach.name(), self.at);
                write!(faults, "{name} at {at}, cut at {cut}; ")?;
            }
        }
        Ok(())
    }
}

fn push_all(alloc: Global, faults: &mut String, lines: &[Line]) -> Result<(), NoMemory> {
    for line in lines {
        line.push_faults(alloc, faults)?;
    }
    Ok(())
}

#[test]
fn breaches_at_their_byte(rt: HostRuntime) -> Result<(), Fail> {
    let mut faults = String::new(rt.alloc());
    push_all(rt.alloc(), &mut faults, &GREETINGS)?;
    push_all(rt.alloc(), &mut faults, &OPTIONS)?;
    push_all(rt.alloc(), &mut faults, &HEADS)?;
    push_all(rt.alloc(), &mut faults, &PAYLOADS)?;
    assert_eq!(rt; faults.as_str(), "");
    Ok(())
}
