//! Replies to a read, a status and other commands: each front of a record tells nothing yet, and the last byte tells all.

use crate::openings::{BARE, EXTENDED, EXTENDED_FULL, FULL, STRUCTURED, STRUCTURED_FULL};
use crate::play::{Row, Step, What, play_all};
use lnbd_model::Kind;
use std::test::Fail;

static ROWS: [Row<'static>; 14] = [
    Row {
        shows: "an extended chunk that says nothing",
        begins: EXTENDED_FULL,
        steps: &[
            Step::Asks(Kind::Zero, 16, 0, 0),
            Step::Goes(1),
            Step::Fronts(
                b"\x6e\x8a\x27\x8c\0\x01\0\0\0\0\0\0\0\0\0\x01\0\0\0\0\0\0\0\0\0\0\0\0\0\0\0\0",
            ),
        ],
        told: "negotiating; ready; cookie 1; last; complete 0 0 -; free; callbacks 1 1",
    },
    Row {
        shows: "an extended status",
        begins: EXTENDED_FULL,
        steps: &[
            Step::Asks(Kind::BlockStatus, 8192, 0, 0),
            Step::Goes(1),
            Step::Fronts(
                b"\x6e\x8a\x27\x8c\0\x01\0\x06\0\0\0\0\0\0\0\x01\0\0\0\0\0\0\0\0\0\0\0\0\0\0\0\x18\
\0\0\0\x01\0\0\0\x01\0\0\0\0\0\0\x20\0\0\0\0\0\0\0\0\x03",
            ),
            Step::Tells(What::Log),
        ],
        told: "negotiating; ready; cookie 1; last; extents base:allocation 0 0 8192:3; free; complete 0 0 -; free; \
               extents 1 1 0 1 0 0; freed 1; completed 2 0 kept; freed 2; callbacks 2 2",
    },
    Row {
        shows: "a structured status",
        begins: STRUCTURED_FULL,
        steps: &[
            Step::Asks(Kind::BlockStatus, 4096, 0, 0),
            Step::Goes(1),
            Step::Fronts(
                b"\x66\x8e\x33\xef\0\x01\0\x05\0\0\0\0\0\0\0\x01\0\0\0\x0c\0\0\0\x07\0\0\x10\0\0\0\0\x02",
            ),
        ],
        told: "negotiating; ready; cookie 1; last; extents base:allocation 0 0 4096:2; free; complete 0 0 -; free; \
               callbacks 2 2",
    },
    // fourteen bytes are not told
    Row {
        shows: "data",
        begins: STRUCTURED,
        steps: &[
            Step::ReadsChunks(16, 0),
            Step::Goes(1),
            Step::Fronts(
                b"\x66\x8e\x33\xef\0\x01\0\x01\0\0\0\0\0\0\0\x01\0\0\0\x0a\0\0\0\0\0\0\0\x0e\xab\xcd",
            ),
            Step::Failure(1),
        ],
        told: "negotiating; ready; cookie 1; last; chunk 14 1 0 ab*1 cd*1; free; complete 71 16 00*16; free; content 71; \
               callbacks 2 2",
    },
    Row {
        shows: "a hole",
        begins: STRUCTURED,
        steps: &[
            Step::ReadsChunks(16, 0),
            Step::Goes(1),
            Step::Fronts(
                b"\x66\x8e\x33\xef\0\x01\0\x02\0\0\0\0\0\0\0\x01\0\0\0\x0c\0\0\0\0\0\0\0\x08\0\0\0\x08",
            ),
        ],
        told: "negotiating; ready; cookie 1; last; chunk 8 2 0 00*8; free; complete 71 16 00*16; free; callbacks 2 2",
    },
    Row {
        shows: "data and a hole",
        begins: STRUCTURED,
        steps: &[
            Step::ReadsChunks(8, 4096),
            Step::Goes(1),
            Step::Comes(
                b"\x66\x8e\x33\xef\0\0\0\x01\0\0\0\0\0\0\0\x01\0\0\0\x0c\0\0\0\0\0\0\x10\x04\x11\x22\x33\x44",
            ),
            Step::Fronts(
                b"\x66\x8e\x33\xef\0\x01\0\x02\0\0\0\0\0\0\0\x01\0\0\0\x0c\0\0\0\0\0\0\x10\0\0\0\0\x04",
            ),
        ],
        told: "negotiating; ready; cookie 1; chunk 4100 1 0 11*1 22*1 33*1 44*1; last; chunk 4096 2 0 00*4; free; \
               complete 0 8 00*4 11*1 22*1 33*1 44*1; free; callbacks 2 2",
    },
    Row {
        shows: "an error with a message",
        begins: STRUCTURED_FULL,
        steps: &[
            Step::Asks(Kind::Flush, 0, 0, 0),
            Step::Goes(1),
            Step::Fronts(
                b"\x66\x8e\x33\xef\0\x01\x80\x01\0\0\0\0\0\0\0\x01\0\0\0\x08\0\0\0\x05\0\x02no",
            ),
            Step::Failure(1),
        ],
        told: "negotiating; ready; cookie 1; last; complete 5 0 -; free; told 5; callbacks 1 1",
    },
    Row {
        shows: "an error at an offset",
        begins: STRUCTURED,
        steps: &[
            Step::ReadsChunks(16, 0),
            Step::Goes(1),
            Step::Fronts(
                b"\x66\x8e\x33\xef\0\x01\x80\x02\0\0\0\0\0\0\0\x01\0\0\0\x10\0\0\0\x1c\0\x02no\0\0\0\0\0\0\0\x03",
            ),
            Step::Failure(1),
        ],
        told: "negotiating; ready; cookie 1; last; chunk 3 3 28 -; free; complete 28 16 00*16; free; told 28; \
               callbacks 2 2",
    },
    // two bytes lie behind its message
    Row {
        shows: "an error of another type",
        begins: STRUCTURED,
        steps: &[
            Step::ReadsChunks(16, 0),
            Step::Goes(1),
            Step::Fronts(
                b"\x66\x8e\x33\xef\0\x01\x80\x05\0\0\0\0\0\0\0\x01\0\0\0\x09\0\0\0\x16\0\x01x\0\0",
            ),
            Step::Failure(1),
        ],
        told: "negotiating; ready; cookie 1; last; free; complete 22 16 00*16; free; told 22; callbacks 2 2",
    },
    Row {
        shows: "a simple reply to a write under structured replies",
        begins: STRUCTURED,
        steps: &[
            Step::Asks(Kind::Write, 16, 0, 0),
            Step::Goes(2),
            Step::Fronts(b"\x67\x44\x66\x98\0\0\0\0\0\0\0\0\0\0\0\x01"),
        ],
        told: "negotiating; ready; cookie 1; last; complete 0 16 aa*16; free; callbacks 1 1",
    },
    // ENOSPC (28) and EIO (5)
    Row {
        shows: "errors and other commands have no content",
        begins: FULL,
        steps: &[
            Step::Asks(Kind::Write, 4, 0, 0),
            Step::Asks(Kind::Flush, 0, 0, 0),
            Step::Asks(Kind::Read, 512, 0, 0),
            Step::Goes(4),
            Step::Fronts(b"\x67\x44\x66\x98\0\0\0\x1c\0\0\0\0\0\0\0\x01"),
            Step::Fronts(b"\x67\x44\x66\x98\0\0\0\0\0\0\0\0\0\0\0\x02"),
            Step::Fronts(b"\x67\x44\x66\x98\0\0\0\x05\0\0\0\0\0\0\0\x03"),
        ],
        told: "negotiating; ready; cookie 1; cookie 2; cookie 3; last; complete 28 4 aa*4; free; last; complete 0 0 -; \
               free; last; complete 5 512 00*512; free; callbacks 3 3",
    },
    Row {
        shows: "a read is told at its last byte, and its data is announced by its head",
        begins: BARE,
        steps: &[
            Step::Asks(Kind::Read, 16, 4096, 0),
            Step::Goes(1),
            Step::Comes(b"\x67\x44\x66\x98\0\0\0\0\0\0\0\0\0\0\0"),
            Step::Tells(What::Place),
            Step::Comes(b"\x01"),
            Step::Tells(What::Place),
            Step::Fronts(&[0xab; 16]),
        ],
        told: "negotiating; ready; cookie 1; place 0; place 15; last; complete 0 16 ab*16; free; callbacks 1 1",
    },
    // zeros have no data; twelve bytes from place 4 on, the last ones
    Row {
        shows: "a chunk's data is announced by its head and its offset",
        begins: STRUCTURED,
        steps: &[
            Step::Asks(Kind::Read, 16, 0, 0),
            Step::Goes(1),
            Step::Comes(b"\x66\x8e\x33\xef\0\0\0\x02\0\0\0\0\0\0\0\x01\0\0\0\x0c\0\0\0\0\0\0\0\0"),
            Step::Tells(What::Place),
            Step::Comes(b"\0\0\0\x04"),
            Step::Comes(
                b"\x66\x8e\x33\xef\0\x01\0\x01\0\0\0\0\0\0\0\x01\0\0\0\x14\0\0\0\0\0\0\0\x04",
            ),
            Step::Tells(What::Place),
            Step::Fronts(&[0x11; 12]),
        ],
        told: "negotiating; ready; cookie 1; place 0; place 11; last; complete 0 16 00*4 11*12; free; callbacks 1 1",
    },
    // all, and not the last
    Row {
        shows: "an extended chunk's data is announced by its head and its offset",
        begins: EXTENDED,
        steps: &[
            Step::Asks(Kind::Read, 16, 0, 0),
            Step::Goes(1),
            Step::Comes(
                b"\x6e\x8a\x27\x8c\0\0\0\x01\0\0\0\0\0\0\0\x01\0\0\0\0\0\0\0\0\0\0\0\0\0\0\0\x18",
            ),
            Step::Tells(What::Place),
            Step::Comes(b"\0\0\0\0\0\0\0\0"),
            Step::Tells(What::Place),
            Step::Comes(&[0x11; 16]),
            Step::Tells(What::InFlight),
        ],
        told: "negotiating; ready; cookie 1; place 0; place 15; in flight 1; callbacks 1 1",
    },
];

#[test]
fn replies(rt: HostRuntime) -> Result<(), Fail> {
    play_all(&rt, rt.alloc(), &ROWS)
}
