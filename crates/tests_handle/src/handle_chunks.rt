//! Sessions with structured replies, and with extended headers.

use crate::openings::{
    CLIENT_FLAGS, EXTENDED, EXTENDED_ACK, EXTENDED_REQUEST, GO_REQUEST, HELLO, STRUCTURED,
};
use crate::play::{Row, Setting, Step, What, play_all};
use lnbd_model::Kind;
use std::test::Fail;

/// GO's reply for an export of 8 GiB that has WRITE_ZEROES, and its ACK.
const GO_ZEROES: &[u8] =
    b"\0\x03\xe8\x89\x04\x55\x65\xa9\0\0\0\x07\0\0\0\x03\0\0\0\x0c\0\0\0\0\0\x02\0\0\0\0\0\x41\
\0\x03\xe8\x89\x04\x55\x65\xa9\0\0\0\x07\0\0\0\x01\0\0\0\0";

/// A zeroing of 6 GiB at 0, and its answer.
const ZERO_REQUEST: &[u8] =
    b"\x21\xe4\x1c\x71\0\0\0\x06\0\0\0\0\0\0\0\x01\0\0\0\0\0\0\0\0\0\0\0\x01\x80\0\0\0";

const ZERO_REPLY: &[u8] =
    b"\x6e\x8a\x27\x8c\0\x01\0\0\0\0\0\0\0\0\0\x01\0\0\0\0\0\0\0\0\0\0\0\0\0\0\0\0";

/// A write of four bytes at 0 with extended headers.
const WRITE_REQUEST: &[u8] =
    b"\x21\xe4\x1c\x71\0\x20\0\x01\0\0\0\0\0\0\0\x02\0\0\0\0\0\0\0\0\0\0\0\0\0\0\0\x04";

/// Chunks to a read of four bytes: all at once; the end and then the beginning; the end and then all, which is over what was told.
const AT_ONCE: &[u8] =
    b"\x6e\x8a\x27\x8c\0\x01\0\x01\0\0\0\0\0\0\0\x01\0\0\0\0\0\0\0\0\0\0\0\0\0\0\0\x0c\0\0\0\0\0\0\0\0abcd";

const BACKWARDS: &[u8] =
    b"\x66\x8e\x33\xef\0\0\0\x01\0\0\0\0\0\0\0\x01\0\0\0\x0a\0\0\0\0\0\0\0\x02cd\
\x66\x8e\x33\xef\0\x01\0\x01\0\0\0\0\0\0\0\x01\0\0\0\x0a\0\0\0\0\0\0\0\0ab";

const OVER: &[u8] = b"\x66\x8e\x33\xef\0\0\0\x01\0\0\0\0\0\0\0\x01\0\0\0\x0a\0\0\0\0\0\0\0\x02cd\
\x66\x8e\x33\xef\0\x01\0\x01\0\0\0\0\0\0\0\x01\0\0\0\x0c\0\0\0\0\0\0\0\0abcd";

static ROWS: [Row<'static>; 9] = [
    // those of the second read stand between the two halves of the first
    Row {
        shows: "chunks of two reads stand one in the other",
        begins: STRUCTURED,
        steps: &[
            Step::ReadsChunks(8, 0),
            Step::ReadsChunks(8, 8),
            Step::Goes(2),
            Step::Comes(
                b"\x66\x8e\x33\xef\0\0\0\x01\0\0\0\0\0\0\0\x01\0\0\0\x0c\0\0\0\0\0\0\0\0\x11\x11\x11\x11\
\x66\x8e\x33\xef\0\x01\0\x01\0\0\0\0\0\0\0\x02\0\0\0\x10\0\0\0\0\0\0\0\x08\x22\x22\x22\x22\x22\x22\x22\x22\
\x66\x8e\x33\xef\0\x01\0\x01\0\0\0\0\0\0\0\x01\0\0\0\x0c\0\0\0\0\0\0\0\x04\x33\x33\x33\x33",
            ),
            Step::Tells(What::Log),
            Step::Takes(1),
            Step::Takes(2),
        ],
        told: "negotiating; ready; cookie 1; cookie 2; chunk 0 1 0 11*4; chunk 8 1 0 22*8; free; complete 0 8 22*8; free; \
               chunk 4 1 0 33*4; free; complete 0 8 11*4 33*4; free; chunk 1 0 4 1 0 0; chunk 3 8 8 1 0 0; freed 3; \
               completed 4 0 kept; freed 4; chunk 1 4 4 1 0 0; freed 1; completed 2 0 kept; freed 2; done 8 11*4 33*4; \
               done 8 22*8; callbacks 4 4",
    },
    // a hole of 8 of 16 bytes, 7 bytes more, and the end
    Row {
        shows: "a read with a gap fails",
        begins: STRUCTURED,
        steps: &[
            Step::ReadsChunks(16, 0),
            Step::Goes(1),
            Step::Comes(
                b"\x66\x8e\x33\xef\0\0\0\x02\0\0\0\0\0\0\0\x01\0\0\0\x0c\0\0\0\0\0\0\0\0\0\0\0\x08\
\x66\x8e\x33\xef\0\0\0\x01\0\0\0\0\0\0\0\x01\0\0\0\x0f\0\0\0\0\0\0\0\x08\x55\x55\x55\x55\x55\x55\x55\
\x66\x8e\x33\xef\0\x01\0\0\0\0\0\0\0\0\0\x01\0\0\0\0",
            ),
            Step::Failure(1),
            Step::Takes(1),
        ],
        told: "negotiating; ready; cookie 1; chunk 0 2 0 00*8; chunk 8 1 0 55*7; free; complete 71 16 00*16; free; \
               content 71; failed 71 16 00*16; callbacks 2 2",
    },
    Row {
        shows: "data all at once",
        begins: EXTENDED,
        steps: &[
            Step::ReadsChunks(4, 0),
            Step::Goes(1),
            Step::Comes(AT_ONCE),
            Step::Takes(1),
        ],
        told: "negotiating; ready; cookie 1; chunk 0 1 0 61*1 62*1 63*1 64*1; free; complete 0 4 61*1 62*1 63*1 64*1; free; \
               done 4 61*1 62*1 63*1 64*1; callbacks 2 2",
    },
    Row {
        shows: "data all at once in place",
        begins: EXTENDED,
        steps: &[
            Step::ReadsChunks(4, 0),
            Step::Goes(1),
            Step::Placed(AT_ONCE),
            Step::Takes(1),
        ],
        told: "negotiating; ready; cookie 1; chunk 0 1 0 61*1 62*1 63*1 64*1; free; complete 0 4 61*1 62*1 63*1 64*1; free; \
               placed 3; done 4 61*1 62*1 63*1 64*1; callbacks 2 2",
    },
    Row {
        shows: "the end comes before the beginning",
        begins: STRUCTURED,
        steps: &[
            Step::ReadsChunks(4, 0),
            Step::Goes(1),
            Step::Comes(BACKWARDS),
            Step::Takes(1),
        ],
        told: "negotiating; ready; cookie 1; chunk 2 1 0 63*1 64*1; chunk 0 1 0 61*1 62*1; free; \
               complete 0 4 61*1 62*1 63*1 64*1; free; done 4 61*1 62*1 63*1 64*1; callbacks 2 2",
    },
    Row {
        shows: "the end comes before the beginning in place",
        begins: STRUCTURED,
        steps: &[
            Step::ReadsChunks(4, 0),
            Step::Goes(1),
            Step::Placed(BACKWARDS),
            Step::Takes(1),
        ],
        told: "negotiating; ready; cookie 1; chunk 2 1 0 63*1 64*1; chunk 0 1 0 61*1 62*1; free; \
               complete 0 4 61*1 62*1 63*1 64*1; free; placed 2; done 4 61*1 62*1 63*1 64*1; callbacks 2 2",
    },
    // what lies over what was told is not told
    Row {
        shows: "a byte is told twice",
        begins: STRUCTURED,
        steps: &[
            Step::ReadsChunks(4, 0),
            Step::Goes(1),
            Step::Comes(OVER),
            Step::Takes(1),
        ],
        told: "negotiating; ready; cookie 1; chunk 2 1 0 63*1 64*1; free; complete 71 4 00*4; free; failed 71 4 00*4; \
               callbacks 2 2",
    },
    Row {
        shows: "a byte is told twice in place",
        begins: STRUCTURED,
        steps: &[
            Step::ReadsChunks(4, 0),
            Step::Goes(1),
            Step::Placed(OVER),
            Step::Takes(1),
        ],
        told: "negotiating; ready; cookie 1; chunk 2 1 0 63*1 64*1; free; complete 71 4 00*4; free; placed 1; \
               failed 71 4 00*4; callbacks 2 2",
    },
    // a simple reply is a breach under them
    Row {
        shows: "extended headers carry long requests",
        begins: &[
            Step::Sets(Setting::Extended(true)),
            Step::Start,
            Step::Comes(HELLO),
            Step::Sends(CLIENT_FLAGS),
            Step::Sends(EXTENDED_REQUEST),
            Step::Comes(EXTENDED_ACK),
            Step::Sends(GO_REQUEST),
            Step::Comes(GO_ZEROES),
        ],
        steps: &[
            Step::Asks(Kind::Zero, 0x1_8000_0000, 0, 0),
            Step::Sends(ZERO_REQUEST),
            Step::Comes(ZERO_REPLY),
            Step::Takes(1),
            Step::Writes(b"\x01\x02\x03\x04", 0, 0),
            Step::Sends(WRITE_REQUEST),
            Step::Sends(b"\x01\x02\x03\x04"),
            Step::Comes(b"\x67\x44\x66\x98"),
        ],
        told: "negotiating; ready; cookie 1; complete 0 0 -; free; done 0 -; cookie 2; \
               complete 107 4 01*1 02*1 03*1 04*1; free; dead broke MixedHeaders; callbacks 2 2",
    },
];

#[test]
fn chunks(rt: HostRuntime) -> Result<(), Fail> {
    play_all(&rt, rt.alloc(), &ROWS)
}
