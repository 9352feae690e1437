//! Whole sessions: what goes out, what the calls answer, and what the callbacks hear.

use crate::openings::{BARE, CLIENT_FLAGS, GO_REQUEST, READY};
use crate::play::{Row, Step, What, play_all};
use lnbd_model::Kind;
use std::test::Fail;

/// A read of 512 bytes at 0 with the cookie 1, and DISC.
const READ_REQUEST: &[u8] = b"\x25\x60\x95\x13\0\0\0\0\0\0\0\0\0\0\0\x01\0\0\0\0\0\0\0\0\0\0\x02\0";

const DISCONNECT: &[u8] = b"\x25\x60\x95\x13\0\0\0\x02\0\0\0\0\0\0\0\0\0\0\0\0\0\0\0\0\0\0\0\0";

/// Simple replies without an error, but for their data.
const FIRST: &[u8] = b"\x67\x44\x66\x98\0\0\0\0\0\0\0\0\0\0\0\x01";

const SECOND: &[u8] = b"\x67\x44\x66\x98\0\0\0\0\0\0\0\0\0\0\0\x02";

static ROWS: [Row<'static>; 9] = [
    Row {
        shows: "a read and the end",
        begins: READY,
        steps: &[
            Step::Sends(CLIENT_FLAGS),
            Step::Sends(GO_REQUEST),
            Step::Asks(Kind::Read, 512, 0, 0),
            Step::Sends(READ_REQUEST),
            Step::Comes(FIRST),
            Step::Comes(&[0xab; 512]),
            Step::Tells(What::Log),
            Step::Takes(1),
            Step::Disconnects,
            Step::Sends(DISCONNECT),
            Step::Ended,
        ],
        told: "negotiating; ready; cookie 1; complete 0 512 ab*512; free; completed 1 0 kept; freed 1; done 512 ab*512; \
               closing; closed; callbacks 1 1",
    },
    Row {
        shows: "a read of nothing is refused",
        begins: READY,
        steps: &[Step::Asks(Kind::Read, 0, 0, 0), Step::Tells(What::Log)],
        told: "negotiating; ready; free; refused zero-size -; freed 1; callbacks 1 1",
    },
    Row {
        shows: "replies come in any order",
        begins: BARE,
        steps: &[
            Step::Asks(Kind::Read, 1, 0, 0),
            Step::Asks(Kind::Read, 1, 0, 0),
            Step::Asks(Kind::Read, 1, 0, 0),
            Step::Goes(3),
            Step::Comes(b"\x67\x44\x66\x98\0\0\0\0\0\0\0\0\0\0\0\x03\x33"),
            Step::Comes(b"\x67\x44\x66\x98\0\0\0\0\0\0\0\0\0\0\0\x01\x11"),
            Step::Comes(b"\x67\x44\x66\x98\0\0\0\0\0\0\0\0\0\0\0\x02\x22"),
            Step::Tells(What::Next),
            Step::Takes(1),
            Step::Takes(2),
            Step::Takes(3),
            Step::Tells(What::Next),
        ],
        told: "negotiating; ready; cookie 1; cookie 2; cookie 3; complete 0 1 33*1; free; complete 0 1 11*1; free; \
               complete 0 1 22*1; free; cookie 3; done 1 11*1; done 1 22*1; done 1 33*1; none-left; callbacks 3 3",
    },
    Row {
        shows: "data comes in pieces",
        begins: BARE,
        steps: &[
            Step::Asks(Kind::Read, 4, 0, 0),
            Step::Asks(Kind::Read, 4, 0, 0),
            Step::Goes(2),
            Step::Comes(SECOND),
            Step::Comes(b"ab"),
            Step::Comes(b"cd"),
            Step::Comes(FIRST),
            Step::Comes(b"ef"),
            Step::Comes(b"gh"),
            Step::Takes(2),
            Step::Takes(1),
        ],
        told: "negotiating; ready; cookie 1; cookie 2; complete 0 4 61*1 62*1 63*1 64*1; free; \
               complete 0 4 65*1 66*1 67*1 68*1; free; done 4 61*1 62*1 63*1 64*1; done 4 65*1 66*1 67*1 68*1; \
               callbacks 2 2",
    },
    Row {
        shows: "the place leaves the last byte out",
        begins: BARE,
        steps: &[
            Step::Asks(Kind::Read, 4, 0, 0),
            Step::Goes(1),
            Step::Tells(What::Place),
            Step::Comes(FIRST),
            Step::Tells(What::Place),
            Step::Comes(b"abc"),
            Step::Tells(What::Place),
            Step::Comes(b"d"),
            Step::Takes(1),
        ],
        told: "negotiating; ready; cookie 1; place 0; place 3; place 0; complete 0 4 61*1 62*1 63*1 64*1; free; \
               done 4 61*1 62*1 63*1 64*1; callbacks 1 1",
    },
    // one request went out whole, and ten bytes of the next
    Row {
        shows: "a death fails all that were left",
        begins: BARE,
        steps: &[
            Step::Asks(Kind::Read, 512, 0, 0),
            Step::Asks(Kind::Read, 512, 0, 0),
            Step::Asks(Kind::Read, 512, 0, 0),
            Step::Tells(What::InFlight),
            Step::Goes(1),
            Step::SendsFront(
                b"\x25\x60\x95\x13\0\0\0\0\0\0\0\0\0\0\0\x02\0\0\0\0\0\0\0\0\0\0\x02\0",
                10,
            ),
            Step::Ended,
            Step::Tells(What::Log),
            Step::Takes(3),
            Step::Asks(Kind::Read, 1, 0, 0),
        ],
        told: "negotiating; ready; cookie 1; cookie 2; cookie 3; in flight 3; complete 107 512 00*512; free; \
               complete 107 512 00*512; free; complete 107 512 00*512; free; dead ended; completed 1 107 kept; freed 1; \
               completed 2 107 kept; freed 2; completed 3 107 kept; freed 3; failed 107 512 00*512; free; \
               refused dead ended ff*1; callbacks 4 4",
    },
    // EIO (5) for the first command; the connection ends before the second is answered
    Row {
        shows: "an error tells where it came from",
        begins: BARE,
        steps: &[
            Step::Asks(Kind::Read, 1, 0, 0),
            Step::Asks(Kind::Read, 1, 0, 0),
            Step::Goes(2),
            Step::Failure(1),
            Step::Comes(b"\x67\x44\x66\x98\0\0\0\x05\0\0\0\0\0\0\0\x01"),
            Step::Ended,
            Step::Failure(1),
            Step::Failure(2),
            Step::Failure(3),
            Step::Takes(1),
            Step::Failure(1),
        ],
        told: "negotiating; ready; cookie 1; cookie 2; no failure; complete 5 1 00*1; free; complete 107 1 00*1; free; \
               dead ended; told 5; lost 107; no failure; failed 5 1 00*1; no failure; callbacks 2 2",
    },
    Row {
        shows: "a callback retires its command",
        begins: BARE,
        steps: &[
            Step::Retires(512),
            Step::Goes(1),
            Step::Comes(FIRST),
            Step::Comes(&[0xab; 512]),
            Step::Takes(1),
            Step::Tells(What::Log),
        ],
        told: "negotiating; ready; cookie 1; complete 0 512 ab*512; free; no-such-cookie; completed 1 0 retired; freed 1; \
               callbacks 1 1",
    },
    Row {
        shows: "an unknown cookie is a breach",
        begins: BARE,
        steps: &[
            Step::Asks(Kind::Read, 512, 0, 0),
            Step::Goes(1),
            Step::Comes(b"\x67\x44\x66\x98\0\0\0\0\0\0\0\0\0\0\0\x63"),
            Step::Takes(1),
            Step::Tells(What::Direction),
        ],
        told: "negotiating; ready; cookie 1; complete 107 512 00*512; free; dead broke UnknownCookie; \
               failed 107 512 00*512; direction 0; callbacks 1 1",
    },
];

#[test]
fn sessions(rt: HostRuntime) -> Result<(), Fail> {
    play_all(&rt, rt.alloc(), &ROWS)
}
