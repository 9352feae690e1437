//! What the calls that issue a command answer, what goes out, and what a write comes to.

use crate::openings::{BARE, BLOCKS, FULL, READ_ONLY, SMALL};
use crate::play::{Row, Setting, Step, What, play_all};
use lnbd_handle::strict;
use lnbd_model::Kind;
use std::test::Fail;

const MIB: u64 = 1_048_576;

static ROWS: [Row<'static>; 13] = [
    Row {
        shows: "an export that may be read only",
        begins: READ_ONLY,
        steps: &[
            Step::Asks(Kind::Write, 1, 0, 0),
            Step::Asks(Kind::Trim, 1, 0, 0),
            Step::Asks(Kind::Zero, 1, 0, 0),
        ],
        told: "negotiating; ready; free; refused unsupported read-only aa*1; free; refused unsupported read-only -; free; \
               refused unsupported read-only -; callbacks 3 3",
    },
    Row {
        shows: "what an export lacks comes before flags and lengths",
        begins: BARE,
        steps: &[
            Step::Asks(Kind::Flush, 0, 0, 1),
            Step::Asks(Kind::Trim, 0, 0, 8),
            Step::Asks(Kind::Zero, 0, 0, 8),
            Step::Asks(Kind::Cache, 0, 0, 8),
            Step::Asks(Kind::Write, 1, 0, 1),
        ],
        told: "negotiating; ready; free; refused unsupported flush -; free; refused unsupported trim -; free; \
               refused unsupported zero -; free; refused unsupported cache -; free; refused bad-flags 1 aa*1; \
               callbacks 5 5",
    },
    Row {
        shows: "flags come before lengths, lengths before bounds",
        begins: FULL,
        steps: &[
            Step::Asks(Kind::BlockStatus, 0, 0, 1),
            Step::Asks(Kind::Read, 0, 0, 4),
            Step::Asks(Kind::Write, 0, 0, 0x103),
            Step::Asks(Kind::Flush, 0, 0, 1),
            Step::Asks(Kind::Zero, 0, 0, 31),
            Step::Asks(Kind::Read, 0, 2 * MIB, 0),
            Step::Asks(Kind::Write, 0, 2 * MIB, 0),
            Step::Asks(Kind::Trim, 0, 2 * MIB, 0),
            Step::Asks(Kind::Cache, u64::MAX, u64::MAX, 0),
            Step::Asks(Kind::Zero, 4_294_967_295, 0, 0),
            Step::Asks(Kind::Trim, 1, u64::MAX, 1),
            Step::Asks(Kind::Read, 2, MIB - 1, 0),
        ],
        told: "negotiating; ready; free; free; refused unsupported context -; free; refused bad-flags 4 -; free; \
               refused bad-flags 258 -; free; refused bad-flags 1 -; free; refused bad-flags 12 -; free; \
               refused zero-size -; free; refused zero-size -; free; refused zero-size -; free; \
               refused too-big 4294967295 -; free; refused bounds 1048576 -; free; refused bounds 1048576 -; free; \
               refused bounds 1048576 ff*2; callbacks 13 13",
    },
    Row {
        shows: "bounds come before blocks",
        begins: BLOCKS,
        steps: &[
            Step::Asks(Kind::Read, 65_537, MIB, 0),
            Step::Asks(Kind::Write, 511, MIB, 0),
            Step::Asks(Kind::Write, 512, 1, 0),
            Step::Asks(Kind::Zero, 513, 0, 0),
        ],
        told: "negotiating; ready; free; refused too-big 65536 ff*65537; free; refused bounds 1048576 aa*511; free; \
               refused align 512 aa*512; free; refused align 512 -; callbacks 4 4",
    },
    // FUA; and with it NO_HOLE and FAST_ZERO. No structured replies were agreed, so DF is no flag of reads.
    Row {
        shows: "each other flag is refused",
        begins: FULL,
        steps: &[
            Step::Flags(Kind::Read),
            Step::Flags(Kind::Write),
            Step::Flags(Kind::Flush),
            Step::Flags(Kind::Trim),
            Step::Flags(Kind::Cache),
            Step::Flags(Kind::Zero),
        ],
        told: "negotiating; ready; flags 0; flags 1; flags 0; flags 1; flags 0; flags 19; callbacks 192 192",
    },
    Row {
        shows: "a state refuses before all else",
        begins: &[],
        steps: &[
            Step::Asks(Kind::Flush, 0, 0, 0xffff),
            Step::Start,
            Step::Asks(Kind::Flush, 0, 0, 0xffff),
            Step::LinkFailed,
            Step::Asks(Kind::Flush, 0, 0, 0xffff),
            Step::Disconnects,
        ],
        told: "free; refused not-ready created -; negotiating; free; refused not-ready negotiating -; dead link-failed; \
               free; refused dead link-failed -; refused dead link-failed -; callbacks 3 3",
    },
    Row {
        shows: "a handle that closes takes no command",
        begins: BARE,
        steps: &[
            Step::Disconnects,
            Step::Asks(Kind::Flush, 0, 0, 0xffff),
            Step::Ended,
            Step::Asks(Kind::Flush, 0, 0, 0xffff),
        ],
        told: "negotiating; ready; closing; free; refused closing -; closed; free; refused closing -; callbacks 2 2",
    },
    Row {
        shows: "a request is its head",
        begins: FULL,
        steps: &[
            Step::Asks(Kind::Flush, 0, 0, 0),
            Step::Sends(b"\x25\x60\x95\x13\0\0\0\x03\0\0\0\0\0\0\0\x01\0\0\0\0\0\0\0\0\0\0\0\0"),
            Step::Asks(Kind::Trim, 8192, 4096, 1),
            Step::Sends(
                b"\x25\x60\x95\x13\0\x01\0\x04\0\0\0\0\0\0\0\x02\0\0\0\0\0\0\x10\0\0\0\x20\0",
            ),
            Step::Asks(Kind::Cache, MIB, 0, 0),
            Step::Sends(b"\x25\x60\x95\x13\0\0\0\x05\0\0\0\0\0\0\0\x03\0\0\0\0\0\0\0\0\0\x10\0\0"),
            Step::Asks(Kind::Zero, 1, 2, 19),
            Step::Sends(
                b"\x25\x60\x95\x13\0\x13\0\x06\0\0\0\0\0\0\0\x04\0\0\0\0\0\0\0\x02\0\0\0\x01",
            ),
            Step::Asks(Kind::Read, 16, 5, 0),
            Step::Sends(b"\x25\x60\x95\x13\0\0\0\0\0\0\0\0\0\0\0\x05\0\0\0\0\0\0\0\x05\0\0\0\x10"),
            Step::Sends(b""),
            Step::Comes(b"\x67\x44\x66\x98\0\0\0\0\0\0\0\0\0\0\0\x04"),
            Step::Takes(4),
            Step::Comes(b"\x67\x44\x66\x98\0\0\0\0\0\0\0\0\0\0\0\x02"),
            Step::Takes(2),
            Step::Comes(b"\x67\x44\x66\x98\0\0\0\0\0\0\0\0\0\0\0\x01"),
            Step::Takes(1),
            Step::Comes(b"\x67\x44\x66\x98\0\0\0\0\0\0\0\0\0\0\0\x03"),
            Step::Takes(3),
        ],
        told: "negotiating; ready; cookie 1; cookie 2; cookie 3; cookie 4; cookie 5; complete 0 0 -; free; done 0 -; \
               complete 0 0 -; free; done 0 -; complete 0 0 -; free; done 0 -; complete 0 0 -; free; done 0 -; \
               callbacks 5 5",
    },
    // ENOSPC (28) comes for the first, and the connection ends behind a byte of the second
    Row {
        shows: "a write sends its own bytes",
        begins: FULL,
        steps: &[
            Step::Writes(b"abc", 7, 1),
            Step::Writes(b"def", 7, 1),
            Step::Writes(b"ghi", 7, 1),
            Step::Sends(
                b"\x25\x60\x95\x13\0\x01\0\x01\0\0\0\0\0\0\0\x01\0\0\0\0\0\0\0\x07\0\0\0\x03",
            ),
            Step::SendsFront(b"abc", 1),
            Step::Sends(b"bc"),
            Step::Sends(
                b"\x25\x60\x95\x13\0\x01\0\x01\0\0\0\0\0\0\0\x02\0\0\0\0\0\0\0\x07\0\0\0\x03",
            ),
            Step::Comes(b"\x67\x44\x66\x98\0\0\0\x1c\0\0\0\0\0\0\0\x01"),
            Step::SendsFront(b"def", 1),
            Step::Ended,
            Step::Takes(1),
            Step::Takes(2),
            Step::Takes(3),
        ],
        told: "negotiating; ready; cookie 1; cookie 2; cookie 3; complete 28 3 61*1 62*1 63*1; free; \
               complete 107 3 64*1 65*1 66*1; free; complete 107 3 67*1 68*1 69*1; free; dead ended; \
               failed 28 3 61*1 62*1 63*1; failed 107 3 64*1 65*1 66*1; failed 107 3 67*1 68*1 69*1; callbacks 3 3",
    },
    Row {
        shows: "a reply to a write that is not written is a breach",
        begins: FULL,
        steps: &[
            Step::Asks(Kind::Write, 2, 0, 0),
            Step::Goes(1),
            Step::SendsFront(&[0xaa, 0xaa], 1),
            Step::Comes(b"\x67\x44\x66\x98\0\0\0\0\0\0\0\0\0\0\0\x01"),
            Step::Takes(1),
        ],
        told: "negotiating; ready; cookie 1; complete 107 2 aa*2; free; dead broke UnknownCookie; failed 107 2 aa*2; \
               callbacks 1 1",
    },
    Row {
        shows: "both callbacks of a refused command are freed",
        begins: BARE,
        steps: &[Step::ReadsChunks(2, MIB), Step::Tells(What::Log)],
        told: "negotiating; ready; free; free; refused bounds 1048576 ff*2; freed 1; freed 2; callbacks 2 2",
    },
    // EINVAL (22) and ENOSPC (28)
    Row {
        shows: "a lax client asks what it likes",
        begins: SMALL,
        steps: &[
            Step::Tells(What::Strict),
            Step::Sets(Setting::Strict(32)),
            Step::Tells(What::Strict),
            Step::Sets(Setting::Strict(0)),
            Step::Asks(Kind::Read, 1, 4096, 0),
            Step::Asks(Kind::Read, 0, 0, 0),
            Step::Asks(Kind::Read, 1, 0, 2),
            Step::Asks(Kind::Write, 1, 4096, 0),
            Step::Asks(Kind::Read, 1, 0, 32),
            Step::Goes(5),
            Step::Comes(b"\x67\x44\x66\x98\0\0\0\x16\0\0\0\0\0\0\0\x01"),
            Step::Comes(b"\x67\x44\x66\x98\0\0\0\0\0\0\0\0\0\0\0\x02"),
            Step::Comes(b"\x67\x44\x66\x98\0\0\0\x16\0\0\0\0\0\0\0\x03"),
            Step::Comes(b"\x67\x44\x66\x98\0\0\0\x1c\0\0\0\0\0\0\0\x04"),
            Step::Takes(1),
            Step::Takes(2),
            Step::Takes(3),
            Step::Takes(4),
            Step::Sets(Setting::Strict(strict::ALL - strict::BOUNDS)),
            Step::Asks(Kind::Read, 1, 4096, 0),
            Step::Asks(Kind::Read, 1, u64::MAX, 0),
            Step::Asks(Kind::Read, 0, 0, 0),
        ],
        told: "negotiating; ready; strict 31; unknown 32; strict 31; cookie 1; cookie 2; cookie 3; cookie 4; free; \
               refused bad-flags 32 ff*1; complete 22 1 00*1; free; complete 0 0 -; free; complete 22 1 00*1; free; \
               complete 28 1 aa*1; free; failed 22 1 00*1; done 0 -; failed 22 1 00*1; failed 28 1 aa*1; cookie 5; \
               cookie 6; free; refused zero-size -; callbacks 8 8",
    },
    Row {
        shows: "only so many commands are not retired",
        begins: BARE,
        steps: &[
            Step::Reads(1024),
            Step::Asks(Kind::Read, 1, 0, 0),
            Step::Goes(1),
            Step::Comes(b"\x67\x44\x66\x98\0\0\0\0\0\0\0\0\0\0\0\x01\x11"),
            Step::Asks(Kind::Read, 1, 0, 0),
            Step::Takes(1),
            Step::Asks(Kind::Read, 1, 0, 0),
        ],
        told: "negotiating; ready; cookies 1024; free; refused too-many 1024 ff*1; complete 0 1 11*1; free; free; \
               refused too-many 1024 ff*1; done 1 11*1; cookie 1025; callbacks 1027 1027",
    },
];

#[test]
fn issues(rt: HostRuntime) -> Result<(), Fail> {
    play_all(&rt, rt.alloc(), &ROWS)
}
