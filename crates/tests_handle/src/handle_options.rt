//! Negotiation: what the calls answer in opt mode and outside it, what goes out, and what is known of the export then.

use crate::openings::{ASKING, CLIENT_FLAGS, GO, GO_REQUEST, HELLO, OPT_MODE};
use crate::play::{Opt, Row, Setting, Step, What, play_all};
use std::test::Fail;

/// The requests of LIST and of ABORT, which have no body, and of INFO for the empty name.
const LIST_REQUEST: &[u8] = b"IHAVEOPT\0\0\0\x03\0\0\0\0";

const ABORT_REQUEST: &[u8] = b"IHAVEOPT\0\0\0\x02\0\0\0\0";

const INFO_REQUEST: &[u8] = b"IHAVEOPT\0\0\0\x06\0\0\0\x0c\0\0\0\0\0\x03\0\x01\0\x02\0\x03";

/// EXPORT_NAME for the empty name.
const NAME_REQUEST: &[u8] = b"IHAVEOPT\0\0\0\x01\0\0\0\0";

/// LIST's reply that tells the export `a` with the description `x`, and its ACK.
const SERVER: &[u8] = b"\0\x03\xe8\x89\x04\x55\x65\xa9\0\0\0\x03\0\0\0\x02\0\0\0\x06\0\0\0\x01ax";

const LIST_ACK: &[u8] = b"\0\x03\xe8\x89\x04\x55\x65\xa9\0\0\0\x03\0\0\0\x01\0\0\0\0";

const GO_ACK: &[u8] = b"\0\x03\xe8\x89\x04\x55\x65\xa9\0\0\0\x07\0\0\0\x01\0\0\0\0";

/// INFO of GO with the size of 1 MiB and the flags 1.
const GO_SIZE: &[u8] =
    b"\0\x03\xe8\x89\x04\x55\x65\xa9\0\0\0\x07\0\0\0\x03\0\0\0\x0c\0\0\0\0\0\0\0\x10\0\0\0\x01";

/// GO refused since it is not known (UNSUP, 1).
const GO_UNKNOWN: &[u8] = b"\0\x03\xe8\x89\x04\x55\x65\xa9\0\0\0\x07\x80\0\0\x01\0\0\0\0";

static ROWS: [Row<'static>; 13] = [
    // INFO is refused by UNKNOWN (6), GO by POLICY (2). The former answer stands until the next one comes, what was listed
    // stays, and where GO is refused the caller may go on.
    Row {
        shows: "options are asked one after another",
        begins: OPT_MODE,
        steps: &[
            Step::Tells(What::Answer),
            Step::Tells(What::Listed),
            Step::Opts(Opt::List),
            Step::Sends(LIST_REQUEST),
            Step::Comes(SERVER),
            Step::Tells(What::Answer),
            Step::Comes(LIST_ACK),
            Step::Tells(What::Answer),
            Step::Tells(What::Listed),
            Step::Opts(Opt::Info),
            Step::Sends(INFO_REQUEST),
            Step::Tells(What::Answer),
            Step::Comes(b"\0\x03\xe8\x89\x04\x55\x65\xa9\0\0\0\x06\x80\0\0\x06\0\0\0\0"),
            Step::Tells(What::Answer),
            Step::Tells(What::Listed),
            Step::Tells(What::Info),
            Step::Opts(Opt::Go),
            Step::Sends(GO_REQUEST),
            Step::Comes(b"\0\x03\xe8\x89\x04\x55\x65\xa9\0\0\0\x07\x80\0\0\x02\0\0\0\0"),
            Step::Tells(What::Answer),
            Step::Opts(Opt::Go),
            Step::Comes(GO),
            Step::Tells(What::Info),
        ],
        told: "negotiating; opt-mode; none; negotiating; none; opt-mode; ok; a: x; negotiating; ok; opt-mode; refused 6 6; \
               a: x; info none; negotiating; opt-mode; refused 7 2; negotiating; ready; info 1048576 1 - - - false\nend; \
               callbacks 0 0",
    },
    Row {
        shows: "an option is asked in opt mode alone",
        begins: &[],
        steps: &[
            Step::OptsAll,
            Step::Sets(Setting::OptMode(false)),
            Step::Sets(Setting::OptMode(true)),
            Step::Start,
            Step::Sets(Setting::OptMode(false)),
            Step::OptsAll,
            Step::Comes(HELLO),
            Step::Opts(Opt::List),
            Step::OptsAll,
            Step::Comes(LIST_ACK),
            Step::Opts(Opt::Go),
            Step::Comes(GO),
            Step::OptsAll,
            Step::Disconnects,
            Step::OptsAll,
            Step::Ended,
            Step::OptsAll,
        ],
        told: "options refused 5; negotiating; refused state negotiating; options refused 5; opt-mode; negotiating; \
               options refused 5; opt-mode; negotiating; ready; options refused 5; closing; options refused 5; closed; \
               options refused 5; callbacks 0 0",
    },
    Row {
        shows: "after an abort so many bytes are passed over",
        begins: OPT_MODE,
        steps: &[
            Step::Opts(Opt::Abort),
            Step::OptsAll,
            Step::Sends(ABORT_REQUEST),
            Step::Repeats(&[0xff; 256], 255),
            Step::Comes(&[0xff; 256]),
            Step::Tells(What::Direction),
            Step::Comes(&[0xff]),
        ],
        told: "negotiating; opt-mode; closing; options refused 5; direction 1; dead broke TooManyReplies; callbacks 0 0",
    },
    // a part of a reply is there, and is dropped
    Row {
        shows: "an abort ends as was asked",
        begins: OPT_MODE,
        steps: &[
            Step::Opts(Opt::List),
            Step::Comes(LIST_ACK),
            Step::Comes(b"\0\x03\xe8\x89\x04\x55\x65"),
            Step::Opts(Opt::Abort),
            Step::Comes(b"\xa9\0\0\0\x03\0\0\0\x01\0\0\0\0"),
            Step::Ended,
        ],
        told: "negotiating; opt-mode; negotiating; opt-mode; closing; closed; callbacks 0 0",
    },
    // they are asked for where structured replies are on
    Row {
        shows: "sixteen contexts may be added",
        begins: OPT_MODE,
        steps: &[
            Step::Sets(Setting::Contexts(16)),
            Step::Sets(Setting::Contexts(1)),
            Step::Opts(Opt::SetContext),
            Step::Opts(Opt::Go),
            Step::Sets(Setting::Contexts(1)),
        ],
        told: "negotiating; opt-mode; too many 16; not structured; negotiating; refused state negotiating; callbacks 0 0",
    },
    Row {
        shows: "a context is asked for",
        begins: &[
            Step::Sets(Setting::Structured(true)),
            Step::Sets(Setting::OptMode(true)),
            Step::Sets(Setting::Name(b"a")),
            Step::Start,
            Step::Comes(HELLO),
            Step::Comes(b"\0\x03\xe8\x89\x04\x55\x65\xa9\0\0\0\x08\0\0\0\x01\0\0\0\0"),
            Step::Goes(2),
        ],
        steps: &[
            Step::Sets(Setting::Contexts(1)),
            Step::Opts(Opt::SetContext),
            Step::Sends(
                b"IHAVEOPT\0\0\0\x0a\0\0\0\x1c\0\0\0\x01a\0\0\0\x01\0\0\0\x0fbase:allocation",
            ),
            Step::Comes(
                b"\0\x03\xe8\x89\x04\x55\x65\xa9\0\0\0\x0a\0\0\0\x04\0\0\0\x13\0\0\0\x01base:allocation",
            ),
            Step::Comes(b"\0\x03\xe8\x89\x04\x55\x65\xa9\0\0\0\x0a\0\0\0\x01\0\0\0\0"),
            Step::Opts(Opt::Go),
            Step::Sends(b"IHAVEOPT\0\0\0\x07\0\0\0\x0d\0\0\0\x01a\0\x03\0\x01\0\x02\0\x03"),
            Step::Comes(GO),
            Step::Tells(What::Info),
        ],
        told: "negotiating; opt-mode; negotiating; opt-mode; negotiating; ready; \
               info 1048576 1 - - - true\ncontext 1 base:allocation\nend; callbacks 0 0",
    },
    // three bytes of a reply's magic lie behind
    Row {
        shows: "a hello and the answer to GO",
        begins: &[Step::Start],
        steps: &[
            Step::Comes(HELLO),
            Step::Comes(GO),
            Step::Comes(b"\x67\x44\x66"),
            Step::Tells(What::Info),
        ],
        told: "negotiating; ready; info 1048576 1 - - - false\nend; callbacks 0 0",
    },
    // 124 zeros come behind the flags, as NO_ZEROES was not offered
    Row {
        shows: "EXPORT_NAME stands in where GO is not known",
        begins: &[Step::Start],
        steps: &[
            Step::Comes(b"NBDMAGICIHAVEOPT\0\x01"),
            Step::Sends(b"\0\0\0\x01"),
            Step::Sends(GO_REQUEST),
            Step::Comes(GO_UNKNOWN),
            Step::Sends(NAME_REQUEST),
            Step::Comes(b"\0\0\0\0\0\0\x10\0\0\x01"),
            Step::Comes(&[0; 123]),
            Step::Fronts(&[0]),
            Step::Tells(What::Info),
        ],
        told: "negotiating; last; ready; info 4096 1 - - - false\nend; callbacks 0 0",
    },
    Row {
        shows: "EXPORT_NAME without zeros",
        begins: ASKING,
        steps: &[
            Step::Sends(CLIENT_FLAGS),
            Step::Sends(GO_REQUEST),
            Step::Comes(GO_UNKNOWN),
            Step::Sends(NAME_REQUEST),
            Step::Fronts(b"\0\0\0\0\0\0\x10\0\0\x01"),
            Step::Comes(b"\x67"),
            Step::Tells(What::Info),
        ],
        told: "negotiating; last; ready; info 4096 1 - - - false\nend; callbacks 0 0",
    },
    // by TLS_REQD (5)
    Row {
        shows: "nothing counts where GO is refused",
        begins: ASKING,
        steps: &[
            Step::Comes(b"\0\x03\xe8\x89\x04\x55\x65\xa9\0\0\0\x07\x80\0\0\x05\0\0\0\0"),
            Step::Comes(b"\0\0"),
        ],
        told: "negotiating; dead refused 7 5; callbacks 0 0",
    },
    Row {
        shows: "a list shows each export",
        begins: OPT_MODE,
        steps: &[
            Step::Opts(Opt::List),
            Step::Comes(
                b"\0\x03\xe8\x89\x04\x55\x65\xa9\0\0\0\x03\0\0\0\x02\0\0\0\x0d\0\0\0\0root disk\
\0\x03\xe8\x89\x04\x55\x65\xa9\0\0\0\x03\0\0\0\x02\0\0\0\x08\0\0\0\x04blue\
\0\x03\xe8\x89\x04\x55\x65\xa9\0\0\0\x03\0\0\0\x02\0\0\0\x0b\0\0\0\x07\xc3\xa9t\xc3\xa9 2",
            ),
            Step::Comes(SERVER),
            Step::Comes(LIST_ACK),
            Step::Tells(What::Listed),
        ],
        told: "negotiating; opt-mode; negotiating; opt-mode; : root disk; blue: ; \u{e9}t\u{e9} 2: ; a: x; callbacks 0 0",
    },
    // the second block sizes are no powers of two, and no information has the number 4
    Row {
        shows: "information is told or passed over",
        begins: ASKING,
        steps: &[
            Step::Comes(
                b"\0\x03\xe8\x89\x04\x55\x65\xa9\0\0\0\x07\0\0\0\x03\0\0\0\x0e\0\x03\0\0\x02\0\0\0\x10\0\0\x01\0\0\
\0\x03\xe8\x89\x04\x55\x65\xa9\0\0\0\x07\0\0\0\x03\0\0\0\x0e\0\x03\0\0\x02\0\0\0\x0b\xb8\0\x01\0\0\
\0\x03\xe8\x89\x04\x55\x65\xa9\0\0\0\x07\0\0\0\x03\0\0\0\x03\0\x01a\
\0\x03\xe8\x89\x04\x55\x65\xa9\0\0\0\x07\0\0\0\x03\0\0\0\x03\0\x02x\
\0\x03\xe8\x89\x04\x55\x65\xa9\0\0\0\x07\0\0\0\x03\0\0\0\x03\0\x04?",
            ),
            Step::Comes(GO_SIZE),
            Step::Comes(GO_ACK),
            Step::Tells(What::Info),
            Step::Tells(What::Names),
        ],
        told: "negotiating; ready; info 1048576 1 512 4096 65536 false\nend; a: x; callbacks 0 0",
    },
    Row {
        shows: "a setting is refused behind the start",
        begins: ASKING,
        steps: &[
            Step::Start,
            Step::Sets(Setting::Structured(true)),
            Step::Sets(Setting::Extended(true)),
            Step::Sets(Setting::Name(b"a")),
        ],
        told: "negotiating; refused state negotiating; refused state negotiating; refused state negotiating; \
               refused state negotiating; callbacks 0 0",
    },
];

#[test]
fn options(rt: HostRuntime) -> Result<(), Fail> {
    play_all(&rt, rt.alloc(), &ROWS)
}
