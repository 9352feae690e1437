//! Copies of 1 MiB, each with all that is asked on each link: what is told as zero is zeroed and not read, and the slices are
//! dealt to the connections with the fewest, the sides have to fit, and a flush comes last and is awaited.

use crate::asked::place_of;
use crate::copies_sized::SIZES;
use crate::outside::Heard;
use crate::played::{BETWEEN, Transfer, copied, play_all};
use crate::report::{Case, Report};
use crate::served::Run;
use lnbd_memnet::Schedule;
use std::alloc::Global;
use std::test::Fail;

/// Data, a hole and data, 1 MiB in all.
pub const SOURCE: &[Run] = &[(0xaa, 393_216), (0, 262_144), (0xbb, 393_216)];

/// Nothing is asked.
pub const TRANSFER: Transfer<'static> = Transfer {
    shows: "",
    options: &[],
    source: SOURCE,
    destination: &[(0x11, 1_048_576)],
    read_only: false,
    asks: &[],
    err: "",
    status: 0,
    holds: SOURCE,
};

/// A connection that has nothing to do.
pub const IDLE: &str = "disc";

/// Two slices are data, then one is zero, and two are data. The fifth goes to the first connections again.
const DEALT: &[&str] = &[
    "status 0 1048576, read 0 262144, read 786432 262144, disc",
    "write 0 262144, write 786432 262144, disc",
    "read 262144 131072, disc",
    IDLE,
    "read 655360 131072, disc",
    "write 262144 131072, disc",
    "zero 393216 262144, disc",
    "write 655360 131072, disc",
];

static COPIES: [Transfer<'static>; 3] = [
    Transfer {
        shows: "a hole is zeroed and not read",
        asks: DEALT,
        ..TRANSFER
    },
    Transfer {
        shows: "over one connection, where the hole waits for no read",
        options: &["-C", "1"],
        asks: &[
            "status 0 1048576, read 0 262144, read 262144 131072, read 655360 131072, read 786432 262144, disc",
            "zero 393216 262144, write 0 262144, write 262144 131072, write 655360 131072, write 786432 262144, disc",
        ],
        ..TRANSFER
    },
    Transfer {
        shows: "all is read and written where neither extents are asked for nor zeros looked for",
        options: &["-S", "0", "--no-extents"],
        asks: &[
            "read 0 262144, disc",
            "write 0 262144, disc",
            "read 262144 262144, disc",
            "read 524288 262144, disc",
            "read 786432 262144, disc",
            "write 262144 262144, disc",
            "write 524288 262144, disc",
            "write 786432 262144, disc",
        ],
        ..TRANSFER
    },
];

static SIDES: [Transfer<'static>; 3] = [
    Transfer {
        shows: "a destination of a byte less",
        destination: &[(0x11, 1_048_575)],
        err: "lnbd: rule smaller 1048576 1048575\n",
        status: 6,
        holds: &[(0x11, 1_048_575)],
        ..TRANSFER
    },
    Transfer {
        shows: "what lies past the source stays",
        destination: &[(0x11, 1_052_672)],
        asks: DEALT,
        holds: &[(0xaa, 393_216), (0, 262_144), (0xbb, 393_216), (0x11, 4096)],
        ..TRANSFER
    },
    Transfer {
        shows: "a destination that is read-only",
        read_only: true,
        err: "lnbd: rule read-only\n",
        status: 6,
        holds: &[(0x11, 1_048_576)],
        ..TRANSFER
    },
];

/// All that is asked: of the destination's first connection the flush, behind its writes.
const FLUSHED: &[&str] = &[
    "status 0 1048576, read 0 262144, read 786432 262144, disc",
    "write 0 262144, write 786432 262144, flush, disc",
    "read 262144 131072, disc",
    IDLE,
    "read 655360 131072, disc",
    "write 262144 131072, disc",
    "zero 393216 262144, disc",
    "write 655360 131072, disc",
];

const FLUSH: Transfer<'static> = Transfer {
    shows: "a flush follows",
    options: &["--flush"],
    asks: FLUSHED,
    ..TRANSFER
};

static FLUSHES: [Transfer<'static>; 1] = [FLUSH];

/// How many bytes come behind the call of this number and before that one, on all links.
fn read_between(calls: &[Heard], behind: usize, before: usize) -> u64 {
    let mut sum = 0u64;
    for (number, call) in calls.iter().enumerate() {
        if behind < number && number < before {
            if let Heard::Read { link: _, bytes } = call {
                sum = sum.saturating_add(*bytes as u64);
            }
        }
    }
    sum
}

/// The bytes of a chunk without a payload (NBD protocol, "Extended reply chunk message").
const REPLY: u64 = 32;

/// Reports that the flush went to the destination, and what was read between it and the first parting, and behind it.
fn report_flush(
    alloc: Global,
    report: &mut Report,
    case: Case,
    calls: &[Heard],
) -> Result<(), Fail> {
    let (link, flush) = place_of(alloc, calls, "flush")?;
    report.number(case, "link", link as u64, 1);
    let (_, part) = place_of(alloc, calls, "disc")?;
    report.number(
        case,
        "read before a parting",
        read_between(calls, flush, part),
        REPLY,
    );
    report.number(
        case,
        "read behind it",
        read_between(calls, flush, usize::MAX),
        REPLY,
    );
    Ok(())
}

fn await_flush(alloc: Global, report: &mut Report) -> Result<(), Fail> {
    let case = Case {
        shows: "a flush is asked for last and awaited",
        run: 0,
    };
    let mut wires = FLUSH.wires(alloc, Schedule::List(Vec::new(alloc)))?;
    let ended = copied(alloc, FLUSH.options, &BETWEEN, &mut wires)?;
    report.number(case, "status", ended.status as u64, 0);
    report_flush(alloc, report, case, &wires.calls)
}

#[test]
fn copies_ask_what_they_should(rt: HostRuntime) -> Result<(), Fail> {
    let alloc = rt.alloc();
    let mut report = Report::new(alloc);
    play_all(alloc, &mut report, &COPIES)?;
    play_all(alloc, &mut report, &SIDES)?;
    play_all(alloc, &mut report, &SIZES)?;
    play_all(alloc, &mut report, &FLUSHES)?;
    await_flush(alloc, &mut report)?;
    report.settle(&rt);
    Ok(())
}
