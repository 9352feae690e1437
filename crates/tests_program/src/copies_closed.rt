//! Copies whose peers do not do as they should: 0 is answered only where the destination holds the source's bytes, and a further
//! connection has to tell what the first one told.

use crate::outside::{Fault, Outside, Peers};
use crate::played::{BETWEEN, copied};
use crate::report::{Case, Report};
use crate::served::{Disk, Run, holds, wires};
use lnbd_memnet::Schedule;
use std::alloc::Global;
use std::process::Abort;
use std::str::from_utf8;
use std::test::Fail;

const SOURCE: &[Run] = &[(0xaa, 7), (0, 5), (0xbb, 6)];

const FROM: Disk<'static> = Disk {
    name: b"a",
    runs: SOURCE,
    read_only: false,
};

const TO: Disk<'static> = Disk {
    name: b"b",
    runs: &[(0x11, 18)],
    read_only: false,
};

/// What it comes to where the peer of a link closes behind so many bytes.
#[derive(Drop)]
struct Outcome {
    status: u8,
    ended: bool,
    equal: bool,
    moved: usize,
}

fn close_at(alloc: Global, options: &[&str], link: u32, bytes: usize) -> Result<Outcome, Fail> {
    let wires = wires(alloc, &FROM, &TO, Schedule::List(Vec::new(alloc)))?;
    let fault = Fault::Closes { link, bytes };
    let mut wires = Outside::new(alloc, Peers::Exports(wires), fault);
    let ended = copied(alloc, options, &BETWEEN, &mut wires)?;
    Ok(Outcome {
        status: ended.status,
        ended: from_utf8(ended.err.bytes())? == "lnbd: peer broke Ended\n",
        equal: holds(&wires, 1, SOURCE),
        moved: wires.moved(),
    })
}

/// A link that is closed behind each number of bytes that it has.
#[derive(Clone, Copy)]
struct Closing {
    shows: &'static str,
    options: &'static [&'static str],
    link: u32,
}

static CLOSINGS: [Closing; 3] = [
    Closing {
        shows: "the source closes",
        options: &["-C", "1", "--flush"],
        link: 0,
    },
    Closing {
        shows: "the destination closes",
        options: &["-C", "1", "--flush"],
        link: 1,
    },
    Closing {
        shows: "the source's second connection, the third in all, closes",
        options: &["-C", "2"],
        link: 2,
    },
];

fn close_each(alloc: Global, report: &mut Report, closing: Closing) -> Result<(), Fail> {
    let Closing {
        shows,
        options,
        link,
    } = closing;
    let whole = close_at(alloc, options, link, usize::MAX)?;
    let case = Case { shows, run: 0 };
    report.number(case, "status of the whole", whole.status as u64, 0);
    report.holds(case, "equal of the whole", whole.equal);
    for bytes in 0..whole.moved {
        let told = close_at(alloc, options, link, bytes)?;
        let case = Case { shows, run: bytes };
        match told.status {
            0 => report.holds(case, "equal", told.equal),
            status => {
                report.number(case, "status", status as u64, 4);
                report.holds(case, "told", told.ended);
            }
        }
    }
    Ok(())
}

/// Copies in which the third connect, the source's second one, ends at the destination, which has the same name.
#[derive(Clone, Copy)]
struct Straying {
    shows: &'static str,
    read_only: bool,
    destination: &'static [Run],
}

static STRAYINGS: [Straying; 2] = [
    Straying {
        shows: "the other one has another size",
        read_only: false,
        destination: &[(0x11, 19)],
    },
    Straying {
        shows: "the other one has other flags",
        read_only: true,
        destination: &[(0x11, 18)],
    },
];

fn stray(alloc: Global, report: &mut Report, straying: Straying) -> Result<(), Fail> {
    let from = Disk {
        read_only: straying.read_only,
        ..FROM
    };
    let to = Disk {
        name: b"a",
        runs: straying.destination,
        read_only: false,
    };
    let wires = wires(alloc, &from, &to, Schedule::List(Vec::new(alloc)))?;
    let fault = Fault::Strays { connect: 2 };
    let mut wires = Outside::new(alloc, Peers::Exports(wires), fault);
    let addresses = ["nbd://localhost/a", "nbd+unix:///a?socket=/tmp/s"];
    let ended = copied(alloc, &["-C", "2"], &addresses, &mut wires)?;
    let case = Case {
        shows: straying.shows,
        run: 0,
    };
    report.stream(
        case,
        "said",
        ended.err.bytes(),
        "lnbd: peer broke Differs\n",
    );
    report.number(case, "status", ended.status as u64, 4);
    report.holds(case, "unchanged", holds(&wires, 1, straying.destination));
    Ok(())
}

// Each plays some hundreds of copies: one test for a link.
fn closes(rt: &impl Abort, alloc: Global, closing: &Closing) -> Result<(), Fail> {
    let mut report = Report::new(alloc);
    close_each(alloc, &mut report, *closing)?;
    report.settle(rt);
    Ok(())
}

#[test]
fn a_source_that_closes_is_told(rt: HostRuntime) -> Result<(), Fail> {
    closes(&rt, rt.alloc(), &CLOSINGS[0])
}

#[test]
fn a_destination_that_closes_is_told(rt: HostRuntime) -> Result<(), Fail> {
    closes(&rt, rt.alloc(), &CLOSINGS[1])
}

#[test]
fn a_further_connection_that_closes_is_told(rt: HostRuntime) -> Result<(), Fail> {
    closes(&rt, rt.alloc(), &CLOSINGS[2])
}

#[test]
fn a_connection_that_strays_is_told(rt: HostRuntime) -> Result<(), Fail> {
    let alloc = rt.alloc();
    let mut report = Report::new(alloc);
    for straying in STRAYINGS.iter() {
        stray(alloc, &mut report, *straying)?;
    }
    report.settle(&rt);
    Ok(())
}
