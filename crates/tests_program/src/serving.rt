//! Serving: clients that ask serve for a link, and scripts against real sessions of the server, whose bytes are cut and whose
//! replies are picked by a schedule, with what the export then holds.

ghost use Rattle.lnbd_memnet.specs.Schedule.{Moves};

use crate::outside::{
    Fault, Finished, Outside, Peers, STREAMS, finish, report_end, report_written,
};
use crate::report::{Case, Report};
use crate::served::{Disk, Run, alone, holds};
use crate::session::all_of;
use lnbd_inbound::InboundWires;
use lnbd_link::{ListLink, ReadAnswer, Wires};
use lnbd_memnet::Schedule;
use lnbd_model::Bytes;
use std::alloc::Global;
use std::test::Fail;

/// What a client sends after its flags: GO for the empty name, a read of four bytes with the cookie 7, and DISC.
const ASKED: &str = "49484156454f5054 00000007 00000006 00000000 0000 \
     25609513 0000 0000 0000000000000007 0000000000000000 00000004 \
     25609513 0000 0002 0000000000000000 0000000000000000 00000000";

/// What is written: the hello; GO's replies, which are the export of 65,536 bytes with its flags, the sizes of blocks, and
/// ACK; and the first four bytes of the contents of seed 0.
pub const HELLO: &str = "4e42444d41474943 49484156454f5054 0003";

const GO: &str = "0003e889045565a9 00000007 00000003 0000000c 0000 0000000000010000 056d \
     0003e889045565a9 00000007 00000003 0000000e 0003 00000001 00001000 02000000 \
     0003e889045565a9 00000007 00000001 00000000";

const READ: &str = "67446698 00000000 0000000000000007 797a7b7c";

/// A client that sends these bytes in one piece; what is written to it, what is said of the end, and the status.
#[derive(Clone, Copy)]
struct Client {
    shows: &'static str,
    sent: &'static [&'static str],
    written: &'static [&'static str],
    said: &'static str,
    status: u8,
}

static CLIENTS: [Client; 2] = [
    Client {
        shows: "a client is served",
        sent: &["00000003", ASKED],
        written: &[HELLO, GO, READ],
        said: "",
        status: 0,
    },
    Client {
        shows: "a client with an unknown flag breaks the protocol",
        sent: &["00000004", ASKED],
        written: &[HELLO],
        said: "lnbd: peer broke Client\n",
        status: 4,
    },
];

/// Wires by which a client comes in that sends these bytes.
pub fn client_of(alloc: Global, sent: &[&str]) -> Result<Outside, Fail> {
    let sent = Bytes::from_vec(all_of(alloc, sent)?);
    let link = ListLink {
        fails: false,
        reads: vec![in alloc; ReadAnswer::Bytes(sent)]?,
        writes: Vec::new(alloc),
    };
    let wires = InboundWires::new(alloc, vec![in alloc; link]?, 4096, 1)?;
    Ok(Outside::new(alloc, Peers::Clients(wires), Fault::Nothing))
}

const SERVE: [&str; 4] = ["serve", "nbd://localhost", "--size", "65536"];

const SERVED: &str = "serving 65536\nsessions 1\n";

/// Reports how a client was served.
fn report_served(
    alloc: Global,
    report: &mut Report,
    client: &Client,
    finished: &Finished,
) -> Result<(), Fail> {
    let shows = client.shows;
    let case = Case { shows, run: 0 };
    report_end(
        report,
        case,
        &finished.ended,
        SERVED,
        client.said,
        client.status,
    );
    report.number(case, "faults", finished.wires.faults(), 0);
    let written = all_of(alloc, client.written)?;
    report_written(report, case, &finished.wires, written.as_slice())
}

fn serve(alloc: Global, report: &mut Report, client: Client) -> Result<(), Fail> {
    let wires = client_of(alloc, client.sent)?;
    let finished = finish(alloc, &SERVE, Vec::new(alloc), STREAMS, wires)?;
    report_served(alloc, report, &client, &finished)
}

/// A script against the server of one export of 4,096 bytes, each of them 0x11: what is printed, what is said of the end, the
/// status, and what the export then holds.
#[derive(Clone, Copy)]
struct Script {
    shows: &'static str,
    lines: &'static str,
    answers: &'static str,
    said: &'static str,
    status: u8,
    holds: &'static [Run],
}

/// What the export holds at the start.
const UNTOUCHED: &[Run] = &[(0x11, 4096)];

/// No rule of strict mode stays: a read past the end, one of no bytes, one with a flag that isn't known and a write past the end
/// all go out, and the server refuses three of them. Bits that are no rule's are refused, and so are flags of extended headers.
const LAX: Script = Script {
    shows: "a server judges what the library let pass",
    lines: "strict 32
strict 0
connect unix a
settle
pread 1 4096
pread 0 0
pread 1 0 2
pwrite fill:aa:1 4096
pread 1 0 32
settle
done 1
done 2
done 3
done 4
",
    answers: "refused strict 32
ok
connected
settled
cookie 1
cookie 2
cookie 3
cookie 4
refused bad-flags 32
settled
failed 22 1 00*1
done 0 -
failed 22 1 00*1
failed 28 1 aa*1
opened 5 freed 5
",
    said: "lnbd: peer error command 22\n",
    status: 3,
    holds: UNTOUCHED,
};

/// All rules but that of bounds stay.
const UNBOUND: Script = Script {
    shows: "the rules that stay refuse",
    lines: "strict 27
connect unix a
settle
pread 1 4096
pread 0 0
settle
done 1
",
    answers: "ok
connected
settled
cookie 1
refused zero-size
settled
failed 22 1 00*1
opened 2 freed 2
",
    said: "lnbd: peer error command 22\n",
    status: 3,
    holds: UNTOUCHED,
};

static JUDGED: [Script; 2] = [LAX, UNBOUND];

/// The write and the zeroing after it overlap, and all four changes are in flight at once.
static CHANGES: Script = Script {
    shows: "what is changed is read, whatever a seed cuts and picks",
    lines: "structured on
context base:allocation
connect unix a
settle
pwrite fill:aa:1000 100
zero 512 600
trim 256 3000
pwrite hex:010203 4093
settle
done 1
done 2
done 3
done 4
pread 4096 0
block-status 4096 0
settle
done 5
done 6
disconnect
settle
state
",
    answers: "ok
ok
connected
settled
cookie 1
cookie 2
cookie 3
cookie 4
settled
done 1000 aa*1000
done 0 -
done 0 -
done 3 01*1 02*1 03*1
cookie 5
cookie 6
settled
done 4096 11*100 aa*500 00*512 11*1888 00*256 11*837 01*1 02*1 03*1
done 0 -
ok
settled
closed
opened 7 freed 7
",
    said: "",
    status: 0,
    holds: &[
        (0x11, 100),
        (0xaa, 500),
        (0, 512),
        (0x11, 1888),
        (0, 256),
        (0x11, 837),
        (1, 1),
        (2, 1),
        (3, 1),
    ],
};

/// How many seeds are tried.
const SEEDS: u64 = 200;

/// Wires that serve one export of this project's untouched bytes.
fn export_of(alloc: Global, schedule: Schedule) -> Result<Outside, Fail>
    requires { Moves schedule }
{
    let disk = Disk {
        name: b"",
        runs: UNTOUCHED,
        read_only: false,
    };
    let wires = alone(alloc, &disk, schedule)?;
    Ok(Outside::new(alloc, Peers::Exports(wires), Fault::Nothing))
}

/// Reports how a script ended.
fn report_script(report: &mut Report, script: &Script, run: usize, finished: &Finished) {
    let shows = script.shows;
    let case = Case { shows, run };
    report_end(
        report,
        case,
        &finished.ended,
        script.answers,
        script.said,
        script.status,
    );
    report.holds(case, "held", holds(&finished.wires, 0, script.holds));
    report.number(case, "short of memory", finished.wires.shorts(), 0);
}

/// Plays a script over these wires.
fn finished_of(alloc: Global, script: &Script, wires: Outside) -> Result<Finished, Fail> {
    let lines = String::from_str(alloc, script.lines)?.into_bytes();
    finish(alloc, &["nbdcalls"], lines, STREAMS, wires)
}

fn play(
    alloc: Global,
    report: &mut Report,
    script: &Script,
    schedule: Schedule,
    run: usize,
) -> Result<(), Fail>
    requires { Moves schedule }
{
    let wires = export_of(alloc, schedule)?;
    let finished = finished_of(alloc, script, wires)?;
    report_script(report, script, run, &finished);
    Ok(())
}

#[test]
fn clients_and_scripts_are_served(rt: HostRuntime) -> Result<(), Fail> {
    let alloc = rt.alloc();
    let mut report = Report::new(alloc);
    for client in CLIENTS.iter() {
        serve(alloc, &mut report, *client)?;
    }
    for script in JUDGED.iter() {
        let schedule = Schedule::List(Vec::new(alloc));
        play(alloc, &mut report, script, schedule, 0)?;
    }
    for seed in 0..SEEDS {
        let schedule = Schedule::Seeded(seed);
        play(alloc, &mut report, &CHANGES, schedule, seed as usize)?;
    }
    report.settle(&rt);
    Ok(())
}
