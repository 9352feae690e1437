//! serve with a file, and beside a program: what is printed and said of the end, what was written to the client, what the file
//! then holds, and which programs were started and waited for.

use crate::outside::{
    Ended, Outside, STREAMS, played_beside, push_words, report_end, report_written,
};
use crate::report::{Case, Report};
use crate::serving::{HELLO, client_of};
use crate::session::all_of;
use lnbd_model::Text;
use lnbd_spawn::{Deed, ListSpawner, Ran, Waited};
use lnbd_store::{Contents, MemoryStore, StoreFile};
use std::alloc::Global;
use std::str::from_utf8;
use std::test::Fail;

/// What a client sends after its flags: GO for the empty name, a read of four bytes or a write of two at the offset 1, both with
/// the cookie 7, and DISC.
const GOES: &str = "49484156454f5054 00000007 00000006 00000000 0000";

const READS: &str = "25609513 0000 0000 0000000000000007 0000000000000000 00000004";

const WRITES: &str = "25609513 0000 0001 0000000000000007 0000000000000001 00000002 aabb";

const LEAVES: &str = "25609513 0000 0002 0000000000000000 0000000000000000 00000000";

/// What GO is answered by: the size and the flags of the export, the sizes of blocks, and ACK.
const MADE: &str = "0003e889045565a9 00000007 00000003 0000000c 0000 0000000000010000 056d";

const FILE: &str = "0003e889045565a9 00000007 00000003 0000000c 0000 0000000000000004 056d";

const SHUT: &str = "0003e889045565a9 00000007 00000003 0000000c 0000 0000000000000004 056f";

const BEGUN: &str = "0003e889045565a9 00000007 00000003 0000000e 0003 00000001 00001000 02000000 \
     0003e889045565a9 00000007 00000001 00000000";

/// What the file `d` holds at first.
const BYTES: &str = "01020304";

/// Words of serve, what a client sends, how a program behaves, and which call of the store fails; and what comes of it.
#[derive(Clone, Copy)]
struct Beside {
    shows: &'static str,
    words: &'static [&'static str],
    sent: &'static [&'static str],
    ran: Ran,
    fails_at: Option<u64>,
    written: &'static [&'static str],
    printed: &'static str,
    said: &'static str,
    status: u8,
    holds: &'static str,
    started: &'static str,
}

const ENDS_WELL: Ran = Ran {
    starts: true,
    waited: Waited::Status(0),
};

const PROGRAM: Beside = Beside {
    shows: "a program that ends well",
    words: &[
        "serve",
        "nbd://localhost",
        "--size",
        "65536",
        "--run",
        "prog",
        "x",
    ],
    sent: &["00000003", GOES, READS, LEAVES],
    ran: ENDS_WELL,
    fails_at: None,
    written: &[
        HELLO,
        MADE,
        BEGUN,
        "67446698 00000000 0000000000000007 797a7b7c",
    ],
    printed: "serving 65536\nsessions 1\n",
    said: "",
    status: 0,
    holds: BYTES,
    started: "prog x nbd://localhost: 0; wait 0: status 0; ",
};

const SERVED: Beside = Beside {
    shows: "a file that is written",
    words: &["serve", "nbd://localhost", "--file", "d"],
    sent: &["00000003", GOES, WRITES, LEAVES],
    written: &[HELLO, FILE, BEGUN, "67446698 00000000 0000000000000007"],
    printed: "serving 4\nsessions 1\n",
    holds: "01aabb04",
    started: "",
    ..PROGRAM
};

static CASES: [Beside; 11] = [
    PROGRAM,
    Beside {
        shows: "a program that ends with a status",
        ran: Ran {
            starts: true,
            waited: Waited::Status(3),
        },
        said: "lnbd: child 3\n",
        status: 12,
        started: "prog x nbd://localhost: 0; wait 0: status 3; ",
        ..PROGRAM
    },
    Beside {
        shows: "a program that a signal ends",
        ran: Ran {
            starts: true,
            waited: Waited::Signal,
        },
        said: "lnbd: child signal\n",
        status: 12,
        started: "prog x nbd://localhost: 0; wait 0: signal; ",
        ..PROGRAM
    },
    Beside {
        shows: "a program of which it can't be had how it ended",
        ran: Ran {
            starts: true,
            waited: Waited::Failed,
        },
        printed: "serving 65536\n",
        said: "lnbd: spawn fault\n",
        status: 13,
        started: "prog x nbd://localhost: 0; wait 0: failed; ",
        ..PROGRAM
    },
    Beside {
        shows: "a program that does not start",
        ran: Ran {
            starts: false,
            waited: Waited::Status(0),
        },
        written: &[],
        printed: "serving 65536\n",
        said: "lnbd: spawn fault\n",
        status: 13,
        started: "prog x nbd://localhost: failed; ",
        ..PROGRAM
    },
    SERVED,
    Beside {
        shows: "a file that is read-only",
        words: &["serve", "nbd://localhost", "--file", "d", "--read-only"],
        written: &[HELLO, SHUT, BEGUN, "67446698 00000001 0000000000000007"],
        holds: BYTES,
        ..SERVED
    },
    Beside {
        shows: "a client that is none, once the file is written and the program has ended",
        words: &["serve", "nbd://localhost", "--file", "d", "--run", "prog"],
        sent: &["00000003", GOES, WRITES, "00000000"],
        ran: Ran {
            starts: true,
            waited: Waited::Status(1),
        },
        said: "lnbd: peer broke Client\n",
        status: 4,
        started: "prog nbd://localhost: 0; wait 0: status 1; ",
        ..SERVED
    },
    Beside {
        shows: "a file that is not there",
        words: &["serve", "nbd://localhost", "--file", "absent"],
        written: &[],
        printed: "",
        said: "lnbd: store fault\n",
        status: 11,
        holds: BYTES,
        ..SERVED
    },
    Beside {
        shows: "a file that can't be read",
        fails_at: Some(2),
        written: &[],
        printed: "",
        said: "lnbd: store fault\n",
        status: 11,
        holds: BYTES,
        ..SERVED
    },
    Beside {
        shows: "a file that can't be opened to be written",
        fails_at: Some(3),
        printed: "serving 4\n",
        said: "lnbd: store fault\n",
        status: 11,
        holds: BYTES,
        ..SERVED
    },
];

/// The file `d`.
fn store_of(alloc: Global, fails_at: Option<u64>) -> Result<MemoryStore, Fail> {
    let bytes = all_of(alloc, &[BYTES])?;
    let file = StoreFile {
        path: Text::from_bytes(alloc, b"d")?,
        bytes: Contents::from_vec(bytes),
    };
    let mut files = Vec::new(alloc);
    files.push(file)?;
    Ok(MemoryStore::new(alloc, files, fails_at))
}

/// Tells how a program ended.
fn push_waited(told: &mut String, waited: Waited) -> Result<(), Fail> {
    match waited {
        Waited::Status(status) => write!(told, "status {status}")?,
        Waited::Signal => told.push_str("signal")?,
        Waited::Failed => told.push_str("failed")?,
    }
    Ok(())
}

/// Tells a call of the spawner.
fn push_deed(told: &mut String, deed: &Deed) -> Result<(), Fail> {
    match deed {
        Deed::Start {
            program,
            words,
            child,
        } => {
            told.push_str(from_utf8(program.as_bytes())?)?;
            for word in words.as_slice() {
                told.push(' ')?;
                told.push_str(from_utf8(word.as_bytes())?)?;
            }
            match child {
                Some(child) => write!(told, ": {child}; ")?,
                None => told.push_str(": failed; ")?,
            }
        }
        Deed::Wait { child, answer } => {
            write!(told, "wait {child}: ")?;
            push_waited(told, *answer)?;
            told.push_str("; ")?;
        }
    }
    Ok(())
}

/// Which case it is.
fn of(case: &Beside) -> Case {
    Case {
        shows: case.shows,
        run: 0,
    }
}

/// Reports how the run ended, and what was written to the client.
fn report_ended(
    alloc: Global,
    report: &mut Report,
    case: &Beside,
    ended: &Ended,
    wires: &Outside,
) -> Result<(), Fail> {
    report_end(
        report,
        of(case),
        ended,
        case.printed,
        case.said,
        case.status,
    );
    let wanted = all_of(alloc, case.written)?;
    report_written(report, of(case), wires, wanted.as_slice())
}

/// Reports what the file then holds.
fn report_file(
    alloc: Global,
    report: &mut Report,
    case: &Beside,
    store: &MemoryStore,
) -> Result<(), Fail> {
    let wanted = all_of(alloc, &[case.holds])?;
    let held = store.bytes_at(b"d").unwrap_or(&[]);
    report.bytes(of(case), "held", held, wanted.as_slice());
    Ok(())
}

/// Tells all calls of the spawner.
fn push_deeds(told: &mut String, spawn: &ListSpawner) -> Result<(), Fail> {
    for deed in spawn.calls() {
        push_deed(told, deed)?;
    }
    Ok(())
}

/// Reports which programs were started and waited for.
fn report_started(
    alloc: Global,
    report: &mut Report,
    case: &Beside,
    spawn: &ListSpawner,
) -> Result<(), Fail> {
    let mut told = String::new(alloc);
    push_deeds(&mut told, spawn)?;
    report.text(of(case), "started", told.as_str(), case.started);
    Ok(())
}

// Each of these owns one value that has to be dropped, and lends it to the next: a function that owns them all is proved in minutes.

/// Serves over these wires, files and programs, and reports what came of it.
fn serve_beside(
    alloc: Global,
    report: &mut Report,
    case: &Beside,
    words: &[String],
    wires: &mut Outside,
    store: &mut MemoryStore,
    spawn: &mut ListSpawner,
) -> Result<(), Fail> {
    let ended = played_beside(alloc, words, Vec::new(alloc), STREAMS, wires, store, spawn)?;
    report_ended(alloc, report, case, &ended, wires)
}

fn serve_file(
    alloc: Global,
    report: &mut Report,
    case: &Beside,
    words: &[String],
    wires: &mut Outside,
    store: &mut MemoryStore,
) -> Result<(), Fail> {
    let mut spawn = ListSpawner::new(alloc, Vec::from_slice(alloc, &[case.ran])?);
    serve_beside(alloc, report, case, words, wires, store, &mut spawn)?;
    report_started(alloc, report, case, &spawn)
}

fn serve_over(
    alloc: Global,
    report: &mut Report,
    case: &Beside,
    words: &[String],
    wires: &mut Outside,
) -> Result<(), Fail> {
    let mut store = store_of(alloc, case.fails_at)?;
    serve_file(alloc, report, case, words, wires, &mut store)?;
    report_file(alloc, report, case, &store)
}

fn serve_words(
    alloc: Global,
    report: &mut Report,
    case: &Beside,
    words: &[String],
) -> Result<(), Fail> {
    let mut wires = client_of(alloc, case.sent)?;
    serve_over(alloc, report, case, words, &mut wires)
}

fn serve(alloc: Global, report: &mut Report, case: &Beside) -> Result<(), Fail> {
    let mut words = Vec::new(alloc);
    push_words(alloc, &mut words, case.words)?;
    serve_words(alloc, report, case, &words)
}

#[test]
fn files_are_served_and_programs_run_beside(rt: HostRuntime) -> Result<(), Fail> {
    let alloc = rt.alloc();
    let mut report = Report::new(alloc);
    for case in CASES.iter() {
        serve(alloc, &mut report, case)?;
    }
    report.settle(&rt);
    Ok(())
}
