//! nbdcopy between an export and a file: how such a run ends, what is asked on each link, how many bytes the store gave and took, and what the
//! destination then holds.

use crate::asked::text_on;
use crate::copies_dealt::SOURCE;
use crate::outside::{Ended, Fault, Outside, Peers, STREAMS, played_beside, push_words};
use crate::report::{Case, Report};
use crate::served::{Disk, Run, wires};
use crate::session::all_of;
use lnbd_memnet::Schedule;
use lnbd_model::Text;
use lnbd_spawn::ListSpawner;
use lnbd_store::{Contents, MemoryStore, StoreFile};
use std::alloc::Global;
use std::test::Fail;

/// The files that are there, each with its bytes.
const FILES: [(&str, &str); 4] = [
    ("old", "ff*1048577"),
    ("half", "00*4096 cc*4096"),
    ("empty", ""),
    ("large", "cc*8193"),
];

/// The export `a`, at localhost, is that of the copies between exports; `b` has 8,192 bytes.
const DESTINATION: Disk<'static> = Disk {
    name: b"b",
    runs: &[(0x11, 8192)],
    read_only: false,
};

/// Runs: the number of the call of the store that fails, or `-`, and the words; and behind the arrow the status, how many bytes the store gave and took, and
/// behind each semicolon what is asked on a link; and what the last of the words then holds.
const RUNS: &str =
    "- nbdcopy nbd://localhost/a disk.img→0 0 786432; status 0 1048576, read 0 262144, disc; read 262144 131072, disc; read 655360 131072, disc; read 786432 262144, disc = aa*393216 00*262144 bb*393216
- nbdcopy -C 1 nbd://localhost/a old→0 0 786432; status 0 1048576, read 0 262144, read 262144 131072, read 655360 131072, read 786432 262144, disc = aa*393216 00*262144 bb*393216
- nbdcopy -C 1 --allocated --flush nbd://localhost/a old→0 0 1048576; status 0 1048576, read 0 262144, read 262144 131072, read 655360 131072, read 786432 262144, disc = aa*393216 00*262144 bb*393216
- nbdcopy -C 1 --no-extents nbd://localhost/a new→0 0 786432; read 0 262144, read 262144 262144, read 524288 262144, read 786432 262144, disc = aa*393216 00*262144 bb*393216
- nbdcopy -C 1 half nbd+unix:///b?socket=/tmp/s→0 8192 0; zero 0 4096, write 4096 4096, disc = 00*4096 cc*4096
- nbdcopy -C 1 --flush half nbd+unix:///b?socket=/tmp/s→0 8192 0; zero 0 4096, write 4096 4096, flush, disc = 00*4096 cc*4096
- nbdcopy -C 1 --request-size 4096 half nbd+unix:///b?socket=/tmp/s→0 8192 0; zero 0 4096, write 4096 4096, disc = 00*4096 cc*4096
- nbdcopy -C 1 empty nbd+unix:///b?socket=/tmp/s→0 0 0; disc = 11*8192
- nbdcopy -C 1 large nbd+unix:///b?socket=/tmp/s→6 0 0; = 11*8192
- nbdcopy -C 1 absent nbd+unix:///b?socket=/tmp/s→11 0 0; = 11*8192
2 nbdcopy -C 1 half nbd+unix:///b?socket=/tmp/s→11 0 0; = 11*8192
0 nbdcopy -C 1 nbd://localhost/a old→11 0 0; = ff*1048577
1 nbdcopy -C 1 nbd://localhost/a old→11 0 0; = ff*1048577
2 nbdcopy -C 1 nbd://localhost/a old→11 0 0; =";

/// What is said of a run that ends so.
fn said_of(status: u8) -> &'static str {
    match status {
        0 => "",
        6 => "lnbd: rule smaller 8193 8192\n",
        _ => "lnbd: store fault\n",
    }
}

fn push_file(
    alloc: Global,
    files: &mut Vec<StoreFile>,
    path: &str,
    bytes: &str,
) -> Result<(), Fail> {
    let bytes = Contents::from_vec(all_of(alloc, &[bytes])?);
    let path = Text::from_bytes(alloc, path.as_bytes())?;
    files.push(StoreFile { path, bytes })?;
    Ok(())
}

/// These files, of whose calls the one of this number fails.
pub fn store_of(
    alloc: Global,
    listed: &[(&str, &str)],
    fail_at: Option<u64>,
) -> Result<MemoryStore, Fail> {
    let mut files = Vec::new(alloc);
    for (path, bytes) in listed {
        push_file(alloc, &mut files, path, bytes)?;
    }
    Ok(MemoryStore::new(alloc, files, fail_at))
}

/// Both exports, served: the source has these runs.
pub fn exports(alloc: Global, runs: &[Run]) -> Result<Outside, Fail> {
    let source = Disk {
        name: b"a",
        runs,
        read_only: false,
    };
    let served = wires(
        alloc,
        &source,
        &DESTINATION,
        Schedule::List(Vec::new(alloc)),
    )?;
    Ok(Outside::new(alloc, Peers::Exports(served), Fault::Nothing))
}

/// Reports how the run ended, what it said, and how many bytes moved.
fn report_ended(
    alloc: Global,
    report: &mut Report,
    case: Case,
    ended: &Ended,
    store: &MemoryStore,
    wanted: &str,
) -> Result<(), Fail> {
    let mut told = String::new(alloc);
    let status = ended.status;
    let given = store.given();
    let taken = store.taken();
    write!(told, "{status} {given} {taken}")?;
    report.text(case, "ended", told.as_str(), wanted);
    report.stream(case, "said", ended.err.bytes(), said_of(status));
    report.stream(case, "printed", ended.out.bytes(), "");
    Ok(())
}

/// Reports what was asked on each link, where the copy came to its end.
fn report_asks(
    alloc: Global,
    report: &mut Report,
    case: Case,
    wires: &Outside,
    wanted: &str,
) -> Result<(), Fail> {
    let mut link = 0u32;
    for asks in wanted.split(';') {
        let asked = text_on(alloc, link, &wires.calls)?;
        report.text(case, "asked on link", asked.as_str(), asks.trim());
        link = link.saturating_add(1);
    }
    Ok(())
}

/// What the last of the words holds: a file, or the export `b`.
pub fn held_at<'a>(last: &str, wires: &'a Outside, store: &'a MemoryStore) -> Option<&'a [u8]> {
    if last.contains("://") {
        wires.exported(1)
    } else {
        store.bytes_at(last.as_bytes())
    }
}

/// Reports what the last of the words then holds.
pub fn report_held(
    alloc: Global,
    report: &mut Report,
    case: Case,
    held: Option<&[u8]>,
    wanted: &str,
) -> Result<(), Fail> {
    let wanted = all_of(alloc, &[wanted.trim()])?;
    report.bytes(case, "held", held.unwrap_or(b"none"), wanted.as_slice());
    Ok(())
}

// Each of these owns one value that has to be dropped, and lends it to the next.

fn copy_over(
    alloc: Global,
    report: &mut Report,
    case: Case,
    words: &[String],
    wires: &mut Outside,
    store: &mut MemoryStore,
    wanted: (&str, &str),
) -> Result<(), Fail> {
    let mut spawn = ListSpawner::new(alloc, Vec::new(alloc));
    let ended = played_beside(
        alloc,
        words,
        Vec::new(alloc),
        STREAMS,
        wires,
        store,
        &mut spawn,
    )?;
    report_ended(alloc, report, case, &ended, store, wanted.0)?;
    report_asks(alloc, report, case, wires, wanted.1)
}

fn copy_on(
    alloc: Global,
    report: &mut Report,
    case: Case,
    words: &[String],
    store: &mut MemoryStore,
    wanted: (&str, &str, &str),
) -> Result<(), Fail> {
    let mut wires = exports(alloc, SOURCE)?;
    copy_over(
        alloc,
        report,
        case,
        words,
        &mut wires,
        store,
        (wanted.0, wanted.1),
    )?;
    let last = words.last().map(|word| word.as_str()).unwrap_or("");
    report_held(alloc, report, case, held_at(last, &wires, store), wanted.2)
}

fn copy_words(
    alloc: Global,
    report: &mut Report,
    case: Case,
    words: &[String],
    fails: &str,
    wanted: (&str, &str, &str),
) -> Result<(), Fail> {
    let mut store = store_of(alloc, &FILES, fails.parse::<u64>().ok())?;
    copy_on(alloc, report, case, words, &mut store, wanted)
}

fn copy(alloc: Global, report: &mut Report, line: &str) -> Result<(), Fail> {
    let (asked, came) = line.split_once('→').unwrap_or((line, ""));
    let (fails, spelled) = asked.split_once(' ').unwrap_or((asked, ""));
    let (moved, held) = came.split_once('=').unwrap_or((came, ""));
    let (ended, asks) = moved.split_once(';').unwrap_or((moved, ""));
    let case = Case {
        shows: asked,
        run: 0,
    };
    let mut words = Vec::new(alloc);
    for word in spelled.split(' ') {
        push_words(alloc, &mut words, &[word])?;
    }
    copy_words(alloc, report, case, &words, fails, (ended, asks, held))
}

#[test]
fn exports_and_files_are_copied(rt: HostRuntime) -> Result<(), Fail> {
    let alloc = rt.alloc();
    let mut report = Report::new(alloc);
    for line in RUNS.split('\n') {
        copy(alloc, &mut report, line)?;
    }
    report.settle(&rt);
    Ok(())
}
