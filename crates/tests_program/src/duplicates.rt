//! nbdcopy between two files: how such a run ends, what the destination then holds, and how many bytes were read and written.

use crate::outside::{Ended, Outside, STREAMS, played_beside, push_words, report_written};
use crate::report::{Case, Report};
use crate::serving::client_of;
use crate::session::all_of;
use lnbd_model::Text;
use lnbd_spawn::ListSpawner;
use lnbd_store::{Contents, MemoryStore, StoreFile};
use std::alloc::Global;
use std::test::Fail;

/// The files that are there, each with its bytes.
const FILES: [(&str, &str); 4] = [
    ("a", "01020304"),
    ("old", "ff*9"),
    ("empty", ""),
    ("zeros", "00*4096 cc*4096"),
];

/// Runs: the number of the call of the store that fails, or `-`, and the words; and behind the arrow the status, how many bytes the store gave and took,
/// and what the last of the words then holds.
const RUNS: &str = "- nbdcopy a new→0 4 4 = 01020304
- nbdcopy a old→0 4 4 = 01020304
- nbdcopy empty new→0 0 0 =
- nbdcopy empty old→0 0 0 =
- nbdcopy zeros old→0 8192 4096 = 00*4096 cc*4096
- nbdcopy --allocated zeros old→0 8192 8192 = 00*4096 cc*4096
- nbdcopy --sparse 0 zeros old→0 8192 8192 = 00*4096 cc*4096
- nbdcopy --request-size 4096 --sparse 8192 zeros new→0 8192 8192 = 00*4096 cc*4096
- nbdcopy --destination-is-zero --flush zeros old→0 8192 4096 = 00*4096 cc*4096
- nbdcopy a a→1 0 0 = 01020304
- nbdcopy absent new→11 0 0 = none
0 nbdcopy a old→11 0 0 = ff*9
1 nbdcopy a old→11 0 0 = ff*9
2 nbdcopy a old→11 0 0 = ff*9
2 nbdcopy a new→11 0 0 = none
3 nbdcopy a old→11 0 0 = ff*9
3 nbdcopy a new→11 0 0 =
4 nbdcopy a old→11 0 0 =
5 nbdcopy a old→11 0 0 = 00*4
6 nbdcopy a old→11 4 0 = 00*4
7 nbdcopy a old→0 4 4 = 01020304
7 nbdcopy --flush a old→11 4 4 = 01020304";

/// What is said of a run that ends so.
fn said_of(status: u8) -> &'static str {
    match status {
        0 => "",
        1 => "lnbd: usage\n",
        _ => "lnbd: store fault\n",
    }
}

fn push_file(
    alloc: Global,
    files: &mut Vec<StoreFile>,
    path: &str,
    bytes: &str,
) -> Result<(), Fail> {
    let bytes = Contents::from_vec(all_of(alloc, &[bytes])?);
    let path = Text::from_bytes(alloc, path.as_bytes())?;
    files.push(StoreFile { path, bytes })?;
    Ok(())
}

fn store_of(alloc: Global, fails: &str) -> Result<MemoryStore, Fail> {
    let mut files = Vec::new(alloc);
    for (path, bytes) in FILES {
        push_file(alloc, &mut files, path, bytes)?;
    }
    Ok(MemoryStore::new(alloc, files, fails.parse::<u64>().ok()))
}

/// Reports how the run ended, what it said, and how many bytes moved.
fn report_ended(
    alloc: Global,
    report: &mut Report,
    case: Case,
    ended: &Ended,
    store: &MemoryStore,
    wanted: &str,
) -> Result<(), Fail> {
    let mut told = String::new(alloc);
    let status = ended.status;
    let given = store.given();
    let taken = store.taken();
    write!(told, "{status} {given} {taken}")?;
    report.text(case, "ended", told.as_str(), wanted);
    report.stream(case, "said", ended.err.bytes(), said_of(status));
    report.stream(case, "printed", ended.out.bytes(), "");
    Ok(())
}

/// Reports what the file at a path holds.
fn report_held(
    alloc: Global,
    report: &mut Report,
    case: Case,
    held: Option<&[u8]>,
    wanted: &str,
) -> Result<(), Fail> {
    match held {
        None => report.text(case, "held", "none", wanted),
        Some(held) => {
            let wanted = all_of(alloc, &[wanted])?;
            report.bytes(case, "held", held, wanted.as_slice());
        }
    }
    Ok(())
}

// Each of these owns one value that has to be dropped, and lends it to the next.

fn copy_over(
    alloc: Global,
    report: &mut Report,
    case: Case,
    words: &[String],
    wires: &mut Outside,
    store: &mut MemoryStore,
    wanted: &str,
) -> Result<(), Fail> {
    let mut spawn = ListSpawner::new(alloc, Vec::new(alloc));
    let ended = played_beside(
        alloc,
        words,
        Vec::new(alloc),
        STREAMS,
        wires,
        store,
        &mut spawn,
    )?;
    report_ended(alloc, report, case, &ended, store, wanted)
}

fn copy_on(
    alloc: Global,
    report: &mut Report,
    case: Case,
    words: &[String],
    store: &mut MemoryStore,
    wanted: &str,
) -> Result<(), Fail> {
    let mut wires = client_of(alloc, &[])?;
    copy_over(alloc, report, case, words, &mut wires, store, wanted)?;
    report_written(report, case, &wires, &[])
}

fn copy_words(
    alloc: Global,
    report: &mut Report,
    case: Case,
    words: &[String],
    fails: &str,
    wanted: (&str, &str),
) -> Result<(), Fail> {
    let mut store = store_of(alloc, fails)?;
    copy_on(alloc, report, case, words, &mut store, wanted.0)?;
    let path = words.last().map(|word| word.as_str()).unwrap_or("");
    report_held(
        alloc,
        report,
        case,
        store.bytes_at(path.as_bytes()),
        wanted.1.trim(),
    )
}

fn copy(alloc: Global, report: &mut Report, line: &str) -> Result<(), Fail> {
    let (asked, came) = line.split_once('→').unwrap_or((line, ""));
    let (fails, spelled) = asked.split_once(' ').unwrap_or((asked, ""));
    let wanted = came.split_once(" =").unwrap_or((came, ""));
    let case = Case {
        shows: asked,
        run: 0,
    };
    let mut words = Vec::new(alloc);
    for word in spelled.split(' ') {
        push_words(alloc, &mut words, &[word])?;
    }
    copy_words(alloc, report, case, &words, fails, wanted)
}

#[test]
fn files_are_copied(rt: HostRuntime) -> Result<(), Fail> {
    let alloc = rt.alloc();
    let mut report = Report::new(alloc);
    for line in RUNS.split('\n') {
        copy(alloc, &mut report, line)?;
    }
    report.settle(&rt);
    Ok(())
}
