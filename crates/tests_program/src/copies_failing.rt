//! nbdcopy of files in which each call of the store fails in turn, until none does: each run before that ends with 11, and no run changes another file.

use crate::copies_files::{exports, held_at, report_held, store_of};
use crate::outside::{Ended, Outside, STREAMS, played_beside, push_words};
use crate::report::{Case, Report};
use crate::served::Run;
use crate::session::all_of;
use lnbd_spawn::ListSpawner;
use lnbd_store::MemoryStore;
use std::alloc::Global;
use std::test::Fail;

/// The files that are there, each with its bytes.
const FILES: [(&str, &str); 2] = [("old", "ff*12289"), ("half", "00*4096 cc*4096")];

/// What the export `a` holds.
const SOURCE: &[Run] = &[(0xaa, 4096), (0, 4096), (0xbb, 4096)];

/// Words; and behind the arrow how many calls of the store there are, and what the last of the words holds where none fails.
const WAYS: &str = "nbdcopy -C 1 --flush nbd://localhost/a old→6 = aa*4096 00*4096 bb*4096
nbdcopy -C 1 --allocated nbd://localhost/a new→6 = aa*4096 00*4096 bb*4096
nbdcopy -C 1 --flush --request-size 4096 half nbd+unix:///b?socket=/tmp/s→4 = 00*4096 cc*4096
nbdcopy --flush --request-size 4096 half old→9 = 00*4096 cc*4096
nbdcopy --allocated --request-size 4096 half new→9 = 00*4096 cc*4096";

/// No copy here has more calls.
const MOST_CALLS: usize = 64;

/// Reports that each file that was there is as it was, but the last of the words.
fn report_others(
    alloc: Global,
    report: &mut Report,
    case: Case,
    last: &str,
    store: &MemoryStore,
) -> Result<(), Fail> {
    for (path, bytes) in FILES {
        if path != last {
            let wanted = all_of(alloc, &[bytes])?;
            let came = store.bytes_at(path.as_bytes()).unwrap_or(b"none");
            report.bytes(case, path, came, wanted.as_slice());
        }
    }
    Ok(())
}

/// Reports how a run ended, and tells whether it was with 0.
fn report_ended(report: &mut Report, case: Case, ended: &Ended) -> bool {
    report.stream(case, "printed", ended.out.bytes(), "");
    if ended.status == 0 {
        report.stream(case, "said", ended.err.bytes(), "");
        return true;
    }
    report.number(case, "status", ended.status as u64, 11);
    report.stream(case, "said", ended.err.bytes(), "lnbd: store fault\n");
    false
}

// Each of these owns one value that has to be dropped, and lends it to the next.

fn fail_over(
    alloc: Global,
    report: &mut Report,
    case: Case,
    words: &[String],
    wires: &mut Outside,
    store: &mut MemoryStore,
) -> Result<bool, Fail> {
    let mut spawn = ListSpawner::new(alloc, Vec::new(alloc));
    let ended = played_beside(
        alloc,
        words,
        Vec::new(alloc),
        STREAMS,
        wires,
        store,
        &mut spawn,
    )?;
    Ok(report_ended(report, case, &ended))
}

fn fail_on(
    alloc: Global,
    report: &mut Report,
    case: Case,
    words: &[String],
    store: &mut MemoryStore,
    held: &str,
) -> Result<bool, Fail> {
    let mut wires = exports(alloc, SOURCE)?;
    let is_done = fail_over(alloc, report, case, words, &mut wires, store)?;
    let last = words.last().map(|word| word.as_str()).unwrap_or("");
    if is_done {
        report_held(alloc, report, case, held_at(last, &wires, store), held)?;
    }
    report_others(alloc, report, case, last, store)?;
    Ok(is_done)
}

/// Copies with the call of the run's number failing, and tells whether it ended with 0.
fn fail_call(
    alloc: Global,
    report: &mut Report,
    case: Case,
    words: &[String],
    held: &str,
) -> Result<bool, Fail> {
    let mut store = store_of(alloc, &FILES, Some(case.run as u64))?;
    fail_on(alloc, report, case, words, &mut store, held)
}

/// Copies with each call failing in turn, until a run ends with 0. How many there were before.
fn fail_calls(
    alloc: Global,
    report: &mut Report,
    shows: &str,
    words: &[String],
    held: &str,
) -> Result<usize, Fail> {
    for run in 0..MOST_CALLS {
        if fail_call(alloc, report, Case { shows, run }, words, held)? {
            return Ok(run);
        }
    }
    Ok(MOST_CALLS)
}

fn fail_way(alloc: Global, report: &mut Report, line: &str) -> Result<(), Fail> {
    let (shows, came) = line.split_once('→').unwrap_or((line, ""));
    let (count, held) = came.split_once(" =").unwrap_or((came, ""));
    let mut words = Vec::new(alloc);
    for word in shows.split(' ') {
        push_words(alloc, &mut words, &[word])?;
    }
    let run = fail_calls(alloc, report, shows, &words, held)?;
    let count = count.parse::<u64>().unwrap_or(0);
    report.number(Case { shows, run }, "calls", run as u64, count);
    Ok(())
}

#[test]
fn each_call_of_the_store_fails_in_turn(rt: HostRuntime) -> Result<(), Fail> {
    let alloc = rt.alloc();
    let mut report = Report::new(alloc);
    for line in WAYS.split('\n') {
        fail_way(alloc, &mut report, line)?;
    }
    report.settle(&rt);
    Ok(())
}
