//! One failure anywhere: a script, a map, a dump and a copy in which each call of the wires fails in turn, until all is done; and a map and a dump whose output fails at each
//! call.

use crate::outside::{Ended, Fault, Finished, Outside, Peers, STREAMS, Streams, finish};
use crate::report::{Case, Report, text_of};
use crate::served::{Disk, Run, holds, wires};
use crate::session::all_of;
use lnbd_link::{ListLink, ListWires, ReadAnswer};
use lnbd_memnet::Schedule;
use lnbd_model::Bytes;
use std::alloc::Global;
use std::process::Abort;
use std::test::Fail;

/// What is played while a call fails.
#[derive(Clone, Copy)]
enum Scene {
    /// A read by a script over a link that answers by a list.
    Script,
    /// A map of an export that is served.
    Map,
    /// A dump of it.
    Dump,
    /// A copy between two exports that are served.
    Copy,
}

/// No play here has more calls.
const MOST_CALLS: usize = 4096;

const BY_SCRIPT: &[&str] = &["nbdcalls"];

const TO_MAP: &[&str] = &["nbdinfo", "--map", "nbd://localhost/a"];

const TO_DUMP: &[&str] = &["nbddump", "nbd://localhost/a"];

const TO_COPY: &[&str] = &[
    "nbdcopy",
    "nbd://localhost/a",
    "nbd+unix:///b?socket=/tmp/s",
];

const SCRIPT: &str =
    "connect tcp localhost 10809\nsettle\nstate\npread 512 0\nsettle\nlog\ndone 1\ndisconnect\nsettle\n";

/// What the peer of the script sends, each by a read of its own: the hello, GO's reply, and the reply to the read.
static READS: [&str; 3] = [
    "4e42444d41474943 49484156454f5054 0003",
    "0003e889045565a9 00000007 00000003 0000000c 0000 0000000000100000 0001 \
     0003e889045565a9 00000007 00000001 00000000",
    "67446698 00000000 0000000000000001 ab*512",
];

const SOURCE: &[Run] = &[(0xaa, 393_216), (0, 262_144), (0xbb, 393_216)];

/// What is printed of it.
const DUMPED: &str =
    "0000000000: aa aa aa aa aa aa aa aa aa aa aa aa aa aa aa aa  |................|
*
0000060000: 00 00 00 00 00 00 00 00 00 00 00 00 00 00 00 00  |................|
*
00000a0000: bb bb bb bb bb bb bb bb bb bb bb bb bb bb bb bb  |................|
*
00000ffff0: bb bb bb bb bb bb bb bb bb bb bb bb bb bb bb bb  |................|
";

const FROM: Disk<'static> = Disk {
    name: b"a",
    runs: SOURCE,
    read_only: false,
};

const TO: Disk<'static> = Disk {
    name: b"b",
    runs: &[(0x11, 1_048_576)],
    read_only: false,
};

/// What its reads answer.
fn reads(alloc: Global) -> Result<Vec<ReadAnswer>, Fail> {
    let mut reads = Vec::new(alloc);
    for part in READS.iter() {
        let bytes = all_of(alloc, &[*part])?;
        reads.push(ReadAnswer::Bytes(Bytes::from_vec(bytes)))?;
    }
    Ok(reads)
}

/// A link that answers by the list.
fn listed(alloc: Global) -> Result<Peers, Fail> {
    let link = ListLink {
        fails: false,
        reads: reads(alloc)?,
        writes: Vec::new(alloc),
    };
    Ok(Peers::Lists(ListWires::new(alloc, vec![in alloc; link]?, 4096, 1)?))
}

/// Two exports that are served.
fn exports(alloc: Global) -> Result<Peers, Fail> {
    let wires = wires(alloc, &FROM, &TO, Schedule::List(Vec::new(alloc)))?;
    Ok(Peers::Exports(wires))
}

/// The words of a play.
fn words_of(scene: Scene) -> &'static [&'static str] {
    match scene {
        Scene::Script => BY_SCRIPT,
        Scene::Map => TO_MAP,
        Scene::Dump => TO_DUMP,
        Scene::Copy => TO_COPY,
    }
}

/// What is behind the wires of a play.
fn peers_of(alloc: Global, scene: Scene) -> Result<Peers, Fail> {
    match scene {
        Scene::Script => listed(alloc),
        Scene::Map | Scene::Dump | Scene::Copy => exports(alloc),
    }
}

/// Plays it, with this fault and these streams.
fn finished_of(
    alloc: Global,
    scene: Scene,
    fault: Fault,
    streams: Streams,
) -> Result<Finished, Fail> {
    let script = match scene {
        Scene::Script => Vec::from_slice(alloc, SCRIPT.as_bytes())?,
        Scene::Map | Scene::Dump | Scene::Copy => Vec::new(alloc),
    };
    let wires = Outside::new(alloc, peers_of(alloc, scene)?, fault);
    finish(alloc, words_of(scene), script, streams, wires)
}

/// Reports what a dump printed that did not come to its end: a front of the dump.
fn report_front(report: &mut Report, case: Case, ended: &Ended) {
    let printed = text_of(ended.out.bytes());
    report.holds(case, "a front", DUMPED.starts_with(printed));
}

/// Reports the end of a run in which a call failed: its status, its line, and, of a script, that each callback that was admitted was freed.
fn report_fault(report: &mut Report, case: Case, scene: Scene, ended: &Ended) {
    report.number(case, "status", ended.status as u64, 5);
    report.stream(case, "said", ended.err.bytes(), "lnbd: link fault\n");
    match scene {
        Scene::Script => {
            let lines = text_of(ended.out.bytes());
            report.holds(case, "all freed", lines.ends_with("\nopened 1 freed 1\n"))
        }
        Scene::Dump => report_front(report, case, ended),
        Scene::Map | Scene::Copy => report.stream(case, "printed", ended.out.bytes(), ""),
    }
}

/// Reports a run with this call failing, and tells whether it ended with 0.
fn report_run(report: &mut Report, case: Case, scene: Scene, finished: &Finished) -> bool {
    if finished.ended.status != 0 {
        report_fault(report, case, scene, &finished.ended);
        return false;
    }
    match scene {
        Scene::Copy => report.holds(case, "equal", holds(&finished.wires, 1, SOURCE)),
        Scene::Dump => report.stream(case, "printed", finished.ended.out.bytes(), DUMPED),
        Scene::Script | Scene::Map => {}
    }
    report.holds(case, "a call failed before", 0 < case.run);
    true
}

/// Plays it with the call of the run's number failing, and tells whether it ended with 0.
fn fail_call(alloc: Global, report: &mut Report, case: Case, scene: Scene) -> Result<bool, Fail> {
    let fault = Fault::Fails {
        call: case.run as u64,
    };
    let finished = finished_of(alloc, scene, fault, STREAMS)?;
    Ok(report_run(report, case, scene, &finished))
}

/// Plays it with each call failing in turn, until a run ends with 0.
fn fail_calls(alloc: Global, report: &mut Report, shows: &str, scene: Scene) -> Result<(), Fail> {
    for run in 0..MOST_CALLS {
        if fail_call(alloc, report, Case { shows, run }, scene)? {
            return Ok(());
        }
    }
    report.holds(Case { shows, run: 0 }, "an end with 0", false);
    Ok(())
}

/// A test of a play.
fn fail_each(rt: &impl Abort, alloc: Global, shows: &str, scene: Scene) -> Result<(), Fail> {
    let mut report = Report::new(alloc);
    fail_calls(alloc, &mut report, shows, scene)?;
    report.settle(rt);
    Ok(())
}

#[test]
fn a_script_tells_each_call_that_fails(rt: HostRuntime) -> Result<(), Fail> {
    fail_each(&rt, rt.alloc(), "a script", Scene::Script)
}

#[test]
fn a_map_tells_each_call_that_fails(rt: HostRuntime) -> Result<(), Fail> {
    fail_each(&rt, rt.alloc(), "a map", Scene::Map)
}

#[test]
fn a_dump_tells_each_call_that_fails(rt: HostRuntime) -> Result<(), Fail> {
    fail_each(&rt, rt.alloc(), "a dump", Scene::Dump)
}

#[test]
fn a_copy_tells_each_call_that_fails(rt: HostRuntime) -> Result<(), Fail> {
    fail_each(&rt, rt.alloc(), "a copy", Scene::Copy)
}

/// Reports a run whose output failed, and tells whether it ended with 0.
fn report_output(report: &mut Report, case: Case, scene: Scene, ended: &Ended, said: &str) -> bool {
    if ended.status == 0 {
        report.holds(case, "a call failed before", 0 < case.run);
        return true;
    }
    report.number(case, "status", ended.status as u64, 8);
    report.stream(case, "said", ended.err.bytes(), said);
    if let Scene::Dump = scene {
        report_front(report, case, ended);
    }
    false
}

/// A run of which this call of the output fails, and none of the error stream or this one. Tells whether it ended with 0.
fn fail_output(
    alloc: Global,
    report: &mut Report,
    case: Case,
    scene: Scene,
    error_fails_at: Option<usize>,
    said: &str,
) -> Result<bool, Fail> {
    let streams = Streams {
        output_fails_at: Some(case.run),
        error_fails_at,
        ..STREAMS
    };
    let finished = finished_of(alloc, scene, Fault::Nothing, streams)?;
    Ok(report_output(report, case, scene, &finished.ended, said))
}

/// Runs of which each call of the output fails in turn, and none of the error stream or the first one too.
fn fail_outputs(
    alloc: Global,
    report: &mut Report,
    scene: Scene,
    error_fails_at: Option<usize>,
    said: &str,
) -> Result<(), Fail> {
    let shows = "an output that fails";
    for run in 0..MOST_CALLS {
        if fail_output(
            alloc,
            report,
            Case { shows, run },
            scene,
            error_fails_at,
            said,
        )? {
            return Ok(());
        }
    }
    report.holds(Case { shows, run: 0 }, "an end with 0", false);
    Ok(())
}

#[test]
fn an_output_that_fails_is_told(rt: HostRuntime) -> Result<(), Fail> {
    let alloc = rt.alloc();
    let mut report = Report::new(alloc);
    for scene in [Scene::Map, Scene::Dump] {
        fail_outputs(alloc, &mut report, scene, None, "lnbd: output fault\n")?;
        fail_outputs(alloc, &mut report, scene, Some(0), "")?;
    }
    report.settle(&rt);
    Ok(())
}
