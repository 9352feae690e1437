//! Copies that their caller begins, and takes turn by turn or runs: what they come to, and when what is asked. Of two windows the second
//! one's extents are asked for while the first one is copied; and what comes behind a pause as long as is borne is not told.

ghost use Rattle.std.specs.Prelude.{◌≤◌, IfOk};
ghost use Rattle.lnbd_conduct.specs.Limits.{AreLimited};
ghost use Rattle.lnbd_copy.specs.Copier.{HasNotBegun};
ghost use Rattle.lnbd_memnet.specs.Schedule.{Moves};

use crate::asked::{count, place_of, times};
use crate::copies_dealt::TRANSFER;
use crate::outside::{Fault, Heard, Outside, Peers};
use crate::played::Transfer;
use crate::report::{Case, Report};
use crate::served::{Run, destination_at, holds, source_at};
use lnbd_copy::{Copier, Progress};
use lnbd_link::{ListLink, ListWires, ReadAnswer, Wires};
use lnbd_memnet::{Schedule, Step};
use lnbd_model::{Broken, Bytes, NoMemory, Place, Text};
use lnbd_plan::{CopyFault, CopyOptions, Rule, Summary};
use std::alloc::Global;
use std::test::Fail;

/// More turns than the copies here take.
const TURNS: usize = 1000;

/// A block of data, one of zeros, and data again.
const DISK: &[Run] = &[(0xdd, 4096), (0, 4096), (0xee, 8192)];

const SMALL: Transfer<'static> = Transfer {
    source: DISK,
    destination: &[(0x11, 16384)],
    holds: DISK,
    ..TRANSFER
};

const LOCKED: Transfer<'static> = Transfer {
    read_only: true,
    ..SMALL
};

const TURNED: CopyOptions = CopyOptions {
    connections: 2,
    requests: 1,
    request_size: 4096,
    sparse: 4096,
    extents: true,
    allocated: false,
    destination_is_zero: false,
    flush: true,
};

/// A copy between both exports, not begun.
fn copier(alloc: Global, options: CopyOptions) -> Result<Copier, Fail>
    requires { AreLimited options }
    ensures { IfOk result (λ copier. HasNotBegun copier) }
{
    let from = Place {
        to: source_at(alloc)?,
        name: Text::from_bytes(alloc, b"a")?,
    };
    let to = Place {
        to: destination_at(alloc)?,
        name: Text::from_bytes(alloc, b"b")?,
    };
    Ok(Copier::new(alloc, options, from, to))
}

/// Begins, and takes turns up to the last. The sums, or none where the copy takes more turns.
fn taken<W: Wires>(copier: &mut Copier, wires: &mut W) -> Result<Option<Summary>, CopyFault>
    requires { HasNotBegun copier.old }
{
    copier.begin(wires)?;
    'turns: for _ in 0..TURNS {
        match copier.turn(wires)? {
            Progress::Moved(_) => {}
            Progress::Still => {}
            Progress::Finished(summary) => return Ok(Some(summary)),
        }
    }
    Ok(None)
}

/// What a copy came to.
fn described(alloc: Global, told: Result<Option<Summary>, CopyFault>) -> Result<String, Fail> {
    let sums = match told {
        Ok(Some(sums)) => sums,
        Ok(None) => return Ok(String::from_str(alloc, "more turns")?),
        Err(CopyFault::Rule(Rule::ReadOnly)) => {
            return Ok(String::from_str(alloc, "rule read-only")?);
        }
        Err(CopyFault::Silent { idles }) => return Ok(format!(in alloc; "silent {idles}")?),
        Err(CopyFault::Broke(Broken::Breach(_))) => return Ok(String::from_str(alloc, "breach")?),
        Err(_) => return Ok(String::from_str(alloc, "another fault")?),
    };
    let (read, written, zeroed, skipped) = (sums.read, sums.written, sums.zeroed, sums.skipped);
    Ok(format!(in alloc; "read {read} written {written} zeroed {zeroed} skipped {skipped}")?)
}

/// The same of a copy that is run to its end.
fn run_to_end(copier: Copier, wires: &mut Outside) -> Result<Option<Summary>, CopyFault>
    requires { HasNotBegun copier }
{
    match copier.run(wires) {
        Ok(sums) => Ok(Some(sums)),
        Err(fault) => Err(fault),
    }
}

/// A copy over these wires, turn by turn, and what it came to.
#[tactic(auto, using(crate::proofs::LimitLemmas::turned_limited))]
fn turns(alloc: Global, wires: &mut Outside) -> Result<String, Fail> {
    let mut copier = copier(alloc, TURNED)?;
    let told = taken(&mut copier, wires);
    copier.end(wires);
    described(alloc, told)
}

fn report_turns(
    alloc: Global,
    report: &mut Report,
    case: Case,
    wires: &mut Outside,
) -> Result<(), Fail> {
    let told = turns(alloc, wires)?;
    let sums = "read 12288 written 12288 zeroed 4096 skipped 0";
    report.text(case, "sums", told.as_str(), sums);
    report.holds(case, "destination", holds(wires, 1, DISK));
    Ok(())
}

/// Each block of data is read and written once, and the zeros are zeroed.
fn turn_by_turn(alloc: Global, report: &mut Report) -> Result<(), Fail> {
    let case = Case {
        shows: "a copy is taken turn by turn",
        run: 0,
    };
    let mut wires = SMALL.wires(alloc, Schedule::List(Vec::new(alloc)))?;
    report_turns(alloc, report, case, &mut wires)
}

/// The beginning of a copy over these wires, and what it came to.
#[tactic(auto, using(crate::proofs::LimitLemmas::turned_limited))]
fn beginning(alloc: Global, wires: &mut Outside) -> Result<String, Fail> {
    let mut copier = copier(alloc, TURNED)?;
    let told = copier.begin(wires);
    copier.end(wires);
    match told {
        Ok(()) => described(alloc, Ok(None)),
        Err(fault) => described(alloc, Err(fault)),
    }
}

/// A copy that can't be made is told with its beginning, and nothing changes.
fn refused(alloc: Global, report: &mut Report) -> Result<(), Fail> {
    let case = Case {
        shows: "a rule is told with the beginning",
        run: 0,
    };
    let mut wires = LOCKED.wires(alloc, Schedule::List(Vec::new(alloc)))?;
    let told = beginning(alloc, &mut wires)?;
    report.text(case, "told", told.as_str(), "rule read-only");
    report.holds(case, "destination", holds(&wires, 1, LOCKED.destination));
    Ok(())
}

/// A copy that never begins ends without a call.
#[tactic(auto, using(crate::proofs::LimitLemmas::turned_limited))]
fn not_begun(alloc: Global, report: &mut Report) -> Result<(), Fail> {
    let case = Case {
        shows: "a copy may end before it begins",
        run: 0,
    };
    let mut wires = SMALL.wires(alloc, Schedule::List(Vec::new(alloc)))?;
    copier(alloc, TURNED)?.end(&mut wires);
    report.number(case, "calls", wires.calls.len() as u64, 0);
    report.holds(case, "destination", holds(&wires, 1, SMALL.destination));
    Ok(())
}

/// What a copy comes to whose source is silent for one pause, which counts for so much, and then breaks the protocol.
#[tactic(auto, using(crate::proofs::LimitLemmas::turned_limited))]
fn after_silence(alloc: Global, step: u64) -> Result<String, Fail>
    requires { 1 ≤ step }
{
    let greeting = b"no greeting of this protocol";
    let links = vec![in alloc;
        ListLink {
            fails: false,
            reads: vec![in alloc;
                ReadAnswer::NotReady,
                ReadAnswer::Bytes(Bytes::from_vec(greeting.to_vec(alloc)?)),
            ]?,
            writes: Vec::new(alloc),
        },
    ]?;
    let wires = ListWires::new(alloc, links, 1000, step)?;
    let mut wires = Outside::new(alloc, Peers::Lists(wires), Fault::Nothing);
    let copier = copier(alloc, TURNED)?;
    described(alloc, run_to_end(copier, &mut wires))
}

/// Where the pause reaches the limit the breach comes too late; one less does not.
fn silent(alloc: Global, report: &mut Report) -> Result<(), Fail> {
    let case = Case {
        shows: "silence comes before what is read behind it",
        run: 0,
    };
    let told = after_silence(alloc, 1_000_000_000)?;
    report.text(case, "at the limit", told.as_str(), "silent 1000000000");
    let told = after_silence(alloc, 999_999_999)?;
    report.text(case, "one less", told.as_str(), "breach");
    Ok(())
}

#[test]
fn a_copy_is_taken_by_its_caller(rt: HostRuntime) -> Result<(), Fail> {
    let alloc = rt.alloc();
    let mut report = Report::new(alloc);
    turn_by_turn(alloc, &mut report)?;
    refused(alloc, &mut report)?;
    not_begun(alloc, &mut report)?;
    silent(alloc, &mut report)?;
    report.settle(&rt);
    Ok(())
}

/// The second window's question, and the first one's zeroing.
const SECOND_STATUS: &str = "status 134217728 4096";

const ZERO: &str = "zero 0 134217728";

/// All that is asked on the links together, each once, but for the partings.
const ASKS: [&str; 5] = [
    "status 0 134217728",
    SECOND_STATUS,
    ZERO,
    "read 134217728 4096",
    "write 134217728 4096",
];

/// A window of zeros, and a block of data.
const WIDE_SOURCE: &[Run] = &[(0, 134_217_728), (0xdd, 4096)];

const WIDE: Transfer<'static> = Transfer {
    source: WIDE_SOURCE,
    destination: &[(0x11, 134_221_824)],
    holds: WIDE_SOURCE,
    ..TRANSFER
};

const USUAL: CopyOptions = CopyOptions {
    connections: 4,
    requests: 64,
    request_size: 262_144,
    sparse: 4096,
    extents: true,
    allocated: false,
    destination_is_zero: false,
    flush: false,
};

/// Steps of which the one of this number moves nothing, and all others all that there is.
#[tactic(auto, using(crate::proofs::Steps::all_move))]
fn steps(alloc: Global, rests: usize) -> Result<Schedule, NoMemory>
    ensures { IfOk result (λ schedule. Moves schedule) }
{
    let step = Step {
        ready: true,
        most: usize::MAX,
        pick: 0,
    };
    let mut steps = vec![in alloc; step; rests]?;
    steps.push(Step {
        ready: false,
        ..step
    })?;
    Ok(Schedule::List(steps))
}

/// The number of the first read on a link behind that call; with `moved` of the first that moved bytes.
fn read_after(calls: &[Heard], link: u32, behind: usize, moved: bool) -> usize {
    for (number, call) in calls.iter().enumerate() {
        match call {
            Heard::Read { link: on, bytes } => {
                if behind < number && *on == link && (!moved || *bytes != 0) {
                    return number;
                }
            }
            Heard::Write { link: _, bytes: _ } => {}
        }
    }
    usize::MAX
}

/// A copy of both windows, and what it came to.
#[tactic(auto, using(crate::proofs::LimitLemmas::usual_limited))]
fn copy_windows(alloc: Global, wires: &mut Outside) -> Result<String, Fail> {
    let copier = copier(alloc, USUAL)?;
    described(alloc, run_to_end(copier, wires))
}

/// Which read is the first on the source's first link behind the second question, over these wires.
fn first_read_over(alloc: Global, wires: &mut Outside) -> Result<usize, Fail> {
    let _ = copy_windows(alloc, wires)?;
    let (_, question) = place_of(alloc, &wires.calls, SECOND_STATUS)?;
    Ok(read_after(&wires.calls, 0, question, false))
}

/// Which read is the first on the source's first link behind the second question, where every step moves all.
fn first_read(alloc: Global) -> Result<usize, Fail> {
    let mut wires = WIDE.wires(alloc, Schedule::List(Vec::new(alloc)))?;
    first_read_over(alloc, &mut wires)
}

/// More reads and writes than come before the second answer.
const MOST_STEPS: usize = 100_000;

/// Each of the two is asked for before the other one's answer is read.
fn report_order(
    alloc: Global,
    report: &mut Report,
    case: Case,
    calls: &[Heard],
    rests: usize,
) -> Result<(), Fail> {
    let (source, question) = place_of(alloc, calls, SECOND_STATUS)?;
    let (other, zeroing) = place_of(alloc, calls, ZERO)?;
    report.number(case, "source", source as u64, 0);
    let zeroed = read_after(calls, other, zeroing, true);
    let answer = read_after(calls, source, question, true);
    report.holds(case, "asked before all is zeroed", question < zeroed);
    report.holds(case, "zeroed before the answer", zeroing < answer);
    report.holds(case, "the answer a step late", rests < answer);
    Ok(())
}

// What was asked for, and how often.
fn report_asked(
    alloc: Global,
    report: &mut Report,
    case: Case,
    calls: &[Heard],
) -> Result<(), Fail> {
    for ask in ASKS.iter() {
        report.number(case, ask, times(alloc, calls, ask)?, 1);
    }
    report.number(case, "disc", times(alloc, calls, "disc")?, 8);
    report.number(case, "asked", count(alloc, calls)?, 13);
    Ok(())
}

// What both exports then hold.
fn report_held(report: &mut Report, case: Case, wires: &Outside) {
    report.holds(case, "source", holds(wires, 0, WIDE.source));
    report.holds(case, "destination", holds(wires, 1, WIDE.holds));
}

/// Copies by these wires, and reports what it came to.
fn report_sums(
    alloc: Global,
    report: &mut Report,
    case: Case,
    wires: &mut Outside,
) -> Result<(), Fail> {
    let told = copy_windows(alloc, wires)?;
    let sums = "read 4096 written 4096 zeroed 134217728 skipped 0";
    report.text(case, "sums", told.as_str(), sums);
    Ok(())
}

/// Copies where the step of this number moves nothing.
fn report_windows(alloc: Global, report: &mut Report, rests: usize) -> Result<(), Fail> {
    let case = Case {
        shows: "two windows",
        run: 0,
    };
    report.holds(case, "few steps", rests < MOST_STEPS);
    let schedule = steps(alloc, rests.min(MOST_STEPS))?;
    let mut wires = WIDE.wires(alloc, schedule)?;
    report_sums(alloc, report, case, &mut wires)?;
    report_asked(alloc, report, case, &wires.calls)?;
    report_order(alloc, report, case, &wires.calls, rests)?;
    report_held(report, case, &wires);
    Ok(())
}

// The answer to the second question comes a step late.
#[test]
fn windows_are_asked_for_while_others_are_copied(rt: HostRuntime) -> Result<(), Fail> {
    let alloc = rt.alloc();
    let mut report = Report::new(alloc);
    let rests = first_read(alloc)?;
    report_windows(alloc, &mut report, rests)?;
    report.settle(&rt);
    Ok(())
}
