//! A copy as data, and its play: what it is between, what is asked for it on each link, and what comes of it.

ghost use Rattle.lnbd_memnet.specs.Schedule.{Moves};

use crate::asked::{LINKS, text_on};
use crate::outside::{
    Ended, Fault, Heard, Outside, Peers, STREAMS, played, push_words, report_end,
};
use crate::report::{Case, Report};
use crate::served::{Disk, Run, holds, wires};
use lnbd_memnet::Schedule;
use std::alloc::Global;
use std::test::Fail;

/// A copy from `nbd://localhost/a` to the export `b` of a Unix socket.
#[derive(Clone, Copy)]
pub struct Transfer<'a> {
    pub shows: &'a str,
    pub options: &'a [&'a str],
    pub source: &'a [Run],
    pub destination: &'a [Run],
    pub read_only: bool,
    /// All that is asked on each link, in its order, as words. Links 0 and 1 are the first of the source and of the destination, and
    /// behind them come the source's further ones and then the destination's.
    pub asks: &'a [&'a str],
    pub err: &'a str,
    pub status: u8,
    /// What the destination then holds.
    pub holds: &'a [Run],
}

impl<'a> Transfer<'a> {
    fn source(&self) -> Disk<'a> {
        Disk {
            name: b"a",
            runs: self.source,
            read_only: false,
        }
    }

    fn destination(&self) -> Disk<'a> {
        Disk {
            name: b"b",
            runs: self.destination,
            read_only: self.read_only,
        }
    }

    /// Wires between both, by this schedule.
    pub fn wires(&self, alloc: Global, schedule: Schedule) -> Result<Outside, Fail>
        requires { Moves schedule }
    {
        let wires = wires(alloc, &self.source(), &self.destination(), schedule)?;
        Ok(Outside::new(alloc, Peers::Exports(wires), Fault::Nothing))
    }
}

/// The addresses of both exports.
pub const BETWEEN: [&str; 2] = ["nbd://localhost/a", "nbd+unix:///b?socket=/tmp/s"];

/// Copies with these options between these addresses.
pub fn copied(
    alloc: Global,
    options: &[&str],
    addresses: &[&str],
    wires: &mut Outside,
) -> Result<Ended, Fail> {
    let mut words = Vec::new(alloc);
    push_words(alloc, &mut words, &["nbdcopy"])?;
    push_words(alloc, &mut words, options)?;
    push_words(alloc, &mut words, addresses)?;
    played(alloc, &words, Vec::new(alloc), STREAMS, wires)
}

/// What is asked on this link.
fn asks_on<'a>(transfer: &Transfer<'a>, link: u32) -> &'a str {
    match transfer.asks.get(link as usize) {
        Some(asks) => *asks,
        None => "",
    }
}

/// Reports what was asked on each link.
fn report_asks(
    alloc: Global,
    report: &mut Report,
    transfer: &Transfer,
    calls: &[Heard],
) -> Result<(), Fail> {
    let shows = transfer.shows;
    for link in 0..LINKS {
        let run = link as usize;
        let asks = text_on(alloc, link, calls)?;
        let wanted = asks_on(transfer, link);
        report.text(Case { shows, run }, "asked on link", asks.as_str(), wanted);
    }
    Ok(())
}

/// Reports what differs of a copy that is over.
fn report_copy(
    alloc: Global,
    report: &mut Report,
    transfer: &Transfer,
    ended: &Ended,
    wires: &Outside,
) -> Result<(), Fail> {
    let shows = transfer.shows;
    let case = Case { shows, run: 0 };
    report_end(report, case, ended, "", transfer.err, transfer.status);
    report_asks(alloc, report, transfer, &wires.calls)?;
    report.holds(case, "source", holds(wires, 0, transfer.source));
    report.holds(case, "destination", holds(wires, 1, transfer.holds));
    Ok(())
}

/// Copies over these wires, and reports what differs.
fn play_over(
    alloc: Global,
    report: &mut Report,
    transfer: &Transfer,
    wires: &mut Outside,
) -> Result<(), Fail> {
    let ended = copied(alloc, transfer.options, &BETWEEN, wires)?;
    report_copy(alloc, report, transfer, &ended, wires)
}

/// Copies, and reports what differs.
fn play(alloc: Global, report: &mut Report, transfer: &Transfer) -> Result<(), Fail> {
    let mut wires = transfer.wires(alloc, Schedule::List(Vec::new(alloc)))?;
    play_over(alloc, report, transfer, &mut wires)
}

/// Copies by each row of a table.
pub fn play_all(alloc: Global, report: &mut Report, transfers: &[Transfer]) -> Result<(), Fail> {
    for transfer in transfers {
        play(alloc, report, transfer)?;
    }
    Ok(())
}
