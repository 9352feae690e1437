//! The one kind of wires over which all runs go, and such a run. They keep what moved on which link, in order, and one link or one
//! call may not do as it should. They tell nothing of their calls, and what they answer is no matter here.

ghost use Rattle.std.specs.Prelude.{◌≡◌, None};

use crate::peers::Counted;
pub use crate::peers::Peers;
use crate::report::{Case, Report};
use crate::served::destination_at;
use lnbd_cli::run;
use lnbd_faulty::FaultyWires;
use lnbd_link::{Accepted, Got, ListSink, ListSource, Took, Want, WireFailed, Wires};
use lnbd_model::Target;
use lnbd_spawn::ListSpawner;
use lnbd_store::MemoryStore;
use std::alloc::Global;
use std::test::Fail;

/// What goes wrong.
#[derive(Clone, Copy)]
pub enum Fault {
    Nothing,
    /// The peer of this link closes it behind so many bytes, its own and those to it together. What is written to it then is lost.
    Closes { link: u32, bytes: usize },
    /// The connect of this number, counted from 0, ends at the destination.
    Strays { connect: u32 },
    /// The connect, listen, accept, read or write of this number, counted together from 0, fails.
    Fails { call: u64 },
}

impl Fault {
    /// The number of the call that fails. No run has so many calls where it says none.
    fn call(self) -> u64 {
        match self {
            Fault::Fails { call } => call,
            Fault::Nothing | Fault::Closes { .. } | Fault::Strays { .. } => u64::MAX,
        }
    }
}

/// A read or a write, and what it moved. A schedule counts the same calls.
#[derive(Drop)]
pub enum Heard {
    Read { link: u32, bytes: usize },
    Write { link: u32, bytes: Vec<u8> },
}

/// Wires, each read and write of theirs, how many bytes moved on the link that closes, and how many connects there were.
#[derive(Drop)]
pub struct Outside {
    alloc: Global,
    wires: FaultyWires<Counted>,
    fault: Fault,
    moved: usize,
    connects: u32,
    pub calls: Vec<Heard>,
}

impl Outside {
    pub fn new(alloc: Global, peers: Peers, fault: Fault) -> Outside {
        Outside {
            alloc,
            wires: FaultyWires::new(Counted::new(peers), fault.call()),
            fault,
            moved: 0,
            connects: 0,
            calls: Vec::new(alloc),
        }
    }

    /// How many bytes moved on the link that closes.
    pub fn moved(&self) -> usize {
        self.moved
    }

    /// What the export at this place of the list holds now, if there is one.
    pub fn exported(&self, place: usize) -> Option<&[u8]> {
        match &self.wires.inner().peers {
            Peers::Exports(wires) if place < wires.exports() => Some(wires.bytes(place)),
            _ => None,
        }
    }

    /// How often memory ran out behind the exports.
    pub fn shorts(&self) -> u64 {
        match &self.wires.inner().peers {
            Peers::Exports(wires) => wires.shorts(),
            _ => 0,
        }
    }

    /// All bytes that went out, in order, whatever the link.
    pub fn written(&self) -> Result<Vec<u8>, Fail> {
        let mut written = Vec::new(self.alloc);
        for call in self.calls.iter() {
            if let Heard::Write { link: _, bytes } = call {
                written.extend_from_slice(bytes.as_slice())?;
            }
        }
        Ok(written)
    }

    /// How many bytes may move on this link before its peer closes it.
    fn left(&self, link: u32) -> usize {
        match self.fault {
            Fault::Closes { link: on, bytes } if on == link => bytes.saturating_sub(self.moved),
            _ => usize::MAX,
        }
    }

    /// So many bytes moved on a link.
    fn count(&mut self, link: u32, bytes: usize)
        ensures { self.new.wires ≡ self.old.wires }
    {
        match self.fault {
            Fault::Closes { link: on, bytes: _ } if on == link => {
                self.moved = self.moved.saturating_add(bytes);
            }
            _ => {}
        }
    }

    /// Whether the connect that comes now ends elsewhere.
    fn strays(&self) -> bool {
        match self.fault {
            Fault::Strays { connect } => connect == self.connects,
            Fault::Nothing | Fault::Closes { .. } | Fault::Fails { .. } => false,
        }
    }
}

impl Wires for Outside {
    ghost told = { λ w. None };

    ghost contents = { λ w. None };

    ghost faults = { λ w. ⟦<FaultyWires<Counted> as Wires>⟧.faults w.wires };

    ghost idles = { λ w. ⟦<FaultyWires<Counted> as Wires>⟧.idles w.wires };

    fn connect(&mut self, to: &Target) -> Result<u32, WireFailed> {
        let strays = self.strays();
        self.connects = self.connects.saturating_add(1);
        if strays {
            if let Ok(other) = destination_at(self.alloc) {
                return self.wires.connect(&other);
            }
        }
        self.wires.connect(to)
    }

    fn listen(&mut self, at: &Target) -> Result<u32, WireFailed> {
        self.wires.listen(at)
    }

    fn accept(&mut self, listener: u32) -> Accepted {
        self.wires.accept(listener)
    }

    fn read(&mut self, link: u32, into: &mut [u8]) -> Got {
        let left = self.left(link).min(into.len());
        if left == 0 {
            return Got::End;
        }
        let (front, _) = into.split_at_mut(left);
        let got = self.wires.read(link, front);
        let bytes = got.moved();
        self.count(link, bytes);
        let _ = self.calls.push(Heard::Read { link, bytes });
        got
    }

    fn write(&mut self, link: u32, from: &[u8]) -> Took {
        let left = self.left(link).min(from.len());
        if left == 0 {
            return Took::Bytes(from.len());
        }
        let (front, _) = from.split_at(left);
        let took = self.wires.write(link, front);
        let count = took.moved();
        self.count(link, count);
        keep(&mut self.calls, link, front, count);
        took
    }

    fn pause(&mut self, wants: &[Want]) {
        self.wires.pause(wants);
    }

    fn shut(&mut self, link: u32) {
        self.wires.shut(link);
    }

    fn faults(&self) -> u64 {
        self.wires.faults()
    }

    fn idles(&self) -> u64 {
        self.wires.idles()
    }
}

/// Keeps a write of a front of these bytes.
fn keep(calls: &mut Vec<Heard>, link: u32, from: &[u8], count: usize) {
    let alloc = *calls.allocator();
    let (front, _) = from.split_at(count.min(from.len()));
    if let Ok(bytes) = Vec::from_slice(alloc, front) {
        let _ = calls.push(Heard::Write { link, bytes });
    }
}

/// The call of the input, that of the output and that of the error stream which fails, and how many bytes the output takes.
#[derive(Clone, Copy)]
pub struct Streams {
    pub input_fails_at: Option<usize>,
    pub output_fails_at: Option<usize>,
    pub error_fails_at: Option<usize>,
    pub output_room: usize,
}

/// How many bytes an output takes where nothing else is said.
pub const ROOM: usize = 4096;

/// Streams of which no call fails.
pub const STREAMS: Streams = Streams {
    input_fails_at: None,
    output_fails_at: None,
    error_fails_at: None,
    output_room: ROOM,
};

/// How a run of the program ended: its status, what it printed, and what it said of its end.
#[derive(Drop)]
pub struct Ended {
    pub status: u8,
    pub out: ListSink,
    pub err: ListSink,
}

/// Runs the program with this input, over these files and programs. No other function calls it.
pub fn played_beside(
    alloc: Global,
    words: &[String],
    script: Vec<u8>,
    streams: Streams,
    wires: &mut Outside,
    store: &mut MemoryStore,
    spawn: &mut ListSpawner,
) -> Result<Ended, Fail> {
    let mut input = ListSource::new(script, streams.input_fails_at);
    let mut out = ListSink::new(alloc, streams.output_room, streams.output_fails_at)?;
    let mut err = ListSink::new(alloc, ROOM, streams.error_fails_at)?;
    let status = run(
        alloc, words, &mut input, wires, &mut out, &mut err, store, spawn,
    );
    Ok(Ended { status, out, err })
}

/// Runs the program with this input, where there are no files and no programs.
pub fn played(
    alloc: Global,
    words: &[String],
    script: Vec<u8>,
    streams: Streams,
    wires: &mut Outside,
) -> Result<Ended, Fail> {
    let mut store = MemoryStore::new(alloc, Vec::new(alloc), None);
    let mut spawn = ListSpawner::new(alloc, Vec::new(alloc));
    played_beside(alloc, words, script, streams, wires, &mut store, &mut spawn)
}

/// Words that are owned.
pub fn push_words(alloc: Global, owned: &mut Vec<String>, words: &[&str]) -> Result<(), Fail> {
    for word in words {
        owned.push(String::from_str(alloc, word)?)?;
    }
    Ok(())
}

/// A run that is over, with the wires that it went over.
#[derive(Drop)]
pub struct Finished {
    pub ended: Ended,
    pub wires: Outside,
}

/// Runs the program with these words over these wires.
pub fn finish(
    alloc: Global,
    words: &[&str],
    script: Vec<u8>,
    streams: Streams,
    wires: Outside,
) -> Result<Finished, Fail> {
    let mut wires = wires;
    let mut owned = Vec::new(alloc);
    push_words(alloc, &mut owned, words)?;
    let ended = played(alloc, &owned, script, streams, &mut wires)?;
    Ok(Finished { ended, wires })
}

/// Reports what a run printed, what it said of its end, and its status.
pub fn report_end(
    report: &mut Report,
    case: Case,
    ended: &Ended,
    printed: &str,
    said: &str,
    status: u8,
) {
    report.stream(case, "printed", ended.out.bytes(), printed);
    report.stream(case, "said", ended.err.bytes(), said);
    report.number(case, "status", ended.status as u64, status as u64);
}

/// Reports what went out over all links.
pub fn report_written(
    report: &mut Report,
    case: Case,
    wires: &Outside,
    written: &[u8],
) -> Result<(), Fail> {
    let came = wires.written()?;
    report.bytes(case, "written", came.as_slice(), written);
    Ok(())
}
