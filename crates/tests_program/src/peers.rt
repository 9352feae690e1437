//! What is behind the wires of a run: links that answer by lists, clients that ask for links, or exports that are served; and how
//! often a call of them failed. What goes wrong on purpose stands above.

ghost use Rattle.std.specs.Prelude.{◌≡◌, ◌≤◌, ◌<◌, None, length, OnErr};
ghost use Rattle.lnbd_link.specs.Count.{Rises};
ghost use Rattle.lnbd_link.specs.Answers.{AcceptFailed, IfMoved, IfSent, ReadFailed, WriteFailed};

use lnbd_inbound::InboundWires;
use lnbd_link::{Accepted, Got, ListWires, Took, Want, WireFailed, Wires, raised};
use lnbd_memnet::ServedWires;
use lnbd_model::Target;

/// What is behind the wires.
#[derive(Drop)]
pub enum Peers {
    Lists(ListWires),
    Clients(InboundWires),
    Exports(ServedWires),
}

impl Peers {
    fn connect(&mut self, to: &Target) -> Result<u32, WireFailed> {
        match self {
            Peers::Lists(wires) => wires.connect(to),
            Peers::Clients(wires) => wires.connect(to),
            Peers::Exports(wires) => wires.connect(to),
        }
    }

    fn listen(&mut self, at: &Target) -> Result<u32, WireFailed> {
        match self {
            Peers::Lists(wires) => wires.listen(at),
            Peers::Clients(wires) => wires.listen(at),
            Peers::Exports(wires) => wires.listen(at),
        }
    }

    fn accept(&mut self, listener: u32) -> Accepted {
        match self {
            Peers::Lists(wires) => wires.accept(listener),
            Peers::Clients(wires) => wires.accept(listener),
            Peers::Exports(wires) => wires.accept(listener),
        }
    }

    fn read(&mut self, link: u32, into: &mut [u8]) -> Got
        requires { 0 < length into.old }
        ensures { IfMoved result (λ n. (0 < n) × (n ≤ length into.old)) }
    {
        match self {
            Peers::Lists(wires) => wires.read(link, into),
            Peers::Clients(wires) => wires.read(link, into),
            Peers::Exports(wires) => wires.read(link, into),
        }
    }

    fn write(&mut self, link: u32, from: &[u8]) -> Took
        requires { 0 < length from.now }
        ensures { IfSent result (λ n. (0 < n) × (n ≤ length from.now)) }
    {
        match self {
            Peers::Lists(wires) => wires.write(link, from),
            Peers::Clients(wires) => wires.write(link, from),
            Peers::Exports(wires) => wires.write(link, from),
        }
    }

    fn pause(&mut self, wants: &[Want]) {
        match self {
            Peers::Lists(wires) => wires.pause(wants),
            Peers::Clients(wires) => wires.pause(wants),
            Peers::Exports(wires) => wires.pause(wants),
        }
    }

    fn shut(&mut self, link: u32) {
        match self {
            Peers::Lists(wires) => wires.shut(link),
            Peers::Clients(wires) => wires.shut(link),
            Peers::Exports(wires) => wires.shut(link),
        }
    }

    fn faults(&self) -> u64 {
        match self {
            Peers::Lists(wires) => wires.faults(),
            Peers::Clients(wires) => wires.faults(),
            Peers::Exports(wires) => wires.faults(),
        }
    }

    fn idles(&self) -> u64 {
        match self {
            Peers::Lists(wires) => wires.idles(),
            Peers::Clients(wires) => wires.idles(),
            Peers::Exports(wires) => wires.idles(),
        }
    }
}

/// What is behind the wires, with how often a call of it failed and how long it has waited.
#[derive(Drop)]
pub struct Counted {
    pub peers: Peers,
    faults: u64,
    idles: u64,
}

impl Counted {
    pub fn new(peers: Peers) -> Counted {
        Counted {
            peers,
            faults: 0,
            idles: 0,
        }
    }

    /// The wires' own count of faults is taken over.
    fn look(&mut self)
        ensures rising { self.old.faults ≤ self.new.faults }
        ensures idles { self.new.idles ≡ self.old.idles }
    {
        self.faults = self.faults.max(self.peers.faults());
    }

    /// A call failed.
    fn fail(&mut self)
        ensures cause { Rises 1 self.old.faults self.new.faults }
        ensures rising { self.old.faults ≤ self.new.faults }
        ensures idles { self.new.idles ≡ self.old.idles }
    {
        self.faults = raised(self.faults, 1);
    }

    /// What an accept came to is counted.
    fn judge_accept(&mut self, answer: Accepted)
        ensures rising { self.old.faults ≤ self.new.faults }
        ensures cause { AcceptFailed answer → Rises 1 self.old.faults self.new.faults }
        ensures idles { self.new.idles ≡ self.old.idles }
    {
        match answer {
            Accepted::Failed => self.fail(),
            Accepted::Link(_) | Accepted::NotReady => self.look(),
        }
    }

    /// The same of a read.
    fn judge_read(&mut self, got: Got)
        ensures rising { self.old.faults ≤ self.new.faults }
        ensures cause { ReadFailed got → Rises 1 self.old.faults self.new.faults }
        ensures idles { self.new.idles ≡ self.old.idles }
    {
        match got {
            Got::Failed => self.fail(),
            Got::Bytes(_) | Got::NotReady | Got::End => self.look(),
        }
    }

    /// The same of a write.
    fn judge_write(&mut self, took: Took)
        ensures rising { self.old.faults ≤ self.new.faults }
        ensures cause { WriteFailed took → Rises 1 self.old.faults self.new.faults }
        ensures idles { self.new.idles ≡ self.old.idles }
    {
        match took {
            Took::Failed => self.fail(),
            Took::Bytes(_) | Took::NotReady => self.look(),
        }
    }

    /// What a connect or a listen came to is counted.
    fn linked(&mut self, answer: Result<u32, WireFailed>) -> Result<u32, WireFailed>
        ensures rising { self.old.faults ≤ self.new.faults }
        ensures cause { OnErr result (Rises 1 self.old.faults self.new.faults) }
        ensures idles { self.new.idles ≡ self.old.idles }
    {
        match answer {
            Ok(link) => {
                self.look();
                Ok(link)
            }
            Err(failed) => {
                self.fail();
                Err(failed)
            }
        }
    }
}

impl Wires for Counted {
    ghost told = { λ w. None };

    ghost contents = { λ w. None };

    ghost faults = { λ w. w.faults };

    ghost idles = { λ w. w.idles };

    fn connect(&mut self, to: &Target) -> Result<u32, WireFailed> {
        let answer = self.peers.connect(to);
        self.linked(answer)
    }

    fn listen(&mut self, at: &Target) -> Result<u32, WireFailed> {
        let answer = self.peers.listen(at);
        self.linked(answer)
    }

    fn accept(&mut self, listener: u32) -> Accepted {
        let answer = self.peers.accept(listener);
        self.judge_accept(answer);
        answer
    }

    fn read(&mut self, link: u32, into: &mut [u8]) -> Got {
        let got = self.peers.read(link, into);
        self.judge_read(got);
        got
    }

    fn write(&mut self, link: u32, from: &[u8]) -> Took {
        let took = self.peers.write(link, from);
        self.judge_write(took);
        took
    }

    fn pause(&mut self, wants: &[Want]) {
        self.peers.pause(wants);
        self.look();
        self.idles = raised(self.idles, 1).max(self.peers.idles());
    }

    fn shut(&mut self, link: u32) {
        self.peers.shut(link);
        self.look();
    }

    fn faults(&self) -> u64 {
        self.faults
    }

    fn idles(&self) -> u64 {
        self.idles
    }
}
