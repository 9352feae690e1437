//! Links in memory that peers ask for: what each call answers. The lists' answers come from the wires
//! beneath, whose calls are told as those that were made.

ghost use Rattle.std.specs.Prelude.{◌≡◌, ◌<◌, ◌≤◌, ◌+◌, ◌^◌, ℕ, List, Some, None, [], ◌∷◌, true, false, map, if◌then◌else◌, length, vec_len, IfOk, OnErr};
ghost use Rattle.lnbd_link.specs.Count.{Rises, raised_by};
ghost use Rattle.lnbd_link.specs.Part.{Adds};
ghost use Rattle.lnbd_link.specs.Call.{Call, link_told, read_told, write_told};
ghost use Rattle.lnbd_link.specs.Call.{Connect, Listen, Accept, Read, Write, Pause, Shut, ReadFault, WriteFault};
ghost use Rattle.lnbd_link.specs.Numbers.{is_given, is_open};
ghost use Rattle.lnbd_link.specs.Contents.{Keeps};
ghost use Rattle.lnbd_link.specs.Room.{target_len, moved_by, sent_by};
ghost use Rattle.lnbd_link.specs.Answers.{IfLink, AcceptFailed, IfMoved, ReadFailed, IfSent, WriteFailed};
ghost use Rattle.lnbd_link.specs.Left.{link_of};
ghost use Rattle.lnbd_link.specs.Listed.{told_by, has_room, after};
ghost use Rattle.lnbd_inbound.specs.Inbound.{listener_left, inbound_of, next_listener, next_accept, inbound_read, after_read, inbound_write, after_write, waited_as};

use crate::marks::{Mark, Marks};
use lnbd_link::{Accepted, Got, ListLink, ListWires, Took, Want, WireFailed, Wires};
use lnbd_model::{NoMemory, Target, Text};
use std::alloc::Global;
use std::marker::Model;

/// Links in memory that peers ask for, and a listener, which has number 0. The nth accept on it, from 0,
/// takes the nth link, which has number n + 1; after the last no peer waits. Contracts see what each number
/// has left, the calls, the room for more, and the counts.
#[derive(Drop)]
pub struct InboundWires {
    // The listener is a link beneath which has nothing to read, and each accept a connect to nowhere.
    beneath: ListWires,
    marks: Marks,
    nowhere: Target,
    links: usize,
    next: usize,
    hearing: bool,
}

impl Model for InboundWires {
    ghost use Rattle.lnbd_link.specs.Listed.{Listed};

    ghost Value = { Listed };

    ghost use Rattle.lnbd_inbound.specs.Retold.{seen};
    ghost use Rattle.lnbd_inbound.specs.Standing.{IsInbound};

    ghost view = { λ a. seen a.marks.0 a.beneath };

    ghost invariant = { λ a. IsInbound a };
}

impl InboundWires {
    /// Wires whose peers are these links, with room for so much of the transcript. Each call but `faults`
    /// and `idles` takes 1 of the room, and 1 more for each byte that it moves, each byte of its address
    /// and each want; past it, calls fail. A pause raises the count of waiting by `step`. Whether a link's
    /// connect fails is no matter. 2 ^ 32 - 1 links and the listener are more than there are numbers for
    /// on the wires beneath, which is told as want of memory.
    pub fn new(
        alloc: Global,
        links: Vec<ListLink>,
        room: usize,
        step: u64,
    ) -> Result<InboundWires, NoMemory>
        requires few { vec_len links < 2 ^ 32 }
        requires step { 1 ≤ step }
        ensures told { IfOk result (λ wires. ⟦<InboundWires as Wires>⟧.told wires ≡ Some []) }
        ensures state { IfOk result (λ wires. wires ≡ record { links = listener_left ∷ map inbound_of links.items; calls = []; room = room; telling = true; faults = 0; idles = 0; step = step }) }
    {
        if links.len() >= 0xffff_ffff {
            return Err(NoMemory);
        }
        let all = all_links(alloc, links)?;
        let numbers = all.len();
        Ok(InboundWires {
            beneath: ListWires::new(alloc, all, room, step)?,
            marks: Marks::new(alloc, room)?,
            nowhere: Target::Unix {
                path: Text::empty(alloc),
            },
            links: numbers,
            next: 0,
            hearing: false,
        })
    }
}

// The listener and the links, as links beneath.
fn all_links(alloc: Global, links: Vec<ListLink>) -> Result<Vec<ListLink>, NoMemory>
    requires { vec_len links < 2 ^ 32 }
    ensures links { IfOk result (λ all. map link_of all.items ≡ listener_left ∷ map inbound_of links.items) }
    ensures len { IfOk result (λ all. vec_len all ≡ 1 + vec_len links) }
{
    let mut all = Vec::with_capacity(alloc, links.len() + 1)?;
    all.push(ListLink {
        fails: false,
        reads: Vec::new(alloc),
        writes: Vec::new(alloc),
    })?;
    for link in links {
        all.push(ListLink {
            fails: false,
            reads: link.reads,
            writes: link.writes,
        })?;
    }
    Ok(all)
}

// Whether the number is the listener's, which is open.
fn hears(listener: u32, hearing: bool) -> bool
    ensures yes { result ≡ true → (listener ≡ 0) × (hearing ≡ true) }
    ensures no { result ≡ false → listener ≡ 0 → hearing ≡ false }
{
    listener == 0 && hearing
}

// What an accept answers where no link is left: a read of the listener beneath ends, or fails.
fn waited(got: Got) -> Accepted
    ensures { result ≡ waited_as got }
{
    match got {
        Got::End => Accepted::NotReady,
        Got::Bytes(_) | Got::NotReady | Got::Failed => Accepted::Failed,
    }
}

impl Wires for InboundWires {
    ghost told = { told_by };

    ghost contents = { λ w. None };

    ghost faults = { λ w. w.faults };

    ghost idles = { λ w. w.idles };

    fn connect(&mut self, to: &Target) -> Result<u32, WireFailed>
        ensures told { Adds (told_by self.old) (told_by self.new) (Connect to.now (link_told result)) }
        ensures fresh { IfOk result (λ link. (calls : List Call) → told_by self.old ≡ Some calls → is_given link calls ≡ false) }
        ensures contents { Keeps None None }
        ensures faults { self.old.faults ≤ self.new.faults }
        ensures cause { OnErr result (Rises 1 self.old.faults self.new.faults) }
        ensures idles { self.old.idles ≤ self.new.idles }
        ensures answer { link_told result ≡ None }
        ensures state { self.new ≡ after self.old (Connect to.now None) }
    {
        self.marks.add(Mark::Swapped);
        self.beneath.listen(to)
    }

    fn listen(&mut self, at: &Target) -> Result<u32, WireFailed>
        ensures told { Adds (told_by self.old) (told_by self.new) (Listen at.now (link_told result)) }
        ensures fresh { IfOk result (λ link. (calls : List Call) → told_by self.old ≡ Some calls → is_given link calls ≡ false) }
        ensures contents { Keeps None None }
        ensures faults { self.old.faults ≤ self.new.faults }
        ensures cause { OnErr result (Rises 1 self.old.faults self.new.faults) }
        ensures idles { self.old.idles ≤ self.new.idles }
        ensures answer { link_told result ≡ (if has_room self.old (1 + target_len at.now) then next_listener self.old else None) }
        ensures state { self.new ≡ after self.old (Listen at.now (next_listener self.old)) }
    {
        let next = self.next;
        if next > 0 {
            self.marks.add(Mark::Same);
            return self.beneath.listen(at);
        }
        self.marks.add(Mark::Swapped);
        match self.beneath.connect(at) {
            Ok(listener) => {
                self.next = 1;
                self.hearing = true;
                Ok(listener)
            }
            Err(failed) => Err(failed),
        }
    }

    fn accept(&mut self, listener: u32) -> Accepted
        ensures told { Adds (told_by self.old) (told_by self.new) (Accept listener result) }
        ensures fresh { IfLink result (λ link. (calls : List Call) → told_by self.old ≡ Some calls → is_given link calls ≡ false) }
        ensures opened { (calls : List Call) → told_by self.old ≡ Some calls → is_open listener calls ≡ false → AcceptFailed result }
        ensures contents { Keeps None None }
        ensures faults { self.old.faults ≤ self.new.faults }
        ensures cause { AcceptFailed result → Rises 1 self.old.faults self.new.faults }
        ensures idles { self.old.idles ≤ self.new.idles }
        ensures answer { result ≡ (if has_room self.old 1 then next_accept self.old listener else Accepted.Failed) }
        ensures state { self.new ≡ after self.old (Accept listener (next_accept self.old listener)) }
    {
        if !hears(listener, self.hearing) {
            self.marks.add(Mark::Same);
            return self.beneath.accept(listener);
        }
        self.marks.add(Mark::Accepts);
        let next = self.next;
        let links = self.links;
        if next < links {
            match self.beneath.connect(&self.nowhere) {
                Ok(link) => {
                    self.next += 1;
                    Accepted::Link(link)
                }
                Err(_) => Accepted::Failed,
            }
        } else {
            waited(self.beneath.read(0, &mut [0]))
        }
    }

    fn read(&mut self, link: u32, into: &mut [u8]) -> Got
        requires { 0 < length into.old }
        ensures told { Adds (told_by self.old) (told_by self.new) (Read link (length into.old) (read_told result into.new)) }
        ensures count { IfMoved result (λ n. (0 < n) × (n ≤ length into.old)) }
        ensures opened { (calls : List Call) → told_by self.old ≡ Some calls → is_open link calls ≡ false → ReadFailed result }
        ensures contents { Keeps None None }
        ensures faults { self.old.faults ≤ self.new.faults }
        ensures cause { ReadFailed result → Rises 1 self.old.faults self.new.faults }
        ensures idles { self.old.idles ≤ self.new.idles }
        ensures answer { let answer = inbound_read self.old link (length into.old) in read_told result into.new ≡ (if has_room self.old (1 + length (moved_by answer)) then answer else ReadFault) }
        ensures state { self.new ≡ after (after_read self.old link (length into.old)) (Read link (length into.old) (inbound_read self.old link (length into.old))) }
    {
        if link == 0 {
            self.marks.add(Mark::Reads(into.len()));
            self.beneath.accept(0);
            return Got::Failed;
        }
        self.marks.add(Mark::Same);
        self.beneath.read(link, into)
    }

    fn write(&mut self, link: u32, from: &[u8]) -> Took
        requires { 0 < length from.now }
        ensures told { Adds (told_by self.old) (told_by self.new) (Write link (length from.now) (write_told result from.now)) }
        ensures count { IfSent result (λ n. (0 < n) × (n ≤ length from.now)) }
        ensures opened { (calls : List Call) → told_by self.old ≡ Some calls → is_open link calls ≡ false → WriteFailed result }
        ensures contents { Keeps None None }
        ensures faults { self.old.faults ≤ self.new.faults }
        ensures cause { WriteFailed result → Rises 1 self.old.faults self.new.faults }
        ensures idles { self.old.idles ≤ self.new.idles }
        ensures answer { let answer = inbound_write self.old link from.now in write_told result from.now ≡ (if has_room self.old (1 + length (sent_by answer)) then answer else WriteFault) }
        ensures state { self.new ≡ after (after_write self.old link) (Write link (length from.now) (inbound_write self.old link from.now)) }
    {
        if link == 0 {
            self.marks.add(Mark::Writes(from.len()));
            self.beneath.accept(0);
            return Took::Failed;
        }
        self.marks.add(Mark::Same);
        self.beneath.write(link, from)
    }

    fn pause(&mut self, wants: &[Want])
        ensures told { Adds (told_by self.old) (told_by self.new) (Pause wants.now) }
        ensures contents { Keeps None None }
        ensures faults { self.old.faults ≤ self.new.faults }
        ensures idles { Rises 1 self.old.idles self.new.idles }
        ensures state { self.new ≡ record (after self.old (Pause wants.now)) { idles = raised_by self.old.step self.old.idles } }
    {
        self.marks.add(Mark::Same);
        self.beneath.pause(wants);
    }

    fn shut(&mut self, link: u32)
        ensures told { Adds (told_by self.old) (told_by self.new) (Shut link) }
        ensures contents { Keeps None None }
        ensures faults { self.old.faults ≤ self.new.faults }
        ensures idles { self.old.idles ≤ self.new.idles }
        ensures state { self.new ≡ after self.old (Shut link) }
    {
        self.marks.add(Mark::Same);
        self.beneath.shut(link);
        if link == 0 {
            self.hearing = false;
        }
    }

    fn faults(&self) -> u64 {
        self.beneath.faults()
    }

    fn idles(&self) -> u64 {
        self.beneath.idles()
    }
}
