//! Links in memory, which answer by lists. They tell their calls while their room lasts.

ghost use Rattle.std.specs.Prelude.{◌≡◌, ◌<◌, ◌≤◌, ◌+◌, ◌^◌, ℕ, List, Some, None, [], true, false, map, if◌then◌else◌, length, slice_index_or, slice_set, vec_len, IfOk, OnErr};
ghost use Rattle.lnbd_link.specs.Count.{Rises, raised_by};
ghost use Rattle.lnbd_link.specs.Part.{Adds};
ghost use Rattle.lnbd_link.specs.Call.{Call, link_told, read_told, write_told};
ghost use Rattle.lnbd_link.specs.Call.{Connect, Listen, Accept, Read, Write, Pause, Shut, ReadFault, WriteFault};
ghost use Rattle.lnbd_link.specs.Numbers.{is_given, is_open};
ghost use Rattle.lnbd_link.specs.Contents.{Keeps};
ghost use Rattle.lnbd_link.specs.Room.{target_len, moved_by, sent_by};
ghost use Rattle.lnbd_link.specs.Answers.{IfLink, AcceptFailed, IfMoved, ReadFailed, IfSent, WriteFailed};
ghost use Rattle.lnbd_link.specs.Left.{link_of, next_read, reads_left, next_write, writes_left};
ghost use Rattle.lnbd_link.specs.Listed.{told_by, has_room, after, no_link, next_link, answer_read, with_read, answer_write, with_write};

use crate::book::Book;
use crate::count::raised;
use crate::left::{Left, ListLink};
use crate::log::target_text;
use crate::wires::{Accepted, Got, Took, Want, WireFailed, Wires};
use lnbd_model::{NoMemory, Target};
use std::alloc::Global;
use std::marker::Model;

/// Links in memory. The nth connect, from 0, takes the nth link, and one past the last fails. Contracts
/// see what each link has left, the calls, the room for more, and the counts.
#[derive(Drop)]
pub struct ListWires {
    links: Vec<Left>,
    book: Book,
    telling: bool,
    faults: u64,
    idles: u64,
    step: u64,
}

impl Model for ListWires {
    ghost use Rattle.std.specs.Prelude.{◌≡◌, ◌≤◌, vec_len};
    ghost use Rattle.lnbd_link.specs.Listed.{Listed};
    ghost use Rattle.lnbd_link.specs.Tallied.{Tallied};

    ghost Value = { Listed };

    ghost view = { λ a. record { links = a.links.items; calls = a.book.calls; room = a.book.room; telling = a.telling; faults = a.faults; idles = a.idles; step = a.step } };

    ghost invariant = { λ a. (a.book.numbers ≡ vec_len a.links) × (1 ≤ a.step) × Tallied a.book a.telling a.faults };
}

impl ListWires {
    /// Wires of these links, with room for so much of the transcript. Each call but `faults` and `idles`
    /// takes 1 of the room, and 1 more for each byte that it moves, each byte of its address and each
    /// want; past it, calls fail. A pause raises the count of waiting by `step`.
    pub fn new(
        alloc: Global,
        links: Vec<ListLink>,
        room: usize,
        step: u64,
    ) -> Result<ListWires, NoMemory>
        requires few { vec_len links < 2 ^ 32 }
        requires step { 1 ≤ step }
        ensures told { IfOk result (λ wires. ⟦<ListWires as Wires>⟧.told wires ≡ Some []) }
        ensures state { IfOk result (λ wires. wires ≡ record { links = map link_of links.items; calls = []; room = room; telling = true; faults = 0; idles = 0; step = step }) }
    {
        let numbers = links.len();
        let mut lefts = Vec::with_capacity(alloc, numbers)?;
        for link in links {
            lefts.push(Left::new(link))?;
        }
        Ok(ListWires {
            links: lefts,
            book: Book::new(alloc, numbers, room)?,
            telling: true,
            faults: 0,
            idles: 0,
            step,
        })
    }
}

impl Wires for ListWires {
    ghost told = { told_by };

    ghost contents = { λ w. None };

    ghost faults = { λ w. w.faults };

    ghost idles = { λ w. w.idles };

    fn connect(&mut self, to: &Target) -> Result<u32, WireFailed>
        ensures told { Adds (told_by self.old) (told_by self.new) (Connect to.now (link_told result)) }
        ensures fresh { IfOk result (λ link. (calls : List Call) → told_by self.old ≡ Some calls → is_given link calls ≡ false) }
        ensures contents { Keeps None None }
        ensures faults { self.old.faults ≤ self.new.faults }
        ensures cause { OnErr result (Rises 1 self.old.faults self.new.faults) }
        ensures idles { self.old.idles ≤ self.new.idles }
        ensures answer { link_told result ≡ (if has_room self.old (1 + target_len to.now) then next_link self.old else None) }
        ensures state { self.new ≡ after self.old (Connect to.now (next_link self.old)) }
    {
        if !self.telling || self.book.room() <= target_text(to).len() {
            self.telling = false;
            self.faults = raised(self.faults, 1);
            return Err(WireFailed);
        }
        let fails = fails_at(&self.links, self.book.next());
        match self.book.connect(to, fails) {
            Some(link) => Ok(link),
            None => {
                self.faults = raised(self.faults, 1);
                Err(WireFailed)
            }
        }
    }

    fn listen(&mut self, at: &Target) -> Result<u32, WireFailed>
        ensures told { Adds (told_by self.old) (told_by self.new) (Listen at.now (link_told result)) }
        ensures fresh { IfOk result (λ link. (calls : List Call) → told_by self.old ≡ Some calls → is_given link calls ≡ false) }
        ensures contents { Keeps None None }
        ensures faults { self.old.faults ≤ self.new.faults }
        ensures cause { OnErr result (Rises 1 self.old.faults self.new.faults) }
        ensures idles { self.old.idles ≤ self.new.idles }
        ensures answer { link_told result ≡ None }
        ensures state { self.new ≡ after self.old (Listen at.now None) }
    {
        if !self.telling || self.book.room() <= target_text(at).len() {
            self.telling = false;
        } else {
            self.book.listen(at);
        }
        self.faults = raised(self.faults, 1);
        Err(WireFailed)
    }

    fn accept(&mut self, listener: u32) -> Accepted
        ensures told { Adds (told_by self.old) (told_by self.new) (Accept listener result) }
        ensures fresh { IfLink result (λ link. (calls : List Call) → told_by self.old ≡ Some calls → is_given link calls ≡ false) }
        ensures opened { (calls : List Call) → told_by self.old ≡ Some calls → is_open listener calls ≡ false → AcceptFailed result }
        ensures contents { Keeps None None }
        ensures faults { self.old.faults ≤ self.new.faults }
        ensures cause { AcceptFailed result → Rises 1 self.old.faults self.new.faults }
        ensures idles { self.old.idles ≤ self.new.idles }
        ensures answer { result ≡ Accepted.Failed }
        ensures state { self.new ≡ after self.old (Accept listener Accepted.Failed) }
    {
        if !self.telling || self.book.room() == 0 {
            self.telling = false;
        } else {
            self.book.accept(listener);
        }
        self.faults = raised(self.faults, 1);
        Accepted::Failed
    }

    fn read(&mut self, link: u32, into: &mut [u8]) -> Got
        requires { 0 < length into.old }
        ensures told { Adds (told_by self.old) (told_by self.new) (Read link (length into.old) (read_told result into.new)) }
        ensures count { IfMoved result (λ n. (0 < n) × (n ≤ length into.old)) }
        ensures opened { (calls : List Call) → told_by self.old ≡ Some calls → is_open link calls ≡ false → ReadFailed result }
        ensures contents { Keeps None None }
        ensures faults { self.old.faults ≤ self.new.faults }
        ensures cause { ReadFailed result → Rises 1 self.old.faults self.new.faults }
        ensures idles { self.old.idles ≤ self.new.idles }
        ensures answer { let answer = answer_read self.old link (length into.old) in read_told result into.new ≡ (if has_room self.old (1 + length (moved_by answer)) then answer else ReadFault) }
        ensures state { self.new ≡ after (with_read self.old link (length into.old)) (Read link (length into.old) (answer_read self.old link (length into.old))) }
    {
        let got = give(&mut self.links, self.book.is_open(link), link, into);
        if !self.telling || self.book.room() <= got.moved() {
            self.telling = false;
            self.faults = raised(self.faults, 1);
            return Got::Failed;
        }
        self.book.read(link, into, got);
        self.faults = tallied(self.faults, got.is_failed());
        got
    }

    fn write(&mut self, link: u32, from: &[u8]) -> Took
        requires { 0 < length from.now }
        ensures told { Adds (told_by self.old) (told_by self.new) (Write link (length from.now) (write_told result from.now)) }
        ensures count { IfSent result (λ n. (0 < n) × (n ≤ length from.now)) }
        ensures opened { (calls : List Call) → told_by self.old ≡ Some calls → is_open link calls ≡ false → WriteFailed result }
        ensures contents { Keeps None None }
        ensures faults { self.old.faults ≤ self.new.faults }
        ensures cause { WriteFailed result → Rises 1 self.old.faults self.new.faults }
        ensures idles { self.old.idles ≤ self.new.idles }
        ensures answer { let answer = answer_write self.old link from.now in write_told result from.now ≡ (if has_room self.old (1 + length (sent_by answer)) then answer else WriteFault) }
        ensures state { self.new ≡ after (with_write self.old link) (Write link (length from.now) (answer_write self.old link from.now)) }
    {
        let took = take(&mut self.links, self.book.is_open(link), link, from);
        if !self.telling || self.book.room() <= took.moved() {
            self.telling = false;
            self.faults = raised(self.faults, 1);
            return Took::Failed;
        }
        self.book.write(link, from, took);
        self.faults = tallied(self.faults, took.is_failed());
        took
    }

    fn pause(&mut self, wants: &[Want])
        ensures told { Adds (told_by self.old) (told_by self.new) (Pause wants.now) }
        ensures contents { Keeps None None }
        ensures faults { self.old.faults ≤ self.new.faults }
        ensures idles { Rises 1 self.old.idles self.new.idles }
        ensures state { self.new ≡ record (after self.old (Pause wants.now)) { idles = raised_by self.old.step self.old.idles } }
    {
        if !self.telling || self.book.room() <= wants.len() {
            self.telling = false;
            self.faults = raised(self.faults, 1);
        } else {
            self.book.pause(wants);
        }
        self.idles = raised(self.idles, self.step);
    }

    fn shut(&mut self, link: u32)
        ensures told { Adds (told_by self.old) (told_by self.new) (Shut link) }
        ensures contents { Keeps None None }
        ensures faults { self.old.faults ≤ self.new.faults }
        ensures idles { self.old.idles ≤ self.new.idles }
        ensures state { self.new ≡ after self.old (Shut link) }
    {
        if !self.telling || self.book.room() == 0 {
            self.telling = false;
            self.faults = raised(self.faults, 1);
        } else {
            self.book.shut(link);
        }
    }

    fn faults(&self) -> u64 {
        self.faults
    }

    fn idles(&self) -> u64 {
        self.idles
    }
}

// Whether the link of this number fails, or there is none.
fn fails_at(links: &Vec<Left>, at: usize) -> bool
    ensures { result ≡ (slice_index_or links.now.items at no_link).fails }
{
    at >= links.len() || links[at].fails()
}

// The count of faults after a call.
fn tallied(faults: u64, failed: bool) -> u64
    ensures { result ≡ (if failed then raised_by 1 faults else faults) }
{
    if failed { raised(faults, 1) } else { faults }
}

// What the link of this number answers a read: a fault if it isn't open.
fn give(links: &mut Vec<Left>, is_open: bool, link: u32, into: &mut [u8]) -> Got
    requires room { 0 < length into.old }
    requires within { is_open ≡ true → link < vec_len links.old }
    ensures told { read_told result into.new ≡ (if is_open then next_read (slice_index_or links.old.items link no_link).reads (length into.old) else ReadFault) }
    ensures left { links.new.items ≡ (if is_open then slice_set links.old.items link (record (slice_index_or links.old.items link no_link) { reads = reads_left (slice_index_or links.old.items link no_link).reads (length into.old) }) else links.old.items) }
    ensures len { vec_len links.new ≡ vec_len links.old }
    ensures count { IfMoved result (λ n. (0 < n) × (n ≤ length into.old)) }
{
    if is_open {
        links[link as usize].read(into)
    } else {
        Got::Failed
    }
}

// What the link of this number answers a write: a fault if it isn't open.
fn take(links: &mut Vec<Left>, is_open: bool, link: u32, from: &[u8]) -> Took
    requires room { 0 < length from.now }
    requires within { is_open ≡ true → link < vec_len links.old }
    ensures told { write_told result from.now ≡ (if is_open then next_write (slice_index_or links.old.items link no_link).writes from.now else WriteFault) }
    ensures left { links.new.items ≡ (if is_open then slice_set links.old.items link (record (slice_index_or links.old.items link no_link) { writes = writes_left (slice_index_or links.old.items link no_link).writes }) else links.old.items) }
    ensures len { vec_len links.new ≡ vec_len links.old }
    ensures count { IfSent result (λ n. (0 < n) × (n ≤ length from.now)) }
{
    if is_open {
        links[link as usize].write(from)
    } else {
        Took::Failed
    }
}
