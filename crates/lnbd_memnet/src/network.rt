//! The exports and the links, and where the schedule stands. Which calls are told is not known here.

ghost use Rattle.std.specs.Prelude.{◌≡◌, ◌^◌, ◌<◌, ◌≤◌, [], ℕ, false, true, map, length, vec_len, IfOk, IfSome, None};
ghost use Rattle.lnbd_link.specs.Answers.{IfMoved, IfSent, ReadFailed, WriteFailed};
ghost use Rattle.lnbd_link.specs.Call.{read_told, write_told};
ghost use Rattle.lnbd_export.specs.Export.{TellsTruly, size};
ghost use Rattle.lnbd_memnet.specs.Network.{link_in, export_in, hosted_of, AreHosted};
ghost use Rattle.lnbd_memnet.specs.Plays.{IsUnknown, Connects, ReadsIf, Reads, WritesIf, Writes, due_at, all_due, shut_at};
ghost use Rattle.lnbd_memnet.specs.Schedule.{Moves};
ghost use Rattle.lnbd_memnet.specs.declared.schedule.Schedule.TheVariants.{Seeded};

use crate::hosted::{Hosted, Served, is_same};
use crate::link::Link;
use crate::schedule::{Schedule, Step};
use lnbd_link::{Got, Took, Want, raised};
use lnbd_model::{NoMemory, Target};
use std::alloc::Global;
use std::marker::Model;

/// How many links there are at most.
const LINKS: usize = 1 << 32;

#[derive(Drop)]
pub(crate) struct Network {
    alloc: Global,
    exports: Vec<Hosted>,
    links: Vec<Link>,
    schedule: Schedule,
    turn: u64,
}

impl Model for Network {
    ghost use Rattle.std.specs.Prelude.{◌≤◌, ◌^◌, length};
    ghost use Rattle.lnbd_memnet.specs.Network.{Network as Kept, AreHosted};
    ghost use Rattle.lnbd_memnet.specs.Schedule.{Moves};

    ghost Value = { Kept };

    ghost view = { λ a. record { exports = a.exports.items; links = a.links.items; schedule = a.schedule; turn = a.turn } };

    ghost invariant = { λ a. AreHosted a.links.items (length a.exports.items) × (length a.links.items ≤ 2 ^ 32) × Moves a.schedule };
}

impl Network {
    /// No link, and the schedule at its first step.
    pub fn new(alloc: Global, exports: Vec<Served>, schedule: Schedule) -> Result<Network, NoMemory>
        requires { Moves schedule }
        ensures state { IfOk result (λ network. network ≡ record { exports = map hosted_of exports.items; links = []; schedule = schedule; turn = 0 }) }
        ensures truly { IfOk result (λ network. (place : ℕ) → TellsTruly (export_in network.exports place).export) }
    {
        Ok(Network {
            alloc,
            exports: all_hosted(alloc, exports)?,
            links: Vec::new(alloc),
            schedule,
            turn: 0,
        })
    }

    /// How many exports there are.
    pub fn exports(&self) -> usize
        ensures { result ≡ length self.now.exports }
    {
        self.exports.len()
    }

    /// Whether this number draws the steps of the schedule.
    pub fn is_seeded(&self, seed: u64) -> bool
        ensures { result ≡ true → self.now.schedule ≡ Seeded seed }
    {
        self.schedule.is_seeded(seed)
    }

    /// The bytes of the export at this place.
    pub fn bytes(&self, place: usize) -> &[u8]
        requires { place < length self.now.exports }
        ensures { result.now ≡ (export_in self.now.exports place).export.bytes }
    {
        self.exports[place].export.bytes()
    }

    /// The size and the texts of the export at this place have room on the wire.
    pub fn fits(&self, place: usize)
        requires { place < length self.now.exports }
        ensures size { size (export_in self.now.exports place).export < 2 ^ 63 }
        ensures name { length (export_in self.now.exports place).export.name ≤ 4096 }
        ensures description { length (export_in self.now.exports place).export.description ≤ 4096 }
    {
        let export = &self.exports[place].export;
        let _size = export.size();
        let _name = export.name().len();
        let _description = export.description().len();
    }

    /// A new link to the export at this address, if there is one.
    pub fn connect(&mut self, to: &Target) -> Result<Option<u32>, NoMemory>
        ensures { IfOk result (λ link. Connects self.old to.now link self.new) }
    {
        match place_of(&self.exports, to) {
            None => Ok(None),
            Some(place) => {
                let number = self.links.len();
                if number >= LINKS {
                    return Err(NoMemory);
                }
                let link = Link::new(self.alloc, place)?;
                self.links.push(link)?;
                Ok(Some(number as u32))
            }
        }
    }

    /// A read of a link.
    pub fn read(&mut self, link: u32, into: &mut [u8]) -> Result<Got, NoMemory>
        requires { 0 < length into.old }
        ensures reads { IfOk result (λ got. Reads self.old link (length into.old) (read_told got into.new) self.new) }
        ensures count { IfOk result (λ got. IfMoved got (λ n. (0 < n) × (n ≤ length into.old))) }
        ensures size { length into.new ≡ length into.old }
        ensures well { IfOk result (λ got. ReadFailed got → (link_in self.old.links link).opened ≡ false) }
        ensures shut { IfOk result (λ got. (link_in self.old.links link).opened ≡ false → ReadFailed got) }
    {
        let step = self.schedule.step(self.turn);
        let got = read_link(&mut self.links, &self.exports, link as usize, step, into)?;
        self.turn = raised(self.turn, 1);
        Ok(got)
    }

    /// A write on a link.
    pub fn write(&mut self, link: u32, from: &[u8]) -> Result<Took, NoMemory>
        requires { 0 < length from.now }
        ensures writes { IfOk result (λ took. Writes self.old link (length from.now) (write_told took from.now) self.new) }
        ensures count { IfOk result (λ took. IfSent took (λ n. (0 < n) × (n ≤ length from.now))) }
        ensures well { IfOk result (λ took. WriteFailed took → (link_in self.old.links link).opened ≡ false) }
        ensures shut { IfOk result (λ took. (link_in self.old.links link).opened ≡ false → WriteFailed took) }
    {
        let step = self.schedule.step(self.turn);
        let took = write_link(
            &mut self.links,
            &mut self.exports,
            link as usize,
            step,
            from,
        )?;
        self.turn = raised(self.turn, 1);
        Ok(took)
    }

    /// The next read and the next write of each wanted link move.
    pub fn pause(&mut self, wants: &[Want])
        ensures { self.new ≡ record self.old { links = all_due wants.now self.old.links } }
    {
        make_due(&mut self.links, wants);
    }

    /// The link is no longer open.
    pub fn shut(&mut self, link: u32)
        ensures { self.new ≡ record self.old { links = shut_at link self.old.links } }
    {
        shut_link(&mut self.links, link as usize);
    }
}

/// These exports, each with the bytes that it has.
fn all_hosted(alloc: Global, exports: Vec<Served>) -> Result<Vec<Hosted>, NoMemory>
    ensures each { IfOk result (λ hosted. hosted.items ≡ map hosted_of exports.items) }
    ensures truly { IfOk result (λ hosted. (place : ℕ) → TellsTruly (export_in hosted.items place).export) }
{
    let mut hosted = Vec::with_capacity(alloc, exports.len())?;
    for served in exports {
        hosted.push(Hosted::new(alloc, served)?)?;
    }
    Ok(hosted)
}

/// The place of the export at this address.
fn place_of(exports: &Vec<Hosted>, to: &Target) -> Option<usize>
    ensures there { IfSome result (λ place. (place < length exports.now.items) × ((export_in exports.now.items place).at ≡ to.now)) }
    ensures none { result ≡ None → IsUnknown to.now exports.now.items }
{
    let mut place = 0;
    while place < exports.len() {
        if is_same(&exports[place].at, to) {
            return Some(place);
        }
        place += 1;
    }
    None
}

/// A read of the link of this number, by this step.
fn read_link(
    links: &mut Vec<Link>,
    exports: &Vec<Hosted>,
    n: usize,
    step: Step,
    into: &mut [u8],
) -> Result<Got, NoMemory>
    requires room { 0 < length into.old }
    requires most { 1 ≤ step.most }
    requires hosted { AreHosted links.old.items (length exports.now.items) }
    ensures reads { IfOk result (λ got. ReadsIf (link_in links.old.items n).opened step exports.now.items links.old.items n (length into.old) (read_told got into.new) links.new.items) }
    ensures count { IfOk result (λ got. IfMoved got (λ m. (0 < m) × (m ≤ length into.old))) }
    ensures size { length into.new ≡ length into.old }
    ensures well { IfOk result (λ got. ReadFailed got → (link_in links.old.items n).opened ≡ false) }
    ensures shut { IfOk result (λ got. (link_in links.old.items n).opened ≡ false → ReadFailed got) }
    ensures hosted { AreHosted links.new.items (length exports.now.items) }
    ensures few { vec_len links.new ≡ vec_len links.old }
{
    if n >= links.len() || !links[n].opened {
        return Ok(Got::Failed);
    }
    let place = links[n].place;
    links[n].read(step, into, &exports[place].export)
}

/// A write on the link of this number, by this step.
fn write_link(
    links: &mut Vec<Link>,
    exports: &mut Vec<Hosted>,
    n: usize,
    step: Step,
    from: &[u8],
) -> Result<Took, NoMemory>
    requires room { 0 < length from.now }
    requires most { 1 ≤ step.most }
    requires hosted { AreHosted links.old.items (length exports.old.items) }
    ensures writes { IfOk result (λ took. WritesIf (link_in links.old.items n).opened step exports.old.items links.old.items n (length from.now) (write_told took from.now) exports.new.items links.new.items) }
    ensures count { IfOk result (λ took. IfSent took (λ m. (0 < m) × (m ≤ length from.now))) }
    ensures well { IfOk result (λ took. WriteFailed took → (link_in links.old.items n).opened ≡ false) }
    ensures shut { IfOk result (λ took. (link_in links.old.items n).opened ≡ false → WriteFailed took) }
    ensures hosted { AreHosted links.new.items (length exports.new.items) }
    ensures few { vec_len links.new ≡ vec_len links.old }
{
    if n >= links.len() || !links[n].opened {
        return Ok(Took::Failed);
    }
    let place = links[n].place;
    links[n].write(step, from, &mut exports[place])
}

/// Each of these is due.
fn make_due(links: &mut Vec<Link>, wants: &[Want])
    ensures { links.new.items ≡ all_due wants.now links.old.items }
{
    for want in wants {
        due(links, want.link as usize);
    }
}

fn due(links: &mut Vec<Link>, n: usize)
    ensures { links.new.items ≡ due_at n links.old.items }
{
    if n < links.len() {
        links[n].make_due();
    }
}

fn shut_link(links: &mut Vec<Link>, n: usize)
    ensures { links.new.items ≡ shut_at n links.old.items }
{
    if n < links.len() {
        links[n].opened = false;
    }
}
