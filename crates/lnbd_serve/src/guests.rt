//! All clients of a server: who is let in, whose turn it is, who leaves, and what a pause waits for.

ghost use Rattle.std.specs.Prelude.{◌≡◌, ◌≤◌, ◌<◌, ◌+◌, ◌-◌, ◌&&◌, ℕ, nat_lt, All, true, false, length, slice_index_or, IfOk, IfErr, OnOk, OnErr};
ghost use Rattle.lnbd_export.specs.Export.{Export as Kept};
ghost use Rattle.lnbd_link.specs.Call.{Shut};
ghost use Rattle.lnbd_link.specs.Part.{Adds};
ghost use Rattle.lnbd_serve.specs.Halls.{Rests, Stops, leaving, max_guests, wants_of, welcoming};
ghost use Rattle.lnbd_serve.specs.Rounds.{AttendedAt, BrokeAt, DoorOpened, HasRound, StopsAfter, TurnedAs, TurnsAll, hall_of};
ghost use Rattle.lnbd_serve.specs.Served.{opened};
ghost use Rattle.lnbd_serve.specs.Steps.{Counts, Went, blames};

use crate::guest::{Doing, Guest, Halt};
use lnbd_export::Export;
use lnbd_link::{Accepted, Want, Wires};
use lnbd_model::NoMemory;
use lnbd_server::Session;
use std::alloc::Global;

/// The most clients at once.
const MAX_GUESTS: usize = 64;

/// To read and to write: libnbd's `aio_get_direction`.
pub const BOTH: u32 = 3;

/// Where clients come in: a listener, and how many are let in.
#[derive(Clone, Copy, Debug)]
pub struct Door {
    pub listener: u32,
    pub limit: u32,
}

/// The clients whose links are open, how many were let in, and whether the bytes of one were no client's.
#[derive(Debug, Drop)]
pub struct Guests {
    pub all: Vec<Guest>,
    pub accepted: u32,
    pub broken: bool,
}

impl Door {
    /// What a pause waits for at the door.
    pub fn want(self) -> Want
        ensures { result ≡ record { link = self.listener; direction = 3 } }
    {
        Want {
            link: self.listener,
            direction: BOTH,
        }
    }
}

impl Guests {
    /// Nobody was let in yet. It takes no memory.
    pub fn new(alloc: Global) -> Guests
        ensures { (export : Kept) → hall_of result export ≡ opened export }
    {
        Guests {
            all: Vec::new(alloc),
            accepted: 0,
            broken: false,
        }
    }

    /// Whether clients are here, or more are let in.
    pub fn is_serving(&self, limit: u32) -> bool
        ensures yes { result ≡ true → 0 < length self.now.all.items + (limit - self.now.accepted) }
        ensures no { result ≡ false → (length self.now.all.items ≡ 0) × (limit ≤ self.now.accepted) }
    {
        self.accepted < limit || !self.all.is_empty()
    }

    pub fn is_accepting(&self, limit: u32) -> bool
        ensures { result ≡ (nat_lt (length self.now.all.items) max_guests && nat_lt self.now.accepted limit) }
    {
        self.all.len() < MAX_GUESTS && self.accepted < limit
    }

    /// Makes a place for a client. On `NoMemory` nothing changes.
    fn let_in(&mut self, alloc: Global, link: u32) -> Result<(), NoMemory>
        requires { self.old.accepted < 4294967295 }
        ensures ok { OnOk result ((export : Kept) → hall_of self.new export ≡ welcoming link (hall_of self.old export)) }
        ensures err { OnErr result ((export : Kept) → hall_of self.new export ≡ hall_of self.old export) }
    {
        self.all.reserve(1)?;
        let session = Session::new(alloc, true, true)?;
        self.all.push_reserved(Guest {
            link,
            session,
            full: false,
            gone: false,
        });
        self.accepted += 1;
        Ok(())
    }

    /// Lets a client in, if one asks and more are let in. Whether one came.
    fn welcome<W: Wires>(&mut self, alloc: Global, door: Door, wires: &mut W) -> Result<bool, Halt>
        requires { All Rests self.old.all.items }
        ensures ok { IfOk result (λ came. (export : Kept) → Went (W.told wires.old) (W.told wires.new) (λ calls. DoorOpened door.listener door.limit came (hall_of self.old export) calls (hall_of self.new export))) }
        ensures err { IfErr result (λ why. (export : Kept) → Went (W.told wires.old) (W.told wires.new) (λ calls. Stops door.listener door.limit (hall_of self.old export) calls (hall_of self.new export) why)) }
        ensures counts { Counts (blames result) (W.faults wires.old) (W.faults wires.new) (W.idles wires.old) (W.idles wires.new) }
    {
        if !self.is_accepting(door.limit) {
            return Ok(false);
        }
        match wires.accept(door.listener) {
            Accepted::Link(link) => match self.let_in(alloc, link) {
                Ok(()) => Ok(true),
                Err(_) => {
                    wires.shut(link);
                    Err(Halt::NoMemory)
                }
            },
            Accepted::NotReady => Ok(false),
            Accepted::Failed => Err(Halt::Link),
        }
    }

    /// Shuts the link of a client that is done.
    fn leave<W: Wires>(&mut self, at: usize, wires: &mut W)
        requires { at < length self.old.all.items }
        ensures left { (guest : Guest) × (slice_index_or self.old.all.items at guest ≡ guest) × Adds (W.told wires.old) (W.told wires.new) (Shut guest.link) × ((export : Kept) → hall_of self.new export ≡ leaving at guest (hall_of self.old export)) }
        ensures counts { Counts false (W.faults wires.old) (W.faults wires.new) (W.idles wires.old) (W.idles wires.new) }
    {
        let guest = self.all.remove(at);
        self.broken = self.broken || guest.session.broken();
        wires.shut(guest.link);
    }

    /// The turn of the client at this place.
    fn attend<W: Wires>(
        &mut self,
        at: usize,
        wires: &mut W,
        export: &mut Export,
        buffer: &mut [u8],
    ) -> Result<Doing, Halt>
        requires inside { at < length self.old.all.items }
        requires rests { All Rests self.old.all.items }
        requires room { 0 < length buffer.old }
        ensures ok { IfOk result (λ did. AttendedAt (W.told wires.old) (W.told wires.new) at did (hall_of self.old export.old) (hall_of self.new export.new)) }
        ensures err { IfErr result (λ why. BrokeAt (W.told wires.old) (W.told wires.new) at why (hall_of self.old export.old) (hall_of self.new export.new)) }
        ensures counts { Counts (blames result) (W.faults wires.old) (W.faults wires.new) (W.idles wires.old) (W.idles wires.new) }
    {
        let guest = &mut self.all[at];
        match guest.attend(wires, export, buffer) {
            Ok(did) => Ok(did),
            Err(why) => Err(why),
        }
    }

    /// The turn of the client at this place, which leaves where it is then done: `None`.
    fn turn<W: Wires>(
        &mut self,
        at: usize,
        wires: &mut W,
        export: &mut Export,
        buffer: &mut [u8],
    ) -> Result<Option<Doing>, Halt>
        requires inside { at < length self.old.all.items }
        requires rests { All Rests self.old.all.items }
        requires room { 0 < length buffer.old }
        ensures ok { IfOk result (λ did. (listener limit : ℕ) → Went (W.told wires.old) (W.told wires.new) (λ calls. TurnedAs listener limit at did (hall_of self.old export.old) calls (hall_of self.new export.new))) }
        ensures err { IfErr result (λ why. (listener limit : ℕ) → Went (W.told wires.old) (W.told wires.new) (λ calls. Stops listener limit (hall_of self.old export.old) calls (hall_of self.new export.new) why)) }
        ensures counts { Counts (blames result) (W.faults wires.old) (W.faults wires.new) (W.idles wires.old) (W.idles wires.new) }
    {
        match self.attend(at, wires, export, buffer) {
            Ok(did) => {
                if !self.all[at].is_done() {
                    return Ok(Some(did));
                }
                self.leave(at, wires);
                Ok(None)
            }
            Err(why) => Err(why),
        }
    }

    /// Each client's turn, one after another.
    fn turn_all<W: Wires>(
        &mut self,
        wires: &mut W,
        export: &mut Export,
        buffer: &mut [u8],
    ) -> Result<Doing, Halt>
        requires rests { All Rests self.old.all.items }
        requires room { 0 < length buffer.old }
        ensures ok { IfOk result (λ did. (listener limit : ℕ) → Went (W.told wires.old) (W.told wires.new) (λ calls. TurnsAll listener limit (length self.new.all.items) did (hall_of self.old export.old) calls (hall_of self.new export.new))) }
        ensures err { IfErr result (λ why. (listener limit : ℕ) → Went (W.told wires.old) (W.told wires.new) (λ calls. StopsAfter listener limit (hall_of self.old export.old) calls (hall_of self.new export.new) why)) }
        ensures counts { Counts (blames result) (W.faults wires.old) (W.faults wires.new) (W.idles wires.old) (W.idles wires.new) }
    {
        let mut did = Doing::Still;
        let mut at = 0;
        'turns: while at < self.all.len() {
            match self.turn(at, wires, export, buffer) {
                Ok(Some(part)) => {
                    did = did.and(part);
                    at += 1;
                }
                Ok(None) => did = Doing::News,
                Err(why) => return Err(why),
            }
        }
        Ok(did)
    }

    /// A round: the door, and each client's turn.
    pub fn round<W: Wires>(
        &mut self,
        alloc: Global,
        door: Door,
        wires: &mut W,
        export: &mut Export,
        buffer: &mut [u8],
    ) -> Result<Doing, Halt>
        requires rests { All Rests self.old.all.items }
        requires room { 0 < length buffer.old }
        ensures ok { IfOk result (λ did. Went (W.told wires.old) (W.told wires.new) (λ calls. HasRound door.listener door.limit did (hall_of self.old export.old) calls (hall_of self.new export.new))) }
        ensures err { IfErr result (λ why. Went (W.told wires.old) (W.told wires.new) (λ calls. StopsAfter door.listener door.limit (hall_of self.old export.old) calls (hall_of self.new export.new) why)) }
        ensures counts { Counts (blames result) (W.faults wires.old) (W.faults wires.new) (W.idles wires.old) (W.idles wires.new) }
    {
        let came = match self.welcome(alloc, door, wires) {
            Ok(came) => came,
            Err(why) => return Err(why),
        };
        match self.turn_all(wires, export, buffer) {
            Ok(did) => Ok(did.or_news(came)),
            Err(why) => Err(why),
        }
    }
}
