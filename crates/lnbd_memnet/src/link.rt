//! One link to a session: what a read and a write of it do by a step of the schedule. Which step it
//! is, and which calls were made before, is not known here.

ghost use Rattle.std.specs.Prelude.{◌≡◌, ◌<◌, ◌≤◌, ◌||◌, ℕ, List, length, take, IfOk, OnOk, true};
ghost use Rattle.lnbd_link.specs.Answers.{IfMoved, IfSent, ReadFailed, WriteFailed};
ghost use Rattle.lnbd_link.specs.Call.{read_told, write_told};
ghost use Rattle.lnbd_records.specs.Numbers.{IsBytes};
ghost use Rattle.lnbd_memnet.specs.Network.{new_link};
ghost use Rattle.lnbd_memnet.specs.Plays.{has_to_answer, Readies, share, told, given, GivesIf, DeliversIf};

use crate::hosted::Hosted;
use crate::schedule::Step;
use lnbd_export::Export;
use lnbd_link::{Got, Took};
use lnbd_model::NoMemory;
use lnbd_server::{Session, TakeFault};
use std::alloc::Global;

/// A link to a session of a server.
#[derive(Debug, Drop)]
pub(crate) struct Link {
    /// The place of its export in the list of them.
    pub place: usize,
    pub session: Session,
    /// It was not shut.
    pub opened: bool,
    /// A pause wanted the link, and it was not read since.
    pub read_due: bool,
    /// A pause wanted the link, and it was not written since.
    pub write_due: bool,
}

impl Link {
    pub fn new(alloc: Global, place: usize) -> Result<Link, NoMemory>
        ensures { IfOk result (λ link. link ≡ new_link place) }
    {
        Ok(Link {
            place,
            session: Session::new(alloc, true, true)?,
            opened: true,
            read_due: false,
            write_due: false,
        })
    }

    /// The next read and the next write move.
    pub fn make_due(&mut self)
        ensures { self.new ≡ record self.old { read_due = true; write_due = true } }
    {
        self.read_due = true;
        self.write_due = true;
    }

    /// A read: the pending reply that the step picks is made where no byte waits, and bytes that wait
    /// are moved.
    pub fn read(&mut self, step: Step, into: &mut [u8], export: &Export) -> Result<Got, NoMemory>
        requires room { 0 < length into.old }
        requires most { 1 ≤ step.most }
        ensures gives { IfOk result (λ got. GivesIf (step.ready || self.old.read_due) step (length into.old) export.now self.old (read_told got into.new) self.new) }
        ensures count { IfOk result (λ got. IfMoved got (λ n. (0 < n) × (n ≤ length into.old))) }
        ensures well { IfOk result (λ got. ReadFailed got → ⊥) }
        ensures size { length into.new ≡ length into.old }
        ensures place { self.new.place ≡ self.old.place }
    {
        if !step.ready && !self.read_due {
            return Ok(Got::NotReady);
        }
        ready(&mut self.session, step.pick, export)?;
        self.read_due = false;
        Ok(hand_out(&mut self.session, step, into))
    }

    /// A write: the session takes a front of the bytes.
    pub fn write(&mut self, step: Step, from: &[u8], hosted: &mut Hosted) -> Result<Took, NoMemory>
        requires room { 0 < length from.now }
        requires most { 1 ≤ step.most }
        ensures delivers { IfOk result (λ took. DeliversIf (step.ready || self.old.write_due) step (length from.now) hosted.old self.old (write_told took from.now) self.new hosted.new) }
        ensures count { IfOk result (λ took. IfSent took (λ n. (0 < n) × (n ≤ length from.now))) }
        ensures well { IfOk result (λ took. WriteFailed took → ⊥) }
        ensures place { self.new.place ≡ self.old.place }
    {
        if !step.ready && !self.write_due {
            return Ok(Took::NotReady);
        }
        self.write_due = false;
        let n = step.most.min(from.len());
        let (part, _) = from.split_at(n);
        are_bytes(part);
        match self.session.take(part, &mut hosted.export) {
            Ok(()) | Err(TakeFault::Closed) => Ok(Took::Bytes(n)),
            Err(TakeFault::NoMemory { .. }) => Err(NoMemory),
        }
    }
}

/// Each of these is below 256: what the type says of one is said of all. The loop does nothing, and is not
/// in what LLVM makes of it.
fn are_bytes(bytes: &[u8])
    ensures { IsBytes bytes.now }
{
    for byte in bytes {
        let _ = *byte;
    }
}

/// Makes the pending reply that is picked, where replies are pending and no byte waits.
fn ready(session: &mut Session, pick: usize, export: &Export) -> Result<(), NoMemory>
    ensures { OnOk result (Readies (has_to_answer session.old) session.old pick export.now session.new) }
{
    let pending = session.pending();
    if session.out().is_empty() && pending > 0 {
        session.answer(pick % pending, export)
    } else {
        Ok(())
    }
}

/// Moves bytes that wait.
fn hand_out(session: &mut Session, step: Step, into: &mut [u8]) -> Got
    requires room { 0 < length into.old }
    requires most { 1 ≤ step.most }
    ensures told { read_told result into.new ≡ told (share step (length into.old) session.old) session.old }
    ensures left { session.new ≡ given (share step (length into.old) session.old) session.old }
    ensures count { IfMoved result (λ n. (0 < n) × (n ≤ length into.old)) }
    ensures size { length into.new ≡ length into.old }
    ensures well { ReadFailed result → ⊥ }
{
    let n = step.most.min(into.len()).min(session.out().len());
    if n == 0 {
        return none_waits(session);
    }
    fill(into, session.out(), n);
    session.gave(n);
    Got::Bytes(n)
}

/// What a read is answered where no byte waits.
fn none_waits(session: &Session) -> Got
    ensures told { (into : List ℕ) → read_told result into ≡ told 0 session.now }
    ensures count { (room : ℕ) → IfMoved result (λ n. (0 < n) × (n ≤ room)) }
    ensures well { ReadFailed result → ⊥ }
{
    if session.is_closed() && !session.broken() {
        Got::End
    } else {
        Got::NotReady
    }
}

/// Copies a front of these bytes to the front of the slice.
fn fill(into: &mut [u8], bytes: &[u8], n: usize)
    requires there { n ≤ length bytes.now }
    requires room { n ≤ length into.old }
    ensures front { take n into.new ≡ take n bytes.now }
    ensures size { length into.new ≡ length into.old }
{
    into[..n].copy_from_slice(&bytes[..n]);
}
