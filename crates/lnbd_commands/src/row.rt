//! The row of one command: what was asked, its callbacks while it is in flight, its buffer, its first error, and what
//! was kept of it. How rows change is not said here.

ghost use Rattle.std.specs.Prelude.{◌≡◌, ◌<◌, ◌^◌, ℕ, List, [], true, false, Some, None, is_some, length, map, vec_len, IfOk, IfErr, OnErr};
ghost use Rattle.std.specs.Option.{option_map};
ghost use Rattle.lnbd_model.specs.Kind.{is_read};
ghost use Rattle.lnbd_outcome.specs.Outcome.{buffer, error_number, failing, or_else};
ghost use Rattle.lnbd_callbacks.specs.Calls.{is_keep};
ghost use Rattle.lnbd_callbacks.specs.declared.caller.Verdict.{Verdict};
ghost use Rattle.lnbd_history.specs.Entries.{call_of, completion_acts, heard_error};
ghost use Rattle.lnbd_commands.specs.Completes.{answered};
ghost use Rattle.lnbd_commands.specs.Contents.{FitsIn, IsSpare, brought_in, bytes_in};
ghost use Rattle.lnbd_commands.specs.Flights.{IsLiveFlight, completing, flight_count, has_first};
ghost use Rattle.lnbd_commands.specs.Lands.{EndsAs, Hears, IsLiveRow, IsWhole, lacking, lost, reply_bad, reply_failure, reply_hearing};
ghost use Rattle.lnbd_commands.specs.Seen.{told_to};
ghost use Rattle.lnbd_structured.specs.Waiting.{seen_waiting};

use crate::content::{Content, spare_of};
use crate::flight::{Flight, Hearing, complete};
use lnbd_callbacks::{Caller, Desk, Heard, Verdict};
use lnbd_history::Completed;
use lnbd_model::{Bytes, Contexts, ENOTCONN, EPROTO, Failure, Kind, NoMemory, Origin, told_error};
use lnbd_simple::{Settled, settle};
use lnbd_structured::{Assembly, Waiting};
use std::alloc::Global;
use std::marker::Model;
use std::mem::replace;

/// The status of data in a chunk callback (libnbd, LIBNBD_READ_DATA).
pub(crate) const READ_DATA: u32 = 1;

/// What a caller asks for. A read's buffer is to be filled, a write's is to be sent; both have the
/// asked length. Other commands have an empty one.
#[derive(Drop)]
pub struct Asked<K> {
    pub kind: Kind,
    /// Command flags (NBD protocol, "Command flags").
    pub flags: u32,
    /// In bytes.
    pub offset: u64,
    /// In bytes.
    pub length: u64,
    pub buf: Vec<u8>,
    /// The chunk or extents callback.
    pub first: Option<K>,
    /// The completion callback.
    pub done: K,
}

/// What the completion callback kept: an error, 0 for none, and the bytes.
#[derive(Debug, Drop)]
pub(crate) struct Kept {
    pub(crate) error: u32,
    pub(crate) bytes: Bytes,
}

impl Model for Kept {
    ghost use Rattle.lnbd_history.specs.Entries.{Kept as Seen};

    ghost Value = { Seen };

    ghost view = { λ kept. record { error = kept.error; bytes = kept.bytes } };
}

/// What a command in flight came to: its callbacks, what its chunk callback answered last, its error, if any, and
/// its bytes.
pub(crate) struct Landed<K> {
    pub(crate) flight: Flight<K>,
    pub(crate) heard: Option<Heard>,
    pub(crate) failure: Option<Failure>,
    pub(crate) bytes: Bytes,
}

impl<K> Model for Landed<K> {
    ghost use Rattle.lnbd_commands.specs.Lands.{Landing};

    ghost Value = { Landing K };

    ghost view = { λ landed. record { flight = landed.flight; heard = landed.heard; failure = landed.failure; bytes = landed.bytes } };
}

impl<K> Landed<K> {
    /// How many callbacks the command has.
    pub(crate) fn count(&self) -> u64
        ensures { result ≡ flight_count self.now.flight }
    {
        self.flight.count()
    }
}

/// The row of a command that is not retired.
pub(crate) struct Row<K> {
    pub(crate) kind: Kind,
    flags: u32,
    pub(crate) offset: u64,
    length: u64,
    pub(crate) flight: Option<Flight<K>>,
    // of a command in flight
    pub(crate) buf: Vec<u8>,
    pub(crate) assembly: Assembly,
    // the first error of one that landed
    failure: Option<Failure>,
    pub(crate) kept: Option<Kept>,
}

impl<K> Model for Row<K> {
    ghost use Rattle.lnbd_machine.specs.Machine.{Row as Seen};
    ghost use Rattle.std.specs.Prelude.{[]};
    ghost use Rattle.lnbd_commands.specs.Rows.{seen_bytes, seen_facts, IsHeld};

    ghost Value = { Seen K };

    ghost view = { λ row. record { kind = row.kind; flags = row.flags; offset = row.offset; length = row.length; flight = row.flight; bytes = seen_bytes row.kept row.kind row.assembly.facts.told row.offset row.length row.buf.items; facts = seen_facts row.kept row.assembly row.failure; kept = row.kept } };

    ghost invariant = { λ row. IsHeld row.kept (record { kind = row.kind; flags = row.flags; offset = row.offset; length = row.length; payload = [] }) row.buf.items row.assembly };
}

impl<K> Row<K> {
    ghost use Rattle.lnbd_machine.specs.Machine.{waiting_row};
    ghost use Rattle.lnbd_commands.specs.Commands.{payload_of};
    ghost use Rattle.lnbd_commands.specs.Faulty.{HasAsked, is_faulty};
    ghost use Rattle.lnbd_commands.specs.Lands.{known_of};
    ghost use Rattle.lnbd_commands.specs.Rows.{unflown, flown, landed, keeping, unanswered};

    /// The row of a command whose callbacks are not admitted yet.
    #[tactic(auto, using(crate::proofs::MaskLemmas::open_first))]
    pub(crate) fn new(
        alloc: Global,
        kind: Kind,
        flags: u32,
        offset: u64,
        length: u64,
        buf: Vec<u8>,
    ) -> Row<K>
        requires filled { is_read kind ≡ true → vec_len buf ≡ length }
        requires small { is_read kind ≡ true → length < 2 ^ 63 }
        ensures { result ≡ unflown kind flags offset length buf.items }
    {
        Row {
            kind,
            flags,
            offset,
            length,
            flight: None,
            buf,
            assembly: Assembly::new(alloc, kind, offset, length, flags, false),
            failure: None,
            kept: None,
        }
    }

    /// Puts the callbacks into a row that has none.
    pub(crate) fn fly(&mut self, flight: Flight<K>)
        requires { self.old.flight ≡ None }
        ensures { self.new ≡ flown flight self.old }
    {
        none_left(self.flight.replace(flight));
    }

    /// What is known of the command, while it is in flight.
    pub(crate) fn waiting(&self) -> Option<Waiting>
        ensures { option_map seen_waiting result ≡ waiting_row self.now.flight self.now }
    {
        match &self.flight {
            None => None,
            Some(_) => Some(Waiting {
                kind: self.kind,
                offset: self.offset,
                length: self.length,
                faults: self.faults(),
            }),
        }
    }

    /// The bytes that a write sends, until something is kept of it.
    pub(crate) fn payload(&self) -> &[u8]
        ensures { result.now ≡ payload_of self.now }
    {
        match &self.kept {
            None => match self.kind {
                Kind::Write => &self.buf,
                _ => &[],
            },
            Some(_) => &[],
        }
    }

    /// How many chunks were errors or had a content fault, while the command is in flight.
    fn faults(&self) -> u32
        ensures { result ≡ self.now.facts.faults }
    {
        match &self.kept {
            None => self.assembly.faults(),
            Some(_) => 0,
        }
    }

    /// Whether a chunk of so many bytes of data from this place of the export on would have a content fault now.
    pub(crate) fn is_faulty(&self, offset: u64, size: u64) -> bool
        requires held { self.now.kept ≡ None }
        requires asked { HasAsked (Some (known_of self.now)) offset size }
        ensures { result ≡ is_faulty self.now offset size }
    {
        self.assembly.clashes(offset, size)
    }

    /// Keeps this error and these bytes of a command that landed.
    fn keep(&mut self, error: u32, bytes: Bytes)
        requires { is_some self.old.kept ≡ true }
        ensures { self.new ≡ keeping (record { error = error; bytes = bytes }) self.old }
    {
        self.kept = Some(Kept { error, bytes });
    }

    /// Takes the callbacks and the buffer of a command that ends with this error, if any. The bytes of a
    /// read that is done are this content or what its buffer holds, those of one that failed are zeroes, and a write has its own. A
    /// buffer that is not needed any more comes back beside.
    fn land(
        &mut self,
        alloc: Global,
        heard: Option<Heard>,
        failure: Option<Failure>,
        content: Option<Content<'_>>,
    ) -> (Landed<K>, Vec<u8>)
        requires flies { is_some self.old.flight ≡ true }
        requires held { self.old.kept ≡ None }
        requires whole { is_read self.old.kind ≡ true → error_number failure ≡ 0 → IsWhole content self.old }
        ensures flight { self.old.flight ≡ Some result.0.flight }
        ensures heard { result.0.heard ≡ heard }
        ensures failure { result.0.failure ≡ failure }
        ensures bytes { result.0.bytes ≡ buffer self.old.kind self.old.length self.old.bytes (error_number failure) (brought_in content.entry self.old.bytes) }
        ensures spare { IsSpare content.entry (length result.1.items) }
        ensures row { self.new ≡ landed failure (unanswered failure) self.old }
    {
        let Some(flight) = self.flight.take() else {
            unreachable!()
        };
        let error = error_number(failure);
        let own = replace(&mut self.buf, Vec::new(alloc));
        let (bytes, spare) = last_buffer(alloc, self.kind, error, own, content);
        self.failure = failure;
        self.kept = Some(Kept {
            error,
            bytes: Bytes::from_vec(Vec::new(alloc)),
        });
        let landed = Landed {
            flight,
            heard,
            failure,
            bytes: Bytes::from_vec(bytes),
        };
        (landed, spare)
    }

    /// Lands the command because the connection died. It takes no memory.
    pub(crate) fn land_lost(&mut self, alloc: Global) -> Landed<K>
        requires flies { is_some self.old.flight ≡ true }
        requires held { self.old.kept ≡ None }
        ensures landed { result ≡ lost self.old result.flight }
        ensures flight { self.old.flight ≡ Some result.flight }
        ensures row { self.new ≡ landed result.failure (unanswered result.failure) self.old }
    {
        let failure = first_of(self.assembly.failure(), failing(Origin::Lost, ENOTCONN));
        self.land(alloc, None, failure, None).0
    }

    /// Lands the command after its last chunk, to which its callback answered this: what was not told is its error, if it
    /// has none before. It takes no memory.
    pub(crate) fn land_last(
        &mut self,
        alloc: Global,
        heard: Option<Heard>,
        contexts: &Contexts,
    ) -> Landed<K>
        requires flies { is_some self.old.flight ≡ true }
        requires held { self.old.kept ≡ None }
        ensures ends { EndsAs contexts.now self.old heard result }
        ensures row { self.new ≡ landed result.failure (unanswered result.failure) self.old }
    {
        let lack = self.lack(contexts);
        let failure = first_of(self.assembly.failure(), lack);
        self.land(alloc, heard, failure, None).0
    }

    /// The error of a command whose last frame came, where not all was told.
    fn lack(&self, contexts: &Contexts) -> Option<Failure>
        requires { self.now.kept ≡ None }
        ensures { result ≡ lacking contexts.now self.now }
    {
        if self.assembly.is_told(contexts) {
            None
        } else {
            failing(Origin::Content, EPROTO)
        }
    }

    /// Lets a row go that is not in flight.
    pub(crate) fn let_go(self)
        requires { self.flight ≡ None }
    {
        none_left(self.into_flight());
    }
}

impl<K> Row<K> {
    ghost use Rattle.lnbd_machine.specs.Now.{completed_with, failure_with};

    /// Whether something is kept of the command.
    pub(crate) fn is_kept(&self) -> bool
        ensures { result ≡ is_some self.now.kept }
    {
        self.kept.is_some()
    }

    /// The first error of the command, where something is kept of it.
    pub(crate) fn failure(&self) -> Option<Failure>
        ensures { result ≡ failure_with self.now.kept self.now.facts.failure }
    {
        match &self.kept {
            None => None,
            Some(_) => self.failure,
        }
    }

    /// What the command came to. Its row ends, which is not in flight.
    pub(crate) fn into_completed(self) -> Completed
        requires { self.flight ≡ None }
        ensures { result ≡ completed_with self.kept }
    {
        let Row {
            kind: _,
            flags: _,
            offset: _,
            length: _,
            flight,
            buf: _,
            assembly: _,
            failure: _,
            kept,
        } = self;
        none_left(flight);
        match kept {
            None => Completed::NotYet,
            Some(Kept { error, bytes }) => {
                if error == 0 {
                    Completed::Done(bytes)
                } else {
                    Completed::Failed { error, buf: bytes }
                }
            }
        }
    }

    /// The callbacks of the command, where it is in flight. Its row ends.
    pub(crate) fn into_flight(self) -> Option<Flight<K>>
        ensures { result ≡ self.flight }
    {
        let Row {
            kind: _,
            flags: _,
            offset: _,
            length: _,
            flight,
            buf: _,
            assembly: _,
            failure: _,
            kept: _,
        } = self;
        flight
    }
}

/// The buffer of a command that ends with this error, 0 for none, made of its own one, and one that is not needed any
/// more.
fn last_buffer(
    alloc: Global,
    kind: Kind,
    error: u32,
    own: Vec<u8>,
    content: Option<Content<'_>>,
) -> (Vec<u8>, Vec<u8>)
    requires { is_read kind ≡ true → error ≡ 0 → FitsIn content (vec_len own) }
    ensures bytes { result.0.items ≡ buffer kind (length own.items) own.items error (brought_in content.entry own.items) }
    ensures spare { IsSpare content.entry (length result.1.items) }
{
    let mut bytes = own;
    match kind {
        Kind::Read => {
            if error == 0 {
                return match content {
                    None => (bytes, Vec::new(alloc)),
                    Some(content) => content.into_buffer(alloc, bytes),
                };
            }
            bytes.fill(0);
        }
        Kind::Write => {}
        _ => bytes.clear(),
    }
    (bytes, spare_of(alloc, content))
}

/// Ends a flight that is not there.
fn none_left<K>(flight: Option<Flight<K>>)
    requires { flight ≡ None }
{
    match flight {
        None => {}
        Some(_flight) => unreachable!(),
    }
}

impl<K: Caller> Row<K> {
    ghost use Rattle.lnbd_chunks.specs.Reply.{content_size};
    ghost use Rattle.lnbd_machine.specs.Machine.{heard_in};
    ghost use Rattle.lnbd_commands.specs.Rows.{landed, unanswered};
    ghost use Rattle.lnbd_commands.specs.Lands.{IsLiveRow, Lands, known_of, reply_item};

    /// Tells the chunk callback of a simple reply with this error, as the wire tells it, and these bytes, which lands the command. For want of
    /// memory they are handed back, and nothing has changed. A buffer that is not needed any more comes back beside what the command came to.
    pub(crate) fn land_reply<'a>(
        &mut self,
        alloc: Global,
        desk: &mut Desk,
        world: &mut K::World,
        error: u32,
        content: Content<'a>,
    ) -> Result<(Landed<K>, Vec<u8>), Content<'a>>
        requires flies { is_some self.old.flight ≡ true }
        requires held { self.old.kept ≡ None }
        requires live { IsLiveRow self.old.flight desk.old.log }
        requires sized { length (bytes_in content) ≡ content_size (known_of self.old) error }
        ensures lands { IfOk result (λ end. Lands K.steps self.old (reply_item self.old error (bytes_in content.entry)) end.0 desk.old.log desk.new.log world.old world.new) }
        ensures row { IfOk result (λ end. self.new ≡ landed end.0.failure (unanswered end.0.failure) self.old) }
        ensures spare { IfOk result (λ end. IsSpare (Some content.entry) (length end.1.items)) }

        // Memory is wanted for the note of a chunk callback alone: that of a read.
        ensures needed { OnErr result (has_first self.old.flight ≡ true) }
        ensures read { OnErr result (is_read self.old.kind ≡ true) }
        ensures handed_back { IfErr result (λ back. back ≡ content.entry) }
        ensures err_row { OnErr result (self.new ≡ self.old) }
        ensures err_desk { OnErr result (desk.new ≡ desk.old) }
        ensures err_world { OnErr result (world.new ≡ world.old) }
    {
        let bad = self.is_bad(error);
        let before = self.assembly.failure();
        let told = reply_hearing(
            self.kind,
            bad,
            error,
            self.offset,
            content.as_slice(),
            error_number(before),
        );
        let heard = match hear(&self.flight, desk, world, told) {
            Ok(heard) => heard,
            Err(_) => return Err(content),
        };
        let first = first_of(before, told_by(bad, error));
        let failure = first_of(first, failing(Origin::Callback, number_of(heard)));
        Ok(self.land(alloc, heard, failure, Some(content)))
    }

    /// Completes the command, which landed as this: its completion callback is called, its callbacks are freed, and what that one keeps is
    /// kept. Answers whether it keeps something; else the row may go.
    pub(crate) fn complete(
        &mut self,
        desk: &mut Desk,
        world: &mut K::World,
        landed: Landed<K>,
    ) -> bool
        requires landed { is_some self.old.kept ≡ true }
        requires live { IsLiveFlight landed.flight desk.old.log }
        ensures { (verdict : Verdict) × (result ≡ is_keep verdict) × (self.new ≡ answered verdict self.old)
            × (desk.new.log ≡ completing landed.flight (error_number landed.failure) verdict desk.old.log)
            × K.steps world.old (map call_of (completion_acts landed.flight (error_number landed.failure) landed.bytes verdict)) world.new }
    {
        let Landed {
            flight,
            heard: _,
            failure,
            bytes,
        } = landed;
        match complete(flight, desk, world, error_number(failure), bytes) {
            Verdict::Keep { error, buf } => {
                self.keep(error, buf);
                true
            }
            Verdict::Retire => false,
        }
    }

    /// Whether a simple reply with this error, of the right size, has a content fault: what was told before is told again, or it fails its command
    /// and tells no error. One to a read that structured replies forbid was a breach, and never comes here.
    fn is_bad(&self, error: u32) -> bool
        requires { self.now.kept ≡ None }
        ensures { result ≡ reply_bad self.now error }
    {
        match settle(self.kind, false, error) {
            Settled::Done => matches!(self.kind, Kind::Read) && self.assembly.is_told_twice(),
            Settled::Failed(_) => error == 0,
            Settled::Broke(_) => false,
        }
    }
}

/// What the chunk callback is told of a simple reply with this error and these bytes, where the command's error so far is `before`.
fn reply_hearing<'a>(
    kind: Kind,
    bad: bool,
    error: u32,
    offset: u64,
    bytes: &'a [u8],
    before: u32,
) -> Hearing<'a>
    ensures { told_to result ≡ reply_hearing kind bad error offset bytes.now before }
{
    if bad || error != 0 {
        return Hearing::Nothing;
    }
    let Kind::Read = kind else {
        return Hearing::Nothing;
    };
    Hearing::Chunk {
        bytes,
        offset,
        status: READ_DATA,
        error: before,
    }
}

/// Tells this to the callback of a command in flight, if it has one.
pub(crate) fn hear<K: Caller>(
    flight: &Option<Flight<K>>,
    desk: &mut Desk,
    world: &mut K::World,
    told: Hearing<'_>,
) -> Result<Option<Heard>, NoMemory>
    requires { IsLiveRow flight.now desk.old.log }
    ensures hears { IfOk result (λ heard. Hears K.steps flight.now (told_to told.entry) heard desk.old.log desk.new.log world.old world.new) }
    ensures succeeds { OnErr result (desk.old.room ≡ 0) }
    ensures needed { OnErr result (has_first flight.now ≡ true) }
    ensures told { OnErr result (is_some (told_to told.entry) ≡ true) }
    ensures err_desk { OnErr result (desk.new ≡ desk.old) }
    ensures err_world { OnErr result (world.new ≡ world.old) }
{
    match flight {
        None => Ok(None),
        Some(flight) => flight.hear(desk, world, told),
    }
}

/// What a simple reply fails its command with, where it is said whether it has a content fault.
fn told_by(bad: bool, error: u32) -> Option<Failure>
    ensures { result ≡ reply_failure bad error }
{
    if bad {
        failing(Origin::Content, EPROTO)
    } else {
        failing(Origin::Told, told_error(error))
    }
}

/// An error from here with this number, 0 being none.
fn failing(origin: Origin, error: u32) -> Option<Failure>
    ensures { result ≡ failing origin error }
{
    if error == 0 {
        None
    } else {
        Some(Failure { origin, error })
    }
}

/// The first of two errors.
fn first_of(early: Option<Failure>, late: Option<Failure>) -> Option<Failure>
    ensures { result ≡ or_else early late }
{
    match early {
        None => late,
        Some(failure) => Some(failure),
    }
}

/// The number of an error, 0 for none.
pub(crate) fn error_number(failure: Option<Failure>) -> u32
    ensures { result ≡ error_number failure }
{
    match failure {
        None => 0,
        Some(failure) => failure.error,
    }
}

/// The error with which a chunk callback failed its command, 0 for none.
pub(crate) fn number_of(heard: Option<Heard>) -> u32
    ensures { result ≡ heard_error heard }
{
    match heard {
        None => 0,
        Some(heard) => heard.number(),
    }
}
