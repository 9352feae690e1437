//! What a chunk brings is told to its command: content goes into the row's buffer or takes its place, and the callback hears of it. How a
//! command ends is not said here.

ghost use Rattle.std.specs.Prelude.{◌≡◌, ◌+◌, ◌≤◌, ◌-◌, List, ℕ, [], true, false, Some, None, is_some, length, replicate, take, drop, vec_len, if◌then◌else◌, IfOk, IfErr, OnOk, OnErr};
ghost use Rattle.std.specs.Option.{option_copied};
ghost use Rattle.lnbd_records.specs.Content.{Data, Hole};
ghost use Rattle.lnbd_outcome.specs.Hearing.{content_heard};
ghost use Rattle.lnbd_outcome.specs.Faults.{context_of};
ghost use Rattle.lnbd_structured.specs.Told.{content_in, error_in};
ghost use Rattle.lnbd_structured.specs.Placed.{with_content, written};
ghost use Rattle.lnbd_history.specs.Entries.{Framed};
ghost use Rattle.lnbd_machine.specs.Machine.{heard_in};
ghost use Rattle.lnbd_commands.specs.Contents.{IsSpareOf, told_of};
ghost use Rattle.lnbd_commands.specs.Lands.{CanTell, Hears, told_row};
ghost use Rattle.lnbd_commands.specs.Seen.{told_to};
ghost use Rattle.lnbd_commands.specs.Told.{Fits, ZerosOf, query_by, told_bytes};

use crate::content::Brought;
use crate::flight::Hearing;
use crate::row::{READ_DATA, Row, hear, number_of};
use lnbd_callbacks::{Caller, Desk, Heard};
use lnbd_model::{Context, Contexts, Kind, NoMemory, told_error};
use lnbd_structured::{Told, put_data, put_zeros};
use std::alloc::Global;
use std::mem::replace;

// The other statuses of chunks in a chunk callback (libnbd, nbd_aio_pread_structured).
const READ_HOLE: u32 = 2;

const READ_ERROR: u32 = 3;

impl<K: Caller> Row<K> {
    /// Tells what a chunk brings, and what the callback answered, if it was called. There is room for its note before the
    /// chunk is applied: for want of memory the command is as it was, the callback was not called, and what the chunk brings is
    /// handed back. A buffer that is not needed any more comes back beside.
    pub(crate) fn tell<'a>(
        &mut self,
        alloc: Global,
        desk: &mut Desk,
        world: &mut K::World,
        brought: Brought<'a>,
        contexts: &Contexts,
    ) -> Result<(Option<Heard>, Vec<u8>), Brought<'a>>
        requires { CanTell self.old (told_of brought) desk.old.log }
        ensures hears { IfOk result (λ end. Hears K.steps self.old.flight (heard_in self.old contexts.now (Framed (told_of brought.entry) false)) end.0 desk.old.log desk.new.log world.old world.new) }
        ensures row { IfOk result (λ end. self.new ≡ told_row contexts.now (told_of brought.entry) end.0 self.old) }
        ensures spare { IfOk result (λ end. IsSpareOf brought.entry (length end.1.items)) }
        ensures handed_back { IfErr result (λ back. back ≡ brought.entry) }
        ensures err_row { OnErr result (self.new ≡ self.old) }
        ensures err_log { OnErr result (desk.new.log ≡ desk.old.log) }
        ensures err_world { OnErr result (world.new ≡ world.old) }
    {
        match brought {
            Brought::Told(told) => match self.tell_copied(desk, world, told, contexts) {
                Ok(heard) => Ok((heard, Vec::new(alloc))),
                Err(_) => Err(Brought::Told(told)),
            },
            Brought::Filled { offset, buffer } => {
                match self.tell_filled(desk, world, offset, buffer, contexts) {
                    Ok(end) => Ok(end),
                    Err(buffer) => Err(Brought::Filled { offset, buffer }),
                }
            }
        }
    }

    /// The same where data are copied.
    fn tell_copied(
        &mut self,
        desk: &mut Desk,
        world: &mut K::World,
        told: Told<'_>,
        contexts: &Contexts,
    ) -> Result<Option<Heard>, NoMemory>
        requires { CanTell self.old (content_in told) desk.old.log }
        ensures hears { IfOk result (λ heard. Hears K.steps self.old.flight (heard_in self.old contexts.now (Framed (content_in told.entry) false)) heard desk.old.log desk.new.log world.old world.new) }
        ensures row { IfOk result (λ heard. self.new ≡ told_row contexts.now (content_in told.entry) heard self.old) }
        ensures err_row { OnErr result (self.new ≡ self.old) }
        ensures err_log { OnErr result (desk.new.log ≡ desk.old.log) }
        ensures err_world { OnErr result (world.new ≡ world.old) }
    {
        desk.reserve()?;
        let error = self.assembly.error();
        let Ok(bad) = self.assembly.tell(told, contexts) else {
            return Err(NoMemory);
        };
        if bad {
            return Ok(None);
        }
        let place = put(&mut self.buf, self.offset, told);
        let hearing = hearing_of(
            self.kind,
            self.offset,
            told,
            &self.buf[place.0..place.1],
            contexts,
            error,
        );
        match hear(&self.flight, desk, world, hearing) {
            Ok(heard) => {
                self.assembly.fail(number_of(heard));
                Ok(heard)
            }
            Err(_) => unreachable!(),
        }
    }

    /// The same of data from a place of the export on, whose buffer is taken over where they are those of the whole read.
    fn tell_filled(
        &mut self,
        desk: &mut Desk,
        world: &mut K::World,
        offset: u64,
        buffer: Vec<u8>,
        contexts: &Contexts,
    ) -> Result<(Option<Heard>, Vec<u8>), Vec<u8>>
        requires { CanTell self.old (Data offset buffer.items) desk.old.log }
        ensures hears { IfOk result (λ end. Hears K.steps self.old.flight (heard_in self.old contexts.now (Framed (Data offset buffer.items) false)) end.0 desk.old.log desk.new.log world.old world.new) }
        ensures row { IfOk result (λ end. self.new ≡ told_row contexts.now (Data offset buffer.items) end.0 self.old) }
        ensures spare { IfOk result (λ end. length end.1.items ≡ length buffer.items) }
        ensures handed_back { IfErr result (λ back. back ≡ buffer) }
        ensures err_row { OnErr result (self.new ≡ self.old) }
        ensures err_log { OnErr result (desk.new.log ≡ desk.old.log) }
        ensures err_world { OnErr result (world.new ≡ world.old) }
    {
        let Ok(()) = desk.reserve() else {
            return Err(buffer);
        };
        let error = self.assembly.error();
        let told = Told::Data {
            offset,
            bytes: buffer.as_slice(),
        };
        let Ok(bad) = self.assembly.tell(told, contexts) else {
            return Err(buffer);
        };
        if bad {
            return Ok((None, buffer));
        }
        let hearing = Hearing::Chunk {
            bytes: buffer.as_slice(),
            offset,
            status: READ_DATA,
            error,
        };
        match hear(&self.flight, desk, world, hearing) {
            Ok(heard) => {
                self.assembly.fail(number_of(heard));
                let spare = put_filled(&mut self.buf, self.offset, offset, buffer);
                Ok((heard, spare))
            }
            Err(_) => unreachable!(),
        }
    }
}

/// Puts data of a read that begins at this offset into its place in the read's buffer, or their own buffer in its place where they are all
/// of them. A buffer as long as theirs comes back.
#[tactic(auto, using(crate::proofs::LandLemmas::whole_content, crate::proofs::MaskLemmas::length_with))]
fn put_filled(own: &mut Vec<u8>, offset: u64, place: u64, filled: Vec<u8>) -> Vec<u8>
    requires { Fits offset (length own.old.items) (Data place filled.items) }
    ensures bytes { own.new.items ≡ told_bytes offset (Data place filled.items) own.old.items }
    ensures spare { length result.items ≡ length filled.items }
{
    if filled.len() == own.len() {
        return replace(own, filled);
    }
    put_bytes(own, offset, place, &filled);
    filled
}

/// Puts content of a read that begins at this offset into its place in the buffer. Answers where it stands there.
#[tactic(auto, using(crate::proofs::MaskLemmas::hole_zeros, crate::proofs::MaskLemmas::length_with))]
fn put(buffer: &mut Vec<u8>, offset: u64, told: Told<'_>) -> (usize, usize)
    requires { Fits offset (length buffer.old.items) (content_in told) }
    ensures bytes { buffer.new.items ≡ told_bytes offset (content_in told.entry) buffer.old.items }
    ensures within { (result.0 ≤ result.1) × (result.1 ≤ length buffer.new.items) }
    ensures zeros { ZerosOf (content_in told.entry) (take (result.1 - result.0) (drop result.0 buffer.new.items)) }
{
    match told {
        Told::Data {
            offset: place,
            bytes,
        } => {
            put_bytes(buffer, offset, place, bytes);
            (0, 0)
        }
        Told::Hole {
            offset: place,
            length,
        } => {
            put_hole(buffer, offset, place, length);
            let from = (place - offset) as usize;
            (from, from + length as usize)
        }
        Told::Status { .. } | Told::Error { .. } | Told::Nothing => (0, 0),
    }
}

fn put_bytes(buffer: &mut Vec<u8>, offset: u64, place: u64, bytes: &[u8])
    requires { Fits offset (length buffer.old.items) (Data place bytes.now) }
    ensures { buffer.new.items ≡ with_content offset (Data place bytes.now) buffer.old.items }
{
    put_data(buffer, offset, place, bytes);
}

fn put_hole(buffer: &mut Vec<u8>, offset: u64, place: u64, size: u64)
    requires { Fits offset (length buffer.old.items) (Hole place size) }
    ensures { buffer.new.items ≡ with_content offset (Hole place size) buffer.old.items }
{
    put_zeros(buffer, offset, place, size);
}

/// What the callback of a command hears of what a chunk without a fault tells, where the command's error so far is this.
/// `zeros` are those of a hole.
fn hearing_of<'a>(
    kind: Kind,
    offset: u64,
    told: Told<'a>,
    zeros: &'a [u8],
    contexts: &'a Contexts,
    error: u32,
) -> Hearing<'a>
    requires { ZerosOf (content_in told) zeros.now }
    ensures { told_to result ≡ content_heard (query_by kind offset) contexts.now error (content_in told.entry) }
{
    match told {
        Told::Data { offset, bytes } => Hearing::Chunk {
            bytes,
            offset,
            status: READ_DATA,
            error,
        },
        Told::Hole { offset, length: _ } => Hearing::Chunk {
            bytes: zeros,
            offset,
            status: READ_HOLE,
            error,
        },
        Told::Status { context, entries } => match context_of(contexts, context) {
            None => Hearing::Nothing,
            Some(context) => Hearing::Extents {
                context,
                offset,
                entries,
                error,
            },
        },
        Told::Error { number, offset } => error_hearing(kind, number, offset),
        Told::Nothing => Hearing::Nothing,
    }
}

/// What the callback of a read hears of an error with a place.
fn error_hearing<'a>(kind: Kind, number: u32, offset: Option<u64>) -> Hearing<'a>
    ensures { told_to result ≡ content_heard (query_by kind 0) [] 0 (error_in number offset) }
{
    match (kind, offset) {
        (Kind::Read, Some(offset)) => Hearing::Chunk {
            bytes: &[],
            offset,
            status: READ_ERROR,
            error: told_error(number),
        },
        _ => Hearing::Nothing,
    }
}

/// The meta context with this number, if it is agreed.
fn context_of(contexts: &Contexts, id: u32) -> Option<&Context>
    ensures { option_copied result ≡ context_of id contexts.now }
{
    for context in contexts.as_slice() {
        if context.id == id {
            return Some(context);
        }
    }
    None
}
