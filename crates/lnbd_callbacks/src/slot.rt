//! A callback that was admitted. Here alone are callbacks called: each call once, with one note.

ghost use Rattle.std.specs.Prelude.{◌≡◌, ◌≢◌, ◌+◌, ◌-◌, ◌^◌, ◌≤◌, [], ◌∷◌, true, false, OnOk, OnErr, IfOk, length};
ghost use Rattle.lnbd_callbacks.specs.Calls.{Chunk, Extents, Complete, Free, heard_number};
ghost use Rattle.lnbd_callbacks.specs.Entries.{count_of};

use crate::caller::{Caller, Heard, Verdict};
use crate::desk::Desk;
use lnbd_model::{Bytes, Context, Extent, NoMemory, Note};
use std::marker::Model;

/// A callback with its number on a desk. It must be spent, and only `free` spends it. No other code
/// can make one or give it another number.
pub struct Slot<K> {
    number: u64,
    callback: K,
    completed: bool,
}

impl<K> Model for Slot<K> {
    ghost use Rattle.lnbd_callbacks.specs.Slot.{Slot as Seen};

    ghost Value = { Seen K };

    ghost view = { λ slot. record { number = slot.number; callback = slot.callback; completed = slot.completed } };
}

impl<K: Caller> Slot<K> {
    ghost use Rattle.lnbd_callbacks.specs.Desk.{with_note, with_completion, with_free};
    ghost use Rattle.lnbd_callbacks.specs.Slot.{IsLiveOn};

    /// The slot of a callback to which the desk gave this number.
    pub(crate) fn new(number: u64, callback: K) -> Slot<K>
        ensures { result ≡ record { number = number; callback = callback; completed = false } }
    {
        Slot {
            number,
            callback,
            completed: false,
        }
    }

    /// The callback's number, from 1 in order of admission.
    pub fn number(&self) -> u64
        ensures { result ≡ self.now.number }
    {
        self.number
    }

    /// Whether the callback was completed.
    pub fn is_completed(&self) -> bool
        ensures { result ≡ self.now.completed }
    {
        self.completed
    }

    /// Calls the callback's `chunk` once and adds one note. The answer is the one that counts: `Fail(71)`
    /// for `Fail(0)`. It takes one note's room from what was reserved, and memory where there is none;
    /// on `NoMemory` the callback was not called and nothing has changed.
    pub fn chunk(
        &self,
        desk: &mut Desk,
        world: &mut K::World,
        bytes: &[u8],
        offset: u64,
        status: u32,
        error: u32,
    ) -> Result<Heard, NoMemory>
        requires live { IsLiveOn self.now desk.old.log }
        ensures world { IfOk result (λ heard. K.steps world.old (Chunk self.now.callback bytes.now offset status error heard ∷ []) world.new) }
        ensures note { IfOk result (λ heard. desk.new.log ≡ with_note desk.old.log (Note.Chunk self.now.number offset (length bytes.now) status error (heard_number heard))) }
        ensures room { OnOk result (desk.new ≡ record desk.old { log = desk.new.log; room = desk.old.room - 1 }) }
        ensures never_zero { IfOk result (λ heard. heard ≢ Heard.Fail 0) }

        // It fails only for want of room, and then calls nothing.
        ensures succeeds { OnErr result (desk.old.room ≡ 0) }
        ensures err_world { OnErr result (world.new ≡ world.old) }
        ensures err_desk { OnErr result (desk.new ≡ desk.old) }
    {
        desk.reserve()?;
        let answer = self.callback.chunk(world, bytes, offset, status, error);
        let heard = answer.counted();
        desk.note(Note::Chunk {
            slot: self.number,
            offset,
            length: bytes.len() as u64,
            status,
            error,
            heard: heard.number(),
        });
        Ok(heard)
    }

    /// Calls the callback's `extents` once, with the context's name, and adds one note, with its number.
    /// Answers and memory are as with `chunk`.
    pub fn extents(
        &self,
        desk: &mut Desk,
        world: &mut K::World,
        context: &Context,
        offset: u64,
        entries: &[Extent],
        error: u32,
    ) -> Result<Heard, NoMemory>
        requires live { IsLiveOn self.now desk.old.log }
        ensures world { IfOk result (λ heard. K.steps world.old (Extents self.now.callback context.now.name offset entries.now error heard ∷ []) world.new) }
        ensures note { IfOk result (λ heard. desk.new.log ≡ with_note desk.old.log (Note.Extents self.now.number context.now.id offset (count_of entries.now) error (heard_number heard))) }
        ensures room { OnOk result (desk.new ≡ record desk.old { log = desk.new.log; room = desk.old.room - 1 }) }
        ensures never_zero { IfOk result (λ heard. heard ≢ Heard.Fail 0) }

        // It fails only for want of room, and then calls nothing.
        ensures succeeds { OnErr result (desk.old.room ≡ 0) }
        ensures err_world { OnErr result (world.new ≡ world.old) }
        ensures err_desk { OnErr result (desk.new ≡ desk.old) }
    {
        desk.reserve()?;
        let name = context.name.as_bytes();
        let answer = self.callback.extents(world, name, offset, entries, error);
        let heard = answer.counted();
        desk.note(Note::Extents {
            slot: self.number,
            context: context.id,
            offset,
            count: count(entries),
            error,
            heard: heard.number(),
        });
        Ok(heard)
    }

    /// Calls the callback's `complete` once and adds one note. It takes no memory.
    pub fn complete(
        &mut self,
        desk: &mut Desk,
        world: &mut K::World,
        error: u32,
        buf: Bytes,
    ) -> Verdict
        requires fresh { self.old.completed ≡ false }
        requires live { IsLiveOn self.old desk.old.log }
        ensures world { K.steps world.old (Complete self.old.callback error buf result ∷ []) world.new }
        ensures desk { desk.new ≡ record desk.old { log = with_completion desk.old.log self.old.number error result } }
        ensures slot { self.new ≡ record self.old { completed = true } }
        ensures live { IsLiveOn self.new desk.new.log }
    {
        let verdict = self.callback.complete(world, error, buf);
        desk.note_completed(self.number, error, &verdict);
        self.completed = true;
        verdict
    }

    /// Calls the callback's `free` once and adds one note. It takes no memory.
    pub fn free(self, desk: &mut Desk, world: &mut K::World)
        requires live { IsLiveOn self desk.old.log }
        ensures world { K.steps world.old (Free self.callback ∷ []) world.new }
        ensures desk { desk.new ≡ record desk.old { log = with_free desk.old.log self.number } }
    {
        let Slot {
            number,
            callback,
            completed,
        } = self;
        callback.free(world);
        desk.note_freed(number, completed);
    }
}

/// How many entries there are, as a note has it.
fn count(entries: &[Extent]) -> u32
    ensures { result ≡ count_of entries.now }
{
    u32::try_from(entries.len()).unwrap_or(u32::MAX)
}
