//! The desk of one handle: it numbers callbacks, knows those that are not freed, and holds the notes
//! of their calls. It calls no callback.

ghost use Rattle.std.specs.Prelude.{◌≡◌, ◌+◌, ◌-◌, ◌^◌, ◌<◌, ◌≤◌, ◌∷◌, [], Some, true, false, OnOk, OnErr, IfOk, IfErr, length, max};
ghost use Rattle.lnbd_keyed.specs.Keyed.{value_at, IsBelow};

use crate::caller::{Caller, Verdict};
use crate::live::{Live, complete_number, enlist, enlist_two, make_room, owed_for, strike};
use crate::slot::Slot;
use lnbd_model::{NoMemory, Note};
use std::alloc::Global;
use std::collections::BTreeMap;
use std::marker::Model;

/// The most callbacks that one desk admits in its life, 2^56.
pub const MOST_CALLBACKS: u64 = 72_057_594_037_927_936;

/// Numbers callbacks and notes the calls on them.
///
/// With `n` live callbacks, `admit`, `admit_two`, `Slot::complete` and `Slot::free` take a time that
/// grows as the logarithm of `n`; every other call takes a time that does not depend on `n`. Room for
/// notes is taken in doubling steps. A live callback owns room for the notes of its completion and
/// its end, so `Slot::complete` and `Slot::free` take no memory.
#[derive(Drop)]
pub struct Desk {
    notes: Vec<Note>,
    live: Live,
    admitted: u64,
    // the notes that live callbacks own
    owed: usize,
    // those for which there is room beside
    room: usize,
}

impl Model for Desk {
    ghost use Rattle.std.specs.Prelude.{vec_len, vec_capacity};
    ghost use Rattle.lnbd_callbacks.specs.Desk.{Desk as Seen};
    ghost use Rattle.lnbd_callbacks.specs.Sound.{IsSound};

    ghost Value = { Seen };

    ghost view = { λ desk. record { log = record { admitted = desk.admitted; live = desk.live.entries; notes = desk.notes.items }; room = desk.room } };

    ghost invariant = { λ desk. IsSound (vec_len desk.notes) desk.room desk.owed (vec_capacity desk.notes) desk.admitted desk.live.entries };
}

impl Desk {
    ghost use Rattle.lnbd_callbacks.specs.Desk.{empty_log, with_admission, with_note, with_completion, with_free};
    ghost use Rattle.lnbd_callbacks.specs.Slot.{IsLiveOn};

    /// A desk that admitted none. It takes no memory.
    pub fn new(alloc: Global) -> Desk
        ensures { result ≡ record { log = empty_log; room = 0 } }
    {
        Desk {
            notes: Vec::new(alloc),
            live: BTreeMap::new(alloc),
            admitted: 0,
            owed: 0,
            room: 0,
        }
    }

    /// Gives a callback the next number, from 1, and takes room for its two notes. For want of memory,
    /// or where 2^56 were admitted, it hands the callback back and changes nothing.
    pub fn admit<K: Caller>(&mut self, callback: K) -> Result<Slot<K>, K>
        ensures slot { IfOk result (λ slot. slot ≡ record { number = self.old.log.admitted + 1; callback = callback; completed = false }) }
        ensures live { IfOk result (λ slot. IsLiveOn slot self.new.log) }
        ensures ok { OnOk result (self.new ≡ record self.old { log = with_admission self.old.log }) }
        ensures limit { OnOk result (self.old.log.admitted < MOST_CALLBACKS) }

        // What was handed over comes back, and nothing has changed.
        ensures handed_back { IfErr result (λ back. back ≡ callback) }
        ensures err { OnErr result (self.new ≡ self.old) }
    {
        if self.admitted >= MOST_CALLBACKS {
            return Err(callback);
        }
        let Ok(()) = make_room(&mut self.notes, self.owed, self.room, 2) else {
            return Err(callback);
        };
        let number = self.admitted + 1;
        let Ok(()) = enlist(&mut self.live, number) else {
            return Err(callback);
        };
        self.admitted = number;
        self.owed += 2;
        Ok(Slot::new(number, callback))
    }

    /// Admits two callbacks, `first` with the lower number. For want of memory, or where not both keep
    /// within 2^56, it hands both back and changes nothing.
    pub fn admit_two<K: Caller>(&mut self, first: K, done: K) -> Result<(Slot<K>, Slot<K>), (K, K)>
        ensures first { IfOk result (λ slots. slots.0 ≡ record { number = self.old.log.admitted + 1; callback = first; completed = false }) }
        ensures done { IfOk result (λ slots. slots.1 ≡ record { number = self.old.log.admitted + 1 + 1; callback = done; completed = false }) }
        ensures first_live { IfOk result (λ slots. IsLiveOn slots.0 self.new.log) }
        ensures done_live { IfOk result (λ slots. IsLiveOn slots.1 self.new.log) }
        ensures ok { OnOk result (self.new ≡ record self.old { log = with_admission (with_admission self.old.log) }) }
        ensures limit { OnOk result (self.old.log.admitted + 1 < MOST_CALLBACKS) }

        // What was handed over comes back, and nothing has changed.
        ensures handed_back { IfErr result (λ back. back ≡ (first, done)) }
        ensures err { OnErr result (self.new ≡ self.old) }
    {
        if self.admitted + 1 >= MOST_CALLBACKS {
            return Err((first, done));
        }
        let Ok(()) = make_room(&mut self.notes, self.owed, self.room, 4) else {
            return Err((first, done));
        };
        let number = self.admitted + 1;
        let Ok(()) = enlist_two(&mut self.live, number) else {
            return Err((first, done));
        };
        self.admitted = number + 1;
        self.owed += 4;
        Ok((Slot::new(number, first), Slot::new(number + 1, done)))
    }

    /// How many callbacks were admitted.
    pub fn admitted(&self) -> u64
        ensures count { result ≡ self.now.log.admitted }
        ensures limit { result ≤ MOST_CALLBACKS }
    {
        self.admitted
    }

    /// How many callbacks are not freed.
    pub fn live(&self) -> u64
        ensures count { result ≡ length self.now.log.live }
        ensures numbered { IsBelow self.now.log.live (self.now.log.admitted + 1) }
    {
        self.live.len() as u64
    }

    /// The notes since the last `clear`, the earliest first.
    pub fn notes(&self) -> &[Note]
        ensures { result.now ≡ self.now.log.notes }
    {
        &self.notes
    }

    /// Drops the notes. The room that live callbacks own, and what was reserved, stays.
    pub fn clear(&mut self)
        ensures { self.new ≡ record self.old { log = record self.old.log { notes = [] } } }
    {
        self.notes.clear();
    }

    /// The notes since the last `clear`, and the end of the desk.
    pub fn into_notes(self) -> Vec<Note>
        ensures { result.items ≡ self.log.notes }
    {
        let Desk {
            notes,
            live: _,
            admitted: _,
            owed: _,
            room: _,
        } = self;
        notes
    }

    /// Makes room for at least one note beside those that live callbacks own. While there is room,
    /// `Slot::chunk` and `Slot::extents` take no memory.
    pub fn reserve(&mut self) -> Result<(), NoMemory>
        ensures ok { OnOk result (self.new ≡ record self.old { room = max self.old.room 1 }) }
        ensures some { OnOk result (1 ≤ self.new.room) }
        ensures err { OnErr result (self.new ≡ self.old) }
        ensures succeeds { OnErr result (self.old.room ≡ 0) }
    {
        if self.room == 0 {
            make_room(&mut self.notes, self.owed, self.room, 1)?;
            self.room = 1;
        }
        Ok(())
    }

    /// Adds a note for which there is room.
    pub(crate) fn note(&mut self, note: Note)
        requires { 1 ≤ self.old.room }
        ensures { self.new ≡ record self.old { log = with_note self.old.log note; room = self.old.room - 1 } }
    {
        self.notes.push_reserved(note);
        self.room -= 1;
    }

    /// Notes the completion of a live callback that was not completed.
    pub(crate) fn note_completed(&mut self, number: u64, error: u32, verdict: &Verdict)
        requires { value_at number self.old.log.live ≡ Some false }
        ensures { self.new ≡ record self.old { log = with_completion self.old.log number error verdict.now } }
    {
        let kept = verdict.is_keep();
        complete_number(&mut self.live, number);
        self.notes.push_reserved(Note::Completed {
            slot: number,
            error,
            kept,
        });
        self.owed -= 1;
    }

    /// Notes the end of a live callback.
    pub(crate) fn note_freed(&mut self, number: u64, completed: bool)
        requires { value_at number self.old.log.live ≡ Some completed }
        ensures { self.new ≡ record self.old { log = with_free self.old.log number } }
    {
        strike(&mut self.live, number);
        self.notes.push_reserved(Note::Freed { slot: number });
        self.owed -= owed_for(completed);
    }
}
