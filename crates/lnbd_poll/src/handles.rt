//! Several handles with their links, in turns.

ghost use Rattle.std.specs.Prelude.{◌≡◌, ◌≢◌, ◌<◌, ◌≤◌, ◌+◌, ◌++◌, ◌∷◌, ℕ, List, [], Some, IfOk, IfErr, OnErr, OnOk, ◌==◌, All, length, take, drop, slice_get, vec_len, vec_capacity};
ghost use Rattle.std.specs.Option.{option_map};
ghost use Rattle.std.specs.Borrow.{sem};
ghost use Rattle.lnbd_machine.specs.Machine.{Machine};
ghost use Rattle.lnbd_link.specs.Call.{Pause};
ghost use Rattle.lnbd_link.specs.Contents.{Keeps};
ghost use Rattle.lnbd_link.specs.Count.{Rises};
ghost use Rattle.lnbd_link.specs.Part.{Adds};
ghost use Rattle.lnbd_poll.specs.Seen.{Goes, Seen};
ghost use Rattle.lnbd_poll.specs.Turned.{TakesPart, TurnsShort, TurnsWhole};
ghost use Rattle.lnbd_poll.specs.Steps.{TookEnough, TookShort};
ghost use Rattle.lnbd_poll.specs.Held.{AllClose, AreAt, max_held, wants_after, wants_now};

use crate::held::{Held, close_all, take_part, turn_all, want_all};
use crate::inbox::Inbox;
use crate::noticed::Turn;
use lnbd_callbacks::Caller;
use lnbd_handle::{Closed, Handle};
use lnbd_link::{Want, Wires};
use lnbd_model::NoMemory;
use std::alloc::Global;
use std::marker::Model;

/// Handles with their links, 64 at most. It must be spent, in the end by `close`. Contracts see the list of what is held.
pub struct Handles<K> {
    alloc: Global,
    all: Vec<Held<K>>,
    // the room that `close` and `pause` fill, taken when a handle is added
    closed: Vec<Closed>,
    wants: Vec<Want>,
}

impl<K> Model for Handles<K> {
    ghost use Rattle.std.specs.Prelude.{◌≡◌, ◌≤◌, List, vec_len, vec_capacity};
    ghost use Rattle.lnbd_poll.specs.Held.{Held as One, all_held};

    ghost Value = { List (One K) };

    ghost view = { λ a. all_held a.all.items };

    ghost invariant = { λ a. (vec_len a.closed ≡ 0) × (vec_len a.all ≤ vec_capacity a.closed) × (vec_len a.all ≤ vec_capacity a.wants) };
}

/// Takes all memory for one handle more.
fn make_room<K>(
    alloc: Global,
    all: &mut Vec<Held<K>>,
    closed: &mut Vec<Closed>,
    wants: &mut Vec<Want>,
) -> Result<Inbox, NoMemory>
    requires empty { vec_len closed.old ≡ 0 }
    ensures inbox { IfOk result (λ inbox. inbox ≡ []) }
    ensures place { OnOk result (vec_len all.new < vec_capacity all.new) }
    ensures closing { OnOk result (vec_len all.new + 1 ≤ vec_capacity closed.new) }
    ensures wanting { OnOk result (vec_len all.new + 1 ≤ vec_capacity wants.new) }
    ensures items { all.new.items ≡ all.old.items }
    ensures len { vec_len all.new ≡ vec_len all.old }
    ensures none { vec_len closed.new ≡ 0 }
    ensures closed_kept { vec_capacity closed.old ≤ vec_capacity closed.new }
    ensures wants_kept { vec_capacity wants.old ≤ vec_capacity wants.new }
{
    all.reserve(1)?;
    let count = all.len() + 1;
    closed.reserve(count)?;
    wants.clear();
    wants.reserve(count)?;
    Inbox::new(alloc)
}

impl<K> Handles<K> {
    ghost use Rattle.lnbd_poll.specs.Lends.{lends_handle};

    /// No handles. It takes no memory.
    pub fn new(alloc: Global) -> Handles<K>
        ensures { result ≡ [] }
    {
        Handles {
            alloc,
            all: Vec::new(alloc),
            closed: Vec::new(alloc),
            wants: Vec::new(alloc),
        }
    }

    /// How many handles are held.
    pub fn len(&self) -> usize
        ensures { result ≡ length self.now }
    {
        self.all.len()
    }

    /// Whether no handle is held.
    pub fn is_empty(&self) -> bool
        ensures { result ≡ (length self.now == 0) }
    {
        self.all.is_empty()
    }

    /// Holds one handle more, behind the others, and answers its index. Where memory runs out the handle comes back, and
    /// nothing has changed.
    pub fn add(&mut self, link: u32, handle: Handle<K>) -> Result<usize, Handle<K>>
        requires { length self.old < max_held }
        ensures ok { IfOk result (λ index. index ≡ length self.old) }
        ensures added { OnOk result (self.new ≡ self.old ++ record { link = link; handle = handle.machine; inbox = [] } ∷ []) }
        ensures err { IfErr result (λ back. back ≡ handle) }
        ensures unchanged { OnErr result (self.new ≡ self.old) }
    {
        match make_room(self.alloc, &mut self.all, &mut self.closed, &mut self.wants) {
            Ok(inbox) => {
                let index = self.all.len();
                self.all.push_reserved(Held {
                    link,
                    handle,
                    inbox,
                });
                Ok(index)
            }
            Err(_) => Err(handle),
        }
    }

    /// The handle of this index.
    pub fn get(&self, index: usize) -> &Handle<K>
        requires { index < length self.now }
        ensures { option_map (λ held. held.handle) (slice_get self.now index) ≡ Some result.now.machine }
    {
        &self.all[index].handle
    }

    /// The handle of this index for its calls.
    pub fn get_mut(&mut self, index: usize) -> &mut Handle<K>
        requires { index < length self.old }
        ensures* writes_back { sem 𝓛 (lends_handle K.row self.entry index result) }
        ensures value { option_map (λ held. held.handle) (slice_get self.old index) ≡ Some result.now.machine }
    {
        let held = &mut self.all[index];
        &mut held.handle
    }

    /// Hands out the handle of this index and the number of its link. Those after it move down by one. What was read from the
    /// link and not taken is gone.
    pub fn take(&mut self, index: usize) -> (u32, Handle<K>)
        requires { index < length self.old }
        ensures value { option_map {U = ℕ × Machine K} (λ held. (held.link, held.handle)) (slice_get self.old index) ≡ Some (result.0, result.1.machine) }
        ensures others { self.new ≡ take index self.old ++ drop (index + 1) self.old }
    {
        let Held {
            link,
            handle,
            inbox: _,
        } = self.all.remove(index);
        (link, handle)
    }

    /// Waits once for the links whose handles negotiate, have commands in flight, have bytes to send, or asked for the end of
    /// their connection. It takes no memory.
    pub fn pause<W: Wires>(&mut self, wires: &mut W)
        ensures told { Adds (W.told wires.old) (W.told wires.new) (Pause (wants_now self.old)) }
        ensures wants { (seen : List (Seen K)) → AreAt self.old seen → wants_now self.old ≡ wants_after seen }
        ensures unchanged { self.new ≡ self.old }
        ensures contents { Keeps (W.contents wires.old) (W.contents wires.new) }
        ensures faults { W.faults wires.old ≤ W.faults wires.new }
        ensures idles { Rises 1 (W.idles wires.old) (W.idles wires.new) }
    {
        want_all(&mut self.wants, &self.all);
        wires.pause(&self.wants);
    }
}

impl<K: Caller> Handles<K> {
    /// One turn: each handle in order writes until nothing waits or a write takes nothing, and then reads once. One that
    /// doesn't read is left alone. Each is told where its peer ended or its link failed. It takes memory only for what a
    /// handle does with its bytes.
    ///
    /// `Still`: nothing happened on any link. `NoMemory`: the handles before the one for which memory ran out took their part,
    /// that one took the first of what was read, and those after it were not tried.
    pub fn turn<W: Wires>(&mut self, wires: &mut W, world: &mut K::World) -> Result<Turn, NoMemory>
        ensures ok { IfOk result (λ told. Goes (W.told wires.old) (W.told wires.new) (λ seen. AreAt self.old seen) (λ seen. AreAt self.new seen) (λ before calls after. TurnsWhole K.steps (W.faults wires.old) (W.faults wires.new) told before world.old calls after world.new)) }
        ensures short { OnErr result (Goes (W.told wires.old) (W.told wires.new) (λ seen. AreAt self.old seen) (λ seen. AreAt self.new seen) (λ before calls after. TurnsShort K.steps (W.faults wires.old) (W.faults wires.new) before world.old calls after world.new)) }
        ensures contents { Keeps (W.contents wires.old) (W.contents wires.new) }
        ensures faults { W.faults wires.old ≤ W.faults wires.new }
        ensures idles { W.idles wires.old ≤ W.idles wires.new }
    {
        turn_all(&mut self.all, wires, world)
    }

    /// The part of a turn of the handle of this index: it writes until nothing waits or a write takes nothing, and then reads
    /// once. The others are left alone. So a caller who looks after each part can break a turn off.
    ///
    /// `Still`: nothing happened on its link. `NoMemory`: it took the first of what was read.
    pub fn take_part<W: Wires>(
        &mut self,
        index: usize,
        wires: &mut W,
        world: &mut K::World,
    ) -> Result<Turn, NoMemory>
        requires { index < length self.old }
        ensures ok { IfOk result (λ told. Goes (W.told wires.old) (W.told wires.new) (λ seen. AreAt self.old seen) (λ seen. AreAt self.new seen) (λ before calls after. TakesPart (TookEnough K.steps (W.faults wires.old) (W.faults wires.new) told) index before world.old calls after world.new)) }
        ensures short { OnErr result (Goes (W.told wires.old) (W.told wires.new) (λ seen. AreAt self.old seen) (λ seen. AreAt self.new seen) (λ before calls after. TakesPart (TookShort K.steps (W.faults wires.old) (W.faults wires.new)) index before world.old calls after world.new)) }
        ensures len { length self.new ≡ length self.old }
        ensures others { (other : ℕ) → other ≢ index → slice_get self.new other ≡ slice_get self.old other }
        ensures contents { Keeps (W.contents wires.old) (W.contents wires.new) }
        ensures faults { W.faults wires.old ≤ W.faults wires.new }
        ensures idles { W.idles wires.old ≤ W.idles wires.new }
    {
        take_part(&mut self.all, index, wires, world)
    }

    /// Closes each handle in order. It takes no memory.
    pub fn close(self, world: &mut K::World) -> Vec<Closed>
        ensures closes { (seen : List (Seen K)) → AreAt self seen → AllClose K.steps seen result.items world.old world.new }
        ensures count { vec_len result ≡ length self }

        // Each callback that was admitted was freed.
        ensures equal { All (λ closed. closed.opened ≡ closed.freed) result.items }
    {
        let Handles {
            alloc: _,
            all,
            closed,
            wants: _,
        } = self;
        close_all(all, closed, world)
    }
}
