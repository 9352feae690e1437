//! One handle with its link: its part of a turn, and what it waits for.

ghost use Rattle.std.specs.Prelude.{◌≡◌, ◌≢◌, ◌≤◌, ◌<◌, ℕ, List, All, IfOk, OnErr, true, slice_get, vec_len, vec_capacity};
ghost use Rattle.lnbd_history.specs.Events.{History};
ghost use Rattle.lnbd_history.specs.Outgoing.{total};
ghost use Rattle.lnbd_standing.specs.Standing.{StandsFor};
ghost use Rattle.lnbd_handle.specs.Histories.{max_unretired};
ghost use Rattle.lnbd_link.specs.Contents.{Keeps};
ghost use Rattle.lnbd_poll.specs.Seen.{Goes, IsAt, Seen};
ghost use Rattle.lnbd_poll.specs.Turns.{Blames, Told, WritesTold, is_lost, is_moved};
ghost use Rattle.lnbd_poll.specs.Turned.{TakesPart, TurnsShort, TurnsWhole};
ghost use Rattle.lnbd_poll.specs.Held.{AllClose, AreAt, all_held, seen_held, want_now, wants_now};
ghost use Rattle.lnbd_poll.specs.Steps.{HasWritten, TookEnough, TookShort};

use crate::inbox::Inbox;
use crate::noticed::{Noticed, Turn};
use crate::notify::{notify_read, notify_write};
use crate::wanting::{push_want, want_of};
use lnbd_callbacks::Caller;
use lnbd_handle::{Closed, Handle};
use lnbd_link::{Want, Wires};
use lnbd_model::NoMemory;

/// A handle, the number of its link, and what was read from the link and not taken.
pub struct Held<K> {
    pub link: u32,
    pub handle: Handle<K>,
    pub inbox: Inbox,
}

/// Tells the handle where its link failed.
fn tell<K: Caller>(handle: &mut Handle<K>, noticed: Noticed, world: &mut K::World)
    ensures told { (history : History K) → StandsFor max_unretired history handle.old.machine → (after : History K) × Told K.steps (is_lost noticed) history world.old after world.new × StandsFor max_unretired after handle.new.machine }
    ensures same { is_moved noticed ≡ true → handle.new.machine ≡ handle.old.machine }
{
    if !noticed.is_lost() {
        return;
    }
    handle.link_failed(world);
}

/// Writes once, and tells the handle where its link failed.
fn write_once<K: Caller, W: Wires>(
    handle: &mut Handle<K>,
    wires: &mut W,
    link: u32,
    world: &mut K::World,
) -> Noticed
    ensures writes { Goes (W.told wires.old) (W.told wires.new) (λ history. StandsFor max_unretired history handle.old.machine) (λ history. StandsFor max_unretired history handle.new.machine) (λ before calls after. WritesTold K.steps link result before world.old calls after world.new × Blames calls (W.faults wires.old) (W.faults wires.new)) }
    ensures less { is_moved result ≡ true → total handle.new.machine.known.waits < total handle.old.machine.known.waits }
    ensures contents { Keeps (W.contents wires.old) (W.contents wires.new) }
    ensures faults { W.faults wires.old ≤ W.faults wires.new }
    ensures idles { W.idles wires.old ≤ W.idles wires.new }
{
    let noticed = notify_write(handle, wires, link);
    tell(handle, noticed, world);
    noticed
}

/// Writes until nothing waits or a write takes nothing.
fn write_all<K: Caller, W: Wires>(
    handle: &mut Handle<K>,
    wires: &mut W,
    link: u32,
    world: &mut K::World,
) -> Turn
    ensures writes { Goes (W.told wires.old) (W.told wires.new) (λ history. StandsFor max_unretired history handle.old.machine) (λ history. StandsFor max_unretired history handle.new.machine) (λ before calls after. HasWritten K.steps link (W.faults wires.old) (W.faults wires.new) result before world.old calls after world.new) }
    ensures contents { Keeps (W.contents wires.old) (W.contents wires.new) }
    ensures faults { W.faults wires.old ≤ W.faults wires.new }
    ensures idles { W.idles wires.old ≤ W.idles wires.new }
{
    let mut turn = Turn::Still;
    'writing: loop {
        let noticed = write_once(handle, wires, link, world);
        turn = turn.and(noticed.turn());
        if !noticed.is_moved() {
            return turn;
        }
    }
}

impl<K: Caller> Held<K> {
    /// The handle's part of a turn: it writes until nothing waits or a write takes nothing, and then reads once.
    pub(crate) fn turn<W: Wires>(
        &mut self,
        wires: &mut W,
        world: &mut K::World,
    ) -> Result<Turn, NoMemory>
        ensures ok { IfOk result (λ told. Goes (W.told wires.old) (W.told wires.new) (λ seen. IsAt self.old.link self.old.handle.machine self.old.inbox seen) (λ seen. IsAt self.new.link self.new.handle.machine self.new.inbox seen) (λ before calls after. TookEnough K.steps (W.faults wires.old) (W.faults wires.new) told before world.old calls after world.new)) }
        ensures short { OnErr result (Goes (W.told wires.old) (W.told wires.new) (λ seen. IsAt self.old.link self.old.handle.machine self.old.inbox seen) (λ seen. IsAt self.new.link self.new.handle.machine self.new.inbox seen) (λ before calls after. TookShort K.steps (W.faults wires.old) (W.faults wires.new) before world.old calls after world.new)) }
        ensures contents { Keeps (W.contents wires.old) (W.contents wires.new) }
        ensures faults { W.faults wires.old ≤ W.faults wires.new }
        ensures idles { W.idles wires.old ≤ W.idles wires.new }
    {
        let wrote = write_all(&mut self.handle, wires, self.link, world);
        let noticed = notify_read(&mut self.handle, &mut self.inbox, wires, self.link, world);
        if noticed.is_short() {
            return Err(NoMemory);
        }
        Ok(wrote.and(noticed.turn()))
    }
}

/// The part of a turn of the handle of this index.
pub(crate) fn take_part<K: Caller, W: Wires>(
    all: &mut Vec<Held<K>>,
    index: usize,
    wires: &mut W,
    world: &mut K::World,
) -> Result<Turn, NoMemory>
    requires { index < vec_len all.old }
    ensures ok { IfOk result (λ told. Goes (W.told wires.old) (W.told wires.new) (λ seen. AreAt (all_held all.old.items) seen) (λ seen. AreAt (all_held all.new.items) seen) (λ before calls after. TakesPart (TookEnough K.steps (W.faults wires.old) (W.faults wires.new) told) index before world.old calls after world.new)) }
    ensures short { OnErr result (Goes (W.told wires.old) (W.told wires.new) (λ seen. AreAt (all_held all.old.items) seen) (λ seen. AreAt (all_held all.new.items) seen) (λ before calls after. TakesPart (TookShort K.steps (W.faults wires.old) (W.faults wires.new)) index before world.old calls after world.new)) }
    ensures len { vec_len all.new ≡ vec_len all.old }
    ensures others { (other : ℕ) → other ≢ index → slice_get (all_held all.new.items) other ≡ slice_get (all_held all.old.items) other }
    ensures contents { Keeps (W.contents wires.old) (W.contents wires.new) }
    ensures faults { W.faults wires.old ≤ W.faults wires.new }
    ensures idles { W.idles wires.old ≤ W.idles wires.new }
{
    all[index].turn(wires, world)
}

/// One handle after another takes its part of a turn.
pub(crate) fn turn_all<K: Caller, W: Wires>(
    all: &mut Vec<Held<K>>,
    wires: &mut W,
    world: &mut K::World,
) -> Result<Turn, NoMemory>
    ensures ok { IfOk result (λ told. Goes (W.told wires.old) (W.told wires.new) (λ seen. AreAt (all_held all.old.items) seen) (λ seen. AreAt (all_held all.new.items) seen) (λ before calls after. TurnsWhole K.steps (W.faults wires.old) (W.faults wires.new) told before world.old calls after world.new)) }
    ensures short { OnErr result (Goes (W.told wires.old) (W.told wires.new) (λ seen. AreAt (all_held all.old.items) seen) (λ seen. AreAt (all_held all.new.items) seen) (λ before calls after. TurnsShort K.steps (W.faults wires.old) (W.faults wires.new) before world.old calls after world.new)) }
    ensures len { vec_len all.new ≡ vec_len all.old }
    ensures contents { Keeps (W.contents wires.old) (W.contents wires.new) }
    ensures faults { W.faults wires.old ≤ W.faults wires.new }
    ensures idles { W.idles wires.old ≤ W.idles wires.new }
{
    let mut turn = Turn::Still;
    'handles: for i in 0..all.len() {
        match take_part(all, i, wires, world) {
            Ok(part) => turn = turn.and(part),
            Err(_) => return Err(NoMemory),
        }
    }
    Ok(turn)
}

/// Closes each handle in order.
pub(crate) fn close_all<K: Caller>(
    all: Vec<Held<K>>,
    mut closed: Vec<Closed>,
    world: &mut K::World,
) -> Vec<Closed>
    requires empty { vec_len closed ≡ 0 }
    requires room { vec_len all ≤ vec_capacity closed }
    ensures closes { (seen : List (Seen K)) → AreAt (all_held all.items) seen → AllClose K.steps seen result.items world.old world.new }
    ensures count { vec_len result ≡ vec_len all }
    ensures equal { All (λ closed. closed.opened ≡ closed.freed) result.items }
{
    let mut left = all.into_iter();
    'handles: while let Some(held) = left.next() {
        let Held {
            link: _,
            handle,
            inbox: _,
        } = held;
        closed.push_reserved(handle.close(world));
    }
    left.destroy_empty();
    closed
}

impl<K> Held<K> {
    /// What a pause is to wait for, where the handle waits for its link.
    fn want(&self) -> Option<Want>
        ensures { result ≡ want_now (seen_held self.now) }
    {
        want_of(&self.handle, self.link)
    }
}

/// Lists what a pause is to wait for.
pub(crate) fn want_all<K>(wants: &mut Vec<Want>, all: &Vec<Held<K>>)
    requires { vec_len all.now ≤ vec_capacity wants.old }
    ensures items { wants.new.items ≡ wants_now (all_held all.now.items) }
    ensures room { vec_capacity wants.new ≡ vec_capacity wants.old }
{
    wants.clear();
    'handles: for i in 0..all.len() {
        push_want(wants, all[i].want());
    }
}
