//! The callbacks of one command: admitted together, called at its end, and freed together. Which
//! command they belong to is not known here.

ghost use Rattle.std.specs.Prelude.{◌≡◌, ◌++◌, map, true, Some, is_some, IfOk, IfErr, OnOk, OnErr};
ghost use Rattle.lnbd_history.specs.Commands.{flight_of};
ghost use Rattle.lnbd_history.specs.Entries.{call_of, note_of, hears, first_acts, first_free_acts, free_acts, completion_acts};
ghost use Rattle.lnbd_commands.specs.Lands.{IsCounted};
ghost use Rattle.lnbd_commands.specs.Seen.{told_to};
ghost use Rattle.lnbd_commands.specs.Flights.{IsFirstLive, IsLiveFlight, first_freed, freeing, completing, admitting, flight_count};

use lnbd_callbacks::{Caller, Desk, Heard, Slot, Verdict};
use lnbd_model::{Bytes, Context, Extent, NoMemory};
use std::marker::Model;

/// The callbacks of a command in flight: the one for chunks or extents, if there is one, and the one for
/// its completion. It must be spent.
pub(crate) struct Flight<K> {
    first: Option<Slot<K>>,
    done: Slot<K>,
}

impl<K> Model for Flight<K> {
    ghost use Rattle.lnbd_history.specs.Commands.{Flight as Seen};

    ghost Value = { Seen K };

    ghost view = { λ flight. record { first = flight.first; done = flight.done } };
}

/// What the chunk or extents callback of a command is told.
#[derive(Clone, Copy)]
pub(crate) enum Hearing<'a> {
    Nothing,
    /// Bytes of a read from a place of the export on, with the status of their chunk.
    Chunk {
        bytes: &'a [u8],
        offset: u64,
        status: u32,
        error: u32,
    },
    /// Extents of a meta context from the command's offset on.
    Extents {
        context: &'a Context,
        offset: u64,
        entries: &'a [Extent],
        error: u32,
    },
}

/// Admits the callbacks of a command, the chunk or extents callback with the lower number, or hands
/// them back and changes nothing.
pub(crate) fn admit<K: Caller>(
    desk: &mut Desk,
    first: Option<K>,
    done: K,
) -> Result<Flight<K>, (Option<K>, K)>
    ensures flight { IfOk result (λ flight. flight ≡ flight_of desk.old.log.admitted first done) }
    ensures ok { OnOk result (desk.new ≡ record desk.old { log = admitting first desk.old.log }) }
    ensures handed_back { IfErr result (λ back. back ≡ (first, done)) }
    ensures err { OnErr result (desk.new ≡ desk.old) }
{
    match first {
        None => match desk.admit(done) {
            Ok(done) => Ok(Flight { first: None, done }),
            Err(done) => Err((None, done)),
        },
        Some(first) => match desk.admit_two(first, done) {
            Ok((first, done)) => Ok(Flight {
                first: Some(first),
                done,
            }),
            Err((first, done)) => Err((Some(first), done)),
        },
    }
}

/// Frees the chunk or extents callback, if there is one.
fn free_first<K: Caller>(first: Option<Slot<K>>, desk: &mut Desk, world: &mut K::World)
    requires { IsFirstLive first desk.old.log }
    ensures world { K.steps world.old (map call_of (first_free_acts first)) world.new }
    ensures desk { desk.new ≡ record desk.old { log = first_freed first desk.old.log } }
{
    match first {
        Some(slot) => slot.free(desk, world),
        None => {}
    }
}

/// Completes a command with this error, 0 for none, and these bytes, and frees its callbacks.
pub(crate) fn complete<K: Caller>(
    flight: Flight<K>,
    desk: &mut Desk,
    world: &mut K::World,
    error: u32,
    bytes: Bytes,
) -> Verdict
    requires { IsLiveFlight flight desk.old.log }
    ensures world { K.steps world.old (map call_of (completion_acts flight error bytes result)) world.new }
    ensures desk { desk.new ≡ record desk.old { log = completing flight error result desk.old.log } }
{
    let Flight { first, done } = flight;
    free_first(first, desk, world);
    let mut done = done;
    let verdict = done.complete(desk, world, error, bytes);
    done.free(desk, world);
    verdict
}

/// Frees the callbacks of a command that does not complete.
pub(crate) fn free<K: Caller>(flight: Flight<K>, desk: &mut Desk, world: &mut K::World)
    requires { IsLiveFlight flight desk.old.log }
    ensures world { K.steps world.old (map call_of (free_acts flight)) world.new }
    ensures desk { desk.new ≡ record desk.old { log = freeing flight desk.old.log } }
{
    let Flight { first, done } = flight;
    free_first(first, desk, world);
    done.free(desk, world);
}

impl<K> Flight<K> {
    /// How many callbacks there are.
    pub(crate) fn count(&self) -> u64
        ensures { result ≡ flight_count self.now }
    {
        match &self.first {
            None => 1,
            Some(_) => 2,
        }
    }
}

impl<K: Caller> Flight<K> {
    /// Tells this to the chunk or extents callback, if there is one. For want of memory it is not called, and nothing
    /// has changed.
    pub(crate) fn hear(
        &self,
        desk: &mut Desk,
        world: &mut K::World,
        told: Hearing<'_>,
    ) -> Result<Option<Heard>, NoMemory>
        requires { IsFirstLive self.now.first desk.old.log }
        ensures heard { IfOk result (λ heard. is_some heard ≡ hears self.now (told_to told.entry)) }
        ensures counted { IfOk result IsCounted }
        ensures world { IfOk result (λ heard. K.steps world.old (map call_of (first_acts self.now.first (told_to told.entry) heard)) world.new) }
        ensures log { IfOk result (λ heard. desk.new.log ≡ record desk.old.log { notes = desk.old.log.notes ++ map note_of (first_acts self.now.first (told_to told.entry) heard) }) }
        ensures succeeds { OnErr result (desk.old.room ≡ 0) }
        ensures needed { OnErr result (is_some self.now.first ≡ true) }
        ensures told { OnErr result (is_some (told_to told.entry) ≡ true) }
        ensures err_world { OnErr result (world.new ≡ world.old) }
        ensures err_desk { OnErr result (desk.new ≡ desk.old) }
    {
        let Some(slot) = &self.first else {
            return Ok(None);
        };
        match told {
            Hearing::Nothing => Ok(None),
            Hearing::Chunk {
                bytes,
                offset,
                status,
                error,
            } => match slot.chunk(desk, world, bytes, offset, status, error) {
                Ok(heard) => Ok(Some(heard)),
                Err(fault) => Err(fault),
            },
            Hearing::Extents {
                context,
                offset,
                entries,
                error,
            } => match slot.extents(desk, world, context, offset, entries, error) {
                Ok(heard) => Ok(Some(heard)),
                Err(fault) => Err(fault),
            },
        }
    }
}
