//! The end of all commands of a handle.

ghost use Rattle.std.specs.Prelude.{◌≡◌};
ghost use Rattle.lnbd_keyed.specs.Keyed.{keys};
ghost use Rattle.lnbd_history.specs.Entries.{Dropped};
ghost use Rattle.lnbd_machine.specs.Machine.{file_all};
ghost use Rattle.lnbd_commands.specs.Closes.{row_count, row_free_calls, row_freed};
ghost use Rattle.lnbd_commands.specs.Commands.{Commands as Seen};
ghost use Rattle.lnbd_commands.specs.Lands.{IsLiveRow};
ghost use Rattle.lnbd_commands.specs.Takes.{Takes};

use crate::commands::Commands;
use crate::flight::free;
use crate::row::Row;
use lnbd_callbacks::{Caller, Desk};
use lnbd_model::Notes;

/// What is left of the commands of a closed handle.
#[derive(Debug, Drop)]
pub struct Closed {
    /// The notes since the log was last cleared.
    pub notes: Notes,
    /// How many callbacks were admitted.
    pub opened: u64,
    /// How many were freed: all of them.
    pub freed: u64,
}

/// Ends a row, and frees its callbacks where it is in flight. It tells how many there were.
fn end_row<K: Caller>(row: Row<K>, desk: &mut Desk, world: &mut K::World) -> u64
    requires { IsLiveRow row.flight desk.old.log }
    ensures count { result ≡ row_count row.flight }
    ensures world { K.steps world.old (row_free_calls row.flight) world.new }
    ensures desk { desk.new ≡ record desk.old { log = row_freed row.flight desk.old.log } }
{
    match row.into_flight() {
        None => 0,
        Some(flight) => {
            let count = flight.count();
            free(flight, desk, world);
            count
        }
    }
}

impl<K: Caller> Commands<K> {
    /// Frees the callbacks of each command in flight, in order of cookies, completes none, and ends all
    /// rows. It takes no memory.
    pub fn close(self, world: &mut K::World) -> Closed
        ensures takes { (new : Seen K) × (Takes K.steps (file_all Dropped (keys self.rows)) self new world.old world.new)
            × (result.notes ≡ new.log.notes) × (result.opened ≡ new.log.admitted) × (result.freed ≡ new.freed) }
        ensures equal { result.opened ≡ result.freed }
    {
        let Commands {
            alloc: _,
            table,
            desk,
            issued: _,
            freed,
        } = self;
        let mut table = table;
        let mut desk = desk;
        let mut freed = freed;
        let opened = desk.admitted();
        while let Some((_cookie, row)) = table.take_first() {
            freed += end_row(row, &mut desk, world);
        }
        table.finish();
        Closed {
            notes: Notes::from_vec(desk.into_notes()),
            opened,
            freed,
        }
    }
}
