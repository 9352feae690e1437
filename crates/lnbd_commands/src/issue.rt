//! Commands that are issued, and commands that are refused.

ghost use Rattle.std.specs.Prelude.{◌≡◌, true, None, IsSome, IfOk, IfErr, OnOk, OnErr, vec_len};
ghost use Rattle.lnbd_keyed.specs.Keyed.{value_at, with_value};
ghost use Rattle.lnbd_history.specs.Commands.{callbacks, flight_of, is_read};
ghost use Rattle.lnbd_machine.specs.Machine.{refused};
ghost use Rattle.lnbd_commands.specs.Asks.{command_of};
ghost use Rattle.lnbd_commands.specs.Commands.{issuing};
ghost use Rattle.lnbd_commands.specs.Rows.{flight_of_row};
ghost use Rattle.lnbd_commands.specs.Sound.{IsSound};
ghost use Rattle.lnbd_commands.specs.Takes.{Takes};

use crate::commands::Commands;
use crate::flight::{admit, free};
use crate::row::{Asked, Row};
use crate::rows::drop_in;
use lnbd_callbacks::Caller;
use lnbd_inflight::Table;
use lnbd_model::Kind;
use std::mem::replace;

/// No buffer has as many bytes, 2^63.
const MOST_BYTES: u64 = 9_223_372_036_854_775_808;

/// Puts a row where another one holds its place, which is not in flight.
fn put_in<K>(table: &mut Table<Row<K>>, cookie: u64, row: Row<K>)
    requires held { IsSome (value_at cookie table.old.rows) }
    requires empty { flight_of_row (value_at cookie table.old.rows) ≡ None }
    ensures { table.new ≡ record table.old { rows = with_value cookie row table.old.rows } }
{
    if let Some(place) = table.get_mut(cookie) {
        replace(place, row).let_go();
    } else {
        unreachable!()
    }
}

impl<K: Caller> Commands<K> {
    /// Issues a command, and tells its cookie: the next number, from 1. For want of memory, or at the end of
    /// the numbers, all is handed back and nothing has changed.
    pub fn issue(&mut self, asked: Asked<K>) -> Result<u64, Asked<K>>
        requires { is_read asked.kind ≡ true → vec_len asked.buf ≡ asked.length }
        ensures cookie { IfOk result (λ cookie. cookie ≡ self.new.issued) }
        ensures ok { OnOk result (self.new ≡ issuing (command_of asked) self.old) }

        // What holds of the commands of every handle.
        ensures sound { IsSound self.old }

        // What was handed over comes back, and nothing has changed.
        ensures handed_back { IfErr result (λ back. back ≡ asked) }
        ensures err { OnErr result (self.new ≡ self.old) }
    {
        let Some(cookie) = self.issued.checked_add(1) else {
            return Err(asked);
        };
        if asked.length >= MOST_BYTES && matches!(asked.kind, Kind::Read) {
            return Err(asked);
        }
        let _held = self.table.count();
        // The row's place is taken first: what comes after the callbacks are admitted takes no memory.
        let place = Row::new(self.alloc, Kind::Flush, 0, 0, 0, Vec::new(self.alloc));
        if let Err(place) = self.table.insert(cookie, place) {
            place.let_go();
            return Err(asked);
        }
        let Asked {
            kind,
            flags,
            offset,
            length,
            buf,
            first,
            done,
        } = asked;
        match admit(&mut self.desk, first, done) {
            Ok(flight) => {
                let mut row = Row::new(self.alloc, kind, flags, offset, length, buf);
                row.fly(flight);
                put_in(&mut self.table, cookie, row);
                self.issued = cookie;
                Ok(cookie)
            }
            Err((first, done)) => {
                drop_in(&mut self.table, cookie);
                Err(Asked {
                    kind,
                    flags,
                    offset,
                    length,
                    buf,
                    first,
                    done,
                })
            }
        }
    }

    /// Refuses a command: its callbacks are admitted and freed, the chunk or extents callback first. For want of
    /// memory, or at the end of the desk's numbers, both are handed back and nothing has changed.
    pub fn refuse(
        &mut self,
        world: &mut K::World,
        first: Option<K>,
        done: K,
    ) -> Result<(), (Option<K>, K)>
        ensures ok { OnOk result (Takes K.steps (refused (flight_of self.old.log.admitted first done) (callbacks first)) self.old self.new world.old world.new) }

        // What was handed over comes back, and nothing has changed.
        ensures handed_back { IfErr result (λ back. back ≡ (first, done)) }
        ensures err { OnErr result (self.new ≡ self.old) }
        ensures err_world { OnErr result (world.new ≡ world.old) }
    {
        let flight = match admit(&mut self.desk, first, done) {
            Ok(flight) => flight,
            Err(back) => return Err(back),
        };
        let _admitted = self.desk.admitted();
        self.freed += flight.count();
        free(flight, &mut self.desk, world);
        Ok(())
    }
}
