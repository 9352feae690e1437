//! What a reply and a loss do to the row of their command in the table, and to its callbacks: what came is told, the command lands, and it
//! completes. Each looks its row up once, and once more where it marks it as done or takes it out. What holds of all commands is not said here.

ghost use Rattle.std.specs.Prelude.{◌≡◌, length, true, false, None, Some, IsSome, IfSome, IfOk, IfErr, OnErr};
ghost use Rattle.lnbd_keyed.specs.Keyed.{value_at, without};
ghost use Rattle.lnbd_inflight.specs.Done.{is_done, forgetting};
ghost use Rattle.lnbd_commands.specs.Completes.{EndsByChunk, EndsByLoss, EndsByReply, IsTold, settled};
ghost use Rattle.lnbd_commands.specs.Contents.{IsSpare, IsSpareOf, bytes_in, told_of};
ghost use Rattle.lnbd_commands.specs.Flights.{has_first};
ghost use Rattle.lnbd_commands.specs.Lands.{AnswerableAt, IsLiveRow, LosableAt, TellableAt};
ghost use Rattle.lnbd_commands.specs.Rows.{flight_of_row, is_read_row};

use crate::content::{Brought, Content};
use crate::row::Row;
use lnbd_callbacks::{Caller, Desk};
use lnbd_inflight::Table;
use lnbd_model::Contexts;
use std::alloc::Global;

/// Ends the command of a cookie by a simple reply. Answers how many callbacks were freed, and beside a buffer that is not needed any more.
pub(crate) fn end_by_reply<'a, K: Caller>(
    table: &mut Table<Row<K>>,
    alloc: Global,
    desk: &mut Desk,
    world: &mut K::World,
    cookie: u64,
    error: u32,
    content: Content<'a>,
) -> Result<(u64, Vec<u8>), Content<'a>>
    requires answerable { AnswerableAt (value_at cookie table.old.rows) error (bytes_in content) desk.old.log }
    requires undone { is_done cookie table.old.done ≡ false }
    ensures ends { IfOk result (λ end. IfSome (value_at cookie table.old.rows) (λ row. EndsByReply K.steps cookie row error (bytes_in content.entry) end.0 table.old table.new desk.old.log desk.new.log world.old world.new)) }
    ensures spare { IfOk result (λ end. IsSpare (Some content.entry) (length end.1.items)) }
    ensures needed { OnErr result (has_first (flight_of_row (value_at cookie table.old.rows)) ≡ true) }
    ensures read { OnErr result (is_read_row (value_at cookie table.old.rows) ≡ true) }
    ensures handed_back { IfErr result (λ back. back ≡ content.entry) }
    ensures err_table { OnErr result (table.new ≡ table.old) }
    ensures err_desk { OnErr result (desk.new ≡ desk.old) }
    ensures err_world { OnErr result (world.new ≡ world.old) }
{
    if let Some(row) = table.get_mut(cookie) {
        match row.land_reply(alloc, desk, world, error, content) {
            Ok((landed, spare)) => {
                let freed = landed.count();
                let kept = row.complete(desk, world, landed);
                settle(table, cookie, kept);
                Ok((freed, spare))
            }
            Err(content) => Err(content),
        }
    } else {
        unreachable!()
    }
}

/// Tells what a chunk brings to the command of a cookie, and after the last one ends the command. Answers how many callbacks were freed, and
/// beside a buffer that is not needed any more.
pub(crate) fn take_chunk<'a, K: Caller>(
    table: &mut Table<Row<K>>,
    alloc: Global,
    desk: &mut Desk,
    world: &mut K::World,
    cookie: u64,
    brought: Brought<'a>,
    last: bool,
    contexts: &Contexts,
) -> Result<(u64, Vec<u8>), Brought<'a>>
    requires tellable { TellableAt (value_at cookie table.old.rows) (told_of brought) desk.old.log }
    requires undone { is_done cookie table.old.done ≡ false }
    ensures told { last ≡ false → IfOk result (λ end. IfSome (value_at cookie table.old.rows) (λ row. IsTold K.steps cookie contexts.now (told_of brought.entry) row end.0 table.old table.new desk.old.log desk.new.log world.old world.new)) }
    ensures ends { last ≡ true → IfOk result (λ end. IfSome (value_at cookie table.old.rows) (λ row. EndsByChunk K.steps cookie contexts.now (told_of brought.entry) row end.0 table.old table.new desk.old.log desk.new.log world.old world.new)) }
    ensures spare { IfOk result (λ end. IsSpareOf brought.entry (length end.1.items)) }
    ensures handed_back { IfErr result (λ back. back ≡ brought.entry) }
    ensures err_table { OnErr result (table.new ≡ table.old) }
    ensures err_log { OnErr result (desk.new.log ≡ desk.old.log) }
    ensures err_world { OnErr result (world.new ≡ world.old) }
{
    if let Some(row) = table.get_mut(cookie) {
        match row.tell(alloc, desk, world, brought, contexts) {
            Ok((heard, spare)) => {
                if !last {
                    return Ok((0, spare));
                }
                let landed = row.land_last(alloc, heard, contexts);
                let freed = landed.count();
                let kept = row.complete(desk, world, landed);
                settle(table, cookie, kept);
                Ok((freed, spare))
            }
            Err(brought) => Err(brought),
        }
    } else {
        unreachable!()
    }
}

/// Ends the command of a cookie because the connection died. Answers how many callbacks were freed.
pub(crate) fn end_by_loss<K: Caller>(
    table: &mut Table<Row<K>>,
    alloc: Global,
    desk: &mut Desk,
    world: &mut K::World,
    cookie: u64,
) -> u64
    requires losable { LosableAt (value_at cookie table.old.rows) }
    requires live { IsLiveRow (flight_of_row (value_at cookie table.old.rows)) desk.old.log }
    requires undone { is_done cookie table.old.done ≡ false }
    ensures { IfSome (value_at cookie table.old.rows) (λ row. EndsByLoss K.steps cookie row result table.old table.new desk.old.log desk.new.log world.old world.new) }
{
    if let Some(row) = table.get_mut(cookie) {
        let landed = row.land_lost(alloc);
        let freed = landed.count();
        let kept = row.complete(desk, world, landed);
        settle(table, cookie, kept);
        freed
    } else {
        unreachable!()
    }
}

/// Marks the row of a command that completed as done, where something of it is kept, or takes it out.
fn settle<K>(table: &mut Table<Row<K>>, cookie: u64, kept: bool)
    requires held { IsSome (value_at cookie table.old.rows) }
    requires empty { flight_of_row (value_at cookie table.old.rows) ≡ None }
    requires undone { is_done cookie table.old.done ≡ false }
    ensures { table.new ≡ settled kept cookie table.old }
{
    if kept {
        table.mark_done(cookie);
    } else {
        drop_in(table, cookie);
    }
}

/// Takes out the row of a cookie, which is not in flight.
pub(crate) fn drop_in<K>(table: &mut Table<Row<K>>, cookie: u64)
    requires held { IsSome (value_at cookie table.old.rows) }
    requires empty { flight_of_row (value_at cookie table.old.rows) ≡ None }
    ensures { table.new ≡ record { rows = without cookie table.old.rows; done = forgetting cookie table.old.done } }
{
    if let Some(row) = table.remove(cookie) {
        row.let_go();
    } else {
        unreachable!()
    }
}
