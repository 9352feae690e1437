//! Commands that are issued by rising cookies, answered in some order, and each retired as it is answered. The words, any
//! number of times: how many rounds, how many commands in each, and the order of the answers. Tells the sum of the rows that
//! were taken out.

ghost use Rattle.std.specs.Prelude.{◌<◌, ◌^◌};
ghost use Rattle.lnbd_keyed.specs.Keyed.{IsBelow};

use crate::order::Order;
use crate::played::Played;
use anyhow::Result;
use lnbd_inflight::Table;
use std::alloc::Global;

/// A command's row.
#[derive(Drop)]
struct Row {
    offset: u64,
    length: u64,
    answered: bool,
}

/// Issues so many commands, with the cookies from this one on. False for want of memory.
fn issue(table: &mut Table<Row>, first: u64, count: u32) -> bool
    requires below { IsBelow table.old.rows first }
    requires end { first < 2 ^ 43 }
{
    for number in 0..count {
        let row = Row {
            offset: number as u64 * 512,
            length: 512,
            answered: false,
        };
        let Ok(()) = table.insert(first + number as u64, row) else {
            return false;
        };
    }
    true
}

/// Answers a command, and retires it. What its row tells, where it was held.
fn retire(table: &mut Table<Row>, cookie: u64) -> u64 {
    if let Some(row) = table.get_mut(cookie) {
        row.answered = true;
    }
    match table.remove(cookie) {
        Some(row) if row.answered => row.offset.wrapping_add(row.length),
        _ => 0,
    }
}

/// One round.
fn round(table: &mut Table<Row>, first: u64, count: u32, order: Order) -> u64
    requires below { IsBelow table.old.rows first }
    requires end { first < 2 ^ 43 }
{
    if !issue(table, first, count) {
        return 0;
    }
    let mut sum = 0u64;
    for done in 0..count {
        sum = sum.wrapping_add(retire(table, first + order.number_at(done, count)));
    }
    sum
}

/// So many rounds. The cookies of each begin 1,024 after those of the last, as if that many were issued.
fn rounds(alloc: Global, times: u32, count: u32, order: Order) -> u64 {
    let mut table = Table::new(alloc);
    let mut sum = 0u64;
    for done in 0..times {
        if table.count() == 0 {
            let got = round(&mut table, done as u64 * 1024 + 1, count, order);
            sum = sum.wrapping_add(got);
        }
    }
    while let Some(_row) = table.take_first() {}
    table.finish();
    sum
}

pub fn play(played: &mut Played) -> Result<()> {
    for _ in 0..played.left() / 3 {
        let times = played.number()?;
        let count = played.number()?;
        let order = Order::taken_from(played)?;
        let sum = rounds(played.alloc(), times, count, order);
        played.tell(sum)?;
    }
    Ok(())
}
