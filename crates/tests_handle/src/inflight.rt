//! Each call of the table at rows that aren't droppable, which are added, marked and taken out in other orders.

ghost use Rattle.std.specs.Prelude.{◌≡◌, ◌++◌, ◌∷◌, []};
ghost use Rattle.lnbd_keyed.specs.Keyed.{IsBelow};

use lnbd_inflight::Table;
use std::alloc::Global;
use std::process::Abort;

/// A row that has to be spent.
struct Row {
    number: u32,
}

/// The number of a row, which is spent. 0 where there is none.
fn spent(row: Option<Row>) -> u32 {
    match row {
        Some(Row { number }) => number,
        None => 0,
    }
}

/// Adds a row. Where no memory is found it comes back, and the test ends.
fn add(rt: &impl Abort, table: &mut Table<Row>, cookie: u64, number: u32)
    requires { IsBelow table.old.rows cookie }
    ensures rows { table.new.rows ≡ table.old.rows ++ (cookie, record { number = number }) ∷ [] }
    ensures done { table.new.done ≡ table.old.done }
{
    if let Err(row) = table.insert(cookie, Row { number }) {
        spent(Some(row));
        panic!(rt; "no memory");
    }
}

/// What index and slab together tell of a cookie: whether it is held, and whether it is done.
fn told(table: &Table<Row>, cookie: u64) -> (bool, bool) {
    let (index, spots) = table.parts();
    match index.get(&cookie) {
        Some(key) => match spots.get(*key) {
            Some(spot) => (spot.cookie == cookie, spot.done),
            None => (false, true),
        },
        None => (false, false),
    }
}

/// Writes a number over that of a row, and tells whether there was one.
fn rewrite(table: &mut Table<Row>, cookie: u64, number: u32) -> bool {
    match table.get_mut(cookie) {
        Some(row) => {
            row.number = number;
            true
        }
        None => false,
    }
}

/// Takes all rows out, the least cookie first. Their numbers, as digits of a number to the base 100.
fn end(mut table: Table<Row>) -> u64 {
    let mut numbers = 0u64;
    while let Some((_cookie, row)) = table.take_first() {
        numbers = numbers
            .wrapping_mul(100)
            .wrapping_add(u64::from(spent(Some(row))));
    }
    table.finish();
    numbers
}

/// Whether a row comes in the place of one that went: its key is free, and was the one that was found last.
fn comes_in_its_place(rt: &impl Abort, alloc: Global) -> bool {
    let mut table = Table::new(alloc);
    add(rt, &mut table, 1, 10);
    add(rt, &mut table, 1 << 40, 40);
    let removed = spent(table.remove(1));
    add(rt, &mut table, u64::MAX, 90);
    let gone = !rewrite(&mut table, 1, 23);
    let next = table.next_undone(1 << 40);
    let left = end(table);
    removed == 10 && gone && next == Some(u64::MAX) && left == 4_090
}

#[test]
fn rows_come_and_go_by_their_cookies(rt: HostRuntime) {
    let mut table = Table::new(rt.alloc());
    add(&rt, &mut table, 1, 10);
    add(&rt, &mut table, 2, 20);
    add(&rt, &mut table, 5, 50);
    add(&rt, &mut table, 1 << 40, 40);
    table.mark_done(5);
    table.mark_done(1);
    let marked = (
        told(&table, 5) == (true, true),
        told(&table, 2) == (true, false),
        told(&table, 3) == (false, false),
    );
    let first = (table.first_done(), table.first_undone());
    let walk = [
        table.next_undone(0),
        table.next_undone(2),
        table.next_undone(1 << 40),
    ];
    let counts = [
        table.count(),
        table.undone(),
        table.index().len(),
        table.spots().len(),
    ];
    let written = rewrite(&mut table, 2, 21) && rewrite(&mut table, 2, 22);
    let found = match table.get(2) {
        Some(row) => row.number,
        None => 0,
    };
    let removed = [
        spent(table.remove(2)),
        spent(table.remove(2)),
        spent(table.remove(5)),
    ];
    let gone = !rewrite(&mut table, 2, 23);
    let last = (table.first_done(), table.next_undone(1));
    let left = end(table);
    let comes = comes_in_its_place(&rt, rt.alloc());

    assert!(rt; marked.0 && marked.1 && marked.2 && written && gone);
    assert!(rt; first == (Some(5), Some(2)) && last == (Some(1), Some(1 << 40)));
    assert!(rt; walk == [Some(2), Some(1 << 40), None] && counts == [4, 2, 4, 4]);
    assert!(rt; comes);
    assert!(rt; found == 22 && removed == [22, 0, 50] && left == 1_040);
}
