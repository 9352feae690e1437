//! The rows, each at its key in the slab.

ghost use Rattle.std.specs.Prelude.{◌≡◌, ◌<◌, ◌≤◌, ◌+◌, Some, None, IsSome, IfOk, OnOk, vec_len, vec_capacity};
ghost use Rattle.std.specs.VecDeque.{deque_len, deque_capacity};
ghost use Rattle.slab.specs.Slab.{get, slab_len, HasRoomFor};
ghost use Rattle.lnbd_inflight.specs.Rows.{slot, IsEmptied, SameSlots, SameRows, ChangesSlot};

use crate::marks::Mark;
use crate::places::Spot;
use slab::Slab;
use std::alloc::AllocError;
use std::collections::VecDeque;

/// A row, with the stamp of its done mark where it is done. The stamp only says where to look for the mark.
pub struct Held<R> {
    pub stamp: u64,
    pub row: R,
}

/// Takes all memory for one row more but that of the index, and answers the row's key: a slot, a place in the order,
/// and a mark, so that a mark takes no memory later.
pub fn grow<R>(
    spots: &mut Slab<Spot>,
    rows: &mut Vec<Option<Held<R>>>,
    order: &mut VecDeque<(u64, usize)>,
    done: &mut VecDeque<Mark>,
) -> Result<usize, AllocError>
    ensures key { IfOk result (λ key. key ≡ spots.new.vacant_key) }
    ensures vacant { IfOk result (λ key. get spots.old key ≡ None) }
    ensures room { OnOk result (HasRoomFor spots.new 1) }
    ensures within { IfOk result (λ key. key < vec_len rows.new) }
    ensures order_room { OnOk result (deque_len order.new < deque_capacity order.new) }
    ensures done_room { OnOk result (slab_len spots.new + 1 ≤ deque_capacity done.new) }
    ensures spots { spots.new ≡ record spots.old { capacity = spots.new.capacity } }
    ensures rows { SameSlots rows.old.items rows.new.items }
    ensures order { order.new.items ≡ order.old.items }
    ensures done { done.new.items ≡ done.old.items }
    ensures done_capacity { deque_capacity done.old ≤ deque_capacity done.new }
{
    let key = make_room(spots, rows)?;
    order.reserve(1)?;
    let more = spots.capacity().saturating_sub(done.len());
    done.reserve(more)?;
    Ok(key)
}

/// Makes room for one row more, and answers its key.
fn make_room<R>(
    spots: &mut Slab<Spot>,
    rows: &mut Vec<Option<Held<R>>>,
) -> Result<usize, AllocError>
    ensures key { IfOk result (λ key. key ≡ spots.new.vacant_key) }
    ensures vacant { IfOk result (λ key. get spots.old key ≡ None) }
    ensures room { OnOk result (HasRoomFor spots.new 1) }
    ensures within { IfOk result (λ key. key < vec_len rows.new) }
    ensures spots { spots.new ≡ record spots.old { capacity = spots.new.capacity } }
    ensures rows { SameSlots rows.old.items rows.new.items }
{
    spots.reserve(1)?;
    let key = spots.vacant_key();
    if key >= rows.len() {
        rows.reserve(key - rows.len())?;
        fill(rows, key);
        rows.reserve(1)?;
        rows.push_reserved(None);
    }
    Ok(key)
}

/// Adds empty slots up to a key.
fn fill<R>(rows: &mut Vec<Option<Held<R>>>, key: usize)
    requires { key ≤ vec_capacity rows.old }
    ensures within { key ≤ vec_len rows.new }
    ensures rows { SameSlots rows.old.items rows.new.items }
{
    while rows.len() < key {
        rows.push_reserved(None);
    }
}

/// Puts a row at a key where nothing stands.
pub fn put<R>(rows: &mut Vec<Option<Held<R>>>, key: usize, row: R)
    requires within { key < vec_len rows.old }
    requires empty { slot rows.old.items key ≡ None }
    ensures { ChangesSlot rows.old.items rows.new.items key (Some (record { stamp = 0; row = row })) }
{
    let old = rows[key].replace(Held { stamp: 0, row });
    let None = old else { unreachable!() };
}

/// Takes out the row at a key where one stands.
pub fn take<R>(rows: &mut Vec<Option<Held<R>>>, key: usize) -> Held<R>
    requires { IsSome (slot rows.old.items key) }
    ensures value { slot rows.old.items key ≡ Some result }
    ensures rows { ChangesSlot rows.old.items rows.new.items key None }
{
    match rows[key].take() {
        Some(held) => held,
        None => unreachable!(),
    }
}

/// Writes the stamp of the row at a key where one stands.
pub fn stamp_at<R>(rows: &mut Vec<Option<Held<R>>>, key: usize, stamp: u64)
    requires { IsSome (slot rows.old.items key) }
    ensures { SameRows rows.old.items rows.new.items }
{
    if let Some(held) = rows[key].as_mut() {
        held.stamp = stamp;
    }
}

/// Ends rows of which none is left.
pub fn end<R>(mut rows: Vec<Option<Held<R>>>)
    requires { IsEmptied rows.items }
{
    while let Some(row) = rows.pop() {
        let None = row else { unreachable!() };
    }
    rows.destroy_empty();
}
