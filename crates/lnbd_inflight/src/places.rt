//! Where the rows stand: the slab's keys, and the order of the cookies.
//!
//! A place is a cookie with its key. The order keeps the places of cookies that went until it is tidied: whether
//! one still stands is asked of the slab.

ghost use Rattle.std.specs.Prelude.{◌≡◌, Some, IsSome, nat_eq, drop};
ghost use Rattle.indexmap.specs.IndexMap.{get};
ghost use Rattle.lnbd_keyed.specs.Keyed.{IsRising};
ghost use Rattle.lnbd_inflight.specs.Found.{StandsNowhereElse};
ghost use Rattle.lnbd_inflight.specs.Places.{stands, places_of, waits, first_standing, first_waiting, places_above, IsOrdered};

use indexmap::IndexMap;
use slab::Slab;
use std::collections::VecDeque;

/// What the slab holds of a command.
#[derive(Clone, Copy)]
pub struct Spot {
    pub cookie: u64,
    pub done: bool,
}

/// How many places may be left over in the order, beside one for each that stands.
const SPARE: usize = 32;

/// The key of a cookie, where it is held.
///
/// A key at which it may stand, or any other number, is looked at first: where the slab has the cookie there, the index
/// isn't searched.
pub fn find_key(
    index: &IndexMap<u64, usize>,
    spots: &Slab<Spot>,
    maybe: usize,
    cookie: u64,
) -> Option<usize>
    requires { StandsNowhereElse index.now spots.now }
    ensures { result ≡ get nat_eq index.now cookie }
{
    if is_standing(spots, &(cookie, maybe)) {
        Some(maybe)
    } else {
        index.get(&cookie).copied()
    }
}

/// The key of a cookie that is held, looked for in the same way.
pub fn key_of(index: &IndexMap<u64, usize>, spots: &Slab<Spot>, maybe: usize, cookie: u64) -> usize
    requires nothing_else { StandsNowhereElse index.now spots.now }
    requires held { IsSome (get nat_eq index.now cookie) }
    ensures { get nat_eq index.now cookie ≡ Some result }
{
    match find_key(index, spots, maybe, cookie) {
        Some(key) => key,
        None => unreachable!(),
    }
}

/// Whether the slab has this cookie at this key.
pub fn is_standing(spots: &Slab<Spot>, place: &(u64, usize)) -> bool
    ensures { result ≡ stands spots.now place.now }
{
    match spots.get(place.1) {
        Some(spot) => spot.cookie == place.0,
        None => false,
    }
}

/// Whether the slab has this cookie at this key, not done.
pub fn is_waiting(spots: &Slab<Spot>, place: &(u64, usize)) -> bool
    ensures { result ≡ waits spots.now place.now }
{
    match spots.get(place.1) {
        Some(spot) => spot.cookie == place.0 && !spot.done,
        None => false,
    }
}

/// The first cookie of the order that is held.
pub fn first_held(order: &VecDeque<(u64, usize)>, spots: &Slab<Spot>) -> Option<u64>
    ensures { result ≡ first_standing spots.now order.now.items }
{
    for at in 0..order.len() {
        if is_standing(spots, &order[at]) {
            return Some(order[at].0);
        }
    }
    None
}

/// The first cookie from a place of the order on that is held and not done.
pub fn first_unmarked(
    order: &VecDeque<(u64, usize)>,
    spots: &Slab<Spot>,
    from: usize,
) -> Option<u64>
    ensures { result ≡ first_waiting spots.now (drop from order.now.items) }
{
    for at in from..order.len() {
        if is_waiting(spots, &order[at]) {
            return Some(order[at].0);
        }
    }
    None
}

/// Where the places of greater cookies begin, by binary search.
pub fn place_above(order: &VecDeque<(u64, usize)>, above: u64) -> usize
    requires { IsRising order.now.items }
    ensures { drop result order.now.items ≡ places_above above order.now.items }
{
    order.partition_point(|place| place.0 <= above)
}

/// Drops places that went: those at both ends, and all others where they are more than those that stand.
pub fn tidy(order: &mut VecDeque<(u64, usize)>, spots: &Slab<Spot>)
    requires { IsRising order.old.items }
    ensures same { places_of spots.now order.new.items ≡ places_of spots.now order.old.items }
    ensures ordered { IsOrdered spots.now order.new.items }
{
    if order.len().saturating_sub(SPARE) / 2 > spots.len() {
        gather(order, spots);
    }
    drop_first(order, spots);
    drop_last(order, spots);
}

/// Drops each place that went.
fn gather(order: &mut VecDeque<(u64, usize)>, spots: &Slab<Spot>)
    requires { IsRising order.old.items }
    ensures same { places_of spots.now order.new.items ≡ places_of spots.now order.old.items }
    ensures rising { IsRising order.new.items }
{
    for _ in 0..order.len() {
        if let Some(place) = order.pop_front() {
            if is_standing(spots, &place) {
                order.push_back_reserved(place);
            }
        }
    }
}

/// Drops the places that went before the first that stands.
fn drop_first(order: &mut VecDeque<(u64, usize)>, spots: &Slab<Spot>)
    requires { IsRising order.old.items }
    ensures same { places_of spots.now order.new.items ≡ places_of spots.now order.old.items }
    ensures rising { IsRising order.new.items }
{
    while let Some(place) = order.front() {
        if is_standing(spots, place) {
            return;
        }
        let _gone = order.pop_front();
    }
}

/// Drops the places that went after the last that stands.
fn drop_last(order: &mut VecDeque<(u64, usize)>, spots: &Slab<Spot>)
    requires { IsRising order.old.items }
    ensures same { places_of spots.now order.new.items ≡ places_of spots.now order.old.items }
    ensures ordered { IsOrdered spots.now order.new.items }
{
    while let Some(place) = order.back() {
        if is_standing(spots, place) {
            return;
        }
        let _gone = order.pop_back();
    }
}
