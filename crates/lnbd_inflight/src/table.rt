//! Rows by cookie, and which of them are done.

ghost use Rattle.std.specs.Prelude.{◌≡◌, ◌<◌, ◌↔◌, [], ◌∷◌, ◌++◌, false, length, slice_get, IsSome, IsNone, IfSome, IfNone, IfErr, OnOk, OnErr, OnSome};
ghost use Rattle.std.specs.Option.{option_copied, option_copied_mut};
ghost use Rattle.std.specs.Borrow.{sem};
ghost use Rattle.slab.specs.Slab.{slab_len};
ghost use Rattle.lnbd_keyed.specs.Keyed.{value_at, holds_key, first_key, without, IsBelow};
ghost use Rattle.lnbd_inflight.specs.Done.{is_done, forgetting};
ghost use Rattle.lnbd_inflight.specs.Found.{HasCookies, HasDistinctValues, HasHeldOnly, HasEachHeld, StandsAtValues, StandsNowhereElse};

use crate::marks::{Mark, forget};
use crate::places::{Spot, find_key, first_held, first_unmarked, key_of, place_above, tidy};
use crate::rows::{Held, end, grow, put, stamp_at, take};
use indexmap::IndexMap;
use slab::Slab;
use std::alloc::Global;
use std::collections::VecDeque;
use std::marker::Model;

/// Rows by cookie, and the order in which they were done. A row needn't be droppable: a table ends by `finish`.
pub struct Table<R> {
    // What is held, at keys that the slab picks.
    spots: Slab<Spot>,
    // The key of each cookie that is held.
    index: IndexMap<u64, usize>,
    // The row at each key.
    rows: Vec<Option<Held<R>>>,
    // The cookies with their keys, by rising cookie; places that went may be left in it.
    order: VecDeque<(u64, usize)>,
    done: VecDeque<Mark>,
    next_stamp: u64,
    // The key that `find` found last. It is only where a cookie is looked for first, so it may be any number: each use
    // asks the slab whether the cookie stands there. A reply's row is found, lent, marked and read again, and so it is
    // with each further chunk: the index is searched once for all of these.
    recent: usize,
}

impl<R> Model for Table<R> {
    ghost use Rattle.lnbd_inflight.specs.Table.{Table as Seen};
    ghost use Rattle.lnbd_inflight.specs.Inside.{view_of, IsTable};

    ghost Value = { Seen R };

    ghost view = { view_of };

    ghost invariant = { IsTable };
}

impl<R> Table<R> {
    ghost use Rattle.lnbd_inflight.specs.Table.{first_undone, next_undone, undone, IsSound};
    ghost use Rattle.lnbd_inflight.specs.Lends.{lends_get, lends_row};

    /// A table with no row.
    pub fn new(alloc: Global) -> Self
        ensures rows { result.rows ≡ [] }
        ensures done { result.done ≡ [] }
    {
        Table {
            spots: Slab::new(alloc),
            index: IndexMap::new(alloc),
            rows: Vec::new(alloc),
            order: VecDeque::new(alloc),
            done: VecDeque::new(alloc),
            next_stamp: 0,
            recent: 0,
        }
    }

    /// Adds a row above the others, not done. Want of memory hands it back.
    pub fn insert(&mut self, cookie: u64, row: R) -> Result<(), R>
        requires { IsBelow self.old.rows cookie }
        ensures rows { OnOk result (self.new.rows ≡ self.old.rows ++ (cookie, row) ∷ []) }
        ensures done { OnOk result (self.new.done ≡ self.old.done) }
        ensures handed_back { IfErr result (λ back. back ≡ row) }
        ensures unchanged { OnErr result (self.new ≡ self.old) }
    {
        let Ok(key) = grow(
            &mut self.spots,
            &mut self.rows,
            &mut self.order,
            &mut self.done,
        ) else {
            return Err(row);
        };
        // The index grows last: what is refused here has changed nothing.
        if self.index.insert(cookie, key).is_err() {
            return Err(row);
        }
        let _key = self.spots.insert_reserved(Spot {
            cookie,
            done: false,
        });
        self.order.push_back_reserved((cookie, key));
        put(&mut self.rows, key, row);
        Ok(())
    }

    /// The row of a cookie, where it is held.
    pub fn get(&self, cookie: u64) -> Option<&R>
        ensures { option_copied result ≡ value_at cookie self.now.rows }
    {
        let key = find_key(&self.index, &self.spots, self.recent, cookie)?;
        match &self.rows[key] {
            Some(held) => Some(&held.row),
            None => None,
        }
    }

    /// The row of a cookie for writing, where it is held.
    pub fn get_mut(&mut self, cookie: u64) -> Option<&mut R>
        ensures* writes_back { sem 𝓛 (lends_get R.row self.entry cookie result) }
        ensures value { option_copied_mut result ≡ value_at cookie self.old.rows }
    {
        if self.find(cookie) {
            Some(self.row_mut(cookie))
        } else {
            None
        }
    }

    /// Whether a cookie is held. What is asked of it next, and of no other one between, searches the index no more.
    pub fn find(&mut self, cookie: u64) -> bool
        ensures held { result ≡ holds_key cookie self.old.rows }
        ensures unchanged { self.new ≡ self.old }
    {
        match find_key(&self.index, &self.spots, self.recent, cookie) {
            Some(key) => {
                self.recent = key;
                true
            }
            None => false,
        }
    }

    /// The row of a cookie that is held.
    fn row_mut(&mut self, cookie: u64) -> &mut R
        requires { IsSome (value_at cookie self.old.rows) }
        ensures* writes_back { sem 𝓛 (lends_row R.row self.entry cookie result) }
        ensures value { value_at cookie self.old.rows ≡ Some result.now }
    {
        let key = key_of(&self.index, &self.spots, self.recent, cookie);
        let slot = &mut self.rows[key];
        let held = slot.as_mut().unwrap();
        &mut held.row
    }

    /// Takes out the row of a cookie, and its mark, where it is held.
    pub fn remove(&mut self, cookie: u64) -> Option<R>
        ensures value { result ≡ value_at cookie self.old.rows }
        ensures rows { OnSome result (self.new.rows ≡ without cookie self.old.rows) }
        ensures done { OnSome result (self.new.done ≡ forgetting cookie self.old.done) }
        ensures unchanged { IfNone result (self.new ≡ self.old) }
    {
        let key = self.index.swap_remove(&cookie)?;
        let spot = self.spots.remove(key);
        let Held { stamp, row } = take(&mut self.rows, key);
        forget(&mut self.done, cookie, spot.done, stamp);
        tidy(&mut self.order, &self.spots);
        Some(row)
    }

    /// Marks a row as done, after those that are.
    pub fn mark_done(&mut self, cookie: u64)
        requires held { IsSome (value_at cookie self.old.rows) }
        requires undone { is_done cookie self.old.done ≡ false }
        ensures rows { self.new.rows ≡ self.old.rows }
        ensures done { self.new.done ≡ self.old.done ++ cookie ∷ [] }
    {
        let key = key_of(&self.index, &self.spots, self.recent, cookie);
        let stamp = self.next_stamp;
        self.next_stamp = stamp.saturating_add(1);
        self.spots[key].done = true;
        stamp_at(&mut self.rows, key, stamp);
        self.done.push_back_reserved(Mark { cookie, stamp });
    }

    /// The held cookie that was marked done first.
    pub fn first_done(&self) -> Option<u64>
        ensures first { result ≡ slice_get self.now.done 0 }
        ensures held { IfSome result (λ cookie. IsSome (value_at cookie self.now.rows)) }
    {
        match self.done.front() {
            Some(mark) => Some(mark.cookie),
            None => None,
        }
    }

    /// The least cookie that is held and not done.
    pub fn first_undone(&self) -> Option<u64>
        ensures first { result ≡ first_undone self.now }
        ensures held { IfSome result (λ cookie. IsSome (value_at cookie self.now.rows)) }
        ensures undone { IfSome result (λ cookie. is_done cookie self.now.done ≡ false) }
    {
        first_unmarked(&self.order, &self.spots, 0)
    }

    /// The least cookie above this one that is held and not done.
    ///
    /// It is looked for from its place on, which a binary search finds. So a walk over all that is not done, each call
    /// above what the one before told, meets each place once.
    pub fn next_undone(&self, above: u64) -> Option<u64>
        ensures first { result ≡ next_undone above self.now }
        ensures above { IfSome result (λ cookie. above < cookie) }
        ensures held { IfSome result (λ cookie. IsSome (value_at cookie self.now.rows)) }
        ensures undone { IfSome result (λ cookie. is_done cookie self.now.done ≡ false) }
    {
        let from = place_above(&self.order, above);
        first_unmarked(&self.order, &self.spots, from)
    }

    /// Takes out the row of the least cookie, and its mark.
    pub fn take_first(&mut self) -> Option<(u64, R)>
        ensures rows { IfSome result (λ row. self.old.rows ≡ row ∷ self.new.rows) }
        ensures done { IfSome result (λ row. self.new.done ≡ forgetting row.0 self.old.done) }
        ensures none { IsNone result ↔ (self.old.rows ≡ []) }
        ensures unchanged { IfNone result (self.new ≡ self.old) }
    {
        let cookie = self.first()?;
        match self.remove(cookie) {
            Some(row) => Some((cookie, row)),
            None => unreachable!(),
        }
    }

    /// The least cookie that is held.
    fn first(&self) -> Option<u64>
        ensures { result ≡ first_key self.now.rows }
    {
        first_held(&self.order, &self.spots)
    }

    /// How many rows are held.
    pub fn count(&self) -> usize
        ensures count { result ≡ length self.now.rows }
        ensures sound { IsSound self.now }
    {
        self.spots.len()
    }

    /// How many of the rows are not done.
    pub fn undone(&self) -> usize
        ensures { result ≡ undone self.now }
    {
        self.spots.len() - self.done.len()
    }

    /// The key of each cookie that is held, in no order.
    pub fn index(&self) -> &IndexMap<u64, usize>
        ensures cookies { HasCookies result.now self.now }
        ensures distinct { HasDistinctValues result.now }
    {
        self.parts().0
    }

    /// What the slab holds at the keys: each cookie that is held, and whether it is done.
    pub fn spots(&self) -> &Slab<Spot>
        ensures held_only { HasHeldOnly result.now self.now }
        ensures each_held { HasEachHeld result.now self.now }
        ensures count { slab_len result.now ≡ length self.now.rows }
    {
        self.parts().1
    }

    /// Index and slab as they belong together.
    pub fn parts(&self) -> (&IndexMap<u64, usize>, &Slab<Spot>)
        ensures cookies { HasCookies result.0.now self.now }
        ensures values { StandsAtValues result.0.now result.1.now self.now }
        ensures nothing_else { StandsNowhereElse result.0.now result.1.now }
        ensures count { slab_len result.1.now ≡ length self.now.rows }
    {
        (&self.index, &self.spots)
    }

    /// Ends a table that holds no row.
    pub fn finish(self)
        requires { self.rows ≡ [] }
    {
        let Table {
            spots: _,
            index: _,
            rows,
            order: _,
            done: _,
            next_stamp: _,
            recent: _,
        } = self;
        end(rows);
    }
}
