//! Finite maps with numbers as keys, as the lists of their pairs by rising keys: definitions, laws, and where a key stands.
//!
//! `specs/Keyed` has the definitions. The lemmas of `proofs/KeyedLemmas` say what a look-up gives after each change, at the same
//! key and at another one; those of `proofs/OrderLaws` say that the keys still rise. What the values are is not known here.
#![tactic(auto)]

mod laws;
mod places;

pub use laws::{
    changes_are_found, changes_are_writes, changes_leave_others, first_key_is_the_least,
    keys_are_those_held, keys_still_rise, same_lookups_same_map,
};
pub use places::{place_in, place_of, rank_of};
