//! Which positions of an export are held, as ranges, and lists of extents: joining, cutting, and
//! sums by flags.
//!
//! `Ranges` keeps the longest ranges; its contracts speak of positions, by the words of
//! `specs/Positions`, so that no other crate opens a list of ranges. What a position's being held
//! means, as told zero or told by a chunk, is not known here.
#![tactic(auto)]

mod flag_sums;
mod laws;
mod lists;
mod page;
mod pages;
mod places;
mod ranges;

pub use flag_sums::totals;
pub use laws::{
    added_is_held, cutting_keeps_positions, joining_keeps_positions, same_flags_same_extents,
    same_positions_same_ranges, spans_are_their_positions,
};
pub use lists::{clip, push_joined};
pub use ranges::{AddFault, Ranges};
