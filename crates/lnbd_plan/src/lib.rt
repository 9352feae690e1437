//! The plan of a copy: its slices, window by window, and the pieces of a slice's bytes.
//!
//! A slice is a longest run of positions that are told the same and that no cut parts. The options of a
//! copy, what it did and why it did not end well are named here, for each crate that speaks of them.
//! What is copied, by which connection and when, is not known here.
#![tactic(auto)]

mod cells;
mod detect;
mod fault;
mod grid;
mod laws;
mod options;
mod planning;
mod summary;

pub use cells::Cells;
pub use detect::pieces;
pub use fault::{CopyFault, Rule};
pub use grid::Slice;
pub use laws::{positions_are_planned_once, slices_are_longest, zero_blocks_are_zero};
pub use options::CopyOptions;
pub use planning::Plan;
pub use summary::Summary;
