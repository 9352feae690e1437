//! The commands of one handle that are not retired: a row for each, by its cookie, and the order in which they
//! were done.
//!
//! What a row holds is the caller's. Nothing here knows of commands, replies or callbacks.
#![tactic(auto)]

mod marks;
mod places;
mod rows;
mod table;

pub use places::Spot;
pub use table::Table;
