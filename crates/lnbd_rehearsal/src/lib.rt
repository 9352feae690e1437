//! A copy that needs no server: from one export in memory to another, over wires that serve both. Which words ask for it and
//! how it is told is not known here.
#![tactic(auto)]

mod exports;
mod laws;
mod rehearsing;
mod stage;
mod sums;

pub use laws::copies_move_bytes;
pub use rehearsing::{MOST, Rehearsed, rehearse};
