//! The bytes that wait to go out: pieces in order, and how much of the first has gone.
//!
//! A write's own bytes stay with the command that owns them; a piece only names them. What the pieces
//! mean, and when they are queued, is not decided here.
#![tactic(auto)]

mod laws;
mod piece;
mod queue;

pub use laws::{other_writes_may_change, what_is_left_is_offered};
pub use piece::{Piece, RequestBytes};
pub use queue::Queue;
