//! The board of a copy: its slices that are begun and not over, what came for them, and what is to be asked next. It is the
//! world of the copy's callbacks. No handle, no link and no byte of the wire is known here.
#![tactic(auto)]

mod advance;
mod ask;
mod begin;
mod board;
mod bound;
mod how;
mod laws;
mod next;
mod pieces;
mod row;
mod spare;
mod ticket;

pub use ask::{Ask, Change};
pub use board::Board;
pub use bound::Bound;
pub use how::How;
pub use laws::{
    carried_is_held, copied_is_carried, each_is_asked_once, others_are_kept, turns_are_kept,
};
pub use next::Next;
pub use pieces::Pieces;
pub use row::{Row, Stage};
pub use ticket::Ticket;
