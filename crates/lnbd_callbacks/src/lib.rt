//! Callbacks as values that must be spent: what a client's callback offers, the desk that numbers
//! callbacks and notes each call on them, and the slots by which they are called. No commands, no
//! cookies and no bytes of the wire.
#![tactic(auto)]

mod caller;
mod desk;
mod live;
mod slot;

pub use caller::{Caller, Heard, Verdict};
pub use desk::{Desk, MOST_CALLBACKS};
pub use slot::Slot;
