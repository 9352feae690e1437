//! The connections of a copy of which one side is a file: how they are made to its one export, how they negotiate, take turns and wait, what they are
//! asked, and how they part. What the file is, and when anything is asked, is not known here; how a copy between two exports goes is known by
//! `lnbd_copy`, of which this takes what does not depend on there being two.
#![tactic(auto)]

mod asking;
mod dialing;
mod parting;
mod turning;

pub use asking::{ask_change, ask_extents, ask_flush, ask_read};
pub use dialing::{dial, dial_further, settle};
pub use parting::{part, shut_all, shut_parted};
pub use turning::{rest, take_turn};
