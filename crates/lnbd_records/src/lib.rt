//! The protocol's numbers and records: their definitions in `specs/`, and functions that each say one
//! law of them and do nothing. Of code only the numbers' names and the reading and putting of single
//! numbers live here; no record is read or put, and no input or output stands here.
#![tactic(auto)]

mod bodies;
mod fields;
pub mod names;
mod numbers;
mod prefixes;

pub use bodies::{payload_is_one, replies_tell_their_fields, requests_ask_their_fields};
pub use fields::{put_then_read, read_then_put};
pub use numbers::{push_u16, push_u32, push_u64, u16_at, u32_at, u64_at};
pub use prefixes::no_proper_prefix;
