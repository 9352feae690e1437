//! What commands come to where callbacks keep what they are handed: what is told of one as done is
//! what it came to. Definitions and laws; no code.
#![tactic(auto)]

mod laws;

pub use laws::{done_is_outcome, entries_are_filed, kept_are_outcomes};
