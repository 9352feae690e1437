//! What one command comes to by what came for it alone: which bytes of a read and which meta contexts of a block status were told,
//! which of it is no lawful answer, which error is the first and where that came from, and what its chunk or extents callback is told.
//!
//! `specs/Pieces` has what was asked and what came, `specs/Faults` what was told and what is at fault, `specs/Outcome` what the command comes to,
//! `specs/Hearing` what its callback hears, `specs/Laws` laws of them. No bytes of the wire, no other command and no table are known here; no code.
#![tactic(auto)]

mod laws;

pub use laws::{content_is_held, facts_stand, failures_have_numbers};
