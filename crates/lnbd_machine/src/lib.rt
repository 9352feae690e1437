//! The table machine: what a handle keeps of its history, how each event changes it and which calls
//! on callbacks it makes, and that it answers as the history says. Definitions and laws; no code.
#![tactic(auto)]

mod laws_of_machine;

pub use laws_of_machine::{calls_are_told, events_keep_partial, machine_is_right, table_is_steady};
