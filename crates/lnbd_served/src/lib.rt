//! What wires that serve tell of their exports, against what was asked of them and answered. No code
//! that does anything: what stands here are laws, and a clause of the wires that cites them.
#![tactic(auto)]

mod honesty;
mod laws;

pub use honesty::{tell_honestly, tell_honestly_driven};
pub use laws::{driven_served_is_honest, heard_as_read, served_is_honest, servers_are_honest};
