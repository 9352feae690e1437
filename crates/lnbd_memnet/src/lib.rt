//! Wires that serve: real sessions of a server behind links in memory, cut and picked by a schedule.
//! They tell their calls and what their exports hold. How a session answers stands in `lnbd_server`.
#![tactic(auto)]

mod hosted;
mod laws;
mod link;
mod log;
mod network;
mod schedule;
mod wires;

pub use hosted::Served;
pub use laws::{links_are_sessions, none_is_shut_out};
pub use schedule::{Schedule, Step};
pub use wires::ServedWires;
