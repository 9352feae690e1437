//! An export in memory, as a server serves it: its bytes and what it tells of them, the errors of
//! requests, and the contents that a seed gives. No bytes of the wire, no sessions.
#![tactic(auto)]

mod edges;
mod export;
mod generated;
mod laws;
mod refusals;
mod request;
mod spans;
mod statuses;
mod zeros;

pub use export::Export;
pub use generated::generate;
pub use laws::statuses_are_exact;
pub use request::{Agreed, Replies, Request};
