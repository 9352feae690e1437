//! The real outside: links over the system's TCP and Unix sockets, and the standard streams. They tell
//! their counts alone: what the system does is trusted to be what the traits say. Nothing is decided here.
#![tactic(auto)]

mod door;
mod failure;
mod held;
mod socket;
mod streams;
mod wires;

pub use failure::{Asked, Failure};
pub use streams::{PrintSink, ReaderSource, fill_streams};
pub use wires::SocketWires;
