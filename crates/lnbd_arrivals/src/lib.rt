//! What stands at the front of the bytes that arrived in the transmission phase: a simple reply, or a chunk with extended headers or without.
//! Pure functions: they keep nothing, and know of a command only what they are told of it. Heads are read by `lnbd_wire`, and chunks are
//! judged by the grammar of `lnbd_structured`. Replies to options, the hello and the reply to EXPORT_NAME are read by `lnbd_negotiate`.
#![tactic(auto)]

mod announced;
mod chunk;
mod frame;
mod heads;
mod replies;

pub use announced::{Announced, Carrier};
pub use chunk::Chunk;
pub use frame::{Seen, cookie_in, look_frame};
pub use replies::Replies;
