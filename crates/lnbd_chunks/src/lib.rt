//! What the replies to commands show, byte by byte: simple replies, structured chunks and extended chunks (NBD protocol,
//! "Simple reply message", "Structured reply chunk message" and "Extended reply chunk message").
//!
//! `specs/Chunk` has one chunk of a command that is known, `specs/Reply` a whole reply from its magic number on. Both say it for whatever
//! things are shown. `specs/Laws` has laws of them. What a command comes to by its replies is not said here; no code but
//! small plain data.
#![tactic(auto)]

mod form;
mod laws;

pub use form::Form;
pub use laws::{front_is_enough, replies_are_steady, replies_are_whole};
