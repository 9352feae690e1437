//! The client for C: a proved handle, which C drives over a socket and an event loop of its own. Each export takes what C's slot holds, makes one call of
//! `lnbd_session` and puts it back. It has no global state, and calls no function of C's but the allocator's.
#![tactic(auto)]

mod asking;
mod buffer_seal;
mod buffer_slot;
mod buffers;
mod moving;
mod naming;
mod opting;
mod results;
mod seal;
mod slot;
mod telling;
