//! A client without callbacks: a handle, what its callbacks keep until it is taken, and the bytes of the result that was taken last, under one
//! owner. Each call answers a code. No pointer, and no socket.
#![tactic(auto)]

mod asking;
mod buffer;
mod code;
mod keeping;
mod moving;
mod naming;
mod opting;
mod results;
mod session;
mod telling;

pub use buffer::Buffer;
pub use code::Code;
pub use keeping::{Keeping, Told, ToldChunk, ToldExtents};
pub use results::origin_number;
pub use session::Session;
pub use telling::{Agreed, Death, Refusal, death_of, direction_number, state_number};
