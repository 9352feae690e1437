//! A server of one export to many clients over links: who is let in, whose turn it is, and when links are
//! shut. What a client's bytes do is known by its session, in `lnbd_server`.
#![tactic(auto)]

mod fault;
mod guest;
mod guests;
mod listening;
mod printed;
mod serving;

pub use fault::ServeFault;
pub use listening::serve;
pub use printed::{Unprinted, print_serving, print_sessions};
pub use serving::serve_on;
