//! The program's tools, as one call over the outside: which tool the words name, what it does there, and
//! the status that it ends with. Nothing is read or written but through the traits of the outside.
#![tactic(auto)]

mod beside;
mod calling;
mod copying;
mod counts;
mod dumping;
mod ending;
mod filing;
mod hearing;
mod informing;
mod input;
mod reading;
mod selftesting;
mod serving;
mod top;

pub use ending::{no_memory, usage};
pub use lnbd_rehearsal::{Rehearsed, rehearse};
pub use top::run;
