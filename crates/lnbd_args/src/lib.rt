//! The words of the program's command line: from them to what they ask for, by the rules of the tool
//! that the first word names. clap reads each tool's options and places; numbers, limits and which
//! options stand together are judged here, addresses by `lnbd_uri`. Nothing is connected or printed
//! here.
#![tactic(auto)]

mod address;
mod asked;
mod command;
mod copy;
mod dump;
mod fair;
mod fault;
mod info;
mod laws;
mod look;
mod number;
mod rule;
mod selftest;
mod serve;
mod side;
mod split;
mod text;
mod words;

pub use asked::{Asked, Predicate, What};
pub use fault::ArgsFault;
pub use laws::one_reading;
pub use lnbd_plan::CopyOptions;
pub use lnbd_store::{Content, Serving, Side};
pub use words::read_words;
