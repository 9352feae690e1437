//! A copy of which one side is no export: what is asked of it is asked and answered in one step, so that its requests are a list that nobody
//! keeps. These are laws over the board and its tracks, and the two calls by which an answer comes back; no store and no link is known here.
#![tactic(auto)]

mod desk;
mod laws;

pub use desk::{comes_back, complete};
pub use laws::{
    apart_are_dealt, changes_are_honest, changes_are_made, destination_alone_keeps,
    from_file_holds, reads_are_honest, reads_are_made, source_alone_keeps, to_file_holds,
};
