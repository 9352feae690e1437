//! A file that is served, to clients and to a child program: read whole before anybody comes, written back whole once all have left. What a
//! client's bytes do is known by its session, in `lnbd_server`, and who is let in when by `lnbd_serve`.
#![tactic(auto)]

mod child;
mod closing;
mod fault;
mod laws;
mod loading;
mod reading;
mod serving;
mod writing;

pub use fault::RunFault;
pub use laws::serving_keeps_length;
pub use lnbd_store::{Content, Serving};
pub use reading::{MAX_FILE, Unread, read_whole};
pub use serving::serve_child;
pub use writing::write_whole;
