//! What a client asks of a server's exports before it reads or writes: what is told of one, and which there are. No text is made here, and nothing is read or
//! written but through the traits of the outside.
#![tactic(auto)]

mod acts;
mod asking;
mod collecting;
mod copies;
mod entries;
mod fault;
mod inquiring;
mod laying;
mod listing;
mod mapping;
mod quiet;
mod stops;
mod survey;
mod telling;

pub use collecting::collect;
pub use entries::Entries;
pub use fault::InfoFault;
pub use listing::list;
pub use mapping::{SIZE_END, least_block, map};
