//! Files by their paths, as a program reaches them: the trait with its meanings, files in memory that
//! stand in for real ones, and a side of a copy, which may be a file. No real file is opened here.
#![tactic(auto)]

mod contents;
mod file;
mod files;
mod log;
mod memory;
mod serving;
mod side;
mod store;

pub use contents::Contents;
pub use file::StoreFile;
pub use memory::MemoryStore;
pub use serving::{Content, Serving};
pub use side::Side;
pub use store::{Store, StoreFailed, StoreGot, StorePart, StoreTook};
