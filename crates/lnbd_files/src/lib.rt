//! Real files as a store. They tell their counts alone: what the system does is trusted to be what the trait
//! says. Nothing is decided here.
#![tactic(auto)]

mod calls;
mod file_store;

pub use file_store::FileStore;
