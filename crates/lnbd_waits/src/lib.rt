//! One handle on one link: how it is begun, turns are taken until what is awaited is there, and the end is asked for. What is
//! asked in between, and what is made of the answers, is no matter here.
#![tactic(auto)]

mod opening;
mod parting;
mod waiting;

pub use opening::{base_allocation, open};
pub use parting::part;
pub use waiting::{Awaited, Halt, settle};
