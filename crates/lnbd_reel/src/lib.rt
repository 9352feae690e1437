//! A range of an export as it is read in order: which whole blocks have it, what was told of them laid out as runs and parts, and
//! what is said of the parts. Nothing is asked here.
#![tactic(auto)]

mod cutting;
mod laying;
mod ranges;
mod reel;

pub use cutting::{cut, middle};
pub use laying::lay;
pub use ranges::{Misfit, Span, span_of};
pub use reel::{Part, Reel, Run, Runs};
