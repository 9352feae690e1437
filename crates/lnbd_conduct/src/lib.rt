//! What a copy between two exports promises of its calls: what a reader has to believe of it, and the terms that it speaks of.
//! The definitions stand in `specs/`, in the order in which they can be read: which links there are, on which terms a copy is made, what was
//! answered, under way and changed, how links were driven and waited for, why a copy ended, and all of it together. How a copy comes to it
//! is not known here: the bridges between its steps stand with the copier.
#![tactic(auto)]

mod sides;
mod terms;

pub use sides::{FIRST_DESTINATION, FIRST_SOURCE, ONE_EACH, Sides};
pub use terms::Terms;
