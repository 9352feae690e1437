//! Addresses of exports, `nbd://HOST[:PORT][/NAME][?QUERY]` and `nbd+unix://[/NAME]?QUERY`: from
//! their text to a place. No name is looked up and no socket opened here.
#![tactic(auto)]

mod address;
mod authority;
mod escape;
mod fault;
mod laws;
mod parts;
mod place;
mod query;

pub use fault::UriFault;
pub use laws::{every_place_is_spelled, one_answer};
pub use place::parse;
