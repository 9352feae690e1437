//! A bound on the bytes that may still come and go on a handle's link without a new call of the
//! caller, and that each of them lowers it. Definitions and a law; no code.
#![tactic(auto)]

mod laws_of_bounds;

pub use laws_of_bounds::events_spend;
