//! How a client speaks whose link a handle drives, and how much the handle writes: definitions and laws; no
//! code. What a server makes of it is not known here.
#![tactic(auto)]

mod laws;

pub use laws::{driven_speak_well, driven_stay_so, driven_write_little, unused_are_driven};
