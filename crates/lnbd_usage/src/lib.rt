//! How calls use links and when they pause, from the transcript alone: definitions and a law; no code. Which handle makes
//! the calls is not known here.
#![tactic(auto)]

mod laws;

pub use laws::conversations_use_one_link;
