//! The real outside of programs: those of the system, started and waited for. They tell their counts alone: what the system does is
//! trusted to be what the trait says. Nothing is decided here, and no shell reads a word.
#![tactic(auto)]

mod programs;

pub use programs::Programs;
