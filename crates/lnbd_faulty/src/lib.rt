//! Wires of which one call fails, for whoever asks what a program does then. What it does is no matter here.
#![tactic(auto)]

mod faulty;

pub use faulty::FaultyWires;
