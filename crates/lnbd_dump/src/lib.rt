//! The dump of an export: its bytes are read in order over one connection and shown as text, sixteen reads at a time. What a
//! line looks like is not known here, and nothing is read or written but through the traits of the outside.
#![tactic(auto)]

mod asking;
mod dumping;
mod fault;
mod filling;
mod hearing;
mod laws;
mod reader;
mod showing;
mod stop;
mod taking;
mod talking;
mod terms;
mod turning;

pub use dumping::dump;
pub use fault::DumpFault;
pub use laws::holds_what_was_told;
