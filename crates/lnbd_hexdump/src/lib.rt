//! The text of a dump: bytes in lines of 16, told piece by piece. Whose bytes they are is not known here, and nothing is
//! written out.
#![tactic(auto)]

mod dumper;
mod laws;
mod line;

pub use dumper::Dumper;
pub use laws::said_is_front;
