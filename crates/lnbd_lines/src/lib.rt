//! Scripts of calls: from their text to a list of lines. Nothing is called or played here.
#![tactic(auto)]

mod command;
mod commands;
mod fault;
mod issues;
mod line;
mod lines;
mod negotiation;
mod number;
mod payloads;
mod ranges;
mod script;
mod word;

pub use command::{Command, Manner, Payload, Range};
pub use fault::ScriptFault;
pub use line::Line;
pub use negotiation::{Opt, Switch};
pub use script::{Script, parse};
