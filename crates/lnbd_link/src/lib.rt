//! What a program reaches beside itself: links over which bytes move, a source and a sink, and lists
//! in memory that stand in for them. The traits hold the rules; nothing of NBD's own stands here.
#![tactic(auto)]

mod book;
mod count;
mod kept;
mod left;
mod list_sink;
mod list_source;
mod list_wires;
mod log;
mod sink;
mod source;
mod whole;
mod wires;

pub use count::{PATIENCE, is_long, raised, rose};
pub use left::{ListLink, ReadAnswer, WriteAnswer};
pub use list_sink::ListSink;
pub use list_source::ListSource;
pub use list_wires::ListWires;
pub use sink::{Sink, SinkTook};
pub use source::{Source, SourceGot};
pub use whole::{SinkFailed, put};
pub use wires::{Accepted, Got, Took, Want, WireFailed, Wires};
