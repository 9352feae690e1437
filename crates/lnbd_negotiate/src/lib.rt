//! Negotiation on the client's side: which option is asked next, what the replies tell, and what is
//! agreed. Nothing here reads or writes a connection, and nothing knows of commands.
#![tactic(auto)]

mod contexts;
mod front;
mod greeting;
mod judge;
mod kinds;
mod order;
mod pending;
mod requests;
mod talk;
mod told;

pub use crate::talk::Talk;
pub use front::{Seen, look};
pub use greeting::{Greeted, look_by_name, look_hello};
pub use kinds::{Config, Next, TalkFault};
pub use lnbd_history::OptAnswer;
pub use requests::{abort_request, client_flags};
