//! A server's side of one client: what the client's bytes do, which replies are pending, and what goes
//! out. A session moves no bytes by itself; exports and what they tell stand in `lnbd_export`.
#![tactic(auto)]

mod client;
mod dialogue;
mod options;
mod outbox;
mod replies;
mod session;
mod stage;

pub use lnbd_export::{Export, generate};
pub use session::{Session, TakeFault};
