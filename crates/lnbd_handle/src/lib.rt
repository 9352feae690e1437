//! The handle: one connection from create to close, with its negotiation, its commands and the bytes
//! that wait to go out. Each call does to the table machine what its event does. It knows no socket.
#![tactic(auto)]

mod aborting;
mod connection;
mod deaths;
mod drain;
mod filing;
mod greet;
mod handle;
mod issue;
mod issues;
mod kinds;
mod options;
mod pending;
mod pieces;
mod placing;
mod refusals;
mod results;
mod sending;
mod settings;
mod standing;
pub mod strict;
mod turns;

pub use handle::Handle;
pub use issue::IssueFault;
pub use kinds::{OptFault, SetFault, Short};
pub use lnbd_commands::Closed;
pub use lnbd_history::{Completed, Peeked};
pub use lnbd_negotiate::OptAnswer;
pub use strict::StrictFault;
