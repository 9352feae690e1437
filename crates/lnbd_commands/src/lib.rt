//! The commands of one handle that are not retired, with their callbacks: issuing one, filing a reply
//! under it, losing all of them at death, and closing. It joins the table of rows, the desk and what a
//! simple reply does. No bytes of the wire, no negotiation and no waiting parts are known here.
#![tactic(auto)]

mod chunk;
mod close;
mod commands;
mod content;
mod flight;
mod issue;
mod laws;
mod results;
mod row;
mod rows;
mod telling;

pub use close::Closed;
pub use commands::Commands;
pub use laws::files_by_parts;
pub use lnbd_structured::{Told, Waiting};
pub use row::Asked;
