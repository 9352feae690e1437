//! Links in memory that peers ask for: a listener whose peers' bytes are lists, as the links of `lnbd_link`
//! that a client connects. What is said over the links is no matter here.
#![tactic(auto)]

mod inbound;
mod marks;

pub use inbound::InboundWires;
