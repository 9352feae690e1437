//! Tests of the wire and of words: numbers, records and options as bytes, and addresses, plans, arguments, scripts
//! and what is printed as text. A module a crate, over its public calls; nothing of a handle, a link or a server.
//! What they expect was read off the protocol, the manual pages and the grammars by hand.
#![tactic(auto)]

#[cfg(test)]
mod args;
#[cfg(test)]
mod base;
#[cfg(test)]
mod hexdump;
#[cfg(test)]
mod info;
#[cfg(test)]
mod lines;
#[cfg(test)]
mod options;
#[cfg(test)]
mod plan;
#[cfg(test)]
mod texts;
#[cfg(test)]
mod told;
#[cfg(test)]
mod uri;
#[cfg(test)]
mod wire;
