//! The handle and the commands below it, over their public calls: callbacks and their desk, the table of what is in flight, replies and chunks,
//! what goes out, negotiation, commands from their issue to their end, and whole handles played byte by byte.
//! Tests alone, each a table of rows whose values come from the NBD protocol and libnbd's manual. No links, no scripts and no servers.
#![tactic(auto)]

#[cfg(test)]
mod arrivals;
#[cfg(test)]
mod breaches;
#[cfg(test)]
mod callbacks;
#[cfg(test)]
mod commands;
#[cfg(test)]
mod handle_chunks;
#[cfg(test)]
mod handle_issues;
#[cfg(test)]
mod handle_options;
#[cfg(test)]
mod handle_sessions;
#[cfg(test)]
mod inflight;
#[cfg(test)]
mod negotiate;
#[cfg(test)]
mod openings;
#[cfg(test)]
mod outgoing;
#[cfg(test)]
mod play;
#[cfg(test)]
mod replies;
#[cfg(test)]
mod support;
#[cfg(test)]
mod told;
