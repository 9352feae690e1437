//! The whole program, as tests: scripts, information, serving, copies, links and faults, and the selftest, over links, exports,
//! an input and outputs in memory. Tests and what they share alone, in which `run` is called from one place and over one kind of
//! wires: each further kind is the whole program built once more. What they expect was read off the protocol and the grammar of
//! scripts by hand.
#![tactic(auto)]

#[cfg(test)]
mod asked;
#[cfg(test)]
mod beside;
#[cfg(test)]
mod breaches;
#[cfg(test)]
mod copies;
#[cfg(test)]
mod copies_board;
#[cfg(test)]
mod copies_closed;
#[cfg(test)]
mod copies_dealt;
#[cfg(test)]
mod copies_failing;
#[cfg(test)]
mod copies_files;
#[cfg(test)]
mod copies_sized;
#[cfg(test)]
mod copies_turned;
#[cfg(test)]
mod dumps;
#[cfg(test)]
mod duplicates;
#[cfg(test)]
mod failing;
#[cfg(test)]
mod information;
#[cfg(test)]
mod links;
#[cfg(test)]
mod outside;
#[cfg(test)]
mod peers;
#[cfg(test)]
mod played;
#[cfg(test)]
mod report;
#[cfg(test)]
mod scripts;
#[cfg(test)]
mod scripts_limit;
#[cfg(test)]
mod scripts_options;
#[cfg(test)]
mod selftest;
#[cfg(test)]
mod served;
#[cfg(test)]
mod serving;
#[cfg(test)]
mod session;
