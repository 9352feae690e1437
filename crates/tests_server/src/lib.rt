//! What the server's parts do, by rows of data: an export and its errors, a session byte for byte, clients that are served over
//! links, wires that serve, programs that are started, and files in memory. Tests alone, over public calls; whole runs of the program stand
//! elsewhere.
#![tactic(auto)]

#[cfg(test)]
mod client;
#[cfg(test)]
mod export_tests;
#[cfg(test)]
mod network;
#[cfg(test)]
mod network_tests;
#[cfg(test)]
mod serve_tests;
#[cfg(test)]
mod session_tests;
#[cfg(test)]
mod spawn_tests;
#[cfg(test)]
mod store_tests;
#[cfg(test)]
mod told;
