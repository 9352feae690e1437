//! What calls over links answer, by rows of data: links in memory and links of the system, handles that take turns over them,
//! and what is asked of an export. Tests alone, over public calls; whole runs of the program stand elsewhere.
#![tactic(auto)]

#[cfg(test)]
mod ask_tests;
#[cfg(test)]
mod asks;
#[cfg(test)]
mod party;
#[cfg(test)]
mod peer;
#[cfg(test)]
mod turn_tests;
#[cfg(test)]
mod wires_tests;
