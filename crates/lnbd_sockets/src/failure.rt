//! The last call of the system that failed, for a person to read. Nothing is decided by it, and no contract speaks of it.

use lnbd_model::Target;
use std::alloc::Global;
use std::{fmt, io};

/// What the system was asked for.
#[derive(Clone, Copy, Debug, PartialEq, Eq)]
pub enum Asked {
    Connect,
    Listen,
    Accept,
    Read,
    Write,
}

impl fmt::Display for Asked {
    fn fmt<W: fmt::Write>(&self, f: &mut fmt::Formatter<W>) -> fmt::Result {
        f.pad(match self {
            Asked::Connect => "connect",
            Asked::Listen => "listen at",
            Asked::Accept => "accept at",
            Asked::Read => "read from",
            Asked::Write => "write to",
        })
    }
}

/// A call that failed: what was asked, where, and the system's words for it.
#[derive(Drop)]
pub struct Failure {
    pub asked: Asked,
    pub place: String,
    pub words: String,
}

impl Failure {
    /// None where there is no memory for the words.
    pub fn new(alloc: Global, asked: Asked, place: &str, error: &io::Error) -> Option<Failure> {
        let words = format!(in alloc; "{error}").ok()?;
        Some(Failure {
            asked,
            place: format!(in alloc; "{place}").ok()?,
            words: format!(in alloc; "{}", without_number(words.as_str())).ok()?,
        })
    }
}

/// A place as a person writes it: a path, or a host and a port.
pub fn named(alloc: Global, place: &Target) -> Option<String> {
    match place {
        Target::Tcp { host, port } => format!(in alloc; "{}:{port}", host.as_str()).ok(),
        Target::Unix { path } => format!(in alloc; "{}", path.as_str()).ok(),
    }
}

// The system's words without their number.
fn without_number(words: &str) -> &str {
    match words.split_once(" (os error ") {
        Some((text, _)) => text,
        None => words,
    }
}
