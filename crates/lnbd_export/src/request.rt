//! Requests without their data, and what was agreed on before them. What an export does for them is not
//! known here.

use lnbd_model::Kind;

/// In which form replies are given (NBD protocol, "Structured replies" and "Extended headers").
#[derive(Clone, Copy, Debug, PartialEq, Eq)]
pub enum Replies {
    /// Simple replies alone.
    Simple,
    /// Structured reply chunks.
    Structured,
    /// Extended reply chunks, to extended requests.
    Extended,
}

/// What a client and its server agreed on before the first request.
#[derive(Clone, Copy, Debug, PartialEq, Eq)]
pub struct Agreed {
    pub replies: Replies,
    /// Whether the meta context base:allocation is agreed.
    pub allocation: bool,
}

/// A request without its data (NBD protocol, "Request message").
#[derive(Clone, Copy, Debug, PartialEq, Eq)]
pub struct Request {
    /// What is asked. None where no command has the request's type.
    pub kind: Option<Kind>,
    /// The command flags.
    pub flags: u16,
    /// The number that the reply repeats.
    pub cookie: u64,
    /// The place in the export, in bytes.
    pub offset: u64,
    /// How many bytes are asked or follow.
    pub length: u64,
}
