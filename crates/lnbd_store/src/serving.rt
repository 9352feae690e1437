//! What a server is asked to serve, to how many clients, and which program is run beside it.

use lnbd_model::{Place, Text, Texts};

/// Where the bytes that are served come from.
#[derive(Debug, Drop)]
pub enum Content {
    /// They are made from a number; so many.
    Made { seed: u64, size: u64 },
    /// They are those of the file at a path, and are written back to it.
    File(Text),
}

/// What is served at which place, to how many clients, and beside which program.
#[derive(Debug, Drop)]
pub struct Serving {
    pub place: Place,
    pub content: Content,
    pub read_only: bool,
    pub sessions: u32,
    /// The address as it was given, which is the program's last word; empty where none is run.
    pub uri: Text,
    /// The program and its words; empty where none is run.
    pub run: Texts,
}
