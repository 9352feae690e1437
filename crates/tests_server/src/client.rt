//! What a client sends and takes: bytes that more than one test sends, and a link in memory.

use lnbd_link::{ListLink, ReadAnswer, WriteAnswer};
use lnbd_model::{Bytes, NoMemory};
use std::alloc::Global;

/// The client's flags, and GO for the export without a name, asking for nothing.
pub const BEGIN: &[u8] = b"\0\0\0\x03IHAVEOPT\0\0\0\x07\0\0\0\x06\0\0\0\0\0\0";

/// The end of a session.
pub const DISC: &[u8] = b"\x25\x60\x95\x13\0\0\0\x02\0\0\0\0\0\0\0\0\0\0\0\0\0\0\0\0\0\0\0\0";

/// What a read of a link answers.
#[derive(Clone, Copy)]
pub enum Comes<'a> {
    /// These bytes.
    Bytes(&'a [u8]),
    /// No byte yet.
    Nothing,
}

/// The answers of a link to reads and to writes. Behind them a read tells the end, and a write takes all.
#[derive(Clone, Copy)]
pub struct Client<'a> {
    pub reads: &'a [Comes<'a>],
    pub writes: &'a [WriteAnswer],
}

fn answer_of(alloc: Global, comes: Comes) -> Result<ReadAnswer, NoMemory> {
    match comes {
        Comes::Bytes(bytes) => Ok(ReadAnswer::Bytes(Bytes::from_vec(bytes.to_vec(alloc)?))),
        Comes::Nothing => Ok(ReadAnswer::NotReady),
    }
}

/// The link of a client.
pub fn link_of(alloc: Global, client: &Client) -> Result<ListLink, NoMemory> {
    let mut reads = Vec::new(alloc);
    for comes in client.reads {
        reads.push(answer_of(alloc, *comes)?)?;
    }
    Ok(ListLink {
        fails: false,
        reads,
        writes: Vec::from_slice(alloc, client.writes)?,
    })
}
