//! What a peer sends and takes, as links in memory.

use lnbd_link::{ListLink, ListWires, ReadAnswer, WriteAnswer};
use lnbd_model::{Bytes, NoMemory, Target, Text, TextFault};
use std::alloc::Global;

/// What a read of a link answers.
#[derive(Clone, Copy)]
pub enum Told<'a> {
    /// These bytes.
    Bytes(&'a [u8]),
    /// No byte yet.
    Nothing,
    /// The link is of no use.
    Failure,
    /// The peer ends the connection.
    End,
}

/// The answers of a link to reads and to writes. Behind them a read tells the end, and a write takes all.
#[derive(Clone, Copy)]
pub struct Peer<'a> {
    /// Whether the connect fails.
    pub fails: bool,
    pub reads: &'a [Told<'a>],
    pub writes: &'a [WriteAnswer],
}

fn answer_of(alloc: Global, told: Told) -> Result<ReadAnswer, NoMemory> {
    match told {
        Told::Bytes(bytes) => Ok(ReadAnswer::Bytes(Bytes::from_vec(bytes.to_vec(alloc)?))),
        Told::Nothing => Ok(ReadAnswer::NotReady),
        Told::Failure => Ok(ReadAnswer::Failed),
        Told::End => Ok(ReadAnswer::End),
    }
}

/// The link of a peer.
pub fn link_of(alloc: Global, peer: &Peer) -> Result<ListLink, NoMemory> {
    let mut reads = Vec::new(alloc);
    for told in peer.reads {
        reads.push(answer_of(alloc, *told)?)?;
    }
    Ok(ListLink {
        fails: peer.fails,
        reads,
        writes: Vec::from_slice(alloc, peer.writes)?,
    })
}

/// Wires to one peer or to two. The pause is a wait of `step`.
pub fn wires_to(
    alloc: Global,
    first: &Peer,
    second: &Peer,
    room: usize,
    step: u64,
) -> Result<ListWires, NoMemory> {
    let links = vec![in alloc; link_of(alloc, first)?, link_of(alloc, second)?]?;
    ListWires::new(alloc, links, room, step.max(1))
}

/// The address of every peer here.
pub fn address(alloc: Global, path: &[u8]) -> Result<Target, TextFault> {
    Ok(Target::Unix {
        path: Text::from_bytes(alloc, path)?,
    })
}
