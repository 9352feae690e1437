//! Bytes that are written over served wires in pieces of 64 KiB. The words: `served`, each piece by a WRITE whose reply is read
//! before the next, or `copied`, copied into memory of the same size and nothing else; and how many pieces. Tells how many were
//! written.

ghost use Rattle.std.specs.Prelude.{◌≡◌, ◌<◌, IfOk, length, map};
ghost use Rattle.lnbd_memnet.specs.Network.{AreApart, hosted_of};

use crate::played::Played;
use anyhow::{Result, bail};
use lnbd_export::Export;
use lnbd_extents::Ranges;
use lnbd_link::{Got, Took, Wires};
use lnbd_memnet::{Schedule, Served, ServedWires};
use lnbd_model::{Kind, Target, Text};
use lnbd_wire::put_request;
use std::alloc::Global;

/// How many bytes a piece has.
const PIECE: usize = 65_536;

/// The client's flags, and GO for the export without a name.
const GO: &[u8] = b"\0\0\0\x03IHAVEOPT\0\0\0\x07\0\0\0\x06\0\0\0\0\0\0";

/// How many bytes the hello and the answer to GO have.
const GONE: usize = 104;

/// An address.
fn at(alloc: Global) -> Result<Target> {
    Ok(Target::Unix {
        path: Text::from_bytes(alloc, b"a")?,
    })
}

/// One export of so many pieces.
#[tactic(auto, using(lnbd_memnet::proofs::Apart::one_apart))]
fn exports(alloc: Global, count: usize) -> Result<Vec<Served>>
    ensures { IfOk result (λ exports. AreApart (map hosted_of exports.items)) }
{
    let content = vec![in alloc; 0u8; count.saturating_mul(PIECE)]?;
    let name = Text::empty(alloc);
    let description = Text::empty(alloc);
    let export = Export::new(name, description, content, Ranges::new(alloc), false);
    let at = at(alloc)?;
    let mut exports = Vec::new(alloc);
    exports.push(Served { at, export })?;
    Ok(exports)
}

/// Writes all of these bytes: the schedule cuts nothing.
fn send(wires: &mut ServedWires, link: u32, bytes: &[u8]) -> bool
    requires { 0 < length bytes.now }
{
    wires.write(link, bytes) == Took::Bytes(bytes.len())
}

/// Reads so many bytes.
fn hear(wires: &mut ServedWires, link: u32, into: &mut [u8], count: usize) -> bool
    requires { 0 < length into.old }
{
    wires.read(link, into) == Got::Bytes(count)
}

/// Writes so many pieces, and tells how many were answered.
fn serve(alloc: Global, count: usize) -> Result<usize> {
    let mut wires = ServedWires::new(
        alloc,
        exports(alloc, count)?,
        Schedule::List(Vec::new(alloc)),
    )?;
    let Ok(link) = wires.connect(&at(alloc)?) else {
        bail!("no link");
    };
    let mut answer = [0u8; 256];
    let data = vec![in alloc; 0x5au8; PIECE]?;
    if !send(&mut wires, link, GO) || !hear(&mut wires, link, &mut answer, GONE) {
        bail!("no negotiation");
    }
    let mut done = 0usize;
    for piece in 0..count {
        let mut head = [0u8; 28];
        let offset = (piece as u64).saturating_mul(PIECE as u64);
        put_request(
            Kind::Write,
            0,
            piece as u64,
            offset,
            PIECE as u32,
            &mut head,
        );
        let went = send(&mut wires, link, &head) && send(&mut wires, link, &data);
        if went && hear(&mut wires, link, &mut answer, 16) {
            done = done.saturating_add(1);
        }
    }
    Ok(done)
}

/// Copies so many pieces, and tells how many.
fn copy(alloc: Global, count: usize) -> Result<usize> {
    let from = vec![in alloc; 0x5au8; PIECE]?;
    let mut to = vec![in alloc; 0u8; count.saturating_mul(PIECE)]?;
    let mut done = 0usize;
    for piece in to.chunks_exact_mut(PIECE) {
        piece.copy_from_slice(&from);
        done = done.saturating_add(1);
    }
    Ok(done)
}

pub fn play(played: &mut Played) -> Result<()> {
    let way = played.word()?;
    let count = played.number()? as usize;
    let done = match way.as_str() {
        "served" => serve(played.alloc(), count)?,
        "copied" => copy(played.alloc(), count)?,
        _ => bail!("there is no such way to write"),
    };
    played.tell(done as u64)
}
