//! Reads over one handle whose peer answers from memory. The words, one kind of work a run:
//! `read BLOCKS PIECE`, one read of so many times 64 KiB, whose reply comes in pieces of so many bytes;
//! `orders ROUNDS COMMANDS BACKWARDS`, so many rounds of so many reads in flight at once, answered in order, or backwards where
//! the last word is 1;
//! `stream READS PIECE`, so many reads of 256 KiB, one after another, whose replies come in pieces of so many bytes;
//! `copies READS PIECE`, the same bytes copied from piece to buffer, and nothing else;
//! `deaths ROUNDS COMMANDS`, so many handles that die with so many reads in flight.
//! Tells how many commands completed.

use crate::copies::copies;
use crate::played::Played;
use crate::session::Session;
use anyhow::{Result, bail};
use lnbd_model::NoMemory;
use std::alloc::Global;

fn read(alloc: Global, blocks: u32, piece: u32) -> Result<u64, NoMemory> {
    let mut session = Session::begin(alloc)?;
    session.read(blocks, piece);
    Ok(session.end())
}

fn orders(alloc: Global, rounds: u32, commands: u32, backwards: bool) -> Result<u64, NoMemory> {
    let mut session = Session::begin(alloc)?;
    for _ in 0..rounds {
        session.round(commands, backwards);
    }
    Ok(session.end())
}

fn stream(alloc: Global, reads: u32, piece: u32) -> Result<u64, NoMemory> {
    let mut session = Session::begin(alloc)?;
    session.stream(reads, piece);
    Ok(session.end())
}

fn deaths(alloc: Global, rounds: u32, commands: u32) -> Result<u64, NoMemory> {
    let mut completed = 0u64;
    for _ in 0..rounds {
        let mut session = Session::begin(alloc)?;
        session.die(commands);
        completed = completed.wrapping_add(session.end());
    }
    Ok(completed)
}

pub fn play(played: &mut Played) -> Result<()> {
    let alloc = played.alloc();
    let kind = played.word()?;
    let first = played.number()?;
    let second = played.number()?;
    let completed = match kind.as_str() {
        "read" => read(alloc, first, second)?,
        "orders" => orders(alloc, first, second, played.number()? == 1)?,
        "stream" => stream(alloc, first, second)?,
        "copies" => copies(alloc, first, second)?,
        "deaths" => deaths(alloc, first, second)?,
        _ => bail!("there is no such work on a handle"),
    };
    played.tell(completed)
}
