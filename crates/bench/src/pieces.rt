//! The pieces of 256 KiB, found in blocks of 4,096 bytes, the sparse block that a copy has by default. The words, any number
//! of times: how many rounds, and what the bytes are. Tells how many pieces there were in all rounds.

use crate::played::Played;
use anyhow::{Result, bail};
use lnbd_model::NoMemory;
use lnbd_plan::{Slice, pieces};
use std::alloc::{AllocError, Global};

const SIZE: usize = 262144;

const BLOCK: u32 = 4096;

/// What the bytes are.
#[derive(Clone, Copy)]
enum Content {
    /// Zeros.
    Zeros,
    /// No zeros.
    Data,
    /// Every second block is zero, and the others have no zeros.
    Mixed,
    /// Zeros, but for the last byte of each block.
    Ends,
}

/// What the next word says of the bytes.
fn content_taken_from(played: &mut Played) -> Result<Content> {
    match played.word()?.as_str() {
        "zeros" => Ok(Content::Zeros),
        "data" => Ok(Content::Data),
        "mixed" => Ok(Content::Mixed),
        "ends" => Ok(Content::Ends),
        _ => bail!("there are no such bytes"),
    }
}

fn byte_at(content: Content, place: usize) -> u8 {
    let is_data = match content {
        Content::Zeros => false,
        Content::Data => true,
        Content::Mixed => place / BLOCK as usize % 2 == 1,
        Content::Ends => place % BLOCK as usize == BLOCK as usize - 1,
    };
    u8::from(is_data)
}

fn bytes_of(alloc: Global, content: Content) -> Result<Vec<u8>, AllocError> {
    let mut bytes = Vec::new(alloc);
    for place in 0..SIZE {
        bytes.push(byte_at(content, place))?;
    }
    Ok(bytes)
}

/// How many pieces the bytes have, in all rounds.
fn count(alloc: Global, content: Content, rounds: u32) -> Result<u64, NoMemory> {
    let bytes = bytes_of(alloc, content)?;
    let mut found: Vec<Slice> = Vec::new(alloc);
    let mut count = 0u64;
    for _ in 0..rounds {
        found.clear();
        pieces(0, &bytes, BLOCK, &mut found)?;
        count = count.wrapping_add(found.len() as u64);
    }
    Ok(count)
}

pub fn play(played: &mut Played) -> Result<()> {
    for _ in 0..played.left() / 2 {
        let rounds = played.number()?;
        let content = content_taken_from(played)?;
        let found = count(played.alloc(), content, rounds)?;
        played.tell(found)?;
    }
    Ok(())
}
