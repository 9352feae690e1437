//! Heads of simple replies, put and read. The word: how many rounds of 16,384. Tells the sums of the last bytes and of the
//! cookies. `bench/heads.rs` is the same in Rust.

use crate::played::Played;
use anyhow::Result;
use lnbd_wire::{Read, put_simple, read_simple};
use std::alloc::{AllocError, Global};

/// How many heads one round has.
const HEADS: u64 = 16384;

/// The heads of one round, one after another.
fn heads(alloc: Global) -> Result<Vec<u8>, AllocError> {
    let mut many = Vec::new(alloc);
    let mut bytes = [0u8; 16];
    for cookie in 0..HEADS {
        put_simple(0, cookie, &mut bytes);
        many.extend_from_slice(&bytes)?;
    }
    Ok(many)
}

/// Puts each head of one round, and adds their last bytes.
fn put_all() -> u64 {
    let mut bytes = [0u8; 16];
    let mut sum = 0u64;
    for cookie in 0..HEADS {
        put_one(cookie, &mut bytes);
        let last = bytes[15];
        sum = sum.wrapping_add(u64::from(last));
    }
    sum
}

#[inline(never)]
fn put_one(cookie: u64, out: &mut [u8; 16]) {
    put_simple(0, cookie, out);
}

/// Reads all heads, and adds their cookies.
#[inline(never)]
fn read_all(bytes: &[u8]) -> u64 {
    let mut sum = 0u64;
    for head in bytes.chunks(16) {
        if let Read::Value(head) = read_simple(head) {
            sum = sum.wrapping_add(head.cookie);
        }
    }
    sum
}

pub fn play(played: &mut Played) -> Result<()> {
    let many = heads(played.alloc())?;
    let mut put = 0u64;
    let mut read = 0u64;
    for _ in 0..played.number()? {
        put = put.wrapping_add(put_all());
        read = read.wrapping_add(read_all(many.as_slice()));
    }
    played.tell(put)?;
    played.tell(read)
}
