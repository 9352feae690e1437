//! A script of lines of `pread` that is read. The word: how many lines. Tells how many bytes it has, and how many lines were
//! read.

use crate::played::Played;
use anyhow::Result;
use lnbd_lines::parse;
use lnbd_model::NoMemory;
use std::alloc::Global;

/// A line that reads 4 KiB, of 20 bytes.
const LINE: &[u8; 20] = b"pread 4096 123456789";

/// So many lines.
fn script(alloc: Global, lines: u32) -> Result<Vec<u8>, NoMemory> {
    let mut script = Vec::new(alloc);
    'lines: for _ in 0..lines {
        script.extend_from_slice(LINE)?;
        script.push(b'\n')?;
    }
    Ok(script)
}

pub fn play(played: &mut Played) -> Result<()> {
    let lines = played.number()?;
    let text = script(played.alloc(), lines)?;
    let read = parse(played.alloc(), &text)?;
    played.tell(text.len() as u64)?;
    played.tell(read.lines().len() as u64)
}
