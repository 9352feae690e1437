//! What the bytes of a stream of reads cost where they are copied and nothing else: no handle.

use lnbd_model::NoMemory;
use std::alloc::Global;

/// 64 KiB.
pub const BLOCK: usize = 65536;

/// How many times 64 KiB a read of the stream has.
pub const BLOCKS: usize = 4;

/// Copies the bytes of so many reads of 256 KiB, in pieces of so many bytes, into one buffer that is used again. No command completes.
pub fn copies(alloc: Global, reads: u32, piece: u32) -> Result<u64, NoMemory> {
    let data = vec![in alloc; 0x5au8; BLOCK * BLOCKS]?;
    let mut buffer = vec![in alloc; 0u8; BLOCK * BLOCKS]?;
    for _ in 0..reads {
        copy(&mut buffer, &data, piece as usize);
    }
    Ok(0)
}

/// Copies data piece by piece.
fn copy(buffer: &mut [u8], data: &[u8], piece: usize) {
    for (part, block) in buffer
        .chunks_mut(piece.max(1))
        .zip(data.chunks(piece.max(1)))
    {
        if part.len() == block.len() {
            part.copy_from_slice(block);
        }
    }
}
