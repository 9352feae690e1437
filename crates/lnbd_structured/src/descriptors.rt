//! Descriptors of extents, read from the payload of a block status chunk. Whether they have a fault is not known here.

ghost use Rattle.std.specs.Prelude.{◌≡◌, ◌/◌, IfOk, length};
ghost use Rattle.lnbd_chunks.specs.Chunk.{descriptors_in, extended_descriptors_in};

use lnbd_model::{Extent, NoMemory};
use lnbd_records::{u32_at, u64_at};
use std::alloc::Global;

/// The descriptors behind the meta context of a BLOCK_STATUS chunk: a length in bytes and flags, of 32 bits each.
pub fn descriptors_in(alloc: Global, bytes: &[u8]) -> Result<Vec<Extent>, NoMemory>
    ensures { IfOk result (λ entries. entries.items ≡ descriptors_in (length bytes.now / 8) bytes.now) }
{
    let count = bytes.len() / 8;
    let mut entries = Vec::with_capacity(alloc, count)?;
    for index in 0..count {
        let place = 8 * index;
        let length = u64::from(u32_at(bytes, place));
        let flags = u64::from(u32_at(bytes, place + 4));
        entries.push(Extent { length, flags })?;
    }
    Ok(entries)
}

/// The descriptors behind the meta context and the count of a BLOCK_STATUS_EXT chunk, whose numbers have 64 bits.
pub fn extended_descriptors_in(alloc: Global, bytes: &[u8]) -> Result<Vec<Extent>, NoMemory>
    ensures { IfOk result (λ entries. entries.items ≡ extended_descriptors_in (length bytes.now / 16) bytes.now) }
{
    let count = bytes.len() / 16;
    let mut entries = Vec::with_capacity(alloc, count)?;
    for index in 0..count {
        let place = 16 * index;
        let length = u64_at(bytes, place);
        let flags = u64_at(bytes, place + 8);
        entries.push(Extent { length, flags })?;
    }
    Ok(entries)
}
