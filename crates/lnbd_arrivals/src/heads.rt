//! The heads of chunks, read by `lnbd_wire` and handed on in one form, with extended headers or without.

ghost use Rattle.std.specs.Prelude.{◌≡◌, false};
ghost use Rattle.lnbd_arrivals.specs.Heads.{IsChunkHead, IsSimpleHead, head_size};

use lnbd_wire::{ExtHead, Read, SimpleHead, read_chunk_head, read_chunk_head_ext, read_simple};

/// How many bytes the head of a chunk has.
pub(crate) fn head_size(extended: bool) -> usize
    ensures { result ≡ head_size extended }
{
    if extended { 32 } else { 20 }
}

/// The head of a simple reply.
pub(crate) fn simple_head(bytes: &[u8]) -> Read<SimpleHead>
    ensures { IsSimpleHead bytes.now result }
{
    read_simple(bytes)
}

/// The head of a chunk. Without extended headers its offset is 0.
pub(crate) fn chunk_head(extended: bool, bytes: &[u8]) -> Read<ExtHead>
    ensures { IsChunkHead extended bytes.now result }
{
    if extended {
        read_chunk_head_ext(bytes)
    } else {
        compact_head(bytes)
    }
}

fn compact_head(bytes: &[u8]) -> Read<ExtHead>
    ensures { IsChunkHead false bytes.now result }
{
    match read_chunk_head(bytes) {
        Read::Value(head) => Read::Value(ExtHead {
            flags: head.flags,
            kind: head.kind,
            cookie: head.cookie,
            offset: 0,
            length: u64::from(head.length),
        }),
        Read::NeedMore => Read::NeedMore,
        Read::BadMagic(magic) => Read::BadMagic(magic),
    }
}
