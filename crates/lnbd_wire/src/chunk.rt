//! Heads of structured reply chunks (NBD protocol, "Structured reply chunk message").

ghost use Rattle.std.specs.Prelude.{◌≡◌, ◌↔◌};
ghost use Rattle.lnbd_records.specs.Numbers.{row};
ghost use Rattle.lnbd_records.specs.Fronts.{IsFront};
ghost use Rattle.lnbd_records.specs.Transmission.{structured_reply_magic};
ghost use Rattle.lnbd_wire.specs.declared.read.Read.{Read};
ghost use Rattle.lnbd_wire.specs.declared.chunk.ChunkHead.{ChunkHead};
ghost use Rattle.lnbd_wire.specs.Heads.{chunk_fields, front_of};

use crate::put::{put_u16, put_u32, put_u64};
use crate::read::{Read, read_start};
use lnbd_records::names::STRUCTURED_REPLY_MAGIC;
use lnbd_records::u32_at;

/// A structured reply chunk up to its payload.
#[derive(Clone, Copy, Debug, PartialEq, Eq)]
pub struct ChunkHead {
    /// Bit 0 is DONE.
    pub flags: u16,
    /// The chunk's type.
    pub kind: u16,
    /// The request's number.
    pub cookie: u64,
    /// How many bytes of payload follow.
    pub length: u32,
}

/// Puts a chunk up to its payload.
pub fn put_chunk_head(head: &ChunkHead, out: &mut [u8; 20])
    ensures { out.new ≡ row (chunk_fields head.now) }
{
    put_u32(out, 0, STRUCTURED_REPLY_MAGIC);
    put_u16(out, 4, head.flags);
    put_u16(out, 6, head.kind);
    put_u64(out, 8, head.cookie);
    put_u32(out, 16, head.length);
}

/// Reads a chunk up to its payload.
pub fn read_chunk_head(bytes: &[u8]) -> Read<ChunkHead>
    ensures { (read : Read ChunkHead) → (result ≡ read)
        ↔ IsFront chunk_fields 4 structured_reply_magic 20 bytes.now (front_of read) }
{
    match read_start(bytes, STRUCTURED_REPLY_MAGIC, 20) {
        Read::NeedMore => Read::NeedMore,
        Read::BadMagic(magic) => Read::BadMagic(magic),
        Read::Value(start) => {
            let length = u32_at(bytes, 16);
            Read::Value(ChunkHead {
                flags: start.flags,
                kind: start.kind,
                cookie: start.cookie,
                length,
            })
        }
    }
}
