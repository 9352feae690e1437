//! Heads of reply chunks with extended headers (NBD protocol, "Extended reply chunk message").

ghost use Rattle.std.specs.Prelude.{◌≡◌, ◌↔◌};
ghost use Rattle.lnbd_records.specs.Numbers.{row};
ghost use Rattle.lnbd_records.specs.Fronts.{IsFront};
ghost use Rattle.lnbd_records.specs.Transmission.{extended_reply_magic};
ghost use Rattle.lnbd_wire.specs.declared.read.Read.{Read};
ghost use Rattle.lnbd_wire.specs.declared.extended_chunk.ExtHead.{ExtHead};
ghost use Rattle.lnbd_wire.specs.Heads.{extended_chunk_fields, front_of};

use crate::put::{put_u16, put_u32, put_u64};
use crate::read::{Read, read_start};
use lnbd_records::names::EXTENDED_REPLY_MAGIC;
use lnbd_records::u64_at;

/// An extended reply chunk up to its payload.
#[derive(Clone, Copy, Debug, PartialEq, Eq)]
pub struct ExtHead {
    /// Bit 0 is DONE.
    pub flags: u16,
    /// The chunk's type.
    pub kind: u16,
    /// The request's number.
    pub cookie: u64,
    /// The request's offset, in bytes.
    pub offset: u64,
    /// How many bytes of payload follow.
    pub length: u64,
}

/// Puts an extended chunk up to its payload.
pub fn put_chunk_head_ext(head: &ExtHead, out: &mut [u8; 32])
    ensures { out.new ≡ row (extended_chunk_fields head.now) }
{
    put_u32(out, 0, EXTENDED_REPLY_MAGIC);
    put_u16(out, 4, head.flags);
    put_u16(out, 6, head.kind);
    put_u64(out, 8, head.cookie);
    put_u64(out, 16, head.offset);
    put_u64(out, 24, head.length);
}

/// Reads an extended chunk up to its payload.
pub fn read_chunk_head_ext(bytes: &[u8]) -> Read<ExtHead>
    ensures { (read : Read ExtHead) → (result ≡ read)
        ↔ IsFront extended_chunk_fields 4 extended_reply_magic 32 bytes.now (front_of read) }
{
    match read_start(bytes, EXTENDED_REPLY_MAGIC, 32) {
        Read::NeedMore => Read::NeedMore,
        Read::BadMagic(magic) => Read::BadMagic(magic),
        Read::Value(start) => {
            let offset = u64_at(bytes, 16);
            let length = u64_at(bytes, 24);
            Read::Value(ExtHead {
                flags: start.flags,
                kind: start.kind,
                cookie: start.cookie,
                offset,
                length,
            })
        }
    }
}
