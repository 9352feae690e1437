//! Heads of requests with extended headers (NBD protocol, "Extended request message").

ghost use Rattle.std.specs.Prelude.{◌≡◌, ◌↔◌};
ghost use Rattle.lnbd_model.specs.Kind.{type_of};
ghost use Rattle.lnbd_records.specs.Numbers.{row};
ghost use Rattle.lnbd_records.specs.Fronts.{IsFront};
ghost use Rattle.lnbd_records.specs.Transmission.{extended_request, extended_disconnect, extended_request_magic};
ghost use Rattle.lnbd_wire.specs.declared.read.Read.{Read};
ghost use Rattle.lnbd_wire.specs.declared.extended_request.ExtRequest.{ExtRequest};
ghost use Rattle.lnbd_wire.specs.Heads.{extended_request_fields, front_of};

use crate::put::{put_u16, put_u32, put_u64};
use crate::read::{Read, read_start};
use lnbd_model::Kind;
use lnbd_records::names::{EXTENDED_REQUEST_MAGIC, TYPE_DISC};
use lnbd_records::u64_at;

/// An extended request up to its data.
#[derive(Clone, Copy, Debug, PartialEq, Eq)]
pub struct ExtRequest {
    /// The command flags. A write's say with PAYLOAD_LEN (32) that its data follows.
    pub flags: u16,
    /// The command's type.
    pub kind: u16,
    /// The number that the reply repeats.
    pub cookie: u64,
    /// The place in the export, in bytes.
    pub offset: u64,
    /// How many bytes are asked or follow.
    pub length: u64,
}

/// Puts an extended request up to its data. The flags are put as they are: PAYLOAD_LEN is the caller's.
pub fn put_request_ext(
    kind: Kind,
    flags: u16,
    cookie: u64,
    offset: u64,
    length: u64,
    out: &mut [u8; 32],
)
    ensures { out.new ≡ row (extended_request flags (type_of kind) cookie offset length) }
{
    let kind = kind.code();
    let head = ExtRequest {
        flags,
        kind,
        cookie,
        offset,
        length,
    };
    put_head(&head, out);
}

/// Puts the extended request that ends a session.
pub fn put_disconnect_ext(out: &mut [u8; 32])
    ensures { out.new ≡ row extended_disconnect }
{
    let head = ExtRequest {
        flags: 0,
        kind: TYPE_DISC,
        cookie: 0,
        offset: 0,
        length: 0,
    };
    put_head(&head, out);
}

fn put_head(head: &ExtRequest, out: &mut [u8; 32])
    ensures { out.new ≡ row (extended_request_fields head.now) }
{
    put_u32(out, 0, EXTENDED_REQUEST_MAGIC);
    put_u16(out, 4, head.flags);
    put_u16(out, 6, head.kind);
    put_u64(out, 8, head.cookie);
    put_u64(out, 16, head.offset);
    put_u64(out, 24, head.length);
}

/// Reads an extended request up to its data.
pub fn read_request_ext(bytes: &[u8]) -> Read<ExtRequest>
    ensures { (read : Read ExtRequest) → (result ≡ read)
        ↔ IsFront extended_request_fields 4 extended_request_magic 32 bytes.now (front_of read) }
{
    match read_start(bytes, EXTENDED_REQUEST_MAGIC, 32) {
        Read::NeedMore => Read::NeedMore,
        Read::BadMagic(magic) => Read::BadMagic(magic),
        Read::Value(start) => {
            let offset = u64_at(bytes, 16);
            let length = u64_at(bytes, 24);
            Read::Value(ExtRequest {
                flags: start.flags,
                kind: start.kind,
                cookie: start.cookie,
                offset,
                length,
            })
        }
    }
}
