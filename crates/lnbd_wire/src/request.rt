//! Heads of requests (NBD protocol, "Request message").

ghost use Rattle.std.specs.Prelude.{◌≡◌, ◌↔◌};
ghost use Rattle.lnbd_model.specs.Kind.{type_of};
ghost use Rattle.lnbd_records.specs.Numbers.{row};
ghost use Rattle.lnbd_records.specs.Fronts.{IsFront};
ghost use Rattle.lnbd_records.specs.Transmission.{request, disconnect, request_magic};
ghost use Rattle.lnbd_wire.specs.declared.read.Read.{Read};
ghost use Rattle.lnbd_wire.specs.declared.request.RequestHead.{RequestHead};
ghost use Rattle.lnbd_wire.specs.Heads.{request_fields, front_of};

use crate::put::{put_u16, put_u32, put_u64};
use crate::read::{Read, read_start};
use lnbd_model::Kind;
use lnbd_records::names::{REQUEST_MAGIC, TYPE_DISC};
use lnbd_records::{u32_at, u64_at};

/// A request up to its data.
#[derive(Clone, Copy, Debug, PartialEq, Eq)]
pub struct RequestHead {
    /// The command flags.
    pub flags: u16,
    /// The command's type.
    pub kind: u16,
    /// The number that the reply repeats.
    pub cookie: u64,
    /// The place in the export, in bytes.
    pub offset: u64,
    /// How many bytes are asked or follow.
    pub length: u32,
}

/// Puts a request up to its data.
pub fn put_request(
    kind: Kind,
    flags: u16,
    cookie: u64,
    offset: u64,
    length: u32,
    out: &mut [u8; 28],
)
    ensures { out.new ≡ row (request flags (type_of kind) cookie offset length) }
{
    let kind = kind.code();
    let head = RequestHead {
        flags,
        kind,
        cookie,
        offset,
        length,
    };
    put_head(&head, out);
}

/// Puts the request that ends a session.
pub fn put_disconnect(out: &mut [u8; 28])
    ensures { out.new ≡ row disconnect }
{
    let head = RequestHead {
        flags: 0,
        kind: TYPE_DISC,
        cookie: 0,
        offset: 0,
        length: 0,
    };
    put_head(&head, out);
}

fn put_head(head: &RequestHead, out: &mut [u8; 28])
    ensures { out.new ≡ row (request_fields head.now) }
{
    put_u32(out, 0, REQUEST_MAGIC);
    put_u16(out, 4, head.flags);
    put_u16(out, 6, head.kind);
    put_u64(out, 8, head.cookie);
    put_u64(out, 16, head.offset);
    put_u32(out, 24, head.length);
}

/// Reads a request up to its data.
pub fn read_request(bytes: &[u8]) -> Read<RequestHead>
    ensures { (read : Read RequestHead) → (result ≡ read)
        ↔ IsFront request_fields 4 request_magic 28 bytes.now (front_of read) }
{
    match read_start(bytes, REQUEST_MAGIC, 28) {
        Read::NeedMore => Read::NeedMore,
        Read::BadMagic(magic) => Read::BadMagic(magic),
        Read::Value(start) => {
            let offset = u64_at(bytes, 16);
            let length = u32_at(bytes, 24);
            Read::Value(RequestHead {
                flags: start.flags,
                kind: start.kind,
                cookie: start.cookie,
                offset,
                length,
            })
        }
    }
}
