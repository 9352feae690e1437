//! Heads of simple replies (NBD protocol, "Simple reply message").

ghost use Rattle.std.specs.Prelude.{◌≡◌, ◌↔◌};
ghost use Rattle.lnbd_records.specs.Numbers.{row};
ghost use Rattle.lnbd_records.specs.Fronts.{IsFront};
ghost use Rattle.lnbd_records.specs.Transmission.{simple_reply, simple_reply_magic};
ghost use Rattle.lnbd_wire.specs.declared.read.Read.{Read};
ghost use Rattle.lnbd_wire.specs.Heads.{simple_fields, front_of};

use crate::put::{put_u32, put_u64};
use crate::read::{Judged, Read, judge};
use lnbd_records::names::SIMPLE_REPLY_MAGIC;
use lnbd_records::{u32_at, u64_at};

/// A simple reply up to its data.
#[derive(Clone, Copy, Debug, PartialEq, Eq)]
pub struct SimpleHead {
    /// The error that the server tells, or 0.
    pub error: u32,
    /// The request's number.
    pub cookie: u64,
}

/// Puts a simple reply up to its data.
pub fn put_simple(error: u32, cookie: u64, out: &mut [u8; 16])
    ensures { out.new ≡ row (simple_reply error cookie) }
{
    put_u32(out, 0, SIMPLE_REPLY_MAGIC);
    put_u32(out, 4, error);
    put_u64(out, 8, cookie);
}

/// Reads a simple reply up to its data.
pub fn read_simple(bytes: &[u8]) -> Read<SimpleHead>
    ensures { (read : Read SimpleHead) → (result ≡ read)
        ↔ IsFront simple_fields 4 simple_reply_magic 16 bytes.now (front_of read) }
{
    match judge(bytes, SIMPLE_REPLY_MAGIC, 16) {
        Judged::NeedMore => Read::NeedMore,
        Judged::BadMagic(magic) => Read::BadMagic(magic),
        Judged::Whole => {
            let error = u32_at(bytes, 4);
            let cookie = u64_at(bytes, 8);
            Read::Value(SimpleHead { error, cookie })
        }
    }
}
