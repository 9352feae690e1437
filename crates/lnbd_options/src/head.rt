//! Heads of option replies.

ghost use Rattle.std.specs.Prelude.{◌≡◌, ◌↔◌};
ghost use Rattle.lnbd_records.specs.Fronts.{IsFront};
ghost use Rattle.lnbd_records.specs.Handshake.{option_reply_magic};
ghost use Rattle.lnbd_options.specs.declared.head.OptionHead.{OptionHead};
ghost use Rattle.lnbd_options.specs.declared.head.Read64.{Read64};
ghost use Rattle.lnbd_options.specs.Heads.{reply_fields, front_of};

use lnbd_records::names::{OPTION_REPLY_HEAD_SIZE, OPTION_REPLY_MAGIC};
use lnbd_records::{u32_at, u64_at};

/// An option reply up to its data.
#[derive(Clone, Copy, Debug, PartialEq, Eq)]
pub struct OptionHead {
    /// The option that is answered.
    pub option: u32,
    /// The reply's type.
    pub kind: u32,
    /// How many bytes of data follow.
    pub length: u32,
}

/// A head with a magic of 64 bits at the front of some bytes.
#[derive(Clone, Copy, Debug, PartialEq, Eq)]
pub enum Read64<T> {
    /// The head. Bytes may follow it.
    Value(T),
    /// Too few bytes: fewer than the magic, or the magic and fewer than the head.
    NeedMore,
    /// Another number in the magic's place.
    BadMagic(u64),
}

/// Reads an option reply up to its data.
pub fn read_head(bytes: &[u8]) -> Read64<OptionHead>
    ensures { (read : Read64 OptionHead) → (result ≡ read)
        ↔ IsFront reply_fields 8 option_reply_magic 20 bytes.now (front_of read) }
{
    if bytes.len() < 8 {
        return Read64::NeedMore;
    }
    let found = u64_at(bytes, 0);
    if found != OPTION_REPLY_MAGIC {
        return Read64::BadMagic(found);
    }
    if bytes.len() < OPTION_REPLY_HEAD_SIZE {
        return Read64::NeedMore;
    }
    let option = u32_at(bytes, 8);
    let kind = u32_at(bytes, 12);
    let length = u32_at(bytes, 16);
    Read64::Value(OptionHead {
        option,
        kind,
        length,
    })
}
