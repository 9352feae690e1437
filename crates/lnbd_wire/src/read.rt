//! What stands at the front of bytes where a head is wanted, and what heads of requests and of chunks begin with.

ghost use Rattle.std.specs.Prelude.{◌≡◌, ◌≤◌};
ghost use Rattle.lnbd_wire.specs.Heads.{IsJudged, IsStarted};

use lnbd_records::{u16_at, u32_at, u64_at};

/// A head at the front of some bytes.
#[derive(Clone, Copy, Debug, PartialEq, Eq)]
pub enum Read<T> {
    /// The head. Bytes may follow it.
    Value(T),
    /// Too few bytes: fewer than the magic, or the magic and fewer than the head.
    NeedMore,
    /// Another number in the magic's place.
    BadMagic(u32),
}

/// How a head with a magic of 32 bits stands in bytes.
#[derive(Clone, Copy)]
pub enum Judged {
    Whole,
    NeedMore,
    BadMagic(u32),
}

/// Judges the magic, and whether the head's bytes are all there.
pub fn judge(bytes: &[u8], magic: u32, size: usize) -> Judged
    requires { 4 ≤ size }
    ensures { IsJudged magic size bytes.now result }
{
    if bytes.len() < 4 {
        return Judged::NeedMore;
    }
    let found = u32_at(bytes, 0);
    if found != magic {
        return Judged::BadMagic(found);
    }
    if bytes.len() < size {
        return Judged::NeedMore;
    }
    Judged::Whole
}

/// What a head of a request or of a chunk has behind its magic.
#[derive(Clone, Copy)]
pub struct Start {
    pub flags: u16,
    pub kind: u16,
    pub cookie: u64,
}

/// Reads what a head of this magic and this size begins with, where all of it is there.
pub fn read_start(bytes: &[u8], magic: u32, size: usize) -> Read<Start>
    requires { 16 ≤ size }
    ensures { IsStarted magic size bytes.now result }
{
    match judge(bytes, magic, size) {
        Judged::NeedMore => Read::NeedMore,
        Judged::BadMagic(other) => Read::BadMagic(other),
        Judged::Whole => {
            let flags = u16_at(bytes, 4);
            let kind = u16_at(bytes, 6);
            let cookie = u64_at(bytes, 8);
            Read::Value(Start {
                flags,
                kind,
                cookie,
            })
        }
    }
}
