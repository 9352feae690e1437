//! What the front of a reply that brings data to a read announces: all that stands before the data, which is the head of a simple reply, or the
//! head of a chunk and the place of its data. Whether the data have a content fault is not judged here.

ghost use Rattle.std.specs.Prelude.{◌≡◌, ◌<◌, ◌≤◌, ◌-◌, IfNone, IfSome, length};
ghost use Rattle.lnbd_records.specs.Numbers.{number_at};
ghost use Rattle.lnbd_records.specs.Transmission.{reply_type_offset_data};
ghost use Rattle.lnbd_chunks.specs.Chunk.{is_done};
ghost use Rattle.lnbd_structured.specs.Assembly.{head_of};
ghost use Rattle.lnbd_arrivals.specs.Frames.{is_last};
ghost use Rattle.lnbd_arrivals.specs.declared.announced.Carrier.TheVariants as carrier;

use lnbd_records::names::REPLY_TYPE_OFFSET_DATA;
use lnbd_records::u64_at;
use lnbd_structured::is_done;
use lnbd_wire::ExtHead;

/// How many bytes the place of data in the export has, which begins the payload of a chunk of data.
const PLACE: usize = 8;

/// What brings data to a read.
#[derive(Clone, Copy, Debug, PartialEq, Eq)]
pub enum Carrier {
    /// A simple reply, which brings all of them.
    Reply,
    /// A chunk, which is the last of its read or not.
    Chunk { last: bool },
}

impl Carrier {
    /// Whether nothing follows for the same read.
    pub fn is_last(self) -> bool
        ensures { result ≡ is_last self }
    {
        match self {
            Carrier::Reply => true,
            Carrier::Chunk { last } => last,
        }
    }
}

/// A reply without error that brings data to a read: what stands before them is there, and nothing else.
#[derive(Clone, Copy, Debug, PartialEq, Eq)]
pub struct Announced {
    pub cookie: u64,
    /// Where in the export the data stand, in bytes.
    pub offset: u64,
    /// In bytes.
    pub size: usize,
    pub carrier: Carrier,
}

/// The data that a chunk announces whose head is this and whose payload begins with these bytes, which break no rule: where it is one of data and
/// tells their place.
pub(crate) fn data_begun(head: &ExtHead, payload: &[u8]) -> Option<Announced>
    ensures some { IfSome result (λ announced. (head.now.kind ≡ reply_type_offset_data) × (8 ≤ length payload.now)
        × (announced ≡ record { cookie = head.now.cookie; offset = number_at 0 8 payload.now; size = head.now.length - 8; carrier = carrier.Chunk (is_done (head_of head.now)) })) }
    ensures none { IfNone result (head.now.kind ≡ reply_type_offset_data → length payload.now < 8) }
{
    if head.kind != REPLY_TYPE_OFFSET_DATA || payload.len() < PLACE {
        return None;
    }
    Some(Announced {
        cookie: head.cookie,
        offset: u64_at(payload, 0),
        size: head.length.saturating_sub(PLACE as u64) as usize,
        carrier: Carrier::Chunk {
            last: is_done(head.flags),
        },
    })
}
