//! What stands at the front of some bytes where replies may come: nothing yet, a breach, a simple reply or a chunk. What comes is judged by the
//! command that waits for its cookie.

ghost use Rattle.std.specs.Prelude.{◌≡◌, ◌≢◌, ◌≤◌, ℕ, Option, Some, None, ◌&&◌, true, false, if◌then◌else◌, nat_lt, length, drop};
ghost use Rattle.std.specs.Option.{option_map};
ghost use Rattle.lnbd_records.specs.Numbers.{number_at};
ghost use Rattle.lnbd_chunks.specs.Chunk.{Waiting as Known};
ghost use Rattle.lnbd_chunks.specs.Reply.{content_size};
ghost use Rattle.lnbd_model.specs.Kind.{is_read};
ghost use Rattle.lnbd_records.specs.Transmission.{simple_reply_magic};
ghost use Rattle.lnbd_structured.specs.Waiting.{seen_waiting};
ghost use Rattle.lnbd_arrivals.specs.Frames.{SeenAs, is_extended, is_structured};
ghost use Rattle.lnbd_arrivals.specs.declared.replies.Replies.TheVariants.{Extended};
ghost use Rattle.lnbd_arrivals.specs.Heads.{IsHead, IsOther, IsSimple, magic_breach};

use crate::announced::{Announced, Carrier, data_begun};
use crate::chunk::Chunk;
use crate::heads::{chunk_head, head_size, simple_head};
use crate::replies::Replies;
use lnbd_model::{Breach, Kind};
use lnbd_records::names::{SIMPLE_REPLY_MAGIC, STRUCTURED_REPLY_MAGIC};
use lnbd_records::u64_at;
use lnbd_structured::{Waiting, breach_shown};
use lnbd_wire::{ExtHead, Read, SimpleHead};

/// What the bytes at the front show.
#[derive(Clone, Copy, Debug, PartialEq, Eq)]
pub enum Seen {
    /// Nothing yet: more bytes are needed.
    Nothing,
    /// Nothing yet, but they begin with all that stands before the data of a reply that brings data to a read; of these not all are there.
    Begun(Announced),
    /// A whole simple reply of 16 bytes and `size` bytes of data.
    Whole {
        cookie: u64,
        error: u32,
        size: usize,
    },
    /// A whole chunk, which breaks no rule of the protocol.
    Chunk(Chunk),
    /// A breach.
    Broken(Breach),
}

/// The cookie of a reply, where its head is whole, or of a chunk, whose head may lack bytes behind it: it stands in the same place of all.
#[tactic(auto, unfolding(lnbd_records::specs::Numbers::number_at))]
pub fn cookie_in(bytes: &[u8]) -> Option<u64>
    ensures { result ≡ (if nat_lt (length bytes.now) 16 then None else Some (number_at 8 8 bytes.now)) }
{
    if bytes.len() < 16 {
        None
    } else {
        Some(u64_at(bytes, 8))
    }
}

fn is_read(kind: Kind) -> bool
    ensures { result ≡ is_read kind }
{
    matches!(kind, Kind::Read)
}

/// How many bytes follow the head of a simple reply with this error.
fn content_size(command: &Waiting, error: u32) -> u64
    ensures { result ≡ content_size (seen_waiting command.now) error }
{
    if error == 0 && is_read(command.kind) {
        command.length
    } else {
        0
    }
}

/// Whether a command of this kind is answered by chunks alone.
fn wants_chunks(replies: Replies, kind: Kind) -> bool
    ensures { result ≡ (is_structured replies && is_read kind) }
{
    replies.is_structured() && is_read(kind)
}

/// A simple reply with this head, where extended headers are off.
fn look_simple(replies: Replies, waiting: Option<Waiting>, head: &SimpleHead, bytes: &[u8]) -> Seen
    requires compact { is_extended replies ≡ false }
    requires head { IsSimple bytes.now head.now }
    ensures { (waited : ℕ → Option Known) → waited (number_at 8 8 bytes.now) ≡ option_map seen_waiting waiting → SeenAs replies waited bytes.now result }
{
    match waiting {
        None => Seen::Broken(Breach::UnknownCookie),
        Some(command) => {
            if wants_chunks(replies, command.kind) {
                return Seen::Broken(Breach::SimpleForRead);
            }
            let size = content_size(&command, head.error);
            if ((bytes.len() - 16) as u64) < size {
                return Seen::Begun(Announced {
                    cookie: head.cookie,
                    offset: command.offset,
                    size: size as usize,
                    carrier: Carrier::Reply,
                });
            }
            Seen::Whole {
                cookie: head.cookie,
                error: head.error,
                size: size as usize,
            }
        }
    }
}

/// A chunk with this head, where structured replies are on.
fn look_chunk(replies: Replies, waiting: Option<Waiting>, head: &ExtHead, bytes: &[u8]) -> Seen
    requires agreed { is_structured replies ≡ true }
    requires head { IsHead (is_extended replies) bytes.now head.now }
    ensures { (waited : ℕ → Option Known) → waited (number_at 8 8 bytes.now) ≡ option_map seen_waiting waiting → SeenAs replies waited bytes.now result }
{
    match waiting {
        None => Seen::Broken(Breach::UnknownCookie),
        Some(command) => {
            let extended = replies.is_extended();
            let (_, payload) = bytes.split_at(head_size(extended));
            if let Some(breach) = breach_shown(&command, extended, head, payload) {
                return Seen::Broken(breach);
            }
            if (payload.len() as u64) < head.length {
                return match data_begun(head, payload) {
                    Some(announced) => Seen::Begun(announced),
                    None => Seen::Nothing,
                };
            }
            Seen::Chunk(Chunk {
                extended,
                head: *head,
                size: head_size(extended) + head.length as usize,
            })
        }
    }
}

/// What bytes show while extended headers are off and no simple reply begins them.
fn look_structured(replies: Replies, waiting: Option<Waiting>, bytes: &[u8]) -> Seen
    requires compact { is_extended replies ≡ false }
    requires other { IsOther simple_reply_magic bytes.now }
    ensures { (waited : ℕ → Option Known) → (16 ≤ length bytes.now → waited (number_at 8 8 bytes.now) ≡ option_map seen_waiting waiting) → SeenAs replies waited bytes.now result }
{
    if !replies.is_structured() {
        return Seen::Broken(Breach::BadReplyMagic);
    }
    match chunk_head(false, bytes) {
        Read::Value(head) => look_chunk(replies, waiting, &head, bytes),
        Read::NeedMore => Seen::Nothing,
        Read::BadMagic(_) => Seen::Broken(Breach::BadReplyMagic),
    }
}

/// What bytes show while extended headers are off.
fn look_compact(replies: Replies, waiting: Option<Waiting>, bytes: &[u8]) -> Seen
    requires { is_extended replies ≡ false }
    ensures { (waited : ℕ → Option Known) → (16 ≤ length bytes.now → waited (number_at 8 8 bytes.now) ≡ option_map seen_waiting waiting) → SeenAs replies waited bytes.now result }
{
    match simple_head(bytes) {
        Read::Value(head) => look_simple(replies, waiting, &head, bytes),
        Read::NeedMore => Seen::Nothing,
        Read::BadMagic(_) => look_structured(replies, waiting, bytes),
    }
}

/// The breach of a magic that is no extended chunk's, while extended headers are on.
fn magic_breach(magic: u32) -> Breach
    ensures { result ≡ magic_breach magic }
{
    if magic == SIMPLE_REPLY_MAGIC || magic == STRUCTURED_REPLY_MAGIC {
        Breach::MixedHeaders
    } else {
        Breach::BadReplyMagic
    }
}

/// What bytes show while extended headers are on.
fn look_extended(waiting: Option<Waiting>, bytes: &[u8]) -> Seen
    ensures { (waited : ℕ → Option Known) → (16 ≤ length bytes.now → waited (number_at 8 8 bytes.now) ≡ option_map seen_waiting waiting) → SeenAs Extended waited bytes.now result }
{
    match chunk_head(true, bytes) {
        Read::Value(head) => look_chunk(Replies::Extended, waiting, &head, bytes),
        Read::NeedMore => Seen::Nothing,
        Read::BadMagic(magic) => Seen::Broken(magic_breach(magic)),
    }
}

/// What the bytes at the front show where the server replies so and the command of their cookie, if it waits, is this one. A breach is shown
/// by the byte that shows it, and what is whole by its last byte.
pub fn look_frame(replies: Replies, waiting: Option<Waiting>, bytes: &[u8]) -> Seen
    ensures { (waited : ℕ → Option Known) → (16 ≤ length bytes.now → waited (number_at 8 8 bytes.now) ≡ option_map seen_waiting waiting) → SeenAs replies waited bytes.now result }
{
    match replies {
        Replies::Extended => look_extended(waiting, bytes),
        Replies::Simple => look_compact(Replies::Simple, waiting, bytes),
        Replies::Structured => look_compact(Replies::Structured, waiting, bytes),
    }
}
