//! The bytes of replies to requests: a simple reply, or one chunk that is the last. What replies tell, the
//! export says.

ghost use Rattle.std.specs.Prelude.{◌≡◌, ◌≢◌, ◌+◌, ◌<◌, ◌≤◌, ◌^◌, ◌*◌, ◌%◌, ◌++◌, IfOk, OnOk, OnErr, length};
ghost use Rattle.lnbd_records.specs.Limits.{max_data, max_descriptors};
ghost use Rattle.lnbd_records.specs.Numbers.{row};
ghost use Rattle.lnbd_records.specs.Transmission.{block_status, extended_block_status, simple_reply};
ghost use Rattle.lnbd_export.specs.Requests.{Refused, Done, Content, Status, reply, most};
ghost use Rattle.lnbd_server.specs.Replies.{put_reply, put_framed, put_chunk, put_extended, error_chunk, content_chunk};

use crate::outbox::Outbox;
use lnbd_export::{Agreed, Export, Replies, Request};
use lnbd_model::{Extent, Kind, NoMemory};
use lnbd_records::names::{
    CMD_FLAG_REQ_ONE, MAX_DESCRIPTORS, REPLY_FLAG_DONE, REPLY_TYPE_BLOCK_STATUS,
    REPLY_TYPE_BLOCK_STATUS_EXT, REPLY_TYPE_ERROR, REPLY_TYPE_NONE, REPLY_TYPE_OFFSET_DATA,
};
use lnbd_records::{push_u32, push_u64};
use lnbd_wire::{ChunkHead, ExtHead, put_chunk_head, put_chunk_head_ext, put_simple};
use std::alloc::Global;

/// The number of base:allocation.
const ALLOCATION: u32 = 1;

/// Puts the reply to a request behind what waits. On `NoMemory` nothing changes.
pub(crate) fn put_reply(
    alloc: Global,
    export: &Export,
    agreed: Agreed,
    request: Request,
    out: &mut Outbox,
) -> Result<(), NoMemory>
    ensures ok { OnOk result (out.new ≡ out.old ++ put_reply agreed.replies request (reply agreed export.now request)) }
    ensures err { OnErr result (out.new ≡ out.old) }
{
    if let Some(error) = export.refusal(agreed, request) {
        return put_refused(agreed.replies, request, error, out);
    }
    match request.kind {
        Some(Kind::Read) => {
            let content = export.read(request.offset, request.length);
            put_content(agreed.replies, request, content, out)
        }
        Some(Kind::BlockStatus) => {
            let most = most(request.flags);
            let statuses = export.statuses(alloc, request.offset, request.length, most)?;
            put_statuses(alloc, agreed.replies, request, &statuses, out)
        }
        _ => put_done(agreed.replies, request, out),
    }
}

/// How many descriptors are told at most.
fn most(flags: u16) -> usize
    ensures { result ≡ most flags }
{
    if flags & CMD_FLAG_REQ_ONE != 0 {
        1
    } else {
        MAX_DESCRIPTORS as usize
    }
}

fn put_refused(
    replies: Replies,
    request: Request,
    error: u32,
    out: &mut Outbox,
) -> Result<(), NoMemory>
    ensures ok { OnOk result (out.new ≡ out.old ++ put_reply replies request (Refused error)) }
    ensures err { OnErr result (out.new ≡ out.old) }
{
    match replies {
        Replies::Simple => put_bare(request.cookie, error, out),
        Replies::Structured => put_error(replies, request, error, out),
        Replies::Extended => put_error(replies, request, error, out),
    }
}

fn put_done(replies: Replies, request: Request, out: &mut Outbox) -> Result<(), NoMemory>
    ensures ok { OnOk result (out.new ≡ out.old ++ put_reply replies request Done) }
    ensures err { OnErr result (out.new ≡ out.old) }
{
    match replies {
        Replies::Simple => put_bare(request.cookie, 0, out),
        Replies::Structured => put_chunk(replies, request, REPLY_TYPE_NONE, &[], &[], out),
        Replies::Extended => put_chunk(replies, request, REPLY_TYPE_NONE, &[], &[], out),
    }
}

/// The bytes of a read, copied once.
fn put_content(
    replies: Replies,
    request: Request,
    content: &[u8],
    out: &mut Outbox,
) -> Result<(), NoMemory>
    requires { length content.now ≤ max_data }
    ensures ok { OnOk result (out.new ≡ out.old ++ put_reply replies request (Content content.now)) }
    ensures err { OnErr result (out.new ≡ out.old) }
{
    match replies {
        Replies::Simple => put_plain(request.cookie, 0, content, out),
        Replies::Structured => put_data(replies, request, content, out),
        Replies::Extended => put_data(replies, request, content, out),
    }
}

fn put_statuses(
    alloc: Global,
    replies: Replies,
    request: Request,
    statuses: &[Extent],
    out: &mut Outbox,
) -> Result<(), NoMemory>
    requires { length statuses.now ≤ max_descriptors }
    ensures ok { OnOk result (out.new ≡ out.old ++ put_reply replies request (Status statuses.now)) }
    ensures err { OnErr result (out.new ≡ out.old) }
{
    match replies {
        Replies::Simple => put_bare(request.cookie, 0, out),
        Replies::Structured => {
            let payload = block_status(alloc, statuses)?;
            put_chunk(
                replies,
                request,
                REPLY_TYPE_BLOCK_STATUS,
                &[],
                &payload,
                out,
            )
        }
        Replies::Extended => {
            let payload = extended_block_status(alloc, statuses)?;
            put_chunk(
                replies,
                request,
                REPLY_TYPE_BLOCK_STATUS_EXT,
                &[],
                &payload,
                out,
            )
        }
    }
}

/// The chunk of an error, without a message.
fn put_error(
    replies: Replies,
    request: Request,
    error: u32,
    out: &mut Outbox,
) -> Result<(), NoMemory>
    requires { replies ≢ Replies.Simple }
    ensures ok { OnOk result (out.new ≡ out.old ++ put_framed replies request (error_chunk error)) }
    ensures err { OnErr result (out.new ≡ out.old) }
{
    let error = error.to_be_bytes();
    put_chunk(replies, request, REPLY_TYPE_ERROR, &error, &[0, 0], out)
}

/// The chunk of a read's bytes; of no bytes there is none.
fn put_data(
    replies: Replies,
    request: Request,
    content: &[u8],
    out: &mut Outbox,
) -> Result<(), NoMemory>
    requires framed { replies ≢ Replies.Simple }
    requires small { length content.now ≤ max_data }
    ensures ok { OnOk result (out.new ≡ out.old ++ put_framed replies request (content_chunk request.offset content.now)) }
    ensures err { OnErr result (out.new ≡ out.old) }
{
    if content.is_empty() {
        return put_chunk(replies, request, REPLY_TYPE_NONE, &[], &[], out);
    }
    let offset = request.offset.to_be_bytes();
    put_chunk(
        replies,
        request,
        REPLY_TYPE_OFFSET_DATA,
        &offset,
        content,
        out,
    )
}

/// The payload of REPLY_TYPE_BLOCK_STATUS, whose numbers are of 32 bits.
fn block_status(alloc: Global, statuses: &[Extent]) -> Result<Vec<u8>, NoMemory>
    ensures bytes { IfOk result (λ payload. payload.items ≡ row (block_status 1 statuses.now)) }
    ensures size { IfOk result (λ payload. length payload.items ≡ 4 + 8 * length statuses.now) }
{
    let mut payload = Vec::new(alloc);
    push_u32(&mut payload, ALLOCATION)?;
    for extent in statuses {
        push_u32(&mut payload, low(extent.length))?;
        push_u32(&mut payload, low(extent.flags))?;
    }
    Ok(payload)
}

/// The payload of BLOCK_STATUS_EXT.
fn extended_block_status(alloc: Global, statuses: &[Extent]) -> Result<Vec<u8>, NoMemory>
    requires { length statuses.now ≤ max_descriptors }
    ensures bytes { IfOk result (λ payload. payload.items ≡ row (extended_block_status 1 statuses.now)) }
    ensures size { IfOk result (λ payload. length payload.items ≡ 8 + 16 * length statuses.now) }
{
    let mut payload = Vec::new(alloc);
    push_u32(&mut payload, ALLOCATION)?;
    push_u32(&mut payload, statuses.len() as u32)?;
    for extent in statuses {
        push_u64(&mut payload, extent.length)?;
        push_u64(&mut payload, extent.flags)?;
    }
    Ok(payload)
}

/// The lowest 32 bits of a number, which are all of it where headers aren't extended.
fn low(number: u64) -> u32
    ensures { result ≡ number % 2 ^ 32 }
{
    (number % (1 << 32)) as u32
}

/// A simple reply alone.
fn put_bare(cookie: u64, error: u32, out: &mut Outbox) -> Result<(), NoMemory>
    ensures ok { OnOk result (out.new ≡ out.old ++ row (simple_reply error cookie)) }
    ensures err { OnErr result (out.new ≡ out.old) }
{
    let mut head = [0; 16];
    put_simple(error, cookie, &mut head);
    out.append(&head, &[], &[])
}

/// A simple reply, with the data of a read.
fn put_plain(cookie: u64, error: u32, content: &[u8], out: &mut Outbox) -> Result<(), NoMemory>
    ensures ok { OnOk result (out.new ≡ out.old ++ (row (simple_reply error cookie) ++ content.now)) }
    ensures err { OnErr result (out.new ≡ out.old) }
{
    let mut head = [0; 16];
    put_simple(error, cookie, &mut head);
    out.append(&head, content, &[])
}

/// A chunk whose payload stands in two pieces. Simple replies have no chunks.
fn put_chunk(
    replies: Replies,
    request: Request,
    kind: u16,
    first: &[u8],
    second: &[u8],
    out: &mut Outbox,
) -> Result<(), NoMemory>
    requires framed { replies ≢ Replies.Simple }
    requires small { length first.now + length second.now < 2 ^ 32 }
    ensures ok { OnOk result (out.new ≡ out.old ++ put_framed replies request (record { type = kind; payload = first.now ++ second.now })) }
    ensures err { OnErr result (out.new ≡ out.old) }
{
    if replies.is_extended() {
        put_extended(request, kind, first, second, out)
    } else {
        put_compact(request, kind, first, second, out)
    }
}

fn put_compact(
    request: Request,
    kind: u16,
    first: &[u8],
    second: &[u8],
    out: &mut Outbox,
) -> Result<(), NoMemory>
    requires { length first.now + length second.now < 2 ^ 32 }
    ensures ok { OnOk result (out.new ≡ out.old ++ put_chunk request.cookie (record { type = kind; payload = first.now ++ second.now })) }
    ensures err { OnErr result (out.new ≡ out.old) }
{
    let mut head = [0; 20];
    let chunk = ChunkHead {
        flags: REPLY_FLAG_DONE,
        kind,
        cookie: request.cookie,
        length: (first.len() + second.len()) as u32,
    };
    put_chunk_head(&chunk, &mut head);
    out.append(&head, first, second)
}

fn put_extended(
    request: Request,
    kind: u16,
    first: &[u8],
    second: &[u8],
    out: &mut Outbox,
) -> Result<(), NoMemory>
    requires { length first.now + length second.now < 2 ^ 32 }
    ensures ok { OnOk result (out.new ≡ out.old ++ put_extended request.cookie request.offset (record { type = kind; payload = first.now ++ second.now })) }
    ensures err { OnErr result (out.new ≡ out.old) }
{
    let mut head = [0; 32];
    let chunk = ExtHead {
        flags: REPLY_FLAG_DONE,
        kind,
        cookie: request.cookie,
        offset: request.offset,
        length: (first.len() + second.len()) as u64,
    };
    put_chunk_head_ext(&chunk, &mut head);
    out.append(&head, first, second)
}
