//! Results of commands, and what they were told, until it is taken.

ghost use Rattle.std.specs.Prelude.{◌≡◌, [], length};
ghost use Rattle.lnbd_machine.specs.Now.{completed_now, failure_now, peeked_now};
ghost use Rattle.lnbd_session.specs.Tells.{chunk_told, extent_told, extents_told, failure_told, next_done};
ghost use Rattle.lnbd_c.specs.Answers.{Answers, Clears, Completes, Gets, Outs, TellsChunk, TellsExtent, TellsExtents, TellsFailure, known};

use crate::slot::HandleSlot;
use c_loose::address::pointer_of;
use lnbd_session::{Code, origin_number};
use std::alloc::Global;

/// The command that completed first and is not taken.
#[unsafe(no_mangle)]
pub extern "C" fn lnbd_aio_peek_command_completed(
    alloc: Global,
    slot: &mut HandleSlot,
    cookie: &mut u64,
) -> i32
    ensures { Answers result slot.old.seal.held slot.new.seal.held (λ code old new. (new ≡ old) × Outs (next_done (peeked_now (known old))) code cookie.new) }
{
    let Some(session) = slot.take(alloc) else {
        return Code::Empty.number();
    };
    let code = match session.peek() {
        Ok(first) => {
            *cookie = first;
            Code::Ok
        }
        Err(code) => code,
    };
    slot.put(session);
    code.number()
}

/// The first error of a completed command, and where it came from.
#[unsafe(no_mangle)]
pub extern "C" fn lnbd_failure(
    alloc: Global,
    slot: &mut HandleSlot,
    cookie: u64,
    error: &mut u32,
    origin: &mut u32,
) -> i32
    ensures { Answers result slot.old.seal.held slot.new.seal.held (λ code old new. Gets old new (failure_told (failure_now (known old) cookie)) code (TellsFailure error.new origin.new)) }
{
    let Some(session) = slot.take(alloc) else {
        return Code::Empty.number();
    };
    let code = match session.failure(cookie) {
        Ok(failure) => {
            *error = failure.error;
            *origin = origin_number(failure.origin);
            Code::Ok
        }
        Err(code) => code,
    };
    slot.put(session);
    code.number()
}

/// Takes the result of a command: its error, 0 for none, and its bytes, which stand there until the next result is taken.
#[unsafe(no_mangle)]
pub extern "C" fn lnbd_aio_command_completed(
    alloc: Global,
    slot: &mut HandleSlot,
    cookie: u64,
    error: &mut u32,
    at: &mut *const u8,
    len: &mut usize,
) -> i32
    ensures { Answers result slot.old.seal.held slot.new.seal.held (λ code old new. Completes (completed_now (known old) cookie) cookie code error.new len.new old new) }
{
    let Some(mut session) = slot.take(alloc) else {
        return Code::Empty.number();
    };
    let code = match session.command_completed(cookie) {
        Ok(told) => {
            *error = told;
            *at = pointer_of(session.taken.as_slice());
            *len = session.taken.len();
            Code::Ok
        }
        Err(code) => code,
    };
    slot.put(session);
    code.number()
}

/// The extents at this index of those that were told and are not cleared, from 0: whose they are, of which context, where they begin, and how many
/// there are.
#[unsafe(no_mangle)]
pub extern "C" fn lnbd_get_extents(
    alloc: Global,
    slot: &mut HandleSlot,
    index: usize,
    cookie: &mut u64,
    context: &mut *const u8,
    n: &mut usize,
    offset: &mut u64,
    error: &mut u32,
    count: &mut usize,
) -> i32
    ensures { Answers result slot.old.seal.held slot.new.seal.held (λ code old new. Gets old new (extents_told index old.told) code (TellsExtents cookie.new n.new offset.new error.new count.new)) }
{
    let Some(session) = slot.take(alloc) else {
        return Code::Empty.number();
    };
    let code = match session.extents(index) {
        Ok(told) => {
            *cookie = told.cookie;
            *context = pointer_of(told.context.as_slice());
            *n = told.context.len();
            *offset = told.offset;
            *error = told.error;
            *count = told.extents.len();
            Code::Ok
        }
        Err(code) => code,
    };
    slot.put(session);
    code.number()
}

/// The extent at this place of those at this index, both from 0.
#[unsafe(no_mangle)]
pub extern "C" fn lnbd_get_extent(
    alloc: Global,
    slot: &mut HandleSlot,
    index: usize,
    place: usize,
    length: &mut u64,
    flags: &mut u64,
) -> i32
    ensures { Answers result slot.old.seal.held slot.new.seal.held (λ code old new. Gets old new (extent_told index place old.told) code (TellsExtent length.new flags.new)) }
{
    let Some(session) = slot.take(alloc) else {
        return Code::Empty.number();
    };
    let code = match session.extent(index, place) {
        Ok(extent) => {
            *length = extent.length;
            *flags = extent.flags;
            Code::Ok
        }
        Err(code) => code,
    };
    slot.put(session);
    code.number()
}

/// The piece at this index of those that reads by `lnbd_aio_pread_structured` were told and that are not cleared, from 0.
#[unsafe(no_mangle)]
pub extern "C" fn lnbd_get_chunk(
    alloc: Global,
    slot: &mut HandleSlot,
    index: usize,
    cookie: &mut u64,
    offset: &mut u64,
    length: &mut u64,
    status: &mut u32,
    error: &mut u32,
) -> i32
    ensures { Answers result slot.old.seal.held slot.new.seal.held (λ code old new. Gets old new (chunk_told index old.told) code (TellsChunk cookie.new offset.new length.new status.new error.new)) }
{
    let Some(session) = slot.take(alloc) else {
        return Code::Empty.number();
    };
    let code = match session.chunk(index) {
        Ok(told) => {
            *cookie = told.cookie;
            *offset = told.offset;
            *length = told.length;
            *status = told.status;
            *error = told.error;
            Code::Ok
        }
        Err(code) => code,
    };
    slot.put(session);
    code.number()
}

/// Drops the extents that were told.
#[unsafe(no_mangle)]
pub extern "C" fn lnbd_clear_extents(alloc: Global, slot: &mut HandleSlot) -> i32
    ensures clears { Answers result slot.old.seal.held slot.new.seal.held (λ code old new. (code ≡ Code.Ok) × Clears old new × (new.told.extents.items ≡ [])) }
    ensures chunks { Answers result slot.old.seal.held slot.new.seal.held (λ code old new. new.told.chunks.items ≡ old.told.chunks.items) }
{
    let Some(mut session) = slot.take(alloc) else {
        return Code::Empty.number();
    };
    session.clear_extents();
    slot.put(session);
    Code::Ok.number()
}

/// Drops the pieces that were told.
#[unsafe(no_mangle)]
pub extern "C" fn lnbd_clear_chunks(alloc: Global, slot: &mut HandleSlot) -> i32
    ensures clears { Answers result slot.old.seal.held slot.new.seal.held (λ code old new. (code ≡ Code.Ok) × Clears old new × (new.told.chunks.items ≡ [])) }
    ensures extents { Answers result slot.old.seal.held slot.new.seal.held (λ code old new. new.told.extents.items ≡ old.told.extents.items) }
{
    let Some(mut session) = slot.take(alloc) else {
        return Code::Empty.number();
    };
    session.clear_chunks();
    slot.put(session);
    Code::Ok.number()
}
