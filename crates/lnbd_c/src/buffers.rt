//! Buffers: bytes that a command reads into or writes from, and that come back with its result.

ghost use Rattle.std.specs.Prelude.{◌≡◌, None};
ghost use Rattle.lnbd_machine.specs.Now.{completed_now};
ghost use Rattle.lnbd_session.specs.Issues.{read_into, write};
ghost use Rattle.lnbd_c.specs.Buffers.{CompletesInto, CreatesBuffer, IssuesBuffer, LendsBuffer};

use crate::buffer_slot::BufferSlot;
use crate::slot::HandleSlot;
use c_loose::address::pointer_of;
use lnbd_model::Bytes;
use lnbd_session::{Buffer, Code};
use std::alloc::Global;

/// The most bytes of a buffer, which are the most of a read or a write (32 MiB).
const MAX_BUFFER: usize = 33_554_432;

/// Makes a buffer of so many zero bytes in an empty slot.
#[unsafe(no_mangle)]
pub extern "C" fn lnbd_buffer_create(alloc: Global, buffer: &mut BufferSlot, count: usize) -> i32
    ensures { CreatesBuffer count result buffer.old.seal.held buffer.new.seal.held }
{
    if let Some(held) = buffer.take(alloc) {
        buffer.put(held);
        return Code::Held.number();
    }
    if count > MAX_BUFFER {
        return Code::BadRequest.number();
    }
    let Ok(zeroes) = Vec::from_elem(alloc, 0u8, count) else {
        return Code::NoMemory.number();
    };
    let bytes = Bytes::from_vec(zeroes);
    match Box::new(alloc, Buffer { bytes }) {
        Ok(held) => {
            buffer.put(held);
            Code::Ok.number()
        }
        Err(_) => Code::NoMemory.number(),
    }
}

/// Lets a buffer go, and leaves the slot empty.
#[unsafe(no_mangle)]
pub extern "C" fn lnbd_buffer_close(alloc: Global, buffer: &mut BufferSlot)
    ensures { buffer.new.seal.held ≡ None }
{
    let _ = buffer.take(alloc);
}

/// The bytes of a buffer.
#[unsafe(no_mangle)]
pub extern "C" fn lnbd_buffer_bytes(
    alloc: Global,
    buffer: &mut BufferSlot,
    at: &mut *const u8,
    len: &mut usize,
) -> i32
    ensures { LendsBuffer result len.new buffer.old.seal.held buffer.new.seal.held }
{
    let Some(held) = buffer.take(alloc) else {
        return Code::Empty.number();
    };
    *at = pointer_of(held.bytes.as_slice());
    *len = held.bytes.len();
    buffer.put(held);
    Code::Ok.number()
}

/// Reads into a buffer, which the command takes. Where it is not issued the buffer stays.
#[unsafe(no_mangle)]
pub extern "C" fn lnbd_aio_pread_into(
    alloc: Global,
    slot: &mut HandleSlot,
    buffer: &mut BufferSlot,
    offset: u64,
    flags: u32,
    cookie: &mut u64,
) -> i32
    ensures { IssuesBuffer (λ bytes old. read_into bytes offset flags old) result cookie.new slot.old.seal.held slot.new.seal.held buffer.old.seal.held buffer.new.seal.held }
{
    let Some(mut session) = slot.take(alloc) else {
        return Code::Empty.number();
    };
    let Some(mut held) = buffer.take(alloc) else {
        slot.put(session);
        return Code::Empty.number();
    };
    let code = session.aio_pread_into(alloc, &mut held.bytes, offset, flags, cookie);
    slot.put(session);
    match code {
        Code::Ok => Code::Ok.number(),
        code => {
            buffer.put(held);
            code.number()
        }
    }
}

/// Writes from a buffer, which the command takes. Where it is not issued the buffer stays.
#[unsafe(no_mangle)]
pub extern "C" fn lnbd_aio_pwrite_from(
    alloc: Global,
    slot: &mut HandleSlot,
    buffer: &mut BufferSlot,
    offset: u64,
    flags: u32,
    cookie: &mut u64,
) -> i32
    ensures { IssuesBuffer (λ bytes old. write bytes offset flags old) result cookie.new slot.old.seal.held slot.new.seal.held buffer.old.seal.held buffer.new.seal.held }
{
    let Some(mut session) = slot.take(alloc) else {
        return Code::Empty.number();
    };
    let Some(mut held) = buffer.take(alloc) else {
        slot.put(session);
        return Code::Empty.number();
    };
    let code = session.aio_pwrite_from(alloc, &mut held.bytes, offset, flags, cookie);
    slot.put(session);
    match code {
        Code::Ok => Code::Ok.number(),
        code => {
            buffer.put(held);
            code.number()
        }
    }
}

/// Takes the result of a command into an empty buffer slot.
#[unsafe(no_mangle)]
pub extern "C" fn lnbd_aio_command_completed_into(
    alloc: Global,
    slot: &mut HandleSlot,
    cookie: u64,
    error: &mut u32,
    buffer: &mut BufferSlot,
) -> i32
    ensures { CompletesInto cookie result error.new slot.old.seal.held slot.new.seal.held buffer.old.seal.held buffer.new.seal.held }
{
    if let Some(held) = buffer.take(alloc) {
        buffer.put(held);
        return Code::Held.number();
    }
    let Some(mut session) = slot.take(alloc) else {
        return Code::Empty.number();
    };
    let bytes = Bytes::from_vec(Vec::new(alloc));
    let code = match Box::new(alloc, Buffer { bytes }) {
        Ok(mut held) => match session.command_completed_into(cookie, &mut held.bytes) {
            Ok(told) => {
                *error = told;
                buffer.put(held);
                Code::Ok
            }
            Err(code) => code,
        },
        Err(_) => Code::NoMemory,
    };
    slot.put(session);
    code.number()
}
