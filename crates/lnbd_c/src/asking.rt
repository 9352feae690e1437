//! Issuing commands.

ghost use Rattle.std.specs.Prelude.{◌≡◌};
ghost use Rattle.lnbd_session.specs.Issues.{block_status, cache, flush, read, structured_read, trim, write, zero};
ghost use Rattle.lnbd_c.specs.Answers.{Answers, Issues, IssuesRead};

use crate::slot::HandleSlot;
use lnbd_session::Code;
use std::alloc::Global;

/// Asks for so many bytes from this offset on.
#[unsafe(no_mangle)]
pub extern "C" fn lnbd_aio_pread(
    alloc: Global,
    slot: &mut HandleSlot,
    count: usize,
    offset: u64,
    flags: u32,
    cookie: &mut u64,
) -> i32
    ensures { Answers result slot.old.seal.held slot.new.seal.held (λ code old new. IssuesRead count (read count offset flags old) code cookie.new old new) }
{
    let Some(mut session) = slot.take(alloc) else {
        return Code::Empty.number();
    };
    let code = session.aio_pread(alloc, count, offset, flags, cookie);
    slot.put(session);
    code.number()
}

/// The same, where each piece of them is kept as it is told.
#[unsafe(no_mangle)]
pub extern "C" fn lnbd_aio_pread_structured(
    alloc: Global,
    slot: &mut HandleSlot,
    count: usize,
    offset: u64,
    flags: u32,
    cookie: &mut u64,
) -> i32
    ensures { Answers result slot.old.seal.held slot.new.seal.held (λ code old new. IssuesRead count (structured_read count offset flags old) code cookie.new old new) }
{
    let Some(mut session) = slot.take(alloc) else {
        return Code::Empty.number();
    };
    let code = session.aio_pread_structured(alloc, count, offset, flags, cookie);
    slot.put(session);
    code.number()
}

/// Writes these bytes, which are copied, from this offset on.
#[unsafe(no_mangle)]
pub extern "C" fn lnbd_aio_pwrite(
    alloc: Global,
    slot: &mut HandleSlot,
    bytes: &[u8],
    offset: u64,
    flags: u32,
    cookie: &mut u64,
) -> i32
    ensures { Answers result slot.old.seal.held slot.new.seal.held (λ code old new. Issues (write bytes.now offset flags old) code cookie.new old new) }
{
    let Some(mut session) = slot.take(alloc) else {
        return Code::Empty.number();
    };
    let code = session.aio_pwrite(alloc, bytes, offset, flags, cookie);
    slot.put(session);
    code.number()
}

/// Asks that all that was written is kept.
#[unsafe(no_mangle)]
pub extern "C" fn lnbd_aio_flush(
    alloc: Global,
    slot: &mut HandleSlot,
    flags: u32,
    cookie: &mut u64,
) -> i32
    ensures { Answers result slot.old.seal.held slot.new.seal.held (λ code old new. Issues (flush flags old) code cookie.new old new) }
{
    let Some(mut session) = slot.take(alloc) else {
        return Code::Empty.number();
    };
    let code = session.aio_flush(flags, cookie);
    slot.put(session);
    code.number()
}

/// Tells that a range is not needed any more.
#[unsafe(no_mangle)]
pub extern "C" fn lnbd_aio_trim(
    alloc: Global,
    slot: &mut HandleSlot,
    count: u64,
    offset: u64,
    flags: u32,
    cookie: &mut u64,
) -> i32
    ensures { Answers result slot.old.seal.held slot.new.seal.held (λ code old new. Issues (trim count offset flags old) code cookie.new old new) }
{
    let Some(mut session) = slot.take(alloc) else {
        return Code::Empty.number();
    };
    let code = session.aio_trim(count, offset, flags, cookie);
    slot.put(session);
    code.number()
}

/// Writes zeroes over a range.
#[unsafe(no_mangle)]
pub extern "C" fn lnbd_aio_zero(
    alloc: Global,
    slot: &mut HandleSlot,
    count: u64,
    offset: u64,
    flags: u32,
    cookie: &mut u64,
) -> i32
    ensures { Answers result slot.old.seal.held slot.new.seal.held (λ code old new. Issues (zero count offset flags old) code cookie.new old new) }
{
    let Some(mut session) = slot.take(alloc) else {
        return Code::Empty.number();
    };
    let code = session.aio_zero(count, offset, flags, cookie);
    slot.put(session);
    code.number()
}

/// Asks that a range is read ahead.
#[unsafe(no_mangle)]
pub extern "C" fn lnbd_aio_cache(
    alloc: Global,
    slot: &mut HandleSlot,
    count: u64,
    offset: u64,
    flags: u32,
    cookie: &mut u64,
) -> i32
    ensures { Answers result slot.old.seal.held slot.new.seal.held (λ code old new. Issues (cache count offset flags old) code cookie.new old new) }
{
    let Some(mut session) = slot.take(alloc) else {
        return Code::Empty.number();
    };
    let code = session.aio_cache(count, offset, flags, cookie);
    slot.put(session);
    code.number()
}

/// Asks what a range consists of.
#[unsafe(no_mangle)]
pub extern "C" fn lnbd_aio_block_status(
    alloc: Global,
    slot: &mut HandleSlot,
    count: u64,
    offset: u64,
    flags: u32,
    cookie: &mut u64,
) -> i32
    ensures { Answers result slot.old.seal.held slot.new.seal.held (λ code old new. Issues (block_status count offset flags old) code cookie.new old new) }
{
    let Some(mut session) = slot.take(alloc) else {
        return Code::Empty.number();
    };
    let code = session.aio_block_status(count, offset, flags, cookie);
    slot.put(session);
    code.number()
}
