//! What is asked of the handle between two turns: the status of blocks, and reads.

ghost use Rattle.std.specs.Prelude.{◌≡◌, ◌≤◌, ◌<◌, ◌^◌, IfOk, OnErr, OnOk, length, ◌∷◌};
ghost use Rattle.lnbd_history.specs.Events.{ClearLog};
ghost use Rattle.lnbd_dump.specs.Asks.{AsksRead, AsksStatus};
ghost use Rattle.lnbd_dump.specs.Leads.{Acts};
ghost use Rattle.lnbd_dump.specs.Showing.{StaysWell};
ghost use Rattle.lnbd_dump.specs.Stops.{HasStop, IsPlain};
ghost use Rattle.lnbd_ask.specs.Maps.{max_asked};
ghost use Rattle.lnbd_dump.specs.Conduct.{max_piece};

use crate::reader::{Latest, Reader};
use crate::stop::Stop;
use lnbd_handle::IssueFault;
use lnbd_poll::Handles;
use lnbd_waits::Halt;
use std::alloc::{AllocError, Global};

/// What is left to be asked.
#[derive(Clone, Copy, Debug, PartialEq, Eq)]
pub(crate) struct Plan {
    /// The first position that is not begun.
    pub(crate) at: u64,
    /// The first position of which no status was asked, where that is asked.
    pub(crate) known: u64,
    /// The first position that is not to be begun.
    pub(crate) end: u64,
    /// The export's least block.
    pub(crate) block: u64,
    /// The most bytes that are read at once.
    pub(crate) piece: u64,
    /// Whether the status of blocks is asked.
    pub(crate) agreed: bool,
}

/// Drops the notes of callbacks, so that they don't grow with each question.
pub(crate) fn clear_log(handles: &mut Handles<Reader>)
    requires { length handles.old ≡ 1 }
    ensures { Acts handles.old handles.new (λ before after. after.history ≡ ClearLog ∷ before.history) }
{
    handles.get_mut(0).clear_log();
}

/// The cookie that was told.
fn told(cookie: u64) -> u64
    ensures same { result ≡ cookie }
    ensures small { cookie < 2 ^ 64 }
{
    cookie
}

/// Asks for the status of so many bytes, and answers the cookie.
pub(crate) fn ask_status(
    handles: &mut Handles<Reader>,
    world: &mut Latest,
    offset: u64,
    size: u64,
) -> Result<u64, Stop>
    requires one { length handles.old ≡ 1 }
    requires size { size ≤ max_asked }
    ensures asks { Acts handles.old handles.new (λ before after. HasStop result after.history × OnErr result (StaysWell before.history after.history) × IfOk result (λ cookie. AsksStatus cookie offset size before.history after.history)) }
    ensures world { OnOk result (world.new ≡ world.old) }
    ensures plain { IsPlain result }
{
    let answer = handles
        .get_mut(0)
        .aio_block_status(size, offset, Reader, Reader, 0, world);
    match answer {
        Ok(cookie) => Ok(told(cookie)),
        Err(IssueFault::Refused { why: _, buf: _ }) => Err(Stop::Halted(Halt::NoMemory)),
        Err(
            IssueFault::NoMemory {
                buf: _,
                first: _,
                done: _,
            },
        ) => Err(Stop::Halted(Halt::NoMemory)),
    }
}

/// Bytes to be read into.
fn buffer(alloc: Global, size: u64) -> Result<Vec<u8>, AllocError>
    ensures { IfOk result (λ bytes. length bytes.items ≡ size) }
{
    let mut bytes = Vec::new(alloc);
    bytes.resize(size as usize, 0)?;
    Ok(bytes)
}

/// Asks for as many bytes as the buffer has, and answers the cookie.
fn ask_into(
    handles: &mut Handles<Reader>,
    world: &mut Latest,
    buf: Vec<u8>,
    offset: u64,
) -> Result<u64, Stop>
    requires one { length handles.old ≡ 1 }
    requires size { length buf.items ≤ max_piece }
    ensures asks { Acts handles.old handles.new (λ before after. HasStop result after.history × OnErr result (StaysWell before.history after.history) × IfOk result (λ cookie. AsksRead cookie offset (length buf.items) before.history after.history)) }
    ensures world { OnOk result (world.new ≡ world.old) }
    ensures plain { IsPlain result }
{
    let answer = handles.get_mut(0).aio_pread(buf, offset, Reader, 0, world);
    match answer {
        Ok(cookie) => Ok(told(cookie)),
        Err(IssueFault::Refused { why: _, buf: _ }) => Err(Stop::Halted(Halt::NoMemory)),
        Err(
            IssueFault::NoMemory {
                buf: _,
                first: _,
                done: _,
            },
        ) => Err(Stop::Halted(Halt::NoMemory)),
    }
}

/// Asks for the bytes of a range, and answers the cookie.
pub(crate) fn ask_read(
    alloc: Global,
    handles: &mut Handles<Reader>,
    world: &mut Latest,
    offset: u64,
    size: u64,
) -> Result<u64, Stop>
    requires one { length handles.old ≡ 1 }
    requires size { size ≤ max_piece }
    ensures asks { Acts handles.old handles.new (λ before after. HasStop result after.history × OnErr result (StaysWell before.history after.history) × IfOk result (λ cookie. AsksRead cookie offset size before.history after.history)) }
    ensures world { OnOk result (world.new ≡ world.old) }
    ensures plain { IsPlain result }
{
    match buffer(alloc, size) {
        Ok(buf) => ask_into(handles, world, buf, offset),
        Err(_) => Err(Stop::Halted(Halt::NoMemory)),
    }
}
