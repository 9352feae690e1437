//! What a connection is asked: a slice's bytes, a change, extents, or a flush. When that is asked, and of which connection, is not known here. That a handle
//! refuses it, or that there is no such connection, would count as want of memory.

ghost use Rattle.std.specs.Prelude.{◌≡◌, ◌<◌, ◌^◌, false, true, [], OnOk};
ghost use Rattle.lnbd_handle.specs.Issues.{block_status_of, flush_of, read_of, write_of, zero_of};
ghost use Rattle.lnbd_board.specs.declared.ticket.Ticket.TheVariants as ticket;
ghost use Rattle.lnbd_course.specs.Orders.{command_of};
ghost use Rattle.lnbd_copy.specs.Asked.{IsAsked};
ghost use Rattle.lnbd_copy.specs.Links.{HaveSameLinks};

use lnbd_board::{Board, Change, Ticket};
use lnbd_conduct::FIRST_SOURCE;
use lnbd_handle::IssueFault;
use lnbd_model::NoMemory;
use lnbd_poll::Handles;

/// A command that is refused counts as one for which memory ran out: none is made that breaks the rules, but no clause says
/// that none is refused.
fn refused(fault: IssueFault<Ticket>) -> NoMemory {
    match fault {
        IssueFault::Refused { why: _, buf: _ } => NoMemory,
        IssueFault::NoMemory {
            buf: _,
            first: _,
            done: _,
        } => NoMemory,
    }
}

/// The cookie of a command that was taken is of no use here.
fn told(cookie: u64)
    ensures small { cookie < 2 ^ 64 }
{
    let _cookie = cookie;
}

/// Asks a connection for a change, with the ticket of its slice.
///
/// # Errors
///
/// `NoMemory`: memory ran out, or the command was refused, and nothing was asked.
pub fn ask_change(
    handles: &mut Handles<Ticket>,
    board: &mut Board,
    index: usize,
    number: u64,
    change: Change,
) -> Result<(), NoMemory>
    ensures links { HaveSameLinks handles.old handles.new }
    ensures asked { OnOk result (IsAsked index (command_of number change) handles.old handles.new) }
    ensures board { OnOk result (board.new ≡ board.old) }
{
    match change {
        Change::Write { offset, bytes } => {
            ask_write(handles, board, index, number, offset, bytes.into_vec())
        }
        Change::Zero {
            offset,
            length,
            flags,
        } => ask_zero(handles, board, index, number, offset, length, flags),
    }
}

/// Asks a connection to write bytes of a slice.
#[tactic(auto, using(lnbd_copy::proofs::LinkLemmas::same_none, lnbd_copy::proofs::LinkLemmas::same_with))]
fn ask_write(
    handles: &mut Handles<Ticket>,
    board: &mut Board,
    index: usize,
    number: u64,
    offset: u64,
    buf: Vec<u8>,
) -> Result<(), NoMemory>
    ensures links { HaveSameLinks handles.old handles.new }
    ensures asked { OnOk result (IsAsked index (write_of buf.items offset (ticket.Slice number) 0) handles.old handles.new) }
    ensures board { OnOk result (board.new ≡ board.old) }
{
    if index >= handles.len() {
        return Err(NoMemory);
    }
    let answer = handles
        .get_mut(index)
        .aio_pwrite(buf, offset, Ticket::Slice(number), 0, board);
    match answer {
        Ok(cookie) => Ok(told(cookie)),
        Err(fault) => Err(refused(fault)),
    }
}

/// Asks a connection to zero bytes of a slice.
#[tactic(auto, using(lnbd_copy::proofs::LinkLemmas::same_none, lnbd_copy::proofs::LinkLemmas::same_with))]
fn ask_zero(
    handles: &mut Handles<Ticket>,
    board: &mut Board,
    index: usize,
    number: u64,
    offset: u64,
    length: u64,
    flags: u32,
) -> Result<(), NoMemory>
    ensures links { HaveSameLinks handles.old handles.new }
    ensures asked { OnOk result (IsAsked index (zero_of length offset (ticket.Slice number) flags) handles.old handles.new) }
    ensures board { OnOk result (board.new ≡ board.old) }
{
    if index >= handles.len() {
        return Err(NoMemory);
    }
    let answer = handles
        .get_mut(index)
        .aio_zero(length, offset, Ticket::Slice(number), flags, board);
    match answer {
        Ok(cookie) => Ok(told(cookie)),
        Err(fault) => Err(refused(fault)),
    }
}

/// Asks a connection for the bytes of a slice.
#[tactic(auto, using(lnbd_copy::proofs::LinkLemmas::same_none, lnbd_copy::proofs::LinkLemmas::same_with))]
pub fn ask_read(
    handles: &mut Handles<Ticket>,
    board: &mut Board,
    index: usize,
    number: u64,
    offset: u64,
    buf: Vec<u8>,
) -> Result<(), NoMemory>
    ensures links { HaveSameLinks handles.old handles.new }
    ensures asked { OnOk result (IsAsked index (read_of buf.items offset (ticket.Slice number) 0) handles.old handles.new) }
    ensures board { OnOk result (board.new ≡ board.old) }
{
    if index >= handles.len() {
        return Err(NoMemory);
    }
    let answer = handles
        .get_mut(index)
        .aio_pread(buf, offset, Ticket::Slice(number), 0, board);
    match answer {
        Ok(cookie) => Ok(told(cookie)),
        Err(fault) => Err(refused(fault)),
    }
}

/// Asks the source's first connection for the extents of a range.
#[tactic(auto, using(lnbd_copy::proofs::LinkLemmas::same_none, lnbd_copy::proofs::LinkLemmas::same_with))]
pub fn ask_extents(
    handles: &mut Handles<Ticket>,
    board: &mut Board,
    offset: u64,
    length: u64,
) -> Result<(), NoMemory>
    ensures links { HaveSameLinks handles.old handles.new }
    ensures asked { OnOk result (IsAsked 0 (block_status_of length offset ticket.Extents ticket.Extents 0) handles.old handles.new) }
    ensures board { OnOk result (board.new ≡ record board.old { told = []; mapped = false }) }
{
    if FIRST_SOURCE >= handles.len() {
        return Err(NoMemory);
    }
    board.forget_map();
    let answer = handles
        .get_mut(FIRST_SOURCE)
        .aio_block_status(length, offset, Ticket::Extents, Ticket::Extents, 0, board);
    match answer {
        Ok(cookie) => Ok(told(cookie)),
        Err(fault) => Err(refused(fault)),
    }
}

/// Asks a connection of the destination, the first where there are several, to flush.
#[tactic(auto, using(lnbd_copy::proofs::LinkLemmas::same_none, lnbd_copy::proofs::LinkLemmas::same_with))]
pub fn ask_flush(
    handles: &mut Handles<Ticket>,
    board: &mut Board,
    index: usize,
) -> Result<(), NoMemory>
    ensures links { HaveSameLinks handles.old handles.new }
    ensures asked { OnOk result (IsAsked index (flush_of ticket.Flush 0) handles.old handles.new) }
    ensures board { OnOk result (board.new ≡ record board.old { flushing = true }) }
{
    if index >= handles.len() {
        return Err(NoMemory);
    }
    board.begin_flush();
    let answer = handles.get_mut(index).aio_flush(Ticket::Flush, 0, board);
    match answer {
        Ok(cookie) => Ok(told(cookie)),
        Err(fault) => Err(refused(fault)),
    }
}
