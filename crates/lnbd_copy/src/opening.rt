//! A handle of a copy, before it is connected.

ghost use Rattle.std.specs.Prelude.{◌≡◌, ◌≤◌, [], IfOk, OnOk, length};
ghost use Rattle.lnbd_handle.specs.Histories.{max_unretired};
ghost use Rattle.lnbd_history.specs.Events.{History};
ghost use Rattle.lnbd_records.specs.Limits.{max_text};
ghost use Rattle.lnbd_standing.specs.Standing.{StandsFor};
ghost use Rattle.lnbd_conduct.specs.Begun.{base_allocation, begun, context_of, opened, with_context};

use lnbd_board::{Board, Ticket};
use lnbd_handle::{Handle, SetFault};
use lnbd_model::{NoMemory, Text, TextFault};
use std::alloc::Global;

/// The meta context of the blocks that are allocated (NBD protocol, "base:allocation metadata context").
fn base_allocation(alloc: Global) -> Result<Text, NoMemory>
    ensures { IfOk result (λ text. text ≡ base_allocation) }
{
    match Text::from_bytes(alloc, b"base:allocation") {
        Ok(text) => Ok(text),
        Err(_) => Err(NoMemory),
    }
}

/// Asks for this meta context, where there is one.
fn want(handle: &mut Handle<Ticket>, context: Option<Text>) -> Result<(), SetFault>
    ensures { OnOk result ((history : History Ticket) → StandsFor max_unretired history handle.old.machine → StandsFor max_unretired (with_context context history) handle.new.machine) }
{
    match context {
        Some(context) => handle.add_meta_context(context),
        None => Ok(()),
    }
}

/// Asks for extended headers, structured replies, this meta context where there is one, and the export of this name, and
/// starts.
fn begin(handle: &mut Handle<Ticket>, name: Text, context: Option<Text>) -> Result<(), SetFault>
    requires { StandsFor max_unretired [] handle.old.machine }
    ensures { OnOk result (StandsFor max_unretired (begun name context) handle.new.machine) }
{
    handle.set_request_extended_headers(true)?;
    handle.set_request_structured_replies(true)?;
    want(handle, context)?;
    handle.set_export_name(name)?;
    handle.start()
}

/// The context that is asked for where extents are wanted.
fn context_of(alloc: Global, extents: bool) -> Result<Option<Text>, NoMemory>
    ensures { IfOk result (λ context. context ≡ context_of extents) }
{
    if extents {
        return Ok(Some(base_allocation(alloc)?));
    }
    Ok(None)
}

/// The same name again.
fn copied(alloc: Global, name: &Text) -> Result<Text, NoMemory>
    ensures same { IfOk result (λ text. text ≡ name.now) }
    ensures short { length name.now ≤ max_text }
{
    let _length = name.len();
    name.try_clone(alloc)
}

/// A handle that is to ask for the export of this name, and for base:allocation where extents are wanted.
pub fn open(
    alloc: Global,
    name: &Text,
    extents: bool,
    board: &mut Board,
) -> Result<Handle<Ticket>, NoMemory>
    ensures stands { IfOk result (λ handle. StandsFor max_unretired (opened name.now extents) handle.machine) }
    ensures short { OnOk result (length name.now ≤ max_text) }
    ensures board { OnOk result (board.new ≡ board.old) }
{
    let name = copied(alloc, name)?;
    let context = context_of(alloc, extents)?;
    let mut handle = Handle::create(alloc)?;
    match begin(&mut handle, name, context) {
        Ok(()) => Ok(handle),
        Err(_) => {
            let _ = handle.close(board);
            Err(NoMemory)
        }
    }
}
