//! Handles are made, set and closed.

ghost use Rattle.std.specs.Prelude.{◌≡◌, None};
ghost use Rattle.lnbd_history.specs.Events.{Context, Extended, Name, OptMode, Set, Start, StrictMode, Structured};
ghost use Rattle.lnbd_session.specs.When.{BeforeStart, TakesBits, TakesContext, TakesName};
ghost use Rattle.lnbd_c.specs.Answers.{Answers, Creates, Steps, known};

use crate::slot::HandleSlot;
use lnbd_session::{Code, Session};
use std::alloc::Global;

/// Makes a handle in an empty slot.
#[unsafe(no_mangle)]
pub extern "C" fn lnbd_create(alloc: Global, slot: &mut HandleSlot) -> i32
    ensures { Creates result slot.old.seal.held slot.new.seal.held }
{
    if let Some(session) = slot.take(alloc) {
        slot.put(session);
        return Code::Held.number();
    }
    let Ok(session) = Session::create(alloc) else {
        return Code::NoMemory.number();
    };
    match Box::new(alloc, session) {
        Ok(session) => {
            slot.put(session);
            Code::Ok.number()
        }
        Err(_) => Code::NoMemory.number(),
    }
}

/// Closes the handle, and leaves the slot empty.
#[unsafe(no_mangle)]
pub extern "C" fn lnbd_close(alloc: Global, slot: &mut HandleSlot)
    ensures { slot.new.seal.held ≡ None }
{
    let _ = slot.take(alloc);
}

/// Sets the export's name.
#[unsafe(no_mangle)]
pub extern "C" fn lnbd_set_export_name(alloc: Global, slot: &mut HandleSlot, name: &[u8]) -> i32
    ensures { Answers result slot.old.seal.held slot.new.seal.held (λ code old new. Steps (TakesName name.now (known old) code) (Set (Name name.now)) code old new) }
{
    let Some(mut session) = slot.take(alloc) else {
        return Code::Empty.number();
    };
    let code = session.set_export_name(alloc, name);
    slot.put(session);
    code.number()
}

/// Adds a meta context to those that are asked for.
#[unsafe(no_mangle)]
pub extern "C" fn lnbd_add_meta_context(alloc: Global, slot: &mut HandleSlot, name: &[u8]) -> i32
    ensures { Answers result slot.old.seal.held slot.new.seal.held (λ code old new. Steps (TakesContext name.now (known old) code) (Set (Context name.now)) code old new) }
{
    let Some(mut session) = slot.take(alloc) else {
        return Code::Empty.number();
    };
    let code = session.add_meta_context(alloc, name);
    slot.put(session);
    code.number()
}

/// Sets whether structured replies are asked for.
#[unsafe(no_mangle)]
pub extern "C" fn lnbd_set_request_structured_replies(
    alloc: Global,
    slot: &mut HandleSlot,
    on: bool,
) -> i32
    ensures { Answers result slot.old.seal.held slot.new.seal.held (λ code old new. Steps (BeforeStart (known old) code) (Set (Structured on)) code old new) }
{
    let Some(mut session) = slot.take(alloc) else {
        return Code::Empty.number();
    };
    let code = session.set_request_structured_replies(on);
    slot.put(session);
    code.number()
}

/// Sets whether extended headers are asked for.
#[unsafe(no_mangle)]
pub extern "C" fn lnbd_set_request_extended_headers(
    alloc: Global,
    slot: &mut HandleSlot,
    on: bool,
) -> i32
    ensures { Answers result slot.old.seal.held slot.new.seal.held (λ code old new. Steps (BeforeStart (known old) code) (Set (Extended on)) code old new) }
{
    let Some(mut session) = slot.take(alloc) else {
        return Code::Empty.number();
    };
    let code = session.set_request_extended_headers(on);
    slot.put(session);
    code.number()
}

/// Sets whether the caller decides which option comes next.
#[unsafe(no_mangle)]
pub extern "C" fn lnbd_set_opt_mode(alloc: Global, slot: &mut HandleSlot, on: bool) -> i32
    ensures { Answers result slot.old.seal.held slot.new.seal.held (λ code old new. Steps (BeforeStart (known old) code) (Set (OptMode on)) code old new) }
{
    let Some(mut session) = slot.take(alloc) else {
        return Code::Empty.number();
    };
    let code = session.set_opt_mode(on);
    slot.put(session);
    code.number()
}

/// Sets which rules refuse a command.
#[unsafe(no_mangle)]
pub extern "C" fn lnbd_set_strict_mode(alloc: Global, slot: &mut HandleSlot, bits: u32) -> i32
    ensures { Answers result slot.old.seal.held slot.new.seal.held (λ code old new. Steps (TakesBits bits code) (StrictMode bits) code old new) }
{
    let Some(mut session) = slot.take(alloc) else {
        return Code::Empty.number();
    };
    let code = session.set_strict_mode(bits);
    slot.put(session);
    code.number()
}

/// The rules that refuse a command.
#[unsafe(no_mangle)]
pub extern "C" fn lnbd_get_strict_mode(alloc: Global, slot: &mut HandleSlot, bits: &mut u32) -> i32
    ensures { Answers result slot.old.seal.held slot.new.seal.held (λ code old new. (new ≡ old) × (code ≡ Code.Ok) × (bits.new ≡ (known old).strict)) }
{
    let Some(session) = slot.take(alloc) else {
        return Code::Empty.number();
    };
    *bits = session.handle.strict_mode();
    slot.put(session);
    Code::Ok.number()
}

/// Begins: the server's hello is awaited.
#[unsafe(no_mangle)]
pub extern "C" fn lnbd_start(alloc: Global, slot: &mut HandleSlot) -> i32
    ensures { Answers result slot.old.seal.held slot.new.seal.held (λ code old new. Steps (BeforeStart (known old) code) Start code old new) }
{
    let Some(mut session) = slot.take(alloc) else {
        return Code::Empty.number();
    };
    let code = session.start();
    slot.put(session);
    code.number()
}
