//! Opt mode, and the end.

ghost use Rattle.std.specs.Prelude.{◌≡◌, None};
ghost use Rattle.lnbd_records.specs.Options.{opt_go, opt_info, opt_list, opt_set_meta_context};
ghost use Rattle.lnbd_history.specs.Events.{Abort, Disconnect, Opt};
ghost use Rattle.lnbd_history.specs.Refusals.{by_state};
ghost use Rattle.lnbd_machine.specs.Now.{state_now};
ghost use Rattle.lnbd_session.specs.Codes.{code_of_refusal};
ghost use Rattle.lnbd_session.specs.When.{TakesAbort, TakesOption};
ghost use Rattle.lnbd_c.specs.Answers.{Answers, Steps, known};

use crate::slot::HandleSlot;
use lnbd_session::Code;
use std::alloc::Global;

/// Asks which exports the server has.
#[unsafe(no_mangle)]
pub extern "C" fn lnbd_opt_list(alloc: Global, slot: &mut HandleSlot) -> i32
    ensures { Answers result slot.old.seal.held slot.new.seal.held (λ code old new. Steps (TakesOption opt_list (known old) code) (Opt opt_list) code old new) }
{
    let Some(mut session) = slot.take(alloc) else {
        return Code::Empty.number();
    };
    let code = session.opt_list();
    slot.put(session);
    code.number()
}

/// Asks what the export of this name is.
#[unsafe(no_mangle)]
pub extern "C" fn lnbd_opt_info(alloc: Global, slot: &mut HandleSlot) -> i32
    ensures { Answers result slot.old.seal.held slot.new.seal.held (λ code old new. Steps (TakesOption opt_info (known old) code) (Opt opt_info) code old new) }
{
    let Some(mut session) = slot.take(alloc) else {
        return Code::Empty.number();
    };
    let code = session.opt_info();
    slot.put(session);
    code.number()
}

/// Asks for the meta contexts that were added.
#[unsafe(no_mangle)]
pub extern "C" fn lnbd_opt_set_meta_context(alloc: Global, slot: &mut HandleSlot) -> i32
    ensures { Answers result slot.old.seal.held slot.new.seal.held (λ code old new. Steps (TakesOption opt_set_meta_context (known old) code) (Opt opt_set_meta_context) code old new) }
{
    let Some(mut session) = slot.take(alloc) else {
        return Code::Empty.number();
    };
    let code = session.opt_set_meta_context();
    slot.put(session);
    code.number()
}

/// Asks for the export of this name.
#[unsafe(no_mangle)]
pub extern "C" fn lnbd_opt_go(alloc: Global, slot: &mut HandleSlot) -> i32
    ensures { Answers result slot.old.seal.held slot.new.seal.held (λ code old new. Steps (TakesOption opt_go (known old) code) (Opt opt_go) code old new) }
{
    let Some(mut session) = slot.take(alloc) else {
        return Code::Empty.number();
    };
    let code = session.opt_go();
    slot.put(session);
    code.number()
}

/// Gives negotiation up.
#[unsafe(no_mangle)]
pub extern "C" fn lnbd_opt_abort(alloc: Global, slot: &mut HandleSlot) -> i32
    ensures { Answers result slot.old.seal.held slot.new.seal.held (λ code old new. Steps (TakesAbort (known old) code) Abort code old new) }
{
    let Some(mut session) = slot.take(alloc) else {
        return Code::Empty.number();
    };
    let code = session.opt_abort();
    slot.put(session);
    code.number()
}

/// Asks for the end.
#[unsafe(no_mangle)]
pub extern "C" fn lnbd_aio_disconnect(alloc: Global, slot: &mut HandleSlot) -> i32
    ensures { Answers result slot.old.seal.held slot.new.seal.held (λ code old new. Steps (code ≡ code_of_refusal (by_state (state_now (known old)) None)) Disconnect code old new) }
{
    let Some(mut session) = slot.take(alloc) else {
        return Code::Empty.number();
    };
    let code = session.aio_disconnect();
    slot.put(session);
    code.number()
}
