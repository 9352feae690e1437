//! Where a connection stands, what was told of its export, and what is agreed.

ghost use Rattle.std.specs.Prelude.{◌≡◌, length};
ghost use Rattle.lnbd_machine.specs.Now.{in_flight_now, info_now, state_now};
ghost use Rattle.lnbd_session.specs.Tells.{agreed_told, answer_told, blocks_told, context_told, death_told, description_told, flags_told, listed_told, name_told, size_told, state_number};
ghost use Rattle.lnbd_c.specs.Answers.{Answers, Gets, Lends, Numbers, Outs, TellsAgreed, TellsBlocks, TellsContext, TellsDeath, TellsListed, TellsRefusal, known};

use crate::slot::HandleSlot;
use c_loose::address::pointer_of;
use lnbd_session::{Code, state_number};
use std::alloc::Global;

/// Where the handle stands, as a number.
#[unsafe(no_mangle)]
pub extern "C" fn lnbd_state(alloc: Global, slot: &mut HandleSlot) -> i32
    ensures same { slot.new.seal.held ≡ slot.old.seal.held }
    ensures value { Numbers result slot.old.seal.held (λ old. state_number (state_now (known old))) }
{
    let Some(session) = slot.take(alloc) else {
        return Code::Empty.number();
    };
    let state = state_number(session.handle.state());
    slot.put(session);
    state
}

/// Why the connection is gone.
#[unsafe(no_mangle)]
pub extern "C" fn lnbd_get_death(
    alloc: Global,
    slot: &mut HandleSlot,
    kind: &mut u32,
    detail: &mut u32,
) -> i32
    ensures { Answers result slot.old.seal.held slot.new.seal.held (λ code old new. Gets old new (death_told (state_now (known old))) code (TellsDeath kind.new detail.new)) }
{
    let Some(session) = slot.take(alloc) else {
        return Code::Empty.number();
    };
    let code = match session.death() {
        Ok(death) => {
            *kind = death.kind;
            *detail = death.detail;
            Code::Ok
        }
        Err(code) => code,
    };
    slot.put(session);
    code.number()
}

/// The export's size in bytes.
#[unsafe(no_mangle)]
pub extern "C" fn lnbd_get_size(alloc: Global, slot: &mut HandleSlot, size: &mut u64) -> i32
    ensures { Answers result slot.old.seal.held slot.new.seal.held (λ code old new. (new ≡ old) × Outs (size_told (info_now (known old))) code size.new) }
{
    let Some(session) = slot.take(alloc) else {
        return Code::Empty.number();
    };
    let code = match session.size() {
        Ok(bytes) => {
            *size = bytes;
            Code::Ok
        }
        Err(code) => code,
    };
    slot.put(session);
    code.number()
}

/// The transmission flags.
#[unsafe(no_mangle)]
pub extern "C" fn lnbd_get_flags(alloc: Global, slot: &mut HandleSlot, flags: &mut u32) -> i32
    ensures { Answers result slot.old.seal.held slot.new.seal.held (λ code old new. (new ≡ old) × Outs (flags_told (info_now (known old))) code flags.new) }
{
    let Some(session) = slot.take(alloc) else {
        return Code::Empty.number();
    };
    let code = match session.flags() {
        Ok(bits) => {
            *flags = bits;
            Code::Ok
        }
        Err(code) => code,
    };
    slot.put(session);
    code.number()
}

/// The block sizes in bytes.
#[unsafe(no_mangle)]
pub extern "C" fn lnbd_get_block_sizes(
    alloc: Global,
    slot: &mut HandleSlot,
    minimum: &mut u32,
    preferred: &mut u32,
    maximum: &mut u32,
) -> i32
    ensures { Answers result slot.old.seal.held slot.new.seal.held (λ code old new. Gets old new (blocks_told (info_now (known old))) code (TellsBlocks minimum.new preferred.new maximum.new)) }
{
    let Some(session) = slot.take(alloc) else {
        return Code::Empty.number();
    };
    let code = match session.blocks() {
        Ok(blocks) => {
            *minimum = blocks.minimum;
            *preferred = blocks.preferred;
            *maximum = blocks.maximum;
            Code::Ok
        }
        Err(code) => code,
    };
    slot.put(session);
    code.number()
}

/// Whether structured replies and extended headers are on.
#[unsafe(no_mangle)]
pub extern "C" fn lnbd_get_agreed(
    alloc: Global,
    slot: &mut HandleSlot,
    structured: &mut u32,
    extended: &mut u32,
) -> i32
    ensures { Answers result slot.old.seal.held slot.new.seal.held (λ code old new. Gets old new (agreed_told (info_now (known old))) code (TellsAgreed structured.new extended.new)) }
{
    let Some(session) = slot.take(alloc) else {
        return Code::Empty.number();
    };
    let code = match session.agreed() {
        Ok(agreed) => {
            *structured = agreed.structured;
            *extended = agreed.extended;
            Code::Ok
        }
        Err(code) => code,
    };
    slot.put(session);
    code.number()
}

/// The export's name as the server spells it.
#[unsafe(no_mangle)]
pub extern "C" fn lnbd_get_canonical_export_name(
    alloc: Global,
    slot: &mut HandleSlot,
    at: &mut *const u8,
    len: &mut usize,
) -> i32
    ensures { Answers result slot.old.seal.held slot.new.seal.held (λ code old new. (new ≡ old) × Lends (name_told (info_now (known old))) code len.new) }
{
    let Some(session) = slot.take(alloc) else {
        return Code::Empty.number();
    };
    let code = match session.canonical_export_name() {
        Ok(text) => {
            *at = pointer_of(text.as_bytes());
            *len = text.len();
            Code::Ok
        }
        Err(code) => code,
    };
    slot.put(session);
    code.number()
}

/// The export's description.
#[unsafe(no_mangle)]
pub extern "C" fn lnbd_get_export_description(
    alloc: Global,
    slot: &mut HandleSlot,
    at: &mut *const u8,
    len: &mut usize,
) -> i32
    ensures { Answers result slot.old.seal.held slot.new.seal.held (λ code old new. (new ≡ old) × Lends (description_told (info_now (known old))) code len.new) }
{
    let Some(session) = slot.take(alloc) else {
        return Code::Empty.number();
    };
    let code = match session.export_description() {
        Ok(text) => {
            *at = pointer_of(text.as_bytes());
            *len = text.len();
            Code::Ok
        }
        Err(code) => code,
    };
    slot.put(session);
    code.number()
}

/// The meta context at this index of those that are agreed.
#[unsafe(no_mangle)]
pub extern "C" fn lnbd_get_meta_context(
    alloc: Global,
    slot: &mut HandleSlot,
    index: usize,
    id: &mut u32,
    at: &mut *const u8,
    len: &mut usize,
) -> i32
    ensures { Answers result slot.old.seal.held slot.new.seal.held (λ code old new. Gets old new (context_told index (info_now (known old))) code (TellsContext id.new len.new)) }
{
    let Some(session) = slot.take(alloc) else {
        return Code::Empty.number();
    };
    let code = match session.meta_context(index) {
        Ok(context) => {
            *id = context.id;
            *at = pointer_of(context.name.as_bytes());
            *len = context.name.len();
            Code::Ok
        }
        Err(code) => code,
    };
    slot.put(session);
    code.number()
}

/// The export at this index of those that the server listed last.
#[unsafe(no_mangle)]
pub extern "C" fn lnbd_get_listed(
    alloc: Global,
    slot: &mut HandleSlot,
    index: usize,
    name: &mut *const u8,
    name_len: &mut usize,
    description: &mut *const u8,
    description_len: &mut usize,
) -> i32
    ensures { Answers result slot.old.seal.held slot.new.seal.held (λ code old new. Gets old new (listed_told index (known old).talk.listing) code (TellsListed name_len.new description_len.new)) }
{
    let Some(session) = slot.take(alloc) else {
        return Code::Empty.number();
    };
    let code = match session.listed(index) {
        Ok(listed) => {
            *name = pointer_of(listed.name.as_bytes());
            *name_len = listed.name.len();
            *description = pointer_of(listed.description.as_bytes());
            *description_len = listed.description.len();
            Code::Ok
        }
        Err(code) => code,
    };
    slot.put(session);
    code.number()
}

/// The last answer to an option: the number of the option that was refused with its code, or 0 where it was acknowledged.
#[unsafe(no_mangle)]
pub extern "C" fn lnbd_opt_answer(
    alloc: Global,
    slot: &mut HandleSlot,
    option: &mut u32,
    refusal: &mut u32,
) -> i32
    ensures { Answers result slot.old.seal.held slot.new.seal.held (λ code old new. Gets old new (answer_told (known old).talk.answer) code (TellsRefusal option.new refusal.new)) }
{
    let Some(session) = slot.take(alloc) else {
        return Code::Empty.number();
    };
    let code = match session.opt_answer() {
        Ok(answer) => {
            *option = answer.option;
            *refusal = answer.code;
            Code::Ok
        }
        Err(code) => code,
    };
    slot.put(session);
    code.number()
}

/// How many commands are not completed.
#[unsafe(no_mangle)]
pub extern "C" fn lnbd_aio_in_flight(alloc: Global, slot: &mut HandleSlot, count: &mut usize) -> i32
    ensures { Answers result slot.old.seal.held slot.new.seal.held (λ code old new. (new ≡ old) × (code ≡ Code.Ok) × (count.new ≡ in_flight_now (known old))) }
{
    let Some(session) = slot.take(alloc) else {
        return Code::Empty.number();
    };
    *count = session.handle.in_flight();
    slot.put(session);
    Code::Ok.number()
}
