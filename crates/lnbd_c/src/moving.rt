//! The bytes that go out and those that came.

ghost use Rattle.std.specs.Prelude.{◌≡◌, [], length, take};
ghost use Rattle.lnbd_history.specs.Events.{Arrived, End, LinkFailed, Wrote};
ghost use Rattle.lnbd_machine.specs.Now.{direction_now, out_now};
ghost use Rattle.lnbd_session.specs.Tells.{direction_number};
ghost use Rattle.lnbd_session.specs.When.{Within};
ghost use Rattle.lnbd_c.specs.Answers.{Answers, Arrives, Ends, Numbers, Steps, known};

use crate::slot::HandleSlot;
use c_loose::address::pointer_of;
use lnbd_session::{Code, direction_number};
use std::alloc::Global;

/// 0 where nothing may be read or written, 1 for reading, and 3 where bytes wait too.
#[unsafe(no_mangle)]
pub extern "C" fn lnbd_aio_get_direction(alloc: Global, slot: &mut HandleSlot) -> i32
    ensures same { slot.new.seal.held ≡ slot.old.seal.held }
    ensures value { Numbers result slot.old.seal.held (λ old. direction_number (direction_now (known old))) }
{
    let Some(session) = slot.take(alloc) else {
        return Code::Empty.number();
    };
    let direction = direction_number(session.handle.direction());
    slot.put(session);
    direction
}

/// The bytes that are to go out.
#[unsafe(no_mangle)]
pub extern "C" fn lnbd_out(
    alloc: Global,
    slot: &mut HandleSlot,
    at: &mut *const u8,
    len: &mut usize,
) -> i32
    ensures { Answers result slot.old.seal.held slot.new.seal.held (λ code old new. (new ≡ old) × (code ≡ Code.Ok) × (len.new ≡ length (out_now (known old)))) }
{
    let Some(session) = slot.take(alloc) else {
        return Code::Empty.number();
    };
    let out = session.handle.out();
    *at = pointer_of(out);
    *len = out.len();
    slot.put(session);
    Code::Ok.number()
}

/// So many of them went out.
#[unsafe(no_mangle)]
pub extern "C" fn lnbd_wrote(alloc: Global, slot: &mut HandleSlot, n: usize) -> i32
    ensures { Answers result slot.old.seal.held slot.new.seal.held (λ code old new. Steps (Within n (length (out_now (known old))) code) (Wrote n) code old new) }
{
    let Some(mut session) = slot.take(alloc) else {
        return Code::Empty.number();
    };
    let code = session.wrote(n);
    slot.put(session);
    code.number()
}

/// Bytes came. Where memory runs out, `taken` of them count, and the others are to be handed in again.
#[unsafe(no_mangle)]
pub extern "C" fn lnbd_arrive(
    alloc: Global,
    slot: &mut HandleSlot,
    bytes: &[u8],
    taken: &mut usize,
) -> i32
    ensures { Answers result slot.old.seal.held slot.new.seal.held (λ code old new. Arrives bytes.now taken.new code old new) }
{
    *taken = 0;
    let Some(mut session) = slot.take(alloc) else {
        return Code::Empty.number();
    };
    let code = session.arrive(bytes, taken);
    slot.put(session);
    code.number()
}

/// Where the data that are still to come of a read may be received, or nothing.
#[unsafe(no_mangle)]
pub extern "C" fn lnbd_place(
    alloc: Global,
    slot: &mut HandleSlot,
    at: &mut *const u8,
    len: &mut usize,
) -> i32
    ensures { Answers result slot.old.seal.held slot.new.seal.held (λ code old new. (new.handle.machine ≡ old.handle.machine) × (code ≡ Code.Ok) × (len.new ≡ length old.handle.place)) }
{
    let Some(mut session) = slot.take(alloc) else {
        return Code::Empty.number();
    };
    let place = session.as_mut().handle.place();
    *at = pointer_of(place);
    *len = place.len();
    slot.put(session);
    Code::Ok.number()
}

/// So many bytes were received there.
#[unsafe(no_mangle)]
pub extern "C" fn lnbd_placed(alloc: Global, slot: &mut HandleSlot, n: usize) -> i32
    ensures { Answers result slot.old.seal.held slot.new.seal.held (λ code old new. Steps (Within n (length old.handle.place) code) (Arrived (take n old.handle.place) []) code old new) }
{
    let Some(mut session) = slot.take(alloc) else {
        return Code::Empty.number();
    };
    let code = session.placed(n);
    slot.put(session);
    code.number()
}

/// The peer ended the connection.
#[unsafe(no_mangle)]
pub extern "C" fn lnbd_ended(alloc: Global, slot: &mut HandleSlot) -> i32
    ensures { Answers result slot.old.seal.held slot.new.seal.held (λ code old new. (code ≡ Code.Ok) × Ends End old new) }
{
    let Some(mut session) = slot.take(alloc) else {
        return Code::Empty.number();
    };
    session.ended();
    slot.put(session);
    Code::Ok.number()
}

/// Reading or writing failed.
#[unsafe(no_mangle)]
pub extern "C" fn lnbd_link_failed(alloc: Global, slot: &mut HandleSlot) -> i32
    ensures { Answers result slot.old.seal.held slot.new.seal.held (λ code old new. (code ≡ Code.Ok) × Ends LinkFailed old new) }
{
    let Some(mut session) = slot.take(alloc) else {
        return Code::Empty.number();
    };
    session.link_failed();
    slot.put(session);
    Code::Ok.number()
}
