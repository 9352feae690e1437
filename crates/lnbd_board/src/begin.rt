//! The first request of a slice, and the buffers for it.

ghost use Rattle.std.specs.Prelude.{◌≡◌, ℕ, ◌+◌, ◌≤◌, ◌^◌, [], true, false, length, IfOk, if◌then◌else◌};
ghost use Rattle.lnbd_board.specs.Asks.{IsFirstAsk, IsFirstOf, first_stage};

use crate::advance::zero_flags;
use crate::ask::{Ask, Change};
use crate::how::How;
use crate::row::Stage;
use crate::spare::{read_buffer, zero_buffer};
use lnbd_model::NoMemory;
use lnbd_plan::Slice;
use std::alloc::Global;

/// What is asked first for a slice. It takes a buffer that is free, if there is one.
pub(crate) fn first_ask(
    spare: &mut Vec<Vec<u8>>,
    alloc: Global,
    how: How,
    slice: Slice,
) -> Result<Ask, NoMemory>
    requires room { slice.start + slice.length ≤ 2 ^ 63 }
    requires copied { slice.zero ≡ true → how.skip ≡ false }
    ensures first { IfOk result (λ one. IsFirstAsk how slice one) }
    ensures inside { IfOk result (λ one. IsFirstOf how slice one) }
{
    let offset = slice.start;
    let length = slice.length;
    if !slice.zero {
        let buf = read_buffer(spare, alloc, length as usize)?;
        return Ok(Ask::Read { offset, buf });
    }
    if how.zeroes {
        let flags = zero_flags(how.allocated);
        return Ok(Ask::Change(Change::Zero {
            offset,
            length,
            flags,
        }));
    }
    let bytes = zero_buffer(spare, alloc, length as usize)?;
    Ok(Ask::Change(Change::Write { offset, bytes }))
}

/// Where a slice stands once its first request is asked.
pub(crate) fn stage_of(slice: Slice) -> Stage
    ensures { result ≡ first_stage slice.zero }
{
    if slice.zero {
        Stage::Last
    } else {
        Stage::Reading
    }
}
