//! The pieces of a slice's bytes: where whole blocks are zero.

ghost use Rattle.std.specs.Prelude.{◌≡◌, ◌↔◌, ℕ, ◌+◌, ◌<◌, ◌≤◌, ◌^◌, ◌++◌, take, OnOk, OnErr, IsTrue, EachIndex, slice_index, false, length};
ghost use Rattle.lnbd_plan.specs.Slices.{slices_of};
ghost use Rattle.lnbd_plan.specs.Blocks.{in_zero_block, Begins, IsBlockEnd, IsPieceEnd};

use crate::grid::{Slice, rest_of_cell};
use lnbd_model::NoMemory;

/// Appends the pieces of these bytes, which begin at a position.
///
/// The grid's blocks are those between multiples of `block`; the first and the last are cut by the ends
/// of the bytes. Neighbouring blocks whose bytes are all zero are one zero piece, neighbouring others one
/// data piece.
///
/// The bytes are looked at once, many at a time, and the rest of a block is passed over behind the first
/// of these groups that isn't all zero. It takes memory for the list alone: one place for each piece.
///
/// On `NoMemory` the list is as before.
pub fn pieces(start: u64, bytes: &[u8], block: u32, out: &mut Vec<Slice>) -> Result<(), NoMemory>
    requires block { 0 < block }
    requires room { start + length bytes.now ≤ 2 ^ 63 }
    ensures ok { OnOk result (out.new.items ≡ out.old.items ++ slices_of (in_zero_block block start bytes.now) (λ _. false) start (length bytes.now)) }
    ensures err { OnErr result (out.new.items ≡ out.old.items) }
{
    let before = out.len();
    if append_pieces(start, bytes, block, out).is_err() {
        out.truncate(before);
        return Err(NoMemory);
    }
    Ok(())
}

/// Appends the pieces. On `NoMemory` some of them are behind what was there.
fn append_pieces(start: u64, bytes: &[u8], block: u32, out: &mut Vec<Slice>) -> Result<(), NoMemory>
    requires block { 0 < block }
    requires room { start + length bytes.now ≤ 2 ^ 63 }
    ensures ok { OnOk result (out.new.items ≡ out.old.items ++ slices_of (in_zero_block block start bytes.now) (λ _. false) start (length bytes.now)) }
    ensures err { OnErr result (take (length out.old.items) out.new.items ≡ out.old.items) }
{
    let mut from = 0;
    let mut zero = is_zero(&bytes[..block_end(start, bytes.len(), block, 0)]);
    while from < bytes.len() {
        let end = piece_end(start, bytes, block, from, zero);
        out.push(Slice {
            start: start + from as u64,
            length: (end - from) as u64,
            zero,
        })?;
        from = end;
        zero = !zero;
    }
    Ok(())
}

/// Where the piece ends that begins here.
fn piece_end(start: u64, bytes: &[u8], block: u32, from: usize, zero: bool) -> usize
    requires block { 0 < block }
    requires room { start + length bytes.now ≤ 2 ^ 63 }
    requires begins { Begins block start from }
    requires some { from < length bytes.now }
    requires told { in_zero_block block start bytes.now (start + from) ≡ zero }
    ensures { IsPieceEnd block start bytes.now from zero result }
{
    let mut end = block_end(start, bytes.len(), block, from);
    while end < bytes.len() {
        let next = block_end(start, bytes.len(), block, end);
        if is_zero(&bytes[end..next]) != zero {
            return end;
        }
        end = next;
    }
    end
}

/// Where the block ends that begins here, or the bytes.
fn block_end(start: u64, count: usize, block: u32, from: usize) -> usize
    requires block { 0 < block }
    requires room { start + count ≤ 2 ^ 63 }
    requires within { from ≤ count }
    ensures { IsBlockEnd block start count from result }
{
    let left = (count - from) as u64;
    from + rest_of_cell(start + from as u64, block as u64, left) as usize
}

/// Whether all of the bytes are zero: the first one is, and each is as the next one.
fn is_zero(bytes: &[u8]) -> bool
    ensures { IsTrue result ↔ EachIndex bytes.now (λ i. slice_index bytes.now i ≡ 0) }
{
    let count = bytes.len();
    count == 0 || (bytes[0] == 0 && bytes[..count - 1] == bytes[1..])
}
