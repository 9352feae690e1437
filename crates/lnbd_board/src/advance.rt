//! The next request of a row to which nothing is asked.

ghost use Rattle.std.specs.Prelude.{◌≡◌, ℕ, ◌+◌, ◌≤◌, ◌^◌, [], ◌∷◌, true, false, length, IfOk, IfSome, OnErr, is_some, is_none, None, Some, List};
ghost use Rattle.lnbd_board.specs.Pieces.{detects, zero_flags, AreLeft};
ghost use Rattle.lnbd_board.specs.Rows.{is_busy};
ghost use Rattle.lnbd_board.specs.Asks.{Advances, IsChangeOf, Sits, IsCut, Cuts, Passes, cutting, is_over, is_cut, StartsKept, PassesFirst, bytes_of, IsReady, IsFirst, IsPart};
ghost use Rattle.lnbd_board.specs.declared.row.Stage.TheVariants.{Holding};

use crate::ask::Change;
use crate::how::How;
use crate::pieces::Pieces;
use crate::row::{Row, Stage};
use lnbd_model::{Bytes, NoMemory};
use lnbd_plan::{Slice, pieces};
use lnbd_records::names::CMD_FLAG_NO_HOLE;
use std::alloc::Global;
use std::mem;

/// The next request of a row to which nothing is asked, or the row is over. It takes memory for the list of pieces
/// and for the bytes of a piece that is not the whole slice.
///
/// On `NoMemory` some pieces may be passed over.
pub(crate) fn advance(row: &mut Row, how: How, alloc: Global) -> Result<Option<Change>, NoMemory>
    requires sits { Sits how row.old.slice row.old.stage }
    requires idle { is_busy row.old.stage ≡ false }
    requires room { row.old.slice.start + row.old.slice.length ≤ 2 ^ 63 }
    ensures ok { IfOk result (λ change. (n : ℕ) → Advances how n row.old.slice row.old.stage row.new.stage change) }
    ensures inside { IfOk result (λ change. IfSome change (λ one. IsChangeOf how row.old.slice one)) }
    ensures busy { IfOk result (λ change. is_busy row.new.stage ≡ is_some change) }
    ensures over { IfOk result (λ change. is_over row.new.stage ≡ is_none change) }
    ensures err { OnErr result ((n : ℕ) → Advances how n row.old.slice row.old.stage row.new.stage None) }
    ensures err_idle { OnErr result (is_busy row.new.stage ≡ false) }
    ensures sits { Sits how row.old.slice row.new.stage }
    ensures same { row.new ≡ record row.old { stage = row.new.stage } }
{
    let left = left_of(&row.stage, row.slice, how, alloc)?;
    let stage = mem::replace(&mut row.stage, Stage::Last);
    let stage = pass(cut(stage, left), how);
    match part_of(&stage, row.slice, how, alloc) {
        Err(fault) => {
            row.stage = stage;
            Err(fault)
        }
        Ok(part) => {
            let (stage, change) = ask(stage, part, row.slice, how);
            row.stage = stage;
            Ok(change)
        }
    }
}

/// The pieces of a slice that was read.
fn left_of(stage: &Stage, slice: Slice, how: How, alloc: Global) -> Result<Pieces, NoMemory>
    requires sits { Sits how slice stage.now }
    requires room { slice.start + slice.length ≤ 2 ^ 63 }
    ensures { IfOk result (λ left. Cuts how slice stage.now left) }
{
    match stage {
        Stage::Came { bytes } => pieces_of(slice, bytes.as_slice(), how, alloc),
        _ => Ok(Pieces::new(alloc)),
    }
}

/// The pieces of these bytes of a slice: those of the grid, or one.
fn pieces_of(slice: Slice, bytes: &[u8], how: How, alloc: Global) -> Result<Pieces, NoMemory>
    requires whole { length bytes.now ≡ slice.length }
    requires room { slice.start + slice.length ≤ 2 ^ 63 }
    ensures { IfOk result (λ left. AreLeft how slice bytes.now 0 left) }
{
    let mut left = Vec::new(alloc);
    if how.detects() {
        pieces(slice.start, bytes, how.block, &mut left)?;
        return Ok(Pieces::from_vec(left));
    }
    if bytes.is_empty() {
        return Ok(Pieces::from_vec(left));
    }
    left.push(Slice {
        start: slice.start,
        length: slice.length,
        zero: false,
    })?;
    Ok(Pieces::from_vec(left))
}

fn cut(stage: Stage, left: Pieces) -> Stage
    ensures { result ≡ cutting stage left }
{
    match stage {
        Stage::Came { bytes } => Stage::Holding { bytes, left },
        stage => stage,
    }
}

/// Zero pieces that come first are passed over where the destination is zero.
fn pass(stage: Stage, how: How) -> Stage
    ensures on { (n : ℕ) (slice : Slice) → Advances how n slice stage result None }
    ensures sits { (slice : Slice) → Sits how slice stage → Sits how slice result }
    ensures ready { IsReady how.skip result }
    ensures busy { is_busy result ≡ is_busy stage }
    ensures cut { is_cut result ≡ is_cut stage }
{
    match stage {
        Stage::Holding { bytes, mut left } => {
            pass_over(&mut left, how);
            Stage::Holding { bytes, left }
        }
        stage => stage,
    }
}

fn pass_over(left: &mut Pieces, how: How)
    ensures on { Passes how left.old left.new }
    ensures ready { StartsKept how.skip left.new }
{
    'pieces: while is_passed(left, how) {
        let _piece = left.pop();
    }
}

fn is_passed(left: &Pieces, how: How) -> bool
    ensures yes { result ≡ true → PassesFirst how.skip left.now }
    ensures no { result ≡ false → StartsKept how.skip left.now }
{
    match left.first() {
        Some(piece) => piece.zero && how.skip,
        None => false,
    }
}

/// The bytes of the first piece that is left, unless it is zero or the whole slice.
fn part_of(stage: &Stage, slice: Slice, how: How, alloc: Global) -> Result<Bytes, NoMemory>
    requires sits { Sits how slice stage.now }
    ensures { IfOk result (λ part. IsPart slice stage.now part) }
{
    match stage {
        Stage::Holding { bytes, left } => copy_first(bytes.as_slice(), left, slice, how, alloc),
        _ => Ok(Bytes::from_vec(Vec::new(alloc))),
    }
}

fn copy_first(
    bytes: &[u8],
    left: &Pieces,
    slice: Slice,
    how: How,
    alloc: Global,
) -> Result<Bytes, NoMemory>
    requires cut { IsCut how slice bytes.now left.now }
    ensures { IfOk result (λ part. IsFirst slice bytes.now left.now part) }
{
    let mut part = Vec::new(alloc);
    if let Some(piece) = left.first() {
        if !piece.zero && piece.length != slice.length {
            let from = (piece.start - slice.start) as usize;
            part.extend_from_slice(&bytes[from..from + piece.length as usize])?;
        }
    }
    Ok(Bytes::from_vec(part))
}

/// The first piece that is left is asked for, or the slice is over.
fn ask(stage: Stage, part: Bytes, slice: Slice, how: How) -> (Stage, Option<Change>)
    requires part { IsPart slice stage part }
    requires ready { IsReady how.skip stage }
    requires idle { is_busy stage ≡ false }
    requires whole { is_cut stage ≡ true }
    requires sits { Sits how slice stage }
    ensures on { (n : ℕ) → Advances how n slice stage result.0 result.1 }
    ensures inside { IfSome result.1 (λ one. IsChangeOf how slice one) }
    ensures sits { Sits how slice result.0 }
    ensures busy { is_busy result.0 ≡ is_some result.1 }
    ensures over { is_over result.0 ≡ is_none result.1 }
{
    match stage {
        Stage::Holding { bytes, mut left } => match left.pop() {
            None => (Stage::Finished { bytes }, None),
            Some(piece) => {
                let (stage, change) = ask_piece(bytes, left, piece, part, slice, how);
                (stage, Some(change))
            }
        },
        stage => (stage, None),
    }
}

fn ask_piece(
    bytes: Bytes,
    left: Pieces,
    piece: Slice,
    part: Bytes,
    slice: Slice,
    how: How,
) -> (Stage, Change)
    requires cut { IsCut how slice bytes (piece ∷ left) }
    requires kept { how.skip ≡ true → piece.zero ≡ false }
    requires part { piece.zero ≡ false → (piece.length ≡ slice.length → ⊥) → part ≡ bytes_of slice bytes piece }
    ensures on { (n : ℕ) → Advances how n slice (Holding bytes (piece ∷ left)) result.0 (Some result.1) }
    ensures inside { IsChangeOf how slice result.1 }
    ensures sits { Sits how slice result.0 }
    ensures busy { is_busy result.0 ≡ true }
    ensures over { is_over result.0 ≡ false }
{
    if piece.zero {
        let flags = zero_flags(how.allocated);
        let change = Change::Zero {
            offset: piece.start,
            length: piece.length,
            flags,
        };
        return (Stage::Writing { bytes, left }, change);
    }
    let offset = piece.start;
    if piece.length == slice.length {
        return (Stage::Last, Change::Write { offset, bytes });
    }
    (
        Stage::Writing { bytes, left },
        Change::Write {
            offset,
            bytes: part,
        },
    )
}

/// The flags of WRITE_ZEROES.
pub(crate) fn zero_flags(allocated: bool) -> u32
    ensures { result ≡ zero_flags allocated }
{
    if allocated {
        CMD_FLAG_NO_HOLE as u32
    } else {
        0
    }
}
