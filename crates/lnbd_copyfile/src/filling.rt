//! A file is made at a path and filled with the bytes of another one, slice by slice. How that one was opened is not known here.

ghost use Rattle.std.specs.Prelude.{◌≡◌, ◌+◌, ◌%◌, ◌<◌, ◌≤◌, ◌^◌, Err, IfErr, IfOk, OnErr, OnOk, length, min};
ghost use Rattle.lnbd_link.specs.Count.{Rises};
ghost use Rattle.lnbd_store.specs.Shelf.{Goes};
ghost use Rattle.lnbd_touched.specs.Both.{Both};
ghost use Rattle.lnbd_touched.specs.Grown.{Grew, RoseBy};
ghost use Rattle.lnbd_touched.specs.Touches.{Touches};
ghost use Rattle.lnbd_copyfile.specs.Calls.{Breaks, HasFilled, HasMoved, IsClosing, IsMaking, Moves, NotClosed, NotFilled, NotMade, NotMoved};
ghost use Rattle.lnbd_copyfile.specs.Causes.{IsChanged};
ghost use Rattle.lnbd_copyfile.specs.Steps.{IsBlank, IsFilled, IsSlice, Kept, Lacking, Moved, WasShort};

use crate::fault::Stop;
use crate::passing::pass_hole;
use crate::reading::read_slice;
use crate::writing::settle;
use lnbd_model::Text;
use lnbd_plan::Slice;
use lnbd_store::{Store, StoreFailed};
use std::alloc::Global;

/// Where the bytes come from, and how they are written.
#[derive(Clone, Copy)]
pub(crate) struct Way {
    /// The source's number and length.
    pub(crate) from: u32,
    pub(crate) size: u64,
    /// The most bytes of a slice.
    pub(crate) cell: u32,
    /// Zero blocks of so many bytes are passed over; 0 where none are.
    pub(crate) block: u32,
    /// Whether the destination is synced in the end.
    pub(crate) flush: bool,
}

/// How many bytes were read, and how many of these were written.
#[derive(Clone, Copy)]
pub(crate) struct Amounts {
    pub(crate) read: u64,
    pub(crate) written: u64,
}

/// A part of the source that is over: its length, and what was read and written for it.
#[derive(Clone, Copy)]
struct Part {
    length: u64,
    amounts: Amounts,
}

/// Reads a slice and writes it. How many of its bytes were written.
fn move_slice<S: Store>(
    store: &mut S,
    way: Way,
    to: u32,
    offset: u64,
    count: usize,
    buffer: &mut [u8],
    pieces: &mut Vec<Slice>,
) -> Result<u64, Stop>
    requires cell { 0 < way.cell }
    requires room { count ≤ length buffer.old }
    requires fits { offset + count ≤ way.size }
    requires slice { IsSlice way.cell way.size offset count }
    requires size { way.size < 2 ^ 63 }
    ensures same { length buffer.new ≡ length buffer.old }
    ensures moved { IfOk result (λ n. Both way.from to (Moved way.cell way.block way.size offset (offset + count) n) (S.shelf store.old) (S.shelf store.new)) }
    ensures moves { OnOk result (Grew (S.told store.old) (S.told store.new) (Moves way.cell way.size way.from to)) }
    ensures breaks { IfErr result (λ why. Grew (S.told store.old) (S.told store.new) (Breaks way.cell way.size way.from to why)) }
    ensures short { IfErr result (λ why. IsChanged why → Both way.from to (Lacking way.size) (S.shelf store.old) (S.shelf store.new)) }
    ensures failed { result ≡ Err Stop.Failed → Rises 1 (S.faults store.old) (S.faults store.new) }
    ensures later { S.faults store.old ≤ S.faults store.new }
    ensures given { OnOk result (RoseBy count (S.given store.old) (S.given store.new)) }
    ensures taken { IfOk result (λ n. RoseBy n (S.taken store.old) (S.taken store.new)) }
    ensures few { IfOk result (λ n. n ≤ count) }
    ensures all { way.block ≡ 0 → IfOk result (λ n. n ≡ count) }
{
    match read_slice(store, way.from, way.size, offset, buffer, count) {
        Ok(()) => settle(store, to, offset, &buffer[..count], way.block, pieces),
        Err(why) => Err(why),
    }
}

/// Passes over a hole, or moves the slice that begins here.
fn move_part<S: Store>(
    store: &mut S,
    way: Way,
    to: u32,
    at: u64,
    known: &mut u64,
    buffer: &mut [u8],
    pieces: &mut Vec<Slice>,
) -> Result<Part, Stop>
    requires cell { 0 < way.cell }
    requires room { length buffer.old ≡ min way.size way.cell }
    requires size { way.size < 2 ^ 63 }
    requires begins { at % way.cell ≡ 0 }
    requires more { at < way.size }
    ensures same { length buffer.new ≡ length buffer.old }
    ensures some { IfOk result (λ part. 0 < part.length) }
    ensures within { IfOk result (λ part. at + part.length ≤ way.size) }
    ensures ends { IfOk result (λ part. at + part.length < way.size → (at + part.length) % way.cell ≡ 0) }
    ensures moved { IfOk result (λ part. Both way.from to (Moved way.cell way.block way.size at (at + part.length) part.amounts.written) (S.shelf store.old) (S.shelf store.new)) }
    ensures moves { OnOk result (Grew (S.told store.old) (S.told store.new) (Moves way.cell way.size way.from to)) }
    ensures breaks { IfErr result (λ why. Grew (S.told store.old) (S.told store.new) (Breaks way.cell way.size way.from to why)) }
    ensures short { IfErr result (λ why. IsChanged why → Both way.from to (Lacking way.size) (S.shelf store.old) (S.shelf store.new)) }
    ensures failed { result ≡ Err Stop.Failed → Rises 1 (S.faults store.old) (S.faults store.new) }
    ensures later { S.faults store.old ≤ S.faults store.new }
    ensures given { IfOk result (λ part. RoseBy part.amounts.read (S.given store.old) (S.given store.new)) }
    ensures taken { IfOk result (λ part. RoseBy part.amounts.written (S.taken store.old) (S.taken store.new)) }
    ensures few { IfOk result (λ part. part.amounts.written ≤ part.amounts.read) }
    ensures low { IfOk result (λ part. part.amounts.read ≤ part.length) }
    ensures all { way.block ≡ 0 → IfOk result (λ part. part.amounts.written ≡ part.length) }
{
    let hole = pass_hole(store, way, at, known);
    if hole > 0 {
        return Ok(Part {
            length: hole,
            amounts: Amounts {
                read: 0,
                written: 0,
            },
        });
    }
    let count = (way.size - at).min(buffer.len() as u64) as usize;
    match move_slice(store, way, to, at, count, buffer, pieces) {
        Ok(written) => Ok(Part {
            length: count as u64,
            amounts: Amounts {
                read: count as u64,
                written,
            },
        }),
        Err(why) => Err(why),
    }
}

/// Moves all slices, the first one first, but for those that lie in holes.
fn move_slices<S: Store>(
    store: &mut S,
    way: Way,
    to: u32,
    buffer: &mut [u8],
    pieces: &mut Vec<Slice>,
) -> Result<Amounts, Stop>
    requires cell { 0 < way.cell }
    requires room { length buffer.old ≡ min way.size way.cell }
    requires size { way.size < 2 ^ 63 }
    ensures moved { IfOk result (λ n. Both way.from to (Moved way.cell way.block way.size 0 way.size n.written) (S.shelf store.old) (S.shelf store.new)) }
    ensures moves { OnOk result (Grew (S.told store.old) (S.told store.new) (Moves way.cell way.size way.from to)) }
    ensures breaks { IfErr result (λ why. Grew (S.told store.old) (S.told store.new) (Breaks way.cell way.size way.from to why)) }
    ensures short { IfErr result (λ why. IsChanged why → Both way.from to (Lacking way.size) (S.shelf store.old) (S.shelf store.new)) }
    ensures failed { result ≡ Err Stop.Failed → Rises 1 (S.faults store.old) (S.faults store.new) }
    ensures later { S.faults store.old ≤ S.faults store.new }
    ensures given { IfOk result (λ n. RoseBy n.read (S.given store.old) (S.given store.new)) }
    ensures taken { IfOk result (λ n. RoseBy n.written (S.taken store.old) (S.taken store.new)) }
    ensures few { IfOk result (λ n. n.written ≤ n.read) }
    ensures low { IfOk result (λ n. n.read ≤ way.size) }
    ensures all { way.block ≡ 0 → IfOk result (λ n. n.written ≡ way.size) }
{
    let mut at: u64 = 0;
    let mut read: u64 = 0;
    let mut written: u64 = 0;
    let mut known: u64 = 0;
    'slices: while at < way.size {
        match move_part(store, way, to, at, &mut known, buffer, pieces) {
            Ok(part) => {
                at += part.length;
                read += part.amounts.read;
                written += part.amounts.written;
            }
            Err(why) => return Err(why),
        }
    }
    Ok(Amounts { read, written })
}

/// The file at a path is opened, cut to nothing, and cut to a size: it is so many zeros then, whatever was there.
pub(crate) fn make<S: Store>(store: &mut S, path: &Text, size: u64) -> Result<u32, StoreFailed>
    ensures blank { IfOk result (λ n. Goes (S.shelf store.old) (S.shelf store.new) (IsBlank path.now n size)) }
    ensures made { IfOk result (λ n. Grew (S.told store.old) (S.told store.new) (IsMaking path.now n size)) }
    ensures unmade { OnErr result (Grew (S.told store.old) (S.told store.new) (NotMade path.now size)) }
    ensures failed { OnErr result (Rises 1 (S.faults store.old) (S.faults store.new)) }
    ensures later { S.faults store.old ≤ S.faults store.new }
    ensures given { S.given store.new ≡ S.given store.old }
    ensures taken { S.taken store.new ≡ S.taken store.old }
{
    let to = store.open(path, true)?;
    store.cut(to, 0)?;
    store.cut(to, size)?;
    Ok(to)
}

/// Syncs the file, where that is wished.
pub(crate) fn finish<S: Store>(store: &mut S, to: u32, flush: bool) -> Result<(), StoreFailed>
    ensures kept { OnOk result (Touches to Kept (S.shelf store.old) (S.shelf store.new)) }
    ensures closed { OnOk result (Grew (S.told store.old) (S.told store.new) (IsClosing to flush)) }
    ensures unclosed { OnErr result (Grew (S.told store.old) (S.told store.new) (NotClosed to flush)) }
    ensures failed { OnErr result (Rises 1 (S.faults store.old) (S.faults store.new)) }
    ensures later { S.faults store.old ≤ S.faults store.new }
    ensures given { S.given store.new ≡ S.given store.old }
    ensures taken { S.taken store.new ≡ S.taken store.old }
{
    if flush {
        return store.sync(to);
    }
    Ok(())
}

/// Moves all slices into a file of zeros, and syncs it where that is wished. How many bytes were read and written.
fn transfer<S: Store>(
    store: &mut S,
    way: Way,
    to: u32,
    buffer: &mut [u8],
    pieces: &mut Vec<Slice>,
) -> Result<Amounts, Stop>
    requires cell { 0 < way.cell }
    requires room { length buffer.old ≡ min way.size way.cell }
    requires size { way.size < 2 ^ 63 }
    ensures moved { IfOk result (λ n. Both way.from to (Moved way.cell way.block way.size 0 way.size n.written) (S.shelf store.old) (S.shelf store.new)) }
    ensures moves { OnOk result (Grew (S.told store.old) (S.told store.new) (HasMoved way.cell way.size way.from to way.flush)) }
    ensures breaks { IfErr result (λ why. Grew (S.told store.old) (S.told store.new) (NotMoved way.cell way.size way.from to way.flush why)) }
    ensures short { IfErr result (λ why. IsChanged why → Both way.from to (Lacking way.size) (S.shelf store.old) (S.shelf store.new)) }
    ensures failed { result ≡ Err Stop.Failed → Rises 1 (S.faults store.old) (S.faults store.new) }
    ensures later { S.faults store.old ≤ S.faults store.new }
    ensures given { IfOk result (λ n. RoseBy n.read (S.given store.old) (S.given store.new)) }
    ensures taken { IfOk result (λ n. RoseBy n.written (S.taken store.old) (S.taken store.new)) }
    ensures few { IfOk result (λ n. n.written ≤ n.read) }
    ensures low { IfOk result (λ n. n.read ≤ way.size) }
    ensures all { way.block ≡ 0 → IfOk result (λ n. n.written ≡ way.size) }
{
    let amounts = match move_slices(store, way, to, buffer, pieces) {
        Ok(amounts) => amounts,
        Err(why) => return Err(why),
    };
    match finish(store, to, way.flush) {
        Ok(()) => Ok(amounts),
        Err(_) => Err(Stop::Failed),
    }
}

/// Makes the file and fills it, by a buffer for a slice. How many bytes were read and written.
fn fill_by<S: Store>(
    store: &mut S,
    way: Way,
    path: &Text,
    buffer: &mut [u8],
    pieces: &mut Vec<Slice>,
) -> Result<Amounts, Stop>
    requires cell { 0 < way.cell }
    requires room { length buffer.old ≡ min way.size way.cell }
    requires size { way.size < 2 ^ 63 }
    ensures filled { IfOk result (λ n. Goes (S.shelf store.old) (S.shelf store.new) (IsFilled way.cell way.block way.size way.from n.written path.now)) }
    ensures calls { OnOk result (Grew (S.told store.old) (S.told store.new) (HasFilled way.cell way.size way.from path.now way.flush)) }
    ensures breaks { IfErr result (λ why. Grew (S.told store.old) (S.told store.new) (NotFilled way.cell way.size way.from path.now way.flush why)) }
    ensures short { IfErr result (λ why. IsChanged why → Goes (S.shelf store.old) (S.shelf store.new) (WasShort way.from way.size path.now)) }
    ensures failed { result ≡ Err Stop.Failed → Rises 1 (S.faults store.old) (S.faults store.new) }
    ensures later { S.faults store.old ≤ S.faults store.new }
    ensures given { IfOk result (λ n. RoseBy n.read (S.given store.old) (S.given store.new)) }
    ensures taken { IfOk result (λ n. RoseBy n.written (S.taken store.old) (S.taken store.new)) }
    ensures few { IfOk result (λ n. n.written ≤ n.read) }
    ensures low { IfOk result (λ n. n.read ≤ way.size) }
    ensures all { way.block ≡ 0 → IfOk result (λ n. n.written ≡ way.size) }
{
    match make(store, path, way.size) {
        Ok(to) => transfer(store, way, to, buffer, pieces),
        Err(_) => Err(Stop::Failed),
    }
}

/// Makes the file at a path and fills it. Memory for a slice is had before the file is opened. How many bytes were read and written.
pub(crate) fn fill<S: Store>(
    alloc: Global,
    store: &mut S,
    way: Way,
    path: &Text,
) -> Result<Amounts, Stop>
    requires cell { 0 < way.cell }
    requires size { way.size < 2 ^ 63 }
    ensures filled { IfOk result (λ n. Goes (S.shelf store.old) (S.shelf store.new) (IsFilled way.cell way.block way.size way.from n.written path.now)) }
    ensures calls { OnOk result (Grew (S.told store.old) (S.told store.new) (HasFilled way.cell way.size way.from path.now way.flush)) }
    ensures breaks { IfErr result (λ why. Grew (S.told store.old) (S.told store.new) (NotFilled way.cell way.size way.from path.now way.flush why)) }
    ensures short { IfErr result (λ why. IsChanged why → Goes (S.shelf store.old) (S.shelf store.new) (WasShort way.from way.size path.now)) }
    ensures failed { result ≡ Err Stop.Failed → Rises 1 (S.faults store.old) (S.faults store.new) }
    ensures later { S.faults store.old ≤ S.faults store.new }
    ensures given { IfOk result (λ n. RoseBy n.read (S.given store.old) (S.given store.new)) }
    ensures taken { IfOk result (λ n. RoseBy n.written (S.taken store.old) (S.taken store.new)) }
    ensures few { IfOk result (λ n. n.written ≤ n.read) }
    ensures low { IfOk result (λ n. n.read ≤ way.size) }
    ensures all { way.block ≡ 0 → IfOk result (λ n. n.written ≡ way.size) }
{
    let room = way.size.min(way.cell as u64) as usize;
    let mut buffer = match vec![in alloc; 0u8; room] {
        Ok(buffer) => buffer,
        Err(_) => return Err(Stop::NoMemory),
    };
    let mut pieces = Vec::new(alloc);
    fill_by(store, way, path, &mut buffer, &mut pieces)
}
