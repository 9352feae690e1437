//! The bytes of a slice that was read are written in a file of zeros, in pieces; those that are zero may be passed over. Where they come from
//! is not known here.

ghost use Rattle.std.specs.Prelude.{◌≡◌, ◌+◌, ◌<◌, ◌≤◌, ◌^◌, ℕ, Err, IfErr, IfOk, OnErr, OnOk, cond, length, replicate, true};
ghost use Rattle.lnbd_link.specs.Count.{Rises};
ghost use Rattle.lnbd_touched.specs.Grown.{Grew, RoseBy};
ghost use Rattle.lnbd_touched.specs.Parts.{Puts};
ghost use Rattle.lnbd_touched.specs.Touches.{Touches};
ghost use Rattle.lnbd_copyfile.specs.Calls.{Breaks, Moves};
ghost use Rattle.lnbd_copyfile.specs.OneFile.{BreaksWriting, Writes};
ghost use Rattle.lnbd_copyfile.specs.Steps.{AreCounted, ArePieces, Fills, data_length};
ghost use Rattle.lnbd_copyfile.specs.Zeros.{is_zero_at};

use crate::fault::Stop;
use lnbd_model::NoMemory;
use lnbd_plan::{Slice, pieces};
use lnbd_store::{Store, StoreFailed, StoreTook};

/// Writes all of the bytes at a place.
pub(crate) fn write_all<S: Store>(
    store: &mut S,
    file: u32,
    offset: u64,
    bytes: &[u8],
) -> Result<(), StoreFailed>
    requires { offset + length bytes.now < 2 ^ 64 }
    ensures puts { OnOk result (Touches file (Puts offset bytes.now) (S.shelf store.old) (S.shelf store.new)) }
    ensures moves { OnOk result ((cell size from : ℕ) → length bytes.now ≤ cell → Grew (S.told store.old) (S.told store.new) (Moves cell size from file)) }
    ensures breaks { OnErr result ((cell size from : ℕ) → length bytes.now ≤ cell → Grew (S.told store.old) (S.told store.new) (Breaks cell size from file Stop.Failed)) }
    ensures writes { OnOk result (Grew (S.told store.old) (S.told store.new) (Writes file)) }
    ensures breaks_writing { OnErr result (Grew (S.told store.old) (S.told store.new) (BreaksWriting file Stop.Failed)) }
    ensures failed { OnErr result (Rises 1 (S.faults store.old) (S.faults store.new)) }
    ensures later { S.faults store.old ≤ S.faults store.new }
    ensures given { S.given store.new ≡ S.given store.old }
    ensures taken { OnOk result (RoseBy (length bytes.now) (S.taken store.old) (S.taken store.new)) }
{
    let mut at: usize = 0;
    'parts: while at < bytes.len() {
        match store.write_at(file, offset + at as u64, &bytes[at..]) {
            StoreTook::Bytes(n) => at += n,
            StoreTook::Failed => return Err(StoreFailed),
        }
    }
    Ok(())
}

/// Writes a piece, or passes it over where it is zero. How many bytes were written.
fn put_piece<S: Store>(
    store: &mut S,
    file: u32,
    offset: u64,
    bytes: &[u8],
    zero: bool,
) -> Result<u64, StoreFailed>
    requires fits { offset + length bytes.now < 2 ^ 64 }
    requires zero { zero ≡ true → bytes.now ≡ replicate (length bytes.now) 0 }
    ensures fills { OnOk result (Touches file (Fills offset bytes.now) (S.shelf store.old) (S.shelf store.new)) }
    ensures moves { OnOk result ((cell size from : ℕ) → length bytes.now ≤ cell → Grew (S.told store.old) (S.told store.new) (Moves cell size from file)) }
    ensures breaks { OnErr result ((cell size from : ℕ) → length bytes.now ≤ cell → Grew (S.told store.old) (S.told store.new) (Breaks cell size from file Stop.Failed)) }
    ensures failed { OnErr result (Rises 1 (S.faults store.old) (S.faults store.new)) }
    ensures later { S.faults store.old ≤ S.faults store.new }
    ensures given { S.given store.new ≡ S.given store.old }
    ensures taken { IfOk result (λ n. RoseBy n (S.taken store.old) (S.taken store.new)) }
    ensures count { IfOk result (λ n. n ≡ cond zero 0 (length bytes.now)) }
{
    if zero {
        return Ok(0);
    }
    match write_all(store, file, offset, bytes) {
        Ok(()) => Ok(bytes.len() as u64),
        Err(why) => Err(why),
    }
}

/// Writes the pieces of the bytes, and passes over those that are zero. How many bytes were written.
fn put_pieces<S: Store>(
    store: &mut S,
    file: u32,
    offset: u64,
    bytes: &[u8],
    pieces: &[Slice],
) -> Result<u64, StoreFailed>
    requires fits { offset + length bytes.now < 2 ^ 64 }
    requires pieces { ArePieces offset bytes.now pieces.now }
    ensures fills { OnOk result (Touches file (Fills offset bytes.now) (S.shelf store.old) (S.shelf store.new)) }
    ensures moves { OnOk result ((cell size from : ℕ) → length bytes.now ≤ cell → Grew (S.told store.old) (S.told store.new) (Moves cell size from file)) }
    ensures breaks { OnErr result ((cell size from : ℕ) → length bytes.now ≤ cell → Grew (S.told store.old) (S.told store.new) (Breaks cell size from file Stop.Failed)) }
    ensures failed { OnErr result (Rises 1 (S.faults store.old) (S.faults store.new)) }
    ensures later { S.faults store.old ≤ S.faults store.new }
    ensures given { S.given store.new ≡ S.given store.old }
    ensures taken { IfOk result (λ n. RoseBy n (S.taken store.old) (S.taken store.new)) }
    ensures count { IfOk result (λ n. n ≡ data_length pieces.now) }
{
    let mut at: usize = 0;
    let mut written: u64 = 0;
    'pieces: for piece in pieces {
        let to = at + piece.length as usize;
        match put_piece(store, file, offset + at as u64, &bytes[at..to], piece.zero) {
            Ok(n) => written += n,
            Err(why) => return Err(why),
        }
        at = to;
    }
    Ok(written)
}

/// The pieces of the bytes from a place on: those of the grid of blocks, or one where no zeros are looked for.
fn cut_pieces(offset: u64, bytes: &[u8], block: u32, out: &mut Vec<Slice>) -> Result<(), NoMemory>
    requires room { offset + length bytes.now ≤ 2 ^ 63 }
    ensures pieces { OnOk result (ArePieces offset bytes.now out.new.items) }
    ensures counts { OnOk result (AreCounted (is_zero_at block offset bytes.now) (data_length out.new.items) offset (length bytes.now)) }
{
    out.clear();
    if block == 0 {
        out.push(Slice {
            start: offset,
            length: bytes.len() as u64,
            zero: false,
        })?;
        return Ok(());
    }
    pieces(offset, bytes, block, out)
}

/// Writes the bytes of a slice, but for the blocks of the grid that are zero, where these are looked for. How many were written.
pub(crate) fn settle<S: Store>(
    store: &mut S,
    file: u32,
    offset: u64,
    bytes: &[u8],
    block: u32,
    pieces: &mut Vec<Slice>,
) -> Result<u64, Stop>
    requires room { offset + length bytes.now ≤ 2 ^ 63 }
    ensures fills { OnOk result (Touches file (Fills offset bytes.now) (S.shelf store.old) (S.shelf store.new)) }
    ensures moves { OnOk result ((cell size from : ℕ) → length bytes.now ≤ cell → Grew (S.told store.old) (S.told store.new) (Moves cell size from file)) }
    ensures breaks { IfErr result (λ why. (cell size from : ℕ) → length bytes.now ≤ cell → Grew (S.told store.old) (S.told store.new) (Breaks cell size from file why)) }
    ensures unchanged { (n end : ℕ) → result ≡ Err (Stop.Changed n end) → ⊥ }
    ensures failed { result ≡ Err Stop.Failed → Rises 1 (S.faults store.old) (S.faults store.new) }
    ensures later { S.faults store.old ≤ S.faults store.new }
    ensures given { S.given store.new ≡ S.given store.old }
    ensures taken { IfOk result (λ n. RoseBy n (S.taken store.old) (S.taken store.new)) }
    ensures count { IfOk result (λ n. AreCounted (is_zero_at block offset bytes.now) n offset (length bytes.now)) }
{
    match cut_pieces(offset, bytes, block, pieces) {
        Ok(()) => {}
        Err(_) => return Err(Stop::NoMemory),
    }
    match put_pieces(store, file, offset, bytes, pieces) {
        Ok(written) => Ok(written),
        Err(_) => Err(Stop::Failed),
    }
}
