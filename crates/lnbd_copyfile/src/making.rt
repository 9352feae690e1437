//! A change that a copy asks for is made in a file. Who asks for it, and what becomes of its bytes, is not known here.

ghost use Rattle.std.specs.Prelude.{◌≡◌, ◌+◌, ◌<◌, ◌≤◌, ◌^◌, ℕ, Err, IfErr, IfOk, OnErr, OnOk, length, replicate, true};
ghost use Rattle.lnbd_link.specs.Count.{Rises};
ghost use Rattle.lnbd_touched.specs.Grown.{Grew, RoseBy};
ghost use Rattle.lnbd_touched.specs.Parts.{Puts};
ghost use Rattle.lnbd_touched.specs.Touches.{Touches};
ghost use Rattle.lnbd_board.specs.Asks.{change_of};
ghost use Rattle.lnbd_board.specs.Pieces.{write_at};
ghost use Rattle.lnbd_copyfile.specs.Making.{MakesInside, zero_at};
ghost use Rattle.lnbd_copyfile.specs.OneFile.{BreaksWriting, Writes};

use crate::fault::Stop;
use crate::writing::write_all;
use lnbd_board::Change;
use lnbd_model::NoMemory;
use lnbd_store::{Store, StoreFailed};
use std::alloc::Global;

/// The most zeros that are written at once.
const ZEROS: u64 = 65_536;

/// So many zeros.
fn zeros(alloc: Global, count: usize) -> Result<Vec<u8>, NoMemory>
    ensures { IfOk result (λ zeros. zeros.items ≡ replicate count 0) }
{
    let zeros = Vec::from_elem(alloc, 0, count)?;
    Ok(zeros)
}

/// Writes zeros at a place, as many at once as the block has.
fn put_zeros<S: Store>(
    store: &mut S,
    file: u32,
    offset: u64,
    size: u64,
    block: &[u8],
) -> Result<(), StoreFailed>
    requires fits { offset + size < 2 ^ 64 }
    requires zeros { block.now ≡ replicate (length block.now) 0 }
    requires some { 0 < length block.now }
    ensures puts { OnOk result (Touches file (Puts offset (replicate size 0)) (S.shelf store.old) (S.shelf store.new)) }
    ensures writes { OnOk result (Grew (S.told store.old) (S.told store.new) (Writes file)) }
    ensures breaks { OnErr result (Grew (S.told store.old) (S.told store.new) (BreaksWriting file Stop.Failed)) }
    ensures failed { OnErr result (Rises 1 (S.faults store.old) (S.faults store.new)) }
    ensures later { S.faults store.old ≤ S.faults store.new }
    ensures given { S.given store.new ≡ S.given store.old }
    ensures taken { OnOk result (RoseBy size (S.taken store.old) (S.taken store.new)) }
{
    let mut at: u64 = 0;
    'parts: while at < size {
        let count = (size - at).min(block.len() as u64) as usize;
        match write_all(store, file, offset + at, &block[..count]) {
            Ok(()) => {}
            Err(why) => return Err(why),
        }
        at += count as u64;
    }
    Ok(())
}

/// Whether the positions of a range are numbers. Those of a slice are, so that one which isn't would count as want of memory.
fn is_low(offset: u64, size: u64) -> bool
    ensures { result ≡ true → offset + size < 2 ^ 64 }
{
    size <= u64::MAX - offset
}

/// Writes bytes at a place.
fn write<S: Store>(store: &mut S, file: u32, offset: u64, bytes: &[u8]) -> Result<(), Stop>
    ensures makes { OnOk result (Touches file (MakesInside (write_at offset bytes.now)) (S.shelf store.old) (S.shelf store.new)) }
    ensures writes { OnOk result (Grew (S.told store.old) (S.told store.new) (Writes file)) }
    ensures breaks { IfErr result (λ why. Grew (S.told store.old) (S.told store.new) (BreaksWriting file why)) }
    ensures unchanged { (n end : ℕ) → result ≡ Err (Stop.Changed n end) → ⊥ }
    ensures failed { result ≡ Err Stop.Failed → Rises 1 (S.faults store.old) (S.faults store.new) }
    ensures later { S.faults store.old ≤ S.faults store.new }
    ensures given { S.given store.new ≡ S.given store.old }
    ensures taken { OnOk result (RoseBy (length bytes.now) (S.taken store.old) (S.taken store.new)) }
{
    if bytes.is_empty() {
        return Ok(());
    }
    if !is_low(offset, bytes.len() as u64) {
        return Err(Stop::NoMemory);
    }
    match write_all(store, file, offset, bytes) {
        Ok(()) => Ok(()),
        Err(_) => Err(Stop::Failed),
    }
}

/// Writes so many zeros at a place.
fn zero<S: Store>(
    alloc: Global,
    store: &mut S,
    file: u32,
    offset: u64,
    size: u64,
) -> Result<(), Stop>
    ensures makes { OnOk result ((flags : ℕ) → Touches file (MakesInside (zero_at offset size flags)) (S.shelf store.old) (S.shelf store.new)) }
    ensures writes { OnOk result (Grew (S.told store.old) (S.told store.new) (Writes file)) }
    ensures breaks { IfErr result (λ why. Grew (S.told store.old) (S.told store.new) (BreaksWriting file why)) }
    ensures unchanged { (n end : ℕ) → result ≡ Err (Stop.Changed n end) → ⊥ }
    ensures failed { result ≡ Err Stop.Failed → Rises 1 (S.faults store.old) (S.faults store.new) }
    ensures later { S.faults store.old ≤ S.faults store.new }
    ensures given { S.given store.new ≡ S.given store.old }
    ensures taken { OnOk result (RoseBy size (S.taken store.old) (S.taken store.new)) }
{
    if size == 0 {
        return Ok(());
    }
    if !is_low(offset, size) {
        return Err(Stop::NoMemory);
    }
    let block = match zeros(alloc, size.min(ZEROS) as usize) {
        Ok(block) => block,
        Err(_) => return Err(Stop::NoMemory),
    };
    match put_zeros(store, file, offset, size, &block) {
        Ok(()) => Ok(()),
        Err(_) => Err(Stop::Failed),
    }
}

/// Makes a change in a file.
pub(crate) fn make_change<S: Store>(
    alloc: Global,
    store: &mut S,
    file: u32,
    change: &Change,
) -> Result<(), Stop>
    ensures makes { OnOk result (Touches file (MakesInside (change_of change.now)) (S.shelf store.old) (S.shelf store.new)) }
    ensures writes { OnOk result (Grew (S.told store.old) (S.told store.new) (Writes file)) }
    ensures breaks { IfErr result (λ why. Grew (S.told store.old) (S.told store.new) (BreaksWriting file why)) }
    ensures unchanged { (n end : ℕ) → result ≡ Err (Stop.Changed n end) → ⊥ }
    ensures failed { result ≡ Err Stop.Failed → Rises 1 (S.faults store.old) (S.faults store.new) }
    ensures later { S.faults store.old ≤ S.faults store.new }
    ensures given { S.given store.new ≡ S.given store.old }
    ensures taken { OnOk result (RoseBy (change_of change.now).length (S.taken store.old) (S.taken store.new)) }
{
    match change {
        Change::Write { offset, bytes } => write(store, file, *offset, bytes.as_slice()),
        Change::Zero {
            offset,
            length,
            flags: _,
        } => zero(alloc, store, file, *offset, *length),
    }
}
