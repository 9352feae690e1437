//! The bytes of a slice are read from a file, whose length is known. What becomes of them is not known here.

ghost use Rattle.std.specs.Prelude.{◌≡◌, ◌+◌, ◌-◌, ◌<◌, ◌≤◌, ◌^◌, ℕ, Err, IfErr, OnOk, drop, length, take};
ghost use Rattle.lnbd_link.specs.Count.{Rises};
ghost use Rattle.lnbd_link.specs.Part.{Adds};
ghost use Rattle.lnbd_store.specs.Answers.{GivesMore, GotFailed, IfGot};
ghost use Rattle.lnbd_store.specs.Call.{ReadAt, read_told};
ghost use Rattle.lnbd_store.specs.Effects.{ReadsAs};
ghost use Rattle.lnbd_store.specs.Shelf.{Goes};
ghost use Rattle.lnbd_touched.specs.Grown.{Grew, RoseBy};
ghost use Rattle.lnbd_touched.specs.Parts.{IsShort, Tells};
ghost use Rattle.lnbd_touched.specs.Touches.{Touches};
ghost use Rattle.lnbd_copyfile.specs.Calls.{Breaks, Moves};
ghost use Rattle.lnbd_copyfile.specs.Causes.{IsChanged};
ghost use Rattle.lnbd_copyfile.specs.OneFile.{BreaksReading, Reads};
ghost use Rattle.lnbd_copyfile.specs.Steps.{IsSlice};

use crate::fault::Stop;
use lnbd_store::{Store, StoreGot};

/// Reads some of the bytes that are left, behind those that were read.
fn read_more<S: Store>(
    store: &mut S,
    file: u32,
    offset: u64,
    bytes: &mut [u8],
    at: usize,
) -> StoreGot
    requires more { at < length bytes.old }
    requires fits { offset + length bytes.old < 2 ^ 64 }
    ensures same { length bytes.new ≡ length bytes.old }
    ensures front { take at bytes.new ≡ take at bytes.old }
    ensures count { IfGot result (λ n. (0 < n) × (at + n ≤ length bytes.old)) }
    ensures told { Adds (S.told store.old) (S.told store.new) (ReadAt file (offset + at) (length bytes.old - at) (read_told result (drop at bytes.new))) }
    ensures shelf { Goes (S.shelf store.old) (S.shelf store.new) (ReadsAs file (offset + at) result (drop at bytes.new)) }
    ensures failed { GotFailed result → Rises 1 (S.faults store.old) (S.faults store.new) }
    ensures later { S.faults store.old ≤ S.faults store.new }
    ensures given { GivesMore result (S.given store.old) (S.given store.new) }
    ensures taken { S.taken store.new ≡ S.taken store.old }
{
    store.read_at(file, offset + at as u64, &mut bytes[at..])
}

/// Reads as many bytes as there is room for, from a place on, of a file that told that it has so many.
pub(crate) fn read_all<S: Store>(
    store: &mut S,
    file: u32,
    size: u64,
    offset: u64,
    bytes: &mut [u8],
) -> Result<(), Stop>
    requires fits { offset + length bytes.old ≤ size }
    ensures same { length bytes.new ≡ length bytes.old }
    ensures tells { OnOk result (Touches file (Tells offset bytes.new) (S.shelf store.old) (S.shelf store.new)) }
    ensures moves { OnOk result ((cell to : ℕ) → IsSlice cell size offset (length bytes.old) → Grew (S.told store.old) (S.told store.new) (Moves cell size file to)) }
    ensures breaks { IfErr result (λ why. (cell to : ℕ) → IsSlice cell size offset (length bytes.old) → Grew (S.told store.old) (S.told store.new) (Breaks cell size file to why)) }
    ensures reads { OnOk result (Grew (S.told store.old) (S.told store.new) (Reads file)) }
    ensures breaks_reading { IfErr result (λ why. Grew (S.told store.old) (S.told store.new) (BreaksReading file size why)) }
    ensures short { IfErr result (λ why. IsChanged why → Touches file (IsShort size) (S.shelf store.old) (S.shelf store.new)) }
    ensures failed { result ≡ Err Stop.Failed → Rises 1 (S.faults store.old) (S.faults store.new) }
    ensures later { S.faults store.old ≤ S.faults store.new }
    ensures given { OnOk result (RoseBy (length bytes.old) (S.given store.old) (S.given store.new)) }
    ensures taken { S.taken store.new ≡ S.taken store.old }
{
    let mut at: usize = 0;
    'parts: while at < bytes.len() {
        match read_more(store, file, offset, bytes, at) {
            StoreGot::Bytes(n) => at += n,
            StoreGot::End => {
                return Err(Stop::Changed {
                    length: size,
                    end: offset + at as u64,
                });
            }
            StoreGot::Failed => return Err(Stop::Failed),
        }
    }
    Ok(())
}

/// Reads so many bytes into the front of the buffer.
pub(crate) fn read_slice<S: Store>(
    store: &mut S,
    file: u32,
    size: u64,
    offset: u64,
    buffer: &mut [u8],
    count: usize,
) -> Result<(), Stop>
    requires room { count ≤ length buffer.old }
    requires fits { offset + count ≤ size }
    ensures same { length buffer.new ≡ length buffer.old }
    ensures tells { OnOk result (Touches file (Tells offset (take count buffer.new)) (S.shelf store.old) (S.shelf store.new)) }
    ensures moves { OnOk result ((cell to : ℕ) → IsSlice cell size offset count → Grew (S.told store.old) (S.told store.new) (Moves cell size file to)) }
    ensures breaks { IfErr result (λ why. (cell to : ℕ) → IsSlice cell size offset count → Grew (S.told store.old) (S.told store.new) (Breaks cell size file to why)) }
    ensures short { IfErr result (λ why. IsChanged why → Touches file (IsShort size) (S.shelf store.old) (S.shelf store.new)) }
    ensures failed { result ≡ Err Stop.Failed → Rises 1 (S.faults store.old) (S.faults store.new) }
    ensures later { S.faults store.old ≤ S.faults store.new }
    ensures given { OnOk result (RoseBy count (S.given store.old) (S.given store.new)) }
    ensures taken { S.taken store.new ≡ S.taken store.old }
{
    read_all(store, file, size, offset, &mut buffer[..count])
}
