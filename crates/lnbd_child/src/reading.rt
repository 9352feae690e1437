//! A file that is read whole. What its bytes are for is not known here.

ghost use Rattle.std.specs.Prelude.{◌≡◌, ◌+◌, ◌-◌, ◌<◌, ◌≤◌, Err, IfErr, IfOk, OnOk, Some, drop, length, take};
ghost use Rattle.lnbd_link.specs.Count.{Rises};
ghost use Rattle.lnbd_link.specs.Part.{Adds};
ghost use Rattle.lnbd_store.specs.Answers.{GotFailed, IfGot};
ghost use Rattle.lnbd_store.specs.Call.{ReadAt, read_told};
ghost use Rattle.lnbd_store.specs.Effects.{ReadsAs};
ghost use Rattle.lnbd_store.specs.Shelf.{Goes, Shelf};
ghost use Rattle.lnbd_child.specs.Grown.{Grew};
ghost use Rattle.lnbd_child.specs.Reading.{HasRead, HasReadOf, IsRead, NotRead, NotReadOf, Parts, Stops, max_file};
ghost use Rattle.lnbd_child.specs.Touches.{Touches};
ghost use Rattle.lnbd_child.specs.Steps.{Is, IsChanged, IsFront, IsNever, IsShort};

use lnbd_model::Text;
use lnbd_store::{Store, StoreGot};
use std::alloc::Global;
use thiserror::Error;

/// How many bytes a file that is served has at most.
pub const MAX_FILE: u64 = 1 << 30;

/// Why a file was not read whole.
#[derive(Clone, Copy, Debug, PartialEq, Eq, Error)]
pub enum Unread {
    /// There is no memory for its bytes; none was read.
    #[error("no memory")]
    NoMemory,
    /// A call on the store failed.
    #[error("store fault")]
    Failed,
    /// The file has more bytes than are served: so many.
    #[error("rule file-size {length} 1073741824")]
    TooLong { length: u64 },
    /// The file told that it has so many bytes, and ended before the byte at this place was read.
    #[error("rule changed {length} {end}")]
    Changed { length: u64, end: u64 },
}

/// Reads some of the bytes that are left, behind those that were read.
fn read_more<S: Store>(store: &mut S, file: u32, bytes: &mut [u8], at: usize) -> StoreGot
    requires { at < length bytes.old }
    ensures same { length bytes.new ≡ length bytes.old }
    ensures front { take at bytes.new ≡ take at bytes.old }
    ensures count { IfGot result (λ n. (0 < n) × (at + n ≤ length bytes.old)) }
    ensures told { Adds (S.told store.old) (S.told store.new) (ReadAt file at (length bytes.old - at) (read_told result (drop at bytes.new))) }
    ensures shelf { Goes (S.shelf store.old) (S.shelf store.new) (ReadsAs file at result (drop at bytes.new)) }
    ensures failed { GotFailed result → Rises 1 (S.faults store.old) (S.faults store.new) }
    ensures later { S.faults store.old ≤ S.faults store.new }
{
    store.read_at(file, at as u64, &mut bytes[at..])
}

/// Reads as many bytes as there is room for, from the file's beginning on.
fn read_all<S: Store>(store: &mut S, file: u32, bytes: &mut [u8]) -> Result<(), Unread>
    ensures same { length bytes.new ≡ length bytes.old }
    ensures front { OnOk result (Touches file (IsFront bytes.new) (S.shelf store.old) (S.shelf store.new)) }
    ensures parts { OnOk result (Grew (S.told store.old) (S.told store.new) (Parts file (length bytes.old) bytes.new)) }
    ensures stops { IfErr result (λ why. Grew (S.told store.old) (S.told store.new) (Stops file (length bytes.old) why)) }
    ensures short { IfErr result (λ why. IsChanged why → Touches file (IsShort (length bytes.old)) (S.shelf store.old) (S.shelf store.new)) }
    ensures failed { result ≡ Err Unread.Failed → Rises 1 (S.faults store.old) (S.faults store.new) }
    ensures later { S.faults store.old ≤ S.faults store.new }
{
    let mut at: usize = 0;
    'parts: while at < bytes.len() {
        match read_more(store, file, bytes, at) {
            StoreGot::Bytes(n) => at += n,
            StoreGot::End => {
                return Err(Unread::Changed {
                    length: bytes.len() as u64,
                    end: at as u64,
                });
            }
            StoreGot::Failed => return Err(Unread::Failed),
        }
    }
    Ok(())
}

/// The bytes of a file that told how many they are.
fn read_told_size<S: Store>(
    alloc: Global,
    store: &mut S,
    file: u32,
    size: u64,
) -> Result<Vec<u8>, Unread>
    requires { size ≤ max_file }
    ensures size { IfOk result (λ content. length content.items ≡ size) }
    ensures front { IfOk result (λ content. Touches file (IsFront content.items) (S.shelf store.old) (S.shelf store.new)) }
    ensures parts { IfOk result (λ content. Grew (S.told store.old) (S.told store.new) (Parts file size content.items)) }
    ensures stops { IfErr result (λ why. Grew (S.told store.old) (S.told store.new) (Stops file size why)) }
    ensures short { IfErr result (λ why. IsChanged why → Touches file (IsShort size) (S.shelf store.old) (S.shelf store.new)) }
    ensures failed { result ≡ Err Unread.Failed → Rises 1 (S.faults store.old) (S.faults store.new) }
    ensures later { S.faults store.old ≤ S.faults store.new }
{
    let mut content = match vec![in alloc; 0u8; size as usize] {
        Ok(content) => content,
        Err(_) => return Err(Unread::NoMemory),
    };
    match read_all(store, file, &mut content) {
        Ok(()) => Ok(content),
        Err(why) => Err(why),
    }
}

/// The bytes of the file of this number.
fn read_file<S: Store>(alloc: Global, store: &mut S, file: u32) -> Result<Vec<u8>, Unread>
    ensures whole { IfOk result (λ content. Touches file (Is content.items) (S.shelf store.old) (S.shelf store.new)) }
    ensures read { IfOk result (λ content. Grew (S.told store.old) (S.told store.new) (HasReadOf file content.items)) }
    ensures unread { IfErr result (λ why. Grew (S.told store.old) (S.told store.new) (NotReadOf file why)) }
    ensures never { IfErr result (λ why. IsChanged why → Touches file IsNever (S.shelf store.old) (S.shelf store.new)) }
    ensures failed { result ≡ Err Unread.Failed → Rises 1 (S.faults store.old) (S.faults store.new) }
    ensures later { S.faults store.old ≤ S.faults store.new }
{
    match store.length(file) {
        Ok(length) => {
            if length > MAX_FILE {
                return Err(Unread::TooLong { length });
            }
            read_told_size(alloc, store, file, length)
        }
        Err(_) => Err(Unread::Failed),
    }
}

/// The bytes of the file at a path, of which there may be 1,073,741,824. Memory for all of them is had before the first is read.
pub fn read_whole<S: Store>(alloc: Global, path: &Text, store: &mut S) -> Result<Vec<u8>, Unread>
    // Where the store tells its files, these are the bytes of this one, and no file is changed.
    ensures whole { IfOk result (λ content. IsRead path.now content.items (S.shelf store.old) (S.shelf store.new)) }

    // Which calls were made, and what an answer comes from.
    ensures read { IfOk result (λ content. Grew (S.told store.old) (S.told store.new) (HasRead path.now content.items)) }
    ensures unread { IfErr result (λ why. Grew (S.told store.old) (S.told store.new) (NotRead path.now why)) }
    ensures changed { IfErr result (λ why. IsChanged why → (now : Shelf) → S.shelf store.new ≡ Some now → ⊥) }
    ensures failed { result ≡ Err Unread.Failed → Rises 1 (S.faults store.old) (S.faults store.new) }
    ensures later { S.faults store.old ≤ S.faults store.new }
{
    match store.open(path, false) {
        Ok(file) => read_file(alloc, store, file),
        Err(_) => Err(Unread::Failed),
    }
}
