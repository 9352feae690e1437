//! A file that is written whole, from its beginning on. It is not cut. What its bytes are for is not known here.

ghost use Rattle.std.specs.Prelude.{◌≤◌, OnErr, OnOk, length};
ghost use Rattle.lnbd_link.specs.Count.{Rises};
ghost use Rattle.lnbd_child.specs.Grown.{Grew};
ghost use Rattle.lnbd_child.specs.Steps.{Puts};
ghost use Rattle.lnbd_child.specs.Touches.{Touches};
ghost use Rattle.lnbd_child.specs.Writing.{Breaks, HasWritten, IsWritten, NotWritten, Wrote};

use lnbd_model::Text;
use lnbd_store::{Store, StoreFailed, StoreTook};

/// Writes all of the bytes.
fn write_all<S: Store>(store: &mut S, file: u32, bytes: &[u8]) -> Result<(), StoreFailed>
    ensures puts { OnOk result (Touches file (Puts bytes.now) (S.shelf store.old) (S.shelf store.new)) }
    ensures wrote { OnOk result (Grew (S.told store.old) (S.told store.new) (Wrote file bytes.now (length bytes.now))) }
    ensures breaks { OnErr result (Grew (S.told store.old) (S.told store.new) (Breaks file bytes.now)) }
    ensures failed { OnErr result (Rises 1 (S.faults store.old) (S.faults store.new)) }
    ensures later { S.faults store.old ≤ S.faults store.new }
{
    let mut at: usize = 0;
    'parts: while at < bytes.len() {
        match store.write_at(file, at as u64, &bytes[at..]) {
            StoreTook::Bytes(n) => at += n,
            StoreTook::Failed => return Err(StoreFailed),
        }
    }
    Ok(())
}

/// Writes these bytes over the file at a path, from its beginning on. It is opened once and is not cut, so what it had behind them stays.
///
/// `StoreFailed`: a call failed, and a front of the bytes may have been written.
pub fn write_whole<S: Store>(path: &Text, bytes: &[u8], store: &mut S) -> Result<(), StoreFailed>
    // Where the store tells its files, this one has these bytes and behind them what it had there, and no other file is changed.
    ensures written { OnOk result (IsWritten path.now bytes.now (S.shelf store.old) (S.shelf store.new)) }

    // Which calls were made, and what an answer comes from.
    ensures wrote { OnOk result (Grew (S.told store.old) (S.told store.new) (HasWritten path.now bytes.now)) }
    ensures unwritten { OnErr result (Grew (S.told store.old) (S.told store.new) (NotWritten path.now bytes.now)) }
    ensures failed { OnErr result (Rises 1 (S.faults store.old) (S.faults store.new)) }
    ensures later { S.faults store.old ≤ S.faults store.new }
{
    match store.open(path, true) {
        Ok(file) => write_all(store, file, bytes),
        Err(why) => Err(why),
    }
}
