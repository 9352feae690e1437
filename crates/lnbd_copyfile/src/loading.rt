//! A slice of a copy from a file is read as it begins, and comes back to the board at once; one that counts as zero asks the export for zeroes in
//! place of that. What is written of a slice that was read, and where, is not known here.

ghost use Rattle.std.specs.Prelude.{◌≡◌, ◌+◌, ◌<◌, ◌≤◌, ◌^◌, Err, IfErr, IfOk, OnOk, false, length, true};
ghost use Rattle.lnbd_link.specs.Count.{Rises};
ghost use Rattle.lnbd_touched.specs.Grown.{Grew, RoseBy};
ghost use Rattle.lnbd_touched.specs.Parts.{IsShort, Tells};
ghost use Rattle.lnbd_touched.specs.Touches.{Touches};
ghost use Rattle.lnbd_copyfile.specs.Causes.{IsChanged};
ghost use Rattle.lnbd_copy.specs.Links.{HaveSameLinks};
ghost use Rattle.lnbd_copyfile.specs.Loading.{BeginsSlice};
ghost use Rattle.lnbd_copyfile.specs.OneFile.{BreaksReading, Reads};

use crate::fault::Stop;
use crate::reading::read_all;
use lnbd_board::{Ask, Board, Ticket};
use lnbd_connections::ask_change;
use lnbd_model::Bytes;
use lnbd_onesided::complete;
use lnbd_plan::Slice;
use lnbd_poll::Handles;
use lnbd_store::Store;
use std::alloc::Global;

/// Whether a range lies before an end. A slice of the file does, so that one which doesn't would count as want of memory.
fn is_inside(offset: u64, count: u64, end: u64) -> bool
    ensures { result ≡ true → offset + count ≤ end }
{
    offset <= end && count <= end - offset
}

/// Reads as many bytes as the buffer has, of a file that told that it has so many.
fn read_into<S: Store>(
    store: &mut S,
    file: u32,
    size: u64,
    offset: u64,
    buf: Bytes,
) -> Result<Bytes, Stop>
    ensures same { IfOk result (λ bytes. length bytes ≡ length buf) }
    ensures tells { IfOk result (λ bytes. Touches file (Tells offset bytes) (S.shelf store.old) (S.shelf store.new)) }
    ensures reads { OnOk result (Grew (S.told store.old) (S.told store.new) (Reads file)) }
    ensures breaks { IfErr result (λ why. Grew (S.told store.old) (S.told store.new) (BreaksReading file size why)) }
    ensures short { IfErr result (λ why. IsChanged why → Touches file (IsShort size) (S.shelf store.old) (S.shelf store.new)) }
    ensures failed { result ≡ Err Stop.Failed → Rises 1 (S.faults store.old) (S.faults store.new) }
    ensures later { S.faults store.old ≤ S.faults store.new }
    ensures given { IfOk result (λ bytes. RoseBy (length bytes) (S.given store.old) (S.given store.new)) }
    ensures taken { S.taken store.new ≡ S.taken store.old }
{
    let mut bytes = buf.into_vec();
    if !is_inside(offset, bytes.len() as u64, size) {
        return Err(Stop::NoMemory);
    }
    match read_all(store, file, size, offset, &mut bytes) {
        Ok(()) => Ok(Bytes::from_vec(bytes)),
        Err(why) => Err(why),
    }
}

/// Begins a slice, bound to these connections of both sides. It is read of a file that told that it has so many bytes; or, where it counts as zero,
/// the export is asked for zeroes.
#[tactic(auto, using(lnbd_copy::proofs::LinkLemmas::same_none))]
pub fn load_slice<S: Store>(
    alloc: Global,
    handles: &mut Handles<Ticket>,
    store: &mut S,
    file: u32,
    size: u64,
    board: &mut Board,
    slice: Slice,
    source: usize,
    destination: usize,
) -> Result<(), Stop>
    requires room { slice.start + slice.length ≤ 2 ^ 63 }
    requires copied { slice.zero ≡ true → board.old.how.skip ≡ false }
    ensures links { HaveSameLinks handles.old handles.new }
    ensures begins { OnOk result (BeginsSlice file slice source destination board.old board.new handles.old handles.new (S.shelf store.old) (S.shelf store.new) (S.given store.old)
        (S.given store.new)) }
    ensures reads { OnOk result (Grew (S.told store.old) (S.told store.new) (Reads file)) }
    ensures breaks { IfErr result (λ why. Grew (S.told store.old) (S.told store.new) (BreaksReading file size why)) }
    ensures short { IfErr result (λ why. IsChanged why → Touches file (IsShort size) (S.shelf store.old) (S.shelf store.new)) }
    ensures failed { result ≡ Err Stop.Failed → Rises 1 (S.faults store.old) (S.faults store.new) }
    ensures later { S.faults store.old ≤ S.faults store.new }
    ensures taken { S.taken store.new ≡ S.taken store.old }
{
    let number = board.begun();
    let first = match board.begin(alloc, slice, source, destination) {
        Ok(first) => first,
        Err(_) => return Err(Stop::NoMemory),
    };
    match first {
        Ask::Read { offset, buf } => match read_into(store, file, size, offset, buf) {
            Ok(bytes) => {
                complete(board, number, bytes);
                Ok(())
            }
            Err(why) => Err(why),
        },
        Ask::Change(change) => match ask_change(handles, board, destination, number, change) {
            Ok(()) => Ok(()),
            Err(_) => Err(Stop::NoMemory),
        },
    }
}
