//! What the board asks of a file to which a copy goes is done at once. When that is, and what the export is asked, is not known here.

ghost use Rattle.std.specs.Prelude.{◌≡◌, ◌+◌, ◌≤◌, ◌^◌, ℕ, Err, IfErr, IfOk, IfSome, OnOk, [], false, true, is_none};
ghost use Rattle.lnbd_link.specs.Count.{Rises};
ghost use Rattle.lnbd_copy.specs.Bound.{on_source};
ghost use Rattle.lnbd_touched.specs.Grown.{Grew};
ghost use Rattle.lnbd_copyfile.specs.Making.{HasBegun, HasEnded, HasStepped, MakesChanges};
ghost use Rattle.lnbd_copyfile.specs.OneFile.{BreaksWriting, Writes};

use crate::fault::Stop;
use crate::making::make_change;
use lnbd_board::{Ask, Board, Next};
use lnbd_model::Bytes;
use lnbd_onesided::{comes_back, complete};
use lnbd_plan::Slice;
use lnbd_store::Store;
use std::alloc::Global;

/// What the board came to with the slice that something came for first.
#[derive(Clone, Copy, Debug)]
enum Step {
    /// Nothing came that was not looked at.
    Nothing,
    /// A change was made in the file, and came back.
    Made,
    /// A slice is over that was bound to this connection of the source.
    Over(usize),
}

/// The slice that something came for first goes on: what it asks of the file is done.
fn go_on_once<S: Store>(
    alloc: Global,
    store: &mut S,
    file: u32,
    board: &mut Board,
) -> Result<Step, Stop>
    ensures makes { OnOk result (MakesChanges board.old.how file board.old board.new (S.shelf store.old) (S.shelf store.new) (S.taken store.old) (S.taken store.new)) }
    ensures writes { OnOk result (Grew (S.told store.old) (S.told store.new) (Writes file)) }
    ensures breaks { IfErr result (λ why. Grew (S.told store.old) (S.told store.new) (BreaksWriting file why)) }
    ensures how { OnOk result (board.new.how ≡ board.old.how) }
    ensures looked { IfOk result (λ step. HasStepped board.old.how step board.old board.new) }
    ensures unchanged { (n end : ℕ) → result ≡ Err (Stop.Changed n end) → ⊥ }
    ensures failed { result ≡ Err Stop.Failed → Rises 1 (S.faults store.old) (S.faults store.new) }
    ensures later { S.faults store.old ≤ S.faults store.new }
    ensures given { S.given store.new ≡ S.given store.old }
{
    let next = match board.next(alloc) {
        Ok(next) => next,
        Err(_) => return Err(Stop::NoMemory),
    };
    match next {
        Next::Nothing => Ok(Step::Nothing),
        Next::Over {
            slice: _,
            source,
            destination: _,
        } => Ok(Step::Over(source)),
        Next::Asks {
            slice,
            destination: _,
            change,
        } => match make_change(alloc, store, file, &change) {
            Ok(()) => {
                complete(board, slice, comes_back(change, alloc));
                Ok(Step::Made)
            }
            Err(why) => Err(why),
        },
    }
}

/// Slices go on until one is over, or nothing is left that came. The connection of the source that the one which is over was bound to. That it
/// came to no end would count as want of memory.
pub fn go_on<S: Store>(
    alloc: Global,
    store: &mut S,
    file: u32,
    board: &mut Board,
) -> Result<Option<usize>, Stop>
    ensures makes { OnOk result (MakesChanges board.old.how file board.old board.new (S.shelf store.old) (S.shelf store.new) (S.taken store.old) (S.taken store.new)) }
    ensures writes { OnOk result (Grew (S.told store.old) (S.told store.new) (Writes file)) }
    ensures breaks { IfErr result (λ why. Grew (S.told store.old) (S.told store.new) (BreaksWriting file why)) }
    ensures how { OnOk result (board.new.how ≡ board.old.how) }
    ensures over { IfOk result (λ over. IfSome over (λ source. HasEnded board.old.how source board.old board.new)) }
    ensures bound { IfOk result (λ over. is_none over ≡ true → on_source board.new.rows ≡ on_source board.old.rows) }
    ensures none { IfOk result (λ over. is_none over ≡ true → board.new.came ≡ []) }
    ensures unchanged { (n end : ℕ) → result ≡ Err (Stop.Changed n end) → ⊥ }
    ensures failed { result ≡ Err Stop.Failed → Rises 1 (S.faults store.old) (S.faults store.new) }
    ensures later { S.faults store.old ≤ S.faults store.new }
    ensures given { S.given store.new ≡ S.given store.old }
{
    'steps: for _ in 0..u64::MAX {
        match go_on_once(alloc, store, file, board) {
            Ok(Step::Made) => {}
            Ok(Step::Over(source)) => return Ok(Some(source)),
            Ok(Step::Nothing) => return Ok(None),
            Err(why) => return Err(why),
        }
    }
    Err(Stop::NoMemory)
}

/// What a slice began with.
#[derive(Debug, Drop)]
pub enum First {
    /// So many bytes from a place on are to be asked of the source, into this buffer.
    Reads { offset: u64, buf: Bytes },
    /// A change was made in the file, and came back.
    Made,
}

/// Begins a slice, bound to this connection of the source. What is asked first of the file is done.
pub fn begin_slice<S: Store>(
    alloc: Global,
    store: &mut S,
    file: u32,
    board: &mut Board,
    slice: Slice,
    source: usize,
) -> Result<First, Stop>
    requires room { slice.start + slice.length ≤ 2 ^ 63 }
    requires copied { slice.zero ≡ true → board.old.how.skip ≡ false }
    ensures begun { IfOk result (λ first. HasBegun first file slice source 0 board.old board.new (S.shelf store.old) (S.shelf store.new) (S.taken store.old) (S.taken store.new)) }
    ensures writes { OnOk result (Grew (S.told store.old) (S.told store.new) (Writes file)) }
    ensures breaks { IfErr result (λ why. Grew (S.told store.old) (S.told store.new) (BreaksWriting file why)) }
    ensures how { OnOk result (board.new.how ≡ board.old.how) }
    ensures unchanged { (n end : ℕ) → result ≡ Err (Stop.Changed n end) → ⊥ }
    ensures failed { result ≡ Err Stop.Failed → Rises 1 (S.faults store.old) (S.faults store.new) }
    ensures later { S.faults store.old ≤ S.faults store.new }
    ensures given { S.given store.new ≡ S.given store.old }
{
    let number = board.begun();
    let first = match board.begin(alloc, slice, source, 0) {
        Ok(first) => first,
        Err(_) => return Err(Stop::NoMemory),
    };
    match first {
        Ask::Read { offset, buf } => Ok(First::Reads { offset, buf }),
        Ask::Change(change) => match make_change(alloc, store, file, &change) {
            Ok(()) => {
                complete(board, number, comes_back(change, alloc));
                Ok(First::Made)
            }
            Err(why) => Err(why),
        },
    }
}
