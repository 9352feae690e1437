//! What is asked of the side that is no export comes back to the board in the same step.

ghost use Rattle.std.specs.Prelude.{◌≡◌};
ghost use Rattle.lnbd_board.specs.Asks.{change_of};
ghost use Rattle.lnbd_onesided.specs.Desk.{Completes};

use lnbd_board::{Board, Change, Ticket};
use lnbd_callbacks::Caller;
use lnbd_model::Bytes;
use std::alloc::Global;

/// Files what came of the one request of a slice, by its ticket, as a handle does.
pub fn complete(board: &mut Board, slice: u64, buf: Bytes)
    ensures { Completes slice buf board.old board.new }
{
    let _verdict = Ticket::Slice(slice).complete(board, 0, buf);
}

/// The bytes that a change comes back with: its own.
pub fn comes_back(change: Change, alloc: Global) -> Bytes
    ensures { result ≡ (change_of change).payload }
{
    match change {
        Change::Write { offset: _, bytes } => bytes,
        Change::Zero { .. } => Bytes::from_vec(Vec::new(alloc)),
    }
}
