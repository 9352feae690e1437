//! The callback of each request of a copy: it hands what came to the board, which is its world.

ghost use Rattle.std.specs.Prelude.{◌≡◌};

use crate::board::Board;
use lnbd_callbacks::{Caller, Heard, Verdict};
use lnbd_model::{Bytes, Extent};

/// Which request of a copy came. It is the one type of callbacks of all its handles.
#[derive(Clone, Copy, Debug, PartialEq, Eq)]
pub enum Ticket {
    /// The one request under way of the slice of this number.
    Slice(u64),
    /// The request for the source's extents.
    Extents,
    /// The flush of the destination.
    Flush,
}

/// All callbacks answer that all is well, and each command is retired as soon as it is completed.
impl Caller for Ticket {
    type World = Board;

    ghost use Rattle.lnbd_board.specs.Files.{Files};
    ghost use Rattle.lnbd_callbacks.specs.Steps.{OneByOne, OneByOne-empty, OneByOne-append};

    ghost steps = { OneByOne Files };

    fn chunk(
        &self,
        _world: &mut Board,
        _bytes: &[u8],
        _offset: u64,
        _status: u32,
        _error: u32,
    ) -> Heard {
        Heard::Going
    }

    fn extents(
        &self,
        world: &mut Board,
        context: &[u8],
        _offset: u64,
        entries: &[Extent],
        _error: u32,
    ) -> Heard {
        if is_map(*self, context) {
            world.hear(entries);
        }
        Heard::Going
    }

    fn complete(&self, world: &mut Board, error: u32, buf: Bytes) -> Verdict {
        world.file(*self, error, buf);
        Verdict::Retire
    }

    fn free(self, _world: &mut Board) {}

    ghost empty = { OneByOne-empty Files };

    ghost append = { OneByOne-append Files };
}

ghost use Rattle.lnbd_board.specs.Files.{is_map};

/// Whether these are the extents that were asked for.
fn is_map(ticket: Ticket, context: &[u8]) -> bool
    ensures { result ≡ is_map ticket context.now }
{
    match ticket {
        Ticket::Extents => context == b"base:allocation".as_slice(),
        Ticket::Slice(_) | Ticket::Flush => false,
    }
}
