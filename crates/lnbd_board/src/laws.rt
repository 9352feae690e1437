//! The laws, as contracts of functions that do nothing.

ghost use Rattle.lnbd_board.specs.Carried.{CarriedIsHeld, CopiedIsCarried};
ghost use Rattle.lnbd_board.specs.Holds.{EachIsAskedOnce};
ghost use Rattle.lnbd_board.specs.Turns.{CallsAreKept, ExtentsAreKept, FlushIsKept, NothingStands};

/// Where each slice is over, each byte that the source told was asked of the destination, and that was done.
pub fn copied_is_carried()
    ensures { CopiedIsCarried }
{}

/// So the destination holds the source, where both servers are honest.
pub fn carried_is_held()
    ensures { CarriedIsHeld }
{}

/// At every state no position of the source is read twice, none of the destination is changed twice, and
/// none past the source's end is asked for.
pub fn each_is_asked_once()
    ensures { EachIsAskedOnce }
{}

/// Whatever is answered in whatever order, a turn of the handles keeps the invariant, if no error is told.
pub fn turns_are_kept()
    ensures { CallsAreKept }
{}

/// The invariant stands before anything is begun, and keeps standing where extents are asked for and where
/// the destination is to be flushed.
pub fn others_are_kept()
    ensures nothing { NothingStands }
    ensures extents { ExtentsAreKept }
    ensures flush { FlushIsKept }
{}
