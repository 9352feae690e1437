//! Laws of what replies show. Each is the contract of a function that does nothing.

ghost use Rattle.lnbd_chunks.specs.Laws.{RepliesStay, NothingIsShownYet, FrontIsEnough};
ghost use Rattle.lnbd_chunks.specs.Whole.{RepliesAreWhole};

/// What some bytes show is shown of more bytes, and no bytes show nothing.
pub fn replies_are_steady<R>()
    ensures stay { RepliesStay R }
    ensures none { NothingIsShownYet R }
{}

/// The first bytes behind the head of a chunk are enough to judge it.
pub fn front_is_enough()
    ensures { FrontIsEnough }
{}

/// What a reply tells is a whole record of the protocol at the front of the bytes.
pub fn replies_are_whole<R>()
    ensures { RepliesAreWhole R }
{}
