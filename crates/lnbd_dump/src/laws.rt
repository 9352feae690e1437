//! Laws of what is told of an export. Each is the contract of a function that does nothing.

ghost use Rattle.lnbd_dump.specs.Told.{HoldsWhatWasTold};

/// An export that is honest and wasn't changed holds what was told of it.
pub fn holds_what_was_told()
    ensures { HoldsWhatWasTold }
{}
