//! What the definitions come to. Each law is the contract of a function that does nothing.

ghost use Rattle.lnbd_export.specs.Statuses.{StatusesAreExact};

/// The status of positions tells each its own, and no other; neighbours differ.
pub fn statuses_are_exact()
    ensures { StatusesAreExact }
{}
