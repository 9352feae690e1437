//! Laws of what may still come and go. Each is the contract of a function that does nothing.

ghost use Rattle.lnbd_bounds.specs.Budget.{EventsSpend};

/// Bytes that come or go, and the end of the connection, leave fewer bytes that may still come and
/// go.
pub fn events_spend<K>()
    ensures { EventsSpend K }
{}
