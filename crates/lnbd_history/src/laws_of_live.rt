//! Laws of which callbacks live. Each is the contract of a function that does nothing.

ghost use Rattle.lnbd_history.specs.Live.{NoneLivesAfterClose, LiveAreInFlight};

/// After a close no callback lives.
pub fn none_lives_after_close<K>()
    ensures { NoneLivesAfterClose K }
{}

/// The live callbacks are exactly those of the commands in flight.
pub fn live_are_in_flight<K>()
    ensures { LiveAreInFlight K }
{}
