//! Laws of what commands come to. Each is the contract of a function that does nothing.

ghost use Rattle.lnbd_outcome.specs.Laws.{FailuresHaveNumbers, ContentIsHeld, FactsStand};

/// The number of a failure isn't 0.
pub fn failures_have_numbers()
    ensures { FailuresHaveNumbers }
{}

/// The content of a read without error stands in its places, in whatever order it came.
pub fn content_is_held()
    ensures { ContentIsHeld }
{}

/// What is kept of a command says what all that came for it says.
pub fn facts_stand()
    ensures { FactsStand }
{}
