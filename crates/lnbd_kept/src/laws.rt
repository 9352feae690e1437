//! Laws of kept results. Each is the contract of a function that does nothing.

ghost use Rattle.lnbd_kept.specs.Kept.{AllKeptAreOutcomes, DoneIsOutcome, EntriesAreFiled};

/// What a history files is filed under the request of its cookie, which was in flight; a verdict is
/// there only where the command completes.
pub fn entries_are_filed<K>()
    ensures { EntriesAreFiled K }
{}

/// What is told of a command as done is what it came to, where callbacks keep what they are handed.
pub fn kept_are_outcomes<K>()
    ensures { AllKeptAreOutcomes K }
{}

/// So it is with the commands of every history.
pub fn done_is_outcome<K>()
    ensures { DoneIsOutcome K }
{}
