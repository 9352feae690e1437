//! Laws of machines that stand for histories. Each is the contract of a function that does nothing.

ghost use Rattle.lnbd_standing.specs.Standing.{ClosingIsRight, CreatedStands, StandingCalls, StandingGoesOn, StandingIsRight};

/// An event that may come, by what the machine answers, may follow the history, and the machine
/// then stands for the history with it.
pub fn standing_goes_on<K>()
    ensures { StandingGoesOn K }
{}

/// What the machine answers the history says.
pub fn standing_is_right<K>()
    ensures { StandingIsRight K }
{}

/// What the machine answers after its close the history with the close says.
pub fn closing_is_right<K>()
    ensures { ClosingIsRight K }
{}

/// An event makes the calls on callbacks that the history then has more.
pub fn standing_calls<K>()
    ensures { StandingCalls K }
{}

/// A handle that was just created stands for the history without events.
pub fn created_stands<K>()
    ensures { CreatedStands K }
{}
