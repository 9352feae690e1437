//! The laws, as contracts of functions that do nothing.

ghost use Rattle.lnbd_plan.specs.Laws.{SlicesAreLongest, ZeroBlocksAreZero, WindowsArePlannedOnce, AllWindowsArePlannedOnce};

/// Slices are the longest runs of positions that are told the same and that no cut parts.
pub fn slices_are_longest()
    ensures { SlicesAreLongest }
{}

/// A position is in a zero block exactly where each byte of its block is zero.
pub fn zero_blocks_are_zero()
    ensures { ZeroBlocksAreZero }
{}

/// Each position of a window lies in exactly one of its slices, or is told zero where zeros are left out,
/// and then in none; no slice has a position outside. So it is with several windows, end to end.
pub fn positions_are_planned_once()
    ensures window { WindowsArePlannedOnce }
    ensures windows { AllWindowsArePlannedOnce }
{}
