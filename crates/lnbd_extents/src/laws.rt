//! The laws, as contracts of functions that do nothing. The lemmas that prove them are public in
//! `proofs/`.

ghost use Rattle.lnbd_extents.specs.Laws.{AddedIsHeld, AllMeansEach, SomeMeansOne, AlikeAll, AlikeSome, SamePositionsSameRanges, JoiningKeepsFlags, JoiningKeepsLength, CuttingKeepsFlags, CuttingKeepsLength, SameFlagsSameExtents};

/// What is added is held, beside what was held.
pub fn added_is_held()
    ensures { AddedIsHeld }
{}

/// What is said of a span is said of its positions.
pub fn spans_are_their_positions()
    ensures all { AllMeansEach }
    ensures some { SomeMeansOne }
    ensures alike_all { AlikeAll }
    ensures alike_some { AlikeSome }
{}

/// Longest ranges that hold the same positions are the same list.
pub fn same_positions_same_ranges()
    ensures { SamePositionsSameRanges }
{}

/// Each position keeps its flags where an extent is added, and nothing is lost.
pub fn joining_keeps_positions()
    ensures flags { JoiningKeepsFlags }
    ensures length { JoiningKeepsLength }
{}

/// Each position below a cut keeps its flags, and nothing lies behind it.
pub fn cutting_keeps_positions()
    ensures flags { CuttingKeepsFlags }
    ensures length { CuttingKeepsLength }
{}

/// Joined extents that give each position the same flags are the same list.
pub fn same_flags_same_extents()
    ensures { SameFlagsSameExtents }
{}
