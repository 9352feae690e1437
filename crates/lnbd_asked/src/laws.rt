//! Laws of what is read of a link, and of honest servers. Each is the contract of a function that
//! does nothing.

ghost use Rattle.lnbd_asked.specs.Laws.{CallsFollow, OthersPass, ReadsJoin, SidesAreSteady, FlagsAreRead, WhatIsSaidIsRead, EarlyIsReadLate, SameIsAsHonest, CopiedIsHeld};
ghost use Rattle.lnbd_asked.specs.Parts.{WholeAreRequests, ReadAreCounted};
ghost use Rattle.lnbd_asked.specs.InStep.{StaysInStep, InStepSaysSo};
ghost use Rattle.lnbd_asked.specs.Driven.{DrivenSaySo};
ghost use Rattle.lnbd_asked.specs.Exports.{DrivenAreOf, DrivenTell, SizeWasTold, SizesAreOfExports, ToldStays, ExportsStay, NamesStay};

/// One call is read after another.
pub fn calls_follow()
    ensures { CallsFollow }
{}

/// Calls on other links, and calls that move no bytes, change nothing.
pub fn others_pass()
    ensures { OthersPass }
{}

/// Two reads that follow each other are as one.
pub fn reads_join()
    ensures { ReadsJoin }
{}

/// What either side says shows whatever follows.
pub fn both_sides_are_steady()
    ensures { SidesAreSteady }
{}

/// A client's flags are shown by their bytes, and not before.
pub fn flags_are_read()
    ensures { FlagsAreRead }
{}

/// What a client says after its flags is shown thing by thing, each by its bytes and not before.
pub fn what_is_said_is_read()
    ensures { WhatIsSaidIsRead }
{}

/// What comes before the option that it answers is read once that is asked.
pub fn early_is_read_late()
    ensures { EarlyIsReadLate }
{}

/// Once requests may be made, a handle and the link that it drives stay in step, whatever comes.
pub fn stays_in_step<K>()
    ensures { StaysInStep K }
{}

/// A link in step with a handle says what the handle's history says.
pub fn in_step_says_so<K>()
    ensures { InStepSaysSo K }
{}

/// A link says what the history says of the handle that drives it, from the first byte on, whatever
/// the server sends and however early.
pub fn driven_say_so<K>()
    ensures { DrivenSaySo K }
{}

/// A link is of the export of the name that was set on the handle that drives it, and tells the size that
/// the handle was told.
pub fn driven_are_of<K>()
    ensures { DrivenAreOf K }
{}

/// A link tells of its export what the handle was told that drives it: the size, the flags, the block
/// sizes, the name and the description.
pub fn driven_tell<K>()
    ensures { DrivenTell K }
{}

/// With an export its size was told, and with a size an export of this size.
pub fn sizes_are_of_exports<K>()
    ensures size { SizeWasTold K }
    ensures whole { SizesAreOfExports K }
{}

/// What was set and told stays: the export and its size once requests may be made, and the name until
/// another is set.
pub fn told_stays<K>()
    ensures size { ToldStays K }
    ensures whole { ExportsStay K }
    ensures name { NamesStay K }
{}

/// The commands that a handle has wholly written are the requests among the things wholly written.
pub fn whole_are_requests()
    ensures { WholeAreRequests }
{}

/// The requests that a link knows are those that were said on it.
pub fn read_are_counted()
    ensures { ReadAreCounted }
{}

/// Only what was asked and answered counts, not in which order.
pub fn same_is_as_honest()
    ensures { SameIsAsHonest }
{}

/// Over honest servers a byte that was read and written holds.
pub fn copied_is_held()
    ensures { CopiedIsHeld }
{}
