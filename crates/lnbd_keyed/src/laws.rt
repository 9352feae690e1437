//! The laws, as contracts of functions that do nothing. The lemmas that prove them are public in `proofs/`.

ghost use Rattle.lnbd_keyed.specs.Laws.{PutIsFound, ChangeIsFound, RemovedIsGone, LastIsFound, PutLeavesOthers, ChangeLeavesOthers, RemovalLeavesOthers, LastLeavesOthers, PutRises, ChangeRises, RemovalRises, LastRises, FirstIsHeld, FirstIsLeast, KeysAreThoseHeld, SameLookupsSameMap, PutAtItsRank, ChangeAtItsPlace, RemovalAtItsPlace, PutAtTheEnd};

/// After each change the key has what was written, and a key that was taken away is held no more.
pub fn changes_are_found<V>()
    ensures put { PutIsFound V }
    ensures changed { ChangeIsFound V }
    ensures removed { RemovedIsGone V }
    ensures last { LastIsFound V }
{}

/// No change is seen at another key.
pub fn changes_leave_others<V>()
    ensures put { PutLeavesOthers V }
    ensures changed { ChangeLeavesOthers V }
    ensures removed { RemovalLeavesOthers V }
    ensures last { LastLeavesOthers V }
{}

/// The keys rise after each change.
pub fn keys_still_rise<V>()
    ensures put { PutRises V }
    ensures changed { ChangeRises V }
    ensures removed { RemovalRises V }
    ensures last { LastRises V }
{}

/// The first key is held, and no key that is held is below it.
pub fn first_key_is_the_least<V>()
    ensures held { FirstIsHeld V }
    ensures least { FirstIsLeast V }
{}

/// The keys are those that are held.
pub fn keys_are_those_held<V>()
    ensures { KeysAreThoseHeld V }
{}

/// Maps that hold the same are the same list.
pub fn same_lookups_same_map<V>()
    ensures { SameLookupsSameMap V }
{}

/// Which writes of the list make the changes.
pub fn changes_are_writes<V>()
    ensures put { PutAtItsRank V }
    ensures changed { ChangeAtItsPlace V }
    ensures removed { RemovalAtItsPlace V }
    ensures last { PutAtTheEnd V }
{}
