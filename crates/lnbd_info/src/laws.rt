//! That the definitions of a map and of its totals leave no choice, as contracts of functions that do nothing.

ghost use Rattle.lnbd_info.specs.Laws.{OneMap, OneTotals};

/// What was told makes one map.
pub fn map_is_one()
    ensures { OneMap }
{}

/// A map has one list of totals.
pub fn totals_are_one()
    ensures { OneTotals }
{}
