//! The laws of the definitions, for callers. Each is the contract of a function that does nothing.
ghost use Rattle.tt_index.specs.Laws.{IndexesAreSeen, KeysAreTold, PairsAreSeen, PlacesAreSeen, RangesAreSeen, UnusedStayEmpty};

/// Which pairs there are behind each call.
pub fn pairs_are_seen()
    ensures { PairsAreSeen }
{}

/// Which places each key has behind each call.
pub fn places_are_seen()
    ensures { PlacesAreSeen }
{}

/// Which indexes there are: none that is empty takes memory.
pub fn indexes_are_seen()
    ensures { IndexesAreSeen }
{}

/// Indexes that aren't in use, as those that no catalog has, are empty and stay so.
pub fn unused_stay_empty()
    ensures { UnusedStayEmpty }
{}

/// Which places a range gives: those of the pairs in its bounds.
pub fn ranges_are_seen()
    ensures { RangesAreSeen }
{}

/// Keys that are equal in the order are equal.
pub fn keys_are_told()
    ensures { KeysAreTold }
{}
