//! The laws of live transactions: what several calls leave, for those who make them.
ghost use Rattle.tt_txn.specs.Laws.{CallsKeepWhole, FirstsStay, HoldersAreOthers, OwnCallsAreSeen};

/// Whatever is called where it may be, the live transactions stay whole.
pub fn calls_keep_whole()
    ensures { CallsKeepWhole }
{}

/// Who changed a place first stays, but where a change of it is noted or undone or a transaction ends.
pub fn firsts_stay()
    ensures { FirstsStay }
{}

/// What a transaction's own calls make of its changes, and that it stays live.
pub fn own_calls_are_seen()
    ensures { OwnCallsAreSeen }
{}

/// What a name's holder says of those other than the one that asks.
pub fn holders_are_others()
    ensures { HoldersAreOthers }
{}
