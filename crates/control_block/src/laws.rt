//! Laws of desks, each a clause of a function that has no work to do: what follows from the records of their calls.
ghost use Rattle.control_block.specs.HandleLists.{HoldsNone, HoldsEach, HoldsMore, HoldsLess, HoldsRest, HoldsInOrder};
ghost use Rattle.control_block.specs.HandleLists.{HoldsPart, HoldsApart, HoldsBoth};
ghost use Rattle.control_block.specs.Laws.{CallsAdd, SplitsAdd, JoinsAdd, JoinedRest, ComesNext, ComeInARow};
ghost use Rattle.control_block.specs.Laws.{GoesByNone, GoesByCall, GoesByJoin, GoesInTurn, GoesAdd, CallsKeepLatest};
ghost use Rattle.control_block.specs.Laws.{JoinsKeepLatest};

/// The events under a desk's name: what a call, a split and a join add to them (own).
pub fn own_events<V>()
    ensures calls { CallsAdd V }
    ensures splits { SplitsAdd V }
    ensures joins { JoinsAdd V }
    ensures joined { JoinedRest V }
{}

/// A desk's history goes on, by own events in a row (own).
pub fn own_rows<V>()
    ensures none { GoesByNone V }
    ensures call { GoesByCall V }
    ensures join { GoesByJoin V }
    ensures in_turn { GoesInTurn V }
    ensures own { GoesAdd V }
{}

/// A desk that has the whole allowance is alone: its history grows by just its own events (own).
pub fn sole_desks<V>()
    ensures next { ComesNext V }
    ensures row { ComeInARow V }
{}

/// The object last made in a block is the same while a desk has a handle there (own).
pub fn held_blocks<V>()
    ensures calls { CallsKeepLatest V }
    ensures joins { JoinsKeepLatest V }
{}

/// Handles in a list that a desk holds all of: as they come and go, and as desks part and join (own).
pub fn handle_lists<V>()
    ensures none { HoldsNone V }
    ensures each { HoldsEach V }
    ensures more { HoldsMore V }
    ensures less { HoldsLess V }
    ensures rest { HoldsRest V }
    ensures in_order { HoldsInOrder V }
    ensures part { HoldsPart V }
    ensures apart { HoldsApart V }
    ensures both { HoldsBoth V }
{}
