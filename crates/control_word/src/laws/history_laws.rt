//! Laws of whole histories, by what they are about, and worked histories. The functions that carry
//! them have no work to do.
ghost use Rattle.control_word.specs.Laws.{GivesOnce, LiveWhileOwned, NamesAnObject, StoredOnce};
ghost use Rattle.control_word.specs.Laws.{ShelfHasAll, StoresOfDesks};
ghost use Rattle.control_word.specs.Laws.{AreFormed, AllowancesAddUp, NumbersFit, StaysExpired};
ghost use Rattle.control_word.specs.Laws.{OrdersByOwner, SoleHasSeenAll, RestsExactly};
ghost use Rattle.control_word.specs.Laws.{EndsInHands, EndsStill, StaysAsMade, StaysTheLatest};
ghost use Rattle.control_word.specs.Laws.{FewAtOnce, NothingUnseen, JoinedIsQuiet, UnnamedIsQuiet};
ghost use Rattle.control_word.specs.Laws.{CountsExactly, IsStrictWeakOrder, IsEquivalence};
ghost use Rattle.control_word.specs.Views.{Stands};
ghost use Rattle.control_word.specs.Worked.{CountAfterCopy, LockKeepsAlive};
ghost use Rattle.control_word.specs.Worked.{FailedCompareHandsOutHeld, BlockUsedAgain, CycleStays};
ghost use Rattle.control_word.specs.Worked.{MembersGoOut, SplitAndJoined};

/// Of every legal history: how long objects live.
pub fn objects<V>()
    // The value of an object that was made comes out at most once, and has come out exactly when
    // the object is no longer live ([util.smartptr.shared.dest]).
    ensures gives_once { GivesOnce V }
    // An object is live exactly while it has an owner ([util.smartptr.shared]).
    ensures live_while_owned { LiveWhileOwned V }
    // An object that a desk with a weak handle saw expired stays expired
    // ([util.smartptr.weak.obs]).
    ensures stays_expired { StaysExpired V }
    // An object that ends was made, is in the hands of a desk that acts, and is the latest in its
    // block (own).
    ensures ends_in_hands { EndsInHands V }
    // What ends in a desk's hands ends there still, until the desk itself goes on with it (own).
    ensures ends_still { EndsStill V }
    // An object that was made stays in its block, with the fields and the flags that it was made
    // with (own).
    ensures stays_as_made { StaysAsMade V }
    // Live objects and ending ones are no more than there are blocks (own).
    ensures few_at_once { FewAtOnce V }
{}

/// Of every legal history: what handles name, and where vacant blocks are.
pub fn handles<V>()
    // What a desk holds names an object that was made, is the latest in its block, and keeps the
    // block from being vacant (own).
    ensures names_an_object { NamesAnObject V }
    // Handles in bags and in cells are well formed, and those in cells of the cells' kinds (own).
    ensures are_formed { AreFormed V }
    // The object that was last made in a block is so still while a desk has a handle of it, or has
    // its ending in hand (own).
    ensures stays_the_latest { StaysTheLatest V }
    // A vacant block is in just one store or on the shelf, and no other block is in any (own).
    ensures stored_once { StoredOnce V }
    // A block in a store is a desk's that acts (own).
    ensures stores_of_desks { StoresOfDesks V }
    // Where a desk has the whole allowance and its store is empty, the shelf has just the vacant
    // blocks (own).
    ensures shelf_has_all { ShelfHasAll V }
{}

/// Of every legal history: how many handles there are.
pub fn counts<V>()
    // No object has more than 4,784,375 owners, nor weak handles with the common one above
    // 4,784,376 (own).
    ensures numbers_fit { NumbersFit V }
    // Between any two steps: whenever a block is at rest, its owner and weak counts are exactly the
    // handles on it, in desks and cells together, or it is vacant and its weak word kept a 1 (own).
    ensures rests_exactly { RestsExactly V Stands }
    // Between any two steps: wherever no load of an object is under way, its owner word tells
    // exactly how many owners it has ([util.smartptr.shared.obs]).
    ensures counts_exactly { CountsExactly V Stands }
{}

/// Of every legal history: what desks may hold, and what they know.
pub fn desks<V>()
    // The allowances of desks are the whole together, each desk that isn't joined has one, and no
    // desk holds more handles than that (own).
    ensures allowances_add_up { AllowancesAddUp V }
    // Between any two steps: a desk that has the whole allowance has seen all (own).
    ensures sole_has_seen_all { SoleHasSeenAll V Stands }
    // Of two histories of which one is a beginning of the other: what comes after all that a desk
    // with the whole allowance has seen is its own (own).
    ensures nothing_unseen { NothingUnseen V }
    // A desk that was joined makes no later event, and none names it (own).
    ensures joined_is_quiet { JoinedIsQuiet V }
    // A name that isn't given yet has made no event, and none names it (own).
    ensures unnamed_is_quiet { UnnamedIsQuiet V }
{}

/// Owner order, and what compares go by.
pub fn orders<V>()
    // Of every legal history: two handles are equivalent in owner order exactly where they share
    // ownership or are both empty ([util.smartptr.shared.obs], [util.smartptr.weak.obs]).
    ensures orders_by_owner { OrdersByOwner V }
    // Owner order is a strict weak order ([util.smartptr.shared.obs]).
    ensures strict_weak_order { IsStrictWeakOrder }
    // What a compare-exchange compares by is an equivalence relation
    // ([util.smartptr.atomic.shared]).
    ensures equivalence { IsEquivalence }
{}

/// Seven short histories, worked out: counts, replies, phases and vacancy are those of the rules.
pub fn worked_cases()
    ensures count_after_copy { CountAfterCopy }
    ensures lock_keeps_alive { LockKeepsAlive }
    ensures failed_compare_hands_out_held { FailedCompareHandsOutHeld }
    ensures block_used_again { BlockUsedAgain }
    ensures cycle_stays { CycleStays }
    ensures members_go_out { MembersGoOut }
    ensures split_and_joined { SplitAndJoined }
{}
