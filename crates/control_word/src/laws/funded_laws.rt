//! The laws of running desks, by what a step is about. Each handle in hand has its funds on its
//! count, so that what goes into a cell or comes out of it moves none. The functions that carry the
//! laws have no work to do.
//!
//! `V` is the type of the objects' values. The kinds are the project's own; what an event asks and
//! makes of the state restates ISO/IEC 14882:2020 as the definitions of events say.
ghost use Rattle.control_word.specs.HandFunds.{StandsFunded};
ghost use Rattle.control_word.specs.FundedSteps.{ClaimsFunded, SharesFunded, WeakSharesFunded};
ghost use Rattle.control_word.specs.FundedSteps.{LeavesFunded, WeakLeavesFunded, LocksFunded};
ghost use Rattle.control_word.specs.FundedSteps.{TurnsFunded, TopsUp, RefillsFunded};
ghost use Rattle.control_word.specs.FundedSteps.{SwapsFunded, CompareSwapsFunded, ClearsFunded};
ghost use Rattle.control_word.specs.Steps.{WritesWeakWord, FindsWeakWord, WritesWord};
ghost use Rattle.control_word.specs.Steps.{Finishes, FindsFinished, TellsCount};
ghost use Rattle.control_word.specs.Steps.{TellsExpired, Reads, LooksOn, Shuts, Opens, Splits};
ghost use Rattle.control_word.specs.Steps.{CutsView, MergesViews, Joins, Begins, HasHeadroom};
ghost use Rattle.control_word.specs.Steps.{Shelves, ShelfShows, Unshelves};
ghost use Rattle.control_word.specs.CellSteps.{CellsShow, LoadsEmpty, DiffersEmpty, TellsSame};
ghost use Rattle.control_word.specs.CellSteps.{Takes};
ghost use Rattle.control_word.specs.SummarySteps.{WritesSummary};
ghost use Rattle.control_word.specs.Laws.{SoleHasSeenAll, CountsExactly, RestsExactly};

/// How a block is made: what is written into it, and the claim.
pub fn making<V>()
    // Write, the first: the weak word of an own vacant block becomes 1.
    ensures write_weak_word { WritesWeakWord V StandsFunded }
    // Look: the weak word of an own vacant block is 1 already.
    ensures find_weak_word { FindsWeakWord V StandsFunded }
    // Write: the flags or a field of an own vacant block; a look finds what the desk knows.
    ensures write_word { WritesWord V StandsFunded }
    // Claim: the owner word of a prepared block becomes an owner with its funds, which is the Make.
    ensures claim { ClaimsFunded V }
{}

/// One handle more or less on a count, with its funds.
pub fn counts<V>()
    // Share: an owner more.
    ensures share { SharesFunded V }
    // Leave: an owner less, the last just where the whole word was the owner with what it has.
    ensures leave { LeavesFunded V }
    // Weak share: a weak handle more.
    ensures weak_share { WeakSharesFunded V }
    // Weak leave: a weak handle less, and the block is vacant just where the whole word was it.
    ensures weak_leave { WeakLeavesFunded V }
    // Weak leave of an ending object's common count: its value comes out.
    ensures finish { Finishes V StandsFunded }
    // Look: where that word is 1 and the domain keeps blocks, the value comes out, and the word stays.
    ensures find_finished { FindsFinished V StandsFunded }
    // Lock: an owner just where the whole owner word isn't 0.
    ensures lock { LocksFunded V }
{}

/// Looks, which change no word.
pub fn looks<V>()
    // Look: `use_count`, exact where no load of the object is under way.
    ensures tell_count { TellsCount V StandsFunded }
    // Look: `expired`.
    ensures tell_expired { TellsExpired V StandsFunded }
    // Look: a field of the owned object.
    ensures read { Reads V StandsFunded }
    // Look without an event: the desk has then seen all.
    ensures look_on { LooksOn V StandsFunded }
    // Look: a load of a cell without an object.
    ensures load_empty { LoadsEmpty V StandsFunded }
    // Look: a compare that differs, of a cell without an object.
    ensures differ_empty { DiffersEmpty V StandsFunded }
    // Look: whether a cell holds what the desk has.
    ensures tell_same { TellsSame V StandsFunded }
{}

/// What goes into a cell and comes out of it, and the funds that a handle lacks then.
pub fn cells<V>()
    // A cell's word is the packing of what it holds and of the funds taken.
    ensures show_cells { CellsShow V StandsFunded }
    // Take a fund: a load, or a compare that differs, of a cell with an object.
    ensures take { Takes V StandsFunded }
    // Turn a fund into a handle, which brings the others that it is to have.
    ensures turn { TurnsFunded V }
    // Bring what a handle in hand lacks.
    ensures top_up { TopsUp V }
    // Refill a cell's funds with those of a handle in hand.
    ensures refill { RefillsFunded V }
    // Swap a cell.
    ensures swap { SwapsFunded V }
    // Compare and swap a cell.
    ensures compare_and_swap { CompareSwapsFunded V }
    // Swap a member of an ending object for nothing.
    ensures clear { ClearsFunded V }
{}

/// The door of a visit, and desks that are split and joined.
pub fn doors_and_desks<V>()
    // Shut a door, where it is found open.
    ensures shut_door { Shuts V StandsFunded }
    // Open a door: the visit.
    ensures open_door { Opens V StandsFunded }
    // The look of a split.
    ensures split { Splits V StandsFunded }
    // The cut of a view that follows a split's look.
    ensures cut_view { CutsView V StandsFunded }
    // Two views become one, before a join's look.
    ensures merge_views { MergesViews V StandsFunded }
    // The look of a join.
    ensures join { Joins V StandsFunded }
{}

/// Blocks that go from a store to the shelf, and from it to a store, and the shelf's summary.
pub fn shelf<V>()
    // A shelf word's bit tells whether the block is on the shelf.
    ensures show_shelf { ShelfShows V StandsFunded }
    // Shelve: the bit of a block of the own store is set.
    ensures shelve { Shelves V StandsFunded }
    // Unshelve: a bit is cleared, and the block is the desk's just where the bit was found set.
    ensures unshelve { Unshelves V StandsFunded }
    // Write: a summary word becomes any number.
    ensures write_summary { WritesSummary V StandsFunded }
{}

/// The words themselves, at the start and between any two steps.
pub fn words<V>()
    // All words are 0 at the start, and stand for the empty history.
    ensures begin { Begins V StandsFunded }
    // No count carries from half to half, and none wraps.
    ensures have_headroom { HasHeadroom V StandsFunded }
    // Whenever a block is at rest, its owner and weak counts are exactly the handles on it, in desks
    // and cells together, or it is vacant and its weak word kept a 1 (own).
    ensures rests_exactly { RestsExactly V StandsFunded }
    // Wherever no load of an object is under way, its owner word tells exactly how many owners it
    // has ([util.smartptr.shared.obs]).
    ensures counts_exactly { CountsExactly V StandsFunded }
    // A desk that has the whole allowance has seen all (own).
    ensures sole_has_seen_all { SoleHasSeenAll V StandsFunded }
{}
