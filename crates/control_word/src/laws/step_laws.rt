//! The law of each kind of step, by what the step is about. The functions that carry the laws have
//! no work to do.
//!
//! `V` is the type of the objects' values. The kinds are the project's own; what an event asks and
//! makes of the state restates ISO/IEC 14882:2020 as the definitions of events say.
ghost use Rattle.control_word.specs.Steps.{WritesWeakWord, WritesWord, Claims, Shares, Leaves};
ghost use Rattle.control_word.specs.Steps.{WeakShares, WeakLeaves, Finishes, Locks, TellsCount};
ghost use Rattle.control_word.specs.Steps.{FindsFinished, FindsWeakWord};
ghost use Rattle.control_word.specs.Steps.{TellsExpired, Reads, LooksOn};
ghost use Rattle.control_word.specs.CellSteps.{LoadsEmpty, DiffersEmpty, TellsSame};
ghost use Rattle.control_word.specs.CellSteps.{Brings, GivesBack, LeavesWithFunds};
ghost use Rattle.control_word.specs.CellSteps.{WeakLeavesWithFunds, Takes, Turns, Refills, Swaps};
ghost use Rattle.control_word.specs.Steps.{Shuts, Opens, Splits, CutsView};
ghost use Rattle.control_word.specs.CellSteps.{CompareSwaps, Clears};
ghost use Rattle.control_word.specs.Steps.{MergesViews, Joins, Begins, HasHeadroom};
ghost use Rattle.control_word.specs.Steps.{Shelves, ShelfShows, Unshelves};
ghost use Rattle.control_word.specs.CellSteps.{CellsShow};
ghost use Rattle.control_word.specs.SummarySteps.{WritesSummary};
ghost use Rattle.control_word.specs.Views.{Stands};

/// How a block is made: what is written into it, and the claim.
pub fn making<V>()
    // Write, the first: the weak word of an own vacant block becomes 1.
    ensures write_weak_word { WritesWeakWord V Stands }
    // Look: the weak word of an own vacant block is 1 already.
    ensures find_weak_word { FindsWeakWord V Stands }
    // Write: the flags or a field of an own vacant block; a look finds what the desk knows.
    ensures write_word { WritesWord V Stands }
    // Claim: the owner word of a prepared block becomes 1, which is the Make.
    ensures claim { Claims V }
{}

/// One handle more or less on a count.
pub fn counts<V>()
    // Share: an owner more.
    ensures share { Shares V }
    // Leave: an owner less, the last just where the whole word was 1.
    ensures leave { Leaves V }
    // Weak share: a weak handle more.
    ensures weak_share { WeakShares V }
    // Weak leave: a weak handle less, and the block is vacant just where the whole word was 1.
    ensures weak_leave { WeakLeaves V }
    // Weak leave of an ending object's common count: its value comes out.
    ensures finish { Finishes V Stands }
    // Look: where that word is 1 and the domain keeps blocks, the value comes out, and the word stays.
    ensures find_finished { FindsFinished V Stands }
    // Lock: an owner just where the whole owner word isn't 0.
    ensures lock { Locks V }
{}

/// Looks, which change no word.
pub fn looks<V>()
    // Look: `use_count`, exact where no load of the object is under way.
    ensures tell_count { TellsCount V Stands }
    // Look: `expired`.
    ensures tell_expired { TellsExpired V Stands }
    // Look: a field of the owned object.
    ensures read { Reads V Stands }
    // Look without an event: the desk has then seen all.
    ensures look_on { LooksOn V Stands }
    // Look: a load of a cell without an object.
    ensures load_empty { LoadsEmpty V Stands }
    // Look: a compare that differs, of a cell without an object.
    ensures differ_empty { DiffersEmpty V Stands }
    // Look: whether a cell holds what the desk has.
    ensures tell_same { TellsSame V Stands }
{}

/// Funds: on a count, out of a cell and into it.
pub fn funds<V>()
    // Bring funds, under a handle in hand.
    ensures bring { Brings V }
    // Give funds back.
    ensures give_back { GivesBack V }
    // Leave with funds: an owner that came out of a cell leaves, and its funds are given back, by one step.
    ensures leave_with_funds { LeavesWithFunds V }
    // Weak leave with funds: a weak handle that came out of a cell, likewise.
    ensures weak_leave_with_funds { WeakLeavesWithFunds V }
    // Take a fund: a load, or a compare that differs, of a cell with an object.
    ensures take { Takes V Stands }
    // Turn a fund into a handle.
    ensures turn { Turns V }
    // Refill a cell's funds.
    ensures refill { Refills V }
{}

/// What goes into a cell and comes out of it.
pub fn cells<V>()
    // A cell's word is the packing of what it holds and of the funds taken.
    ensures show_cells { CellsShow V Stands }
    // Swap a cell.
    ensures swap { Swaps V }
    // Compare and swap a cell.
    ensures compare_and_swap { CompareSwaps V }
    // Swap a member of an ending object for nothing.
    ensures clear { Clears V }
{}

/// The door of a visit.
pub fn doors<V>()
    // Shut a door, where it is found open.
    ensures shut_door { Shuts V Stands }
    // Open a door: the visit.
    ensures open_door { Opens V Stands }
{}

/// Desks that are split and joined.
pub fn desks<V>()
    // The look of a split.
    ensures split { Splits V Stands }
    // The cut of a view that follows a split's look.
    ensures cut_view { CutsView V Stands }
    // Two views become one, before a join's look.
    ensures merge_views { MergesViews V Stands }
    // The look of a join.
    ensures join { Joins V Stands }
{}

/// Blocks that go from a store to the shelf, and from it to a store.
pub fn shelf<V>()
    // A shelf word's bit tells whether the block is on the shelf.
    ensures show_shelf { ShelfShows V Stands }
    // Shelve: the bit of a block of the own store is set.
    ensures shelve { Shelves V Stands }
    // Unshelve: a bit is cleared, and the block is the desk's just where the bit was found set.
    ensures unshelve { Unshelves V Stands }
{}

/// The shelf's summary, which tells desks where to look first.
pub fn summary<V>()
    // Write: a summary word becomes any number.
    ensures write_summary { WritesSummary V Stands }
{}

/// The words themselves, at the start and between any two steps.
pub fn words<V>()
    // All words are 0 at the start, and stand for the empty history.
    ensures begin { Begins V Stands }
    // No count carries from half to half, and none wraps.
    ensures have_headroom { HasHeadroom V Stands }
{}
