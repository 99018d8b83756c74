//! Laws of the lines of workers, each a clause of a function that has no work to do: what follows from the records of
//! their desks' calls.
ghost use Rattle.script_runner.specs.Calls.{Made, Copied, CopiedWeakly, Downgraded, Aliased, Locked, Counted};
ghost use Rattle.script_runner.specs.Calls.{Expired, Read, GivenThis, GivenWeakThis, Gone, GoneWeakly};
ghost use Rattle.script_runner.specs.Teams.{TeamsInterleave, TeamsPlay};
ghost use Rattle.script_runner.specs.TableCalls.{CopiesIn, DowngradesIn, AliasesIn, LocksIn, UpgradesIn};
ghost use Rattle.script_runner.specs.TableCalls.{UpgradesNot, MakesIn, MakesNullIn, MakesNot, PutsIn, PutsIdle};
ghost use Rattle.script_runner.specs.TableCalls.{EmptiesIn, ResetsIn, MovesIn, CountsIn, ExpiresIn, ReadsIn};
ghost use Rattle.script_runner.specs.TableCalls.{ReadsNot, ThisIn, WeakThisIn, ThisNot, PlacesIn, AlikeIn};
ghost use Rattle.script_runner.specs.TableCalls.{MarksOrder};
ghost use Rattle.script_runner.specs.CellCalls.{CellsNot, ComparesIn, DiffersIn, ExchangesIn};
ghost use Rattle.script_runner.specs.CellCalls.{HoldsIn, LoadsIn, OffersIn};
ghost use Rattle.script_runner.specs.EndCalls.{RemainsIn, RoundsIn};
ghost use Rattle.script_runner.specs.Goings.{ActsOn, PassesOver};
ghost use Rattle.script_runner.specs.Laws.{BeginsThread, GoesOnByMark, GoesOnByCall, IsJoined, StaysJoined};

/// A worker's lines and its desk's history, from the split to the end of the run: with the marks of acts that are no
/// events put in, the history has what the worker's thread does, act by act, and the lines are what these say (own).
pub fn worker_logs<V>()
    ensures begins { BeginsThread V }
    ensures mark { GoesOnByMark V }
    ensures call { GoesOnByCall V }
    ensures joined { IsJoined V }
    ensures stays { StaysJoined V }
{}

/// Which calls of a desk are which acts of a thread that has these pointers in its slots (own).
pub fn desk_calls<V>()
    ensures made { Made V }
    ensures copied { Copied V }
    ensures copied_weakly { CopiedWeakly V }
    ensures downgraded { Downgraded V }
    ensures aliased { Aliased V }
    ensures locked { Locked V }
    ensures counted { Counted V }
    ensures expired { Expired V }
    ensures read { Read V }
    ensures given { GivenThis V }
    ensures given_weakly { GivenWeakThis V }
    ensures gone { Gone V }
    ensures gone_weakly { GoneWeakly V }
{}

/// Which calls of a worker's table are which acts of a thread that has the table's first slots: a call makes the act's
/// event, or none where the act is a mark, and the thread has then what the table has (own).
pub fn table_calls<V>()
    ensures copies { CopiesIn V }
    ensures downgrades { DowngradesIn V }
    ensures aliases { AliasesIn V }
    ensures locks { LocksIn V }
    ensures upgrades { UpgradesIn V }
    ensures upgrades_not { UpgradesNot V }
    ensures makes { MakesIn V }
    ensures makes_null { MakesNullIn V }
    ensures makes_not { MakesNot V }
    ensures puts { PutsIn V }
    ensures puts_idle { PutsIdle V }
    ensures empties { EmptiesIn V }
    ensures resets { ResetsIn V }
    ensures moves { MovesIn V }
    ensures counts { CountsIn V }
    ensures expires { ExpiresIn V }
    ensures reads { ReadsIn V }
    ensures reads_not { ReadsNot V }
    ensures this { ThisIn V }
    ensures weak_this { WeakThisIn V }
    ensures this_not { ThisNot V }
    ensures places { PlacesIn V }
    ensures alike { AlikeIn V }
    ensures in_order { MarksOrder V }
    ensures loads { LoadsIn V }
    ensures exchanges { ExchangesIn V }
    ensures offers { OffersIn V }
    ensures compares { ComparesIn V }
    ensures differs { DiffersIn V }
    ensures holds { HoldsIn V }
    ensures cells_not { CellsNot V }
    ensures rounds { RoundsIn V }
    ensures remains { RemainsIn V }
    ensures acts_on { ActsOn V }
    ensures passes_over { PassesOver V }
{}

/// Where a table for each thread played it from its first act to its end, and these tables are joined and the last desk
/// has all that they had, the history that it has seen has what each thread does, under a name of its own, with its
/// lines; and where the first table was the domain's first, it has nothing else but splits and joins (own).
pub fn team_laws<V>()
    ensures plays { TeamsPlay V }
    ensures interleaves { TeamsInterleave V }
{}
