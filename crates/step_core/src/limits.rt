//! Which programs a world may run.
ghost use Rattle.std.specs.Prelude.{◌≡◌, ◌↔◌, ◌&&◌, ◌≤◌, ◌+◌, ◌∷◌, ◌++◌, Some, None, All};
ghost use Rattle.std.specs.Prelude.{IsTrue, map};
ghost use Rattle.step_threads.specs.Programs.{AllHaveCells, HasCells, IsApartFromCell, IsDeclared, IsIn, IsPart};
ghost use Rattle.step_threads.specs.Programs.{IsProgram};
ghost use Rattle.step_threads.specs.Programs.{IsWellNamed, as_in, call_count, asked_list, names_of, owner_asked};
ghost use Rattle.step_threads.specs.Programs.{part_of};
ghost use Rattle.step_threads.specs.Programs.{through, weak_asked};
ghost use Rattle.step_core.specs.Starts.{AllHaveFields, CanBegin, HasFields};
ghost use Rattle.step_table.specs.Openings.{world_blocks, world_cells};

use control_word::Shape;
use step_table::limits::MOST_ACTORS;
use step_threads::programs::call::{Actor, Call, CellName, Kind, Name};

/// Most blocks of a world; a domain may have more.
const MOST_BLOCKS: u32 = 65_535;
/// Most free cells of a world, shared and weak together.
const MOST_FREE_CELLS: u32 = 256;
/// Most names of an actor.
const MOST_NAMES: usize = 32;
/// Most calls of a program, over all its actors.
const MOST_CALLS: usize = 65_536;
/// Least share of the allowance for each actor: its names, the value in hand, and some to spare.
const LEAST_ALLOWANCE: u64 = 40;

/// A name that a call has, and the kind that the call asks for, if it asks for one.
type Asked = (Name, Option<Kind>);

/// Whether a name is there, and of the kind that is asked for.
fn is_declared(kinds: &[Kind], asked: Asked) -> bool
    ensures { IsTrue result ↔ IsDeclared kinds.now asked }
{
    let (name, kind) = asked;
    let found = kinds.get(usize::from(name.0));
    match kind {
        None => found.is_some(),
        Some(kind) => found == Some(&kind),
    }
}

/// The same, where there is such a name.
fn is_declared_if(kinds: &[Kind], asked: Option<Asked>) -> bool
    ensures { IsTrue result ↔ All (IsDeclared kinds.now) (asked_list asked) }
{
    match asked {
        None => true,
        Some(asked) => is_declared(kinds, asked),
    }
}

/// Three names at most.
type Names = (Option<Asked>, Option<Asked>, Option<Asked>);

fn owner(name: Name) -> Asked
    ensures { result ≡ owner_asked name }
{
    (name, Some(Kind::Owner))
}

fn weak(name: Name) -> Asked
    ensures { result ≡ weak_asked name }
{
    (name, Some(Kind::Weak))
}

/// A name of the kind of what a cell holds.
fn as_in(cell: CellName, name: Name) -> Asked
    ensures { result ≡ as_in cell name }
{
    (name, Some(cell.kind()))
}

/// The name whose object a cell is a member of.
fn through(cell: CellName) -> Option<Asked>
    ensures { asked_list result ≡ through cell }
{
    match cell {
        CellName::Member { name, .. } => Some(owner(name)),
        _ => None,
    }
}

/// Two names.
fn two(first: Asked, second: Asked) -> Names
    ensures { result ≡ (Some first, Some second, None) }
{
    (Some(first), Some(second), None)
}

/// The names of a call, each with the kind that the call asks for.
fn names_of(call: Call) -> Names
    ensures names { names_of call ≡ (asked_list result.0 ++ asked_list result.1) ++ asked_list result.2 }
    ensures fields { HasFields call }
{
    match call {
        Call::Make { target: name, .. }
        | Call::MakeThis { target: name, .. }
        | Call::Null { target: name }
        | Call::Empty { target: name }
        | Call::Reset { name }
        | Call::Count { name }
        | Call::Read { name }
        | Call::Place { name } => (Some(owner(name)), None, None),
        Call::WeakEmpty { target: name }
        | Call::WeakReset { name }
        | Call::WeakCount { name }
        | Call::Expired { name } => (Some(weak(name)), None, None),
        Call::Copy { target, source }
        | Call::Move { target, source }
        | Call::AliasNull { target, source }
        | Call::This { target, source } => two(owner(target), owner(source)),
        Call::Weak { target, source } | Call::WeakThis { target, source } => {
            two(weak(target), owner(source))
        }
        Call::WeakCopy { target, source } => two(weak(target), weak(source)),
        Call::Lock { target, source } | Call::Upgrade { target, source } => {
            two(owner(target), weak(source))
        }
        Call::Same { first, second } => two(owner(first), owner(second)),
        Call::Before { first, second } => two((first, None), (second, None)),
        Call::Alias {
            target,
            source,
            of,
            ..
        } => (Some(owner(target)), Some(owner(source)), Some(owner(of))),
        Call::Store { cell, source: name }
        | Call::Exchange { cell, name }
        | Call::Holds { cell, name }
        | Call::Load { target: name, cell } => (Some(as_in(cell, name)), through(cell), None),
        Call::Compare {
            cell,
            expected,
            desired,
            ..
        } => (
            Some(as_in(cell, expected)),
            Some(as_in(cell, desired)),
            through(cell),
        ),
        Call::Shelve { .. } | Call::Unshelve { .. } => (None, None, None),
    }
}

fn all_three(one: bool, two: bool, three: bool) -> bool
    ensures { result ≡ (one && two && three) }
{
    one && two && three
}

/// Whether each name of a call is there, and of the kind that the call asks for.
fn is_well_named(kinds: &[Kind], call: Call) -> bool
    ensures named { IsTrue result ↔ IsWellNamed kinds.now call }
    ensures fields { HasFields call }
{
    let (first, second, third) = names_of(call);
    let one = is_declared_if(kinds, first);
    let two = is_declared_if(kinds, second);
    let three = is_declared_if(kinds, third);
    all_three(one, two, three)
}

/// Whether a call exchanges no name with a member of its own object.
fn is_apart(call: Call) -> bool
    ensures { IsTrue result ↔ IsApartFromCell call }
{
    match call {
        Call::Exchange { cell, name } => !cell.is_member_of(name),
        _ => true,
    }
}

/// Whether an actor's names are few enough, and its calls well named and apart.
fn is_part(actor: &Actor) -> bool
    ensures part { IsTrue result ↔ IsPart (part_of actor.now) }
    ensures fields { IsTrue result → All HasFields actor.now.calls.items }
{
    if actor.kinds.len() > MOST_NAMES {
        return false;
    }
    for call in &actor.calls {
        if !is_well_named(actor.kinds.as_slice(), *call) {
            return false;
        }
        if !is_apart(*call) {
            return false;
        }
    }
    true
}

/// Whether this holds of each actor.
fn are_parts(actors: &[Actor]) -> bool
    ensures parts { IsTrue result ↔ All IsPart (map part_of actors.now) }
    ensures fields { IsTrue result → AllHaveFields (map part_of actors.now) }
{
    for actor in actors {
        if !is_part(actor) {
            return false;
        }
    }
    true
}

/// Whether all calls together are few enough.
fn has_few_calls(actors: &[Actor]) -> bool
    ensures { IsTrue result ↔ call_count (map part_of actors.now) ≤ 65536 }
{
    let mut calls = 0;
    for actor in actors {
        calls += actor.calls.len();
        if calls > MOST_CALLS {
            return false;
        }
    }
    true
}

/// Whether these are the actors of a program within the limits.
fn is_program(actors: &[Actor]) -> bool
    ensures program { IsTrue result ↔ IsProgram (map part_of actors.now) }
    ensures fields { IsTrue result → AllHaveFields (map part_of actors.now) }
{
    (1..=MOST_ACTORS as usize).contains(&actors.len()) && has_few_calls(actors) && are_parts(actors)
}

/// Whether a shape has a cell.
fn is_in(shape: &Shape, cell: CellName) -> bool
    ensures { IsTrue result ↔ IsIn shape.now cell }
{
    match cell {
        CellName::Shared(number) => u32::from(number) < shape.shared_cells,
        CellName::Weak(number) => u32::from(number) < shape.weak_cells,
        CellName::Member { member, .. } => member < 3,
    }
}

/// Whether it has each cell of a call.
fn has_cells(shape: &Shape, call: Call) -> bool
    ensures { IsTrue result ↔ HasCells shape.now call }
{
    match call {
        Call::Store { cell, .. }
        | Call::Exchange { cell, .. }
        | Call::Holds { cell, .. }
        | Call::Load { cell, .. }
        | Call::Compare { cell, .. } => is_in(shape, cell),
        _ => true,
    }
}

/// Whether it has each cell of an actor's calls.
fn has_all_cells(shape: &Shape, actor: &Actor) -> bool
    ensures { IsTrue result ↔ AllHaveCells shape.now (part_of actor.now) }
{
    for call in &actor.calls {
        if !has_cells(shape, *call) {
            return false;
        }
    }
    true
}

/// Whether it has each cell of all actors' calls.
fn have_cells(shape: &Shape, actors: &[Actor]) -> bool
    ensures { IsTrue result ↔ All (AllHaveCells shape.now) (map part_of actors.now) }
{
    for actor in actors {
        if !has_all_cells(shape, actor) {
            return false;
        }
    }
    true
}

/// Whether a world may have so many blocks and free cells.
fn is_small(shape: &Shape) -> bool
    ensures { IsTrue result ↔ (shape.now.blocks ≤ world_blocks)
        × (shape.now.shared_cells + shape.now.weak_cells ≤ world_cells) }
{
    let cells = u64::from(shape.shared_cells) + u64::from(shape.weak_cells);
    shape.blocks <= MOST_BLOCKS && cells <= u64::from(MOST_FREE_CELLS)
}

/// Whether a world of this shape may run these actors.
pub(crate) fn can_begin(shape: &Shape, actors: &[Actor]) -> bool
    ensures begin { IsTrue result ↔ CanBegin shape.now (map part_of actors.now) }
    ensures fields { IsTrue result → AllHaveFields (map part_of actors.now) }
{
    shape.is_within_limits()
        && is_small(shape)
        && shape.owners == 2
        && shape.weaks == 1
        && is_program(actors)
        && LEAST_ALLOWANCE * actors.len() as u64 <= u64::from(shape.allowance)
        && have_cells(shape, actors)
}
