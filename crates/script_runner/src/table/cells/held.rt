//! The calls of a desk on cells of either kind.
ghost use Rattle.std.specs.Prelude.{◌≡◌, ◌+◌, cond};
ghost use Rattle.control_block.specs.CellCalls.{HoldsHandle, IsOpenAt, cell_of_site, without_handle};
ghost use Rattle.control_block.specs.Desks.{Belongs, Keeps, bag_of};
ghost use Rattle.control_block.specs.HandleLists.{IsHeldByDesk, with_held, without_held};
ghost use Rattle.atomic_cells.specs.Cells.{Exchanges, Loads, TellsHeld};
ghost use Rattle.atomic_cells.specs.Compares.{Compares};
ghost use Rattle.script_runner.specs.SlotCalls.{IsBelow};
ghost use Rattle.script_runner.specs.Parts.{kind_of_held, block_of_held, place_of_held};

use crate::table::slots::contents::{held_of, into_content};
use control_block::cell_calls::{self, CellAt, Content, Offer};
use control_block::cell_compare_calls;
use control_block::desk::Desk;
use control_block::domain::Domain;
use shared_handle::Held;
use std::marker::Brand;
use std::sync::Wait;

/// Whether a compare may differ on an equivalent handle.
pub(crate) trait Form {
    ghost use Rattle.std.specs.Prelude.{Bool};

    ghost weak: { Bool };
}

/// It may not.
pub(crate) struct Strong;

impl Form for Strong {
    ghost use Rattle.std.specs.Prelude.{false};

    ghost weak = { false };
}

/// It may.
pub(crate) struct Spurious;

impl Form for Spurious {
    ghost use Rattle.std.specs.Prelude.{true};

    ghost weak = { true };
}

/// A copy of what the cell holds.
pub(crate) fn load_held<V: Drop, R: Wait>(
    rt: &R,
    domain: &Domain<V>,
    desk: &mut Desk<V>,
    cell: CellAt,
) -> Held
    requires domain { Belongs desk.old domain.now }
    requires cell { IsOpenAt desk.old cell.site cell.kind }
    requires below { IsBelow desk.old }
    ensures kind { kind_of_held result ≡ cell.kind }
    ensures event { Loads desk.old (cell_of_site desk.old cell.site) cell.kind (block_of_held result)
        (place_of_held result) desk.new }
    ensures bag { bag_of desk.new ≡ with_held result (bag_of desk.old) }
    ensures held { desk.new.held ≡ desk.old.held + 1 }
    ensures keeps { Keeps desk.old desk.new }
{
    match cell_calls::load::<V, Brand, R>(rt, domain, desk, cell) {
        Ok(found) => held_of(found),
        Err(_) => unreachable!(),
    }
}

/// Whether the cell holds what is equivalent to a handle of its kind.
pub(crate) fn holds_held<V: Drop>(
    domain: &Domain<V>,
    desk: &mut Desk<V>,
    cell: CellAt,
    expected: Content,
) -> bool
    requires domain { Belongs desk.old domain.now }
    requires cell { IsOpenAt desk.old cell.site cell.kind }
    requires holds { HoldsHandle desk.old cell.kind expected.word.block expected.word.place }
    requires kind { expected.kind ≡ cell.kind }
    ensures event { TellsHeld desk.old (cell_of_site desk.old cell.site) cell.kind expected.word.block
        expected.word.place result desk.new }
    ensures bag { bag_of desk.new ≡ bag_of desk.old }
    ensures held { desk.new.held ≡ desk.old.held }
    ensures keeps { Keeps desk.old desk.new }
{
    cell_calls::holds::<V, Brand>(domain, desk, cell.site, expected)
}

/// The handle goes into the cell, and what the cell held comes out.
pub(crate) fn exchange_held<V: Drop>(
    domain: &Domain<V>,
    desk: &mut Desk<V>,
    cell: CellAt,
    handle: Held,
) -> Held
    requires domain { Belongs desk.old domain.now }
    requires cell { IsOpenAt desk.old cell.site cell.kind }
    requires held { IsHeldByDesk desk.old handle × (kind_of_held handle ≡ cell.kind) }
    ensures kind { kind_of_held result ≡ cell.kind }
    ensures event { Exchanges desk.old (cell_of_site desk.old cell.site) cell.kind (block_of_held handle)
        (place_of_held handle)
        (block_of_held result) (place_of_held result) desk.new }
    ensures bag { bag_of desk.new ≡ with_held result (without_held handle (bag_of desk.old)) }
    ensures held { desk.new.held ≡ desk.old.held }
    ensures keeps { Keeps desk.old desk.new }
{
    let new = into_content(handle);
    let old = cell_calls::exchange::<V, Brand>(domain, desk, cell.site, new);
    held_of(old)
}

/// Where the cell holds what is expected, the new handle goes in, and what the cell held comes out: true. Else a copy
/// of what it holds: false. A weak compare may differ all the same.
pub(crate) fn compare_held<V: Drop, F: Form, R: Wait>(
    rt: &R,
    domain: &Domain<V>,
    desk: &mut Desk<V>,
    cell: CellAt,
    expected: Content,
    new: Content,
) -> (bool, Held)
    requires domain { Belongs desk.old domain.now }
    requires cell { IsOpenAt desk.old cell.site cell.kind }
    requires holds { HoldsHandle desk.old cell.kind expected.word.block expected.word.place
        × HoldsHandle desk.old cell.kind new.word.block new.word.place }
    requires kinds { (expected.kind ≡ cell.kind) × (new.kind ≡ cell.kind) }
    requires below { IsBelow desk.old }
    ensures kind { kind_of_held result.1 ≡ cell.kind }
    ensures event { Compares desk.old (cell_of_site desk.old cell.site) cell.kind expected.word.block
        expected.word.place new.word.block new.word.place result.0 (block_of_held result.1) (place_of_held result.1)
        F.weak desk.new }
    ensures bag { bag_of desk.new ≡ with_held result.1
        (cond result.0 (without_handle cell.kind new.word.block new.word.place (bag_of desk.old)) (bag_of desk.old)) }
    ensures held { desk.new.held ≡ desk.old.held + cond result.0 0 1 }
    ensures keeps { Keeps desk.old desk.new }
{
    let offer = Offer { expected, new };
    match cell_compare_calls::compare::<V, Brand, R>(rt, domain, desk, cell.site, offer) {
        Ok((swapped, found)) => (swapped, held_of(found)),
        Err(_) => unreachable!(),
    }
}
