//! Cells: where a pointer lies that any thread loads, stores and exchanges.
ghost use Rattle.std.specs.Prelude.{◌≡◌, IfErr, IfOk};
ghost use Rattle.control_block.specs.CellCalls.{IsOpenAt};
ghost use Rattle.control_block.specs.Desks.{Belongs};
ghost use Rattle.control_word.specs.declared.place.Block.{Block as BlockOf};
ghost use Rattle.step_threads.specs.Programs.{kind_at};
ghost use Rattle.script_runner.specs.Cells.{IsAway, IsCellAtSite, IsInReach, PointsInto, WhyNoCell};
ghost use Rattle.script_runner.specs.Tables.{FitsSlots};

use crate::table::slots::owner_at;
use control_block::cell_calls::CellAt;
use control_block::desk::Desk;
use control_block::domain::Domain;
use control_word::{Block, Refusal, Site};
use shared_handle::{Held, Shared};
use step_core::CellName;

mod calls;
mod compares;
mod held;

/// The block of the object that the owner owns and points into.
fn block_within(owner: &Shared) -> Result<Block, Refusal>
    ensures inside { IfOk result (PointsInto owner.now) }
    ensures refused { IfErr result (IsAway owner.now.block owner.now.place) }
{
    let Some(place) = owner.place() else {
        return Err(Refusal::Null);
    };
    if owner.block() != Some(place.block) {
        return Err(Refusal::Outside);
    }
    Ok(place.block)
}

/// Where the cell is.
fn site_of<V: Drop>(
    domain: &Domain<V>,
    slots: &Vec<Option<Held>>,
    cell: CellName,
) -> Result<Site, Refusal>
    requires reach { IsInReach domain.now.shape slots.now.items cell }
    ensures found { IfOk result (IsCellAtSite domain.now.shape slots.now.items cell) }
    ensures refused { IfErr result (WhyNoCell slots.now.items cell) }
{
    match cell {
        CellName::Shared(number) => Ok(Site::Free {
            number: u32::from(number),
        }),
        CellName::Weak(number) => Ok(Site::Free {
            number: domain.shared_cells() + u32::from(number),
        }),
        CellName::Member { name, member } => {
            match block_within(owner_at(slots, usize::from(name.0))) {
                Ok(block) => Ok(Site::Member { block, member }),
                Err(why) => Err(why),
            }
        }
    }
}

/// The cell, which is open to the desk; or why the owner of its object gives no member.
fn find<V: Drop>(
    domain: &Domain<V>,
    desk: &Desk<V>,
    slots: &Vec<Option<Held>>,
    cell: CellName,
) -> Result<CellAt, Refusal>
    requires domain { Belongs desk.now domain.now }
    requires fits { FitsSlots desk.now slots.now.items }
    requires reach { IsInReach desk.now.shape slots.now.items cell }
    ensures found { IfOk result
        (λ at. IsCellAtSite desk.now.shape slots.now.items cell at.site × (at.kind ≡ kind_at cell)) }
    ensures open { IfOk result (λ at. IsOpenAt desk.now at.site at.kind) }
    ensures refused { IfErr result (WhyNoCell slots.now.items cell) }
{
    domain.assert_invariant();
    match site_of(domain, slots, cell) {
        Ok(site) => Ok(CellAt {
            site,
            kind: cell.kind(),
        }),
        Err(why) => Err(why),
    }
}
