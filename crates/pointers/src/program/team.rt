//! How many workers there are, and what each gets.
ghost use Rattle.std.specs.Prelude.{◌≡◌, ◌+◌, ◌<◌, ◌≤◌, ◌^◌, IfNone, IfSome};
ghost use Rattle.control_word.specs.Limits.{most_allowance, most_free_cells};
ghost use Rattle.pointers.specs.Teams.{Fits, IsMisfit, handles_of, most_of};

use crate::program::not_run::{Limit, NotRun, Number};
use control_word::Shape;
use control_word::shape::{
    MOST_ALLOWANCE, MOST_BLOCKS, MOST_FREE_CELLS, MOST_MEMBERS, MOST_NUMBER,
};

/// Handles that a desk may have above its team's pointers: an empty one on its way into a place, and what a compare
/// copies before that which lay there leaves. Pointers that a program has beyond its team's take this room.
pub const SPARE: u32 = 2;

/// How many workers there are, and how many pointers each needs at one time. A desk has room for two more, which calls
/// with empty pointers and compares use: `Crowded` comes where these are taken too.
#[derive(Clone, Copy, PartialEq, Eq, Debug, Drop)]
pub struct Team {
    pub workers: usize,
    pub pointers: u32,
}

impl Team {
    /// The shape of a domain with room for the team: with so many blocks for objects, and so many free cells.
    /// An object has two members for owners and a weak one.
    pub fn shape(&self, blocks: u32, shared_cells: u32, weak_cells: u32) -> Shape
        ensures blocks { result.blocks ≡ blocks }
        ensures members { (result.owners ≡ 2) × (result.weaks ≡ 1) }
        ensures cells { (result.shared_cells ≡ shared_cells) × (result.weak_cells ≡ weak_cells) }
        ensures room { handles_of self.now < 2 ^ 32 → result.allowance ≡ handles_of self.now }
    {
        Shape {
            blocks,
            owners: 2,
            weaks: 1,
            shared_cells,
            weak_cells,
            allowance: u32::try_from(self.handles()).unwrap_or(u32::MAX),
        }
    }

    /// How many handles the domain must allow: for each worker its pointers and two more, and one for the first desk.
    pub(crate) fn handles(&self) -> u64
        ensures is { handles_of self.now < 2 ^ 64 → result ≡ handles_of self.now }
        ensures most { result ≤ handles_of self.now }
        ensures few { result < 18446744073709551615 → result ≡ handles_of self.now }
    {
        let each = u64::from(self.pointers).saturating_add(u64::from(SPARE));
        let workers = u64::try_from(self.workers).unwrap_or(u64::MAX);
        workers.saturating_mul(each).saturating_add(1)
    }

    /// How many handles each worker's desk may have.
    pub(crate) fn each(&self) -> u32
        ensures is { self.now.pointers + 2 < 2 ^ 32 → result ≡ self.now.pointers + 2 }
        ensures some { 0 < result }
    {
        self.pointers.saturating_add(SPARE)
    }

    /// Which number doesn't fit: of a shape that no domain can have, or that has no room for the team.
    #[tactic(auto, using(crate::proofs::ShapeRooms::within_limits))]
    pub(crate) fn misfit(&self, shape: &Shape) -> Option<NotRun>
        ensures fits { IfNone result (Fits shape.now self.now) }
        ensures misfit { IfSome result (IsMisfit shape.now self.now) }
    {
        let members = MOST_MEMBERS.saturating_sub(shape.owners);
        let cells = MOST_FREE_CELLS.saturating_sub(shape.shared_cells);
        if shape.blocks < 1 {
            return Some(small(Number::Blocks, shape.blocks, 1));
        }
        if shape.owners < 2 {
            return Some(small(Number::Owners, shape.owners, 2));
        }
        if shape.owners >= MOST_MEMBERS {
            return Some(large(Number::Owners, shape.owners, MOST_MEMBERS - 1));
        }
        if shape.weaks < 1 {
            return Some(small(Number::Weaks, shape.weaks, 1));
        }
        if shape.weaks > members {
            return Some(large(Number::Weaks, shape.weaks, members));
        }
        if shape.shared_cells > MOST_FREE_CELLS {
            return Some(large(Number::SharedCells, shape.shared_cells, MOST_FREE_CELLS));
        }
        if shape.weak_cells > cells {
            return Some(large(Number::WeakCells, shape.weak_cells, cells));
        }
        if shape.allowance < 1 {
            return Some(small(Number::Allowance, shape.allowance, 1));
        }
        if shape.allowance > MOST_ALLOWANCE {
            return Some(large(Number::Allowance, shape.allowance, MOST_ALLOWANCE));
        }
        let handles = self.handles();
        if u64::from(shape.allowance) < handles {
            return Some(small(Number::Allowance, shape.allowance, handles));
        }
        let blocks = blocks_beside(shape);
        if shape.blocks > blocks {
            return Some(large(Number::Blocks, shape.blocks, blocks));
        }
        None
    }
}

/// How many blocks a domain may have that has the shape's other numbers: the funds of all handles that may be on one
/// block must fit its count.
fn blocks_beside(shape: &Shape) -> u32
    requires members { 0 < shape.now.owners }
    requires cells { shape.now.shared_cells + shape.now.weak_cells ≤ most_free_cells }
    requires allowance { shape.now.allowance ≤ most_allowance }
    ensures { result ≡ most_of shape.now Number.Blocks }
{
    let others = 2 * shape.allowance + (shape.shared_cells + shape.weak_cells);
    let members = shape.owners.max(shape.weaks);
    MOST_BLOCKS.min((MOST_NUMBER - others) / members)
}

/// A number is below what it must be at least.
fn small(number: Number, is: u32, limit: u64) -> NotRun
    ensures { result ≡ NotRun.Small (record { number = number; is = is; limit = limit }) }
{
    NotRun::Small(Limit {
        number,
        is: u64::from(is),
        limit,
    })
}

/// A number is above what it may be at most.
fn large(number: Number, is: u32, limit: u32) -> NotRun
    ensures { result ≡ NotRun.Large (record { number = number; is = is; limit = limit }) }
{
    NotRun::Large(Limit {
        number,
        is: u64::from(is),
        limit: u64::from(limit),
    })
}
