//! How large a domain is, and the limits of every domain (own).
ghost use Rattle.std.specs.Prelude.{◌≡◌, ◌+◌, ◌<◌, ◌≤◌, ◌↔◌, IsTrue};
ghost use Rattle.control_word.specs.Layout.{IsWithinLimits};
ghost use Rattle.control_word.specs.Limits.{HasRoomForFunds, most_allowance, most_blocks};
ghost use Rattle.control_word.specs.Limits.{most_free_cells, most_members};
ghost use Rattle.control_word.specs.State.{kind_of_member};

use crate::model::handle::Kind;

/// Blocks of a shape.
pub const MOST_BLOCKS: u32 = 4_000_000;
/// Members of an object: all words of a block behind its fields.
pub const MOST_MEMBERS: u32 = 9;
/// Free cells of a shape, shared and weak together.
pub const MOST_FREE_CELLS: u32 = 65_536;
/// Handles that all desks of a domain may hold together.
pub const MOST_ALLOWANCE: u32 = 4_194_304;
/// Funds that come with a handle into a cell.
pub const CELL_FUNDS: u32 = 256;
/// The funds of a block's handles fit its count where they are fewer.
pub const FUNDS_LIMIT: u64 = 1 << 32;
/// Number of owners of one object, or of its weak handles and the one that the owners have in common: with 256 funds
/// for each the count's half would be full.
pub const MOST_NUMBER: u32 = 16_777_215;

/// How large a domain is. Besides the limit of each number there is a rule for all: twice the
/// allowance, the owner members of all blocks and the free cells are fewer than 16,777,216 together,
/// and so with the weak members. Each handle on one object brings 256 funds to its count, and all of
/// them have to fit.
#[derive(Clone, Copy, PartialEq, Eq, Debug, Drop)]
pub struct Shape {
    /// Control blocks, 1 to 4,000,000.
    pub blocks: u32,
    /// Owner members of each object, 2 and more: `first` and `next`, and further ones.
    pub owners: u32,
    /// Weak members, 1 and more: `up`, and further ones. With the owners they are at most 9.
    pub weaks: u32,
    /// Free-standing shared cells.
    pub shared_cells: u32,
    /// Free-standing weak cells; with the shared ones at most 65,536.
    pub weak_cells: u32,
    /// Handles that all desks together may hold, 1 to 4,194,304.
    pub allowance: u32,
}

impl Shape {
    /// The same, of objects with so many members for owners and so many weak ones.
    pub fn with_members(self, owners: u32, weaks: u32) -> Shape
        ensures { result ≡ record self { owners = owners; weaks = weaks } }
    {
        Shape {
            owners,
            weaks,
            ..self
        }
    }

    /// Whether a domain may have this shape; else it is refused as `Refusal::Shape`.
    pub fn is_within_limits(&self) -> bool
        ensures { IsTrue result ↔ IsWithinLimits self.now }
    {
        let members = u64::from(self.owners) + u64::from(self.weaks);
        let cells = u64::from(self.shared_cells) + u64::from(self.weak_cells);
        (1..=MOST_BLOCKS).contains(&self.blocks)
            && self.owners >= 2
            && self.weaks >= 1
            && members <= u64::from(MOST_MEMBERS)
            && cells <= u64::from(MOST_FREE_CELLS)
            && (1..=MOST_ALLOWANCE).contains(&self.allowance)
            && self.has_room_for(self.owners)
            && self.has_room_for(self.weaks)
    }

    /// Whether the funds of all handles that may be on one block fit its count, where each object has so many members
    /// of their kind. Condition: the numbers are within their own limits.
    fn has_room_for(&self, members: u32) -> bool
        requires blocks { self.now.blocks ≤ most_blocks }
        requires members { members ≤ most_members }
        requires cells { self.now.shared_cells + self.now.weak_cells ≤ most_free_cells }
        requires allowance { self.now.allowance ≤ most_allowance }
        ensures { IsTrue result ↔ HasRoomForFunds self.now.allowance members self.now.blocks
            (self.now.shared_cells + self.now.weak_cells) }
    {
        let handles = 2 * u64::from(self.allowance)
            + u64::from(members) * u64::from(self.blocks)
            + u64::from(self.shared_cells + self.weak_cells);
        handles * u64::from(CELL_FUNDS) < FUNDS_LIMIT
    }

    /// How many members an object has. Of a shape with more than 9, which no domain has, it is 9.
    #[inline]
    pub fn members(&self) -> u8
        ensures within { self.now.owners + self.now.weaks ≤ most_members
            → result ≡ self.now.owners + self.now.weaks }
        ensures beyond { most_members < self.now.owners + self.now.weaks → result ≡ most_members }
    {
        let members = u64::from(self.owners) + u64::from(self.weaks);
        members.min(u64::from(MOST_MEMBERS)) as u8
    }

    /// The kind of handles that a member has, by its number: `up` is 2, and further weak ones are behind all owners.
    #[inline]
    pub fn kind_of_member(&self, member: u8) -> Kind
        ensures { result ≡ kind_of_member self.now.owners member }
    {
        if member == 2 || u32::from(member) > self.owners {
            Kind::Weak
        } else {
            Kind::Owner
        }
    }
}
