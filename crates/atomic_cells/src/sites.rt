//! Which cells there are: free ones, and the members of objects.
ghost use Rattle.std.specs.Prelude.{◌≡◌, ◌+◌, ◌<◌, Option};
ghost use Rattle.control_word.specs.State.{kind_of_member};
ghost use Rattle.control_word.specs.declared.model.event.Cell.{Cell};
ghost use Rattle.control_word.specs.declared.model.handle.Kind.{Kind};
ghost use Rattle.control_word.specs.declared.model.handle.Kind.TheVariants.{Owner, Weak};
ghost use Rattle.control_word.specs.declared.place.Block.{Block};
ghost use Rattle.control_word.specs.declared.place.Place.{Place};
ghost use Rattle.control_block.specs.CellCalls.{IsOpenAt, cell_of_site};
ghost use Rattle.control_block.specs.Desks.{DeskNow};
ghost use Rattle.control_block.specs.Rule.{members_of};
ghost use Rattle.atomic_cells.specs.Sites.{IsMember};

use control_block::cell_calls::{CellAt, Content};
use control_block::domain::Domain;
use control_word::{Block, Refusal};
use shared_handle::Shared;

/// The two members that each object has for shared pointers (own).
#[derive(Clone, Copy, Drop)]
pub enum SharedMember {
    First,
    Next,
}

/// A cell of shared pointers: a free one by its number, or a member of the object in a block. The further ones, which a
/// shape may have, go by their numbers from 0 on.
#[derive(Clone, Copy, Drop)]
pub enum SharedSite {
    Free(u32),
    Of(Block, SharedMember),
    More(Block, u8),
}

/// A cell of weak pointers: a free one by its number, or the member `up` of the object in a block, or a further one.
#[derive(Clone, Copy, Drop)]
pub enum WeakSite {
    Free(u32),
    Up(Block),
    More(Block, u8),
}

/// A further member for owners, by its number among all members of an object (own).
#[inline]
pub(crate) fn owner_member<V: Drop>(domain: &Domain<V>, number: u8) -> u8
    requires { number + 2 < domain.now.shape.owners }
    ensures number { result ≡ 3 + number }
    ensures there { result < members_of domain.now.shape }
    ensures kind { kind_of_member domain.now.shape.owners result ≡ Owner }
{
    domain.assert_invariant();
    3 + number
}

/// The same of a weak one: these are behind all owners.
#[inline]
pub(crate) fn weak_member<V: Drop>(domain: &Domain<V>, number: u8) -> u8
    requires { number + 1 < domain.now.shape.weaks }
    ensures number { result ≡ domain.now.shape.owners + 1 + number }
    ensures there { result < members_of domain.now.shape }
    ensures kind { kind_of_member domain.now.shape.owners result ≡ Weak }
{
    domain.assert_invariant();
    domain.owners() as u8 + 1 + number
}

/// Where a cell of one kind of pointers is: what the calls on cells ask of the kind.
pub trait CellSite: Copy + Drop {
    /// The pointers that it holds.
    type Handle;

    ghost kind: { Kind };

    ghost block_of: { Self.Handle → Option Block };

    ghost place_of: { Self.Handle → Option Place };

    /// Whether the cell is open to a desk.
    ghost is_open: { (V : Type 0) → DeskNow V → Self → Type 0 };

    /// The cell by a desk's history.
    ghost cell_of: { (V : Type 0) → DeskNow V → Self → Cell };

    fn cell<V: Drop>(self, domain: &Domain<V>) -> CellAt
        requires open { (d : DeskNow V) × (d.shape ≡ domain.now.shape) × is_open _ d self }
        ensures kind { result.kind ≡ kind }
        ensures cell { (d : DeskNow V) → d.shape ≡ domain.now.shape → cell_of_site d result.site ≡ cell_of _ d self }
        ensures open { (d : DeskNow V) → d.shape ≡ domain.now.shape → is_open _ d self
            → IsOpenAt d result.site result.kind };

    fn content(handle: &Self::Handle) -> Content
        ensures { (result.kind ≡ kind) × (result.word.block ≡ block_of handle.now)
            × (result.word.place ≡ place_of handle.now) };

    fn spend(handle: Self::Handle);

    fn of_content(content: Content) -> Self::Handle
        requires { content.kind ≡ kind }
        ensures { (block_of result ≡ content.word.block) × (place_of result ≡ content.word.place) };
}

/// The block of the object that the handle owns and points into: `Null` where its place is null, and `Outside` where
/// that isn't in the object that it owns.
pub(crate) fn block_within(handle: &Shared) -> Result<Block, Refusal>
    ensures { IsMember (λ c (b : Block). b ≡ c) handle.now.block handle.now.place result }
{
    let Some(place) = handle.place() else {
        return Err(Refusal::Null);
    };
    if handle.block() != Some(place.block) {
        return Err(Refusal::Outside);
    }
    Ok(place.block)
}
