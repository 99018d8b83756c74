//! Cells of shared pointers ([util.smartptr.atomic.shared]).
ghost use Rattle.std.specs.Prelude.{◌≡◌, ◌+◌};
ghost use Rattle.control_word.specs.declared.model.handle.Kind.TheVariants.{Owner};
ghost use Rattle.control_block.specs.Desks.{Belongs, KeepsStock, bag_of, endings_of};
ghost use Rattle.control_block.specs.CellCalls.{HoldsHandle, without_handle};
ghost use Rattle.control_block.specs.Own.{KeepsHeld};
ghost use Rattle.shared_handle.specs.Endings.{IsApart, more_ending};
ghost use Rattle.atomic_cells.specs.Cells.{Stores};
ghost use Rattle.atomic_cells.specs.Sites.{IsMember, IsOpenSite, shared_cell};
ghost use Rattle.atomic_cells.specs.declared.at.At.{At};
ghost use Rattle.atomic_cells.specs.declared.sites.SharedSite.{SharedSite};
ghost use Rattle.atomic_cells.specs.declared.sites.SharedSite.TheVariants as site;

use crate::at::{At, SharedAt};
use crate::sites::{CellSite, SharedMember, SharedSite, block_within, owner_member};
use control_block::cell_calls::{CellAt, Content};
use control_block::desk::Desk;
use control_block::domain::Domain;
use control_block::store_calls;
use control_word::model::handle::Kind;
use control_word::{Refusal, Site};
use shared_handle::{Left, Shared};
use std::marker::Brand;

impl CellSite for SharedSite {
    type Handle = Shared;

    ghost kind = { Owner };

    ghost block_of = { λ h. h.block };

    ghost place_of = { λ h. h.place };

    ghost is_open = { λ V d s. IsOpenSite d s };

    ghost cell_of = { λ V d s. shared_cell d s };

    #[inline(always)]
    fn cell<V: Drop>(self, domain: &Domain<V>) -> CellAt {
        domain.assert_invariant();
        let site = match self {
            SharedSite::Free(number) => Site::Free { number },
            SharedSite::Of(block, SharedMember::First) => Site::Member { block, member: 0 },
            SharedSite::Of(block, SharedMember::Next) => Site::Member { block, member: 1 },
            SharedSite::More(block, number) => Site::Member {
                block,
                member: owner_member(domain, number),
            },
        };
        CellAt {
            site,
            kind: Kind::Owner,
        }
    }

    #[inline(always)]
    fn content(handle: &Shared) -> Content {
        Content {
            kind: Kind::Owner,
            word: handle.word(),
        }
    }

    #[inline(always)]
    fn spend(handle: Shared) {
        handle.into_word();
    }

    #[inline(always)]
    fn of_content(content: Content) -> Shared {
        Shared::of_word(content.word)
    }
}

impl<'a> SharedAt<'a> {
    /// A free cell, by its number from 0 among the free shared cells (own).
    pub fn free(index: u32) -> SharedAt<'a>
        ensures { result.site ≡ site.Free index }
    {
        At::of(SharedSite::Free(index))
    }

    /// A member of the object that the handle owns and points into (own). It is refused `Null` just where the handle's
    /// place is null, and `Outside` just where that isn't in the object that it owns.
    pub fn member(handle: &'a Shared, which: SharedMember) -> Result<SharedAt<'a>, Refusal>
        ensures { IsMember (λ c (at : At SharedSite). at.site ≡ site.Of c which) handle.now.block
            handle.now.place result }
    {
        let block = block_within(handle)?;
        Ok(At::of(SharedSite::Of(block, which)))
    }

    /// A further member for owners, by its number from 0 on, of the object that the handle owns and points into (own).
    /// It is refused as `member` is. Condition of its calls: the domain's shape has such a member.
    pub fn more(handle: &'a Shared, number: u8) -> Result<SharedAt<'a>, Refusal>
        ensures { IsMember (λ c (at : At SharedSite). at.site ≡ site.More c number) handle.now.block
            handle.now.place result }
    {
        let block = block_within(handle)?;
        Ok(At::of(SharedSite::More(block, number)))
    }

    /// The pointer goes into the cell, and what the cell held leaves ([util.smartptr.atomic.shared]); where that was an
    /// object's last owner, the object ends in the desk's hands, in another block than all that ended there before. It
    /// waits for nobody, and refuses nothing.
    #[inline(always)]
    pub fn store<V: Drop>(&self, domain: &Domain<V>, desk: &mut Desk<V>, handle: Shared) -> Left<V>
        requires domain { Belongs desk.old domain.now }
        requires cell { IsOpenSite desk.old self.now.site }
        requires holds { HoldsHandle desk.old Owner handle.block handle.place }
        ensures stored { Stores desk.old (shared_cell desk.old self.now.site) handle.block
            handle.place result desk.new }
        ensures bag { bag_of desk.new ≡ without_handle Owner handle.block handle.place (bag_of desk.old) }
        ensures held { desk.new.held + 1 ≡ desk.old.held }
        ensures keeps { KeepsStock desk.old desk.new }
        ensures latest { KeepsHeld desk.old desk.new }
        ensures count { endings_of desk.new ≡ endings_of desk.old + more_ending result }
        ensures apart { IsApart desk.old result }
    {
        let new = SharedSite::content(&handle);
        SharedSite::spend(handle);
        let site = self.site.cell(domain).site;
        let (old, released) = store_calls::store::<V, Brand>(domain, desk, site, new);
        Left::of_parts(domain, old.word.block(), released.value)
    }
}
