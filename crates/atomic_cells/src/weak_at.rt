//! Cells of weak pointers ([util.smartptr.atomic.weak]).
ghost use Rattle.std.specs.Prelude.{◌≡◌, ◌+◌};
ghost use Rattle.control_word.specs.declared.model.handle.Kind.TheVariants.{Weak};
ghost use Rattle.control_block.specs.Desks.{Belongs, IsSameDesk, KeepsEndings, bag_of, endings_of};
ghost use Rattle.control_block.specs.CellCalls.{HoldsHandle, without_handle};
ghost use Rattle.control_block.specs.Own.{KeepsHeld};
ghost use Rattle.atomic_cells.specs.Cells.{StoresWeakly};
ghost use Rattle.atomic_cells.specs.Sites.{IsMember, IsOpenWeakly, weak_cell};
ghost use Rattle.atomic_cells.specs.declared.at.At.{At};
ghost use Rattle.atomic_cells.specs.declared.sites.WeakSite.{WeakSite};
ghost use Rattle.atomic_cells.specs.declared.sites.WeakSite.TheVariants as site;

use crate::at::{At, WeakAt};
use crate::sites::{CellSite, WeakSite, block_within, weak_member};
use control_block::cell_calls::{CellAt, Content};
use control_block::desk::Desk;
use control_block::domain::Domain;
use control_block::{handles, store_calls};
use control_word::model::handle::Kind;
use control_word::{Refusal, Site};
use shared_handle::{Left, Shared};
use std::marker::Brand;

impl CellSite for WeakSite {
    type Handle = handles::Weak;

    ghost kind = { Weak };

    ghost block_of = { λ h. h.block };

    ghost place_of = { λ h. h.place };

    ghost is_open = { λ V d s. IsOpenWeakly d s };

    ghost cell_of = { λ V d s. weak_cell d s };

    #[inline(always)]
    fn cell<V: Drop>(self, domain: &Domain<V>) -> CellAt {
        domain.assert_invariant();
        let site = match self {
            WeakSite::Free(number) => Site::Free {
                number: domain.shared_cells() + number,
            },
            WeakSite::Up(block) => Site::Member { block, member: 2 },
            WeakSite::More(block, number) => Site::Member {
                block,
                member: weak_member(domain, number),
            },
        };
        CellAt {
            site,
            kind: Kind::Weak,
        }
    }

    #[inline(always)]
    fn content(handle: &handles::Weak) -> Content {
        Content {
            kind: Kind::Weak,
            word: handle.word(),
        }
    }

    #[inline(always)]
    fn spend(handle: handles::Weak) {
        handle.into_word();
    }

    #[inline(always)]
    fn of_content(content: Content) -> handles::Weak {
        handles::Weak::of_word(content.word)
    }
}

impl<'a> WeakAt<'a> {
    /// A free cell, by its number from 0 among the free weak cells (own).
    pub fn free(index: u32) -> WeakAt<'a>
        ensures { result.site ≡ site.Free index }
    {
        At::of(WeakSite::Free(index))
    }

    /// The member `up` of the object that the handle owns and points into (own). It is refused `Null` just where the
    /// handle's place is null, and `Outside` just where that isn't in the object that it owns.
    pub fn member(handle: &'a Shared) -> Result<WeakAt<'a>, Refusal>
        ensures { IsMember (λ c (at : At WeakSite). at.site ≡ site.Up c) handle.now.block handle.now.place result }
    {
        let block = block_within(handle)?;
        Ok(At::of(WeakSite::Up(block)))
    }

    /// A further weak member of the object that the handle owns and points into, by its number from 0 on (own). It is
    /// refused as `member` is. Condition of its calls: the domain's shape has such a member.
    pub fn more(handle: &'a Shared, number: u8) -> Result<WeakAt<'a>, Refusal>
        ensures { IsMember (λ c (at : At WeakSite). at.site ≡ site.More c number) handle.now.block
            handle.now.place result }
    {
        let block = block_within(handle)?;
        Ok(At::of(WeakSite::More(block, number)))
    }

    /// The pointer goes into the cell, and what the cell held leaves ([util.smartptr.atomic.weak]): it answers `Empty`
    /// where that was an empty one, and else `Others` (own). Where that was the last handle of an object that is gone,
    /// its block is vacant, and in the desk's store. It waits for nobody, and refuses nothing.
    #[inline(always)]
    pub fn store<V: Drop>(
        &self,
        domain: &Domain<V>,
        desk: &mut Desk<V>,
        handle: handles::Weak,
    ) -> Left<V>
        requires domain { Belongs desk.old domain.now }
        requires cell { IsOpenWeakly desk.old self.now.site }
        requires holds { HoldsHandle desk.old Weak handle.block handle.place }
        ensures stored { StoresWeakly desk.old (weak_cell desk.old self.now.site) handle.block
            handle.place result desk.new }
        ensures bag { bag_of desk.new ≡ without_handle Weak handle.block handle.place (bag_of desk.old) }
        ensures held { desk.new.held + 1 ≡ desk.old.held }
        ensures desk { IsSameDesk desk.old desk.new }
        ensures endings { KeepsEndings desk.old desk.new }
        ensures latest { KeepsHeld desk.old desk.new }
        ensures count { endings_of desk.new ≡ endings_of desk.old }
    {
        let new = WeakSite::content(&handle);
        WeakSite::spend(handle);
        let site = self.site.cell(domain).site;
        let (old, released) = store_calls::store::<V, Brand>(domain, desk, site, new);
        Left::of_parts(domain, old.word.block(), released.value)
    }
}
