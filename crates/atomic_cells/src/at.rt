//! Cells of pointers ([util.smartptr.atomic]): what the calls on both kinds are.
ghost use Rattle.std.specs.Prelude.{◌≡◌, ◌↔◌, ◌+◌, IfErr, IfNone, IfOk, IfSome, IsErr, IsNone, OnOk};
ghost use Rattle.control_block.specs.Desks.{Belongs, Keeps, allowance_of, bag_of, held_of};
ghost use Rattle.control_block.specs.CellCalls.{HoldsHandle, with_handle, without_handle};
ghost use Rattle.atomic_cells.specs.Cells.{Exchanges, Loads, TellsHeld};

use crate::sites::{CellSite, SharedSite, WeakSite};
use control_block::cell_calls;
use control_block::desk::Desk;
use control_block::domain::Domain;
use control_word::Refusal;
use std::marker::{Brand, PhantomData};
use std::sync::Wait;

/// A cell that holds a pointer: a free one, or a member of an object, which keeps the borrow of a handle that owns the
/// object. It begins with an empty one. Condition of its calls: a free one is of the domain's shape, and the handle of
/// a member is the desk's.
#[derive(Clone, Copy, Drop)]
pub struct At<'a, S> {
    pub(crate) site: S,
    owner: PhantomData<&'a ()>,
}

/// A cell that holds a shared pointer ([util.smartptr.atomic.shared]).
pub type SharedAt<'a> = At<'a, SharedSite>;

/// A cell that holds a weak pointer ([util.smartptr.atomic.weak]).
pub type WeakAt<'a> = At<'a, WeakSite>;

impl<'a, S: CellSite> At<'a, S> {
    pub(crate) fn of(site: S) -> Self
        ensures { result.site ≡ site }
    {
        At {
            site,
            owner: PhantomData,
        }
    }

    /// A copy of what the cell holds, from its one step on the cell. It tries again while others change the cell. It is
    /// refused `Limit` just where the desk is at its allowance, and then nothing changes.
    #[inline(always)]
    pub fn load<V: Drop, R: Wait>(
        &self,
        rt: &R,
        domain: &Domain<V>,
        desk: &mut Desk<V>,
    ) -> Result<S::Handle, Refusal>
        requires domain { Belongs desk.old domain.now }
        requires cell { S.is_open _ desk.old self.now.site }
        ensures limit { IsErr result ↔ (held_of desk.old ≡ allowance_of desk.old) }
        ensures refused { IfErr result (λ why. (why ≡ Refusal.Limit) × (desk.new ≡ desk.old)) }
        ensures event { IfOk result (λ h.
            Loads desk.old (S.cell_of _ desk.old self.now.site) S.kind (S.block_of h) (S.place_of h) desk.new) }
        ensures bag { IfOk result
            (λ h. bag_of desk.new ≡ with_handle S.kind (S.block_of h) (S.place_of h) (bag_of desk.old)) }
        ensures held { OnOk result (desk.new.held ≡ desk.old.held + 1) }
        ensures holds { IfOk result (λ h. HoldsHandle desk.new S.kind (S.block_of h) (S.place_of h)) }
        ensures keeps { OnOk result (Keeps desk.old desk.new) }
    {
        let found = cell_calls::load::<V, Brand, R>(rt, domain, desk, self.site.cell(domain))?;
        Ok(S::of_content(found))
    }

    /// One try at a load, which waits for nobody. It answers nothing where others change the cell meanwhile, where many
    /// of its funds are taken, and where the desk is at its allowance; then nothing changes.
    #[inline(always)]
    pub fn load_once<V: Drop>(&self, domain: &Domain<V>, desk: &mut Desk<V>) -> Option<S::Handle>
        requires domain { Belongs desk.old domain.now }
        requires cell { S.is_open _ desk.old self.now.site }
        ensures limit { held_of desk.old ≡ allowance_of desk.old → IsNone result }
        ensures missed { IfNone result (desk.new ≡ desk.old) }
        ensures event { IfSome result (λ h.
            Loads desk.old (S.cell_of _ desk.old self.now.site) S.kind (S.block_of h) (S.place_of h) desk.new) }
        ensures bag { IfSome result
            (λ h. bag_of desk.new ≡ with_handle S.kind (S.block_of h) (S.place_of h) (bag_of desk.old)) }
        ensures held { IfSome result (λ _. desk.new.held ≡ desk.old.held + 1) }
        ensures holds { IfSome result (λ h. HoldsHandle desk.new S.kind (S.block_of h) (S.place_of h)) }
        ensures keeps { IfSome result (λ _. Keeps desk.old desk.new) }
    {
        let Some(found) = cell_calls::load_once::<V, Brand>(domain, desk, self.site.cell(domain))
        else {
            return None;
        };
        Some(S::of_content(found))
    }

    /// Whether the cell holds a pointer equivalent to this one: the same place, and the same object or none. That is
    /// `load() == p`, told by one look, which changes nothing, takes no room in the allowance, and waits for nobody.
    #[inline(always)]
    pub fn holds<V: Drop>(&self, domain: &Domain<V>, desk: &mut Desk<V>, handle: &S::Handle) -> bool
        requires domain { Belongs desk.old domain.now }
        requires cell { S.is_open _ desk.old self.now.site }
        requires holds { HoldsHandle desk.old S.kind (S.block_of handle.now) (S.place_of handle.now) }
        ensures event { TellsHeld desk.old (S.cell_of _ desk.old self.now.site) S.kind (S.block_of handle.now)
            (S.place_of handle.now) result desk.new }
        ensures bag { bag_of desk.new ≡ bag_of desk.old }
        ensures held { desk.new.held ≡ desk.old.held }
        ensures keeps { Keeps desk.old desk.new }
    {
        let site = self.site.cell(domain).site;
        cell_calls::holds::<V, Brand>(domain, desk, site, S::content(handle))
    }

    /// The pointer goes into the cell, and what the cell held comes out, in one step on the cell. It waits for nobody,
    /// and refuses nothing.
    #[inline(always)]
    pub fn exchange<V: Drop>(
        &self,
        domain: &Domain<V>,
        desk: &mut Desk<V>,
        handle: S::Handle,
    ) -> S::Handle
        requires domain { Belongs desk.old domain.now }
        requires cell { S.is_open _ desk.old self.now.site }
        requires holds { HoldsHandle desk.old S.kind (S.block_of handle) (S.place_of handle) }
        ensures event { Exchanges desk.old (S.cell_of _ desk.old self.now.site) S.kind (S.block_of handle)
            (S.place_of handle) (S.block_of result) (S.place_of result) desk.new }
        ensures bag { bag_of desk.new ≡ with_handle S.kind (S.block_of result) (S.place_of result)
            (without_handle S.kind (S.block_of handle) (S.place_of handle) (bag_of desk.old)) }
        ensures held { desk.new.held ≡ desk.old.held }
        ensures holds { HoldsHandle desk.new S.kind (S.block_of result) (S.place_of result) }
        ensures keeps { Keeps desk.old desk.new }
    {
        let new = S::content(&handle);
        S::spend(handle);
        let site = self.site.cell(domain).site;
        S::of_content(cell_calls::exchange::<V, Brand>(domain, desk, site, new))
    }
}
