//! Compare-and-swap of cells ([util.smartptr.atomic.shared], [util.smartptr.atomic.weak]).
ghost use Rattle.std.specs.Prelude.{◌≡◌, ◌↔◌, ◌+◌, cond, true, false, IfErr, IfOk, IsErr, OnOk};
ghost use Rattle.control_block.specs.CellCalls.{HoldsHandle, handle_in};
ghost use Rattle.control_block.specs.Desks.{Belongs, Keeps, allowance_of, bag_of, held_of};
ghost use Rattle.atomic_cells.specs.Compares.{Compares, GivesBackDesired, bag_compared, came_out, has_swapped};

use crate::at::At;
use crate::compared::Compared;
use crate::sites::CellSite;
use control_block::cell_calls::Offer;
use control_block::cell_compare_calls;
use control_block::cell_step_kinds::CellArgs;
use control_block::desk::Desk;
use control_block::domain::Domain;
use control_word::{Refusal, Refused};
use std::marker::Brand;
use std::sync::Wait;

impl<'a, S: CellSite> At<'a, S> {
    fn compare_as<V: Drop, A: CellArgs, R: Wait>(
        &self,
        rt: &R,
        domain: &Domain<V>,
        desk: &mut Desk<V>,
        expected: &S::Handle,
        desired: S::Handle,
    ) -> Result<Compared<S::Handle>, Refused<S::Handle>>
        requires domain { Belongs desk.old domain.now }
        requires cell { S.is_open _ desk.old self.now.site }
        requires holds { HoldsHandle desk.old S.kind (S.block_of expected.now) (S.place_of expected.now)
            × HoldsHandle desk.old S.kind (S.block_of desired) (S.place_of desired) }
        requires meant { (A.cell ≡ S.cell_of _ desk.old self.now.site)
            × (A.expected ≡ handle_in desk.old S.kind (S.block_of expected.now) (S.place_of expected.now))
            × (A.new ≡ handle_in desk.old S.kind (S.block_of desired) (S.place_of desired)) }
        ensures limit { IsErr result ↔ (held_of desk.old ≡ allowance_of desk.old) }
        ensures refused { IfErr result
            (λ r. (r.why ≡ Refusal.Limit) × (r.back ≡ desired) × (desk.new ≡ desk.old)) }
        ensures compared { IfOk result (λ c. let h = came_out c in
            Compares desk.old (S.cell_of _ desk.old self.now.site) S.kind (S.block_of expected.now)
            (S.place_of expected.now) (S.block_of desired) (S.place_of desired) (has_swapped c)
            (S.block_of h) (S.place_of h) A.weak desk.new) }
        ensures back { IfOk result (λ c. GivesBackDesired desired c) }
        ensures bag { IfOk result (λ c. let h = came_out c in
            bag_of desk.new ≡ bag_compared (has_swapped c) S.kind (S.block_of desired) (S.place_of desired)
            (S.block_of h) (S.place_of h) (bag_of desk.old)) }
        ensures held { IfOk result (λ c. desk.new.held ≡ desk.old.held + cond (has_swapped c) 0 1) }
        ensures holds { IfOk result (λ c. let h = came_out c in
            HoldsHandle desk.new S.kind (S.block_of h) (S.place_of h)) }
        ensures keeps { OnOk result (Keeps desk.old desk.new) }
    {
        let offer = Offer {
            expected: S::content(expected),
            new: S::content(&desired),
        };
        let site = self.site.cell(domain).site;
        match cell_compare_calls::compare::<V, A, R>(rt, domain, desk, site, offer) {
            Err(why) => Err(Refused { why, back: desired }),
            Ok((swapped, found)) => {
                let held = S::of_content(found);
                if swapped {
                    S::spend(desired);
                    return Ok(Compared::Swapped(held));
                }
                Ok(Compared::Differs { held, desired })
            }
        }
    }

    /// Where the cell holds a pointer equivalent to the expected one (the same place, and the same object or none), the
    /// desired one goes in, and the cell's comes out; else a copy of what it holds. It tries again while others change
    /// the cell. It is refused `Limit` just where the desk is at its allowance, before any step; then nothing changes,
    /// and the desired pointer comes back.
    pub fn compare_exchange_strong<V: Drop, R: Wait>(
        &self,
        rt: &R,
        domain: &Domain<V>,
        desk: &mut Desk<V>,
        expected: &S::Handle,
        desired: S::Handle,
    ) -> Result<Compared<S::Handle>, Refused<S::Handle>>
        requires domain { Belongs desk.old domain.now }
        requires cell { S.is_open _ desk.old self.now.site }
        requires holds { HoldsHandle desk.old S.kind (S.block_of expected.now) (S.place_of expected.now)
            × HoldsHandle desk.old S.kind (S.block_of desired) (S.place_of desired) }
        ensures limit { IsErr result ↔ (held_of desk.old ≡ allowance_of desk.old) }
        ensures refused { IfErr result
            (λ r. (r.why ≡ Refusal.Limit) × (r.back ≡ desired) × (desk.new ≡ desk.old)) }
        ensures compared { IfOk result (λ c. let h = came_out c in
            Compares desk.old (S.cell_of _ desk.old self.now.site) S.kind (S.block_of expected.now)
            (S.place_of expected.now) (S.block_of desired) (S.place_of desired) (has_swapped c)
            (S.block_of h) (S.place_of h) false desk.new) }
        ensures back { IfOk result (λ c. GivesBackDesired desired c) }
        ensures bag { IfOk result (λ c. let h = came_out c in
            bag_of desk.new ≡ bag_compared (has_swapped c) S.kind (S.block_of desired) (S.place_of desired)
            (S.block_of h) (S.place_of h) (bag_of desk.old)) }
        ensures held { IfOk result (λ c. desk.new.held ≡ desk.old.held + cond (has_swapped c) 0 1) }
        ensures holds { IfOk result (λ c. let h = came_out c in
            HoldsHandle desk.new S.kind (S.block_of h) (S.place_of h)) }
        ensures keeps { OnOk result (Keeps desk.old desk.new) }
    {
        self.compare_as::<V, Brand, R>(rt, domain, desk, expected, desired)
    }

    /// The same, and it may differ on an equivalent pointer.
    pub fn compare_exchange_weak<V: Drop, R: Wait>(
        &self,
        rt: &R,
        domain: &Domain<V>,
        desk: &mut Desk<V>,
        expected: &S::Handle,
        desired: S::Handle,
    ) -> Result<Compared<S::Handle>, Refused<S::Handle>>
        requires domain { Belongs desk.old domain.now }
        requires cell { S.is_open _ desk.old self.now.site }
        requires holds { HoldsHandle desk.old S.kind (S.block_of expected.now) (S.place_of expected.now)
            × HoldsHandle desk.old S.kind (S.block_of desired) (S.place_of desired) }
        ensures limit { IsErr result ↔ (held_of desk.old ≡ allowance_of desk.old) }
        ensures refused { IfErr result
            (λ r. (r.why ≡ Refusal.Limit) × (r.back ≡ desired) × (desk.new ≡ desk.old)) }
        ensures compared { IfOk result (λ c. let h = came_out c in
            Compares desk.old (S.cell_of _ desk.old self.now.site) S.kind (S.block_of expected.now)
            (S.place_of expected.now) (S.block_of desired) (S.place_of desired) (has_swapped c)
            (S.block_of h) (S.place_of h) true desk.new) }
        ensures back { IfOk result (λ c. GivesBackDesired desired c) }
        ensures bag { IfOk result (λ c. let h = came_out c in
            bag_of desk.new ≡ bag_compared (has_swapped c) S.kind (S.block_of desired) (S.place_of desired)
            (S.block_of h) (S.place_of h) (bag_of desk.old)) }
        ensures held { IfOk result (λ c. desk.new.held ≡ desk.old.held + cond (has_swapped c) 0 1) }
        ensures holds { IfOk result (λ c. let h = came_out c in
            HoldsHandle desk.new S.kind (S.block_of h) (S.place_of h)) }
        ensures keeps { OnOk result (Keeps desk.old desk.new) }
    {
        self.compare_as::<V, Brand, R>(rt, domain, desk, expected, desired)
    }
}
