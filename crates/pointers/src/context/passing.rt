//! Owners between claims and cells.
ghost use Rattle.std.specs.Prelude.{◌≡◌, ◌↔◌, [], ◌∷◌, IfErr, IfOk, IsErr, None, true};
ghost use Rattle.control_block.specs.Desks.{Belongs};
ghost use Rattle.control_block.specs.declared.handles.Held.TheVariants as held;
ghost use Rattle.pointers.specs.Claims.{known_by};
ghost use Rattle.pointers.specs.Beside.{Arrives, IsClaimed, IsEmptyHandle, IsHandleOf, IsWholeBeside, Stays, seen_by};
ghost use Rattle.pointers.specs.Known.{IsAtAllowance};
ghost use Rattle.pointers.specs.HandCalls.{IsButCount};
ghost use Rattle.pointers.specs.Whole.{IsWhole};

use crate::claim::Claims;
use crate::claim::shared_claim::SharedClaim;
use crate::domain::Domain;
use control_block::desk::Desk;
use control_block::domain;
use control_word::Refusal;
use shared_handle::{Pile, Shared, drop_shared, empty};

/// The owner of a member is the desk's.
#[inline(always)]
pub(crate) fn look_at<D: Domain>(of: Option<&SharedClaim<D>>, claims: &mut Claims<D>)
    ensures claims { claims.new.entries ≡ claims.old.entries }
    ensures has { IsClaimed claims.old.entries (known_by of.entry) }
{
    if let Some(of) = of {
        of.look(claims);
    }
}

/// Whether the handle owns nothing and points nowhere.
#[inline(always)]
fn is_empty(handle: &Shared) -> bool
    ensures { result ≡ true → IsEmptyHandle (held.Owner handle.now) }
{
    handle.word().is_empty()
}

/// A handle that came: a claim, or none where it is empty, which leaves.
#[inline(always)]
pub(crate) fn arrived<D: Domain>(
    domain: &domain::Domain<D::Value>,
    desk: &mut Desk<D::Value>,
    pile: &mut Pile<D::Value>,
    claims: &mut Claims<D>,
    handle: Shared,
) -> Option<SharedClaim<D>>
    requires domain { Belongs D.opened domain.now }
    requires hand { IsWholeBeside D.opened desk.old pile.old (held.Owner handle ∷ []) claims.old.entries }
    ensures whole { IsWhole D.opened desk.new pile.new claims.new.entries }
    ensures came { Arrives (held.Owner handle) desk.old (seen_by (λ x. x.known) result) }
    ensures count { IsButCount desk.old desk.new }
{
    if is_empty(&handle) {
        let _gone = drop_shared(domain, desk, pile, handle);
        return None;
    }
    Some(SharedClaim::register(handle, desk, claims))
}

/// What goes into a cell: a claim's handle, or an empty one, which is refused just where the desk is at its allowance.
#[inline(always)]
pub(crate) fn given<D: Domain>(
    domain: &domain::Domain<D::Value>,
    desk: &mut Desk<D::Value>,
    pile: &Pile<D::Value>,
    claims: &mut Claims<D>,
    new: Option<SharedClaim<D>>,
) -> Result<Shared, Refusal>
    requires domain { Belongs D.opened domain.now }
    requires whole { IsWhole D.opened desk.old pile.now claims.old.entries }
    ensures hand { IfOk result (λ h. IsWholeBeside D.opened desk.new pile.now (held.Owner h ∷ []) claims.new.entries) }
    ensures handle { IfOk result (λ h. IsHandleOf (seen_by (λ x. x.known) new) (held.Owner h)) }
    ensures stays { IfOk result (λ h. Stays D.opened (seen_by (λ x. x.known) new) desk.new) }
    ensures count { IfOk result (λ _. IsButCount desk.old desk.new) }
    ensures limit { IsErr result ↔ ((new ≡ None) × IsAtAllowance desk.old) }
    ensures refused { IfErr result (λ why. (why ≡ Refusal.Limit)
        × (desk.new ≡ desk.old) × (claims.new.entries ≡ claims.old.entries)) }
{
    desk.assert_invariant();
    match new {
        Some(new) => Ok(new.leave(claims)),
        None => {
            let none = empty(domain, desk)?;
            Ok(none)
        }
    }
}
