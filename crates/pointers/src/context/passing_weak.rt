//! Weak handles between claims and cells.
ghost use Rattle.std.specs.Prelude.{◌≡◌, ◌↔◌, [], ◌∷◌, IfErr, IfOk, IsErr, None, true};
ghost use Rattle.control_block.specs.Desks.{Belongs};
ghost use Rattle.control_block.specs.declared.handles.Held.TheVariants as held;
ghost use Rattle.pointers.specs.Beside.{Arrives, IsEmptyHandle, IsHandleOf, IsWholeBeside, Stays, seen_by};
ghost use Rattle.pointers.specs.Known.{IsAtAllowance};
ghost use Rattle.pointers.specs.Whole.{IsWhole};

use crate::claim::Claims;
use crate::claim::weak_claim::WeakClaim;
use crate::domain::Domain;
use control_block::desk::Desk;
use control_block::domain;
use control_word::Refusal;
use shared_handle::{Pile, Weak, empty_weak, release_weak};

/// Whether the handle is of nothing and points nowhere.
#[inline(always)]
fn is_empty(handle: &Weak) -> bool
    ensures { result ≡ true → IsEmptyHandle (held.Weak handle.now) }
{
    handle.word().is_empty()
}

/// A handle that came: a claim, or none where it is empty, which leaves.
#[inline(always)]
pub(crate) fn arrived_weak<D: Domain>(
    domain: &domain::Domain<D::Value>,
    desk: &mut Desk<D::Value>,
    pile: &Pile<D::Value>,
    claims: &mut Claims<D>,
    handle: Weak,
) -> Option<WeakClaim<D>>
    requires domain { Belongs D.opened domain.now }
    requires hand { IsWholeBeside D.opened desk.old pile.now (held.Weak handle ∷ []) claims.old.entries }
    ensures whole { IsWhole D.opened desk.new pile.now claims.new.entries }
    ensures came { Arrives (held.Weak handle) desk.old (seen_by (λ x. x.known) result) }
{
    if is_empty(&handle) {
        release_weak(domain, desk, handle);
        return None;
    }
    Some(WeakClaim::register(handle, desk, claims))
}

/// What goes into a cell: a claim's handle, or an empty one, which is refused just where the desk is at its allowance.
#[inline(always)]
pub(crate) fn given_weak<D: Domain>(
    domain: &domain::Domain<D::Value>,
    desk: &mut Desk<D::Value>,
    pile: &Pile<D::Value>,
    claims: &mut Claims<D>,
    new: Option<WeakClaim<D>>,
) -> Result<Weak, Refusal>
    requires domain { Belongs D.opened domain.now }
    requires whole { IsWhole D.opened desk.old pile.now claims.old.entries }
    ensures hand { IfOk result (λ h. IsWholeBeside D.opened desk.new pile.now (held.Weak h ∷ []) claims.new.entries) }
    ensures handle { IfOk result (λ h. IsHandleOf (seen_by (λ x. x.known) new) (held.Weak h)) }
    ensures stays { IfOk result (λ h. Stays D.opened (seen_by (λ x. x.known) new) desk.new) }
    ensures limit { IsErr result ↔ ((new ≡ None) × IsAtAllowance desk.old) }
    ensures refused { IfErr result (λ why. (why ≡ Refusal.Limit)
        × (desk.new ≡ desk.old) × (claims.new.entries ≡ claims.old.entries)) }
{
    desk.assert_invariant();
    match new {
        Some(new) => Ok(new.leave(claims)),
        None => {
            let none = empty_weak(domain, desk)?;
            Ok(none)
        }
    }
}
