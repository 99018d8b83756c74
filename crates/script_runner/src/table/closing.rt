//! How a domain's last desk closes it.
ghost use Rattle.std.specs.Prelude.{◌≡◌, [], IfErr, IfOk};
ghost use Rattle.control_block.specs.Desks.{IsFirstDesk, Belongs, endings_of};
ghost use Rattle.control_block.specs.Own.{IsSole};
ghost use Rattle.script_runner.specs.Programs.{CanClose, IsClosed};
ghost use Rattle.script_runner.specs.Tables.{FitsSlots};

use control_block::census::{Census, close};
use control_block::desk::Desk;
use control_block::domain::Domain;
use control_word::Refusal;

/// A desk that has just begun closes its domain.
pub(crate) fn shut<V: Drop>(domain: Domain<V>, desk: Desk<V>)
    requires { IsFirstDesk domain desk }
{
    match close(domain, desk) {
        Ok(census) => drop(census),
        Err(_) => unreachable!(),
    }
}

/// The domain and its desk without handles, which can close it. Where it has not the whole allowance it is given up.
pub(crate) fn keep_sole<V: Drop>(
    domain: Domain<V>,
    desk: Desk<V>,
) -> Result<(Domain<V>, Desk<V>), Refusal>
    requires here { Belongs desk domain }
    requires none { FitsSlots desk [] × (endings_of desk ≡ 0) }
    ensures kept { IfOk result (λ r. r ≡ (domain, desk)) }
    ensures sole { IfOk result (λ _. CanClose desk domain.shape) }
    ensures refused { IfErr result (λ why. (why ≡ Refusal.NotSole) × (IsSole desk → ⊥)) }
{
    desk.assert_invariant();
    if !desk.is_sole(&domain) {
        desk.give_up();
        drop(domain);
        return Err(Refusal::NotSole);
    }
    Ok((domain, desk))
}

/// A desk that can close its domain does so.
pub(crate) fn close_sole<V: Drop>(domain: Domain<V>, desk: Desk<V>) -> Census<V>
    requires here { Belongs desk domain }
    requires can { CanClose desk domain.shape }
    ensures { IsClosed desk domain.shape result }
{
    match close(domain, desk) {
        Ok(census) => census,
        Err(_) => unreachable!(),
    }
}

/// A desk without handles closes its domain. Where it has not the whole allowance it is given up.
pub(crate) fn close_bare<V: Drop>(domain: Domain<V>, desk: Desk<V>) -> Result<Census<V>, Refusal>
    requires here { Belongs desk domain }
    requires none { FitsSlots desk [] × (endings_of desk ≡ 0) }
    ensures closed { IfOk result (IsClosed desk domain.shape) }
    ensures refused { IfErr result (λ why. (why ≡ Refusal.NotSole) × (IsSole desk → ⊥)) }
{
    let (domain, desk) = keep_sole(domain, desk)?;
    Ok(close_sole(domain, desk))
}
