//! Calls that count empty handles.
ghost use Rattle.std.specs.Prelude.{◌≡◌, ◌↔◌, ◌+◌, ◌-◌, None, IfErr, IsErr, OnOk};
ghost use Rattle.control_word.specs.declared.model.handle.Kind.TheVariants.{Owner};
ghost use Rattle.control_block.specs.CellCalls.{HoldsHandle};
ghost use Rattle.control_block.specs.Desks.{allowance_of, held_of};

use crate::desk::Desk;
use control_word::Refusal;

/// One empty handle more, which is only counted (own). It is refused `Limit` just where the desk is at its allowance,
/// and then nothing changes.
pub fn count_empty<V: Drop>(desk: &mut Desk<V>) -> Result<(), Refusal>
    ensures limit { IsErr result ↔ (held_of desk.old ≡ allowance_of desk.old) }
    ensures refused { IfErr result (λ why. (why ≡ Refusal.Limit) × (desk.new ≡ desk.old)) }
    ensures counted { OnOk result (desk.new ≡ record desk.old { held = desk.old.held + 1 }) }
    ensures holds { OnOk result (HoldsHandle desk.new Owner None None) }
{
    if desk.is_full() {
        return Err(Refusal::Limit);
    }
    desk.held += 1; // it has no block, and counts all the same
    Ok(())
}

/// One empty handle less (own). Condition: the desk holds one, of whichever kind.
pub fn spend_empty<V: Drop>(desk: &mut Desk<V>)
    requires holds { HoldsHandle desk.old Owner None None }
    ensures counted { desk.new ≡ record desk.old { held = desk.old.held - 1 } }
{
    desk.held -= 1; // no word knows of it
}
