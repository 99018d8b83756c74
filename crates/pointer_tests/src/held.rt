//! What callers who hold a desk prove of it, with no proof file.
ghost use Rattle.std.specs.Prelude.{◌≡◌, IfOk, None, Some, false, true};
ghost use Rattle.control_word.specs.declared.model.handle.Kind.TheVariants.{Owner};
ghost use Rattle.pointers.specs.Alone.{StoresAndLoads};
ghost use Rattle.pointers.specs.Counts.{CountsTwo};
ghost use Rattle.pointers.specs.HandCalls.{FindsNow};
ghost use Rattle.pointers.specs.Known.{owned};
ghost use Rattle.pointers.specs.Places.{cell_at};

use pointers::{Desk, Domain, Fault, Hand, Member, Shared, SharedCell, Weak};
use std::sync::Wait;

/// With an owner in hand, a lock of a weak pointer to its object finds one.
pub fn finds_one<'t, D: Domain, R: Wait>(
    rt: &R,
    desk: &'t Desk<'t, D>,
    owner: &Shared<'t, D>,
    weak: &Weak<'t, D>,
) -> Result<bool, Fault>
    requires one { owned owner.now ≡ owned weak.now }
    requires some { owned owner.now ≡ None → ⊥ }
    ensures { IfOk result (λ found. found ≡ true) }
{
    let mut hand = desk.hold()?;
    hand.look(owner);
    match hand.lock(rt, weak)? {
        Some(_) => Ok(true),
        None => Ok(false),
    }
}

/// The same of plain calls, where the owner is shown.
pub fn finds_beside<'t, D: Domain, R: Wait>(
    rt: &R,
    owner: &Shared<'t, D>,
    weak: &Weak<'t, D>,
) -> Result<bool, Fault>
    requires one { owned owner.now ≡ owned weak.now }
    requires some { owned owner.now ≡ None → ⊥ }
    ensures { IfOk result (λ found. found ≡ true) }
{
    match weak.lock_beside(rt, owner)? {
        Some(_) => Ok(true),
        None => Ok(false),
    }
}

/// What was stored in a free cell is loaded again, if no other desk's step came on it between.
#[tactic(auto, using(pointers::proofs::Alone::finds_by))]
pub fn stores_and_loads<'t, D: Domain, R: Wait>(
    rt: &R,
    hand: &mut Hand<'t, D>,
    desk: &'t Desk<'t, D>,
    cell: SharedCell,
    new: Shared<'t, D>,
) -> Result<Option<Shared<'t, D>>, Fault>
    ensures { IfOk result (λ r. StoresAndLoads hand.old cell.0 (Some new.entry) r hand.new) }
{
    let place = desk.cell(cell);
    hand.store(&place, Some(new))?;
    let found = hand.load(rt, &place)?;
    Ok(found)
}

/// An object that was made and shared has two owners, if no other desk shared it between.
#[tactic(auto, using(pointers::proofs::Counts::counts_two))]
pub fn counts_two<'t, D: Domain<Value = u64>>(
    hand: &mut Hand<'t, D>,
    fields: [u64; 4],
) -> Result<(Shared<'t, D>, Shared<'t, D>, u32), Fault>
    ensures { IfOk result (λ r. CountsTwo hand.old fields 0 r.0 r.1 r.2 hand.new) }
{
    let one = hand.make(fields, 0)?;
    hand.look(&one);
    let other = hand.share(&one)?;
    let count = hand.use_count(&one);
    Ok((one, other, count))
}

/// A pointer goes into a free cell that is empty. Where it isn't, the pointer comes back, with what the cell held.
pub fn puts_where_empty<'t, D: Domain, R: Wait>(
    rt: &R,
    hand: &mut Hand<'t, D>,
    cell: &Member<'_, '_, D>,
    new: Shared<'t, D>,
) -> Result<(Option<Shared<'t, D>>, Option<Shared<'t, D>>), Fault>
    ensures put { IfOk result (λ r. (r.0 ≡ None) → FindsNow hand.old (cell_at D.opened Owner cell.now) false
        None (Some new.entry) None hand.new × (r.1 ≡ None)) }
    ensures back { IfOk result (λ r. (r.0 ≡ None → ⊥) → (r.0 ≡ Some new.entry)
        × FindsNow hand.old (cell_at D.opened Owner cell.now) false None (Some new.entry) (Some r.1) hand.new) }
{
    let mut expected = None;
    let mut desired = Some(new);
    if hand.compare_exchange_strong(rt, cell, &mut expected, &mut desired)? {
        Ok((None, None))
    } else {
        Ok((desired, expected))
    }
}
